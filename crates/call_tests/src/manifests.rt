//! A list and a manifest that are written and read again.

use kind_values::{ColumnStats, Stats, Summary};
use manifest_files::{Content, Entry, ManifestContent, ManifestRow, read_list, read_manifest};
use manifest_writer::{write_list, write_manifest};
use row_values::{Bytes, Column, Kind, List, PartField, Spec, TableSchema, Text, Transform, Value};
use std::alloc::{AllocError, Global};

fn summary(alloc: Global) -> Result<Summary, AllocError> {
    Ok(Summary {
        contains_null: true,
        lower: Some(Value::Bytes(Bytes::copy_of(alloc, b"a")?)),
        upper: None,
    })
}

fn row(alloc: Global) -> Result<ManifestRow, AllocError> {
    let mut partitions = List::new(alloc);
    partitions.push(summary(alloc)?)?;
    Ok(ManifestRow {
        manifest_path: Text::copy_of(alloc, "m")?,
        manifest_length: Some(90),
        partition_spec_id: 3,
        content: ManifestContent::Deletes,
        sequence_number: 7,
        min_sequence_number: 6,
        added_snapshot_id: 42,
        added_files_count: Some(1),
        existing_files_count: None,
        deleted_files_count: Some(0),
        added_rows_count: Some(5),
        existing_rows_count: None,
        deleted_rows_count: Some(0),
        partitions,
    })
}

fn list_comes_back(alloc: Global) -> bool {
    let Ok(row) = row(alloc) else {
        return false;
    };
    let rows = [row];
    let Ok(bytes) = write_list(alloc, &rows) else {
        return false;
    };
    match read_list(alloc, bytes.as_slice()) {
        Ok(read) => read.as_slice() == rows.as_slice(),
        Err(_fault) => false,
    }
}

#[test]
fn a_list_is_read_again(rt: HostRuntime) {
    assert!(rt; list_comes_back(rt.alloc()));
}

/// What is known of the column 2, and of the path column of delete files.
fn stats(alloc: Global) -> Result<Stats, AllocError> {
    let mut columns = List::new(alloc);
    columns.push(ColumnStats {
        id: 2,
        values: Some(5),
        nulls: None,
        lower: Some(amount(-1)),
        upper: Some(amount(1420)),
    })?;
    columns.push(ColumnStats {
        id: 2147483546,
        values: None,
        nulls: Some(0),
        lower: None,
        upper: Some(Value::Text(Text::copy_of(alloc, "d")?)),
    })?;
    Ok(Stats { columns })
}

fn amount(unscaled: i128) -> Value {
    Value::Decimal { unscaled, scale: 2 }
}

/// A date, an amount, NULL, NULL under a void transform and an amount again.
fn partition(alloc: Global) -> Result<List<Value>, AllocError> {
    let mut values = List::new(alloc);
    values.push(Value::Date(19000))?;
    values.push(amount(-129))?;
    values.push(Value::Null)?;
    values.push(Value::Null)?;
    values.push(amount(250))?;
    Ok(values)
}

/// An entry with this status, whose sequence number is the row's.
fn entry(alloc: Global, status: u8) -> Result<Entry, AllocError> {
    let mut equality_ids = List::new(alloc);
    equality_ids.push(4)?;
    Ok(Entry {
        status,
        snapshot: 42,
        seq: 7,
        file_seq: 7,
        content: Content::EqualityDeletes,
        path: Text::copy_of(alloc, "f")?,
        spec: 3,
        partition: partition(alloc)?,
        count: 5,
        size: 90,
        stats: stats(alloc)?,
        equality_ids,
        referenced: Some(Text::copy_of(alloc, "d")?),
    })
}

fn column(alloc: Global, id: i32, kind: Kind) -> Result<Column, AllocError> {
    Ok(Column {
        id,
        name: Text::copy_of(alloc, "c")?,
        kind,
        required: false,
    })
}

fn schema(alloc: Global) -> Result<TableSchema, AllocError> {
    let mut columns = List::new(alloc);
    let decimal = Kind::Decimal {
        precision: 9,
        scale: 2,
    };
    columns.push(column(alloc, 1, Kind::Timestamp { utc: true })?)?;
    columns.push(column(alloc, 2, decimal)?)?;
    Ok(TableSchema { id: 0, columns })
}

fn part(
    alloc: Global,
    source: i32,
    field: i32,
    transform: Transform,
) -> Result<PartField, AllocError> {
    Ok(PartField {
        source,
        field,
        name: Text::copy_of(alloc, "1 c")?,
        transform,
    })
}

/// A day, an amount, a bucket, a void field and the amount again, whose names are none of Avro.
fn spec(alloc: Global) -> Result<Spec, AllocError> {
    let mut fields = List::new(alloc);
    fields.push(part(alloc, 1, 1000, Transform::Day)?)?;
    fields.push(part(alloc, 2, 1001, Transform::Identity)?)?;
    fields.push(part(alloc, 2, 1002, Transform::Bucket(4))?)?;
    fields.push(part(alloc, 2, 1003, Transform::Void)?)?;
    fields.push(part(alloc, 2, 1004, Transform::Identity)?)?;
    Ok(Spec { id: 3, fields })
}

fn entry_comes_back(alloc: Global, status: u8) -> Result<bool, AllocError> {
    let spec = spec(alloc)?;
    let schema = schema(alloc)?;
    let entries = [entry(alloc, status)?];
    let bytes = write_manifest(alloc, &entries, &spec, &schema)?;
    match read_manifest(alloc, bytes.as_slice(), &row(alloc)?, &spec, &schema) {
        Ok(read) => Ok(read.as_slice() == entries.as_slice() && entries[0].is_live()),
        Err(_fault) => Ok(false),
    }
}

#[test]
fn an_entry_is_read_again(rt: HostRuntime) {
    for status in [0, 1] {
        assert!(rt;
            entry_comes_back(rt.alloc(), status) == Ok(true),
            "{status}"
        );
    }
}
