//! Rows of every kind, written and read again.

use avro_container::read_container;
use avro_rows::{Column, Kind, List, Row, TableSchema, Value, read_rows};
use row_values::{Bytes, Text};
use row_writer::{are_rows, write_rows};
use std::alloc::{AllocError, Global};
use std::test::Fail;

fn column(
    alloc: Global,
    columns: &mut List<Column>,
    kind: Kind,
    required: bool,
) -> Result<(), AllocError> {
    let id = (columns.len() % 100) as i32 - 1;
    columns.push(Column {
        id,
        name: Text::copy_of(alloc, "a column")?,
        kind,
        required,
    })
}

/// Two decimals of one type, ids on both sides of 0 and a name that stands twice and is none of Avro's.
fn columns(alloc: Global) -> Result<List<Column>, AllocError> {
    let price = Kind::Decimal {
        precision: 38,
        scale: 2,
    };
    let kinds = [
        Kind::Bool,
        Kind::Int,
        Kind::Long,
        Kind::Date,
        Kind::Timestamp { utc: true },
        price,
        price,
        Kind::Text,
        Kind::Bytes,
    ];
    let mut columns = List::new(alloc);
    for kind in kinds {
        let required = columns.len() % 2 == 1;
        column(alloc, &mut columns, kind, required)?;
    }
    Ok(columns)
}

fn values(alloc: Global) -> Result<Row, AllocError> {
    let mut row = List::new(alloc);
    row.push(Value::Bool(true))?;
    row.push(Value::Int(-2147483648))?;
    row.push(Value::Long(9223372036854775807))?;
    row.push(Value::Date(-719162))?;
    row.push(Value::Timestamp(253402300799999999))?;
    row.push(Value::Decimal {
        unscaled: -99999999999999999999999999999999999999,
        scale: 2,
    })?;
    row.push(Value::Decimal {
        unscaled: 129,
        scale: 2,
    })?;
    row.push(Value::Text(Text::copy_of(alloc, "na\u{ef}ve")?))?;
    row.push(Value::Bytes(Bytes::copy_of(alloc, b"\x00\xff")?))?;
    Ok(row)
}

/// NULL in each column that may hold it.
fn nulls(alloc: Global, columns: &[Column], row: &[Value]) -> Result<Row, AllocError> {
    let mut nulls = List::new(alloc);
    for (column, value) in columns.iter().zip(row) {
        if column.required {
            nulls.push(value.copy(alloc)?)?;
        } else {
            nulls.push(Value::Null)?;
        }
    }
    Ok(nulls)
}

/// Whether the rows can be written, and are read again as they were.
fn come_back(alloc: Global, schema: &TableSchema, rows: &List<Row>) -> bool {
    if !are_rows(schema.columns.as_slice(), rows.as_slice()) {
        return false;
    }
    let Ok(bytes) = write_rows(alloc, schema, rows.as_slice()) else {
        return false;
    };
    let Ok(container) = read_container(alloc, bytes.as_slice()) else {
        return false;
    };
    match read_rows(alloc, &container, schema) {
        Ok(found) => found == *rows,
        Err(_) => false,
    }
}

#[test]
fn rows_of_every_kind_come_back(rt: HostRuntime) -> Result<(), Fail> {
    let alloc = rt.alloc();
    let schema = TableSchema {
        id: 0,
        columns: columns(alloc)?,
    };
    let row = values(alloc)?;
    let mut rows = List::new(alloc);
    rows.push(nulls(alloc, schema.columns.as_slice(), row.as_slice())?)?;
    rows.push(row)?;
    assert!(rt; come_back(alloc, &schema, &rows));
    Ok(())
}
