//! Copies of entries, and of rows of manifest lists.
ghost use Rattle.std.specs.Prelude.{◌≡◌, IfOk};

use kind_values::{ColumnStats, Stats, Summary};
use manifest_files::{Entry, ManifestRow};
use plain_types::{List, Text};
use row_values::{Value, copy_row};
use std::alloc::{AllocError, Global};

fn copy_bound(alloc: Global, bound: &Option<Value>) -> Result<Option<Value>, AllocError>
    ensures { IfOk result (λ copy. copy ≡ bound.now) }
{
    match bound {
        Some(value) => Ok(Some(value.copy(alloc)?)),
        None => Ok(None),
    }
}

fn copy_column(alloc: Global, column: &ColumnStats) -> Result<ColumnStats, AllocError>
    ensures { IfOk result (λ copy. copy ≡ column.now) }
{
    Ok(ColumnStats {
        id: column.id,
        values: column.values,
        nulls: column.nulls,
        lower: copy_bound(alloc, &column.lower)?,
        upper: copy_bound(alloc, &column.upper)?,
    })
}

fn copy_columns(alloc: Global, columns: &[ColumnStats]) -> Result<List<ColumnStats>, AllocError>
    ensures { IfOk result (λ copy. copy ≡ columns.now) }
{
    let mut copy = List::new(alloc);
    for column in columns {
        copy.push(copy_column(alloc, column)?)?;
    }
    Ok(copy)
}

fn copy_ids(alloc: Global, ids: &[i32]) -> Result<List<i32>, AllocError>
    ensures { IfOk result (λ copy. copy ≡ ids.now) }
{
    let mut copy = List::new(alloc);
    for id in ids {
        copy.push(*id)?;
    }
    Ok(copy)
}

fn copy_path(alloc: Global, path: &Option<Text>) -> Result<Option<Text>, AllocError>
    ensures { IfOk result (λ copy. copy ≡ path.now) }
{
    match path {
        Some(text) => Ok(Some(Text::copy_of(alloc, text.as_str())?)),
        None => Ok(None),
    }
}

/// An equal entry.
pub fn copy_entry(alloc: Global, entry: &Entry) -> Result<Entry, AllocError>
    ensures { IfOk result (λ copy. copy ≡ entry.now) }
{
    Ok(Entry {
        status: entry.status,
        snapshot: entry.snapshot,
        seq: entry.seq,
        file_seq: entry.file_seq,
        content: entry.content,
        path: Text::copy_of(alloc, entry.path.as_str())?,
        spec: entry.spec,
        partition: copy_row(alloc, entry.partition.as_slice())?,
        count: entry.count,
        size: entry.size,
        stats: Stats {
            columns: copy_columns(alloc, entry.stats.columns.as_slice())?,
        },
        equality_ids: copy_ids(alloc, entry.equality_ids.as_slice())?,
        referenced: copy_path(alloc, &entry.referenced)?,
    })
}

fn copy_summary(alloc: Global, summary: &Summary) -> Result<Summary, AllocError>
    ensures { IfOk result (λ copy. copy ≡ summary.now) }
{
    Ok(Summary {
        contains_null: summary.contains_null,
        lower: copy_bound(alloc, &summary.lower)?,
        upper: copy_bound(alloc, &summary.upper)?,
    })
}

fn copy_summaries(alloc: Global, summaries: &[Summary]) -> Result<List<Summary>, AllocError>
    ensures { IfOk result (λ copy. copy ≡ summaries.now) }
{
    let mut copy = List::new(alloc);
    for summary in summaries {
        copy.push(copy_summary(alloc, summary)?)?;
    }
    Ok(copy)
}

/// An equal row of a manifest list.
pub fn copy_manifest_row(alloc: Global, row: &ManifestRow) -> Result<ManifestRow, AllocError>
    ensures { IfOk result (λ copy. copy ≡ row.now) }
{
    Ok(ManifestRow {
        manifest_path: Text::copy_of(alloc, row.manifest_path.as_str())?,
        manifest_length: row.manifest_length,
        partition_spec_id: row.partition_spec_id,
        content: row.content,
        sequence_number: row.sequence_number,
        min_sequence_number: row.min_sequence_number,
        added_snapshot_id: row.added_snapshot_id,
        added_files_count: row.added_files_count,
        existing_files_count: row.existing_files_count,
        deleted_files_count: row.deleted_files_count,
        added_rows_count: row.added_rows_count,
        existing_rows_count: row.existing_rows_count,
        deleted_rows_count: row.deleted_rows_count,
        partitions: copy_summaries(alloc, row.partitions.as_slice())?,
    })
}
