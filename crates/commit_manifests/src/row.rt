//! The row of a manifest.
ghost use Rattle.std.specs.Prelude.{◌≡◌, IfOk};
ghost use Rattle.commit_manifests.specs.Rows.{long_of, row_of};

use crate::CommitNumbers;
use crate::counts::{files_with, rows_with};
use crate::sequence::least_number;
use crate::summary::summaries_of;
use manifest_files::{Entry, ManifestContent, ManifestRow};
use row_values::{Spec, Text};
use std::alloc::{AllocError, Global};

const EXISTING: u8 = 0;

const ADDED: u8 = 1;

const DELETED: u8 = 2;

fn long_of(length: usize) -> Option<i64>
    ensures { result ≡ long_of length }
{
    if length <= i64::MAX as usize {
        Some(length as i64)
    } else {
        None
    }
}

/// The row of the manifest with these entries, which a commit with these numbers writes at the path.
pub fn row_of(
    alloc: Global,
    path: Text,
    length: usize,
    spec: &Spec,
    content: ManifestContent,
    numbers: CommitNumbers,
    entries: &[Entry],
) -> Result<ManifestRow, AllocError>
    ensures { IfOk result (λ row. row ≡ row_of path length spec.now content numbers entries.now) }
{
    let partitions = summaries_of(alloc, spec.fields.len(), entries)?;
    Ok(ManifestRow {
        manifest_path: path,
        manifest_length: long_of(length),
        partition_spec_id: spec.id,
        content,
        sequence_number: numbers.seq,
        min_sequence_number: least_number(numbers.seq, entries),
        added_snapshot_id: numbers.snapshot,
        added_files_count: Some(files_with(ADDED, entries)),
        existing_files_count: Some(files_with(EXISTING, entries)),
        deleted_files_count: Some(files_with(DELETED, entries)),
        added_rows_count: Some(rows_with(ADDED, entries)),
        existing_rows_count: Some(rows_with(EXISTING, entries)),
        deleted_rows_count: Some(rows_with(DELETED, entries)),
        partitions,
    })
}
