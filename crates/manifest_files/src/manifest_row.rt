//! A row of a manifest list.

use kind_values::Summary;
use row_values::{List, Text};

/// What the files of a manifest hold.
#[derive(Clone, Copy, Debug, PartialEq, Eq)]
pub enum ManifestContent {
    Data,
    Deletes,
}

/// A manifest of a snapshot.
#[derive(Debug, PartialEq, Drop)]
pub struct ManifestRow {
    pub manifest_path: Text,
    pub manifest_length: Option<i64>,
    pub partition_spec_id: i32,
    pub content: ManifestContent,
    /// What the entries that this manifest adds inherit, with `added_snapshot_id`.
    pub sequence_number: i64,
    pub min_sequence_number: i64,
    pub added_snapshot_id: i64,
    pub added_files_count: Option<i32>,
    pub existing_files_count: Option<i32>,
    pub deleted_files_count: Option<i32>,
    pub added_rows_count: Option<i64>,
    pub existing_rows_count: Option<i64>,
    pub deleted_rows_count: Option<i64>,
    /// One for each field of the spec, whose bounds are bytes as the list has them; empty where the row has none.
    pub partitions: List<Summary>,
}

/// What each row has.
#[derive(Debug, Drop)]
pub struct RowHead {
    pub path: Text,
    pub spec: i32,
    pub content: ManifestContent,
    pub seq: i64,
    pub min_seq: i64,
    pub snapshot: i64,
}
