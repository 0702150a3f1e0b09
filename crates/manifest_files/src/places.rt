//! Where the fields stand in the records of a file: each by its place in its record, and nowhere where the file lacks it.

use row_values::{Kind, List};

/// A map with whole numbers as keys: its place, and those of the key and the value in its pairs.
#[derive(Clone, Copy, Debug, PartialEq, Eq)]
pub struct PairPlaces {
    pub place: Option<usize>,
    pub key: usize,
    pub value: usize,
}

/// A partition field, and the kind of its values; with none they are all NULL.
#[derive(Clone, Copy, Debug, PartialEq, Eq)]
pub struct PartPlace {
    pub field: i32,
    pub kind: Option<Kind>,
    pub place: usize,
}

/// The fields of `data_file`.
#[derive(Debug, Drop)]
pub struct FilePlaces {
    pub content: Option<usize>,
    pub path: usize,
    pub format: usize,
    pub partition: usize,
    pub part_fields: List<PartPlace>,
    pub count: usize,
    pub size: usize,
    pub values: PairPlaces,
    pub nulls: PairPlaces,
    pub lower: PairPlaces,
    pub upper: PairPlaces,
    pub key: Option<usize>,
    pub equality_ids: Option<usize>,
    pub referenced: Option<usize>,
}

/// The fields of `manifest_entry`.
#[derive(Debug, Drop)]
pub struct EntryPlaces {
    pub status: usize,
    pub snapshot: Option<usize>,
    pub seq: Option<usize>,
    pub file_seq: Option<usize>,
    pub data_file: usize,
    pub file: FilePlaces,
}

/// The summaries of a manifest's partitions: their place, and those of their fields.
#[derive(Clone, Copy, Debug, PartialEq, Eq)]
pub struct SummaryPlaces {
    pub place: Option<usize>,
    pub contains_null: usize,
    pub lower: Option<usize>,
    pub upper: Option<usize>,
}

/// The fields of `manifest_file`.
#[derive(Debug, Drop)]
pub struct RowPlaces {
    pub path: usize,
    pub file_length: Option<usize>,
    pub spec: usize,
    pub content: usize,
    pub seq: usize,
    pub min_seq: usize,
    pub snapshot: usize,
    pub added_files: Option<usize>,
    pub existing_files: Option<usize>,
    pub deleted_files: Option<usize>,
    pub added_rows: Option<usize>,
    pub existing_rows: Option<usize>,
    pub deleted_rows: Option<usize>,
    pub summaries: SummaryPlaces,
    pub key: Option<usize>,
}
