//! What a statement reads of a branch, and what it decides.

use manifest_files::Entry;
use plain_types::List;
use row_values::Row;

/// A row of a data file of the branch.
#[derive(Debug, Drop)]
pub struct LiveRow {
    /// How many rows of the file come before it.
    pub position: u64,
    pub row: Row,
    /// Whether the statement's filter is True of it.
    pub hit: bool,
}

/// A data file of the branch that has a row that is hit, with all its rows.
#[derive(Debug, Drop)]
pub struct ScannedFile {
    pub entry: Entry,
    pub rows: List<LiveRow>,
}

/// What becomes of a row.
#[derive(Debug, Drop)]
pub enum Decision {
    Keep,
    Remove,
    Replace(Row),
}

/// What a statement does to the rows of its branch.
#[derive(Debug, Drop)]
pub struct Decisions {
    /// One for each row that is hit, in the order of the scanned files.
    pub rows: List<Decision>,
    pub inserted: List<Row>,
}
