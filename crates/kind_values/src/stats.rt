use row_values::{List, Value};

/// What is known of a column in a file; what is not known is absent.
#[derive(Debug, PartialEq, Drop)]
pub struct ColumnStats {
    /// The field id of the column.
    pub id: i32,
    /// How many values there are, NULLs among them.
    pub values: Option<u64>,
    /// How many of them are NULL.
    pub nulls: Option<u64>,
    /// No value is below.
    pub lower: Option<Value>,
    /// No value is above.
    pub upper: Option<Value>,
}

/// The columns stand in strictly rising order of ids, and of each something is known.
#[derive(Debug, PartialEq, Drop)]
pub struct Stats {
    pub columns: List<ColumnStats>,
}

/// What is known of a partition field in the files of a manifest.
#[derive(Debug, PartialEq, Drop)]
pub struct Summary {
    pub contains_null: bool,
    pub lower: Option<Value>,
    pub upper: Option<Value>,
}
