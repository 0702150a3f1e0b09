use plain_types::{List, Text};

/// How a partition value comes from a column's value (Iceberg specification, "Partition Transforms").
/// The two numbers are 1 to 2^31 - 1.
#[derive(Clone, Copy, Debug, PartialEq, Eq)]
pub enum Transform {
    Identity,
    Bucket(u32),
    Truncate(u32),
    Year,
    Month,
    Day,
    Hour,
    Void,
}

/// A field of a partition spec: the id of its source column, its own id, its name and its transform.
#[derive(Debug, PartialEq, Drop)]
pub struct PartField {
    pub source: i32,
    pub field: i32,
    pub name: Text,
    pub transform: Transform,
}

/// How a table's rows are split among its files (Iceberg specification, "Partitioning").
#[derive(Debug, PartialEq, Drop)]
pub struct Spec {
    pub id: i32,
    pub fields: List<PartField>,
}
