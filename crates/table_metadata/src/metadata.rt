use crate::{Properties, RefItem, Snapshot};
use row_values::{List, Spec, TableSchema, Text};
use serde_json::Value;

/// A table's metadata of format version 2.
#[derive(Drop)]
pub struct Metadata {
    pub format_version: u8,
    pub location: Text,
    pub last_sequence: i64,
    pub last_updated_ms: i64,
    pub last_column: i32,
    pub schemas: List<TableSchema>,
    pub current_schema: i32,
    pub specs: List<Spec>,
    pub default_spec: i32,
    pub last_partition: i32,
    pub properties: Properties,
    pub current_snapshot: Option<i64>,
    pub snapshots: List<Snapshot>,
    /// In byte order of their names, with `main` exactly where it has a snapshot.
    pub refs: List<RefItem>,
    /// The whole object, with every key that is not read.
    pub json: Value,
}
