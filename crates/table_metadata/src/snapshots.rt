//! The snapshots of a table's metadata.
ghost use Rattle.std.specs.Prelude.{◌≡◌, [], option_and_then};
ghost use Rattle.plain_types.specs.Answers.{Answers};
ghost use Rattle.serde_json.specs.View.{view, items_view};
ghost use Rattle.iceberg_schema.specs.Keys.{in_int, long_of};
ghost use Rattle.table_metadata.specs.Snapshots.{optional_long, optional_int, operation_in, operation_of, snapshot_of, snapshots_from, snapshots_of};

use crate::MetadataFault;
use crate::table_keys::{shape, shaped_long, shaped_text};
use iceberg_schema::{in_int, items_at};
use row_values::{List, Text};
use serde_json::Value;
use std::alloc::Global;

/// A version of the table's rows (Iceberg specification, "Snapshots").
#[derive(Debug, PartialEq, Drop)]
pub struct Snapshot {
    pub id: i64,
    pub parent: Option<i64>,
    pub seq: i64,
    pub timestamp_ms: i64,
    /// The path of the manifest list.
    pub list: Text,
    /// The operation of the summary, or the empty text where there is none.
    pub operation: Text,
    pub schema: Option<i32>,
}

#[tactic(auto, unfolding(crate::specs::Snapshots::snapshots_of))]
pub(crate) fn read_snapshots(alloc: Global, json: &Value) -> Result<List<Snapshot>, MetadataFault>
    ensures answers { Answers MetadataFault.Memory (λ snapshots. snapshots) result (snapshots_of (view json.now)) }
{
    match items_at(json, "snapshots") {
        Some(items) => read_items(alloc, items),
        None => Ok(List::new(alloc)),
    }
}

#[tactic(auto, unfolding(crate::specs::Snapshots::snapshots_from))]
fn read_items(alloc: Global, items: &[Value]) -> Result<List<Snapshot>, MetadataFault>
    ensures answers { Answers MetadataFault.Memory (λ snapshots. snapshots) result (snapshots_from [] (items_view items.now)) }
{
    let mut snapshots = Vec::new(alloc);
    let mut rest = items;
    while let [first, after @ ..] = rest {
        let snapshot = read_snapshot(alloc, first)?;
        snapshots.push(snapshot)?;
        rest = after;
    }
    Ok(List::from_vec(snapshots))
}

#[tactic(auto, unfolding(crate::specs::Snapshots::snapshot_of))]
fn read_snapshot(alloc: Global, json: &Value) -> Result<Snapshot, MetadataFault>
    ensures answers { Answers MetadataFault.Memory (λ snapshot. snapshot) result (snapshot_of (view json.now)) }
{
    let id = shaped_long(alloc, json, "snapshot-id")?;
    let seq = shaped_long(alloc, json, "sequence-number")?;
    let timestamp_ms = shaped_long(alloc, json, "timestamp-ms")?;
    let list = shaped_text(alloc, json, "manifest-list")?;
    let parent = optional_long(alloc, json, "parent-snapshot-id")?;
    let operation = read_operation(alloc, json)?;
    let schema = optional_int(alloc, json, "schema-id")?;
    Ok(Snapshot {
        id,
        parent,
        seq,
        timestamp_ms,
        list: Text::copy_of(alloc, list)?,
        operation: Text::copy_of(alloc, operation)?,
        schema,
    })
}

fn optional_long(alloc: Global, json: &Value, key: &str) -> Result<Option<i64>, MetadataFault>
    ensures answers { Answers MetadataFault.Memory (λ n. n) result (optional_long key.now (view json.now)) }
{
    let Some(value) = json.get(key) else {
        return Ok(None);
    };
    match value.as_i64() {
        Some(number) => Ok(Some(number)),
        None => Err(shape(alloc, key)),
    }
}

// The number, where it is one of 32 bits.
fn int_of(json: &Value) -> Option<i32>
    ensures { result ≡ option_and_then in_int (long_of (view json.now)) }
{
    match json.as_i64() {
        Some(number) => in_int(number),
        None => None,
    }
}

fn optional_int(alloc: Global, json: &Value, key: &str) -> Result<Option<i32>, MetadataFault>
    ensures answers { Answers MetadataFault.Memory (λ n. n) result (optional_int key.now (view json.now)) }
{
    let Some(value) = json.get(key) else {
        return Ok(None);
    };
    match int_of(value) {
        Some(number) => Ok(Some(number)),
        None => Err(shape(alloc, key)),
    }
}

/// The operation, or the empty text where there is none.
#[tactic(auto, unfolding(crate::specs::Snapshots::operation_of))]
fn read_operation(alloc: Global, json: &Value) -> Result<&str, MetadataFault>
    ensures answers { Answers MetadataFault.Memory (λ s. s.now) result (operation_of (view json.now)) }
{
    let Some(summary) = json.get("summary") else {
        return Ok("");
    };
    if !summary.is_object() {
        return Err(shape(alloc, "summary"));
    }
    operation_in(alloc, summary)
}

#[tactic(auto, unfolding(crate::specs::Snapshots::operation_in))]
fn operation_in(alloc: Global, summary: &Value) -> Result<&str, MetadataFault>
    ensures answers { Answers MetadataFault.Memory (λ s. s.now) result (operation_in (view summary.now)) }
{
    let Some(value) = summary.get("operation") else {
        return Ok("");
    };
    match value.as_str() {
        Some(operation) => Ok(operation),
        None => Err(shape(alloc, "summary")),
    }
}
