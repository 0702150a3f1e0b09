//! The form of what stands under the keys of a table's metadata.
ghost use Rattle.std.specs.Prelude.{◌≡◌, ◌≢◌, codes, option_and_then};
ghost use Rattle.plain_types.specs.Answers.{Answers};
ghost use Rattle.serde_json.specs.Find.{get};
ghost use Rattle.serde_json.specs.View.{view, items_view, members_view};
ghost use Rattle.iceberg_schema.specs.Keys.{long_at, int_at, text_at, items_at, whole_of};
ghost use Rattle.table_metadata.specs.TableKeys.{
  shaped,
  is_uuid,
  plain_keys_of,
  distinct_items,
  listed_id,
  current_ids_of,
  all_texts,
  all_members_objects,
  properties_shape,
  current_snapshot_of,
  are_snapshots,
  snapshots_shape,
  log_shape,
  refs_shape,
  optional_keys_of,
};

use crate::MetadataFault;
use iceberg_schema::{
    all_objects, has_id, has_twice, int_at, items_at, long_at, text_at, whole_of,
};
use row_values::Text;
use serde_json::{Map, Value};
use std::alloc::Global;
use uuid::Uuid;

/// The keys that say something by themselves.
#[derive(Drop)]
pub(crate) struct PlainKeys {
    pub location: Text,
    pub last_sequence: i64,
    pub last_updated_ms: i64,
    pub last_column: i32,
}

/// The keys that name an element of a list.
#[derive(Drop)]
pub(crate) struct CurrentIds {
    pub schema: i32,
    pub spec: i32,
    pub last_partition: i32,
}

/// The version of the format, where it is a whole number.
pub(crate) fn version_of(json: &Value) -> Option<i128>
    ensures { result ≡ option_and_then whole_of (get (codes "format-version") (view json.now)) }
{
    match json.get("format-version") {
        Some(number) => whole_of(number),
        None => None,
    }
}

#[tactic(auto, unfolding(crate::specs::TableKeys::plain_keys_of))]
pub(crate) fn read_plain_keys(alloc: Global, json: &Value) -> Result<PlainKeys, MetadataFault>
    ensures answers { Answers MetadataFault.Memory (λ keys. keys) result (plain_keys_of (view json.now)) }
{
    if version_of(json).is_none() {
        return Err(shape(alloc, "format-version"));
    }
    let uuid = shaped_text(alloc, json, "table-uuid")?;
    if !is_uuid(uuid) {
        return Err(shape(alloc, "table-uuid"));
    }
    let location = shaped_text(alloc, json, "location")?;
    let last_sequence = shaped_long(alloc, json, "last-sequence-number")?;
    let last_updated_ms = shaped_long(alloc, json, "last-updated-ms")?;
    let last_column = shaped_int(alloc, json, "last-column-id")?;
    Ok(PlainKeys {
        location: Text::copy_of(alloc, location)?,
        last_sequence,
        last_updated_ms,
        last_column,
    })
}

/// A uuid in any of its text forms.
#[tactic(auto, unfolding(crate::specs::TableKeys::is_uuid))]
fn is_uuid(text: &str) -> bool
    ensures { result ≡ is_uuid text.now }
{
    match Uuid::parse_str(text) {
        Ok(_) => true,
        Err(_) => false,
    }
}

#[tactic(auto, unfolding(crate::specs::TableKeys::current_ids_of))]
pub(crate) fn read_current_ids(alloc: Global, json: &Value) -> Result<CurrentIds, MetadataFault>
    ensures answers { Answers MetadataFault.Memory (λ ids. ids) result (current_ids_of (view json.now)) }
{
    let schemas = distinct_items(alloc, json, "schemas", "schema-id")?;
    let schema = listed_id(alloc, json, "current-schema-id", "schema-id", schemas)?;
    let specs = distinct_items(alloc, json, "partition-specs", "spec-id")?;
    let spec = listed_id(alloc, json, "default-spec-id", "spec-id", specs)?;
    let last_partition = shaped_int(alloc, json, "last-partition-id")?;
    Ok(CurrentIds {
        schema,
        spec,
        last_partition,
    })
}

/// The id of the current snapshot, where the table has one, once each optional key has its form.
#[tactic(auto, unfolding(crate::specs::TableKeys::optional_keys_of))]
pub(crate) fn read_optional_keys(alloc: Global, json: &Value) -> Result<Option<i64>, MetadataFault>
    ensures answers { Answers MetadataFault.Memory (λ current. current) result (optional_keys_of (view json.now)) }
{
    properties_shape(alloc, json)?;
    let current = read_current_snapshot(alloc, json)?;
    snapshots_shape(alloc, json)?;
    log_shape(alloc, json)?;
    refs_shape(alloc, json)?;
    Ok(current)
}

/// The fault of a key.
pub(crate) fn shape(alloc: Global, key: &str) -> MetadataFault
    ensures { result ≢ MetadataFault.Memory → result ≡ MetadataFault.Shape key.now }
{
    match Text::copy_of(alloc, key) {
        Ok(key) => MetadataFault::Shape(key),
        Err(_) => MetadataFault::Memory,
    }
}

pub(crate) fn shaped_text<'v>(
    alloc: Global,
    json: &'v Value,
    key: &str,
) -> Result<&'v str, MetadataFault>
    ensures answers { Answers MetadataFault.Memory (λ s. s.now) result (shaped key.now (text_at key.now (view json.now))) }
{
    match text_at(json, key) {
        Some(text) => Ok(text),
        None => Err(shape(alloc, key)),
    }
}

pub(crate) fn shaped_long(alloc: Global, json: &Value, key: &str) -> Result<i64, MetadataFault>
    ensures answers { Answers MetadataFault.Memory (λ n. n) result (shaped key.now (long_at key.now (view json.now))) }
{
    match long_at(json, key) {
        Some(number) => Ok(number),
        None => Err(shape(alloc, key)),
    }
}

fn shaped_int(alloc: Global, json: &Value, key: &str) -> Result<i32, MetadataFault>
    ensures answers { Answers MetadataFault.Memory (λ n. n) result (shaped key.now (int_at key.now (view json.now))) }
{
    match int_at(json, key) {
        Some(number) => Ok(number),
        None => Err(shape(alloc, key)),
    }
}

/// A list in which no two elements have one id.
fn distinct_items<'v>(
    alloc: Global,
    json: &'v Value,
    key: &str,
    id_key: &str,
) -> Result<&'v [Value], MetadataFault>
    ensures answers { Answers MetadataFault.Memory (λ items. items_view items.now) result (distinct_items key.now id_key.now (view json.now)) }
{
    let Some(items) = items_at(json, key) else {
        return Err(shape(alloc, key));
    };
    if has_twice(id_key, items) {
        return Err(shape(alloc, key));
    }
    Ok(items)
}

/// The id of one of the elements.
fn listed_id(
    alloc: Global,
    json: &Value,
    key: &str,
    id_key: &str,
    items: &[Value],
) -> Result<i32, MetadataFault>
    ensures answers { Answers MetadataFault.Memory (λ id. id) result (listed_id key.now id_key.now (items_view items.now) (view json.now)) }
{
    let id = shaped_int(alloc, json, key)?;
    if !has_id(id_key, i64::from(id), items) {
        return Err(shape(alloc, key));
    }
    Ok(id)
}

#[tactic(auto, unfolding(crate::specs::TableKeys::properties_shape))]
pub(crate) fn properties_shape(alloc: Global, json: &Value) -> Result<(), MetadataFault>
    ensures answers { Answers MetadataFault.Memory (λ x. x) result (properties_shape (view json.now)) }
{
    let Some(value) = json.get("properties") else {
        return Ok(());
    };
    let Some(properties) = value.as_object() else {
        return Err(shape(alloc, "properties"));
    };
    if !all_texts(properties) {
        return Err(shape(alloc, "properties"));
    }
    Ok(())
}

/// Null and -1 say that the table has no snapshot.
#[tactic(auto, unfolding(crate::specs::TableKeys::current_snapshot_of))]
fn read_current_snapshot(alloc: Global, json: &Value) -> Result<Option<i64>, MetadataFault>
    ensures answers { Answers MetadataFault.Memory (λ current. current) result (current_snapshot_of (view json.now)) }
{
    let Some(value) = json.get("current-snapshot-id") else {
        return Ok(None);
    };
    if value.is_null() {
        return Ok(None);
    }
    let Some(id) = value.as_i64() else {
        return Err(shape(alloc, "current-snapshot-id"));
    };
    if id == -1 {
        return Ok(None);
    }
    Ok(Some(id))
}

#[tactic(auto, unfolding(crate::specs::TableKeys::snapshots_shape))]
fn snapshots_shape(alloc: Global, json: &Value) -> Result<(), MetadataFault>
    ensures answers { Answers MetadataFault.Memory (λ x. x) result (snapshots_shape (view json.now)) }
{
    let Some(value) = json.get("snapshots") else {
        return Ok(());
    };
    let Some(snapshots) = value.as_array() else {
        return Err(shape(alloc, "snapshots"));
    };
    if !are_snapshots(snapshots.as_slice()) {
        return Err(shape(alloc, "snapshots"));
    }
    Ok(())
}

/// Objects whose ids differ, none of which is -1.
#[tactic(auto, unfolding(crate::specs::TableKeys::are_snapshots))]
fn are_snapshots(items: &[Value]) -> bool
    ensures { result ≡ are_snapshots (items_view items.now) }
{
    if !all_objects(items) {
        return false;
    }
    if has_twice("snapshot-id", items) {
        return false;
    }
    !has_id("snapshot-id", -1, items)
}

#[tactic(auto, unfolding(crate::specs::TableKeys::log_shape))]
fn log_shape(alloc: Global, json: &Value) -> Result<(), MetadataFault>
    ensures answers { Answers MetadataFault.Memory (λ x. x) result (log_shape (view json.now)) }
{
    let Some(value) = json.get("snapshot-log") else {
        return Ok(());
    };
    if !value.is_array() {
        return Err(shape(alloc, "snapshot-log"));
    }
    Ok(())
}

#[tactic(auto, unfolding(crate::specs::TableKeys::refs_shape))]
fn refs_shape(alloc: Global, json: &Value) -> Result<(), MetadataFault>
    ensures answers { Answers MetadataFault.Memory (λ x. x) result (refs_shape (view json.now)) }
{
    let Some(value) = json.get("refs") else {
        return Ok(());
    };
    let Some(refs) = value.as_object() else {
        return Err(shape(alloc, "refs"));
    };
    if !all_members_objects(refs) {
        return Err(shape(alloc, "refs"));
    }
    Ok(())
}

#[tactic(auto, unfolding(crate::specs::TableKeys::all_texts))]
fn all_texts(members: &Map<String, Value>) -> bool
    ensures { result ≡ all_texts (members_view members.now.entries) }
{
    for (_, value) in members.iter() {
        if !value.is_string() {
            return false;
        }
    }
    true
}

#[tactic(auto, unfolding(crate::specs::TableKeys::all_members_objects))]
fn all_members_objects(members: &Map<String, Value>) -> bool
    ensures { result ≡ all_members_objects (members_view members.now.entries) }
{
    for (_, value) in members.iter() {
        if !value.is_object() {
            return false;
        }
    }
    true
}
