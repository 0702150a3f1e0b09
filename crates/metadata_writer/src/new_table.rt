//! The JSON of a new table's metadata.
ghost use Rattle.std.specs.Prelude.{◌≡◌, IfOk};
ghost use Rattle.serde_json.specs.Data.{array, no_items};
ghost use Rattle.serde_json.specs.View.{view};
ghost use Rattle.metadata_writer.specs.NewTable.{
  first_version,
  made,
  name_keys,
  one_item,
  order_data,
  order_keys,
  schema_keys,
  schema_list,
  spec_data,
  spec_keys,
  spec_list,
  time_keys,
  version_keys,
};

use crate::edits::{empty_object, with_int, with_key, with_number, with_text};
use plain_types::Text;
use serde_json::Value;
use std::alloc::{AllocError, Global};

/// What a table is made of.
#[derive(Drop)]
pub struct NewTable {
    pub location: Text,
    pub uuid: Text,
    /// The JSON of the schema, with its id.
    pub schema: Value,
    pub schema_id: i32,
    /// The greatest column id.
    pub last_column: i32,
    /// The JSON of the partition fields, an array.
    pub fields: Value,
    /// The greatest field id, at least 999.
    pub last_partition: i32,
    /// An object of texts.
    pub properties: Value,
    pub created_ms: i64,
}

/// The metadata of the table's first version, which has no snapshot.
#[tactic(auto, unfolding(crate::specs::NewTable::first_version))]
pub fn first_version(alloc: Global, table: &NewTable) -> Result<Value, AllocError>
    ensures { IfOk result (λ v. view v ≡ first_version (made table.now)) }
{
    let json = order_keys(alloc, table)?;
    with_key(alloc, json, "properties", table.properties.clone()?)
}

#[tactic(auto, unfolding(crate::specs::NewTable::version_keys))]
fn version_keys(alloc: Global, table: &NewTable) -> Result<Value, AllocError>
    ensures { IfOk result (λ v. view v ≡ version_keys (made table.now)) }
{
    let json = with_int(alloc, empty_object(alloc), "format-version", &2)?;
    with_text(alloc, json, "table-uuid", table.uuid.as_str())
}

#[tactic(auto, unfolding(crate::specs::NewTable::name_keys))]
fn name_keys(alloc: Global, table: &NewTable) -> Result<Value, AllocError>
    ensures { IfOk result (λ v. view v ≡ name_keys (made table.now)) }
{
    let json = version_keys(alloc, table)?;
    with_text(alloc, json, "location", table.location.as_str())
}

#[tactic(auto, unfolding(crate::specs::NewTable::time_keys))]
fn time_keys(alloc: Global, table: &NewTable) -> Result<Value, AllocError>
    ensures { IfOk result (λ v. view v ≡ time_keys (made table.now)) }
{
    let json = name_keys(alloc, table)?;
    let json = with_int(alloc, json, "last-sequence-number", &0)?;
    with_number(alloc, json, "last-updated-ms", &table.created_ms)
}

#[tactic(auto, unfolding(crate::specs::NewTable::schema_list))]
fn schema_list(alloc: Global, table: &NewTable) -> Result<Value, AllocError>
    ensures { IfOk result (λ v. view v ≡ schema_list (made table.now)) }
{
    let json = time_keys(alloc, table)?;
    let schemas = one_item(alloc, table.schema.clone()?)?;
    with_key(alloc, json, "schemas", schemas)
}

#[tactic(auto, unfolding(crate::specs::NewTable::schema_keys))]
fn schema_keys(alloc: Global, table: &NewTable) -> Result<Value, AllocError>
    ensures { IfOk result (λ v. view v ≡ schema_keys (made table.now)) }
{
    let json = schema_list(alloc, table)?;
    let json = with_int(alloc, json, "current-schema-id", &table.schema_id)?;
    with_int(alloc, json, "last-column-id", &table.last_column)
}

/// The JSON of a partition spec with the id 0 and these fields.
#[tactic(auto, unfolding(crate::specs::NewTable::spec_data))]
pub fn spec_json(alloc: Global, fields: Value) -> Result<Value, AllocError>
    ensures { IfOk result (λ v. view v ≡ spec_data (view fields)) }
{
    let json = with_int(alloc, empty_object(alloc), "spec-id", &0)?;
    with_key(alloc, json, "fields", fields)
}

#[tactic(auto, unfolding(crate::specs::NewTable::spec_list))]
fn spec_list(alloc: Global, table: &NewTable) -> Result<Value, AllocError>
    ensures { IfOk result (λ v. view v ≡ spec_list (made table.now)) }
{
    let json = schema_keys(alloc, table)?;
    let spec = spec_json(alloc, table.fields.clone()?)?;
    let specs = one_item(alloc, spec)?;
    with_key(alloc, json, "partition-specs", specs)
}

#[tactic(auto, unfolding(crate::specs::NewTable::spec_keys))]
fn spec_keys(alloc: Global, table: &NewTable) -> Result<Value, AllocError>
    ensures { IfOk result (λ v. view v ≡ spec_keys (made table.now)) }
{
    let json = spec_list(alloc, table)?;
    let json = with_int(alloc, json, "default-spec-id", &0)?;
    with_int(alloc, json, "last-partition-id", &table.last_partition)
}

#[tactic(auto, unfolding(crate::specs::NewTable::order_data))]
fn order_json(alloc: Global) -> Result<Value, AllocError>
    ensures { IfOk result (λ v. view v ≡ order_data) }
{
    let json = with_int(alloc, empty_object(alloc), "order-id", &0)?;
    with_key(alloc, json, "fields", empty_array(alloc))
}

#[tactic(auto, unfolding(crate::specs::NewTable::order_keys))]
fn order_keys(alloc: Global, table: &NewTable) -> Result<Value, AllocError>
    ensures { IfOk result (λ v. view v ≡ order_keys (made table.now)) }
{
    let json = spec_keys(alloc, table)?;
    let order = order_json(alloc)?;
    let orders = one_item(alloc, order)?;
    let json = with_key(alloc, json, "sort-orders", orders)?;
    with_int(alloc, json, "default-sort-order-id", &0)
}

fn empty_array(alloc: Global) -> Value
    ensures { view result ≡ array no_items }
{
    Value::Array(Vec::new(alloc))
}

fn one_item(alloc: Global, item: Value) -> Result<Value, AllocError>
    ensures { IfOk result (λ v. view v ≡ one_item (view item)) }
{
    let mut items = Vec::new(alloc);
    items.push(item)?;
    Ok(Value::Array(items))
}
