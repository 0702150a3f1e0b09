// The metadata of a new table.
ghost use Rattle.std.specs.Prelude.{◌≡◌, ℕ, true, List, IfOk, Ok};
ghost use Rattle.serde_json.specs.View.{view};
ghost use Rattle.table_metadata.specs.Metadata.{metadata_of};
ghost use Rattle.table_metadata.specs.TableKeys.{is_uuid};
ghost use Rattle.iceberg_schema.specs.Widths.{IsInt};
ghost use Rattle.metadata_writer.specs.NewTable.{made};
ghost use Rattle.table_definition.specs.Definition.{asked, definition_of};
ghost use Rattle.table_definition.specs.FirstText.{first_text, made_of, parts_made, properties_json, schema_json};

use crate::Definition;
use crate::definition::fields_in;
use crate::identifier::identifier_text;
use crate::last_ids::{last_column, last_partition};
use metadata_writer::{NewTable, first_version, text};
use plain_types::{Bytes, Text};
use serde_json::{Map, Value};
use std::alloc::{AllocError, Global};

/// The text of the first version's metadata, of a table that is made in this place at this time, in milliseconds since
/// 1970 began: compact JSON, in which the schema, the partition fields and the properties stand as the schema file has them.
pub fn first_text(
    alloc: Global,
    definition: &Definition,
    location: &str,
    now_ms: i64,
) -> Result<Bytes, AllocError>
    ensures exact { IfOk result (λ text. (bytes : List ℕ) → definition_of bytes ≡ Ok (asked definition.now)
        → text ≡ first_text location.now now_ms (asked definition.now)) }
    ensures reads { IfOk result (λ text. (bytes : List ℕ) → definition_of bytes ≡ Ok (asked definition.now)
        → metadata_of text ≡ Ok (parts_made location.now now_ms (asked definition.now))) }
{
    let table = new_table(alloc, definition, location, now_ms)?;
    let json = first_version(alloc, &table)?;
    text(alloc, &json)
}

fn new_table(
    alloc: Global,
    definition: &Definition,
    location: &str,
    now_ms: i64,
) -> Result<NewTable, AllocError>
    ensures made { IfOk result (λ table. made table ≡ made_of location.now now_ms (asked definition.now)) }
    ensures uuid { IfOk result (λ table. is_uuid table.uuid ≡ true) }
    ensures last_column { IfOk result (λ table. IsInt table.last_column) }
    ensures last_partition { IfOk result (λ table. IsInt table.last_partition) }
{
    Ok(NewTable {
        location: Text::copy_of(alloc, location)?,
        uuid: identifier_text(alloc, location, now_ms)?,
        schema: schema_json(&definition.json)?,
        schema_id: definition.schema.id,
        last_column: last_column(definition.schema.columns.as_slice()),
        fields: fields_in(alloc, &definition.json)?,
        last_partition: last_partition(definition.spec.fields.as_slice()),
        properties: properties_json(alloc, &definition.json)?,
        created_ms: now_ms,
    })
}

fn schema_json(json: &Value) -> Result<Value, AllocError>
    ensures { IfOk result (λ v. view v ≡ schema_json (view json.now)) }
{
    match json.get("schema") {
        Some(schema) => schema.clone(),
        None => Ok(Value::Null),
    }
}

fn properties_json(alloc: Global, json: &Value) -> Result<Value, AllocError>
    ensures { IfOk result (λ v. view v ≡ properties_json (view json.now)) }
{
    match json.get("properties") {
        Some(properties) => properties.clone(),
        None => Ok(Value::Object(Map::new(alloc))),
    }
}
