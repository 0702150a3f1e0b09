//! Schemas as JSON.
ghost use Rattle.std.specs.Prelude.{◌≡◌, ◌≢◌, [], IfOk};
ghost use Rattle.plain_types.specs.Answers.{Answers};
ghost use Rattle.serde_json.specs.View.{view, items_view};
ghost use Rattle.iceberg_schema.specs.SoundSchema.{IsSoundSchema};
ghost use Rattle.row_values.specs.Columns.{has_id, has_name};
ghost use Rattle.iceberg_schema.specs.SchemaJson.{is_reserved, column_of, columns_of, table_schema_of};

use crate::SchemaJsonFault;
use crate::keys::{bool_at, int_at, item_count, items_at, text_at};
use crate::kind_text::kind_of;
use row_values::{Column, List, TableSchema, Text, has_id, has_name};
use serde_json::Value;
use std::alloc::Global;

/// The project's limits.
const MAX_COLUMNS: usize = 256;

const MAX_NAME_BYTES: usize = 4096;

/// The ids of a position delete file's columns.
const FIRST_RESERVED_ID: i32 = 2147483544;

const LAST_RESERVED_ID: i32 = 2147483546;

/// Reads a schema, or tells the first fault: of the schema's own keys, of the number of columns, then of the first column
/// that has one.
#[tactic(auto, unfolding(crate::specs::SchemaJson::table_schema_of))]
pub fn read_table_schema(alloc: Global, json: &Value) -> Result<TableSchema, SchemaJsonFault>
    ensures answers { Answers SchemaJsonFault.Memory (λ s. s) result (table_schema_of (view json.now)) }
    ensures sound { IfOk result (λ s. IsSoundSchema s) }
{
    let Some(id) = int_at(json, "schema-id") else {
        return Err(missing(alloc, "schema-id"));
    };
    let Some(fields) = items_at(json, "fields") else {
        return Err(missing(alloc, "fields"));
    };
    let count = item_count(fields);
    if count == 0 || count > MAX_COLUMNS {
        return Err(SchemaJsonFault::Columns(count));
    }
    let columns = read_columns(alloc, fields)?;
    Ok(TableSchema { id, columns })
}

/// The fault of a key.
fn missing(alloc: Global, key: &str) -> SchemaJsonFault
    ensures { result ≢ SchemaJsonFault.Memory → result ≡ SchemaJsonFault.Missing key.now }
{
    match Text::copy_of(alloc, key) {
        Ok(key) => SchemaJsonFault::Missing(key),
        Err(_) => SchemaJsonFault::Memory,
    }
}

#[tactic(auto, unfolding(crate::specs::SchemaJson::columns_of))]
fn read_columns(alloc: Global, fields: &[Value]) -> Result<List<Column>, SchemaJsonFault>
    ensures answers { Answers SchemaJsonFault.Memory (λ columns. columns) result (columns_of [] (items_view fields.now)) }
{
    let mut columns = Vec::new(alloc);
    let mut rest = fields;
    while let [field, after @ ..] = rest {
        let column = read_column(alloc, columns.as_slice(), field)?;
        columns.push(column)?;
        rest = after;
    }
    Ok(List::from_vec(columns))
}

#[tactic(auto, unfolding(crate::specs::SchemaJson::column_of))]
fn read_column(alloc: Global, earlier: &[Column], json: &Value) -> Result<Column, SchemaJsonFault>
    ensures answers { Answers SchemaJsonFault.Memory (λ column. column) result (column_of earlier.now (view json.now)) }
{
    let Some(id) = int_at(json, "id") else {
        return Err(missing(alloc, "id"));
    };
    let Some(name) = text_at(json, "name") else {
        return Err(missing(alloc, "name"));
    };
    let Some(required) = bool_at(json, "required") else {
        return Err(missing(alloc, "required"));
    };
    let Some(type_text) = text_at(json, "type") else {
        return Err(missing(alloc, "type"));
    };
    let Some(kind) = kind_of(type_text) else {
        return Err(SchemaJsonFault::Kind(Text::copy_of(alloc, type_text)?));
    };
    if is_reserved(id) || has_id(id, earlier) {
        return Err(SchemaJsonFault::Duplicate(id));
    }
    let name_text = Text::copy_of(alloc, name)?;
    if name.len() > MAX_NAME_BYTES || has_name(name, earlier) {
        return Err(SchemaJsonFault::Name(name_text));
    }
    Ok(Column {
        id,
        name: name_text,
        kind,
        required,
    })
}

/// Whether the id is one of a position delete file's columns.
fn is_reserved(id: i32) -> bool
    ensures { result ≡ is_reserved id }
{
    FIRST_RESERVED_ID <= id && id <= LAST_RESERVED_ID
}
