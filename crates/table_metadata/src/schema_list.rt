//! All schemas and all partition specs of a table.
ghost use Rattle.std.specs.Prelude.{◌≡◌, [], option_map};
ghost use Rattle.plain_types.specs.Answers.{Answers};
ghost use Rattle.serde_json.specs.View.{view, items_view};
ghost use Rattle.table_metadata.specs.SchemaList.{schemas_from, schemas_of, columns_with, specs_from, specs_of};

use crate::MetadataFault;
use crate::table_keys::shape;
use iceberg_schema::{SchemaJsonFault, SpecFault, items_at, read_spec, read_table_schema};
use row_values::{List, Spec, TableSchema};
use serde_json::Value;
use std::alloc::Global;

#[tactic(auto, unfolding(crate::specs::SchemaList::schemas_of))]
pub(crate) fn read_schemas(alloc: Global, json: &Value) -> Result<List<TableSchema>, MetadataFault>
    ensures answers { Answers MetadataFault.Memory (λ schemas. schemas) result (schemas_of (view json.now)) }
{
    match items_at(json, "schemas") {
        Some(items) => read_schema_items(alloc, items),
        None => Err(shape(alloc, "schemas")),
    }
}

#[tactic(auto, unfolding(crate::specs::SchemaList::schemas_from))]
fn read_schema_items(alloc: Global, items: &[Value]) -> Result<List<TableSchema>, MetadataFault>
    ensures answers { Answers MetadataFault.Memory (λ schemas. schemas) result (schemas_from [] (items_view items.now)) }
{
    let mut schemas = Vec::new(alloc);
    let mut rest = items;
    while let [first, after @ ..] = rest {
        match read_table_schema(alloc, first) {
            Ok(schema) => schemas.push(schema)?,
            Err(SchemaJsonFault::Memory) => return Err(MetadataFault::Memory),
            Err(fault) => return Err(MetadataFault::Schema(fault)),
        }
        rest = after;
    }
    Ok(List::from_vec(schemas))
}

/// All specs, over the columns of the current schema.
#[tactic(auto, unfolding(crate::specs::SchemaList::specs_of))]
pub(crate) fn read_specs(
    alloc: Global,
    current: i32,
    schemas: &[TableSchema],
    json: &Value,
) -> Result<List<Spec>, MetadataFault>
    ensures answers { Answers MetadataFault.Memory (λ specs. specs) result (specs_of current schemas.now (view json.now)) }
{
    let Some(schema) = schema_with(current, schemas) else {
        return Err(shape(alloc, "current-schema-id"));
    };
    match items_at(json, "partition-specs") {
        Some(items) => read_spec_items(alloc, schema, items),
        None => Err(shape(alloc, "partition-specs")),
    }
}

#[tactic(auto, unfolding(crate::specs::SchemaList::specs_from))]
fn read_spec_items(
    alloc: Global,
    schema: &TableSchema,
    items: &[Value],
) -> Result<List<Spec>, MetadataFault>
    ensures answers { Answers MetadataFault.Memory (λ specs. specs) result (specs_from schema.now.columns [] (items_view items.now)) }
{
    let mut specs = Vec::new(alloc);
    let mut rest = items;
    while let [first, after @ ..] = rest {
        match read_spec(alloc, first, schema) {
            Ok(spec) => specs.push(spec)?,
            Err(SpecFault::Memory) => return Err(MetadataFault::Memory),
            Err(fault) => return Err(MetadataFault::Spec(fault)),
        }
        rest = after;
    }
    Ok(List::from_vec(specs))
}

/// The schema with the id.
#[tactic(auto, unfolding(crate::specs::SchemaList::columns_with))]
fn schema_with(id: i32, schemas: &[TableSchema]) -> Option<&TableSchema>
    ensures { option_map (λ s. s.now.columns) result ≡ columns_with id schemas.now }
{
    let mut rest = schemas;
    while let [schema, after @ ..] = rest {
        if schema.id == id {
            return Some(schema);
        }
        rest = after;
    }
    None
}
