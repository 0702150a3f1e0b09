//! The JSON of a schema.
ghost use Rattle.std.specs.Prelude.{◌≡◌, IfOk, map, string_bytes};
ghost use Rattle.serde_json.specs.View.{view};
ghost use Rattle.iceberg_schema.specs.SchemaData.{kind_text, column_data, schema_data, schema_text};

use crate::members::{put_int, put_text};
use plain_types::Bytes;
use row_values::{Column, Kind, TableSchema};
use serde_json::{Map, Value, put};
use std::alloc::{AllocError, Global};

fn decimal_text(alloc: Global, precision: u8, scale: u8) -> Result<String, AllocError>
    ensures { IfOk result (λ text. string_bytes text ≡ kind_text (Kind.Decimal precision scale)) }
{
    format!(in alloc; "decimal({precision},{scale})")
}

fn kind_text(alloc: Global, kind: Kind) -> Result<String, AllocError>
    ensures { IfOk result (λ text. string_bytes text ≡ kind_text kind) }
{
    match kind {
        Kind::Bool => String::from_str(alloc, "boolean"),
        Kind::Int => String::from_str(alloc, "int"),
        Kind::Long => String::from_str(alloc, "long"),
        Kind::Date => String::from_str(alloc, "date"),
        Kind::Timestamp { utc } => {
            if utc {
                String::from_str(alloc, "timestamptz")
            } else {
                String::from_str(alloc, "timestamp")
            }
        }
        Kind::Decimal { precision, scale } => decimal_text(alloc, precision, scale),
        Kind::Text => String::from_str(alloc, "string"),
        Kind::Bytes => String::from_str(alloc, "binary"),
    }
}

fn column_json(alloc: Global, column: &Column) -> Result<Value, AllocError>
    ensures { IfOk result (λ v. view v ≡ column_data column.now) }
{
    let kind = kind_text(alloc, column.kind)?;
    let mut members = Map::new(alloc);
    put_int(&mut members, alloc, "id", column.id)?;
    put_text(&mut members, alloc, "name", column.name.as_str())?;
    put(
        &mut members,
        alloc,
        "required",
        Value::from(column.required),
    )?;
    put_text(&mut members, alloc, "type", kind.as_str())?;
    Ok(Value::Object(members))
}

fn columns_json(alloc: Global, columns: &[Column]) -> Result<Vec<Value>, AllocError>
    ensures { IfOk result (λ items. map view items.items ≡ map column_data columns.now) }
{
    let mut items = Vec::new(alloc);
    for column in columns {
        items.push(column_json(alloc, column)?)?;
    }
    Ok(items)
}

fn schema_json(alloc: Global, schema: &TableSchema) -> Result<Value, AllocError>
    ensures { IfOk result (λ v. view v ≡ schema_data schema.now) }
{
    let columns = columns_json(alloc, schema.columns.as_slice())?;
    let mut members = Map::new(alloc);
    put_text(&mut members, alloc, "type", "struct")?;
    put_int(&mut members, alloc, "schema-id", schema.id)?;
    put(&mut members, alloc, "fields", Value::Array(columns))?;
    Ok(Value::Object(members))
}

/// The compact JSON of a schema.
#[tactic(auto, using(crate::proofs::NoFloats::schema_no_float))]
pub fn schema_text(alloc: Global, schema: &TableSchema) -> Result<Bytes, AllocError>
    ensures { IfOk result (λ text. text ≡ schema_text schema.now) }
{
    let json = schema_json(alloc, schema)?;
    Ok(Bytes::from_vec(json.to_vec(alloc)?))
}
