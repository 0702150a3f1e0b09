//! Partition specs as JSON.
ghost use Rattle.std.specs.Prelude.{◌≡◌, ◌≢◌, [], IfOk};
ghost use Rattle.plain_types.specs.Answers.{Answers};
ghost use Rattle.serde_json.specs.View.{view, items_view};
ghost use Rattle.iceberg_schema.specs.SoundSpec.{IsSoundSpec};
ghost use Rattle.row_values.specs.Columns.{kind_of_column};
ghost use Rattle.iceberg_schema.specs.SpecJson.{
  takes,
  is_void,
  is_time,
  is_day_or_time,
  is_hashed,
  is_truncated,
  source_fits,
  has_field,
  field_of,
  fields_of,
  spec_of,
};

use crate::SpecFault;
use crate::keys::{int_at, item_count, items_at, text_at};
use crate::transform_text::read_transform;
use row_values::{
    Column, Kind, List, PartField, Spec, TableSchema, Text, Transform, kind_of_column,
};
use serde_json::Value;
use std::alloc::Global;

/// The project's limit.
const MAX_FIELDS: usize = 16;

/// Reads a spec over the columns of a schema, or tells the first fault: of the spec's own keys, of the number of fields,
/// then of the first field that has one.
#[tactic(auto, unfolding(crate::specs::SpecJson::spec_of))]
pub fn read_spec(alloc: Global, json: &Value, schema: &TableSchema) -> Result<Spec, SpecFault>
    ensures answers { Answers SpecFault.Memory (λ s. s) result (spec_of schema.now.columns (view json.now)) }
    ensures sound { IfOk result (λ s. IsSoundSpec schema.now.columns s) }
{
    let Some(id) = int_at(json, "spec-id") else {
        return Err(missing(alloc, "spec-id"));
    };
    let Some(items) = items_at(json, "fields") else {
        return Err(missing(alloc, "fields"));
    };
    let count = item_count(items);
    if count > MAX_FIELDS {
        return Err(SpecFault::Fields(count));
    }
    let fields = read_fields(alloc, schema.columns.as_slice(), items)?;
    Ok(Spec { id, fields })
}

/// The fault of a key.
fn missing(alloc: Global, key: &str) -> SpecFault
    ensures { result ≢ SpecFault.Memory → result ≡ SpecFault.Missing key.now }
{
    match Text::copy_of(alloc, key) {
        Ok(key) => SpecFault::Missing(key),
        Err(_) => SpecFault::Memory,
    }
}

#[tactic(auto, unfolding(crate::specs::SpecJson::fields_of))]
fn read_fields(
    alloc: Global,
    columns: &[Column],
    items: &[Value],
) -> Result<List<PartField>, SpecFault>
    ensures answers { Answers SpecFault.Memory (λ fields. fields) result (fields_of columns.now [] (items_view items.now)) }
{
    let mut fields = Vec::new(alloc);
    let mut rest = items;
    while let [first, after @ ..] = rest {
        let field = read_field(alloc, columns, fields.as_slice(), first)?;
        fields.push(field)?;
        rest = after;
    }
    Ok(List::from_vec(fields))
}

#[tactic(auto, unfolding(crate::specs::SpecJson::field_of))]
fn read_field(
    alloc: Global,
    columns: &[Column],
    earlier: &[PartField],
    json: &Value,
) -> Result<PartField, SpecFault>
    ensures answers { Answers SpecFault.Memory (λ field. field) result (field_of columns.now earlier.now (view json.now)) }
{
    let Some(source) = int_at(json, "source-id") else {
        return Err(missing(alloc, "source-id"));
    };
    let Some(field) = int_at(json, "field-id") else {
        return Err(missing(alloc, "field-id"));
    };
    let Some(name) = text_at(json, "name") else {
        return Err(missing(alloc, "name"));
    };
    let Some(text) = text_at(json, "transform") else {
        return Err(missing(alloc, "transform"));
    };
    let transform = match read_transform(alloc, text) {
        Ok(transform) => transform,
        Err(fault) => return Err(SpecFault::Transform(fault)),
    };
    source_fits(transform, source, columns)?;
    if has_field(field, earlier) {
        return Err(SpecFault::Duplicate(field));
    }
    Ok(PartField {
        source,
        field,
        name: Text::copy_of(alloc, name)?,
        transform,
    })
}

/// The transform takes the source column. A void one asks for no column.
#[tactic(auto, unfolding(crate::specs::SpecJson::source_fits))]
fn source_fits(transform: Transform, source: i32, columns: &[Column]) -> Result<(), SpecFault>
    ensures { result ≡ source_fits transform source columns.now }
{
    if is_void(transform) {
        return Ok(());
    }
    match kind_of_column(source, columns) {
        Some(kind) => {
            if takes(transform, kind) {
                Ok(())
            } else {
                Err(SpecFault::Kind(source))
            }
        }
        None => Err(SpecFault::Source(source)),
    }
}

fn has_field(id: i32, fields: &[PartField]) -> bool
    ensures { result ≡ has_field id fields.now }
{
    fields.iter().any(|field| field.field == id)
}

fn is_void(transform: Transform) -> bool
    ensures { result ≡ is_void transform }
{
    matches!(transform, Transform::Void)
}

/// Whether the transform takes the values of the kind.
fn takes(transform: Transform, kind: Kind) -> bool
    ensures { result ≡ takes transform kind }
{
    match transform {
        Transform::Identity | Transform::Void => true,
        Transform::Bucket(_) => is_hashed(kind),
        Transform::Truncate(_) => is_truncated(kind),
        Transform::Year | Transform::Month | Transform::Day => is_day_or_time(kind),
        Transform::Hour => is_time(kind),
    }
}

fn is_hashed(kind: Kind) -> bool
    ensures { result ≡ is_hashed kind }
{
    !matches!(kind, Kind::Bool)
}

fn is_truncated(kind: Kind) -> bool
    ensures { result ≡ is_truncated kind }
{
    matches!(
        kind,
        Kind::Int | Kind::Long | Kind::Decimal { .. } | Kind::Text | Kind::Bytes
    )
}

fn is_day_or_time(kind: Kind) -> bool
    ensures { result ≡ is_day_or_time kind }
{
    matches!(kind, Kind::Date | Kind::Timestamp { .. })
}

fn is_time(kind: Kind) -> bool
    ensures { result ≡ is_time kind }
{
    matches!(kind, Kind::Timestamp { .. })
}
