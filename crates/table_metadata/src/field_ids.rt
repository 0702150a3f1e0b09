//! What holds of the field ids of all schemas and specs together.
ghost use Rattle.std.specs.Prelude.{◌≡◌, int_lt};
ghost use Rattle.std.specs.List.{list_any};
ghost use Rattle.plain_types.specs.Answers.{Answers};
ghost use Rattle.table_metadata.specs.FieldIds.{has_column_above, has_field_above, may_be_one, clash, clashes_with, kinds_clash, field_ids_fit};

use crate::MetadataFault;
use crate::table_keys::shape;
use row_values::{Column, Kind, PartField, Spec, TableSchema};
use std::alloc::Global;

/// No id is above the last one that was given out, and a column keeps its kind save for widenings.
#[tactic(auto, unfolding(crate::specs::FieldIds::field_ids_fit))]
pub(crate) fn field_ids_fit(
    alloc: Global,
    last_column: i32,
    last_partition: i32,
    schemas: &[TableSchema],
    specs: &[Spec],
) -> Result<(), MetadataFault>
    ensures answers { Answers MetadataFault.Memory (λ x. x) result (field_ids_fit last_column last_partition schemas.now specs.now) }
{
    if has_column_above(last_column, schemas) {
        return Err(shape(alloc, "last-column-id"));
    }
    if kinds_clash(schemas) {
        return Err(shape(alloc, "schemas"));
    }
    if has_field_above(last_partition, specs) {
        return Err(shape(alloc, "last-partition-id"));
    }
    Ok(())
}

fn has_column_above(last: i32, schemas: &[TableSchema]) -> bool
    ensures { result ≡ has_column_above last schemas.now }
{
    schemas
        .iter()
        .any(|schema| is_column_above(last, schema.columns.as_slice()))
}

fn is_column_above(last: i32, columns: &[Column]) -> bool
    ensures { result ≡ list_any (λ column. int_lt last column.id) columns.now }
{
    columns.iter().any(|column| last < column.id)
}

fn has_field_above(last: i32, specs: &[Spec]) -> bool
    ensures { result ≡ has_field_above last specs.now }
{
    specs
        .iter()
        .any(|spec| is_field_above(last, spec.fields.as_slice()))
}

fn is_field_above(last: i32, fields: &[PartField]) -> bool
    ensures { result ≡ list_any (λ field. int_lt last field.field) fields.now }
{
    fields.iter().any(|field| last < field.field)
}

/// Whether some column has kinds in two schemas that no widening joins.
fn kinds_clash(schemas: &[TableSchema]) -> bool
    ensures { result ≡ kinds_clash schemas.now }
{
    schemas.iter().any(|schema| a_column_clashes(schemas, schema.columns.as_slice()))
}

fn a_column_clashes(schemas: &[TableSchema], columns: &[Column]) -> bool
    ensures { result ≡ list_any (λ column. clashes_with schemas.now column) columns.now }
{
    columns.iter().any(|column| clashes_with(schemas, column))
}

fn clashes_with(schemas: &[TableSchema], column: &Column) -> bool
    ensures { result ≡ clashes_with schemas.now column.now }
{
    schemas
        .iter()
        .any(|schema| clashes_in(column, schema.columns.as_slice()))
}

fn clashes_in(column: &Column, columns: &[Column]) -> bool
    ensures { result ≡ list_any (λ other. clash column.now other) columns.now }
{
    columns.iter().any(|other| clash(column, other))
}

fn clash(a: &Column, b: &Column) -> bool
    ensures { result ≡ clash a.now b.now }
{
    if a.id == b.id {
        !may_be_one(a.kind, b.kind)
    } else {
        false
    }
}

/// Whether one column may have these kinds at different times.
fn may_be_one(a: Kind, b: Kind) -> bool
    ensures { result ≡ may_be_one a b }
{
    match (a, b) {
        (Kind::Bool, Kind::Bool) => true,
        (Kind::Int, Kind::Int) => true,
        (Kind::Int, Kind::Long) => true,
        (Kind::Long, Kind::Int) => true,
        (Kind::Long, Kind::Long) => true,
        (Kind::Date, Kind::Date) => true,
        (Kind::Timestamp { utc }, Kind::Timestamp { utc: other }) => utc == other,
        (Kind::Decimal { scale, .. }, Kind::Decimal { scale: other, .. }) => scale == other,
        (Kind::Text, Kind::Text) => true,
        (Kind::Bytes, Kind::Bytes) => true,
        _ => false,
    }
}
