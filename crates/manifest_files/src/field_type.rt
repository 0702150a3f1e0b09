//! The Avro types of the fields of a manifest.
ghost use Rattle.std.specs.Prelude.{◌≡◌, option_map};
ghost use Rattle.avro_binary.specs.declared.schema.Schema.{out-Schema};
ghost use Rattle.avro_rows.specs.Carrier.{is_null_type};
ghost use Rattle.manifest_files.specs.FieldTypes.{beside_null, stated, is_type, has_type, items_of, has_items, record_fields, element_fields};

use avro_binary::{Field, Schema};
use avro_rows::{fields_of, is_null_type};

/// A type that the specification states for a field.
#[derive(Clone, Copy, Debug, PartialEq, Eq)]
pub enum FieldType {
    Boolean,
    Int,
    Long,
    Text,
    Bytes,
    Record,
    Array,
}

/// Of two branches the one beside null.
fn beside_null<'s>(whole: &'s Schema, branches: &'s [Schema]) -> &'s Schema
    ensures { result.now ≡ beside_null whole.now branches.now }
{
    if let [first, second] = branches {
        if is_null_type(first) {
            return second;
        }
        if is_null_type(second) {
            return first;
        }
    }
    whole
}

/// The type that a schema states, beside null or alone.
fn stated(schema: &Schema) -> &Schema
    ensures { result.now ≡ stated schema.now }
{
    match schema {
        Schema::Union(branches) => beside_null(schema, branches.as_slice()),
        _ => schema,
    }
}

fn is_type(wanted: FieldType, schema: &Schema) -> bool
    ensures { result ≡ is_type wanted (out-Schema schema.now) }
{
    match (wanted, schema) {
        (FieldType::Boolean, Schema::Boolean) => true,
        (FieldType::Int, Schema::Int(_)) => true,
        (FieldType::Long, Schema::Long(_)) => true,
        (FieldType::Text, Schema::Text) => true,
        (FieldType::Bytes, Schema::Bytes(_)) => true,
        (FieldType::Record, Schema::Record { .. }) => true,
        (FieldType::Array, Schema::Array { .. }) => true,
        _ => false,
    }
}

pub(crate) fn has_type(wanted: FieldType, schema: &Schema) -> bool
    ensures { result ≡ has_type wanted schema.now }
{
    is_type(wanted, stated(schema))
}

/// The type of an array's items.
fn items_of(schema: &Schema) -> Option<&Schema>
    ensures { option_map (λ x. x.now) result ≡ items_of schema.now }
{
    match stated(schema) {
        Schema::Array { items, .. } => Some(items.get()),
        _ => None,
    }
}

/// Whether the schema is an array of this type.
pub(crate) fn has_items(wanted: FieldType, schema: &Schema) -> bool
    ensures { result ≡ has_items wanted schema.now }
{
    match items_of(schema) {
        Some(items) => has_type(wanted, items),
        None => false,
    }
}

/// The fields of a record.
pub(crate) fn record_fields(schema: &Schema) -> &[Field]
    ensures { result.now ≡ record_fields schema.now }
{
    fields_of(stated(schema))
}

/// The fields of an array's records.
pub(crate) fn element_fields(schema: &Schema) -> &[Field]
    ensures { result.now ≡ element_fields schema.now }
{
    match items_of(schema) {
        Some(items) => record_fields(items),
        None => &[],
    }
}
