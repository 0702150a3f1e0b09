//! The types of an entry's statistics.
ghost use Rattle.std.specs.Prelude.{◌≡◌, IfOk};
ghost use Rattle.manifest_writer.specs.Facts.{pairs_type, fact_field};
ghost use Rattle.row_writer.specs.Field.{optional_type};

use crate::fact::Fact;
use avro_binary::{Field, Logical, Schema};
use manifest_files::field_ids;
use row_writer::{field, map_type, optional_type, record_type};
use std::alloc::{AllocError, Global};

fn pairs_type(
    alloc: Global,
    name: &[u8],
    key: i32,
    value: i32,
    schema: Schema,
) -> Result<Schema, AllocError>
    ensures { IfOk result (λ s. s ≡ pairs_type name.now key value schema) }
{
    let mut fields = Vec::new(alloc);
    fields.push(field(alloc, key, b"key", Schema::Int(Logical::Plain))?)?;
    fields.push(field(alloc, value, b"value", schema)?)?;
    map_type(alloc, record_type(alloc, name, fields)?)
}

fn counts_type(alloc: Global, name: &[u8], key: i32, value: i32) -> Result<Schema, AllocError>
    ensures { IfOk result (λ s. s ≡ optional_type (pairs_type name.now key value (Schema.Long Logical.Plain))) }
{
    let schema = pairs_type(alloc, name, key, value, Schema::Long(Logical::Plain))?;
    optional_type(alloc, schema)
}

fn bounds_type(alloc: Global, name: &[u8], key: i32, value: i32) -> Result<Schema, AllocError>
    ensures { IfOk result (λ s. s ≡ optional_type (pairs_type name.now key value (Schema.Bytes Logical.Plain))) }
{
    let schema = pairs_type(alloc, name, key, value, Schema::Bytes(Logical::Plain))?;
    optional_type(alloc, schema)
}

/// The map of a fact.
pub(crate) fn fact_field(alloc: Global, fact: Fact) -> Result<Field, AllocError>
    ensures { IfOk result (λ f. f ≡ fact_field fact) }
{
    match fact {
        Fact::Values => {
            let schema = counts_type(
                alloc,
                b"k119_v120",
                field_ids::VALUE_COUNTS_KEY,
                field_ids::VALUE_COUNTS_VALUE,
            )?;
            field(alloc, field_ids::VALUE_COUNTS, b"value_counts", schema)
        }
        Fact::Nulls => {
            let schema = counts_type(
                alloc,
                b"k121_v122",
                field_ids::NULL_VALUE_COUNTS_KEY,
                field_ids::NULL_VALUE_COUNTS_VALUE,
            )?;
            field(
                alloc,
                field_ids::NULL_VALUE_COUNTS,
                b"null_value_counts",
                schema,
            )
        }
        Fact::Lower => {
            let schema = bounds_type(
                alloc,
                b"k126_v127",
                field_ids::LOWER_BOUNDS_KEY,
                field_ids::LOWER_BOUNDS_VALUE,
            )?;
            field(alloc, field_ids::LOWER_BOUNDS, b"lower_bounds", schema)
        }
        Fact::Upper => {
            let schema = bounds_type(
                alloc,
                b"k129_v130",
                field_ids::UPPER_BOUNDS_KEY,
                field_ids::UPPER_BOUNDS_VALUE,
            )?;
            field(alloc, field_ids::UPPER_BOUNDS, b"upper_bounds", schema)
        }
    }
}
