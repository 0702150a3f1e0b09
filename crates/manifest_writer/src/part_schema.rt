//! The types of a partition's values.
ghost use Rattle.std.specs.Prelude.{◌≡◌, IfOk};
ghost use Rattle.manifest_writer.specs.PartTypes.{part_type, part_field, part_fields};

use crate::part_names::{are_names, part_name};
use avro_binary::{Field, Logical, Schema};
use manifest_files::kind_of_field;
use row_values::{Column, Kind, PartField};
use row_writer::{decimal_name, kind_type, optional_type};
use std::alloc::{AllocError, Global};

/// The type of a field's decimals has this name.
fn part_type(alloc: Global, name: &[u8], kind: Option<Kind>) -> Result<Schema, AllocError>
    ensures { IfOk result (λ s. s ≡ part_type name.now kind) }
{
    match kind {
        None => optional_type(alloc, Schema::Int(Logical::Plain)),
        Some(kind) => optional_type(alloc, kind_type(alloc, name, kind)?),
    }
}

fn part_field(
    alloc: Global,
    columns: &[Column],
    keeps: bool,
    part: &PartField,
) -> Result<Field, AllocError>
    ensures { IfOk result (λ f. f ≡ part_field columns.now keeps part.now) }
{
    let name = part_name(alloc, keeps, part)?;
    let decimals = decimal_name(alloc, part.field)?;
    let schema = part_type(alloc, decimals.as_bytes(), kind_of_field(columns, part))?;
    Ok(Field {
        name,
        id: Some(part.field),
        schema,
    })
}

/// The fields of a partition.
pub(crate) fn part_fields(
    alloc: Global,
    columns: &[Column],
    parts: &[PartField],
) -> Result<Vec<Field>, AllocError>
    ensures { IfOk result (λ fields. fields.items ≡ part_fields columns.now parts.now) }
{
    let keeps = are_names(parts);
    let mut fields = Vec::new(alloc);
    for part in parts {
        fields.push(part_field(alloc, columns, keeps, part)?)?;
    }
    Ok(fields)
}
