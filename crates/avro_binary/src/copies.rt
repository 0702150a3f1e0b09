//! Copies of schemas.

ghost use Rattle.std.specs.Prelude.{◌≡◌, IfOk, take};

use crate::schema::{Field, Logical, Schema};
use plain_types::{Boxed, Bytes as Octets, Items};
use std::alloc::{AllocError, Global};

fn copy_of_name(alloc: Global, name: &Octets) -> Result<Octets, AllocError>
    ensures { IfOk result (λ copy. copy ≡ name.now) }
{
    Octets::copy_of(alloc, name.as_slice())
}

fn copy_of_logical(alloc: Global, logical: &Logical) -> Result<Logical, AllocError>
    ensures { IfOk result (λ copy. copy ≡ logical.now) }
{
    match logical {
        Logical::Plain => Ok(Logical::Plain),
        Logical::Date => Ok(Logical::Date),
        Logical::TimestampMicros { utc } => Ok(Logical::TimestampMicros { utc: *utc }),
        Logical::Decimal { precision, scale } => Ok(Logical::Decimal {
            precision: *precision,
            scale: *scale,
        }),
        Logical::Other(name) => Ok(Logical::Other(copy_of_name(alloc, name)?)),
    }
}

fn copy_of_symbols(alloc: Global, symbols: &[Octets]) -> Result<Vec<Octets>, AllocError>
    ensures { IfOk result (λ copy. copy.items ≡ symbols.now) }
{
    let mut copies = Vec::new(alloc);
    for symbol in symbols {
        copies.push(copy_of_name(alloc, symbol)?)?;
    }
    Ok(copies)
}

#[cycle(copies)]
pub fn copy_of(alloc: Global, schema: &Schema) -> Result<Schema, AllocError>
    ensures { IfOk result (λ copy. copy ≡ schema.now) }
{
    match schema {
        Schema::Null => Ok(Schema::Null),
        Schema::Boolean => Ok(Schema::Boolean),
        Schema::Int(logical) => Ok(Schema::Int(copy_of_logical(alloc, logical)?)),
        Schema::Long(logical) => Ok(Schema::Long(copy_of_logical(alloc, logical)?)),
        Schema::Bytes(logical) => Ok(Schema::Bytes(copy_of_logical(alloc, logical)?)),
        Schema::Text => Ok(Schema::Text),
        Schema::Record { name, fields } => Ok(Schema::Record {
            name: copy_of_name(alloc, name)?,
            fields: Items::from_vec(copy_of_fields(alloc, fields.as_slice())?),
        }),
        Schema::Enum { name, symbols } => Ok(Schema::Enum {
            name: copy_of_name(alloc, name)?,
            symbols: Items::from_vec(copy_of_symbols(alloc, symbols.as_slice())?),
        }),
        Schema::Array {
            items,
            element,
            map,
        } => Ok(Schema::Array {
            items: Boxed::new(alloc, copy_of(alloc, items.get())?)?,
            element: *element,
            map: *map,
        }),
        Schema::Map {
            values,
            key_id,
            value_id,
        } => Ok(Schema::Map {
            values: Boxed::new(alloc, copy_of(alloc, values.get())?)?,
            key_id: *key_id,
            value_id: *value_id,
        }),
        Schema::Union(branches) => Ok(Schema::Union(Items::from_vec(copy_of_branches(
            alloc,
            branches.as_slice(),
        )?))),
        Schema::Fixed {
            name,
            size,
            logical,
        } => Ok(Schema::Fixed {
            name: copy_of_name(alloc, name)?,
            size: *size,
            logical: copy_of_logical(alloc, logical)?,
        }),
    }
}

#[cycle(copies)]
fn copy_of_fields(alloc: Global, fields: &[Field]) -> Result<Vec<Field>, AllocError>
    ensures { IfOk result (λ copy. copy.items ≡ fields.now) }
{
    let mut copies = Vec::new(alloc);
    for field in fields {
        copies.push(copy_of_field(alloc, field)?)?;
    }
    Ok(copies)
}

#[cycle(copies)]
fn copy_of_field(alloc: Global, field: &Field) -> Result<Field, AllocError>
    ensures { IfOk result (λ copy. copy ≡ field.now) }
{
    Ok(Field {
        name: copy_of_name(alloc, &field.name)?,
        id: field.id,
        schema: copy_of(alloc, &field.schema)?,
    })
}

#[cycle(copies)]
fn copy_of_branches(alloc: Global, branches: &[Schema]) -> Result<Vec<Schema>, AllocError>
    ensures { IfOk result (λ copy. copy.items ≡ branches.now) }
{
    let mut copies = Vec::new(alloc);
    for branch in branches {
        copies.push(copy_of(alloc, branch)?)?;
    }
    Ok(copies)
}
