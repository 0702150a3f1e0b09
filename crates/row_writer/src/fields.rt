//! Types of the fields of a record.
ghost use Rattle.std.specs.Prelude.{◌≡◌, IfOk};
ghost use Rattle.row_writer.specs.Field.{field, optional_type, items_type, map_type, record_type};

use avro_binary::{Boxed, Field, Items, Octets, Schema};
use std::alloc::{AllocError, Global};

pub fn field(alloc: Global, id: i32, name: &[u8], schema: Schema) -> Result<Field, AllocError>
    ensures { IfOk result (λ f. f ≡ field id name.now schema) }
{
    Ok(Field {
        name: Octets::copy_of(alloc, name)?,
        id: Some(id),
        schema,
    })
}

/// A union of null and the type.
pub fn optional_type(alloc: Global, schema: Schema) -> Result<Schema, AllocError>
    ensures { IfOk result (λ s. s ≡ optional_type schema) }
{
    let mut branches = Vec::new(alloc);
    branches.push(Schema::Null)?;
    branches.push(schema)?;
    Ok(Schema::Union(Items::from_vec(branches)))
}

/// An array whose items have the id.
pub fn items_type(alloc: Global, element: i32, schema: Schema) -> Result<Schema, AllocError>
    ensures { IfOk result (λ s. s ≡ items_type element schema) }
{
    Ok(Schema::Array {
        items: Boxed::new(alloc, schema)?,
        element: Some(element),
        map: false,
    })
}

/// An array that stands for a map with keys of any type.
pub fn map_type(alloc: Global, schema: Schema) -> Result<Schema, AllocError>
    ensures { IfOk result (λ s. s ≡ map_type schema) }
{
    Ok(Schema::Array {
        items: Boxed::new(alloc, schema)?,
        element: None,
        map: true,
    })
}

pub fn record_type(alloc: Global, name: &[u8], fields: Vec<Field>) -> Result<Schema, AllocError>
    ensures { IfOk result (λ s. s ≡ record_type name.now fields.items) }
{
    Ok(Schema::Record {
        name: Octets::copy_of(alloc, name)?,
        fields: Items::from_vec(fields),
    })
}
