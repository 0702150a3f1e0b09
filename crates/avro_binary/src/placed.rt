//! Whether a schema fits what is left of the depth and the nodes of a text, references written out.

ghost use Rattle.std.specs.Prelude.{◌≡◌, map};
ghost use Rattle.avro_binary.specs.Placed.{placed, placed_field, place_each, place_inner};

use crate::schema::{Field, Schema};

#[cycle(placed)]
pub fn placed(schema: &Schema, depth: u32, left: u64) -> Option<u64>
    ensures { result ≡ placed schema.now depth left }
{
    if depth == 0 || left == 0 {
        return None;
    }
    match schema {
        Schema::Record { fields, .. } => placed_fields(fields.as_slice(), depth - 1, left - 1),
        Schema::Array { items, .. } => placed(items.get(), depth - 1, left - 1),
        Schema::Map { values, .. } => placed(values.get(), depth - 1, left - 1),
        Schema::Union(branches) => placed_branches(branches.as_slice(), depth - 1, left - 1),
        Schema::Null => Some(left - 1),
        Schema::Boolean => Some(left - 1),
        Schema::Int(_) => Some(left - 1),
        Schema::Long(_) => Some(left - 1),
        Schema::Bytes(_) => Some(left - 1),
        Schema::Text => Some(left - 1),
        Schema::Enum { .. } => Some(left - 1),
        Schema::Fixed { .. } => Some(left - 1),
    }
}

#[cycle(placed)]
fn placed_fields(fields: &[Field], depth: u32, left: u64) -> Option<u64>
    ensures { result ≡ place_each (map placed_field fields.now) depth left }
{
    let mut left = left;
    for field in fields {
        match placed(&field.schema, depth, left) {
            Some(less) => left = less,
            None => return None,
        }
    }
    Some(left)
}

#[cycle(placed)]
fn placed_branches(branches: &[Schema], depth: u32, left: u64) -> Option<u64>
    ensures { result ≡ place_each (map placed branches.now) depth left }
{
    let mut left = left;
    for branch in branches {
        match placed(branch, depth, left) {
            Some(less) => left = less,
            None => return None,
        }
    }
    Some(left)
}
