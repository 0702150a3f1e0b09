//! Schemas from the nodes of a JSON text.

ghost use Rattle.std.specs.Prelude.{◌≡◌, ◌≤◌, ◌<◌, ◌-◌, ◌+◌};
ghost use Rattle.serde_json.specs.View.{view, items_view};
ghost use Rattle.avro_binary.specs.Word.{word_of};
ghost use Rattle.avro_binary.specs.SchemaText.{each, field, record_node, array_node, map_node, union_node, typed, single, schema_at};
ghost use Rattle.plain_types.specs.Answers.{Answers};

use crate::keys::{array_at, id_at, is_map, logical_of, text_at, type_name};
use crate::named_types::{begin, defined_name, enum_node, finish, fixed_node, name_node, used};
use crate::names::{Names, space_of};
use crate::schema::{Field, Schema};
use crate::schema_fault::SchemaFault;
use crate::word::{Word, word_of};
use plain_types::{Boxed, Bytes as Octets, Items};
use serde_json::Value;
use std::alloc::Global;

#[cycle(schemas)]
#[tactic(auto, unfolding(crate::specs::SchemaText::field))]
fn field(
    alloc: Global,
    inner: u32,
    space: &[u8],
    json: &Value,
    names: Names,
) -> Result<(Field, Names), SchemaFault>
    requires { inner < 32 }
    ensures { Answers SchemaFault.Memory (λ x. x) result (field (schema_at inner) space.now (view json.now) names) }
{
    let Some(name) = text_at(json, "name") else {
        return Err(SchemaFault::Shape);
    };
    let Some(kind) = json.get("type") else {
        return Err(SchemaFault::Shape);
    };
    let (schema, after) = schema_at(alloc, inner, space, kind, names)?;
    let name = Octets::copy_of(alloc, name.as_bytes())?;
    let id = id_at(json, "field-id");
    Ok((Field { name, id, schema }, after))
}

#[cycle(schemas)]
fn fields(
    alloc: Global,
    inner: u32,
    space: &[u8],
    items: &[Value],
    names: Names,
) -> Result<(Vec<Field>, Names), SchemaFault>
    requires { inner < 32 }
    ensures { Answers SchemaFault.Memory (λ x. (x.0.items, x.1)) result (each (field (schema_at inner) space.now) (items_view items.now) names) }
{
    let mut found = Vec::new(alloc);
    let mut names = names;
    for item in items {
        let (one, after) = field(alloc, inner, space, item, names)?;
        found.push(one)?;
        names = after;
    }
    Ok((found, names))
}

#[cycle(schemas)]
fn branches(
    alloc: Global,
    inner: u32,
    space: &[u8],
    items: &[Value],
    names: Names,
) -> Result<(Vec<Schema>, Names), SchemaFault>
    requires { inner < 32 }
    ensures { Answers SchemaFault.Memory (λ x. (x.0.items, x.1)) result (each (schema_at inner space.now) (items_view items.now) names) }
{
    let mut found = Vec::new(alloc);
    let mut names = names;
    for item in items {
        let (one, after) = schema_at(alloc, inner, space, item, names)?;
        found.push(one)?;
        names = after;
    }
    Ok((found, names))
}

#[cycle(schemas)]
#[tactic(auto, unfolding(crate::specs::SchemaText::record_node))]
fn record_node(
    alloc: Global,
    inner: u32,
    space: &[u8],
    json: &Value,
    names: Names,
) -> Result<(Schema, Names), SchemaFault>
    requires { inner < 32 }
    ensures { Answers SchemaFault.Memory (λ x. x) result (record_node (schema_at inner) space.now (view json.now) names) }
{
    let Some(name) = text_at(json, "name") else {
        return Err(SchemaFault::Shape);
    };
    let Some(items) = array_at(json, "fields") else {
        return Err(SchemaFault::Shape);
    };
    let full = defined_name(alloc, space, name.as_bytes(), json)?;
    let begun = begin(alloc, &full, used(names))?;
    let (found, after) = fields(
        alloc,
        inner,
        space_of(full.as_slice()),
        items.as_slice(),
        begun,
    )?;
    let copy = Octets::copy_of(alloc, full.as_slice())?;
    let schema = Schema::Record {
        name: copy,
        fields: Items::from_vec(found),
    };
    finish(alloc, full, schema, after)
}

#[cycle(schemas)]
#[tactic(auto, unfolding(crate::specs::SchemaText::array_node))]
fn array_node(
    alloc: Global,
    inner: u32,
    space: &[u8],
    json: &Value,
    names: Names,
) -> Result<(Schema, Names), SchemaFault>
    requires { inner < 32 }
    ensures { Answers SchemaFault.Memory (λ x. x) result (array_node (schema_at inner) space.now (view json.now) names) }
{
    let Some(items) = json.get("items") else {
        return Err(SchemaFault::Shape);
    };
    let (schema, after) = schema_at(alloc, inner, space, items, used(names))?;
    let items = Boxed::new(alloc, schema)?;
    let element = id_at(json, "element-id");
    let map = is_map(json);
    Ok((
        Schema::Array {
            items,
            element,
            map,
        },
        after,
    ))
}

#[cycle(schemas)]
#[tactic(auto, unfolding(crate::specs::SchemaText::map_node))]
fn map_node(
    alloc: Global,
    inner: u32,
    space: &[u8],
    json: &Value,
    names: Names,
) -> Result<(Schema, Names), SchemaFault>
    requires { inner < 32 }
    ensures { Answers SchemaFault.Memory (λ x. x) result (map_node (schema_at inner) space.now (view json.now) names) }
{
    let Some(values) = json.get("values") else {
        return Err(SchemaFault::Shape);
    };
    let (schema, after) = schema_at(alloc, inner, space, values, used(names))?;
    let values = Boxed::new(alloc, schema)?;
    let key_id = id_at(json, "key-id");
    let value_id = id_at(json, "value-id");
    Ok((
        Schema::Map {
            values,
            key_id,
            value_id,
        },
        after,
    ))
}

#[cycle(schemas)]
#[tactic(auto, unfolding(crate::specs::SchemaText::union_node))]
fn union_node(
    alloc: Global,
    inner: u32,
    space: &[u8],
    items: &[Value],
    names: Names,
) -> Result<(Schema, Names), SchemaFault>
    requires { inner < 32 }
    ensures { Answers SchemaFault.Memory (λ x. x) result (union_node (schema_at inner) space.now (items_view items.now) names) }
{
    let (found, after) = branches(alloc, inner, space, items, used(names))?;
    Ok((Schema::Union(Items::from_vec(found)), after))
}

#[cycle(schemas)]
#[tactic(auto, unfolding(crate::specs::SchemaText::typed))]
fn typed(
    alloc: Global,
    inner: u32,
    space: &[u8],
    name: &[u8],
    json: &Value,
    names: Names,
) -> Result<(Schema, Names), SchemaFault>
    requires { inner < 32 }
    ensures { Answers SchemaFault.Memory (λ x. x) result (typed (schema_at inner) (inner + 1) space.now (word_of name.now) name.now (view json.now) names) }
{
    match word_of(name) {
        Word::Null => Ok((Schema::Null, used(names))),
        Word::Boolean => Ok((Schema::Boolean, used(names))),
        Word::Int => Ok((Schema::Int(logical_of(alloc, json)?), used(names))),
        Word::Long => Ok((Schema::Long(logical_of(alloc, json)?), used(names))),
        Word::Bytes => Ok((Schema::Bytes(logical_of(alloc, json)?), used(names))),
        Word::Text => Ok((Schema::Text, used(names))),
        Word::Record => record_node(alloc, inner, space, json, names),
        Word::Enum => enum_node(alloc, space, json, names),
        Word::Array => array_node(alloc, inner, space, json, names),
        Word::Map => map_node(alloc, inner, space, json, names),
        Word::Fixed => fixed_node(alloc, space, json, names),
        Word::Name => name_node(alloc, inner + 1, space, name, names),
    }
}

#[cycle(schemas)]
#[tactic(auto, unfolding(crate::specs::SchemaText::single))]
fn single(
    alloc: Global,
    inner: u32,
    space: &[u8],
    json: &Value,
    names: Names,
) -> Result<(Schema, Names), SchemaFault>
    requires { inner < 32 }
    ensures { Answers SchemaFault.Memory (λ x. x) result (single (schema_at inner) (inner + 1) space.now (view json.now) names) }
{
    match type_name(json) {
        Some(name) => typed(alloc, inner, space, name.as_bytes(), json, names),
        None => Err(SchemaFault::Shape),
    }
}

/// The schema of a node that may nest `depth` deep, in the namespace around it.
#[cycle(schemas)]
#[tactic(auto, unfolding(crate::specs::SchemaText::schema_at))]
pub fn schema_at(
    alloc: Global,
    depth: u32,
    space: &[u8],
    json: &Value,
    names: Names,
) -> Result<(Schema, Names), SchemaFault>
    requires { depth ≤ 32 }
    ensures { Answers SchemaFault.Memory (λ x. x) result (schema_at depth space.now (view json.now) names) }
{
    if depth == 0 || names.left == 0 {
        return Err(SchemaFault::Depth);
    }
    match json.as_array() {
        Some(items) => union_node(alloc, depth - 1, space, items.as_slice(), names),
        None => single(alloc, depth - 1, space, json, names),
    }
}
