//! The named types of a schema's text that hold no schema, the names that a text defines, and references to them.

ghost use Rattle.std.specs.Prelude.{◌≡◌, IfOk, Ok};
ghost use Rattle.serde_json.specs.View.{view, items_view};
ghost use Rattle.avro_binary.specs.SchemaText.{used, begin, finish, defined_name, each, symbol, enum_node, fixed_node, name_node};
ghost use Rattle.plain_types.specs.Answers.{Answers};

use crate::copies::copy_of;
use crate::keys::{array_at, logical_of, number_at, text_at};
use crate::names::{Named, Names, find, full_name, has_begun};
use crate::placed::placed;
use crate::schema::Schema;
use crate::schema_fault::SchemaFault;
use plain_types::{Bytes as Octets, Items};
use serde_json::Value;
use std::alloc::{AllocError, Global};

pub fn used(names: Names) -> Names
    ensures { result ≡ used names }
{
    let Names {
        finished,
        begun,
        left,
    } = names;
    Names {
        finished,
        begun,
        left: left.saturating_sub(1),
    }
}

#[tactic(auto, unfolding(crate::specs::SchemaText::begin))]
pub fn begin(alloc: Global, full: &Octets, names: Names) -> Result<Names, SchemaFault>
    ensures { Answers SchemaFault.Memory (λ x. x) result (begin full.now names) }
{
    let Names {
        finished,
        mut begun,
        left,
    } = names;
    if has_begun(full.as_slice(), begun.as_slice()) {
        return Err(SchemaFault::Shape);
    }
    begun.push(Octets::copy_of(alloc, full.as_slice())?)?;
    Ok(Names {
        finished,
        begun,
        left,
    })
}

pub fn finish(
    alloc: Global,
    full: Octets,
    schema: Schema,
    names: Names,
) -> Result<(Schema, Names), SchemaFault>
    ensures { Answers SchemaFault.Memory (λ x. x) result (Ok (finish full schema names)) }
{
    let Names {
        mut finished,
        begun,
        left,
    } = names;
    let copy = copy_of(alloc, &schema)?;
    finished.push(Named {
        name: full,
        schema: copy,
    })?;
    Ok((
        schema,
        Names {
            finished,
            begun,
            left,
        },
    ))
}

#[tactic(auto, unfolding(crate::specs::SchemaText::defined_name))]
pub fn defined_name(
    alloc: Global,
    space: &[u8],
    name: &[u8],
    json: &Value,
) -> Result<Octets, AllocError>
    ensures { IfOk result (λ full. full ≡ defined_name space.now name.now (view json.now)) }
{
    match text_at(json, "namespace") {
        Some(own) => full_name(alloc, own.as_bytes(), name),
        None => full_name(alloc, space, name),
    }
}

#[tactic(auto, unfolding(crate::specs::SchemaText::symbol))]
fn symbol(alloc: Global, json: &Value, names: Names) -> Result<(Octets, Names), SchemaFault>
    ensures { Answers SchemaFault.Memory (λ x. x) result (symbol (view json.now) names) }
{
    match json.as_str() {
        Some(text) => Ok((Octets::copy_of(alloc, text.as_bytes())?, names)),
        None => Err(SchemaFault::Shape),
    }
}

fn symbols(
    alloc: Global,
    items: &[Value],
    names: Names,
) -> Result<(Vec<Octets>, Names), SchemaFault>
    ensures { Answers SchemaFault.Memory (λ x. (x.0.items, x.1)) result (each symbol (items_view items.now) names) }
{
    let mut found = Vec::new(alloc);
    let mut names = names;
    for item in items {
        let (one, after) = symbol(alloc, item, names)?;
        found.push(one)?;
        names = after;
    }
    Ok((found, names))
}

#[tactic(auto, unfolding(crate::specs::SchemaText::enum_node))]
pub fn enum_node(
    alloc: Global,
    space: &[u8],
    json: &Value,
    names: Names,
) -> Result<(Schema, Names), SchemaFault>
    ensures { Answers SchemaFault.Memory (λ x. x) result (enum_node space.now (view json.now) names) }
{
    let Some(name) = text_at(json, "name") else {
        return Err(SchemaFault::Shape);
    };
    let Some(items) = array_at(json, "symbols") else {
        return Err(SchemaFault::Shape);
    };
    let full = defined_name(alloc, space, name.as_bytes(), json)?;
    let begun = begin(alloc, &full, used(names))?;
    let (found, after) = symbols(alloc, items.as_slice(), begun)?;
    let copy = Octets::copy_of(alloc, full.as_slice())?;
    let schema = Schema::Enum {
        name: copy,
        symbols: Items::from_vec(found),
    };
    finish(alloc, full, schema, after)
}

#[tactic(auto, unfolding(crate::specs::SchemaText::fixed_node))]
pub fn fixed_node(
    alloc: Global,
    space: &[u8],
    json: &Value,
    names: Names,
) -> Result<(Schema, Names), SchemaFault>
    ensures { Answers SchemaFault.Memory (λ x. x) result (fixed_node space.now (view json.now) names) }
{
    let Some(name) = text_at(json, "name") else {
        return Err(SchemaFault::Shape);
    };
    let Some(size) = number_at(json, "size") else {
        return Err(SchemaFault::Shape);
    };
    let full = defined_name(alloc, space, name.as_bytes(), json)?;
    let begun = begin(alloc, &full, used(names))?;
    let copy = Octets::copy_of(alloc, full.as_slice())?;
    let logical = logical_of(alloc, json)?;
    let schema = Schema::Fixed {
        name: copy,
        size,
        logical,
    };
    finish(alloc, full, schema, begun)
}

#[tactic(auto, unfolding(crate::specs::SchemaText::name_node))]
pub fn name_node(
    alloc: Global,
    depth: u32,
    space: &[u8],
    name: &[u8],
    names: Names,
) -> Result<(Schema, Names), SchemaFault>
    ensures { Answers SchemaFault.Memory (λ x. x) result (name_node depth space.now name.now names) }
{
    let full = full_name(alloc, space, name)?;
    let Names {
        finished,
        begun,
        left,
    } = names;
    let copy = match find(full.as_slice(), finished.as_slice()) {
        Some(schema) => match placed(schema, depth, left) {
            Some(fewer) => (copy_of(alloc, schema)?, fewer),
            None => return Err(SchemaFault::Depth),
        },
        None => return Err(SchemaFault::TypeName(Octets::copy_of(alloc, name)?)),
    };
    Ok((
        copy.0,
        Names {
            finished,
            begun,
            left: copy.1,
        },
    ))
}
