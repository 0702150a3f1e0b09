//! Datums of every type, from left to right.

ghost use Rattle.std.specs.Prelude.{◌≡◌, length, map};
ghost use Rattle.avro_binary.specs.Answer.{Gives};
ghost use Rattle.avro_binary.specs.Shape.{shape, shapes, field_shape, record_shape, array_shape, map_shape, union_shape};
ghost use Rattle.avro_binary.specs.Reading.{datum_at, fields_at, items_at, blocks_at, pair_at, branch_at};

use crate::datum::{Datum, MapPair};
use crate::fault::{FaultKind, Stop, fault, short};
use crate::leaf::{
    boolean_datum, bytes_datum, enum_datum, fixed_datum, int_datum, long_datum, text_datum,
};
use crate::number::{count_at, index_at, text_at};
use crate::schema::{Field, Schema};
use plain_types::{Boxed, Bytes as Octets, Items};
use std::alloc::Global;

/// The datum at the front of the bytes, and the bytes after it.
#[cycle(reading)]
#[tactic(auto, unfolding(crate::specs::Reading::datum_at))]
pub fn datum_at<'a>(
    alloc: Global,
    schema: &Schema,
    bytes: &'a [u8],
) -> Result<(Datum, &'a [u8]), Stop>
    ensures { Gives (λ x. (x.0, x.1.now)) result (datum_at (shape schema.now) bytes.now) }
{
    match schema {
        Schema::Null => Ok((Datum::Null, bytes)),
        Schema::Boolean => boolean_datum(bytes),
        Schema::Int(_) => int_datum(bytes),
        Schema::Long(_) => long_datum(bytes),
        Schema::Bytes(_) => bytes_datum(alloc, bytes),
        Schema::Text => text_datum(alloc, bytes),
        Schema::Record { fields, .. } => record_datum(alloc, fields.as_slice(), bytes),
        Schema::Enum { symbols, .. } => enum_datum(symbols.len(), bytes),
        Schema::Array { items, .. } => array_datum(alloc, items.get(), bytes),
        Schema::Map { values, .. } => map_datum(alloc, values.get(), bytes),
        Schema::Union(branches) => union_datum(alloc, branches, bytes),
        Schema::Fixed { size, .. } => fixed_datum(alloc, *size, bytes),
    }
}

#[cycle(reading)]
#[tactic(auto, unfolding(crate::specs::Reading::datum_at))]
fn record_datum<'a>(
    alloc: Global,
    fields: &[Field],
    bytes: &'a [u8],
) -> Result<(Datum, &'a [u8]), Stop>
    ensures { Gives (λ x. (x.0, x.1.now)) result (datum_at (record_shape (shapes (map field_shape fields.now))) bytes.now) }
{
    let (values, rest) = fields_at(alloc, fields, bytes)?;
    Ok((Datum::Record(Items::from_vec(values)), rest))
}

#[cycle(reading)]
fn fields_at<'a>(
    alloc: Global,
    fields: &[Field],
    bytes: &'a [u8],
) -> Result<(Vec<Datum>, &'a [u8]), Stop>
    ensures { Gives (λ x. (x.0.items, x.1.now)) result (fields_at (shapes (map field_shape fields.now)) bytes.now) }
{
    let mut values = Vec::new(alloc);
    let mut rest = bytes;
    for field in fields {
        let (value, after) = datum_at(alloc, &field.schema, rest)?;
        values.push(value)?;
        rest = after;
    }
    Ok((values, rest))
}

#[cycle(reading)]
#[tactic(auto, using(crate::proofs::Shapes::shape_count_is), unfolding(crate::specs::Reading::datum_at))]
fn union_datum<'a>(
    alloc: Global,
    branches: &Items<Schema>,
    bytes: &'a [u8],
) -> Result<(Datum, &'a [u8]), Stop>
    ensures { Gives (λ x. (x.0, x.1.now)) result (datum_at (union_shape (shapes (map shape branches.now))) bytes.now) }
{
    let (branch, rest) = index_at(branches.len(), bytes)?;
    let (value, rest) = branch_at(alloc, branches, branch as usize, rest)?;
    Ok((
        Datum::Union {
            branch,
            value: Boxed::new(alloc, value)?,
        },
        rest,
    ))
}

#[cycle(reading)]
#[tactic(auto, using(crate::proofs::Shapes::branch_is, crate::proofs::Shapes::branch_none))]
fn branch_at<'a>(
    alloc: Global,
    branches: &Items<Schema>,
    branch: usize,
    bytes: &'a [u8],
) -> Result<(Datum, &'a [u8]), Stop>
    ensures { Gives (λ x. (x.0, x.1.now)) result (branch_at (shapes (map shape branches.now)) branch bytes.now) }
{
    match branches.get(branch) {
        Some(schema) => datum_at(alloc, schema, bytes),
        None => Err(fault(FaultKind::Branch, bytes)),
    }
}

#[cycle(reading)]
#[tactic(auto, unfolding(crate::specs::Reading::datum_at))]
fn array_datum<'a>(
    alloc: Global,
    items: &Schema,
    bytes: &'a [u8],
) -> Result<(Datum, &'a [u8]), Stop>
    ensures { Gives (λ x. (x.0, x.1.now)) result (datum_at (array_shape (shape items.now)) bytes.now) }
{
    let (values, rest) = array_blocks(alloc, items, bytes)?;
    Ok((Datum::Array(Items::from_vec(values)), rest))
}

#[cycle(reading)]
fn array_blocks<'a>(
    alloc: Global,
    items: &Schema,
    bytes: &'a [u8],
) -> Result<(Vec<Datum>, &'a [u8]), Stop>
    ensures { Gives (λ x. (x.0.items, x.1.now)) result (blocks_at (datum_at (shape items.now)) (length bytes.now) bytes.now) }
{
    let mut all = Vec::new(alloc);
    let mut rest = bytes;
    for _ in 0..bytes.len() {
        let (count, after) = count_at(rest)?;
        if count == 0 {
            return Ok((all, after));
        }
        let (mut block, after) = datums_at(alloc, items, count, after)?;
        all.append(&mut block)?;
        rest = after;
    }
    Err(short())
}

/// So many datums of the schema, one after another, and the bytes after them.
#[cycle(reading)]
pub fn datums_at<'a>(
    alloc: Global,
    items: &Schema,
    count: u64,
    bytes: &'a [u8],
) -> Result<(Vec<Datum>, &'a [u8]), Stop>
    ensures { Gives (λ x. (x.0.items, x.1.now)) result (items_at (datum_at (shape items.now)) count bytes.now) }
{
    let mut values = Vec::new(alloc);
    let mut rest = bytes;
    for _ in 0..count {
        let (value, after) = datum_at(alloc, items, rest)?;
        values.push(value)?;
        rest = after;
    }
    Ok((values, rest))
}

#[cycle(reading)]
#[tactic(auto, unfolding(crate::specs::Reading::datum_at))]
fn map_datum<'a>(alloc: Global, values: &Schema, bytes: &'a [u8]) -> Result<(Datum, &'a [u8]), Stop>
    ensures { Gives (λ x. (x.0, x.1.now)) result (datum_at (map_shape (shape values.now)) bytes.now) }
{
    let (pairs, rest) = map_blocks(alloc, values, bytes)?;
    Ok((Datum::Map(Items::from_vec(pairs)), rest))
}

#[cycle(reading)]
fn map_blocks<'a>(
    alloc: Global,
    values: &Schema,
    bytes: &'a [u8],
) -> Result<(Vec<MapPair>, &'a [u8]), Stop>
    ensures { Gives (λ x. (x.0.items, x.1.now)) result (blocks_at (pair_at (datum_at (shape values.now))) (length bytes.now) bytes.now) }
{
    let mut all = Vec::new(alloc);
    let mut rest = bytes;
    for _ in 0..bytes.len() {
        let (count, after) = count_at(rest)?;
        if count == 0 {
            return Ok((all, after));
        }
        let (mut block, after) = map_items(alloc, values, count, after)?;
        all.append(&mut block)?;
        rest = after;
    }
    Err(short())
}

#[cycle(reading)]
fn map_items<'a>(
    alloc: Global,
    values: &Schema,
    count: u64,
    bytes: &'a [u8],
) -> Result<(Vec<MapPair>, &'a [u8]), Stop>
    ensures { Gives (λ x. (x.0.items, x.1.now)) result (items_at (pair_at (datum_at (shape values.now))) count bytes.now) }
{
    let mut pairs = Vec::new(alloc);
    let mut rest = bytes;
    for _ in 0..count {
        let (pair, after) = pair_at(alloc, values, rest)?;
        pairs.push(pair)?;
        rest = after;
    }
    Ok((pairs, rest))
}

#[cycle(reading)]
#[tactic(auto, unfolding(crate::specs::Reading::pair_at))]
fn pair_at<'a>(alloc: Global, values: &Schema, bytes: &'a [u8]) -> Result<(MapPair, &'a [u8]), Stop>
    ensures { Gives (λ x. (x.0, x.1.now)) result (pair_at (datum_at (shape values.now)) bytes.now) }
{
    let (key, rest) = text_at(bytes)?;
    let (value, rest) = datum_at(alloc, values, rest)?;
    Ok((
        MapPair {
            key: Octets::copy_of(alloc, key)?,
            value,
        },
        rest,
    ))
}
