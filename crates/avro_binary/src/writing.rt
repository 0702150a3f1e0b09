//! Datums of every type, written at the end of bytes.

ghost use Rattle.plain_types.specs.Appends.{Appends};
ghost use Rattle.std.specs.Prelude.{◌++◌, map};
ghost use Rattle.std.specs.List.{concat};
ghost use Rattle.avro_binary.specs.Spelling.{natural, block, spelling, pair_spelling};

use crate::datum::{Datum, MapPair};
use crate::writing_leaf::{put_boolean, put_bytes, put_counted, put_natural, put_signed};
use std::alloc::AllocError;

/// Writes a datum at the end of `out`: each number by its shortest spelling, and an array or a map in one block. The
/// spelling is the datum's alone, so no schema is asked for.
///
/// Where memory runs out, `out` has what it had, and may have a part of the spelling behind it.
#[cycle(writing)]
pub fn put_datum(datum: &Datum, out: &mut Vec<u8>) -> Result<(), AllocError>
    ensures { Appends out.old.items out.new.items (spelling datum.now) result }
{
    match datum {
        Datum::Null => Ok(()),
        Datum::Boolean(value) => put_boolean(*value, out),
        Datum::Int(value) => put_signed(i64::from(*value), out),
        Datum::Long(value) => put_signed(*value, out),
        Datum::Bytes(bytes) => put_counted(bytes.as_slice(), out),
        Datum::Text(bytes) => put_counted(bytes.as_slice(), out),
        Datum::Record(values) => put_each(values.as_slice(), out),
        Datum::Enum(index) => put_natural(u64::from(*index), out),
        Datum::Array(items) => put_items(items.as_slice(), out),
        Datum::Map(pairs) => put_pairs(pairs.as_slice(), out),
        Datum::Union { branch, value } => put_branch(*branch, value.get(), out),
        Datum::Fixed(bytes) => put_bytes(bytes.as_slice(), out),
    }
}

/// One datum after the other.
#[cycle(writing)]
pub fn put_each(values: &[Datum], out: &mut Vec<u8>) -> Result<(), AllocError>
    ensures { Appends out.old.items out.new.items (concat (map spelling values.now)) result }
{
    for value in values {
        put_datum(value, out)?;
    }
    Ok(())
}

#[cycle(writing)]
fn put_branch(branch: u32, value: &Datum, out: &mut Vec<u8>) -> Result<(), AllocError>
    ensures { Appends out.old.items out.new.items (natural branch ++ spelling value.now) result }
{
    put_natural(u64::from(branch), out)?;
    put_datum(value, out)?;
    Ok(())
}

#[cycle(writing)]
fn put_items(items: &[Datum], out: &mut Vec<u8>) -> Result<(), AllocError>
    ensures { Appends out.old.items out.new.items (block (map spelling items.now)) result }
{
    if !items.is_empty() {
        put_natural(items.len() as u64, out)?;
        put_each(items, out)?;
    }
    out.push(0)?;
    Ok(())
}

#[cycle(writing)]
fn put_pairs(pairs: &[MapPair], out: &mut Vec<u8>) -> Result<(), AllocError>
    ensures { Appends out.old.items out.new.items (block (map pair_spelling pairs.now)) result }
{
    if !pairs.is_empty() {
        put_natural(pairs.len() as u64, out)?;
        put_each_pair(pairs, out)?;
    }
    out.push(0)?;
    Ok(())
}

#[cycle(writing)]
fn put_each_pair(pairs: &[MapPair], out: &mut Vec<u8>) -> Result<(), AllocError>
    ensures { Appends out.old.items out.new.items (concat (map pair_spelling pairs.now)) result }
{
    for pair in pairs {
        put_pair(pair, out)?;
    }
    Ok(())
}

#[cycle(writing)]
fn put_pair(pair: &MapPair, out: &mut Vec<u8>) -> Result<(), AllocError>
    ensures { Appends out.old.items out.new.items (pair_spelling pair.now) result }
{
    put_counted(pair.key.as_slice(), out)?;
    put_datum(&pair.value, out)?;
    Ok(())
}
