//! An entry's statistics as datums.
ghost use Rattle.plain_types.specs.Appends.{Appends};
ghost use Rattle.std.specs.Prelude.{◌≡◌, ◌∷◌, [], IfOk};
ghost use Rattle.avro_binary.specs.Spelling.{IsSignedOf};
ghost use Rattle.manifest_writer.specs.Facts.{count_datum, bound_datum, fact_datum, pair_of, pairs_of, map_value, fact_value, HasIds};

use crate::fact::Fact;
use crate::value::{count_number, int_datum};
use avro_binary::{Datum, Items, Octets};
use kind_values::{ColumnStats, put_bound};
use row_values::Value;
use row_writer::{null_branch, value_branch};
use std::alloc::{AllocError, Global};

fn count_datum(count: Option<u64>) -> Option<Datum>
    ensures { result ≡ count_datum count }
{
    match count {
        None => None,
        Some(count) => Some(Datum::Long(count_number(count))),
    }
}

fn bound_datum(alloc: Global, bound: &Option<Value>) -> Result<Option<Datum>, AllocError>
    ensures { IfOk result (λ d. d ≡ bound_datum bound.now) }
{
    match bound {
        None => Ok(None),
        Some(value) => {
            let mut bytes = Vec::new(alloc);
            put_bound(value, &mut bytes)?;
            Ok(Some(Datum::Bytes(Octets::from_vec(bytes))))
        }
    }
}

fn fact_datum(alloc: Global, fact: Fact, facts: &ColumnStats) -> Result<Option<Datum>, AllocError>
    ensures { IfOk result (λ d. d ≡ fact_datum fact facts.now) }
{
    match fact {
        Fact::Values => Ok(count_datum(facts.values)),
        Fact::Nulls => Ok(count_datum(facts.nulls)),
        Fact::Lower => bound_datum(alloc, &facts.lower),
        Fact::Upper => bound_datum(alloc, &facts.upper),
    }
}

fn pair(alloc: Global, key: Datum, datum: Datum) -> Result<Datum, AllocError>
    ensures { IfOk result (λ d. d ≡ Datum.Record (key ∷ datum ∷ [])) }
{
    let mut values = Vec::new(alloc);
    values.push(key)?;
    values.push(datum)?;
    Ok(Datum::Record(Items::from_vec(values)))
}

/// Appends a pair for the column, where the fact is known of it.
fn put_pair(
    alloc: Global,
    fact: Fact,
    facts: &ColumnStats,
    pairs: &mut Vec<Datum>,
) -> Result<(), AllocError>
    ensures same { Appends pairs.old.items pairs.new.items (pair_of fact facts.now) result }
    ensures range { IsSignedOf 31 facts.now.id }
{
    let id = int_datum(facts.id);
    match fact_datum(alloc, fact, facts)? {
        Some(datum) => pairs.push(pair(alloc, id, datum)?)?,
        None => {}
    }
    Ok(())
}

/// A pair for each column of which the fact is known.
fn pairs_of(alloc: Global, fact: Fact, stats: &[ColumnStats]) -> Result<Vec<Datum>, AllocError>
    ensures same { IfOk result (λ ds. ds.items ≡ pairs_of fact stats.now) }
    ensures range { IfOk result (λ ds. HasIds stats.now) }
{
    let mut pairs = Vec::new(alloc);
    for facts in stats {
        put_pair(alloc, fact, facts, &mut pairs)?;
    }
    Ok(pairs)
}

fn map_value(alloc: Global, pairs: Vec<Datum>) -> Result<Datum, AllocError>
    ensures { IfOk result (λ d. d ≡ map_value pairs.items) }
{
    if pairs.is_empty() {
        return null_branch(alloc);
    }
    value_branch(alloc, Datum::Array(Items::from_vec(pairs)))
}

/// The map of a fact, null where it is known of no column.
pub(crate) fn fact_value(
    alloc: Global,
    fact: Fact,
    stats: &[ColumnStats],
) -> Result<Datum, AllocError>
    ensures same { IfOk result (λ d. d ≡ fact_value fact stats.now) }
    ensures range { IfOk result (λ d. HasIds stats.now) }
{
    let pairs = pairs_of(alloc, fact, stats)?;
    map_value(alloc, pairs)
}
