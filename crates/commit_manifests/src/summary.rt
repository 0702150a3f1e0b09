//! Summaries of a partition field.
ghost use Rattle.std.specs.Prelude.{◌≡◌, None, IfOk, option_map, map};
ghost use Rattle.std.specs.List.{list_any, range_with_len};
ghost use Rattle.commit_manifests.specs.Rows.{is_outside, outermost, outermost_from, extreme_at, contains_null, bound_of, summary_at};

use crate::parts::{has_null, part_at};
use kind_values::{Summary, put_bound};
use manifest_files::Entry;
use row_values::{Bytes, List, Value};
use std::alloc::{AllocError, Global};
use std::cmp::Ordering;

/// Whether the value stands on this side of another.
fn is_outside(side: Ordering, value: &Value, other: &Value) -> bool
    ensures { result ≡ is_outside side value.now other.now }
{
    match value.compare(other) {
        Some(found) => found == side,
        None => false,
    }
}

fn outermost<'v>(
    side: Ordering,
    best: Option<&'v Value>,
    new: Option<&'v Value>,
) -> Option<&'v Value>
    ensures { option_map (λ v. v.now) result ≡ outermost side (option_map (λ v. v.now) best.entry) (option_map (λ v. v.now) new.entry) }
{
    let Some(value) = new else {
        return best;
    };
    match best {
        Some(other) => Some(if is_outside(side, value, other) {
            value
        } else {
            other
        }),
        None => Some(value),
    }
}

/// The value farthest to this side, of live entries.
fn extreme_at(side: Ordering, place: usize, entries: &[Entry]) -> Option<&Value>
    ensures { option_map (λ v. v.now) result ≡ extreme_at side place entries.now }
{
    let mut best = None;
    let mut rest = entries;
    while let [entry, after @ ..] = rest {
        best = outermost(side, best, part_at(place, entry));
        rest = after;
    }
    best
}

fn contains_null(place: usize, entries: &[Entry]) -> bool
    ensures { result ≡ contains_null place entries.now }
{
    entries.iter().any(|entry| has_null(place, entry))
}

/// A list says no kinds, so a bound stands as its bytes.
fn bound_of(alloc: Global, value: Option<&Value>) -> Result<Option<Value>, AllocError>
    ensures { IfOk result (λ bound. bound ≡ bound_of (option_map (λ v. v.now) value.entry)) }
{
    let Some(value) = value else {
        return Ok(None);
    };
    let mut bytes = Vec::new(alloc);
    put_bound(value, &mut bytes)?;
    Ok(Some(Value::Bytes(Bytes::from_vec(bytes))))
}

fn summary_at(alloc: Global, place: usize, entries: &[Entry]) -> Result<Summary, AllocError>
    ensures { IfOk result (λ summary. summary ≡ summary_at place entries.now) }
{
    Ok(Summary {
        contains_null: contains_null(place, entries),
        lower: bound_of(alloc, extreme_at(Ordering::Less, place, entries))?,
        upper: bound_of(alloc, extreme_at(Ordering::Greater, place, entries))?,
    })
}

/// One for each of so many fields.
pub(crate) fn summaries_of(
    alloc: Global,
    fields: usize,
    entries: &[Entry],
) -> Result<List<Summary>, AllocError>
    ensures { IfOk result (λ summaries. summaries ≡ map (λ place. summary_at place entries.now) (range_with_len 0 fields)) }
{
    let mut summaries = List::new(alloc);
    for place in 0..fields {
        summaries.push(summary_at(alloc, place, entries)?)?;
    }
    Ok(summaries)
}
