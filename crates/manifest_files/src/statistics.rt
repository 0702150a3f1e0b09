//! What an entry tells of a file's columns.
ghost use Rattle.std.specs.Prelude.{◌≡◌, ◌≤◌, length, [], option_map, IfOk, OnOk};
ghost use Rattle.manifest_files.specs.Statistics.{
  place_from,
  stands_at,
  with_column,
  with_columns,
  path_column,
  position_column,
  known_columns,
  key_in,
  is_key,
  is_pair,
  are_pairs,
  any_key,
  has_key,
  has_twice,
  value_under,
  count_of,
  bound_in,
  facts_of,
  tells,
  stats_from,
};

use crate::datum_values::{bytes_in, int_at, items_at, long_in, natural_of, present};
use crate::known_column::KnownColumn;
use crate::places::{FilePlaces, PairPlaces};
use avro_binary::Datum;
use avro_rows::values_of;
use kind_values::{ColumnStats, Stats, read_bound};
use row_values::{Column, Kind, List, Value};
use std::alloc::{AllocError, Global};

/// How many of the columns have lower ids.
#[tactic(auto, unfolding(crate::specs::Statistics::place_from))]
fn place_of(id: i32, columns: &[KnownColumn]) -> usize
    ensures value { result ≡ place_from id 0 columns.now }
    ensures bound { result ≤ length columns.now }
{
    let mut place = 0;
    let mut rest = columns;
    while let [column, after @ ..] = rest {
        if column.id >= id {
            return place;
        }
        place += 1;
        rest = after;
    }
    place
}

fn stands_at(id: i32, place: usize, columns: &[KnownColumn]) -> bool
    ensures { result ≡ stands_at id place columns.now }
{
    match columns.get(place) {
        Some(column) => column.id == id,
        None => false,
    }
}

/// Puts the column at its place, unless one with its id stands there.
fn add_column(columns: &mut Vec<KnownColumn>, column: KnownColumn) -> Result<(), AllocError>
    ensures { OnOk result (columns.new.items ≡ with_column column columns.old.items) }
{
    let place = place_of(column.id, columns.as_slice());
    if !stands_at(column.id, place, columns.as_slice()) {
        columns.insert(place, column)?;
    }
    Ok(())
}

#[tactic(auto, unfolding(crate::specs::Statistics::with_columns))]
fn with_columns(alloc: Global, columns: &[Column]) -> Result<Vec<KnownColumn>, AllocError>
    ensures { IfOk result (λ known. known.items ≡ with_columns [] columns.now) }
{
    let mut known = Vec::new(alloc);
    let mut rest = columns;
    while let [column, after @ ..] = rest {
        add_column(
            &mut known,
            KnownColumn {
                id: column.id,
                kind: column.kind,
            },
        )?;
        rest = after;
    }
    Ok(known)
}

/// The path in a position delete file.
fn path_column() -> KnownColumn
    ensures { result ≡ path_column }
{
    KnownColumn {
        id: 2147483546,
        kind: Kind::Text,
    }
}

/// The position in a position delete file.
fn position_column() -> KnownColumn
    ensures { result ≡ position_column }
{
    KnownColumn {
        id: 2147483545,
        kind: Kind::Long,
    }
}

/// The columns of which statistics are kept, in strictly rising order of ids.
pub(crate) fn known_columns(
    alloc: Global,
    columns: &[Column],
) -> Result<Vec<KnownColumn>, AllocError>
    ensures { IfOk result (λ known. known.items ≡ known_columns columns.now) }
{
    let mut known = with_columns(alloc, columns)?;
    add_column(&mut known, position_column())?;
    add_column(&mut known, path_column())?;
    Ok(known)
}

fn key_in(places: &PairPlaces, pair: &Datum) -> Option<i32>
    ensures { result ≡ key_in places.now pair.now }
{
    int_at(values_of(pair), Some(places.key))
}

fn is_key(places: &PairPlaces, id: i32, pair: &Datum) -> bool
    ensures { result ≡ is_key places.now id pair.now }
{
    match key_in(places, pair) {
        Some(key) => key == id,
        None => false,
    }
}

/// Whether the pair has a key and a value.
fn is_pair(places: &PairPlaces, pair: &Datum) -> bool
    ensures { result ≡ is_pair places.now pair.now }
{
    key_in(places, pair).is_some() && present(values_of(pair), places.value).is_some()
}

pub(crate) fn are_pairs(places: &PairPlaces, items: &[Datum]) -> bool
    ensures { result ≡ are_pairs places.now items.now }
{
    items.iter().all(|pair| is_pair(places, pair))
}

fn any_key(places: &PairPlaces, key: i32, items: &[Datum]) -> bool
    ensures { result ≡ any_key places.now key items.now }
{
    items.iter().any(|pair| is_key(places, key, pair))
}

fn has_key(places: &PairPlaces, key: Option<i32>, items: &[Datum]) -> bool
    ensures { result ≡ has_key places.now key items.now }
{
    match key {
        Some(key) => any_key(places, key, items),
        None => false,
    }
}

/// Whether a key stands twice.
#[tactic(auto, unfolding(crate::specs::Statistics::has_twice))]
pub(crate) fn has_twice(places: &PairPlaces, items: &[Datum]) -> bool
    ensures { result ≡ has_twice places.now items.now }
{
    let mut rest = items;
    while let [pair, after @ ..] = rest {
        if has_key(places, key_in(places, pair), after) {
            return true;
        }
        rest = after;
    }
    false
}

/// The value of the first pair with the key.
#[tactic(auto, unfolding(crate::specs::Statistics::value_under))]
fn value_under<'d>(places: &PairPlaces, id: i32, items: &'d [Datum]) -> Option<&'d Datum>
    ensures { option_map (λ d. d.now) result ≡ value_under places.now id items.now }
{
    let mut rest = items;
    while let [pair, after @ ..] = rest {
        if is_key(places, id, pair) {
            return present(values_of(pair), places.value);
        }
        rest = after;
    }
    None
}

/// A count of the column, unless it is negative.
fn count_of(places: &PairPlaces, column: &KnownColumn, file: &[Datum]) -> Option<u64>
    ensures { result ≡ count_of places.now column.now file.now }
{
    let datum = value_under(places, column.id, items_at(file, places.place))?;
    let number = long_in(datum)?;
    natural_of(number)
}

/// A bound of the column, where it is one of its kind.
fn bound_in(
    alloc: Global,
    places: &PairPlaces,
    column: &KnownColumn,
    file: &[Datum],
) -> Result<Option<Value>, AllocError>
    ensures { IfOk result (λ bound. bound ≡ bound_in places.now column.now file.now) }
{
    match value_under(places, column.id, items_at(file, places.place)) {
        Some(datum) => match bytes_in(datum) {
            Some(bytes) => read_bound(alloc, column.kind, bytes),
            None => Ok(None),
        },
        None => Ok(None),
    }
}

/// What a file's record tells of a column.
fn facts_of(
    alloc: Global,
    places: &FilePlaces,
    file: &[Datum],
    column: &KnownColumn,
) -> Result<ColumnStats, AllocError>
    ensures { IfOk result (λ facts. facts ≡ facts_of places.now file.now column.now) }
{
    Ok(ColumnStats {
        id: column.id,
        values: count_of(&places.values, column, file),
        nulls: count_of(&places.nulls, column, file),
        lower: bound_in(alloc, &places.lower, column, file)?,
        upper: bound_in(alloc, &places.upper, column, file)?,
    })
}

fn tells(facts: &ColumnStats) -> bool
    ensures { result ≡ tells facts.now }
{
    facts.values.is_some()
        || facts.nulls.is_some()
        || facts.lower.is_some()
        || facts.upper.is_some()
}

/// What a file's record tells of the columns.
#[tactic(auto, unfolding(crate::specs::Statistics::stats_from))]
pub(crate) fn stats_of(
    alloc: Global,
    places: &FilePlaces,
    file: &[Datum],
    columns: &[KnownColumn],
) -> Result<Stats, AllocError>
    ensures { IfOk result (λ stats. stats.columns ≡ stats_from places.now file.now [] columns.now) }
{
    let mut stats = Vec::new(alloc);
    let mut rest = columns;
    while let [column, after @ ..] = rest {
        let facts = facts_of(alloc, places, file, column)?;
        if tells(&facts) {
            stats.push(facts)?;
        }
        rest = after;
    }
    Ok(Stats {
        columns: List::from_vec(stats),
    })
}
