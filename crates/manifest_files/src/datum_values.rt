//! The value at a place of a record. A place that is nowhere and a null alike have none.
ghost use Rattle.std.specs.Prelude.{◌≡◌, option_map, option_and_then, IfOk};
ghost use Rattle.manifest_files.specs.Datums.{present_in, present, present_at, int_in, long_in, boolean_in, bytes_in, text_in, items_at, as_text, natural_of};

use avro_binary::Datum;
use avro_rows::{inside, is_null_datum};
use row_values::Text;
use std::alloc::{AllocError, Global};

/// The datum in its union, unless it is null.
pub(crate) fn present_in(datum: &Datum) -> Option<&Datum>
    ensures { option_map (λ d. d.now) result ≡ present_in datum.now }
{
    let held = inside(datum);
    if is_null_datum(held) {
        None
    } else {
        Some(held)
    }
}

pub(crate) fn present(values: &[Datum], place: usize) -> Option<&Datum>
    ensures { option_map (λ d. d.now) result ≡ present values.now place }
{
    match values.get(place) {
        Some(datum) => present_in(datum),
        None => None,
    }
}

pub(crate) fn present_at(values: &[Datum], place: Option<usize>) -> Option<&Datum>
    ensures { option_map (λ d. d.now) result ≡ present_at values.now place }
{
    match place {
        Some(place) => present(values, place),
        None => None,
    }
}

pub(crate) fn int_in(datum: &Datum) -> Option<i32>
    ensures { result ≡ int_in datum.now }
{
    match datum {
        Datum::Int(number) => Some(*number),
        _ => None,
    }
}

pub(crate) fn long_in(datum: &Datum) -> Option<i64>
    ensures { result ≡ long_in datum.now }
{
    match datum {
        Datum::Long(number) => Some(*number),
        _ => None,
    }
}

fn boolean_in(datum: &Datum) -> Option<bool>
    ensures { result ≡ boolean_in datum.now }
{
    match datum {
        Datum::Boolean(b) => Some(*b),
        _ => None,
    }
}

pub(crate) fn bytes_in(datum: &Datum) -> Option<&[u8]>
    ensures { option_map (λ bytes. bytes.now) result ≡ bytes_in datum.now }
{
    match datum {
        Datum::Bytes(bytes) => Some(bytes.as_slice()),
        _ => None,
    }
}

fn text_in(datum: &Datum) -> Option<&[u8]>
    ensures { option_map (λ bytes. bytes.now) result ≡ text_in datum.now }
{
    match datum {
        Datum::Text(bytes) => Some(bytes.as_slice()),
        _ => None,
    }
}

pub(crate) fn int_at(values: &[Datum], place: Option<usize>) -> Option<i32>
    ensures { result ≡ option_and_then int_in (present_at values.now place) }
{
    match present_at(values, place) {
        Some(datum) => int_in(datum),
        None => None,
    }
}

pub(crate) fn long_at(values: &[Datum], place: Option<usize>) -> Option<i64>
    ensures { result ≡ option_and_then long_in (present_at values.now place) }
{
    match present_at(values, place) {
        Some(datum) => long_in(datum),
        None => None,
    }
}

pub(crate) fn boolean_at(values: &[Datum], place: usize) -> Option<bool>
    ensures { result ≡ option_and_then boolean_in (present values.now place) }
{
    match present(values, place) {
        Some(datum) => boolean_in(datum),
        None => None,
    }
}

pub(crate) fn bytes_at(values: &[Datum], place: Option<usize>) -> Option<&[u8]>
    ensures { option_map (λ bytes. bytes.now) result ≡ option_and_then bytes_in (present_at values.now place) }
{
    match present_at(values, place) {
        Some(datum) => bytes_in(datum),
        None => None,
    }
}

pub(crate) fn text_bytes_at(values: &[Datum], place: Option<usize>) -> Option<&[u8]>
    ensures { option_map (λ bytes. bytes.now) result ≡ option_and_then text_in (present_at values.now place) }
{
    match present_at(values, place) {
        Some(datum) => text_in(datum),
        None => None,
    }
}

/// The items of the array at the place, of which a null has none.
pub(crate) fn items_at(values: &[Datum], place: Option<usize>) -> &[Datum]
    ensures { result.now ≡ items_at values.now place }
{
    match present_at(values, place) {
        Some(Datum::Array(items)) => items.as_slice(),
        _ => &[],
    }
}

fn as_text(alloc: Global, bytes: &[u8]) -> Result<Option<Text>, AllocError>
    ensures { IfOk result (λ t. t ≡ as_text bytes.now) }
{
    match str::from_utf8(bytes) {
        Ok(text) => Ok(Some(Text::copy_of(alloc, text)?)),
        Err(_) => Ok(None),
    }
}

pub(crate) fn text_at(
    alloc: Global,
    values: &[Datum],
    place: Option<usize>,
) -> Result<Option<Text>, AllocError>
    ensures { IfOk result (λ t. t ≡ option_and_then as_text (option_and_then text_in (present_at values.now place))) }
{
    match text_bytes_at(values, place) {
        Some(bytes) => as_text(alloc, bytes),
        None => Ok(None),
    }
}

/// The count that a number is, unless it is negative.
pub(crate) fn natural_of(number: i64) -> Option<u64>
    ensures { result ≡ natural_of number }
{
    if number >= 0 {
        Some(number as u64)
    } else {
        None
    }
}
