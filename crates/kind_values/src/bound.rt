//! Reads a bound.
ghost use Rattle.std.specs.Prelude.{◌≡◌, IfOk, option_and_then};
ghost use Rattle.kind_values.specs.KindValues.{of_kind};
ghost use Rattle.kind_values.specs.Bounds.{bool_of, content_of, bound_of};

use crate::little_endian::{int_of, long_of};
use crate::values::{
    bytes_value, date_value, decimal_value, int_value, long_value, text_value, timestamp_value,
};
use row_values::{Kind, Value};
use std::alloc::{AllocError, Global};

fn bool_bound(bytes: &[u8]) -> Option<Value>
    ensures { result ≡ bound_of Kind.Bool bytes.now }
{
    match bytes {
        [byte] => Some(Value::Bool(*byte != 0)),
        _ => None,
    }
}

fn int_bound(bytes: &[u8]) -> Option<Value>
    ensures { result ≡ bound_of Kind.Int bytes.now }
{
    match int_of(bytes) {
        Some(number) => int_value(number),
        None => None,
    }
}

/// A long, or an int of a column that was promoted.
fn long_bound(bytes: &[u8]) -> Option<Value>
    ensures { result ≡ bound_of Kind.Long bytes.now }
{
    match long_of(bytes) {
        Some(number) => long_value(number),
        None => match int_of(bytes) {
            Some(number) => long_value(i64::from(number)),
            None => None,
        },
    }
}

fn date_bound(bytes: &[u8]) -> Option<Value>
    ensures { result ≡ bound_of Kind.Date bytes.now }
{
    match int_of(bytes) {
        Some(days) => date_value(days),
        None => None,
    }
}

fn timestamp_bound(utc: bool, bytes: &[u8]) -> Option<Value>
    ensures { result ≡ bound_of (Kind.Timestamp utc) bytes.now }
{
    match long_of(bytes) {
        Some(micros) => timestamp_value(utc, micros),
        None => None,
    }
}

/// The value that the bytes are in the kind, where they are one.
pub fn read_bound(alloc: Global, kind: Kind, bytes: &[u8]) -> Result<Option<Value>, AllocError>
    ensures { IfOk result (λ v. v ≡ bound_of kind bytes.now) }
{
    match kind {
        Kind::Bool => Ok(bool_bound(bytes)),
        Kind::Int => Ok(int_bound(bytes)),
        Kind::Long => Ok(long_bound(bytes)),
        Kind::Date => Ok(date_bound(bytes)),
        Kind::Timestamp { utc } => Ok(timestamp_bound(utc, bytes)),
        Kind::Decimal { precision, scale } => Ok(decimal_value(precision, scale, bytes)),
        Kind::Text => text_value(alloc, bytes),
        Kind::Bytes => bytes_value(alloc, bytes),
    }
}
