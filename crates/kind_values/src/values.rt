//! A value of each kind, where what is read is one.
ghost use Rattle.std.specs.Prelude.{◌≡◌, IfOk, option_and_then};
ghost use Rattle.row_values.specs.Rows.{has_digits};
ghost use Rattle.kind_values.specs.KindValues.{of_kind, decimal_of};

use crate::big_endian::signed_of;
use row_values::{Bytes, Kind, Text, Value};
use std::alloc::{AllocError, Global};

/// 0001-01-01 and 9999-12-31 in days from 1970-01-01.
const FIRST_DAY: i32 = -719162;

const LAST_DAY: i32 = 2932896;

/// The first and the last microsecond of these days.
const FIRST_INSTANT: i64 = -62135596800000000;

const LAST_INSTANT: i64 = 253402300799999999;

pub fn int_value(number: i32) -> Option<Value>
    ensures { result ≡ of_kind Kind.Int (Value.Int number) }
{
    Some(Value::Int(number))
}

pub fn long_value(number: i64) -> Option<Value>
    ensures { result ≡ of_kind Kind.Long (Value.Long number) }
{
    Some(Value::Long(number))
}

pub fn date_value(days: i32) -> Option<Value>
    ensures { result ≡ of_kind Kind.Date (Value.Date days) }
{
    if FIRST_DAY <= days && days <= LAST_DAY {
        Some(Value::Date(days))
    } else {
        None
    }
}

pub fn timestamp_value(utc: bool, micros: i64) -> Option<Value>
    ensures { result ≡ of_kind (Kind.Timestamp utc) (Value.Timestamp micros) }
{
    if FIRST_INSTANT <= micros && micros <= LAST_INSTANT {
        Some(Value::Timestamp(micros))
    } else {
        None
    }
}

/// The most digits that an amount of 128 bits can pass.
const MOST_DIGITS: u8 = 38;

/// Whether the amount has at most so many digits.
#[tactic(auto)]
pub(crate) fn has_digits(precision: u8, amount: i128) -> bool
    ensures { result ≡ has_digits precision amount }
{
    if precision > MOST_DIGITS {
        return true;
    }
    amount.unsigned_abs() < 10u128.pow(u32::from(precision))
}

pub fn decimal_value(precision: u8, scale: u8, bytes: &[u8]) -> Option<Value>
    ensures { result ≡ option_and_then (of_kind (Kind.Decimal precision scale)) (decimal_of scale bytes.now) }
{
    if bytes.is_empty() || bytes.len() > 16 {
        return None;
    }
    let unscaled = signed_of(bytes);
    if has_digits(precision, unscaled) {
        Some(Value::Decimal { unscaled, scale })
    } else {
        None
    }
}

pub fn text_value(alloc: Global, bytes: &[u8]) -> Result<Option<Value>, AllocError>
    ensures { IfOk result (λ v. v ≡ of_kind Kind.Text (Value.Text bytes.now)) }
{
    match str::from_utf8(bytes) {
        Ok(text) => Ok(Some(Value::Text(Text::copy_of(alloc, text)?))),
        Err(_) => Ok(None),
    }
}

#[tactic(auto, using(crate::proofs::Octets::all_octets))]
pub fn bytes_value(alloc: Global, bytes: &[u8]) -> Result<Option<Value>, AllocError>
    ensures { IfOk result (λ v. v ≡ of_kind Kind.Bytes (Value.Bytes bytes.now)) }
{
    Ok(Some(Value::Bytes(Bytes::copy_of(alloc, bytes)?)))
}
