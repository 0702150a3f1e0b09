//! Values of fields.
ghost use Rattle.std.specs.Prelude.{◌≡◌, IfOk, option_and_then};
ghost use Rattle.std.specs.Str.{IsUtf8};
ghost use Rattle.avro_binary.specs.Spelling.{IsSignedOf};
ghost use Rattle.manifest_writer.specs.Value.{
  optional_int,
  optional_long,
  optional_bound,
  bytes_inside,
  AreSignedOf,
  optional_text,
  AreUtf8,
  count_number,
};

use avro_binary::{Datum, Octets};
use row_values::{Text, Value};
use row_writer::{null_branch, value_branch};
use std::alloc::{AllocError, Global};

pub(crate) fn text_datum(alloc: Global, text: &Text) -> Result<Datum, AllocError>
    ensures same { IfOk result (λ d. d ≡ Datum.Text text.now) }
    ensures range { IfOk result (λ d. IsUtf8 text.now) }
{
    let bytes = text.as_bytes();
    Ok(Datum::Text(Octets::copy_of(alloc, bytes)?))
}

pub(crate) fn int_datum(number: i32) -> Datum
    ensures same { result ≡ Datum.Int number }
    ensures range { IsSignedOf 31 number }
{
    Datum::Int(number)
}

pub(crate) fn long_datum(number: i64) -> Datum
    ensures same { result ≡ Datum.Long number }
    ensures range { IsSignedOf 63 number }
{
    Datum::Long(number)
}

pub(crate) fn optional_int(alloc: Global, number: Option<i32>) -> Result<Datum, AllocError>
    ensures same { IfOk result (λ d. d ≡ optional_int number) }
    ensures range { IfOk result (λ d. AreSignedOf 31 number) }
{
    match number {
        Some(number) => value_branch(alloc, int_datum(number)),
        None => null_branch(alloc),
    }
}

pub(crate) fn optional_long(alloc: Global, number: Option<i64>) -> Result<Datum, AllocError>
    ensures same { IfOk result (λ d. d ≡ optional_long number) }
    ensures range { IfOk result (λ d. AreSignedOf 63 number) }
{
    match number {
        Some(number) => value_branch(alloc, long_datum(number)),
        None => null_branch(alloc),
    }
}

/// A bound that is bytes, else null.
pub(crate) fn optional_bound(alloc: Global, bound: &Option<Value>) -> Result<Datum, AllocError>
    ensures { IfOk result (λ d. d ≡ optional_bound bound.now) }
{
    match bound {
        Some(Value::Bytes(bytes)) => {
            let bytes = Octets::copy_of(alloc, bytes.as_slice())?;
            value_branch(alloc, Datum::Bytes(bytes))
        }
        _ => null_branch(alloc),
    }
}

pub(crate) fn optional_text(alloc: Global, text: &Option<Text>) -> Result<Datum, AllocError>
    ensures same { IfOk result (λ d. d ≡ optional_text text.now) }
    ensures range { IfOk result (λ d. AreUtf8 text.now) }
{
    match text {
        Some(text) => value_branch(alloc, text_datum(alloc, text)?),
        None => null_branch(alloc),
    }
}

/// A count as a long; one above the greatest stands at it.
pub(crate) fn count_number(count: u64) -> i64
    ensures { result ≡ count_number count }
{
    if count < 9223372036854775808 {
        count as i64
    } else {
        i64::MAX
    }
}
