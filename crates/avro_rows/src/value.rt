//! The value of a datum for a kind.
ghost use Rattle.std.specs.Prelude.{◌≡◌, IfOk};
ghost use Rattle.avro_binary.specs.declared.datum.Datum.{out-Datum};
ghost use Rattle.avro_rows.specs.DatumValue.{value_of, inside, is_null_datum};

use avro_binary::Datum;
use kind_values::{
    bytes_value, date_value, decimal_value, int_value, long_value, text_value, timestamp_value,
};
use row_values::{Kind, Value};
use std::alloc::{AllocError, Global};

/// The value of a datum that is neither NULL nor in a union.
pub fn value_of(alloc: Global, kind: Kind, datum: &Datum) -> Result<Option<Value>, AllocError>
    ensures { IfOk result (λ v. v ≡ value_of kind datum.now) }
{
    match (kind, datum) {
        (Kind::Bool, Datum::Boolean(b)) => Ok(Some(Value::Bool(*b))),
        (Kind::Int, Datum::Int(number)) => Ok(int_value(*number)),
        (Kind::Long, Datum::Int(number)) => Ok(long_value(i64::from(*number))),
        (Kind::Long, Datum::Long(number)) => Ok(long_value(*number)),
        (Kind::Date, Datum::Int(days)) => Ok(date_value(*days)),
        (Kind::Timestamp { utc }, Datum::Long(micros)) => Ok(timestamp_value(utc, *micros)),
        (Kind::Decimal { precision, scale }, Datum::Bytes(bytes)) => {
            Ok(decimal_value(precision, scale, bytes.as_slice()))
        }
        (Kind::Decimal { precision, scale }, Datum::Fixed(bytes)) => {
            Ok(decimal_value(precision, scale, bytes.as_slice()))
        }
        (Kind::Text, Datum::Text(bytes)) => text_value(alloc, bytes.as_slice()),
        (Kind::Bytes, Datum::Bytes(bytes)) => bytes_value(alloc, bytes.as_slice()),
        (Kind::Bytes, Datum::Fixed(bytes)) => bytes_value(alloc, bytes.as_slice()),
        _ => Ok(None),
    }
}

/// What stands in a union, or the datum itself.
pub fn inside(datum: &Datum) -> &Datum
    ensures { result.now ≡ inside datum.now }
{
    match datum {
        Datum::Union { value, .. } => value.get(),
        _ => datum,
    }
}

pub fn is_null_datum(datum: &Datum) -> bool
    ensures { result ≡ is_null_datum (out-Datum datum.now) }
{
    match datum {
        Datum::Null => true,
        _ => false,
    }
}
