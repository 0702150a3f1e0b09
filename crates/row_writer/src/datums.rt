//! Values as datums.
ghost use Rattle.std.specs.Prelude.{◌≡◌, IfOk};
ghost use Rattle.row_writer.specs.KindDatum.{amount_size, value_datum, optional};

use crate::kinds::decimal_size;
use avro_binary::{Boxed, Datum, Octets};
use kind_values::put_signed_in;
use row_values::{Kind, Value};
use std::alloc::{AllocError, Global};

fn amount_size(kind: Kind) -> usize
    ensures { result ≡ amount_size kind }
{
    match kind {
        Kind::Decimal { precision, .. } => decimal_size(precision),
        _ => 0,
    }
}

fn amount_datum(alloc: Global, kind: Kind, unscaled: i128) -> Result<Datum, AllocError>
    ensures { IfOk result (λ d. d ≡ value_datum kind (Value.Decimal unscaled 0)) }
{
    let mut bytes = Vec::new(alloc);
    put_signed_in(amount_size(kind), unscaled, &mut bytes)?;
    Ok(Datum::Fixed(Octets::from_vec(bytes)))
}

/// A value of the kind.
pub fn value_datum(alloc: Global, kind: Kind, value: &Value) -> Result<Datum, AllocError>
    ensures { IfOk result (λ d. d ≡ value_datum kind value.now) }
{
    match value {
        Value::Null => Ok(Datum::Null),
        Value::Bool(b) => Ok(Datum::Boolean(*b)),
        Value::Int(number) => Ok(Datum::Int(*number)),
        Value::Long(number) => Ok(Datum::Long(*number)),
        Value::Date(days) => Ok(Datum::Int(*days)),
        Value::Timestamp(micros) => Ok(Datum::Long(*micros)),
        Value::Decimal { unscaled, .. } => amount_datum(alloc, kind, *unscaled),
        Value::Text(text) => Ok(Datum::Text(Octets::copy_of(alloc, text.as_bytes())?)),
        Value::Bytes(bytes) => Ok(Datum::Bytes(Octets::copy_of(alloc, bytes.as_slice())?)),
    }
}

/// NULL, in a union of null and a type.
pub fn null_branch(alloc: Global) -> Result<Datum, AllocError>
    ensures { IfOk result (λ d. d ≡ optional None) }
{
    Ok(Datum::Union {
        branch: 0,
        value: Boxed::new(alloc, Datum::Null)?,
    })
}

/// A datum of the type, in a union of null and the type.
pub fn value_branch(alloc: Global, datum: Datum) -> Result<Datum, AllocError>
    ensures { IfOk result (λ d. d ≡ optional (Some datum)) }
{
    Ok(Datum::Union {
        branch: 1,
        value: Boxed::new(alloc, datum)?,
    })
}
