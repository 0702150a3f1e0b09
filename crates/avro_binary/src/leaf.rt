//! Datums of the types that hold no other type.

ghost use Rattle.std.specs.Prelude.{◌≡◌};
ghost use Rattle.avro_binary.specs.Answer.{Gives};
ghost use Rattle.avro_binary.specs.Shape.{boolean_shape, int_shape, long_shape, bytes_shape, text_shape, enum_shape, fixed_shape};
ghost use Rattle.avro_binary.specs.Reading.{datum_at, boolean_at};

use crate::datum::Datum;
use crate::fault::{FaultKind, Stop, fault, short};
use crate::number::{bytes_at, front_at, index_at, int_at, long_at, text_at};
use plain_types::Bytes as Octets;
use std::alloc::Global;

#[tactic(auto, unfolding(crate::specs::Reading::boolean_at))]
fn boolean_at(bytes: &[u8]) -> Result<(bool, &[u8]), Stop>
    ensures { Gives (λ x. (x.0, x.1.now)) result (boolean_at bytes.now) }
{
    match bytes {
        [] => Err(short()),
        [0, rest @ ..] => Ok((false, rest)),
        [1, rest @ ..] => Ok((true, rest)),
        [_, ..] => Err(fault(FaultKind::Branch, bytes)),
    }
}

#[tactic(auto, unfolding(crate::specs::Reading::datum_at))]
pub fn boolean_datum(bytes: &[u8]) -> Result<(Datum, &[u8]), Stop>
    ensures { Gives (λ x. (x.0, x.1.now)) result (datum_at boolean_shape bytes.now) }
{
    let (value, rest) = boolean_at(bytes)?;
    Ok((Datum::Boolean(value), rest))
}

#[tactic(auto, unfolding(crate::specs::Reading::datum_at))]
pub fn int_datum(bytes: &[u8]) -> Result<(Datum, &[u8]), Stop>
    ensures { Gives (λ x. (x.0, x.1.now)) result (datum_at int_shape bytes.now) }
{
    let (value, rest) = int_at(bytes)?;
    Ok((Datum::Int(value), rest))
}

#[tactic(auto, unfolding(crate::specs::Reading::datum_at))]
pub fn long_datum(bytes: &[u8]) -> Result<(Datum, &[u8]), Stop>
    ensures { Gives (λ x. (x.0, x.1.now)) result (datum_at long_shape bytes.now) }
{
    let (value, rest) = long_at(bytes)?;
    Ok((Datum::Long(value), rest))
}

#[tactic(auto, unfolding(crate::specs::Reading::datum_at))]
pub fn bytes_datum(alloc: Global, bytes: &[u8]) -> Result<(Datum, &[u8]), Stop>
    ensures { Gives (λ x. (x.0, x.1.now)) result (datum_at bytes_shape bytes.now) }
{
    let (value, rest) = bytes_at(bytes)?;
    Ok((Datum::Bytes(Octets::copy_of(alloc, value)?), rest))
}

#[tactic(auto, unfolding(crate::specs::Reading::datum_at))]
pub fn text_datum(alloc: Global, bytes: &[u8]) -> Result<(Datum, &[u8]), Stop>
    ensures { Gives (λ x. (x.0, x.1.now)) result (datum_at text_shape bytes.now) }
{
    let (value, rest) = text_at(bytes)?;
    Ok((Datum::Text(Octets::copy_of(alloc, value)?), rest))
}

#[tactic(auto, unfolding(crate::specs::Reading::datum_at))]
pub fn enum_datum(count: usize, bytes: &[u8]) -> Result<(Datum, &[u8]), Stop>
    ensures { Gives (λ x. (x.0, x.1.now)) result (datum_at (enum_shape count) bytes.now) }
{
    let (index, rest) = index_at(count, bytes)?;
    Ok((Datum::Enum(index), rest))
}

#[tactic(auto, unfolding(crate::specs::Reading::datum_at))]
pub fn fixed_datum(alloc: Global, size: u64, bytes: &[u8]) -> Result<(Datum, &[u8]), Stop>
    ensures { Gives (λ x. (x.0, x.1.now)) result (datum_at (fixed_shape size) bytes.now) }
{
    let (value, rest) = front_at(size, bytes)?;
    Ok((Datum::Fixed(Octets::copy_of(alloc, value)?), rest))
}
