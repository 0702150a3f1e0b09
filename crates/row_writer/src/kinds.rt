//! The types of kinds.
ghost use Rattle.std.specs.Prelude.{◌≡◌, ◌≤◌, ◌^◌, ◌-◌, pos, IfOk};
ghost use Rattle.row_writer.specs.KindTypes.{decimal_size, kind_type};

use avro_binary::{Logical, Octets, Schema};
use kind_values::byte_count;
use row_values::Kind;
use std::alloc::{AllocError, Global};

/// The most digits of a decimal.
const MOST_DIGITS: u8 = 38;

/// The greatest number of so many digits.
fn greatest(digits: u8) -> i128
    requires { digits ≤ 38 }
    ensures { result ≡ pos (10 ^ digits - 1) }
{
    let power = 10u128.pow(u32::from(digits));
    (power - 1) as i128
}

/// The fewest bytes that hold so many digits.
pub(crate) fn decimal_size(precision: u8) -> usize
    ensures { result ≡ decimal_size precision }
{
    byte_count(greatest(precision.min(MOST_DIGITS)))
}

/// The type of the kind's values; that of decimals has this name.
pub fn kind_type(alloc: Global, name: &[u8], kind: Kind) -> Result<Schema, AllocError>
    ensures { IfOk result (λ s. s ≡ kind_type name.now kind) }
{
    match kind {
        Kind::Bool => Ok(Schema::Boolean),
        Kind::Int => Ok(Schema::Int(Logical::Plain)),
        Kind::Long => Ok(Schema::Long(Logical::Plain)),
        Kind::Date => Ok(Schema::Int(Logical::Date)),
        Kind::Timestamp { utc } => Ok(Schema::Long(Logical::TimestampMicros { utc })),
        Kind::Decimal { precision, scale } => Ok(Schema::Fixed {
            name: Octets::copy_of(alloc, name)?,
            size: decimal_size(precision) as u64,
            logical: Logical::Decimal { precision, scale },
        }),
        Kind::Text => Ok(Schema::Text),
        Kind::Bytes => Ok(Schema::Bytes(Logical::Plain)),
    }
}
