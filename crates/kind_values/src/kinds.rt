//! Whether a value is one of a kind.
ghost use Rattle.std.specs.Prelude.{◌≡◌};
ghost use Rattle.row_values.specs.Rows.{is_value};

use crate::values::{date_value, has_digits, int_value, long_value, timestamp_value};
use row_values::{Kind, Text, Value};

fn is_amount(precision: u8, scale: u8, unscaled: i128, given: u8) -> bool
    ensures { result ≡ is_value (Kind.Decimal precision scale) (Value.Decimal unscaled given) }
{
    given == scale && has_digits(precision, unscaled)
}

#[tactic(auto, using(crate::proofs::Texts::is_text))]
fn is_text(text: &Text) -> bool
    ensures { result ≡ is_value Kind.Text (Value.Text text.now) }
{
    let _bytes = text.as_bytes();
    true
}

#[tactic(auto, using(crate::proofs::Octets::are_octets))]
fn are_bytes(bytes: &[u8]) -> bool
    ensures { result ≡ is_value Kind.Bytes (Value.Bytes bytes.now) }
{
    let _count = bytes.len();
    true
}

/// Whether the value is one of the kind, which NULL never is.
pub fn is_value(kind: Kind, value: &Value) -> bool
    ensures { result ≡ is_value kind value.now }
{
    match (kind, value) {
        (Kind::Bool, Value::Bool(_)) => true,
        (Kind::Int, Value::Int(number)) => int_value(*number).is_some(),
        (Kind::Long, Value::Long(number)) => long_value(*number).is_some(),
        (Kind::Date, Value::Date(days)) => date_value(*days).is_some(),
        (Kind::Timestamp { utc }, Value::Timestamp(micros)) => {
            timestamp_value(utc, *micros).is_some()
        }
        (
            Kind::Decimal { precision, scale },
            Value::Decimal {
                unscaled,
                scale: given,
            },
        ) => is_amount(precision, scale, *unscaled, *given),
        (Kind::Text, Value::Text(text)) => is_text(text),
        (Kind::Bytes, Value::Bytes(bytes)) => are_bytes(bytes.as_slice()),
        _ => false,
    }
}
