//! The texts of the primitive types.
ghost use Rattle.std.specs.Prelude.{◌≡◌};
ghost use Rattle.iceberg_schema.specs.KindText.{kind_of, decimal_of, decimal_kind};

use plain_types::digits::{after_blanks, after_text, number_at};
use row_values::Kind;

/// The kind that a type's text names.
#[tactic(auto, unfolding(crate::specs::KindText::kind_of))]
pub(crate) fn kind_of(text: &str) -> Option<Kind>
    ensures { result ≡ kind_of text.now }
{
    if text == "boolean" {
        return Some(Kind::Bool);
    }
    if text == "int" {
        return Some(Kind::Int);
    }
    if text == "long" {
        return Some(Kind::Long);
    }
    if text == "date" {
        return Some(Kind::Date);
    }
    if text == "timestamp" {
        return Some(Kind::Timestamp { utc: false });
    }
    if text == "timestamptz" {
        return Some(Kind::Timestamp { utc: true });
    }
    if text == "string" {
        return Some(Kind::Text);
    }
    if text == "binary" {
        return Some(Kind::Bytes);
    }
    decimal_of(text.as_bytes())
}

/// `decimal(P,S)`. The reference library writes a blank behind the comma.
#[tactic(auto, unfolding(crate::specs::KindText::decimal_of))]
fn decimal_of(bytes: &[u8]) -> Option<Kind>
    ensures { result ≡ decimal_of bytes.now }
{
    let numbers = after_text(b"decimal(", bytes)?;
    let (precision, behind_precision) = number_at(after_blanks(numbers))?;
    let second = after_text(b",", after_blanks(behind_precision))?;
    let (scale, behind_scale) = number_at(after_blanks(second))?;
    let rest = after_text(b")", after_blanks(behind_scale))?;
    if rest.is_empty() {
        decimal_kind(precision, scale)
    } else {
        None
    }
}

fn decimal_kind(precision: u64, scale: u64) -> Option<Kind>
    ensures { result ≡ decimal_kind precision scale }
{
    if 1 <= precision && precision <= 38 && scale <= precision {
        Some(Kind::Decimal {
            precision: precision as u8,
            scale: scale as u8,
        })
    } else {
        None
    }
}
