//! The texts of partition transforms.
ghost use Rattle.std.specs.Prelude.{◌≡◌};
ghost use Rattle.iceberg_schema.specs.TransformText.{transform_of, numbered_of, width_of};

use crate::TransformFault;
use plain_types::digits::{after_text, number_at};
use row_values::Transform;
use std::alloc::Global;

/// The greatest number of a bucket or truncate transform.
const MAX_WIDTH: u64 = 2147483647;

/// The transform that a text names.
#[tactic(auto, unfolding(crate::specs::TransformText::transform_of))]
pub fn read_transform(_alloc: Global, text: &str) -> Result<Transform, TransformFault>
    ensures { result ≡ transform_of text.now }
{
    if text == "identity" {
        return Ok(Transform::Identity);
    }
    if text == "void" {
        return Ok(Transform::Void);
    }
    if text == "year" || text == "years" {
        return Ok(Transform::Year);
    }
    if text == "month" || text == "months" {
        return Ok(Transform::Month);
    }
    if text == "day" || text == "days" {
        return Ok(Transform::Day);
    }
    if text == "hour" || text == "hours" {
        return Ok(Transform::Hour);
    }
    numbered_of(text.as_bytes())
}

/// `bucket[N]` or `truncate[W]`.
#[tactic(auto, unfolding(crate::specs::TransformText::numbered_of))]
fn numbered_of(bytes: &[u8]) -> Result<Transform, TransformFault>
    ensures { result ≡ numbered_of bytes.now }
{
    if let Some(number) = after_text(b"bucket[", bytes) {
        return Ok(Transform::Bucket(width_of(number)?));
    }
    if let Some(number) = after_text(b"truncate[", bytes) {
        return Ok(Transform::Truncate(width_of(number)?));
    }
    Err(TransformFault::Name)
}

/// The number before the bracket that ends the text.
#[tactic(auto, unfolding(crate::specs::TransformText::width_of))]
fn width_of(bytes: &[u8]) -> Result<u32, TransformFault>
    ensures { result ≡ width_of bytes.now }
{
    let Some((number, behind_number)) = number_at(bytes) else {
        return Err(TransformFault::Name);
    };
    let Some(rest) = after_text(b"]", behind_number) else {
        return Err(TransformFault::Name);
    };
    if !rest.is_empty() {
        return Err(TransformFault::Name);
    }
    if !(1 <= number && number <= MAX_WIDTH) {
        return Err(TransformFault::Width);
    }
    Ok(number as u32)
}
