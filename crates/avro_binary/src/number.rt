ghost use Rattle.std.specs.Prelude.{◌≡◌, ◌^◌, ◌≤◌, ◌+◌, length};
ghost use Rattle.std.specs.Str.{is_utf8};
ghost use Rattle.avro_binary.specs.Answer.{Gives};
ghost use Rattle.avro_binary.specs.Number.{
  signed,
  groups_at,
  number_at,
  int_at,
  long_at,
  length_at,
  index_at,
  front_at,
  bytes_at,
  text_at,
  counted_at,
  count_at,
};

use crate::fault::{FaultKind, Stop, fault, short};

/// The groups that follow in the number that begins at `whole`, at most `more` of them.
#[tactic(auto, unfolding(crate::specs::Number::groups_at))]
fn groups_at<'a>(more: u32, whole: &[u8], bytes: &'a [u8]) -> Result<(u64, &'a [u8]), Stop>
    ensures { Gives (λ x. (x.0, x.1.now)) result (groups_at more whole.now bytes.now) }
{
    if more == 0 {
        return Err(fault(FaultKind::Long, whole));
    }
    match bytes {
        [] => Err(short()),
        [byte, rest @ ..] => {
            if *byte < 128 {
                return Ok((u64::from(*byte), rest));
            }
            let (high, after) = groups_at(more - 1, whole, rest)?;
            if high < 0x200_0000_0000_0000 {
                Ok((u64::from(*byte % 128) + 128 * high, after))
            } else {
                Err(fault(FaultKind::Long, whole))
            }
        }
    }
}

fn number_at(bytes: &[u8]) -> Result<(u64, &[u8]), Stop>
    ensures { Gives (λ x. (x.0, x.1.now)) result (number_at bytes.now) }
{
    groups_at(10, bytes, bytes)
}

fn signed_of_int(number: u32) -> i32
    ensures { result ≡ signed number }
{
    let half = (number / 2) as i32;
    if number % 2 == 0 { half } else { -1 - half }
}

fn signed_of_long(number: u64) -> i64
    ensures { result ≡ signed number }
{
    let half = (number / 2) as i64;
    if number % 2 == 0 { half } else { -1 - half }
}

#[tactic(auto, unfolding(crate::specs::Number::int_at))]
pub fn int_at(bytes: &[u8]) -> Result<(i32, &[u8]), Stop>
    ensures { Gives (λ x. (x.0, x.1.now)) result (int_at bytes.now) }
{
    let (number, rest) = number_at(bytes)?;
    if number < 0x1_0000_0000 {
        Ok((signed_of_int(number as u32), rest))
    } else {
        Err(fault(FaultKind::Long, bytes))
    }
}

#[tactic(auto, unfolding(crate::specs::Number::long_at))]
pub fn long_at(bytes: &[u8]) -> Result<(i64, &[u8]), Stop>
    ensures { Gives (λ x. (x.0, x.1.now)) result (long_at bytes.now) }
{
    let (number, rest) = number_at(bytes)?;
    Ok((signed_of_long(number), rest))
}

#[tactic(auto, unfolding(crate::specs::Number::length_at))]
pub fn length_at(bytes: &[u8]) -> Result<(u64, &[u8]), Stop>
    ensures { Gives (λ x. (x.0, x.1.now)) result (length_at bytes.now) }
{
    let (number, rest) = number_at(bytes)?;
    if number % 2 == 0 {
        Ok((number / 2, rest))
    } else {
        Err(fault(FaultKind::Size, bytes))
    }
}

#[tactic(auto, unfolding(crate::specs::Number::index_at))]
pub fn index_at(limit: usize, bytes: &[u8]) -> Result<(u32, &[u8]), Stop>
    ensures { Gives (λ x. (x.0, x.1.now)) result (index_at limit bytes.now) }
{
    let (number, rest) = number_at(bytes)?;
    if number % 2 == 0 && number / 2 < (limit as u64).min(0x1_0000_0000) {
        Ok(((number / 2) as u32, rest))
    } else {
        Err(fault(FaultKind::Branch, bytes))
    }
}

#[tactic(auto, unfolding(crate::specs::Number::front_at))]
pub fn front_at(count: u64, bytes: &[u8]) -> Result<(&[u8], &[u8]), Stop>
    ensures { Gives (λ x. (x.0.now, x.1.now)) result (front_at count bytes.now) }
{
    if (bytes.len() as u64) < count {
        Err(short())
    } else {
        Ok(bytes.split_at(count as usize))
    }
}

#[tactic(auto, unfolding(crate::specs::Number::bytes_at))]
pub fn bytes_at(bytes: &[u8]) -> Result<(&[u8], &[u8]), Stop>
    ensures { Gives (λ x. (x.0.now, x.1.now)) result (bytes_at bytes.now) }
{
    let (count, rest) = length_at(bytes)?;
    front_at(count, rest)
}

fn is_text(text: &[u8]) -> bool
    ensures { result ≡ is_utf8 text.now }
{
    match str::from_utf8(text) {
        Ok(_text) => true,
        Err(_e) => false,
    }
}

/// UTF-8, as its bytes.
#[tactic(auto, unfolding(crate::specs::Number::text_at))]
pub fn text_at(bytes: &[u8]) -> Result<(&[u8], &[u8]), Stop>
    ensures { Gives (λ x. (x.0.now, x.1.now)) result (text_at bytes.now) }
{
    let (text, rest) = bytes_at(bytes)?;
    if is_text(text) {
        Ok((text, rest))
    } else {
        Err(fault(FaultKind::Text, bytes))
    }
}

#[tactic(auto, unfolding(crate::specs::Number::counted_at))]
fn counted_at(bytes: &[u8]) -> Result<(u64, &[u8]), Stop>
    ensures { Gives (λ x. (x.0, x.1.now)) result (counted_at bytes.now) }
{
    let (number, rest) = number_at(bytes)?;
    if number / 2 + number % 2 <= rest.len() as u64 {
        Ok((number, rest))
    } else {
        Err(fault(FaultKind::Size, bytes))
    }
}

#[tactic(auto, unfolding(crate::specs::Number::count_at))]
pub fn count_at(bytes: &[u8]) -> Result<(u64, &[u8]), Stop>
    ensures { Gives (λ x. (x.0, x.1.now)) result (count_at bytes.now) }
{
    let (number, rest) = counted_at(bytes)?;
    if number % 2 == 0 {
        return Ok((number / 2, rest));
    }
    let (_size, after) = length_at(rest)?;
    Ok((number / 2 + 1, after))
}
