//! Reads numbers and words at the front of a text.
ghost use Rattle.std.specs.Prelude.{◌≡◌, option_map};
ghost use Rattle.plain_types.specs.Digits.{is_digit, number_at, digits_from, after_text, after_blanks, has_leading_zero, whole_number};

fn is_digit(byte: u8) -> bool
    ensures { result ≡ is_digit byte }
{
    b'0' <= byte && byte <= b'9'
}

#[tactic(auto, unfolding(crate::specs::Digits::digits_from))]
fn digits_from(bytes: &[u8]) -> (u64, &[u8])
    ensures { (result.0, result.1.now) ≡ digits_from 0 bytes.now }
{
    let mut number: u64 = 0;
    let mut rest = bytes;
    while let [byte, after @ ..] = rest {
        if !is_digit(*byte) {
            return (number, rest);
        }
        number = number
            .saturating_mul(10)
            .saturating_add(u64::from(*byte - b'0'));
        rest = after;
    }
    (number, rest)
}

/// The number at the front, and what follows it. A number above `u64::MAX` stands at it.
#[tactic(auto, unfolding(crate::specs::Digits::number_at))]
pub fn number_at(bytes: &[u8]) -> Option<(u64, &[u8])>
    ensures { option_map (λ x. (x.0, x.1.now)) result ≡ number_at bytes.now }
{
    match bytes {
        [first, ..] if is_digit(*first) => Some(digits_from(bytes)),
        _ => None,
    }
}

/// What follows the front, where the bytes begin with it.
#[tactic(auto, unfolding(crate::specs::Digits::after_text))]
pub fn after_text<'b>(front: &[u8], bytes: &'b [u8]) -> Option<&'b [u8]>
    ensures { option_map (λ x. x.now) result ≡ after_text front.now bytes.now }
{
    let mut left = front;
    let mut rest = bytes;
    while let [expected, more @ ..] = left {
        match rest {
            [first, after @ ..] => {
                if *first != *expected {
                    return None;
                }
                rest = after;
            }
            [] => return None,
        }
        left = more;
    }
    Some(rest)
}

/// What follows the spaces and tabs at the front.
#[tactic(auto, unfolding(crate::specs::Digits::after_blanks))]
pub fn after_blanks(bytes: &[u8]) -> &[u8]
    ensures { result.now ≡ after_blanks bytes.now }
{
    let mut rest = bytes;
    while let [b' ' | b'\t', after @ ..] = rest {
        rest = after;
    }
    rest
}

/// Whether two bytes or more begin with a zero.
pub fn has_leading_zero(bytes: &[u8]) -> bool
    ensures { result ≡ has_leading_zero bytes.now }
{
    match bytes {
        [first, _, ..] => *first == b'0',
        _ => false,
    }
}

/// The number that the whole text is, without a leading zero.
#[tactic(auto, unfolding(crate::specs::Digits::whole_number))]
pub fn whole_number(bytes: &[u8]) -> Option<u64>
    ensures { result ≡ whole_number bytes.now }
{
    if has_leading_zero(bytes) {
        return None;
    }
    let (number, rest) = number_at(bytes)?;
    if rest.is_empty() { Some(number) } else { None }
}
