//! Whole numbers of at most 16 bytes, the highest byte first.
ghost use Rattle.plain_types.specs.Appends.{Appends};
ghost use Rattle.std.specs.Prelude.{◌≡◌, length, ◌≤◌, ◌+◌, ◌++◌, pos, ◌+ℤ◌, ◌*ℤ◌, OnOk};
ghost use Rattle.kind_values.specs.BigEndian.{
  Within,
  first_digit,
  digits_from,
  signed_of,
  digit,
  digits_of,
  count_up_to,
  bytes_in,
  byte_count,
  signed_bytes,
  is_negative,
  size_of,
};

use std::alloc::AllocError;

/// The first byte, which carries the sign.
fn first_digit(byte: u8) -> i128
    ensures { result ≡ first_digit byte }
{
    if byte < 128 {
        i128::from(byte)
    } else {
        i128::from(byte) - 256
    }
}

/// The number with one more digit to the base 256.
#[tactic(auto, using(crate::proofs::Amounts::scaled_fits, crate::proofs::Amounts::next_fits))]
fn next_digit(number: i128, byte: u8) -> i128
    requires { Within 14 number }
    ensures { result ≡ (number *ℤ pos 256) +ℤ pos byte }
{
    number * 256 + i128::from(byte)
}

/// The number whose digits to the base 256 go on with these bytes.
#[tactic(auto, unfolding(crate::specs::BigEndian::digits_from))]
fn digits_from(first: u8, bytes: &[u8]) -> i128
    requires { length bytes.now ≤ 15 }
    ensures { result ≡ digits_from (first_digit first) bytes.now }
{
    let mut number = first_digit(first);
    let mut rest = bytes;
    while let [byte, after @ ..] = rest {
        number = next_digit(number, *byte);
        rest = after;
    }
    number
}

/// The whole number that the bytes are in big-endian two's complement.
pub fn signed_of(bytes: &[u8]) -> i128
    requires { length bytes.now ≤ 16 }
    ensures { result ≡ signed_of bytes.now }
{
    match bytes {
        [first, rest @ ..] => digits_from(*first, rest),
        [] => 0,
    }
}

/// A digit, or its complement.
fn digit(negative: bool, byte: u8) -> u8
    ensures { result ≡ digit negative byte }
{
    if negative { 255 - byte } else { byte }
}

/// Appends so many digits of a size.
#[tactic(auto, using(crate::proofs::Steps::digits_end), unfolding(crate::specs::BigEndian::digits_of))]
fn put_digits(negative: bool, count: usize, size: u128, out: &mut Vec<u8>) -> Result<(), AllocError>
    ensures { Appends out.old.items out.new.items (digits_of negative count size) result }
{
    if count == 0 {
        return Ok(());
    }
    put_digits(negative, count - 1, size / 256, out)?;
    out.push(digit(negative, (size % 256) as u8))?;
    Ok(())
}

/// How many bytes a size takes, at most so many behind the first.
#[tactic(auto, unfolding(crate::specs::BigEndian::count_up_to))]
fn count_up_to(more: usize, size: u128) -> usize
    requires { more ≤ 15 }
    ensures value { result ≡ count_up_to more size }
    ensures bound { result ≤ more + 1 }
{
    if more == 0 || size < 128 {
        return 1;
    }
    count_up_to(more - 1, size / 256) + 1
}

/// The size of which a number has the digits.
fn size_of(number: i128) -> u128
    ensures { result ≡ size_of number }
{
    if number < 0 {
        number.unsigned_abs() - 1
    } else {
        number as u128
    }
}

/// The fewest bytes that the number takes.
pub fn byte_count(number: i128) -> usize
    ensures { result ≡ byte_count number }
{
    count_up_to(15, size_of(number))
}

/// Appends the number in so many bytes of big-endian two's complement. One that takes more loses the highest.
pub fn put_signed_in(count: usize, number: i128, out: &mut Vec<u8>) -> Result<(), AllocError>
    ensures { Appends out.old.items out.new.items (bytes_in count number) result }
{
    put_digits(number < 0, count, size_of(number), out)
}

/// Appends the number in the fewest bytes of big-endian two's complement.
pub fn put_signed(number: i128, out: &mut Vec<u8>) -> Result<(), AllocError>
    ensures { Appends out.old.items out.new.items (signed_bytes number) result }
{
    put_signed_in(byte_count(number), number, out)
}
