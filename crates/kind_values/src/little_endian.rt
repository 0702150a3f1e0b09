//! Whole numbers of 4 or 8 bytes, the lowest byte first.
ghost use Rattle.plain_types.specs.Appends.{Appends};
ghost use Rattle.std.specs.Prelude.{◌≡◌, ◌+◌, ◌++◌, ◌*◌, ◌^◌, ◌<◌, OnOk};
ghost use Rattle.kind_values.specs.LittleEndian.{with_sign, int_of, long_of, lowest_first, without_sign, int_bytes, long_bytes};

use std::alloc::AllocError;

/// The number of 32 bits that stands for this one.
fn with_sign_32(number: u32) -> i32
    ensures { result ≡ with_sign (2 ^ 31) number }
{
    if number < 0x8000_0000 {
        number as i32
    } else {
        (i64::from(number) - 0x1_0000_0000) as i32
    }
}

/// The number of 64 bits that stands for this one.
fn with_sign_64(number: u64) -> i64
    ensures { result ≡ with_sign (2 ^ 63) number }
{
    if number < 0x8000_0000_0000_0000 {
        number as i64
    } else {
        (i128::from(number) - 0x1_0000_0000_0000_0000) as i64
    }
}

/// The number of these two bytes.
fn half_word(low: u8, high: u8) -> u32
    ensures value { result ≡ low + 256 * high }
    ensures bound { result < 65536 }
{
    u32::from(low) + 256 * u32::from(high)
}

/// The number of these four bytes.
fn word(a: u8, b: u8, c: u8, d: u8) -> u32
    ensures { result ≡ a + 256 * (b + 256 * (c + 256 * d)) }
{
    half_word(a, b) + 65536 * half_word(c, d)
}

/// The number of these two words.
fn double_word(low: u32, high: u32) -> u64
    ensures { result ≡ low + 4294967296 * high }
{
    u64::from(low) + 4294967296 * u64::from(high)
}

/// The whole number that four bytes are in little-endian two's complement.
pub fn int_of(bytes: &[u8]) -> Option<i32>
    ensures { result ≡ int_of bytes.now }
{
    match bytes {
        [a, b, c, d] => Some(with_sign_32(word(*a, *b, *c, *d))),
        _ => None,
    }
}

/// The whole number that eight bytes are in little-endian two's complement.
pub fn long_of(bytes: &[u8]) -> Option<i64>
    ensures { result ≡ long_of bytes.now }
{
    match bytes {
        [a, b, c, d, e, f, g, h] => Some(with_sign_64(double_word(
            word(*a, *b, *c, *d),
            word(*e, *f, *g, *h),
        ))),
        _ => None,
    }
}

/// Appends so many bytes of a number.
#[tactic(auto, using(crate::proofs::Steps::lowest_begin), unfolding(crate::specs::LittleEndian::lowest_first))]
fn put_lowest_first(count: u8, number: u64, out: &mut Vec<u8>) -> Result<(), AllocError>
    ensures { Appends out.old.items out.new.items (lowest_first count number) result }
{
    if count == 0 {
        return Ok(());
    }
    out.push((number % 256) as u8)?;
    put_lowest_first(count - 1, number / 256, out)
}

/// The number of 32 bits that stands for this one.
fn without_sign_32(number: i32) -> u32
    ensures { result ≡ without_sign (2 ^ 31) number }
{
    number.cast_unsigned()
}

/// Appends the four bytes of a whole number in little-endian two's complement.
pub fn put_int(number: i32, out: &mut Vec<u8>) -> Result<(), AllocError>
    ensures { Appends out.old.items out.new.items (int_bytes number) result }
{
    put_lowest_first(4, u64::from(without_sign_32(number)), out)
}

/// The number of 64 bits that stands for this one.
fn without_sign_64(number: i64) -> u64
    ensures { result ≡ without_sign (2 ^ 63) number }
{
    number.cast_unsigned()
}

/// Appends the eight bytes of a whole number in little-endian two's complement.
pub fn put_long(number: i64, out: &mut Vec<u8>) -> Result<(), AllocError>
    ensures { Appends out.old.items out.new.items (long_bytes number) result }
{
    put_lowest_first(8, without_sign_64(number), out)
}
