//! The parts of a datum that hold no other datum, written at the end of bytes.

ghost use Rattle.plain_types.specs.Appends.{Appends};
ghost use Rattle.std.specs.Prelude.{◌≡◌, ◌*◌, ◌^◌, ◌<◌, ◌∷◌, [], if◌then◌else◌};
ghost use Rattle.avro_binary.specs.Spelling.{groups_up_to, groups_of, zigzag, signed_groups, natural, counted};

use std::alloc::AllocError;

/// The groups of a number, of which at most `more` follow the first.
#[tactic(auto, using(crate::proofs::Appending::groups_begin), unfolding(crate::specs::Spelling::groups_up_to))]
fn put_groups(more: u32, number: u64, out: &mut Vec<u8>) -> Result<(), AllocError>
    ensures { Appends out.old.items out.new.items (groups_up_to more number) result }
{
    if more == 0 {
        out.push((number % 128) as u8)?;
        return Ok(());
    }
    if number < 128 {
        out.push(number as u8)?;
        return Ok(());
    }
    out.push((number % 128) as u8 + 128)?;
    put_groups(more - 1, number / 128, out)
}

fn put_number(number: u64, out: &mut Vec<u8>) -> Result<(), AllocError>
    ensures { Appends out.old.items out.new.items (groups_of number) result }
{
    put_groups(9, number, out)
}

/// A length, a count or an index.
pub fn put_natural(number: u64, out: &mut Vec<u8>) -> Result<(), AllocError>
    requires { number < 2 ^ 63 }
    ensures { Appends out.old.items out.new.items (natural number) result }
{
    put_number(2 * number, out)
}

fn number_of(value: i64) -> u64
    ensures { result ≡ zigzag value }
{
    if value >= 0 {
        2 * (value as u64)
    } else {
        2 * ((-1 - value) as u64) + 1
    }
}

pub fn put_signed(value: i64, out: &mut Vec<u8>) -> Result<(), AllocError>
    ensures { Appends out.old.items out.new.items (signed_groups value) result }
{
    put_number(number_of(value), out)
}

pub fn put_boolean(value: bool, out: &mut Vec<u8>) -> Result<(), AllocError>
    ensures { Appends out.old.items out.new.items ((if value then 1 else 0) ∷ []) result }
{
    out.push(u8::from(value))?;
    Ok(())
}

pub fn put_bytes(bytes: &[u8], out: &mut Vec<u8>) -> Result<(), AllocError>
    ensures { Appends out.old.items out.new.items bytes.now result }
{
    out.extend_from_slice(bytes)
}

/// A length and the bytes.
pub fn put_counted(bytes: &[u8], out: &mut Vec<u8>) -> Result<(), AllocError>
    ensures { Appends out.old.items out.new.items (counted bytes.now) result }
{
    put_natural(bytes.len() as u64, out)?;
    put_bytes(bytes, out)
}
