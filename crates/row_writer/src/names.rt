//! Names of fields.
ghost use Rattle.std.specs.Prelude.{◌≡◌, IfOk, string_bytes};
ghost use Rattle.std.specs.List.{list_all};
ghost use Rattle.row_writer.specs.Names.{is_letter, is_name_byte, is_name, id_name, decimal_name};

use std::alloc::{AllocError, Global};

fn is_letter(byte: u8) -> bool
    ensures { result ≡ is_letter byte }
{
    (65 <= byte && byte <= 90) || ((97 <= byte && byte <= 122) || byte == 95)
}

fn is_name_byte(byte: u8) -> bool
    ensures { result ≡ is_name_byte byte }
{
    is_letter(byte) || (48 <= byte && byte <= 57)
}

fn are_name_bytes(bytes: &[u8]) -> bool
    ensures { result ≡ list_all is_name_byte bytes.now }
{
    let mut rest = bytes;
    while let [byte, after @ ..] = rest {
        if !is_name_byte(*byte) {
            return false;
        }
        rest = after;
    }
    true
}

/// Whether these are the bytes of a name of Avro.
pub fn is_name(name: &[u8]) -> bool
    ensures { result ≡ is_name name.now }
{
    match name {
        [] => false,
        [byte, rest @ ..] => is_letter(*byte) && are_name_bytes(rest),
    }
}

/// A name made of the id, whose minus stands as `m`.
pub fn id_name(alloc: Global, id: i32) -> Result<String, AllocError>
    ensures { IfOk result (λ name. string_bytes name ≡ id_name id) }
{
    if id < 0 {
        format!(in alloc; "cm{}", id.unsigned_abs())
    } else {
        format!(in alloc; "c{id}")
    }
}

/// The name of the type of the decimals of the field with the id.
pub fn decimal_name(alloc: Global, id: i32) -> Result<String, AllocError>
    ensures { IfOk result (λ name. string_bytes name ≡ decimal_name id) }
{
    let name = id_name(alloc, id)?;
    format!(in alloc; "decimal_{name}")
}
