ghost use Rattle.plain_types.specs.Appends.{Appends};
ghost use Rattle.std.specs.Prelude.{◌≡◌, ◌≤◌, false};
ghost use Rattle.std.specs.List.{flat_map};
ghost use Rattle.std.specs.Fmt.{signed_decimal, digit_glyph};
ghost use Rattle.run_report.specs.Texts.{bool_text, escaped_text, field_of, hex_byte};

use row_values::Value;
use std::alloc::{AllocError, Global};

/// Appends the field of the value: NULL is `\N`, and a text that begins with a backslash has one more.
pub fn put_field(alloc: Global, field: &mut Vec<u8>, value: &Value) -> Result<(), AllocError>
    ensures { Appends field.old.items field.new.items (field_of value.now) result }
{
    match value {
        Value::Null => field.extend_from_slice(b"\\N"),
        Value::Bool(b) => field.extend_from_slice(bool_text(*b)),
        Value::Int(n) => put_number(alloc, field, i128::from(*n)),
        Value::Long(n) => put_number(alloc, field, i128::from(*n)),
        Value::Date(days) => put_number(alloc, field, i128::from(*days)),
        Value::Timestamp(micros) => put_number(alloc, field, i128::from(*micros)),
        Value::Decimal { unscaled, .. } => put_number(alloc, field, *unscaled),
        Value::Text(text) => put_escaped(field, text.as_bytes()),
        Value::Bytes(bytes) => put_hexadecimal(field, bytes.as_slice()),
    }
}

fn bool_text(b: bool) -> &'static [u8]
    ensures { result.now ≡ bool_text b }
{
    if b { b"true" } else { b"false" }
}

fn put_number(alloc: Global, field: &mut Vec<u8>, number: i128) -> Result<(), AllocError>
    ensures { Appends field.old.items field.new.items (signed_decimal number) result }
{
    let text = format!(in alloc; "{number}")?;
    field.extend_from_slice(text.as_bytes())
}

fn put_escaped(field: &mut Vec<u8>, text: &[u8]) -> Result<(), AllocError>
    ensures { Appends field.old.items field.new.items (escaped_text text.now) result }
{
    if let [b'\\', ..] = text {
        field.push(b'\\')?;
    }
    field.extend_from_slice(text)
}

fn put_hexadecimal(field: &mut Vec<u8>, bytes: &[u8]) -> Result<(), AllocError>
    ensures { Appends field.old.items field.new.items (flat_map hex_byte bytes.now) result }
{
    for byte in bytes {
        put_hex_byte(field, *byte)?;
    }
    Ok(())
}

fn put_hex_byte(field: &mut Vec<u8>, byte: u8) -> Result<(), AllocError>
    ensures { Appends field.old.items field.new.items (hex_byte byte) result }
{
    field.push(hex_digit(byte / 16))?;
    field.push(hex_digit(byte % 16))?;
    Ok(())
}

fn hex_digit(digit: u8) -> u8
    requires { digit ≤ 15 }
    ensures { result ≡ digit_glyph false digit }
{
    if digit < 10 {
        b'0' + digit
    } else {
        b'a' + (digit - 10)
    }
}
