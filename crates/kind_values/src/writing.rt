//! Writes a bound.
ghost use Rattle.plain_types.specs.Appends.{Appends};
ghost use Rattle.std.specs.Prelude.{◌≡◌, ◌++◌, OnOk};
ghost use Rattle.kind_values.specs.Bounds.{bytes_of};

use crate::big_endian::put_signed;
use crate::little_endian::{put_int, put_long};
use row_values::Value;
use std::alloc::AllocError;

/// Appends the bytes of the value, which NULL has none of.
pub fn put_bound(value: &Value, out: &mut Vec<u8>) -> Result<(), AllocError>
    ensures { Appends out.old.items out.new.items (bytes_of value.now) result }
{
    match value {
        Value::Null => Ok(()),
        Value::Bool(b) => put_bool(*b, out),
        Value::Int(n) => put_int(*n, out),
        Value::Long(n) => put_long(*n, out),
        Value::Date(days) => put_int(*days, out),
        Value::Timestamp(micros) => put_long(*micros, out),
        Value::Decimal { unscaled, .. } => put_signed(*unscaled, out),
        Value::Text(text) => out.extend_from_slice(text.as_bytes()),
        Value::Bytes(bytes) => out.extend_from_slice(bytes.as_slice()),
    }
}

fn put_bool(b: bool, out: &mut Vec<u8>) -> Result<(), AllocError>
    ensures { Appends out.old.items out.new.items (bytes_of (Value.Bool b)) result }
{
    out.push(if b { 1 } else { 0 })?;
    Ok(())
}
