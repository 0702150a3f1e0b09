ghost use Rattle.std.specs.Prelude.{◌≡◌, IfOk};
ghost use Rattle.row_values.specs.Rows.{is_null};

use plain_types::{Bytes, List, Text};
use std::alloc::{AllocError, Global};

/// A value of some kind, or NULL.
#[derive(Debug, PartialEq, Drop)]
pub enum Value {
    Null,
    Bool(bool),
    Int(i32),
    Long(i64),
    /// In days from 1970-01-01.
    Date(i32),
    /// In microseconds from 1970-01-01T00:00:00.
    Timestamp(i64),
    /// `unscaled` divided by ten to the power `scale`.
    Decimal { unscaled: i128, scale: u8 },
    Text(Text),
    Bytes(Bytes),
}

impl Value {
    pub fn is_null(&self) -> bool
        ensures { result ≡ is_null self.now }
    {
        matches!(self, Value::Null)
    }

    pub fn copy(&self, alloc: Global) -> Result<Value, AllocError>
        ensures { IfOk result (λ v. v ≡ self.now) }
    {
        match self {
            Value::Null => Ok(Value::Null),
            Value::Bool(b) => Ok(Value::Bool(*b)),
            Value::Int(n) => Ok(Value::Int(*n)),
            Value::Long(n) => Ok(Value::Long(*n)),
            Value::Date(days) => Ok(Value::Date(*days)),
            Value::Timestamp(micros) => Ok(Value::Timestamp(*micros)),
            Value::Decimal { unscaled, scale } => Ok(Value::Decimal {
                unscaled: *unscaled,
                scale: *scale,
            }),
            Value::Text(text) => Ok(Value::Text(Text::copy_of(alloc, text.as_str())?)),
            Value::Bytes(bytes) => Ok(Value::Bytes(Bytes::copy_of(alloc, bytes.as_slice())?)),
        }
    }
}

/// One value for each column of a schema, in order.
pub type Row = List<Value>;
