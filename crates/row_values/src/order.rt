ghost use Rattle.std.specs.Prelude.{◌≡◌};
ghost use Rattle.row_values.specs.Order.{value_cmp};

use crate::Value;
use std::cmp::Ordering;

impl Value {
    /// The order of two values of one kind. False is below true, texts and bytes compare by unsigned
    /// bytes. `None` where a side is NULL, the variants differ or two decimals differ in scale.
    pub fn compare(&self, other: &Value) -> Option<Ordering>
        ensures { result ≡ value_cmp self.now other.now }
    {
        match (self, other) {
            (Value::Bool(a), Value::Bool(b)) => Some(a.cmp(b)),
            (Value::Int(a), Value::Int(b)) => Some(a.cmp(b)),
            (Value::Long(a), Value::Long(b)) => Some(a.cmp(b)),
            (Value::Date(a), Value::Date(b)) => Some(a.cmp(b)),
            (Value::Timestamp(a), Value::Timestamp(b)) => Some(a.cmp(b)),
            (
                Value::Decimal { unscaled, scale },
                Value::Decimal {
                    unscaled: other_unscaled,
                    scale: other_scale,
                },
            ) if scale == other_scale => Some(unscaled.cmp(other_unscaled)),
            (Value::Text(a), Value::Text(b)) => Some(a.cmp(b)),
            (Value::Bytes(a), Value::Bytes(b)) => Some(a.as_slice().cmp(b.as_slice())),
            _ => None,
        }
    }
}
