ghost use Rattle.std.specs.Prelude.{◌≡◌, SomeIff, FitsSigned};
ghost use Rattle.std.specs.Int.{w32, w64, w128};
ghost use Rattle.sql_predicates.specs.Exprs.{outcome, combined, decimals_combined, widened};
ghost use Rattle.row_values.specs.Rows.{has_digits};
ghost use Rattle.std.specs.Prelude.{IsTrue, ◌↔◌};

use crate::ExprFault;
use row_values::Value;

/// What arithmetic does with two numbers.
#[derive(Clone, Copy, Debug, PartialEq, Eq)]
pub enum Arithmetic {
    Add,
    Subtract,
    Multiply,
}

impl Arithmetic {
    fn of_ints(self, left: i32, right: i32) -> Option<i32>
        ensures { SomeIff result (FitsSigned w32 (outcome self left right)) (outcome self left right) }
    {
        match self {
            Arithmetic::Add => left.checked_add(right),
            Arithmetic::Subtract => left.checked_sub(right),
            Arithmetic::Multiply => left.checked_mul(right),
        }
    }

    fn of_longs(self, left: i64, right: i64) -> Option<i64>
        ensures { SomeIff result (FitsSigned w64 (outcome self left right)) (outcome self left right) }
    {
        match self {
            Arithmetic::Add => left.checked_add(right),
            Arithmetic::Subtract => left.checked_sub(right),
            Arithmetic::Multiply => left.checked_mul(right),
        }
    }

    fn of_amounts(self, left: i128, right: i128) -> Option<i128>
        ensures { SomeIff result (FitsSigned w128 (outcome self left right)) (outcome self left right) }
    {
        match self {
            Arithmetic::Add => left.checked_add(right),
            Arithmetic::Subtract => left.checked_sub(right),
            Arithmetic::Multiply => left.checked_mul(right),
        }
    }

    /// The sum, difference or product of two values. NULL with anything is NULL, and so is what has
    /// no such result.
    pub fn of_values(self, left: &Value, right: &Value) -> Result<Value, ExprFault>
        ensures { result ≡ combined self left.now right.now }
    {
        match (left, right) {
            (Value::Int(a), Value::Int(b)) => self
                .of_ints(*a, *b)
                .map(Value::Int)
                .ok_or(ExprFault::Overflow),
            (Value::Long(a), Value::Long(b)) => self
                .of_longs(*a, *b)
                .map(Value::Long)
                .ok_or(ExprFault::Overflow),
            (
                Value::Decimal { unscaled, scale },
                Value::Decimal {
                    unscaled: other_unscaled,
                    scale: other_scale,
                },
            ) => self.of_decimals(*unscaled, *scale, *other_unscaled, *other_scale),
            _ => Ok(Value::Null),
        }
    }

    /// Decimals of one scale are added and subtracted.
    fn of_decimals(
        self,
        left: i128,
        scale: u8,
        right: i128,
        other_scale: u8,
    ) -> Result<Value, ExprFault>
        ensures { result ≡ decimals_combined self left scale right other_scale }
    {
        if self == Arithmetic::Multiply || scale != other_scale {
            return Ok(Value::Null);
        }
        match self.of_amounts(left, right) {
            Some(unscaled) if has_decimal_digits(unscaled) => Ok(Value::Decimal {
                unscaled,
                scale,
            }),
            _ => Err(ExprFault::Overflow),
        }
    }
}

/// The greatest amount of 38 digits.
const GREATEST_AMOUNT: i128 = 99_999_999_999_999_999_999_999_999_999_999_999_999;

fn has_decimal_digits(unscaled: i128) -> bool
    ensures { result ≡ has_digits 38 unscaled }
{
    -GREATEST_AMOUNT <= unscaled && unscaled <= GREATEST_AMOUNT
}

/// The long of an int. Every other value is NULL.
pub fn widen(value: &Value) -> Value
    ensures { result ≡ widened value.now }
{
    match value {
        Value::Int(n) => Value::Long(i64::from(*n)),
        _ => Value::Null,
    }
}
