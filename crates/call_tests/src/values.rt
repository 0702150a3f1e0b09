//! The order of values.

use row_values::Value;
use std::cmp::Ordering;
use std::test::Fail;

const PLAIN: [(Value, Value, Option<Ordering>); 6] = [
    (Value::Null, Value::Null, None),
    (Value::Long(1), Value::Int(1), None),
    (
        Value::Decimal {
            unscaled: 10,
            scale: 1,
        },
        Value::Decimal {
            unscaled: 100,
            scale: 2,
        },
        None,
    ),
    (
        Value::Decimal {
            unscaled: -10,
            scale: 1,
        },
        Value::Decimal {
            unscaled: 9,
            scale: 1,
        },
        Some(Ordering::Less),
    ),
    (Value::Bool(false), Value::Bool(true), Some(Ordering::Less)),
    (Value::Date(-1), Value::Date(-1), Some(Ordering::Equal)),
];

#[test]
fn values_of_one_kind_compare_and_others_do_not(rt: HostRuntime) -> Result<(), Fail> {
    for (at, (left, right, wanted)) in PLAIN.iter().enumerate() {
        assert!(rt; left.compare(right) == *wanted, "case {at}");
    }
    assert!(rt; Value::Null.is_null());
    Ok(())
}
