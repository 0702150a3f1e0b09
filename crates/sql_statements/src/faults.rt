//! What is wrong with new rows.

ghost use Rattle.std.specs.Prelude.{◌≡◌};
ghost use Rattle.std.specs.List.{list_any};
ghost use Rattle.row_values.specs.Rows as rows;
ghost use Rattle.sql_statements.specs.NewRows as spec;

use crate::NewRow;
use row_values::{Column, Kind, Value};

/// Whether the amount has at most so many digits.
fn has_digits(precision: u8, unscaled: i128) -> bool
    ensures { result ≡ rows.has_digits precision unscaled }
{
    match 10u128.checked_pow(u32::from(precision)) {
        Some(bound) => unscaled.unsigned_abs() < bound,
        None => true,
    }
}

fn is_too_wide(kind: Kind, value: &Value) -> bool
    ensures { result ≡ spec.is_too_wide kind value.now }
{
    match (kind, value) {
        (
            Kind::Decimal {
                precision,
                scale: _,
            },
            Value::Decimal { unscaled, scale: _ },
        ) => { !has_digits(precision, *unscaled) }
        _ => false,
    }
}

fn overflows_at(column: &Column, value: &Option<Value>) -> bool
    ensures { result ≡ spec.overflows_at column.now value.now }
{
    match value {
        Some(value) => is_too_wide(column.kind, value),
        None => true,
    }
}

fn overflows(columns: &[Column], row: &[Option<Value>]) -> bool
    ensures { result ≡ spec.overflows columns.now row.now }
{
    let mut rest = columns;
    let mut values = row;
    while let [column, after @ ..] = rest {
        match values {
            [] => return false,
            [value, others @ ..] => {
                if overflows_at(column, value) {
                    return true;
                }
                values = others;
            }
        }
        rest = after;
    }
    false
}

pub fn any_overflows(columns: &[Column], rows: &[NewRow]) -> bool
    ensures { result ≡ list_any (spec.overflows columns.now) rows.now }
{
    for row in rows {
        if overflows(columns, row.as_slice()) {
            return true;
        }
    }
    false
}

fn is_null_at(at: usize, row: &NewRow) -> bool
    ensures { result ≡ spec.is_null_at at row.now }
{
    match row.get(at) {
        Some(Some(value)) => matches!(value, Value::Null),
        _ => true,
    }
}

fn any_null_at(at: usize, rows: &[NewRow]) -> bool
    ensures { result ≡ list_any (spec.is_null_at at) rows.now }
{
    for row in rows {
        if is_null_at(at, row) {
            return true;
        }
    }
    false
}

/// The first required column in which a row has NULL.
pub fn first_null(columns: &[Column], rows: &[NewRow]) -> Option<usize>
    ensures { result ≡ spec.first_null columns.now rows.now }
{
    let mut at = 0;
    let mut rest = columns;
    while let [column, after @ ..] = rest {
        if column.required && any_null_at(at, rows) {
            return Some(at);
        }
        at += 1;
        rest = after;
    }
    None
}
