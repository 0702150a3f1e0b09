//! Whether values are rows of columns.
ghost use Rattle.std.specs.Prelude.{◌≡◌};
ghost use Rattle.std.specs.List.{list_all};
ghost use Rattle.row_values.specs.Rows.{is_held, is_row};

use kind_values::is_value;
use row_values::{Column, Row, Value};

fn is_held(column: &Column, value: &Value) -> bool
    ensures { result ≡ is_held column.now value.now }
{
    if value.is_null() {
        !column.required
    } else {
        is_value(column.kind, value)
    }
}

fn is_row(columns: &[Column], values: &[Value]) -> bool
    ensures { result ≡ is_row columns.now values.now }
{
    let mut rest = columns;
    let mut left = values;
    while let [column, after @ ..] = rest {
        let [value, more @ ..] = left else {
            return false;
        };
        if !is_held(column, value) {
            return false;
        }
        rest = after;
        left = more;
    }
    left.is_empty()
}

/// Whether each is a row of the columns, as `write_rows` needs.
pub fn are_rows(columns: &[Column], rows: &[Row]) -> bool
    ensures { result ≡ list_all (is_row columns.now) rows.now }
{
    let mut rest = rows;
    while let [row, after @ ..] = rest {
        if !is_row(columns, row.as_slice()) {
            return false;
        }
        rest = after;
    }
    true
}
