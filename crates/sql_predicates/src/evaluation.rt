ghost use Rattle.std.specs.Prelude.{◌≡◌, ◌<◌, IsTrue, length};
ghost use Rattle.sql_predicates.specs.Truth as spec;
ghost use Rattle.row_values.specs.Rows.{is_null};
ghost use Rattle.sql_predicates.specs.Truth.{truth, compared, operand_value, value_at};
ghost use Rattle.sql_predicates.specs.Positions.{pred_is_within, operand_is_within};

use crate::{Op, Operand, Pred, Truth};
use row_values::{Row, Value};
use std::cmp::Ordering;

/// What the row says of the predicate.
pub fn eval(pred: &Pred, row: &Row) -> Truth
    requires { IsTrue (pred_is_within (length row.now) pred.now) }
    ensures { result ≡ truth pred.now row.now }
{
    truth_of(pred, row.as_slice())
}

fn truth_of(pred: &Pred, row: &[Value]) -> Truth
    requires { IsTrue (pred_is_within (length row.now) pred.now) }
    ensures { result ≡ truth pred.now row.now }
{
    match pred {
        Pred::Const(holds) => Truth::of(*holds),
        Pred::Compare { op, left, right } => compare(*op, left, right, row),
        Pred::IsNull(at) => Truth::of(is_null_at(row, *at)),
        Pred::IsNotNull(at) => Truth::of(!is_null_at(row, *at)),
        Pred::Not(inner) => truth_of(inner.get(), row).not(),
        Pred::And(left, right) => truth_of(left.get(), row).and(truth_of(right.get(), row)),
        Pred::Or(left, right) => truth_of(left.get(), row).or(truth_of(right.get(), row)),
    }
}

fn is_null_at(row: &[Value], at: usize) -> bool
    requires { at < length row.now }
    ensures { result ≡ is_null (value_at row.now at) }
{
    matches!(value_at(row, at), Value::Null)
}

fn compare(op: Op, left: &Operand, right: &Operand, row: &[Value]) -> Truth
    requires left { IsTrue (operand_is_within (length row.now) left.now) }
    requires right { IsTrue (operand_is_within (length row.now) right.now) }
    ensures { result ≡ compared op (operand_value row.now left.now) (operand_value row.now right.now) }
{
    match value_of(left, row).compare(value_of(right, row)) {
        Some(order) => Truth::of(holds(op, order)),
        None => Truth::Unknown,
    }
}

fn value_of<'a>(operand: &'a Operand, row: &'a [Value]) -> &'a Value
    requires { IsTrue (operand_is_within (length row.now) operand.now) }
    ensures { result.now ≡ operand_value row.now operand.now }
{
    match operand {
        Operand::Column(at) => value_at(row, *at),
        Operand::Literal(value) => value,
    }
}

/// The value of the column at a position.
pub fn value_at(row: &[Value], at: usize) -> &Value
    requires { at < length row.now }
    ensures { result.now ≡ spec.value_at row.now at }
{
    &row[at]
}

fn holds(op: Op, order: Ordering) -> bool
    ensures { result ≡ spec.holds op order }
{
    match op {
        Op::Equal => order.is_eq(),
        Op::NotEqual => order.is_ne(),
        Op::Less => order.is_lt(),
        Op::LessOrEqual => order.is_le(),
        Op::Greater => order.is_gt(),
        Op::GreaterOrEqual => order.is_ge(),
    }
}
