ghost use Rattle.std.specs.Prelude.{◌≡◌, IsTrue, IfOk, length, unwrap_or};
ghost use Rattle.sql_predicates.specs.Positions.{expr_is_within};
ghost use Rattle.sql_statements.specs.NewRows as spec;
ghost use Rattle.sql_statements.specs.Fits.{exprs_are_within, sets_are_within};

use crate::{NewRow, Set};
use plain_types::List;
use row_values::{Row, Value};
use sql_predicates::{Expr, ExprFault, eval_expr};
use std::alloc::{AllocError, Global};

/// The value of an expression on the row in sight, absent where it overflows.
fn new_value(alloc: Global, expr: &Expr, sight: &Row) -> Result<Option<Value>, AllocError>
    requires { IsTrue (expr_is_within (length sight.now) expr.now) }
    ensures { IfOk result (λ v. v ≡ spec.new_value sight.now expr.now) }
{
    match eval_expr(alloc, expr, sight) {
        Ok(value) => Ok(Some(value)),
        Err(ExprFault::Overflow) => Ok(None),
        Err(ExprFault::Memory) => Err(AllocError),
    }
}

/// The row of a tuple.
pub fn new_row(alloc: Global, exprs: &[Expr], sight: &Row) -> Result<NewRow, AllocError>
    requires { IsTrue (exprs_are_within (length sight.now) exprs.now) }
    ensures { IfOk result (λ row. row ≡ spec.new_row sight.now exprs.now) }
{
    let mut row = List::new(alloc);
    for expr in exprs {
        row.push(new_value(alloc, expr, sight)?)?;
    }
    Ok(row)
}

/// What the column at a position becomes.
fn assigned(
    alloc: Global,
    sets: &[Set],
    sight: &Row,
    at: usize,
    old: &Value,
) -> Result<Option<Value>, AllocError>
    requires { IsTrue (sets_are_within (length sight.now) sets.now) }
    ensures { IfOk result (λ v. v ≡ spec.assigned sets.now sight.now at old.now) }
{
    let mut rest = sets;
    while let [set, after @ ..] = rest {
        if set.column == at {
            return new_value(alloc, &set.expr, sight);
        }
        rest = after;
    }
    Ok(Some(old.copy(alloc)?))
}

/// The old row after all assignments at once.
pub fn updated(
    alloc: Global,
    sets: &[Set],
    sight: &Row,
    old: &[Value],
) -> Result<NewRow, AllocError>
    requires { IsTrue (sets_are_within (length sight.now) sets.now) }
    ensures { IfOk result (λ row. row ≡ spec.updated sets.now sight.now old.now) }
{
    let mut row = List::new(alloc);
    let mut at = 0;
    let mut rest = old;
    while let [value, after @ ..] = rest {
        row.push(assigned(alloc, sets, sight, at, value)?)?;
        at += 1;
        rest = after;
    }
    Ok(row)
}

/// The new row, in which nothing overflowed.
pub fn row_of(alloc: Global, new: &[Option<Value>]) -> Result<Row, AllocError>
    ensures { IfOk result (λ row. row ≡ spec.row_of new.now) }
{
    let mut row = List::new(alloc);
    let mut rest = new;
    while let [value, after @ ..] = rest {
        row.push(value_or_null(alloc, value)?)?;
        rest = after;
    }
    Ok(row)
}

fn value_or_null(alloc: Global, value: &Option<Value>) -> Result<Value, AllocError>
    ensures { IfOk result (λ v. v ≡ unwrap_or value.now Value.Null) }
{
    match value {
        Some(value) => Ok(value.copy(alloc)?),
        None => Ok(Value::Null),
    }
}
