ghost use Rattle.std.specs.Prelude.{◌≡◌, ◌≢◌, Ok, Err, IsTrue, IfOk, IfErr, length};
ghost use Rattle.sql_predicates.specs.Exprs.{value_of};
ghost use Rattle.sql_predicates.specs.Positions.{expr_is_within};

use crate::arithmetic::{Arithmetic, widen};
use crate::evaluation::value_at;
use crate::{Expr, ExprFault};
use row_values::{Row, Value};
use std::alloc::Global;

/// The value of the expression on the row.
pub fn eval_expr(alloc: Global, expr: &Expr, row: &Row) -> Result<Value, ExprFault>
    requires { IsTrue (expr_is_within (length row.now) expr.now) }
    ensures value { IfOk result (λ v. value_of expr.now row.now ≡ Ok v) }
    ensures overflow { IfErr result (λ fault. fault ≢ ExprFault.Memory → value_of expr.now row.now ≡ Err fault) }
{
    value_on(alloc, expr, row.as_slice())
}

fn value_on(alloc: Global, expr: &Expr, row: &[Value]) -> Result<Value, ExprFault>
    requires { IsTrue (expr_is_within (length row.now) expr.now) }
    ensures value { IfOk result (λ v. value_of expr.now row.now ≡ Ok v) }
    ensures overflow { IfErr result (λ fault. fault ≢ ExprFault.Memory → value_of expr.now row.now ≡ Err fault) }
{
    match expr {
        Expr::Column(at) => Ok(value_at(row, *at).copy(alloc)?),
        Expr::Literal(value) => Ok(value.copy(alloc)?),
        Expr::Add(left, right) => {
            let left = value_on(alloc, left.get(), row)?;
            let right = value_on(alloc, right.get(), row)?;
            Arithmetic::Add.of_values(&left, &right)
        }
        Expr::Subtract(left, right) => {
            let left = value_on(alloc, left.get(), row)?;
            let right = value_on(alloc, right.get(), row)?;
            Arithmetic::Subtract.of_values(&left, &right)
        }
        Expr::Multiply(left, right) => {
            let left = value_on(alloc, left.get(), row)?;
            let right = value_on(alloc, right.get(), row)?;
            Arithmetic::Multiply.of_values(&left, &right)
        }
        Expr::Widen(inner) => Ok(widen(&value_on(alloc, inner.get(), row)?)),
    }
}
