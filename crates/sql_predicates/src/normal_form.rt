ghost use Rattle.std.specs.Prelude.{◌≡◌, ℕ, List, if◌then◌else◌, IsTrue, IfOk};
ghost use Rattle.sql_predicates.specs.declared.pred.Pred.{roll-Pred};
ghost use Rattle.sql_predicates.specs.declared.pred.Pred.TheOpen as open_pred;
ghost use Rattle.sql_predicates.specs.Positions.{pred_is_within};
ghost use Rattle.sql_predicates.specs.Truth.{truth};
ghost use Rattle.row_values.specs.declared.value.Value.{Value};
ghost use Rattle.sql_predicates.specs.NormalForm as spec;
ghost use Rattle.sql_predicates.specs.NormalForm.{normal_form, has_no_not};

use crate::{Op, Operand, Pred};
use plain_types::Boxed;
use std::alloc::{AllocError, Global};

/// An equal predicate without NOT.
pub fn normal(alloc: Global, pred: &Pred) -> Result<Pred, AllocError>
    ensures form { IfOk result (λ p. p ≡ normal_form pred.now) }
    ensures positive { IfOk result (λ p. IsTrue (has_no_not p)) }
    ensures truth { IfOk result (λ p. (row : List Value) → truth p row ≡ truth pred.now row) }
    ensures positions { IfOk result (λ p. (width : ℕ) → pred_is_within width p ≡ pred_is_within width pred.now) }
{
    normal_of(alloc, pred, false)
}

/// The normal form of the predicate, or of its negation.
fn normal_of(alloc: Global, pred: &Pred, negated: bool) -> Result<Pred, AllocError>
    ensures { IfOk result (λ p. p ≡ spec.normal_of pred.now negated) }
{
    match pred {
        Pred::Const(holds) => Ok(Pred::Const(*holds != negated)),
        Pred::Compare { op, left, right } => Ok(Pred::Compare {
            op: if negated { opposite(*op) } else { *op },
            left: left.copy(alloc)?,
            right: right.copy(alloc)?,
        }),
        Pred::IsNull(at) => Ok(null_test(*at, negated)),
        Pred::IsNotNull(at) => Ok(null_test(*at, !negated)),
        Pred::Not(inner) => normal_of(alloc, inner.get(), !negated),
        Pred::And(left, right) => {
            let left = normal_of(alloc, left.get(), negated)?;
            let right = normal_of(alloc, right.get(), negated)?;
            join(alloc, left, right, negated)
        }
        Pred::Or(left, right) => {
            let left = normal_of(alloc, left.get(), negated)?;
            let right = normal_of(alloc, right.get(), negated)?;
            join(alloc, left, right, !negated)
        }
    }
}

/// That a column is not NULL, or that it is.
fn null_test(at: usize, is_not: bool) -> Pred
    ensures { result ≡ roll-Pred (if is_not then open_pred.IsNotNull at else open_pred.IsNull at) }
{
    if is_not {
        Pred::IsNotNull(at)
    } else {
        Pred::IsNull(at)
    }
}

/// The two by OR, or by AND.
fn join(alloc: Global, left: Pred, right: Pred, is_or: bool) -> Result<Pred, AllocError>
    ensures { IfOk result (λ p. p ≡ roll-Pred (if is_or then open_pred.Or left right else open_pred.And left right)) }
{
    let left = Boxed::new(alloc, left)?;
    let right = Boxed::new(alloc, right)?;
    if is_or {
        Ok(Pred::Or(left, right))
    } else {
        Ok(Pred::And(left, right))
    }
}

fn opposite(op: Op) -> Op
    ensures { result ≡ spec.opposite op }
{
    match op {
        Op::Equal => Op::NotEqual,
        Op::NotEqual => Op::Equal,
        Op::Less => Op::GreaterOrEqual,
        Op::LessOrEqual => Op::Greater,
        Op::Greater => Op::LessOrEqual,
        Op::GreaterOrEqual => Op::Less,
    }
}
