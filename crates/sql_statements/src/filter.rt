//! The filter of a statement: of the rows of its branch, the statement depends on those for which it is True.

ghost use Rattle.std.specs.Prelude.{◌≡◌, IfOk};
ghost use Rattle.std.specs.List.{list_any};
ghost use Rattle.sql_statements.specs.Filter as spec;

use crate::{Clause, Merge, Statement, When};
use sql_predicates::{Boxed, Pred};
use std::alloc::{AllocError, Global};

/// The filter of the statement on a table of so many columns.
pub fn filter_of(alloc: Global, width: usize, statement: &Statement) -> Result<Pred, AllocError>
    ensures { IfOk result (λ filter. filter ≡ spec.filter_of width statement.now) }
{
    match statement {
        Statement::Delete { branch: _, filter } => filter.copy(alloc),
        Statement::Update {
            branch: _,
            sets: _,
            filter,
        } => filter.copy(alloc),
        Statement::Select { branch: _, filter } => filter.copy(alloc),
        Statement::Merge(merge) => merge_filter(alloc, width, merge),
        Statement::Insert { branch: _, rows: _ }
        | Statement::CreateBranch { branch: _ }
        | Statement::DropBranch { branch: _ } => Ok(Pred::Const(false)),
    }
}

/// What ON says of the target's columns, TRUE where a clause is for rows without a source row.
fn merge_filter(alloc: Global, width: usize, merge: &Merge) -> Result<Pred, AllocError>
    ensures { IfOk result (λ filter. filter ≡ spec.merge_filter width merge.now) }
{
    if any_by_source(merge.clauses.as_slice()) {
        return Ok(Pred::Const(true));
    }
    match part_of(alloc, width, &merge.on)? {
        Some(part) => Ok(part),
        None => Ok(Pred::Const(true)),
    }
}

fn any_by_source(clauses: &[Clause]) -> bool
    ensures { result ≡ list_any spec.is_by_source clauses.now }
{
    for clause in clauses {
        if matches!(clause.when, When::NotMatchedBySource) {
            return true;
        }
    }
    false
}

/// The AND of those of the top conjuncts that read the first columns alone.
fn part_of(alloc: Global, width: usize, pred: &Pred) -> Result<Option<Pred>, AllocError>
    ensures { IfOk result (λ part. part ≡ (spec.split_of width pred.now).part) }
{
    match pred {
        Pred::And(left, right) => {
            let left = part_of(alloc, width, left.get())?;
            let right = part_of(alloc, width, right.get())?;
            conjoined(alloc, left, right)
        }
        _ => leaf(alloc, width, pred),
    }
}

/// A conjunct, where it reads the first columns alone.
fn leaf(alloc: Global, width: usize, pred: &Pred) -> Result<Option<Pred>, AllocError>
    ensures { IfOk result (λ part. part ≡ (spec.leaf width pred.now).part) }
{
    if pred.is_within(width) {
        Ok(Some(pred.copy(alloc)?))
    } else {
        Ok(None)
    }
}

fn conjoined(
    alloc: Global,
    left: Option<Pred>,
    right: Option<Pred>,
) -> Result<Option<Pred>, AllocError>
    ensures { IfOk result (λ part. part ≡ spec.conjoined left right) }
{
    match (left, right) {
        (Some(left), Some(right)) => {
            let left = Boxed::new(alloc, left)?;
            let right = Boxed::new(alloc, right)?;
            Ok(Some(Pred::And(left, right)))
        }
        (Some(left), None) => Ok(Some(left)),
        (None, right) => Ok(right),
    }
}
