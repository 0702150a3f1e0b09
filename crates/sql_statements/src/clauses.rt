//! Which clause of a MERGE applies to a row, and what it does.

ghost use Rattle.std.specs.Prelude.{◌≡◌, ◌+◌, ◌++◌, IsTrue, IfOk, length};
ghost use Rattle.std.specs.List.{list_any, count_by};
ghost use Rattle.sql_predicates.specs.Positions.{pred_is_within};
ghost use Rattle.sql_statements.specs.Clauses as spec;
ghost use Rattle.sql_statements.specs.Clauses.{holds_on};
ghost use Rattle.sql_statements.specs.Fits.{clauses_are_within, clause_is_within, are_wide};

use crate::new_row::{new_row, updated};
use crate::{Action, Clause, Effect, NewRow, When};
use plain_types::List;
use row_values::{Row, Value, copy_row};
use sql_predicates::{Pred, Truth, eval};
use std::alloc::{AllocError, Global};

/// Whether the predicate is True of the row.
pub fn holds(pred: &Pred, row: &Row) -> bool
    requires { IsTrue (pred_is_within (length row.now) pred.now) }
    ensures { result ≡ holds_on pred.now row.now }
{
    matches!(eval(pred, row), Truth::True)
}

/// The values of one row and then those of another.
pub fn joined(alloc: Global, left: &[Value], right: &[Value]) -> Result<Row, AllocError>
    ensures { IfOk result (λ row. row ≡ left.now ++ right.now) }
{
    let mut row = copy_row(alloc, left)?;
    for value in right {
        row.push(value.copy(alloc)?)?;
    }
    Ok(row)
}

/// As many NULLs.
pub fn nulls(alloc: Global, width: usize) -> Result<Row, AllocError>
    ensures values { IfOk result (λ row. row ≡ spec.nulls width) }
    ensures width { IfOk result (λ row. length row ≡ width) }
{
    let mut row = List::new(alloc);
    for _ in 0..width {
        row.push(Value::Null)?;
    }
    Ok(row)
}

/// All items of both, in order.
pub fn extended<T: Drop>(list: List<T>, more: List<T>) -> Result<List<T>, AllocError>
    ensures { IfOk result (λ all. all ≡ list ++ more) }
{
    let mut items = list.into_vec();
    let mut more = more.into_vec();
    items.append(&mut more)?;
    Ok(List::from_vec(items))
}

/// The target row beside the source row, if ON is True of the two.
#[tactic(auto, unfolding(crate::specs::Clauses::match_of))]
fn match_of(alloc: Global, on: &Pred, target: &Row, row: &Row) -> Result<List<Row>, AllocError>
    requires { IsTrue (pred_is_within (length target.now + length row.now) on.now) }
    ensures { IfOk result (λ sights. sights ≡ spec.match_of on.now target.now row.now) }
{
    let mut sights = List::new(alloc);
    let sight = joined(alloc, target.as_slice(), row.as_slice())?;
    if holds(on, &sight) {
        sights.push(sight)?;
    }
    Ok(sights)
}

/// The target row beside each source row for which ON is True.
#[tactic(auto, using(crate::proofs::Steps::flat_map_step))]
pub fn matches(
    alloc: Global,
    on: &Pred,
    rows: &[Row],
    target: &Row,
    width: usize,
) -> Result<List<Row>, AllocError>
    requires on { IsTrue (pred_is_within (length target.now + width) on.now) }
    requires wide { IsTrue (are_wide width rows.now) }
    ensures { IfOk result (λ sights. sights ≡ spec.matches on.now rows.now target.now) }
{
    let mut sights = List::new(alloc);
    for row in rows {
        sights = extended(sights, match_of(alloc, on, target, row)?)?;
    }
    Ok(sights)
}

#[tactic(auto, unfolding(crate::specs::Clauses::is_match))]
fn is_match(alloc: Global, on: &Pred, row: &Row, target: &Row) -> Result<bool, AllocError>
    requires { IsTrue (pred_is_within (length target.now + length row.now) on.now) }
    ensures { IfOk result (λ found. found ≡ spec.is_match on.now row.now target.now) }
{
    let sight = joined(alloc, target.as_slice(), row.as_slice())?;
    Ok(holds(on, &sight))
}

/// Whether some target row matches the source row.
fn is_matched(
    alloc: Global,
    on: &Pred,
    targets: &[Row],
    row: &Row,
    width: usize,
) -> Result<bool, AllocError>
    requires on { IsTrue (pred_is_within (width + length row.now) on.now) }
    requires wide { IsTrue (are_wide width targets.now) }
    ensures { IfOk result (λ found. found ≡ spec.is_matched on.now targets.now row.now) }
{
    for target in targets {
        if is_match(alloc, on, row, target)? {
            return Ok(true);
        }
    }
    Ok(false)
}

fn is_when(clause: When, when: When) -> bool
    ensures { result ≡ spec.is_when clause when }
{
    matches!(
        (clause, when),
        (When::Matched, When::Matched)
            | (When::NotMatched, When::NotMatched)
            | (When::NotMatchedBySource, When::NotMatchedBySource)
    )
}

#[tactic(auto, unfolding(crate::specs::Clauses::applies, crate::specs::Fits::clause_is_within))]
fn applies(when: When, clause: &Clause, sight: &Row) -> bool
    requires { IsTrue (clause_is_within (length sight.now) clause.now) }
    ensures { result ≡ spec.applies when clause.now sight.now }
{
    is_when(clause.when, when) && holds(&clause.condition, sight)
}

#[tactic(auto, unfolding(crate::specs::Fits::clause_is_within))]
fn act(alloc: Global, clause: &Clause, target: &Row, sight: &Row) -> Result<Effect, AllocError>
    requires { IsTrue (clause_is_within (length sight.now) clause.now) }
    ensures { IfOk result (λ effect. effect ≡ spec.acted target.now sight.now (Some clause.now.action)) }
{
    match &clause.action {
        Action::Update(sets) => Ok(Effect::Replace(updated(
            alloc,
            sets.as_slice(),
            sight,
            target.as_slice(),
        )?)),
        Action::Delete => Ok(Effect::Remove),
        Action::Insert(_) => Ok(Effect::Keep),
    }
}

/// What the first clause that applies does with the target row.
fn effect_of_first(
    alloc: Global,
    when: When,
    clauses: &[Clause],
    target: &Row,
    sight: &Row,
) -> Result<Effect, AllocError>
    requires { IsTrue (clauses_are_within (length sight.now) clauses.now) }
    ensures { IfOk result
        (λ effect. effect ≡ spec.acted target.now sight.now (spec.chosen when clauses.now sight.now)) }
{
    let mut rest = clauses;
    while let [clause, after @ ..] = rest {
        if applies(when, clause, sight) {
            return act(alloc, clause, target, sight);
        }
        rest = after;
    }
    Ok(Effect::Keep)
}

/// What a MERGE does with a target row, which stands beside each source row that matches it.
pub fn effect_by(
    alloc: Global,
    clauses: &[Clause],
    target: &Row,
    padding: &Row,
    sights: &[Row],
) -> Result<Effect, AllocError>
    requires clauses { IsTrue (clauses_are_within (length target.now + length padding.now) clauses.now) }
    requires sights { IsTrue (are_wide (length target.now + length padding.now) sights.now) }
    ensures { IfOk result
        (λ effect. effect ≡ spec.effect_by clauses.now target.now padding.now sights.now) }
{
    match sights {
        [sight, ..] => effect_of_first(alloc, When::Matched, clauses, target, sight),
        [] => {
            let sight = joined(alloc, target.as_slice(), padding.as_slice())?;
            effect_of_first(alloc, When::NotMatchedBySource, clauses, target, &sight)
        }
    }
}

#[tactic(auto, unfolding(crate::specs::Fits::clause_is_within))]
fn insert(alloc: Global, clause: &Clause, sight: &Row) -> Result<List<NewRow>, AllocError>
    requires { IsTrue (clause_is_within (length sight.now) clause.now) }
    ensures { IfOk result (λ rows. rows ≡ spec.inserted_by sight.now (Some clause.now.action)) }
{
    let mut rows = List::new(alloc);
    if let Action::Insert(exprs) = &clause.action {
        rows.push(new_row(alloc, exprs.as_slice(), sight)?)?;
    }
    Ok(rows)
}

/// The row that the first clause that applies inserts.
fn insertion_of_first(
    alloc: Global,
    clauses: &[Clause],
    sight: &Row,
) -> Result<List<NewRow>, AllocError>
    requires { IsTrue (clauses_are_within (length sight.now) clauses.now) }
    ensures { IfOk result
        (λ rows. rows ≡ spec.inserted_by sight.now (spec.chosen When.NotMatched clauses.now sight.now)) }
{
    let mut rest = clauses;
    while let [clause, after @ ..] = rest {
        if applies(When::NotMatched, clause, sight) {
            return insert(alloc, clause, sight);
        }
        rest = after;
    }
    Ok(List::new(alloc))
}

/// The rows that one source row brings to the target rows.
#[tactic(auto, unfolding(crate::specs::Clauses::insertion))]
pub fn insertion(
    alloc: Global,
    on: &Pred,
    clauses: &[Clause],
    targets: &[Row],
    padding: &Row,
    row: &Row,
) -> Result<List<NewRow>, AllocError>
    requires on { IsTrue (pred_is_within (length padding.now + length row.now) on.now) }
    requires clauses { IsTrue (clauses_are_within (length padding.now + length row.now) clauses.now) }
    requires wide { IsTrue (are_wide (length padding.now) targets.now) }
    ensures { IfOk result
        (λ rows. rows ≡ spec.insertion on.now clauses.now targets.now padding.now row.now) }
{
    if is_matched(alloc, on, targets, row, padding.len())? {
        return Ok(List::new(alloc));
    }
    let sight = joined(alloc, padding.as_slice(), row.as_slice())?;
    insertion_of_first(alloc, clauses, &sight)
}

fn is_const_true(pred: &Pred) -> bool
    ensures { result ≡ spec.is_const_true pred.now }
{
    match pred {
        Pred::Const(holds) => *holds,
        _ => false,
    }
}

#[tactic(auto, unfolding(crate::specs::Clauses::wants_one))]
fn wants_one(clause: &Clause) -> bool
    ensures { result ≡ spec.wants_one clause.now }
{
    let is_delete = matches!(clause.action, Action::Delete);
    is_when(clause.when, When::Matched) && !(is_delete && is_const_true(&clause.condition))
}

#[tactic(auto, unfolding(crate::specs::Clauses::is_for_matched))]
fn is_for_matched(clause: &Clause) -> bool
    ensures { result ≡ spec.is_for_matched clause.now }
{
    is_when(clause.when, When::Matched)
}

fn any_wants_one(clauses: &[Clause]) -> bool
    ensures { result ≡ list_any spec.wants_one clauses.now }
{
    for clause in clauses {
        if wants_one(clause) {
            return true;
        }
    }
    false
}

fn count_for_matched(clauses: &[Clause]) -> usize
    ensures { result ≡ count_by spec.is_for_matched clauses.now }
{
    let mut count = 0;
    for clause in clauses {
        if is_for_matched(clause) {
            count += 1;
        }
    }
    count
}

/// Whether two source rows for one target row are refused.
pub fn refuses_two(clauses: &[Clause]) -> bool
    ensures { result ≡ spec.refuses_two clauses.now }
{
    any_wants_one(clauses) || 2 <= count_for_matched(clauses)
}

/// Whether the target row has two source rows.
#[tactic(auto, unfolding(crate::specs::Clauses::matches_two))]
pub fn matches_two(
    alloc: Global,
    on: &Pred,
    rows: &[Row],
    target: &Row,
    width: usize,
) -> Result<bool, AllocError>
    requires on { IsTrue (pred_is_within (length target.now + width) on.now) }
    requires wide { IsTrue (are_wide width rows.now) }
    ensures { IfOk result (λ found. found ≡ spec.matches_two on.now rows.now target.now) }
{
    Ok(2 <= matches(alloc, on, rows, target, width)?.len())
}
