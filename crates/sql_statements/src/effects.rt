//! What a statement does with the rows of its branch, row by row.

ghost use Rattle.std.specs.Prelude.{◌≡◌, ◌≢◌, ◌+◌, ◌&&◌, ◌++◌, Ok, Err, IsTrue, IfOk, IfErr, length, map, [], unwrap_or, slice_get};
ghost use Rattle.std.specs.List.{list_all, flat_map};
ghost use Rattle.sql_statements.specs.Clauses as clauses;
ghost use Rattle.sql_statements.specs.NewRows as new_rows;
ghost use Rattle.sql_statements.specs.Effects as spec;
ghost use Rattle.sql_statements.specs.Fits.{statement_is_within, merge_is_within, exprs_are_within, are_wide, source_is_wide};

use crate::clauses::{effect_by, extended, holds, insertion, matches, nulls, refuses_two};
use crate::faults::{any_overflows, first_null};
use crate::new_row::{new_row, row_of, updated};
use crate::{Effect, Merge, NewRow, PlainFault, Source, SqlRefusal, Statement};
use plain_types::List;
use row_values::{Column, Row, TableSchema, copy_row};
use sql_predicates::Expr;
use std::alloc::{AllocError, Global};

/// What a MERGE does with a row of its branch.
fn merge_effect(
    alloc: Global,
    merge: &Merge,
    source: &Source,
    row: &Row,
) -> Result<Effect, AllocError>
    requires reads { IsTrue (merge_is_within (length row.now) (Some source.now) merge.now) }
    requires wide { IsTrue (source_is_wide source.now) }
    ensures { IfOk result (λ effect. effect ≡ spec.merge_effect merge.now source.now row.now) }
{
    let width = source.columns.len();
    let padding = nulls(alloc, width)?;
    let sights = matches(alloc, &merge.on, source.rows.as_slice(), row, width)?;
    effect_by(
        alloc,
        merge.clauses.as_slice(),
        row,
        &padding,
        sights.as_slice(),
    )
}

/// What the statement does with a row of its branch.
#[tactic(auto, unfolding(crate::specs::Effects::effect))]
pub fn row_effect(
    alloc: Global,
    sources: &[Source],
    statement: &Statement,
    row: &Row,
) -> Result<Effect, AllocError>
    requires reads { IsTrue (statement_is_within (length row.now) sources.now statement.now) }
    requires wide { IsTrue (list_all source_is_wide sources.now) }
    ensures { IfOk result (λ effect. effect ≡ spec.effect sources.now statement.now row.now) }
{
    match statement {
        Statement::Delete { branch: _, filter } => {
            if holds(filter, row) {
                Ok(Effect::Remove)
            } else {
                Ok(Effect::Keep)
            }
        }
        Statement::Update {
            branch: _,
            sets,
            filter,
        } => {
            if holds(filter, row) {
                Ok(Effect::Replace(updated(alloc, sets.as_slice(), row, row.as_slice())?))
            } else {
                Ok(Effect::Keep)
            }
        }
        Statement::Merge(merge) => match sources.get(merge.source) {
            Some(source) => merge_effect(alloc, merge, source, row),
            None => Ok(Effect::Keep),
        },
        Statement::Insert { branch: _, rows: _ }
        | Statement::CreateBranch { branch: _ }
        | Statement::DropBranch { branch: _ }
        | Statement::Select {
            branch: _,
            filter: _,
        } => Ok(Effect::Keep),
    }
}

#[tactic(auto, unfolding(crate::specs::Effects::replacements))]
fn replacements(
    alloc: Global,
    sources: &[Source],
    statement: &Statement,
    row: &Row,
) -> Result<List<NewRow>, AllocError>
    requires reads { IsTrue (statement_is_within (length row.now) sources.now statement.now) }
    requires wide { IsTrue (list_all source_is_wide sources.now) }
    ensures { IfOk result (λ made. made ≡ spec.replacements sources.now statement.now row.now) }
{
    let mut made = List::new(alloc);
    match row_effect(alloc, sources, statement, row)? {
        Effect::Keep | Effect::Remove => {}
        Effect::Replace(new) => made.push(new)?,
    }
    Ok(made)
}

#[tactic(auto, unfolding(crate::specs::Effects::remains))]
fn remains(
    alloc: Global,
    sources: &[Source],
    statement: &Statement,
    row: &Row,
) -> Result<List<Row>, AllocError>
    requires reads { IsTrue (statement_is_within (length row.now) sources.now statement.now) }
    requires wide { IsTrue (list_all source_is_wide sources.now) }
    ensures { IfOk result (λ left. left ≡ spec.remains sources.now statement.now row.now) }
{
    let mut left = List::new(alloc);
    match row_effect(alloc, sources, statement, row)? {
        Effect::Keep => left.push(copy_row(alloc, row.as_slice())?)?,
        Effect::Remove => {}
        Effect::Replace(new) => left.push(row_of(alloc, new.as_slice())?)?,
    }
    Ok(left)
}

#[tactic(auto, using(crate::proofs::Steps::flat_map_step))]
pub fn all_replacements(
    alloc: Global,
    width: usize,
    sources: &[Source],
    statement: &Statement,
    rows: &[Row],
) -> Result<List<NewRow>, AllocError>
    requires reads { IsTrue (statement_is_within width sources.now statement.now) }
    requires rows { IsTrue (are_wide width rows.now) }
    requires wide { IsTrue (list_all source_is_wide sources.now) }
    ensures { IfOk result (λ made. made ≡ flat_map (spec.replacements sources.now statement.now) rows.now) }
{
    let mut made = List::new(alloc);
    for row in rows {
        made = extended(made, replacements(alloc, sources, statement, row)?)?;
    }
    Ok(made)
}

#[tactic(auto, using(crate::proofs::Steps::flat_map_step))]
pub fn all_remains(
    alloc: Global,
    width: usize,
    sources: &[Source],
    statement: &Statement,
    rows: &[Row],
) -> Result<List<Row>, AllocError>
    requires reads { IsTrue (statement_is_within width sources.now statement.now) }
    requires rows { IsTrue (are_wide width rows.now) }
    requires wide { IsTrue (list_all source_is_wide sources.now) }
    ensures { IfOk result (λ left. left ≡ flat_map (spec.remains sources.now statement.now) rows.now) }
{
    let mut left = List::new(alloc);
    for row in rows {
        left = extended(left, remains(alloc, sources, statement, row)?)?;
    }
    Ok(left)
}

/// The rows of the tuples of an INSERT.
pub fn tuple_rows(alloc: Global, tuples: &[List<Expr>]) -> Result<List<NewRow>, AllocError>
    requires { IsTrue (list_all (exprs_are_within 0) tuples.now) }
    ensures { IfOk result (λ made. made ≡ map (new_rows.new_row []) tuples.now) }
{
    let nothing = List::new(alloc);
    let mut made = List::new(alloc);
    for tuple in tuples {
        made.push(new_row(alloc, tuple.as_slice(), &nothing)?)?;
    }
    Ok(made)
}
