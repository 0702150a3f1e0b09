//! The statements by their definitions, on the rows of a branch: slow, and what faster bodies are compared
//! with.

ghost use Rattle.std.specs.Prelude.{◌≡◌, ◌+◌, [], Ok, Err, IsTrue, IfOk, IfErr, length, map};
ghost use Rattle.std.specs.List.{list_all, list_any, flat_map};
ghost use Rattle.sql_statements.specs.Clauses as clauses;
ghost use Rattle.sql_statements.specs.NewRows as new_rows;
ghost use Rattle.sql_statements.specs.Effects as spec;
ghost use Rattle.sql_statements.specs.Fits.{statement_is_within, merge_is_within, are_wide, source_is_wide};
ghost use Rattle.sql_statements.specs.declared.effect.SqlRefusal.{SqlRefusal};

use crate::clauses::{extended, insertion, matches_two, nulls, refuses_two};
use crate::effects::{all_remains, all_replacements, tuple_rows};
use crate::faults::{any_overflows, first_null};
use crate::new_row::row_of;
use crate::{Merge, NewRow, PlainFault, Source, SqlRefusal, Statement};
use plain_types::List;
use row_values::{Column, Row, TableSchema};
use std::alloc::{AllocError, Global};

/// The rows that the statement leaves of the rows of its branch, or why it is refused.
pub fn plain(
    alloc: Global,
    schema: &TableSchema,
    statement: &Statement,
    rows: &[Row],
    sources: &[Source],
) -> Result<List<Row>, PlainFault>
    requires reads { IsTrue (statement_is_within (length schema.now.columns) sources.now statement.now) }
    requires rows { IsTrue (are_wide (length schema.now.columns) rows.now) }
    requires sources { IsTrue (list_all source_is_wide sources.now) }
    ensures rows { IfOk result
        (λ left. spec.result_of schema.now.columns sources.now statement.now rows.now ≡ Ok left) }
    ensures refused { IfErr result
        (λ fault. (why : SqlRefusal) → fault ≡ PlainFault.Refused why →
        spec.result_of schema.now.columns sources.now statement.now rows.now ≡ Err why) }
{
    let columns = schema.columns.as_slice();
    match refusal(alloc, columns, sources, statement, rows)? {
        Some(why) => Err(PlainFault::Refused(why)),
        None => Ok(rows_after(alloc, columns.len(), sources, statement, rows)?),
    }
}

fn rows_after(
    alloc: Global,
    width: usize,
    sources: &[Source],
    statement: &Statement,
    rows: &[Row],
) -> Result<List<Row>, AllocError>
    requires reads { IsTrue (statement_is_within width sources.now statement.now) }
    requires rows { IsTrue (are_wide width rows.now) }
    requires wide { IsTrue (list_all source_is_wide sources.now) }
    ensures { IfOk result
        (λ left. left ≡ spec.rows_after width sources.now statement.now rows.now) }
{
    let left = all_remains(alloc, width, sources, statement, rows)?;
    let inserted = insertions(alloc, width, sources, statement, rows)?;
    extended(left, rows_of(alloc, inserted.as_slice())?)
}

/// Why the statement is refused.
fn refusal(
    alloc: Global,
    columns: &[Column],
    sources: &[Source],
    statement: &Statement,
    rows: &[Row],
) -> Result<Option<SqlRefusal>, AllocError>
    requires reads { IsTrue (statement_is_within (length columns.now) sources.now statement.now) }
    requires rows { IsTrue (are_wide (length columns.now) rows.now) }
    requires wide { IsTrue (list_all source_is_wide sources.now) }
    ensures { IfOk result
        (λ why. why ≡ spec.refusal columns.now sources.now statement.now rows.now) }
{
    if is_ambiguous(alloc, columns.len(), sources, statement, rows)? {
        return Ok(Some(SqlRefusal::Cardinality));
    }
    let replaced = all_replacements(alloc, columns.len(), sources, statement, rows)?;
    let inserted = insertions(alloc, columns.len(), sources, statement, rows)?;
    let made = extended(replaced, inserted)?;
    Ok(value_refusal(columns, made.as_slice()))
}

/// Why rows that are made are refused.
pub fn value_refusal(columns: &[Column], made: &[NewRow]) -> Option<SqlRefusal>
    ensures { result ≡ spec.value_refusal columns.now made.now }
{
    if any_overflows(columns, made) {
        return Some(SqlRefusal::Overflow);
    }
    match first_null(columns, made) {
        Some(at) => Some(SqlRefusal::Null(at)),
        None => None,
    }
}

/// The new rows, in which nothing overflowed.
pub fn rows_of(alloc: Global, made: &[NewRow]) -> Result<List<Row>, AllocError>
    ensures { IfOk result (λ rows. rows ≡ map new_rows.row_of made.now) }
{
    let mut rows = List::new(alloc);
    for new in made {
        rows.push(row_of(alloc, new.as_slice())?)?;
    }
    Ok(rows)
}

/// The rows that the statement inserts.
pub fn insertions(
    alloc: Global,
    width: usize,
    sources: &[Source],
    statement: &Statement,
    rows: &[Row],
) -> Result<List<NewRow>, AllocError>
    requires reads { IsTrue (statement_is_within width sources.now statement.now) }
    requires rows { IsTrue (are_wide width rows.now) }
    requires wide { IsTrue (list_all source_is_wide sources.now) }
    ensures { IfOk result
        (λ made. made ≡ spec.insertions width sources.now statement.now rows.now) }
{
    match statement {
        Statement::Insert {
            branch: _,
            rows: tuples,
        } => tuple_rows(alloc, tuples.as_slice()),
        Statement::Merge(merge) => match sources.get(merge.source) {
            Some(source) => merge_insertions(alloc, width, merge, source, rows),
            None => Ok(List::new(alloc)),
        },
        Statement::Delete {
            branch: _,
            filter: _,
        }
        | Statement::Update {
            branch: _,
            sets: _,
            filter: _,
        }
        | Statement::CreateBranch { branch: _ }
        | Statement::DropBranch { branch: _ }
        | Statement::Select {
            branch: _,
            filter: _,
        } => Ok(List::new(alloc)),
    }
}

#[tactic(auto, using(crate::proofs::Steps::flat_map_step))]
fn merge_insertions(
    alloc: Global,
    width: usize,
    merge: &Merge,
    source: &Source,
    rows: &[Row],
) -> Result<List<NewRow>, AllocError>
    requires reads { IsTrue (merge_is_within width (Some source.now) merge.now) }
    requires rows { IsTrue (are_wide width rows.now) }
    requires wide { IsTrue (source_is_wide source.now) }
    ensures { IfOk result
        (λ made. made ≡ spec.merge_insertions width merge.now source.now rows.now) }
{
    let padding = nulls(alloc, width)?;
    let source_rows = source.rows.as_slice();
    let mut made = List::new(alloc);
    for row in source_rows {
        let inserted = insertion(
            alloc,
            &merge.on,
            merge.clauses.as_slice(),
            rows,
            &padding,
            row,
        )?;
        made = extended(made, inserted)?;
    }
    Ok(made)
}

/// Whether two source rows stand for one target row where one must be chosen.
pub fn is_ambiguous(
    alloc: Global,
    width: usize,
    sources: &[Source],
    statement: &Statement,
    rows: &[Row],
) -> Result<bool, AllocError>
    requires reads { IsTrue (statement_is_within width sources.now statement.now) }
    requires rows { IsTrue (are_wide width rows.now) }
    requires wide { IsTrue (list_all source_is_wide sources.now) }
    ensures { IfOk result
        (λ found. found ≡ spec.is_ambiguous sources.now statement.now rows.now) }
{
    match statement {
        Statement::Merge(merge) => match sources.get(merge.source) {
            Some(source) => {
                if !refuses_two(merge.clauses.as_slice()) {
                    return Ok(false);
                }
                has_two(alloc, width, merge, source, rows)
            }
            None => Ok(false),
        },
        _ => Ok(false),
    }
}

/// Whether some target row has two source rows.
fn has_two(
    alloc: Global,
    width: usize,
    merge: &Merge,
    source: &Source,
    rows: &[Row],
) -> Result<bool, AllocError>
    requires reads { IsTrue (merge_is_within width (Some source.now) merge.now) }
    requires rows { IsTrue (are_wide width rows.now) }
    requires wide { IsTrue (source_is_wide source.now) }
    ensures { IfOk result
        (λ found. found ≡ clauses.has_two merge.now.on source.now.rows rows.now) }
{
    let source_rows = source.rows.as_slice();
    let source_width = source.columns.len();
    for row in rows {
        if matches_two(alloc, &merge.on, source_rows, row, source_width)? {
            return Ok(true);
        }
    }
    Ok(false)
}
