// What a statement decides.
ghost use Rattle.std.specs.Prelude.{◌≡◌, length, IsTrue, IfOk, IfErr, Some, None};
ghost use Rattle.std.specs.List.{list_all};
ghost use Rattle.sql_statements.specs.Effects as spec;
ghost use Rattle.sql_statements.specs.Fits.{are_wide, source_is_wide, statement_is_within};
ghost use Rattle.table_scan.specs.Decisions.{decisions_of, hit_rows};

use crate::effects::effects_on;
use crate::hits::compared_rows;
use change_sets::{Decisions, ScannedFile};
use row_values::Column;
use sql_statements::{
    Source, SqlRefusal, Statement, extended, insertions, is_ambiguous, rows_of, value_refusal,
};
use std::alloc::{AllocError, Global};

/// What the statement decides for the rows that are hit, or why it is refused.
pub fn decide(
    alloc: Global,
    scanned: &[ScannedFile],
    columns: &[Column],
    sources: &[Source],
    statement: &Statement,
) -> Result<Result<Decisions, SqlRefusal>, AllocError>
    requires reads { IsTrue (statement_is_within (length columns.now) sources.now statement.now) }
    requires rows { IsTrue (are_wide (length columns.now) (hit_rows scanned.now)) }
    requires wide { IsTrue (list_all source_is_wide sources.now) }
    ensures decided { IfOk result (λ answer. IfOk answer (λ decisions. decisions ≡ decisions_of sources.now statement.now (length columns.now) scanned.now (hit_rows scanned.now))) }
    ensures accepted { IfOk result (λ answer. IfOk answer (λ decisions. spec.refusal columns.now sources.now statement.now (hit_rows scanned.now) ≡ None)) }
    ensures refused { IfOk result (λ answer. IfErr answer (λ why. spec.refusal columns.now sources.now statement.now (hit_rows scanned.now) ≡ Some why)) }
{
    let width = columns.len();
    let compared = compared_rows(alloc, width, sources, statement, scanned)?;
    let rows = compared.as_slice();
    if is_ambiguous(alloc, width, sources, statement, rows)? {
        return Ok(Err(SqlRefusal::Cardinality));
    }
    let effects = effects_on(alloc, width, sources, statement, scanned)?;
    let new = insertions(alloc, width, sources, statement, rows)?;
    let inserted = rows_of(alloc, new.as_slice())?;
    let made = extended(effects.made, new)?;
    match value_refusal(columns, made.as_slice()) {
        Some(why) => Ok(Err(why)),
        None => Ok(Ok(Decisions {
            rows: effects.decisions,
            inserted,
        })),
    }
}
