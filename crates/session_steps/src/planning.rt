//! The step in which a statement plans its change.
ghost use Rattle.std.specs.Prelude.{◌≡◌, ◌≤◌, ◌<◌, ◌+◌, ◌^◌, codes, ℕ, IfErr, IfOk, IsErrOf, OnOk, Some, is_some};
ghost use Rattle.std.specs.Option.{ForSome};
ghost use Rattle.plain_types.specs.Causes.{HasCause};
ghost use Rattle.store_core.specs.Files.{Files, KeepsFiles};
ghost use Rattle.table_names.specs.FileNames.{NoneFrom};
ghost use Rattle.sql_statements.specs.Tables.{branch_of};
ghost use Rattle.commit_builder.specs.NextVersion.{AreNames};
ghost use Rattle.branch_commit.specs.Planning.{IsOfColumns};
ghost use Rattle.session_machine.specs.Machine.{plan_turn};
ghost use Rattle.session_machine.specs.Sights.{name_of_column, refused_as};
ghost use Rattle.session_steps.specs.Open.{IsOpen};
ghost use Rattle.session_steps.specs.Faults.{CannotStep};
ghost use Rattle.session_steps.specs.Choices.{answer_of, pending_of};
ghost use Rattle.session_steps.specs.Steps.{HasShape, IsStep, LeavesRest};

use crate::fault::{RunFault, plan_fault};
use crate::session::{NAMES_END, Session};
use branch_commit::{Outcome, Planned, plan};
use plain_types::Text;
use row_values::{Column, TableSchema};
use session_machine::{Answer, EventKind, Phase, Place, Stepped};
use sql_statements::{Source, SqlRefusal, Statement};
use std::alloc::{AllocError, Global};
use store_core::Store;

// The name of the column at this position.
fn name_of_column(alloc: Global, columns: &[Column], at: usize) -> Result<Text, AllocError>
    ensures { IfOk result (λ name. name ≡ name_of_column columns.now at) }
{
    match columns.get(at) {
        Some(column) => Text::copy_of(alloc, column.name.as_str()),
        None => Text::copy_of(alloc, ""),
    }
}

// The answer to a statement that is refused.
fn refused_as(alloc: Global, columns: &[Column], why: SqlRefusal) -> Result<Answer, AllocError>
    ensures { IfOk result (λ answer. answer ≡ refused_as columns.now why) }
{
    match why {
        SqlRefusal::Cardinality => Ok(Answer::Cardinality),
        SqlRefusal::Overflow => Ok(Answer::Overflow),
        SqlRefusal::Null(at) => Ok(Answer::Null(name_of_column(alloc, columns, at)?)),
    }
}

// What the plan brings for the session.
fn take(
    alloc: Global,
    schema: &TableSchema,
    statement: &Statement,
    session: &mut Session,
    planned: Planned,
) -> Result<Stepped, AllocError>
    requires { session.old.place.at < 2 ^ 63 }
    ensures turned { IfOk result (λ stepped.
        plan_turn planned.version session.old.place (answer_of schema.now.columns statement.now planned.outcome)
        ≡ record { current = planned.version; place = session.new.place; stepped = stepped }) }
    ensures pending { OnOk result (session.new.pending ≡ pending_of planned.outcome) }
    ensures names { session.new.names ≡ session.old.names }
{
    let version = planned.version;
    let kind = EventKind::Plan { version };
    match planned.outcome {
        Outcome::NoBranch => {
            let name = Text::copy_of(alloc, statement.branch().as_str())?;
            Ok(session.answer(kind, Answer::NoBranch(name)))
        }
        Outcome::Refused(why) => {
            let answer = refused_as(alloc, schema.columns.as_slice(), why)?;
            Ok(session.answer(kind, answer))
        }
        Outcome::Ready(pending) => {
            let place = Place {
                phase: Phase::Validate,
                planned: version,
                ..session.place
            };
            session.pending = Some(pending);
            Ok(session.go_on(kind, place))
        }
    }
}

/// Plans the statement at hand.
pub(crate) fn plan_step<S: Store>(
    alloc: Global,
    store: &mut S,
    table: &str,
    schema: &TableSchema,
    sources: &[Source],
    statement: &Statement,
    session: &mut Session,
) -> Result<Stepped, RunFault>
    requires phase { session.old.place.phase ≡ Phase.Plan }
    requires at { session.old.place.at < 2 ^ 63 }
    requires fits { IsOfColumns schema.now.columns sources.now statement.now }
    requires main { branch_of statement.now ≡ codes "main" }
    requires named { AreNames session.old.names }
    requires free { ForSome (S.files store.old) (NoneFrom table.now session.old.names.run session.old.names.session session.old.names.next) }
    ensures step { IfOk result (λ stepped. ForSome (S.files store.old)
        (λ old. (current : ℕ) → IsOpen table.now schema.now old current → (new : Files) × (S.files store.new ≡ Some new)
        × IsStep table.now schema.now sources.now statement.now old new current session.old.place session.new stepped)) }
    ensures faulted { IfErr result (λ fault. ForSome (S.files store.old) (λ old. CannotStep table.now schema.now statement.now old fault)) }
    ensures shape { OnOk result (HasShape session.new) }
    ensures session { (session.new.names.run ≡ session.old.names.run) × (session.new.names.session ≡ session.old.names.session) }
    ensures raised { session.old.names.next ≤ session.new.names.next }
    ensures named { AreNames session.new.names }
    ensures free { ForSome (S.files store.new) (NoneFrom table.now session.new.names.run session.new.names.session session.new.names.next) }
    ensures others { LeavesRest table.now session.old.names (S.files store.old) (S.files store.new) }
    ensures told { is_some (S.files store.new) ≡ is_some (S.files store.old) }
    ensures kept { KeepsFiles (S.files store.old) (S.files store.new) }
    ensures known { (number statement : ℕ) → IsErrOf result (RunFault.Unknown number statement) → ⊥ }
    ensures unsettled { IsErrOf result RunFault.Store → 0 < S.unsettled store.new }
    ensures cause { HasCause RunFault.Store RunFault.Memory (S.faults store.old) (S.faults store.new) result }
{
    if session.names.next >= NAMES_END {
        return Err(RunFault::Memory);
    }
    let planned = match plan(
        alloc,
        store,
        table,
        schema,
        statement,
        sources,
        &mut session.names,
    ) {
        Ok(planned) => planned,
        Err(fault) => return Err(plan_fault(fault)),
    };
    match take(alloc, schema, statement, session, planned) {
        Ok(stepped) => Ok(stepped),
        Err(_) => Err(RunFault::Memory),
    }
}
