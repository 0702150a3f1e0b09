//! The run of a script.
ghost use Rattle.std.specs.Prelude.{◌≡◌, ◌≤◌, ◌<◌, [], true, ℕ, ◌⊎◌, IfErr, IfOk, IsErrOf, Some, is_some};
ghost use Rattle.std.specs.List.{AllByRecursion};
ghost use Rattle.std.specs.Option.{ForSome};
ghost use Rattle.std.specs.Str.{IsUtf8};
ghost use Rattle.plain_types.specs.Causes.{Rose, RoseTwice};
ghost use Rattle.sql_statements.specs.Tables.{is_dml};
ghost use Rattle.store_core.specs.Files.{Files, KeepsFiles};
ghost use Rattle.table_names.specs.FileNames.{NoneFrom};
ghost use Rattle.table_names.specs.Runs.{IsFreshRun};
ghost use Rattle.table_names.specs.Sessions.{HasNoSlash};
ghost use Rattle.commit_builder.specs.NextVersion.{AreNames};
ghost use Rattle.session_steps.specs.Open.{IsOpen};
ghost use Rattle.session_steps.specs.Steps.{AreWorkable};
ghost use Rattle.schedule_runner.specs.Adding.{AddsAtMost};
ghost use Rattle.schedule_runner.specs.Outcome.{IsOutcome, first_place};
ghost use Rattle.schedule_runner.specs.Scripts.{WasRead, name_in, statements_in};

use crate::finishing::{Run, run_session};
use dml_parser::Script;
use plain_types::{List, Text};
use row_values::TableSchema;
use session_steps::RunFault;
use sql_statements::Statement;
use std::alloc::Global;
use store_core::{Clock, Store, StoreFault};
use table_names::{Names, a_fresh_run_has_free_names, fresh_run};

/// Runs a script that was read by this schema, on a table that is open and that nobody else changes. The files that it puts have
/// the least number of a run that no file of the table has.
pub fn run_script<S: Store, C: Clock>(
    alloc: Global,
    store: &mut S,
    clock: &mut C,
    table: &str,
    schema: &TableSchema,
    script: &Script,
) -> Run
    requires read { WasRead schema.now script.now }
    requires open { ForSome (S.files store.old) (λ old. (current : ℕ) × IsOpen table.now schema.now old current) }
    ensures runs { ForSome (S.files store.old) (λ old. (current : ℕ) (begun : IsOpen table.now schema.now old current)
        → (new : Files) × (S.files store.new ≡ Some new)
        × IsOutcome table.now schema.now [] (statements_in script.now) old current (first_place 0) begun new result.steps
        (S.faults store.old) (S.faults store.new) result.ended) }
    ensures adds { ForSome (S.files store.old) (λ old. (new : Files) × (S.files store.new ≡ Some new)
        × AddsAtMost table.now (name_in script.now) old new) }
    ensures kept { KeepsFiles (S.files store.old) (S.files store.new) }
    ensures told { is_some (S.files store.new) ≡ is_some (S.files store.old) }
    // What a fault needs of the counts.
    ensures later { S.faults store.old ≤ S.faults store.new }
    ensures store { result.ended ≡ Some RunFault.Store → Rose (S.faults store.old) (S.faults store.new) × (0 < S.unsettled store.new) }
    ensures within { (session statement : ℕ) → result.ended ≡ Some (RunFault.Unknown session statement) → statement < 4096 }
    ensures unknown { (session statement : ℕ) → result.ended ≡ Some (RunFault.Unknown session statement)
        → RoseTwice (S.faults store.old) (S.faults store.new) × (2 ≤ S.unsettled store.new) }
{
    let names = match first_names(alloc, store, table, name_in(script)) {
        Ok(names) => names,
        Err(fault) => return unbegun(alloc, fault),
    };
    let statements = statements_in(script);
    run_session(
        alloc,
        store,
        clock,
        table,
        schema,
        &[],
        statements,
        0,
        names,
    )
}

// A run of which no step was made.
fn unbegun(alloc: Global, fault: RunFault) -> Run
    ensures steps { result.steps ≡ [] }
    ensures ended { result.ended ≡ Some fault }
{
    Run {
        steps: List::new(alloc),
        ended: Some(fault),
    }
}

fn statements_in(script: &Script) -> &[Statement]
    ensures { result.now ≡ statements_in script.now }
{
    match script.sessions.get(0) {
        Some(session) => session.statements.as_slice(),
        None => &[],
    }
}

fn name_in(script: &Script) -> &str
    ensures { result.now ≡ name_in script.now }
{
    match script.sessions.get(0) {
        Some(session) => session.name.as_str(),
        None => "",
    }
}

/// The number of a session's first file.
const FIRST_NUMBER: u128 = 1;

// The first names of a session's files, in a run whose number is free.
fn first_names<S: Store>(
    alloc: Global,
    store: &mut S,
    table: &str,
    session: &str,
) -> Result<Names, RunFault>
    requires text { IsUtf8 session.now }
    requires slash { HasNoSlash session.now }
    ensures named { IfOk result AreNames }
    ensures first { IfOk result (λ names. (names.session ≡ session.now) × (names.next ≡ 1)) }
    ensures fresh { IfOk result (λ names. ForSome (S.files store.old) (λ old. IsFreshRun table.now old names.run)) }
    ensures free { IfOk result (λ names. ForSome (S.files store.old) (NoneFrom table.now names.run names.session names.next)) }
    ensures kind { IfErr result (λ fault. (fault ≡ RunFault.Store) ⊎ (fault ≡ RunFault.Memory)) }
    ensures files { S.files store.new ≡ S.files store.old }
    ensures later { S.faults store.old ≤ S.faults store.new }
    ensures store { IsErrOf result RunFault.Store → Rose (S.faults store.old) (S.faults store.new) × (0 < S.unsettled store.new) }
{
    let session = match Text::copy_of(alloc, session) {
        Ok(session) => session,
        Err(_) => return Err(RunFault::Memory),
    };
    a_fresh_run_has_free_names();
    match fresh_run(alloc, store, table) {
        Ok(run) => Ok(Names {
            run,
            session,
            next: FIRST_NUMBER,
        }),
        Err(StoreFault::Failed) => Err(RunFault::Store),
        Err(StoreFault::Memory) => Err(RunFault::Memory),
    }
}
