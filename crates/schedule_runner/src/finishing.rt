//! A session is run from its first statement to its last.
ghost use Rattle.std.specs.Prelude.{◌≡◌, ◌≤◌, ◌<◌, true, ℕ, length, Some, is_some};
ghost use Rattle.std.specs.List.{AllByRecursion};
ghost use Rattle.std.specs.Option.{ForSome};
ghost use Rattle.plain_types.specs.Causes.{Rose, RoseTwice};
ghost use Rattle.sql_statements.specs.Tables.{is_dml};
ghost use Rattle.store_core.specs.Files.{Files, KeepsFiles};
ghost use Rattle.table_names.specs.FileNames.{NoneFrom};
ghost use Rattle.commit_builder.specs.NextVersion.{AreNames};
ghost use Rattle.session_machine.specs.declared.place.Phase.TheVariants as phases;
ghost use Rattle.session_steps.specs.Open.{IsOpen};
ghost use Rattle.session_steps.specs.Steps.{AreWorkable, LeavesOthers};
ghost use Rattle.schedule_runner.specs.Outcome.{IsOutcome, first_place};

use crate::going_on::go_on;
use plain_types::List;
use row_values::TableSchema;
use session_machine::Stepped;
use session_steps::{RunFault, Session};
use sql_statements::{Source, Statement};
use std::alloc::Global;
use store_core::{Clock, Store};
use table_names::Names;

/// What came of a session.
#[derive(Drop)]
pub struct Run {
    /// The steps that were made to their end.
    pub steps: List<Stepped>,
    /// Why the next one was not, where the session has not answered all its statements.
    pub ended: Option<RunFault>,
}

/// Runs the statements one after another, as the session of this number, on a table that is open and that nobody else changes. It
/// puts files under the next of these names. Want of memory ends it also where there is no room for the record of a step.
pub fn run_session<S: Store, C: Clock>(
    alloc: Global,
    store: &mut S,
    clock: &mut C,
    table: &str,
    schema: &TableSchema,
    sources: &[Source],
    statements: &[Statement],
    number: usize,
    names: Names,
) -> Run
    requires statements { AreWorkable schema.now sources.now statements.now }
    requires changes { AllByRecursion (λ s. is_dml s ≡ true) statements.now }
    requires named { AreNames names }
    requires free { ForSome (S.files store.old) (NoneFrom table.now names.run names.session names.next) }
    requires open { ForSome (S.files store.old) (λ old. (current : ℕ) × IsOpen table.now schema.now old current) }
    ensures runs { ForSome (S.files store.old) (λ old. (current : ℕ) (begun : IsOpen table.now schema.now old current)
        → (new : Files) × (S.files store.new ≡ Some new)
        × IsOutcome table.now schema.now sources.now statements.now old current (first_place number) begun new result.steps
        (S.faults store.old) (S.faults store.new) result.ended) }
    ensures others { LeavesOthers table.now names (S.files store.old) (S.files store.new) }
    ensures told { is_some (S.files store.new) ≡ is_some (S.files store.old) }
    ensures kept { KeepsFiles (S.files store.old) (S.files store.new) }
    // What a fault needs of the counts.
    ensures later { S.faults store.old ≤ S.faults store.new }
    ensures store { result.ended ≡ Some RunFault.Store → Rose (S.faults store.old) (S.faults store.new) × (0 < S.unsettled store.new) }
    ensures within { (session statement : ℕ) → result.ended ≡ Some (RunFault.Unknown session statement) → statement < length statements.now }
    ensures unknown { (session statement : ℕ) → result.ended ≡ Some (RunFault.Unknown session statement)
        → RoseTwice (S.faults store.old) (S.faults store.new) × (2 ≤ S.unsettled store.new) }
{
    let mut session = Session::new(number, names);
    let run = finish(
        alloc,
        store,
        clock,
        table,
        schema,
        sources,
        statements,
        &mut session,
        u64::MAX,
    );
    close(session);
    run
}

// Lets go of a session that has ended.
fn close(_: Session) {}

// Runs a session that begins, in at most so many steps: there is no room for the record of one more.
fn finish<S: Store, C: Clock>(
    alloc: Global,
    store: &mut S,
    clock: &mut C,
    table: &str,
    schema: &TableSchema,
    sources: &[Source],
    statements: &[Statement],
    session: &mut Session,
    most: u64,
) -> Run
    requires statements { AreWorkable schema.now sources.now statements.now }
    requires changes { AllByRecursion (λ s. is_dml s ≡ true) statements.now }
    requires phase { session.old.place.phase ≡ phases.Plan }
    requires named { AreNames session.old.names }
    requires free { ForSome (S.files store.old) (NoneFrom table.now session.old.names.run session.old.names.session session.old.names.next) }
    requires open { ForSome (S.files store.old) (λ old. (current : ℕ) × IsOpen table.now schema.now old current) }
    ensures runs { ForSome (S.files store.old) (λ old. (current : ℕ) (begun : IsOpen table.now schema.now old current)
        → (new : Files) × (S.files store.new ≡ Some new)
        × IsOutcome table.now schema.now sources.now statements.now old current session.old.place begun new result.steps
        (S.faults store.old) (S.faults store.new) result.ended) }
    ensures others { LeavesOthers table.now session.old.names (S.files store.old) (S.files store.new) }
    ensures told { is_some (S.files store.new) ≡ is_some (S.files store.old) }
    ensures kept { KeepsFiles (S.files store.old) (S.files store.new) }
    ensures later { S.faults store.old ≤ S.faults store.new }
    ensures store { result.ended ≡ Some RunFault.Store → Rose (S.faults store.old) (S.faults store.new) × (0 < S.unsettled store.new) }
    ensures within { (session statement : ℕ) → result.ended ≡ Some (RunFault.Unknown session statement) → statement < length statements.now }
    ensures unknown { (session statement : ℕ) → result.ended ≡ Some (RunFault.Unknown session statement)
        → RoseTwice (S.faults store.old) (S.faults store.new) × (2 ≤ S.unsettled store.new) }
{
    let mut steps = Vec::new(alloc);
    for _ in 0..most {
        if session.place.at >= statements.len() {
            return run_of(steps, None);
        }
        match go_on(
            alloc, store, clock, table, schema, sources, statements, session, &mut steps,
        ) {
            Ok(()) => {}
            Err(fault) => return run_of(steps, Some(fault)),
        }
    }
    run_of(steps, Some(RunFault::Memory))
}

fn run_of(steps: Vec<Stepped>, ended: Option<RunFault>) -> Run
    ensures steps { result.steps ≡ steps.items }
    ensures ended { result.ended ≡ ended }
{
    Run {
        steps: List::from_vec(steps),
        ended,
    }
}
