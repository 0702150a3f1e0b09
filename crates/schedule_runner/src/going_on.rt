//! One step of a run, which is recorded.
ghost use Rattle.std.specs.Prelude.{◌≡◌, ◌≤◌, ◌<◌, ◌⊎◌, true, ℕ, IfErr, IsErrOf, IsSome, OnOk, Some, is_some, slice_get};
ghost use Rattle.std.specs.List.{AllByRecursion};
ghost use Rattle.std.specs.Option.{ForSome};
ghost use Rattle.plain_types.specs.Causes.{Rose, RoseTwice};
ghost use Rattle.sql_statements.specs.Tables.{is_dml};
ghost use Rattle.sql_statements.specs.declared.statement.Statement.{Statement as Stated};
ghost use Rattle.store_core.specs.Files.{Files, KeepsFiles};
ghost use Rattle.table_names.specs.FileNames.{NoneFrom};
ghost use Rattle.commit_builder.specs.NextVersion.{AreNames};
ghost use Rattle.session_machine.specs.declared.place.Place.{Place as Stand};
ghost use Rattle.session_steps.specs.Open.{IsOpen};
ghost use Rattle.session_steps.specs.Faults.{CannotStep};
ghost use Rattle.session_steps.specs.Steps.{AreWorkable, HasShape, LeavesOthers};
ghost use Rattle.schedule_runner.specs.Running.{Ended, Running};

use row_values::TableSchema;
use session_machine::Stepped;
use session_steps::{RunFault, Session, step};
use sql_statements::{Source, Statement};
use std::alloc::Global;
use store_core::{Clock, Store};

/// Makes the next step of a session that has a statement left, and records it. Where there is no room for the record the step is
/// not made.
pub(crate) fn go_on<S: Store, C: Clock>(
    alloc: Global,
    store: &mut S,
    clock: &mut C,
    table: &str,
    schema: &TableSchema,
    sources: &[Source],
    statements: &[Statement],
    session: &mut Session,
    steps: &mut Vec<Stepped>,
) -> Result<(), RunFault>
    requires statements { AreWorkable schema.now sources.now statements.now }
    requires changes { AllByRecursion (λ s. is_dml s ≡ true) statements.now }
    requires at_hand { IsSome (slice_get statements.now session.old.place.at) }
    requires shape { HasShape session.old }
    requires named { AreNames session.old.names }
    requires free { ForSome (S.files store.old) (NoneFrom table.now session.old.names.run session.old.names.session session.old.names.next) }
    requires running { ForSome (S.files store.old) (λ old. (start : Files) × (first : ℕ) × (place : Stand)
        × (begun : IsOpen table.now schema.now start first)
        × Running table.now schema.now sources.now statements.now start first place begun old session.old steps.old.items) }
    ensures goes { OnOk result (ForSome (S.files store.old) (λ old. (start : Files) (first : ℕ) (place : Stand)
        (begun : IsOpen table.now schema.now start first)
        → Running table.now schema.now sources.now statements.now start first place begun old session.old steps.old.items
        → (new : Files) × (S.files store.new ≡ Some new)
        × Running table.now schema.now sources.now statements.now start first place begun new session.new steps.new.items)) }
    ensures ends { IfErr result (λ fault. ForSome (S.files store.old)
        (λ old. (start : Files) (first : ℕ) (place : Stand) (begun : IsOpen table.now schema.now start first)
        → (running : Running table.now schema.now sources.now statements.now start first place begun old session.old steps.old.items)
        → (new : Files) × (S.files store.new ≡ Some new)
        × (ended : Ended table.now schema.now sources.now statements.now start first place begun new session.old.place
        steps.new.items (S.faults store.old) (S.faults store.new) fault) × (ended.last ≡ running.last))) }
    ensures faulted { IfErr result (λ fault. ForSome (S.files store.old)
        (λ old. (s : Stated) → slice_get statements.now session.old.place.at ≡ Some s
        → CannotStep table.now schema.now s old fault)) }
    ensures shape { OnOk result (HasShape session.new) }
    ensures session { (session.new.names.run ≡ session.old.names.run) × (session.new.names.session ≡ session.old.names.session) }
    ensures raised { session.old.names.next ≤ session.new.names.next }
    ensures named { AreNames session.new.names }
    ensures free { ForSome (S.files store.new) (NoneFrom table.now session.new.names.run session.new.names.session session.new.names.next) }
    ensures others { LeavesOthers table.now session.old.names (S.files store.old) (S.files store.new) }
    ensures told { is_some (S.files store.new) ≡ is_some (S.files store.old) }
    ensures kept { KeepsFiles (S.files store.old) (S.files store.new) }
    ensures later { S.faults store.old ≤ S.faults store.new }
    ensures store { IsErrOf result RunFault.Store → Rose (S.faults store.old) (S.faults store.new) × (0 < S.unsettled store.new) }
    ensures unknown { (number statement : ℕ) → IsErrOf result (RunFault.Unknown number statement)
        → RoseTwice (S.faults store.old) (S.faults store.new) × (2 ≤ S.unsettled store.new) }
    ensures at_hand { (number statement : ℕ) → IsErrOf result (RunFault.Unknown number statement)
        → (number ≡ session.old.place.session) × (statement ≡ session.old.place.at) }
    ensures quiet { OnOk result ((S.faults store.new ≡ S.faults store.old) ⊎ (S.unsettled store.new ≡ 0)) }
{
    if steps.reserve(1).is_err() {
        return Err(RunFault::Memory);
    }
    let now_ms = clock.now_ms();
    let stepped = match step(
        alloc, store, table, schema, sources, statements, session, now_ms,
    ) {
        Ok(stepped) => stepped,
        Err(fault) => return Err(fault),
    };
    match steps.push(stepped) {
        Ok(()) => Ok(()),
        Err(_) => unreachable!(),
    }
}
