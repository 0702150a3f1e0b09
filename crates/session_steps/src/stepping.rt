//! One step of a session.
ghost use Rattle.std.specs.Prelude.{◌≡◌, ◌≤◌, ◌<◌, ◌⊎◌, ℕ, IfErr, IfOk, IsErrOf, OnOk, Some, slice_get, is_some};
ghost use Rattle.std.specs.Option.{ForSome};
ghost use Rattle.plain_types.specs.Causes.{Rose, RoseTwice};
ghost use Rattle.sql_statements.specs.declared.statement.Statement.{Statement as Stated};
ghost use Rattle.store_core.specs.Files.{Files, KeepsFiles};
ghost use Rattle.table_names.specs.FileNames.{NoneFrom};
ghost use Rattle.commit_builder.specs.NextVersion.{AreNames};
ghost use Rattle.session_steps.specs.Open.{IsOpen};
ghost use Rattle.session_steps.specs.Faults.{CannotStep};
ghost use Rattle.session_steps.specs.Steps.{AreWorkable, EndsOf, HasShape, IsHeld, IsStepOf, LeavesOthers};

use crate::fault::RunFault;
use crate::planning::plan_step;
use crate::session::Session;
use crate::swapping::swap_step;
use crate::validating::validate_step;
use row_values::TableSchema;
use session_machine::{Phase, Stepped};
use sql_statements::{Source, Statement};
use std::alloc::Global;
use store_core::Store;

/// Makes the next step of a session of these statements. Where all are answered nothing is done.
pub fn step<S: Store>(
    alloc: Global,
    store: &mut S,
    table: &str,
    schema: &TableSchema,
    sources: &[Source],
    statements: &[Statement],
    session: &mut Session,
    now_ms: i64,
) -> Result<Stepped, RunFault>
    requires statements { AreWorkable schema.now sources.now statements.now }
    requires shape { HasShape session.old }
    requires named { AreNames session.old.names }
    requires free { ForSome (S.files store.old) (NoneFrom table.now session.old.names.run session.old.names.session session.old.names.next) }
    requires open { ForSome (S.files store.old) (λ old. (current : ℕ) × IsOpen table.now schema.now old current) }
    requires held { ForSome (S.files store.old) (λ old. IsHeld table.now schema.now sources.now statements.now old session.old) }
    ensures steps { IfOk result (λ stepped. ForSome (S.files store.old)
        (λ old. (current : ℕ) → IsOpen table.now schema.now old current → (new : Files) × (S.files store.new ≡ Some new)
        × IsStepOf table.now schema.now sources.now (slice_get statements.now session.old.place.at) old new current session.old.place session.new stepped)) }
    ensures ends { IfErr result (λ fault. ForSome (S.files store.old)
        (λ old. (current : ℕ) → IsOpen table.now schema.now old current → (new : Files) × (S.files store.new ≡ Some new)
        × EndsOf table.now schema.now sources.now (slice_get statements.now session.old.place.at) old new current session.old.place
        (S.faults store.old) (S.faults store.new) fault)) }
    ensures faulted { IfErr result (λ fault. ForSome (S.files store.old)
        (λ old. (s : Stated) → slice_get statements.now session.old.place.at ≡ Some s
        → CannotStep table.now schema.now s old fault)) }
    ensures shape { OnOk result (HasShape session.new) }
    ensures session { (session.new.names.run ≡ session.old.names.run) × (session.new.names.session ≡ session.old.names.session) }
    ensures raised { session.old.names.next ≤ session.new.names.next }
    ensures named { AreNames session.new.names }
    ensures free { ForSome (S.files store.new) (NoneFrom table.now session.new.names.run session.new.names.session session.new.names.next) }
    ensures others { LeavesOthers table.now session.old.names (S.files store.old) (S.files store.new) }
    ensures told { is_some (S.files store.new) ≡ is_some (S.files store.old) }
    ensures kept { KeepsFiles (S.files store.old) (S.files store.new) }
    // What a fault needs of the counts.
    ensures later { S.faults store.old ≤ S.faults store.new }
    ensures store { IsErrOf result RunFault.Store → Rose (S.faults store.old) (S.faults store.new) × (0 < S.unsettled store.new) }
    ensures unknown { (number statement : ℕ) → IsErrOf result (RunFault.Unknown number statement)
        → RoseTwice (S.faults store.old) (S.faults store.new) × (2 ≤ S.unsettled store.new) }
    ensures at_hand { (number statement : ℕ) → IsErrOf result (RunFault.Unknown number statement)
        → (number ≡ session.old.place.session) × (statement ≡ session.old.place.at) }
    ensures quiet { OnOk result ((S.faults store.new ≡ S.faults store.old) ⊎ (S.unsettled store.new ≡ 0)) }
{
    let statement = match statements.get(session.place.at) {
        Some(statement) => statement,
        None => {
            return Ok(Stepped {
                event: None,
                answer: None,
            });
        }
    };
    match session.place.phase {
        Phase::Plan => plan_step(alloc, store, table, schema, sources, statement, session),
        Phase::Validate => validate_step(alloc, store, table, session, now_ms),
        Phase::Swap => swap_step(alloc, store, session),
    }
}
