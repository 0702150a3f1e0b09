//! The step in which a statement's change is validated.
ghost use Rattle.std.specs.Prelude.{◌≡◌, ◌≤◌, ◌<◌, ◌+◌, ◌^◌, codes, ℕ, List as Seq, IfErr, IfOk, IsErrOf, IsSome, OnOk, Some, is_some};
ghost use Rattle.std.specs.Option.{ForSome};
ghost use Rattle.plain_types.specs.Causes.{HasCause};
ghost use Rattle.store_core.specs.Files.{Files, KeepsFiles};
ghost use Rattle.table_names.specs.FileNames.{NoneFrom};
ghost use Rattle.sql_statements.specs.Tables.{branch_of};
ghost use Rattle.session_machine.specs.Machine.{validate_turn};
ghost use Rattle.session_steps.specs.Open.{IsOpen};
ghost use Rattle.session_steps.specs.Faults.{CannotStep};
ghost use Rattle.session_steps.specs.Choices.{is_unchanged, prepared_of, said_of};
ghost use Rattle.session_steps.specs.Steps.{HasPending, HasShape, IsStep, LeavesRest};
ghost use Rattle.sql_statements.specs.declared.statement.Source.{Source};
ghost use Rattle.sql_statements.specs.declared.statement.Statement.{Statement};
ghost use Rattle.row_values.specs.declared.schema.TableSchema.{TableSchema};
ghost use Rattle.commit_builder.specs.NextVersion.{AreNames};
ghost use Rattle.commit_builder.specs.declared.commit.Prepared.{Prepared as Version};
ghost use Rattle.branch_commit.specs.declared.found.Found.TheVariants as found;

use crate::fault::{RunFault, commit_fault};
use crate::session::{NAMES_END, Session};
use branch_commit::{Found, Validated, validate};
use change_sets::Said;
use plain_types::Text;
use session_machine::{Answer, EventKind, Phase, Place, Stepped};
use std::alloc::{AllocError, Global};
use store_core::Store;
use table_state::data_files_of;

// What is found for the session.
fn take(alloc: Global, session: &mut Session, validated: Validated) -> Result<Stepped, AllocError>
    requires { session.old.place.at < 2 ^ 63 }
    ensures turned { IfOk result (λ stepped. validate_turn validated.version session.old.place (is_unchanged validated.found)
        (said_of validated.found) ≡ record { current = validated.version; place = session.new.place; stepped = stepped }) }
    ensures prepared { OnOk result (session.new.prepared ≡ prepared_of validated.found) }
    ensures pending { OnOk result ((prepared : Version) → validated.found ≡ found.Good prepared → session.new.pending ≡ session.old.pending) }
    ensures names { session.new.names ≡ session.old.names }
{
    let version = validated.version;
    match validated.found {
        Found::Good(prepared) => {
            let place = Place {
                phase: Phase::Swap,
                seen: version,
                ..session.place
            };
            session.prepared = Some(prepared);
            let verdict = Said::Good;
            Ok(session.go_on(EventKind::Validate { version, verdict }, place))
        }
        Found::Unchanged => {
            let verdict = Said::Good;
            let kind = EventKind::Validate { version, verdict };
            Ok(session.answer(kind, Answer::Unchanged))
        }
        Found::Conflict { rule, name } => {
            let verdict = Said::Conflict {
                rule,
                name: Text::copy_of(alloc, name.as_str())?,
            };
            let kind = EventKind::Validate { version, verdict };
            Ok(session.answer(kind, Answer::Conflict { rule, name }))
        }
    }
}

/// Validates the change of the statement at hand.
pub(crate) fn validate_step<S: Store>(
    alloc: Global,
    store: &mut S,
    table: &str,
    session: &mut Session,
    now_ms: i64,
) -> Result<Stepped, RunFault>
    requires phase { session.old.place.phase ≡ Phase.Validate }
    requires at { session.old.place.at < 2 ^ 63 }
    requires pending { IsSome session.old.pending }
    requires named { AreNames session.old.names }
    requires free { ForSome (S.files store.old) (NoneFrom table.now session.old.names.run session.old.names.session session.old.names.next) }
    ensures step { IfOk result (λ stepped. ForSome (S.files store.old)
        (λ old. (schema : TableSchema) (sources : Seq Source) (s : Statement) (current : ℕ) → branch_of s ≡ codes "main"
        → IsOpen table.now schema old current → HasPending table.now schema sources s old session.old → (new : Files)
        × (S.files store.new ≡ Some new)
        × IsStep table.now schema sources s old new current session.old.place session.new stepped)) }
    ensures faulted { IfErr result (λ fault. ForSome (S.files store.old)
        (λ old. (schema : TableSchema) (sources : Seq Source) (s : Statement)
        → HasPending table.now schema sources s old session.old → CannotStep table.now schema s old fault)) }
    ensures shape { OnOk result (HasShape session.new) }
    ensures session { (session.new.names.run ≡ session.old.names.run) × (session.new.names.session ≡ session.old.names.session) }
    ensures raised { session.old.names.next ≤ session.new.names.next }
    ensures named { AreNames session.new.names }
    ensures free { ForSome (S.files store.new) (NoneFrom table.now session.new.names.run session.new.names.session session.new.names.next) }
    ensures others { LeavesRest table.now session.old.names (S.files store.old) (S.files store.new) }
    ensures told { is_some (S.files store.new) ≡ is_some (S.files store.old) }
    ensures kept { KeepsFiles (S.files store.old) (S.files store.new) }
    ensures known { (number statement : ℕ) → IsErrOf result (RunFault.Unknown number statement) → ⊥ }
    ensures unsettled { IsErrOf result RunFault.Store → 0 < S.unsettled store.new }
    ensures cause { HasCause RunFault.Store RunFault.Memory (S.faults store.old) (S.faults store.new) result }
{
    if session.names.next >= NAMES_END {
        return Err(RunFault::Memory);
    }
    let pending = match session.pending.take() {
        Some(pending) => pending,
        None => unreachable!(),
    };
    let base = data_files_of(&pending.base.head);
    let validated = validate(
        alloc,
        store,
        table,
        &pending.plan,
        &pending.change,
        base,
        &mut session.names,
        now_ms,
    );
    session.pending = Some(pending);
    match validated {
        Ok(validated) => match take(alloc, session, validated) {
            Ok(stepped) => Ok(stepped),
            Err(_) => Err(RunFault::Memory),
        },
        Err(fault) => Err(commit_fault(fault)),
    }
}
