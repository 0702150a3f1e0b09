//! The step in which a statement swaps its version in.
ghost use Rattle.std.specs.Prelude.{◌≡◌, ◌≤◌, ◌<◌, ◌+◌, ◌^◌, ◌⊎◌, codes, ℕ, List as Seq, IfErr, IfOk, IsErrOf, IsSome, None, OnOk, Some, option_map};
ghost use Rattle.std.specs.FinMap as map;
ghost use Rattle.std.specs.Option.{ForSome};
ghost use Rattle.plain_types.specs.Causes.{Rose, RoseTwice};
ghost use Rattle.row_values.specs.declared.schema.TableSchema.{TableSchema};
ghost use Rattle.sql_statements.specs.declared.statement.Source.{Source};
ghost use Rattle.sql_statements.specs.declared.statement.Statement.{Statement};
ghost use Rattle.sql_statements.specs.Tables.{branch_of};
ghost use Rattle.store_core.specs.Files.{Files, KeepsFiles, swapped};
ghost use Rattle.branch_commit.specs.Settled.{Leaves};
ghost use Rattle.commit_builder.specs.declared.commit.Prepared.{Prepared as Version};
ghost use Rattle.branch_commit.specs.declared.outcome.Pending.{Pending as Pends};
ghost use Rattle.session_machine.specs.Machine.{lost_turn, won_turn};
ghost use Rattle.session_steps.specs.Open.{IsOpen};
ghost use Rattle.session_steps.specs.Steps.{HasPrepared, HasShape, IsStep, LeftBy};

use crate::fault::{RunFault, swap_fault};
use crate::session::Session;
use branch_commit::{SwapAnswer, SwapFault, swap};
use session_machine::{Answer, EventKind, Phase, Place, Stepped};
use std::alloc::Global;
use store_core::Store;

// The swap is won.
fn win(session: &mut Session) -> Stepped
    requires at { session.old.place.at < 2 ^ 63 }
    requires seen { session.old.place.seen + 1 < 2 ^ 32 }
    ensures turned { won_turn session.old.place.seen session.old.place ≡ record { current = session.old.place.seen + 1; place = session.new.place; stepped = result } }
    ensures names { session.new.names ≡ session.old.names }
{
    let version = session.place.seen + 1;
    let kind = EventKind::Swap { version, won: true };
    session.answer(kind, Answer::Committed(version))
}

// The swap is lost: the statement is validated anew, unless it has lost as many as the table lets it try again.
fn lose(session: &mut Session, retries: u32) -> Stepped
    requires at { session.old.place.at < 2 ^ 63 }
    requires seen { session.old.place.seen + 1 < 2 ^ 32 }
    ensures turned { session.old.place.lost + 1 < 2 ^ 32 → (current : ℕ)
        → lost_turn current session.old.place retries ≡ record { current = current; place = session.new.place; stepped = result } }
    ensures shape { IsSome session.old.pending → HasShape session.new }
    ensures names { session.new.names ≡ session.old.names }
{
    let version = session.place.seen + 1;
    let lost = session.place.lost.saturating_add(1);
    let kind = EventKind::Swap {
        version,
        won: false,
    };
    if session.place.lost >= retries {
        session.answer(kind, Answer::RetriesSpent(lost))
    } else {
        let place = Place {
            phase: Phase::Validate,
            lost,
            ..session.place
        };
        session.go_on(kind, place)
    }
}

// Whether the swap won, of the version that the session prepared.
fn swap_prepared<S: Store>(
    alloc: Global,
    store: &mut S,
    session: &Session,
) -> Result<SwapAnswer, SwapFault>
    requires prepared { IsSome session.now.prepared }
    requires missing { ForSome (S.files store.old) (λ old. (prepared : Version) → session.now.prepared ≡ Some prepared → map.get old prepared.name ≡ None) }
    ensures answer { IfOk result (λ answer. ForSome (S.files store.old) (λ old. answer ≡ SwapAnswer.Won)) }
    ensures leaves { (prepared : Version) → session.now.prepared ≡ Some prepared
        → Leaves prepared.name prepared.bytes (S.files store.old) (S.files store.new) result }
    ensures kept { KeepsFiles (S.files store.old) (S.files store.new) }
    ensures later { S.faults store.old ≤ S.faults store.new }
    ensures store { IsErrOf result SwapFault.Store → Rose (S.faults store.old) (S.faults store.new) × (0 < S.unsettled store.new) }
    ensures unknown { IsErrOf result SwapFault.Unknown → RoseTwice (S.faults store.old) (S.faults store.new) × (2 ≤ S.unsettled store.new) }
    ensures memory { IsErrOf result SwapFault.Memory → (S.files store.new ≡ S.files store.old) ⊎ Rose (S.faults store.old) (S.faults store.new) }
    ensures settled { OnOk result ((S.unsettled store.new ≡ 0) ⊎ ((S.unsettled store.new ≡ S.unsettled store.old)
        × (S.faults store.new ≡ S.faults store.old))) }
{
    match &session.prepared {
        Some(prepared) => {
            let name = prepared.name.as_str();
            swap(alloc, store, name, prepared.bytes.as_slice())
        }
        None => unreachable!(),
    }
}

// How often a lost swap is tried again, by the version that the statement was planned on.
fn retries_of(session: &Session) -> u32
    requires { IsSome session.now.pending }
    ensures { (pending : Pends) → session.now.pending ≡ Some pending → result ≡ pending.base.metadata.properties.retries }
{
    match &session.pending {
        Some(pending) => pending.base.metadata.properties.retries,
        None => unreachable!(),
    }
}

/// Swaps the next version in.
pub(crate) fn swap_step<S: Store>(
    alloc: Global,
    store: &mut S,
    session: &mut Session,
) -> Result<Stepped, RunFault>
    requires phase { session.old.place.phase ≡ Phase.Swap }
    requires at { session.old.place.at < 2 ^ 63 }
    requires shape { HasShape session.old }
    requires missing { ForSome (S.files store.old) (λ old. (prepared : Version) → session.old.prepared ≡ Some prepared → map.get old prepared.name ≡ None) }
    ensures step { IfOk result (λ stepped. ForSome (S.files store.old)
        (λ old. (table : Seq ℕ) (schema : TableSchema) (sources : Seq Source) (s : Statement) (current : ℕ)
        → branch_of s ≡ codes "main" → IsOpen table schema old current → HasPrepared table schema sources s old session.old
        → (new : Files) × (S.files store.new ≡ Some new)
        × IsStep table schema sources s old new current session.old.place session.new stepped)) }
    ensures ends { IfErr result (λ fault. (prepared : Version) → session.old.prepared ≡ Some prepared
        → LeftBy prepared.name prepared.bytes (S.files store.old) (S.files store.new) (S.faults store.old) (S.faults store.new)
        fault) }
    ensures swaps { (prepared : Version) → session.old.prepared ≡ Some prepared
        → (S.files store.new ≡ S.files store.old) ⊎ (S.files store.new ≡ option_map (swapped prepared.name prepared.bytes)
        (S.files store.old)) }
    ensures shape { OnOk result (HasShape session.new) }
    ensures names { session.new.names ≡ session.old.names }
    ensures kept { KeepsFiles (S.files store.old) (S.files store.new) }
    ensures later { S.faults store.old ≤ S.faults store.new }
    ensures store { IsErrOf result RunFault.Store → Rose (S.faults store.old) (S.faults store.new) × (0 < S.unsettled store.new) }
    ensures unknown { (number statement : ℕ) → IsErrOf result (RunFault.Unknown number statement)
        → RoseTwice (S.faults store.old) (S.faults store.new) × (2 ≤ S.unsettled store.new) }
    ensures at_hand { (number statement : ℕ) → IsErrOf result (RunFault.Unknown number statement)
        → (number ≡ session.old.place.session) × (statement ≡ session.old.place.at) }
    ensures quiet { OnOk result ((S.faults store.new ≡ S.faults store.old) ⊎ (S.unsettled store.new ≡ 0)) }
{
    let retries = retries_of(session);
    match swap_prepared(alloc, store, session) {
        Ok(SwapAnswer::Won) => Ok(win(session)),
        Ok(SwapAnswer::Lost) => Ok(lose(session, retries)),
        Err(fault) => Err(swap_fault(&session.place, fault)),
    }
}
