//! Validates a statement, and prepares its commit.
ghost use Rattle.std.specs.Prelude.{◌≡◌, ◌≤◌, ◌<◌, ◌+◌, ◌^◌, ◌⊎◌, true, is_some, IfErr, IfOk, IsErrOf};
ghost use Rattle.std.specs.Option.{ForSome};
ghost use Rattle.plain_types.specs.Causes.{HasCause};
ghost use Rattle.store_core.specs.Files.{KeepsFiles};
ghost use Rattle.table_names.specs.FileNames.{NoneFrom};
ghost use Rattle.commit_builder.specs.Puts.{PutsManifests};
ghost use Rattle.branch_commit.specs.Next.{has_next};
ghost use Rattle.branch_commit.specs.Validation.{CannotValidate, IsFound, IsLaid, IsValidated, is_no_change};

use crate::current::load_current;
use crate::found::{CommitFault, Found, Validated};
use crate::next::{has_next, has_numbers};
use change_sets::{ChangeSet, Plan, Said, verdict};
use commit_builder::prepare;
use manifest_files::Entry;
use plain_types::Text;
use std::alloc::Global;
use store_core::Store;
use table_names::{Names, version_name};
use table_state::{LoadFault, State};

fn is_no_change(change: &ChangeSet) -> bool
    ensures { result ≡ is_no_change change.now }
{
    change.removed.is_empty() && change.added_data.is_empty() && change.added_deletes.is_empty()
}

// What is found of a statement against whose change nothing stands.
fn lay<S: Store>(
    alloc: Global,
    store: &mut S,
    head: &State,
    plan: &Plan,
    change: &ChangeSet,
    names: &mut Names,
    now_ms: i64,
) -> Result<Found, LoadFault>
    requires next { has_next head.now ≡ true }
    requires free { ForSome (S.files store.old) (NoneFrom head.now.table names.old.run names.old.session names.old.next) }
    requires room { names.old.next < 2 ^ 127 }
    ensures found { IfOk result (λ found. ForSome (S.files store.old)
        (λ old. IsLaid plan.now change.now names.old now_ms head.now old (S.files store.new) names.new found)) }
    ensures session { (names.new.run ≡ names.old.run) × (names.new.session ≡ names.old.session) }
    ensures raised { (names.old.next ≤ names.new.next) × (names.new.next ≤ names.old.next + 2 ^ 100) }
    ensures free { ForSome (S.files store.new) (NoneFrom head.now.table names.new.run names.new.session names.new.next) }
    ensures others { PutsManifests head.now.table names.old (S.files store.old) (S.files store.new) }
    ensures told { is_some (S.files store.new) ≡ is_some (S.files store.old) }
    ensures kept { KeepsFiles (S.files store.old) (S.files store.new) }
    ensures kind { IfErr result (λ f. (f ≡ LoadFault.Store) ⊎ (f ≡ LoadFault.Memory)) }
    ensures unsettled { IsErrOf result LoadFault.Store → 0 < S.unsettled store.new }
    ensures cause { HasCause LoadFault.Store LoadFault.Memory (S.faults store.old) (S.faults store.new) result }
{
    if is_no_change(change) {
        return Ok(Found::Unchanged);
    }
    match prepare(alloc, store, head, plan, change, names, now_ms) {
        Ok(prepared) => Ok(Found::Good(prepared)),
        Err(fault) => Err(fault),
    }
}

// What is found of a statement against this head of its branch.
fn find<S: Store>(
    alloc: Global,
    store: &mut S,
    head: &State,
    plan: &Plan,
    change: &ChangeSet,
    base: &[Entry],
    names: &mut Names,
    now_ms: i64,
) -> Result<Found, LoadFault>
    requires next { has_next head.now ≡ true }
    requires free { ForSome (S.files store.old) (NoneFrom head.now.table names.old.run names.old.session names.old.next) }
    requires room { names.old.next < 2 ^ 127 }
    ensures found { IfOk result (λ found. ForSome (S.files store.old)
        (λ old. IsFound plan.now change.now base.now names.old now_ms head.now old (S.files store.new) names.new found)) }
    ensures session { (names.new.run ≡ names.old.run) × (names.new.session ≡ names.old.session) }
    ensures raised { (names.old.next ≤ names.new.next) × (names.new.next ≤ names.old.next + 2 ^ 100) }
    ensures free { ForSome (S.files store.new) (NoneFrom head.now.table names.new.run names.new.session names.new.next) }
    ensures others { PutsManifests head.now.table names.old (S.files store.old) (S.files store.new) }
    ensures told { is_some (S.files store.new) ≡ is_some (S.files store.old) }
    ensures kept { KeepsFiles (S.files store.old) (S.files store.new) }
    ensures kind { IfErr result (λ f. (f ≡ LoadFault.Store) ⊎ (f ≡ LoadFault.Memory)) }
    ensures unsettled { IsErrOf result LoadFault.Store → 0 < S.unsettled store.new }
    ensures cause { HasCause LoadFault.Store LoadFault.Memory (S.faults store.old) (S.faults store.new) result }
{
    let depended = change.depended.as_slice();
    match verdict(alloc, plan, depended, base, &head.head)? {
        Said::Conflict { rule, name } => Ok(Found::Conflict { rule, name }),
        Said::Good => lay(alloc, store, head, plan, change, names, now_ms),
    }
}

/// Validates a plan and its change, made of a branch with these data files, against the current version of the table, which is
/// read once. Where nothing stands against it, it puts the manifests and the list of the commit under the next names, and gives
/// the metadata of the next version.
pub fn validate<S: Store>(
    alloc: Global,
    store: &mut S,
    table: &str,
    plan: &Plan,
    change: &ChangeSet,
    base: &[Entry],
    names: &mut Names,
    now_ms: i64,
) -> Result<Validated, CommitFault>
    requires free { ForSome (S.files store.old) (NoneFrom table.now names.old.run names.old.session names.old.next) }
    requires room { names.old.next < 2 ^ 127 }
    ensures validated { IfOk result (λ validated. ForSome (S.files store.old)
        (λ old. IsValidated plan.now change.now base.now names.old now_ms table.now old (S.files store.new) names.new validated)) }
    ensures refused { IfErr result (λ fault. ForSome (S.files store.old) (λ old. CannotValidate table.now plan.now.branch old fault)) }
    ensures next { IfOk result (λ validated. validated.version + 1 < 2 ^ 32) }

    // Whatever it answers: the names that are left are free, and no file but those of new names changes.
    ensures session { (names.new.run ≡ names.old.run) × (names.new.session ≡ names.old.session) }
    ensures raised { (names.old.next ≤ names.new.next) × (names.new.next ≤ names.old.next + 2 ^ 100) }
    ensures free { ForSome (S.files store.new) (NoneFrom table.now names.new.run names.new.session names.new.next) }
    ensures others { PutsManifests table.now names.old (S.files store.old) (S.files store.new) }
    ensures told { is_some (S.files store.new) ≡ is_some (S.files store.old) }
    ensures kept { KeepsFiles (S.files store.old) (S.files store.new) }
    ensures unsettled { IsErrOf result (CommitFault.Load LoadFault.Store) → 0 < S.unsettled store.new }
    ensures cause { HasCause (CommitFault.Load LoadFault.Store) (CommitFault.Load LoadFault.Memory) (S.faults store.old) (S.faults store.new) result }
{
    let head = match load_current(alloc, store, table, plan.branch.as_str()) {
        Ok(head) => head,
        Err(fault) => return Err(CommitFault::Load(fault)),
    };
    let version = head.version;
    if !has_numbers(&head) {
        let name = version_name(alloc, table, version)?;
        return Err(CommitFault::Limit(Text::from_string(name)));
    }
    if !has_next(&head) {
        return Err(CommitFault::Load(LoadFault::Memory));
    }
    match find(alloc, store, &head, plan, change, base, names, now_ms) {
        Ok(found) => Ok(Validated { version, found }),
        Err(fault) => Err(CommitFault::Load(fault)),
    }
}
