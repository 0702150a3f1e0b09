//! A branch at the current version of a table.
ghost use Rattle.std.specs.Prelude.{◌≡◌, ◌≢◌, ◌<◌, Err, IfOk, IfErr, IsErrOf};
ghost use Rattle.std.specs.Option.{ForSome};
ghost use Rattle.plain_types.specs.Causes.{HasCause};
ghost use Rattle.branch_commit.specs.Current.{IsCurrent, current_branch};

use plain_types::Text;
use std::alloc::Global;
use store_core::Store;
use table_names::current_version;
use table_state::{LoadFault, State, load};

/// Loads a branch at the current version of the table. A table without a version is a missing file of the table's name.
pub fn load_current<S: Store>(
    alloc: Global,
    store: &mut S,
    table: &str,
    branch: &str,
) -> Result<State, LoadFault>
    ensures place { IfOk result (λ state. (state.table ≡ table.now) × (state.branch ≡ branch.now)) }
    ensures ok { IfOk result (λ state. ForSome (S.files store.old) (λ files. IsCurrent table.now branch.now files state)) }
    ensures err { IfErr result (λ f. f ≢ LoadFault.Store → f ≢ LoadFault.Memory
        → ForSome (S.files store.old) (λ files. current_branch table.now branch.now files ≡ Err f)) }
    ensures files { S.files store.new ≡ S.files store.old }
    ensures unsettled { IsErrOf result LoadFault.Store → 0 < S.unsettled store.new }
    ensures cause { HasCause LoadFault.Store LoadFault.Memory (S.faults store.old) (S.faults store.new) result }
{
    match current_version(alloc, store, table) {
        Ok(Some(version)) => load(alloc, store, table, version, branch),
        Ok(None) => Err(LoadFault::Missing(Text::copy_of(alloc, table)?)),
        Err(fault) => Err(LoadFault::from(fault)),
    }
}
