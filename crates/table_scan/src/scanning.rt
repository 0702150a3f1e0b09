//! Reads the data files of a branch, and keeps those with a row that is hit.
ghost use Rattle.std.specs.Prelude.{◌≡◌, ◌<◌, ◌≤◌, ◌+◌, [], ◌∷◌, length, IfOk, IsErrOf};
ghost use Rattle.std.specs.Option.{ForSome};
ghost use Rattle.plain_types.specs.Answers.{AnswersTold};
ghost use Rattle.plain_types.specs.Causes.{HasCause};
ghost use Rattle.table_metadata.specs.Metadata.{parts};
ghost use Rattle.table_state.specs.Live.{data_files_of};
ghost use Rattle.table_scan.specs.Scanning.{AreCurrentFiles, ReadsCurrent, file_at, scanned_at, scanned_from};

use crate::live_rows::live_rows;
use crate::ordering::place_hit;
use change_sets::{ScannedFile, copy_entry};
use manifest_files::Entry;
use plain_types::List;
use sql_predicates::Pred;
use std::alloc::Global;
use store_core::Store;
use table_state::{LoadFault, State, data_files_of, read_data_file_at};

#[tactic(auto, unfolding(crate::specs::Scanning::file_at))]
fn read_file<S: Store>(
    alloc: Global,
    store: &mut S,
    state: &State,
    filter: &Pred,
    entry: &Entry,
) -> Result<ScannedFile, LoadFault>
    requires { ReadsCurrent (parts state.now.metadata) filter.now }
    ensures answers { AnswersTold LoadFault.Store LoadFault.Memory (λ file. file)
        result (S.files store.old) (λ files. file_at state.now.table (parts state.now.metadata) filter.now entry.now files) }
    ensures rows { IfOk result (λ file. AreCurrentFiles (parts state.now.metadata) (file ∷ [])) }
    ensures files { S.files store.new ≡ S.files store.old }
    ensures unsettled { IsErrOf result LoadFault.Store → 0 < S.unsettled store.new }
    ensures cause { HasCause LoadFault.Store LoadFault.Memory (S.faults store.old) (S.faults store.new) result }
    ensures reads { S.reads store.new ≤ S.reads store.old + 1 }
{
    let table = state.table.as_str();
    let path = entry.path.as_str();
    let rows = match read_data_file_at(alloc, store, table, &state.metadata, path) {
        Ok(rows) => rows,
        Err(fault) => return Err(fault),
    };
    let rows = live_rows(alloc, filter, rows)?;
    let entry = copy_entry(alloc, entry)?;
    Ok(ScannedFile { entry, rows })
}

#[tactic(auto, unfolding(crate::specs::Scanning::scanned_from))]
fn scan_files<S: Store>(
    alloc: Global,
    store: &mut S,
    state: &State,
    filter: &Pred,
    entries: &[Entry],
) -> Result<List<ScannedFile>, LoadFault>
    requires { ReadsCurrent (parts state.now.metadata) filter.now }
    ensures answers { AnswersTold LoadFault.Store LoadFault.Memory (λ scanned. scanned)
        result (S.files store.old) (λ files. scanned_from state.now.table (parts state.now.metadata) filter.now [] entries.now files) }
    ensures rows { IfOk result (λ scanned. AreCurrentFiles (parts state.now.metadata) scanned) }
    ensures files { S.files store.new ≡ S.files store.old }
    ensures unsettled { IsErrOf result LoadFault.Store → 0 < S.unsettled store.new }
    ensures cause { HasCause LoadFault.Store LoadFault.Memory (S.faults store.old) (S.faults store.new) result }
    ensures reads { S.reads store.new ≤ S.reads store.old + length entries.now }
{
    let mut scanned = Vec::new(alloc);
    let mut rest = entries;
    while let [entry, after @ ..] = rest {
        let file = read_file(alloc, store, state, filter, entry)?;
        place_hit(file, &mut scanned)?;
        rest = after;
    }
    Ok(List::from_vec(scanned))
}

/// The data files of a branch with a row of which the filter is True, in the byte order of their paths. Each data file is
/// read once, in the order of the live set.
pub fn scan<S: Store>(
    alloc: Global,
    store: &mut S,
    state: &State,
    filter: &Pred,
) -> Result<List<ScannedFile>, LoadFault>
    requires { ReadsCurrent (parts state.now.metadata) filter.now }
    ensures answers { AnswersTold LoadFault.Store LoadFault.Memory (λ scanned. scanned)
        result (S.files store.old) (λ files. scanned_at state.now.table (parts state.now.metadata) filter.now (data_files_of state.now.head) files) }
    ensures rows { IfOk result (λ scanned. AreCurrentFiles (parts state.now.metadata) scanned) }
    ensures files { S.files store.new ≡ S.files store.old }
    ensures unsettled { IsErrOf result LoadFault.Store → 0 < S.unsettled store.new }
    ensures cause { HasCause LoadFault.Store LoadFault.Memory (S.faults store.old) (S.faults store.new) result }
    ensures reads { S.reads store.new ≤ S.reads store.old + length (data_files_of state.now.head) }
{
    scan_files(alloc, store, state, filter, data_files_of(&state.head))
}
