//! Counts the rows of a branch, data file by data file.
ghost use Rattle.std.specs.Prelude.{◌≡◌, ◌≢◌, ◌<◌, [], List as Seq, length, Ok, IfOk, IfErr, IsErrOf};
ghost use Rattle.std.specs.Option.{ForSome};
ghost use Rattle.plain_types.specs.Causes.{HasCause};
ghost use Rattle.row_values.specs.declared.value.Value.{Value};
ghost use Rattle.table_metadata.specs.Metadata.{parts};
ghost use Rattle.table_state.specs.Files.{data_file_at};
ghost use Rattle.table_state.specs.Live.{data_rows};
ghost use Rattle.schedule_runner.specs.Rows.{current_rows};

use crate::blocks::count_datums;
use branch_commit::load_current;
use manifest_files::Entry;
use std::alloc::Global;
use store_core::Store;
use table_metadata::Metadata;
use table_state::{LoadFault, data_files_of, read_data_file_at, read_file};

// How many rows a data file has. The file is read whole only where its blocks can't be counted.
fn count_in_file<S: Store>(
    alloc: Global,
    store: &mut S,
    table: &str,
    metadata: &Metadata,
    path: &str,
) -> Result<u64, LoadFault>
    ensures ok { IfOk result (λ count. ForSome (S.files store.old)
        (λ files. (rows : Seq (Seq Value)) → data_file_at table.now (parts metadata.now) path.now files ≡ Ok rows
        → count ≡ length rows)) }
    ensures err { IfErr result (λ f. f ≢ LoadFault.Store → f ≢ LoadFault.Memory
        → ForSome (S.files store.old) (λ files. (rows : Seq (Seq Value))
        → data_file_at table.now (parts metadata.now) path.now files ≡ Ok rows → ⊥)) }
    ensures files { S.files store.new ≡ S.files store.old }
    ensures unsettled { IsErrOf result LoadFault.Store → 0 < S.unsettled store.new }
    ensures cause { HasCause LoadFault.Store LoadFault.Memory (S.faults store.old) (S.faults store.new) result }
{
    let bytes = read_file(alloc, store, table, metadata.location.as_str(), path)?;
    match count_datums(alloc, bytes.as_slice())? {
        Some(count) => Ok(count),
        None => {
            let rows = read_data_file_at(alloc, store, table, metadata, path)?;
            Ok(rows.len() as u64)
        }
    }
}

// A count that `u64` can't hold is want of memory: no machine holds so many rows.
fn count_in_files<S: Store>(
    alloc: Global,
    store: &mut S,
    table: &str,
    metadata: &Metadata,
    entries: &[Entry],
) -> Result<u64, LoadFault>
    ensures ok { IfOk result (λ count. ForSome (S.files store.old)
        (λ files. (rows : Seq (Seq Value)) → data_rows table.now (parts metadata.now) [] entries.now files ≡ Ok rows
        → count ≡ length rows)) }
    ensures err { IfErr result (λ f. f ≢ LoadFault.Store → f ≢ LoadFault.Memory
        → ForSome (S.files store.old) (λ files. (rows : Seq (Seq Value))
        → data_rows table.now (parts metadata.now) [] entries.now files ≡ Ok rows → ⊥)) }
    ensures files { S.files store.new ≡ S.files store.old }
    ensures unsettled { IsErrOf result LoadFault.Store → 0 < S.unsettled store.new }
    ensures cause { HasCause LoadFault.Store LoadFault.Memory (S.faults store.old) (S.faults store.new) result }
{
    let mut count: u64 = 0;
    let mut rest = entries;
    while let [entry, after @ ..] = rest {
        let more = count_in_file(alloc, store, table, metadata, entry.path.as_str())?;
        count = count.checked_add(more).ok_or(LoadFault::Memory)?;
        rest = after;
    }
    Ok(count)
}

/// How many rows a branch has at the current version of the table, where they can be read: data files are counted by their
/// blocks, and their datums are not read.
pub fn count_rows<S: Store>(
    alloc: Global,
    store: &mut S,
    table: &str,
    branch: &str,
) -> Result<u64, LoadFault>
    ensures counted { IfOk result (λ count. ForSome (S.files store.old)
        (λ files. (rows : Seq (Seq Value)) → current_rows table.now branch.now files ≡ Ok rows → count ≡ length rows)) }
    ensures refused { IfErr result (λ f. f ≢ LoadFault.Store → f ≢ LoadFault.Memory
        → ForSome (S.files store.old) (λ files. (rows : Seq (Seq Value)) → current_rows table.now branch.now files ≡ Ok rows → ⊥)) }
    ensures files { S.files store.new ≡ S.files store.old }
    ensures unsettled { IsErrOf result LoadFault.Store → 0 < S.unsettled store.new }
    ensures cause { HasCause LoadFault.Store LoadFault.Memory (S.faults store.old) (S.faults store.new) result }
{
    let state = load_current(alloc, store, table, branch)?;
    count_in_files(
        alloc,
        store,
        table,
        &state.metadata,
        data_files_of(&state.head),
    )
}
