//! Prepares the next version of a table.
ghost use Rattle.std.specs.Prelude.{◌≡◌, ◌<◌, ◌≤◌, ◌+◌, ◌^◌, ◌⊎◌, [], true, int_lt, is_some, length, option_map, IfOk, IfErr, IsErrOf, OnOk};
ghost use Rattle.std.specs.List.{AllByRecursion};
ghost use Rattle.std.specs.Option.{ForSome};
ghost use Rattle.plain_types.specs.Causes.{HasCause};
ghost use Rattle.store_core.specs.Files.{KeepsFiles, with_file};
ghost use Rattle.table_names.specs.FileNames.{NoneFrom, writer_text};
ghost use Rattle.manifest_writer.specs.ListDatum.{list_text, IsRow};
ghost use Rattle.table_names.specs.Paths.{folder_of};
ghost use Rattle.commit_builder.specs.Commits.{
  AreSpelled,
  IsSpelled,
  drafts_in,
  drawn,
  files_after,
  list_names,
  next_name,
  numbers_in,
  operation_of,
  manifests_after,
  rows_in,
  schema_of,
  snapshot_at,
};
ghost use Rattle.commit_builder.specs.Preparing.{Prepares, PreparesBy};
ghost use Rattle.commit_builder.specs.Puts.{PutsManifests};
ghost use Rattle.commit_builder.specs.SnapshotIds.{last};
ghost use Rattle.commit_manifests.specs.Sorting.{seen_sorted, sorted_of};
ghost use Rattle.table_state.specs.States.{manifests_of};

use crate::head::{live_in, manifests_of, no_files, numbers_of, parent_of};
use crate::writing::put_manifests;
use change_sets::{AddedAs, ChangeSet, Plan};
use commit_manifests::{Commit, CommitNumbers, Sorted};
use cow_writer::schema_of;
use manifest_files::ManifestRow;
use manifest_writer::write_list;
use metadata_writer::text_with_snapshot;
use plain_types::{List, Text};
use row_values::TableSchema;
use std::alloc::{AllocError, Global};
use store_core::{Blob, Store};
use table_metadata::Snapshot;
use table_names::{Folder, Names, folder_of, put_next, version_name};
use table_state::{LiveSet, LoadFault, State};

/// The metadata of the next version, which isn't in the store yet.
#[derive(Debug, Drop)]
pub struct Prepared {
    pub version: u32,
    /// The name of the version's metadata in the store.
    pub name: Text,
    pub bytes: Blob,
}

// The operation of the snapshot's summary.
fn operation_of(change: &ChangeSet) -> &'static str
    ensures { result.now ≡ operation_of change.now }
{
    if change.added_data.is_empty() {
        "delete"
    } else if change.removed.is_empty() && change.added_deletes.is_empty() {
        "append"
    } else {
        "overwrite"
    }
}

// Puts the manifest list of these rows under the next name, and gives its path.
fn put_list<S: Store>(
    alloc: Global,
    store: &mut S,
    head: &State,
    rows: &[ManifestRow],
    names: &mut Names,
) -> Result<Text, LoadFault>
    requires free { ForSome (S.files store.old) (NoneFrom head.now.table names.old.run names.old.session names.old.next) }
    requires room { names.old.next + 1 < 2 ^ 128 }
    ensures path { IfOk result (λ path. path ≡ next_name (folder_of head.now.metadata.location) names.old) }
    ensures spelled { IfOk result (λ path. AllByRecursion IsRow rows.now × (length (list_text rows.now) < 2 ^ 63)) }
    ensures files { OnOk result (S.files store.new ≡ option_map (with_file (next_name head.now.table names.old) (list_text rows.now)) (S.files store.old)) }
    ensures names { OnOk result (names.new ≡ drawn names.old) }
    ensures session { (names.new.run ≡ names.old.run) × (names.new.session ≡ names.old.session) }
    ensures raised { (names.old.next ≤ names.new.next) × (names.new.next ≤ names.old.next + 1) }
    ensures free { ForSome (S.files store.new) (NoneFrom head.now.table names.new.run names.new.session names.new.next) }
    ensures others { PutsManifests head.now.table names.old (S.files store.old) (S.files store.new) }
    ensures told { is_some (S.files store.new) ≡ is_some (S.files store.old) }
    ensures kept { KeepsFiles (S.files store.old) (S.files store.new) }
    ensures reads { S.reads store.new ≡ S.reads store.old }
    ensures kind { IfErr result (λ f. (f ≡ LoadFault.Store) ⊎ (f ≡ LoadFault.Memory)) }
    ensures unsettled { IsErrOf result LoadFault.Store → 0 < S.unsettled store.new }
    ensures cause { HasCause LoadFault.Store LoadFault.Memory (S.faults store.old) (S.faults store.new) result }
{
    let folder = folder_of(head.metadata.location.as_str());
    let path = Text::from_string(names.metadata_path(alloc, folder)?);
    let bytes = write_list(alloc, rows)?.into_vec();
    let bytes = bytes.as_slice();
    let table = head.table.as_str();
    match put_next(alloc, store, table, names, Folder::Metadata, bytes) {
        Ok(()) => Ok(path),
        Err(fault) => Err(LoadFault::from(fault)),
    }
}

// The manifests that the commit writes, by the current schema, and those of the head that stand.
fn sorted_in(
    alloc: Global,
    head: &State,
    schema: &TableSchema,
    numbers: AddedAs,
    change: &ChangeSet,
    live: &LiveSet,
) -> Result<Sorted, AllocError>
    ensures { IfOk result (λ s. seen_sorted s ≡ sorted_of head.now.metadata.specs schema.now change.now.removed numbers change.now (manifests_of head.now.head) head.now.held live.now) }
{
    let commit = Commit {
        specs: head.metadata.specs.as_slice(),
        schema,
        numbers,
        removed: change.removed.as_slice(),
    };
    let rows = manifests_of(&head.head);
    commit.sorted(alloc, change, rows, head.held.as_slice(), live)
}

// Puts the manifests of the commit, and gives the rows of its list.
fn put_rows<S: Store>(
    alloc: Global,
    store: &mut S,
    head: &State,
    schema: &TableSchema,
    numbers: AddedAs,
    change: &ChangeSet,
    names: &mut Names,
) -> Result<Vec<ManifestRow>, LoadFault>
    requires numbers { numbers ≡ numbers_in head.now }
    requires schema { schema.now ≡ schema_of head.now }
    requires free { ForSome (S.files store.old) (NoneFrom head.now.table names.old.run names.old.session names.old.next) }
    requires room { names.old.next < 2 ^ 127 }
    ensures rows { IfOk result (λ rows. rows.items ≡ rows_in head.now change.now names.old) }
    ensures spelled { IfOk result (λ rows. AllByRecursion (IsSpelled head.now (schema_of head.now)) (drafts_in head.now change.now)) }
    ensures files { OnOk result (S.files store.new ≡ option_map (manifests_after head.now change.now names.old) (S.files store.old)) }
    ensures names { OnOk result (names.new ≡ list_names head.now change.now names.old) }
    ensures session { (names.new.run ≡ names.old.run) × (names.new.session ≡ names.old.session) }
    ensures raised { (names.old.next ≤ names.new.next) × (names.new.next ≤ names.old.next + 2 ^ 64) }
    ensures free { ForSome (S.files store.new) (NoneFrom head.now.table names.new.run names.new.session names.new.next) }
    ensures others { PutsManifests head.now.table names.old (S.files store.old) (S.files store.new) }
    ensures told { is_some (S.files store.new) ≡ is_some (S.files store.old) }
    ensures kept { KeepsFiles (S.files store.old) (S.files store.new) }
    ensures reads { S.reads store.new ≡ S.reads store.old }
    ensures kind { IfErr result (λ f. (f ≡ LoadFault.Store) ⊎ (f ≡ LoadFault.Memory)) }
    ensures unsettled { IsErrOf result LoadFault.Store → 0 < S.unsettled store.new }
    ensures cause { HasCause LoadFault.Store LoadFault.Memory (S.faults store.old) (S.faults store.new) result }
{
    let none = no_files(alloc);
    let live = live_in(&head.head, &none);
    let Sorted {
        drafts,
        mut standing,
    } = sorted_in(alloc, head, schema, numbers, change, live)?;
    let commit = CommitNumbers {
        seq: numbers.file_seq,
        snapshot: numbers.snapshot,
    };
    let closed = drafts.closed.as_slice();
    let mut rows = put_manifests(alloc, store, head, schema, commit, closed, names)?;
    rows.append(&mut standing)?;
    Ok(rows)
}

// Puts the manifests and the list of the commit, and gives the path of the list.
fn put_files<S: Store>(
    alloc: Global,
    store: &mut S,
    head: &State,
    numbers: AddedAs,
    change: &ChangeSet,
    names: &mut Names,
) -> Result<Text, LoadFault>
    requires numbers { numbers ≡ numbers_in head.now }
    requires free { ForSome (S.files store.old) (NoneFrom head.now.table names.old.run names.old.session names.old.next) }
    requires room { names.old.next < 2 ^ 127 }
    ensures path { IfOk result (λ path. path ≡ next_name (folder_of head.now.metadata.location) (list_names head.now change.now names.old)) }
    ensures spelled { IfOk result (λ path. AreSpelled head.now change.now names.old) }
    ensures files { OnOk result (S.files store.new ≡ option_map (files_after head.now change.now names.old) (S.files store.old)) }
    ensures names { OnOk result (names.new ≡ drawn (list_names head.now change.now names.old)) }
    ensures session { (names.new.run ≡ names.old.run) × (names.new.session ≡ names.old.session) }
    ensures raised { (names.old.next ≤ names.new.next) × (names.new.next ≤ names.old.next + 2 ^ 100) }
    ensures free { ForSome (S.files store.new) (NoneFrom head.now.table names.new.run names.new.session names.new.next) }
    ensures others { PutsManifests head.now.table names.old (S.files store.old) (S.files store.new) }
    ensures told { is_some (S.files store.new) ≡ is_some (S.files store.old) }
    ensures kept { KeepsFiles (S.files store.old) (S.files store.new) }
    ensures reads { S.reads store.new ≡ S.reads store.old }
    ensures kind { IfErr result (λ f. (f ≡ LoadFault.Store) ⊎ (f ≡ LoadFault.Memory)) }
    ensures unsettled { IsErrOf result LoadFault.Store → 0 < S.unsettled store.new }
    ensures cause { HasCause LoadFault.Store LoadFault.Memory (S.faults store.old) (S.faults store.new) result }
{
    let id = head.metadata.current_schema;
    let plain = no_columns(alloc, id);
    let schema = schema_of(&head.metadata, &plain);
    let rows = match put_rows(alloc, store, head, schema, numbers, change, names) {
        Ok(rows) => rows,
        Err(fault) => return Err(fault),
    };
    put_list(alloc, store, head, rows.as_slice(), names)
}

// A schema without columns.
fn no_columns(alloc: Global, id: i32) -> TableSchema
    ensures { result ≡ record { id = id; columns = [] } }
{
    TableSchema {
        id,
        columns: List::new(alloc),
    }
}

// The snapshot of the commit, whose list has this path.
fn snapshot_at(
    alloc: Global,
    head: &State,
    numbers: AddedAs,
    change: &ChangeSet,
    list: Text,
    now_ms: i64,
) -> Result<Snapshot, AllocError>
    ensures { IfOk result (λ s. s ≡ snapshot_at head.now numbers change.now list now_ms) }
{
    Ok(Snapshot {
        id: numbers.snapshot,
        parent: parent_of(&head.head),
        seq: numbers.file_seq,
        timestamp_ms: now_ms.max(head.metadata.last_updated_ms),
        list,
        operation: Text::copy_of(alloc, operation_of(change))?,
        schema: Some(head.metadata.current_schema),
    })
}

// The version after the head's, with this snapshot on the branch.
fn prepared_with(
    alloc: Global,
    head: &State,
    branch: &str,
    snapshot: &Snapshot,
    names: &Names,
    now_ms: i64,
) -> Result<Prepared, AllocError>
    requires { head.now.version + 1 < 2 ^ 32 }
    ensures { IfOk result (PreparesBy head.now branch.now snapshot.now (writer_text names.now.run names.now.session names.now.next) now_ms) }
{
    let version = head.version + 1;
    let writer = names.writer_text(alloc)?;
    let metadata = &head.metadata;
    let bytes = text_with_snapshot(alloc, metadata, branch, snapshot, writer.as_str(), now_ms)?;
    Ok(Prepared {
        version,
        name: Text::from_string(version_name(alloc, head.table.as_str(), version)?),
        bytes,
    })
}

/// Puts the manifests and the manifest list of a change on the head of a branch, and gives the metadata of the next
/// version. Nothing is read: what each manifest of the head holds is known from its load.
pub fn prepare<S: Store>(
    alloc: Global,
    store: &mut S,
    head: &State,
    plan: &Plan,
    change: &ChangeSet,
    names: &mut Names,
    now_ms: i64,
) -> Result<Prepared, LoadFault>
    requires version { head.now.version + 1 < 2 ^ 32 }
    requires sequence { int_lt head.now.metadata.last_sequence last ≡ true }
    requires free { ForSome (S.files store.old) (NoneFrom head.now.table names.old.run names.old.session names.old.next) }
    requires room { names.old.next < 2 ^ 127 }
    ensures prepared { IfOk result (Prepares head.now plan.now.branch change.now names.old now_ms) }
    ensures spelled { IfOk result (λ prepared. AreSpelled head.now change.now names.old) }
    ensures files { OnOk result (S.files store.new ≡ option_map (files_after head.now change.now names.old) (S.files store.old)) }
    ensures names { OnOk result (names.new ≡ drawn (list_names head.now change.now names.old)) }

    // Whatever it answers: the names that are left are free, and no file but those of new names changes.
    ensures session { (names.new.run ≡ names.old.run) × (names.new.session ≡ names.old.session) }
    ensures raised { (names.old.next ≤ names.new.next) × (names.new.next ≤ names.old.next + 2 ^ 100) }
    ensures free { ForSome (S.files store.new) (NoneFrom head.now.table names.new.run names.new.session names.new.next) }
    ensures others { PutsManifests head.now.table names.old (S.files store.old) (S.files store.new) }
    ensures told { is_some (S.files store.new) ≡ is_some (S.files store.old) }
    ensures kept { KeepsFiles (S.files store.old) (S.files store.new) }
    ensures reads { S.reads store.new ≡ S.reads store.old }
    ensures kind { IfErr result (λ f. (f ≡ LoadFault.Store) ⊎ (f ≡ LoadFault.Memory)) }
    ensures unsettled { IsErrOf result LoadFault.Store → 0 < S.unsettled store.new }
    ensures cause { HasCause LoadFault.Store LoadFault.Memory (S.faults store.old) (S.faults store.new) result }
{
    let none = no_files(alloc);
    let numbers = numbers_of(alloc, &head.metadata, live_in(&head.head, &none))?;
    let list = put_files(alloc, store, head, numbers, change, names)?;
    let snapshot = snapshot_at(alloc, head, numbers, change, list, now_ms)?;
    let branch = plan.branch.as_str();
    Ok(prepared_with(alloc, head, branch, &snapshot, names, now_ms)?)
}
