// The branch of a version.
ghost use Rattle.std.specs.Prelude.{◌≡◌, ◌≢◌, ◌<◌, ◌≤◌, ◌+◌, [], length, Err, IfOk, IfErr, IsErrOf};
ghost use Rattle.std.specs.Option.{ForSome};
ghost use Rattle.plain_types.specs.Answers.{AnswersTold};
ghost use Rattle.plain_types.specs.Causes.{HasCause};
ghost use Rattle.plain_types.specs.Steps.{fault_as};
ghost use Rattle.table_metadata.specs.Metadata.{IsMetadataOf, metadata_of, parts};
ghost use Rattle.table_state.specs.Files.{bytes_under, list_at};
ghost use Rattle.table_state.specs.Live.{live_of, without_head};
ghost use Rattle.table_state.specs.Loading.{
  files_to_load,
  loaded_at,
  loaded_head,
  loaded_snapshot,
  manifests_at,
  manifests_under,
  read_version,
  rows_or_none,
};
ghost use Rattle.table_metadata.specs.ById.{snapshot_with};
ghost use Rattle.table_state.specs.States.{IsStateOf, IsVersionOf};

use crate::branches::head_of;
use crate::files::read_list_at;
use crate::gathered::{Gathered, gather};
use crate::live_set::{BranchState, LiveSet};
use crate::load_fault::LoadFault;
use crate::state::{LiveCount, State};
use plain_types::{List, Text};
use std::alloc::Global;
use store_core::{Blob, ReadAnswer, Store};
use table_metadata::{Metadata, MetadataFault, Snapshot, read_metadata, snapshot_with};
use table_names::version_name;

// A branch, and how much each manifest of its head holds live.
#[derive(Drop)]
struct Loaded {
    head: BranchState,
    held: List<LiveCount>,
}

#[tactic(auto, using(crate::proofs::ReadCounts::one_more))]
fn read_bytes<S: Store>(alloc: Global, store: &mut S, name: &str) -> Result<Blob, LoadFault>
    ensures answers { AnswersTold LoadFault.Store LoadFault.Memory (λ bytes. bytes) result (S.files store.old) (λ files. bytes_under name.now name.now files) }
    ensures files { S.files store.new ≡ S.files store.old }
    ensures unsettled { IsErrOf result LoadFault.Store → 0 < S.unsettled store.new }
    ensures cause { HasCause LoadFault.Store LoadFault.Memory (S.faults store.old) (S.faults store.new) result }
    ensures reads { S.reads store.new ≤ S.reads store.old + 1 }
{
    match store.read(alloc, name) {
        Ok(ReadAnswer::Found(bytes)) => Ok(bytes),
        Ok(ReadAnswer::Missing) => Err(LoadFault::Missing(Text::copy_of(alloc, name)?)),
        Err(fault) => Err(LoadFault::from(fault)),
    }
}

fn metadata_in(alloc: Global, bytes: &[u8]) -> Result<Metadata, LoadFault>
    ensures ok { IfOk result (λ metadata. IsMetadataOf bytes.now metadata) }
    ensures err { IfErr result (λ f. f ≢ LoadFault.Memory → fault_as LoadFault.Metadata (metadata_of bytes.now) ≡ Err f) }
    ensures inside { IsErrOf result LoadFault.Store → ⊥ }
{
    match read_metadata(alloc, bytes) {
        Ok(metadata) => Ok(metadata),
        Err(MetadataFault::Memory) => Err(LoadFault::Memory),
        Err(fault) => Err(LoadFault::Metadata(fault)),
    }
}

fn read_version<S: Store>(
    alloc: Global,
    store: &mut S,
    table: &str,
    version: u32,
) -> Result<Metadata, LoadFault>
    ensures ok { IfOk result (λ metadata. ForSome (S.files store.old) (λ files. IsVersionOf table.now version files metadata)) }
    ensures err { IfErr result (λ f. f ≢ LoadFault.Store → f ≢ LoadFault.Memory
        → ForSome (S.files store.old) (λ files. read_version table.now version files ≡ Err f)) }
    ensures files { S.files store.new ≡ S.files store.old }
    ensures unsettled { IsErrOf result LoadFault.Store → 0 < S.unsettled store.new }
    ensures cause { HasCause LoadFault.Store LoadFault.Memory (S.faults store.old) (S.faults store.new) result }
    ensures reads { S.reads store.new ≤ S.reads store.old + 1 }
{
    let name = version_name(alloc, table, version)?;
    let bytes = read_bytes(alloc, store, name.as_str())?;
    metadata_in(alloc, bytes.as_slice())
}

#[tactic(auto, unfolding(crate::specs::Loading::loaded_snapshot))]
fn load_snapshot<S: Store>(
    alloc: Global,
    store: &mut S,
    table: &str,
    metadata: &Metadata,
    snapshot: &Snapshot,
) -> Result<Loaded, LoadFault>
    ensures answers { AnswersTold LoadFault.Store LoadFault.Memory (λ loaded. loaded)
        result (S.files store.old) (λ files. loaded_snapshot table.now (parts metadata.now) snapshot.now files) }
    ensures files { S.files store.new ≡ S.files store.old }
    ensures unsettled { IsErrOf result LoadFault.Store → 0 < S.unsettled store.new }
    ensures cause { HasCause LoadFault.Store LoadFault.Memory (S.faults store.old) (S.faults store.new) result }
    ensures reads { ForSome (S.files store.old) (λ files. S.reads store.new
        ≤ S.reads store.old + 1 + length (rows_or_none (list_at table.now (parts metadata.now) snapshot.now.list files))) }
{
    let rows = read_list_at(alloc, store, table, metadata, snapshot.list.as_str())?;
    let Gathered {
        data_files,
        deletes,
        counts,
    } = gather(alloc, store, table, metadata, rows.as_slice())?;
    let live = LiveSet {
        data_files: List::from_vec(data_files),
        deletes: List::from_vec(deletes),
    };
    Ok(Loaded {
        head: BranchState::Head {
            snapshot: snapshot.id,
            manifests: rows,
            live,
        },
        held: List::from_vec(counts),
    })
}

#[tactic(auto, unfolding(crate::specs::Loading::loaded_head))]
fn load_head<S: Store>(
    alloc: Global,
    store: &mut S,
    table: &str,
    metadata: &Metadata,
    branch: &str,
    id: i64,
) -> Result<Loaded, LoadFault>
    ensures answers { AnswersTold LoadFault.Store LoadFault.Memory (λ loaded. loaded)
        result (S.files store.old) (λ files. loaded_head table.now (parts metadata.now) branch.now id files) }
    ensures files { S.files store.new ≡ S.files store.old }
    ensures unsettled { IsErrOf result LoadFault.Store → 0 < S.unsettled store.new }
    ensures cause { HasCause LoadFault.Store LoadFault.Memory (S.faults store.old) (S.faults store.new) result }
    ensures reads { ForSome (S.files store.old) (λ files. S.reads store.new
        ≤ S.reads store.old + 1 + length (manifests_under table.now (parts metadata.now) (snapshot_with id (parts metadata.now).snapshots) files)) }
{
    match snapshot_with(id, metadata.snapshots.as_slice()) {
        Some(snapshot) => load_snapshot(alloc, store, table, metadata, snapshot),
        None => {
            let name = Text::copy_of(alloc, branch)?;
            Err(LoadFault::Metadata(MetadataFault::Ref(name)))
        }
    }
}

// A branch without a snapshot: `main`, or none.
fn without_head(alloc: Global, branch: &str) -> Loaded
    ensures { result ≡ record { head = without_head branch.now; held = [] } }
{
    let head = if branch == "main" {
        BranchState::Empty
    } else {
        BranchState::Absent
    };
    Loaded {
        head,
        held: List::from_vec(Vec::new(alloc)),
    }
}

#[tactic(auto, unfolding(crate::specs::Loading::loaded_at))]
fn load_branch<S: Store>(
    alloc: Global,
    store: &mut S,
    table: &str,
    metadata: &Metadata,
    branch: &str,
) -> Result<Loaded, LoadFault>
    ensures answers { AnswersTold LoadFault.Store LoadFault.Memory (λ loaded. loaded)
        result (S.files store.old) (λ files. loaded_at table.now (parts metadata.now) branch.now files) }
    ensures files { S.files store.new ≡ S.files store.old }
    ensures unsettled { IsErrOf result LoadFault.Store → 0 < S.unsettled store.new }
    ensures cause { HasCause LoadFault.Store LoadFault.Memory (S.faults store.old) (S.faults store.new) result }
    ensures reads { ForSome (S.files store.old) (λ files. S.reads store.new
        ≤ S.reads store.old + 1 + length (manifests_at table.now (parts metadata.now) branch.now files)) }
{
    match head_of(branch, metadata.refs.as_slice()) {
        Some(id) => load_head(alloc, store, table, metadata, branch, id),
        None => Ok(without_head(alloc, branch)),
    }
}

/// Loads a branch at a version. Each file of the metadata, the manifest list and the manifests is read once.
pub fn load<S: Store>(
    alloc: Global,
    store: &mut S,
    table: &str,
    version: u32,
    branch: &str,
) -> Result<State, LoadFault>
    ensures place { IfOk result (λ state. (state.table ≡ table.now) × (state.branch ≡ branch.now) × (state.version ≡ version)) }
    ensures ok { IfOk result (λ state. ForSome (S.files store.old) (λ files. IsStateOf table.now version branch.now files state)) }
    ensures err { IfErr result (λ f. f ≢ LoadFault.Store → f ≢ LoadFault.Memory
        → ForSome (S.files store.old) (λ files. live_of table.now version branch.now files ≡ Err f)) }
    ensures files { S.files store.new ≡ S.files store.old }
    ensures unsettled { IsErrOf result LoadFault.Store → 0 < S.unsettled store.new }
    ensures cause { HasCause LoadFault.Store LoadFault.Memory (S.faults store.old) (S.faults store.new) result }
    ensures reads { ForSome (S.files store.old) (λ files. S.reads store.new ≤ S.reads store.old + files_to_load table.now version branch.now files) }
{
    let metadata = match read_version(alloc, store, table, version) {
        Ok(metadata) => metadata,
        Err(fault) => return Err(fault),
    };
    let Loaded { head, held } = match load_branch(alloc, store, table, &metadata, branch) {
        Ok(loaded) => loaded,
        Err(fault) => return Err(fault),
    };
    Ok(State {
        version,
        metadata,
        table: Text::copy_of(alloc, table)?,
        branch: Text::copy_of(alloc, branch)?,
        head,
        held,
    })
}
