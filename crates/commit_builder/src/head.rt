//! The head of a branch, as a commit begins from it.
ghost use Rattle.std.specs.Prelude.{◌≡◌, true, int_lt, IfOk, []};
ghost use Rattle.commit_builder.specs.Commits.{live_in, numbers_of, parent_of};
ghost use Rattle.commit_builder.specs.SnapshotIds.{last};
ghost use Rattle.table_state.specs.States.{manifests_of};

use crate::snapshot_ids::next_snapshot_id;
use change_sets::AddedAs;
use manifest_files::ManifestRow;
use plain_types::List;
use std::alloc::{AllocError, Global};
use table_metadata::Metadata;
use table_state::{BranchState, LiveSet, State};

/// The manifests of a head, where there is one.
pub(crate) fn manifests_of(head: &BranchState) -> &[ManifestRow]
    ensures { result.now ≡ manifests_of head.now }
{
    match head {
        BranchState::Head { manifests, .. } => manifests.as_slice(),
        BranchState::Absent | BranchState::Empty => &[],
    }
}

/// The snapshot of a head.
pub(crate) fn parent_of(head: &BranchState) -> Option<i64>
    ensures { result ≡ parent_of head.now }
{
    match head {
        BranchState::Head { snapshot, .. } => Some(*snapshot),
        BranchState::Absent | BranchState::Empty => None,
    }
}

/// A live set without files.
pub(crate) fn no_files(alloc: Global) -> LiveSet
    ensures { result ≡ record { data_files = []; deletes = [] } }
{
    LiveSet {
        data_files: List::new(alloc),
        deletes: List::new(alloc),
    }
}

/// The live set of a head, or this one, without files.
pub(crate) fn live_in<'a>(head: &'a BranchState, none: &'a LiveSet) -> &'a LiveSet
    requires { none.now ≡ record { data_files = []; deletes = [] } }
    ensures { result.now ≡ live_in head.now }
{
    match head {
        BranchState::Head { live, .. } => live,
        BranchState::Absent | BranchState::Empty => none,
    }
}

/// What the commit gives the files that it adds.
pub(crate) fn numbers_of(
    alloc: Global,
    metadata: &Metadata,
    live: &LiveSet,
) -> Result<AddedAs, AllocError>
    requires { int_lt metadata.now.last_sequence last ≡ true }
    ensures { IfOk result (λ numbers. numbers ≡ numbers_of metadata.now.last_sequence metadata.now.snapshots live.now) }
{
    let snapshot = next_snapshot_id(alloc, metadata.snapshots.as_slice(), live)?;
    let seq = metadata.last_sequence + 1;
    Ok(AddedAs {
        seq,
        file_seq: seq,
        snapshot,
    })
}
