//! The id of a new snapshot.
ghost use Rattle.std.specs.Prelude.{◌≡◌, IfOk, map, pos};
ghost use Rattle.plain_types.specs.Appends.{Appends};
ghost use Rattle.commit_builder.specs.SnapshotIds.{above, entry_snapshot, free_from, greatest, ids_of, next_id, snapshot_id};
ghost use Rattle.commit_manifests.specs.Sorting.{has_id};

use manifest_files::Entry;
use plain_types::List;
use std::alloc::{AllocError, Global};
use table_metadata::Snapshot;
use table_state::LiveSet;

fn put_snapshots(snapshots: &[Snapshot], ids: &mut Vec<i64>) -> Result<(), AllocError>
    ensures { Appends ids.old.items ids.new.items (map snapshot_id snapshots.now) result }
{
    for snapshot in snapshots {
        ids.push(snapshot.id)?;
    }
    Ok(())
}

fn put_entries(entries: &[Entry], ids: &mut Vec<i64>) -> Result<(), AllocError>
    ensures { Appends ids.old.items ids.new.items (map entry_snapshot entries.now) result }
{
    for entry in entries {
        ids.push(entry.snapshot)?;
    }
    Ok(())
}

/// The ids of all snapshots, and of the snapshots that added the live files.
fn ids_of(alloc: Global, snapshots: &[Snapshot], live: &LiveSet) -> Result<Vec<i64>, AllocError>
    ensures { IfOk result (λ ids. ids.items ≡ ids_of snapshots.now live.now) }
{
    let mut ids = Vec::new(alloc);
    put_snapshots(snapshots, &mut ids)?;
    put_entries(live.data_files.as_slice(), &mut ids)?;
    put_entries(live.deletes.as_slice(), &mut ids)?;
    Ok(ids)
}

#[tactic(auto, unfolding(crate::specs::SnapshotIds::greatest))]
fn greatest(ids: &[i64]) -> i64
    ensures { result ≡ greatest (pos 0) ids.now }
{
    let mut best = 0;
    let mut rest = ids;
    while let [id, after @ ..] = rest {
        best = (*id).max(best);
        rest = after;
    }
    best
}

#[tactic(auto, unfolding(commit_manifests::specs::Sorting::has_id))]
fn has_id(id: i64, ids: &[i64]) -> bool
    ensures { result ≡ has_id id ids.now }
{
    let mut rest = ids;
    while let [one, after @ ..] = rest {
        if *one == id {
            return true;
        }
        rest = after;
    }
    false
}

/// The next number, where there is one.
fn above(number: i64) -> i64
    ensures { result ≡ above number }
{
    if number < i64::MAX {
        number + 1
    } else {
        number
    }
}

/// The least positive number that none of the ids is: one of as many as there are ids, or the next.
#[tactic(auto, unfolding(crate::specs::SnapshotIds::free_from))]
fn least_free(ids: &[i64]) -> i64
    ensures { result ≡ free_from (pos 1) ids.now ids.now }
{
    let mut number = 1;
    let mut rest = ids;
    while let [_one, after @ ..] = rest {
        if !has_id(number, ids) {
            return number;
        }
        number = above(number);
        rest = after;
    }
    number
}

/// An id that no snapshot has, nor any live file's.
pub(crate) fn next_snapshot_id(
    alloc: Global,
    snapshots: &[Snapshot],
    live: &LiveSet,
) -> Result<i64, AllocError>
    ensures { IfOk result (λ id. id ≡ next_id (ids_of snapshots.now live.now)) }
{
    let ids = ids_of(alloc, snapshots, live)?;
    let best = greatest(ids.as_slice());
    if best < i64::MAX {
        Ok(above(best))
    } else {
        Ok(least_free(ids.as_slice()))
    }
}
