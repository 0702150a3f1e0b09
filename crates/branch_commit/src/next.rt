//! Whether a version can have a next one.
ghost use Rattle.std.specs.Prelude.{◌≡◌, ◌<◌, ◌^◌};
ghost use Rattle.branch_commit.specs.Next.{has_next, has_numbers, has_room, live_count};

use table_state::{BranchState, State};

/// The greatest number of a version.
const LAST_VERSION: u32 = u32::MAX;

/// The greatest sequence number.
const LAST_SEQUENCE: i64 = i64::MAX;

/// With so many snapshots and live files it is not known that there is another id.
const IDS_END: u128 = 1 << 62;

// How many files are live in the head.
fn live_count(head: &BranchState) -> u128
    ensures count { result ≡ live_count head.now }
    ensures small { result < 2 ^ 65 }
{
    match head {
        BranchState::Head { live, .. } => {
            live.data_files.len() as u128 + live.deletes.len() as u128
        }
        BranchState::Absent | BranchState::Empty => 0,
    }
}

// Whether there is an id for sure that no snapshot has, nor any live file's.
fn has_room(state: &State) -> bool
    ensures { result ≡ has_room state.now }
{
    state.metadata.snapshots.len() as u128 + live_count(&state.head) < IDS_END
}

/// Whether there is a next version and a next sequence number.
pub(crate) fn has_numbers(state: &State) -> bool
    ensures { result ≡ has_numbers state.now }
{
    state.version < LAST_VERSION && state.metadata.last_sequence < LAST_SEQUENCE
}

/// Whether there is a next version, a next sequence number and an id for its snapshot.
pub fn has_next(state: &State) -> bool
    ensures { result ≡ has_next state.now }
{
    state.version < LAST_VERSION && state.metadata.last_sequence < LAST_SEQUENCE && has_room(state)
}
