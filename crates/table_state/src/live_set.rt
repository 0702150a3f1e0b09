ghost use Rattle.std.specs.Prelude.{◌≡◌};
ghost use Rattle.table_state.specs.Live.{data_files_of};

use manifest_files::{Entry, ManifestRow};
use plain_types::List;

/// The live entries of a snapshot.
#[derive(Debug, PartialEq, Drop)]
pub struct LiveSet {
    pub data_files: List<Entry>,
    pub deletes: List<Entry>,
}

/// A branch of a version.
#[derive(Debug, PartialEq, Drop)]
pub enum BranchState {
    /// No branch has the name.
    Absent,
    /// `main`, without a snapshot.
    Empty,
    Head {
        snapshot: i64,
        manifests: List<ManifestRow>,
        live: LiveSet,
    },
}

/// The data files of a branch.
pub fn data_files_of(head: &BranchState) -> &[Entry]
    ensures { result.now ≡ data_files_of head.now }
{
    match head {
        BranchState::Head { live, .. } => live.data_files.as_slice(),
        BranchState::Absent | BranchState::Empty => &[],
    }
}
