//! A branch of a version, with what it holds.

use crate::live_set::BranchState;
use plain_types::{List, Text};
use table_metadata::Metadata;

/// How many of the live files of a branch one of its manifests holds.
#[derive(Clone, Copy, Debug, PartialEq, Eq)]
pub struct LiveCount {
    pub data_files: usize,
    pub deletes: usize,
}

/// A branch at a version of the table.
#[derive(Drop)]
pub struct State {
    pub version: u32,
    pub metadata: Metadata,
    /// The folder of the table in the store.
    pub table: Text,
    pub branch: Text,
    pub head: BranchState,
    /// One for each manifest of the head. Files stand in the live set in the order of the manifests, so these tell which
    /// manifest holds a file.
    pub held: List<LiveCount>,
}
