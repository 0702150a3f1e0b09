//! Changes of a branch, and the entries that they give a version.
ghost use Rattle.std.specs.Prelude.{◌≡◌, IfOk};
ghost use Rattle.change_sets.specs.Laid.{as_added, as_kept, as_removed};

use crate::copies::copy_entry;
use manifest_files::Entry;
use plain_types::{List, Text};
use sql_predicates::Pred;
use std::alloc::{AllocError, Global};

/// What a statement's plan fixes, before it is validated and committed.
#[derive(Debug, Drop)]
pub struct Plan {
    /// The version that was read.
    pub version: u32,
    pub branch: Text,
    /// Whether a file that the branch has gained may hold no row of the filter.
    pub serializable: bool,
    /// Whether the branch alone has to be there: of INSERT, and of the commands on branches.
    pub only_branch: bool,
    /// Whether this is a DELETE that names its rows in delete files.
    pub merge_on_read_delete: bool,
    /// Whether the branch is made.
    pub creates: bool,
}

/// What a statement changes.
#[derive(Debug, Drop)]
pub struct ChangeSet {
    pub removed: List<Entry>,
    pub added_data: List<Entry>,
    pub added_deletes: List<Entry>,
    /// The rows that the statement acts on, among those of the branch.
    pub filter: Pred,
    /// The data files that the statement read.
    pub depended: List<Entry>,
}

/// What a version gives the files that it adds.
#[derive(Clone, Copy, Debug, PartialEq, Eq)]
pub struct AddedAs {
    /// The data sequence number, by which deletes apply.
    pub seq: i64,
    /// The number of the commit that adds the file.
    pub file_seq: i64,
    pub snapshot: i64,
}

/// The entry of a file that a version adds.
pub fn added(alloc: Global, entry: &Entry, numbers: AddedAs) -> Result<Entry, AllocError>
    ensures { IfOk result (λ e. e ≡ as_added numbers entry.now) }
{
    let mut copy = copy_entry(alloc, entry)?;
    copy.status = 1;
    copy.snapshot = numbers.snapshot;
    copy.seq = numbers.seq;
    copy.file_seq = numbers.file_seq;
    Ok(copy)
}

/// The entry of a file that an earlier version added, in a manifest that is written anew.
pub fn kept(alloc: Global, entry: &Entry) -> Result<Entry, AllocError>
    ensures { IfOk result (λ e. e ≡ as_kept entry.now) }
{
    let mut copy = copy_entry(alloc, entry)?;
    copy.status = 0;
    Ok(copy)
}

/// The entry of a file that a version with this snapshot removes.
pub fn removed(alloc: Global, entry: &Entry, snapshot: i64) -> Result<Entry, AllocError>
    ensures { IfOk result (λ e. e ≡ as_removed snapshot entry.now) }
{
    let mut copy = copy_entry(alloc, entry)?;
    copy.status = 2;
    copy.snapshot = snapshot;
    Ok(copy)
}
