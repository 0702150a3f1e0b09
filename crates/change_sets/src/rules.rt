//! The rules of conflicts.
ghost use Rattle.std.specs.Prelude.{◌≡◌, IfOk, option_map};
ghost use Rattle.change_sets.specs.Verdict.{conflict_by, gained, is_absent, lost, of_branch, of_files, verdict};

use crate::change::Plan;
use crate::least_path::least_missing;
use crate::rule::Rule;
use crate::said::Said;
use manifest_files::Entry;
use plain_types::Text;
use std::alloc::{AllocError, Global};
use table_state::{BranchState, data_files_of};

/// Whether there is no such branch.
pub fn is_absent(head: &BranchState) -> bool
    ensures { result ≡ is_absent head.now }
{
    matches!(head, BranchState::Absent)
}

// A conflict by the rule, where there is such a file.
fn conflict_by(alloc: Global, rule: Rule, path: Option<&str>) -> Result<Said, AllocError>
    ensures { IfOk result (λ said. said ≡ conflict_by rule (option_map (λ path. path.now) path.entry)) }
{
    match path {
        Some(path) => Ok(Said::Conflict {
            rule,
            name: Text::copy_of(alloc, path)?,
        }),
        None => Ok(Said::Good),
    }
}

// Whether a file that the statement read is gone.
fn lost(alloc: Global, depended: &[Entry], head: &[Entry]) -> Result<Said, AllocError>
    ensures { IfOk result (λ said. said ≡ lost depended.now head.now) }
{
    conflict_by(alloc, Rule::V2, least_missing(depended, head))
}

// Whether the branch has gained a file that may hold a row of the filter.
fn gained(
    alloc: Global,
    serializable: bool,
    base: &[Entry],
    head: &[Entry],
) -> Result<Said, AllocError>
    ensures { IfOk result (λ said. said ≡ gained serializable base.now head.now) }
{
    if serializable {
        conflict_by(alloc, Rule::V1, least_missing(head, base))
    } else {
        Ok(Said::Good)
    }
}

fn of_files(
    alloc: Global,
    serializable: bool,
    depended: &[Entry],
    base: &[Entry],
    head: &[Entry],
) -> Result<Said, AllocError>
    ensures { IfOk result (λ said. said ≡ of_files serializable depended.now base.now head.now) }
{
    match lost(alloc, depended, head)? {
        Said::Good => gained(alloc, serializable, base, head),
        conflict => Ok(conflict),
    }
}

// Whether a branch stands against the statement by being there, or by being absent.
fn of_branch(alloc: Global, against: bool, branch: &str) -> Result<Said, AllocError>
    ensures { IfOk result (λ said. said ≡ of_branch against branch.now) }
{
    let name = if against { Some(branch) } else { None };
    conflict_by(alloc, Rule::V0, name)
}

/// Whether a statement that was planned on a branch with these data files, and that read some of them, may be committed onto
/// this head of it, or the first rule that forbids it, with the least path in byte order of the files that do. So far there
/// are no delete files, and nothing is known of the values in a data file.
pub fn verdict(
    alloc: Global,
    plan: &Plan,
    depended: &[Entry],
    base: &[Entry],
    head: &BranchState,
) -> Result<Said, AllocError>
    ensures { IfOk result (λ said. said ≡ verdict plan.now depended.now base.now head.now) }
{
    let absent = is_absent(head);
    let branch = plan.branch.as_str();
    if plan.creates {
        of_branch(alloc, !absent, branch)
    } else if absent || plan.only_branch {
        of_branch(alloc, absent, branch)
    } else {
        let files = data_files_of(head);
        of_files(alloc, plan.serializable, depended, base, files)
    }
}
