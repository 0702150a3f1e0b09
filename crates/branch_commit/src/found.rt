//! What validation finds, or why it can't tell.

use change_sets::Rule;
use commit_builder::Prepared;
use plain_types::Text;
use std::alloc::{AllocError, AllocFailed};
use table_state::LoadFault;

/// What validation finds of a statement.
#[derive(Debug, Drop)]
pub enum Found {
    /// It may be committed as this version.
    Good(Prepared),
    /// Nothing stands against it, and it changes nothing.
    Unchanged,
    /// The rule refuses it for the file, or the branch, of this name.
    Conflict { rule: Rule, name: Text },
}

/// What validation finds, at this version of the table.
#[derive(Debug, Drop)]
pub struct Validated {
    pub version: u32,
    pub found: Found,
}

/// Why a statement can't be validated.
#[derive(Debug, Drop)]
pub enum CommitFault {
    Load(LoadFault),
    /// There is no next version of the table, or no next sequence number or snapshot id, for the version of this name.
    Limit(Text),
}

impl From<LoadFault> for CommitFault {
    ghost use Rattle.std.specs.Prelude.{◌≡◌};
    ghost use Rattle.branch_commit.specs.declared.found.CommitFault.TheVariants.{Load};

    ghost from_gives = { λ fault e. e ≡ Load fault };

    fn from(fault: LoadFault) -> CommitFault {
        CommitFault::Load(fault)
    }
}

impl From<AllocError> for CommitFault {
    ghost use Rattle.std.specs.Prelude.{◌≡◌};
    ghost use Rattle.branch_commit.specs.declared.found.CommitFault.TheVariants.{Load};
    ghost use Rattle.table_state.specs.declared.load_fault.LoadFault.TheVariants.{Memory};

    ghost from_gives = { λ _ e. e ≡ Load Memory };

    fn from(_: AllocError) -> CommitFault {
        CommitFault::Load(LoadFault::Memory)
    }
}
