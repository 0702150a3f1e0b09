//! What a plan brings, or why a statement can't be planned.

use change_sets::{ChangeSet, Plan};
use plain_types::Text;
use sql_statements::SqlRefusal;
use std::alloc::AllocError;
use table_state::{LoadFault, State};

/// A statement that is to be validated: its branch as it was read, its plan and its change, whose files are put.
#[derive(Drop)]
pub struct Pending {
    pub base: State,
    pub plan: Plan,
    pub change: ChangeSet,
}

/// What a plan brings.
#[derive(Drop)]
pub enum Outcome {
    /// The version has no branch of the statement's name.
    NoBranch,
    Refused(SqlRefusal),
    Ready(Pending),
}

/// What a plan brings on this version.
#[derive(Drop)]
pub struct Planned {
    pub version: u32,
    pub outcome: Outcome,
}

/// Why a statement can't be planned.
#[derive(Debug, Drop)]
pub enum PlanFault {
    Load(LoadFault),
    /// The version of this name has another schema than the statement was read by.
    Schema(Text),
}

impl From<AllocError> for PlanFault {
    ghost use Rattle.std.specs.Prelude.{◌≡◌};
    ghost use Rattle.branch_commit.specs.declared.outcome.PlanFault.TheVariants.{Load};
    ghost use Rattle.table_state.specs.declared.load_fault.LoadFault.TheVariants.{Memory};

    ghost from_gives = { λ _ e. e ≡ Load Memory };

    fn from(_: AllocError) -> PlanFault {
        PlanFault::Load(LoadFault::Memory)
    }
}
