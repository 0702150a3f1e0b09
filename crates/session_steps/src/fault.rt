//! Why a step is not made to its end.
ghost use Rattle.std.specs.Prelude.{◌≡◌};
ghost use Rattle.session_steps.specs.Faults.{commit_fault, load_fault, plan_fault, swap_fault};

use branch_commit::{CommitFault, PlanFault, SwapFault};
use plain_types::Text;
use session_machine::Place;
use table_state::LoadFault;

/// Why a step is not made to its end.
#[derive(Debug, Drop)]
pub enum RunFault {
    /// A call of the store failed, and it is known of each swap whether it won.
    Store,
    /// The swap of the statement of this number failed, in the session of this number, and so did the read that was to
    /// settle it: the version may be there or not.
    Unknown { session: usize, statement: usize },
    /// The files of the table don't say what its branch holds.
    Table(LoadFault),
    /// The version of this name has another schema than the script was read by.
    Schema(Text),
    /// The version of this name has no next one.
    Limit(Text),
    Memory,
}

pub(crate) fn load_fault(fault: LoadFault) -> RunFault
    ensures { result ≡ load_fault fault }
{
    match fault {
        LoadFault::Store => RunFault::Store,
        LoadFault::Memory => RunFault::Memory,
        other => RunFault::Table(other),
    }
}

pub(crate) fn plan_fault(fault: PlanFault) -> RunFault
    ensures { result ≡ plan_fault fault }
{
    match fault {
        PlanFault::Load(fault) => load_fault(fault),
        PlanFault::Schema(name) => RunFault::Schema(name),
    }
}

pub(crate) fn commit_fault(fault: CommitFault) -> RunFault
    ensures { result ≡ commit_fault fault }
{
    match fault {
        CommitFault::Load(fault) => load_fault(fault),
        CommitFault::Limit(name) => RunFault::Limit(name),
    }
}

pub(crate) fn swap_fault(place: &Place, fault: SwapFault) -> RunFault
    ensures { result ≡ swap_fault place.now fault }
{
    match fault {
        SwapFault::Store => RunFault::Store,
        SwapFault::Unknown => RunFault::Unknown {
            session: place.session,
            statement: place.at,
        },
        SwapFault::Memory => RunFault::Memory,
    }
}
