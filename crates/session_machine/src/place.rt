//! Where a session stands.

/// What a statement does next.
#[derive(Clone, Copy, Debug, PartialEq, Eq)]
pub enum Phase {
    /// It plans its change on the current version.
    Plan,
    /// Its change is validated against the current version.
    Validate,
    /// It swaps in the version behind the one that was seen.
    Swap,
}

/// Where a session stands in its work.
#[derive(Clone, Copy, Debug, PartialEq, Eq)]
pub struct Place {
    /// Its number among the sessions of the run.
    pub session: usize,
    /// The number of its statement at hand, from 0 on.
    pub at: usize,
    pub phase: Phase,
    /// The version that the statement was planned on.
    pub planned: u32,
    /// The version that its change was last validated against.
    pub seen: u32,
    /// How many swaps the statement has lost.
    pub lost: u32,
}
