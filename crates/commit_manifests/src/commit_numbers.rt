/// The numbers of the commit that writes a manifest.
#[derive(Clone, Copy, Debug, PartialEq, Eq)]
pub struct CommitNumbers {
    /// The sequence number.
    pub seq: i64,
    /// The snapshot's id.
    pub snapshot: i64,
}
