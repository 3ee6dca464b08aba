//! Votes of nodes.
//! Cited by ballot.rt; other crates.

/// A node's vote in an instance: whether it agrees.
#[derive(Clone, Copy, Debug, PartialEq, Eq)]
pub struct Vote {
    /// The number of the check or rollback that it is a vote in.
    pub instance: u64,
    /// The incarnation of the asker, as its ask said.
    pub incarnation: u64,
    /// Whether the node agrees.
    pub yes: bool,
}
