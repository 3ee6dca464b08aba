//! Who asked for a vote.
//! Cited by ballot.rt; other crates.

use kt_tuple::NodeId;

/// Who asked a node, and in which incarnation. A node votes when its own ballot has come out and the ask is long gone,
/// and its vote repeats the asker's incarnation: so a ballot remembers both.
#[derive(Clone, Copy, Debug, PartialEq, Eq)]
pub struct Asker {
    /// The node that asked.
    pub node: NodeId,
    /// Its incarnation when it asked.
    pub incarnation: u64,
}
