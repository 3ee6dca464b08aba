//! The names of nodes, and their order: first the workers, then the shards, each by their numbers.
//! Cited by equality.rt, writing.rt; other crates.

ghost use Rattle.std.specs.Prelude.{◌≡◌, ◌<◌};

/// The most workers of a scene, and so the greatest number of one.
pub const MAX_WORKERS: u8 = 16;

/// The most shards of a scene, and so the greatest number of one.
pub const MAX_SHARDS: u8 = 8;

/// The most nodes of a scene.
pub const MAX_NODES: usize = MAX_WORKERS as usize + MAX_SHARDS as usize;

/// A node's name. Any number is a name; whether the node is there, the scene says. The order is node order: first the
/// workers, then the shards, each by their numbers.
#[derive(Clone, Copy, Debug, PartialEq, Eq, PartialOrd, Ord, Hash)]
pub enum NodeId {
    /// A worker, counted from 1.
    Worker(u8),
    /// A shard, counted from 1.
    Shard(u8),
}

impl NodeId {
    ghost use Rattle.kt_tuple.specs.Node.{is_before, names, node_index, node_number};

    /// The number of the node among its kind.
    pub fn number(self) -> u8
        ensures { result ≡ node_number self }
    {
        match self {
            NodeId::Worker(number) | NodeId::Shard(number) => number,
        }
    }

    /// Whether the node comes before the other in node order.
    pub fn is_before(self, other: NodeId) -> bool
        ensures { result ≡ is_before self other }
    {
        self < other
    }

    /// A number of its own for each node, below the 512 names that there are: a place in a table of nodes.
    pub fn index(self) -> usize
        ensures value { result ≡ node_index self }
        ensures below { result < names }
    {
        match self {
            NodeId::Worker(n) => 2 * n as usize,
            NodeId::Shard(n) => 2 * n as usize + 1,
        }
    }
}

/// The names of workers that a scene can have, in node order.
pub const ALL_WORKERS: [NodeId; MAX_WORKERS as usize] = [
    NodeId::Worker(1),
    NodeId::Worker(2),
    NodeId::Worker(3),
    NodeId::Worker(4),
    NodeId::Worker(5),
    NodeId::Worker(6),
    NodeId::Worker(7),
    NodeId::Worker(8),
    NodeId::Worker(9),
    NodeId::Worker(10),
    NodeId::Worker(11),
    NodeId::Worker(12),
    NodeId::Worker(13),
    NodeId::Worker(14),
    NodeId::Worker(15),
    NodeId::Worker(16),
];

/// The names that a scene can have, in node order.
pub const ALL_NODES: [NodeId; MAX_NODES] = [
    NodeId::Worker(1),
    NodeId::Worker(2),
    NodeId::Worker(3),
    NodeId::Worker(4),
    NodeId::Worker(5),
    NodeId::Worker(6),
    NodeId::Worker(7),
    NodeId::Worker(8),
    NodeId::Worker(9),
    NodeId::Worker(10),
    NodeId::Worker(11),
    NodeId::Worker(12),
    NodeId::Worker(13),
    NodeId::Worker(14),
    NodeId::Worker(15),
    NodeId::Worker(16),
    NodeId::Shard(1),
    NodeId::Shard(2),
    NodeId::Shard(3),
    NodeId::Shard(4),
    NodeId::Shard(5),
    NodeId::Shard(6),
    NodeId::Shard(7),
    NodeId::Shard(8),
];
