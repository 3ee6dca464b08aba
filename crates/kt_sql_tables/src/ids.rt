//! The nodes, as the tables number them.
//! Cited by carrying.rt, cells.rt, old.rt, reads.rt, records.rt, rows.rt.

ghost use Rattle.std.specs.Prelude.{◌≡◌, ◌*◌, ◌<◌, MatchOption};
ghost use Rattle.kt_sql_tables.specs.Rows.{HasId, id_of, node_of};

use kt_tuple::NodeId;

/// How much a shard's id is above its own number: the ids below it are workers, and as many from it on are shards.
pub(crate) const SHARD_IDS: u8 = 100;

/// The node's id. A node whose own number is `SHARD_IDS` or more has none: a write of it is refused, and it reads as
/// one without a row (docs/DECISIONS.md#stores).
pub(crate) fn id_of(node: NodeId) -> Option<u32>
    ensures { MatchOption result (¬ HasId node) (λ id. HasId node × (id ≡ id_of node)) }
{
    match node {
        NodeId::Worker(n) if n < SHARD_IDS => Some(u32::from(n)),
        NodeId::Shard(n) if n < SHARD_IDS => Some(u32::from(SHARD_IDS) + u32::from(n)),
        _ => None,
    }
}

/// The node that has the id; `None` from twice `SHARD_IDS` on.
pub(crate) fn node_of(id: u64) -> Option<NodeId>
    ensures { MatchOption result (¬ (id < 2 * SHARD_IDS))
        (λ node. HasId node × (node ≡ node_of id) × (id_of node ≡ id)) }
{
    if id < u64::from(SHARD_IDS) {
        Some(NodeId::Worker(id as u8))
    } else if id < 2 * u64::from(SHARD_IDS) {
        Some(NodeId::Shard((id - u64::from(SHARD_IDS)) as u8))
    } else {
        None
    }
}
