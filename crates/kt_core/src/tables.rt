//! What the table of nodes says of them.
//! Cited by world.rt.

ghost use Rattle.std.specs.Prelude.{◌≡◌, None, map};
ghost use Rattle.std.specs.List.{list_all};
ghost use Rattle.std.specs.Option.{option_map};
ghost use Rattle.kt_core.specs.auxiliary.Rows.{row_view};
ghost use Rattle.kt_shard.specs.Table.{at};
ghost use Rattle.kt_tuple.specs.Node.{node_index};
ghost use Rattle.kt_tuple.specs.declared.node.NodeId.TheVariants as ids;
ghost use Rattle.kt_core.specs.auxiliary.Rows.{is_steady_code};
ghost use Rattle.kt_model.specs.Headline.{lent_by};

use kt_node::{Mode, Node};
use kt_space::Bag;
use kt_tuple::NodeId;

/// Whether there is no node in the row, or one that is not down and does not roll back.
fn is_steady_row(row: &Option<Node>) -> bool
    ensures { result ≡ is_steady_code row.now }
{
    match row {
        None => true,
        Some(node) => matches!(node.mode(), Mode::Up | Mode::Held),
    }
}

/// Whether no node is down or rolls back.
pub(crate) fn are_steady(nodes: &[Option<Node>]) -> bool
    ensures { result ≡ list_all is_steady_code nodes.now }
{
    nodes.iter().all(|row| is_steady_row(row))
}

/// The bag of the shard of this number, where it is not down.
pub(crate) fn bag_at(nodes: &[Option<Node>], number: u8) -> Option<&Bag>
    ensures { option_map (λ b. b.now.tuples) result ≡
        lent_by (at None (map row_view nodes.now) (node_index (ids.Shard number))) }
{
    match nodes.get(NodeId::Shard(number).index()) {
        Some(Some(node)) => Some(node.shard()?.bag()),
        _ => None,
    }
}
