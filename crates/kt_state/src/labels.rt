//! Tables of labels, one for each neighbour.
//! Cited by asking.rt, loading.rt, stored.rt, updating.rt; other crates.

ghost use Rattle.std.specs.Prelude.{◌≡◌, ◌<◌, length};
ghost use Rattle.kt_state.specs.Labels.{up_to, label_at, listed_at, first_at, reaches};
ghost use Rattle.kt_tuple.specs.Node.{node_number};

use kt_ckpt::MAX_PEERS;
use kt_link::Label;
use kt_tuple::NodeId;

/// Tables have an entry for each number that a neighbour can have, and for 0.
pub(crate) const TABLE_SIZE: u8 = MAX_PEERS + 1;

/// The label of the neighbour of this number in a checkpoint's list, which has the neighbours from 1 on.
pub(crate) fn listed_at(labels: &[Label], number: u8) -> Label
    ensures { result ≡ listed_at labels.now number }
{
    if number == 0 {
        return Label::default();
    }
    match labels.get(usize::from(number) - 1) {
        Some(label) => *label,
        None => Label::default(),
    }
}

/// Whether the label is the other or below it.
pub fn up_to(label: Label, other: Label) -> bool
    ensures { result ≡ up_to label other }
{
    label.incarnation < other.incarnation
        || (label.incarnation == other.incarnation && label.count <= other.count)
}

/// The node's entry of a table, `(0, 0)` where it has none.
pub fn label_at(table: &[Label], node: NodeId) -> Label
    ensures { result ≡ label_at table.now (node_number node) }
{
    match table.get(usize::from(node.number())) {
        Some(label) => *label,
        None => Label::default(),
    }
}

/// Whether the table has a first label of the node, and the label is that or above it.
pub fn reaches(table: &[Option<Label>], node: NodeId, label: Label) -> bool
    ensures { result ≡ reaches (first_at table.now (node_number node)) label }
{
    match table.get(usize::from(node.number())) {
        Some(Some(first)) => up_to(*first, label),
        _ => false,
    }
}
