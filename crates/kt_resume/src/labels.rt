//! Whether the labels that checkpoints have of their nodes' messages fit together.
//! Cited by judging.rt.

ghost use Rattle.std.specs.Prelude.{◌≡◌, ◌↔◌, IsTrue, not, ◌||◌};
ghost use Rattle.std.specs.List.{list_all};
ghost use Rattle.kt_state.specs.Labels.{listed_at, up_to};
ghost use Rattle.kt_state.specs.Node.{node_number};
ghost use Rattle.kt_scenario.specs.Scene.{SceneModel, is_node};
ghost use Rattle.kt_model.specs.Resumed.{heard_from, nodes_of, sent_to};
ghost use Rattle.kt_resume.specs.Found.{content_of};
ghost use Rattle.kt_resume.specs.auxiliary.Labels.{LabelsFit, are_across, link_fits};

use crate::found::{Found, checkpoint_of, incarnation_of};
use kt_link::Label;
use kt_tuple::NodeId;

/// Whether the labels of the node, which is one of these nodes of the scene, fit: of each neighbour it has heard no
/// more than that one has sent to it, and it has sent nothing in an incarnation above its own.
pub(crate) fn labels_fit(nodes: &[NodeId], found: &[Found], node: NodeId) -> bool
    ensures { (scene : SceneModel) → nodes.now ≡ nodes_of scene → IsTrue (is_node scene node)
        → (IsTrue result ↔ LabelsFit scene (content_of found.now) node) }
{
    all_fit(nodes, found, node)
}

/// Whether that is so of those of these nodes that are of the other kind.
fn all_fit(nodes: &[NodeId], found: &[Found], node: NodeId) -> bool
    ensures { result ≡ list_all (λ q. not (are_across node q) || link_fits (content_of found.now) node q) nodes.now }
{
    nodes.iter().all(|other| !are_across(node, *other) || link_fits(found, node, *other))
}

/// Whether one is a worker and the other a shard.
fn are_across(node: NodeId, other: NodeId) -> bool
    ensures { result ≡ are_across node other }
{
    match (node, other) {
        (NodeId::Worker(_), NodeId::Shard(_)) | (NodeId::Shard(_), NodeId::Worker(_)) => true,
        (NodeId::Worker(_), NodeId::Worker(_)) | (NodeId::Shard(_), NodeId::Shard(_)) => false,
    }
}

fn link_fits(found: &[Found], node: NodeId, other: NodeId) -> bool
    ensures { result ≡ link_fits (content_of found.now) node other }
{
    up_to(heard_from(found, node, other), sent_to(found, other, node))
        && sent_to(found, node, other).incarnation <= incarnation_of(found, node)
}

/// The label of the last message that the node has sent to the other.
fn sent_to(found: &[Found], node: NodeId, other: NodeId) -> Label
    ensures { result ≡ sent_to (content_of found.now) node other }
{
    match checkpoint_of(found, node) {
        Some(checkpoint) => listed_at(checkpoint.sent(), other.number()),
        None => Label::default(),
    }
}

/// The label of the last message that the node has heard from the other.
fn heard_from(found: &[Found], node: NodeId, other: NodeId) -> Label
    ensures { result ≡ heard_from (content_of found.now) node other }
{
    match checkpoint_of(found, node) {
        Some(checkpoint) => listed_at(checkpoint.received(), other.number()),
        None => Label::default(),
    }
}

/// The label of the neighbour of this number in a checkpoint's list, which has the neighbours from 1 on.
fn listed_at(labels: &[Label], number: u8) -> Label
    ensures { result ≡ listed_at labels.now number }
{
    if number == 0 {
        return Label::default();
    }
    match labels.get(usize::from(number) - 1) {
        Some(label) => *label,
        None => Label::default(),
    }
}

/// Whether the label is the other or below it.
fn up_to(label: Label, other: Label) -> bool
    ensures { result ≡ up_to label other }
{
    label.incarnation < other.incarnation
        || (label.incarnation == other.incarnation && label.count <= other.count)
}
