//! What a store holds of its nodes.
//! Cited by judging.rt, labels.rt, logs.rt, parts.rt; other crates.

ghost use Rattle.std.specs.Prelude.{◌≡◌};
ghost use Rattle.std.specs.Option.{option_copied};
ghost use Rattle.kt_store.specs.Content.{row_of};
ghost use Rattle.kt_model.specs.Cut.{permanent_of};
ghost use Rattle.kt_resume.specs.Found.{content_of};
ghost use Rattle.kt_resume.specs.auxiliary.Found.{found_of};

use kt_ckpt::Ckpt;
use kt_tuple::NodeId;

/// What a store holds of a node.
#[derive(Debug, Drop)]
pub struct Found {
    /// Whose it is.
    pub node: NodeId,
    /// The node's last incarnation.
    pub incarnation: u64,
    /// The checkpoint that counts as permanent; `None` where it is the initial one.
    pub checkpoint: Option<Ckpt>,
    /// Whether the instance of its tentative checkpoint, if it has one, is on the board.
    pub has_instance_row: bool,
}

/// What was found of the node, if anything was.
fn found_of(found: &[Found], node: NodeId) -> Option<&Found>
    ensures { option_copied result ≡ found_of found.now node }
{
    match found.split_first() {
        Some((first, _)) if first.node == node => Some(first),
        Some((_, later)) => found_of(later, node),
        None => None,
    }
}

/// The checkpoint of the node that counts as permanent.
pub(crate) fn checkpoint_of(found: &[Found], node: NodeId) -> Option<&Ckpt>
    ensures { option_copied result ≡ permanent_of (content_of found.now) node }
{
    match found_of(found, node) {
        Some(held) => held.checkpoint.as_ref(),
        None => None,
    }
}

/// The node's last incarnation: the first, where nothing was found of it.
pub(crate) fn incarnation_of(found: &[Found], node: NodeId) -> u64
    ensures { result ≡ (row_of (content_of found.now) node).incarnation }
{
    match found_of(found, node) {
        Some(held) => held.incarnation,
        None => 1,
    }
}
