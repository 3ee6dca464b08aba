//! Whether a checkpoint is of its node, and short enough.
//! Cited by judging.rt.

ghost use Rattle.std.specs.Prelude.{◌≡◌, ◌↔◌, ◌+◌, ◌<◌, ◌^◌, IfOk, IfSome, IsTrue, None, filter, length};
ghost use Rattle.std.specs.List.{list_all};
ghost use Rattle.kt_tuple.specs.Node.{is_before};
ghost use Rattle.kt_ckpt.specs.Acts.{is_act_of};
ghost use Rattle.kt_scenario.specs.Scene.{SceneModel};
ghost use Rattle.kt_model.specs.Cut.{permanent_length};
ghost use Rattle.kt_model.specs.Resumed.{IsOf, PassedAsMany, all_held};
ghost use Rattle.kt_model.specs.State.{role_of};
ghost use Rattle.kt_resume.specs.Found.{content_of};

use crate::found::{Found, checkpoint_of};
use kt_ckpt::{Ckpt, LogAct, State};
use kt_model::MAX_NOTES;
use kt_tuple::NodeId;
use std::alloc::{AllocError, Global};

/// Whether the node's log and those of the nodes before it, as found, have together no more acts than a history may
/// have notes.
pub(crate) fn is_short(nodes: &[NodeId], found: &[Found], node: NodeId) -> bool
    ensures { IsTrue result ↔ (all_held (content_of found.now) (filter (λ q. is_before q node) nodes.now)
        + permanent_length (content_of found.now) node < 2 ^ 32) }
{
    match room_behind(nodes, found, node) {
        Some(room) => acts_of(found, node) <= room,
        None => false,
    }
}

/// How many notes are left behind the logs of those of these nodes that come before the node, if they have room.
fn room_behind(nodes: &[NodeId], found: &[Found], node: NodeId) -> Option<u64>
    ensures none { result ≡ None
        → MAX_NOTES < all_held (content_of found.now) (filter (λ q. is_before q node) nodes.now) }
    ensures some { IfSome result (λ room.
        room + all_held (content_of found.now) (filter (λ q. is_before q node) nodes.now) ≡ MAX_NOTES) }
{
    let mut room = MAX_NOTES;
    for other in nodes {
        if other.is_before(node) {
            room = room.checked_sub(acts_of(found, *other))?;
        }
    }
    Some(room)
}

/// How many acts the node's checkpoint counts.
pub(crate) fn acts_of(found: &[Found], node: NodeId) -> u64
    ensures { result ≡ permanent_length (content_of found.now) node }
{
    match checkpoint_of(found, node) {
        Some(checkpoint) => checkpoint.line_len(),
        None => 0,
    }
}

/// Whether the checkpoint is the node's own, with a label sent to and heard from each neighbour, of which a worker has
/// so many shards and a shard so many workers.
pub(crate) fn is_of(shards: u8, workers: u8, node: NodeId, checkpoint: &Ckpt) -> bool
    ensures { (scene : SceneModel) → scene.shards ≡ shards → length scene.scripts ≡ workers
        → (IsTrue result ↔ IsOf scene node checkpoint.now) }
{
    let peers = match node {
        NodeId::Worker(_) => shards,
        NodeId::Shard(_) => workers,
    };
    checkpoint.node() == node
        && checkpoint.sent().len() == usize::from(peers)
        && checkpoint.received().len() == usize::from(peers)
        && has_passed_as_many(checkpoint.state())
}

/// Whether a worker asked no more than it passed commands.
fn has_passed_as_many(state: &State) -> bool
    ensures { IsTrue result ↔ PassedAsMany state.now }
{
    match state {
        State::Worker(worker) => worker.number() <= u64::from(worker.pc()),
        State::Shard(_) => true,
    }
}

/// Whether each act that the checkpoint holds may stand in the log of its node.
pub(crate) fn are_its_acts(alloc: Global, checkpoint: &Ckpt) -> Result<bool, AllocError>
    ensures { IfOk result (λ are. are ≡ list_all (is_act_of checkpoint.now.node) checkpoint.now.acts) }
{
    let acts = checkpoint.acts().listed(alloc)?;
    Ok(are_all_of(checkpoint.node(), &acts))
}

fn are_all_of(node: NodeId, acts: &[&LogAct]) -> bool
    ensures { result ≡ list_all (λ a. is_act_of node a.now) acts.now }
{
    acts.iter().all(|act| act.may_be_of(node))
}
