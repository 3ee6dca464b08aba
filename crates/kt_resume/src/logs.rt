//! The history of the acts that checkpoints hold.
//! Cited by other crates.

ghost use Rattle.std.specs.Prelude.{◌≡◌, ◌≤◌, All, IfOk, length, map};
ghost use Rattle.kt_tuple.specs.declared.node.TheConstants.{MAX_WORKERS};
ghost use Rattle.kt_model.specs.Cut.{permanent_length};
ghost use Rattle.kt_model.specs.Resumed.{acts_of, history_of};
ghost use Rattle.kt_resume.specs.Found.{scene_of, content_of};
ghost use Rattle.kt_resume.specs.auxiliary.Next.{log_of};

use crate::found::{Found, checkpoint_of};
use crate::placing::place_all;
use crate::scene::nodes_of;
use crate::unplaced::Unplaced;
use kt_ckpt::{Ckpt, LogAct};
use kt_history::History;
use kt_script::Script;
use kt_tuple::NodeId;
use std::alloc::{AllocError, Global};

/// The history of a world of so many shards and a worker for each script that goes on from what was found: the acts of
/// all checkpoints, each placed once its cause is. Nothing of what was found is taken.
pub fn history_of(
    alloc: Global,
    shards: u8,
    scripts: &[Script],
    found: &[Found],
) -> Result<History, AllocError>
    requires few { length scripts.now ≤ MAX_WORKERS }
    ensures notes { IfOk result (λ h.
        h.notes ≡ history_of (scene_of shards scripts.now) (content_of found.now)) }
{
    let nodes = nodes_of(alloc, shards, scripts.len() as u8)?;
    let mut logs = logs_of(alloc, &nodes, found)?;
    place_all(alloc, &mut logs)
}

/// For each of these nodes the acts that its checkpoint holds, none where there is no checkpoint.
fn logs_of(alloc: Global, nodes: &[NodeId], found: &[Found]) -> Result<Vec<Unplaced>, AllocError>
    ensures logs { IfOk result (λ logs. logs.items ≡ map (log_of (acts_of (content_of found.now))) nodes.now) }
    ensures long { IfOk result (λ logs. All
        (λ p. length (acts_of (content_of found.now) p) ≡ permanent_length (content_of found.now) p) nodes.now) }
{
    let mut logs = Vec::with_capacity(alloc, nodes.len())?;
    for node in nodes {
        let acts = acts_of(alloc, found, *node)?;
        logs.push(Unplaced::new(*node, acts))?;
    }
    Ok(logs)
}

/// The acts that the node's checkpoint holds, as many as it counts.
fn acts_of(alloc: Global, found: &[Found], node: NodeId) -> Result<Vec<LogAct>, AllocError>
    ensures acts { IfOk result (λ acts. acts.items ≡ acts_of (content_of found.now) node) }
    ensures long { IfOk result (λ acts.
        length (acts_of (content_of found.now) node) ≡ permanent_length (content_of found.now) node) }
{
    match checkpoint_of(found, node) {
        Some(checkpoint) => acts_in(alloc, checkpoint),
        None => Ok(Vec::new(alloc)),
    }
}

/// The acts of the checkpoint, oldest first, with memory of their own. They are as many as it counts, which it says
/// where it lends its state.
fn acts_in(alloc: Global, checkpoint: &Ckpt) -> Result<Vec<LogAct>, AllocError>
    ensures acts { IfOk result (λ acts. acts.items ≡ checkpoint.now.acts) }
    ensures long { length checkpoint.now.acts ≡ checkpoint.now.line_len }
{
    checkpoint.state();
    let listed = checkpoint.acts().listed(alloc)?;
    let mut acts = Vec::with_capacity(alloc, listed.len())?;
    for act in &listed {
        acts.push(act.copy(alloc)?)?;
    }
    Ok(acts)
}
