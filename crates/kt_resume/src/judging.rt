//! Whether what a store holds of each node fits the scene.
//! Cited by other crates.

ghost use Rattle.std.specs.Prelude.{◌≡◌, ◌↔◌, ◌≤◌, All, IfOk, IfSome, IsTrue, None, length};
ghost use Rattle.kt_tuple.specs.declared.node.TheConstants.{MAX_WORKERS};
ghost use Rattle.kt_scenario.specs.Scene.{is_node};
ghost use Rattle.kt_model.specs.Resumed.{FitsIn, IsFit, history_of};
ghost use Rattle.kt_resume.specs.Found.{scene_of, content_of};
ghost use Rattle.kt_resume.specs.Judging.{IsFirstMisfit, IsGood};

use crate::found::{Found, checkpoint_of};
use crate::labels::labels_fit;
use crate::leads::leads_to;
use crate::parts::{are_its_acts, is_of, is_short};
use crate::scene::{is_in_scene, nodes_of};
use crate::sense::makes_sense;
use kt_history::History;
use kt_script::Script;
use kt_tuple::NodeId;
use std::alloc::{AllocError, Global};

/// The first node, in the order of what was found, of which a world of so many shards and a worker for each script does
/// not leave that; none where all fit. The history is that of what was found, as `history_of` makes it.
pub fn first_unfit(
    alloc: Global,
    shards: u8,
    scripts: &[Script],
    found: &[Found],
    history: &History,
) -> Result<Option<NodeId>, AllocError>
    requires few { length scripts.now ≤ MAX_WORKERS }
    requires notes { history.now.notes ≡ history_of (scene_of shards scripts.now) (content_of found.now) }
    ensures none { IfOk result (λ node. node ≡ None
        → All (IsGood (scene_of shards scripts.now) (content_of found.now)) found.now) }
    ensures first { IfOk result (λ node. IfSome node
        (IsFirstMisfit (scene_of shards scripts.now) (content_of found.now) found.now)) }
{
    for held in found {
        let fits = is_fit(alloc, shards, scripts, found, history, held.node)?;
        if !(fits && held.has_instance_row) {
            return Ok(Some(held.node));
        }
    }
    Ok(None)
}

/// Whether what was found of the node is what a world of so many shards and a worker for each script leaves of it, but
/// for what is said of tentative checkpoints.
pub fn is_fit(
    alloc: Global,
    shards: u8,
    scripts: &[Script],
    found: &[Found],
    history: &History,
    node: NodeId,
) -> Result<bool, AllocError>
    requires few { length scripts.now ≤ MAX_WORKERS }
    requires notes { history.now.notes ≡ history_of (scene_of shards scripts.now) (content_of found.now) }
    ensures { IfOk result (λ fits. IsTrue fits
        ↔ IsFit (scene_of shards scripts.now) (content_of found.now) node) }
{
    if !is_in_scene(shards, scripts, node) {
        return Ok(false);
    }
    let nodes = nodes_of(alloc, shards, scripts.len() as u8)?;
    if !is_short(&nodes, found, node) {
        return Ok(false);
    }
    if !fits_in(alloc, shards, scripts, found, history, node)? {
        return Ok(false);
    }
    Ok(labels_fit(&nodes, found, node))
}

/// Whether the node's checkpoint, with its acts placed in the history, is what a world leaves.
fn fits_in(
    alloc: Global,
    shards: u8,
    scripts: &[Script],
    found: &[Found],
    history: &History,
    node: NodeId,
) -> Result<bool, AllocError>
    requires few { length scripts.now ≤ MAX_WORKERS }
    requires notes { history.now.notes ≡ history_of (scene_of shards scripts.now) (content_of found.now) }
    requires there { IsTrue (is_node (scene_of shards scripts.now) node) }
    ensures { IfOk result (λ fits. IsTrue fits
        ↔ FitsIn (scene_of shards scripts.now) (content_of found.now) history.now.notes node) }
{
    let placed = history.line(node).len() as u64;
    let Some(checkpoint) = checkpoint_of(found, node) else {
        // It goes on from its beginning, at which it did nothing.
        return Ok(placed == 0);
    };
    let state = checkpoint.state();
    if !is_of(shards, scripts.len() as u8, node, checkpoint) {
        return Ok(false);
    }
    if placed != checkpoint.line_len() {
        return Ok(false);
    }
    if !are_its_acts(alloc, checkpoint)? {
        return Ok(false);
    }
    if !leads_to(alloc, shards, scripts, history, node, state)? {
        return Ok(false);
    }
    Ok(makes_sense(history, node))
}
