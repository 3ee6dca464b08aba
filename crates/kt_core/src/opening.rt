//! The tables of a world that was just opened or resumed.
//! Cited by machine.rt.

ghost use Rattle.std.specs.Prelude.{◌≡◌, ℕ, map, [], IfOk, IfSome, OnOk, replicate, slice_get};
ghost use Rattle.kt_model.specs.Limits.{rows};
ghost use Rattle.kt_shard.specs.Limits.{sessions};
ghost use Rattle.kt_core.specs.auxiliary.Rows.{row_view};
ghost use Rattle.kt_model.specs.Reached.{opening_row, opening_rows};
ghost use Rattle.kt_model.specs.Resumed.{down_row, down_rows};
ghost use Rattle.kt_model.specs.Short.{IsShort};

use crate::roles::role_in;
use kt_node::Node;
use kt_scenario::Scene;
use kt_script::Script;
use kt_shard::SESSIONS;
use kt_tuple::NodeId;
use std::alloc::{AllocError, Global};

/// How many rows a table of nodes has: one for each number of a worker and for each of a shard, and as many sessions
/// has a shard as workers have numbers.
const ROWS: usize = 2 * SESSIONS as usize;

/// The row of the node, which is empty where the scene has no such node.
fn row(
    alloc: Global,
    scene: &Scene,
    no_script: &Script,
    id: NodeId,
) -> Result<Option<Node>, AllocError>
    requires { no_script.now ≡ [] }
    ensures { IfOk result (λ row. row_view row ≡ opening_row scene.now id) }
{
    match role_in(scene, no_script, id) {
        Some(role) => Ok(Some(Node::open(alloc, role)?)),
        None => Ok(None),
    }
}

/// The table of nodes, by their numbers: a row for each that a node can have, and a node where the scene has it.
pub(crate) fn opening_nodes(
    alloc: Global,
    scene: &Scene,
    no_script: &Script,
) -> Result<Vec<Option<Node>>, AllocError>
    requires { no_script.now ≡ [] }
    ensures { IfOk result (λ nodes. map row_view nodes.items ≡ opening_rows scene.now sessions) }
{
    let mut nodes = Vec::with_capacity(alloc, ROWS)?;
    match push_rows(alloc, scene, no_script, &mut nodes) {
        Ok(()) => Ok(nodes),
        Err(error) => {
            drop(nodes);
            Err(error)
        }
    }
}

/// Puts all rows of the table into a list that has none.
fn push_rows(
    alloc: Global,
    scene: &Scene,
    no_script: &Script,
    nodes: &mut Vec<Option<Node>>,
) -> Result<(), AllocError>
    requires script { no_script.now ≡ [] }
    requires none { nodes.old.items ≡ [] }
    ensures { OnOk result (map row_view nodes.new.items ≡ opening_rows scene.now sessions) }
{
    for number in 0..SESSIONS {
        let worker = row(alloc, scene, no_script, NodeId::Worker(number))?;
        nodes.push(worker)?;
        let shard = row(alloc, scene, no_script, NodeId::Shard(number))?;
        nodes.push(shard)?;
    }
    Ok(())
}

/// The row of a node that is down, which is empty where the scene has no such node.
fn down_row(scene: &Scene, id: NodeId) -> Option<Node>
    ensures { row_view result ≡ down_row scene.now id }
{
    if scene.has(id) {
        Some(Node::down())
    } else {
        None
    }
}

/// The table of nodes as in `opening_nodes`, where each is down.
pub(crate) fn down_nodes(alloc: Global, scene: &Scene) -> Result<Vec<Option<Node>>, AllocError>
    ensures { IfOk result (λ nodes. map row_view nodes.items ≡ down_rows scene.now sessions) }
{
    let mut nodes = Vec::with_capacity(alloc, ROWS)?;
    for number in 0..SESSIONS {
        nodes.push(down_row(scene, NodeId::Worker(number)))?;
        nodes.push(down_row(scene, NodeId::Shard(number)))?;
    }
    Ok(nodes)
}

/// The counts of steps: none was made.
pub(crate) fn no_counts(alloc: Global) -> Result<Vec<u64>, AllocError>
    ensures { IfOk result (λ own. own.items ≡ replicate rows 0) }
{
    vec![in alloc; 0; ROWS]
}

/// Each of the scripts is within the limits that it was made with. For the proof alone: it does nothing. The laws speak
/// of scenes whose scripts a checkpoint can count, and of a script the proof learns so only where `commands` is called.
pub(crate) fn scripts_are_short(scripts: &[Script])
    ensures { (n : ℕ) → IfSome (slice_get scripts.now n) IsShort }
{
    for script in scripts {
        script.commands();
    }
}
