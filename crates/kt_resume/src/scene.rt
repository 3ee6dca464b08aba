//! The nodes of a scene with so many shards and a worker for each script.
//! Cited by judging.rt, leads.rt, logs.rt.

ghost use Rattle.std.specs.Prelude.{◌≡◌, ◌++◌, IfOk, map};
ghost use Rattle.std.specs.List.{range_with_len};
ghost use Rattle.std.specs.Option.{option_copied};
ghost use Rattle.kt_tuple.specs.declared.node.NodeId.TheVariants as ids;
ghost use Rattle.kt_scenario.specs.Scene.{SceneModel, is_node, script_in};
ghost use Rattle.kt_resume.specs.Found.{scene_of};

use kt_script::Script;
use kt_tuple::NodeId;
use std::alloc::{AllocError, Global};

/// The nodes of a scene with so many shards and workers, in node order.
pub(crate) fn nodes_of(alloc: Global, shards: u8, workers: u8) -> Result<Vec<NodeId>, AllocError>
    ensures { IfOk result (λ nodes. nodes.items ≡
        map (λ n. ids.Worker n) (range_with_len 1 workers) ++ map (λ n. ids.Shard n) (range_with_len 1 shards)) }
{
    let mut nodes = Vec::with_capacity(alloc, usize::from(workers) + usize::from(shards))?;
    for worker in 0..workers {
        nodes.push(NodeId::Worker(worker + 1))?;
    }
    for shard in 0..shards {
        nodes.push(NodeId::Shard(shard + 1))?;
    }
    Ok(nodes)
}

/// The script of the node, where it is a worker of the scene.
pub(crate) fn script_of(scripts: &[Script], node: NodeId) -> Option<&Script>
    ensures { (scene : SceneModel) → scene.scripts ≡ scripts.now → option_copied result ≡ script_in scene node }
{
    match node {
        NodeId::Worker(0) | NodeId::Shard(_) => None,
        NodeId::Worker(number) => scripts.get(usize::from(number - 1)),
    }
}

/// Whether the node is in the scene.
pub(crate) fn is_in_scene(shards: u8, scripts: &[Script], node: NodeId) -> bool
    ensures { result ≡ is_node (scene_of shards scripts.now) node }
{
    match node {
        NodeId::Worker(_) => script_of(scripts, node).is_some(),
        NodeId::Shard(number) => 1 <= number && number <= shards,
    }
}
