//! Whom a shard serves next. The shard itself is asked, as the world lends it: to ask of each worker whether its step
//! is allowed would plan each of these steps.
//! Cited by policy.rt.

ghost use Rattle.std.specs.Prelude.{◌≡◌, IsTrue, Some};
ghost use Rattle.kt_core.specs.Lent.{shard};
ghost use Rattle.kt_scenario.specs.Scene.{is_shard, is_worker};
ghost use Rattle.kt_stage.specs.Policy.{first_some, serves, serves_with_first};

use kt_core::{Step, World};
use kt_shard::Shard;
use kt_store::CkptStore;
use kt_tuple::{ALL_WORKERS, NodeId};

/// Whether the node is a shard of the scene.
fn is_shard<S: CkptStore>(world: &World<S>, node: NodeId) -> bool
    ensures { result ≡ is_shard world.now.state.scene node }
{
    matches!(node, NodeId::Shard(_)) && world.mode(node).is_some()
}

/// Whether the node is a worker of the scene.
fn is_worker<S: CkptStore>(world: &World<S>, node: NodeId) -> bool
    ensures { result ≡ is_worker world.now.state.scene node }
{
    matches!(node, NodeId::Worker(_)) && world.mode(node).is_some()
}

/// The shard, which the node is, serves this worker with the first match, if it can.
fn serves_with_first<S: CkptStore>(
    world: &World<S>,
    node: NodeId,
    server: &Shard,
    worker: NodeId,
) -> Option<Step>
    requires there { IsTrue (is_shard world.now.state.scene node) }
    requires is { shard world.now.state node ≡ Some server.now.state }
    ensures { result ≡ serves_with_first world.now.state node worker }
{
    if is_worker(world, worker) && server.can_serve(worker.number(), 0) {
        Some(Step::Serve {
            shard: node,
            worker,
            place: 0,
        })
    } else {
        None
    }
}

/// The shard, which the node is, serves the first of these workers that it can serve with the first match.
fn first_served<S: CkptStore>(
    workers: &[NodeId],
    world: &World<S>,
    node: NodeId,
    server: &Shard,
) -> Option<Step>
    requires there { IsTrue (is_shard world.now.state.scene node) }
    requires is { shard world.now.state node ≡ Some server.now.state }
    ensures { result ≡ first_some (serves_with_first world.now.state node) workers.now }
{
    let (worker, later) = workers.split_first()?;
    match serves_with_first(world, node, server, *worker) {
        Some(step) => Some(step),
        None => first_served(later, world, node, server),
    }
}

/// The shard serves the first worker that it can serve with the first match.
pub(crate) fn serves<S: CkptStore>(world: &World<S>, node: NodeId) -> Option<Step>
    ensures { result ≡ serves world.now.state node }
{
    if !is_shard(world, node) {
        return None;
    }
    let server = world.shard(node)?;
    first_served(&ALL_WORKERS, world, node, server)
}
