//! Whether the acts of a node, made again, lead to what is stored of it.
//! Cited by judging.rt.

ghost use Rattle.std.specs.Prelude.{◌≡◌, ◌↔◌, ◌<◌, ◌≤◌, All, IfOk, IsTrue, length};
ghost use Rattle.kt_tuple.specs.declared.node.NodeId.TheVariants as ids;
ghost use Rattle.kt_tuple.specs.declared.node.TheConstants.{MAX_WORKERS};
ghost use Rattle.kt_history.specs.declared.note.Act.{Act};
ghost use Rattle.kt_history.specs.Closed.{acts_in_log};
ghost use Rattle.kt_ckpt.specs.declared.state.State.TheVariants as saved;
ghost use Rattle.kt_shard.specs.Limits.{sessions};
ghost use Rattle.kt_scenario.specs.Scene.{SceneModel, is_node, is_worker};
ghost use Rattle.kt_resume.specs.Found.{scene_of};
ghost use Rattle.kt_resume.specs.auxiliary.Leading.{LeadsTo};

use crate::scene::script_of;
use crate::shard::remake_shard;
use crate::suits::{suits_shard, suits_worker};
use crate::worker::remake_worker;
use kt_ckpt::{ShardState, State, WorkerState};
use kt_history::History;
use kt_script::Script;
use kt_tuple::NodeId;
use std::alloc::{AllocError, Global};

/// Whether the node may make the acts of its log, one after the other from its first state, and they lead to this
/// stored state of it.
pub(crate) fn leads_to(
    alloc: Global,
    shards: u8,
    scripts: &[Script],
    history: &History,
    node: NodeId,
    stored: &State,
) -> Result<bool, AllocError>
    requires few { length scripts.now ≤ MAX_WORKERS }
    requires there { IsTrue (is_node (scene_of shards scripts.now) node) }
    // Each act is about a worker that there may be, as those of a checkpoint are.
    ensures { IfOk result (λ leads. All (λ (a : Act). a.worker < sessions) (acts_in_log history.now.notes node)
        → (IsTrue leads ↔ LeadsTo (scene_of shards scripts.now) node (acts_in_log history.now.notes node) stored.now)) }
{
    match (node, stored) {
        (NodeId::Worker(name), State::Worker(stored)) => {
            worker_leads_to(alloc, scripts, history, name, stored)
        }
        (NodeId::Shard(name), State::Shard(stored)) => {
            shard_leads_to(alloc, shards, scripts.len() as u8, history, name, stored)
        }
        (NodeId::Worker(_), State::Shard(_)) | (NodeId::Shard(_), State::Worker(_)) => Ok(false),
    }
}

/// Whether the worker of this number may make the acts of its log, and they lead to this stored state of it.
fn worker_leads_to(
    alloc: Global,
    scripts: &[Script],
    history: &History,
    name: u8,
    stored: &WorkerState,
) -> Result<bool, AllocError>
    ensures { IfOk result (λ leads. (scene : SceneModel) → scene.scripts ≡ scripts.now
        → IsTrue (is_worker scene (ids.Worker name))
        → (IsTrue leads ↔ LeadsTo scene (ids.Worker name) (acts_in_log history.now.notes (ids.Worker name))
        (saved.Worker stored.now))) }
{
    let Some(script) = script_of(scripts, NodeId::Worker(name)) else {
        return Ok(false);
    };
    match remake_worker(alloc, script, name, history)? {
        Some(worker) => Ok(suits_worker(stored, &worker)),
        None => Ok(false),
    }
}

/// Whether the shard of this number may make the acts of its log, and they lead to this stored state of it.
fn shard_leads_to(
    alloc: Global,
    shards: u8,
    workers: u8,
    history: &History,
    name: u8,
    stored: &ShardState,
) -> Result<bool, AllocError>
    requires { 1 ≤ shards }
    ensures { IfOk result (λ leads. (scene : SceneModel) → scene.shards ≡ shards → length scene.scripts ≡ workers
        → All (λ (a : Act). a.worker < sessions) (acts_in_log history.now.notes (ids.Shard name))
        → (IsTrue leads ↔ LeadsTo scene (ids.Shard name) (acts_in_log history.now.notes (ids.Shard name))
        (saved.Shard stored.now))) }
{
    match remake_shard(alloc, shards, name, history)? {
        Some(remade) => suits_shard(alloc, workers, stored, remade),
        None => Ok(false),
    }
}
