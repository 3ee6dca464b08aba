//! Which workers finished, and which wait, for what and at which shards.
//! Cited by workers.rt.

ghost use Rattle.std.specs.Prelude.{◌≡◌, ◌++◌, IfOk, OnOk};
ghost use Rattle.std.specs.List.{flat_map};
ghost use Rattle.std.specs.Option.{option_copied, option_map};
ghost use Rattle.kt_core.specs.Lent.{shard, worker};
ghost use Rattle.kt_stage.specs.Policy.{unanswered, waits_in};
ghost use Rattle.kt_summary.specs.Waits.{all_waits, end_in, end_up, number_waiting, wait_at, waits_of, worker_end};

use kt_core::{Script, World};
use kt_node::Mode;
use kt_store::CkptStore;
use kt_tuple::{ALL_NODES, ALL_WORKERS, NodeId, Op};
use kt_worker::Worker;
use std::alloc::{AllocError, Global};

/// How a worker stands.
#[derive(Clone, Copy, Debug, PartialEq, Eq)]
pub enum WorkerEnd {
    /// It is up, its script is at its end, and nothing is unanswered.
    Finished,
    /// It is up, and its request is unanswered.
    Waiting,
    /// It is up, nothing is unanswered, and its script has an operation that it did not ask for yet.
    Ready,
    /// It took a tentative checkpoint and waits for the verdict.
    Held,
    /// It rolls back and waits for the verdict.
    Rolling,
    /// It failed and did not restart yet.
    Down,
}

/// An unanswered request of a worker, and a shard at which it waits.
#[derive(Clone, Copy, Debug, PartialEq, Eq)]
pub struct Wait {
    /// The worker whose request it is.
    pub worker: NodeId,
    /// The shard that holds the request as waiting.
    pub shard: NodeId,
    /// The number of the request, counted from 1 for each worker.
    pub number: u64,
}

/// How a worker with this script stands that is up.
fn end_up(script: &Script, worker: &Worker) -> WorkerEnd
    ensures { result ≡ end_up script.now worker.now }
{
    if worker.asked().is_some() {
        WorkerEnd::Waiting
    } else if worker.has_next(script) {
        WorkerEnd::Ready
    } else {
        WorkerEnd::Finished
    }
}

/// How the worker stands; `None` where the node is no worker of the world's scene.
pub fn worker_end<S: CkptStore>(world: &World<S>, node: NodeId) -> Option<WorkerEnd>
    ensures { result ≡ worker_end world.now.state node }
{
    match world.scene().script_of(node) {
        Some(script) => end_in(script, world.worker(node), world.mode(node)?),
        None => None,
    }
}

/// How a worker with this script stands in this mode; it is there while it is up.
fn end_in(script: &Script, worker: Option<&Worker>, mode: Mode) -> Option<WorkerEnd>
    ensures { result ≡ end_in script.now (option_copied worker.entry) mode }
{
    match mode {
        Mode::Up => Some(end_up(script, worker?)),
        Mode::Held => Some(WorkerEnd::Held),
        Mode::Rolling => Some(WorkerEnd::Rolling),
        Mode::Down => Some(WorkerEnd::Down),
    }
}

/// Whether the node is a shard that is up, and holds this request of the worker of this number as waiting.
fn waits_in<S: CkptStore>(world: &World<S>, node: NodeId, worker: u8, number: u64, op: &Op) -> bool
    ensures { result ≡ waits_in (shard world.now.state node) worker (number, op.now) }
{
    match world.shard(node) {
        None => false,
        Some(shard) => match shard.waiting(worker) {
            None => false,
            Some(request) => request.number == number && request.op == *op,
        },
    }
}

/// The number and the operation of the worker's unanswered request.
pub(crate) fn request_of<S: CkptStore>(world: &World<S>, node: NodeId) -> Option<(u64, &Op)>
    ensures { option_map (λ r. (r.0, r.1.now)) result ≡ unanswered (worker world.now.state node) }
{
    world.worker(node)?.again()
}

/// The number of the worker's unanswered request, where the shard holds that as waiting.
fn number_waiting<S: CkptStore>(world: &World<S>, worker: NodeId, shard: NodeId) -> Option<u64>
    ensures { result ≡ number_waiting world.now.state worker shard }
{
    let (number, op) = request_of(world, worker)?;
    if waits_in(world, shard, worker.number(), number, op) {
        Some(number)
    } else {
        None
    }
}

/// Puts the worker's request behind the others, where it waits at the shard.
fn push_wait<S: CkptStore>(
    found: &mut Vec<Wait>,
    world: &World<S>,
    worker: NodeId,
    shard: NodeId,
) -> Result<(), AllocError>
    ensures { OnOk result (found.new.items ≡ found.old.items ++ wait_at world.now.state worker shard) }
{
    if let Some(number) = number_waiting(world, worker, shard) {
        found.push(Wait {
            worker,
            shard,
            number,
        })?;
    }
    Ok(())
}

/// Puts the worker's request behind the others, once for each of these shards at which it waits.
fn push_waits<S: CkptStore>(
    found: &mut Vec<Wait>,
    world: &World<S>,
    worker: NodeId,
    shards: &[NodeId],
) -> Result<(), AllocError>
    ensures { OnOk result (found.new.items ≡ found.old.items ++ waits_of world.now.state shards.now worker) }
{
    for shard in shards {
        push_wait(found, world, worker, *shard)?;
    }
    Ok(())
}

/// Puts the requests of these workers behind the others, each once for each of these shards at which it waits.
fn push_all<S: CkptStore>(
    found: &mut Vec<Wait>,
    world: &World<S>,
    workers: &[NodeId],
    shards: &[NodeId],
) -> Result<(), AllocError>
    ensures { OnOk result (found.new.items
        ≡ found.old.items ++ flat_map (waits_of world.now.state shards.now) workers.now) }
{
    for worker in workers {
        push_waits(found, world, *worker, shards)?;
    }
    Ok(())
}

/// Each unanswered request of a worker that is up, once for each shard that is up and holds it as waiting, in node
/// order. A request that no shard holds is not among them: it is on its way still, or its shard is down or has
/// forgotten it. `AllocError` where memory is wanting for the list.
pub fn waiting<S: CkptStore>(alloc: Global, world: &World<S>) -> Result<Vec<Wait>, AllocError>
    ensures list { IfOk result (λ found. found.items ≡ all_waits world.now.state) }
{
    let mut found = Vec::new(alloc);
    push_all(&mut found, world, &ALL_WORKERS, &ALL_NODES)?;
    Ok(found)
}
