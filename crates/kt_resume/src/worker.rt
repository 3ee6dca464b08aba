//! A worker is made again by the acts of its log.
//! Cited by leads.rt.

ghost use Rattle.std.specs.Prelude.{◌≡◌, ◌↔◌, IfOk, IfSome, IsTrue, Some, None};
ghost use Rattle.kt_script.specs.Asks.{asks};
ghost use Rattle.kt_history.specs.Closed.{acts_in_log};
ghost use Rattle.kt_tuple.specs.declared.node.NodeId.TheVariants as ids;
ghost use Rattle.kt_logs.specs.WorkerLog.{MadeWorker, WorkerLog, WorkerMakes, new_worker, worker_after, worker_of_acts};
ghost use Rattle.kt_model.specs.Like.{IsWorkerLike};

use kt_history::{Act, History, What};
use kt_script::Script;
use kt_tuple::{NodeId, Op};
use kt_worker::Worker;
use std::alloc::{AllocError, Global};

/// The worker of this name and script that made the acts of its log, one after the other from its first state; none
/// where it may not make one of them.
pub fn remake_worker(
    alloc: Global,
    script: &Script,
    name: u8,
    history: &History,
) -> Result<Option<Worker>, AllocError>
    ensures made { IfOk result (λ w. IfSome w (λ w. WorkerLog (asks script.now) name new_worker
        (acts_in_log history.now.notes (ids.Worker name)))) }
    ensures like { IfOk result (λ w. IfSome w (λ w. IsWorkerLike script.now
        (worker_of_acts new_worker (acts_in_log history.now.notes (ids.Worker name))) w)) }
    ensures none { IfOk result (λ w. w ≡ None → ¬ WorkerLog (asks script.now) name new_worker
        (acts_in_log history.now.notes (ids.Worker name))) }
{
    let mut worker = Worker::new(alloc, script)?;
    for number in history.line(NodeId::Worker(name)) {
        // Each number of a log is of an act.
        if let Some(act) = history.act(*number) {
            if !makes(alloc, script, name, &mut worker, act)? {
                drop(worker);
                return Ok(None);
            }
        }
    }
    Ok(Some(worker))
}

/// Has the worker make the act, and says whether it may.
fn makes(
    alloc: Global,
    script: &Script,
    name: u8,
    worker: &mut Worker,
    act: &Act,
) -> Result<bool, AllocError>
    ensures may { IfOk result (λ makes. (made : MadeWorker) → IsWorkerLike script.now made worker.old
        → IsTrue makes ↔ WorkerMakes (asks script.now) name made act.now) }
    ensures after { IfOk result (λ makes. (made : MadeWorker) → IsWorkerLike script.now made worker.old
        → IsTrue makes → IsWorkerLike script.now (worker_after made act.now) worker.new) }
{
    if act.worker != name {
        return Ok(false);
    }
    match &act.what {
        What::Issue => match worker.issue(alloc, script)? {
            Some((number, op)) => Ok(is_request(number, &op, act)),
            None => Ok(false),
        },
        What::Repeat => Ok(is_asked(worker, act)),
        What::Accepted(answer) => worker.hear(alloc, script, act.number, &act.op, answer),
        What::Ignored(Some(_)) => Ok(!is_asked(worker, act)),
        _ => Ok(false),
    }
}

/// Whether the worker waits for an answer to the request of the act.
fn is_asked(worker: &Worker, act: &Act) -> bool
    ensures { IsTrue result
        ↔ ((worker.now.number ≡ act.now.number) × (worker.now.asked ≡ Some act.now.op)) }
{
    match worker.again() {
        Some((number, op)) => is_request(number, op, act),
        None => false,
    }
}

/// Whether the act is about the request of this number and operation.
fn is_request(number: u64, op: &Op, act: &Act) -> bool
    ensures { IsTrue result ↔ ((number ≡ act.now.number) × (op.now ≡ act.now.op)) }
{
    number == act.number && *op == act.op
}
