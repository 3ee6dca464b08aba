//! Who finished and who waits, in words.
//! Cited by ending.rt.

use crate::names::{Part, push_parts};
use crate::waits::{Wait, WorkerEnd, request_of, waiting, worker_end};
use kt_core::World;
use kt_store::CkptStore;
use kt_tuple::{ALL_WORKERS, NodeId, Op};
use std::alloc::{AllocError, Global};

/// Puts a line for those that finished, and one for each other worker.
pub(crate) fn push_workers<S: CkptStore>(
    alloc: Global,
    out: &mut Vec<u8>,
    world: &World<S>,
) -> Result<(), AllocError> {
    push_finished(out, world, &ALL_WORKERS)?;
    let waits = waiting(alloc, world)?;
    let pushed = push_others(out, world, &ALL_WORKERS, &waits);
    drop(waits);
    pushed
}

/// Puts a line for each of these workers that did not finish.
fn push_others<S: CkptStore>(
    out: &mut Vec<u8>,
    world: &World<S>,
    workers: &[NodeId],
    waits: &[Wait],
) -> Result<(), AllocError> {
    for worker in workers {
        let end = worker_end(world, *worker);
        push_other(out, *worker, end, request_of(world, *worker), waits)?;
    }
    Ok(())
}

/// Puts a line for the worker that stands so and has this unanswered request, where it did not finish.
fn push_other(
    out: &mut Vec<u8>,
    worker: NodeId,
    end: Option<WorkerEnd>,
    request: Option<(u64, &Op)>,
    waits: &[Wait],
) -> Result<(), AllocError> {
    let how: &[u8] = match end {
        None | Some(WorkerEnd::Finished) => return Ok(()),
        Some(WorkerEnd::Waiting) => return push_waiting(out, worker, request, waits),
        Some(WorkerEnd::Ready) => b" did not ask for its next operation\n",
        Some(WorkerEnd::Held) =>
            b" is held: it waits for the verdict on its tentative checkpoint\n",
        Some(WorkerEnd::Rolling) => b" rolls back, and waits for the verdict\n",
        Some(WorkerEnd::Down) => b" is down\n",
    };
    push_parts(
        out,
        &[Part::Text(b"  "), Part::Name(worker), Part::Text(how)],
    )
}

/// Names those of these workers that finished, where there are any.
fn push_finished<S: CkptStore>(
    out: &mut Vec<u8>,
    world: &World<S>,
    workers: &[NodeId],
) -> Result<(), AllocError> {
    let mut is_first = true;
    for worker in workers {
        if matches!(worker_end(world, *worker), Some(WorkerEnd::Finished)) {
            let before: &[u8] = if is_first { b"  finished: " } else { b", " };
            push_parts(out, &[Part::Text(before), Part::Name(*worker)])?;
            is_first = false;
        }
    }
    if is_first {
        Ok(())
    } else {
        out.extend_from_slice(b"\n")
    }
}

/// What the worker waits for, its unanswered request, and at which shards.
fn push_waiting(
    out: &mut Vec<u8>,
    worker: NodeId,
    request: Option<(u64, &Op)>,
    waits: &[Wait],
) -> Result<(), AllocError> {
    let Some((number, op)) = request else {
        return Ok(());
    };
    push_parts(
        out,
        &[
            Part::Text(b"  "),
            Part::Name(worker),
            Part::Text(b" waits for the answer to its request "),
            Part::Number(number),
            Part::Text(b", "),
            Part::Op(op),
        ],
    )?;
    push_shards(out, worker, waits)
}

/// At which shards the worker waits, to the end of the line.
fn push_shards(out: &mut Vec<u8>, worker: NodeId, waits: &[Wait]) -> Result<(), AllocError> {
    let mut is_held = false;
    for wait in waits {
        if wait.worker == worker {
            push_parts(out, &[Part::Text(b", at "), Part::Name(wait.shard)])?;
            is_held = true;
        }
    }
    let end: &[u8] = if is_held {
        b"\n"
    } else {
        b", which no shard holds as waiting\n"
    };
    out.extend_from_slice(end)
}
