//! What a node held, in format 1.
//! Cited by old.rt; whoever calls the trait `Old`.

ghost use Rattle.std.specs.Prelude.{◌≡◌, ◌<◌, ◌≤◌, ◌^◌, IfOk, length};
ghost use Rattle.std.specs.List.{list_all};
ghost use Rattle.std.specs.Option.{option_copied};
ghost use Rattle.kt_ckpt.specs.Checkpoint.{IsCountedState, Suits};
ghost use Rattle.kt_ckpt.specs.OldLimits.{is_old_asked, is_old_entry, is_old_shard, is_old_state, is_old_worker};
ghost use Rattle.kt_ckpt.specs.OldState.{old_asked_at, old_bag_at, old_entries_at, old_rising_at, old_shard_at};
ghost use Rattle.kt_ckpt.specs.OldState.{old_state_at, old_variables_at, old_worker_at};
ghost use Rattle.kt_ckpt.specs.Reading.{Gives, IsRising};
ghost use Rattle.kt_ckpt.specs.State.{IsCountedShard, IsCountedWorker};

use crate::error::CkptError;
use crate::numbers::{byte_within, flag_at, u32_at, u64_at};
use crate::old_limits::OLD_WORKERS;
use crate::old_parts::{
    Old, are_old, is_old_answer, is_old_op, old_answer_at, old_list_at, old_op_at,
};
use crate::state::{ShardState, State, WorkerState};
use crate::worker::pc_at;
use kt_script::MAX_VARIABLES;
use kt_shard::{CachedReply, Request};
use kt_tuple::{NodeId, Op, Tuple, Value};
use std::alloc::Global;

// ---- a worker

/// A worker, and the bytes behind it.
#[tactic(auto, unfolding(crate::specs::OldState::old_worker_at))]
fn old_worker_at(alloc: Global, bytes: &[u8]) -> Result<(WorkerState, &[u8]), CkptError>
    ensures value { Gives (λ x. (x.0, x.1.now)) result (old_worker_at bytes.now) }
    ensures counted { IfOk result (λ x. IsCountedWorker x.0) }
{
    let (pc, rest) = pc_at(bytes)?;
    let (number, rest) = u64_at(rest)?;
    let (was_none, rest) = flag_at(rest)?;
    let (asked, rest) = old_asked_at(alloc, rest)?;
    let (variables, rest) = old_variables_at(alloc, rest)?;
    let worker = WorkerState::new(pc, number, was_none, asked, variables);
    Ok((worker, rest))
}

#[tactic(auto, unfolding(crate::specs::OldState::old_asked_at))]
fn old_asked_at(alloc: Global, bytes: &[u8]) -> Result<(Option<Op>, &[u8]), CkptError>
    ensures { Gives (λ x. (x.0, x.1.now)) result (old_asked_at bytes.now) }
{
    let (is_asked, rest) = flag_at(bytes)?;
    if !is_asked {
        return Ok((None, rest));
    }
    let (op, rest) = old_op_at(alloc, rest)?;
    Ok((Some(op), rest))
}

#[tactic(auto, unfolding(crate::specs::OldState::old_variables_at))]
fn old_variables_at(alloc: Global, bytes: &[u8]) -> Result<(Vec<Value>, &[u8]), CkptError>
    ensures value { Gives (λ x. (x.0.items, x.1.now)) result (old_variables_at bytes.now) }
    ensures few { IfOk result (λ x. length x.0.items ≤ MAX_VARIABLES) }
{
    let (count, rest) = byte_within(0, MAX_VARIABLES as u8, bytes)?;
    old_list_at(alloc, u32::from(count), rest)
}

fn is_old_asked(asked: Option<&Op>) -> bool
    ensures { result ≡ is_old_asked (option_copied asked.entry) }
{
    match asked {
        Some(op) => is_old_op(op),
        None => true,
    }
}

fn is_old_worker(worker: &WorkerState) -> bool
    ensures { result ≡ is_old_worker worker.now }
{
    is_old_asked(worker.asked()) && are_old(worker.variables())
}

// ---- what a shard keeps for its workers

impl Old for Request {
    ghost use Rattle.kt_ckpt.specs.OldLimits as limits;
    ghost use Rattle.kt_ckpt.specs.OldState as states;

    ghost old_reader = { states.old_request_at };

    ghost holds = { limits.is_old_request };

    #[tactic(auto, unfolding(crate::specs::OldState::old_request_at))]
    fn read_old(alloc: Global, bytes: &[u8]) -> Result<(Request, &[u8]), CkptError> {
        let (number, rest) = u64_at(bytes)?;
        let (op, rest) = old_op_at(alloc, rest)?;
        Ok((Request { number, op }, rest))
    }

    fn is_old(&self) -> bool {
        is_old_op(&self.op)
    }
}

impl Old for CachedReply {
    ghost use Rattle.kt_ckpt.specs.OldLimits as limits;
    ghost use Rattle.kt_ckpt.specs.OldState as states;

    ghost old_reader = { states.old_cached_at };

    ghost holds = { limits.is_old_cached };

    #[tactic(auto, unfolding(crate::specs::OldState::old_cached_at))]
    fn read_old(alloc: Global, bytes: &[u8]) -> Result<(CachedReply, &[u8]), CkptError> {
        let (request, rest) = Request::read_old(alloc, bytes)?;
        let (answer, rest) = old_answer_at(alloc, rest)?;
        Ok((CachedReply { request, answer }, rest))
    }

    fn is_old(&self) -> bool {
        self.request.is_old() && is_old_answer(&self.answer)
    }
}

/// A list of entries, and the bytes behind it.
#[tactic(auto, unfolding(crate::specs::OldState::old_entries_at))]
fn old_entries_at<E: Old>(alloc: Global, bytes: &[u8]) -> Result<(Vec<(u8, E)>, &[u8]), CkptError>
    ensures value { Gives (λ x. (x.0.items, x.1.now)) result (old_entries_at E.old_reader bytes.now) }
    ensures rising { IfOk result (λ x. IsRising 1 x.0.items) }
{
    let (count, rest) = byte_within(0, OLD_WORKERS, bytes)?;
    old_rising_at(alloc, count, rest)
}

/// So many entries, each of a worker above the one before.
fn old_rising_at<E: Old>(
    alloc: Global,
    count: u8,
    bytes: &[u8],
) -> Result<(Vec<(u8, E)>, &[u8]), CkptError>
    ensures value { Gives (λ x. (x.0.items, x.1.now)) result (old_rising_at E.old_reader 1 count bytes.now) }
    ensures rising { IfOk result (λ x. IsRising 1 x.0.items) }
{
    let mut entries = Vec::new(alloc);
    let mut rest = bytes;
    let mut least = 1;
    for _ in 0..count {
        let (worker, behind) = byte_within(least, OLD_WORKERS, rest)?;
        let (entry, after) = E::read_old(alloc, behind)?;
        entries.push((worker, entry))?;
        least = worker + 1;
        rest = after;
    }
    Ok((entries, rest))
}

fn are_old_entries<E: Old>(entries: &[(u8, E)]) -> bool
    ensures { result ≡ list_all (is_old_entry E.holds) entries.now }
{
    entries
        .iter()
        .all(|entry| entry.0 <= OLD_WORKERS && entry.1.is_old())
}

// ---- a shard

/// A shard, and the bytes behind it.
#[tactic(auto, unfolding(crate::specs::OldState::old_shard_at))]
fn old_shard_at(alloc: Global, bytes: &[u8]) -> Result<(ShardState, &[u8]), CkptError>
    ensures value { Gives (λ x. (x.0, x.1.now)) result (old_shard_at bytes.now) }
    ensures counted { IfOk result (λ x. IsCountedShard x.0) }
{
    let (bag, rest) = old_bag_at(alloc, bytes)?;
    let (waiting, rest) = old_entries_at(alloc, rest)?;
    let (cached, rest) = old_entries_at(alloc, rest)?;
    Ok((ShardState::new(bag, waiting, cached), rest))
}

#[tactic(auto, unfolding(crate::specs::OldState::old_bag_at))]
fn old_bag_at(alloc: Global, bytes: &[u8]) -> Result<(Vec<Tuple>, &[u8]), CkptError>
    ensures value { Gives (λ x. (x.0.items, x.1.now)) result (old_bag_at bytes.now) }
    ensures few { IfOk result (λ x. length x.0.items < 2 ^ 32) }
{
    let (count, rest) = u32_at(bytes)?;
    old_list_at(alloc, count, rest)
}

fn is_old_shard(shard: &ShardState) -> bool
    ensures { result ≡ is_old_shard shard.now }
{
    are_old(shard.bag()) && are_old_entries(shard.waiting()) && are_old_entries(shard.cached())
}

// ---- a state

/// The state of this node, of its kind, and the bytes behind it.
#[tactic(auto, unfolding(crate::specs::OldState::old_state_at))]
pub(crate) fn old_state_at(
    alloc: Global,
    node: NodeId,
    bytes: &[u8],
) -> Result<(State, &[u8]), CkptError>
    ensures value { Gives (λ x. (x.0, x.1.now)) result (old_state_at node bytes.now) }
    ensures suits { IfOk result (λ x. Suits node x.0) }
    ensures counted { IfOk result (λ x. IsCountedState x.0) }
{
    match node {
        NodeId::Worker(_) => {
            let (worker, rest) = old_worker_at(alloc, bytes)?;
            Ok((State::Worker(worker), rest))
        }
        NodeId::Shard(_) => {
            let (shard, rest) = old_shard_at(alloc, bytes)?;
            Ok((State::Shard(shard), rest))
        }
    }
}

/// Whether format 1 can hold the state.
pub(crate) fn is_old_state(state: &State) -> bool
    ensures { result ≡ is_old_state state.now }
{
    match state {
        State::Worker(worker) => is_old_worker(worker),
        State::Shard(shard) => is_old_shard(shard),
    }
}
