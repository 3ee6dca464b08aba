//! The checkpoint of a moment.
//! Cited by other crates.

ghost use Rattle.std.specs.Prelude.{◌≡◌, ◌≤◌, ◌++◌, All, IfOk, OnOk};
ghost use Rattle.kt_ckpt.specs.Acts.{IsActOf};
ghost use Rattle.kt_ckpt.specs.Checkpoint.{HasCounts, IsCountedState};
ghost use Rattle.kt_script.specs.declared.script.TheConstants.{MAX_COMMANDS};
ghost use Rattle.kt_shard.specs.Shard.{session_of};
ghost use Rattle.kt_state.specs.Labels.{listed};
ghost use Rattle.kt_state.specs.State.{body_fields, checkpoint_of, entries, entry, shard_fields, worker_fields};
ghost use Rattle.kt_state.specs.Views.{role_view};
ghost use Rattle.kt_state.specs.Codes.{body_view, live_view};

use crate::live::{Body, Live};
use crate::role::Role;
use kt_ckpt::{Acts, Ckpt, ShardState, State, WorkerState};
use kt_link::Label;
use kt_shard::{CachedReply, Request, Shard};
use kt_tuple::{MAX_WORKERS, Op, Value, copy_values};
use kt_worker::Worker;
use std::alloc::{AllocError, Global};

/// The checkpoint of the node, which remembers so many acts, these.
pub fn checkpoint_of(
    alloc: Global,
    role: Role<'_>,
    live: &Live,
    line_len: u64,
    acts: Acts,
) -> Result<Ckpt, AllocError>
    requires counts { HasCounts (checkpoint_of (role_view role) (live_view live.now) line_len acts) }
    requires shape { All (IsActOf role.id) acts }
    ensures { IfOk result (λ c. c ≡ checkpoint_of (role_view role.entry) (live_view live.now) line_len acts) }
{
    let sent = listed(alloc, role.peers, &live.sent)?;
    let received = listed(alloc, role.peers, &live.received)?;
    let state = body_state(alloc, &live.body)?;
    Ckpt::new(alloc, role.id, line_len, sent, received, state, acts)
}

/// The labels of so many neighbours.
#[tactic(auto, using(crate::proofs::Numbers::mapped_none, crate::proofs::Numbers::mapped_from_one))]
fn listed(alloc: Global, peers: u8, table: &[Label]) -> Result<Vec<Label>, AllocError>
    ensures { IfOk result (λ v. v.items ≡ listed peers table.now) }
{
    let mut labels = Vec::with_capacity(alloc, usize::from(peers))?;
    for number in 0..peers {
        let label = match table.get(usize::from(number) + 1) {
            Some(label) => *label,
            None => Label::default(),
        };
        labels.push(label)?;
    }
    Ok(labels)
}

fn body_state(alloc: Global, body: &Body) -> Result<State, AllocError>
    requires { IsCountedState (body_fields (body_view body.now)) }
    ensures { IfOk result (λ s. s ≡ body_fields (body_view body.now)) }
{
    match body {
        Body::Worker(worker) => Ok(State::Worker(worker_state(alloc, worker)?)),
        Body::Shard(shard) => Ok(State::Shard(shard_state(alloc, shard)?)),
    }
}

fn worker_state(alloc: Global, worker: &Worker) -> Result<WorkerState, AllocError>
    requires { worker.now.position.pc ≤ MAX_COMMANDS }
    ensures { IfOk result (λ w. w ≡ worker_fields worker.now) }
{
    let values = copy_values(alloc, worker.values())?;
    let asked = asked_of(alloc, worker)?;
    Ok(WorkerState::new(
        worker.pc() as u16,
        worker.number(),
        worker.was_none(),
        asked,
        values,
    ))
}

fn asked_of(alloc: Global, worker: &Worker) -> Result<Option<Op>, AllocError>
    ensures { IfOk result (λ op. op ≡ worker.now.asked) }
{
    match worker.asked() {
        Some(op) => Ok(Some(op.copy(alloc)?)),
        None => Ok(None),
    }
}

fn shard_state(alloc: Global, shard: &Shard) -> Result<ShardState, AllocError>
    ensures { IfOk result (λ s. s ≡ shard_fields shard.now.state) }
{
    let bag = shard.bag().to_vec(alloc)?;
    let waiting = waiting_entries(alloc, shard)?;
    let cached = cached_entries(alloc, shard)?;
    Ok(ShardState::new(bag, waiting, cached))
}

/// The worker's entry, where it waits.
fn add_waiting(
    alloc: Global,
    entries: &mut Vec<(u8, Request)>,
    shard: &Shard,
    worker: u8,
) -> Result<(), AllocError>
    ensures { OnOk result
        (entries.new.items ≡ entries.old.items ++ entry worker (session_of shard.now.state worker).waiting) }
{
    if let Some(request) = shard.waiting(worker) {
        entries.push((worker, request.copy(alloc)?))?;
    }
    Ok(())
}

#[tactic(auto, using(crate::proofs::Numbers::flat_none, crate::proofs::Numbers::flat_from_one))]
fn waiting_entries(alloc: Global, shard: &Shard) -> Result<Vec<(u8, Request)>, AllocError>
    ensures { IfOk result (λ v. v.items ≡ entries (λ worker. (session_of shard.now.state worker).waiting)) }
{
    let mut entries = Vec::new(alloc);
    for before in 0..MAX_WORKERS {
        add_waiting(alloc, &mut entries, shard, before + 1)?;
    }
    Ok(entries)
}

/// The worker's entry, where something is kept for it.
fn add_cached(
    alloc: Global,
    entries: &mut Vec<(u8, CachedReply)>,
    shard: &Shard,
    worker: u8,
) -> Result<(), AllocError>
    ensures { OnOk result
        (entries.new.items ≡ entries.old.items ++ entry worker (session_of shard.now.state worker).cached) }
{
    if let Some(cached) = shard.kept(worker) {
        entries.push((worker, cached.copy(alloc)?))?;
    }
    Ok(())
}

#[tactic(auto, using(crate::proofs::Numbers::flat_none, crate::proofs::Numbers::flat_from_one))]
fn cached_entries(alloc: Global, shard: &Shard) -> Result<Vec<(u8, CachedReply)>, AllocError>
    ensures { IfOk result (λ v. v.items ≡ entries (λ worker. (session_of shard.now.state worker).cached)) }
{
    let mut entries = Vec::new(alloc);
    for before in 0..MAX_WORKERS {
        add_cached(alloc, &mut entries, shard, before + 1)?;
    }
    Ok(entries)
}
