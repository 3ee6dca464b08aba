//! Whether a checkpoint has of its node what the acts of its log made again.
//! Cited by leads.rt.

ghost use Rattle.std.specs.Prelude.{◌≡◌, ◌≤◌, ◌↔◌, ℕ, List, Option, IsPermutation, IsTrue, IfOk, length};
ghost use Rattle.std.specs.Option.{option_copied};
ghost use Rattle.kt_script.specs.declared.command.Command.{Command};
ghost use Rattle.kt_logs.specs.ShardLog.{MadeShard};
ghost use Rattle.kt_logs.specs.WorkerLog.{MadeWorker};
ghost use Rattle.kt_state.specs.State.{worker_fields};
ghost use Rattle.kt_shard.specs.Session.{empty_session};
ghost use Rattle.kt_shard.specs.Limits.{sessions};
ghost use Rattle.kt_shard.specs.Table.{at};
ghost use Rattle.kt_model.specs.Like.{IsWorkerLike};
ghost use Rattle.kt_resume.specs.Remade.{IsRemade, empty_slot};
ghost use Rattle.kt_resume.specs.Suits.{SuitsShard, SuitsWorker};
ghost use Rattle.kt_resume.specs.auxiliary.Suits.{HasSessions};

use crate::entries::has_entries;
use crate::shard::Remade;
use crate::slot::Slot;
use crate::space::take_equal;
use kt_ckpt::{ShardState, WorkerState};
use kt_space::Bag;
use kt_tuple::{Op, Tuple};
use kt_worker::Worker;
use std::alloc::{AllocError, Global};

/// Whether a checkpoint has of its worker where this one stands. Acts leave one way alone for a worker to stand, so
/// that it is this one.
pub fn suits_worker(stored: &WorkerState, worker: &Worker) -> bool
    ensures exact { IsTrue result ↔ (stored.now ≡ worker_fields worker.now) }
    ensures like { (script : List Command) (made : MadeWorker) → IsWorkerLike script made worker.now
        → IsTrue result ↔ SuitsWorker script made stored.now }
{
    is_stored_as(stored, worker)
}

fn is_stored_as(stored: &WorkerState, worker: &Worker) -> bool
    ensures { IsTrue result ↔ (stored.now ≡ worker_fields worker.now) }
{
    if usize::from(stored.pc()) != worker.pc() {
        return false;
    }
    if stored.number() != worker.number() {
        return false;
    }
    if stored.was_none() != worker.was_none() {
        return false;
    }
    if !are_same(stored.asked(), worker.asked()) {
        return false;
    }
    stored.variables() == worker.values()
}

/// Whether both are one operation, or none.
fn are_same(one: Option<&Op>, other: Option<&Op>) -> bool
    ensures { IsTrue result ↔ (option_copied one.entry ≡ option_copied other.entry) }
{
    match (one, other) {
        (Some(one), Some(other)) => one == other,
        (None, None) => true,
        _ => false,
    }
}

/// Whether a checkpoint has of its shard what was made again, in a scene of so many workers: the tuples in any order,
/// just these sessions, and nothing in the sessions of workers that the scene has not.
pub fn suits_shard(
    alloc: Global,
    workers: u8,
    stored: &ShardState,
    remade: Remade,
) -> Result<bool, AllocError>
    ensures { (scripts : List (List Command)) (made : MadeShard) → length scripts ≡ workers → IsRemade made remade
        → IfOk result (λ suits. IsTrue suits ↔ SuitsShard scripts made stored.now) }
{
    if !has_sessions(workers, stored, remade.slots()) {
        return Ok(false);
    }
    has_just(alloc, remade.into_bag(), stored.bag())
}

/// Whether the checkpoint has what is in the sessions, and nothing is on those of workers that the scene has not.
fn has_sessions(workers: u8, stored: &ShardState, slots: &[Slot]) -> bool
    requires { length slots.now ≡ sessions }
    ensures { IsTrue result ↔ HasSessions workers slots.now stored.now }
{
    if !has_entries(stored.waiting(), slots) {
        return false;
    }
    if !has_entries(stored.cached(), slots) {
        return false;
    }
    are_empty_outside(workers, slots)
}

/// Whether nothing is in the session of number 0 and on those of numbers above this one.
fn are_empty_outside(workers: u8, slots: &[Slot]) -> bool
    ensures { IsTrue result ↔ ((number : ℕ) → ¬ ((1 ≤ number) × (number ≤ workers))
        → (at empty_slot slots.now number).session ≡ empty_session) }
{
    for (number, slot) in slots.iter().enumerate() {
        if !is_allowed(workers, number, slot) {
            return false;
        }
    }
    true
}

/// Whether the worker of this number may have what is in its session: one of the scene may have anything.
fn is_allowed(workers: u8, number: usize, slot: &Slot) -> bool
    ensures { IsTrue result ↔ (¬ ((1 ≤ number) × (number ≤ workers)) → slot.now.session ≡ empty_session) }
{
    (1 <= number && number <= usize::from(workers)) || slot.is_empty()
}

/// Whether the bag has just these tuples, in any order.
fn has_just(alloc: Global, bag: Bag, tuples: &[Tuple]) -> Result<bool, AllocError>
    ensures { IfOk result (λ has. IsTrue has ↔ IsPermutation bag.tuples tuples.now) }
{
    let mut left = bag;
    let has = takes_just(alloc, &mut left, tuples);
    drop(left);
    has
}

/// Whether the bag has just these tuples. Each is taken out of it, and then none is left.
fn takes_just(alloc: Global, left: &mut Bag, tuples: &[Tuple]) -> Result<bool, AllocError>
    ensures { IfOk result (λ has. IsTrue has ↔ IsPermutation left.old.tuples tuples.now) }
{
    for tuple in tuples {
        if !take_equal(alloc, left, tuple)? {
            return Ok(false);
        }
    }
    Ok(left.is_empty())
}
