//! A shard is made again by the acts of its log.
//! Cited by leads.rt, suits.rt.

ghost use Rattle.std.specs.Prelude.{◌≡◌, ◌↔◌, ◌≤◌, ◌<◌, All, IfOk, IfSome, IsTrue, Some, None, false};
ghost use Rattle.std.specs.Prelude.{length, replicate};
ghost use Rattle.kt_history.specs.Closed.{acts_in_log};
ghost use Rattle.kt_shard.specs.Limits.{sessions};
ghost use Rattle.kt_tuple.specs.declared.node.NodeId.TheVariants as ids;
ghost use Rattle.kt_logs.specs.ShardLog.{Ignores, MadeShard, ShardLog, ShardMakes, new_shard, request_of};
ghost use Rattle.kt_logs.specs.ShardLog.{shard_after, shard_of_acts};
ghost use Rattle.kt_resume.specs.Remade.{IsRemade, empty_slot};

use crate::slot::Slot;
use crate::space::answer;
use kt_history::{Act, History, What};
use kt_shard::SESSIONS;
use kt_space::Bag;
use kt_tuple::NodeId;
use std::alloc::{AllocError, Global};
use std::marker::Model;

/// A shard that made the acts of its log again: its tuples, and what it knows of each worker.
#[derive(Debug, Drop)]
pub struct Remade {
    bag: Bag,
    /// By the worker's number, from 0.
    slots: Vec<Slot>,
}

impl Model for Remade {
    ghost use Rattle.std.specs.Prelude.{◌≡◌, length};
    ghost use Rattle.kt_shard.specs.Limits.{sessions};
    ghost use Rattle.kt_resume.specs.Remade.{RemadeShard};

    ghost Value = { RemadeShard };

    ghost view = { λ r. record { bag = r.bag.tuples; slots = r.slots.items } };

    ghost invariant = { λ r. length r.slots.items ≡ sessions };
}

/// What the shard of this number, of so many shards, made of itself by the acts of its log, one after the other from
/// an empty bag; none where it may not make one of them.
pub fn remake_shard(
    alloc: Global,
    shards: u8,
    name: u8,
    history: &History,
) -> Result<Option<Remade>, AllocError>
    requires { 1 ≤ shards }
    ensures made { IfOk result (λ r. IfSome r (λ r. ShardLog shards name new_shard
        (acts_in_log history.now.notes (ids.Shard name)))) }
    ensures like { IfOk result (λ r. IfSome r (λ r. IsRemade
        (shard_of_acts new_shard (acts_in_log history.now.notes (ids.Shard name))) r)) }
    // Each act is about a worker that there may be, as those of a checkpoint are.
    ensures none { IfOk result (λ r. r ≡ None
        → All (λ a. a.worker < sessions) (acts_in_log history.now.notes (ids.Shard name))
        → ¬ ShardLog shards name new_shard (acts_in_log history.now.notes (ids.Shard name))) }
{
    let mut remade = Remade::new(alloc)?;
    match remade.makes_all(alloc, shards, name, history) {
        Ok(true) => Ok(Some(remade)),
        Ok(false) => {
            drop(remade);
            Ok(None)
        }
        Err(error) => {
            drop(remade);
            Err(error)
        }
    }
}

impl Remade {
    /// A shard that made no act: an empty bag, and no worker heard of.
    fn new(alloc: Global) -> Result<Remade, AllocError>
        ensures { IfOk result (λ r. IsRemade new_shard r) }
    {
        let slots = empty_slots(alloc)?;
        Ok(Remade {
            bag: Bag::new(alloc),
            slots,
        })
    }

    /// Makes the acts of the log of the shard of this number, one after the other, and says whether it may.
    fn makes_all(
        &mut self,
        alloc: Global,
        shards: u8,
        name: u8,
        history: &History,
    ) -> Result<bool, AllocError>
        requires shards { 1 ≤ shards }
        requires new { IsRemade new_shard self.old }
        ensures made { IfOk result (λ may. IsTrue may → ShardLog shards name new_shard
            (acts_in_log history.now.notes (ids.Shard name))) }
        ensures like { IfOk result (λ may. IsTrue may → IsRemade
            (shard_of_acts new_shard (acts_in_log history.now.notes (ids.Shard name))) self.new) }
        ensures none { IfOk result (λ may. may ≡ false
            → All (λ a. a.worker < sessions) (acts_in_log history.now.notes (ids.Shard name))
            → ¬ ShardLog shards name new_shard (acts_in_log history.now.notes (ids.Shard name))) }
    {
        for number in history.line(NodeId::Shard(name)) {
            // Each number of a log is of an act.
            if let Some(act) = history.act(*number) {
                if !self.makes(alloc, shards, name, act)? {
                    return Ok(false);
                }
            }
        }
        Ok(true)
    }

    /// Makes the act, and says whether the shard of this number may.
    fn makes(&mut self, alloc: Global, shards: u8, name: u8, act: &Act) -> Result<bool, AllocError>
        requires { 1 ≤ shards }
        ensures may { (made : MadeShard) → IsRemade made self.old
            → IfOk result (λ makes. IsTrue makes → ShardMakes shards name made act.now) }
        ensures all { (made : MadeShard) → IsRemade made self.old → act.now.worker < sessions
            → ShardMakes shards name made act.now → IfOk result (λ makes. IsTrue makes) }
        ensures after { (made : MadeShard) → IsRemade made self.old
            → IfOk result (λ makes. IsTrue makes → IsRemade (shard_after made act.now) self.new) }
    {
        if act.op.signature().shard_of(shards) != name || SESSIONS <= act.worker {
            return Ok(false);
        }
        let worker = usize::from(act.worker);
        match &act.what {
            What::Heard => self.slots[worker].hear(alloc, act),
            What::Served(told) => {
                if !self.slots[worker].serve(alloc, act, told)? {
                    return Ok(false);
                }
                let may = answer(alloc, &mut self.bag, &act.op, told)?;
                Ok(may)
            }
            What::Again(told) => Ok(self.slots[worker].answers_again(act, told)),
            What::Ignored(None) => Ok(self.ignores(act)),
            _ => Ok(false),
        }
    }

    /// Whether the request of the act is neither new nor to be answered again.
    fn ignores(&self, act: &Act) -> bool
        requires { act.now.worker < sessions }
        ensures { (made : MadeShard) → IsRemade made self.now
            → IsTrue result ↔ Ignores (request_of act.now) (made.session act.now.worker) }
    {
        self.slots[usize::from(act.worker)].ignores(act)
    }

    /// What it knows of each worker, by the worker's number from 0.
    pub(crate) fn slots(&self) -> &[Slot]
        ensures slots { result.now ≡ self.now.slots }
        ensures long { length result.now ≡ sessions }
    {
        &self.slots
    }

    /// Its tuples.
    pub(crate) fn into_bag(self) -> Bag
        ensures { result.tuples ≡ self.bag }
    {
        self.bag
    }
}

/// A slot for each number that a worker can have, and for 0.
fn empty_slots(alloc: Global) -> Result<Vec<Slot>, AllocError>
    ensures { IfOk result (λ made. made.items ≡ replicate sessions empty_slot) }
{
    let mut slots = Vec::with_capacity(alloc, usize::from(SESSIONS))?;
    for number in 0..SESSIONS {
        slots.push(Slot::new())?;
    }
    Ok(slots)
}
