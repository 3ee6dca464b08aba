//! The links between workers and shards.
//! Cited by other crates.

ghost use Rattle.std.specs.Prelude.{◌≡◌, ◌+◌, ◌*◌, ◌<◌, ◌≤◌, ◌↔◌, ◌++◌, ◌∷◌, [], drop, length, map};
ghost use Rattle.std.specs.Prelude.{replicate, slice_get, IsTrue, IsOk, IfOk, IfErr, IfSome, OnOk, OnErr};
ghost use Rattle.std.specs.Option.{option_copied};
ghost use Rattle.kt_link.specs.Network.{AreNeighbours, place, place_between};

use kt_tuple::NodeId;
use std::alloc::{AllocError, AllocFailed, Global};
use std::collections::VecDeque;
use std::marker::Model;

/// A queue for each ordered pair of neighbours: from each worker to each shard, and back.
#[derive(Debug, Drop)]
pub struct Links<M> {
    workers: u8,
    shards: u8,
    /// The two queues of a pair stand side by side, the way to the shard first. Pairs that are no neighbours have no
    /// place.
    queues: Vec<VecDeque<M>>,
}

impl<M> Model for Links<M> {
    ghost use Rattle.std.specs.Prelude.{◌≡◌, ◌*◌, length};
    ghost use Rattle.kt_link.specs.Network.{Network};
    ghost use Rattle.kt_link.specs.auxiliary.Queues.{network_of};

    ghost Value = { Network M };

    ghost view = { λ l. network_of l.workers l.shards l.queues.items };

    ghost invariant = { λ l. length l.queues.items ≡ 2 * (l.workers * l.shards) };
}

impl<M: Drop> Links<M> {
    ghost use Rattle.kt_link.specs.Network.{queue, room, ChangesOnly};

    /// Empty queues between so many workers and shards, each counted from 1.
    pub fn new(alloc: Global, workers: u8, shards: u8) -> Result<Links<M>, AllocError>
        ensures workers { IfOk result (λ links. links.workers ≡ workers) }
        ensures shards { IfOk result (λ links. links.shards ≡ shards) }
        ensures empty { IfOk result (λ links. links.queues ≡ replicate (2 * (workers * shards)) []) }
    {
        Ok(Links {
            workers,
            shards,
            queues: empty_queues(alloc, 2 * (workers as usize * shards as usize))?,
        })
    }

    /// Whether the two are neighbours, so that there is a link from the one to the other.
    pub fn is_link(&self, from: NodeId, to: NodeId) -> bool
        ensures { IsTrue result ↔ AreNeighbours self.now.workers self.now.shards from to }
    {
        self.place(from, to).is_some()
    }

    /// The message on its way that was sent first; `None` where there is none, or no link.
    pub fn front(&self, from: NodeId, to: NodeId) -> Option<&M>
        ensures { option_copied result ≡ slice_get (queue self.now from to) 0 }
    {
        self.queues[self.place(from, to)?].front()
    }

    /// The message on its way with so many before it; `None` where there is none, or no link.
    pub fn get(&self, from: NodeId, to: NodeId, index: usize) -> Option<&M>
        ensures { option_copied result ≡ slice_get (queue self.now from to) index }
    {
        self.queues[self.place(from, to)?].get(index)
    }

    /// How many messages are on their way; 0 where there is no link.
    pub fn len(&self, from: NodeId, to: NodeId) -> usize
        ensures { result ≡ length (queue self.now from to) }
    {
        match self.place(from, to) {
            Some(place) => self.queues[place].len(),
            None => 0,
        }
    }

    /// Makes room for so many more messages, which changes nothing else. Room is a number here, since one step may send
    /// several. That there is a link is a condition and no refusal: who sends knows the scene
    /// (docs/DECISIONS.md#bags-and-links).
    pub fn reserve(&mut self, from: NodeId, to: NodeId, additional: usize) -> Result<(), AllocError>
        requires { AreNeighbours self.old.workers self.old.shards from to }
        ensures queue { queue self.new from to ≡ queue self.old from to }
        ensures room { OnOk result (additional ≤ room self.new from to) }
        ensures kept { room self.old from to ≤ room self.new from to }
        ensures alone { ChangesOnly self.old self.new from to }
        ensures succeeds { additional ≤ room self.old from to → IsOk result }
    {
        let place = self.place(from, to).unwrap();
        self.queues[place].reserve(additional)
    }

    /// Sends the message behind all others, where room was made for it.
    pub fn push_reserved(&mut self, from: NodeId, to: NodeId, message: M)
        requires link { AreNeighbours self.old.workers self.old.shards from to }
        requires room { 0 < room self.old from to }
        ensures sent { queue self.new from to ≡ queue self.old from to ++ message ∷ [] }
        ensures room { room self.new from to + 1 ≡ room self.old from to }
        ensures alone { ChangesOnly self.old self.new from to }
    {
        let place = self.place(from, to).unwrap();
        self.queues[place].push_back_reserved(message);
    }

    /// Sends the message behind all others. Where memory is wanting it comes back, so that nothing is lost, and nothing
    /// changes.
    pub fn push(&mut self, from: NodeId, to: NodeId, message: M) -> Result<(), AllocFailed<M>>
        requires { AreNeighbours self.old.workers self.old.shards from to }
        ensures sent { OnOk result (queue self.new from to ≡ queue self.old from to ++ message ∷ []) }
        ensures alone { ChangesOnly self.old self.new from to }
        ensures unchanged { OnErr result (queue self.new from to ≡ queue self.old from to) }
        ensures comes_back { IfErr result (λ refused. refused.value ≡ message) }
        ensures succeeds { 0 < room self.old from to → IsOk result }
    {
        let place = self.place(from, to).unwrap();
        self.queues[place].push_back(message)
    }

    /// Takes off what was sent first; `None` where nothing is on its way, or there is no link.
    pub fn pop(&mut self, from: NodeId, to: NodeId) -> Option<M>
        ensures first { result ≡ slice_get (queue self.old from to) 0 }
        ensures rest { queue self.new from to ≡ drop 1 (queue self.old from to) }
        ensures room { room self.old from to ≤ room self.new from to }
        ensures alone { ChangesOnly self.old self.new from to }
    {
        let place = self.place(from, to)?;
        self.queues[place].pop_front()
    }

    /// Where the queue of this ordered pair stands; `None` where the two are no neighbours.
    fn place(&self, from: NodeId, to: NodeId) -> Option<usize>
        ensures value { result ≡ place self.now.workers self.now.shards from to }
        ensures within { IfSome result (λ place. place < length self.now.queues) }
    {
        match (from, to) {
            (NodeId::Worker(worker), NodeId::Shard(shard)) => {
                place_between(self.workers, self.shards, worker, shard)
            }
            (NodeId::Shard(shard), NodeId::Worker(worker)) => {
                Some(place_between(self.workers, self.shards, worker, shard)? + 1)
            }
            _ => None,
        }
    }
}

/// The place of the queue from the worker to the shard. That of the way back is behind it.
fn place_between(workers: u8, shards: u8, worker: u8, shard: u8) -> Option<usize>
    ensures value { result ≡ place_between workers shards worker shard }
    ensures within { IfSome result (λ place. place + 1 < 2 * (workers * shards)) }
{
    if 1 <= worker && worker <= workers && 1 <= shard && shard <= shards {
        let row = worker as usize - 1;
        Some(2 * (row * shards as usize + (shard as usize - 1)))
    } else {
        None
    }
}

fn empty_queues<M: Drop>(alloc: Global, count: usize) -> Result<Vec<VecDeque<M>>, AllocError>
    ensures { IfOk result (λ queues. map (λ q. q.items) queues.items ≡ replicate count []) }
{
    let mut queues = Vec::with_capacity(alloc, count)?;
    for number in 0..count {
        queues.push(VecDeque::new(alloc))?;
    }
    Ok(queues)
}
