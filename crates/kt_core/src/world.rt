//! The world: what its callers see of it, and its step.
//! Cited by lending.rt, resuming.rt, start.rt; other crates.

ghost use Rattle.std.specs.Prelude.{◌≡◌, ◌≢◌, ◌↔◌, ◌+◌, false, true, is_some, length, map, slice_get};
ghost use Rattle.std.specs.Prelude.{IfErr, IfOk, IsTrue, Ok, OnErr, OnOk};
ghost use Rattle.std.specs.Option.{option_copied, option_map};
ghost use Rattle.kt_store.specs.Content.{is_fresh};
ghost use Rattle.kt_tuple.specs.Node.{node_index};
ghost use Rattle.kt_shard.specs.Table.{at};
ghost use Rattle.kt_core.specs.declared.world.OpenError.TheVariants as opened;

use crate::machine::Machine;
use crate::planning::is_refused;
use crate::space::permanent_tuples;
use crate::stepping::make;
use crate::store_reads::read_store;
use crate::tables::{are_steady, bag_at};
use kt_history::History;
use kt_model::{Step, StepError};
use kt_node::{AppMessage, Message, Mode};
use kt_scenario::Scene;
use kt_shard::Shard;
use kt_space::Bag;
use kt_store::{CkptStore, StoreError};
use kt_tuple::{MAX_SHARDS, NodeId, Tuple};
use kt_vote::Ballot;
use kt_worker::Worker;
use std::alloc::{AllocError, Global};
use std::marker::Model;
use thiserror::Error;

/// Why a world was not opened.
#[derive(Clone, Copy, Debug, PartialEq, Eq, Error)]
pub enum OpenError {
    /// Something was stored on the store before; a world begins with nothing.
    #[error("NotFresh")]
    NotFresh,
    /// A call of the store was refused.
    #[error("Store")]
    Store(StoreError),
    /// Memory ran out for the tables of the world.
    #[error("OutOfMemory")]
    OutOfMemory,
}

/// A world that was not opened, and what was to be its own.
#[derive(Debug, Drop)]
pub struct OpenRefused<S> {
    /// Why the world was not opened.
    pub cause: OpenError,
    /// The scene that was handed in, unchanged.
    pub scene: Scene,
    /// The store that was handed in. While it is honest, it holds what it held.
    pub store: S,
}

/// The workers and shards of a scene, what is on its way between them, what happened so far, and the store with their
/// checkpoints. While the store is honest, each value is what some list of steps leads to from the opening of some
/// scene, or from what a store held that was resumed.
#[derive(Debug, Drop)]
pub struct World<S: CkptStore> {
    pub(crate) machine: Machine,
    pub(crate) store: S,
}

impl<S: CkptStore> Model for World<S> {
    ghost use Rattle.kt_core.specs.auxiliary.Machine.{state_of};
    ghost use Rattle.kt_core.specs.World.{WorldModel};
    ghost use Rattle.kt_core.specs.auxiliary.Kept.{IsWorld};

    ghost Value = { WorldModel };

    ghost view = { λ w. record {
      state = state_of w.machine (S.content w.store);
      is_honest = S.is_honest w.store;
      counts = S.counts w.store;
    } };

    ghost invariant = { λ w. IsWorld (state_of w.machine (S.content w.store)) (S.is_honest w.store) };
}

impl<S: CkptStore> World<S> {
    ghost use Rattle.kt_core.specs.Lent.{is_allowed, kept, message_at, shard, worker};
    ghost use Rattle.kt_core.specs.Stepping.{IsByPlan, IsCalledFor, IsCause, Refuses, step_counted};
    ghost use Rattle.kt_core.specs.Store.{IsCountedBeside, IsFault};
    ghost use Rattle.kt_core.specs.World.{IsOpenCause, beside, opening_counted};
    ghost use Rattle.kt_store.specs.Calls.{NeverFails, counted};
    ghost use Rattle.kt_scenario.specs.Scene.{is_node};
    ghost use Rattle.kt_model.specs.Effect.{step_result};
    ghost use Rattle.kt_model.specs.Cut.{permanent_tuples};
    ghost use Rattle.kt_model.specs.Forced.{IsForced};
    ghost use Rattle.kt_model.specs.Headline.{Headline, IsNoted, is_steady, lent_bags};
    ghost use Rattle.kt_model.specs.StepPlan.{is_enabled, step_plan};
    ghost use Rattle.kt_model.specs.ReadSet.{read_set_of, empty_read_set, poll_at};
    ghost use Rattle.kt_model.specs.Reached.{IsReached, opening};
    ghost use Rattle.kt_model.specs.Resumed.{AreFit};
    ghost use Rattle.kt_model.specs.State.{link, node};
    ghost use Rattle.kt_state.specs.Node.{mode_of};

    /// The world of the scene over a store on which nothing was ever stored. Where it is refused, scene and store come
    /// back, and the store holds what it held.
    pub fn open(alloc: Global, scene: Scene, store: S) -> Result<World<S>, OpenRefused<S>>
        ensures opened { IfOk result (λ w. IsTrue w.is_honest → w.state ≡ opening scene) }
        ensures beside { IfOk result (λ w. beside w.state ≡ opening scene) }
        ensures fresh { IfOk result (λ w. IsTrue w.is_honest → is_fresh (S.content store) ≡ true) }
        ensures honest { IfOk result (λ w. IsTrue w.is_honest → IsTrue (S.is_honest store)) }
        ensures lasts { IfOk result (λ w. NeverFails S.failures → IsTrue (S.is_honest store) → IsTrue w.is_honest) }
        ensures headline { IfOk result (λ w. IsTrue w.is_honest → Headline w.state) }
        ensures scene_back { IfErr result (λ refused. refused.scene ≡ scene) }
        ensures content_back { IfErr result (λ refused.
            IsTrue (S.is_honest refused.store) → S.content refused.store ≡ S.content store) }
        ensures honest_back { IfErr result (λ refused.
            IsTrue (S.is_honest refused.store) → IsTrue (S.is_honest store)) }
        ensures not_fresh { IfErr result (λ refused.
            refused.cause ≡ opened.NotFresh → IsTrue (S.is_honest refused.store) → is_fresh (S.content store) ≡ false) }
        ensures wanted { IfErr result (λ refused. refused.cause ≡ opened.OutOfMemory
            → IsTrue (S.is_honest refused.store) → is_fresh (S.content store) ≡ true) }
        ensures cause { IfErr result (λ refused. IsOpenCause (S.is_honest refused.store) refused.cause) }
        ensures counts { IfOk result (λ w. w.counts ≡ S.counts store) }
        ensures counts_back { IfErr result (λ refused.
            S.counts refused.store ≡ opening_counted refused.cause (S.counts store)) }
    {
        let mut store = store;
        match store.is_fresh() {
            Ok(true) => World::open_fresh(alloc, scene, store),
            Ok(false) => Err(OpenRefused {
                cause: OpenError::NotFresh,
                scene,
                store,
            }),
            Err(refusal) => Err(OpenRefused {
                cause: OpenError::Store(refusal),
                scene,
                store,
            }),
        }
    }

    /// As `open`, over a store that says that nothing was ever stored on it: want of memory alone refuses it.
    fn open_fresh(alloc: Global, scene: Scene, store: S) -> Result<World<S>, OpenRefused<S>>
        requires { IsTrue (S.is_honest store) → is_fresh (S.content store) ≡ true }
        ensures opened { IfOk result (λ w. IsTrue w.is_honest → w.state ≡ opening scene) }
        ensures beside { IfOk result (λ w. beside w.state ≡ opening scene) }
        ensures honest { IfOk result (λ w. w.is_honest ≡ S.is_honest store) }
        ensures headline { IfOk result (λ w. IsTrue w.is_honest → Headline w.state) }
        ensures scene_back { IfErr result (λ refused. refused.scene ≡ scene) }
        ensures counts { IfOk result (λ w. w.counts ≡ S.counts store) }
        ensures store_back { IfErr result (λ refused. refused.store ≡ store) }
        ensures cause { IfErr result (λ refused. refused.cause ≡ opened.OutOfMemory) }
    {
        match Machine::open(alloc, scene) {
            Ok(machine) => Ok(World { machine, store }),
            Err(scene) => Err(OpenRefused {
                cause: OpenError::OutOfMemory,
                scene,
                store,
            }),
        }
    }

    /// Makes the step. It makes a node that is up roll back, or take a checkpoint that it did not begin, only where
    /// that has to be (`IsForced`). It notes one thing at most, and cuts no log but its owner's (`IsNoted`). What it
    /// leaves in the store fits the scene (`AreFit`), so that a world can go on from there. A refused step changes
    /// nothing. Of several refusals the first that stands comes. A refusal of the store comes before all that the store
    /// would have told, and only of a step for which it is called. `OutOfMemory` comes only of a step that is enabled.
    pub fn step(&mut self, alloc: Global, step: Step) -> Result<(), StepError>
        ensures effect { IsTrue self.new.is_honest → OnOk result (step_result self.old.state step ≡ Ok self.new.state) }
        ensures by_plan { OnOk result (IsByPlan self.old.state step self.new.state) }
        ensures made { OnOk result (self.new.state.made ≡ self.old.state.made + 1) }
        ensures scene { OnOk result (self.new.state.scene ≡ self.old.state.scene) }
        ensures refusal { IsTrue self.new.is_honest → IfErr result (λ e. Refuses e (step_plan self.old.state step)) }
        ensures same { IsTrue self.new.is_honest → OnErr result (self.new.state ≡ self.old.state) }
        ensures beside { OnErr result (beside self.new.state ≡ beside self.old.state) }
        ensures honest { IsTrue self.new.is_honest → IsTrue self.old.is_honest }
        ensures lasts { NeverFails S.failures → IsTrue self.old.is_honest → IsTrue self.new.is_honest }
        ensures counts { self.new.counts ≡ step_counted result self.old.counts }
        ensures cause { IfErr result (IsCause self.new.state step self.new.is_honest) }
        ensures called { IsTrue self.new.is_honest → IfErr result (IsCalledFor self.old.state step) }
        ensures headline { IsTrue self.new.is_honest → Headline self.new.state }
        ensures forced { IsTrue self.new.is_honest → OnOk result (IsForced self.old.state step self.new.state) }
        ensures noted { IsTrue self.new.is_honest → OnOk result (IsNoted self.old.state step self.new.state) }
        ensures fits { IsTrue self.new.is_honest → AreFit self.new.state.scene self.new.state.content }
    {
        make(&mut self.machine, &mut self.store, alloc, step)
    }

    /// Whether the step is enabled: nothing but the store or want of memory would refuse it. The store's refusal, where
    /// something has to be known of it that it does not say. It makes the plan and drops it, and takes the memory for
    /// it; where that is wanting it answers yes (docs/DECISIONS.md#the-world-over-a-store).
    pub fn can(&mut self, alloc: Global, step: Step) -> Result<bool, StoreError>
        ensures value { IsTrue self.new.is_honest → IfOk result (λ can. can ≡ is_enabled self.old.state step) }
        ensures same { IsTrue self.new.is_honest → self.new.state ≡ self.old.state }
        ensures beside { beside self.new.state ≡ beside self.old.state }
        ensures honest { IsTrue self.new.is_honest → IsTrue self.old.is_honest }
        ensures lasts { NeverFails S.failures → IsTrue self.old.is_honest → IsTrue self.new.is_honest }
        ensures counts { self.new.counts ≡ counted result self.old.counts }
        ensures cause { IfErr result (IsFault self.new.is_honest) }
        ensures called { OnErr result (read_set_of self.old.state step ≢ empty_read_set) }
    {
        let read_set = self.machine.read_set(step);
        let store_reads = read_store(&mut self.store, alloc, step.owner(), read_set)?;
        let step_plan = self.machine.plan(alloc, store_reads, step);
        let refused = is_refused(&step_plan);
        drop(step_plan);
        Ok(!refused)
    }

    /// Whether the step is enabled, the limit of steps left aside: nothing but the limit, the store or want of memory
    /// would refuse it. So who asks what a node could do next has an answer at the limit too, and the step is then
    /// refused by the limit's own number (docs/DECISIONS.md#steps). All else is as of `can`.
    pub fn is_allowed(&mut self, alloc: Global, step: Step) -> Result<bool, StoreError>
        ensures value { IsTrue self.new.is_honest → IfOk result (λ can. can ≡ is_allowed self.old.state step) }
        ensures same { IsTrue self.new.is_honest → self.new.state ≡ self.old.state }
        ensures beside { beside self.new.state ≡ beside self.old.state }
        ensures honest { IsTrue self.new.is_honest → IsTrue self.old.is_honest }
        ensures lasts { NeverFails S.failures → IsTrue self.old.is_honest → IsTrue self.new.is_honest }
        ensures counts { self.new.counts ≡ counted result self.old.counts }
        ensures cause { IfErr result (IsFault self.new.is_honest) }
        ensures called { OnErr result (read_set_of self.old.state step ≢ empty_read_set) }
    {
        let read_set = self.machine.read_set(step);
        let store_reads = read_store(&mut self.store, alloc, step.owner(), read_set)?;
        let unlimited_plan = self.machine.unlimited_plan(alloc, store_reads, step);
        let refused = is_refused(&unlimited_plan);
        drop(unlimited_plan);
        Ok(!refused)
    }

    /// What happened so far: a note for each act and each cut, in order.
    pub fn history(&self) -> &History
        ensures value { result.now.notes ≡ self.now.state.history }
        ensures reached { IsTrue self.now.is_honest → IsReached self.now.state }
        ensures headline { IsTrue self.now.is_honest → Headline self.now.state }
    {
        self.machine.past.history()
    }

    /// How many steps were made so far, `MAX_STEPS` at most.
    pub fn made(&self) -> u64
        ensures { result ≡ self.now.state.made }
    {
        self.machine.made
    }

    /// How often the device of its store has failed so far, as the store counts it.
    pub fn faults(&self) -> u64
        ensures { result ≡ self.now.counts.faults }
    {
        self.store.faults()
    }

    /// How often its store refused memory so far, as the store counts it. So a step that the store refused for memory
    /// is told from one that had no memory itself.
    pub fn wants(&self) -> u64
        ensures { result ≡ self.now.counts.wants }
    {
        self.store.wants()
    }

    /// The scene that it was opened with.
    pub fn scene(&self) -> &Scene
        ensures { result.now ≡ self.now.state.scene }
    {
        &self.machine.scene
    }

    /// How many steps of its own the node made, 0 for a node that is not in the scene.
    pub fn steps_of(&self, id: NodeId) -> u64
        ensures value { IsTrue (is_node self.now.state.scene id) → result ≡ at 0 self.now.state.own (node_index id) }
        ensures absent { is_node self.now.state.scene id ≡ false → result ≡ 0 }
    {
        if !self.machine.scene.has(id) {
            return 0;
        }
        match self.machine.own.get(id.index()) {
            Some(count) => *count,
            None => 0,
        }
    }

    /// What mode the node is in, `None` for a node that is not in the scene.
    pub fn mode(&self, id: NodeId) -> Option<Mode>
        ensures value { result ≡ option_map mode_of (node self.now.state id) }
        ensures there { is_some result ≡ is_node self.now.state.scene id }
    {
        Some(self.machine.node_at(id)?.mode())
    }

    /// Of the messages on their way from one to the other the one at this place, counted from 0 in the order of
    /// sending; `None` past the last, and for two that are no neighbours.
    pub fn link_at(&self, from: NodeId, to: NodeId, index: usize) -> Option<&Message>
        ensures { option_copied result ≡ message_at self.now.state from to index }
    {
        self.machine.message_at(from, to, index)
    }

    /// How many messages are on their way from one to the other: 0 for two that are no neighbours.
    pub fn link_len(&self, from: NodeId, to: NodeId) -> usize
        ensures { result ≡ length (link self.now.state from to) }
    {
        self.machine.link_len(from, to)
    }

    /// Of the messages that the node keeps back the one at this place, counted from 0, and who sent it; `None` past the
    /// last, and for a node that is down or not in the scene.
    pub fn kept_at(&self, id: NodeId, index: usize) -> Option<&(NodeId, AppMessage)>
        ensures { option_copied result ≡ slice_get (kept self.now.state id) index }
    {
        self.machine.kept_at(id, index)
    }

    /// How many messages the node keeps back: 0 for a node that is down or not in the scene.
    pub fn kept_len(&self, id: NodeId) -> usize
        ensures { result ≡ length (kept self.now.state id) }
    {
        self.machine.kept_len(id)
    }

    /// The node's ballot while it is held or rolls back, as the initiator or as a participant; else `None`.
    pub fn ballot(&self, id: NodeId) -> Option<&Ballot>
        ensures { option_copied result ≡ poll_at self.now.state id }
    {
        self.machine.ballot_at(id)
    }

    /// The worker that the node is, while it is up.
    pub fn worker(&self, id: NodeId) -> Option<&Worker>
        ensures { option_copied result ≡ worker self.now.state id }
    {
        self.machine.worker_at(id)
    }

    /// The shard that the node is, while it is up.
    pub fn shard(&self, id: NodeId) -> Option<&Shard>
        ensures { option_map (λ y. y.now.state) result ≡ shard self.now.state id }
    {
        self.machine.shard_at(id)
    }

    /// A shard equal to the one that the node is, while it is up; else `None`. The two share all until the node's next
    /// step, so nothing is copied where the one given is dropped before; else that step copies it. Where memory is
    /// wanting nothing changes.
    pub fn share_shard(&mut self, alloc: Global, id: NodeId) -> Result<Option<Shard>, AllocError>
        ensures value { IfOk result (λ found. option_map (λ y. y.state) found ≡ shard self.old.state id) }
        ensures same { self.new ≡ self.old }
    {
        self.machine.share_shard_at(alloc, id)
    }

    /// Whether no node is down or rolls back. It takes no memory.
    pub fn is_steady(&self) -> bool
        ensures value { result ≡ is_steady self.now.state }
        ensures headline { IsTrue self.now.is_honest → Headline self.now.state }
    {
        are_steady(&self.machine.nodes)
    }

    /// For each shard in order its bag: none while it is down, and none past the last shard. It takes no memory.
    pub fn bags(&self) -> [Option<&Bag>; MAX_SHARDS as usize]
        ensures value { map (λ bag. option_map (λ b. b.now.tuples) bag) result ≡ lent_bags self.now.state }
        ensures headline { IsTrue self.now.is_honest → Headline self.now.state }
    {
        let nodes = &self.machine.nodes;
        [
            bag_at(nodes, 1),
            bag_at(nodes, 2),
            bag_at(nodes, 3),
            bag_at(nodes, 4),
            bag_at(nodes, 5),
            bag_at(nodes, 6),
            bag_at(nodes, 7),
            bag_at(nodes, 8),
        ]
    }

    /// The tuples of each shard's permanent checkpoint, shard after shard; a tentative one counts from the moment that
    /// its Yes is written. The store's refusal, or `Memory`.
    pub fn permanent_space(&mut self, alloc: Global) -> Result<Vec<Tuple>, StoreError>
        ensures value { IsTrue self.new.is_honest →
            IfOk result (λ tuples. tuples.items ≡ permanent_tuples self.old.state) }
        ensures headline { IsTrue self.new.is_honest → Headline self.old.state }
        ensures same { IsTrue self.new.is_honest → self.new.state ≡ self.old.state }
        ensures beside { beside self.new.state ≡ beside self.old.state }
        ensures honest { IsTrue self.new.is_honest → IsTrue self.old.is_honest }
        ensures lasts { NeverFails S.failures → IsTrue self.old.is_honest → IsTrue self.new.is_honest }
        ensures counts { IsCountedBeside result self.old.counts self.new.counts }
        ensures cause { IfErr result (IsFault self.new.is_honest) }
    {
        permanent_tuples(&mut self.store, alloc, self.machine.scene.shards())
    }

    /// Ends the world and hands its store on, with all that is stored.
    pub fn into_store(self) -> S
        ensures content { S.content result ≡ self.state.content }
        ensures honest { S.is_honest result ≡ self.is_honest }
        ensures counts { S.counts result ≡ self.counts }
    {
        self.store
    }
}
