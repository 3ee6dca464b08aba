//! The frequent steps of workers and shards: found out by a short plan, given room, and made. The plan of the step
//! says what comes of it.
//! Cited by stepping.rt.

ghost use Rattle.std.specs.Prelude.{◌≡◌, IfOk, IfSome, IsOk, IsTrue, Ok, OnErr, OnOk, false};
ghost use Rattle.kt_node.specs.ShortPlan.{plan_of};
ghost use Rattle.kt_store.specs.Content.{Content, empty_content};
ghost use Rattle.kt_scenario.specs.declared.step.Step.TheVariants as steps;
ghost use Rattle.kt_model.specs.Effect.{applied, step_result};
ghost use Rattle.kt_model.specs.StepPlan.{step_plan};
ghost use Rattle.kt_scenario.specs.Step.{owner};
ghost use Rattle.kt_model.specs.auxiliary.Ready.{CanApply, IsReady};
ghost use Rattle.kt_core.specs.auxiliary.Machine.{HasRoomFor, state_of};

use crate::causes::cause_of_waiting;
use crate::change::{count, make_room_in_row, update_in_row};
use crate::machine::Machine;
use crate::traffic::{add_note, make_room_on_link, send_if_any, take_off};
use kt_model::Step;
use kt_node::{Message, ShortPlan};
use kt_tuple::NodeId;
use std::alloc::{AllocError, Global};

impl Machine {
    /// The short plan of the worker's next asking, where the step is enabled.
    fn short_issue(&self, alloc: Global, node: NodeId) -> Result<Option<ShortPlan>, AllocError>
        requires { IsReady (state_of self.now empty_content) }
        ensures plan { IfOk result (λ o. IfSome o (λ e. (c : Content) →
            step_plan (state_of self.now c) (steps.Issue node) ≡ Ok (plan_of e))) }
        ensures enabled { OnErr result ((c : Content) → IsOk (step_plan (state_of self.now c) (steps.Issue node))) }
    {
        if !self.scene.has_worker(node) || !self.has_room() {
            return Ok(None);
        }
        match self.seen(node) {
            Ok(seen) => seen.short_issue(alloc),
            Err(_) => Ok(None),
        }
    }

    /// The short plan of the message that comes next from one to the other, where it is of workers and shards and
    /// heard, and the step is enabled.
    fn short_deliver(
        &self,
        alloc: Global,
        from: NodeId,
        to: NodeId,
    ) -> Result<Option<ShortPlan>, AllocError>
        requires { IsReady (state_of self.now empty_content) }
        ensures plan { IfOk result (λ o. IfSome o (λ e. (c : Content) →
            step_plan (state_of self.now c) (steps.Deliver from to) ≡ Ok (plan_of e))) }
        ensures enabled { OnErr result ((c : Content) →
            IsOk (step_plan (state_of self.now c) (steps.Deliver from to))) }
    {
        if !self.scene.are_neighbours(from, to) || !self.has_room() {
            return Ok(None);
        }
        let Some(Message::App(app)) = self.links.front(from, to) else {
            return Ok(None);
        };
        match self.seen(to) {
            Ok(seen) => seen.short_hear(alloc, from, app),
            Err(_) => Ok(None),
        }
    }

    /// The short plan of the shard's serving the worker with the match of this place, where the step is enabled.
    fn short_serve(
        &self,
        alloc: Global,
        shard: NodeId,
        worker: NodeId,
        place: u64,
    ) -> Result<Option<ShortPlan>, AllocError>
        requires { IsReady (state_of self.now empty_content) }
        ensures plan { IfOk result (λ o. IfSome o (λ e. (c : Content) →
            step_plan (state_of self.now c) (steps.Serve shard worker place) ≡ Ok (plan_of e))) }
        ensures enabled { OnErr result ((c : Content) →
            IsOk (step_plan (state_of self.now c) (steps.Serve shard worker place))) }
    {
        let step = Step::Serve {
            shard,
            worker,
            place,
        };
        if !self.scene.is_for(step) || !self.has_room() {
            return Ok(None);
        }
        let number = worker.number();
        match self.seen(shard) {
            Ok(seen) => {
                let by = cause_of_waiting(self.past.history(), shard, number);
                seen.short_serve(alloc, number, place, by)
            }
            Err(_) => Ok(None),
        }
    }

    /// The short plan of the step, where it is a frequent one and enabled. `None` says nothing of the step: its plan
    /// tells.
    fn short(&self, alloc: Global, step: Step) -> Result<Option<ShortPlan>, AllocError>
        requires { IsReady (state_of self.now empty_content) }
        ensures plan { IfOk result (λ o. IfSome o (λ e. (c : Content) →
            step_plan (state_of self.now c) step ≡ Ok (plan_of e))) }
        ensures enabled { OnErr result ((c : Content) → IsOk (step_plan (state_of self.now c) step)) }
    {
        match step {
            Step::Issue { node } => self.short_issue(alloc, node),
            Step::Deliver { from, to } => self.short_deliver(alloc, from, to),
            Step::Serve {
                shard,
                worker,
                place,
            } => self.short_serve(alloc, shard, worker, place),
            _ => Ok(None),
        }
    }

    /// Makes room for all that the short plan of the node brings. Nothing changes.
    fn make_room_for_short(&mut self, owner: NodeId, short: &ShortPlan) -> Result<(), AllocError>
        requires ready { IsReady (state_of self.old empty_content) }
        requires can { CanApply (state_of self.old empty_content) owner (plan_of short.now) }
        ensures same { (c : Content) → state_of self.new c ≡ state_of self.old c }
        ensures room { OnOk result (HasRoomFor self.new owner (plan_of short.now)) }
    {
        make_room_in_row(&mut self.nodes, owner.index())?;
        make_room_on_link(&mut self.links, owner, &short.send)?;
        self.past.make_room(owner)
    }

    /// Carries out the short plan of the step, for which there is room.
    fn carry_out_short(&mut self, step: Step, short: ShortPlan)
        requires ready { IsReady (state_of self.old empty_content) }
        requires can { CanApply (state_of self.old empty_content) (owner step) (plan_of short) }
        requires room { HasRoomFor self.old (owner step) (plan_of short) }
        ensures { (c : Content) → state_of self.new c ≡ applied (state_of self.old c) step (plan_of short) }
    {
        let ShortPlan { update, send, note } = short;
        let owner = step.owner();
        let row = owner.index();
        take_off(&mut self.links, step);
        send_if_any(&mut self.links, owner, send);
        add_note(&mut self.past, note);
        update_in_row(&mut self.nodes, row, update);
        count(&mut self.own, row);
        self.made += 1;
    }

    /// Makes the short plan of the step, or changes nothing.
    fn make_short(&mut self, step: Step, short: ShortPlan) -> Result<(), AllocError>
        requires ready { IsReady (state_of self.old empty_content) }
        requires can { CanApply (state_of self.old empty_content) (owner step) (plan_of short) }
        ensures made { OnOk result ((c : Content) →
            state_of self.new c ≡ applied (state_of self.old c) step (plan_of short)) }
        ensures same { OnErr result ((c : Content) → state_of self.new c ≡ state_of self.old c) }
    {
        match self.make_room_for_short(step.owner(), &short) {
            Ok(()) => {
                self.carry_out_short(step, short);
                Ok(())
            }
            Err(error) => {
                drop(short);
                Err(error)
            }
        }
    }

    /// Makes the step, where it has a short plan and memory suffices.
    fn short_at_once(&mut self, alloc: Global, step: Step) -> Result<bool, AllocError>
        requires { IsReady (state_of self.old empty_content) }
        ensures ready { IsReady (state_of self.new empty_content) }
        ensures made { IfOk result (λ made. IsTrue made → (c : Content) →
            step_result (state_of self.old c) step ≡ Ok (state_of self.new c)) }
        ensures left { IfOk result (λ made. made ≡ false → self.new ≡ self.old) }
        ensures same { OnErr result ((c : Content) → state_of self.new c ≡ state_of self.old c) }
        ensures enabled { OnErr result ((c : Content) → IsOk (step_plan (state_of self.old c) step)) }
    {
        let Some(short) = self.short(alloc, step)? else {
            return Ok(false);
        };
        self.make_short(step, short)?;
        Ok(true)
    }

    /// Makes the step at once, where it is a frequent one, and enabled, and memory suffices.
    pub(crate) fn at_once(&mut self, alloc: Global, step: Step) -> Result<bool, AllocError>
        requires { IsReady (state_of self.old empty_content) }
        ensures ready { IsReady (state_of self.new empty_content) }
        ensures made { IfOk result (λ made. IsTrue made → (c : Content) →
            step_result (state_of self.old c) step ≡ Ok (state_of self.new c)) }
        ensures left { IfOk result (λ made. made ≡ false → self.new ≡ self.old) }
        ensures same { OnErr result ((c : Content) → state_of self.new c ≡ state_of self.old c) }
        ensures enabled { OnErr result ((c : Content) → IsOk (step_plan (state_of self.old c) step)) }
    {
        match step {
            Step::Repeat { node } => self.repeat_at_once(alloc, node),
            _ => self.short_at_once(alloc, step),
        }
    }
}
