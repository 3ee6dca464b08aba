//! A worker asks once more: look, make room, act. No plan is built; that of the step says what comes of it.
//! Cited by short_plans.rt.

ghost use Rattle.std.specs.Prelude.{◌≡◌, ◌≤◌, IfOk, IfSome, IsOk, IsTrue, Ok, OnErr, OnOk, false};
ghost use Rattle.kt_history.specs.Chronicle.{room_of};
ghost use Rattle.kt_link.specs.Network.{room};
ghost use Rattle.kt_node.specs.AtOnce.{again_plan, said_plan};
ghost use Rattle.kt_store.specs.Content.{Content, empty_content};
ghost use Rattle.kt_scenario.specs.declared.step.Step.TheVariants as steps;
ghost use Rattle.kt_model.specs.Effect.{applied, step_result};
ghost use Rattle.kt_model.specs.StepPlan.{step_plan};
ghost use Rattle.kt_model.specs.auxiliary.Ready.{AreNeighbours, CanApply, IsReady};
ghost use Rattle.kt_core.specs.auxiliary.Machine.{state_of};

use crate::change::{count, say_in_row};
use crate::machine::Machine;
use crate::traffic::send_one;
use kt_node::{Again, Said};
use kt_tuple::NodeId;
use std::alloc::{AllocError, Global};

impl Machine {
    /// What the worker asks once more, where the step is enabled.
    fn asked_again(&self, node: NodeId) -> Option<Again<'_>>
        requires { IsReady (state_of self.now empty_content) }
        ensures { IfSome result (λ r. (c : Content) →
            step_plan (state_of self.now c) (steps.Repeat node) ≡ Ok (again_plan node r)) }
    {
        if !self.scene.has_worker(node) || !self.has_room() {
            return None;
        }
        match self.seen(node) {
            Ok(seen) => seen.asked_again(),
            Err(_) => None,
        }
    }

    /// Makes room for one message and one note of the node. Nothing changes.
    fn make_room_to_say(&mut self, node: NodeId, to: NodeId) -> Result<(), AllocError>
        requires { AreNeighbours self.old.scene node to }
        ensures same { (c : Content) → state_of self.new c ≡ state_of self.old c }
        ensures link { OnOk result (1 ≤ room self.new.links node to) }
        ensures history { OnOk result (1 ≤ room_of self.new.past node) }
    {
        self.links.reserve(node, to, 1)?;
        self.past.make_room(node)
    }

    /// The worker says this, for which there is room, and it is noted.
    fn say(&mut self, node: NodeId, said: Said)
        requires ready { IsReady (state_of self.old empty_content) }
        requires can { CanApply (state_of self.old empty_content) node (said_plan node said) }
        requires link { 1 ≤ room self.old.links node said.to }
        requires history { 1 ≤ room_of self.old.past node }
        ensures { (c : Content) → state_of self.new c ≡
            applied (state_of self.old c) (steps.Repeat node) (said_plan node said) }
    {
        let row = node.index();
        let to = said.to;
        let (message, note) = said.into_parts(node);
        send_one(&mut self.links, node, to, message);
        self.past.add(note);
        say_in_row(&mut self.nodes, row, to);
        count(&mut self.own, row);
        self.made += 1;
    }

    /// The worker says this, and it is noted, or nothing changes.
    fn say_at_once(&mut self, node: NodeId, said: Said) -> Result<(), AllocError>
        requires ready { IsReady (state_of self.old empty_content) }
        requires can { CanApply (state_of self.old empty_content) node (said_plan node said) }
        ensures made { OnOk result ((c : Content) → state_of self.new c ≡
            applied (state_of self.old c) (steps.Repeat node) (said_plan node said)) }
        ensures same { OnErr result ((c : Content) → state_of self.new c ≡ state_of self.old c) }
    {
        self.make_room_to_say(node, said.to)?;
        self.say(node, said);
        Ok(())
    }

    /// Makes the step in which the worker asks once more, where it is enabled and memory suffices. Where it is not
    /// enabled nothing is done: the plan says why.
    pub(crate) fn repeat_at_once(&mut self, alloc: Global, node: NodeId) -> Result<bool, AllocError>
        requires { IsReady (state_of self.old empty_content) }
        ensures ready { IsReady (state_of self.new empty_content) }
        ensures made { IfOk result (λ made. IsTrue made → (c : Content) →
            step_result (state_of self.old c) (steps.Repeat node) ≡ Ok (state_of self.new c)) }
        ensures left { IfOk result (λ made. made ≡ false → self.new ≡ self.old) }
        ensures same { OnErr result ((c : Content) → state_of self.new c ≡ state_of self.old c) }
        ensures enabled { OnErr result ((c : Content) →
            IsOk (step_plan (state_of self.old c) (steps.Repeat node))) }
    {
        let Some(again) = self.asked_again(node) else {
            return Ok(false);
        };
        let said = again.said(alloc)?;
        self.say_at_once(node, said)?;
        Ok(true)
    }
}
