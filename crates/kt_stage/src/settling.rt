//! A world settles: on one thread, step after step by the policy, until no node has a next one. It takes no lock.
//! Cited by no other file of crates/.

ghost use Rattle.std.specs.Prelude.{◌≡◌, None, List, IfErr, IfOk, IfSome, IsTrue, OnOk};
ghost use Rattle.kt_core.specs.Lent.{is_allowed};
ghost use Rattle.kt_core.specs.Stepping.{IsCause, step_counted};
ghost use Rattle.kt_stage.specs.Asking.{IsAsked};
ghost use Rattle.kt_store.specs.Calls.{NeverFails};
ghost use Rattle.kt_stage.specs.Policy.{first_some, next_step};
ghost use Rattle.kt_stage.specs.Settling.{IsHeldUp, Settles, next_of_first};
ghost use Rattle.kt_scenario.specs.declared.step.Step.{Step as Made};

use crate::policy::next_for;
use kt_core::{Faults, Step, StepError, World};
use kt_store::{CkptStore, StoreError};
use kt_tuple::{ALL_NODES, NodeId};
use std::alloc::Global;

/// The next step of the first of these nodes that has one. The world stays.
fn next_among<S: CkptStore>(
    nodes: &[NodeId],
    world: &mut World<S>,
    alloc: Global,
    faults: &Faults,
) -> Result<Option<Step>, StoreError>
    ensures next { IsAsked S.CkptStore world.old world.new
        (λ s x. x ≡ first_some (next_step s faults.now) nodes.now) result }
    ensures allowed { IsTrue world.new.is_honest
        → IfOk result (λ x. IfSome x (λ step. IsTrue (is_allowed world.old.state step))) }
{
    let Some((node, later)) = nodes.split_first() else {
        return Ok(None);
    };
    match next_for(alloc, world, faults, *node)? {
        Some(step) => Ok(Some(step)),
        None => next_among(later, world, alloc, faults),
    }
}

/// Makes steps until no node has a next one: again and again that of the first node, in node order, for which
/// `next_for` has one. Each step spends the fault lines that ask for it.
///
/// It ends early with the refusal of the first step that is refused: `StepLimit`, of the store, or `OutOfMemory`. That
/// step is not made and marks no line; those before it stay made.
pub fn settle<S: CkptStore>(
    alloc: Global,
    world: &mut World<S>,
    faults: &mut Faults,
) -> Result<(), StepError>
    ensures settles { (steps : List Made) × Settles world.old world.new faults.old faults.new steps }
    ensures over { IsTrue world.new.is_honest → OnOk result (next_of_first world.new.state faults.new ≡ None) }
    ensures held_up { IsTrue world.new.is_honest → IfErr result (IsHeldUp world.new.state faults.new) }
    ensures cause { IfErr result (λ e. (step : Made) × IsCause world.new.state step world.new.is_honest e) }
    ensures lasts { NeverFails S.failures → IsTrue world.old.is_honest → IsTrue world.new.is_honest }
    ensures counts { world.new.counts ≡ step_counted result world.old.counts }
{
    while let Some(step) = next_among(&ALL_NODES, world, alloc, faults)? {
        world.step(alloc, step)?;
        faults.spend(&step);
    }
    Ok(())
}
