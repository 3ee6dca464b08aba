//! A world goes on by the policy, and the steps are listed.
//! Cited by completing.rt.

ghost use Rattle.std.specs.Prelude.{◌≡◌, IfErr, IfOk, IsTrue, OnErr};
ghost use Rattle.kt_core.specs.Stepping.{step_counted};
ghost use Rattle.kt_stage.specs.Asking.{IsAsked};
ghost use Rattle.kt_stage.specs.Policy.{first_some, next_step};
ghost use Rattle.kt_complete.specs.Completion.{IsHeldUp};
ghost use Rattle.kt_complete.specs.auxiliary.Going.{EndsSo, IsOneMore, MakesNext, WentOn};

use kt_core::{Faults, Step, StepError, World};
use kt_scene::ReplayFault;
use kt_stage::next_for;
use kt_store::{CkptStore, StoreError};
use kt_tuple::{ALL_NODES, NodeId};
use std::alloc::Global;

/// The next step of the first of these nodes that has one. The world stays.
fn next_among<S: CkptStore>(
    nodes: &[NodeId],
    world: &mut World<S>,
    alloc: Global,
    faults: &Faults,
) -> Result<Option<Step>, StoreError>
    ensures { IsAsked S.CkptStore world.old world.new
        (λ s x. x ≡ first_some (next_step s faults.now) nodes.now) result }
{
    let Some((node, later)) = nodes.split_first() else {
        return Ok(None);
    };
    match next_for(alloc, world, faults, *node)? {
        Some(step) => Ok(Some(step)),
        None => next_among(later, world, alloc, faults),
    }
}

/// Makes the step that the policy gives next, if there is one: that of the first node, in node order, that has one.
fn make_next<S: CkptStore>(alloc: Global, world: &mut World<S>) -> Result<Option<Step>, StepError>
    ensures made { IfOk result (MakesNext world.old world.new) }
    ensures more { IfOk result (IsOneMore world.old world.new) }
    ensures same { IsTrue world.new.is_honest → OnErr result (world.new.state ≡ world.old.state) }
    ensures held_up { IfErr result (IsHeldUp world.new.state world.new.is_honest) }
    ensures honest { IsTrue world.new.is_honest → IsTrue world.old.is_honest }
    ensures counts { world.new.counts ≡ step_counted result world.old.counts }
{
    // No fault is asked for.
    let none = Faults::new(alloc);
    match next_among(&ALL_NODES, world, alloc, &none) {
        Ok(next) => match next {
            Some(step) => match world.step(alloc, step) {
                Ok(()) => Ok(Some(step)),
                Err(cause) => Err(cause),
            },
            None => Ok(None),
        },
        Err(refusal) => Err(StepError::Store(refusal)),
    }
}

/// Makes the policy's steps until no node has a next one, and lists each behind the others. It ends early with the
/// first step that is refused, or where there is no memory to list one more; those before it stay made.
pub(crate) fn go_on<S: CkptStore>(
    alloc: Global,
    world: &mut World<S>,
    steps: &mut Vec<Step>,
) -> Result<(), ReplayFault>
    ensures went { WentOn world.old world.new steps.old.items steps.new.items }
    ensures ended { EndsSo world.old.counts world.new steps.new.items result }
{
    'going: loop {
        // The room comes first, so that each step that is made is listed.
        if steps.reserve(1).is_err() {
            return Err(ReplayFault::Memory);
        }
        match make_next(alloc, world) {
            Ok(made) => match made {
                Some(step) => steps.push_reserved(step),
                None => return Ok(()),
            },
            Err(cause) => {
                let at = steps.len() + 1;
                return Err(ReplayFault::Step { at, cause });
            }
        }
    }
}
