//! A step: all that the store says, then the plan, then all memory, then the store's write, then the change.
//! Cited by world.rt.

ghost use Rattle.std.specs.Prelude.{◌≡◌, IfErr, IfOk, IsTrue, Ok, OnErr, OnOk};
ghost use Rattle.kt_store.specs.Calls.{NeverFails};
ghost use Rattle.kt_store.specs.Content.{Content, empty_content};
ghost use Rattle.kt_model.specs.auxiliary.Backed.{IsBacked};
ghost use Rattle.kt_model.specs.Effect.{applied, step_result};
ghost use Rattle.kt_model.specs.StepPlan.{IsUndamaged, step_plan, step_plan_by};
ghost use Rattle.kt_model.specs.declared.store_reads.StoreReads.{StoreReads};
ghost use Rattle.kt_model.specs.auxiliary.Ready.{CanApply, IsReady};
ghost use Rattle.kt_scenario.specs.Step.{owner};
ghost use Rattle.kt_core.specs.auxiliary.StepPlans.{IsReadCause};
ghost use Rattle.kt_core.specs.auxiliary.Machine.{HasRoomFor, state_of};
ghost use Rattle.kt_core.specs.Stepping.{IsByPlan, IsCalledFor, IsCause, Refuses, step_counted};

use crate::machine::Machine;
use crate::store_reads::read_store;
use crate::writing::write;
use kt_model::{Step, StepError};
use kt_node::Plan;
use kt_store::CkptStore;
use std::alloc::Global;

/// The plan of the step, for which there is room; nothing has changed.
fn prepare<S: CkptStore>(
    machine: &mut Machine,
    store: &mut S,
    alloc: Global,
    step: Step,
) -> Result<Plan, StepError>
    requires ready { IsReady (state_of machine.old empty_content) }
    requires backed { IsTrue (S.is_honest store.old) → IsBacked (state_of machine.old (S.content store.old)) }
    requires undamaged { IsTrue (S.is_honest store.old) → IsUndamaged (state_of machine.old (S.content store.old)) }
    ensures plan { IsTrue (S.is_honest store.new) →
        IfOk result (λ p. step_plan (state_of machine.old (S.content store.old)) step ≡ Ok p) }
    ensures store_reads { IfOk result (λ p. (t : StoreReads)
        × (step_plan_by (state_of machine.old empty_content) t step ≡ Ok p)) }
    ensures can { IfOk result (λ p. CanApply (state_of machine.old empty_content) (owner step) p) }
    ensures leads { IfOk result (λ p. IsReady (applied (state_of machine.old empty_content) step p)) }
    ensures room { IfOk result (λ p. HasRoomFor machine.new (owner step) p) }
    ensures refusal { IsTrue (S.is_honest store.new) →
        IfErr result (λ e. Refuses e (step_plan (state_of machine.old (S.content store.old)) step)) }
    ensures same { (c : Content) → state_of machine.new c ≡ state_of machine.old c }
    ensures content { IsTrue (S.is_honest store.new) → S.content store.new ≡ S.content store.old }
    ensures honest { IsTrue (S.is_honest store.new) → IsTrue (S.is_honest store.old) }
    ensures lasts { NeverFails S.failures → IsTrue (S.is_honest store.old) → IsTrue (S.is_honest store.new) }
    ensures counts { S.counts store.new ≡ step_counted result (S.counts store.old) }
    ensures cause { IfErr result (IsReadCause (state_of machine.old empty_content) (S.is_honest store.new)) }
    ensures called { IsTrue (S.is_honest store.new) →
        IfErr result (IsCalledFor (state_of machine.old (S.content store.old)) step) }
{
    let owner = step.owner();
    let store_reads = read_store(store, alloc, owner, machine.read_set(step))?;
    let plan = machine.gathered_plan(alloc, store_reads, step)?;
    // All room is made before the one write, and the tables change after it: a refusal leaves all as it was, and no
    // write is made for a step that is refused then (docs/DECISIONS.md#the-world-over-a-store).
    machine.make_room(owner, &plan)?;
    Ok(plan)
}

/// Makes the step by its plan, or changes nothing. It is a call of its own, since a plan takes much of the stack, which
/// a frequent step does not need.
#[inline(never)]
fn make_by_plan<S: CkptStore>(
    machine: &mut Machine,
    store: &mut S,
    alloc: Global,
    step: Step,
) -> Result<(), StepError>
    requires ready { IsReady (state_of machine.old empty_content) }
    requires backed { IsTrue (S.is_honest store.old) → IsBacked (state_of machine.old (S.content store.old)) }
    requires undamaged { IsTrue (S.is_honest store.old) → IsUndamaged (state_of machine.old (S.content store.old)) }
    ensures ready { IsReady (state_of machine.new empty_content) }
    ensures effect { IsTrue (S.is_honest store.new) → OnOk result
        (step_result (state_of machine.old (S.content store.old)) step
        ≡ Ok (state_of machine.new (S.content store.new))) }
    ensures by_plan { OnOk result
        (IsByPlan (state_of machine.old empty_content) step (state_of machine.new empty_content)) }
    ensures refusal { IsTrue (S.is_honest store.new) →
        IfErr result (λ e. Refuses e (step_plan (state_of machine.old (S.content store.old)) step)) }
    ensures same { OnErr result (state_of machine.new empty_content ≡ state_of machine.old empty_content) }
    ensures content { IsTrue (S.is_honest store.new) → OnErr result (S.content store.new ≡ S.content store.old) }
    ensures honest { IsTrue (S.is_honest store.new) → IsTrue (S.is_honest store.old) }
    ensures lasts { NeverFails S.failures → IsTrue (S.is_honest store.old) → IsTrue (S.is_honest store.new) }
    ensures counts { S.counts store.new ≡ step_counted result (S.counts store.old) }
    ensures cause { IfErr result
        (IsCause (state_of machine.new (S.content store.new)) step (S.is_honest store.new)) }
    ensures called { IsTrue (S.is_honest store.new) →
        IfErr result (IsCalledFor (state_of machine.old (S.content store.old)) step) }
{
    let plan = prepare(machine, store, alloc, step)?;
    write(store, step.owner(), &plan.write)?;
    machine.carry_out(step, plan);
    Ok(())
}

/// Makes the step, or changes nothing.
pub(crate) fn make<S: CkptStore>(
    machine: &mut Machine,
    store: &mut S,
    alloc: Global,
    step: Step,
) -> Result<(), StepError>
    requires ready { IsReady (state_of machine.old empty_content) }
    requires backed { IsTrue (S.is_honest store.old) → IsBacked (state_of machine.old (S.content store.old)) }
    requires undamaged { IsTrue (S.is_honest store.old) → IsUndamaged (state_of machine.old (S.content store.old)) }
    ensures ready { IsReady (state_of machine.new empty_content) }
    ensures effect { IsTrue (S.is_honest store.new) → OnOk result
        (step_result (state_of machine.old (S.content store.old)) step
        ≡ Ok (state_of machine.new (S.content store.new))) }
    ensures by_plan { OnOk result
        (IsByPlan (state_of machine.old empty_content) step (state_of machine.new empty_content)) }
    ensures refusal { IsTrue (S.is_honest store.new) →
        IfErr result (λ e. Refuses e (step_plan (state_of machine.old (S.content store.old)) step)) }
    ensures same { OnErr result (state_of machine.new empty_content ≡ state_of machine.old empty_content) }
    ensures content { IsTrue (S.is_honest store.new) → OnErr result (S.content store.new ≡ S.content store.old) }
    ensures honest { IsTrue (S.is_honest store.new) → IsTrue (S.is_honest store.old) }
    ensures lasts { NeverFails S.failures → IsTrue (S.is_honest store.old) → IsTrue (S.is_honest store.new) }
    ensures counts { S.counts store.new ≡ step_counted result (S.counts store.old) }
    ensures cause { IfErr result
        (IsCause (state_of machine.new (S.content store.new)) step (S.is_honest store.new)) }
    ensures called { IsTrue (S.is_honest store.new) →
        IfErr result (IsCalledFor (state_of machine.old (S.content store.old)) step) }
{
    match machine.at_once(alloc, step) {
        Ok(true) => Ok(()),
        Ok(false) => make_by_plan(machine, store, alloc, step),
        Err(_) => Err(StepError::OutOfMemory),
    }
}
