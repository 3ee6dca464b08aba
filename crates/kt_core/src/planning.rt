//! What a step's owner makes of it: the table of steps, over what each node plans.
//! Cited by at_once.rt, short_plans.rt, stepping.rt, world.rt.

ghost use Rattle.std.specs.Prelude.{◌≡◌, ◌+◌, ◌<◌, ◌^◌, IfOk, IfErr, IsTrue, is_ok};
ghost use Rattle.kt_store.specs.Content.{Content, empty_content};
ghost use Rattle.kt_state.specs.Refusing.{Gives as Plans};
ghost use Rattle.kt_state.specs.Plan.{Planned};
ghost use Rattle.kt_node.specs.Speaking.{CanAct};
ghost use Rattle.kt_node.specs.Saving.{CanSaveNode};
ghost use Rattle.kt_node.specs.View.{view_of};
ghost use Rattle.kt_model.specs.declared.error.StepError.TheVariants.{NoNode};
ghost use Rattle.kt_model.specs.StepPlan.{hear, of_owner, step_plan_by};
ghost use Rattle.kt_state.specs.Node.{node_number};
ghost use Rattle.kt_core.specs.auxiliary.Machine.{Gives};
ghost use Rattle.kt_core.specs.auxiliary.StepPlans.{is_refused, voting_owner_plan};

use crate::causes::cause_of_waiting;
use crate::machine::Machine;
use crate::roles::role_in;
use kt_model::{Step, StepError, StoreReads};
use kt_node::{Message, Plan, Refusal, Stored, View};
use kt_tuple::NodeId;
use std::alloc::Global;

/// The owner's plan or refusal, as that of the step.
fn as_step(planned: Result<Plan, Refusal>) -> Result<Plan, StepError>
    ensures { (due : Planned) → Plans planned due → Gives result (of_owner due) }
{
    Ok(planned?)
}

/// The incarnation and the permanent checkpoint that were read.
fn stored_in(store_reads: StoreReads) -> Stored
    ensures { result ≡ store_reads.stored }
{
    let StoreReads {
        stored,
        permanent,
        tentative,
        ..
    } = store_reads;
    drop(permanent);
    drop(tentative);
    stored
}

/// What the node makes of a message from another.
fn heard(
    view: View<'_>,
    alloc: Global,
    store_reads: StoreReads,
    from: NodeId,
    message: &Message,
) -> Result<Plan, Refusal>
    requires acts { CanAct (view_of view) }
    requires saves { CanSaveNode (view_of view) view.node.now.node }
    requires small { store_reads.stored.incarnation + 1 < 2 ^ 64 }
    ensures { Plans result (hear (view_of view.entry) store_reads from message.now) }
{
    let verdict = store_reads.verdict;
    // What was read is dropped by hand, here and below, which is cheaper to prove
    // (docs/PERFORMANCE.md#what-makes-a-proof-dear).
    match message {
        Message::App(app) => {
            drop(store_reads);
            view.hear_app(alloc, from, app)
        }
        Message::CheckAsk(ask) => {
            let permanent = store_reads.permanent.as_ref();
            let tentative = store_reads.tentative.as_ref();
            let plan = view.hear_check(alloc, from, *ask, verdict, permanent, tentative);
            drop(store_reads);
            plan
        }
        Message::RollAsk(ask) => {
            let permanent = store_reads.permanent.as_ref();
            let plan = view.hear_rollback(alloc, from, *ask, verdict, permanent);
            drop(store_reads);
            plan
        }
        Message::Vote(vote) => {
            drop(store_reads);
            view.hear_vote(alloc, from, *vote)
        }
        Message::Verdict { instance, yes } => {
            view.hear_verdict(alloc, stored_in(store_reads), *instance, *yes)
        }
    }
}

/// What the owner of a step of checks or rollbacks makes of it.
fn voting(
    view: View<'_>,
    alloc: Global,
    store_reads: StoreReads,
    step: Step,
) -> Result<Plan, Refusal>
    requires acts { CanAct (view_of view) }
    requires saves { CanSaveNode (view_of view) view.node.now.node }
    requires small { store_reads.stored.incarnation + 1 < 2 ^ 64 }
    ensures { Plans result (voting_owner_plan (view_of view.entry) store_reads step) }
{
    let (verdict, undecided) = (store_reads.verdict, store_reads.undecided);
    let (next, has_tentative) = (store_reads.next, store_reads.tentative.is_some());
    match step {
        Step::Check { .. } => {
            let plan = view.check(alloc, next, store_reads.permanent.as_ref());
            drop(store_reads);
            plan
        }
        Step::Decide { .. } => {
            drop(store_reads);
            view.decide(alloc, verdict)
        }
        Step::Abandon { .. } => {
            drop(store_reads);
            view.abandon(alloc, verdict, undecided)
        }
        Step::Learn { .. } => view.learn(alloc, stored_in(store_reads), has_tentative, verdict),
        Step::Fail { .. } => {
            let permanent = store_reads.permanent.as_ref();
            let tentative = store_reads.tentative.as_ref();
            let plan = view.fail(alloc, verdict, permanent, tentative);
            drop(store_reads);
            plan
        }
        Step::Restart { .. } => {
            let stored = stored_in(store_reads);
            view.restart(alloc, stored, next, has_tentative, undecided, verdict)
        }
        // `owner_plan` hands over the six steps above alone. A match has to answer for the other five of `Step` too,
        // and the definition that it meets, `voting_owner_plan`, has this answer for them.
        _ => {
            drop(store_reads);
            Err(Refusal::WrongMode)
        }
    }
}

/// Whether the step is not allowed. A store's refusal and want of memory come only where it is: want of memory is no
/// rule of the tables, and damage spoils a step that they allow (docs/DECISIONS.md#the-world-with-failures).
pub(crate) fn is_refused(plan: &Result<Plan, StepError>) -> bool
    ensures { result ≡ is_refused plan.now }
{
    match plan {
        Ok(_) | Err(StepError::Store(_) | StepError::OutOfMemory) => false,
        Err(_) => true,
    }
}

impl Machine {
    ghost use Rattle.kt_tuple.specs.declared.node.NodeId.{NodeId as Name};
    ghost use Rattle.kt_scenario.specs.Scene.{is_node};
    ghost use Rattle.kt_scenario.specs.declared.step.Step.TheVariants as steps;
    ghost use Rattle.kt_model.specs.StepPlan.{owner_plan, unlimited_plan};
    ghost use Rattle.kt_scenario.specs.Step.{owner};
    ghost use Rattle.kt_model.specs.auxiliary.Ready.{IsReady};
    ghost use Rattle.kt_model.specs.State.{view};
    ghost use Rattle.kt_core.specs.auxiliary.Machine.{state_of};

    /// What the node of the scene sees.
    fn found(&self, id: NodeId) -> Result<View<'_>, StepError>
        requires { IsReady (state_of self.now empty_content) }
        ensures there { is_ok result ≡ is_node self.now.scene id }
        ensures view { IfOk result (λ v. view_of v ≡ view (state_of self.now empty_content) id) }
        ensures absent { IfErr result (λ e. e ≡ NoNode) }
    {
        let Some(role) = role_in(&self.scene, &self.no_script, id) else {
            return Err(StepError::NoNode);
        };
        match self.node_at(id) {
            Some(node) => Ok(View {
                role,
                node,
                past: &self.past,
            }),
            _ => Err(StepError::NoNode),
        }
    }

    /// As `found`, with two clauses more, which the plans ask for: the owner can act and be saved, as in each state
    /// that is ready. A function of its own for the proof alone.
    pub(crate) fn seen(&self, id: NodeId) -> Result<View<'_>, StepError>
        requires { IsReady (state_of self.now empty_content) }
        ensures there { is_ok result ≡ is_node self.now.scene id }
        ensures view { IfOk result (λ v. view_of v ≡ view (state_of self.now empty_content) id) }
        ensures acts { IfOk result (λ v. CanAct (view_of v)) }
        ensures saves { IfOk result (λ v. CanSaveNode (view_of v) v.node.now.node) }
        ensures absent { IfErr result (λ e. e ≡ NoNode) }
    {
        let view = self.found(id)?;
        Ok(view)
    }

    /// What the owner of the step, which sees this, makes of it.
    fn owner_plan(
        &self,
        seen: View<'_>,
        alloc: Global,
        store_reads: StoreReads,
        step: Step,
    ) -> Result<Plan, Refusal>
        requires view { view_of seen ≡ view (state_of self.now empty_content) (owner step) }
        requires acts { CanAct (view_of seen) }
        requires saves { CanSaveNode (view_of seen) seen.node.now.node }
        requires small { store_reads.stored.incarnation + 1 < 2 ^ 64 }
        ensures { Plans result (owner_plan (state_of self.now empty_content) store_reads step) }
    {
        match step {
            Step::Issue { .. } => {
                drop(store_reads);
                seen.issue(alloc)
            }
            Step::Repeat { .. } => {
                drop(store_reads);
                seen.repeat(alloc)
            }
            Step::Take { .. } => {
                drop(store_reads);
                seen.take(alloc)
            }
            Step::Deliver { from, to } => match self.links.front(from, to) {
                Some(message) => heard(seen, alloc, store_reads, from, message),
                None => {
                    drop(store_reads);
                    Err(Refusal::NothingThere)
                }
            },
            Step::Serve {
                shard,
                worker,
                place,
            } => {
                drop(store_reads);
                let number = worker.number();
                let by = cause_of_waiting(self.past.history(), shard, number);
                seen.serve(alloc, number, place, by)
            }
            _ => voting(seen, alloc, store_reads, step),
        }
    }

    /// The plan of the step whose owner is told so, or its refusal; the limit of steps is left aside.
    pub(crate) fn unlimited_plan(
        &self,
        alloc: Global,
        store_reads: StoreReads,
        step: Step,
    ) -> Result<Plan, StepError>
        requires ready { IsReady (state_of self.now empty_content) }
        requires small { store_reads.stored.incarnation + 1 < 2 ^ 64 }
        ensures { Gives result (unlimited_plan (state_of self.now empty_content) store_reads step) }
    {
        if !self.scene.is_for(step) {
            return Err(StepError::NoNode);
        }
        let seen = self.seen(step.owner())?;
        as_step(self.owner_plan(seen, alloc, store_reads, step))
    }

    /// The plan of the step whose owner is told so, or its refusal.
    pub(crate) fn plan(
        &self,
        alloc: Global,
        store_reads: StoreReads,
        step: Step,
    ) -> Result<Plan, StepError>
        requires ready { IsReady (state_of self.now empty_content) }
        requires small { store_reads.stored.incarnation + 1 < 2 ^ 64 }
        ensures { Gives result (step_plan_by (state_of self.now empty_content) store_reads step) }
    {
        let unlimited_plan = self.unlimited_plan(alloc, store_reads, step);
        // The limit stands behind all reasons of the tables: a step that is not enabled has its own reason at the limit
        // too (docs/DECISIONS.md#steps).
        if self.has_room() || is_refused(&unlimited_plan) {
            return unlimited_plan;
        }
        Err(StepError::StepLimit)
    }
    /// As `plan`, once the acts are gathered that the step may save. Nothing changes that is to be seen.
    pub(crate) fn gathered_plan(
        &mut self,
        alloc: Global,
        store_reads: StoreReads,
        step: Step,
    ) -> Result<Plan, StepError>
        requires ready { IsReady (state_of self.old empty_content) }
        requires small { store_reads.stored.incarnation + 1 < 2 ^ 64 }
        ensures plan { Gives result (step_plan_by (state_of self.old empty_content) store_reads step) }
        ensures same { (c : Content) → state_of self.new c ≡ state_of self.old c }
    {
        self.gather(alloc, step);
        self.plan(alloc, store_reads, step)
    }
}
