//! What a thread of a run does for its node: step after step by the policy, and sleep where there is none. Whom a shard
//! serves is searched outside the lock.
//! Cited by running.rt.

ghost use Rattle.std.specs.Prelude.{IfErr, IfOk, IfSome, IsTrue};
ghost use Rattle.kt_stage.specs.Running.{is_fault_since, is_run_cause};
ghost use Rattle.kt_stage.specs.auxiliary.Halting.{IsGiven};

use crate::error::ActError;
use crate::gate::Gate;
use crate::glance::{Glance, Proposal, propose};
use crate::naming::Naming;
use crate::seat::Seat;
use crate::stage::{Flags, Refused, RunState, Stage};
use kt_core::{Step, StepError};
use kt_store::{CkptStore, StoreError};
use kt_tuple::{ALL_WORKERS, MAX_NODES, NodeId};
use std::alloc::Global;
use std::sync::Wait;

/// That a node's part of a run ended early: something was refused, which the run's state says, or else memory ran out
/// or a thread could not be started.
#[derive(Clone, Copy)]
pub(crate) struct Halted;

/// How many steps a node makes at most before it lets the others at the lock. To let go of the lock and to take it
/// again costs more than a step does.
const TURNS: usize = 64;

/// What a node has in a run: its seat, and its place in node order.
#[derive(Drop)]
pub(crate) struct NodeThread<L: Naming> {
    pub(crate) seat: Seat<L>,
    pub(crate) place: usize,
    /// How many receipts the seat had when its shard was searched and nobody could be served. A shard changes by its
    /// own steps alone, so it is not searched again before there is one more. No clause speaks of it.
    pub(crate) in_vain: Option<u64>,
}

/// What came of a node's turns.
#[derive(Drop)]
enum TurnOutcome {
    /// It made as many steps as it may in a row.
    Made,
    /// It is a shard where somebody waits, and has seen what it may serve.
    Looks(Glance),
    /// It has no next step at present, and sleeps.
    Idle,
    /// No node has a next step.
    Over,
}

impl<S: CkptStore, L: Naming> RunState<S, L> {
    /// Ends the run: what was tried last is refused, for this reason.
    fn refuse(&mut self, cause: StepError) -> Halted
        requires { IsTrue (is_run_cause L.opening.counts self.old.locked.journal.world cause) }
    {
        let at = self.locked.journal.steps.len() as u64 + 1;
        self.refused = Some(Refused { at, cause });
        self.is_over = true;
        Halted
    }

    /// The node's next step, but for the service of a shard that is up: it is searched outside the lock, and the rule
    /// behind it is of no use to a node that is up. Where the store does not say what has to be known, the run halts.
    fn next(&mut self, alloc: Global, node: NodeId) -> Result<Option<Step>, Halted>
        ensures { IfOk result (λ x. IfSome x (IsGiven self.new.locked.journal.world node)) }
    {
        if self.locked.journal.world.shard(node).is_none() {
            return self.next_by_all(alloc, node);
        }
        self.refused = None;
        let RunState { locked, faults, .. } = self;
        match locked.next_before_serving(alloc, faults, node) {
            Ok(next) => Ok(next),
            Err(refusal) => Err(self.refuse(StepError::Store(refusal))),
        }
    }

    /// The node's next step, by all rules of the policy. What was refused is forgotten first: a refusal that is
    /// kept is one of the world as it is now.
    fn next_by_all(&mut self, alloc: Global, node: NodeId) -> Result<Option<Step>, Halted>
        ensures { IfOk result (λ x. IfSome x (IsGiven self.new.locked.journal.world node)) }
    {
        self.refused = None;
        let RunState { locked, faults, .. } = self;
        match locked.next_for(alloc, faults, node) {
            Ok(next) => Ok(next),
            Err(refusal) => Err(self.refuse(StepError::Store(refusal))),
        }
    }

    /// Whether the thread's node is a shard that is up, where somebody waits, and which was not searched in vain since
    /// its last step.
    fn is_searched(&self, node_thread: &NodeThread<L>) -> bool {
        if node_thread.in_vain == Some(node_thread.seat.receipts.len() as u64) {
            return false;
        }
        match self.locked.journal.world.shard(node_thread.seat.node) {
            None => false,
            Some(shard) => shard
                .sessions()
                .iter()
                .any(|session| session.waiting.is_some()),
        }
    }

    /// Makes the thread's next step, and marks whom it may have given one.
    fn make(
        &mut self,
        alloc: Global,
        node_thread: &mut NodeThread<L>,
        step: Step,
        nodes: &[NodeId],
        woken: &mut Flags,
    ) -> Result<(), Halted>
        requires { IsGiven self.old.locked.journal.world node_thread.old.seat.node step }
    {
        match self.act(alloc, &mut node_thread.seat, step, nodes, woken) {
            Ok(_) => {
                self.faults.spend(&step);
                Ok(())
            }
            Err(ActError::Step(cause)) => Err(self.refuse(cause)),
            // The policy gives a node steps of its own alone.
            Err(ActError::NotOwner) => Err(self.refuse(StepError::NoNode)),
        }
    }

    /// Makes the service that the thread's shard has found, and marks whom it may have given a next step. Where it is
    /// refused the policy is asked under this lock. It gives the same step, since a shard changes by its own steps
    /// alone, and that is refused for the same reason.
    fn confirm(
        &mut self,
        alloc: Global,
        node_thread: &mut NodeThread<L>,
        step: Step,
        nodes: &[NodeId],
        woken: &mut Flags,
    ) -> Result<(), Halted> {
        match self.act(alloc, &mut node_thread.seat, step, nodes, woken) {
            Ok(_) => Ok(()),
            Err(ActError::Step(StepError::OutOfMemory)) => Err(self.refuse(StepError::OutOfMemory)),
            Err(_) => self.make_next(alloc, node_thread, nodes, woken),
        }
    }

    /// Makes the thread's next step by all rules of the policy, if there is one. The shard is not searched again.
    fn make_next(
        &mut self,
        alloc: Global,
        node_thread: &mut NodeThread<L>,
        nodes: &[NodeId],
        woken: &mut Flags,
    ) -> Result<(), Halted> {
        node_thread.in_vain = Some(node_thread.seat.receipts.len() as u64);
        match self.next_by_all(alloc, node_thread.seat.node)? {
            Some(step) => self.make(alloc, node_thread, step, nodes, woken),
            None => Ok(()),
        }
    }

    /// Makes the next steps of the thread's node, one after the other, while it has one and may go on. Each is chosen
    /// and made under one lock: another node's step between the two could make it one that is refused, and a refused
    /// step ends the run (docs/DECISIONS.md#threads).
    fn turns(
        &mut self,
        alloc: Global,
        node_thread: &mut NodeThread<L>,
        nodes: &[NodeId],
        woken: &mut Flags,
    ) -> Result<TurnOutcome, Halted> {
        for _ in 0..TURNS {
            match self.next(alloc, node_thread.seat.node)? {
                Some(step) => self.make(alloc, node_thread, step, nodes, woken)?,
                None if self.is_searched(node_thread) => return self.look(alloc, node_thread),
                None => return self.rest(alloc, node_thread.place, nodes, woken),
            }
        }
        Ok(TurnOutcome::Made)
    }

    /// The thread's shard, as it is now. Of a shard that is up nothing but want of memory is refused.
    fn look(&mut self, alloc: Global, node_thread: &NodeThread<L>) -> Result<TurnOutcome, Halted> {
        match self.locked.glance(alloc, &node_thread.seat) {
            Ok(glance) => Ok(TurnOutcome::Looks(glance)),
            Err(_) => Err(Halted),
        }
    }

    /// The node at this place has no next step, and sleeps. The last that would sleep looks at all nodes: where none
    /// has a next step the run is over. So a node that was not woken when it should have been delays the run, and
    /// neither ends nor hangs it.
    fn rest(
        &mut self,
        alloc: Global,
        place: usize,
        nodes: &[NodeId],
        woken: &mut Flags,
    ) -> Result<TurnOutcome, Halted> {
        mark(&mut self.asleep, place, true);
        if self.asleep.iter().zip(nodes).any(|(sleeps, _)| !*sleeps) {
            return Ok(TurnOutcome::Idle);
        }
        let left = match self.left(alloc) {
            Ok(Some(left)) => left,
            Ok(None) => return Ok(TurnOutcome::Over),
            Err(refusal) => return Err(self.refuse(StepError::Store(refusal))),
        };
        if let Some(place) = nodes.iter().position(|node| *node == left) {
            mark(&mut self.asleep, place, false);
            mark(woken, place, true);
        }
        Ok(TurnOutcome::Idle)
    }

    /// The first node that has a next step.
    fn left(&mut self, alloc: Global) -> Result<Option<NodeId>, StoreError>
        ensures { IfErr result (λ e. IsTrue (is_fault_since L.opening.counts self.new.locked.journal.world e)) }
    {
        self.refused = None;
        let RunState { locked, faults, .. } = self;
        locked.first_unfinished(alloc, faults)
    }

    /// Whether the node at this place is to sleep on.
    fn sleeps(&self, place: usize) -> bool {
        !self.is_over && matches!(self.asleep.get(place), Some(true))
    }
}

/// Whom the shard that was seen can serve first, in node order.
fn first_proposal(glance: &Glance) -> Option<(NodeId, Proposal)> {
    ALL_WORKERS
        .iter()
        .find_map(|worker| Some((*worker, propose(glance, *worker)?)))
}

/// Marks the node at this place so, if there is one.
fn mark(flags: &mut Flags, place: usize, is_one: bool) {
    if let Some(flag) = flags.get_mut(place) {
        *flag = is_one;
    }
}

impl<S: CkptStore, L: Naming> Stage<S, L> {
    /// Ends the run, and wakes all that sleep.
    pub(crate) fn end(&self, rt: &impl Wait) {
        self.run_state.lock(rt).is_over = true;
        self.ring(&[true; MAX_NODES]);
    }

    /// Sleeps until the node at this place is woken, or the run has ended.
    fn sleep(&self, rt: &impl Wait, place: usize) {
        if let Some(bell) = self.bells.get(place) {
            let run_state = self.run_state.lock(rt);
            drop(bell.wait_while(rt, run_state, |run_state| run_state.sleeps(place)));
        }
    }

    /// Confirms what the thread's shard has proposed, unless the run has ended meanwhile. Its place in the journal is
    /// found under the same lock. No other has the seat, so the proposal is not stale.
    fn confirm_in_run(
        &self,
        rt: &impl Wait,
        alloc: Global,
        node_thread: &mut NodeThread<L>,
        proposal: Proposal,
    ) -> Result<(), Halted> {
        let Ok(step) = proposal.fresh_step(&node_thread.seat) else {
            return Ok(());
        };
        let mut woken = [false; MAX_NODES];
        let mut run_state = self.run_state.lock(rt);
        if run_state.is_over {
            return Ok(());
        }
        let made = run_state.confirm(alloc, node_thread, step, &self.nodes, &mut woken);
        drop(run_state);
        self.ring(&woken);
        made
    }

    /// Searches what the thread's shard has seen, with the lock let go, and serves whom it finds. What was seen is
    /// dropped before the step, which would have to copy the shard else.
    fn serve<G: Gate>(
        &self,
        rt: &impl Wait,
        alloc: Global,
        node_thread: &mut NodeThread<L>,
        glance: Glance,
        gate: &G,
    ) -> Result<(), Halted> {
        let count = glance.count();
        let found = first_proposal(&glance);
        drop(glance);
        let Some((worker, proposal)) = found else {
            node_thread.in_vain = Some(count);
            return Ok(());
        };
        let shard = node_thread.seat.node;
        gate.before(shard, worker);
        let confirmed = self.confirm_in_run(rt, alloc, node_thread, proposal);
        gate.after(shard, worker);
        confirmed
    }

    /// The thread's turns, and whether the run goes on after them.
    fn take_one_turn<R: Wait, G: Gate>(
        &self,
        rt: &R,
        alloc: Global,
        node_thread: &mut NodeThread<L>,
        gate: &G,
    ) -> Result<bool, Halted> {
        let mut woken = [false; MAX_NODES];
        let mut run_state = self.run_state.lock(rt);
        if run_state.is_over {
            return Ok(false);
        }
        let turn = run_state.turns(alloc, node_thread, &self.nodes, &mut woken)?;
        drop(run_state);
        self.ring(&woken);
        match turn {
            TurnOutcome::Made => Ok(true),
            TurnOutcome::Looks(glance) => {
                self.serve(rt, alloc, node_thread, glance, gate)?;
                Ok(true)
            }
            TurnOutcome::Idle => {
                self.sleep(rt, node_thread.place);
                Ok(true)
            }
            TurnOutcome::Over => {
                self.end(rt);
                Ok(false)
            }
        }
    }
}

/// What a node's thread does: turn after turn, until the run has ended.
fn take_turns<R: Wait, S: CkptStore, L: Naming, G: Gate>(
    rt: &R,
    alloc: Global,
    stage: &Stage<S, L>,
    node_thread: &mut NodeThread<L>,
    gate: &G,
) -> Result<(), Halted> {
    for _ in rt.forever() {
        match stage.take_one_turn(rt, alloc, node_thread, gate) {
            Ok(true) => {}
            Ok(false) => return Ok(()),
            Err(halt) => {
                stage.end(rt);
                return Err(halt);
            }
        }
    }
    unreachable!()
}

/// As `take_turns`, and gives the seat back, how the thread ended too: the stage is closed with all seats.
pub(crate) fn take_turns_to_end<R: Wait, S: CkptStore, L: Naming, G: Gate>(
    rt: &R,
    alloc: Global,
    stage: &Stage<S, L>,
    node_thread: NodeThread<L>,
    gate: &G,
) -> (Seat<L>, Result<(), Halted>) {
    let mut node_thread = node_thread;
    let ended = take_turns(rt, alloc, stage, &mut node_thread, gate);
    (node_thread.seat, ended)
}
