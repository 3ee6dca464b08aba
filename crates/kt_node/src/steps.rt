//! The steps of the underlying computation.
//! Cited by at_once.rt, short_plan.rt; other crates.

ghost use Rattle.std.specs.Prelude.{◌≡◌, ◌≤◌, IfOk, is_some};
ghost use Rattle.std.specs.Option.{option_copied, option_map};
ghost use Rattle.kt_worker.specs.WorkerModel.{issued, next_request};
ghost use Rattle.kt_state.specs.Codes.{live_view};
ghost use Rattle.kt_node.specs.View.{view_of};
ghost use Rattle.kt_state.specs.Refusing.{Gives};
ghost use Rattle.kt_state.specs.Ready.{CanCount};
ghost use Rattle.kt_node.specs.Speaking.{CanSpeak};
ghost use Rattle.kt_node.specs.Talking.{repeat_plan, request_for};
ghost use Rattle.kt_state.specs.Kept.{first_kept};
ghost use Rattle.kt_node.specs.Steps.{issue, issue_found, repeat, serve, take, unserved_as, up_of};

use crate::view::View;
use kt_script::Script;
use kt_shard::{Request, ServeError};
use kt_state::{AppMessage, Body, KeptChange, Live, Phase, Plan, Refusal};
use kt_tuple::{NodeId, Op};
use kt_worker::Worker;
use std::alloc::{AllocError, Global};

/// Whether the worker waits for nothing and has an operation left.
pub(crate) fn can_issue(worker: &Worker, script: &Script) -> bool
    ensures { result ≡ is_some (next_request script.now worker.now) }
{
    worker.asked().is_none() && worker.has_next(script)
}

/// What the worker asks for next, and the worker that has asked for it.
pub(crate) fn issued(
    alloc: Global,
    worker: &Worker,
    script: &Script,
) -> Result<Option<(Request, Worker)>, AllocError>
    ensures { IfOk result (λ r. r ≡ option_map (λ q. (request_for q, issued script.now worker.now))
        (next_request script.now worker.now)) }
{
    let Some(asker) = worker.asker(alloc, script)? else {
        return Ok(None);
    };
    let request = match asker.again() {
        Some((number, op)) => Request {
            number,
            op: op.copy(alloc)?,
        },
        None => return Ok(None),
    };
    Ok(Some((request, asker)))
}

/// Why a step is refused whose service the shard refuses. A choice takes no memory.
fn unserved_as(refusal: ServeError) -> Refusal
    ensures { result ≡ unserved_as refusal }
{
    match refusal {
        ServeError::NotWaiting | ServeError::OutOfMemory => Refusal::NothingThere,
        ServeError::NoSuchMatch => Refusal::NoSuchMatch,
    }
}

impl<'a> View<'a> {
    /// The parts of a node that is up; `None` where it is down, held or rolls back.
    pub(crate) fn up(self) -> Option<&'a Live>
        ensures { option_map (λ n. live_view n.now) result ≡ up_of self.entry.node.now.node }
    {
        let node = self.node;
        let live = node.live()?;
        match live.phase {
            Phase::Up => Some(live),
            Phase::Held(_) | Phase::Rolling(_) => None,
        }
    }

    /// A worker asks for the next operation of its script, where nothing is unanswered, nothing is kept and
    /// an operation is left.
    pub fn issue(self, alloc: Global) -> Result<Plan, Refusal>
        requires peers { 1 ≤ self.role.peers }
        requires count { CanSpeak self.node.now.node }
        ensures { Gives result (issue (view_of self.entry)) }
    {
        let Some(live) = self.up() else {
            return Err(Refusal::WrongMode);
        };
        let Body::Worker(worker) = &live.body else {
            return Err(Refusal::WrongMode);
        };
        match live.first_kept() {
            None => self.issue_next(alloc, live, worker),
            Some(_) => Err(Refusal::NothingThere),
        }
    }

    /// The worker asks for what is next, if anything is.
    fn issue_next(self, alloc: Global, live: &Live, worker: &Worker) -> Result<Plan, Refusal>
        requires peers { 1 ≤ self.role.peers }
        requires count { CanCount (live_view live.now) }
        ensures { Gives result (issue_found (view_of self.entry) (live_view live.now) worker.now
            (next_request self.entry.role.script.now worker.now)) }
    {
        let script = self.role.script;
        if !can_issue(worker, script) {
            return Err(Refusal::NothingThere);
        }
        let Some((request, asker)) = issued(alloc, worker, script)? else {
            return Err(Refusal::NothingThere);
        };
        Ok(self.issue_plan(alloc, live, &request, asker)?)
    }

    /// A worker asks once more, where a request is unanswered.
    pub fn repeat(self, alloc: Global) -> Result<Plan, Refusal>
        requires peers { 1 ≤ self.role.peers }
        requires count { CanSpeak self.node.now.node }
        ensures { Gives result (repeat (view_of self.entry)) }
    {
        let Some(live) = self.up() else {
            return Err(Refusal::WrongMode);
        };
        let Body::Worker(worker) = &live.body else {
            return Err(Refusal::WrongMode);
        };
        let Some((number, op)) = worker.again() else {
            return Err(Refusal::NothingThere);
        };
        Ok(self.repeat_next(alloc, live, number, op)?)
    }

    fn repeat_next(
        self,
        alloc: Global,
        live: &Live,
        number: u64,
        op: &Op,
    ) -> Result<Plan, AllocError>
        requires peers { 1 ≤ self.role.peers }
        requires count { CanCount (live_view live.now) }
        ensures { IfOk result (λ plan. plan ≡
            repeat_plan (view_of self.entry) (live_view live.now) (number, op.now)) }
    {
        let op = op.copy(alloc)?;
        self.repeat_plan(alloc, live, &Request { number, op })
    }

    /// The node hears the message that was kept first.
    pub fn take(self, alloc: Global) -> Result<Plan, Refusal>
        requires { CanSpeak self.node.now.node }
        ensures { Gives result (take (view_of self.entry)) }
    {
        let Some(live) = self.up() else {
            return Err(Refusal::WrongMode);
        };
        let Some((from, app)) = live.first_kept() else {
            return Err(Refusal::NothingThere);
        };
        Ok(self.heard_plan(alloc, live, KeptChange::TakeFirst, *from, app)?)
    }

    /// A shard serves the worker of this number, which waits there, with the match of this place, counted from 0 in
    /// order of arrival. The cause is that of the hearing which put it in waiting.
    pub fn serve(self, alloc: Global, worker: u8, place: u64, by: u64) -> Result<Plan, Refusal>
        requires { CanSpeak self.node.now.node }
        ensures { Gives result (serve (view_of self.entry) worker place by) }
    {
        let Some(live) = self.up() else {
            return Err(Refusal::WrongMode);
        };
        let Body::Shard(shard) = &live.body else {
            return Err(Refusal::WrongMode);
        };
        match shard.choose(worker, place) {
            Ok(choice) => {
                let service = choice.prepare(alloc)?;
                Ok(self.service_plan(alloc, live, worker, by, service)?)
            }
            Err(refusal) => Err(unserved_as(refusal)),
        }
    }
}
