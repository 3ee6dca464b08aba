//! What workers and shards hear of each other: the plans of these acts.
//! Cited by app_messages.rt, short_plan.rt, steps.rt.

ghost use Rattle.std.specs.Prelude.{◌≡◌, IfOk};
ghost use Rattle.std.specs.Bool.{then_some};
ghost use Rattle.std.specs.Option.{option_copied};
ghost use Rattle.kt_history.specs.declared.note.What.TheVariants.{Accepted, Heard, Ignored};
ghost use Rattle.kt_worker.specs.WorkerModel.{awaits, heard};
ghost use Rattle.kt_shard.specs.Arrival.{arrival_view};
ghost use Rattle.kt_state.specs.declared.change.BodyChange.TheVariants.{Stay, Wait, Work};
ghost use Rattle.kt_state.specs.Node.{node_number};
ghost use Rattle.kt_state.specs.Codes.{live_view};
ghost use Rattle.kt_node.specs.View.{view_of};
ghost use Rattle.kt_state.specs.Ready.{CanCount};
ghost use Rattle.kt_node.specs.Talking.{hearing, note_of, again_plan, request_plan, reply_plan, heard_plan};

use crate::view::View;
use kt_history::{Note, What};
use kt_link::Label;
use kt_shard::{Arrival, Request};
use kt_state::{AppMessage, Body, BodyChange, KeptChange, Live, Outbox, Plan, Talk, Update};
use kt_tuple::{Answer, NodeId};
use kt_worker::Worker;
use std::alloc::{AllocError, Global};

impl View<'_> {
    /// The cached answer is sent again.
    fn again_plan(
        self,
        alloc: Global,
        live: &Live,
        kept: KeptChange,
        from: NodeId,
        app: &AppMessage,
        request: &Request,
        answer: &Answer,
    ) -> Result<Plan, AllocError>
        requires { CanCount (live_view live.now) }
        ensures { IfOk result (λ plan. plan ≡
            again_plan (view_of self.entry) (live_view live.now) kept from app.now request.now answer.now) }
    {
        let (send, note) = self.answering_again(alloc, live, from, app.by, request, answer)?;
        let mut update = Update::hearing(BodyChange::Stay, kept, from, app.label);
        update.said = Some(from);
        Plan::of(alloc, update, send, note)
    }

    /// The request that the worker waits with, and the note that the shard heard it.
    pub(crate) fn waiting(
        self,
        alloc: Global,
        by: u64,
        worker: u8,
        request: &Request,
    ) -> Result<(Request, Option<Note>), AllocError>
        ensures { IfOk result (λ r. r ≡ (request.now, note_of self.entry.role.id by worker request.now Heard)) }
    {
        let asked = request.copy(alloc)?;
        let note = self.note(alloc, by, worker, request, What::Heard)?;
        Ok((asked, note))
    }

    /// The shard hears a request, and the worker waits.
    fn waiting_plan(
        self,
        alloc: Global,
        kept: KeptChange,
        from: NodeId,
        app: &AppMessage,
        request: &Request,
    ) -> Result<Plan, AllocError>
        ensures { IfOk result (λ plan. plan ≡ hearing kept from app.now.label (Wait (node_number from) request.now)
            (note_of self.entry.role.id app.now.by (node_number from) request.now Heard)) }
    {
        let worker = from.number();
        let (request, note) = self.waiting(alloc, app.by, worker, request)?;
        let body = BodyChange::Wait { worker, request };
        hearing(alloc, kept, from, app.label, body, note)
    }

    /// The note of what is ignored about a request of the worker of this number: an answer, or the request.
    fn note_ignored(
        self,
        alloc: Global,
        by: u64,
        worker: u8,
        request: &Request,
        answer: Option<&Answer>,
    ) -> Result<Option<Note>, AllocError>
        ensures { IfOk result (λ note. note ≡
            note_of self.entry.role.id by worker request.now (Ignored (option_copied answer.entry))) }
    {
        let ignored = match answer {
            Some(answer) => Some(answer.copy(alloc)?),
            None => None,
        };
        self.note(alloc, by, worker, request, What::Ignored(ignored))
    }

    /// The node hears what it ignores.
    fn ignoring_plan(
        self,
        alloc: Global,
        kept: KeptChange,
        from: NodeId,
        app: &AppMessage,
        worker: u8,
        request: &Request,
        answer: Option<&Answer>,
    ) -> Result<Plan, AllocError>
        ensures { IfOk result (λ plan. plan ≡ hearing kept from app.now.label Stay
            (note_of self.entry.role.id app.now.by worker request.now (Ignored (option_copied answer.entry)))) }
    {
        let note = self.note_ignored(alloc, app.by, worker, request, answer)?;
        hearing(alloc, kept, from, app.label, BodyChange::Stay, note)
    }

    /// A shard hears a request, and this comes of it.
    fn request_plan(
        self,
        alloc: Global,
        live: &Live,
        kept: KeptChange,
        from: NodeId,
        app: &AppMessage,
        request: &Request,
        arrival: Arrival<'_>,
    ) -> Result<Plan, AllocError>
        requires { CanCount (live_view live.now) }
        ensures { IfOk result (λ plan. plan ≡
            request_plan (view_of self.entry) (live_view live.now) kept from app.now request.now
            (arrival_view arrival.entry)) }
    {
        match arrival {
            Arrival::Waits => self.waiting_plan(alloc, kept, from, app, request),
            Arrival::Again(answer) => {
                self.again_plan(alloc, live, kept, from, app, request, answer)
            }
            Arrival::Ignored => {
                self.ignoring_plan(alloc, kept, from, app, from.number(), request, None)
            }
        }
    }

    /// What the reply makes of the worker, where it accepts it.
    pub(crate) fn heard_by(
        self,
        alloc: Global,
        worker: &Worker,
        request: &Request,
        answer: &Answer,
    ) -> Result<Option<Worker>, AllocError>
        ensures { IfOk result (λ hearer. hearer ≡
            then_some (awaits worker.now request.now.number request.now.op)
            (heard self.entry.role.script.now worker.now answer.now)) }
    {
        worker.hearer(alloc, self.role.script, request.number, &request.op, answer)
    }

    /// The note that the node accepts the answer to its request.
    pub(crate) fn note_accepted(
        self,
        alloc: Global,
        by: u64,
        request: &Request,
        answer: &Answer,
    ) -> Result<Option<Note>, AllocError>
        ensures { IfOk result (λ note. note ≡ note_of self.entry.role.id by
            (node_number self.entry.role.id) request.now (Accepted answer.now)) }
    {
        let what = What::Accepted(answer.copy(alloc)?);
        self.note(alloc, by, self.role.id.number(), request, what)
    }

    /// The worker becomes this one, which has accepted the answer.
    fn accepting_plan(
        self,
        alloc: Global,
        hearer: Worker,
        kept: KeptChange,
        from: NodeId,
        app: &AppMessage,
        request: &Request,
        answer: &Answer,
    ) -> Result<Plan, AllocError>
        ensures { IfOk result (λ plan. plan ≡ hearing kept from app.now.label (Work hearer)
            (note_of self.entry.role.id app.now.by (node_number self.entry.role.id) request.now
            (Accepted answer.now))) }
    {
        let note = self.note_accepted(alloc, app.by, request, answer)?;
        hearing(alloc, kept, from, app.label, BodyChange::Work(hearer), note)
    }

    /// A worker hears a reply.
    fn reply_plan(
        self,
        alloc: Global,
        worker: &Worker,
        kept: KeptChange,
        from: NodeId,
        app: &AppMessage,
        request: &Request,
        answer: &Answer,
    ) -> Result<Plan, AllocError>
        ensures { IfOk result (λ plan. plan ≡
            reply_plan (view_of self.entry) worker.now kept from app.now request.now answer.now) }
    {
        let number = self.role.id.number();
        match self.heard_by(alloc, worker, request, answer)? {
            Some(hearer) => { self.accepting_plan(alloc, hearer, kept, from, app, request, answer) }
            None => self.ignoring_plan(alloc, kept, from, app, number, request, Some(answer)),
        }
    }

    /// The live node hears the message. Where it stood is told by what becomes of what is kept.
    pub(crate) fn heard_plan(
        self,
        alloc: Global,
        live: &Live,
        kept: KeptChange,
        from: NodeId,
        app: &AppMessage,
    ) -> Result<Plan, AllocError>
        requires { CanCount (live_view live.now) }
        ensures { IfOk result (λ plan. plan ≡
            heard_plan (view_of self.entry) (live_view live.now) kept from app.now) }
    {
        let number = from.number();
        match (&live.body, &app.talk) {
            (Body::Worker(worker), Talk::Reply { request, answer }) => {
                self.reply_plan(alloc, worker, kept, from, app, request, answer)
            }
            (Body::Worker(_), Talk::Request(request)) => {
                let own = self.role.id.number();
                self.ignoring_plan(alloc, kept, from, app, own, request, None)
            }
            (Body::Shard(shard), Talk::Request(request)) => {
                let arrival = shard.arrival(number, request);
                self.request_plan(alloc, live, kept, from, app, request, arrival)
            }
            (Body::Shard(_), Talk::Reply { request, answer }) => {
                self.ignoring_plan(alloc, kept, from, app, number, request, Some(answer))
            }
        }
    }
}

/// A message of this label is heard, this becomes of the body, and nothing is said.
fn hearing(
    alloc: Global,
    kept: KeptChange,
    from: NodeId,
    label: Label,
    body: BodyChange,
    note: Option<Note>,
) -> Result<Plan, AllocError>
    ensures { IfOk result (λ p. p ≡ hearing kept from label body note) }
{
    let update = Update::hearing(body, kept, from, label);
    Plan::of(alloc, update, Outbox::empty(alloc), note)
}
