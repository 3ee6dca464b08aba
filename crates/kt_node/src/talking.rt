//! What workers and shards say to each other: the plans of the acts in which they hear nothing.
//! Cited by at_once.rt, hearing.rt, short_plan.rt, steps.rt.

ghost use Rattle.std.specs.Prelude.{◌≡◌, ◌≤◌, [], ◌∷◌, IfOk};
ghost use Rattle.kt_history.specs.declared.note.What.TheVariants.{Again, Served};
ghost use Rattle.kt_state.specs.declared.message.Talk.TheVariants.{Request as Asked, Reply as Replied};
ghost use Rattle.kt_state.specs.Node.{next_label, node_number};
ghost use Rattle.kt_state.specs.Codes.{live_view};
ghost use Rattle.kt_node.specs.View.{view_of};
ghost use Rattle.kt_state.specs.Ready.{CanCount};
ghost use Rattle.kt_node.specs.Talking.{home, note_of, app_of, issue_plan, repeat_plan, service_plan};

use crate::view::View;
use kt_history::{Act, Note, What};
use kt_link::Label;
use kt_shard::{Prepared, Request};
use kt_state::{AppMessage, BodyChange, Live, Message, Outbox, Plan, Talk, Update};
use kt_tuple::{Answer, NodeId, Op};
use kt_worker::Worker;
use std::alloc::{AllocError, Global};

impl View<'_> {
    /// The note of an act of the node about a request of the worker of this number.
    pub(crate) fn note(
        self,
        alloc: Global,
        by: u64,
        worker: u8,
        request: &Request,
        what: What,
    ) -> Result<Option<Note>, AllocError>
        ensures { IfOk result (λ note. note ≡ note_of self.entry.role.id by worker request.now what) }
    {
        let op = request.op.copy(alloc)?;
        Ok(Some(Note::Act(Act {
            node: self.role.id,
            by,
            worker,
            number: request.number,
            op,
            what,
        })))
    }

    /// The message in which the next note's act of the live node says this.
    pub(crate) fn app(self, live: &Live, talk: Talk) -> Message
        requires { CanCount (live_view live.now) }
        ensures { result ≡ app_of (view_of self.entry) (live_view live.now) talk }
    {
        Message::App(AppMessage {
            talk,
            label: live.next_label(),
            by: self.next(),
        })
    }

    /// The shard that is the home of the operation's tuples.
    pub(crate) fn home(self, op: &Op) -> NodeId
        requires { 1 ≤ self.role.peers }
        ensures { result ≡ home self.entry.role.peers op.now }
    {
        // One shard alone is the home of all.
        if self.role.peers == 1 {
            return NodeId::Shard(1);
        }
        NodeId::Shard(op.signature().shard_of(self.role.peers))
    }

    /// What a worker says that asks for this, and the note of it.
    fn asking(
        self,
        alloc: Global,
        live: &Live,
        request: &Request,
        what: What,
    ) -> Result<(Outbox, Option<Note>), AllocError>
        requires peers { 1 ≤ self.role.peers }
        requires count { CanCount (live_view live.now) }
        ensures { IfOk result (λ said. said ≡ (
          (
            home self.entry.role.peers request.now.op,
            app_of (view_of self.entry) (live_view live.now) (Asked request.now),
          ) ∷ [],
          note_of self.entry.role.id 0 (node_number self.entry.role.id) request.now what,
        )) }
    {
        let talk = Talk::Request(request.copy(alloc)?);
        let send = Outbox::one(alloc, self.home(&request.op), self.app(live, talk))?;
        let note = self.note(alloc, 0, self.role.id.number(), request, what)?;
        Ok((send, note))
    }

    /// The worker asks the home of the operation, and becomes the asker.
    pub(crate) fn issue_plan(
        self,
        alloc: Global,
        live: &Live,
        request: &Request,
        asker: Worker,
    ) -> Result<Plan, AllocError>
        requires peers { 1 ≤ self.role.peers }
        requires count { CanCount (live_view live.now) }
        ensures { IfOk result (λ plan. plan ≡
            issue_plan (view_of self.entry) (live_view live.now) (request.now.number, request.now.op) asker) }
    {
        let (send, note) = self.asking(alloc, live, request, What::Issue)?;
        let update = Update::saying(BodyChange::Work(asker), self.home(&request.op));
        Plan::of(alloc, update, send, note)
    }

    /// The worker asks once more.
    pub(crate) fn repeat_plan(
        self,
        alloc: Global,
        live: &Live,
        request: &Request,
    ) -> Result<Plan, AllocError>
        requires peers { 1 ≤ self.role.peers }
        requires count { CanCount (live_view live.now) }
        ensures { IfOk result (λ plan. plan ≡
            repeat_plan (view_of self.entry) (live_view live.now) (request.now.number, request.now.op)) }
    {
        let (send, note) = self.asking(alloc, live, request, What::Repeat)?;
        let update = Update::saying(BodyChange::Stay, self.home(&request.op));
        Plan::of(alloc, update, send, note)
    }

    /// The message in which the shard answers.
    fn reply(
        self,
        alloc: Global,
        live: &Live,
        request: &Request,
        answer: &Answer,
    ) -> Result<Message, AllocError>
        requires { CanCount (live_view live.now) }
        ensures { IfOk result (λ message. message ≡
            app_of (view_of self.entry) (live_view live.now) (Replied request.now answer.now)) }
    {
        let request = request.copy(alloc)?;
        let answer = answer.copy(alloc)?;
        Ok(self.app(live, Talk::Reply { request, answer }))
    }

    /// That message to the worker of this number, and the note of it.
    fn reply_noted(
        self,
        alloc: Global,
        live: &Live,
        worker: u8,
        by: u64,
        request: &Request,
        answer: &Answer,
        what: What,
    ) -> Result<(Message, Option<Note>), AllocError>
        requires { CanCount (live_view live.now) }
        ensures { IfOk result (λ said. said ≡ (
          app_of (view_of self.entry) (live_view live.now) (Replied request.now answer.now),
          note_of self.entry.role.id by worker request.now what,
        )) }
    {
        let note = self.note(alloc, by, worker, request, what)?;
        let message = self.reply(alloc, live, request, answer)?;
        Ok((message, note))
    }

    /// What a shard says that makes this service, and the note of it.
    pub(crate) fn served(
        self,
        alloc: Global,
        live: &Live,
        worker: u8,
        by: u64,
        service: &Prepared,
    ) -> Result<(Message, Option<Note>), AllocError>
        requires { CanCount (live_view live.now) }
        ensures { IfOk result (λ said. said ≡ (
          app_of (view_of self.entry) (live_view live.now) (Replied service.now.request service.now.answer),
          note_of self.entry.role.id by worker service.now.request (Served service.now.answer),
        )) }
    {
        let (request, answer) = (service.request(), service.answer());
        let what = What::Served(answer.copy(alloc)?);
        self.reply_noted(alloc, live, worker, by, request, answer, what)
    }

    /// What a shard says that sends a cached answer again, and the note of it.
    pub(crate) fn answered_again(
        self,
        alloc: Global,
        live: &Live,
        worker: u8,
        by: u64,
        request: &Request,
        answer: &Answer,
    ) -> Result<(Message, Option<Note>), AllocError>
        requires { CanCount (live_view live.now) }
        ensures { IfOk result (λ said. said ≡ (
          app_of (view_of self.entry) (live_view live.now) (Replied request.now answer.now),
          note_of self.entry.role.id by worker request.now (Again answer.now),
        )) }
    {
        let what = What::Again(answer.copy(alloc)?);
        self.reply_noted(alloc, live, worker, by, request, answer, what)
    }

    /// The message of that service in an outbox, and its note.
    fn serving(
        self,
        alloc: Global,
        live: &Live,
        to: NodeId,
        by: u64,
        service: &Prepared,
    ) -> Result<(Outbox, Option<Note>), AllocError>
        requires { CanCount (live_view live.now) }
        ensures { IfOk result (λ said. said ≡ (
          (
            to,
            app_of (view_of self.entry) (live_view live.now)
                (Replied service.now.request service.now.answer),
          ) ∷ [],
          note_of self.entry.role.id by (node_number to) service.now.request (Served service.now.answer),
        )) }
    {
        let (message, note) = self.served(alloc, live, to.number(), by, service)?;
        Ok((Outbox::one(alloc, to, message)?, note))
    }

    /// The shard serves the worker of this number. The cause is that of the hearing which put it in waiting.
    pub(crate) fn service_plan(
        self,
        alloc: Global,
        live: &Live,
        worker: u8,
        by: u64,
        service: Prepared,
    ) -> Result<Plan, AllocError>
        requires { CanCount (live_view live.now) }
        ensures { IfOk result (λ plan. plan ≡
            service_plan (view_of self.entry) (live_view live.now) worker by service) }
    {
        let to = NodeId::Worker(worker);
        let (send, note) = self.serving(alloc, live, to, by, &service)?;
        let update = Update::saying(BodyChange::Serve { worker, service }, to);
        Plan::of(alloc, update, send, note)
    }

    /// The message of that answer in an outbox, and its note.
    pub(crate) fn answering_again(
        self,
        alloc: Global,
        live: &Live,
        to: NodeId,
        by: u64,
        request: &Request,
        answer: &Answer,
    ) -> Result<(Outbox, Option<Note>), AllocError>
        requires { CanCount (live_view live.now) }
        ensures { IfOk result (λ said. said ≡ (
          (to, app_of (view_of self.entry) (live_view live.now) (Replied request.now answer.now)) ∷ [],
          note_of self.entry.role.id by (node_number to) request.now (Again answer.now),
        )) }
    {
        let worker = to.number();
        let (message, note) = self.answered_again(alloc, live, worker, by, request, answer)?;
        Ok((Outbox::one(alloc, to, message)?, note))
    }
}
