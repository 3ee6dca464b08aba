//! The plans of the frequent steps of workers and shards. A `Plan` stands on the heap in part, and goes through many
//! hands; a short one takes no memory for itself and goes through few (docs/DECISIONS.md#steps).
//! Cited by other crates.

ghost use Rattle.std.specs.Prelude.{◌≡◌, ◌≤◌, IfOk, IfSome, IsOk, OnErr, Ok};
ghost use Rattle.kt_worker.specs.WorkerModel.{next_request};
ghost use Rattle.kt_history.specs.declared.note.What.TheVariants.{Heard as HeardIt};
ghost use Rattle.kt_shard.specs.Arrival.{arrival_view};
ghost use Rattle.kt_state.specs.declared.change.BodyChange.TheVariants.{Wait};
ghost use Rattle.kt_state.specs.declared.change.KeptChange.TheVariants.{Stay as Keeps};
ghost use Rattle.kt_node.specs.ShortPlan.{plan_of};
ghost use Rattle.kt_state.specs.Codes.{live_view};
ghost use Rattle.kt_node.specs.AppMessages.{hear_app};
ghost use Rattle.kt_state.specs.Ready.{CanCount};
ghost use Rattle.kt_node.specs.Speaking.{CanSpeak};
ghost use Rattle.kt_node.specs.Steps.{issue, issue_found, serve};
ghost use Rattle.kt_state.specs.Node.{node_number};
ghost use Rattle.kt_node.specs.Talking.{again_plan, heard_plan, hearing, issue_plan, note_of};
ghost use Rattle.kt_node.specs.Talking.{reply_plan, request_plan, service_plan};
ghost use Rattle.kt_node.specs.View.{view_of};

use crate::steps::{can_issue, issued};
use crate::view::View;
use kt_history::{Note, What};
use kt_shard::{Arrival, Prepared, Request};
use kt_state::{AppMessage, Body, Live, Message, ShortUpdate, Talk};
use kt_tuple::{Answer, NodeId};
use kt_worker::Worker;
use std::alloc::{AllocError, Global};

/// What a frequent step does: it sends one message at most, and makes no write of the store.
#[derive(Debug, Drop)]
pub struct ShortPlan {
    /// What becomes of the owner.
    pub update: ShortUpdate,
    /// What it sends, with the receiver.
    pub send: Option<(NodeId, Message)>,
    /// What is noted in the history.
    pub note: Option<Note>,
}

impl View<'_> {
    /// The short plan of the worker's asking for this.
    fn short_asking(
        self,
        alloc: Global,
        live: &Live,
        request: Request,
        asker: Worker,
    ) -> Result<ShortPlan, AllocError>
        requires peers { 1 ≤ self.role.peers }
        requires count { CanCount (live_view live.now) }
        ensures { IfOk result (λ e. plan_of e ≡
            issue_plan (view_of self.entry) (live_view live.now) (request.number, request.op) asker) }
    {
        let to = self.home(&request.op);
        let note = self.note(alloc, 0, self.role.id.number(), &request, What::Issue)?;
        let message = self.app(live, Talk::Request(request));
        Ok(ShortPlan {
            update: ShortUpdate::Asks { to, asker },
            send: Some((to, message)),
            note,
        })
    }

    /// The short plan of the worker's asking for what is next, if anything is.
    fn short_next(
        self,
        alloc: Global,
        live: &Live,
        worker: &Worker,
    ) -> Result<Option<ShortPlan>, AllocError>
        requires peers { 1 ≤ self.role.peers }
        requires count { CanCount (live_view live.now) }
        ensures { IfOk result (λ o. IfSome o (λ e.
            issue_found (view_of self.entry) (live_view live.now) worker.now
            (next_request self.entry.role.script.now worker.now) ≡ Ok (plan_of e))) }
    {
        match issued(alloc, worker, self.role.script)? {
            Some((request, asker)) => Ok(Some(self.short_asking(alloc, live, request, asker)?)),
            None => Ok(None),
        }
    }

    /// The short plan of `issue`, where the node may issue.
    pub fn short_issue(self, alloc: Global) -> Result<Option<ShortPlan>, AllocError>
        requires peers { 1 ≤ self.role.peers }
        requires count { CanSpeak self.node.now.node }
        ensures plan { IfOk result (λ o. IfSome o (λ e. issue (view_of self.entry) ≡ Ok (plan_of e))) }
        ensures enabled { OnErr result (IsOk (issue (view_of self.entry))) }
    {
        let Some(live) = self.up() else {
            return Ok(None);
        };
        let Body::Worker(worker) = &live.body else {
            return Ok(None);
        };
        if live.first_kept().is_some() || !can_issue(worker, self.role.script) {
            return Ok(None);
        }
        self.short_next(alloc, live, worker)
    }

    /// The short plan of this service of the worker of this number.
    fn short_serving(
        self,
        alloc: Global,
        live: &Live,
        worker: u8,
        by: u64,
        service: Prepared,
    ) -> Result<ShortPlan, AllocError>
        requires { CanCount (live_view live.now) }
        ensures { IfOk result (λ e. plan_of e ≡
            service_plan (view_of self.entry) (live_view live.now) worker by service) }
    {
        let (message, note) = self.served(alloc, live, worker, by, &service)?;
        Ok(ShortPlan {
            update: ShortUpdate::Serves { worker, service },
            send: Some((NodeId::Worker(worker), message)),
            note,
        })
    }

    /// The short plan of `serve`, where the node may serve so.
    pub fn short_serve(
        self,
        alloc: Global,
        worker: u8,
        place: u64,
        by: u64,
    ) -> Result<Option<ShortPlan>, AllocError>
        requires { CanSpeak self.node.now.node }
        ensures plan { IfOk result (λ o. IfSome o (λ e.
            serve (view_of self.entry) worker place by ≡ Ok (plan_of e))) }
        ensures enabled { OnErr result (IsOk (serve (view_of self.entry) worker place by)) }
    {
        let Some(live) = self.up() else {
            return Ok(None);
        };
        let Body::Shard(shard) = &live.body else {
            return Ok(None);
        };
        match shard.choose(worker, place) {
            Ok(choice) => {
                let service = choice.prepare(alloc)?;
                Ok(Some(self.short_serving(alloc, live, worker, by, service)?))
            }
            Err(_) => Ok(None),
        }
    }

    /// The short plan of the shard's hearing the request, whose worker waits then.
    fn short_waiting(
        self,
        alloc: Global,
        from: NodeId,
        app: &AppMessage,
        request: &Request,
    ) -> Result<ShortPlan, AllocError>
        ensures { IfOk result (λ e. plan_of e ≡ hearing Keeps from app.now.label (Wait (node_number from) request.now)
            (note_of self.entry.role.id app.now.by (node_number from) request.now HeardIt)) }
    {
        let (request, note) = self.waiting(alloc, app.by, from.number(), request)?;
        Ok(ShortPlan {
            update: ShortUpdate::Waits {
                from,
                label: app.label,
                request,
            },
            send: None,
            note,
        })
    }

    /// The short plan of the shard's answering once more.
    fn short_again(
        self,
        alloc: Global,
        live: &Live,
        from: NodeId,
        app: &AppMessage,
        request: &Request,
        answer: &Answer,
    ) -> Result<ShortPlan, AllocError>
        requires { CanCount (live_view live.now) }
        ensures { IfOk result (λ e. plan_of e ≡
            again_plan (view_of self.entry) (live_view live.now) Keeps from app.now request.now answer.now) }
    {
        let worker = from.number();
        let (message, note) = self.answered_again(alloc, live, worker, app.by, request, answer)?;
        Ok(ShortPlan {
            update: ShortUpdate::Answers {
                from,
                label: app.label,
            },
            send: Some((from, message)),
            note,
        })
    }

    /// The short plan of the worker's accepting the answer, where it does.
    fn short_accepting(
        self,
        alloc: Global,
        worker: &Worker,
        from: NodeId,
        app: &AppMessage,
        request: &Request,
        answer: &Answer,
    ) -> Result<Option<ShortPlan>, AllocError>
        ensures { IfOk result (λ o. IfSome o (λ e.
            reply_plan (view_of self.entry) worker.now Keeps from app.now request.now answer.now ≡ plan_of e)) }
    {
        let Some(hearer) = self.heard_by(alloc, worker, request, answer)? else {
            return Ok(None);
        };
        let note = self.note_accepted(alloc, app.by, request, answer)?;
        Ok(Some(ShortPlan {
            update: ShortUpdate::Accepts {
                from,
                label: app.label,
                hearer,
            },
            send: None,
            note,
        }))
    }

    /// The short plan of the shard's hearing the request of which this comes, unless it is ignored.
    fn short_arrival(
        self,
        alloc: Global,
        live: &Live,
        from: NodeId,
        app: &AppMessage,
        request: &Request,
        arrival: Arrival<'_>,
    ) -> Result<Option<ShortPlan>, AllocError>
        requires { CanCount (live_view live.now) }
        ensures { IfOk result (λ o. IfSome o (λ e.
            request_plan (view_of self.entry) (live_view live.now) Keeps from app.now request.now
            (arrival_view arrival.entry) ≡ plan_of e)) }
    {
        match arrival {
            Arrival::Waits => Ok(Some(self.short_waiting(alloc, from, app, request)?)),
            Arrival::Again(answer) => {
                Ok(Some(self.short_again(alloc, live, from, app, request, answer)?))
            }
            Arrival::Ignored => Ok(None),
        }
    }

    /// The short plan of the live node's hearing the message: a request whose worker waits then, or that is answered
    /// once more, or an answer that is accepted. There is none of any other message.
    fn short_talk(
        self,
        alloc: Global,
        live: &Live,
        from: NodeId,
        app: &AppMessage,
    ) -> Result<Option<ShortPlan>, AllocError>
        requires { CanCount (live_view live.now) }
        ensures { IfOk result (λ o. IfSome o (λ e.
            heard_plan (view_of self.entry) (live_view live.now) Keeps from app.now ≡ plan_of e)) }
    {
        match (&live.body, &app.talk) {
            (Body::Worker(worker), Talk::Reply { request, answer }) => {
                self.short_accepting(alloc, worker, from, app, request, answer)
            }
            (Body::Shard(shard), Talk::Request(request)) => {
                self.short_arrival(
                    alloc,
                    live,
                    from,
                    app,
                    request,
                    shard.arrival(from.number(), request),
                )
            }
            (Body::Worker(_), Talk::Request(_)) | (Body::Shard(_), Talk::Reply { .. }) => Ok(None),
        }
    }

    /// The short plan of the message from the node, where it is heard and not ignored.
    pub fn short_hear(
        self,
        alloc: Global,
        from: NodeId,
        app: &AppMessage,
    ) -> Result<Option<ShortPlan>, AllocError>
        requires { CanSpeak self.node.now.node }
        ensures { IfOk result (λ o. IfSome o (λ e.
            hear_app (view_of self.entry) from app.now ≡ Ok (plan_of e))) }
    {
        let Some(live) = self.up() else {
            return Ok(None);
        };
        if live.first_kept().is_some() {
            return Ok(None);
        }
        self.short_talk(alloc, live, from, app)
    }
}
