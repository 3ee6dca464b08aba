//! What a shard knows of one worker.
//! Cited by entries.rt, shard.rt, suits.rt.

ghost use Rattle.std.specs.Prelude.{◌≡◌, ◌↔◌, IfOk, IsTrue, Some};
ghost use Rattle.std.specs.Option.{option_copied};
ghost use Rattle.kt_history.specs.declared.note.What.TheVariants as whats;
ghost use Rattle.kt_logs.specs.ShardLog.{AnswersAgain, Hears, Ignores, request_of};
ghost use Rattle.kt_shard.specs.Session.{empty_session, cached_answer, newest, same_request};
ghost use Rattle.kt_resume.specs.Remade.{empty_slot};
ghost use Rattle.kt_resume.specs.auxiliary.Slots.{slot_after};

use kt_history::Act;
use kt_shard::{CachedReply, Request, Session};
use kt_tuple::Answer;
use std::alloc::{AllocError, Global};
use std::marker::Model;

/// What a shard knows of one worker while it is made again.
#[derive(Debug, Drop)]
pub(crate) struct Slot {
    /// What it remembers of the worker.
    session: Session,
    /// The cause of the last hearing of the worker, 0 before the first. A service is caused by what caused that.
    cause: u64,
}

impl Model for Slot {
    ghost use Rattle.kt_resume.specs.Remade.{Slot as Known};

    ghost Value = { Known };

    ghost view = { λ s. record { session = s.session; cause = s.cause } };
}

impl Slot {
    /// Of a worker that was not heard of.
    pub(crate) fn new() -> Slot
        ensures { result ≡ empty_slot }
    {
        Slot {
            session: Session {
                waiting: None,
                cached: None,
            },
            cause: 0,
        }
    }

    /// What is remembered of the worker.
    pub(crate) fn session(&self) -> &Session
        ensures { result.now ≡ self.now.session }
    {
        &self.session
    }

    /// Whether nothing is remembered of the worker.
    pub(crate) fn is_empty(&self) -> bool
        ensures { IsTrue result ↔ (self.now.session ≡ empty_session) }
    {
        self.session.waiting.is_none() && self.session.cached.is_none()
    }

    /// Hears the request of the act, if its number is new, and says whether it is.
    pub(crate) fn hear(&mut self, alloc: Global, act: &Act) -> Result<bool, AllocError>
        ensures may { IfOk result (λ may. IsTrue may ↔ Hears act.now.number self.old.session) }
        ensures after { IfOk result (λ may. IsTrue may
            → self.new ≡ slot_after self.old act.now whats.Heard) }
    {
        if act.number <= self.newest() {
            return Ok(false);
        }
        let op = act.op.copy(alloc)?;
        self.session.waiting = Some(Request {
            number: act.number,
            op,
        });
        self.cause = act.by;
        Ok(true)
    }

    /// Keeps the answer of the act, if the worker waits with just its request and its cause is that of the last
    /// hearing, and says whether that is so.
    pub(crate) fn serve(
        &mut self,
        alloc: Global,
        act: &Act,
        answer: &Answer,
    ) -> Result<bool, AllocError>
        ensures may { IfOk result (λ may. IsTrue may
            ↔ ((self.old.session.waiting ≡ Some (request_of act.now)) × (act.now.by ≡ self.old.cause))) }
        ensures after { IfOk result (λ may. IsTrue may
            → self.new ≡ slot_after self.old act.now (whats.Served answer.now)) }
    {
        if !(self.waits_with(act) && act.by == self.cause) {
            return Ok(false);
        }
        let op = act.op.copy(alloc)?;
        let answer = answer.copy(alloc)?;
        let request = Request {
            number: act.number,
            op,
        };
        drop(self.session.waiting.take());
        drop(self.session.cached.replace(CachedReply { request, answer }));
        Ok(true)
    }

    /// Whether this answer to the request of the act is kept, and the worker does not wait.
    pub(crate) fn answers_again(&self, act: &Act, answer: &Answer) -> bool
        ensures { IsTrue result ↔ AnswersAgain (request_of act.now) answer.now self.now.session }
    {
        match self.cached_answer(act) {
            Some(cached) => cached == answer,
            None => false,
        }
    }

    /// Whether the request of the act is neither new nor to be answered again.
    pub(crate) fn ignores(&self, act: &Act) -> bool
        ensures { IsTrue result ↔ Ignores (request_of act.now) self.now.session }
    {
        act.number <= self.newest() && self.cached_answer(act).is_none()
    }

    /// The greatest number that was heard of the worker, or 0.
    fn newest(&self) -> u64
        ensures { result ≡ newest self.now.session }
    {
        let waiting = match &self.session.waiting {
            Some(request) => request.number,
            None => 0,
        };
        let cached = match &self.session.cached {
            Some(cached) => cached.request.number,
            None => 0,
        };
        waiting.max(cached)
    }

    /// Whether the worker waits with the request of the act.
    fn waits_with(&self, act: &Act) -> bool
        ensures { IsTrue result ↔ (self.now.session.waiting ≡ Some (request_of act.now)) }
    {
        match &self.session.waiting {
            Some(request) => is_of(request, act),
            None => false,
        }
    }

    /// What was answered to the request of the act, where it is the one kept and the worker does not wait.
    fn cached_answer(&self, act: &Act) -> Option<&Answer>
        ensures { option_copied result ≡ cached_answer self.now.session (request_of act.now) }
    {
        match (&self.session.waiting, &self.session.cached) {
            (None, Some(cached)) => {
                if is_of(&cached.request, act) {
                    Some(&cached.answer)
                } else {
                    None
                }
            }
            _ => None,
        }
    }
}

/// Whether the act is about this request.
fn is_of(request: &Request, act: &Act) -> bool
    ensures { result ≡ same_request request.now (request_of act.now) }
{
    request.number == act.number && request.op == act.op
}
