//! What a shard makes of a request that arrives.
//! Cited by shard.rt; other crates.

ghost use Rattle.std.specs.Prelude.{◌≡◌, max, IfOk};
ghost use Rattle.std.specs.Option.{option_copied};
ghost use Rattle.kt_shard.specs.Session.{number_or_0, cached_request, answer_unless_waiting};
ghost use Rattle.kt_shard.specs.Arrival.{arrival_view, heard_view, arrival_at};

use crate::request::{CachedReply, Request};
use kt_tuple::Answer;
use std::alloc::{AllocError, Global};

/// What becomes of a request that is heard: it waits, is answered again, or is ignored.
#[derive(Clone, Copy, Debug)]
pub enum Arrival<'a> {
    /// Its number is above all that were heard of the worker: the worker waits with it from now on.
    Waits,
    /// It is the request that was served last, and the worker does not wait: it is answered so once more.
    Again(&'a Answer),
    /// Its number is not new, and there is no cached answer to give: nothing changes.
    Ignored,
}

impl Arrival<'_> {
    /// The same outcome with a copy of the answer, so that it lends nothing of the shard.
    pub fn to_heard(self, alloc: Global) -> Result<Heard, AllocError>
        ensures { IfOk result (λ h. heard_view h ≡ arrival_view self.entry) }
    {
        match self {
            Arrival::Waits => Ok(Heard::Waits),
            Arrival::Again(answer) => Ok(Heard::Again(answer.copy(alloc)?)),
            Arrival::Ignored => Ok(Heard::Ignored),
        }
    }
}

/// What became of a request that was heard: an `Arrival` that owns its answer.
#[derive(Debug, Drop)]
pub enum Heard {
    /// The worker waits with it from now on.
    Waits,
    /// It was served last, and this cached answer is sent once more.
    Again(Answer),
    /// Its number is not new, and there is no cached answer to give.
    Ignored,
}

/// What becomes of the request at a session with this waiting request and this cached answer.
pub(crate) fn arrival_of<'a>(
    waiting: Option<&Request>,
    cached: Option<&'a CachedReply>,
    request: &Request,
) -> Arrival<'a>
    ensures { arrival_view result ≡ arrival_at
        (record { waiting = option_copied waiting.entry; cached = option_copied cached.entry }) request.now }
{
    if newest(waiting, cached) < request.number {
        return Arrival::Waits;
    }
    match cached_answer(waiting, cached, request) {
        Some(answer) => Arrival::Again(answer),
        None => Arrival::Ignored,
    }
}

/// The greatest number that was heard of the worker, or 0.
fn newest(waiting: Option<&Request>, cached: Option<&CachedReply>) -> u64
    ensures { result ≡ max (number_or_0 (option_copied waiting.entry))
        (number_or_0 (cached_request (option_copied cached.entry))) }
{
    let waiting = match waiting {
        Some(request) => request.number,
        None => 0,
    };
    let cached = match cached {
        Some(cached) => cached.request.number,
        None => 0,
    };
    waiting.max(cached)
}

/// What was answered to this request, where it is the one kept and the worker does not wait.
fn cached_answer<'a>(
    waiting: Option<&Request>,
    cached: Option<&'a CachedReply>,
    request: &Request,
) -> Option<&'a Answer>
    ensures { option_copied result ≡ answer_unless_waiting (option_copied waiting.entry)
        (option_copied cached.entry) request.now }
{
    match (waiting, cached) {
        (None, Some(cached)) => {
            if cached.request.is_same(request) {
                Some(&cached.answer)
            } else {
                None
            }
        }
        _ => None,
    }
}
