//! What a shard keeps for each worker.
//! Cited by arrival.rt, parts.rt, request.rt, shard.rt; other crates.

ghost use Rattle.std.specs.Prelude.{◌≡◌, Some, None, IfOk};

use crate::request::{CachedReply, Request};
use std::alloc::{AllocError, Global};

/// What a shard remembers of one worker: the worker's session.
#[derive(Debug, Drop)]
pub struct Session {
    /// The request that the worker waits with, `None` while it waits with none.
    pub waiting: Option<Request>,
    /// The last request that was served, `None` before the first. It is kept with its answer, so that asked again it is
    /// answered again and not served twice.
    pub cached: Option<CachedReply>,
}

impl Session {
    /// An equal session with memory of its own.
    pub fn copy(&self, alloc: Global) -> Result<Session, AllocError>
        ensures { IfOk result (λ d. d ≡ self.now) }
    {
        let waiting = match &self.waiting {
            Some(request) => Some(request.copy(alloc)?),
            None => None,
        };
        let cached = match &self.cached {
            Some(cached) => Some(cached.copy(alloc)?),
            None => None,
        };
        Ok(Session { waiting, cached })
    }

    /// The worker waits with the request; what is kept stays.
    pub(crate) fn wait(&mut self, request: Request)
        ensures { self.new ≡ record { waiting = Some request; cached = self.old.cached } }
    {
        drop(self.waiting.replace(request));
    }

    /// The worker waits no more, and this is kept.
    pub(crate) fn keep(&mut self, cached: CachedReply)
        ensures { self.new ≡ record { waiting = None; cached = Some cached } }
    {
        drop(self.waiting.take());
        drop(self.cached.replace(cached));
    }
}
