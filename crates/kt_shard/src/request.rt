//! Requests of workers, and the answers that are kept of them.
//! Cited by arrival.rt, parts.rt, service.rt, session.rt, shard.rt; other crates.

ghost use Rattle.std.specs.Prelude.{◌≡◌, IfOk};
ghost use Rattle.kt_shard.specs.Session.{same_request};

use kt_tuple::{Answer, Op};
use std::alloc::{AllocError, Global};

/// A request of a worker; whose it is, its session says.
#[derive(Debug, Drop)]
pub struct Request {
    /// The number that the worker gave it, counted from 1.
    pub number: u64,
    /// The operation, as it was sent: with values and bare formals.
    pub op: Op,
}

impl Request {
    /// An equal request with memory of its own.
    pub fn copy(&self, alloc: Global) -> Result<Request, AllocError>
        ensures { IfOk result (λ r. r ≡ self.now) }
    {
        Ok(Request {
            number: self.number,
            op: self.op.copy(alloc)?,
        })
    }

    /// Whether both have one number and ask for one operation.
    pub(crate) fn is_same(&self, other: &Request) -> bool
        ensures { result ≡ same_request self.now other.now }
    {
        self.number == other.number && self.op == other.op
    }
}

/// A request that was served, with its answer.
#[derive(Debug, Drop)]
pub struct CachedReply {
    /// The request whole: one is the same only by number and operation.
    pub request: Request,
    /// The answer that was sent when it was served.
    pub answer: Answer,
}

impl CachedReply {
    /// An equal request with an equal answer, with memory of their own.
    pub fn copy(&self, alloc: Global) -> Result<CachedReply, AllocError>
        ensures { IfOk result (λ k. k ≡ self.now) }
    {
        Ok(CachedReply {
            request: self.request.copy(alloc)?,
            answer: self.answer.copy(alloc)?,
        })
    }
}
