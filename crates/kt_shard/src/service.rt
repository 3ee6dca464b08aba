//! What comes of serving a request.
//! Cited by parts.rt, shard.rt; other crates.

ghost use Rattle.std.specs.Prelude.{◌≡◌, IfOk, IfSome};

use crate::request::Request;
use kt_tuple::{Answer, Op, Tuple};
use std::alloc::{AllocError, Global};
use std::marker::Model;

/// An answer that lends its tuple, so that it can be found out without memory.
#[derive(Clone, Copy, Debug)]
pub enum Reply<'a> {
    /// The operation is an `out`: its tuple is put.
    Done,
    /// This tuple is withdrawn (`in`, `inp`) or read (`rd`, `rdp`).
    Got(&'a Tuple),
    /// No tuple matches an `inp` or `rdp`.
    None,
}

impl Reply<'_> {
    ghost use Rattle.kt_shard.specs.Views.{reply_view};

    /// The answer with a copy of the tuple.
    pub fn to_answer(self, alloc: Global) -> Result<Answer, AllocError>
        ensures { IfOk result (λ answer. answer ≡ reply_view self.entry) }
    {
        match self {
            Reply::Done => Ok(Answer::Done),
            Reply::Got(tuple) => Ok(Answer::Got(tuple.copy(alloc)?)),
            Reply::None => Ok(Answer::None),
        }
    }
}

/// How a request can be served, found out without memory. Serving goes in two parts: what takes memory changes nothing
/// (`prepare`), and what changes is not refused (`Shard::carry_out`).
#[derive(Clone, Copy, Debug)]
pub struct Choice<'a> {
    pub(crate) request: &'a Request,
    pub(crate) place: u64,
    pub(crate) reply: Reply<'a>,
}

impl<'a> Choice<'a> {
    ghost use Rattle.kt_shard.specs.Views.{choice_view};

    /// The service with all memory that it takes.
    pub fn prepare(self, alloc: Global) -> Result<Prepared, AllocError>
        ensures { IfOk result (λ p. p ≡ choice_view self.entry) }
    {
        let put = match &self.request.op {
            Op::Out(tuple) => Some(tuple.copy(alloc)?),
            _ => None,
        };
        Ok(Prepared {
            request: self.request.copy(alloc)?,
            place: self.place,
            answer: self.reply.to_answer(alloc)?,
            put,
        })
    }
}

/// A service that was found out beforehand, with all memory that it takes.
#[derive(Debug, Drop)]
pub struct Prepared {
    pub(crate) request: Request,
    pub(crate) place: u64,
    pub(crate) answer: Answer,
    /// The tuple that an `out` puts, `None` for other operations: a copy, since the request is kept with its own.
    pub(crate) put: Option<Tuple>,
}

impl Model for Prepared {
    ghost use Rattle.std.specs.Prelude.{◌≡◌};
    ghost use Rattle.kt_shard.specs.Service.{Service};
    ghost use Rattle.kt_shard.specs.auxiliary.Puts.{put_of};

    ghost Value = { Service };

    ghost view = { λ p. record { request = p.request; place = p.place; answer = p.answer } };

    ghost invariant = { λ p. p.put ≡ put_of p.request.op };
}

impl Prepared {
    /// The request that is served.
    pub fn request(&self) -> &Request
        ensures { result.now ≡ self.now.request }
    {
        &self.request
    }

    /// The answer that its worker gets.
    pub fn answer(&self) -> &Answer
        ensures { result.now ≡ self.now.answer }
    {
        &self.answer
    }
}
