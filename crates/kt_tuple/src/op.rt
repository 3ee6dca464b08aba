//! Operations on the space, and what they are answered.
//! Cited by equality.rt, service.rt, writing.rt; other crates.

ghost use Rattle.std.specs.Prelude.{◌≡◌, ◌↔◌, IsTrue, IfOk};
ghost use Rattle.kt_tuple.specs.Signature.{kinds_of_op, signature_of};

use crate::signature::Signature;
use crate::template::Template;
use crate::tuple::Tuple;
use std::alloc::{AllocError, Global};

/// An operation on the space (Gelernter, "Generative Communication in Linda", section 2).
#[derive(Debug, Drop)]
pub enum Op {
    /// Adds the tuple.
    Out(Tuple),
    /// Withdraws a tuple that matches, and waits while there is none.
    In(Template),
    /// Reads a tuple that matches, and waits while there is none.
    Rd(Template),
    /// Withdraws a tuple that matches, or answers that there is none.
    Inp(Template),
    /// Reads a tuple that matches, or answers that there is none.
    Rdp(Template),
}

/// What an operation was answered. An `in` or `rd` that waits has none yet.
#[derive(Debug, Drop)]
pub enum Answer {
    /// The tuple was added: the answer to `out`.
    Done,
    /// This tuple was withdrawn (`in`, `inp`) or read (`rd`, `rdp`).
    Got(Tuple),
    /// No tuple matched: an answer to `inp` and `rdp` alone, since `in` and `rd` wait.
    None,
}

impl Op {
    /// The kinds of its tuple or template, as one number.
    pub fn signature(&self) -> Signature
        ensures { result ≡ signature_of (kinds_of_op self.now) }
    {
        match self {
            Op::Out(tuple) => tuple.signature(),
            Op::In(template) | Op::Rd(template) | Op::Inp(template) | Op::Rdp(template) => {
                template.signature()
            }
        }
    }

    /// An equal operation with memory of its own.
    pub fn copy(&self, alloc: Global) -> Result<Op, AllocError>
        ensures { IfOk result (λ op. op ≡ self.now) }
    {
        Ok(match self {
            Op::Out(tuple) => Op::Out(tuple.copy(alloc)?),
            Op::In(template) => Op::In(template.copy(alloc)?),
            Op::Rd(template) => Op::Rd(template.copy(alloc)?),
            Op::Inp(template) => Op::Inp(template.copy(alloc)?),
            Op::Rdp(template) => Op::Rdp(template.copy(alloc)?),
        })
    }
}

impl Answer {
    /// An equal answer with memory of its own.
    pub fn copy(&self, alloc: Global) -> Result<Answer, AllocError>
        ensures { IfOk result (λ answer. answer ≡ self.now) }
    {
        match self {
            Answer::Done => Ok(Answer::Done),
            Answer::Got(tuple) => Ok(Answer::Got(tuple.copy(alloc)?)),
            Answer::None => Ok(Answer::None),
        }
    }
}

impl PartialEq for Op {
    ghost use Rattle.std.specs.Cmp.{partial_equiv_from_equiv};
    ghost use Rattle.kt_tuple.specs.Equality.{equivalence_from_decides};
    ghost use Rattle.kt_tuple.specs.Op.{op_eq, op_eq_decides};

    ghost eq = { op_eq };

    ghost laws = { partial_equiv_from_equiv (equivalence_from_decides op_eq op_eq_decides) };

    fn eq(&self, other: &Op) -> bool {
        match (self, other) {
            (Op::Out(a), Op::Out(b)) => a == b,
            (Op::In(a), Op::In(b))
            | (Op::Rd(a), Op::Rd(b))
            | (Op::Inp(a), Op::Inp(b))
            | (Op::Rdp(a), Op::Rdp(b)) => a == b,
            _ => false,
        }
    }
}

impl Eq for Op {
    ghost use Rattle.kt_tuple.specs.Equality.{equivalence_from_decides};
    ghost use Rattle.kt_tuple.specs.Op.{op_eq, op_eq_decides};

    ghost laws = { equivalence_from_decides op_eq op_eq_decides };
}

impl PartialEq for Answer {
    ghost use Rattle.std.specs.Cmp.{partial_equiv_from_equiv};
    ghost use Rattle.kt_tuple.specs.Equality.{equivalence_from_decides};
    ghost use Rattle.kt_tuple.specs.Op.{answer_eq, answer_eq_decides};

    ghost eq = { answer_eq };

    ghost laws = { partial_equiv_from_equiv (equivalence_from_decides answer_eq answer_eq_decides) };

    fn eq(&self, other: &Answer) -> bool {
        match (self, other) {
            (Answer::Done, Answer::Done) | (Answer::None, Answer::None) => true,
            (Answer::Got(a), Answer::Got(b)) => a == b,
            _ => false,
        }
    }
}

impl Eq for Answer {
    ghost use Rattle.kt_tuple.specs.Equality.{equivalence_from_decides};
    ghost use Rattle.kt_tuple.specs.Op.{answer_eq, answer_eq_decides};

    ghost laws = { equivalence_from_decides answer_eq answer_eq_decides };
}
