//! Operations and answers in bytes.
//! Cited by act_bytes.rt, entry.rt, worker.rt.

ghost use Rattle.std.specs.Prelude.{◌≡◌, ◌++◌, OnOk};
ghost use Rattle.kt_ckpt.specs.Reading.{Gives};
ghost use Rattle.kt_ckpt.specs.Op.{IsOp, IsAnswer, op_bytes, answer_bytes, op_behind, op_at, answer_behind, answer_at};

use crate::error::CkptError;
use crate::limits::{DONE, GOT, IN, INP, NONE, OUT, RD, RDP};
use crate::numbers::byte_at;
use crate::tuple::{push_template, push_tuple, template_at, tuple_at};
use kt_tuple::{Answer, Op};
use std::alloc::{AllocError, Global};

/// Appends the operation's code and its tuple or template.
pub(crate) fn push_op(out: &mut Vec<u8>, op: &Op) -> Result<(), AllocError>
    ensures ok { OnOk result (out.new.items ≡ out.old.items ++ op_bytes op.now) }
    ensures held { OnOk result (IsOp op.now) }
{
    match op {
        Op::Out(tuple) => {
            out.push(OUT)?;
            push_tuple(out, tuple)
        }
        Op::In(template) => {
            out.push(IN)?;
            push_template(out, template)
        }
        Op::Rd(template) => {
            out.push(RD)?;
            push_template(out, template)
        }
        Op::Inp(template) => {
            out.push(INP)?;
            push_template(out, template)
        }
        Op::Rdp(template) => {
            out.push(RDP)?;
            push_template(out, template)
        }
    }
}

/// Appends the answer's code and, behind that of `Got`, the tuple.
pub(crate) fn push_answer(out: &mut Vec<u8>, answer: &Answer) -> Result<(), AllocError>
    ensures ok { OnOk result (out.new.items ≡ out.old.items ++ answer_bytes answer.now) }
    ensures held { OnOk result (IsAnswer answer.now) }
{
    match answer {
        Answer::Done => Ok(out.push(DONE)?),
        Answer::Got(tuple) => {
            out.push(GOT)?;
            push_tuple(out, tuple)
        }
        Answer::None => Ok(out.push(NONE)?),
    }
}

/// An operation, and the bytes behind it.
#[tactic(auto, unfolding(crate::specs::Op::op_at))]
pub(crate) fn op_at(alloc: Global, bytes: &[u8]) -> Result<(Op, &[u8]), CkptError>
    ensures { Gives (λ x. (x.0, x.1.now)) result (op_at bytes.now) }
{
    let (code, rest) = byte_at(bytes)?;
    op_behind(alloc, code, rest)
}

/// An operation behind its code.
#[tactic(auto, unfolding(crate::specs::Op::op_behind))]
fn op_behind(alloc: Global, code: u8, bytes: &[u8]) -> Result<(Op, &[u8]), CkptError>
    ensures { Gives (λ x. (x.0, x.1.now)) result (op_behind code bytes.now) }
{
    if code == OUT {
        let (tuple, rest) = tuple_at(alloc, bytes)?;
        return Ok((Op::Out(tuple), rest));
    }
    // A bad code is told before what stands behind it: the first fault is that further left.
    if code < IN || RDP < code {
        return Err(CkptError::Field);
    }
    let (template, rest) = template_at(alloc, bytes)?;
    let op = match code {
        IN => Op::In(template),
        RD => Op::Rd(template),
        INP => Op::Inp(template),
        _ => Op::Rdp(template),
    };
    Ok((op, rest))
}

/// An answer, and the bytes behind it.
#[tactic(auto, unfolding(crate::specs::Op::answer_at))]
pub(crate) fn answer_at(alloc: Global, bytes: &[u8]) -> Result<(Answer, &[u8]), CkptError>
    ensures { Gives (λ x. (x.0, x.1.now)) result (answer_at bytes.now) }
{
    let (code, rest) = byte_at(bytes)?;
    answer_behind(alloc, code, rest)
}

/// An answer behind its code.
#[tactic(auto, unfolding(crate::specs::Op::answer_behind))]
fn answer_behind(alloc: Global, code: u8, bytes: &[u8]) -> Result<(Answer, &[u8]), CkptError>
    ensures { Gives (λ x. (x.0, x.1.now)) result (answer_behind code bytes.now) }
{
    match code {
        DONE => Ok((Answer::Done, bytes)),
        GOT => {
            let (tuple, rest) = tuple_at(alloc, bytes)?;
            Ok((Answer::Got(tuple), rest))
        }
        NONE => Ok((Answer::None, bytes)),
        _ => Err(CkptError::Field),
    }
}
