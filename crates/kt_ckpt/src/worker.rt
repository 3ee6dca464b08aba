//! A worker in bytes.
//! Cited by decode.rt, encode.rt, old_state.rt.

ghost use Rattle.std.specs.Prelude.{◌≡◌, ◌≤◌, ◌++◌, All, IfOk, OnOk, IfSome, length};
ghost use Rattle.kt_tuple.specs.Valid.{IsValue};
ghost use Rattle.kt_ckpt.specs.Op.{IsOp};
ghost use Rattle.kt_ckpt.specs.Reading.{Gives};
ghost use Rattle.kt_ckpt.specs.Fields.{worker_of};
ghost use Rattle.kt_ckpt.specs.State.{IsWorker, IsCountedWorker, worker_bytes, asked_bytes};
ghost use Rattle.kt_ckpt.specs.State.{variables_bytes, pc_at, asked_at, variables_at, worker_at};

use crate::error::CkptError;
use crate::list::list_at;
use crate::numbers::{byte_within, flag_at, push_flag, push_u16, push_u64, u16_at, u64_at};
use crate::op::{op_at, push_op};
use crate::state::WorkerState;
use crate::tuple::push_values;
use kt_script::{MAX_COMMANDS, MAX_VARIABLES};
use kt_tuple::{Op, Value};
use std::alloc::{AllocError, Global};

/// Appends a worker's fields in the order of `WorkerState::new`: two bytes of the position first, the variables last.
pub(crate) fn push_worker(out: &mut Vec<u8>, worker: &WorkerState) -> Result<(), AllocError>
    requires { IsCountedWorker worker.now }
    ensures ok { OnOk result (out.new.items ≡ out.old.items ++ worker_bytes worker.now) }
    ensures held { OnOk result (IsWorker worker.now) }
{
    push_fields(
        out,
        worker.pc,
        worker.number,
        worker.was_none,
        &worker.asked,
        &worker.variables,
    )
}

fn push_fields(
    out: &mut Vec<u8>,
    pc: u16,
    number: u64,
    was_none: bool,
    asked: &Option<Op>,
    variables: &[Value],
) -> Result<(), AllocError>
    requires few { length variables.now ≤ MAX_VARIABLES }
    ensures ok { OnOk result (out.new.items ≡ out.old.items
        ++ worker_bytes (worker_of pc number was_none asked.now variables.now)) }
    ensures asked { OnOk result (IfSome asked.now IsOp) }
    ensures variables { OnOk result (All IsValue variables.now) }
{
    push_u16(out, pc)?;
    push_u64(out, number)?;
    push_flag(out, was_none)?;
    push_asked(out, asked)?;
    push_variables(out, variables)
}

fn push_variables(out: &mut Vec<u8>, variables: &[Value]) -> Result<(), AllocError>
    requires { length variables.now ≤ MAX_VARIABLES }
    ensures ok { OnOk result (out.new.items ≡ out.old.items ++ variables_bytes variables.now) }
    ensures held { OnOk result (All IsValue variables.now) }
{
    out.push(variables.len() as u8)?;
    push_values(out, variables)
}

fn push_asked(out: &mut Vec<u8>, asked: &Option<Op>) -> Result<(), AllocError>
    ensures ok { OnOk result (out.new.items ≡ out.old.items ++ asked_bytes asked.now) }
    ensures held { OnOk result (IfSome asked.now IsOp) }
{
    match asked {
        Some(op) => {
            out.push(1)?;
            push_op(out, op)
        }
        None => Ok(out.push(0)?),
    }
}

/// A worker, and the bytes behind it.
#[tactic(auto, unfolding(crate::specs::State::worker_at))]
pub(crate) fn worker_at(alloc: Global, bytes: &[u8]) -> Result<(WorkerState, &[u8]), CkptError>
    ensures value { Gives (λ x. (x.0, x.1.now)) result (worker_at bytes.now) }
    ensures counted { IfOk result (λ x. IsCountedWorker x.0) }
{
    let (pc, rest) = pc_at(bytes)?;
    let (number, rest) = u64_at(rest)?;
    let (was_none, rest) = flag_at(rest)?;
    let (asked, rest) = asked_at(alloc, rest)?;
    let (variables, rest) = variables_at(alloc, rest)?;
    let worker = WorkerState::new(pc, number, was_none, asked, variables);
    Ok((worker, rest))
}

#[tactic(auto, unfolding(crate::specs::State::pc_at))]
pub(crate) fn pc_at(bytes: &[u8]) -> Result<(u16, &[u8]), CkptError>
    ensures value { Gives (λ x. (x.0, x.1.now)) result (pc_at bytes.now) }
    ensures few { IfOk result (λ x. x.0 ≤ MAX_COMMANDS) }
{
    let (pc, rest) = u16_at(bytes)?;
    if usize::from(pc) <= MAX_COMMANDS {
        Ok((pc, rest))
    } else {
        Err(CkptError::Field)
    }
}

#[tactic(auto, unfolding(crate::specs::State::asked_at))]
fn asked_at(alloc: Global, bytes: &[u8]) -> Result<(Option<Op>, &[u8]), CkptError>
    ensures { Gives (λ x. (x.0, x.1.now)) result (asked_at bytes.now) }
{
    let (is_asked, rest) = flag_at(bytes)?;
    if !is_asked {
        return Ok((None, rest));
    }
    let (op, rest) = op_at(alloc, rest)?;
    Ok((Some(op), rest))
}

#[tactic(auto, unfolding(crate::specs::State::variables_at))]
fn variables_at(alloc: Global, bytes: &[u8]) -> Result<(Vec<Value>, &[u8]), CkptError>
    ensures value { Gives (λ x. (x.0.items, x.1.now)) result (variables_at bytes.now) }
    ensures few { IfOk result (λ x. length x.0.items ≤ MAX_VARIABLES) }
{
    let (count, rest) = byte_within(0, MAX_VARIABLES as u8, bytes)?;
    list_at(alloc, u32::from(count), rest)
}
