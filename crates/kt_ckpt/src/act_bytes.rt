//! The acts of a log in bytes.
//! Cited by decode.rt, encode.rt.

ghost use Rattle.std.specs.Prelude.{◌≡◌, ◌==◌, ◌<◌, ◌^◌, ◌++◌, All, IfOk, IfSome, OnOk, length, map};
ghost use Rattle.std.specs.Option.{option_copied};
ghost use Rattle.std.specs.List.{flat_map};
ghost use Rattle.kt_ckpt.specs.Acts.{IsActOf, IsSpelledAct, act_at, act_bytes, answer_of, by_at, by_bytes};
ghost use Rattle.kt_ckpt.specs.Acts.{byte_such, cause_at, ignored_by, is_about, is_code_for, is_flag_of, may_send};
ghost use Rattle.kt_ckpt.specs.Acts.{place_at, sender, sender_code, told_bytes, what_behind, what_code};
ghost use Rattle.kt_ckpt.specs.Node.{IsNode};
ghost use Rattle.kt_ckpt.specs.Op.{IsAnswer};
ghost use Rattle.kt_ckpt.specs.Reading.{Gives, list_at};

use crate::acts::LogAct;
use crate::chain::Acts;
use crate::encode::push_node;
use crate::error::CkptError;
use crate::limits::{ACCEPTED, AGAIN, HEARD, IGNORED, ISSUE, REPEAT, SERVED, SHARD, WORKER};
use crate::numbers::{byte_at, push_u64, u64_at};
use crate::op::{answer_at, op_at, push_answer, push_op};
use kt_history::What;
use kt_tuple::{Answer, MAX_SHARDS, MAX_WORKERS, NodeId};
use std::alloc::{AllocError, Global};

// ---- written

fn code_of(what: &What) -> u8
    ensures { result ≡ what_code what.now }
{
    match what {
        What::Issue => ISSUE,
        What::Repeat => REPEAT,
        What::Heard => HEARD,
        What::Served(_) => SERVED,
        What::Again(_) => AGAIN,
        What::Accepted(_) => ACCEPTED,
        What::Ignored(_) => IGNORED,
    }
}

fn answer_in(what: &What) -> Option<&Answer>
    ensures { option_copied result ≡ answer_of what.now }
{
    match what {
        What::Served(answer) | What::Again(answer) | What::Accepted(answer) => Some(answer),
        What::Ignored(answer) => answer.as_ref(),
        What::Issue | What::Repeat | What::Heard => None,
    }
}

fn push_by(out: &mut Vec<u8>, by: Option<(NodeId, u64)>) -> Result<(), AllocError>
    ensures ok { OnOk result (out.new.items ≡ out.old.items ++ by_bytes by) }
    ensures held { OnOk result (IfSome by (λ x. x.1 < 2 ^ 64)) }
{
    match by {
        None => Ok(out.push(0)?),
        Some((node, place)) => {
            out.push(1)?;
            push_node(out, node)?;
            push_u64(out, place)
        }
    }
}

fn push_told(out: &mut Vec<u8>, what: &What) -> Result<(), AllocError>
    ensures ok { OnOk result (out.new.items ≡ out.old.items ++ told_bytes (answer_of what.now)) }
    ensures held { OnOk result (IfSome (answer_of what.now) IsAnswer) }
{
    match answer_in(what) {
        None => Ok(()),
        Some(answer) => push_answer(out, answer),
    }
}

fn push_act(out: &mut Vec<u8>, act: &LogAct) -> Result<(), AllocError>
    ensures ok { OnOk result (out.new.items ≡ out.old.items ++ act_bytes act.now) }
    ensures held { OnOk result (IsSpelledAct act.now) }
{
    out.push(code_of(&act.what))?;
    out.push(act.worker)?;
    push_by(out, act.by)?;
    push_u64(out, act.number)?;
    push_op(out, &act.op)?;
    push_told(out, &act.what)
}

/// Appends the acts of a log, oldest first.
pub(crate) fn push_log(alloc: Global, out: &mut Vec<u8>, acts: &Acts) -> Result<(), AllocError>
    ensures ok { OnOk result (out.new.items ≡ out.old.items ++ flat_map act_bytes acts.now) }
    ensures held { OnOk result (All IsSpelledAct acts.now) }
{
    let listed = acts.listed(alloc)?;
    push_acts(out, &listed)
}

/// Appends the acts, one behind the other.
fn push_acts(out: &mut Vec<u8>, acts: &[&LogAct]) -> Result<(), AllocError>
    ensures ok { OnOk result (out.new.items ≡ out.old.items ++ flat_map act_bytes (map (λ a. a.now) acts.now)) }
    ensures held { OnOk result (All IsSpelledAct (map (λ a. a.now) acts.now)) }
{
    for act in acts {
        push_act(out, act)?;
    }
    Ok(())
}

// ---- read

/// The code of what a node of this kind does.
#[tactic(auto, unfolding(crate::specs::Acts::byte_such))]
fn code_at(node: NodeId, bytes: &[u8]) -> Result<(u8, &[u8]), CkptError>
    ensures { Gives (λ x. (x.0, x.1.now)) result (byte_such (is_code_for node) bytes.now) }
{
    let (code, rest) = byte_at(bytes)?;
    let fits = match node {
        NodeId::Worker(_) => code == ISSUE || code == REPEAT || code == ACCEPTED || code == IGNORED,
        NodeId::Shard(_) => code == HEARD || code == SERVED || code == AGAIN || code == IGNORED,
    };
    if fits {
        Ok((code, rest))
    } else {
        Err(CkptError::Field)
    }
}

/// The worker that an act of the node may be about.
#[tactic(auto, unfolding(crate::specs::Acts::byte_such))]
fn worker_at(node: NodeId, bytes: &[u8]) -> Result<(u8, &[u8]), CkptError>
    ensures { Gives (λ x. (x.0, x.1.now)) result (byte_such (is_about node) bytes.now) }
{
    let (worker, rest) = byte_at(bytes)?;
    let fits = match node {
        NodeId::Worker(own) => worker == own,
        NodeId::Shard(_) => 1 <= worker && worker <= MAX_WORKERS,
    };
    if fits {
        Ok((worker, rest))
    } else {
        Err(CkptError::Field)
    }
}

/// Whether the act of this code heard something.
#[tactic(auto, unfolding(crate::specs::Acts::byte_such))]
fn heard_at(code: u8, bytes: &[u8]) -> Result<(u8, &[u8]), CkptError>
    ensures { Gives (λ x. (x.0, x.1.now)) result (byte_such (is_flag_of code) bytes.now) }
{
    let (flag, rest) = byte_at(bytes)?;
    let wanted = if code == ISSUE || code == REPEAT {
        0
    } else {
        1
    };
    if flag == wanted {
        Ok((flag, rest))
    } else {
        Err(CkptError::Field)
    }
}

/// The kind of who sent what the node heard.
#[tactic(auto, unfolding(crate::specs::Acts::byte_such))]
fn kind_at(node: NodeId, bytes: &[u8]) -> Result<(u8, &[u8]), CkptError>
    ensures { Gives (λ x. (x.0, x.1.now)) result (byte_such (λ code. code == sender_code node) bytes.now) }
{
    let (kind, rest) = byte_at(bytes)?;
    let wanted = match node {
        NodeId::Worker(_) => SHARD,
        NodeId::Shard(_) => WORKER,
    };
    if kind == wanted {
        Ok((kind, rest))
    } else {
        Err(CkptError::Field)
    }
}

/// The number of who sent what the node heard of the worker.
#[tactic(auto, unfolding(crate::specs::Acts::byte_such))]
fn index_at(node: NodeId, worker: u8, bytes: &[u8]) -> Result<(u8, &[u8]), CkptError>
    ensures { Gives (λ x. (x.0, x.1.now)) result (byte_such (λ n. may_send node worker (sender node n)) bytes.now) }
{
    let (index, rest) = byte_at(bytes)?;
    let fits = match node {
        NodeId::Worker(_) => 1 <= index && index <= MAX_SHARDS,
        NodeId::Shard(_) => index == worker,
    };
    if fits {
        Ok((index, rest))
    } else {
        Err(CkptError::Field)
    }
}

#[tactic(auto, unfolding(crate::specs::Acts::place_at))]
fn place_at(bytes: &[u8]) -> Result<(u64, &[u8]), CkptError>
    ensures { Gives (λ x. (x.0, x.1.now)) result (place_at bytes.now) }
{
    let (place, rest) = u64_at(bytes)?;
    if 1 <= place {
        Ok((place, rest))
    } else {
        Err(CkptError::Field)
    }
}

fn sender(node: NodeId, index: u8) -> NodeId
    ensures { result ≡ sender node index }
{
    match node {
        NodeId::Worker(_) => NodeId::Shard(index),
        NodeId::Shard(_) => NodeId::Worker(index),
    }
}

#[tactic(auto, unfolding(crate::specs::Acts::cause_at))]
fn cause_at(node: NodeId, worker: u8, bytes: &[u8]) -> Result<((NodeId, u64), &[u8]), CkptError>
    ensures { Gives (λ x. (x.0, x.1.now)) result (cause_at node worker bytes.now) }
{
    let (_, rest) = kind_at(node, bytes)?;
    let (index, rest) = index_at(node, worker, rest)?;
    let (place, rest) = place_at(rest)?;
    Ok(((sender(node, index), place), rest))
}

type By<'a> = (Option<(NodeId, u64)>, &'a [u8]);

#[tactic(auto, unfolding(crate::specs::Acts::by_at))]
fn by_at(node: NodeId, code: u8, worker: u8, bytes: &[u8]) -> Result<By<'_>, CkptError>
    ensures { Gives (λ x. (x.0, x.1.now)) result (by_at node code worker bytes.now) }
{
    let (flag, rest) = heard_at(code, bytes)?;
    if flag == 0 {
        return Ok((None, rest));
    }
    let (by, rest) = cause_at(node, worker, rest)?;
    Ok((Some(by), rest))
}

#[tactic(auto, unfolding(crate::specs::Acts::what_behind))]
fn what_behind(
    alloc: Global,
    node: NodeId,
    code: u8,
    bytes: &[u8],
) -> Result<(What, &[u8]), CkptError>
    ensures { Gives (λ x. (x.0, x.1.now)) result (what_behind node code bytes.now) }
{
    match code {
        ISSUE => Ok((What::Issue, bytes)),
        REPEAT => Ok((What::Repeat, bytes)),
        HEARD => Ok((What::Heard, bytes)),
        SERVED => {
            let (answer, rest) = answer_at(alloc, bytes)?;
            Ok((What::Served(answer), rest))
        }
        AGAIN => {
            let (answer, rest) = answer_at(alloc, bytes)?;
            Ok((What::Again(answer), rest))
        }
        ACCEPTED => {
            let (answer, rest) = answer_at(alloc, bytes)?;
            Ok((What::Accepted(answer), rest))
        }
        _ => ignored_by(alloc, node, bytes),
    }
}

/// What the node ignored: a worker an answer, a shard a request, which the act names.
fn ignored_by(alloc: Global, node: NodeId, bytes: &[u8]) -> Result<(What, &[u8]), CkptError>
    ensures { Gives (λ x. (x.0, x.1.now)) result (ignored_by node bytes.now) }
{
    match node {
        NodeId::Worker(_) => {
            let (answer, rest) = answer_at(alloc, bytes)?;
            Ok((What::Ignored(Some(answer)), rest))
        }
        NodeId::Shard(_) => Ok((What::Ignored(None), bytes)),
    }
}

#[tactic(auto, unfolding(crate::specs::Acts::act_at))]
fn act_at(alloc: Global, node: NodeId, bytes: &[u8]) -> Result<(LogAct, &[u8]), CkptError>
    ensures { Gives (λ x. (x.0, x.1.now)) result (act_at node bytes.now) }
{
    let (code, rest) = code_at(node, bytes)?;
    let (worker, rest) = worker_at(node, rest)?;
    let (by, rest) = by_at(node, code, worker, rest)?;
    let (number, rest) = u64_at(rest)?;
    let (op, rest) = op_at(alloc, rest)?;
    let (what, rest) = what_behind(alloc, node, code, rest)?;
    let act = LogAct {
        by,
        worker,
        number,
        op,
        what,
    };
    Ok((act, rest))
}

/// So many acts of the node's log, and the bytes behind them.
pub(crate) fn acts_at(
    alloc: Global,
    node: NodeId,
    count: u64,
    bytes: &[u8],
) -> Result<(Vec<LogAct>, &[u8]), CkptError>
    requires { IsNode node }
    ensures value { Gives (λ x. (x.0.items, x.1.now)) result (list_at (act_at node) count bytes.now) }
    ensures len { IfOk result (λ x. length x.0.items ≡ count) }
    ensures shape { IfOk result (λ x. All (IsActOf node) x.0.items) }
{
    let mut acts = Vec::new(alloc);
    let mut rest = bytes;
    for _ in 0..count {
        let (act, after) = act_at(alloc, node, rest)?;
        acts.push(act)?;
        rest = after;
    }
    Ok((acts, rest))
}
