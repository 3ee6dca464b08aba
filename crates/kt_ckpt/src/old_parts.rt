//! Values, tuples and operations in format 1. They are spelled as they are now, but it can hold fewer; each field is
//! judged by that as it is read.
//! Cited by old_state.rt; whoever calls the trait `Old`.

ghost use Rattle.std.specs.Prelude.{◌≡◌, ◌≤◌, Bool, IfOk, length};
ghost use Rattle.std.specs.List.{list_all};
ghost use Rattle.kt_ckpt.specs.OldLimits.{is_old_answer, is_old_op, is_old_template, is_old_tuple, is_old_value};
ghost use Rattle.kt_ckpt.specs.OldParts.{first_such, is_old_place_code, is_old_value_code, old_answer_at};
ghost use Rattle.kt_ckpt.specs.OldParts.{old_answer_behind, old_op_at, old_op_behind, old_template_at};
ghost use Rattle.kt_ckpt.specs.OldParts.{old_tuple_at};
ghost use Rattle.kt_ckpt.specs.Reading.{Gives, Reader, byte_within, list_at};

use crate::error::CkptError;
use crate::limits::{BOOL, BOOL_FORMAL, DONE, GOT, IN, INP, NONE, OUT, RD, RDP};
use crate::numbers::{byte_at, byte_within};
use crate::old_limits::OLD_PLACES;
use crate::value::{place_at, value_at};
use kt_tuple::{Answer, Kind, Op, Place, Template, Tuple, Value};
use std::alloc::Global;

/// What stands in a list of a checkpoint, in format 1.
pub(crate) trait Old: Sized + Drop {
    ghost old_reader: { Reader Self };

    ghost holds: { Self → Bool };

    /// Reads the thing in front, and gives the bytes behind it.
    fn read_old(alloc: Global, bytes: &[u8]) -> Result<(Self, &[u8]), CkptError>
        ensures { Gives (λ x. (x.0, x.1.now)) result (old_reader bytes.now) };

    /// Whether format 1 can hold it.
    fn is_old(&self) -> bool
        ensures { result ≡ holds self.now };
}

/// Whether format 1 can hold each of the things.
pub(crate) fn are_old<T: Old>(things: &[T]) -> bool
    ensures { result ≡ list_all T.holds things.now }
{
    things.iter().all(|thing| thing.is_old())
}

/// So many things, and the bytes behind them.
pub(crate) fn old_list_at<T: Old>(
    alloc: Global,
    count: u32,
    bytes: &[u8],
) -> Result<(Vec<T>, &[u8]), CkptError>
    ensures value { Gives (λ x. (x.0.items, x.1.now)) result (list_at T.old_reader count bytes.now) }
    ensures len { IfOk result (λ x. length x.0.items ≡ count) }
{
    let mut things = Vec::new(alloc);
    let mut rest = bytes;
    for _ in 0..count {
        let (thing, after) = T::read_old(alloc, rest)?;
        things.push(thing)?;
        rest = after;
    }
    Ok((things, rest))
}

// ---- values and places

impl Old for Value {
    ghost use Rattle.kt_ckpt.specs.OldLimits as limits;
    ghost use Rattle.kt_ckpt.specs.OldParts as parts;

    ghost old_reader = { parts.old_value_at };

    ghost holds = { limits.is_old_value };

    #[tactic(auto, unfolding(crate::specs::OldParts::old_value_at, crate::specs::OldParts::first_such))]
    fn read_old(_alloc: Global, bytes: &[u8]) -> Result<(Value, &[u8]), CkptError> {
        match bytes.first() {
            Some(code) if *code == BOOL => Err(CkptError::Field),
            _ => value_at(bytes),
        }
    }

    fn is_old(&self) -> bool {
        match self {
            Value::Int(_) | Value::Str(_) => true,
            Value::Bool(_) => false,
        }
    }
}

impl Old for Place {
    ghost use Rattle.kt_ckpt.specs.OldLimits as limits;
    ghost use Rattle.kt_ckpt.specs.OldParts as parts;

    ghost old_reader = { parts.old_place_at };

    ghost holds = { limits.is_old_place };

    #[tactic(auto, unfolding(crate::specs::OldParts::old_place_at, crate::specs::OldParts::first_such))]
    fn read_old(_alloc: Global, bytes: &[u8]) -> Result<(Place, &[u8]), CkptError> {
        match bytes.first() {
            Some(code) if *code == BOOL || *code == BOOL_FORMAL => Err(CkptError::Field),
            _ => place_at(bytes),
        }
    }

    fn is_old(&self) -> bool {
        match self {
            Place::Actual(value) => value.is_old(),
            Place::Formal(Kind::Int) | Place::Formal(Kind::Str) => true,
            Place::Formal(Kind::Bool) => false,
        }
    }
}

// ---- tuples and templates

/// How many places there are, from 1 to `OLD_PLACES`, and the bytes behind their count.
fn old_place_count_at(bytes: &[u8]) -> Result<(u8, &[u8]), CkptError>
    ensures value { Gives (λ x. (x.0, x.1.now)) result (byte_within 1 OLD_PLACES bytes.now) }
    ensures within { IfOk result (λ x. (1 ≤ x.0) × (x.0 ≤ OLD_PLACES)) }
{
    byte_within(1, OLD_PLACES, bytes)
}

/// A tuple, and the bytes behind it.
#[tactic(auto, unfolding(crate::specs::OldParts::old_tuple_at))]
fn old_tuple_at(alloc: Global, bytes: &[u8]) -> Result<(Tuple, &[u8]), CkptError>
    ensures { Gives (λ x. (x.0, x.1.now)) result (old_tuple_at bytes.now) }
{
    let (count, rest) = old_place_count_at(bytes)?;
    let (values, rest) = old_list_at(alloc, u32::from(count), rest)?;
    // Not refused here: by their count there are fewer values than a tuple may have.
    let tuple = Tuple::new(alloc, values)?.ok_or(CkptError::Field)?;
    Ok((tuple, rest))
}

/// A template, and the bytes behind it.
#[tactic(auto, unfolding(crate::specs::OldParts::old_template_at))]
fn old_template_at(alloc: Global, bytes: &[u8]) -> Result<(Template, &[u8]), CkptError>
    ensures { Gives (λ x. (x.0, x.1.now)) result (old_template_at bytes.now) }
{
    let (count, rest) = old_place_count_at(bytes)?;
    let (places, rest) = old_list_at(alloc, u32::from(count), rest)?;
    // Not refused here: by their count there are fewer places than a template may have.
    let template = Template::new(alloc, places)?.ok_or(CkptError::Field)?;
    Ok((template, rest))
}

fn is_old_tuple(tuple: &Tuple) -> bool
    ensures { result ≡ is_old_tuple tuple.now }
{
    let values = tuple.values();
    values.len() <= usize::from(OLD_PLACES) && are_old(values)
}

fn is_old_template(template: &Template) -> bool
    ensures { result ≡ is_old_template template.now }
{
    let places = template.places();
    places.len() <= usize::from(OLD_PLACES) && are_old(places)
}

impl Old for Tuple {
    ghost use Rattle.kt_ckpt.specs.OldLimits as limits;
    ghost use Rattle.kt_ckpt.specs.OldParts as parts;

    ghost old_reader = { parts.old_tuple_at };

    ghost holds = { limits.is_old_tuple };

    fn read_old(alloc: Global, bytes: &[u8]) -> Result<(Tuple, &[u8]), CkptError> {
        old_tuple_at(alloc, bytes)
    }

    fn is_old(&self) -> bool {
        is_old_tuple(self)
    }
}

// ---- operations and answers

/// An operation, and the bytes behind it.
#[tactic(auto, unfolding(crate::specs::OldParts::old_op_at))]
pub(crate) fn old_op_at(alloc: Global, bytes: &[u8]) -> Result<(Op, &[u8]), CkptError>
    ensures { Gives (λ x. (x.0, x.1.now)) result (old_op_at bytes.now) }
{
    let (code, rest) = byte_at(bytes)?;
    old_op_behind(alloc, code, rest)
}

/// An operation behind its code.
#[tactic(auto, unfolding(crate::specs::OldParts::old_op_behind))]
fn old_op_behind(alloc: Global, code: u8, bytes: &[u8]) -> Result<(Op, &[u8]), CkptError>
    ensures { Gives (λ x. (x.0, x.1.now)) result (old_op_behind code bytes.now) }
{
    if code == OUT {
        let (tuple, rest) = old_tuple_at(alloc, bytes)?;
        return Ok((Op::Out(tuple), rest));
    }
    // A bad code is told before what stands behind it: the first fault is that further left.
    if code < IN || RDP < code {
        return Err(CkptError::Field);
    }
    let (template, rest) = old_template_at(alloc, bytes)?;
    let op = match code {
        IN => Op::In(template),
        RD => Op::Rd(template),
        INP => Op::Inp(template),
        _ => Op::Rdp(template),
    };
    Ok((op, rest))
}

/// Whether format 1 can hold the operation.
pub(crate) fn is_old_op(op: &Op) -> bool
    ensures { result ≡ is_old_op op.now }
{
    match op {
        Op::Out(tuple) => is_old_tuple(tuple),
        Op::In(template) | Op::Rd(template) | Op::Inp(template) | Op::Rdp(template) => {
            is_old_template(template)
        }
    }
}

/// An answer, and the bytes behind it.
#[tactic(auto, unfolding(crate::specs::OldParts::old_answer_at))]
pub(crate) fn old_answer_at(alloc: Global, bytes: &[u8]) -> Result<(Answer, &[u8]), CkptError>
    ensures { Gives (λ x. (x.0, x.1.now)) result (old_answer_at bytes.now) }
{
    let (code, rest) = byte_at(bytes)?;
    old_answer_behind(alloc, code, rest)
}

/// An answer behind its code.
#[tactic(auto, unfolding(crate::specs::OldParts::old_answer_behind))]
fn old_answer_behind(alloc: Global, code: u8, bytes: &[u8]) -> Result<(Answer, &[u8]), CkptError>
    ensures { Gives (λ x. (x.0, x.1.now)) result (old_answer_behind code bytes.now) }
{
    match code {
        DONE => Ok((Answer::Done, bytes)),
        GOT => {
            let (tuple, rest) = old_tuple_at(alloc, bytes)?;
            Ok((Answer::Got(tuple), rest))
        }
        NONE => Ok((Answer::None, bytes)),
        _ => Err(CkptError::Field),
    }
}

/// Whether format 1 can hold the answer.
pub(crate) fn is_old_answer(answer: &Answer) -> bool
    ensures { result ≡ is_old_answer answer.now }
{
    match answer {
        Answer::Got(tuple) => is_old_tuple(tuple),
        Answer::Done | Answer::None => true,
    }
}
