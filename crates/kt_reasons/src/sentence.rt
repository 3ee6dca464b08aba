//! Sentences with what stands in them: names of nodes, numbers, and steps that are to be written.
//! Cited by faults.rt, missing.rt, modes.rt, reasons.rt, refused.rt, request.rt, voting.rt.

use kt_core::Step;
use kt_text::push_step;
use kt_tuple::NodeId;
use kt_tuple::writing::push_number;
use std::alloc::AllocError;

/// The word of a step in a scenario.
pub(crate) fn word_of(step: Step) -> &'static str {
    match step {
        Step::Issue { .. } => "issue",
        Step::Repeat { .. } => "repeat",
        Step::Deliver { .. } => "deliver",
        Step::Take { .. } => "take",
        Step::Serve { .. } => "serve",
        Step::Check { .. } => "check",
        Step::Decide { .. } => "decide",
        Step::Abandon { .. } => "abandon",
        Step::Learn { .. } => "learn",
        Step::Fail { .. } => "fail",
        Step::Restart { .. } => "restart",
    }
}

/// A step that is to be written so many times, one line after the other: `` `deliver w1 s1` ``, or
/// `` `deliver w1 s1` 2 times ``.
#[derive(Clone, Copy)]
pub(crate) struct Due {
    pub(crate) step: Step,
    pub(crate) times: usize,
}

impl Due {
    /// The step once.
    pub(crate) fn once(step: Step) -> Due {
        Due { step, times: 1 }
    }

    /// So many arrivals from one node at another.
    pub(crate) fn deliveries(from: NodeId, to: NodeId, times: usize) -> Due {
        let step = Step::Deliver { from, to };
        Due { step, times }
    }
}

/// What stands in a sentence where its text has `{}`.
#[derive(Clone, Copy)]
pub(crate) enum Part<'a> {
    /// A node by its name in a scenario: `w1`, `s2`.
    Node(NodeId),
    Number(u64),
    Words(&'a str),
    Due(Due),
    /// Those of these steps that are there, as `` `a`, `b` and `c` ``.
    Steps(&'a [Option<Due>]),
}

/// Puts a sentence behind what is there: the text, with these parts in order where it has `{}`; further parts are left
/// out. A `write!` is a call for each part in the body where it stands, and each of them costs a proof.
pub(crate) fn push_sentence(
    out: &mut Vec<u8>,
    text: &str,
    parts: &[Part<'_>],
) -> Result<(), AllocError> {
    let mut rest = text;
    for part in parts {
        rest = push_to_part(out, rest, *part)?;
    }
    out.extend_from_slice(rest.as_bytes())
}

/// Puts the text up to its first `{}` and this part, and gives the text behind.
fn push_to_part<'a>(
    out: &mut Vec<u8>,
    text: &'a str,
    part: Part<'_>,
) -> Result<&'a str, AllocError> {
    let Some((before, behind)) = text.split_once("{}") else {
        return Ok(text);
    };
    out.extend_from_slice(before.as_bytes())?;
    push_part(out, part)?;
    Ok(behind)
}

fn push_part(out: &mut Vec<u8>, part: Part<'_>) -> Result<(), AllocError> {
    match part {
        Part::Node(node) => node.write_to(out),
        Part::Number(number) => push_number(out, number),
        Part::Words(words) => out.extend_from_slice(words.as_bytes()),
        Part::Due(due) => push_due(out, due),
        Part::Steps(steps) => push_steps(out, steps),
    }
}

fn push_due(out: &mut Vec<u8>, due: Due) -> Result<(), AllocError> {
    out.extend_from_slice(b"`")?;
    push_step(out, due.step)?;
    if due.times > 1 {
        push_times(out, due.times as u64)
    } else {
        out.extend_from_slice(b"`")
    }
}

/// Ends a step that is to be written more than once.
fn push_times(out: &mut Vec<u8>, times: u64) -> Result<(), AllocError> {
    out.extend_from_slice(b"` ")?;
    push_number(out, times)?;
    out.extend_from_slice(b" times")
}

fn push_steps(out: &mut Vec<u8>, steps: &[Option<Due>]) -> Result<(), AllocError> {
    let mut left = 0usize;
    for step in steps {
        left = left.saturating_add(usize::from(step.is_some()));
    }
    for step in steps {
        if let Some(due) = step {
            left = left.saturating_sub(1);
            push_with_left(out, *due, left)?;
        }
    }
    Ok(())
}

/// Puts the step, and what stands between it and the next of so many that are left.
fn push_with_left(out: &mut Vec<u8>, due: Due, left: usize) -> Result<(), AllocError> {
    push_due(out, due)?;
    match left {
        0 => Ok(()),
        1 => out.extend_from_slice(b" and "),
        _ => out.extend_from_slice(b", "),
    }
}
