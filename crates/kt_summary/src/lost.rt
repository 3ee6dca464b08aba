//! Which services were lost, and by what, in words.
//! Cited by ending.rt.

use crate::names::{Part, push_parts, push_rest, told};
use kt_core::Step;
use kt_history::{Act, History, Note};
use kt_losses::{Loss, losses};
use kt_tuple::NodeId;
use std::alloc::{AllocError, Global};

/// Puts a line for each lost service, the first ones alone where there are many. `makers` has for each note the number
/// of the step that made it, where that is known.
pub(crate) fn push_losses(
    alloc: Global,
    out: &mut Vec<u8>,
    history: &History,
    steps: &[Step],
    makers: &[u64],
) -> Result<(), AllocError> {
    let lost = losses(alloc, history)?;
    let pushed = push_all(out, history, steps, makers, &lost);
    drop(lost);
    pushed
}

/// Those lines, of these losses.
fn push_all(
    out: &mut Vec<u8>,
    history: &History,
    steps: &[Step],
    makers: &[u64],
    lost: &[Loss],
) -> Result<(), AllocError> {
    push_lost_count(out, lost.len())?;
    for loss in told(lost) {
        if let Some(act) = history.act(loss.service) {
            push_loss(out, history.notes(), steps, makers, act, loss.cut)?;
        }
    }
    push_rest(out, lost.len())
}

/// How many services were lost.
fn push_lost_count(out: &mut Vec<u8>, count: usize) -> Result<(), AllocError> {
    match count {
        0 => out.extend_from_slice(b"  no service was lost\n"),
        1 => out.extend_from_slice(b"  1 service was lost:\n"),
        count => push_parts(
            out,
            &[
                Part::Text(b"  "),
                Part::Number(count as u64),
                Part::Text(b" services were lost:\n"),
            ],
        ),
    }
}

/// The line of the service of this act, which this cut lost.
fn push_loss(
    out: &mut Vec<u8>,
    notes: &[Note],
    steps: &[Step],
    makers: &[u64],
    act: &Act,
    cut: u64,
) -> Result<(), AllocError> {
    push_service(out, act)?;
    push_cut(out, notes, steps, makers, cut)
}

/// The request that was served, and where.
fn push_service(out: &mut Vec<u8>, act: &Act) -> Result<(), AllocError> {
    push_parts(
        out,
        &[
            Part::Text(b"  "),
            Part::Name(NodeId::Worker(act.worker)),
            Part::Text(b"'s request "),
            Part::Number(act.number),
            Part::Text(b", "),
            Part::Op(&act.op),
            Part::Text(b" at "),
            Part::Name(act.node),
        ],
    )
}

/// Which node gave up what it remembered, by a failure or by a rollback, and by which step.
fn push_cut(
    out: &mut Vec<u8>,
    notes: &[Note],
    steps: &[Step],
    makers: &[u64],
    cut: u64,
) -> Result<(), AllocError> {
    let place = (cut as usize).saturating_sub(1);
    match notes.get(place) {
        Some(note) => push_cut_of(out, note.node(), steps, makers.get(place)),
        None => out.extend_from_slice(b"\n"),
    }
}

/// The same, of this node and the step of this number, where that is known.
fn push_cut_of(
    out: &mut Vec<u8>,
    node: NodeId,
    steps: &[Step],
    number: Option<&u64>,
) -> Result<(), AllocError> {
    let before = Part::Text(b": lost when ");
    let name = Part::Name(node);
    let Some(number) = number else {
        return push_parts(
            out,
            &[before, name, Part::Text(b" failed or rolled back\n")],
        );
    };
    let how: &[u8] = match steps.get((*number as usize).saturating_sub(1)) {
        Some(Step::Fail { .. }) => b" failed (step ",
        _ => b" rolled back (step ",
    };
    push_parts(
        out,
        &[
            before,
            name,
            Part::Text(how),
            Part::Number(*number),
            Part::Text(b")\n"),
        ],
    )
}

/// For each note the number of the step that made it, of steps that made just this history; else nothing.
pub(crate) fn makers_of<'a>(notes: &[Note], makers: &'a [u64]) -> &'a [u64] {
    if makers.len() == notes.len() {
        makers
    } else {
        &[]
    }
}
