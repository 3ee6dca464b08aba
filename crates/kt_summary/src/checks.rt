//! How each check and each rollback ended, in words.
//! Cited by ending.rt.

use crate::names::{MAX_TOLD, Part, push_parts, push_rest};
use kt_core::Step;
use kt_store::{InstanceRow, Verdict};
use kt_tuple::NodeId;
use std::alloc::AllocError;

/// What begins an instance: a check or a rollback, and of which node; `None` where the step begins none.
fn begun_by(step: Step) -> Option<(&'static [u8], NodeId)> {
    match step {
        Step::Check { node } => Some((b"  the check that ", node)),
        Step::Restart { node } => Some((b"  the rollback that ", node)),
        _ => None,
    }
}

/// How many of the steps begin a check or a rollback.
pub(crate) fn begun_count(steps: &[Step]) -> usize {
    let mut count = 0usize;
    for step in steps {
        if begun_by(*step).is_some() {
            count = count.saturating_add(1);
        }
    }
    count
}

/// Puts a line for each check and each rollback, the first ones alone where there are many. The board has a row for
/// each, in the order in which they were begun.
pub(crate) fn push_checks(
    out: &mut Vec<u8>,
    steps: &[Step],
    board: &[InstanceRow],
) -> Result<(), AllocError> {
    let mut told = 0usize;
    for (place, step) in steps.iter().enumerate() {
        if told == MAX_TOLD {
            break;
        }
        if let (Some((words, node)), Some(row)) = (begun_by(*step), board.get(told)) {
            push_check(
                out,
                words,
                node,
                place.saturating_add(1) as u64,
                row.verdict,
            )?;
            told = told.saturating_add(1);
        }
    }
    push_rest(out, begun_count(steps))
}

/// A line that begins with these words, on what the node began by the step of this number.
fn push_check(
    out: &mut Vec<u8>,
    words: &[u8],
    node: NodeId,
    number: u64,
    verdict: Verdict,
) -> Result<(), AllocError> {
    let end: &[u8] = match verdict {
        Verdict::Open => b") is open\n",
        Verdict::Yes => b") got Yes\n",
        Verdict::No => b") got No\n",
    };
    push_parts(
        out,
        &[
            Part::Text(words),
            Part::Name(node),
            Part::Text(b" began (step "),
            Part::Number(number),
            Part::Text(end),
        ],
    )
}
