//! Which fault lines struck, in words.
//! Cited by ending.rt.

use crate::names::{Part, push_parts, push_rest, told};
use crate::strikes::{FaultEnd, struck};
use kt_core::{FaultKind, Faults, Step};
use kt_text::line_at;
use std::alloc::{AllocError, Global};

/// Puts a line for each fault line, the first ones alone where there are many.
pub(crate) fn push_faults(
    alloc: Global,
    out: &mut Vec<u8>,
    text: &[u8],
    faults: &Faults,
    steps: &[Step],
) -> Result<(), AllocError> {
    let found = struck(alloc, faults, steps)?;
    let pushed = push_ends(out, text, &found);
    drop(found);
    pushed
}

/// Those lines, of what came of the fault lines.
fn push_ends(out: &mut Vec<u8>, text: &[u8], found: &[FaultEnd]) -> Result<(), AllocError> {
    for (place, struck) in told(found).iter().enumerate() {
        push_fault(out, line_of_fault(text, place), *struck)?;
    }
    push_rest(out, found.len())
}

/// The line, and by which step it struck.
fn push_fault(out: &mut Vec<u8>, line: usize, struck: FaultEnd) -> Result<(), AllocError> {
    let FaultEnd { fault, by } = struck;
    let word: &[u8] = match fault.kind {
        FaultKind::Fail => b": fail ",
        FaultKind::Check => b": check ",
    };
    push_parts(
        out,
        &[
            Part::Text(b"  line "),
            Part::Number(line as u64),
            Part::Text(word),
            Part::Name(fault.node),
            Part::Text(b" after "),
            Part::Number(fault.after),
        ],
    )?;
    push_by(out, by)
}

/// The step that a fault line struck by, to the end of the line.
fn push_by(out: &mut Vec<u8>, by: Option<u64>) -> Result<(), AllocError> {
    match by {
        None => out.extend_from_slice(b": never came due\n"),
        Some(number) => push_parts(
            out,
            &[
                Part::Text(b": struck by step "),
                Part::Number(number),
                Part::Text(b"\n"),
            ],
        ),
    }
}

/// The number, counted from 1, of the line of the text that has so many fault lines before it; 0 where there is none.
/// Lines that begin with `#` are counted as lines, and are no fault lines.
fn line_of_fault(text: &[u8], place: usize) -> usize {
    let mut rest = text;
    // How many fault lines are to come before it; not known yet before the line `faults`.
    let mut ahead: Option<usize> = None;
    // A text has no more lines than bytes.
    for at in 0..text.len() {
        let Some((line, behind)) = line_at(rest) else {
            return 0;
        };
        rest = behind;
        let is_remark = line.first() == Some(&b'#');
        match ahead {
            None => {
                if line == b"faults".as_slice() {
                    ahead = Some(place);
                }
            }
            Some(0) if !is_remark => return at + 1,
            Some(count) if !is_remark => ahead = Some(count.saturating_sub(1)),
            Some(_) => {}
        }
    }
    0
}
