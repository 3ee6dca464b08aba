//! A step that was refused: its line, and the reason in words.
//! Cited by other crates.

use crate::reasons::push_reason;
use crate::sentence::{Part, push_sentence};
use kt_core::{Step, StepError, World};
use kt_store::CkptStore;
use kt_text::line_at;
use std::alloc::{AllocError, Global};

/// The line of the step of this number among the steps of a scenario's text, both counted from 1; `None` where there is
/// none. Lines that begin with `#` are counted as lines, and are no steps.
fn line_of_step(text: &[u8], at: usize) -> Option<(usize, &[u8])> {
    let mut rest = text;
    // How many steps came before; none yet before the line `steps`.
    let mut steps: Option<usize> = None;
    // A text has no more lines than bytes.
    for place in 0..text.len() {
        let (line, behind) = line_at(rest)?;
        rest = behind;
        let is_remark = line.first() == Some(&b'#');
        match steps {
            None => {
                if line == b"steps".as_slice() {
                    steps = Some(0);
                }
            }
            Some(count) if !is_remark => {
                let count = count.saturating_add(1);
                if count == at {
                    return Some((place + 1, line));
                }
                steps = Some(count);
            }
            Some(_) => {}
        }
    }
    None
}

/// Why the step of this number, counted from 1, was refused by the world: its line in the text, and then the reason
/// in words and what to write, on one line or two; each line begins with two spaces. Nothing where memory was wanting,
/// which has no other reason, or where the text has no such step.
pub fn explain_step<S: CkptStore>(
    alloc: Global,
    text: &[u8],
    world: &World<S>,
    steps: &[Step],
    at: usize,
    cause: StepError,
) -> Result<Vec<u8>, AllocError> {
    let mut out = Vec::new(alloc);
    let (made, from_step) = steps.split_at(at.saturating_sub(1).min(steps.len()));
    if cause != StepError::OutOfMemory {
        if let (Some(step), Some(numbered)) = (from_step.first(), line_of_step(text, at)) {
            push_refused(&mut out, world, made, *step, numbered, cause)?;
        }
    }
    Ok(out)
}

/// Puts the line of the refused step behind its number, and the reason. These steps were made before.
fn push_refused<S: CkptStore>(
    out: &mut Vec<u8>,
    world: &World<S>,
    made: &[Step],
    step: Step,
    numbered: (usize, &[u8]),
    cause: StepError,
) -> Result<(), AllocError> {
    let (number, line) = numbered;
    let line = str::from_utf8(line).unwrap_or("");
    push_sentence(
        out,
        "  line {}: {}\n  ",
        &[Part::Number(number as u64), Part::Words(line)],
    )?;
    push_reason(out, world, made, step, cause)?;
    out.extend_from_slice(b"\n")
}
