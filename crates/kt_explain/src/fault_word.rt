//! Lines that no rule allows among fault lines.
//! Cited by explain.rt, limit.rt.

use crate::case::Case;
use crate::finding::{Finding, past_blank, word_in_front};
use crate::near::nearest;
use crate::node::{behind_node, behind_word, number_alone};
use crate::reason::{ALONE, Limit, Reason};
use crate::step_word::text_of_script;
use crate::words::{FAULT_WORDS, STEP_WORDS, is_among};
use std::alloc::{AllocError, Global};

const FORM: Reason = Reason::Said(
    "the form is `fail s1 after 3` or `check s1 after 3`: 3 says how many steps of its own the node makes first",
);

const NO_FAULT: &str =
    "no fault line begins so: write one as `fail w1 after 3` or `check w1 after 3`, or `end` as the last line";

const STEP: &str =
    "steps are for `linda_kt replay`, below `steps` in place of `faults`; here write `fail w1 after 3` or the like";

/// What is wrong with a line behind `faults`.
pub(crate) fn finding_in_fault<'a>(
    alloc: Global,
    case: &Case<'a>,
) -> Result<Finding<'a>, AllocError> {
    let (word, rest) = word_in_front(case.line);
    if word == b"end".as_slice() {
        return Ok(Finding::new(past_blank(rest), ALONE));
    }
    if is_among(word, FAULT_WORDS) {
        return Ok(match judge(rest) {
            Ok(()) => Finding::new(case.line, FORM),
            Err(finding) => finding.in_scene(&case.above),
        });
    }
    if is_among(word, STEP_WORDS) {
        return Ok(Finding::said(case.line, STEP));
    }
    if let Some(text) = text_of_script(case, word) {
        return Ok(Finding::said(case.line, text));
    }
    match nearest(alloc, word, FAULT_WORDS)? {
        Some(meant) => Ok(Finding::new(case.line, Reason::Meant(meant))),
        None => Ok(Finding::said(case.line, NO_FAULT)),
    }
}

fn judge(text: &[u8]) -> Result<(), Finding<'_>> {
    let number = number_of(text)?;
    number_alone(number, Reason::Limit(Limit::After))?;
    Ok(())
}

/// What stands in the place of N in ` NODE after N`.
pub(crate) fn number_of(text: &[u8]) -> Result<&[u8], Finding<'_>> {
    let node = behind_word(text, b" ", FORM)?;
    let rest = behind_node(node)?;
    behind_word(rest, b" after ", FORM)
}
