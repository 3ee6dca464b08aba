//! Lines that no rule allows among steps.
//! Cited by explain.rt, fault_word.rt.

use crate::case::Case;
use crate::finding::{Finding, past_blank, word_in_front};
use crate::near::nearest;
use crate::node::{behind_node, behind_word, number_alone};
use crate::reason::{ALONE, Limit, Reason};
use crate::words::{STEP_WORDS, is_among, listed, script_words};
use kt_scenario::MAX_STEPS;
use kt_text::WorkKind;
use kt_tuple::reading::word_at;
use std::alloc::{AllocError, Global};

const DELIVER_FORM: Reason = Reason::Said(
    "the form is `deliver SENDER RECEIVER`, one a worker and one a shard, as in `deliver w1 s1`",
);

const SERVE_FORM: Reason = Reason::Said(
    "the form is `serve SHARD WORKER PLACE`, as in `serve s1 w1 0`: 0 picks the oldest tuple that matches",
);

/// Of a line that begins with no word of a step.
const NO_STEP: Reason = Reason::Unknown(
    "no step begins so. Asking: `issue w1`, `deliver w1 s1`, `serve s1 w1 0`, `deliver s1 w1`, once more `repeat w1`.",
    "Saving: `check w1`, `decide w1`, `learn w1`; `abandon w1`. Failing: `fail w1`, `restart w1`. Or `take w1`, `end`",
);

const AFTER: &str =
    "a step has the node alone, as `fail w1`: take this away; `after` is for the fault lines of `linda_kt run`";

const TWICE: &str = "this word stands on a line above already: take this line away";

const FAULTS_OF_RUN: &str =
    "fault lines are for `linda_kt run`, and this scenario has steps: take this line away, and fault lines below it";

const STEPS_OF_REPLAY: &str =
    "steps are for `linda_kt replay`, and this scenario has fault lines: take this line away, and steps below it";

const ABOVE_STEPS: &str =
    "workers and commands stand above the line `steps`: move this line up, below the `worker` that it belongs to";

const ABOVE_FAULTS: &str =
    "workers and commands stand above the line `faults`: move this line up, below the `worker` that it belongs to";

/// What is wrong with a line behind `steps`.
pub(crate) fn finding_in_step<'a>(
    alloc: Global,
    case: &Case<'a>,
) -> Result<Finding<'a>, AllocError> {
    let (word, rest) = word_in_front(case.line);
    if let Some(step) = listed(word, STEP_WORDS) {
        return Ok(match judge_step(step, rest) {
            Ok(()) => Finding::new(case.line, NO_STEP),
            Err(finding) => finding.in_scene(&case.above),
        });
    }
    if let Some(text) = text_of_script(case, word) {
        return Ok(Finding::said(case.line, text));
    }
    match nearest(alloc, word, STEP_WORDS)? {
        Some(meant) => Ok(Finding::new(case.line, Reason::Meant(meant))),
        None => Ok(Finding::new(case.line, NO_STEP)),
    }
}

/// What is said of a line that belongs above the work.
pub(crate) fn text_of_script(case: &Case<'_>, word: &[u8]) -> Option<&'static str> {
    let is_steps = case.kind == WorkKind::Steps;
    if word == b"steps".as_slice() {
        Some(if is_steps { TWICE } else { STEPS_OF_REPLAY })
    } else if word == b"faults".as_slice() {
        Some(if is_steps { FAULTS_OF_RUN } else { TWICE })
    } else if is_among(word, script_words(case.kind)) {
        Some(if is_steps { ABOVE_STEPS } else { ABOVE_FAULTS })
    } else {
        None
    }
}

/// Reads what stands behind the word of a step.
fn judge_step<'a>(step: &'static str, rest: &'a [u8]) -> Result<(), Finding<'a>> {
    if step == "end" {
        judge_end(rest, ALONE)
    } else if step == "deliver" {
        judge_deliver(rest)
    } else if step == "serve" {
        judge_serve(rest)
    } else {
        judge_one_node(rest, Reason::OneNode(step))
    }
}

fn judge_deliver(text: &[u8]) -> Result<(), Finding<'_>> {
    let sender = behind_word(text, b" ", DELIVER_FORM)?;
    let rest = behind_node(sender)?;
    let receiver = behind_word(rest, b" ", DELIVER_FORM)?;
    let rest = behind_node(receiver)?;
    judge_end(rest, DELIVER_FORM)
}

fn judge_serve(text: &[u8]) -> Result<(), Finding<'_>> {
    let shard = behind_word(text, b" ", SERVE_FORM)?;
    let rest = behind_node(shard)?;
    let worker = behind_word(rest, b" ", SERVE_FORM)?;
    let rest = behind_node(worker)?;
    let place = behind_word(rest, b" ", SERVE_FORM)?;
    let number = number_alone(place, SERVE_FORM)?;
    if number.unsigned_abs() >= MAX_STEPS {
        return Err(Finding::new(place, Reason::Limit(Limit::Match)));
    }
    Ok(())
}

fn judge_one_node(text: &[u8], form: Reason) -> Result<(), Finding<'_>> {
    let node = behind_word(text, b" ", form)?;
    let rest = behind_node(node)?;
    if word_at(rest, b" after").is_ok() {
        return Err(Finding::said(past_blank(rest), AFTER));
    }
    judge_end(rest, form)
}

fn judge_end(rest: &[u8], form: Reason) -> Result<(), Finding<'_>> {
    if rest.is_empty() {
        Ok(())
    } else {
        Err(Finding::new(past_blank(rest), form))
    }
}
