//! Lines that no rule allows among the workers and their commands.
//! Cited by explain.rt.

use crate::case::Case;
use crate::command_form::finding_in_command;
use crate::finding::{Finding, past_blank, word_in_front};
use crate::near::nearest;
use crate::reason::{ALONE, Reason};
use crate::words::{FAULT_WORDS, STEP_WORDS, command_meant, is_among, script_words};
use kt_text::WorkKind;
use std::alloc::{AllocError, Global};

/// Of a line that begins with no word of a script.
const COMMANDS: &str =
    "no command begins so. `out (\"a\", 1)` puts a tuple, `in (\"a\", ?int)` takes one, `rd (\"a\", ?int)` reads one;";

const OTHERS_BEFORE_STEPS: &str =
    "`inp` and `rdp` do so without waiting; `set x = x + 1`, `unless 1`; `worker` and `steps` begin the next part";

const OTHERS_BEFORE_FAULTS: &str =
    "`inp` and `rdp` do so without waiting; `set x = x + 1`, `unless 1`; `worker` and `faults` begin the next part";

/// Of Linda's word for beginning a process.
const EVAL: &str =
    "there is no `eval`: take this line away, and write one more worker below, a line `worker` and its commands";

const NO_WORKER: &str =
    "a scenario has at least one worker: write a line `worker` above this one, and its commands below `worker`";

const FAULTS_OF_RUN: &str =
    "`faults` is for `linda_kt run`: type `linda_kt run FILE`; for `replay` write `steps` here, and steps below";

const STEPS_OF_REPLAY: &str =
    "`steps` is for `linda_kt replay`: type `linda_kt replay FILE`; for `run` write `faults` here, and no steps";

const STEP_OF_REPLAY: &str =
    "a step is for `linda_kt replay`, below `steps`; for `run` write `faults` here, then lines as `fail w1 after 3`";

const JOURNAL: &str = "this is a journal, the steps that a run made: type `linda_kt replay FILE`";

const RESUMED_JOURNAL: &str =
    "a journal of a run that went on: type `linda_kt resume --store COPY FILE`, COPY its store from before the run";

/// What is wrong where the first worker is wanted.
pub(crate) fn finding_before_workers<'a>(
    alloc: Global,
    case: &Case<'a>,
) -> Result<Finding<'a>, AllocError> {
    let (word, rest) = word_in_front(case.line);
    if word == b"worker".as_slice() {
        return Ok(Finding::new(past_blank(rest), ALONE));
    }
    if is_among(word, &["steps", "faults", "end"]) {
        return Ok(Finding::said(case.line, NO_WORKER));
    }
    if is_among(word, script_words(case.kind)) {
        return Ok(Finding::said(
            case.line,
            "commands stand below a line `worker`: write that line above this one",
        ));
    }
    match nearest(alloc, word, &["worker"])? {
        Some(_) => Ok(Finding::new(case.line, Reason::Meant("worker"))),
        None => Ok(Finding::said(
            case.line,
            "a line `worker` is wanted in place of this one, and below it commands as `out (\"a\", 1)`",
        )),
    }
}

/// What is wrong in a script.
pub(crate) fn finding_in_script<'a>(
    alloc: Global,
    case: &Case<'a>,
) -> Result<Finding<'a>, AllocError> {
    let (word, rest) = word_in_front(case.line);
    if let Some(meant) = command_meant(word, rest) {
        return Ok(Finding::new(case.line, Reason::Meant(meant)));
    }
    if let Some(text) = text_of_work(case, word, rest) {
        return Ok(Finding::said(case.line, text));
    }
    if word == b"worker".as_slice() || word == b"steps".as_slice() || word == b"faults".as_slice() {
        return Ok(Finding::new(past_blank(rest), ALONE));
    }
    if word == b"eval".as_slice() {
        return Ok(Finding::said(case.line, EVAL));
    }
    let words = script_words(case.kind);
    if is_among(word, words) {
        return Ok(finding_in_command(word, rest));
    }
    match nearest(alloc, word, words)? {
        Some(meant) => Ok(Finding::new(case.line, Reason::Meant(meant))),
        None => Ok(Finding::new(case.line, no_command(case.kind))),
    }
}

fn no_command(kind: WorkKind) -> Reason {
    match kind {
        WorkKind::Steps => Reason::Unknown(COMMANDS, OTHERS_BEFORE_STEPS),
        WorkKind::Faults => Reason::Unknown(COMMANDS, OTHERS_BEFORE_FAULTS),
    }
}

/// What is said of a line that belongs to the work, or begins work of the other kind.
fn text_of_work(case: &Case<'_>, word: &[u8], rest: &[u8]) -> Option<&'static str> {
    if rest.is_empty() && word == b"steps".as_slice() && case.kind == WorkKind::Faults {
        return Some(text_of_steps(case.text));
    }
    if rest.is_empty() && word == b"faults".as_slice() && case.kind == WorkKind::Steps {
        return Some(FAULTS_OF_RUN);
    }
    let is_fault_word = is_among(word, FAULT_WORDS);
    match case.kind {
        WorkKind::Steps if word == b"end".as_slice() => {
            Some(
                "a line `steps` must stand above `end`, even with no step between: write it above this line",
            )
        }
        WorkKind::Faults if word == b"end".as_slice() => {
            Some(
                "a line `faults` must stand above `end`, even with no fault line between: write it above this line",
            )
        }
        WorkKind::Steps if is_among(word, STEP_WORDS) => {
            Some("a line `steps` must stand above the first step: write it above this line")
        }
        WorkKind::Faults if is_fault_word => {
            Some("a line `faults` must stand above the first fault line: write it above this line")
        }
        WorkKind::Faults if is_among(word, STEP_WORDS) => { Some(STEP_OF_REPLAY) }
        _ => None,
    }
}

/// What is said of steps that are given to a run: the scenario may be that of a journal.
fn text_of_steps(text: &[u8]) -> &'static str {
    if text.starts_with(b"# resumed after instance ") {
        RESUMED_JOURNAL
    } else if text.starts_with(b"# survivors ") {
        JOURNAL
    } else {
        STEPS_OF_REPLAY
    }
}
