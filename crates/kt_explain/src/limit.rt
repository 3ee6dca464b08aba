//! Limits that are passed, and nodes that are not there.
//! Cited by explain.rt.

use crate::case::Case;
use crate::command_form::constant_of;
use crate::fault_word::number_of;
use crate::finding::{Finding, word_in_front};
use crate::part::Part;
use crate::reason::{Limit, Reason};
use kt_script::MAX_COMMANDS;
use kt_tuple::reading::{int_of, word_at};

const SKIPS_NONE: &str =
    "`unless N` skips the next N commands where the last answer was none: write 1 or \
                          more, or take this line away";

/// The limit that a line passes.
pub(crate) fn finding_of_limit<'a>(case: &Case<'a>) -> Option<Finding<'a>> {
    match case.part {
        Part::Shards => {
            let number = word_at(case.line, b"shards ").ok()?;
            Some(Finding::new(number, Reason::Limit(Limit::Shards)))
        }
        Part::Scripts => Some(in_script(case)),
        Part::Faults => {
            let (_, rest) = word_in_front(case.line);
            let number = number_of(rest).ok()?;
            Some(Finding::new(number, Reason::Limit(Limit::After)))
        }
        _ => None,
    }
}

/// The limit that a command passes, or one worker too many.
fn in_script<'a>(case: &Case<'a>) -> Finding<'a> {
    if case.line == b"worker".as_slice() {
        return Finding::new(case.line, Reason::Limit(Limit::Workers));
    }
    if let Some(finding) = in_number(case.line) {
        return finding;
    }
    if case.above.commands >= MAX_COMMANDS {
        return Finding::new(case.line, Reason::Limit(Limit::Commands));
    }
    Finding::new(case.line, Reason::Limit(Limit::Names))
}

/// The number of `unless` or of `set`, where it is out of its bounds.
fn in_number(line: &[u8]) -> Option<Finding<'_>> {
    if let Ok(number) = word_at(line, b"unless ") {
        return match int_of(number) {
            Some(0) => Some(Finding::said(number, SKIPS_NONE)),
            Some(count) if count.unsigned_abs() <= MAX_COMMANDS as u64 => None,
            _ => Some(Finding::new(number, Reason::Limit(Limit::ManySkips))),
        };
    }
    let number = constant_of(word_at(line, b"set").ok()?).ok()?;
    match int_of(number) {
        Some(_) => None,
        None => Some(Finding::new(number, Reason::Limit(Limit::Bits))),
    }
}

/// The node of a fault line, which the scenario has not.
pub(crate) fn finding_of_node<'a>(case: &Case<'a>) -> Option<Finding<'a>> {
    if case.part != Part::Faults {
        return None;
    }
    let (_, rest) = word_in_front(case.line);
    let node = word_at(rest, b" ").ok()?;
    Some(Finding::new(node, case.above.no_node()))
}
