//! How a text ends.
//! Cited by explain.rt.

use crate::case::Case;
use crate::finding::{Finding, from_first};
use crate::header::of_other_text;
use crate::part::Part;
use crate::reason::{Missing, Reason};
use kt_text::WorkKind;

/// Of an empty text.
const NOTHING: Reason = Reason::Said(
    "the input is empty: give a file that holds a scenario, whose first line is `linda-kt 1`",
);

/// What is wrong with the end of the text.
pub(crate) fn finding_at_end<'a>(case: &Case<'a>) -> Finding<'a> {
    if case.is_end_of_text() {
        return Finding::new(case.line, missing(case));
    }
    if case.part == Part::Ended {
        return Finding::new(case.line, reason_behind_end(case.line));
    }
    if case.part == Part::Title {
        if let Some(finding) = of_other_text(case.line, case.kind) {
            return finding;
        }
    }
    if let Some(rest) = from_first(case.line, |c| *c == b'\r') {
        return Finding::said(
            rest,
            "the lines end with CR, shown as `\\r`: save the text with Unix line ends, LF alone",
        );
    }
    let (_, end) = case.line.split_at(case.line.len());
    Finding::said(end, text_of_no_line_feed(case.line))
}

fn text_of_no_line_feed(line: &[u8]) -> &'static str {
    if line == b"end".as_slice() {
        "no line feed ends the last line: press Enter at its end"
    } else {
        "no line feed ends this line: press Enter at its end, and go on with the scenario down to `end`"
    }
}

/// What is missing where the text ends too early.
fn missing(case: &Case<'_>) -> Reason {
    let is_run = case.kind == WorkKind::Faults;
    let (line, then) = match case.part {
        Part::Title if case.text.is_empty() => return NOTHING,
        Part::Title => ("linda-kt 1", "below the remarks, and the scenario below it"),
        Part::Shards if is_run => (
            "shards 1",
            "then `worker`, its commands, `faults` and `end`",
        ),
        Part::Shards => ("shards 1", "then `worker`, its commands, `steps` and `end`"),
        Part::Workers if is_run => ("worker", "then its commands, `faults` and `end`"),
        Part::Workers => ("worker", "then its commands, `steps` and `end`"),
        Part::Scripts if is_run => ("faults", "then fault lines or none, and `end`"),
        Part::Scripts => ("steps", "then steps or none, and `end`"),
        Part::Steps | Part::Faults | Part::Ended => ("end", "the last one"),
    };
    Reason::Missing(Missing { line, then })
}

fn reason_behind_end(line: &[u8]) -> Reason {
    if line.is_empty() {
        Reason::OfLine("is empty and stands below `end`, the last line: take it away")
    } else if line == b"linda-kt 1".as_slice() {
        Reason::Said(
            "a second scenario begins here: put it into a text of its own, `end` is the last line",
        )
    } else {
        Reason::Said(
            "`end` is the last line: take this one away and all below it, or move them above `end`",
        )
    }
}
