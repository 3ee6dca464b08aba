//! The first two lines.
//! Cited by ending.rt, explain.rt.

use crate::case::Case;
use crate::finding::{Finding, past_blank, word_in_front};
use crate::near::nearest;
use crate::part::Part;
use crate::reason::{Limit, Reason};
use crate::spacing::finding_of_spaces;
use kt_text::WorkKind;
use kt_tuple::reading::word_at;
use std::alloc::{AllocError, Global};

const DATABASE: &str =
    "a database: give the scenario instead, or to go on from it type `linda_kt resume --store DATABASE SCENARIO`";

const DATABASE_OF_RUN: &str =
    "a database: give the scenario instead, or to go on from it type `linda_kt run --resume --store DATABASE SCENARIO`";

/// What is wrong with the title or with the line of the shards.
pub(crate) fn finding_in_head<'a>(
    alloc: Global,
    case: &Case<'a>,
) -> Result<Option<Finding<'a>>, AllocError> {
    match case.part {
        Part::Title => Ok(Some(in_title(alloc, case)?)),
        Part::Shards => Ok(Some(in_shards(alloc, case.line)?)),
        _ => Ok(None),
    }
}

fn in_title<'a>(alloc: Global, case: &Case<'a>) -> Result<Finding<'a>, AllocError> {
    let line = case.line;
    if let Some(finding) = of_other_text(line, case.kind).or(finding_of_spaces(line)) {
        return Ok(finding);
    }
    if let Ok(version) = word_at(line, b"linda-kt ") {
        return Ok(Finding::said(version, "this program reads version 1: write `linda-kt 1`"));
    }
    let (word, _) = word_in_front(line);
    if nearest(alloc, word, &["linda-kt"])?.is_some() {
        return Ok(Finding::new(line, Reason::Meant("linda-kt 1")));
    }
    Ok(Finding::said(
        line,
        "a scenario begins with the line `linda-kt 1`: write it above this line",
    ))
}

/// A text of another kind, told by its first bytes.
pub(crate) fn of_other_text(line: &[u8], kind: WorkKind) -> Option<Finding<'_>> {
    let text = if line.starts_with(b"SQLite format 3") {
        text_of_database(kind)
    } else if line.starts_with(b"\xef\xbb\xbf") {
        "a byte order mark, shown as `\\xef\\xbb\\xbf`, stands in front: save the text as ASCII, without the mark"
    } else if line.starts_with(b"\xff\xfe")
        || line.starts_with(b"\xfe\xff")
        || is_second_zero(line)
    {
        "the text is in UTF-16: save it as ASCII"
    } else if line.starts_with(b"survivors ") {
        "this is a report, which a command wrote: give the scenario instead, with its first line `linda-kt 1`"
    } else {
        return None;
    };
    Some(Finding::said(line, text))
}

/// What to do with a database, which may be a store.
fn text_of_database(kind: WorkKind) -> &'static str {
    match kind {
        WorkKind::Steps => DATABASE,
        WorkKind::Faults => DATABASE_OF_RUN,
    }
}

/// Whether a zero stands behind the first byte, as in a text in UTF-16 that has no mark.
fn is_second_zero(line: &[u8]) -> bool {
    line.get(1) == Some(&0)
}

fn in_shards(alloc: Global, line: &[u8]) -> Result<Finding<'_>, AllocError> {
    if let Some(finding) = finding_of_spaces(line) {
        return Ok(finding);
    }
    let (word, rest) = word_in_front(line);
    if word == b"shards".as_slice() {
        return Ok(Finding::new(past_blank(rest), Reason::Limit(Limit::Shards)));
    }
    match nearest(alloc, word, &["shards"])? {
        Some(_) => Ok(Finding::new(line, Reason::Meant("shards"))),
        None => Ok(Finding::new(line, Reason::Limit(Limit::ShardsLine))),
    }
}
