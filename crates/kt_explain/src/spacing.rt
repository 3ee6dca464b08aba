//! Mistakes that any line may have: how it ends, its spaces, and remarks.
//! Cited by explain.rt, header.rt, tuple.rt.

use crate::finding::{Finding, from_first};
use crate::reason::{REMARK_BEHIND, Reason};

const CARRIAGE_RETURN: &str =
    "the line ends with CR LF, the CR is shown as `\\r`: save the text with Unix line ends, LF alone";

const EMPTY: Reason = Reason::OfLine("is empty: take it away, or write `#` on it");

const BLANK: Reason = Reason::OfLine(
    "has spaces or tabs alone: take it away, or write `#` as its first byte",
);

/// A carriage return at the end of the line.
pub(crate) fn carriage_return(line: &[u8]) -> Option<Finding<'_>> {
    match line.split_last() {
        Some((b'\r', before)) => Some(Finding::said(line.get(before.len()..)?, CARRIAGE_RETURN)),
        _ => None,
    }
}

/// What is wrong with the line's spaces, or a remark that stands wrong.
pub(crate) fn finding_of_spaces(line: &[u8]) -> Option<Finding<'_>> {
    let Some(first) = line.first() else {
        return Some(Finding::new(line, EMPTY));
    };
    if is_blank(first) {
        return Some(indented(line));
    }
    let foreign = from_first(line, |c| *c < 32 || *c > 126);
    if let Some(rest) = foreign {
        return Some(Finding::new(rest, Reason::of_foreign(rest)));
    }
    if line.contains(&b'"') {
        // Spaces and `#` may stand in a str.
        return None;
    }
    if let Some(rest) = from_first(line, |c| *c == b'#') {
        return Some(Finding::new(rest, REMARK_BEHIND));
    }
    blanks_at_end(line).or(two_blanks(line))
}

/// A line that begins with a space or a tab.
fn indented(line: &[u8]) -> Finding<'_> {
    match from_first(line, |c| !is_blank(c)) {
        None => Finding::new(line, BLANK),
        Some([b'#', ..]) => Finding::said(
            line,
            "a remark's line begins with `#`: take away the spaces or tabs before it",
        ),
        Some(_) => Finding::said(
            line,
            "a line begins with its first word: take away the spaces or tabs before it",
        ),
    }
}

/// Spaces at the end of the line.
pub(crate) fn blanks_at_end(line: &[u8]) -> Option<Finding<'_>> {
    let length = match line.iter().rposition(|c| !is_blank(c)) {
        Some(last) => last.saturating_add(1),
        None => 0,
    };
    let rest = line.get(length..)?;
    if rest.is_empty() {
        return None;
    }
    Some(Finding::said(rest, "a space at the end of the line: take it away"))
}

/// Two spaces where one is wanted.
fn two_blanks(line: &[u8]) -> Option<Finding<'_>> {
    let at = line.windows(2).position(|pair| pair == b"  ".as_slice())?;
    Some(Finding::said(
        line.get(at.saturating_add(1)..)?,
        "one space is enough between two words: take this one away",
    ))
}

fn is_blank(c: &u8) -> bool {
    *c == b' ' || *c == b'\t'
}
