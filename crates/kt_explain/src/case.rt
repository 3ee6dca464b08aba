//! A line that has a fault, with what stands above it.
//! Cited by ending.rt, explain.rt, fault_word.rt, finding.rt, header.rt, limit.rt, script_word.rt, step_word.rt,
//!   variable.rt.

use crate::part::{Part, part_of};
use crate::reason::Reason;
use kt_text::{WorkKind, line_at};
use kt_tuple::reading::{int_of, word_at};

/// A line that has a fault, and where it stands.
#[derive(Clone, Copy)]
pub(crate) struct Case<'a> {
    /// The kind of work that was wanted.
    pub(crate) kind: WorkKind,
    /// All of the text.
    pub(crate) text: &'a [u8],
    pub(crate) part: Part,
    pub(crate) above: Above<'a>,
    /// The number of the line, counted from 1.
    pub(crate) number: usize,
    /// The line without its line feed.
    pub(crate) line: &'a [u8],
    /// Whether a line feed ends the line.
    pub(crate) is_ended: bool,
}

/// What stands above a line. None of it has a fault.
#[derive(Clone, Copy)]
pub(crate) struct Above<'a> {
    /// The number behind `shards`; 0 above that line.
    pub(crate) shards: i64,
    pub(crate) workers: usize,
    /// How many commands the last worker has so far.
    pub(crate) commands: usize,
    /// The text behind the last line `worker`.
    pub(crate) script: &'a [u8],
    /// How many lines of that text stand above, ignored ones too.
    pub(crate) script_lines: usize,
}

impl<'a> Above<'a> {
    fn nothing(text: &'a [u8]) -> Above<'a> {
        Above {
            shards: 0,
            workers: 0,
            commands: 0,
            script: text,
            script_lines: 0,
        }
    }

    /// Why a node that these have not is not there.
    pub(crate) fn no_node(&self) -> Reason {
        Reason::NoNode {
            workers: self.workers,
            shards: self.shards,
        }
    }

    /// With one line more, behind which this text stands.
    fn with(self, line: &[u8], behind: &'a [u8]) -> Above<'a> {
        if line == b"worker".as_slice() {
            return Above {
                workers: self.workers.saturating_add(1),
                commands: 0,
                script: behind,
                script_lines: 0,
                ..self
            };
        }
        Above {
            shards: shards_of(line).unwrap_or(self.shards),
            commands: self
                .commands
                .saturating_add(usize::from(line.first() != Some(&b'#'))),
            script_lines: self.script_lines.saturating_add(1),
            ..self
        }
    }
}

/// The number of the line `shards N`.
fn shards_of(line: &[u8]) -> Option<i64> {
    match word_at(line, b"shards ") {
        Ok(digits) => int_of(digits),
        Err(_) => None,
    }
}

impl<'a> Case<'a> {
    /// The line of this number, counted from 1; `None` where the text has no such line, nor ends just above it.
    pub(crate) fn of(text: &'a [u8], kind: WorkKind, line: usize) -> Option<Case<'a>> {
        if line == 0 {
            return None;
        }
        let mut above = Above::nothing(text);
        let mut rest = text;
        for _ in 1..line {
            let (words, after) = line_at(rest)?;
            above = above.with(words, after);
            rest = after;
        }
        let (words, is_ended) = match line_at(rest) {
            Some((words, _)) => (words, true),
            None => (rest, false),
        };
        Some(Case {
            kind,
            text,
            part: part_of(text, line),
            above,
            number: line,
            line: words,
            is_ended,
        })
    }

    /// Whether the text ends above this line.
    pub(crate) fn is_end_of_text(&self) -> bool {
        self.line.is_empty() && !self.is_ended
    }
}
