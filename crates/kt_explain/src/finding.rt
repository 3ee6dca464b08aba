//! What was found wrong in a line, and where.
//! Cited by command_form.rt, ending.rt, explain.rt, fault_word.rt, header.rt, limit.rt, name.rt, node.rt,
//!   script_word.rt, spacing.rt, step_word.rt, tuple.rt, variable.rt.

use crate::case::Above;
use crate::reason::{Limit, Reason};
use kt_tuple::reading::word_at;

/// What was found wrong in a line.
#[derive(Clone, Copy)]
pub(crate) struct Finding<'a> {
    /// The bytes of the line from the first one that is wrong.
    pub(crate) rest: &'a [u8],
    pub(crate) reason: Reason,
}

impl<'a> Finding<'a> {
    pub(crate) fn new(rest: &'a [u8], reason: Reason) -> Finding<'a> {
        Finding { rest, reason }
    }

    /// With a text that says all of it.
    pub(crate) fn said(rest: &'a [u8], text: &'static str) -> Finding<'a> {
        Finding {
            rest,
            reason: Reason::Said(text),
        }
    }

    /// The same; of a node's number that is too great it says which nodes the scenario has.
    pub(crate) fn in_scene(self, above: &Above<'_>) -> Finding<'a> {
        match self.reason {
            Reason::Limit(Limit::NodeNumbers) => Finding {
                reason: above.no_node(),
                ..self
            },
            _ => self,
        }
    }
}

/// The bytes after the space in front, so that what is wrong is shown and not the space before it.
pub(crate) fn past_blank(text: &[u8]) -> &[u8] {
    match word_at(text, b" ") {
        Ok(rest) => rest,
        Err(_) => text,
    }
}

/// The bytes from the first one of which this holds.
pub(crate) fn from_first<F: FnMut(&u8) -> bool>(text: &[u8], is_meant: F) -> Option<&[u8]>
    requires { F.IsAlwaysCallable is_meant }
{
    let at = text.iter().position(is_meant)?;
    text.get(at..)
}

/// The bytes in front up to the first that is a space or that stands in none of the words of a scenario, and the bytes
/// from there on.
pub(crate) fn word_in_front(text: &[u8]) -> (&[u8], &[u8]) {
    let length = text
        .iter()
        .position(|byte| !is_word_byte(*byte))
        .unwrap_or(text.len());
    text.split_at(length.min(text.len()))
}

/// Whether a letter of either case, a digit, `_` or `-`: what people make words of.
pub(crate) fn is_word_byte(byte: u8) -> bool {
    byte.is_ascii_alphanumeric() || byte == b'_' || byte == b'-'
}
