//! Nodes and numbers, read with what is wrong with them.
//! Cited by command_form.rt, fault_word.rt, step_word.rt.

use crate::finding::{Finding, past_blank};
use crate::name::letters_in_front;
use crate::reason::{Limit, Reason};
use kt_tuple::reading::{int_at, int_of, word_at};
use kt_tuple::{MAX_SHARDS, MAX_WORKERS};

const FORM: &str =
    "write a node here: `w1`, `w2` and so on are the workers, `s1`, `s2` and so on the shards";

/// The bytes behind the node that stands in front; or why there is none.
pub(crate) fn behind_node(text: &[u8]) -> Result<&[u8], Finding<'_>> {
    let (word, rest) = letters_in_front(text);
    match word.split_first() {
        Some((b'w', digits)) => {
            judge_number(text, digits, MAX_WORKERS)?;
            Ok(rest)
        }
        Some((b's', digits)) => {
            judge_number(text, digits, MAX_SHARDS)?;
            Ok(rest)
        }
        _ => Err(Finding::said(text, FORM)),
    }
}

/// What is wrong with the number of a node.
fn judge_number<'a>(text: &'a [u8], digits: &[u8], most: u8) -> Result<(), Finding<'a>> {
    if digits.is_empty() || !digits.iter().all(|c| c.is_ascii_digit()) {
        return Err(Finding::said(text, FORM));
    }
    if digits == b"0".as_slice() {
        return Err(Finding::said(
            text,
            "nodes are counted from 1: the first worker is `w1`, the first shard `s1`",
        ));
    }
    if digits.first() == Some(&b'0') {
        return Err(Finding::said(text, "a node's number has no zeros in front, as in `w1`"));
    }
    match int_of(digits) {
        Some(number) if number <= i64::from(most) => Ok(()),
        _ => Err(Finding::new(text, Reason::Limit(Limit::NodeNumbers))),
    }
}

/// The bytes behind the word that must stand here, else this reason.
pub(crate) fn behind_word<'a>(
    text: &'a [u8],
    word: &[u8],
    reason: Reason,
) -> Result<&'a [u8], Finding<'a>> {
    match word_at(text, word) {
        Ok(rest) => Ok(rest),
        Err(_) => Err(Finding::new(past_blank(text), reason)),
    }
}

/// The number without a sign that is all of the text, where it has at most 64 bits; else this reason.
pub(crate) fn number_alone(text: &[u8], reason: Reason) -> Result<i64, Finding<'_>> {
    match int_at(text) {
        Ok((digits, [])) => match int_of(digits) {
            Some(number) if number >= 0 => Ok(number),
            _ => Err(Finding::new(text, reason)),
        },
        _ => Err(Finding::new(text, reason)),
    }
}
