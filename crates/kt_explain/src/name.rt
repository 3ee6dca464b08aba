//! Names of variables, read with what is wrong with them.
//! Cited by command_form.rt, node.rt, place.rt, tuple.rt, variable.rt.

use crate::finding::{Finding, from_first};
use crate::reason::{Limit, Reason};
use kt_script::{MAX_NAME, is_name, is_name_character};

/// A name in front, and the bytes behind it; or why there is none.
pub(crate) fn name_in_front(text: &[u8]) -> Result<(&[u8], &[u8]), Finding<'_>> {
    let (word, rest) = letters_in_front(text);
    if let Some(reason) = reason_of_first(text) {
        return Err(Finding::new(text, reason));
    }
    if let Some(wrong) = from_first(word, |c| !is_name_character(*c)) {
        let rest = text
            .get(word.len().saturating_sub(wrong.len())..)
            .unwrap_or(text);
        return Err(Finding::said(
            rest,
            "a name has small letters, digits and `_` alone: write it so, as `count_up`",
        ));
    }
    if word.len() > MAX_NAME {
        return Err(Finding::new(text, Reason::Limit(Limit::Name)));
    }
    if !is_name(word) {
        return Err(Finding::said(
            text,
            "`int`, `str`, `bool`, `true` and `false` are no names: write another name here",
        ));
    }
    Ok((word, rest))
}

/// Why no name begins with the first byte.
fn reason_of_first(text: &[u8]) -> Option<Reason> {
    match text.first() {
        Some(b'a'..=b'z') => None,
        Some(b'A'..=b'Z' | b'0'..=b'9' | b'_') => {
            Some(Reason::Said("a name begins with a small letter, a to z: write it so, as `x1`"))
        }
        Some(b' ') => Some(Reason::Said("one space is enough here: take this one away")),
        _ => Some(Reason::Said(
            "write a name here: a small letter, then small letters, digits and `_`",
        )),
    }
}

/// The letters of either case, digits and `_` in front, and the bytes behind them.
pub(crate) fn letters_in_front(text: &[u8]) -> (&[u8], &[u8]) {
    let length = text
        .iter()
        .position(|c| !c.is_ascii_alphanumeric() && *c != b'_')
        .unwrap_or(text.len());
    text.split_at(length.min(text.len()))
}
