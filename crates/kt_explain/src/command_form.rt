//! The forms of commands.
//! Cited by limit.rt, script_word.rt, tuple.rt.

use crate::finding::{Finding, past_blank};
use crate::name::name_in_front;
use crate::node::behind_word;
use crate::reason::{Limit, Reason};
use kt_tuple::reading::{int_at, word_at};

/// Of what is no tuple or template.
pub(crate) const NO_TUPLE: &str =
    "a tuple or template in parentheses is wanted here, as in `out (\"a\", 1)` and `in (\"a\", ?int)`";

/// Of zeros before an int.
pub(crate) const ZEROS: &str = "an int has no zeros in front: take them away";

/// The form of `set`.
const SET_FORM: Reason = Reason::Said(
    "the form is `set x = y + K`, K an int, as in `set x = x + 1`",
);

const NO_EQUALS: Reason = Reason::Said(
    "`=` is wanted here, with one space before it and one after it, as in `set x = x + 1`",
);

const NO_CONSTANT: &str =
    "`set` only adds to a name: for `set x = 5` write `out (\"k\", 5)` and below it `in (\"k\", ?int x)`";

const NO_MINUS: &str = "`set` only adds: for minus write `+ -` and the int, as in `set x = x + -1`";

const NO_PLUS: &str =
    "`set` always adds an int: to copy a value write ` + 0` at the end of the line, as in `set y = x + 0`";

const NO_OTHER: &str = "`set` only adds: write ` + ` and an int here, as in `set x = y + 1`";

const SPACES: &str = "write one space before `+` and one after it, as in `set x = x + 1`";

const TWO_NAMES: &str = "no command adds two names: write an int here, as in `set y = x + 1`";

const NO_INT: &str = "write an int here, as `1` or `-1`: `set` adds ints alone";

/// What is wrong with a command that begins with this word of a command, and goes on so.
pub(crate) fn finding_in_command<'a>(word: &[u8], rest: &'a [u8]) -> Finding<'a> {
    if word == b"set".as_slice() {
        match judge_set(rest) {
            Ok(()) => Finding::new(rest, SET_FORM),
            Err(finding) => finding,
        }
    } else if word == b"unless".as_slice() {
        Finding::new(past_blank(rest), Reason::Limit(Limit::Skips))
    } else if rest.first() == Some(&b'(') {
        Finding::said(
            rest,
            "one space stands between the word and `(`: put it here",
        )
    } else {
        Finding::said(rest, NO_TUPLE)
    }
}

/// Reads ` x = y + K`, as far as it goes.
fn judge_set(text: &[u8]) -> Result<(), Finding<'_>> {
    let number = constant_of(text)?;
    match int_at(number) {
        Ok((_, [])) => Ok(()),
        Ok((_, [b'0'..=b'9', ..])) => Err(Finding::said(number, ZEROS)),
        Ok((_, rest)) => Err(Finding::said(
            past_blank(rest),
            "`set` adds one int, with which the line ends: take away what comes after it",
        )),
        Err(_) => Err(Finding::said(number, text_of_no_int(number))),
    }
}

/// What is said where an int is wanted.
fn text_of_no_int(number: &[u8]) -> &'static str {
    match number.first() {
        Some(b'a'..=b'z' | b'A'..=b'Z' | b'_') => TWO_NAMES,
        _ => NO_INT,
    }
}

/// What stands in the place of K in ` x = y + K`.
pub(crate) fn constant_of(text: &[u8]) -> Result<&[u8], Finding<'_>> {
    let words = behind_word(text, b" ", SET_FORM)?;
    let (_, rest) = name_in_front(words)?;
    let source = behind_word(rest, b" = ", NO_EQUALS)?;
    if let Some(b'0'..=b'9' | b'-' | b'"' | b'?') = source.first() {
        return Err(Finding::said(source, NO_CONSTANT));
    }
    let (_, rest) = name_in_front(source)?;
    match word_at(rest, b" + ") {
        Ok(number) => Ok(number),
        Err(_) => Err(Finding::said(past_blank(rest), text_of_no_plus(rest))),
    }
}

/// What is said where ` + ` is wanted.
fn text_of_no_plus(rest: &[u8]) -> &'static str {
    match rest {
        [] => NO_PLUS,
        [b'-', ..] | [b' ', b'-', ..] => NO_MINUS,
        [b'+', ..] | [b' ', b'+', ..] => SPACES,
        _ => NO_OTHER,
    }
}
