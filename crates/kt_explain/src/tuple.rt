//! Where a tuple or a template breaks off, and why.
//! Cited by explain.rt.

use crate::command_form::{NO_TUPLE, ZEROS};
use crate::finding::{Finding, from_first};
use crate::name::{letters_in_front, name_in_front};
use crate::place::{behind_verb, kind_named};
use crate::reason::{Limit, REMARK_BEHIND, Reason};
use crate::spacing::blanks_at_end;
use kt_tuple::MAX_PLACES;
use kt_tuple::reading::{int_at, int_of, value_at, value_of, word_at};

const UNCLOSED: &str = "the line ends within the tuple: write `)` at its end";

const NO_LAST_PLACE: &str =
    "the line ends where a value is wanted: write one here, and `)` after it";

const NO_FORMAL: &str =
    "`out` takes values alone: write one here, as `1`; what begins with `?` is for `in`, `rd`, `inp` and `rdp`";

const NO_QUESTION_MARK: &str = "`?` is missing before it: write `?int`, `?str` or `?bool`";

const KIND_IN_OUT: &str =
    "`int`, `str` and `bool` are no values: write one here, as `1`, `\"a\"` or `true`";

const OPEN_STR: &str =
    "this quote opens a str, and none closes it: write `\"` where the str ends (`\\\"` is a quote within it)";

const NO_ESCAPE: &str =
    "`\\` and this are no escape: take both away (a str has no line break), or write `\\\\` for a backslash";

const TAB_IN_STR: &str = "a tab, shown as `\\t`: a str holds no tab, write a space in its place";

const FOREIGN_IN_STR: &str =
    "no printable ASCII, its bytes are shown as `\\x..`: a str holds characters from space to `~` alone";

/// What is wrong with the tuple or template of an operation's line.
pub(crate) fn finding_in_places(line: &[u8]) -> Option<Finding<'_>> {
    let text = behind_verb(line)?;
    let takes_formals = word_at(line, b"out ").is_err();
    judge(text, takes_formals).err()
}

/// Reads places in parentheses, from left to right.
fn judge(text: &[u8], takes_formals: bool) -> Result<(), Finding<'_>> {
    let mut rest = behind_opening(text)?;
    for _ in 0..MAX_PLACES {
        rest = behind_place(rest, takes_formals)?;
        match behind_separator(rest)? {
            Some(next) => rest = next,
            None => return Ok(()),
        }
    }
    Err(Finding::new(rest, Reason::Limit(Limit::Places)))
}

fn behind_opening(text: &[u8]) -> Result<&[u8], Finding<'_>> {
    match text.split_first() {
        Some((b'(', [b')', ..])) => Err(Finding::said(
            text,
            "an empty tuple: write at least one value in it, as in `(1)`",
        )),
        Some((b'(', rest)) => Ok(rest),
        Some((b' ' | b'\t', _)) => Err(Finding::said(
            text,
            "one space is enough before `(`: take this one away",
        )),
        Some((0..=31 | 127..=255, _)) => Err(Finding::new(text, Reason::of_foreign(text))),
        _ => Err(Finding::said(text, NO_TUPLE)),
    }
}

/// The bytes behind the place in front.
fn behind_place(text: &[u8], takes_formals: bool) -> Result<&[u8], Finding<'_>> {
    match text.first() {
        None => Err(Finding::said(text, NO_LAST_PLACE)),
        Some(b'?') if takes_formals => behind_formal(text),
        Some(b'"') => behind_str(text),
        Some(b'-' | b'0'..=b'9') => behind_int(text),
        Some(b'a'..=b'z' | b'A'..=b'Z' | b'_') => behind_letters(text, takes_formals),
        Some(c) => Err(Finding::said(text, text_of_no_place(*c))),
    }
}

/// Why no place begins with this byte.
fn text_of_no_place(c: u8) -> &'static str {
    match c {
        b'?' => NO_FORMAL,
        b')' => "a value is missing before `)`: write one, or take the comma and the space away",
        b',' => "a value is missing before this comma: write one here",
        b'\'' | b'`' => "a str stands in double quotes, as in `\"a\"`",
        b' ' => "one space stands after a comma and none after `(`: take this one away",
        b'\t' =>
            "a tab, shown as `\\t`: take it away; one space stands after a comma and none after `(`",
        b'(' | b'[' | b'{' =>
            "no tuple stands in a tuple: write its values as values of this one, as in `(\"a\", 1, 2)`",
        b'+' => "an int has no `+` before it: take it away",
        b'.' => "no floats: write an int, or a str as in `\"1.5\"`",
        128..=255 =>
            "no ASCII, its bytes are shown as `\\x..`: a str stands in the double quotes of ASCII, as in `\"a\"`",
        _ =>
            "write a value here: an int, a str in double quotes, `true`, `false` or a name that is bound above",
    }
}

fn behind_formal(text: &[u8]) -> Result<&[u8], Finding<'_>> {
    let (_, behind) = text.split_at(text.len().min(1));
    let (word, rest) = letters_in_front(behind);
    if kind_named(word).is_none() {
        return Err(Finding::said(
            text,
            "write `?int`, `?str` or `?bool` here, alone or with a space and a name after it, as `?int x`",
        ));
    }
    match word_at(rest, b" ") {
        Ok(name) => {
            let (_, rest) = name_in_front(name)?;
            Ok(rest)
        }
        Err(_) => Ok(rest),
    }
}

fn behind_str(text: &[u8]) -> Result<&[u8], Finding<'_>> {
    match value_at(text) {
        Ok((spelling, rest)) => {
            if value_of(spelling).is_none() {
                return Err(Finding::new(text, Reason::Limit(Limit::Characters)));
            }
            Ok(rest)
        }
        Err([]) => Err(Finding::said(text, OPEN_STR)),
        Err(rest) => Err(Finding::said(rest, text_of_broken_str(rest))),
    }
}

/// Why a str breaks off here.
fn text_of_broken_str(rest: &[u8]) -> &'static str {
    match rest.first() {
        Some(32..=126) => NO_ESCAPE,
        Some(b'\t') => TAB_IN_STR,
        _ => FOREIGN_IN_STR,
    }
}

fn behind_int(text: &[u8]) -> Result<&[u8], Finding<'_>> {
    let (digits, rest) = match int_at(text) {
        Ok(read) => read,
        Err(rest) => {
            return Err(Finding::said(rest, "write a digit from 1 to 9 after `-`, as in `-1`"));
        }
    };
    match rest.first() {
        Some(b'.') => Err(Finding::said(rest, "no floats: write an int, or a str as in `\"1.5\"`")),
        Some(b'0'..=b'9') => Err(Finding::said(text, ZEROS)),
        Some(b'a'..=b'z' | b'A'..=b'Z' | b'_') => {
            Err(Finding::said(
                rest,
                "an int has digits alone, and a name begins with a letter: write `\"1a\"` or `a1`",
            ))
        }
        _ if int_of(digits).is_none() => Err(Finding::new(text, Reason::Limit(Limit::Bits))),
        _ => Ok(rest),
    }
}

/// Behind `true`, `false` or a name.
fn behind_letters(text: &[u8], takes_formals: bool) -> Result<&[u8], Finding<'_>> {
    let (word, rest) = letters_in_front(text);
    if word == b"true".as_slice() || word == b"false".as_slice() {
        Ok(rest)
    } else if word.eq_ignore_ascii_case(b"true") {
        Err(Finding::new(text, Reason::Meant("true")))
    } else if word.eq_ignore_ascii_case(b"false") {
        Err(Finding::new(text, Reason::Meant("false")))
    } else if kind_named(word).is_some() {
        Err(Finding::said(
            text,
            if takes_formals {
                NO_QUESTION_MARK
            } else {
                KIND_IN_OUT
            },
        ))
    } else {
        let (_, rest) = name_in_front(text)?;
        Ok(rest)
    }
}

/// The next place behind a comma; `None` behind the closing parenthesis, with which the line ends.
fn behind_separator(text: &[u8]) -> Result<Option<&[u8]>, Finding<'_>> {
    match text.split_first() {
        None => Err(Finding::said(text, UNCLOSED)),
        Some((b')', [])) => Ok(None),
        Some((b')', rest)) => Err(behind_closing(rest)),
        Some((b',', [b')', ..])) => Err(Finding::said(
            text,
            "no comma stands before `)`: take it away",
        )),
        Some((b',', rest)) => match word_at(rest, b" ") {
            Ok(next) => Ok(Some(next)),
            Err(_) => Err(Finding::said(rest, "one space stands after a comma: put it here")),
        },
        Some((b' ', [b',' | b')', ..])) => Err(Finding::said(
            text,
            "no space stands before a comma or `)`: take it away",
        )),
        Some(_) => Err(Finding::said(
            text,
            "a comma or `)` is missing: write a comma and a space before the next value, or `)` after the last one",
        )),
    }
}

/// What stands behind the closing parenthesis.
fn behind_closing(rest: &[u8]) -> Finding<'_> {
    if let Some(remark) = from_first(rest, |c| *c == b'#') {
        return Finding::new(remark, REMARK_BEHIND);
    }
    if rest.iter().all(|c| *c == b' ' || *c == b'\t') {
        if let Some(blanks) = blanks_at_end(rest) {
            return blanks;
        }
    }
    Finding::said(
        rest,
        "the line ends with `)`: take away what comes after it",
    )
}
