//! The places of a command that has no fault of its form.
//! Cited by tuple.rt, variable.rt.

use crate::name::letters_in_front;
use kt_tuple::reading::{after_place, value_at, word_at};
use kt_tuple::{Kind, MAX_PLACES};

/// What stands in a place, as far as names go.
#[derive(Clone, Copy)]
pub(crate) enum Spelled<'a> {
    /// A value, or a formal without a name.
    Nameless,
    /// The name of a variable, whose value is taken.
    Used(&'a [u8]),
    /// A formal with its name.
    Bound(Kind, &'a [u8]),
}

/// The place in front and the bytes behind it.
pub(crate) fn place_in_front(text: &[u8]) -> Option<(Spelled<'_>, &[u8])> {
    match text.split_first()? {
        (b'?', rest) => formal_in_front(rest),
        (b'a'..=b'z', _) => {
            let (word, rest) = letters_in_front(text);
            if word == b"true".as_slice() || word == b"false".as_slice() {
                Some((Spelled::Nameless, rest))
            } else {
                Some((Spelled::Used(word), rest))
            }
        }
        _ => match value_at(text) {
            Ok((_, rest)) => Some((Spelled::Nameless, rest)),
            Err(_) => None,
        },
    }
}

/// What stands behind the `?` of a formal.
fn formal_in_front(text: &[u8]) -> Option<(Spelled<'_>, &[u8])> {
    let (word, rest) = letters_in_front(text);
    let kind = kind_named(word)?;
    match rest.split_first() {
        Some((b' ', rest)) => {
            let (name, rest) = letters_in_front(rest);
            Some((Spelled::Bound(kind, name), rest))
        }
        _ => Some((Spelled::Nameless, rest)),
    }
}

/// The kind with this name.
pub(crate) fn kind_named(word: &[u8]) -> Option<Kind> {
    if word == b"int".as_slice() {
        Some(Kind::Int)
    } else if word == b"str".as_slice() {
        Some(Kind::Str)
    } else if word == b"bool".as_slice() {
        Some(Kind::Bool)
    } else {
        None
    }
}

/// What stands behind the verb and the space of an operation's line.
pub(crate) fn behind_verb(line: &[u8]) -> Option<&[u8]> {
    word_at(line, b"out ")
        .or(word_at(line, b"in "))
        .or(word_at(line, b"rd "))
        .or(word_at(line, b"inp "))
        .or(word_at(line, b"rdp "))
        .ok()
}

/// The place behind this one; `None` behind the last.
pub(crate) fn next_place(behind: &[u8]) -> Option<&[u8]> {
    match after_place(behind) {
        Ok(next) => next,
        Err(_) => None,
    }
}

/// The kind to which the line first binds the name.
pub(crate) fn kind_in_line(line: &[u8], name: &[u8]) -> Option<Kind> {
    if let Ok(words) = word_at(line, b"set ") {
        let (variable, _) = letters_in_front(words);
        return if variable == name {
            Some(Kind::Int)
        } else {
            None
        };
    }
    let mut rest = word_at(behind_verb(line)?, b"(").ok()?;
    for _ in 0..MAX_PLACES {
        let (place, behind) = place_in_front(rest)?;
        if let Spelled::Bound(kind, bound) = place {
            if bound == name {
                return Some(kind);
            }
        }
        rest = next_place(behind)?;
    }
    None
}
