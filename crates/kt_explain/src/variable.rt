//! Names that break the rules of variables.
//! Cited by explain.rt.

use crate::case::{Above, Case};
use crate::finding::Finding;
use crate::name::letters_in_front;
use crate::near::nearest;
use crate::place::{Spelled, behind_verb, kind_in_line, next_place, place_in_front};
use crate::reason::Reason;
use kt_text::line_at;
use kt_tuple::reading::word_at;
use kt_tuple::{Kind, MAX_PLACES};
use std::alloc::{AllocError, Global};

const UNBOUND: &str =
    "no command above binds this name: write one above, as `in (\"a\", ?int x)`; a str stands in quotes, as `\"x\"`";

const BOUND_IN_SET: &str =
    "no command above binds this name: write one above that binds it to an int, as `in (\"a\", ?int x)`";

const BOUND_HERE: &str =
    "this name has a value only below this line: use it there, or write a new formal here, as `?int y`";

/// The name that breaks a rule, and which.
pub(crate) fn finding_of_name<'a>(
    alloc: Global,
    case: &Case<'a>,
) -> Result<Option<Finding<'a>>, AllocError> {
    match word_at(case.line, b"set ") {
        Ok(words) => Ok(in_set(&case.above, words)),
        Err(_) => in_places(alloc, case),
    }
}

/// In `x = y + K`.
fn in_set<'a>(above: &Above<'_>, words: &'a [u8]) -> Option<Finding<'a>> {
    let (variable, rest) = letters_in_front(words);
    let source = word_at(rest, b" = ").ok()?;
    let (name, _) = letters_in_front(source);
    match kind_above(above, name) {
        None => return Some(Finding::said(source, BOUND_IN_SET)),
        Some(Kind::Int) => {}
        Some(kind) => return Some(Finding::new(source, Reason::NoInt(kind))),
    }
    match kind_above(above, variable) {
        None | Some(Kind::Int) => None,
        Some(kind) => Some(Finding::new(words, Reason::BoundTo(kind))),
    }
}

/// In the places of a tuple or template: the first name that nothing binds, or else the first of another kind.
fn in_places<'a>(alloc: Global, case: &Case<'a>) -> Result<Option<Finding<'a>>, AllocError> {
    let Some(first) = first_place(case.line) else {
        return Ok(None);
    };
    match unbound_from(&case.above, first) {
        Some(place) => Ok(Some(Finding::new(place, reason_of_unbound(alloc, case.line, place)?))),
        None => Ok(of_other_kind_from(case, first)),
    }
}

/// The bytes from the first place of an operation's line on.
fn first_place(line: &[u8]) -> Option<&[u8]> {
    word_at(behind_verb(line)?, b"(").ok()
}

/// Why the name in front of this place of the line, which nothing above binds, may not stand there.
fn reason_of_unbound(alloc: Global, line: &[u8], place: &[u8]) -> Result<Reason, AllocError> {
    let (name, _) = letters_in_front(place);
    if kind_in_line(line, name).is_some() {
        return Ok(Reason::Said(BOUND_HERE));
    }
    match nearest(alloc, name, &["true", "false"])? {
        Some(value) => Ok(Reason::NearValue(value)),
        None => Ok(Reason::Said(UNBOUND)),
    }
}

/// The bytes from the first place on that has a name which nothing above binds.
fn unbound_from<'a>(above: &Above<'_>, first: &'a [u8]) -> Option<&'a [u8]> {
    let mut rest = first;
    for _ in 0..MAX_PLACES {
        let (place, behind) = place_in_front(rest)?;
        if let Spelled::Used(name) = place {
            if kind_above(above, name).is_none() {
                return Some(rest);
            }
        }
        rest = next_place(behind)?;
    }
    None
}

fn of_other_kind_from<'a>(case: &Case<'a>, first: &'a [u8]) -> Option<Finding<'a>> {
    let mut rest = first;
    for _ in 0..MAX_PLACES {
        let (place, behind) = place_in_front(rest)?;
        if let Spelled::Bound(kind, name) = place {
            let bound = kind_above(&case.above, name).or(kind_in_line(case.line, name))?;
            if bound != kind {
                return Some(Finding::new(rest, Reason::BoundTo(bound)));
            }
        }
        rest = next_place(behind)?;
    }
    None
}

/// The kind to which the script above first binds the name.
fn kind_above(above: &Above<'_>, name: &[u8]) -> Option<Kind> {
    let mut rest = above.script;
    for _ in 0..above.script_lines {
        let (line, behind) = line_at(rest)?;
        if let Some(kind) = kind_in_line(line, name) {
            return Some(kind);
        }
        rest = behind;
    }
    None
}
