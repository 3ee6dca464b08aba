//! Changes of cells as JSON.
//! Cited by page.rt, watch.rt.

ghost use Rattle.std.specs.Prelude.{◌≡◌, ◌++◌, OnOk};
ghost use Rattle.kt_page.specs.auxiliary.Json.{character_json, string_json};

use crate::parts::{Part, push_parts};
use crate::splice::{Splice, splice_of};
use kt_story::ARROW;
use std::alloc::AllocError;

/// Puts what changes of these cells behind the other changes. The first of them has this number.
pub(crate) fn push_changes(
    out: &mut Vec<u8>,
    number: usize,
    old: &[Vec<Vec<u8>>],
    new: &[Vec<Vec<u8>>],
) -> Result<(), AllocError> {
    for (place, lines) in new.iter().enumerate() {
        let cell = number.saturating_add(place);
        let before = match old.get(place) {
            Some(before) => before.as_slice(),
            None => &[],
        };
        push_change(out, cell, before, lines)?;
    }
    Ok(())
}

/// Puts what changes of the cell of this number behind the other changes, where something does.
fn push_change(
    out: &mut Vec<u8>,
    cell: usize,
    old: &[Vec<u8>],
    new: &[Vec<u8>],
) -> Result<(), AllocError> {
    match splice_of(old, new) {
        Some(splice) => push_splice(out, cell, splice),
        None => Ok(()),
    }
}

/// Puts this change of the cell behind the other changes.
fn push_splice(out: &mut Vec<u8>, cell: usize, splice: Splice<'_>) -> Result<(), AllocError> {
    let begin = if out.is_empty() {
        b"[".as_slice()
    } else {
        b",[".as_slice()
    };
    let numbers = [
        Part::Text(begin),
        Part::Number(cell as u64),
        Part::Text(b","),
        Part::Number(splice.at as u64),
        Part::Text(b","),
        Part::Number(splice.gone as u64),
    ];
    push_parts(out, &numbers)?;
    push_come(out, splice.come)?;
    out.extend_from_slice(b"]")
}

/// Puts the lines that come behind the numbers, each as a JSON string.
fn push_come(out: &mut Vec<u8>, come: &[Vec<u8>]) -> Result<(), AllocError> {
    for line in come {
        out.extend_from_slice(b",")?;
        push_string(out, line)?;
    }
    Ok(())
}

/// Puts a JSON string behind the text. It may stand within a `script` of HTML: there is no `<` in it.
fn push_string(out: &mut Vec<u8>, text: &[u8]) -> Result<(), AllocError>
    ensures { OnOk result (out.new.items ≡ out.old.items ++ string_json text.now) }
{
    out.push(b'"')?;
    for character in text {
        push_character(out, *character)?;
    }
    out.push(b'"')?;
    Ok(())
}

fn push_character(out: &mut Vec<u8>, character: u8) -> Result<(), AllocError>
    ensures { OnOk result (out.new.items ≡ out.old.items ++ character_json character) }
{
    if character == b'"' {
        out.extend_from_slice(b"\\\"")
    } else if character == b'\\' {
        out.extend_from_slice(b"\\\\")
    } else if character == b'<' {
        out.extend_from_slice(b"\\u003c")
    } else if character == ARROW {
        out.extend_from_slice(b"\\u2192")
    } else {
        out.push(character)?;
        Ok(())
    }
}
