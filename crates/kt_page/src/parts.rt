//! Texts that are made of parts.
//! Cited by fate.rt, json.rt, list.rt, page.rt, table.rt.

use kt_draw::push_escaped;
use kt_story::push_count;
use kt_tuple::NodeId;
use kt_tuple::writing::push_number;
use std::alloc::{AllocError, Global};

/// A part of a text.
#[derive(Clone, Copy)]
pub(crate) enum Part<'a> {
    /// This text as it is.
    Text(&'a [u8]),
    /// This text as it stands between tags and in attributes.
    Escaped(&'a [u8]),
    /// A number.
    Number(u64),
    /// How many of something there are, whose word is that for one.
    Count(u64, &'a [u8]),
    /// The name of a node.
    Node(NodeId),
    /// Each of these words, behind the first text and before the last.
    Each(&'a [u8], &'a [&'a str], &'a [u8]),
    /// Each of these lines as `Escaped`, in a `div` of its own.
    Lines(&'a [Vec<u8>]),
}

/// A text of these parts.
pub(crate) fn text_of(alloc: Global, parts: &[Part<'_>]) -> Result<Vec<u8>, AllocError> {
    let mut text = Vec::new(alloc);
    match push_parts(&mut text, parts) {
        Ok(()) => Ok(text),
        Err(error) => {
            drop(text);
            Err(error)
        }
    }
}

/// Puts the parts behind the text. One call with many parts costs a proof less than a call for each of them.
pub(crate) fn push_parts(out: &mut Vec<u8>, parts: &[Part<'_>]) -> Result<(), AllocError> {
    for part in parts {
        push_part(out, *part)?;
    }
    Ok(())
}

fn push_part(out: &mut Vec<u8>, part: Part<'_>) -> Result<(), AllocError> {
    match part {
        Part::Text(text) => out.extend_from_slice(text),
        Part::Escaped(text) => push_escaped(out, text),
        Part::Number(number) => push_number(out, number),
        Part::Count(count, word) => push_count(out, count, word),
        Part::Node(node) => node.write_to(out),
        Part::Each(before, words, behind) => push_each(out, before, words, behind),
        Part::Lines(lines) => push_lines(out, lines),
    }
}

fn push_each(
    out: &mut Vec<u8>,
    before: &[u8],
    words: &[&str],
    behind: &[u8],
) -> Result<(), AllocError> {
    for word in words {
        out.extend_from_slice(before)?;
        out.extend_from_slice(word.as_bytes())?;
        out.extend_from_slice(behind)?;
    }
    Ok(())
}

fn push_lines(out: &mut Vec<u8>, lines: &[Vec<u8>]) -> Result<(), AllocError> {
    for line in lines {
        out.extend_from_slice(b"<div>")?;
        push_escaped(out, line)?;
        out.extend_from_slice(b"</div>")?;
    }
    Ok(())
}
