//! Names and numbers as people write them.
//! Cited by checks.rt, faults.rt, lost.rt, workers.rt.

use kt_tuple::writing::push_number;
use kt_tuple::{NodeId, Op};
use std::alloc::AllocError;

/// The most items that are told of a list; of the others how many they are.
pub(crate) const MAX_TOLD: usize = 6;

/// A part of a line.
#[derive(Clone, Copy)]
pub(crate) enum Part<'a> {
    /// These words.
    Text(&'a [u8]),
    /// A number in decimal.
    Number(u64),
    /// A node by its name in a scenario: `w1`, `s2`.
    Name(NodeId),
    /// An operation, as a report writes it.
    Op(&'a Op),
}

/// Puts the parts behind the text, one after the other. One call with them all costs a proof less than a call for each.
pub(crate) fn push_parts(out: &mut Vec<u8>, parts: &[Part<'_>]) -> Result<(), AllocError> {
    for part in parts {
        push_part(out, *part)?;
    }
    Ok(())
}

fn push_part(out: &mut Vec<u8>, part: Part<'_>) -> Result<(), AllocError> {
    match part {
        Part::Text(text) => out.extend_from_slice(text),
        Part::Number(number) => push_number(out, number),
        Part::Name(node) => node.write_to(out),
        Part::Op(op) => op.write_to(out),
    }
}

/// The first items of a list, those that are told.
pub(crate) fn told<T>(items: &[T]) -> &[T] {
    &items[..items.len().min(MAX_TOLD)]
}

/// Says how many items more there are than were told, where there are more.
pub(crate) fn push_rest(out: &mut Vec<u8>, count: usize) -> Result<(), AllocError> {
    match count.saturating_sub(MAX_TOLD) {
        0 => Ok(()),
        rest => push_parts(
            out,
            &[
                Part::Text(b"  and "),
                Part::Number(rest as u64),
                Part::Text(b" more\n"),
            ],
        ),
    }
}
