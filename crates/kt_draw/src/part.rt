//! Texts that are put together of parts.
//! Cited by band.rt, foot.rt, head.rt, picture.rt, title.rt, way.rt.

use kt_tuple::writing::push_number;
use std::alloc::AllocError;

/// A part of a text.
#[derive(Clone, Copy)]
pub(crate) enum Part<'a> {
    /// This text.
    Text(&'a [u8]),
    /// A number in decimal.
    Number(u64),
}

/// Puts the parts behind the text, one after the other. One call with them all costs a proof less than a call for each.
pub(crate) fn push_parts(out: &mut Vec<u8>, parts: &[Part<'_>]) -> Result<(), AllocError> {
    for part in parts {
        push_part(out, *part)?;
    }
    Ok(())
}

fn push_part(out: &mut Vec<u8>, part: Part<'_>) -> Result<(), AllocError> {
    match part {
        Part::Text(text) => out.extend_from_slice(text),
        Part::Number(number) => push_number(out, number),
    }
}

/// The text, where all was put behind it that belongs there.
pub(crate) fn whole(out: Vec<u8>, pushed: Result<(), AllocError>) -> Result<Vec<u8>, AllocError> {
    match pushed {
        Ok(()) => Ok(out),
        Err(error) => {
            drop(out);
            Err(error)
        }
    }
}
