//! What stands below the rows of a picture, and what a script moves over them.
//! Cited by picture.rt.

use crate::element::{Point, push_label, push_use};
use crate::part::{Part, push_parts};
use crate::plane::ROW;
use crate::row::push_step_number;
use crate::sheet::Sheet;
use crate::title::refused_text;
use kt_story::Story;
use kt_trace::Refused;
use std::alloc::{AllocError, Global};

/// What is said where there is no row.
pub(crate) const NOTHING: &[u8] = b"no step was made";

/// The boxes that a script moves, without a height until then.
pub(crate) fn push_moved(out: &mut Vec<u8>, sheet: Sheet) -> Result<(), AllocError> {
    let width = sheet.width();
    push_parts(
        out,
        &[
            Part::Text(b"<rect id=\"later\" class=\"p\" fill-opacity=\".6\" width=\""),
            Part::Number(width),
            Part::Text(b"\" height=\"0\" data-row=\""),
            Part::Number(ROW),
            Part::Text(b"\" data-end=\""),
            Part::Number(sheet.bottom()),
            Part::Text(
                b"\"/>\n<rect id=\"here\" class=\"o sc\" stroke-width=\"2\" x=\"1\" width=\"",
            ),
            Part::Number(width.saturating_sub(2)),
            Part::Text(b"\" height=\"0\"/>\n"),
        ],
    )
}

/// Below the rows: that there is none, or the step that was refused, which ended the story.
pub(crate) fn push_end(
    alloc: Global,
    out: &mut Vec<u8>,
    sheet: Sheet,
    story: &Story,
) -> Result<(), AllocError> {
    let at = Point {
        x: sheet.text_x(),
        y: sheet.rows_bottom().saturating_add(ROW - 4),
    };
    match story.refused() {
        Some(refused) => push_refused(alloc, out, refused, at),
        None if sheet.plane.rows == 0 => push_label(out, b"q", at, NOTHING),
        None => Ok(()),
    }
}

/// The number of the step that was refused, its mark, and there its text.
fn push_refused(
    alloc: Global,
    out: &mut Vec<u8>,
    refused: Refused,
    at: Point,
) -> Result<(), AllocError> {
    push_step_number(out, refused.number, at.y)?;
    let mark = Point {
        x: at.x.saturating_sub(14),
        y: at.y.saturating_sub(4),
    };
    push_use(out, b"gone", mark)?;
    let text = refused_text(alloc, refused)?;
    let pushed = push_label(out, b"t", at, &text);
    drop(text);
    pushed
}
