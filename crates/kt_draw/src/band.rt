//! The bands with the names of the nodes, and the fine lines of the rows.
//! Cited by picture.rt.

use crate::element::{Point, push_label};
use crate::part::{Part, push_parts};
use crate::plane::{BAND, BLOCK, NUMBERS, ROW, TITLE};
use crate::sheet::{NODES, Sheet};
use kt_tuple::NodeId;
use std::alloc::AllocError;

/// A fine line along each row, from its number to its text.
pub(crate) fn push_rules(out: &mut Vec<u8>, sheet: Sheet) -> Result<(), AllocError> {
    if sheet.plane.rows == 0 {
        return Ok(());
    }
    out.extend_from_slice(b"<path class=\"g\" d=\"")?;
    for place in 0..sheet.plane.rows {
        push_rule(out, sheet, place)?;
    }
    out.extend_from_slice(b"\"/>\n")
}

/// The line along the row with so many above it.
fn push_rule(out: &mut Vec<u8>, sheet: Sheet, place: u32) -> Result<(), AllocError> {
    push_parts(
        out,
        &[
            Part::Text(b"M"),
            Part::Number(NUMBERS - 6),
            Part::Text(b" "),
            Part::Number(sheet.plane.row_y(place)),
            Part::Text(b"H"),
            Part::Number(sheet.text_x().saturating_sub(6)),
        ],
    )
}

/// The bands with the names of the nodes.
pub(crate) fn push_bands(out: &mut Vec<u8>, sheet: Sheet) -> Result<(), AllocError> {
    for band in 0..sheet.plane.bands() {
        push_band(
            out,
            sheet,
            (BAND + ROW * BLOCK)
                .saturating_mul(band)
                .saturating_add(TITLE),
        )?;
    }
    Ok(())
}

fn push_band(out: &mut Vec<u8>, sheet: Sheet, top: u64) -> Result<(), AllocError> {
    push_parts(
        out,
        &[
            Part::Text(b"<rect class=\"h\" x=\"0\" y=\""),
            Part::Number(top),
            Part::Text(b"\" width=\""),
            Part::Number(sheet.width()),
            Part::Text(b"\" height=\"24\"/>\n"),
        ],
    )?;
    let y = top.saturating_add(16);
    push_names(out, sheet, y)?;
    let x = sheet.text_x();
    push_label(out, b"d", Point { x, y }, b"what happened")?;
    let x = NUMBERS - 12;
    push_label(out, b"e", Point { x, y }, b"step")
}

/// The names of the nodes, each in its column.
fn push_names(out: &mut Vec<u8>, sheet: Sheet, y: u64) -> Result<(), AllocError> {
    for node in NODES {
        if sheet.has(*node) {
            let x = sheet.plane.column(*node);
            push_name(out, *node, Point { x, y })?;
        }
    }
    Ok(())
}

fn push_name(out: &mut Vec<u8>, node: NodeId, at: Point) -> Result<(), AllocError> {
    let mut name = Vec::new(*out.allocator());
    let pushed = match node.write_to(&mut name) {
        Ok(()) => push_label(out, b"n", at, &name),
        Err(error) => Err(error),
    };
    drop(name);
    pushed
}
