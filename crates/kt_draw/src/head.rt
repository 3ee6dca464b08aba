//! What stands at the begin of a picture: its root element, its names, its style and its title.
//! Cited by picture.rt.

use crate::element::{Point, push_label};
use crate::part::{Part, push_parts};
use crate::picture::Form;
use crate::sheet::{MARGIN, Sheet};
use crate::style::STYLE;
use crate::title::{tally_of, title_of};
use kt_story::Story;
use std::alloc::{AllocError, Global};

/// The rest of the root element's begin.
pub(crate) fn push_root(
    out: &mut Vec<u8>,
    sheet: Sheet,
    height: u64,
    form: Form,
) -> Result<(), AllocError> {
    let width = sheet.width();
    push_size(out, width, height, form)?;
    push_parts(
        out,
        &[
            Part::Text(b" viewBox=\"0 0 "),
            Part::Number(width),
            Part::Text(b" "),
            Part::Number(height),
            Part::Text(b"\" role=\"img\" aria-labelledby=\"picture-title picture-text\">\n"),
        ],
    )
}

/// Its attributes that say how large the picture is.
fn push_size(out: &mut Vec<u8>, width: u64, height: u64, form: Form) -> Result<(), AllocError> {
    match form {
        Form::Alone => push_parts(
            out,
            &[
                Part::Text(b" id=\"picture\" width=\""),
                Part::Number(width),
                Part::Text(b"\" height=\""),
                Part::Number(height),
                Part::Text(b"\""),
            ],
        ),
        Form::InPage => push_parts(
            out,
            &[
                Part::Text(b" id=\"picture\" style=\"width:"),
                Part::Number(width / 16),
                Part::Text(b"em\""),
            ],
        ),
    }
}

/// What a reader of screens says of the picture.
fn push_names<'a>(out: &mut Vec<u8>, title: &'a [u8], tally: &'a [u8]) -> Result<(), AllocError> {
    push_parts(
        out,
        &[
            Part::Text(b"<title id=\"picture-title\">"),
            Part::Text(title),
            Part::Text(b"</title>\n<desc id=\"picture-text\">"),
            Part::Text(tally),
            Part::Text(b". A column for each node, a row for each step; time goes down.</desc>\n"),
        ],
    )
}

/// The style and the symbols.
fn push_style(out: &mut Vec<u8>) -> Result<(), AllocError> {
    for line in STYLE {
        out.extend_from_slice(line.as_bytes())?;
    }
    Ok(())
}

/// The ground.
fn push_ground(out: &mut Vec<u8>, sheet: Sheet, height: u64) -> Result<(), AllocError> {
    push_parts(
        out,
        &[
            Part::Text(b"<rect class=\"p\" width=\""),
            Part::Number(sheet.width()),
            Part::Text(b"\" height=\""),
            Part::Number(height),
            Part::Text(b"\"/>\n"),
        ],
    )
}

/// The names of the picture, its style and ground, and its title.
pub(crate) fn push_head(
    alloc: Global,
    out: &mut Vec<u8>,
    story: &Story,
    sheet: Sheet,
    height: u64,
) -> Result<(), AllocError> {
    let title = title_of(alloc, story, sheet.first)?;
    let pushed = match tally_of(alloc, story) {
        Ok(tally) => {
            let pushed = push_called(out, sheet, height, &title, &tally);
            drop(tally);
            pushed
        }
        Err(error) => Err(error),
    };
    drop(title);
    pushed
}

/// The same, where the picture is called so.
fn push_called(
    out: &mut Vec<u8>,
    sheet: Sheet,
    height: u64,
    title: &[u8],
    tally: &[u8],
) -> Result<(), AllocError> {
    push_names(out, title, tally)?;
    push_style(out)?;
    push_ground(out, sheet, height)?;
    push_label(out, b"t b", Point { x: MARGIN, y: 20 }, title)?;
    push_label(out, b"t", Point { x: MARGIN, y: 40 }, tally)
}
