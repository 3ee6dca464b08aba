//! What a person goes through the steps by: a slider with buttons, and the list of all steps.
//! Cited by page.rt.

use crate::parts::{Part, push_parts};
use kt_draw::{BAND, Plane, ROW, TITLE, refused_text};
use kt_story::Story;
use kt_tell::{push_head, push_tail};
use kt_trace::TracedStep;
use std::alloc::{AllocError, Global};

/// Keys, and what is written on the buttons that do the same.
const BUTTONS: &[(&str, &str)] = &[
    ("Home", "First"),
    ("ArrowLeft", "Back"),
    ("ArrowRight", "Forward"),
    ("End", "Last"),
];

/// The slider and the buttons, between the step before the first and the last one. They are hidden until the script
/// runs.
pub(crate) fn push_controls(
    out: &mut Vec<u8>,
    story: &Story,
    first: u64,
) -> Result<(), AllocError> {
    let last = story.rows().len() as u64;
    push_slider(out, first.saturating_sub(1), last)?;
    for (key, text) in BUTTONS {
        push_button(out, key, text)?;
    }
    out.extend_from_slice(
        b"</div>\n<output id=\"said\" for=\"at\" aria-live=\"polite\"></output></section>\n",
    )
}

/// The begin of the controls, with the slider, which stands at the last step.
fn push_slider(out: &mut Vec<u8>, before: u64, last: u64) -> Result<(), AllocError> {
    let parts = [
        Part::Text(b"<section id=\"go\" aria-label=\"Steps\" hidden><div>\n"),
        Part::Text(b"<label for=\"at\">Step</label>\n<input id=\"at\" type=\"range\" min=\""),
        Part::Number(before),
        Part::Text(b"\" max=\""),
        Part::Number(last),
        Part::Text(b"\" value=\""),
        Part::Number(last),
        Part::Text(b"\" step=\"1\">\n"),
    ];
    push_parts(out, &parts)
}

/// The button that does what the key does.
fn push_button<'a>(out: &mut Vec<u8>, key: &'a str, text: &'a str) -> Result<(), AllocError> {
    let parts = [
        Part::Text(b"<button type=\"button\" data-key=\""),
        Part::Text(key.as_bytes()),
        Part::Text(b"\" aria-keyshortcuts=\""),
        Part::Text(key.as_bytes()),
        Part::Text(b"\">"),
        Part::Text(text.as_bytes()),
        Part::Text(b"</button>\n"),
    ];
    push_parts(out, &parts)
}

/// The section with the list of the steps that are shown. Before them stands the state that they begin with, and behind
/// them the step that was refused, if one was.
pub(crate) fn push_list(
    alloc: Global,
    out: &mut Vec<u8>,
    story: &Story,
    first: u64,
) -> Result<(), AllocError> {
    let before = first.saturating_sub(1);
    push_before(out, before)?;
    push_rows(alloc, out, story, before)?;
    push_refused(alloc, out, story)?;
    out.extend_from_slice(b"</ol>\n</section>\n")
}

/// The begin of that, with the state that so many steps lead to.
fn push_before(out: &mut Vec<u8>, before: u64) -> Result<(), AllocError> {
    out.extend_from_slice(
        b"<section aria-labelledby=\"list\"><h2 id=\"list\">All steps</h2>\n<ol>\n",
    )?;
    push_item(out, before, TITLE + BAND - ROW)?;
    if before == 0 {
        out.extend_from_slice(b"Before the first step</a></li>\n")
    } else {
        let parts = [
            Part::Text(b"After step "),
            Part::Number(before),
            Part::Text(b"</a></li>\n"),
        ];
        push_parts(out, &parts)
    }
}

/// The steps that were made, but for so many.
fn push_rows(
    alloc: Global,
    out: &mut Vec<u8>,
    story: &Story,
    before: u64,
) -> Result<(), AllocError> {
    let all = story.rows();
    let (_, rows) = all.split_at((before as usize).min(all.len()));
    let plane = Plane::new(story.workers(), story.shards(), rows.len());
    let mut above = 0u32;
    for row in rows {
        push_row(alloc, out, row, plane.row_y(above))?;
        above = above.saturating_add(1);
    }
    Ok(())
}

/// The item of a step, whose row has its middle so far down in the picture: the line of the trace, without its number.
fn push_row(
    alloc: Global,
    out: &mut Vec<u8>,
    row: &TracedStep,
    middle: u64,
) -> Result<(), AllocError> {
    push_item(out, row.number, middle.saturating_sub(ROW / 2))?;
    let mut line = Vec::new(alloc);
    push_head(&mut line, row)?;
    push_tail(&mut line, row)?;
    push_parts(out, &[Part::Escaped(&line), Part::Text(b"</a></li>\n")])
}

/// The step that was refused, if one was.
fn push_refused(alloc: Global, out: &mut Vec<u8>, story: &Story) -> Result<(), AllocError> {
    match story.refused() {
        Some(refused) => {
            let text = refused_text(alloc, refused)?;
            let parts = [
                Part::Text(b"<li value=\""),
                Part::Number(refused.number),
                Part::Text(b"\">"),
                Part::Escaped(&text),
                Part::Text(b"</li>\n"),
            ];
            push_parts(out, &parts)
        }
        None => Ok(()),
    }
}

/// The begin of the item of a step, and how far down in the picture its row begins.
fn push_item(out: &mut Vec<u8>, number: u64, top: u64) -> Result<(), AllocError> {
    let parts = [
        Part::Text(b"<li id=\"step-"),
        Part::Number(number),
        Part::Text(b"\" value=\""),
        Part::Number(number),
        Part::Text(b"\" data-y=\""),
        Part::Number(top),
        Part::Text(b"\"><a href=\"#step-"),
        Part::Number(number),
        Part::Text(b"\">"),
    ];
    push_parts(out, &parts)
}
