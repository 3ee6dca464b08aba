//! What a picture is called, and what it says of the whole.
//! Cited by foot.rt, head.rt, picture.rt; other crates.

use crate::part::{Part, push_parts, whole};
use kt_history::{Note, What};
use kt_story::{Story, push_count};
use kt_tell::{Choice, words_of};
use kt_trace::{Refused, Traced, TracedStep};
use std::alloc::{AllocError, Global};

/// How many workers, shards and steps there are, or which steps, where those before the first are not shown.
pub fn title_of(alloc: Global, story: &Story, first: u64) -> Result<Vec<u8>, AllocError> {
    let mut out = Vec::new(alloc);
    let pushed = push_title(&mut out, story, first);
    whole(out, pushed)
}

fn push_title(out: &mut Vec<u8>, story: &Story, first: u64) -> Result<(), AllocError> {
    push_count(out, u64::from(story.workers()), b"worker")?;
    out.extend_from_slice(b", ")?;
    push_count(out, u64::from(story.shards()), b"shard")?;
    push_steps(out, story.rows().len() as u64, first)
}

/// How many steps there are, or which, of so many in all.
fn push_steps(out: &mut Vec<u8>, last: u64, first: u64) -> Result<(), AllocError> {
    if last < first {
        out.extend_from_slice(b", no steps")
    } else if first == 1 {
        out.extend_from_slice(b", ")?;
        push_count(out, last, b"step")
    } else {
        push_parts(
            out,
            &[
                Part::Text(b", steps "),
                Part::Number(first),
                Part::Text(b" to "),
                Part::Number(last),
            ],
        )
    }
}

/// How many services survive behind the last step, and how many are lost.
pub fn tally_of(alloc: Global, story: &Story) -> Result<Vec<u8>, AllocError> {
    let (survive, lost) = counts_of(story);
    let mut out = Vec::new(alloc);
    let pushed = push_tally(&mut out, survive, lost);
    whole(out, pushed)
}

/// How many services survive, and how many are lost.
fn counts_of(story: &Story) -> (u64, u64) {
    let mut survive = 0u64;
    let mut lost = 0u64;
    for row in story.rows() {
        if is_service(row) {
            if story.survives(row) {
                survive = survive.saturating_add(1);
            } else {
                lost = lost.saturating_add(1);
            }
        }
    }
    (survive, lost)
}

/// Whether a shard served a request by this row.
fn is_service(row: &TracedStep) -> bool {
    match &row.note {
        Some(Note::Act(act)) => matches!(act.what, What::Served(_)),
        _ => false,
    }
}

fn push_tally(out: &mut Vec<u8>, survive: u64, lost: u64) -> Result<(), AllocError> {
    push_count(out, survive, b"service")?;
    let between: &[u8] = if survive == 1 {
        b" survives, "
    } else {
        b" survive, "
    };
    let end: &[u8] = if lost == 1 { b" is lost" } else { b" are lost" };
    push_parts(
        out,
        &[Part::Text(between), Part::Number(lost), Part::Text(end)],
    )
}

/// The trace's line of a step that was refused, without the number, which stands before the columns.
pub fn refused_text(alloc: Global, refused: Refused) -> Result<Vec<u8>, AllocError> {
    let line = refused_line(alloc, refused)?;
    let text = text_behind_space(alloc, &line);
    drop(line);
    text
}

/// The trace's line of the step.
fn refused_line(alloc: Global, refused: Refused) -> Result<Vec<u8>, AllocError> {
    let mut entries = Vec::new(alloc);
    match entries.push(Traced::Refused(refused)) {
        Ok(()) => {
            let line = words_of(alloc, &entries, Choice::ALL);
            drop(entries);
            line
        }
        Err(failed) => {
            drop(failed);
            drop(entries);
            Err(AllocError)
        }
    }
}

/// What stands behind the first space, on one line.
fn text_behind_space(alloc: Global, line: &[u8]) -> Result<Vec<u8>, AllocError> {
    let mut text = Vec::new(alloc);
    let pushed = push_behind_space(&mut text, line);
    whole(text, pushed)
}

fn push_behind_space(text: &mut Vec<u8>, line: &[u8]) -> Result<(), AllocError> {
    let mut is_behind = false;
    for character in line {
        if is_behind && *character != b'\n' {
            text.push(*character)?;
        }
        is_behind = is_behind || *character == b' ';
    }
    Ok(())
}
