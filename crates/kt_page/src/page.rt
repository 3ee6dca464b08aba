//! The whole page.
//! Cited by other crates.

ghost use Rattle.std.specs.Prelude.{◌≡◌, ◌++◌, IfOk, OnOk};
ghost use Rattle.kt_model.specs.Reached.{opening};
ghost use Rattle.kt_story.specs.Story.{IsStoryOf};
ghost use Rattle.kt_draw.specs.Rows.{HasRows};
ghost use Rattle.kt_page.specs.Head.{page_head};

use crate::fate::Fates;
use crate::json::push_changes;
use crate::list::{push_controls, push_list};
use crate::look::LOOK;
use crate::parts::{Part, push_parts};
use crate::script::SCRIPT;
use crate::table::push_tables;
use crate::watch::{Watched, watch};
use kt_cells::add_text;
use kt_core::{Scene, Step};
use kt_draw::{Form, picture_of, tally_of, title_of};
use kt_story::Story;
use std::alloc::{AllocError, Global};
use std::mem;

/// A drawing, and the story that it is of.
#[derive(Debug, Drop)]
pub struct Drawn {
    /// What happened.
    pub story: Story,
    /// The drawing as text.
    pub text: Vec<u8>,
}

/// The page of the scene and these steps, up to the first that is refused, as HTML. Those from the step of this number
/// on are shown; steps are counted from 1. It stands by itself: nothing is fetched. `AllocError` where memory is
/// wanting.
pub fn page_of(alloc: Global, scene: Scene, steps: &[Step], first: u64) -> Result<Drawn, AllocError>
    ensures story { IfOk result (λ drawn. IsStoryOf (opening scene) steps.now drawn.story) }
    ensures rows { IfOk result (λ drawn.
        HasRows page_head drawn.story first drawn.text.items) }
{
    let watched = watch(alloc, scene, steps, first)?;
    match page(alloc, &watched, first) {
        Ok(text) => {
            let Watched {
                story,
                cells,
                changes,
            } = watched;
            drop(cells);
            drop(changes);
            Ok(Drawn { story, text })
        }
        Err(error) => {
            drop(watched);
            Err(error)
        }
    }
}

/// The page of what was watched.
fn page(alloc: Global, watched: &Watched, first: u64) -> Result<Vec<u8>, AllocError>
    ensures { IfOk result (λ text.
        HasRows page_head watched.now.story first text.items) }
{
    let mut front = Vec::new(alloc);
    let mut rest = Vec::new(alloc);
    let text = page_with(alloc, watched, first, &mut front, &mut rest);
    drop(front);
    drop(rest);
    text
}

/// The same, with room for what stands before the picture and for what stands behind it.
fn page_with(
    alloc: Global,
    watched: &Watched,
    first: u64,
    front: &mut Vec<u8>,
    rest: &mut Vec<u8>,
) -> Result<Vec<u8>, AllocError>
    ensures { IfOk result (λ text.
        HasRows page_head watched.now.story first text.items) }
{
    let story = &watched.story;
    let count = story.rows().len() as u64;
    let shown = first.max(1).min(count.saturating_add(1));
    push_front(alloc, front, story, shown)?;
    push_rest(alloc, rest, watched, shown)?;
    let picture = picture_of(alloc, story, first, Form::InPage)?;
    let text = joined(alloc, front, &picture, rest);
    drop(picture);
    text
}

/// The page's first line, what stands before the picture, the picture, and what stands behind it.
fn joined(alloc: Global, front: &[u8], picture: &[u8], rest: &[u8]) -> Result<Vec<u8>, AllocError>
    ensures { IfOk result (λ text. text.items ≡ ((page_head ++ front.now) ++ picture.now) ++ rest.now) }
{
    let mut text = Vec::new(alloc);
    match push_joined(&mut text, front, picture, rest) {
        Ok(()) => Ok(text),
        Err(error) => {
            drop(text);
            Err(error)
        }
    }
}

/// Puts the same behind the text.
fn push_joined(
    out: &mut Vec<u8>,
    front: &[u8],
    picture: &[u8],
    rest: &[u8],
) -> Result<(), AllocError>
    ensures { OnOk result
        (out.new.items ≡ (((out.old.items ++ page_head) ++ front.now) ++ picture.now) ++ rest.now) }
{
    out.extend_from_slice(b"<!DOCTYPE html>\n")?;
    out.extend_from_slice(front)?;
    out.extend_from_slice(picture)?;
    out.extend_from_slice(rest)?;
    Ok(())
}

/// What stands between the page's first line and the picture.
fn push_front(
    alloc: Global,
    out: &mut Vec<u8>,
    story: &Story,
    first: u64,
) -> Result<(), AllocError> {
    push_top(alloc, out, story, first)?;
    push_controls(out, story, first)?;
    let parts = [
        Part::Text(b"<main>\n<div class=\"two\">\n<section aria-labelledby=\"seen\">"),
        Part::Text(b"<h2 id=\"seen\">Picture, with what survives after the last step</h2>\n"),
        Part::Text(b"<div class=\"scroll\" id=\"frame\" tabindex=\"0\" "),
        Part::Text(b"role=\"region\" aria-labelledby=\"seen\">"),
    ];
    push_parts(out, &parts)
}

/// What stands behind the picture: the tables, the list, and the script with its data.
fn push_rest(
    alloc: Global,
    out: &mut Vec<u8>,
    watched: &Watched,
    first: u64,
) -> Result<(), AllocError> {
    let fates = Fates::of(alloc, &watched.story)?;
    let pushed = push_behind(alloc, out, watched, &fates, first);
    drop(fates);
    pushed
}

/// The same, where it is known what became of services.
fn push_behind(
    alloc: Global,
    out: &mut Vec<u8>,
    watched: &Watched,
    fates: &Fates,
    first: u64,
) -> Result<(), AllocError> {
    push_state(alloc, out, watched, fates)?;
    push_list(alloc, out, &watched.story, first)?;
    push_script(alloc, out, watched, fates, first)
}

/// The head of the page, its title and what it says of the whole.
fn push_top(alloc: Global, out: &mut Vec<u8>, story: &Story, first: u64) -> Result<(), AllocError> {
    let title = title_of(alloc, story, first)?;
    push_head(out, &title)?;
    let tally = tally_of(alloc, story)?;
    push_header(out, &title, &tally)
}

/// The head of the page.
fn push_head(out: &mut Vec<u8>, title: &[u8]) -> Result<(), AllocError> {
    let parts = [
        Part::Text(b"<html lang=\"en\">\n<head>\n<meta charset=\"utf-8\">\n"),
        Part::Text(b"<meta name=\"viewport\" content=\"width=device-width,initial-scale=1\">\n"),
        Part::Text(b"<title>linda_kt: "),
        Part::Text(title),
        Part::Text(b"</title>\n<style>\n"),
        Part::Each(b"", LOOK, b"\n"),
        Part::Text(b"</style>\n</head>\n"),
    ];
    push_parts(out, &parts)
}

/// The begin of the page's body, with its header.
fn push_header<'a>(out: &mut Vec<u8>, title: &'a [u8], tally: &'a [u8]) -> Result<(), AllocError> {
    let parts = [
        Part::Text(b"<body>\n<header>\n"),
        Part::Text(b"<a class=\"skip\" href=\"#list\">To the list of steps</a>\n<h1>"),
        Part::Text(title),
        Part::Text(b"</h1>\n<p>"),
        Part::Text(tally),
        Part::Text(b". Keys: left and right for a step, "),
        Part::Text(b"home and end for the first and the last.</p>\n</header>\n"),
    ];
    push_parts(out, &parts)
}

/// The tables of the state behind the last step.
fn push_state(
    alloc: Global,
    out: &mut Vec<u8>,
    watched: &Watched,
    fates: &Fates,
) -> Result<(), AllocError> {
    let cells = all_cells(alloc, watched, fates)?;
    let pushed = push_cells(out, watched.story.world().scene(), fates, &cells);
    drop(cells);
    pushed
}

/// The same, of the scene and what all cells show.
fn push_cells(
    out: &mut Vec<u8>,
    scene: &Scene,
    fates: &Fates,
    cells: &[Vec<Vec<u8>>],
) -> Result<(), AllocError> {
    let parts = [
        Part::Text(b"</div></section>\n<section class=\"state\" tabindex=\"0\" "),
        Part::Text(b"aria-labelledby=\"state\"><h2 id=\"state\">State after the step</h2>\n"),
    ];
    push_parts(out, &parts)?;
    push_tables(out, scene, fates, cells)?;
    out.extend_from_slice(b"</section>\n</div>\n")
}

/// What all cells show behind the last step.
fn all_cells(
    alloc: Global,
    watched: &Watched,
    fates: &Fates,
) -> Result<Vec<Vec<Vec<u8>>>, AllocError> {
    let mut cells = Vec::new(alloc);
    match push_all_cells(alloc, &mut cells, watched, fates) {
        Ok(()) => Ok(cells),
        Err(error) => {
            drop(cells);
            Err(error)
        }
    }
}

fn push_all_cells(
    alloc: Global,
    cells: &mut Vec<Vec<Vec<u8>>>,
    watched: &Watched,
    fates: &Fates,
) -> Result<(), AllocError> {
    for lines in &watched.cells {
        push_copy(alloc, cells, lines)?;
    }
    fates.push_cells(alloc, cells, watched.story.rows().len() as u64)
}

/// Puts a copy of the lines behind the other cells.
fn push_copy(
    alloc: Global,
    cells: &mut Vec<Vec<Vec<u8>>>,
    lines: &[Vec<u8>],
) -> Result<(), AllocError> {
    let copy = copy_of(alloc, lines)?;
    cells.push(copy)?;
    Ok(())
}

fn copy_of(alloc: Global, lines: &[Vec<u8>]) -> Result<Vec<Vec<u8>>, AllocError> {
    let mut copy = Vec::new(alloc);
    for line in lines {
        add_text(alloc, &mut copy, line)?;
    }
    Ok(copy)
}

/// What changes from step to step, as JSON, and the script that shows it.
fn push_script(
    alloc: Global,
    out: &mut Vec<u8>,
    watched: &Watched,
    fates: &Fates,
    first: u64,
) -> Result<(), AllocError> {
    out.extend_from_slice(b"</main>\n<script type=\"application/json\" id=\"changes\">[\n")?;
    push_steps(alloc, out, watched, fates, first.saturating_sub(1))?;
    let parts = [
        Part::Text(b"\n]</script>\n<script>\n"),
        Part::Each(b"", SCRIPT, b"\n"),
        Part::Text(b"</script>\n</body>\n</html>\n"),
    ];
    push_parts(out, &parts)
}

/// What changes from the step of this number on, by each step.
fn push_steps(
    alloc: Global,
    out: &mut Vec<u8>,
    watched: &Watched,
    fates: &Fates,
    before: u64,
) -> Result<(), AllocError> {
    let mut old = Vec::new(alloc);
    let pushed = push_steps_from(alloc, out, watched, fates, before, &mut old);
    drop(old);
    pushed
}

/// The same, from these cells of services and verdicts on.
fn push_steps_from(
    alloc: Global,
    out: &mut Vec<u8>,
    watched: &Watched,
    fates: &Fates,
    before: u64,
    old: &mut Vec<Vec<Vec<u8>>>,
) -> Result<(), AllocError> {
    let mut at = before;
    let mut begin: &[u8] = b"[";
    for change in &watched.changes {
        out.extend_from_slice(begin)?;
        let new = fates.cells(alloc, at)?;
        let pushed = push_step(alloc, out, change, watched.cells.len(), old, &new);
        drop(mem::replace(old, new));
        pushed?;
        begin = b",\n[";
        at = at.saturating_add(1);
    }
    Ok(())
}

/// What changes by a step, behind its bracket: of nodes and links as it is given, and of the cells behind theirs.
fn push_step(
    alloc: Global,
    out: &mut Vec<u8>,
    change: &[u8],
    number: usize,
    old: &[Vec<Vec<u8>>],
    new: &[Vec<Vec<u8>>],
) -> Result<(), AllocError> {
    let mut line = Vec::from_slice(alloc, change)?;
    push_changes(&mut line, number, old, new)?;
    push_parts(out, &[Part::Text(&line), Part::Text(b"]")])
}
