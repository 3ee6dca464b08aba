//! The whole picture, from its root element to the end of that.
//! Cited by head.rt; other crates.

ghost use Rattle.std.specs.Prelude.{◌≡◌, [], IfOk, OnOk, length, min};
ghost use Rattle.kt_draw.specs.Rows.{HasRows, HasRowsOn, picture_head, rows_from};

use crate::band::{push_bands, push_rules};
use crate::element::Point;
use crate::foot::{NOTHING, push_end, push_moved};
use crate::head::{push_head, push_root};
use crate::legend::{ENTRIES, Flow, LINE, Symbol, push_entry};
use crate::life::{Stretch, crossed, mode_before, push_boxes, push_life};
use crate::part::whole;
use crate::plane::Plane;
use crate::row::push_rows;
use crate::sheet::{MARGIN, NODES, Sheet};
use crate::title::refused_text;
use crate::way::push_arrow;
use kt_story::{Arrow, Story, arrows, words_of};
use kt_trace::TracedStep;
use kt_tuple::NodeId;
use std::alloc::{AllocError, Global};

/// All that a picture is drawn of.
#[derive(Drop)]
struct Drawing {
    sheet: Sheet,
    arrows: Vec<Arrow>,
    /// For each node of the sheet what it lost.
    crossed: Vec<(NodeId, Vec<Stretch>)>,
}

/// For what a picture is drawn.
#[derive(Clone, Copy, Debug, PartialEq, Eq)]
pub enum Form {
    /// A file of its own, whose size is in pixels.
    Alone,
    /// A page of HTML. Its width grows with the page's text, and it has two boxes that a script moves: a veil over the
    /// rows of later steps, and a frame round the row of one.
    InPage,
}

/// The most rows that a picture is drawn with: more are a matter of choosing them.
pub const MOST_ROWS: u64 = 1000;

/// The picture of the story from the step of this number on, as SVG: a row for each step, in order. Steps are counted
/// from 1. `AllocError` where memory is wanting.
pub fn picture_of(
    alloc: Global,
    story: &Story,
    first: u64,
    form: Form,
) -> Result<Vec<u8>, AllocError>
    ensures drawn { IfOk result (λ text.
        HasRows (picture_head form) story.now first text.items) }
{
    let rows = rows_from(story, first);
    let first = first.max(1).min(story.rows().len() as u64 + 1);
    let sheet = sheet_of(alloc, story, rows, first)?;
    let drawing = Drawing {
        sheet,
        arrows: arrows(alloc, story)?,
        crossed: all_crossed(alloc, story, sheet)?,
    };
    let text = text_of(alloc, story, rows, &drawing, form)?;
    Ok(text)
}

/// The rows from the step of this number on.
fn rows_from(story: &Story, first: u64) -> &[TracedStep]
    ensures { result.now ≡ rows_from first story.now.rows }
{
    let rows = story.rows();
    let before = first.saturating_sub(1).min(rows.len() as u64);
    let (_, drawn) = rows.split_at(before as usize);
    drawn
}

fn sheet_of(
    alloc: Global,
    story: &Story,
    rows: &[TracedStep],
    first: u64,
) -> Result<Sheet, AllocError>
    ensures first { IfOk result (λ sheet. sheet.first ≡ first) }
    ensures workers { IfOk result (λ sheet. sheet.plane.workers ≡ length story.now.state.scene.scripts) }
    ensures shards { IfOk result (λ sheet. sheet.plane.shards ≡ story.now.state.scene.shards) }
    ensures rows { IfOk result (λ sheet. sheet.plane.rows ≡ min (length rows.now) 4294967295) }
{
    let longest = longest_of(alloc, story, rows)?;
    Ok(Sheet {
        plane: Plane::new(story.workers(), story.shards(), rows.len()),
        first,
        has_end: story.refused().is_some() || rows.is_empty(),
        longest,
    })
}

/// How many characters the longest text of a row has, or of the line below the rows.
fn longest_of(alloc: Global, story: &Story, rows: &[TracedStep]) -> Result<u64, AllocError> {
    let mut longest = end_length(alloc, story, rows)?;
    for row in rows {
        longest = row_length(alloc, story, row)?.max(longest);
    }
    Ok(longest)
}

fn row_length(alloc: Global, story: &Story, row: &TracedStep) -> Result<u64, AllocError> {
    let words = words_of(alloc, story, row)?;
    let length = words.count();
    drop(words);
    Ok(length)
}

/// How many characters stand below the rows, and at least those that are said where there is none.
fn end_length(alloc: Global, story: &Story, rows: &[TracedStep]) -> Result<u64, AllocError> {
    let nothing = if rows.is_empty() {
        NOTHING.len() as u64
    } else {
        0
    };
    match story.refused() {
        Some(refused) => {
            let text = refused_text(alloc, refused)?;
            let length = text.len() as u64;
            drop(text);
            Ok(length.max(nothing))
        }
        None => Ok(nothing),
    }
}

fn all_crossed(
    alloc: Global,
    story: &Story,
    sheet: Sheet,
) -> Result<Vec<(NodeId, Vec<Stretch>)>, AllocError> {
    let mut found = Vec::new(alloc);
    for node in NODES {
        if sheet.has(*node) {
            found.push((*node, crossed(alloc, sheet, story.rows(), *node)?))?;
        }
    }
    Ok(found)
}

/// The entries of the legend that the picture calls for, each with its place, and where the last line stands.
fn legend_of(
    alloc: Global,
    story: &Story,
    rows: &[TracedStep],
    drawing: &Drawing,
) -> Result<(Vec<(Point, Symbol, &'static str)>, u64), AllocError> {
    let top = drawing.sheet.bottom().saturating_add(24);
    let mut flow = Flow::new(top, drawing.sheet.width().saturating_sub(MARGIN));
    let mut found = Vec::new(alloc);
    for (symbol, text) in ENTRIES {
        if is_used(story, rows, drawing, *symbol) {
            let (at, next) = flow.put(*symbol, text.len() as u64);
            found.push((at, *symbol, *text))?;
            flow = next;
        }
    }
    Ok((found, flow.next.y))
}

/// Whether the picture has the symbol.
fn is_used(story: &Story, rows: &[TracedStep], drawing: &Drawing, symbol: Symbol) -> bool {
    let sheet = drawing.sheet;
    match symbol {
        Symbol::Mark(mark) => rows.iter().any(|row| story.mark(row) == mark),
        Symbol::Crossed => drawing.crossed.iter().any(|(_, all)| !all.is_empty()),
        Symbol::Life(mode) => {
            let before = rows_before(story, sheet);
            rows.iter().any(|row| row.is == mode)
                || NODES.iter().any(|node| sheet.has(*node) && mode_before(before, *node) == mode)
        }
        Symbol::Way(_) | Symbol::LostWay | Symbol::OpenWay => drawing
            .arrows
            .iter()
            .any(|arrow| symbol.is_of(sheet, arrow)),
    }
}

/// The rows that are not drawn, since they stand before the first one.
fn rows_before(story: &Story, sheet: Sheet) -> &[TracedStep] {
    let rows = story.rows();
    let (before, _) = rows.split_at((sheet.first as usize).saturating_sub(1).min(rows.len()));
    before
}

/// The picture in the order of drawing: what comes later stands in front.
fn text_of(
    alloc: Global,
    story: &Story,
    rows: &[TracedStep],
    drawing: &Drawing,
    form: Form,
) -> Result<Vec<u8>, AllocError>
    ensures { IfOk result (λ text.
        HasRowsOn (picture_head form) drawing.now.sheet story.now rows.now text.items) }
{
    let (legend, last) = legend_of(alloc, story, rows, drawing)?;
    let text = text_with(
        alloc,
        story,
        rows,
        drawing,
        &legend,
        last.saturating_add(LINE),
        form,
    );
    drop(legend);
    text
}

/// The picture with this legend, so high.
fn text_with(
    alloc: Global,
    story: &Story,
    rows: &[TracedStep],
    drawing: &Drawing,
    legend: &[(Point, Symbol, &'static str)],
    height: u64,
    form: Form,
) -> Result<Vec<u8>, AllocError>
    ensures { IfOk result (λ text.
        HasRowsOn (picture_head form) drawing.now.sheet story.now rows.now text.items) }
{
    let front = before_rows(alloc, story, rows, drawing, height, form)?;
    match behind_rows(alloc, story, drawing, legend, form) {
        Ok(behind) => {
            let text = text_between(alloc, story, rows, drawing.sheet, &front, &behind, form);
            drop(behind);
            drop(front);
            text
        }
        Err(error) => {
            drop(front);
            Err(error)
        }
    }
}

/// The picture with this before and behind its rows.
fn text_between(
    alloc: Global,
    story: &Story,
    rows: &[TracedStep],
    sheet: Sheet,
    front: &[u8],
    behind: &[u8],
    form: Form,
) -> Result<Vec<u8>, AllocError>
    ensures { IfOk result (λ text.
        HasRowsOn (picture_head form) sheet story.now rows.now text.items) }
{
    let mut out = Vec::new(alloc);
    match push_between(alloc, &mut out, story, rows, sheet, front, behind, form) {
        Ok(()) => Ok(out),
        Err(error) => {
            drop(out);
            Err(error)
        }
    }
}

/// Puts that behind an empty text.
fn push_between(
    alloc: Global,
    out: &mut Vec<u8>,
    story: &Story,
    rows: &[TracedStep],
    sheet: Sheet,
    front: &[u8],
    behind: &[u8],
    form: Form,
) -> Result<(), AllocError>
    requires { out.old.items ≡ [] }
    ensures { OnOk result (HasRowsOn (picture_head form) sheet story.now rows.now out.new.items) }
{
    out.extend_from_slice(picture_head(form))?;
    out.extend_from_slice(front)?;
    push_rows(alloc, out, sheet, story, rows)?;
    out.extend_from_slice(behind)?;
    Ok(())
}

/// How the picture begins.
fn picture_head(form: Form) -> &'static [u8]
    ensures { result.now ≡ picture_head form }
{
    match form {
        Form::Alone => b"<svg xmlns=\"http://www.w3.org/2000/svg\"",
        Form::InPage => b"<svg",
    }
}

/// What stands between that and the rows: names, style, title, and the lines of nodes and messages.
fn before_rows(
    alloc: Global,
    story: &Story,
    rows: &[TracedStep],
    drawing: &Drawing,
    height: u64,
    form: Form,
) -> Result<Vec<u8>, AllocError> {
    let mut out = Vec::new(alloc);
    let pushed = push_before(alloc, &mut out, story, rows, drawing, height, form);
    whole(out, pushed)
}

fn push_before(
    alloc: Global,
    out: &mut Vec<u8>,
    story: &Story,
    rows: &[TracedStep],
    drawing: &Drawing,
    height: u64,
    form: Form,
) -> Result<(), AllocError> {
    let sheet = drawing.sheet;
    push_root(out, sheet, height, form)?;
    push_head(alloc, out, story, sheet, height)?;
    push_rules(out, sheet)?;
    push_lives(
        out,
        sheet,
        rows,
        rows_before(story, sheet),
        &drawing.crossed,
    )?;
    push_arrows(out, sheet, &drawing.arrows)?;
    push_bands(out, sheet)
}

/// The boxes of what the nodes lost, and before them their lines, in the modes that `before` leads to and `rows` go on.
fn push_lives(
    out: &mut Vec<u8>,
    sheet: Sheet,
    rows: &[TracedStep],
    before: &[TracedStep],
    crossed: &[(NodeId, Vec<Stretch>)],
) -> Result<(), AllocError> {
    for (node, stretches) in crossed {
        push_boxes(out, sheet, *node, stretches)?;
    }
    for (node, _) in crossed {
        push_life(out, sheet, rows, *node, mode_before(before, *node))?;
    }
    Ok(())
}

fn push_arrows(out: &mut Vec<u8>, sheet: Sheet, arrows: &[Arrow]) -> Result<(), AllocError> {
    for arrow in arrows {
        push_arrow(out, sheet, arrow)?;
    }
    Ok(())
}

/// What stands behind the rows: how they end, what a script moves, and the legend.
fn behind_rows(
    alloc: Global,
    story: &Story,
    drawing: &Drawing,
    legend: &[(Point, Symbol, &'static str)],
    form: Form,
) -> Result<Vec<u8>, AllocError> {
    let mut out = Vec::new(alloc);
    let pushed = push_behind(alloc, &mut out, story, drawing.sheet, legend, form);
    whole(out, pushed)
}

fn push_behind(
    alloc: Global,
    out: &mut Vec<u8>,
    story: &Story,
    sheet: Sheet,
    legend: &[(Point, Symbol, &'static str)],
    form: Form,
) -> Result<(), AllocError> {
    push_end(alloc, out, sheet, story)?;
    match form {
        Form::Alone => {}
        Form::InPage => push_moved(out, sheet)?,
    }
    for (at, symbol, text) in legend {
        push_entry(out, *at, *symbol, text.as_bytes())?;
    }
    out.extend_from_slice(b"</svg>\n")
}
