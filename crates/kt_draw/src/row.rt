//! The rows of a picture: the number of the step, its mark in the node's column, and what is said of it.
//! Cited by foot.rt, legend.rt, picture.rt.

ghost use Rattle.std.specs.Prelude.{◌≡◌, ◌++◌, IfOk, OnOk};
ghost use Rattle.kt_story.specs.Story.{act_is_lost};
ghost use Rattle.kt_draw.specs.Rows.{IsSaid, again_text, classes_of, is_telling, number_text, row_begin, symbol_of};
ghost use Rattle.kt_draw.specs.Rows.{words_text};
ghost use Rattle.kt_draw.specs.auxiliary.Behind.{IsDrawnBehind, IsRowBehind};

use crate::element::{Point, push_label, push_struck, push_use};
use crate::plane::NUMBERS;
use crate::sheet::Sheet;
use kt_story::{Mark, Story, Words, words_of};
use kt_trace::TracedStep;
use kt_tuple::writing::push_number;
use std::alloc::{AllocError, Global};

/// The name of the mark's symbol.
pub(crate) fn symbol_of(mark: Mark) -> &'static [u8]
    ensures { result.now ≡ symbol_of mark }
{
    match mark {
        Mark::Survives => b"kept",
        Mark::Lost => b"lost",
        Mark::Asks => b"ask",
        Mark::Waits => b"wait",
        Mark::Hears => b"got",
        Mark::Holds => b"hold",
        Mark::Drops => b"gone",
        Mark::Reads => b"read",
        Mark::Tentative => b"tent",
        Mark::Permanent => b"perm",
        Mark::GivenUp => b"drop",
        Mark::Yes => b"yes",
        Mark::No => b"no",
        Mark::Fails => b"fail",
        Mark::Restarts => b"restart",
        Mark::Joins => b"join",
        Mark::GoesBack => b"undo",
    }
}

/// Whether the mark says what matters: then it stands beside the words too, and they stand out.
fn is_telling(mark: Mark) -> bool
    ensures { result ≡ is_telling mark }
{
    !matches!(
        mark,
        Mark::Asks | Mark::Waits | Mark::Hears | Mark::Holds | Mark::Drops | Mark::Reads
    )
}

/// The rows, one below the other and in order, each with its number and its mark, and then its text.
pub(crate) fn push_rows(
    alloc: Global,
    out: &mut Vec<u8>,
    sheet: Sheet,
    story: &Story,
    rows: &[TracedStep],
) -> Result<(), AllocError>
    ensures { OnOk result
        (IsDrawnBehind (row_begin sheet story.now.state.history) (IsSaid sheet story.now) rows.now
        out.old.items out.new.items) }
{
    for row in rows {
        push_row(alloc, out, sheet, story, row)?;
    }
    Ok(())
}

/// The begin of the row, and then its text.
fn push_row(
    alloc: Global,
    out: &mut Vec<u8>,
    sheet: Sheet,
    story: &Story,
    row: &TracedStep,
) -> Result<(), AllocError>
    ensures { OnOk result (IsRowBehind (row_begin sheet story.now.state.history row.now)
        (IsSaid sheet story.now row.now) out.old.items out.new.items) }
{
    push_row_begin(out, sheet, story, row)?;
    let text = row_text(alloc, sheet, story, row)?;
    out.extend_from_slice(&text)?;
    Ok(())
}

/// The number of the row's step, and its mark in the column of its node.
fn push_row_begin(
    out: &mut Vec<u8>,
    sheet: Sheet,
    story: &Story,
    row: &TracedStep,
) -> Result<(), AllocError>
    ensures { OnOk result (out.new.items ≡ out.old.items ++ row_begin sheet story.now.state.history row.now) }
{
    let point = sheet.point(row.node, sheet.above(row.number));
    push_step_number(out, row.number, point.y + 4)?;
    push_use(out, symbol_of(story.mark(row)), point)
}

/// The mark once more where it tells, and what is said of the row.
fn row_text(
    alloc: Global,
    sheet: Sheet,
    story: &Story,
    row: &TracedStep,
) -> Result<Vec<u8>, AllocError>
    ensures { IfOk result (λ text. IsSaid sheet story.now row.now text.items) }
{
    let mut out = Vec::new(alloc);
    let Point { y, .. } = sheet.point(row.node, sheet.above(row.number));
    let x = sheet.text_x();
    let mark = story.mark(row);
    let beside = Point {
        x: x.saturating_sub(14),
        y,
    };
    push_again(&mut out, mark, beside)?;
    let words = words_of(alloc, story, row)?;
    let at = Point {
        x,
        y: y.saturating_add(4),
    };
    push_words(&mut out, at, &words, classes_of(story, row, mark))?;
    Ok(out)
}

/// The mark once more, where it tells.
fn push_again(out: &mut Vec<u8>, mark: Mark, at: Point) -> Result<(), AllocError>
    ensures { OnOk result (out.new.items ≡ out.old.items ++ again_text mark at) }
{
    if is_telling(mark) {
        push_use(out, symbol_of(mark), at)
    } else {
        Ok(())
    }
}

/// The number of a step, before the columns.
pub(crate) fn push_step_number(out: &mut Vec<u8>, number: u64, y: u64) -> Result<(), AllocError>
    ensures { OnOk result (out.new.items ≡ out.old.items ++ number_text number y) }
{
    let at = Point { x: NUMBERS - 12, y };
    let alloc = *out.allocator();
    let mut digits = Vec::new(alloc);
    push_number(&mut digits, number)?;
    push_label(out, b"e", at, &digits)
}

/// The classes of a row's words: what matters stands out, and what is undone is struck through.
fn classes_of(story: &Story, row: &TracedStep, mark: Mark) -> &'static [u8]
    ensures { result.now ≡ classes_of (act_is_lost story.now.state.history row.now) (is_telling mark) }
{
    if story.is_lost(row) {
        b"t s"
    } else if is_telling(mark) {
        b"t"
    } else {
        b"q"
    }
}

/// The words of a row. Of a service that is lost the reason is not struck through.
fn push_words(out: &mut Vec<u8>, at: Point, words: &Words, classes: &[u8]) -> Result<(), AllocError>
    ensures { OnOk result (out.new.items ≡ out.old.items
        ++ words_text classes.now at words.now.said.items words.now.reason.items) }
{
    if words.reason.is_empty() {
        push_label(out, classes, at, &words.said)
    } else {
        push_struck(out, at, &words.said, &words.reason)
    }
}
