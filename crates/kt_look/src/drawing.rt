//! From the bytes of a scenario of steps to the bytes of its picture or of its page.
//! Cited by other crates.

ghost use Rattle.std.specs.Prelude.{◌≡◌, ◌-◌, IfErr, IfOk, length, take};
ghost use Rattle.kt_model.specs.Reached.{opening};
ghost use Rattle.kt_story.specs.Story.{IsStoryOf};
ghost use Rattle.kt_draw.specs.Rows.{HasRows};
ghost use Rattle.kt_look.specs.Drawing.{EndsDrawing, IsDrawn, IsUndrawn, end_by, head_of};
ghost use Rattle.kt_look.specs.auxiliary.Drawn.{EndsDrawn, EndsPutting};

use kt_core::{Scene, Step};
use kt_draw::{Form, MOST_ROWS, picture_of};
use kt_page::{Drawn, page_of};
use kt_scene::{
    Observer, ReplayFault, Scenario, SceneFault, Sink, Source, WorkKind, read_scene, read_text,
    write_text,
};
use kt_story::Story;
use std::alloc::{AllocError, Global};
use std::io::{Read, Write};

/// What is drawn.
#[derive(Clone, Copy, Debug, PartialEq, Eq)]
pub enum Kind {
    /// A picture, as SVG.
    Picture,
    /// A page with the picture, as HTML.
    Page,
}

/// Which steps are drawn, and of which form the drawing is.
#[derive(Clone, Copy, Debug, PartialEq, Eq)]
pub struct Drawing {
    /// Picture or page.
    pub kind: Kind,
    /// The number of the first step that is drawn, counted from 1. Those before it are made.
    pub from: u64,
    /// The number of the last step that is made.
    pub to: u64,
}

/// Why nothing was drawn, or not all.
#[derive(Clone, Copy, Debug, PartialEq, Eq)]
pub enum DrawFault {
    /// So many steps were to be drawn, more than `MOST_ROWS`.
    TooMany { steps: u64 },
    /// The fault of a replay. Where a step was refused what was made until then is drawn.
    Replay(ReplayFault),
}

/// Reads a scenario of steps, makes them over a store in memory, and writes what is asked for. A step that is refused
/// ends it: what was made is drawn with the refusal, and the answer is that of a replay. It reads all, then makes all
/// steps, then writes; so any other fault but `Write` leaves nothing written. The observer is told as by a trace.
pub fn write_drawing<R: Read, W: Write, O: Observer>(
    alloc: Global,
    reader: &mut Source<R>,
    writer: &mut Sink<W>,
    drawing: Drawing,
    observer: &mut O,
) -> Result<(), DrawFault>
    ensures ends { EndsDrawing drawing reader.old reader.new writer.old writer.new result }
{
    match read_text(alloc, reader) {
        Ok(text) => write_drawn(alloc, &text, writer, drawing, observer),
        Err(fault) => Err(DrawFault::Replay(fault)),
    }
}

/// Writes the drawing of the scenario that the text spells.
fn write_drawn<W: Write, O: Observer>(
    alloc: Global,
    text: &[u8],
    writer: &mut Sink<W>,
    drawing: Drawing,
    observer: &mut O,
) -> Result<(), DrawFault>
    ensures { EndsDrawn drawing text.now writer.old writer.new result }
{
    match drawing_of(alloc, text, drawing, observer) {
        Ok(drawn) => {
            let end = put_drawn(writer, &drawn);
            drop(drawn);
            end
        }
        Err(fault) => Err(fault),
    }
}

/// Writes what is drawn, and answers how the steps ended.
fn put_drawn<W: Write>(writer: &mut Sink<W>, drawn: &Drawn) -> Result<(), DrawFault>
    ensures { EndsPutting drawn.now.text.items (end_by drawn.now.story.refused) writer.old writer.new result }
{
    match write_text(writer, &drawn.text) {
        Ok(()) => ending(&drawn.story),
        Err(fault) => Err(DrawFault::Replay(fault)),
    }
}

/// The drawing of the scenario that the text spells.
fn drawing_of<O: Observer>(
    alloc: Global,
    text: &[u8],
    drawing: Drawing,
    observer: &mut O,
) -> Result<Drawn, DrawFault>
    ensures drawn { IfOk result (λ drawn. IsDrawn drawing text.now drawn.text.items (end_by drawn.story.refused)) }
    ensures fault { IfErr result (IsUndrawn drawing text.now) }
{
    match read_scene(alloc, text, WorkKind::Steps) {
        Ok(scenario) => {
            let Scenario { scene, work } = scenario;
            let steps = steps_to(work.steps(), drawing.to);
            let count = drawn_count(steps, drawing.from);
            if count > MOST_ROWS {
                drop(scene);
                drop(work);
                return Err(DrawFault::TooMany { steps: count });
            }
            match draw(alloc, scene, steps, drawing) {
                Ok(drawn) => {
                    tell(alloc, text, steps, &drawn.story, observer);
                    drop(work);
                    Ok(drawn)
                }
                Err(AllocError) => {
                    drop(work);
                    Err(DrawFault::Replay(ReplayFault::Memory))
                }
            }
        }
        Err(fault) => {
            observer.misread(alloc, text, WorkKind::Steps, fault);
            let SceneFault { line, cause } = fault;
            Err(DrawFault::Replay(ReplayFault::Scene { line, cause }))
        }
    }
}

/// The steps up to the one of this number.
fn steps_to(steps: &[Step], to: u64) -> &[Step]
    ensures { result.now ≡ take to steps.now }
{
    let count = to.min(steps.len() as u64);
    let (made, _) = steps.split_at(count as usize);
    made
}

/// How many of the steps are drawn, from the one of this number on.
fn drawn_count(steps: &[Step], from: u64) -> u64
    ensures { result ≡ length steps.now - (from - 1) }
{
    (steps.len() as u64).saturating_sub(from.saturating_sub(1))
}

/// The drawing of these steps, and the story that it is of.
fn draw(alloc: Global, scene: Scene, steps: &[Step], drawing: Drawing) -> Result<Drawn, AllocError>
    ensures story { IfOk result (λ drawn. IsStoryOf (opening scene) steps.now drawn.story) }
    ensures rows { IfOk result (λ drawn.
        HasRows (head_of drawing.kind) drawn.story drawing.from drawn.text.items) }
{
    match drawing.kind {
        Kind::Picture => {
            let story = Story::of(alloc, scene, steps)?;
            match picture_of(alloc, &story, drawing.from, Form::Alone) {
                Ok(text) => Ok(Drawn { story, text }),
                Err(error) => {
                    drop(story);
                    Err(error)
                }
            }
        }
        Kind::Page => page_of(alloc, scene, steps, drawing.from),
    }
}

/// Tells the observer how the steps ended.
fn tell<O: Observer>(alloc: Global, text: &[u8], steps: &[Step], story: &Story, observer: &mut O) {
    let world = story.world();
    match ending(story) {
        Err(DrawFault::Replay(fault)) => observer.stopped(alloc, text, world, steps, fault),
        Err(DrawFault::TooMany { .. }) | Ok(()) => observer.ended(alloc, text, world, steps),
    }
}

/// How the steps ended: by the one that was refused, if one was.
fn ending(story: &Story) -> Result<(), DrawFault>
    ensures { result ≡ end_by story.now.refused }
{
    match story.refused() {
        Some(refused) => Err(DrawFault::Replay(ReplayFault::Step {
            at: refused.number as usize,
            cause: refused.cause,
        })),
        None => Ok(()),
    }
}
