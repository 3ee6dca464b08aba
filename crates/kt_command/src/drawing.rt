//! A scenario of steps, drawn over a store in memory.
//! Cited by request.rt.
ghost use Rattle.std.specs.Prelude.{◌≡◌, IsOk};
ghost use Rattle.kt_command.specs.Drawn.{EndsDrawn, draw_status};

use crate::explainer::Explainer;
use crate::status::{COMMAND_LINE, DONE, end_replay};
use kt_draw::MOST_ROWS;
use kt_look::{DrawFault, Drawing, write_drawing};
use kt_scene::{Sink, Source};
use std::alloc::Global;
use std::io::{Read, Write};

/// Makes the steps of a scenario over a fresh store in memory, and draws what is chosen of them. A step that is refused
/// ends it: what was before is drawn with the refusal, and then the fault is told.
pub(crate) fn draw_in_memory<R: Read, W: Write, E: Write>(
    alloc: Global,
    drawing: Drawing,
    reader: &mut Source<R>,
    writer: &mut Sink<W>,
    errors: &mut E,
    explainer: &mut Explainer,
) -> u8
    ensures told { EndsDrawn drawing reader.old reader.new writer.old writer.new result }
    ensures done_without_a_word { result ≡ DONE → errors.new ≡ errors.old }
{
    let answer = write_drawing(alloc, reader, writer, drawing, explainer);
    if let Err(DrawFault::Replay(fault)) = answer {
        explainer.explain_replay(alloc, Err(fault));
    }
    end_drawing(answer, errors)
}

/// Says on `errors` in one line why not all was drawn, and answers the status that tells how the drawing ended.
fn end_drawing<E: Write>(answer: Result<(), DrawFault>, errors: &mut E) -> u8
    ensures status { result ≡ draw_status answer }
    ensures quiet { IsOk answer → errors.new ≡ errors.old }
{
    match answer {
        Ok(()) => DONE,
        Err(DrawFault::Replay(fault)) => end_replay::<E>(Err(fault), errors),
        Err(DrawFault::TooMany { steps }) => {
            // A standard error that is closed leaves the status alone to tell.
            let _ = writeln!(
                errors,
                "draw: {steps} steps, and a picture has {MOST_ROWS} at most: choose them by --from and --to"
            );
            COMMAND_LINE
        }
    }
}
