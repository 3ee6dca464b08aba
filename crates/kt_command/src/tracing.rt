//! What happens in a scenario of steps, told over a store in memory.
//! Cited by request.rt.
ghost use Rattle.std.specs.Prelude.{◌≡◌};
ghost use Rattle.kt_command.specs.Traced.{EndsTraced};

use crate::explainer::Explainer;
use crate::status::{DONE, end_replay};
use kt_look::{Form, write_trace};
use kt_scene::{Sink, Source};
use kt_tell::Choice;
use std::alloc::Global;
use std::io::{Read, Write};

/// Makes the steps of a scenario over a fresh store in memory, and writes what is chosen of their trace. A step that is
/// refused ends it: what was before is written with the refusal, and then the fault is told.
pub(crate) fn trace_in_memory<R: Read, W: Write, E: Write>(
    alloc: Global,
    form: Form,
    choice: Choice,
    reader: &mut Source<R>,
    writer: &mut Sink<W>,
    errors: &mut E,
    explainer: &mut Explainer,
) -> u8
    ensures told { EndsTraced form choice reader.old reader.new writer.old writer.new result }
    ensures done_without_a_word { result ≡ DONE → errors.new ≡ errors.old }
{
    let answer = write_trace(alloc, reader, writer, form, choice, explainer);
    explainer.explain_replay(alloc, answer);
    end_replay(answer, errors)
}
