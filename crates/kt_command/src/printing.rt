//! A text that is made and written, whatever it says.
//! Cited by meaning.rt, request.rt.
ghost use Rattle.std.specs.Prelude.{◌≡◌, IfErr, IfOk};
ghost use Rattle.kt_command.specs.Printed.{EndsWriting};

use crate::status::{DONE, MEMORY, end_replay};
use kt_scene::{Sink, write_text};
use std::alloc::AllocError;
use std::io::Write;

/// Writes the text, or says that there was no memory for it.
pub(crate) fn print_text<W: Write, E: Write>(
    text: Result<Vec<u8>, AllocError>,
    writer: &mut Sink<W>,
    errors: &mut E,
) -> u8
    ensures printed { IfOk text (λ t. EndsWriting t.items writer.old writer.new result) }
    ensures no_memory { IfErr text (λ _. (writer.new ≡ writer.old) × (result ≡ MEMORY)) }
    ensures done_without_a_word { result ≡ DONE → errors.new ≡ errors.old }
{
    match text {
        Ok(text) => end_replay(write_text(writer, &text), errors),
        Err(AllocError) => {
            // A standard error that is closed leaves the status alone to tell.
            let _ = writeln!(errors, "memory");
            MEMORY
        }
    }
}
