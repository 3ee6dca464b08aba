//! What a number or a name means that the program prints.
//! Cited by request.rt.
ghost use Rattle.std.specs.Prelude.{◌≡◌};
ghost use Rattle.kt_command.specs.Meant.{EndsMeant};

use crate::printing::print_text;
use crate::status::{COMMAND_LINE, DONE};
use kt_explain::meanings_of;
use kt_scene::Sink;
use std::alloc::{AllocError, Global};
use std::io::Write;

/// Writes all that the word means, a line each. A word that the program prints nowhere is a mistake in the words.
pub(crate) fn explain_word<W: Write, E: Write>(
    alloc: Global,
    word: &str,
    writer: &mut Sink<W>,
    errors: &mut E,
) -> u8
    ensures told { EndsMeant writer.old writer.new result }
    ensures done_without_a_word { result ≡ DONE → errors.new ≡ errors.old }
{
    match meanings_of(alloc, word) {
        Ok(text) => {
            if text.is_empty() {
                // A standard error that is closed leaves the status alone to tell.
                let _ = writeln!(
                    errors,
                    "error: nothing that is printed has the number or the name '{word}'"
                );
                COMMAND_LINE
            } else {
                print_text(Ok(text), writer, errors)
            }
        }
        Err(AllocError) => print_text(Err(AllocError), writer, errors),
    }
}
