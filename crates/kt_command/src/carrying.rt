//! How the store in a file is carried over by the journal that made it.
//! Cited by request.rt.
ghost use Rattle.std.specs.Prelude.{◌≡◌};
ghost use Rattle.kt_command.specs.Carried.{EndsCarried, EndsCarrying};

use crate::carries::Carries;
use crate::explainer::Explainer;
use crate::request::refuse_store;
use crate::status::{DONE, end_replay};
use kt_scene::{Sink, Source, report_returning_store, write_text};
use kt_store::MemStore;
use std::alloc::Global;
use std::fmt::Display;
use std::io::{Read, Write};

/// Reads a scenario of steps, makes them over a store in memory, and carries the file at the path over where it holds
/// just what that store holds, in the version before. Then it writes the report. The file is connected to before
/// anything is read, and all memory for the report is taken before the file is changed.
pub fn carry_over<C: Drop, F: Display + Drop, O: Carries<C, F>, R: Read, W: Write, E: Write>(
    carrier: O,
    alloc: Global,
    path: &str,
    reader: &mut Source<R>,
    writer: &mut Sink<W>,
    errors: &mut E,
    explainer: &mut Explainer,
) -> u8
    ensures told { EndsCarried (O.connects carrier) O.carries path.now
        reader.old reader.new writer.old writer.new result }
    ensures done_without_a_word { result ≡ DONE → errors.new ≡ errors.old }
{
    match carrier.connect(path) {
        Ok(connection) => {
            carry_connected::<C, F, O, R, W, E>(
                alloc, connection, path, reader, writer, errors, explainer,
            )
        }
        Err(fault) => {
            explainer.explain_opening(alloc, path, &fault);
            refuse_store(&fault, errors)
        }
    }
}

/// The same over a connection to the file.
fn carry_connected<C: Drop, F: Display + Drop, O: Carries<C, F>, R: Read, W: Write, E: Write>(
    alloc: Global,
    connection: C,
    path: &str,
    reader: &mut Source<R>,
    writer: &mut Sink<W>,
    errors: &mut E,
    explainer: &mut Explainer,
) -> u8
    requires { O.ready connection }
    ensures told { EndsCarrying O.carries connection reader.old reader.new writer.old writer.new result }
    ensures done_without_a_word { result ≡ DONE → errors.new ≡ errors.old }
{
    match report_returning_store(alloc, reader, MemStore::new(alloc), explainer) {
        Ok((report, store)) => match O::carry(alloc, connection, &store) {
            Ok(()) => end_replay(write_text(writer, &report), errors),
            Err(fault) => {
                explainer.explain_opening(alloc, path, &fault);
                refuse_store(&fault, errors)
            }
        },
        Err((fault, _)) => {
            explainer.explain_replay(alloc, Err(fault));
            end_replay(Err(fault), errors)
        }
    }
}
