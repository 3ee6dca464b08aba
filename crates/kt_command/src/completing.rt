//! A scenario of steps that was cut short, completed over a store in memory.
//! Cited by request.rt.
ghost use Rattle.std.specs.Prelude.{◌≡◌};
ghost use Rattle.kt_command.specs.Completed.{EndsCompleted};

use crate::explainer::Explainer;
use crate::status::{DONE, end_replay};
use kt_complete::complete_returning_store;
use kt_scene::{Sink, Source, Start};
use kt_store::{MemStore, memory_may_go};
use std::alloc::Global;
use std::io::{Read, Write};

/// Makes the steps of a scenario over a fresh store in memory, goes on by the policy until no node has a next step, and
/// writes the journal of all of them.
pub(crate) fn complete_in_memory<R: Read, W: Write, E: Write>(
    alloc: Global,
    reader: &mut Source<R>,
    writer: &mut Sink<W>,
    errors: &mut E,
    explainer: &mut Explainer,
) -> u8
    ensures told { EndsCompleted reader.old reader.new writer.old writer.new result }
    ensures done_without_a_word { result ≡ DONE → errors.new ≡ errors.old }
{
    let store = MemStore::new(alloc);
    memory_may_go();
    let (answer, left) = complete_returning_store(
        alloc,
        Start::Open,
        reader,
        writer,
        store,
        explainer,
    );
    drop(left);
    explainer.explain_replay(alloc, answer);
    end_replay(answer, errors)
}
