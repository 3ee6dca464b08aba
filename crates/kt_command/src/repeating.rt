//! A scenario that is run several times, over a store in memory each time.
//! Cited by request.rt.
ghost use Rattle.std.specs.Prelude.{◌≡◌};
ghost use Rattle.kt_command.specs.Repeated.{EndsRepeated};

use crate::explainer::Explainer;
use crate::status::{DONE, end_run};
use kt_scene::{Sink, Source};
use kt_stage::OpenGate;
use kt_trials::run_times;
use std::alloc::Global;
use std::io::{Read, Write};
use std::sync::Wait;
use std::thread::Threads;

/// Runs the scenario so many times, writes the tally of the reports, and answers the exit status. A fault is one line
/// on `errors`, which the explainer explains; behind the tally nothing is explained. It may wait for its threads.
pub(crate) fn repeat_in_memory<T: Threads + Wait + Sync, R: Read, W: Write, E: Write>(
    threads: &T,
    alloc: Global,
    times: u32,
    reader: &mut Source<R>,
    writer: &mut Sink<W>,
    errors: &mut E,
    explainer: &mut Explainer,
) -> u8
    ensures told { EndsRepeated times reader.old reader.new writer.old writer.new result }
    ensures done_without_a_word { result ≡ DONE → errors.new ≡ errors.old }
{
    explainer.explain_faults_alone();
    let answer = run_times(threads, alloc, reader, writer, times, &OpenGate, explainer);
    explainer.explain_run(alloc, answer);
    end_run(answer, errors)
}
