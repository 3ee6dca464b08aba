//! From the bytes of a scenario of fault lines to the bytes of the tally of its runs.
//! Cited by other crates.

ghost use Rattle.std.specs.Prelude.{◌≡◌, All, length, Err, IfErr, IfOk, OnOk};
ghost use Rattle.kt_scene.specs.declared.fault.ReplayFault.TheVariants as text_faults;
ghost use Rattle.kt_run.specs.Run.{UnlessFront};
ghost use Rattle.kt_trials.specs.Runs.{IsOneFault, IsRunReport, IsTallyFault, WritesTally, WritesTallyFront};
ghost use Rattle.kt_trials.specs.Tally.{tally_text};
ghost use Rattle.kt_trials.specs.auxiliary.Telling.{IsTally, IsTextStop, IsUnwritten, items_of};

use crate::memory::told;
use crate::tally::tally_of;
use kt_core::Start;
use kt_run::{Output, RunTextFault, run_text_returning_store};
use kt_scene::{Observer, ReplayFault, Sink, Source, read_text, write_text};
use kt_stage::Gate;
use kt_store::{MemStore, memory_may_go};
use std::alloc::Global;
use std::io::{Read, Write};
use std::sync::Wait;
use std::thread::Threads;

/// The most times that a scenario is to be run: all reports are kept until the last run has ended. Who reads how often,
/// judges it; `run_times` makes as many runs as it is told.
pub const MAX_TIMES: u32 = 10_000;

/// Reads a scenario of fault lines once, runs it so many times, each time by a thread for each node over a fresh store
/// in memory, and writes the tally of the reports: for each different one, in the order in which it first came, a line
/// `# K of N runs`, and then its lines. It reads all, then makes all runs, then writes; so a fault other than
/// `Text(Write)` leaves nothing written. The first run that ends with a fault ends all. It may wait for its threads and
/// the gate. The observer is told of each run as by `run_text_returning_store`.
pub fn run_times<T, R, W, G, O>(
    rt: &T,
    alloc: Global,
    reader: &mut Source<R>,
    writer: &mut Sink<W>,
    times: u32,
    gate: &G,
    observer: &mut O,
) -> Result<(), RunTextFault>
where
    T: Threads + Wait + Sync,
    R: Read,
    W: Write,
    G: Gate + Sync,
    O: Observer,
    ensures written { OnOk result (WritesTally times reader.old reader.new writer.old writer.new) }
    ensures front { result ≡ Err (RunTextFault.Text text_faults.Write)
        → WritesTallyFront times reader.old reader.new writer.old writer.new }
    ensures fault { IfErr result (IsTallyFault times reader.old reader.new) }
    // Before any fault but the writer's the writer is not called.
    ensures nothing { IfErr result (λ fault. UnlessFront fault (writer.new ≡ writer.old)) }
{
    match tally_read(rt, alloc, reader, times, gate, observer) {
        Ok(tally) => match write_text(writer, &tally) {
            Ok(()) => Ok(()),
            Err(fault) => Err(RunTextFault::Text(fault)),
        },
        Err(fault) => Err(fault),
    }
}

/// The tally of the runs of the scenario that is read.
fn tally_read<T, R, G, O>(
    rt: &T,
    alloc: Global,
    reader: &mut Source<R>,
    times: u32,
    gate: &G,
    observer: &mut O,
) -> Result<Vec<u8>, RunTextFault>
where
    T: Threads + Wait + Sync,
    R: Read,
    G: Gate + Sync,
    O: Observer,
    ensures tally { IfOk result (λ tally. IsTally times reader.old reader.new tally.items) }
    ensures fault { IfErr result (IsUnwritten reader.old reader.new) }
{
    let text = match read_text(alloc, reader) {
        Ok(text) => text,
        Err(fault) => return Err(RunTextFault::Text(fault)),
    };
    let reports = match reports_of(rt, alloc, &text, times, gate, observer) {
        Ok(reports) => reports,
        Err(fault) => return Err(fault),
    };
    match tally_of(alloc, &reports) {
        Ok(tally) => Ok(tally),
        Err(_) => Err(RunTextFault::Text(ReplayFault::Memory)),
    }
}

/// The reports of so many runs of the scenario that the text spells, in the order of the runs.
fn reports_of<T, G, O>(
    rt: &T,
    alloc: Global,
    text: &[u8],
    times: u32,
    gate: &G,
    observer: &mut O,
) -> Result<Vec<Vec<u8>>, RunTextFault>
where
    T: Threads + Wait + Sync,
    G: Gate + Sync,
    O: Observer,
    ensures each { IfOk result (λ reports. All (IsRunReport text.now) (items_of reports.items)) }
    ensures count { IfOk result (λ reports. length (items_of reports.items) ≡ times) }
    ensures fault { IfErr result (IsTextStop text.now) }
{
    let mut reports = Vec::new(alloc);
    for _ in 0..times {
        let report = match run_once(rt, alloc, text, gate, observer) {
            Ok(report) => report,
            Err(fault) => return Err(fault),
        };
        if reports.push(report).is_err() {
            return Err(RunTextFault::Text(ReplayFault::Memory));
        }
    }
    Ok(reports)
}

/// The report of one run of the scenario that the text spells, over a fresh store.
fn run_once<T, G, O>(
    rt: &T,
    alloc: Global,
    text: &[u8],
    gate: &G,
    observer: &mut O,
) -> Result<Vec<u8>, RunTextFault>
where
    T: Threads + Wait + Sync,
    G: Gate + Sync,
    O: Observer,
    ensures report { IfOk result (λ report. IsRunReport text.now report.items) }
    ensures fault { IfErr result (IsOneFault text.now) }
{
    let store = MemStore::new(alloc);
    memory_may_go();
    let mut reader = Source::new(text);
    let mut writer = Sink::new(Vec::new(alloc));
    let (answer, left) = run_text_returning_store(
        rt,
        alloc,
        Start::Open,
        &mut reader,
        &mut writer,
        store,
        Output::Report,
        gate,
        observer,
    );
    drop(left);
    match answer {
        Ok(()) => Ok(writer.into_inner()),
        Err(fault) => Err(told(fault)),
    }
}
