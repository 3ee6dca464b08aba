//! From the bytes of a scenario to the bytes that tell of its run.
//! Cited by other crates.

ghost use Rattle.std.specs.Prelude.{◌≡◌, Err, IfErr, IfOk, IsTrue, None, OnOk, Some};
ghost use Rattle.kt_scene.specs.declared.fault.ReplayFault.TheVariants as text_faults;
ghost use Rattle.kt_scene.specs.Journal.{WritesJournal, WritesJournalFront};
ghost use Rattle.kt_core.specs.Store.{AreLater, IsLeftSome, store_value};
ghost use Rattle.kt_scene.specs.Stream.{IsReportFault, UnlessWrite};
ghost use Rattle.kt_run.specs.Run.{IsRun, IsRunFault, IsRunOf, IsRunTextFault, IsTextFault, UnlessFront, Writes};
ghost use Rattle.kt_run.specs.Run.{WritesFront, WritesRun, WritesRunFront};

use crate::fault::RunTextFault;
use kt_scene::{
    Nobody, Observer, ReplayFault, Scenario, Sink, Source, Start, WorkKind, read_scene, read_text,
    write_journal, write_report,
};
use kt_stage::{Gate, Journal, run_threads_returning_left};
use kt_store::CkptStore;
use std::alloc::{AllocError, Global};
use std::io::{Read, Write};
use std::sync::Wait;
use std::thread::Threads;

/// What is written of a run.
#[derive(Clone, Copy, Debug, PartialEq, Eq)]
pub enum Output {
    /// The report of the world at the end of the run.
    Report,
    /// The report with `# ` before each line, and then the scenario whose steps are those of the run.
    Journal,
}

/// Reads a scenario of fault lines, runs it by a thread for each node over the store, and writes the report of the
/// world then, or the journal. It reads all, then runs, then writes; so a fault other than `Text(Write)` leaves nothing
/// written. What was read before a fault is gone from the reader. It may wait for its threads and the gate.
///
/// The store is dropped, so its clauses speak of some store of its kind in place of the one that was left. Of a kind
/// that is not always honest `run_text_returning_store` says more.
pub fn run_text<T, R, W, S, G>(
    rt: &T,
    alloc: Global,
    reader: &mut Source<R>,
    writer: &mut Sink<W>,
    store: S,
    output: Output,
    gate: &G,
) -> Result<(), RunTextFault>
where
    T: Threads + Wait + Sync,
    R: Read,
    W: Write,
    S: CkptStore + Send + Drop,
    G: Gate + Sync,
    ensures written { OnOk result (IsLeftSome (store_value S.CkptStore) (λ left.
        WritesRun Start.Open (store_value S.CkptStore store) left output
        reader.old reader.new writer.old writer.new)) }
    ensures front { result ≡ Err (RunTextFault.Text text_faults.Write)
        → IsLeftSome (store_value S.CkptStore) (λ left.
        WritesRunFront Start.Open (store_value S.CkptStore store) left output
        reader.old reader.new writer.old writer.new) }
    ensures fault { IfErr result (λ fault. IsLeftSome (store_value S.CkptStore) (λ left.
        IsRunTextFault Start.Open (store_value S.CkptStore store) left reader.old reader.new fault)) }
    // Before any fault but the writer's the writer is not called.
    ensures nothing { IfErr result (λ fault. UnlessFront fault (writer.new ≡ writer.old)) }
{
    let (answer, left) = run_text_returning_store(
        rt,
        alloc,
        Start::Open,
        reader,
        writer,
        store,
        output,
        gate,
        &mut Nobody,
    );
    drop(left);
    answer
}

/// As `run_text`, over a world that begins so: opened, or resumed. It gives the store back. `run_text` drops it, so its
/// clauses can name no store that a caller sees; these speak of the one that is given back
/// (docs/DECISIONS.md#the-report). The observer is told of what is met on the way, before anything is written.
pub fn run_text_returning_store<T, R, W, S, G, O>(
    rt: &T,
    alloc: Global,
    start: Start,
    reader: &mut Source<R>,
    writer: &mut Sink<W>,
    store: S,
    output: Output,
    gate: &G,
    observer: &mut O,
) -> (Result<(), RunTextFault>, S)
where
    T: Threads + Wait + Sync,
    R: Read,
    W: Write,
    S: CkptStore + Send + Drop,
    G: Gate + Sync,
    O: Observer,
    ensures written { OnOk result.0 (WritesRun start (store_value S.CkptStore store) (store_value S.CkptStore result.1)
        output reader.old reader.new writer.old writer.new) }
    ensures front { result.0 ≡ Err (RunTextFault.Text text_faults.Write)
        → WritesRunFront start (store_value S.CkptStore store) (store_value S.CkptStore result.1)
        output reader.old reader.new writer.old writer.new }
    ensures fault { IfErr result.0
        (IsRunTextFault start (store_value S.CkptStore store) (store_value S.CkptStore result.1)
        reader.old reader.new) }
    // Before any fault but the writer's the writer is not called.
    ensures nothing { IfErr result.0 (λ fault. UnlessFront fault (writer.new ≡ writer.old)) }
{
    match run_read(rt, alloc, start, reader, store, gate, observer) {
        Ok(journal) => {
            let (answer, left) = write_run(alloc, journal, writer, output);
            match answer {
                Ok(()) => (Ok(()), left),
                Err(fault) => (Err(RunTextFault::Text(fault)), left),
            }
        }
        Err((fault, left)) => (Err(fault), left),
    }
}

/// Reads a scenario of fault lines and runs it: the journal then.
fn run_read<T, R, S, G, O>(
    rt: &T,
    alloc: Global,
    start: Start,
    reader: &mut Source<R>,
    store: S,
    gate: &G,
    observer: &mut O,
) -> Result<Journal<S>, (RunTextFault, S)>
where
    T: Threads + Wait + Sync,
    R: Read,
    S: CkptStore + Send + Drop,
    G: Gate + Sync,
    O: Observer,
    ensures run { IfOk result (λ j. IsRun start reader.old reader.new j.world.is_honest (S.content store) j.steps
        j.world.state) }
    ensures later { IfOk result (λ j. AreLater (S.counts store) j.world.counts) }
    ensures fault { IfErr result (λ e.
        IsRunFault start (store_value S.CkptStore store) (store_value S.CkptStore e.1) reader.old reader.new e.0) }
{
    match read_text(alloc, reader) {
        Ok(text) => run_told(rt, alloc, start, &text, store, gate, observer),
        Err(fault) => Err((RunTextFault::Text(fault), store)),
    }
}

/// Runs the scenario that the text spells, and gives the journal; with a fault comes the store as it was left.
fn run_told<T, S, G, O>(
    rt: &T,
    alloc: Global,
    start: Start,
    text: &[u8],
    store: S,
    gate: &G,
    observer: &mut O,
) -> Result<Journal<S>, (RunTextFault, S)>
where
    T: Threads + Wait + Sync,
    S: CkptStore + Send + Drop,
    G: Gate + Sync,
    O: Observer,
    ensures run { IfOk result (λ j. IsRunOf start text.now j.world.is_honest (S.content store) j.steps
        j.world.state) }
    ensures later { IfOk result (λ j. AreLater (S.counts store) j.world.counts) }
    ensures fault { IfErr result (λ e.
        IsTextFault start (store_value S.CkptStore store) (store_value S.CkptStore e.1) text.now e.0) }
{
    let Scenario { scene, work } = match read_scene(alloc, text, WorkKind::Faults) {
        Ok(scenario) => scenario,
        Err(fault) => {
            observer.misread(alloc, text, WorkKind::Faults, fault);
            return Err((RunTextFault::from(fault), store));
        }
    };
    // The work is of the kind that was asked for.
    let faults = work.into_faults().unwrap();
    match run_threads_returning_left(rt, alloc, start, scene, faults, store, gate) {
        Ok(journal) => {
            observer.ended(alloc, text, journal.world(), journal.steps());
            Ok(journal)
        }
        Err((fault, left)) => Err((RunTextFault::from(fault), left.into_store())),
    }
}

/// Writes what is asked for of the run: the store as it is left then.
fn write_run<W: Write, S: CkptStore + Drop>(
    alloc: Global,
    journal: Journal<S>,
    writer: &mut Sink<W>,
    output: Output,
) -> (Result<(), ReplayFault>, S)
    ensures honest { IsTrue (S.is_honest result.1) → IsTrue journal.world.is_honest }
    ensures content { IsTrue (S.is_honest result.1) → S.content result.1 ≡ journal.world.state.content }
    ensures written { OnOk result.0
        (Writes output (S.is_honest result.1) journal.world.state journal.steps writer.old writer.new) }
    ensures front { result.0 ≡ Err ReplayFault.Write
        → WritesFront output (S.is_honest result.1) journal.world.state journal.steps writer.old writer.new }
    ensures nothing { IfErr result.0 (λ fault. UnlessWrite fault (writer.new ≡ writer.old)) }
    ensures counts { OnOk result.0 (S.counts result.1 ≡ journal.world.counts) }
    ensures only { IfErr result.0
        (IsReportFault journal.world.counts (S.counts result.1) (S.is_honest result.1)) }
{
    match output {
        Output::Report => {
            let mut world = journal.into_world();
            let answer = write_report(alloc, &mut world, writer);
            (answer, world.into_store())
        }
        Output::Journal => write_steps(alloc, journal, writer),
    }
}

/// Writes the journal. The steps are copied first, since the world is taken out of the journal to be reported on.
fn write_steps<W: Write, S: CkptStore + Drop>(
    alloc: Global,
    journal: Journal<S>,
    writer: &mut Sink<W>,
) -> (Result<(), ReplayFault>, S)
    ensures honest { IsTrue (S.is_honest result.1) → IsTrue journal.world.is_honest }
    ensures content { IsTrue (S.is_honest result.1) → S.content result.1 ≡ journal.world.state.content }
    ensures written { OnOk result.0
        (WritesJournal (S.is_honest result.1) journal.world.state journal.steps writer.old writer.new) }
    ensures front { result.0 ≡ Err ReplayFault.Write
        → WritesJournalFront (S.is_honest result.1) journal.world.state journal.steps writer.old writer.new }
    ensures nothing { IfErr result.0 (λ fault. UnlessWrite fault (writer.new ≡ writer.old)) }
    ensures counts { OnOk result.0 (S.counts result.1 ≡ journal.world.counts) }
    ensures only { IfErr result.0
        (IsReportFault journal.world.counts (S.counts result.1) (S.is_honest result.1)) }
{
    let steps = match Vec::from_slice(alloc, journal.steps()) {
        Ok(steps) => steps,
        Err(AllocError) => return (Err(ReplayFault::Memory), journal.into_world().into_store()),
    };
    let mut world = journal.into_world();
    let answer = write_journal(alloc, &mut world, &steps, writer);
    (answer, world.into_store())
}
