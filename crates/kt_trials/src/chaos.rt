//! From the bytes of a scenario of fault lines to the bytes that tell of its run with random faults.
//! Cited by other crates.

ghost use Rattle.std.specs.Prelude.{◌≡◌, ◌++◌, Err, IfErr, IfOk, OnOk};
ghost use Rattle.std.specs.List.{flat_map};
ghost use Rattle.kt_core.specs.Store.{store_value};
ghost use Rattle.kt_scene.specs.declared.fault.ReplayFault.TheVariants as text_faults;
ghost use Rattle.kt_scene.specs.Journal.{remark};
ghost use Rattle.kt_text.specs.Text.{fault_text, kind_word};
ghost use Rattle.kt_run.specs.Run.{UnlessFront};
ghost use Rattle.kt_trials.specs.Chaos.{IsBehindFault, IsChaosFault, IsUndrawn, WritesBehind, WritesBehindFront};
ghost use Rattle.kt_trials.specs.Chaos.{WritesChaos, WritesChaosFront, remarks_of};
ghost use Rattle.kt_trials.specs.auxiliary.Laying.{HasRemarks, IsLaidOut, IsTextUndrawn, Lays, remark_of};

use crate::memory::told;
use kt_chaos::{Chaos, push_random_faults};
use kt_core::Start;
use kt_run::{Output, RunTextFault, run_text_returning_store};
use kt_scenario::{Fault, FaultKind, FaultLine, Faults, Scene};
use kt_scene::{
    Observer, ReplayFault, Scenario, Sink, Source, Work, WorkKind, read_scene, read_text,
    write_scene, write_text,
};
use kt_stage::Gate;
use kt_store::CkptStore;
use kt_tuple::writing::push_number;
use std::alloc::{AllocError, Global};
use std::io::{Read, Write};
use std::sync::Wait;
use std::thread::Threads;

/// A scenario with random faults.
#[derive(Drop)]
struct Laid {
    /// Its text.
    text: Vec<u8>,
    /// The random faults as remarks.
    remarks: Vec<u8>,
}

/// As `run_text_returning_store`, with random fault lines behind those of the scenario that is read
/// (`push_random_faults`). Before the report or the journal each of them is written as a remark, such as
/// `# fail w1 after 3`, so that it can be kept. All is written at once when the run has ended; so a fault other than
/// `Text(Write)` leaves nothing written.
pub fn run_chaos_returning_store<T, R, W, S, G, O>(
    rt: &T,
    alloc: Global,
    start: Start,
    reader: &mut Source<R>,
    writer: &mut Sink<W>,
    store: S,
    output: Output,
    chaos: Chaos,
    gate: &G,
    observer: &mut O,
) -> (Result<(), RunTextFault>, S)
where
    T: Threads + Wait + Sync,
    R: Read,
    W: Write,
    S: CkptStore + Send + Drop,
    G: Gate + Sync,
    O: Observer,
    ensures written { OnOk result.0 (WritesChaos start (store_value S.CkptStore store)
        (store_value S.CkptStore result.1) output chaos reader.old reader.new writer.old writer.new) }
    ensures front { result.0 ≡ Err (RunTextFault.Text text_faults.Write)
        → WritesChaosFront start (store_value S.CkptStore store) (store_value S.CkptStore result.1)
        output chaos reader.old reader.new writer.old writer.new }
    ensures fault { IfErr result.0 (IsChaosFault start (store_value S.CkptStore store)
        (store_value S.CkptStore result.1) chaos reader.old reader.new) }
    // Before any fault but the writer's the writer is not called.
    ensures nothing { IfErr result.0 (λ fault. UnlessFront fault (writer.new ≡ writer.old)) }
{
    match laid_read(alloc, reader, chaos, observer) {
        Ok(laid) => {
            let Laid { text, remarks } = laid;
            run_laid(
                rt, alloc, start, &text, remarks, writer, store, output, gate, observer,
            )
        }
        Err(fault) => (Err(fault), store),
    }
}

/// Runs what the text spells, and writes what is told of it behind this front.
fn run_laid<T, W, S, G, O>(
    rt: &T,
    alloc: Global,
    start: Start,
    text: &[u8],
    front: Vec<u8>,
    writer: &mut Sink<W>,
    store: S,
    output: Output,
    gate: &G,
    observer: &mut O,
) -> (Result<(), RunTextFault>, S)
where
    T: Threads + Wait + Sync,
    W: Write,
    S: CkptStore + Send + Drop,
    G: Gate + Sync,
    O: Observer,
    ensures written { OnOk result.0 (WritesBehind start (store_value S.CkptStore store)
        (store_value S.CkptStore result.1) output text.now front.items writer.old writer.new) }
    ensures front { result.0 ≡ Err (RunTextFault.Text text_faults.Write)
        → WritesBehindFront start (store_value S.CkptStore store) (store_value S.CkptStore result.1)
        output text.now front.items writer.old writer.new }
    ensures fault { IfErr result.0 (IsBehindFault start (store_value S.CkptStore store)
        (store_value S.CkptStore result.1) text.now) }
    ensures nothing { IfErr result.0 (λ fault. UnlessFront fault (writer.new ≡ writer.old)) }
{
    let mut source = Source::new(text);
    let mut sink = Sink::new(front);
    let (answer, left) = run_text_returning_store(
        rt,
        alloc,
        start,
        &mut source,
        &mut sink,
        store,
        output,
        gate,
        observer,
    );
    match answer {
        Ok(()) => {
            let all = sink.into_inner();
            match write_text(writer, &all) {
                Ok(()) => (Ok(()), left),
                Err(fault) => (Err(RunTextFault::Text(fault)), left),
            }
        }
        Err(fault) => (Err(told(fault)), left),
    }
}

/// The scenario that is read, with random faults.
fn laid_read<R: Read, O: Observer>(
    alloc: Global,
    reader: &mut Source<R>,
    chaos: Chaos,
    observer: &mut O,
) -> Result<Laid, RunTextFault>
    ensures laid { IfOk result (λ l. IsLaidOut chaos reader.old reader.new l.text.items l.remarks.items) }
    ensures fault { IfErr result (IsUndrawn reader.old reader.new) }
{
    match read_text(alloc, reader) {
        Ok(text) => laid_told(alloc, &text, chaos, observer),
        Err(fault) => Err(RunTextFault::Text(fault)),
    }
}

/// The scenario that the text spells, with random faults.
fn laid_told<O: Observer>(
    alloc: Global,
    text: &[u8],
    chaos: Chaos,
    observer: &mut O,
) -> Result<Laid, RunTextFault>
    ensures laid { IfOk result (λ l. Lays chaos text.now l.text.items l.remarks.items) }
    ensures fault { IfErr result (IsTextUndrawn text.now) }
{
    let Scenario { scene, work } = match read_scene(alloc, text, WorkKind::Faults) {
        Ok(scenario) => scenario,
        Err(fault) => {
            observer.misread(alloc, text, WorkKind::Faults, fault);
            return Err(RunTextFault::from(fault));
        }
    };
    // The work is of the kind that was asked for.
    let faults = work.into_faults().unwrap();
    match laid_of(alloc, scene, faults, chaos) {
        Ok(laid) => Ok(laid),
        Err(AllocError) => Err(RunTextFault::Text(ReplayFault::Memory)),
    }
}

/// The scenario of these fault lines, with random ones behind them.
fn laid_of(alloc: Global, scene: Scene, faults: Faults, chaos: Chaos) -> Result<Laid, AllocError>
    ensures { IfOk result (λ l. HasRemarks chaos scene faults l.text.items l.remarks.items) }
{
    let given = faults.lines().len();
    let mut faults = faults;
    push_random_faults(&mut faults, &scene, chaos)?;
    let mut remarks = Vec::new(alloc);
    push_remarks(&mut remarks, &faults.lines()[given..])?;
    let text = write_scene(alloc, &scene, &Work::Faults(faults))?;
    Ok(Laid { text, remarks })
}

/// A remark for each of the lines.
fn push_remarks(out: &mut Vec<u8>, lines: &[FaultLine]) -> Result<(), AllocError>
    ensures { OnOk result (out.new.items ≡ out.old.items ++ flat_map remark_of lines.now) }
{
    for line in lines {
        push_remark(out, line.fault)?;
    }
    Ok(())
}

/// The fault as a line that a reader of scenarios ignores.
fn push_remark(out: &mut Vec<u8>, fault: Fault) -> Result<(), AllocError>
    ensures { OnOk result (out.new.items ≡ out.old.items ++ remark (fault_text fault)) }
{
    out.extend_from_slice(b"# ")?;
    out.extend_from_slice(kind_word(fault.kind))?;
    fault.node.write_to(out)?;
    out.extend_from_slice(b" after ")?;
    push_number(out, fault.after)?;
    out.push(b'\n')?;
    Ok(())
}

/// The word of a fault line, and the space behind it.
fn kind_word(kind: FaultKind) -> &'static [u8]
    ensures { result.now ≡ kind_word kind }
{
    match kind {
        FaultKind::Fail => b"fail ",
        FaultKind::Check => b"check ",
    }
}
