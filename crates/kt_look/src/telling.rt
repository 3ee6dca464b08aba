//! From the bytes of a scenario of steps to the bytes of its trace.
//! Cited by other crates.

ghost use Rattle.std.specs.Prelude.{◌≡◌, IfErr, IfOk};
ghost use Rattle.kt_model.specs.Reached.{opening};
ghost use Rattle.kt_trace.specs.Rows.{trace_from};
ghost use Rattle.kt_look.specs.Told.{EndsTrace, IsTold, IsUntold, end_by, end_of, form_text, told_text, trace_of};
ghost use Rattle.kt_look.specs.auxiliary.Endings.{EndsTelling, EndsWriting};

use kt_scenario::{Scene, Step};
use kt_scene::{
    Observer, ReplayFault, Scenario, SceneFault, Sink, Source, WorkKind, read_scene, read_text,
    write_text,
};
use kt_tell::{Choice, json_of, step_lines, words_of};
use kt_trace::{Traced, trace_on, world_of};
use std::alloc::{AllocError, Global};
use std::io::{Read, Write};

/// In which form a trace is told.
#[derive(Clone, Copy, Debug, PartialEq, Eq)]
pub enum Form {
    /// A line of words for each entry.
    Words,
    /// A JSON object for each entry, on a line.
    Json,
}

/// The bytes of a trace, and how the steps ended.
#[derive(Drop)]
struct Telling {
    text: Vec<u8>,
    end: Result<(), ReplayFault>,
}

/// Reads a scenario of steps, makes them over a store in memory, and writes what is chosen of their trace in this form.
/// A step that is refused ends it: the trace with its refusal is written, and the answer is that of a replay. It reads
/// all, then makes all steps, then writes; so any other fault but `Write` leaves nothing written. The observer is told
/// of a text that is no such scenario, of a step that is refused, and of the end.
pub fn write_trace<R: Read, W: Write, O: Observer>(
    alloc: Global,
    reader: &mut Source<R>,
    writer: &mut Sink<W>,
    form: Form,
    choice: Choice,
    observer: &mut O,
) -> Result<(), ReplayFault>
    ensures ends { EndsTrace form choice reader.old reader.new writer.old writer.new result }
{
    match read_text(alloc, reader) {
        Ok(text) => write_told(alloc, &text, writer, form, choice, observer),
        Err(fault) => Err(fault),
    }
}

/// Writes the trace of the scenario that the text spells.
fn write_told<W: Write, O: Observer>(
    alloc: Global,
    text: &[u8],
    writer: &mut Sink<W>,
    form: Form,
    choice: Choice,
    observer: &mut O,
) -> Result<(), ReplayFault>
    ensures { EndsTelling form choice text.now writer.old writer.new result }
{
    match told(alloc, text, form, choice, observer) {
        Ok(telling) => write_telling(writer, telling),
        Err(fault) => Err(fault),
    }
}

/// Writes what is told, and answers how the steps ended.
fn write_telling<W: Write>(writer: &mut Sink<W>, telling: Telling) -> Result<(), ReplayFault>
    ensures { EndsWriting telling.text.items telling.end writer.old writer.new result }
{
    match write_text(writer, &telling.text) {
        Ok(()) => telling.end,
        Err(fault) => Err(fault),
    }
}

/// The trace of the scenario that the text spells.
fn told<O: Observer>(
    alloc: Global,
    text: &[u8],
    form: Form,
    choice: Choice,
    observer: &mut O,
) -> Result<Telling, ReplayFault>
    ensures told { IfOk result (λ told. IsTold form choice text.now told.text.items told.end) }
    ensures fault { IfErr result (IsUntold text.now) }
{
    match read_scene(alloc, text, WorkKind::Steps) {
        Ok(scenario) => {
            let Scenario { scene, work } = scenario;
            match tell(alloc, text, scene, work.steps(), form, choice, observer) {
                Ok(told) => {
                    drop(work);
                    Ok(told)
                }
                Err(AllocError) => {
                    drop(work);
                    Err(ReplayFault::Memory)
                }
            }
        }
        Err(fault) => {
            observer.misread(alloc, text, WorkKind::Steps, fault);
            let SceneFault { line, cause } = fault;
            Err(ReplayFault::Scene { line, cause })
        }
    }
}

/// The trace of these steps of the scene, which the text spells.
fn tell<O: Observer>(
    alloc: Global,
    text: &[u8],
    scene: Scene,
    steps: &[Step],
    form: Form,
    choice: Choice,
    observer: &mut O,
) -> Result<Telling, AllocError>
    ensures text { IfOk result (λ told. told.text.items ≡ told_text form choice text.now scene steps.now) }
    ensures end { IfOk result (λ told. told.end ≡ end_of text.now scene steps.now) }
{
    let entries = trace_of(alloc, text, scene, steps, observer)?;
    let telling = telling_of(alloc, form, &entries, choice);
    drop(entries);
    telling
}

/// The trace of these steps, each with its line of the text.
fn trace_of<O: Observer>(
    alloc: Global,
    text: &[u8],
    scene: Scene,
    steps: &[Step],
    observer: &mut O,
) -> Result<Vec<Traced>, AllocError>
    ensures { IfOk result (λ entries. entries.items ≡ trace_of text.now scene steps.now) }
{
    match step_lines(alloc, text) {
        Ok(lines) => {
            let entries = trace_with(alloc, text, scene, steps, &lines, observer);
            drop(lines);
            entries
        }
        Err(error) => {
            drop(scene);
            Err(error)
        }
    }
}

/// The same, where the lines of the steps are known. The observer is told how the steps ended.
fn trace_with<O: Observer>(
    alloc: Global,
    text: &[u8],
    scene: Scene,
    steps: &[Step],
    lines: &[u64],
    observer: &mut O,
) -> Result<Vec<Traced>, AllocError>
    ensures { IfOk result (λ entries. entries.items ≡ trace_from lines.now 1 (opening scene) steps.now) }
{
    let mut world = world_of(alloc, scene)?;
    match trace_on(alloc, &mut world, steps, lines) {
        Ok(entries) => {
            match ending(&entries) {
                Ok(()) => observer.ended(alloc, text, &world, steps),
                Err(fault) => observer.stopped(alloc, text, &world, steps, fault),
            }
            drop(world);
            Ok(entries)
        }
        Err(error) => {
            drop(world);
            Err(error)
        }
    }
}

/// What is told of these entries, and how the steps ended.
fn telling_of(
    alloc: Global,
    form: Form,
    entries: &[Traced],
    choice: Choice,
) -> Result<Telling, AllocError>
    ensures text { IfOk result (λ told. told.text.items ≡ form_text form choice entries.now) }
    ensures end { IfOk result (λ told. told.end ≡ end_by entries.now) }
{
    let text = form_text(alloc, form, entries, choice)?;
    Ok(Telling {
        text,
        end: ending(entries),
    })
}

/// The entries that are chosen, in this form.
fn form_text(
    alloc: Global,
    form: Form,
    entries: &[Traced],
    choice: Choice,
) -> Result<Vec<u8>, AllocError>
    ensures { IfOk result (λ text. text.items ≡ form_text form choice entries.now) }
{
    match form {
        Form::Words => words_of(alloc, entries, choice),
        Form::Json => json_of(alloc, entries, choice),
    }
}

/// How the steps ended: by the one that was refused, if one was.
fn ending(entries: &[Traced]) -> Result<(), ReplayFault>
    ensures { result ≡ end_by entries.now }
{
    for entry in entries {
        if let Traced::Refused(refused) = entry {
            return Err(ReplayFault::Step {
                at: refused.number as usize,
                cause: refused.cause,
            });
        }
    }
    Ok(())
}
