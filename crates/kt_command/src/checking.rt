//! A text that is read, and nothing else.
//! Cited by request.rt.
ghost use Rattle.std.specs.Prelude.{◌≡◌, ◌⊎◌, IfErr, IfOk};
ghost use Rattle.kt_command.specs.Checked.{EndsChecked, IsChecked, IsMisread, checked_line, is_want, told_of};
ghost use Rattle.kt_scene.specs.Report.{count_line};
ghost use Rattle.kt_text.specs.Work.{work_in};

use crate::explainer::Explainer;
use crate::status::{DONE, end_replay};
use kt_scene::{Observer, ReplayFault, Sink, Source, read_text, write_text};
use kt_text::{SceneError, SceneFault, Work, WorkKind, read_scene};
use kt_tuple::writing::push_number;
use std::alloc::{AllocError, Global};
use std::io::{Read, Write};

/// Reads a text, and writes one line that says whether it is a scenario of steps or of fault lines, and of how many. A
/// text that is neither has a fault as each of the two; the one that comes later is told, since up to there it is
/// right.
pub(crate) fn check_text<R: Read, W: Write, E: Write>(
    alloc: Global,
    reader: &mut Source<R>,
    writer: &mut Sink<W>,
    errors: &mut E,
    explainer: &mut Explainer,
) -> u8
    ensures told { EndsChecked reader.old reader.new writer.old writer.new result }
    ensures done_without_a_word { result ≡ DONE → errors.new ≡ errors.old }
{
    match read_text(alloc, reader) {
        Ok(text) => match checked(alloc, &text, explainer) {
            Ok(line) => end_replay(write_text(writer, &line), errors),
            Err(fault) => end_replay(Err(fault), errors),
        },
        Err(fault) => {
            explainer.explain_replay(alloc, Err(fault));
            end_replay(Err(fault), errors)
        }
    }
}

/// The line that says what the text is.
fn checked(alloc: Global, text: &[u8], explainer: &mut Explainer) -> Result<Vec<u8>, ReplayFault>
    ensures line { IfOk result (λ line. IsChecked text.now line.items) }
    ensures fault { IfErr result (λ fault. (fault ≡ ReplayFault.Memory) ⊎ IsMisread text.now fault) }
{
    let steps = match read_scene(alloc, text, WorkKind::Steps) {
        Ok(scenario) => return line_of(alloc, &scenario.work),
        Err(fault) => fault,
    };
    let faults = match read_scene(alloc, text, WorkKind::Faults) {
        Ok(scenario) => return line_of(alloc, &scenario.work),
        Err(fault) => fault,
    };
    let (kind, fault) = told_of(steps, faults);
    explainer.misread(alloc, text, kind, fault);
    let SceneFault { line, cause } = fault;
    Err(ReplayFault::Scene { line, cause })
}

/// Of the faults that a text has as steps and as fault lines, the one that is told: want of memory, or else the later
/// one, or that as steps where both are on one line.
fn told_of(steps: SceneFault, faults: SceneFault) -> (WorkKind, SceneFault)
    ensures { result.1 ≡ told_of steps faults }
{
    if is_want(steps.cause) {
        (WorkKind::Steps, steps)
    } else if is_want(faults.cause) || steps.line < faults.line {
        (WorkKind::Faults, faults)
    } else {
        (WorkKind::Steps, steps)
    }
}

/// Whether memory was wanting.
fn is_want(cause: SceneError) -> bool
    ensures { result ≡ is_want cause }
{
    matches!(cause, SceneError::OutOfMemory)
}

/// What the work is, and how much.
fn line_of(alloc: Global, work: &Work) -> Result<Vec<u8>, ReplayFault>
    ensures line { IfOk result (λ line. line.items ≡ checked_line (work_in work.now)) }
    ensures memory { IfErr result (λ fault. fault ≡ ReplayFault.Memory) }
{
    match work_line(alloc, work) {
        Ok(line) => Ok(line),
        Err(AllocError) => Err(ReplayFault::Memory),
    }
}

/// The same, with want of memory as it comes.
fn work_line(alloc: Global, work: &Work) -> Result<Vec<u8>, AllocError>
    ensures { IfOk result (λ line. line.items ≡ checked_line (work_in work.now)) }
{
    match work {
        Work::Steps(steps) => count_line(alloc, b"steps ", steps.len() as u64),
        Work::Faults(faults) => count_line(alloc, b"faults ", faults.lines().len() as u64),
    }
}

/// A word and a number.
fn count_line(alloc: Global, word: &[u8], count: u64) -> Result<Vec<u8>, AllocError>
    ensures { IfOk result (λ line. line.items ≡ count_line word.now count) }
{
    let mut line = Vec::new(alloc);
    line.extend_from_slice(word)?;
    push_number(&mut line, count)?;
    line.push(b'\n')?;
    Ok(line)
}
