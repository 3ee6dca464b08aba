//! The text of a journal: a report as remarks, and then the scenario of the steps that led to it.
//! Cited by other crates.

ghost use Rattle.std.specs.Prelude.{◌≡◌, ◌++◌, IfErr, IfOk, IsTrue, OnOk, Err};
ghost use Rattle.kt_core.specs.World.{beside};
ghost use Rattle.kt_scene.specs.Journal.{WritesJournal, WritesJournalFront, journal_text, origin, remarks};
ghost use Rattle.kt_scene.specs.Stream.{UnlessWrite, IsReportFault};

use crate::fault::ReplayFault;
use crate::report::{push_count, report_text};
use crate::sink::Sink;
use crate::stream::write_text;
use kt_core::{Scene, Step, World};
use kt_store::CkptStore;
use kt_text::{line_at, push_scenario};
use std::alloc::{AllocError, Global};
use std::io::Write;

/// Writes the report of the world with `# ` before each line, and then the scenario of the world's scene and these
/// steps. Of a world that was resumed the first line says after which instance. Where it is not too long and a line can
/// say each step, what is written is the text of a scenario of these steps (`what_a_journal_tells_is_read`). That they
/// lead to this world is the caller's to know. Refused as `write_report` is.
pub fn write_journal<S: CkptStore, W: Write>(
    alloc: Global,
    world: &mut World<S>,
    steps: &[Step],
    writer: &mut Sink<W>,
) -> Result<(), ReplayFault>
    ensures same { IsTrue world.new.is_honest → world.new.state ≡ world.old.state }
    ensures beside { beside world.new.state ≡ beside world.old.state }
    ensures honest { IsTrue world.new.is_honest → IsTrue world.old.is_honest }
    ensures written { OnOk result
        (WritesJournal world.new.is_honest world.old.state steps.now writer.old writer.new) }
    ensures front { result ≡ Err ReplayFault.Write
        → WritesJournalFront world.new.is_honest world.old.state steps.now writer.old writer.new }
    // Before any fault but the writer's the writer is not called.
    ensures nothing { IfErr result (λ fault. UnlessWrite fault (writer.new ≡ writer.old)) }
    ensures counts { OnOk result (world.new.counts ≡ world.old.counts) }
    ensures only { IfErr result (IsReportFault world.old.counts world.new.counts world.new.is_honest) }
{
    match report_text(alloc, world) {
        Ok(report) => match journal_of(alloc, world.found(), &report, world.scene(), steps) {
            Ok(text) => write_text(writer, &text),
            Err(AllocError) => Err(ReplayFault::Memory),
        },
        Err(fault) => Err(fault),
    }
}

/// The journal's text, with where its world began and this report.
fn journal_of(
    alloc: Global,
    found: Option<u64>,
    report: &[u8],
    scene: &Scene,
    steps: &[Step],
) -> Result<Vec<u8>, AllocError>
    ensures { IfOk result (λ text. text.items ≡ journal_text (origin found ++ report.now) scene.now steps.now) }
{
    let mut told = Vec::new(alloc);
    push_origin(&mut told, found)?;
    told.extend_from_slice(report)?;
    let mut out = Vec::new(alloc);
    push_remarks(&mut out, &told)?;
    push_scenario(&mut out, scene, steps)?;
    Ok(out)
}

/// Where the world began, as a line: nothing of one that was opened.
fn push_origin(out: &mut Vec<u8>, found: Option<u64>) -> Result<(), AllocError>
    ensures { OnOk result (out.new.items ≡ out.old.items ++ origin found) }
{
    match found {
        Some(instance) => push_count(out, b"resumed after instance ", instance),
        None => Ok(()),
    }
}

/// The lines of the report, each with `# ` before it.
fn push_remarks(out: &mut Vec<u8>, report: &[u8]) -> Result<(), AllocError>
    ensures { OnOk result (out.new.items ≡ out.old.items ++ remarks report.now) }
{
    let mut rest = report;
    while let Some((line, after)) = line_at(rest) {
        out.extend_from_slice(b"# ")?;
        out.extend_from_slice(line)?;
        out.push(b'\n')?;
        rest = after;
    }
    Ok(())
}
