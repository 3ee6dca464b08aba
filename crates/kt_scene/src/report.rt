//! The report of a world: what survives, what is lost, and the tuples.
//! Cited by journal.rt, replaying.rt; other crates.

ghost use Rattle.std.specs.Prelude.{◌≡◌, ◌≢◌, ◌++◌, [], List, ℕ, map, IfOk, IfErr, IsTrue, OnErr, OnOk, Err};
ghost use Rattle.std.specs.List.{flat_map};
ghost use Rattle.kt_tuple.specs.Spelling.{tuple_text};
ghost use Rattle.kt_core.specs.World.{beside};
ghost use Rattle.kt_scene.specs.Report.{IsReport, IsReportOf, WritesReport, WritesReportFront};
ghost use Rattle.kt_scene.specs.auxiliary.Texts.{AppendsReport, AppendsTexts};
ghost use Rattle.kt_scene.specs.Report.{count_line, service_line};
ghost use Rattle.kt_text.specs.Text.{text_line};
ghost use Rattle.kt_scene.specs.auxiliary.Texts.{items_of};
ghost use Rattle.kt_scene.specs.Stream.{UnlessWrite, IsReportFault};

use crate::fault::ReplayFault;
use crate::sink::Sink;
use crate::stream::write_text;
use kt_core::World;
use kt_history::space_of;
use kt_space::Bag;
use kt_store::CkptStore;
use kt_tuple::writing::push_number;
use kt_tuple::{Service, Tuple};
use std::alloc::{AllocError, Global};
use std::io::Write;

/// Writes the report of the world. Refused by the store or by want of memory, which leaves nothing written, or by
/// the writer, which leaves a front of the report. The store is asked for the permanent tuples before anything is
/// written, so that a store that refuses leaves nothing written (docs/DECISIONS.md#the-report).
pub fn write_report<S: CkptStore, W: Write>(
    alloc: Global,
    world: &mut World<S>,
    writer: &mut Sink<W>,
) -> Result<(), ReplayFault>
    ensures same { IsTrue world.new.is_honest → world.new.state ≡ world.old.state }
    ensures beside { beside world.new.state ≡ beside world.old.state }
    ensures honest { IsTrue world.new.is_honest → IsTrue world.old.is_honest }
    ensures written { OnOk result (WritesReport world.new.is_honest world.old.state writer.old writer.new) }
    ensures front { result ≡ Err ReplayFault.Write
        → WritesReportFront world.new.is_honest world.old.state writer.old writer.new }
    // Before any fault but the writer's the writer is not called.
    ensures nothing { IfErr result (λ fault. UnlessWrite fault (writer.new ≡ writer.old)) }
    ensures counts { OnOk result (world.new.counts ≡ world.old.counts) }
    ensures only { IfErr result (IsReportFault world.old.counts world.new.counts world.new.is_honest) }
{
    match report_text(alloc, world) {
        Ok(report) => write_text(writer, &report),
        Err(fault) => Err(fault),
    }
}

/// The report of the world. Refused by the store or by want of memory.
pub(crate) fn report_text<S: CkptStore>(
    alloc: Global,
    world: &mut World<S>,
) -> Result<Vec<u8>, ReplayFault>
    ensures same { IsTrue world.new.is_honest → world.new.state ≡ world.old.state }
    ensures beside { beside world.new.state ≡ beside world.old.state }
    ensures honest { IsTrue world.new.is_honest → IsTrue world.old.is_honest }
    ensures report { IfOk result (λ text. IsReportOf world.new.is_honest world.old.state text.items) }
    ensures counts { OnOk result (world.new.counts ≡ world.old.counts) }
    ensures only { IfErr result (IsReportFault world.old.counts world.new.counts world.new.is_honest) }
    ensures unwritten { IfErr result (λ fault. fault ≢ ReplayFault.Write) }
{
    match world.permanent_space(alloc) {
        Ok(permanent) => { report_of(alloc, world, &permanent).map_err(|_| ReplayFault::Memory) }
        Err(cause) => Err(ReplayFault::Report(cause)),
    }
}

/// The report's text, with these permanent tuples.
fn report_of<S: CkptStore>(
    alloc: Global,
    world: &World<S>,
    permanent: &[Tuple],
) -> Result<Vec<u8>, AllocError>
    ensures { IfOk result (λ text. IsReport world.now.is_honest world.now.state.history permanent.now text.items) }
{
    let history = world.history();
    let lost = history.lost_count();
    let survivors = history.survivors(alloc)?;
    match space_of(alloc, &survivors) {
        Ok(space) => {
            let text = report_with(alloc, &survivors, lost, &space, permanent);
            drop(space);
            drop(survivors);
            text
        }
        Err(error) => {
            drop(survivors);
            Err(error)
        }
    }
}

/// The text of a report with these survivors, so many lost services and these tuples.
fn report_with(
    alloc: Global,
    survivors: &[Service],
    lost: u64,
    space: &Bag,
    permanent: &[Tuple],
) -> Result<Vec<u8>, AllocError>
    ensures { IfOk result (λ text. AppendsReport survivors.now lost space.now.tuples permanent.now [] text.items) }
{
    let mut out = Vec::new(alloc);
    match push_report(alloc, &mut out, survivors, lost, space, permanent) {
        Ok(()) => Ok(out),
        Err(error) => {
            drop(out);
            Err(error)
        }
    }
}

/// Puts the lines of that report behind what is there.
fn push_report(
    alloc: Global,
    out: &mut Vec<u8>,
    survivors: &[Service],
    lost: u64,
    space: &Bag,
    permanent: &[Tuple],
) -> Result<(), AllocError>
    ensures { OnOk result
        (AppendsReport survivors.now lost space.now.tuples permanent.now out.old.items out.new.items) }
{
    push_count(out, b"survivors ", survivors.len() as u64)?;
    push_services(out, survivors)?;
    push_count(out, b"lost ", lost)?;
    push_bag(alloc, out, b"space ", space)?;
    push_tuples(alloc, out, b"permanent ", permanent)
}

/// The word, a number and the end of the line.
pub(crate) fn push_count(out: &mut Vec<u8>, word: &[u8], count: u64) -> Result<(), AllocError>
    ensures { OnOk result (out.new.items ≡ out.old.items ++ count_line word.now count) }
{
    out.extend_from_slice(word)?;
    push_number(out, count)?;
    out.push(b'\n')?;
    Ok(())
}

/// A line for each service, as `w1.2 in ("a", ?int) got ("a", 1)`.
fn push_services(out: &mut Vec<u8>, services: &[Service]) -> Result<(), AllocError>
    ensures { OnOk result (out.new.items ≡ out.old.items ++ flat_map service_line services.now) }
{
    for service in services {
        service.write_to(out)?;
        out.push(b'\n')?;
    }
    Ok(())
}

/// How many tuples there are, and then each on a line, in rising order of their text's bytes.
fn push_tuples(
    alloc: Global,
    out: &mut Vec<u8>,
    word: &[u8],
    tuples: &[Tuple],
) -> Result<(), AllocError>
    ensures { OnOk result (AppendsTexts word.now (map tuple_text tuples.now) out.old.items out.new.items) }
{
    let texts = texts_of(alloc, tuples)?;
    push_sorted(out, word, texts)
}

/// How many tuples the bag holds, and then each on a line, in rising order of their text's bytes.
fn push_bag(alloc: Global, out: &mut Vec<u8>, word: &[u8], bag: &Bag) -> Result<(), AllocError>
    ensures { OnOk result (AppendsTexts word.now (map tuple_text bag.now.tuples) out.old.items out.new.items) }
{
    let tuples = bag.to_vec(alloc)?;
    push_tuples(alloc, out, word, &tuples)
}

/// How many texts there are, and then each on a line, in rising order of their bytes.
fn push_sorted(out: &mut Vec<u8>, word: &[u8], texts: Vec<Vec<u8>>) -> Result<(), AllocError>
    ensures { OnOk result (AppendsTexts word.now (items_of texts.items) out.old.items out.new.items) }
{
    let mut texts = texts;
    texts.sort()?;
    push_count(out, word, texts.len() as u64)?;
    push_texts(out, &texts)
}

fn push_texts(out: &mut Vec<u8>, texts: &[Vec<u8>]) -> Result<(), AllocError>
    ensures { OnOk result (out.new.items ≡ out.old.items ++ flat_map text_line (items_of texts.now)) }
{
    for text in texts {
        out.extend_from_slice(text)?;
        out.push(b'\n')?;
    }
    Ok(())
}

/// The text of each tuple, in the tuples' order.
fn texts_of(alloc: Global, tuples: &[Tuple]) -> Result<Vec<Vec<u8>>, AllocError>
    ensures { IfOk result (λ texts. items_of texts.items ≡ map tuple_text tuples.now) }
{
    let mut texts = Vec::with_capacity(alloc, tuples.len())?;
    for tuple in tuples {
        texts.push(text_of(alloc, tuple)?)?;
    }
    Ok(texts)
}

fn text_of(alloc: Global, tuple: &Tuple) -> Result<Vec<u8>, AllocError>
    ensures { IfOk result (λ text. text.items ≡ tuple_text tuple.now) }
{
    let mut text = Vec::new(alloc);
    tuple.write_to(&mut text)?;
    Ok(text)
}
