//! From the bytes of a scenario to the bytes of its report.
//! Cited by other crates.

ghost use Rattle.std.specs.Prelude.{◌≡◌, ◌≢◌, Err, IfOk, IfErr, IsTrue, OnOk};
ghost use Rattle.kt_text.specs.Work.{steps_of};
ghost use Rattle.kt_scene.specs.Runs.{BeginsAndRunsTo, IsStepFault, RunsTo};
ghost use Rattle.kt_text.specs.Reading.{model_of};
ghost use Rattle.kt_scene.specs.Run.{LeadsTo, IsTextFault, IsReplayed, IsReplayedReport, IsWorldFault};
ghost use Rattle.kt_scene.specs.auxiliary.Making.{IsRunFault};
ghost use Rattle.kt_scene.specs.Run.{WritesReplayed, WritesReplayedFront, IsReplayFault};
ghost use Rattle.kt_scene.specs.Stream.{UnlessWrite};
ghost use Rattle.kt_core.specs.Store.{IsLeftSome, store_value};

use crate::fault::ReplayFault;
use crate::observer::{Nobody, Observer};
use crate::report::{report_text, write_report};
use crate::sink::Sink;
use crate::source::Source;
use crate::stream::read_text;
use kt_core::{Scene, Start, Step, World};
use kt_store::CkptStore;
use kt_text::{Scenario, SceneFault, WorkKind, read_scene};
use std::alloc::Global;
use std::io::{Read, Write};

/// Reads a scenario of steps, makes them over the store and writes the report. It reads all, then makes all steps, then
/// writes; so a fault other than `Write` leaves nothing written. What was read before a fault is gone from the reader.
///
/// The store is dropped, so its clauses speak of some store of its kind in place of the one that was left. Of a kind
/// that is not always honest `replay_returning_store` says more.
pub fn replay<R: Read, W: Write, S: CkptStore + Drop>(
    alloc: Global,
    reader: &mut Source<R>,
    writer: &mut Sink<W>,
    store: S,
) -> Result<(), ReplayFault>
    ensures written { OnOk result (IsLeftSome (store_value S.CkptStore) (λ left.
        WritesReplayed Start.Open (store_value S.CkptStore store) left
        reader.old reader.new writer.old writer.new)) }
    ensures front { result ≡ Err ReplayFault.Write
        → IsLeftSome (store_value S.CkptStore) (λ left.
        WritesReplayedFront Start.Open (store_value S.CkptStore store) left
        reader.old reader.new writer.old writer.new) }
    ensures fault { IfErr result (λ fault. IsLeftSome (store_value S.CkptStore) (λ left.
        IsReplayFault Start.Open (store_value S.CkptStore store) left reader.old reader.new fault)) }
    // Before any fault but the writer's the writer is not called.
    ensures nothing { IfErr result (λ fault. UnlessWrite fault (writer.new ≡ writer.old)) }
{
    let (answer, left) = replay_returning_store(
        alloc,
        Start::Open,
        reader,
        writer,
        store,
        &mut Nobody,
    );
    drop(left);
    answer
}

/// As `replay`, over a world that is resumed: it goes on from what the store holds. What is said of the store is said
/// as there.
pub fn resume_replay<R: Read, W: Write, S: CkptStore + Drop>(
    alloc: Global,
    reader: &mut Source<R>,
    writer: &mut Sink<W>,
    store: S,
) -> Result<(), ReplayFault>
    ensures written { OnOk result (IsLeftSome (store_value S.CkptStore) (λ left.
        WritesReplayed Start.Resume (store_value S.CkptStore store) left
        reader.old reader.new writer.old writer.new)) }
    ensures front { result ≡ Err ReplayFault.Write
        → IsLeftSome (store_value S.CkptStore) (λ left.
        WritesReplayedFront Start.Resume (store_value S.CkptStore store) left
        reader.old reader.new writer.old writer.new) }
    ensures fault { IfErr result (λ fault. IsLeftSome (store_value S.CkptStore) (λ left.
        IsReplayFault Start.Resume (store_value S.CkptStore store) left reader.old reader.new fault)) }
    // Before any fault but the writer's the writer is not called.
    ensures nothing { IfErr result (λ fault. UnlessWrite fault (writer.new ≡ writer.old)) }
{
    let (answer, left) = replay_returning_store(
        alloc,
        Start::Resume,
        reader,
        writer,
        store,
        &mut Nobody,
    );
    drop(left);
    answer
}

/// As `replay` or `resume_replay`, by how the world begins, and gives the store back. Those two drop it, so their
/// clauses can name no store that a caller sees; these speak of the one that is given back
/// (docs/DECISIONS.md#the-report). The observer is told of what is met on the way, before the report is written.
pub fn replay_returning_store<R: Read, W: Write, S: CkptStore + Drop, O: Observer>(
    alloc: Global,
    start: Start,
    reader: &mut Source<R>,
    writer: &mut Sink<W>,
    store: S,
    observer: &mut O,
) -> (Result<(), ReplayFault>, S)
    ensures written { OnOk result.0 (WritesReplayed start (store_value S.CkptStore store)
        (store_value S.CkptStore result.1) reader.old reader.new writer.old writer.new) }
    ensures front { result.0 ≡ Err ReplayFault.Write
        → WritesReplayedFront start (store_value S.CkptStore store)
        (store_value S.CkptStore result.1) reader.old reader.new writer.old writer.new }
    ensures fault { IfErr result.0 (IsReplayFault start (store_value S.CkptStore store)
        (store_value S.CkptStore result.1) reader.old reader.new) }
    // Before any fault but the writer's the writer is not called.
    ensures nothing { IfErr result.0 (λ fault. UnlessWrite fault (writer.new ≡ writer.old)) }
{
    match world_or_store(alloc, start, reader, store, observer) {
        Ok(mut world) => {
            let answer = write_report(alloc, &mut world, writer);
            (answer, world.into_store())
        }
        Err((fault, left)) => (Err(fault), left),
    }
}

/// As `replay_returning_store` of a world that is opened, up to the writing: it gives the report and the store. A
/// command that has to do something between the two then writes the report by `write_text`.
pub fn report_returning_store<R: Read, S: CkptStore + Drop, O: Observer>(
    alloc: Global,
    reader: &mut Source<R>,
    store: S,
    observer: &mut O,
) -> Result<(Vec<u8>, S), (ReplayFault, S)>
    ensures told { IfOk result (λ r. IsReplayedReport Start.Open (store_value S.CkptStore store)
        (store_value S.CkptStore r.1) reader.old reader.new r.0.items) }
    ensures fault { IfErr result (λ e. IsReplayFault Start.Open (store_value S.CkptStore store)
        (store_value S.CkptStore e.1) reader.old reader.new e.0) }
    ensures unwritten { IfErr result (λ e. e.0 ≢ ReplayFault.Write) }
{
    match world_or_store(alloc, Start::Open, reader, store, observer) {
        Ok(mut world) => match report_text(alloc, &mut world) {
            Ok(report) => Ok((report, world.into_store())),
            Err(refused) => Err((refused, world.into_store())),
        },
        Err(refused) => Err(refused),
    }
}

/// Reads a scenario of steps, makes them over the store, and gives the world then: the first half of `replay`. Where it
/// is refused, the store is gone.
pub fn replay_world<R: Read, S: CkptStore + Drop>(
    alloc: Global,
    reader: &mut Source<R>,
    store: S,
) -> Result<World<S>, ReplayFault>
    ensures replayed { IfOk result (λ world.
        IsReplayed Start.Open reader.old reader.new world.is_honest (S.content store) world.state) }
    ensures counts { IfOk result (λ world. world.counts ≡ S.counts store) }
    ensures fault { IfErr result (λ fault. IsLeftSome (store_value S.CkptStore) (λ left.
        IsWorldFault Start.Open (store_value S.CkptStore store) left reader.old reader.new fault)) }
{
    match world_or_store(alloc, Start::Open, reader, store, &mut Nobody) {
        Ok(world) => Ok(world),
        Err((fault, left)) => {
            drop(left);
            Err(fault)
        }
    }
}

/// The world that begins so, after the steps of the scenario that is read. It gives the store back where it is refused,
/// so that the clause can speak of that store.
fn world_or_store<R: Read, S: CkptStore + Drop, O: Observer>(
    alloc: Global,
    start: Start,
    reader: &mut Source<R>,
    store: S,
    observer: &mut O,
) -> Result<World<S>, (ReplayFault, S)>
    ensures replayed { IfOk result (λ world.
        IsReplayed start reader.old reader.new world.is_honest (S.content store) world.state) }
    ensures counts { IfOk result (λ world. world.counts ≡ S.counts store) }
    ensures fault { IfErr result (λ e. IsWorldFault start (store_value S.CkptStore store)
        (store_value S.CkptStore e.1) reader.old reader.new e.0) }
{
    match read_text(alloc, reader) {
        Ok(text) => world_told(alloc, start, &text, store, observer),
        Err(fault) => Err((fault, store)),
    }
}

/// The world after the steps of the scenario that the text spells.
fn world_told<S: CkptStore + Drop, O: Observer>(
    alloc: Global,
    start: Start,
    text: &[u8],
    store: S,
    observer: &mut O,
) -> Result<World<S>, (ReplayFault, S)>
    ensures leads { IfOk result (λ world. LeadsTo start text.now world.is_honest (S.content store) world.state) }
    ensures counts { IfOk result (λ world. world.counts ≡ S.counts store) }
    ensures fault { IfErr result (λ e. IsTextFault start (store_value S.CkptStore store)
        (store_value S.CkptStore e.1) text.now e.0) }
{
    match read_scene(alloc, text, WorkKind::Steps) {
        Ok(scenario) => run_scenario(alloc, start, text, scenario, store, observer),
        Err(fault) => {
            observer.misread(alloc, text, WorkKind::Steps, fault);
            let SceneFault { line, cause } = fault;
            Err((ReplayFault::Scene { line, cause }, store))
        }
    }
}

/// The world after the steps of the scenario, which the text spells.
fn run_scenario<S: CkptStore + Drop, O: Observer>(
    alloc: Global,
    start: Start,
    text: &[u8],
    scenario: Scenario,
    store: S,
    observer: &mut O,
) -> Result<World<S>, (ReplayFault, S)>
    ensures replayed { IfOk result (λ world. IsTrue world.is_honest
        → BeginsAndRunsTo start (S.content store) (model_of scenario).scene (steps_of (model_of scenario).work)
        world.state) }
    ensures counts { IfOk result (λ world. world.counts ≡ S.counts store) }
    ensures fault { IfErr result (λ e. IsRunFault start (store_value S.CkptStore store)
        (store_value S.CkptStore e.1)
        (model_of scenario).scene (steps_of (model_of scenario).work) e.0) }
{
    let Scenario { scene, work } = scenario;
    run(alloc, start, text, scene, work.steps(), store, observer)
}

/// The world of the scene after these steps, which the text spells.
fn run<S: CkptStore + Drop, O: Observer>(
    alloc: Global,
    start: Start,
    text: &[u8],
    scene: Scene,
    steps: &[Step],
    store: S,
    observer: &mut O,
) -> Result<World<S>, (ReplayFault, S)>
    ensures replayed { IfOk result (λ world. IsTrue world.is_honest
        → BeginsAndRunsTo start (S.content store) scene steps.now world.state) }
    ensures counts { IfOk result (λ world. world.counts ≡ S.counts store) }
    ensures fault { IfErr result (λ e. IsRunFault start (store_value S.CkptStore store)
        (store_value S.CkptStore e.1) scene steps.now e.0) }
{
    match start.begin(alloc, scene, store) {
        Ok(mut world) => match make_steps(alloc, &mut world, steps) {
            Ok(()) => {
                observer.ended(alloc, text, &world, steps);
                Ok(world)
            }
            Err(fault) => {
                observer.stopped(alloc, text, &world, steps, fault);
                Err((fault, world.into_store()))
            }
        },
        Err(refused) => Err((ReplayFault::from(refused.cause), refused.store)),
    }
}

/// Makes the steps one after the other, up to the first that is refused. Those before it stay made.
pub fn make_steps<S: CkptStore>(
    alloc: Global,
    world: &mut World<S>,
    steps: &[Step],
) -> Result<(), ReplayFault>
    ensures made { IsTrue world.new.is_honest → OnOk result (RunsTo world.old.state steps.now world.new.state) }
    ensures refused { IfErr result (IsStepFault world.old world.new steps.now) }
    ensures honest { IsTrue world.new.is_honest → IsTrue world.old.is_honest }
    ensures counts { OnOk result (world.new.counts ≡ world.old.counts) }
{
    for (i, step) in steps.iter().enumerate() {
        if let Err(cause) = world.step(alloc, *step) {
            return Err(ReplayFault::Step { at: i + 1, cause });
        }
    }
    Ok(())
}
