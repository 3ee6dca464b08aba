//! From the bytes of a scenario of steps that was cut short to the bytes of the journal of its completion.
//! Cited by other crates.

ghost use Rattle.std.specs.Prelude.{◌≡◌, Err, IfErr, IfOk, IsTrue, None, OnOk};
ghost use Rattle.kt_core.specs.Store.{store_value};
ghost use Rattle.kt_text.specs.Reading.{scenario_of_steps};
ghost use Rattle.kt_text.specs.Scenario.{IsScenario};
ghost use Rattle.kt_text.specs.Work.{steps_of, work_in};
ghost use Rattle.kt_scene.specs.Stream.{UnlessWrite};
ghost use Rattle.kt_complete.specs.Completion.{GoesOnTo, IsCompleted, IsCompletionFault, IsUnwritten, next_of_all};
ghost use Rattle.kt_complete.specs.Completion.{WritesCompleted, WritesCompletedFront};
ghost use Rattle.kt_complete.specs.auxiliary.Going.{IsOver, IsStopped, IsTextStop, WentOn};

use crate::going::go_on;
use kt_core::{Scene, Step, World};
use kt_scene::{
    Observer, ReplayFault, Scenario, SceneFault, Sink, Source, Start, Work, WorkKind, make_steps,
    read_scene, read_text, write_journal,
};
use kt_store::CkptStore;
use std::alloc::Global;
use std::io::{Read, Write};

/// A world, and the steps that led to it.
#[derive(Debug, Drop)]
struct Completed<S: CkptStore> {
    world: World<S>,
    steps: Vec<Step>,
}

/// Reads a scenario of steps, makes them over the store in a world that begins so, goes on by the policy until no node
/// has a next step, and writes the journal of all these steps: the report as remarks, and then the scenario with them.
/// The policy gives next the step of the first node, in node order, for which `next_for` has one without fault lines.
/// So equal scenarios over stores that hold the same are completed by equal steps.
///
/// It reads all, then makes all steps, then writes; so a fault other than `Write` leaves nothing written. The first
/// step that is refused ends it, one of the policy too: of those there are `StepLimit`, refusals of the store, and
/// `OutOfMemory`. What was read before a fault is gone from the reader. The observer is told of a text that is no such
/// scenario, of a step of the scenario that is refused, and of the end.
pub fn complete_returning_store<R: Read, W: Write, S: CkptStore + Drop, O: Observer>(
    alloc: Global,
    start: Start,
    reader: &mut Source<R>,
    writer: &mut Sink<W>,
    store: S,
    observer: &mut O,
) -> (Result<(), ReplayFault>, S)
    ensures written { OnOk result.0 (WritesCompleted start (store_value S.CkptStore store)
        (store_value S.CkptStore result.1) reader.old reader.new writer.old writer.new) }
    ensures front { result.0 ≡ Err ReplayFault.Write
        → WritesCompletedFront start (store_value S.CkptStore store)
        (store_value S.CkptStore result.1) reader.old reader.new writer.old writer.new }
    ensures fault { IfErr result.0 (IsCompletionFault start (store_value S.CkptStore store)
        (store_value S.CkptStore result.1) reader.old reader.new) }
    // Before any fault but the writer's the writer is not called.
    ensures nothing { IfErr result.0 (λ fault. UnlessWrite fault (writer.new ≡ writer.old)) }
{
    match completed_or_store(alloc, start, reader, store, observer) {
        Ok(completed) => {
            let Completed { mut world, steps } = completed;
            let answer = write_journal(alloc, &mut world, &steps, writer);
            (answer, world.into_store())
        }
        Err((fault, left)) => (Err(fault), left),
    }
}

/// The completion of the scenario that is read, up to the writing.
fn completed_or_store<R: Read, S: CkptStore + Drop, O: Observer>(
    alloc: Global,
    start: Start,
    reader: &mut Source<R>,
    store: S,
    observer: &mut O,
) -> Result<Completed<S>, (ReplayFault, S)>
    ensures completed { IfOk result (λ d. IsCompleted start reader.old reader.new d.world.is_honest (S.content store)
        d.steps.items d.world.state) }
    ensures counts { IfOk result (λ d. d.world.counts ≡ S.counts store) }
    ensures fault { IfErr result (λ e. IsUnwritten start (store_value S.CkptStore store)
        (store_value S.CkptStore e.1) reader.old reader.new e.0) }
{
    match read_text(alloc, reader) {
        Ok(text) => completed_told(alloc, start, &text, store, observer),
        Err(fault) => Err((fault, store)),
    }
}

/// The completion of the scenario that the text spells.
fn completed_told<S: CkptStore + Drop, O: Observer>(
    alloc: Global,
    start: Start,
    text: &[u8],
    store: S,
    observer: &mut O,
) -> Result<Completed<S>, (ReplayFault, S)>
    ensures goes { IfOk result (λ d. GoesOnTo start text.now d.world.is_honest (S.content store) d.steps.items
        d.world.state) }
    ensures over { IfOk result (λ d. IsTrue d.world.is_honest → next_of_all d.world.state ≡ None) }
    ensures counts { IfOk result (λ d. d.world.counts ≡ S.counts store) }
    ensures fault { IfErr result (λ e. IsTextStop start (store_value S.CkptStore store)
        (store_value S.CkptStore e.1) text.now e.0) }
{
    match read_scene(alloc, text, WorkKind::Steps) {
        Ok(scenario) => {
            let Scenario { scene, work } = scenario;
            let steps = steps_in(alloc, work);
            begin_and_complete(alloc, start, text, scene, steps, store, observer)
        }
        Err(fault) => {
            observer.misread(alloc, text, WorkKind::Steps, fault);
            let SceneFault { line, cause } = fault;
            Err((ReplayFault::Scene { line, cause }, store))
        }
    }
}

/// The steps of the work: none of one of fault lines.
fn steps_in(alloc: Global, work: Work) -> Vec<Step>
    ensures { result.items ≡ steps_of (work_in work) }
{
    match work {
        Work::Steps(steps) => steps,
        Work::Faults(_) => Vec::new(alloc),
    }
}

/// The completion of these steps in the world of the scene, which the text spells.
fn begin_and_complete<S: CkptStore + Drop, O: Observer>(
    alloc: Global,
    start: Start,
    text: &[u8],
    scene: Scene,
    steps: Vec<Step>,
    store: S,
    observer: &mut O,
) -> Result<Completed<S>, (ReplayFault, S)>
    requires { IsScenario text.now (scenario_of_steps scene steps.items) }
    ensures goes { IfOk result (λ d. GoesOnTo start text.now d.world.is_honest (S.content store) d.steps.items
        d.world.state) }
    ensures over { IfOk result (λ d. IsTrue d.world.is_honest → next_of_all d.world.state ≡ None) }
    ensures counts { IfOk result (λ d. d.world.counts ≡ S.counts store) }
    ensures fault { IfErr result (λ e. IsTextStop start (store_value S.CkptStore store)
        (store_value S.CkptStore e.1) text.now e.0) }
{
    match start.begin(alloc, scene, store) {
        Ok(mut world) => match make_steps(alloc, &mut world, &steps) {
            Ok(()) => complete(alloc, text, world, steps, observer),
            Err(fault) => {
                observer.stopped(alloc, text, &world, &steps, fault);
                Err((fault, world.into_store()))
            }
        },
        Err(refused) => Err((ReplayFault::from(refused.cause), refused.store)),
    }
}

/// Goes on from this world, to which these steps led.
fn complete<S: CkptStore + Drop, O: Observer>(
    alloc: Global,
    text: &[u8],
    world: World<S>,
    steps: Vec<Step>,
    observer: &mut O,
) -> Result<Completed<S>, (ReplayFault, S)>
    ensures went { IfOk result (λ d. WentOn world d.world steps.items d.steps.items) }
    ensures over { IfOk result (λ d. IsOver world.counts d.world) }
    ensures stopped { IfErr result (λ e. IsStopped world steps.items (store_value S.CkptStore e.1) e.0) }
{
    let mut world = world;
    let mut steps = steps;
    match go_on(alloc, &mut world, &mut steps) {
        Ok(()) => {
            observer.ended(alloc, text, &world, &steps);
            Ok(Completed { world, steps })
        }
        Err(fault) => Err((fault, world.into_store())),
    }
}
