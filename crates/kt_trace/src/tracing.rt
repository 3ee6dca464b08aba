//! Steps made one after the other, each with its row.
//! Cited by other crates.

ghost use Rattle.std.specs.Prelude.{◌≡◌, IfErr, IfOk, IsTrue, Ok, OnErr, OnOk};
ghost use Rattle.kt_model.specs.Effect.{step_result};
ghost use Rattle.kt_model.specs.Reached.{next_state, opening};
ghost use Rattle.kt_model.specs.StepPlan.{step_plan};
ghost use Rattle.kt_core.specs.Stepping.{Refuses};
ghost use Rattle.kt_trace.specs.Rows.{behind, entry_of, line_of, trace_from};
ghost use Rattle.kt_trace.specs.auxiliary.Entries.{is_want};

use crate::glimpse::Glimpse;
use crate::traced::{Refused, Traced};
use kt_core::World;
use kt_model::StepError;
use kt_scenario::{Scene, Step};
use kt_store::MemStore;
use std::alloc::{AllocError, Global};

/// What happens in a world of this scene by these steps, over a store in memory: a row for each step that is made, and
/// the step that is refused, if one is, which ends the trace. `lines` has for each step the number of its line in the
/// text, counted from 1. `AllocError` where memory is wanting.
///
/// A `decide`, an `abandon` or a `learn` looks at each check and each rollback that was begun. All else takes the time
/// of a replay, and the memory of what the rows tell.
pub fn trace(
    alloc: Global,
    scene: Scene,
    steps: &[Step],
    lines: &[u64],
) -> Result<Vec<Traced>, AllocError>
    ensures entries { IfOk result (λ entries.
        entries.items ≡ trace_from lines.now 1 (opening scene) steps.now) }
{
    let mut world = world_of(alloc, scene)?;
    let entries = trace_on(alloc, &mut world, steps, lines);
    drop(world);
    entries
}

/// A world of this scene over a store in memory, in which no step was made yet. `AllocError` where memory is wanting.
pub fn world_of(alloc: Global, scene: Scene) -> Result<World<MemStore>, AllocError>
    ensures state { IfOk result (λ world. world.state ≡ opening scene) }
    ensures honest { IfOk result (λ world. IsTrue world.is_honest) }
{
    match World::open(alloc, scene, MemStore::new(alloc)) {
        Ok(world) => Ok(world),
        // A fresh store in memory refuses for want of memory alone.
        Err(refused) => {
            drop(refused);
            Err(AllocError)
        }
    }
}

/// The trace of these steps from this world on, and the world behind those that were made.
pub fn trace_on(
    alloc: Global,
    world: &mut World<MemStore>,
    steps: &[Step],
    lines: &[u64],
) -> Result<Vec<Traced>, AllocError>
    requires honest { IsTrue world.old.is_honest }
    ensures entries { IfOk result (λ entries.
        entries.items ≡ trace_from lines.now 1 world.old.state steps.now) }
    ensures world { IfOk result (λ _. world.new.state ≡ behind world.old.state steps.now) }
{
    let mut entries = Vec::new(alloc);
    for (place, step) in steps.iter().enumerate() {
        let line = line_of(lines, place);
        let entry = trace_step(alloc, world, place as u64 + 1, line, *step)?;
        let is_end = entry.is_end();
        entries.push(entry)?;
        if is_end {
            return Ok(entries);
        }
    }
    Ok(entries)
}

/// The number of the line of the step that has so many before it; 0 where it is not known.
fn line_of(lines: &[u64], place: usize) -> u64
    ensures { result ≡ line_of lines.now place }
{
    match lines.get(place) {
        Some(line) => *line,
        None => 0,
    }
}

/// Makes the step and gives its entry. So whoever wants to see the world between two steps makes them one by one. The
/// step has this number, and stands on this line of the text, both counted from 1. Where memory is wanting, the answer
/// is `AllocError`, and the step may have been made.
pub fn trace_step(
    alloc: Global,
    world: &mut World<MemStore>,
    number: u64,
    line: u64,
    step: Step,
) -> Result<Traced, AllocError>
    requires honest { IsTrue world.old.is_honest }
    ensures honest { IsTrue world.new.is_honest }
    ensures entry { IfOk result (λ entry.
        entry ≡ entry_of number line world.old.state step (step_result world.old.state step)) }
    ensures next { IfOk result (λ _. world.new.state ≡ next_state world.old.state step) }
{
    let before = Glimpse::of(alloc, world, step)?;
    match make(alloc, world, step) {
        Ok(()) => {
            let row = before.row(alloc, world, number, line, step)?;
            Ok(Traced::Made(row))
        }
        Err(cause) => {
            drop(before);
            if is_want(cause) {
                return Err(AllocError);
            }
            Ok(Traced::Refused(Refused {
                number,
                line,
                step,
                cause,
            }))
        }
    }
}

/// Makes the step. The world's store is in memory, and so the world stays honest.
fn make(alloc: Global, world: &mut World<MemStore>, step: Step) -> Result<(), StepError>
    requires honest { IsTrue world.old.is_honest }
    ensures honest { IsTrue world.new.is_honest }
    ensures made { OnOk result (step_result world.old.state step ≡ Ok world.new.state) }
    ensures same { OnErr result (world.new.state ≡ world.old.state) }
    ensures refusal { IfErr result (λ e. Refuses e (step_plan world.old.state step)) }
{
    world.step(alloc, step)
}

/// Whether a step was refused for want of memory. A store in memory refuses for nothing else.
fn is_want(cause: StepError) -> bool
    ensures { result ≡ is_want cause }
{
    matches!(cause, StepError::Store(_) | StepError::OutOfMemory)
}
