//! Steps made once more, from the opening of their scene: so it is known which step wrote each note, and which verdict
//! each check and each rollback got.
//! Cited by ending.rt.

ghost use Rattle.std.specs.Prelude.{◌≡◌, ◌≢◌, [], IfErr, IfOk, IfSome, IsNone, IsTrue, Ok, OnOk};
ghost use Rattle.kt_model.specs.Effect.{step_result};
ghost use Rattle.kt_model.specs.Headline.{IsNoted};
ghost use Rattle.kt_model.specs.Reached.{opening};
ghost use Rattle.kt_model.specs.State.{State};
ghost use Rattle.kt_model.specs.StepPlan.{step_plan};
ghost use Rattle.kt_core.specs.Stepping.{Refuses};
ghost use Rattle.kt_stage.specs.Journal.{all_made};
ghost use Rattle.kt_summary.specs.Remade.{AreMakers, IsRemade};
ghost use Rattle.kt_summary.specs.auxiliary.Wants.{is_want};

use kt_core::{Scene, Step, StepError, World};
use kt_history::Note;
use kt_store::MemStore;
use std::alloc::{AllocError, Global};

/// What the steps of a scene lead to.
#[derive(Debug, Drop)]
pub struct Remade {
    /// What is stored then: its board has the verdict of each check and each rollback, in the order in which they were
    /// begun.
    pub store: MemStore,
    /// For each note of the history the number of the step that made it, counted from 1.
    pub makers: Vec<u64>,
}

/// Makes the steps once more, from the opening of the scene's world over a store in memory. `None` where they do not
/// lead on from there: they were made in a world that was resumed. `AllocError` where memory is wanting.
pub fn remake(alloc: Global, scene: Scene, steps: &[Step]) -> Result<Option<Remade>, AllocError>
    ensures made { IfOk result (λ x. IfSome x (λ r.
        IsRemade (opening scene) steps.now r.store.content r.makers.items)) }
    ensures none { IfOk result (λ x. IsNone x
        → (s : State) → all_made (opening scene) steps.now ≢ Ok s) }
{
    let mut world = world_of(alloc, scene)?;
    match make_all(alloc, &mut world, steps) {
        Ok(Some(makers)) => {
            let store = world.into_store();
            Ok(Some(Remade { store, makers }))
        }
        Ok(None) => {
            drop(world);
            Ok(None)
        }
        Err(error) => {
            drop(world);
            Err(error)
        }
    }
}

/// A world of this scene over a store in memory, in which no step was made yet.
fn world_of(alloc: Global, scene: Scene) -> Result<World<MemStore>, AllocError>
    ensures state { IfOk result (λ world. world.state ≡ opening scene) }
    ensures honest { IfOk result (λ world. IsTrue world.is_honest) }
{
    match World::open(alloc, scene, MemStore::new(alloc)) {
        Ok(world) => Ok(world),
        // A fresh store in memory refuses for want of memory alone.
        Err(refused) => {
            drop(refused);
            Err(AllocError)
        }
    }
}

/// Whether a step was refused for want of memory. A store in memory refuses for nothing else.
fn is_want(cause: StepError) -> bool
    ensures { result ≡ is_want cause }
{
    matches!(cause, StepError::Store(_) | StepError::OutOfMemory)
}

/// Makes the steps, and gives for each new note the number of the step that made it; `None` where one is refused.
fn make_all(
    alloc: Global,
    world: &mut World<MemStore>,
    steps: &[Step],
) -> Result<Option<Vec<u64>>, AllocError>
    requires honest { IsTrue world.old.is_honest }
    requires nothing { world.old.state.history ≡ [] }
    ensures honest { IsTrue world.new.is_honest }
    ensures made { IfOk result (λ x. IfSome x (λ makers.
        AreMakers world.old.state steps.now world.new.state makers.items)) }
    ensures none { IfOk result (λ x. IsNone x
        → (s : State) → all_made world.old.state steps.now ≢ Ok s) }
{
    let mut makers = Vec::new(alloc);
    for (place, step) in steps.iter().enumerate() {
        if let Err(cause) = make(alloc, world, *step) {
            return if is_want(cause) {
                Err(AllocError)
            } else {
                Ok(None)
            };
        }
        if makers.len() < notes_of(world).len() {
            makers.push(place as u64 + 1)?;
        }
    }
    Ok(Some(makers))
}

/// Makes the step. Of what the world promises of it these clauses say what is needed here.
fn make(alloc: Global, world: &mut World<MemStore>, step: Step) -> Result<(), StepError>
    requires honest { IsTrue world.old.is_honest }
    ensures honest { IsTrue world.new.is_honest }
    ensures made { OnOk result (step_result world.old.state step ≡ Ok world.new.state) }
    ensures refusal { IfErr result (λ e. Refuses e (step_plan world.old.state step)) }
    ensures noted { OnOk result (IsNoted world.old.state step world.new.state) }
{
    world.step(alloc, step)
}

/// What happened so far.
fn notes_of(world: &World<MemStore>) -> &[Note]
    ensures { result.now ≡ world.now.state.history }
{
    world.history().notes()
}
