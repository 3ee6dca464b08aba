//! The journal: a world, and all steps that were made in it.
//! Cited by closing.rt, crossing.rt, ending.rt, locked_journal.rt, running.rt, stage.rt; other crates.

ghost use Rattle.std.specs.Prelude.{◌≡◌, []};

use kt_core::{Step, World};
use kt_store::CkptStore;
use std::alloc::Global;
use std::marker::Model;

/// A world, and all steps that were made in it on a stage.
#[derive(Debug, Drop)]
pub struct Journal<S: CkptStore> {
    pub(crate) world: World<S>,
    pub(crate) steps: Vec<Step>,
}

impl<S: CkptStore> Model for Journal<S> {
    ghost use Rattle.kt_stage.specs.Journal.{Journal};

    ghost Value = { Journal };

    ghost view = { λ j. record { world = j.world; steps = j.steps.items } };
}

impl<S: CkptStore> Journal<S> {
    /// The journal of a world in which nothing was done yet. It takes no memory.
    pub(crate) fn unbegun(alloc: Global, world: World<S>) -> Journal<S>
        ensures world { result.world ≡ world }
        ensures steps { result.steps ≡ [] }
    {
        let steps = Vec::new(alloc);
        Journal { world, steps }
    }

    /// The world as the steps left it.
    pub fn world(&self) -> &World<S>
        ensures { result.now ≡ self.now.world }
    {
        &self.world
    }

    /// The steps that were made on the stage, the first first; refused ones are not among them.
    pub fn steps(&self) -> &[Step]
        ensures { result.now ≡ self.now.steps }
    {
        &self.steps
    }

    /// Hands the world on; the list of steps is dropped.
    pub fn into_world(self) -> World<S>
        ensures { result ≡ self.world }
    {
        self.world
    }
}
