//! The two ways in which a world begins over its store.
//! Cited by other crates.

ghost use Rattle.std.specs.Prelude.{◌≡◌, IfErr, IfOk, IsTrue};
ghost use Rattle.kt_store.specs.Calls.{NeverFails};
ghost use Rattle.kt_core.specs.Store.{store_value};
ghost use Rattle.kt_core.specs.Starting.{Begins, IsErrorOf, IsUnbegun};

use crate::resuming::{ResumeError, ResumeRefused};
use crate::world::{OpenError, OpenRefused, World};
use kt_scenario::Scene;
use kt_store::CkptStore;
use std::alloc::Global;

/// How a world begins over its store.
#[derive(Clone, Copy, Debug, PartialEq, Eq)]
pub enum Start {
    /// It is opened: nothing was ever stored.
    Open,
    /// It is resumed: it goes on from what is stored.
    Resume,
}

/// Why a world did not begin.
#[derive(Clone, Copy, Debug, PartialEq, Eq)]
pub enum StartError {
    /// It was not opened.
    Open(OpenError),
    /// It was not resumed.
    Resume(ResumeError),
}

/// A world that did not begin, and what was to be its own.
#[derive(Debug, Drop)]
pub struct StartRefused<S> {
    /// Why the world did not begin.
    pub cause: StartError,
    /// The scene that was handed in, unchanged.
    pub scene: Scene,
    /// The store that was handed in. While it is honest, it holds what it held.
    pub store: S,
}

impl Start {
    /// The world of the scene that begins so over the store. Where it is refused, scene and store come back, and the
    /// store holds what it held.
    pub fn begin<S: CkptStore>(
        self,
        alloc: Global,
        scene: Scene,
        store: S,
    ) -> Result<World<S>, StartRefused<S>>
        ensures begins { IfOk result (λ w. IsTrue w.is_honest → Begins self (S.content store) scene w.state) }
        ensures honest { IfOk result (λ w. IsTrue w.is_honest → IsTrue (S.is_honest store)) }
        ensures lasts { IfOk result (λ w. NeverFails S.failures → IsTrue (S.is_honest store) → IsTrue w.is_honest) }
        ensures counts { IfOk result (λ w. w.counts ≡ S.counts store) }
        ensures scene_back { IfErr result (λ refused. refused.scene ≡ scene) }
        ensures kind { IfErr result (λ refused. IsErrorOf self refused.cause) }
        ensures refused { IfErr result (λ refused. IsUnbegun scene
            (store_value S.CkptStore store) (store_value S.CkptStore refused.store) refused.cause) }
    {
        match self {
            Start::Open => match World::open(alloc, scene, store) {
                Ok(world) => Ok(world),
                Err(refused) => Err(unopened(refused)),
            },
            Start::Resume => match World::resume(alloc, scene, store) {
                Ok(world) => Ok(world),
                Err(refused) => Err(unresumed(refused)),
            },
        }
    }
}

fn unopened<S>(refused: OpenRefused<S>) -> StartRefused<S>
    ensures { result ≡ record {
      cause = StartError.Open refused.cause;
      scene = refused.scene;
      store = refused.store;
    } }
{
    let OpenRefused {
        cause,
        scene,
        store,
    } = refused;
    StartRefused {
        cause: StartError::Open(cause),
        scene,
        store,
    }
}

fn unresumed<S>(refused: ResumeRefused<S>) -> StartRefused<S>
    ensures { result ≡ record {
      cause = StartError.Resume refused.cause;
      scene = refused.scene;
      store = refused.store;
    } }
{
    let ResumeRefused {
        cause,
        scene,
        store,
    } = refused;
    StartRefused {
        cause: StartError::Resume(cause),
        scene,
        store,
    }
}
