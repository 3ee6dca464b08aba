//! How a world goes on from what a store holds.
//! Cited by start.rt; other crates.

ghost use Rattle.std.specs.Prelude.{◌≡◌, All, IfErr, IfOk, IsTrue, OnOk};
ghost use Rattle.kt_store.specs.Calls.{NeverFails};
ghost use Rattle.kt_model.specs.Resumed.{AreFit, history_of, resumed};
ghost use Rattle.kt_resume.specs.Found.{content_of};
ghost use Rattle.kt_resume.specs.Judging.{IsGood};
ghost use Rattle.kt_core.specs.declared.resuming.ResumeError.TheVariants as refusals;
ghost use Rattle.kt_core.specs.auxiliary.Calls.{IsRead};
ghost use Rattle.kt_core.specs.auxiliary.Gathering.{AreAllFound, IsFoundUnfit, IsGatheredBy, IsOfContent, IsOfSome};
ghost use Rattle.kt_core.specs.auxiliary.Gathering.{IsUnjudged};
ghost use Rattle.kt_core.specs.auxiliary.Gathering.{found_in, instance_in};
ghost use Rattle.kt_core.specs.auxiliary.Machine.{state_of};
ghost use Rattle.kt_core.specs.Resuming.{IsFirstUnfit, resuming_counted};

use crate::machine::Machine;
use crate::space::tentative_of;
use crate::world::World;
use kt_history::History;
use kt_resume::{Found, first_unfit, history_of};
use kt_scenario::Scene;
use kt_store::{CkptStore, StoreError, TentativeHeader, Verdict};
use kt_tuple::NodeId;
use std::alloc::{AllocError, Global};
use thiserror::Error;

/// Why a world was not resumed.
#[derive(Clone, Copy, Debug, PartialEq, Eq, Error)]
pub enum ResumeError {
    /// What the store holds of this node is not what a world of this scene leaves. It is the first such node in node
    /// order.
    #[error("Unfit")]
    Unfit { node: NodeId },
    /// A call of the store was refused.
    #[error("Store")]
    Store(StoreError),
    /// Memory ran out for the tables of the world, or for making it again.
    #[error("OutOfMemory")]
    OutOfMemory,
}

impl From<StoreError> for ResumeError {
    ghost use Rattle.std.specs.Prelude.{◌≡◌};
    ghost use Rattle.kt_core.specs.declared.resuming.ResumeError.TheVariants as refusals;

    ghost from_gives = { λ refusal e. e ≡ refusals.Store refusal };

    fn from(refusal: StoreError) -> ResumeError {
        ResumeError::Store(refusal)
    }
}

impl From<AllocError> for ResumeError {
    ghost use Rattle.std.specs.Prelude.{◌≡◌};
    ghost use Rattle.kt_core.specs.declared.resuming.ResumeError.TheVariants as refusals;

    ghost from_gives = { λ _ e. e ≡ refusals.OutOfMemory };

    fn from(_: AllocError) -> ResumeError {
        ResumeError::OutOfMemory
    }
}

/// A world that was not resumed, and what was to be its own.
#[derive(Debug, Drop)]
pub struct ResumeRefused<S> {
    /// Why the world was not resumed.
    pub cause: ResumeError,
    /// The scene that was handed in, unchanged.
    pub scene: Scene,
    /// The store that was handed in. While it is honest, it holds what it held.
    pub store: S,
}

/// The instance of the node's tentative checkpoint, if it has one.
fn instance_of<S: CkptStore>(
    store: &mut S,
    alloc: Global,
    node: NodeId,
) -> Result<Option<u64>, StoreError>
    ensures { IsRead S.CkptStore store.old store.new (λ c i. i ≡ instance_in c node) result }
{
    match store.tentative_header(alloc, node)? {
        Some(TentativeHeader { instance, .. }) => Ok(Some(instance)),
        None => Ok(None),
    }
}

/// What the store holds of the node. Of two checkpoints only the one that counts is read whole.
fn find<S: CkptStore>(store: &mut S, alloc: Global, node: NodeId) -> Result<Found, StoreError>
    ensures { IsRead S.CkptStore store.old store.new (λ c f. f ≡ found_in c node) result }
{
    let incarnation = store.incarnation(node)?;
    let verdict = match instance_of(store, alloc, node)? {
        Some(instance) => Some(store.verdict(instance)?),
        None => None,
    };
    let checkpoint = if let Some(Some(Verdict::Yes)) = verdict {
        tentative_of(store, alloc, node)?
    } else {
        store.permanent(alloc, node)?
    };
    Ok(Found {
        node,
        incarnation,
        checkpoint,
        has_instance_row: !matches!(verdict, Some(None)),
    })
}

/// What the store holds of each node, in node order.
fn find_all<S: CkptStore>(store: &mut S, alloc: Global) -> Result<Vec<Found>, ResumeError>
    ensures unjudged { IfErr result IsUnjudged }
    ensures found { IsGatheredBy S.CkptStore store.old store.new
        (λ c found. AreAllFound c found.items) result }
{
    let nodes = store.nodes(alloc)?;
    let mut found = Vec::with_capacity(alloc, nodes.len())?;
    for node in &nodes {
        let row = find(store, alloc, *node)?;
        found.push(row).map_err(AllocError::from)?;
    }
    Ok(found)
}

/// The history of what was found, where it fits the scene.
fn fitting_history(alloc: Global, scene: &Scene, found: &[Found]) -> Result<History, ResumeError>
    ensures notes { IfOk result (λ h. h.notes ≡ history_of scene.now (content_of found.now)) }
    ensures fits { OnOk result (All (IsGood scene.now (content_of found.now)) found.now) }
    ensures refused { IfErr result (IsFoundUnfit scene.now found.now) }
{
    let (shards, scripts) = (scene.shards(), scene.scripts());
    let history = history_of(alloc, shards, scripts, found)?;
    match first_unfit(alloc, shards, scripts, found, &history)? {
        None => Ok(history),
        Some(node) => Err(ResumeError::Unfit { node }),
    }
}

/// The history of what the store holds, where it fits the scene, and the greatest number of an instance that was given.
/// All checkpoints are let go before it is handed on.
fn gather<S: CkptStore>(
    store: &mut S,
    alloc: Global,
    scene: &Scene,
) -> Result<(History, u64), ResumeError>
    ensures gathered { IsGatheredBy S.CkptStore store.old store.new
        (λ c g. IsOfContent scene.now c g.0.notes g.1) result }
    ensures some { IfOk result (λ g. IsOfSome scene.now g.0.notes) }
    ensures unfit { IsTrue (S.is_honest store.new) → IfErr result (λ e. (p : NodeId)
        → e ≡ refusals.Unfit p → IsFirstUnfit scene.now (S.content store.old) p) }
{
    let found = find_all(store, alloc)?;
    let next = store.next_instance()?;
    let history = fitting_history(alloc, scene, &found)?;
    Ok((history, next.saturating_sub(1)))
}

impl<S: CkptStore> World<S> {
    ghost use Rattle.kt_tuple.specs.declared.node.NodeId.{NodeId};
    ghost use Rattle.kt_model.specs.Headline.{Headline};
    ghost use Rattle.kt_core.specs.Resuming.{GoesOn, IsResumeCause};

    /// The world of the scene that goes on from what the store holds, after the program was stopped: every node is
    /// down, nothing is on its way, and what happened are the acts that the permanent checkpoints hold. Nothing is
    /// written. The scene has to be the one under which these acts were made; where it is seen that it is not, the
    /// world is refused with the first node that does not fit. Where it is refused, scene and store come back, and the
    /// store holds what it held.
    pub fn resume(alloc: Global, scene: Scene, store: S) -> Result<World<S>, ResumeRefused<S>>
        ensures resumed { IfOk result (λ w. IsTrue w.is_honest → w.state ≡ resumed scene (S.content store)) }
        ensures fits { IfOk result (λ w. IsTrue w.is_honest → AreFit scene (S.content store)) }
        ensures honest { IfOk result (λ w. IsTrue w.is_honest → IsTrue (S.is_honest store)) }
        ensures lasts { IfOk result (λ w. NeverFails S.failures → IsTrue (S.is_honest store) → IsTrue w.is_honest) }
        ensures headline { IfOk result (λ w. IsTrue w.is_honest → Headline w.state) }
        ensures goes_on { IfOk result (λ w. GoesOn scene w.state) }
        ensures scene_back { IfErr result (λ refused. refused.scene ≡ scene) }
        ensures content_back { IfErr result (λ refused.
            IsTrue (S.is_honest refused.store) → S.content refused.store ≡ S.content store) }
        ensures honest_back { IfErr result (λ refused.
            IsTrue (S.is_honest refused.store) → IsTrue (S.is_honest store)) }
        ensures unfit { IfErr result (λ refused. (p : NodeId) → refused.cause ≡ refusals.Unfit p
            → IsTrue (S.is_honest refused.store) → IsFirstUnfit scene (S.content store) p) }
        ensures cause { IfErr result (λ refused. IsResumeCause (S.is_honest refused.store) refused.cause) }
        ensures counts { IfOk result (λ w. w.counts ≡ S.counts store) }
        ensures counts_back { IfErr result (λ refused.
            S.counts refused.store ≡ resuming_counted refused.cause (S.counts store)) }
    {
        let mut store = store;
        match gather(&mut store, alloc, &scene) {
            Ok((history, found)) => World::resume_with(alloc, scene, store, history, found),
            Err(cause) => Err(ResumeRefused {
                cause,
                scene,
                store,
            }),
        }
    }

    /// The greatest number of an instance that its store held when it was resumed, 0 where it held none; `None` of a
    /// world that was opened.
    pub fn found(&self) -> Option<u64>
        ensures { result ≡ self.now.state.found }
    {
        self.machine.found
    }

    /// As `resume`, with what was gathered: want of memory alone refuses it.
    fn resume_with(
        alloc: Global,
        scene: Scene,
        store: S,
        history: History,
        found: u64,
    ) -> Result<World<S>, ResumeRefused<S>>
        requires some { IsOfSome scene history.notes }
        requires gathered { IsTrue (S.is_honest store) → IsOfContent scene (S.content store) history.notes found }
        ensures resumed { IfOk result (λ w. IsTrue w.is_honest → w.state ≡ resumed scene (S.content store)) }
        ensures honest { IfOk result (λ w. w.is_honest ≡ S.is_honest store) }
        ensures headline { IfOk result (λ w. IsTrue w.is_honest → Headline w.state) }
        ensures goes_on { IfOk result (λ w. GoesOn scene w.state) }
        ensures counts { IfOk result (λ w. w.counts ≡ S.counts store) }
        ensures scene_back { IfErr result (λ refused. refused.scene ≡ scene) }
        ensures store_back { IfErr result (λ refused. refused.store ≡ store) }
        ensures cause { IfErr result (λ refused. refused.cause ≡ refusals.OutOfMemory) }
    {
        match Machine::resumed(alloc, scene, history, found) {
            Ok(machine) => Ok(World { machine, store }),
            Err(scene) => Err(ResumeRefused {
                cause: ResumeError::OutOfMemory,
                scene,
                store,
            }),
        }
    }
}
