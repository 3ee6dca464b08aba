//! What can be told of a world for the rules of the policy.
//! Cited by policy.rt, waking.rt.

ghost use Rattle.std.specs.Prelude.{◌≡◌, false, IsTrue};
ghost use Rattle.std.specs.Option.{option_copied};
ghost use Rattle.kt_tuple.specs.Node.{node_index};
ghost use Rattle.kt_state.specs.Node.{node_number};
ghost use Rattle.kt_node.specs.Talking.{home};
ghost use Rattle.kt_stage.specs.Asking.{IsAsked};
ghost use Rattle.kt_stage.specs.Policy.{got_no, has_silent, if_allowed, is_down, is_forgotten, is_in_traffic};
ghost use Rattle.kt_stage.specs.Policy.{is_lost_request, is_silent, is_up, lets_restart, owes_vote, unanswered};
ghost use Rattle.kt_stage.specs.Policy.{waits_in, waits_in_vain, will_vote};
ghost use Rattle.kt_core.specs.Lent.{shard, worker};
ghost use Rattle.kt_scenario.specs.Scene.{is_node};
ghost use Rattle.kt_model.specs.ReadSet.{poll_at};

use crate::traffic::{Sought, is_kept, is_on_link};
use kt_core::{Step, World};
use kt_node::Mode;
use kt_store::{CkptStore, StoreError};
use kt_tuple::{NodeId, Op};
use kt_vote::Ballot;
use std::alloc::Global;

/// Whether the node is up: no where it is held, rolls back, is down or is not in the scene.
pub(crate) fn is_up<S: CkptStore>(world: &World<S>, node: NodeId) -> bool
    ensures value { result ≡ is_up world.now.state node }
    ensures there { IsTrue result → IsTrue (is_node world.now.state.scene node) }
{
    matches!(world.mode(node), Some(Mode::Up))
}

/// Whether the node is down, or not in the scene.
pub(crate) fn is_down<S: CkptStore>(world: &World<S>, node: NodeId) -> bool
    ensures value { result ≡ is_down world.now.state node }
    ensures there { result ≡ false → IsTrue (is_node world.now.state.scene node) }
{
    matches!(world.mode(node), None | Some(Mode::Down))
}

/// The step where it is allowed, the limit of steps left aside; else `None`.
pub(crate) fn if_allowed<S: CkptStore>(
    world: &mut World<S>,
    alloc: Global,
    step: Step,
) -> Result<Option<Step>, StoreError>
    ensures { IsAsked S.CkptStore world.old world.new (λ s x. x ≡ if_allowed s step) result }
{
    if world.is_allowed(alloc, step)? {
        Ok(Some(step))
    } else {
        Ok(None)
    }
}

/// Whether the node began a rollback that got No, and still rolls: of nodes that roll these alone may restart.
pub(crate) fn got_no<S: CkptStore>(
    world: &mut World<S>,
    alloc: Global,
    node: NodeId,
) -> Result<bool, StoreError>
    ensures { IsAsked S.CkptStore world.old world.new (λ s x. x ≡ got_no s node) result }
{
    match world.mode(node) {
        Some(Mode::Rolling) => world.is_allowed(alloc, Step::Restart { node }),
        _ => Ok(false),
    }
}

/// Whether the other does not stand in the way of the node's restart.
pub(crate) fn lets_restart<S: CkptStore>(
    world: &mut World<S>,
    alloc: Global,
    node: NodeId,
    other: NodeId,
) -> Result<bool, StoreError>
    ensures { IsAsked S.CkptStore world.old world.new (λ s x. x ≡ lets_restart s node other) result }
{
    match world.mode(other) {
        None | Some(Mode::Up) => Ok(true),
        _ => Ok(other == node || got_no(world, alloc, other)? && node.is_before(other)),
    }
}

/// Whether the node holds this request of the worker as waiting.
fn waits_in<S: CkptStore>(world: &World<S>, node: NodeId, worker: u8, number: u64, op: &Op) -> bool
    ensures { result ≡ waits_in (shard world.now.state node) worker (number, op.now) }
{
    match world.shard(node) {
        None => false,
        Some(shard) => match shard.waiting(worker) {
            None => false,
            Some(request) => request.number == number && request.op == *op,
        },
    }
}

/// Whether something with this number goes between the two, or is kept back by one of them.
fn is_in_traffic<S: CkptStore>(world: &World<S>, p: NodeId, q: NodeId, number: u64) -> bool
    ensures { result ≡ is_in_traffic world.now.state p q number }
{
    is_on_link(world, p, q, Sought::Number(number))
        || is_on_link(world, q, p, Sought::Number(number))
        || is_kept(world, p, q, number)
        || is_kept(world, q, p, number)
}

/// Whether the request has come to nothing with this shard: it is up, does not hold it as waiting, and nothing with its
/// number goes between the two. Another worker's request with the same number does not count: counted, it could keep a
/// lost one from ever being asked again (docs/DECISIONS.md#threads).
fn is_forgotten<S: CkptStore>(
    world: &World<S>,
    node: NodeId,
    home: NodeId,
    number: u64,
    op: &Op,
) -> bool
    ensures { result ≡ is_forgotten world.now.state node home (number, op.now) }
{
    is_up(world, home)
        && !waits_in(world, home, node.number(), number, op)
        && !is_in_traffic(world, node, home, number)
}

/// Whether the node's unanswered request has come to nothing.
pub(crate) fn is_lost_request<S: CkptStore>(world: &World<S>, node: NodeId) -> bool
    ensures { result ≡ is_lost_request world.now.state node (unanswered (worker world.now.state node)) }
{
    let Some(worker) = world.worker(node) else {
        return false;
    };
    let Some((number, op)) = worker.again() else {
        return false;
    };
    let home = NodeId::Shard(op.signature().shard_of(world.scene().shards()));
    is_forgotten(world, node, home, number, op)
}

/// Whether the other votes in the ballot's instance, asked by the node in the ballot's incarnation, and has not voted.
fn will_vote(node: NodeId, ballot: &Ballot, other: Option<&Ballot>) -> bool
    ensures { result ≡ will_vote node ballot.now (option_copied other.entry) }
{
    let Some(other) = other else {
        return false;
    };
    let Some(asker) = other.parent() else {
        return false;
    };
    other.instance() == ballot.instance()
        && asker.node == node
        && asker.incarnation == ballot.incarnation()
        && !other.has_voted()
}

/// Whether the other owes the node a vote.
fn owes_vote<S: CkptStore>(world: &World<S>, node: NodeId, ballot: &Ballot, other: NodeId) -> bool
    ensures { result ≡ owes_vote world.now.state node ballot.now other }
{
    let instance = ballot.instance();
    let incarnation = ballot.incarnation();
    is_on_link(
        world,
        node,
        other,
        Sought::Ask {
            instance,
            incarnation,
        },
    ) || is_on_link(
        world,
        other,
        node,
        Sought::Vote {
            instance,
            incarnation,
        },
    ) || will_vote(node, ballot, world.ballot(other))
}

/// Whether a node that this one awaits owes it no vote.
fn has_silent<S: CkptStore>(world: &World<S>, node: NodeId, ballot: &Ballot) -> bool
    ensures { result ≡ has_silent world.now.state node ballot.now }
{
    ballot.asked().iter().any(|other| ballot.awaits(*other)
        && !owes_vote(world, node, ballot, *other))
}

/// Whether the node votes, and a node that it awaits owes it no vote; no where it does not vote.
pub(crate) fn waits_in_vain<S: CkptStore>(world: &World<S>, node: NodeId) -> bool
    ensures { result ≡ waits_in_vain world.now.state node (poll_at world.now.state node) }
{
    match world.ballot(node) {
        None => false,
        Some(ballot) => has_silent(world, node, ballot),
    }
}
