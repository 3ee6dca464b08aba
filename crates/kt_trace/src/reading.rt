//! What is read of a world, each by one function. Its contract says no more of what the world promises than is needed
//! here, so that the proofs of those that call it have less to read.
//! Cited by glimpse.rt, ways.rt.

ghost use Rattle.std.specs.Prelude.{◌≡◌, length};
ghost use Rattle.std.specs.Option.{option_copied};
ghost use Rattle.kt_history.specs.Survival.{lost_count};
ghost use Rattle.kt_model.specs.State.{link};
ghost use Rattle.kt_core.specs.Lent.{kept, message_at};

use kt_core::World;
use kt_history::Note;
use kt_state::Message;
use kt_store::{InstanceRow, MemStore};
use kt_tuple::NodeId;

/// How many messages are on their way from one to the other.
pub(crate) fn link_len(world: &World<MemStore>, from: NodeId, to: NodeId) -> usize
    ensures { result ≡ length (link world.now.state from to) }
{
    world.link_len(from, to)
}

/// The message at this place on the way from one to the other.
pub(crate) fn link_at(
    world: &World<MemStore>,
    from: NodeId,
    to: NodeId,
    place: usize,
) -> Option<&Message>
    ensures { option_copied result ≡ message_at world.now.state from to place }
{
    world.link_at(from, to, place)
}

/// How many messages the node keeps back.
pub(crate) fn kept_len(world: &World<MemStore>, node: NodeId) -> usize
    ensures { result ≡ length (kept world.now.state node) }
{
    world.kept_len(node)
}

/// What happened so far.
pub(crate) fn notes_of(world: &World<MemStore>) -> &[Note]
    ensures { result.now ≡ world.now.state.history }
{
    world.history().notes()
}

/// How many services do not survive.
pub(crate) fn lost_of(world: &World<MemStore>) -> u64
    ensures { result ≡ lost_count world.now.state.history }
{
    world.history().lost_count()
}

/// The store.
pub(crate) fn store_of(world: &World<MemStore>) -> &MemStore
    ensures { result.now.content ≡ world.now.state.content }
{
    world.store()
}

/// The instances that were begun.
pub(crate) fn board_of(world: &World<MemStore>) -> &[InstanceRow]
    ensures { result.now ≡ world.now.state.content.board }
{
    store_of(world).board()
}
