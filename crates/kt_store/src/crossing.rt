//! That a store in memory may go to another thread, type by type from within. One search would have to go from the
//! store down to the letters of a tuple, and gives up before it is there.
//! Cited by other crates.

ghost use denote.Param.Send.{IsSend};
ghost use Rattle.std.specs.contracts.alloc.Global.{the_row as memory_of};
ghost use Rattle.std.specs.contracts.impls.GlobalAllocator.TheImpl.{ghosts};
ghost use Rattle.std.specs.contracts.vec.Vec.{the_row as list_row};
ghost use Rattle.kt_store.specs.contracts.rows.NodeRow.{the_row as node_row};
ghost use Rattle.kt_store.specs.contracts.contents.Contents.{the_row as contents_row};
ghost use Rattle.kt_store.specs.contracts.memory.MemStore.{the_row as memory_row};

use crate::contents::Contents;
use crate::memory::MemStore;
use crate::rows::NodeRow;

/// Values of this type may go to another thread.
fn may_go<T: Send>()
    ensures { IsSend T.row }
{}

fn rows_may_go()
    ensures { IsSend (list_row node_row memory_of ghosts) }
{
    may_go::<Vec<NodeRow>>();
}

fn contents_may_go()
    ensures { IsSend contents_row }
{
    rows_may_go();
    may_go::<Contents>();
}

/// A store in memory may go to another thread, though its checkpoints share what they hold. It does nothing: whoever
/// hands one to a thread calls it first, and the prover has this fact at hand.
pub fn memory_may_go()
    ensures { IsSend memory_row }
{
    contents_may_go();
    may_go::<MemStore>();
}
