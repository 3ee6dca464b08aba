//! The write of a plan.
//! Cited by stepping.rt.

ghost use Rattle.std.specs.Prelude.{◌≡◌, IfSome, IsOk, IsTrue, None};
ghost use Rattle.kt_model.specs.auxiliary.Backed.{IsAllowed};
ghost use Rattle.kt_model.specs.Writing.{content_after};
ghost use Rattle.kt_core.specs.auxiliary.Calls.{IsWritten};

use kt_node::Write;
use kt_store::{CkptStore, StoreError};
use kt_tuple::NodeId;

/// Makes the write of the node's plan, if there is one. Where there is none the store is not called.
pub(crate) fn write<S: CkptStore>(
    store: &mut S,
    node: NodeId,
    write: &Option<Write>,
) -> Result<(), StoreError>
    requires allowed { IsTrue (S.is_honest store.old) → IfSome write.now (IsAllowed (S.content store.old) node) }
    ensures written { IsWritten S.CkptStore store.old store.new node
        (content_after node write.now) result }
    ensures quiet { write.now ≡ None → IsOk result }
{
    match write {
        None => Ok(()),
        Some(Write::BeginCheck(checkpoint)) => store.begin_check(node, checkpoint),
        Some(
            Write::PutTentative {
                instance,
                checkpoint,
            },
        ) => store.put_tentative(node, *instance, checkpoint),
        Some(Write::Promote) => store.promote(node),
        Some(Write::Discard) => store.discard(node),
        Some(Write::BeginRestart) => store.begin_restart(node),
        Some(Write::Bump) => store.bump(node),
        Some(Write::Decide { instance, yes }) => store.decide(*instance, *yes),
    }
}
