//! The cause of a service.
//! Cited by planning.rt, short_plans.rt.

ghost use Rattle.std.specs.Prelude.{◌≡◌};
ghost use Rattle.kt_logs.specs.Cause.{cause_of_waiting, hears_worker};

use kt_history::{Act, History, What};
use kt_tuple::NodeId;

/// Whether the act is the hearing of a request of the worker of this number.
fn hears(act: &Act, worker: u8) -> bool
    ensures { result ≡ hears_worker worker act.now }
{
    matches!(act.what, What::Heard) && act.worker == worker
}

/// The cause of the hearing that put the worker's request in waiting; 0 where the shard's log has none.
pub(crate) fn cause_of_waiting(history: &History, shard: NodeId, worker: u8) -> u64
    ensures { result ≡ cause_of_waiting history.now.notes shard worker }
{
    // From the end: a shard hears a request only where its number is above all before, so the last one waits.
    let mut rest = history.line(shard);
    while let Some((number, before)) = rest.split_last() {
        if let Some(act) = history.act(*number) {
            if hears(act, worker) {
                return act.by;
            }
        }
        rest = before;
    }
    0
}
