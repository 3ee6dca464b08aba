//! Lists of a checkpoint, one thing behind the other.
//! Cited by decode.rt, old.rt, shard.rt, tuple.rt, worker.rt.

ghost use Rattle.std.specs.Prelude.{◌≡◌, IfOk, length};
ghost use Rattle.kt_ckpt.specs.Reading.{Gives, Reader, list_at};

use crate::error::CkptError;
use std::alloc::Global;

/// What stands in a list of a checkpoint.
pub(crate) trait Listed: Sized + Drop {
    ghost reader: { Reader Self };

    /// Reads the thing in front, and gives the bytes behind it.
    fn read(alloc: Global, bytes: &[u8]) -> Result<(Self, &[u8]), CkptError>
        ensures { Gives (λ x. (x.0, x.1.now)) result (reader bytes.now) };
}

/// So many things, and the bytes behind them.
pub(crate) fn list_at<T: Listed>(
    alloc: Global,
    count: u32,
    bytes: &[u8],
) -> Result<(Vec<T>, &[u8]), CkptError>
    ensures value { Gives (λ x. (x.0.items, x.1.now)) result (list_at T.reader count bytes.now) }
    ensures len { IfOk result (λ x. length x.0.items ≡ count) }
{
    let mut things = Vec::new(alloc);
    let mut rest = bytes;
    for _ in 0..count {
        let (thing, after) = T::read(alloc, rest)?;
        things.push(thing)?;
        rest = after;
    }
    Ok((things, rest))
}
