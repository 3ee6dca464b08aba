//! What a shard keeps for its workers, in bytes: a list by rising worker.
//! Cited by shard.rt, state.rt; whoever calls the trait `Entry`.

ghost use Rattle.std.specs.Prelude.{◌≡◌, ◌++◌, ℕ, List, All, IfOk, OnOk};
ghost use Rattle.std.specs.List.{flat_map};
ghost use Rattle.kt_ckpt.specs.Reading.{Gives, IsRising, Reader, rising_at};
ghost use Rattle.kt_ckpt.specs.State.{entry_bytes, entries_bytes, entries_at};

use crate::error::CkptError;
use crate::numbers::{byte_within, push_u64, u64_at};
use crate::op::{answer_at, op_at, push_answer, push_op};
use kt_shard::{CachedReply, Request};
use kt_tuple::MAX_WORKERS;
use std::alloc::{AllocError, Global};

/// What a shard keeps for one worker: a request that waits, or the last one that was served. Both lists are written and
/// read alike.
pub(crate) trait Entry: Sized + Drop {
    ghost spelled: { Self → List ℕ };

    ghost is_spelled: { Self → Type 0 };

    ghost reader: { Reader Self };

    /// Appends its bytes. The worker's number stands before them and is not among them.
    fn push_to(&self, out: &mut Vec<u8>) -> Result<(), AllocError>
        ensures ok { OnOk result (out.new.items ≡ out.old.items ++ spelled self.now) }
        ensures held { OnOk result (is_spelled self.now) };

    /// Reads the entry in front, and gives the bytes behind it.
    fn read(alloc: Global, bytes: &[u8]) -> Result<(Self, &[u8]), CkptError>
        ensures { Gives (λ x. (x.0, x.1.now)) result (reader bytes.now) };

    /// An equal entry with memory of its own.
    fn copy_entry(&self, alloc: Global) -> Result<Self, AllocError>
        ensures { IfOk result (λ x. x ≡ self.now) };
}

impl Entry for Request {
    ghost use Rattle.kt_ckpt.specs.State as states;

    ghost spelled = { states.request_bytes };

    ghost is_spelled = { states.IsRequest };

    ghost reader = { states.request_at };

    fn push_to(&self, out: &mut Vec<u8>) -> Result<(), AllocError> {
        push_u64(out, self.number)?;
        push_op(out, &self.op)
    }

    #[tactic(auto, unfolding(crate::specs::State::request_at))]
    fn read(alloc: Global, bytes: &[u8]) -> Result<(Request, &[u8]), CkptError> {
        let (number, rest) = u64_at(bytes)?;
        let (op, rest) = op_at(alloc, rest)?;
        Ok((Request { number, op }, rest))
    }

    fn copy_entry(&self, alloc: Global) -> Result<Request, AllocError> {
        self.copy(alloc)
    }
}

impl Entry for CachedReply {
    ghost use Rattle.kt_ckpt.specs.State as states;

    ghost spelled = { states.cached_bytes };

    ghost is_spelled = { states.IsCached };

    ghost reader = { states.cached_at };

    fn push_to(&self, out: &mut Vec<u8>) -> Result<(), AllocError> {
        self.request.push_to(out)?;
        push_answer(out, &self.answer)
    }

    #[tactic(auto, unfolding(crate::specs::State::cached_at))]
    fn read(alloc: Global, bytes: &[u8]) -> Result<(CachedReply, &[u8]), CkptError> {
        let (request, rest) = Request::read(alloc, bytes)?;
        let (answer, rest) = answer_at(alloc, rest)?;
        Ok((CachedReply { request, answer }, rest))
    }

    fn copy_entry(&self, alloc: Global) -> Result<CachedReply, AllocError> {
        self.copy(alloc)
    }
}

/// Appends how many entries there are, and the entries. They are pairs by rising worker, as in the bytes, and no table
/// with a place for each worker (docs/DECISIONS.md#checkpoints).
pub(crate) fn push_entries<E: Entry>(
    out: &mut Vec<u8>,
    entries: &[(u8, E)],
) -> Result<(), AllocError>
    requires { IsRising 1 entries.now }
    ensures ok { OnOk result (out.new.items ≡ out.old.items ++ entries_bytes E.spelled entries.now) }
    ensures held { OnOk result (All (λ x. E.is_spelled x.1) entries.now) }
{
    out.push(entries.len() as u8)?;
    push_each(out, entries)
}

fn push_each<E: Entry>(out: &mut Vec<u8>, entries: &[(u8, E)]) -> Result<(), AllocError>
    ensures ok { OnOk result (out.new.items ≡ out.old.items ++ flat_map (entry_bytes E.spelled) entries.now) }
    ensures held { OnOk result (All (λ x. E.is_spelled x.1) entries.now) }
{
    for entry in entries {
        out.push(entry.0)?;
        entry.1.push_to(out)?;
    }
    Ok(())
}

/// A list of entries, and the bytes behind it.
#[tactic(auto, unfolding(crate::specs::State::entries_at))]
pub(crate) fn entries_at<E: Entry>(
    alloc: Global,
    bytes: &[u8],
) -> Result<(Vec<(u8, E)>, &[u8]), CkptError>
    ensures value { Gives (λ x. (x.0.items, x.1.now)) result (entries_at E.reader bytes.now) }
    ensures rising { IfOk result (λ x. IsRising 1 x.0.items) }
{
    let (count, rest) = byte_within(0, MAX_WORKERS, bytes)?;
    rising_at(alloc, count, rest)
}

/// So many entries, each of a worker above the one before.
fn rising_at<E: Entry>(
    alloc: Global,
    count: u8,
    bytes: &[u8],
) -> Result<(Vec<(u8, E)>, &[u8]), CkptError>
    ensures value { Gives (λ x. (x.0.items, x.1.now)) result (rising_at E.reader 1 count bytes.now) }
    ensures rising { IfOk result (λ x. IsRising 1 x.0.items) }
{
    let mut entries = Vec::new(alloc);
    let mut rest = bytes;
    let mut least = 1;
    for _ in 0..count {
        let (worker, behind) = byte_within(least, MAX_WORKERS, rest)?;
        let (entry, after) = E::read(alloc, behind)?;
        entries.push((worker, entry))?;
        least = worker + 1;
        rest = after;
    }
    Ok((entries, rest))
}

/// Equal entries in the same order.
pub(crate) fn copy_entries<E: Entry>(
    alloc: Global,
    entries: &[(u8, E)],
) -> Result<Vec<(u8, E)>, AllocError>
    ensures { IfOk result (λ v. v.items ≡ entries.now) }
{
    let mut copies = Vec::with_capacity(alloc, entries.len())?;
    for entry in entries {
        copies.push((entry.0, entry.1.copy_entry(alloc)?))?;
    }
    Ok(copies)
}
