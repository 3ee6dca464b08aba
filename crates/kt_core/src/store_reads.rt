//! What the store says to the owner of a step.
//! Cited by stepping.rt, world.rt.

ghost use Rattle.std.specs.Prelude.{◌≡◌, ◌+◌, ◌<◌, ◌^◌, IfOk, IsOk, IsTrue, None, false, if◌then◌else◌};
ghost use Rattle.kt_store.specs.Content.{next_instance, open_of, permanent_header};
ghost use Rattle.kt_model.specs.ReadSet.{empty_read_set, nothing_stored};
ghost use Rattle.kt_model.specs.auxiliary.Reading.{answer_to, reads_by};
ghost use Rattle.kt_model.specs.StoreReads.{stored_of, tentative_in};
ghost use Rattle.kt_core.specs.auxiliary.Calls.{IsRead};

use kt_ckpt::CkptHeader;
use kt_model::{ReadSet, StoreReads, VerdictQuery};
use kt_node::Stored;
use kt_store::{CkptStore, StoreError, TentativeHeader, Verdict};
use kt_tuple::NodeId;
use std::alloc::Global;

/// The verdict that is asked after: read from the board at each step that goes by it, and remembered by nobody. A node
/// that fails forgets all but what is stored, and one that is down drops the message that tells of a verdict.
fn read_verdict<S: CkptStore>(
    store: &mut S,
    alloc: Global,
    node: NodeId,
    query: VerdictQuery,
) -> Result<Option<Verdict>, StoreError>
    ensures store_reads { IsRead S.CkptStore store.old store.new
        (λ c v. v ≡ answer_to c node query) result }
    ensures quiet { query ≡ VerdictQuery.Nothing → IsOk result }
{
    match query {
        VerdictQuery::Nothing => Ok(None),
        VerdictQuery::Of(instance) => store.verdict(instance),
        VerdictQuery::OfTentative => match store.tentative_header(alloc, node)? {
            Some(TentativeHeader { instance, .. }) => store.verdict(instance),
            None => Ok(None),
        },
    }
}

/// Acts and labels of the permanent checkpoint, where they are asked for. The header has a call of its own, so that a
/// failure over a store in memory costs nothing that grows with the tuples (docs/DECISIONS.md#stores).
fn read_permanent<S: CkptStore>(
    store: &mut S,
    alloc: Global,
    node: NodeId,
    is_asked: bool,
) -> Result<Option<CkptHeader>, StoreError>
    ensures store_reads { IsRead S.CkptStore store.old store.new
        (λ c m. m ≡ (if is_asked then permanent_header c node else None)) result }
    ensures quiet { is_asked ≡ false → IsOk result }
{
    if is_asked {
        store.permanent_header(alloc, node)
    } else {
        Ok(None)
    }
}

/// Acts and labels of the tentative checkpoint, where they are asked for; `None` where the node has none.
fn read_tentative<S: CkptStore>(
    store: &mut S,
    alloc: Global,
    node: NodeId,
    is_asked: bool,
) -> Result<Option<CkptHeader>, StoreError>
    ensures store_reads { IsRead S.CkptStore store.old store.new
        (λ c m. m ≡ (if is_asked then tentative_in c node else None)) result }
    ensures quiet { is_asked ≡ false → IsOk result }
{
    if !is_asked {
        return Ok(None);
    }
    match store.tentative_header(alloc, node)? {
        Some(TentativeHeader { header, .. }) => Ok(Some(header)),
        None => Ok(None),
    }
}

/// The incarnation and the permanent checkpoint, where they are asked for. No incarnation of an honest store is the
/// greatest number of all. From another store it is damage, since who loads the checkpoint counts one further.
fn read_stored<S: CkptStore>(
    store: &mut S,
    alloc: Global,
    node: NodeId,
    is_asked: bool,
) -> Result<Stored, StoreError>
    ensures store_reads { IsRead S.CkptStore store.old store.new
        (λ c s. s ≡ (if is_asked then stored_of c node else nothing_stored)) result }
    ensures quiet { is_asked ≡ false → IsOk result }
    ensures small { IfOk result (λ s. s.incarnation + 1 < 2 ^ 64) }
{
    if !is_asked {
        return Ok(Stored {
            incarnation: 1,
            permanent: None,
        });
    }
    let incarnation = store.incarnation(node)?;
    if incarnation == u64::MAX {
        return Err(StoreError::Damaged);
    }
    let permanent = store.permanent(alloc, node)?;
    Ok(Stored {
        incarnation,
        permanent,
    })
}

/// The open instance that the node began, and the next number, where they are asked for.
fn read_board<S: CkptStore>(
    store: &mut S,
    node: NodeId,
    read_set: ReadSet,
) -> Result<(Option<u64>, u64), StoreError>
    ensures store_reads { IsRead S.CkptStore store.old store.new
        (λ c x. (x.0 ≡ (if read_set.undecided then open_of c node else None))
        × (x.1 ≡ (if read_set.next then next_instance c else 1))) result }
    ensures quiet { read_set.undecided ≡ false → read_set.next ≡ false → IsOk result }
{
    let undecided = if read_set.undecided {
        store.open_of(node)?
    } else {
        None
    };
    let next = if read_set.next {
        store.next_instance()?
    } else {
        1
    };
    Ok((undecided, next))
}

/// What the store says to the node, of which this is asked for. Where nothing is, it is not called.
pub(crate) fn read_store<S: CkptStore>(
    store: &mut S,
    alloc: Global,
    node: NodeId,
    read_set: ReadSet,
) -> Result<StoreReads, StoreError>
    ensures store_reads { IsRead S.CkptStore store.old store.new
        (λ c t. t ≡ reads_by read_set c node) result }
    ensures quiet { read_set ≡ empty_read_set → IsOk result }
    ensures small { IfOk result (λ t. t.stored.incarnation + 1 < 2 ^ 64) }
{
    let verdict = read_verdict(store, alloc, node, read_set.verdict)?;
    let (undecided, next) = read_board(store, node, read_set)?;
    let permanent = read_permanent(store, alloc, node, read_set.permanent)?;
    let tentative = read_tentative(store, alloc, node, read_set.tentative)?;
    let stored = read_stored(store, alloc, node, read_set.stored)?;
    Ok(StoreReads {
        verdict,
        permanent,
        tentative,
        stored,
        undecided,
        next,
    })
}
