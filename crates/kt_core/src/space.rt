//! The space of the permanent checkpoints.
//! Cited by resuming.rt, world.rt.

ghost use Rattle.std.specs.Prelude.{◌≡◌, ◌++◌, IfOk};
ghost use Rattle.std.specs.List.{flat_map, range_with_len};
ghost use Rattle.kt_tuple.specs.declared.node.NodeId.TheVariants as ids;
ghost use Rattle.kt_model.specs.Cut.{permanent_of, tuples_of};
ghost use Rattle.kt_core.specs.auxiliary.Space.{counts_in, taken_by};
ghost use Rattle.kt_core.specs.auxiliary.Calls.{IsGathered, IsRead};

use kt_ckpt::{Ckpt, State};
use kt_store::{CkptStore, StoreError, Tentative, TentativeHeader, Verdict};
use kt_tuple::{NodeId, Tuple, copy_tuples};
use std::alloc::{AllocError, Global};

/// Whether the node's tentative checkpoint counts as permanent: its instance has Yes.
fn counts<S: CkptStore>(store: &mut S, alloc: Global, node: NodeId) -> Result<bool, StoreError>
    ensures { IsRead S.CkptStore store.old store.new
        (λ c counts. counts ≡ counts_in c node) result }
{
    match store.tentative_header(alloc, node)? {
        Some(TentativeHeader { instance, .. }) => {
            Ok(matches!(store.verdict(instance)?, Some(Verdict::Yes)))
        }
        None => Ok(false),
    }
}

/// The node's tentative checkpoint, `None` where it has none.
pub(crate) fn tentative_of<S: CkptStore>(
    store: &mut S,
    alloc: Global,
    node: NodeId,
) -> Result<Option<Ckpt>, StoreError>
    ensures { IsRead S.CkptStore store.old store.new (λ c p. p ≡ taken_by c node) result }
{
    match store.tentative(alloc, node)? {
        Some(Tentative { checkpoint, .. }) => Ok(Some(checkpoint)),
        None => Ok(None),
    }
}

/// The node's permanent checkpoint. A tentative one counts from the moment that its Yes is written, whether or not its
/// node knows: all those of a check become permanent at once, and some nodes may be down then.
fn permanent_of<S: CkptStore>(
    store: &mut S,
    alloc: Global,
    node: NodeId,
) -> Result<Option<Ckpt>, StoreError>
    ensures { IsRead S.CkptStore store.old store.new (λ c p. p ≡ permanent_of c node) result }
{
    if counts(store, alloc, node)? {
        tentative_of(store, alloc, node)
    } else {
        store.permanent(alloc, node)
    }
}

/// The tuples of a stored shard: none without a checkpoint, and none of a worker's.
fn tuples_of(checkpoint: &Option<Ckpt>) -> &[Tuple]
    ensures { result.now ≡ tuples_of checkpoint.now }
{
    let Some(checkpoint) = checkpoint else {
        return &[];
    };
    match checkpoint.state() {
        State::Worker(_) => &[],
        State::Shard(shard) => shard.bag(),
    }
}

/// One shard's tuples behind the others.
fn add_tuples<S: CkptStore>(
    store: &mut S,
    alloc: Global,
    node: NodeId,
    tuples: &mut Vec<Tuple>,
) -> Result<(), StoreError>
    ensures { IsGathered S.CkptStore store.old store.new
        (λ c x. tuples.new.items ≡ tuples.old.items ++ tuples_of (permanent_of c node)) result }
{
    let checkpoint = permanent_of(store, alloc, node)?;
    let mut more = copy_tuples(alloc, tuples_of(&checkpoint))?;
    tuples.append(&mut more)?;
    Ok(())
}

/// The tuples of so many shards' permanent checkpoints.
pub(crate) fn permanent_tuples<S: CkptStore>(
    store: &mut S,
    alloc: Global,
    shards: u8,
) -> Result<Vec<Tuple>, StoreError>
    ensures { IsGathered S.CkptStore store.old store.new
        (λ c tuples. tuples.items ≡
        flat_map (λ r. tuples_of (permanent_of c (ids.Shard r))) (range_with_len 1 shards)) result }
{
    let mut tuples = Vec::new(alloc);
    for before in 0..shards {
        add_tuples(store, alloc, NodeId::Shard(before + 1), &mut tuples)?;
    }
    Ok(tuples)
}
