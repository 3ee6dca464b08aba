//! A shard in bytes.
//! Cited by decode.rt, encode.rt.

ghost use Rattle.std.specs.Prelude.{◌≡◌, ◌<◌, ◌^◌, ◌++◌, All, IfOk, OnOk, length};
ghost use Rattle.std.specs.List.{flat_map};
ghost use Rattle.kt_ckpt.specs.Reading.{Gives};
ghost use Rattle.kt_ckpt.specs.State.{IsShard, IsCountedShard};
ghost use Rattle.kt_ckpt.specs.State.{shard_bytes, bag_bytes, bag_at, shard_at};
ghost use Rattle.kt_ckpt.specs.Tuple.{IsTuple, tuple_bytes};

use crate::entry::{entries_at, push_entries};
use crate::error::CkptError;
use crate::list::list_at;
use crate::numbers::{push_u32, u32_at};
use crate::state::ShardState;
use crate::tuple::push_tuple;
use kt_tuple::Tuple;
use std::alloc::{AllocError, Global};

/// Appends the tuples, the requests that wait, and the cached answers, in this order.
pub(crate) fn push_shard(out: &mut Vec<u8>, shard: &ShardState) -> Result<(), AllocError>
    requires { IsCountedShard shard.now }
    ensures ok { OnOk result (out.new.items ≡ out.old.items ++ shard_bytes shard.now) }
    ensures held { OnOk result (IsShard shard.now) }
{
    push_bag(out, &shard.bag)?;
    push_entries(out, &shard.waiting)?;
    push_entries(out, &shard.cached)
}

/// Appends how many tuples there are, in four bytes, and the tuples in order of arrival.
fn push_bag(out: &mut Vec<u8>, tuples: &[Tuple]) -> Result<(), AllocError>
    requires { length tuples.now < 2 ^ 32 }
    ensures ok { OnOk result (out.new.items ≡ out.old.items ++ bag_bytes tuples.now) }
    ensures held { OnOk result (All IsTuple tuples.now) }
{
    push_u32(out, tuples.len() as u32)?;
    push_tuples(out, tuples)
}

fn push_tuples(out: &mut Vec<u8>, tuples: &[Tuple]) -> Result<(), AllocError>
    ensures ok { OnOk result (out.new.items ≡ out.old.items ++ flat_map tuple_bytes tuples.now) }
    ensures held { OnOk result (All IsTuple tuples.now) }
{
    for tuple in tuples {
        push_tuple(out, tuple)?;
    }
    Ok(())
}

/// A shard, and the bytes behind it.
#[tactic(auto, unfolding(crate::specs::State::shard_at))]
pub(crate) fn shard_at(alloc: Global, bytes: &[u8]) -> Result<(ShardState, &[u8]), CkptError>
    ensures value { Gives (λ x. (x.0, x.1.now)) result (shard_at bytes.now) }
    ensures counted { IfOk result (λ x. IsCountedShard x.0) }
{
    let (bag, rest) = bag_at(alloc, bytes)?;
    let (waiting, rest) = entries_at(alloc, rest)?;
    let (cached, rest) = entries_at(alloc, rest)?;
    Ok((ShardState::new(bag, waiting, cached), rest))
}

#[tactic(auto, unfolding(crate::specs::State::bag_at))]
fn bag_at(alloc: Global, bytes: &[u8]) -> Result<(Vec<Tuple>, &[u8]), CkptError>
    ensures value { Gives (λ x. (x.0.items, x.1.now)) result (bag_at bytes.now) }
    ensures few { IfOk result (λ x. length x.0.items < 2 ^ 32) }
{
    let (count, rest) = u32_at(bytes)?;
    list_at(alloc, count, rest)
}
