//! A checkpoint, written.
//! Cited by act_bytes.rt, old.rt; other crates.

ghost use Rattle.std.specs.Prelude.{◌≡◌, ◌++◌, ◌∷◌, [], All, IfOk, OnOk, Ok, length};
ghost use Rattle.std.specs.List.{flat_map, zip};
ghost use Rattle.kt_ckpt.specs.Checkpoint.{ArePeers, HasCounts, HasShape, IsCheckpoint, IsCountedState, IsLabel};
ghost use Rattle.kt_ckpt.specs.Checkpoint.{spelling, read, label_bytes, peer_bytes, peers_bytes};
ghost use Rattle.kt_ckpt.specs.Checkpoint.{IsState, made_of, state_bytes};
ghost use Rattle.kt_ckpt.specs.Limits.{magic, version};
ghost use Rattle.kt_ckpt.specs.Node.{node_bytes};

use crate::act_bytes::push_log;
use crate::chain::Acts;
use crate::ckpt::Ckpt;
use crate::limits::{MAGIC, SHARD, VERSION, WORKER};
use crate::numbers::push_u64;
use crate::shard::push_shard;
use crate::state::State;
use crate::worker::push_worker;
use kt_link::Label;
use kt_tuple::NodeId;
use std::alloc::{AllocError, Global};

impl Ckpt {
    /// Its one spelling in bytes, as docs/FORMATS.md#checkpoints has it. It is refused only for want of memory.
    pub fn encode(&self, alloc: Global) -> Result<Vec<u8>, AllocError>
        ensures value { IfOk result (λ v. v.items ≡ spelling self.now) }
        ensures held { OnOk result (IsCheckpoint self.now) }
        // What is written is read as this checkpoint.
        ensures read_back { IfOk result (λ v. read v.items ≡ Ok self.now) }
    {
        encode_parts(
            alloc,
            self.node(),
            self.line_len(),
            self.sent(),
            self.received(),
            &self.state,
            self.acts(),
        )
    }
}

fn encode_parts(
    alloc: Global,
    node: NodeId,
    line_len: u64,
    sent: &[Label],
    received: &[Label],
    state: &State,
    acts: &Acts,
) -> Result<Vec<u8>, AllocError>
    requires counts { HasCounts (made_of node line_len sent.now received.now state.now acts.now) }
    requires shape { HasShape (made_of node line_len sent.now received.now state.now acts.now) }
    ensures value { IfOk result (λ v.
        v.items ≡ spelling (made_of node line_len sent.now received.now state.now acts.now)) }
    ensures held { OnOk result (IsCheckpoint (made_of node line_len sent.now received.now state.now acts.now)) }
{
    let mut out = Vec::new(alloc);
    push_front(&mut out)?;
    push_node(&mut out, node)?;
    push_u64(&mut out, line_len)?;
    push_peers(&mut out, sent, received)?;
    push_state(&mut out, state)?;
    push_log(alloc, &mut out, acts)?;
    Ok(out)
}

fn push_front(out: &mut Vec<u8>) -> Result<(), AllocError>
    ensures { OnOk result (out.new.items ≡ out.old.items ++ (magic ++ version ∷ [])) }
{
    out.extend_from_slice(&MAGIC)?;
    Ok(out.push(VERSION)?)
}

pub(crate) fn push_node(out: &mut Vec<u8>, node: NodeId) -> Result<(), AllocError>
    ensures { OnOk result (out.new.items ≡ out.old.items ++ node_bytes node) }
{
    let (kind, index) = match node {
        NodeId::Worker(index) => (WORKER, index),
        NodeId::Shard(index) => (SHARD, index),
    };
    out.push(kind)?;
    Ok(out.push(index)?)
}

fn push_label(out: &mut Vec<u8>, label: Label) -> Result<(), AllocError>
    ensures ok { OnOk result (out.new.items ≡ out.old.items ++ label_bytes label) }
    ensures held { IsLabel label }
{
    push_u64(out, label.incarnation)?;
    push_u64(out, label.count)
}

pub(crate) fn push_peers(
    out: &mut Vec<u8>,
    sent: &[Label],
    received: &[Label],
) -> Result<(), AllocError>
    requires { ArePeers sent.now received.now }
    ensures ok { OnOk result (out.new.items ≡ out.old.items ++ peers_bytes (zip sent.now received.now)) }
    ensures held { OnOk result (All IsLabel sent.now × All IsLabel received.now) }
{
    out.push(sent.len() as u8)?;
    push_labels(out, sent, received)
}

/// Appends the two labels of each neighbour.
fn push_labels(out: &mut Vec<u8>, sent: &[Label], received: &[Label]) -> Result<(), AllocError>
    requires { length sent.now ≡ length received.now }
    ensures ok { OnOk result (out.new.items ≡ out.old.items ++ flat_map peer_bytes (zip sent.now received.now)) }
    ensures held { OnOk result (All IsLabel sent.now × All IsLabel received.now) }
{
    match (sent.split_first(), received.split_first()) {
        (Some((sent, others_sent)), Some((received, others_received))) => {
            push_label(out, *sent)?;
            push_label(out, *received)?;
            push_labels(out, others_sent, others_received)
        }
        _ => Ok(()),
    }
}

pub(crate) fn push_state(out: &mut Vec<u8>, state: &State) -> Result<(), AllocError>
    requires { IsCountedState state.now }
    ensures ok { OnOk result (out.new.items ≡ out.old.items ++ state_bytes state.now) }
    ensures held { OnOk result (IsState state.now) }
{
    match state {
        State::Worker(worker) => push_worker(out, worker),
        State::Shard(shard) => push_shard(out, shard),
    }
}
