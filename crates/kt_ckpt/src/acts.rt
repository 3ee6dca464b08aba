//! What a node did, as its checkpoint holds it, and which acts may stand in whose log.
//! Cited by act_bytes.rt, chain.rt, decode.rt, old.rt, past.rt; other crates.

ghost use Rattle.std.specs.Prelude.{◌≡◌, ◌↔◌, ◌&&◌, All, IfOk, IsTrue};
ghost use Rattle.std.specs.List.{list_all};
ghost use Rattle.kt_ckpt.specs.Acts.{IsActOf, is_about, is_act_of, is_caused, is_done_by, is_own_will, may_send};

use kt_history::What;
use kt_tuple::{MAX_SHARDS, MAX_WORKERS, NodeId, Op};
use std::alloc::{AllocError, Global};

/// An act of the node's log. Its node is the checkpoint's.
#[derive(Debug, Drop)]
pub struct LogAct {
    /// The act that sent what was heard: its node, and its place in that node's log when it was made, counted from 1.
    pub by: Option<(NodeId, u64)>,
    /// The worker whose request it is, counted from 1.
    pub worker: u8,
    /// The number of the request.
    pub number: u64,
    /// What the request asks.
    pub op: Op,
    /// What the node did.
    pub what: What,
}

impl LogAct {
    /// Whether it may stand in the log of the node. A worker issues, repeats and accepts its own requests, and may
    /// ignore an answer; a shard hears, serves and answers again, and may ignore a request. Whatever heard something
    /// names who sent it: a node of the other kind, and of a shard's acts their own worker.
    pub fn may_be_of(&self, node: NodeId) -> bool
        ensures { result ≡ is_act_of node self.now }
    {
        may_stand(node, self.worker, &self.what, self.by)
    }

    /// An equal one.
    pub fn copy(&self, alloc: Global) -> Result<LogAct, AllocError>
        ensures { IfOk result (λ a. a ≡ self.now) }
    {
        Ok(LogAct {
            by: self.by,
            worker: self.worker,
            number: self.number,
            op: self.op.copy(alloc)?,
            what: self.what.copy(alloc)?,
        })
    }
}

/// Whether each of the acts may stand in the log of the node, as `LogAct::may_be_of` tells of one.
pub fn are_acts_of(node: NodeId, acts: &[LogAct]) -> bool
    ensures value { result ≡ list_all (is_act_of node) acts.now }
    ensures all { IsTrue result ↔ All (IsActOf node) acts.now }
{
    acts.iter().all(|act| act.may_be_of(node))
}

/// Whether an act may stand in the log of the node that is about this worker, and heard what this act sent.
pub(crate) fn may_stand(node: NodeId, worker: u8, what: &What, by: Option<(NodeId, u64)>) -> bool
    ensures { result ≡ (is_done_by node what.now && (is_about node worker && is_caused node worker what.now by)) }
{
    is_done_by(node, what) && is_about(node, worker) && is_caused(node, worker, what, by)
}

fn is_done_by(node: NodeId, what: &What) -> bool
    ensures { result ≡ is_done_by node what.now }
{
    let is_worker = matches!(node, NodeId::Worker(_));
    match what {
        What::Issue | What::Repeat | What::Accepted(_) | What::Ignored(Some(_)) => is_worker,
        What::Heard | What::Served(_) | What::Again(_) | What::Ignored(None) => !is_worker,
    }
}

/// Whether an act of the node may be about the worker with this number.
fn is_about(node: NodeId, worker: u8) -> bool
    ensures { result ≡ is_about node worker }
{
    match node {
        NodeId::Worker(own) => worker == own,
        NodeId::Shard(_) => 1 <= worker && worker <= MAX_WORKERS,
    }
}

/// Whether it may have sent what the node heard of this worker's request.
fn may_send(node: NodeId, worker: u8, sender: NodeId) -> bool
    ensures { result ≡ may_send node worker sender }
{
    match (node, sender) {
        (NodeId::Worker(_), NodeId::Shard(shard)) => 1 <= shard && shard <= MAX_SHARDS,
        (NodeId::Shard(_), NodeId::Worker(sender)) => sender == worker,
        (NodeId::Worker(_), NodeId::Worker(_)) | (NodeId::Shard(_), NodeId::Shard(_)) => false,
    }
}

/// Whether it is done without hearing anything.
fn is_own_will(what: &What) -> bool
    ensures { result ≡ is_own_will what.now }
{
    match what {
        What::Issue | What::Repeat => true,
        What::Heard | What::Served(_) | What::Again(_) | What::Accepted(_) | What::Ignored(_) =>
            false,
    }
}

fn is_caused(node: NodeId, worker: u8, what: &What, by: Option<(NodeId, u64)>) -> bool
    ensures { result ≡ is_caused node worker what.now by }
{
    match by {
        None => is_own_will(what),
        Some((sender, place)) => !is_own_will(what) && may_send(node, worker, sender) && 1 <= place,
    }
}
