//! The checkpoint of a node.
//! Cited by decode.rt, encode.rt, old.rt; other crates.

ghost use Rattle.std.specs.Prelude.{◌≡◌, IfOk};

use crate::chain::Acts;
use crate::header::CkptHeader;
use crate::state::State;
use kt_link::Label;
use kt_tuple::NodeId;
use std::alloc::{AllocError, Global};
use std::marker::Model;
use std::sync::Arc;

/// The checkpoint of a node (Koo and Toueg, "Checkpointing and Rollback-Recovery for Distributed Systems"): what the
/// node needs to go on from a moment of its past. It has plain fields and no worker or shard, since bytes allow more
/// than a node can hold. Whether it fits a node is asked where the node is made of it (docs/DECISIONS.md#checkpoints).
/// Its header, its state and its acts are shared, so that node and store hold one checkpoint in one place, and the acts
/// of an older checkpoint stand in one place with those of a newer one.
#[derive(Debug, Drop)]
pub struct Ckpt {
    pub(crate) header: CkptHeader,
    pub(crate) state: Arc<State, Global>,
    pub(crate) acts: Acts,
}

impl Model for Ckpt {
    ghost use Rattle.std.specs.Arc.{arc_value};
    ghost use Rattle.kt_ckpt.specs.Checkpoint.{Checkpoint, HasCounts, HasShape, made_of};

    ghost Value = { Checkpoint };

    ghost view = { λ c.
        made_of c.header.node c.header.line_len c.header.sent c.header.received (arc_value c.state) c.acts };

    ghost invariant = { λ c.
        HasCounts (made_of c.header.node c.header.line_len c.header.sent c.header.received (arc_value c.state) c.acts)
        × HasShape
        (made_of c.header.node c.header.line_len c.header.sent c.header.received (arc_value c.state) c.acts) };
}

impl Ckpt {
    ghost use Rattle.kt_ckpt.specs.Checkpoint.{HasCounts, HasShape, made_of};
    ghost use Rattle.kt_ckpt.specs.Header.{header_of};

    /// The checkpoint of this node, whose log has this length. For each neighbour, in node order, it has the
    /// label of the last message sent to it and of the last heard from it, and it has the node's state. The node is one
    /// of the workers or shards that there may be, it has a neighbour and no more than `MAX_PEERS`, and the state is
    /// one of such a node, with counts within the format. The acts are those of the log, as many as its length, and
    /// each may stand in it, as `are_acts_of` tells. It asks for counts and shape and refuses nothing but for want of
    /// memory: a node keeps them.
    pub fn new(
        alloc: Global,
        node: NodeId,
        line_len: u64,
        sent: Vec<Label>,
        received: Vec<Label>,
        state: State,
        acts: Acts,
    ) -> Result<Ckpt, AllocError>
        requires counts { HasCounts (made_of node line_len sent.items received.items state acts) }
        requires shape { HasShape (made_of node line_len sent.items received.items state acts) }
        ensures { IfOk result (λ c. c ≡ made_of node line_len sent.items received.items state acts) }
    {
        let header = CkptHeader::new(alloc, node, line_len, sent, received)?;
        let state = Arc::new(alloc, state)?;
        Ok(Ckpt {
            header,
            state,
            acts,
        })
    }

    /// Whose checkpoint it is.
    pub fn node(&self) -> NodeId
        ensures { result ≡ self.now.node }
    {
        self.header.node()
    }

    /// How many acts the node's log had when it was taken.
    pub fn line_len(&self) -> u64
        ensures { result ≡ self.now.line_len }
    {
        self.header.line_len()
    }

    /// For each neighbour, in node order, the label of the last message sent to it.
    pub fn sent(&self) -> &[Label]
        ensures { result.now ≡ self.now.sent }
    {
        self.header.sent()
    }

    /// For each neighbour, in node order, the label of the last message heard from it.
    pub fn received(&self) -> &[Label]
        ensures { result.now ≡ self.now.received }
    {
        self.header.received()
    }

    /// What the node held when it was taken. It is lent, and with the other parts it keeps the counts of the format.
    pub fn state(&self) -> &State
        ensures state { result.now ≡ self.now.state }
        ensures counts { HasCounts self.now }
    {
        &self.state
    }

    /// The acts of the node's log when it was taken, oldest first.
    pub fn acts(&self) -> &Acts
        ensures { result.now ≡ self.now.acts }
    {
        &self.acts
    }

    /// All of it but the state and the acts. They share their block with this checkpoint: they take no memory.
    pub fn header(&self, alloc: Global) -> Result<CkptHeader, AllocError>
        ensures { IfOk result (λ m. m ≡ header_of self.now) }
    {
        self.header.copy(alloc)
    }

    /// An equal checkpoint, which shares header, state and acts with this one: it takes no memory.
    pub fn copy(&self, alloc: Global) -> Result<Ckpt, AllocError>
        ensures { IfOk result (λ c. c ≡ self.now) }
    {
        Ok(Ckpt {
            header: self.header.copy(alloc)?,
            state: Arc::try_clone(&self.state)?,
            acts: self.acts.copy()?,
        })
    }
}
