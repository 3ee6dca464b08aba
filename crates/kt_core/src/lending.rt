//! What a machine lends of its nodes and of what is on its way, and a world of its nodes and of its store.
//! Cited by planning.rt, read_sets.rt, world.rt; other crates.

ghost use Rattle.std.specs.Prelude.{◌≡◌, length, slice_get, IfOk};
ghost use Rattle.std.specs.Option.{option_copied, option_map};
ghost use Rattle.kt_store.specs.Content.{Content, empty_content};
ghost use Rattle.kt_core.specs.Lent.{kept, message_at, shard, worker};
ghost use Rattle.kt_core.specs.auxiliary.Machine.{state_of};
ghost use Rattle.kt_model.specs.State.{link, node};

use crate::change::share_in_row;
use crate::machine::Machine;
use crate::world::World;
use kt_node::{AppMessage, Message, Mode, Node};
use kt_shard::Shard;
use kt_store::CkptStore;
use kt_tuple::NodeId;
use kt_worker::Worker;
use std::alloc::{AllocError, Global};

impl Machine {
    /// The node, down ones too; `None` where the scene has no such node.
    pub(crate) fn node_at(&self, id: NodeId) -> Option<&Node>
        ensures { option_map (λ n. n.now.node) result ≡ node (state_of self.now empty_content) id }
    {
        match self.nodes.get(id.index()) {
            Some(Some(node)) => Some(node),
            _ => None,
        }
    }

    /// The message from one to the other that has so many before it.
    pub(crate) fn message_at(&self, from: NodeId, to: NodeId, index: usize) -> Option<&Message>
        ensures { option_copied result ≡ message_at (state_of self.now empty_content) from to index }
    {
        self.links.get(from, to, index)
    }

    /// The kept message that has so many before it, with its sender.
    pub(crate) fn kept_at(&self, id: NodeId, index: usize) -> Option<&(NodeId, AppMessage)>
        ensures { option_copied result ≡ slice_get (kept (state_of self.now empty_content) id) index }
    {
        self.node_at(id)?.kept(index)
    }

    /// How many messages the node keeps back: 0 where it is down or not in the scene.
    pub(crate) fn kept_len(&self, id: NodeId) -> usize
        ensures { result ≡ length (kept (state_of self.now empty_content) id) }
    {
        match self.node_at(id) {
            None => 0,
            Some(node) => node.kept_len(),
        }
    }

    /// How many messages are on their way from one to the other.
    pub(crate) fn link_len(&self, from: NodeId, to: NodeId) -> usize
        ensures { result ≡ length (link (state_of self.now empty_content) from to) }
    {
        self.links.len(from, to)
    }

    /// The worker that the node is, while it is up.
    pub(crate) fn worker_at(&self, id: NodeId) -> Option<&Worker>
        ensures { option_copied result ≡ worker (state_of self.now empty_content) id }
    {
        let node = self.node_at(id)?;
        match node.mode() {
            Mode::Up => node.worker(),
            Mode::Held | Mode::Rolling | Mode::Down => None,
        }
    }

    /// The shard that the node is, while it is up.
    pub(crate) fn shard_at(&self, id: NodeId) -> Option<&Shard>
        ensures { option_map (λ y. y.now.state) result ≡ shard (state_of self.now empty_content) id }
    {
        let node = self.node_at(id)?;
        match node.mode() {
            Mode::Up => node.shard(),
            Mode::Held | Mode::Rolling | Mode::Down => None,
        }
    }

    /// A shard equal to the one that the node is, while it is up, which shares all with it.
    pub(crate) fn share_shard_at(
        &mut self,
        alloc: Global,
        id: NodeId,
    ) -> Result<Option<Shard>, AllocError>
        ensures value { IfOk result (λ found.
            option_map (λ y. y.state) found ≡ shard (state_of self.old empty_content) id) }
        ensures same { (c : Content) → state_of self.new c ≡ state_of self.old c }
    {
        let row = id.index();
        if row < self.nodes.len() {
            share_in_row(&mut self.nodes, alloc, row)
        } else {
            Ok(None)
        }
    }
}

impl<S: CkptStore> World<S> {
    /// The node, in whatever mode it is; `None` for one that is not in the scene.
    pub fn node(&self, id: NodeId) -> Option<&Node>
        ensures { option_map (λ n. n.now.node) result ≡ node self.now.state id }
    {
        self.machine.node_at(id)
    }

    /// Its store, to look at what is stored. Nothing can be written by it.
    pub fn store(&self) -> &S
        ensures content { S.content result.now ≡ self.now.state.content }
        ensures honest { S.is_honest result.now ≡ self.now.is_honest }
        ensures counts { S.counts result.now ≡ self.now.counts }
    {
        &self.store
    }
}
