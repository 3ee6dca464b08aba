//! A node of the scene.
//! Cited by loading.rt, short_update.rt, updating.rt; other crates.

ghost use Rattle.std.specs.Prelude.{◌≡◌, length, slice_get, IfOk};
ghost use Rattle.std.specs.Option.{option_copied, option_map};

use crate::live::{Body, Live, Phase};
use crate::message::AppMessage;
use kt_shard::Shard;
use kt_tuple::NodeId;
use kt_vote::Ballot;
use kt_worker::Worker;
use std::alloc::{AllocError, Global};
use std::marker::Model;

/// What state a node is in.
#[derive(Clone, Copy, Debug, PartialEq, Eq)]
pub enum Mode {
    /// It works, and takes part in no check and no rollback.
    Up,
    /// It has taken a tentative checkpoint and sends no underlying message until it learns the verdict.
    Held,
    /// It rolls back, or waits whether it has to.
    Rolling,
    /// It failed, and has not come back.
    Down,
}

/// A node of the scene. One that is down has its name alone.
#[derive(Debug, Drop)]
pub struct Node {
    pub(crate) live: Option<Live>,
}

impl Model for Node {
    ghost use Rattle.std.specs.Prelude.{IfSome};
    ghost use Rattle.kt_state.specs.Views.{NodeModel};
    ghost use Rattle.kt_state.specs.auxiliary.Rooms.{HasTables, model_of};

    ghost Value = { NodeModel };

    ghost view = { λ n. model_of n.live };

    ghost invariant = { λ n. IfSome n.live HasTables };
}

impl Node {
    ghost use Rattle.kt_state.specs.Codes.{node_view};
    ghost use Rattle.kt_state.specs.Kept.{kept_of};
    ghost use Rattle.kt_state.specs.Node.{Down, mode_of, worker_of, shard_of, poll_of};

    /// A node that is down, as each is where a world goes on from what a store holds.
    pub fn down() -> Node
        ensures { result.node ≡ Down }
    {
        Node { live: None }
    }

    /// What it has; `None` while it is down.
    pub fn live(&self) -> Option<&Live>
        ensures { node_view (option_copied result) ≡ self.now.node }
    {
        self.live.as_ref()
    }

    /// Which of the four modes it is in. One that is down has nothing but its name.
    pub fn mode(&self) -> Mode
        ensures { result ≡ mode_of self.now.node }
    {
        match &self.live {
            None => Mode::Down,
            Some(live) => match live.phase {
                Phase::Up => Mode::Up,
                Phase::Held(_) => Mode::Held,
                Phase::Rolling(_) => Mode::Rolling,
            },
        }
    }

    /// The worker that it is; `None` for a shard, and while it is down.
    pub fn worker(&self) -> Option<&Worker>
        ensures { option_copied result ≡ worker_of self.now.node }
    {
        match &self.live.as_ref()?.body {
            Body::Worker(worker) => Some(worker),
            Body::Shard(_) => None,
        }
    }

    /// The shard that it is; `None` for a worker, and while it is down.
    pub fn shard(&self) -> Option<&Shard>
        ensures { option_map (λ y. y.now.state) result ≡ shard_of self.now.node }
    {
        match &self.live.as_ref()?.body {
            Body::Worker(_) => None,
            Body::Shard(shard) => Some(shard),
        }
    }

    /// A shard equal to the one that it is, which shares all with it; `None` for a worker, and while it is down.
    /// Nothing is copied before the node makes room again (`reserve`). Where memory is wanting the node stays as it is.
    pub fn share_shard(&mut self, alloc: Global) -> Result<Option<Shard>, AllocError>
        ensures value { IfOk result (λ found. option_map (λ y. y.state) found ≡ shard_of self.old.node) }
        ensures same { self.new.node ≡ self.old.node }
    {
        match &mut self.live {
            None => Ok(None),
            Some(live) => live.body.share_shard(alloc),
        }
    }

    /// Its ballot while it is held or rolls back, as the initiator or as a participant; else `None`.
    pub fn ballot(&self) -> Option<&Ballot>
        ensures { option_copied result ≡ poll_of self.now.node }
    {
        match &self.live.as_ref()?.phase {
            Phase::Up => None,
            Phase::Held(ballot) => Some(ballot),
            Phase::Rolling(ballot) => Some(ballot),
        }
    }

    /// Of the messages that it keeps back the one at this place, counted from 0, and who sent it; `None` past the last.
    pub fn kept(&self, index: usize) -> Option<&(NodeId, AppMessage)>
        ensures { option_copied result ≡ slice_get (kept_of self.now.node) index }
    {
        self.live.as_ref()?.kept.get(index)
    }

    /// How many messages it keeps back: 0 while it is down.
    pub fn kept_len(&self) -> usize
        ensures { result ≡ length (kept_of self.now.node) }
    {
        match &self.live {
            None => 0,
            Some(live) => live.kept.len(),
        }
    }
}

impl Body {
    ghost use Rattle.kt_state.specs.Node.{shard_in};
    ghost use Rattle.kt_state.specs.Codes.{body_view};

    fn share_shard(&mut self, alloc: Global) -> Result<Option<Shard>, AllocError>
        ensures value { IfOk result (λ found. option_map (λ y. y.state) found ≡ shard_in (body_view self.old)) }
        ensures same { body_view self.new ≡ body_view self.old }
    {
        match self {
            Body::Worker(_) => Ok(None),
            Body::Shard(shard) => Ok(Some(shard.share(alloc)?)),
        }
    }
}
