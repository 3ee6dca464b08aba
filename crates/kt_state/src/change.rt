//! What becomes of a node.
//! Cited by loading.rt, plan.rt, updating.rt; other crates.

use crate::boxed::Boxed;
use crate::live::{Live, Phase};
use crate::message::AppMessage;
use kt_link::Label;
use kt_shard::{Prepared, Request};
use kt_tuple::NodeId;
use kt_vote::Ballot;
use kt_worker::Worker;
use std::alloc::{AllocError, Global};
use std::marker::Model;
use std::mem;

/// What becomes of a worker or a shard.
#[derive(Debug, Drop)]
pub enum BodyChange {
    /// It stays as it is.
    Stay,
    /// The worker becomes this one: it has asked for an operation, or has accepted an answer.
    Work(Worker),
    /// The worker of this number waits with this.
    Wait { worker: u8, request: Request },
    /// The worker of this number is served.
    Serve { worker: u8, service: Prepared },
}

/// What becomes of the messages that a node keeps.
#[derive(Debug, Drop)]
pub enum KeptChange {
    /// They stay as they are.
    Stay,
    /// One more stands behind them.
    Append { from: NodeId, app: AppMessage },
    /// The first is taken off, since the node hears it.
    TakeFirst,
    /// Those from this node above the label are dropped.
    Sieve { from: NodeId, label: Label },
}

/// What becomes of a node that stays alive. The parts are independent of each other.
#[derive(Debug, Drop)]
pub struct Update {
    /// What becomes of its worker or shard; a change for the other kind changes nothing.
    pub body: BodyChange,
    /// What becomes of the messages that it keeps.
    pub kept: KeptChange,
    /// Of whom an underlying message is heard, and its label; `None` where none is heard.
    pub heard: Option<(NodeId, Label)>,
    /// To whom the next underlying message is sent; `None` where none is sent.
    pub said: Option<NodeId>,
    /// The checkpoint is permanent: from now on nothing was sent since.
    pub promoted: bool,
    /// What it does from now on; none where that stays.
    pub phase: Option<Phase>,
}

/// A node as its permanent checkpoint has it.
#[derive(Debug, Drop)]
pub struct Loaded {
    pub(crate) live: Live,
}

impl Model for Loaded {
    ghost use Rattle.kt_state.specs.Node.{Live as LiveData};
    ghost use Rattle.kt_state.specs.Codes.{live_view};
    ghost use Rattle.kt_state.specs.auxiliary.Rooms.{HasTables};

    ghost Value = { LiveData };

    ghost view = { λ l. live_view l.live };

    ghost invariant = { λ l. HasTables l.live };
}

impl Loaded {
    ghost use Rattle.std.specs.Prelude.{◌≡◌};
    ghost use Rattle.kt_state.specs.declared.live.Phase.TheVariants as phases;

    /// The last label sent to each neighbour, by its number.
    pub fn sent(&self) -> &[Label]
        ensures { result.now ≡ self.now.sent }
    {
        &self.live.sent
    }

    /// The same node, which takes part in a rollback with this ballot.
    pub fn rolling(self, ballot: Ballot) -> Loaded
        ensures { result ≡ record self { phase = phases.Rolling ballot } }
    {
        let mut live = self.live;
        drop(mem::replace(&mut live.phase, Phase::Rolling(ballot)));
        Loaded { live }
    }
}

/// What becomes of a node. It is a change and no whole new node: a node holds its bag, and a step may not cost what the
/// bag holds (docs/DECISIONS.md#steps).
#[derive(Debug, Drop)]
pub enum Change {
    /// It stays as it is: a node that is down, too.
    Stay,
    /// It goes on, with these parts changed.
    Update(Boxed<Update>),
    /// It fails: all that it has but its name is lost.
    Fall,
    /// It becomes this one, as its permanent checkpoint has it.
    Load(Boxed<Loaded>),
}

impl Change {
    ghost use Rattle.std.specs.Prelude.{◌≡◌, IfOk};
    ghost use Rattle.kt_state.specs.declared.change.Change.TheVariants as changes;

    /// It goes on with this update.
    pub fn turning(alloc: Global, update: Update) -> Result<Change, AllocError>
        ensures { IfOk result (λ c. c ≡ changes.Update update) }
    {
        Ok(Change::Update(Boxed::new(alloc, update)?))
    }

    /// It becomes this one.
    pub fn loading(alloc: Global, loaded: Loaded) -> Result<Change, AllocError>
        ensures { IfOk result (λ c. c ≡ changes.Load loaded) }
    {
        Ok(Change::Load(Boxed::new(alloc, loaded)?))
    }
}

impl Update {
    ghost use Rattle.std.specs.Prelude.{◌≡◌, Some};
    ghost use Rattle.kt_state.specs.declared.change.KeptChange.TheVariants as keeps;
    ghost use Rattle.kt_state.specs.Updating.{no_update};

    /// Nothing of the node is changed: an update to begin with.
    pub fn none() -> Update
        ensures { result ≡ no_update }
    {
        Update {
            body: BodyChange::Stay,
            kept: KeptChange::Stay,
            heard: None,
            said: None,
            promoted: false,
            phase: None,
        }
    }

    /// The next underlying message is sent to the node, and this becomes of the body.
    pub fn saying(body: BodyChange, to: NodeId) -> Update
        ensures { result ≡ record no_update { body = body; said = Some to } }
    {
        Update {
            body,
            kept: KeptChange::Stay,
            heard: None,
            said: Some(to),
            promoted: false,
            phase: None,
        }
    }

    /// The node does this from now on.
    pub fn to(phase: Phase) -> Update
        ensures { result ≡ record no_update { phase = Some phase } }
    {
        Update {
            body: BodyChange::Stay,
            kept: KeptChange::Stay,
            heard: None,
            said: None,
            promoted: false,
            phase: Some(phase),
        }
    }

    /// An underlying message of this label is heard, and this becomes of the body and of what is kept.
    pub fn hearing(body: BodyChange, kept: KeptChange, from: NodeId, label: Label) -> Update
        ensures { result ≡ record no_update { body = body; kept = kept; heard = Some (from, label) } }
    {
        Update {
            body,
            kept,
            heard: Some((from, label)),
            said: None,
            promoted: false,
            phase: None,
        }
    }

    /// What is kept from the node above the label is dropped.
    pub fn sieving(from: NodeId, label: Label) -> Update
        ensures { result ≡ record no_update { kept = keeps.Sieve from label } }
    {
        Update {
            body: BodyChange::Stay,
            kept: KeptChange::Sieve { from, label },
            heard: None,
            said: None,
            promoted: false,
            phase: None,
        }
    }
}
