//! What a node has while it is not down.
//! Cited by asking.rt, change.rt, loading.rt, node.rt, saving.rt, short_update.rt, updating.rt; other crates.

ghost use Rattle.std.specs.Prelude.{◌≡◌};

use crate::message::AppMessage;
use kt_link::Label;
use kt_shard::Shard;
use kt_tuple::NodeId;
use kt_vote::Ballot;
use kt_worker::Worker;
use std::collections::VecDeque;

/// What a node works with.
#[derive(Debug, Drop)]
pub enum Body {
    /// A worker: its place in the script, its variables, and its request if one is unanswered.
    Worker(Worker),
    /// A shard: its tuples, and a session for each worker.
    Shard(Shard),
}

/// What a node that is not down does.
#[derive(Debug, Drop)]
pub enum Phase {
    /// It works, and votes in nothing.
    Up,
    /// It takes part in a check with this ballot, as its initiator or as a participant.
    Held(Ballot),
    /// It takes part in a rollback with this ballot, as its initiator or as a participant.
    Rolling(Ballot),
}

impl Phase {
    ghost use Rattle.kt_state.specs.Node.{in_phase};

    /// The phase with this ballot in place of its own; `Up` has none and stays.
    pub fn with(&self, ballot: Ballot) -> Phase
        ensures { result ≡ in_phase self.now ballot }
    {
        match self {
            Phase::Up => Phase::Up,
            Phase::Held(_) => Phase::Held(ballot),
            Phase::Rolling(_) => Phase::Rolling(ballot),
        }
    }
}

/// All that a node loses when it fails. The tables have an entry for each number that a neighbour can have;
/// entry 0 is not used.
#[derive(Debug, Drop)]
pub struct Live {
    /// What it does, with its ballot where it votes.
    pub phase: Phase,
    /// The worker or shard that it is.
    pub body: Body,
    /// Its incarnation, from 1 on: the store holds the same number.
    pub incarnation: u64,
    /// How many underlying messages it sent in this incarnation, to all neighbours together.
    pub count: u64,
    /// The last label sent to each neighbour, `(0, 0)` where there is none.
    pub sent: Vec<Label>,
    /// The last label received from each neighbour, `(0, 0)` where there is none.
    pub received: Vec<Label>,
    /// The first label sent to each neighbour since the permanent checkpoint; `None` where nothing was.
    pub first: Vec<Option<Label>>,
    /// The underlying messages that came while it was held, and those behind them, with their senders.
    pub kept: VecDeque<(NodeId, AppMessage)>,
}

impl Live {
    ghost use Rattle.std.specs.Option.{option_copied};
    ghost use Rattle.kt_state.specs.Codes.{live_view};
    ghost use Rattle.kt_state.specs.Kept.{first_kept};
    ghost use Rattle.kt_state.specs.Node.{next_label};
    ghost use Rattle.kt_state.specs.Ready.{CanCount};

    /// The label of the next underlying message, to whomever: its incarnation, and its count and one.
    pub fn next_label(&self) -> Label
        requires { CanCount (live_view self.now) }
        ensures { result ≡ next_label (live_view self.now) }
    {
        Label {
            incarnation: self.incarnation,
            count: self.count + 1,
        }
    }

    /// The message that was kept first, and who sent it; `None` where nothing is kept.
    pub fn first_kept(&self) -> Option<&(NodeId, AppMessage)>
        ensures { option_copied result ≡ first_kept (live_view self.now) }
    {
        self.kept.front()
    }
}
