//! The steps of a world.
//! Cited by faults.rt, scene.rt; other crates.

ghost use Rattle.std.specs.Prelude.{◌≡◌};

use kt_tuple::NodeId;

/// The most steps of a world, by all its nodes together.
pub const MAX_STEPS: u64 = 100_000;

/// The most notes of a world's history, those of before it was resumed among them: fewer than a number of 32 bits
/// can count.
pub const MAX_NOTES: u64 = (1 << 32) - 1;

/// One step of one node: a scenario of steps has a line for each.
#[derive(Clone, Copy, Debug, PartialEq, Eq)]
pub enum Step {
    /// The worker asks for its next operation.
    Issue {
        node: NodeId,
    },
    /// The worker asks once more what is unanswered.
    Repeat {
        node: NodeId,
    },
    /// The first message of the link between the two nodes arrives.
    Deliver {
        from: NodeId,
        to: NodeId,
    },
    /// The node hears the message that it kept first.
    Take {
        node: NodeId,
    },
    /// The shard serves the worker's waiting request. Of the tuples that match it takes the one at
    /// this place, counted from 0, in order of arrival.
    Serve {
        shard: NodeId,
        worker: NodeId,
        place: u64,
    },
    /// The node begins a check: it takes a tentative checkpoint and asks its cohort.
    Check {
        node: NodeId,
    },
    /// Who began an instance writes the verdict that the votes come to.
    Decide {
        node: NodeId,
    },
    /// Who began an instance writes No; a participant that has not voted votes no.
    Abandon {
        node: NodeId,
    },
    /// The node learns the verdict from the board.
    Learn {
        node: NodeId,
    },
    /// The node fails, at any moment while it is not down: all that it has but what is stored is lost.
    Fail {
        node: NodeId,
    },
    /// The node goes on from its permanent checkpoint, and asks its neighbours to roll back.
    Restart {
        node: NodeId,
    },
}

impl Step {
    ghost use Rattle.kt_scenario.specs.Step.{owner};

    /// The node whose step it is; a delivery is the receiver's.
    pub fn owner(self) -> NodeId
        ensures { result ≡ owner self }
    {
        match self {
            Step::Issue { node }
            | Step::Repeat { node }
            | Step::Take { node }
            | Step::Check { node }
            | Step::Decide { node }
            | Step::Abandon { node }
            | Step::Learn { node }
            | Step::Fail { node }
            | Step::Restart { node } => node,
            Step::Deliver { to, .. } => to,
            Step::Serve { shard, .. } => shard,
        }
    }
}
