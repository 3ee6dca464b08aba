//! What of the store a step's rule looks at.
//! Cited by stepping.rt, world.rt.

ghost use Rattle.std.specs.Prelude.{◌≡◌, ◌==◌, ◌&&◌};
ghost use Rattle.std.specs.Option.{option_copied};
ghost use Rattle.kt_store.specs.Content.{empty_content};
ghost use Rattle.kt_model.specs.ReadSet.{for_abandon, for_ask, for_check, for_decide, for_fail, for_learn};
ghost use Rattle.kt_model.specs.ReadSet.{for_message, for_restart, for_verdict};
ghost use Rattle.kt_model.specs.ReadSet.{if_initiator, if_learner, if_participant, if_restarter};

use crate::machine::Machine;
use kt_model::{ReadSet, Step, VerdictQuery};
use kt_node::{Message, Mode};
use kt_tuple::NodeId;
use kt_vote::Ballot;

/// An ask of this instance comes: its verdict and the headers of both checkpoints, unless the node is down.
fn for_ask(instance: u64, mode: Mode) -> ReadSet
    ensures { result ≡ for_ask instance mode }
{
    match mode {
        Mode::Down => ReadSet::none(),
        Mode::Up | Mode::Held | Mode::Rolling => ReadSet {
            verdict: VerdictQuery::Of(instance),
            permanent: true,
            tentative: true,
            ..ReadSet::none()
        },
    }
}

/// A verdict comes: the permanent checkpoint where a participant of the rollback has to load it.
fn for_verdict(instance: u64, yes: bool, mode: Mode, ballot: Option<&Ballot>) -> ReadSet
    ensures { result ≡ for_verdict instance yes mode (option_copied ballot.entry) }
{
    match (mode, ballot) {
        (Mode::Rolling, Some(ballot)) if ballot.parent().is_some() => ReadSet {
            stored: ballot.instance() == instance && yes,
            ..ReadSet::none()
        },
        _ => ReadSet::none(),
    }
}

fn for_message(message: &Message, mode: Mode, ballot: Option<&Ballot>) -> ReadSet
    ensures { result ≡ for_message message.now mode (option_copied ballot.entry) }
{
    match message {
        Message::App(_) | Message::Vote(_) => ReadSet::none(),
        Message::CheckAsk(ask) | Message::RollAsk(ask) => for_ask(ask.instance, mode),
        Message::Verdict { instance, yes } => for_verdict(*instance, *yes, mode, ballot),
    }
}

/// A node that is up begins a check: the next number, and the header of the permanent checkpoint.
fn for_check(mode: Mode) -> ReadSet
    ensures { result ≡ for_check mode }
{
    match mode {
        Mode::Up => ReadSet {
            permanent: true,
            next: true,
            ..ReadSet::none()
        },
        Mode::Held | Mode::Rolling | Mode::Down => ReadSet::none(),
    }
}

/// Who began the ballot's instance asks after it.
fn for_decide(ballot: Option<&Ballot>) -> ReadSet
    ensures { result ≡ for_decide (option_copied ballot.entry) }
{
    match ballot {
        Some(ballot) if ballot.parent().is_none() => ReadSet {
            verdict: VerdictQuery::Of(ballot.instance()),
            ..ReadSet::none()
        },
        _ => ReadSet::none(),
    }
}

/// A node that is down asks for the open instance that it began.
fn for_abandon(mode: Mode, ballot: Option<&Ballot>) -> ReadSet
    ensures { result ≡ for_abandon mode (option_copied ballot.entry) }
{
    match mode {
        Mode::Down => ReadSet {
            undecided: true,
            ..ReadSet::none()
        },
        Mode::Up | Mode::Held | Mode::Rolling => for_decide(ballot),
    }
}

/// A held node asks after its ballot's instance, a participant of a rollback for its permanent checkpoint too; one
/// that is down for all that is stored of it.
fn for_learn(mode: Mode, ballot: Option<&Ballot>) -> ReadSet
    ensures { result ≡ for_learn mode (option_copied ballot.entry) }
{
    match (mode, ballot) {
        (Mode::Down, _) => ReadSet {
            verdict: VerdictQuery::OfTentative,
            tentative: true,
            stored: true,
            ..ReadSet::none()
        },
        (Mode::Held, Some(ballot)) => ReadSet {
            verdict: VerdictQuery::Of(ballot.instance()),
            ..ReadSet::none()
        },
        (Mode::Rolling, Some(ballot)) if ballot.parent().is_some() => ReadSet {
            verdict: VerdictQuery::Of(ballot.instance()),
            stored: true,
            ..ReadSet::none()
        },
        _ => ReadSet::none(),
    }
}

/// The headers of both checkpoints, and the verdict on the tentative one.
fn for_fail(mode: Mode) -> ReadSet
    ensures { result ≡ for_fail mode }
{
    match mode {
        Mode::Down => ReadSet::none(),
        Mode::Up | Mode::Held | Mode::Rolling => ReadSet {
            verdict: VerdictQuery::OfTentative,
            permanent: true,
            tentative: true,
            ..ReadSet::none()
        },
    }
}

/// The permanent checkpoint and the next number; of a node that is down what may stand in the way, of who began a
/// rollback its verdict.
fn for_restart(mode: Mode, ballot: Option<&Ballot>) -> ReadSet
    ensures { result ≡ for_restart mode (option_copied ballot.entry) }
{
    match (mode, ballot) {
        (Mode::Down, _) => ReadSet {
            tentative: true,
            stored: true,
            undecided: true,
            next: true,
            ..ReadSet::none()
        },
        (Mode::Rolling, Some(ballot)) if ballot.parent().is_none() => ReadSet {
            verdict: VerdictQuery::Of(ballot.instance()),
            stored: true,
            next: true,
            ..ReadSet::none()
        },
        _ => ReadSet::none(),
    }
}

impl Machine {
    ghost use Rattle.kt_core.specs.auxiliary.Machine.{state_of};
    ghost use Rattle.kt_model.specs.ReadSet.{mode_at, read_set_of, poll_at};

    /// The node's mode; a node that is not in the scene counts as down.
    fn mode_at(&self, id: NodeId) -> Mode
        ensures { result ≡ mode_at (state_of self.now empty_content) id }
    {
        match self.node_at(id) {
            Some(node) => node.mode(),
            _ => Mode::Down,
        }
    }

    /// The node's ballot while it is held or rolls back; else `None`.
    pub(crate) fn ballot_at(&self, id: NodeId) -> Option<&Ballot>
        ensures { option_copied result ≡ poll_at (state_of self.now empty_content) id }
    {
        match self.node_at(id) {
            Some(node) => node.ballot(),
            _ => None,
        }
    }

    /// What of the store the rule of the step looks at.
    pub(crate) fn read_set(&self, step: Step) -> ReadSet
        ensures { result ≡ read_set_of (state_of self.now empty_content) step }
    {
        // Of a step that names no nodes of the scene nothing is asked (docs/DECISIONS.md#steps).
        if !self.scene.is_for(step) {
            return ReadSet::none();
        }
        let id = step.owner();
        let (mode, ballot) = (self.mode_at(id), self.ballot_at(id));
        match step {
            Step::Issue { .. } | Step::Repeat { .. } | Step::Take { .. } | Step::Serve { .. } => {
                ReadSet::none()
            }
            Step::Deliver { from, to } => match self.links.front(from, to) {
                Some(message) => for_message(message, mode, ballot),
                None => ReadSet::none(),
            },
            Step::Check { .. } => for_check(mode),
            Step::Decide { .. } => for_decide(ballot),
            Step::Abandon { .. } => for_abandon(mode, ballot),
            Step::Learn { .. } => for_learn(mode, ballot),
            Step::Fail { .. } => for_fail(mode),
            Step::Restart { .. } => for_restart(mode, ballot),
        }
    }
}
