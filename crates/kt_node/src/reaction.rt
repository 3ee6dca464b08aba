//! What a node answers to an ask. The tests on labels are those of Koo and Toueg, "Checkpointing and Rollback-Recovery
//! for Distributed Systems", in their algorithms for checkpoints and for rollbacks. A node that takes part in another
//! instance already answers by this project's own table.
//! Cited by arrivals.rt.

ghost use Rattle.std.specs.Prelude.{◌≡◌};
ghost use Rattle.std.specs.Option.{option_copied};
ghost use Rattle.kt_node.specs.Arrivals.{check_in, check_reaction, check_when_up, is_in};
ghost use Rattle.kt_node.specs.Arrivals.{rollback_in, rollback_reaction};
ghost use Rattle.kt_state.specs.Codes.{live_view};

use kt_ckpt::CkptHeader;
use kt_state::{Ask, Live, Phase, is_undecided, label_at, reaches, sent_in, up_to};
use kt_store::Verdict;
use kt_tuple::NodeId;
use kt_vote::Ballot;

/// What a node answers to an ask.
#[derive(Clone, Copy, Debug, PartialEq, Eq)]
pub enum Reaction {
    /// A vote at once, yes or no: the node does not begin to take part.
    Says(bool),
    /// The node takes part, and votes once its own ballot has come out.
    Joins,
}

/// Whether the ballot is of this instance.
pub(crate) fn is_in(ballot: &Ballot, instance: u64) -> bool
    ensures { result ≡ is_in ballot.now instance }
{
    ballot.instance() == instance
}

/// A node that is up joins a check where the label is that of a message sent since the permanent checkpoint.
fn check_when_up(live: &Live, from: NodeId, ask: Ask) -> Reaction
    ensures { result ≡ check_when_up (live_view live.now) from ask }
{
    if reaches(&live.first, from, ask.label) && up_to(ask.label, label_at(&live.sent, from)) {
        Reaction::Joins
    } else {
        Reaction::Says(false)
    }
}

/// What is answered where the permanent checkpoint lacks what the asker received.
fn check_in(live: &Live, from: NodeId, ask: Ask, tentative: Option<&CkptHeader>) -> Reaction
    ensures { result ≡ check_in (live_view live.now) from ask (option_copied tentative.entry) live.now.phase }
{
    match &live.phase {
        Phase::Up => check_when_up(live, from, ask),
        Phase::Held(ballot) => Reaction::Says(
            is_in(ballot, ask.instance) && up_to(ask.label, sent_in(tentative, from)),
        ),
        Phase::Rolling(_) => Reaction::Says(false),
    }
}

/// What is answered to an ask to take a checkpoint.
pub(crate) fn check_reaction(
    live: &Live,
    from: NodeId,
    ask: Ask,
    verdict: Option<Verdict>,
    permanent: Option<&CkptHeader>,
    tentative: Option<&CkptHeader>,
) -> Reaction
    ensures { result ≡ check_reaction (live_view live.now) from ask verdict
        (option_copied permanent.entry) (option_copied tentative.entry) }
{
    if !is_undecided(verdict) {
        Reaction::Says(false)
    } else if up_to(ask.label, sent_in(permanent, from)) {
        Reaction::Says(true)
    } else {
        check_in(live, from, ask, tentative)
    }
}

/// What is answered where something was heard above the label.
fn rollback_in(live: &Live, ask: Ask) -> Reaction
    ensures { result ≡ rollback_in ask live.now.phase }
{
    match &live.phase {
        Phase::Up => Reaction::Joins,
        Phase::Held(_) => Reaction::Says(false),
        Phase::Rolling(ballot) => Reaction::Says(is_in(ballot, ask.instance)),
    }
}

/// What is answered to an ask to roll back.
pub(crate) fn rollback_reaction(
    live: &Live,
    from: NodeId,
    ask: Ask,
    verdict: Option<Verdict>,
) -> Reaction
    ensures { result ≡ rollback_reaction (live_view live.now) from ask verdict }
{
    if !is_undecided(verdict) {
        Reaction::Says(false)
    } else if up_to(label_at(&live.received, from), ask.label) {
        Reaction::Says(true)
    } else {
        rollback_in(live, ask)
    }
}
