//! Votes: what a node has to vote by what it knows, and to whom.
//! Cited by other crates.

ghost use Rattle.std.specs.Prelude.{◌≡◌, ◌++◌, IfOk, OnOk};
ghost use Rattle.kt_state.specs.Voting.{casting, poll_after, vote_for, votes};

use crate::message::Message;
use crate::plan::Outbox;
use kt_tuple::NodeId;
use kt_vote::{Asker, Ballot, Vote};
use std::alloc::{AllocError, Global};

/// The vote that answers an ask. It repeats the asker's incarnation, not its own: the vote comes when the ask is long
/// gone, and the asker may have begun another life since (docs/DECISIONS.md#ballots).
pub fn vote_for(instance: u64, asker: Asker, yes: bool) -> (NodeId, Vote)
    ensures { result ≡ vote_for instance asker yes }
{
    let vote = Vote {
        instance,
        incarnation: asker.incarnation,
        yes,
    };
    (asker.node, vote)
}

/// The vote that the node has to cast now, if it has to; then it has voted.
pub fn cast(ballot: &mut Ballot) -> Option<(NodeId, Vote)>
    ensures vote { result ≡ casting ballot.old }
    ensures voted { ballot.new ≡ poll_after ballot.old (casting ballot.old) }
{
    let Some(parent) = ballot.parent() else {
        return None;
    };
    if ballot.has_voted() {
        return None;
    }
    let Some(yes) = ballot.outcome() else {
        return None;
    };
    ballot.mark_voted();
    Some(vote_for(ballot.instance(), parent, yes))
}

/// The message of a vote alone.
pub fn vote_alone(alloc: Global, vote: Option<(NodeId, Vote)>) -> Result<Outbox, AllocError>
    ensures { IfOk result (λ b. b ≡ votes vote) }
{
    match vote {
        None => Ok(Outbox::empty(alloc)),
        Some((to, vote)) => Outbox::one(alloc, to, Message::Vote(vote)),
    }
}

/// The message of a vote behind others.
pub fn add_vote(send: &mut Outbox, vote: Option<(NodeId, Vote)>) -> Result<(), AllocError>
    ensures { OnOk result (send.new ≡ send.old ++ votes vote) }
{
    if let Some((to, vote)) = vote {
        send.add(to, Message::Vote(vote))?;
    }
    Ok(())
}
