//! Checks and rollbacks that are under way: who decides them, and which steps bring a node out of them.
//! Cited by missing.rt, modes.rt, reasons.rt.

use crate::sentence::{Due, Part, push_sentence};
use kt_core::{Step, World};
use kt_node::{Message, Mode};
use kt_store::CkptStore;
use kt_tuple::{ALL_NODES, NodeId};
use kt_vote::Ballot;
use std::alloc::AllocError;

/// The node that began the instance in which this one votes, while it is in it still.
pub(crate) fn initiator<S: CkptStore>(world: &World<S>, node: NodeId) -> Option<NodeId> {
    let instance = world.ballot(node)?.instance();
    for other in ALL_NODES {
        if has_begun(world, other, instance) {
            return Some(other);
        }
    }
    None
}

/// Whether the node began this instance, and is in it still.
fn has_begun<S: CkptStore>(world: &World<S>, node: NodeId, instance: u64) -> bool {
    match world.ballot(node) {
        Some(ballot) => ballot.instance() == instance && ballot.parent().is_none(),
        None => false,
    }
}

/// What a node began that it did not decide.
#[derive(Clone, Copy)]
pub(crate) enum Begun {
    Check,
    Rollback,
}

/// What the node began last by these steps, where they do not decide it.
pub(crate) fn begun_last(made: &[Step], initiator: NodeId) -> Option<Begun> {
    let mut begun = None;
    for step in made {
        match step {
            Step::Check { node } if *node == initiator => begun = Some(Begun::Check),
            Step::Restart { node } if *node == initiator => begun = Some(Begun::Rollback),
            Step::Decide { node } | Step::Abandon { node } if *node == initiator => begun = None,
            _ => {}
        }
    }
    begun
}

/// Whether these steps decide what the node began.
pub(crate) fn is_decided(made: &[Step], initiator: NodeId) -> bool {
    begun_last(made, initiator).is_none()
}

/// The steps that bring the node out of the check or rollback in which it votes, where they can be told: what the
/// initiator decides, and what the node then does.
pub(crate) fn steps_out<S: CkptStore>(
    world: &World<S>,
    made: &[Step],
    node: NodeId,
) -> [Option<Due>; 2] {
    let learn = Some(Due::once(Step::Learn { node }));
    let Some(leader) = initiator(world, node) else {
        return [None, learn];
    };
    let is_over = is_decided(made, leader);
    if leader == node && world.mode(node) == Some(Mode::Rolling) {
        return steps_out_of_own(world, node, is_over);
    }
    if is_over {
        return [None, learn];
    }
    [Some(Due::once(Step::Decide { node: leader })), learn]
}

/// The steps that bring the node out of a rollback that it began: it is up by its own yes, and restarts by its own no.
fn steps_out_of_own<S: CkptStore>(
    world: &World<S>,
    node: NodeId,
    is_decided: bool,
) -> [Option<Due>; 2] {
    let restart = Some(Due::once(Step::Restart { node }));
    if is_decided {
        return [None, restart];
    }
    let decide = Some(Due::once(Step::Decide { node }));
    match world.ballot(node) {
        Some(ballot) if ballot.outcome() == Some(false) => [decide, restart],
        _ => [decide, None],
    }
}

/// A node whose vote this one needs before it votes or decides.
pub(crate) fn awaited<S: CkptStore>(world: &World<S>, node: NodeId) -> Option<NodeId> {
    let ballot = world.ballot(node)?;
    if ballot.outcome().is_some() {
        return None;
    }
    for other in ALL_NODES {
        if ballot.awaits(other) {
            return Some(other);
        }
    }
    None
}

/// The deliveries that bring the vote of one node to the other, which asked for it: of the ask, where it is on its way,
/// and of the vote.
pub(crate) fn steps_to_vote<S: CkptStore>(
    world: &World<S>,
    asker: NodeId,
    voter: NodeId,
) -> [Option<Due>; 2] {
    let there = control_place(world, asker, voter);
    let back = control_place(world, voter, asker);
    let behind = world.link_len(voter, asker).saturating_add(1);
    match (there, back) {
        (Some(ask), _) => [
            Some(Due::deliveries(asker, voter, ask)),
            Some(Due::deliveries(voter, asker, behind)),
        ],
        (None, Some(vote)) => [Some(Due::deliveries(voter, asker, vote)), None],
        (None, None) => [None, None],
    }
}

/// Which delivery, counted from 1, brings the last ask or vote that is on its way between the two.
fn control_place<S: CkptStore>(world: &World<S>, from: NodeId, to: NodeId) -> Option<usize> {
    let mut place = None;
    for index in 0..world.link_len(from, to) {
        match world.link_at(from, to, index) {
            Some(Message::CheckAsk(_) | Message::RollAsk(_) | Message::Vote(_)) => {
                place = Some(index.saturating_add(1));
            }
            _ => {}
        }
    }
    place
}

/// Says whose votes the node awaits, in words, and which steps bring one; nothing where it awaits none. Who is asked
/// may ask others before it votes, so these steps need not be all.
pub(crate) fn push_votes<S: CkptStore>(
    out: &mut Vec<u8>,
    world: &World<S>,
    node: NodeId,
) -> Result<(), AllocError> {
    match (world.ballot(node), awaited(world, node)) {
        (Some(ballot), Some(first)) => {
            let steps = steps_for_vote(world, node, first);
            push_votes_of(out, node, ballot, &steps)
        }
        _ => Ok(()),
    }
}

/// Says whose votes the node awaits in the ballot, and that these steps bring one.
fn push_votes_of(
    out: &mut Vec<u8>,
    node: NodeId,
    ballot: &Ballot,
    steps: &[Option<Due>],
) -> Result<(), AllocError> {
    let count = push_awaited(out, node, ballot)?;
    let text = if count > 1 {
        ": write {} above this line, the same for each, and try again"
    } else {
        ": write {} above this line and try again"
    };
    push_sentence(out, text, &[Part::Steps(steps)])
}

/// Puts the names of all whose votes the node awaits in the ballot, and gives how many they are.
fn push_awaited(out: &mut Vec<u8>, node: NodeId, ballot: &Ballot) -> Result<usize, AllocError> {
    push_sentence(out, "{} awaits the vote of", &[Part::Node(node)])?;
    let mut count = 0usize;
    for other in ALL_NODES {
        if ballot.awaits(other) {
            let text = if count == 0 { " {}" } else { ", {}" };
            push_sentence(out, text, &[Part::Node(other)])?;
            count = count.saturating_add(1);
        }
    }
    Ok(count)
}

/// The steps that bring this vote. Where they cannot be told, the one that gives the instance up.
pub(crate) fn steps_for_vote<S: CkptStore>(
    world: &World<S>,
    asker: NodeId,
    voter: NodeId,
) -> [Option<Due>; 2] {
    let own = steps_to_vote(world, asker, voter);
    if let [Some(_), _] = own {
        return own;
    }
    // The voter may await votes itself.
    if let Some(third) = awaited(world, voter) {
        let others = steps_to_vote(world, voter, third);
        if let [Some(_), _] = others {
            return others;
        }
    }
    [Some(Due::once(Step::Abandon { node: asker })), None]
}
