//! Why a node's mode does not allow a step, in words, and which steps bring it where it can.
//! Cited by reasons.rt.

use crate::sentence::{Due, Part, push_sentence};
use crate::voting::{awaited, initiator, is_decided, steps_for_vote, steps_out};
use kt_core::{Scene, Step, World};
use kt_node::Mode;
use kt_store::CkptStore;
use kt_tuple::{ALL_NODES, NodeId};
use std::alloc::AllocError;

/// The node's mode does not allow the step; these were made before.
pub(crate) fn push_wrong_mode<S: CkptStore>(
    out: &mut Vec<u8>,
    world: &World<S>,
    made: &[Step],
    step: Step,
) -> Result<(), AllocError> {
    let node = step.owner();
    match world.mode(node) {
        Some(Mode::Up) => push_of_up(out, step),
        Some(Mode::Down) => push_of_down(out, world, step),
        Some(Mode::Held) => push_of_voting(out, world, made, step, "is saving its state"),
        Some(Mode::Rolling) => push_of_voting(out, world, made, step, "rolls back"),
        None => push_sentence(
            out,
            "{} is not in this scenario: take this line away",
            &[Part::Node(node)],
        ),
    }
}

/// Of a node that is up.
fn push_of_up(out: &mut Vec<u8>, step: Step) -> Result<(), AllocError> {
    let node = Part::Node(step.owner());
    let text = match step {
        Step::Decide { .. } =>
            "{} is up and has begun nothing to decide: take this line away, or write `check {}` above it",
        Step::Learn { .. } =>
            "{} is up and has nothing to learn: take this line away\n  (`learn {}` comes after a `decide`, \
             while {} saves its state or rolls back with others)",
        Step::Restart { .. } =>
            "{} is up, and only a node that failed restarts: take this line away, or write `fail {}` above it",
        _ => "{} is up and has begun nothing to give up: take this line away",
    };
    push_sentence(out, text, &[node, node, node])
}

/// Of a node that has failed.
fn push_of_down<S: CkptStore>(
    out: &mut Vec<u8>,
    world: &World<S>,
    step: Step,
) -> Result<(), AllocError> {
    let node = step.owner();
    let name = Part::Node(node);
    match step {
        Step::Fail { .. } => push_sentence(
            out,
            "{} has failed already: take this line away",
            &[name],
        ),
        Step::Decide { .. } => push_sentence(
            out,
            "{} has failed and decides nothing: take this line away; `restart {}` brings it back",
            &[name, name],
        ),
        _ => push_restart(out, world, node),
    }
}

/// That a node is down, and the steps by which it restarts: the deliveries by which it asks its neighbours and has
/// their votes, and the verdict.
fn push_restart<S: CkptStore>(
    out: &mut Vec<u8>,
    world: &World<S>,
    node: NodeId,
) -> Result<(), AllocError> {
    let (first, count) = neighbours_of(world.scene(), node);
    let others = match node {
        _ if count < 2 => "",
        NodeId::Worker(_) => ", the same for each other shard,",
        NodeId::Shard(_) => ", the same for each other worker,",
    };
    let steps = steps_to_ask(world, node, first);
    let name = Part::Node(node);
    push_sentence(
        out,
        "{} is down since it failed: write above this line `restart {}`, which asks all others to roll back,\n  \
         then {}{} and at last `decide {}`",
        &[name, name, Part::Steps(&steps), Part::Words(others), name],
    )
}

/// The first neighbour of the node, and how many it has.
fn neighbours_of(scene: &Scene, node: NodeId) -> (Option<NodeId>, usize) {
    let mut first = None;
    let mut count = 0usize;
    for other in ALL_NODES {
        if scene.are_neighbours(node, other) && scene.has(other) {
            first = first.or(Some(other));
            count = count.saturating_add(1);
        }
    }
    (first, count)
}

/// The deliveries by which a node that restarts asks this neighbour, and has its vote.
fn steps_to_ask<S: CkptStore>(
    world: &World<S>,
    node: NodeId,
    neighbour: Option<NodeId>,
) -> [Option<Due>; 2] {
    let Some(other) = neighbour else {
        return [None, None];
    };
    let there = world.link_len(node, other).saturating_add(1);
    let back = world.link_len(other, node).saturating_add(1);
    [
        Some(Due::deliveries(node, other, there)),
        Some(Due::deliveries(other, node, back)),
    ]
}

/// Of a node that takes part in a check or a rollback: what it does there is said by these words.
fn push_of_voting<S: CkptStore>(
    out: &mut Vec<u8>,
    world: &World<S>,
    made: &[Step],
    step: Step,
    what: &str,
) -> Result<(), AllocError> {
    let node = step.owner();
    match step {
        Step::Restart { .. } => push_sentence(
            out,
            "{} {} and has not failed: take this line away",
            &[Part::Node(node), Part::Words(what)],
        ),
        Step::Learn { .. } => push_sentence(
            out,
            "{} began this rollback and learns nothing: take this line away; `decide {}` ends it",
            &[Part::Node(node), Part::Node(node)],
        ),
        _ => {
            push_sentence(
                out,
                "{} {} and can do nothing else before that is over: write above this line",
                &[Part::Node(node), Part::Words(what)],
            )?;
            push_way_out(out, world, made, node)
        }
    }
}

/// The steps that bring the node out of the check or rollback in which it votes, the votes first that are missing.
fn push_way_out<S: CkptStore>(
    out: &mut Vec<u8>,
    world: &World<S>,
    made: &[Step],
    node: NodeId,
) -> Result<(), AllocError> {
    let steps = steps_out(world, made, node);
    match missing_vote(world, made, node) {
        Some((leader, voter)) => push_sentence(
            out,
            "\n  {} for the vote of {}, and at last {}",
            &[
                Part::Steps(&steps_for_vote(world, leader, voter)),
                Part::Node(voter),
                Part::Steps(&steps),
            ],
        ),
        None => push_sentence(out, " {}", &[Part::Steps(&steps)]),
    }
}

/// Who began the instance in which the node votes, and a node whose vote is missing there; `None` where it is decided.
fn missing_vote<S: CkptStore>(
    world: &World<S>,
    made: &[Step],
    node: NodeId,
) -> Option<(NodeId, NodeId)> {
    let leader = initiator(world, node)?;
    let voter = awaited(world, leader)?;
    if is_decided(made, leader) {
        None
    } else {
        Some((leader, voter))
    }
}
