//! Why a world refuses a step, in words, and what to write: above the step's line, or in its place.
//! Cited by faults.rt, refused.rt.

use crate::missing::push_missing;
use crate::modes::push_wrong_mode;
use crate::request::waits_for_tuple;
use crate::sentence::{Due, Part, push_sentence, word_of};
use crate::voting::{Begun, awaited, begun_last, initiator, is_decided, push_votes};
use kt_core::{Scene, Step, StepError, World};
use kt_node::Mode;
use kt_scenario::{MAX_NOTES, MAX_STEPS};
use kt_shard::Shard;
use kt_store::{CkptStore, StoreError};
use kt_tuple::{ALL_NODES, NodeId, Op};
use kt_vote::Ballot;
use std::alloc::AllocError;

/// Puts the reason behind what is there, in words that end without a line feed: one line or two. These steps were made
/// before.
pub(crate) fn push_reason<S: CkptStore>(
    out: &mut Vec<u8>,
    world: &World<S>,
    made: &[Step],
    step: Step,
    cause: StepError,
) -> Result<(), AllocError> {
    match cause {
        StepError::NoNode => push_no_node(out, world, step),
        StepError::WrongMode => push_wrong_mode(out, world, made, step),
        StepError::NothingThere => push_missing(out, world, made, step),
        StepError::NoSuchMatch => push_no_match(out, world, step),
        StepError::NotDecided => push_undecided(out, world, made, step),
        StepError::Unresolved => push_unresolved(out, world, made, step.owner()),
        StepError::StepLimit => push_sentence(
            out,
            "no more than {} steps can be made at once, nor {} events of a history: take this line away, and the steps \
             below it",
            &[Part::Number(MAX_STEPS), Part::Number(MAX_NOTES)],
        ),
        StepError::Store(cause) => out.extend_from_slice(meaning_of_store(cause).as_bytes()),
        StepError::OutOfMemory => {
            out.extend_from_slice(b"memory ran out: give the program more")
        }
    }
}

/// What a refusal of the store means.
pub(crate) fn meaning_of_store(cause: StoreError) -> &'static str {
    match cause {
        StoreError::Memory =>
            "the store had no memory for a row or a checkpoint: give the program more",
        StoreError::Device =>
            "the file of the store could not be read or written: see whether the disk is full",
        StoreError::Damaged =>
            "what the store holds of a node is no checkpoint of it: name another file, or a copy from before",
        StoreError::Full => "a number of the store is at its greatest, 2^62: name another file",
    }
}

/// The first of the step's nodes that the scene does not have.
fn stranger(scene: &Scene, step: Step) -> Option<NodeId> {
    let (first, second) = match step {
        Step::Deliver { from, to } => (from, to),
        Step::Serve { shard, worker, .. } => (shard, worker),
        other => (other.owner(), other.owner()),
    };
    if !scene.has(first) {
        Some(first)
    } else if !scene.has(second) {
        Some(second)
    } else {
        None
    }
}

/// A node is not in the scene, or is of the wrong kind for the step.
fn push_no_node<S: CkptStore>(
    out: &mut Vec<u8>,
    world: &World<S>,
    step: Step,
) -> Result<(), AllocError> {
    let scene = world.scene();
    match (stranger(scene, step), step) {
        (Some(node), _) => push_stranger(out, scene, node),
        (None, Step::Deliver { .. }) => push_no_pair(out, world),
        (None, _) => push_wrong_kind(out, step),
    }
}

/// The scene does not have the node.
fn push_stranger(out: &mut Vec<u8>, scene: &Scene, node: NodeId) -> Result<(), AllocError> {
    let (workers, shards) = (scene.scripts().len() as u64, u64::from(scene.shards()));
    let all_workers = if workers < 2 { "w" } else { "w1 to w" };
    let all_shards = if shards < 2 { "s" } else { "s1 to s" };
    push_sentence(
        out,
        "there is no {}: this scenario has {}{} and {}{}, so write one of them in its place",
        &[
            Part::Node(node),
            Part::Words(all_workers),
            Part::Number(workers),
            Part::Words(all_shards),
            Part::Number(shards),
        ],
    )
}

/// The scene has the node, which is of the wrong kind for the step.
fn push_wrong_kind(out: &mut Vec<u8>, step: Step) -> Result<(), AllocError> {
    match step {
        Step::Serve {
            shard: NodeId::Worker(worker),
            worker: NodeId::Shard(shard),
            place,
        } => push_sentence(
            out,
            "a shard serves a worker, so the shard stands first: write `serve s{} w{} {}`",
            &[
                Part::Number(u64::from(shard)),
                Part::Number(u64::from(worker)),
                Part::Number(place),
            ],
        ),
        Step::Serve { .. } => out.extend_from_slice(
            b"a shard serves a worker: write the shard, the worker and the place, as in `serve s1 w1 0`",
        ),
        _ => {
            let word = Part::Words(word_of(step));
            push_sentence(
                out,
                "{} is a shard, and only workers {} requests: write a worker here, as in `{} w1`",
                &[Part::Node(step.owner()), word, word],
            )
        }
    }
}

/// No message goes from a node to one of its kind.
fn push_no_pair<S: CkptStore>(out: &mut Vec<u8>, world: &World<S>) -> Result<(), AllocError> {
    match first_arrival(world) {
        Some(due) => push_sentence(
            out,
            "messages go between a worker and a shard, the sender stands first: write {}, for which one is on its way",
            &[Part::Due(due)],
        ),
        None => out.extend_from_slice(
            b"messages go between a worker and a shard, the sender stands first: write `deliver w1 s1`, below an \
              `issue w1` that sends one",
        ),
    }
}

/// An arrival by the first link that has a message on its way.
fn first_arrival<S: CkptStore>(world: &World<S>) -> Option<Due> {
    for from in ALL_NODES {
        if let Some(due) = arrival_from(world, from) {
            return Some(due);
        }
    }
    None
}

/// The same by the first link from this node.
fn arrival_from<S: CkptStore>(world: &World<S>, from: NodeId) -> Option<Due> {
    for to in ALL_NODES {
        if 0 < world.link_len(from, to) {
            return Some(Due::deliveries(from, to, 1));
        }
    }
    None
}

/// How many tuples of the shard match what the worker waits for there.
fn matches_of(shard: &Shard, worker: u8) -> usize {
    match shard.waiting(worker) {
        Some(request) => match &request.op {
            Op::In(template) | Op::Rd(template) | Op::Inp(template) | Op::Rdp(template) => {
                shard.bag().count_matches(template)
            }
            Op::Out(_) => 0,
        },
        None => 0,
    }
}

/// No tuple that matches stands at the place that a service names.
fn push_no_match<S: CkptStore>(
    out: &mut Vec<u8>,
    world: &World<S>,
    step: Step,
) -> Result<(), AllocError> {
    let Step::Serve { shard, worker, .. } = step else {
        return out.extend_from_slice(b"no tuple matches: take this line away");
    };
    if waits_for_tuple(world, shard, worker) {
        return push_sentence(
            out,
            "{} has no tuple that matches the request of {}: take this line away, or let another worker put one first",
            &[Part::Node(shard), Part::Node(worker)],
        );
    }
    let count = match world.shard(shard) {
        Some(held) => matches_of(held, worker.number()),
        None => 0,
    };
    push_places(out, shard, worker, count)
}

/// The places at which the shard can serve the worker, of whose request so many tuples match.
fn push_places(
    out: &mut Vec<u8>,
    shard: NodeId,
    worker: NodeId,
    count: usize,
) -> Result<(), AllocError> {
    let first = Part::Due(Due::once(Step::Serve {
        shard,
        worker,
        place: 0,
    }));
    let (server, asker) = (Part::Node(shard), Part::Node(worker));
    match count {
        0 | 1 => push_sentence(
            out,
            "{} can serve {} at place 0 alone: write {}",
            &[server, asker, first],
        ),
        _ => push_sentence(
            out,
            "{} has {} tuples that match the request of {}: write {} for the oldest, or a place up to {}",
            &[
                server,
                Part::Number(count as u64),
                asker,
                first,
                Part::Number(count.saturating_sub(1) as u64),
            ],
        ),
    }
}

/// Votes are missing, or the verdict.
fn push_undecided<S: CkptStore>(
    out: &mut Vec<u8>,
    world: &World<S>,
    made: &[Step],
    step: Step,
) -> Result<(), AllocError> {
    let node = step.owner();
    if let Step::Restart { .. } = step {
        return push_sentence(
            out,
            "{} has restarted already and rolls back: take this line away",
            &[Part::Node(node)],
        );
    }
    match world.ballot(node) {
        Some(ballot) => push_no_verdict(out, world, node, ballot),
        None => push_undecided_of_down(out, world, made, node),
    }
}

/// There is no verdict yet on what a node votes.
fn push_no_verdict<S: CkptStore>(
    out: &mut Vec<u8>,
    world: &World<S>,
    node: NodeId,
    ballot: &Ballot,
) -> Result<(), AllocError> {
    match initiator(world, node) {
        Some(leader) if awaited(world, leader).is_some() => push_votes(out, world, leader),
        Some(leader) => push_sentence(
            out,
            "there is no verdict yet that {} could learn: write `decide {}` above this line",
            &[Part::Node(node), Part::Node(leader)],
        ),
        None => {
            let asker = match ballot.parent() {
                Some(asker) => asker.node,
                None => node,
            };
            push_sentence(
                out,
                "who began this has failed before it decided: write `abandon {}` above this line",
                &[Part::Node(asker)],
            )
        }
    }
}

/// There is no verdict on what a node that is down has saved.
fn push_undecided_of_down<S: CkptStore>(
    out: &mut Vec<u8>,
    world: &World<S>,
    made: &[Step],
    node: NodeId,
) -> Result<(), AllocError> {
    let name = Part::Node(node);
    if let Some(Begun::Check) = begun_last(made, node) {
        return push_sentence(
            out,
            "{} began this check itself and never decided it: write `abandon {}` above this line",
            &[name, name],
        );
    }
    match saving_initiator(world, made) {
        Some(leader) => push_sentence(
            out,
            "{} has saved its state for {}, which did not decide yet: write {} above this line",
            &[name, Part::Node(leader), Part::Due(end_of(world, leader))],
        ),
        None => push_sentence(
            out,
            "{} has saved its state in a check that has no verdict: write `abandon` and the node that began it above \
             this line",
            &[name],
        ),
    }
}

/// The step by which this node ends the check that it began: its verdict, or no where votes are missing.
fn end_of<S: CkptStore>(world: &World<S>, leader: NodeId) -> Due {
    Due::once(match awaited(world, leader) {
        Some(_) => Step::Abandon { node: leader },
        None => Step::Decide { node: leader },
    })
}

/// A node that began a check which is not decided yet.
fn saving_initiator<S: CkptStore>(world: &World<S>, made: &[Step]) -> Option<NodeId> {
    for node in ALL_NODES {
        if is_saving_first(world, node) && !is_decided(made, node) {
            return Some(node);
        }
    }
    None
}

/// Whether the node is in a check that it began.
fn is_saving_first<S: CkptStore>(world: &World<S>, node: NodeId) -> bool {
    match world.ballot(node) {
        Some(ballot) => ballot.parent().is_none() && world.mode(node) == Some(Mode::Held),
        None => false,
    }
}

/// A tentative checkpoint or an open instance stands in the way of a restart.
fn push_unresolved<S: CkptStore>(
    out: &mut Vec<u8>,
    world: &World<S>,
    made: &[Step],
    node: NodeId,
) -> Result<(), AllocError> {
    let steps = steps_to_resolve(world, made, node);
    let text = match steps {
        [None, _] =>
            "{} failed while it was saving its state or rolling back: write {} above this line\n  \
             (where {} began that check itself, `abandon {}` stands above `learn {}`)",
        _ => "{} failed while it was saving its state or rolling back: write {} above this line",
    };
    let name = Part::Node(node);
    push_sentence(out, text, &[name, Part::Steps(&steps), name, name, name])
}

/// The steps after which a node that is down may restart.
fn steps_to_resolve<S: CkptStore>(
    world: &World<S>,
    made: &[Step],
    node: NodeId,
) -> [Option<Due>; 2] {
    let (abandon, learn) = (
        Some(Due::once(Step::Abandon { node })),
        Some(Due::once(Step::Learn { node })),
    );
    match begun_last(made, node) {
        Some(Begun::Check) => [abandon, learn],
        Some(Begun::Rollback) => [abandon, None],
        None => match saving_initiator(world, made) {
            Some(leader) => [Some(end_of(world, leader)), learn],
            None => [None, learn],
        },
    }
}
