//! What is not there of which a step would make something, in words, and which steps bring it.
//! Cited by reasons.rt.

use crate::request::{Place, Unanswered, lacks_tuple, may_ask};
use crate::sentence::{Due, Part, push_sentence};
use crate::voting::{
    awaited, initiator, is_decided, push_votes, steps_for_vote, steps_out, steps_to_vote,
};
use kt_core::{Step, World};
use kt_store::CkptStore;
use kt_tuple::NodeId;
use std::alloc::AllocError;

/// Puts what is not there behind the text, in words; these steps were made before.
pub(crate) fn push_missing<S: CkptStore>(
    out: &mut Vec<u8>,
    world: &World<S>,
    made: &[Step],
    step: Step,
) -> Result<(), AllocError> {
    match step {
        Step::Issue { node } => push_nothing_to_ask(out, world, node),
        Step::Deliver { from, to } => push_empty_link(out, world, from, to),
        Step::Serve { shard, worker, .. } => push_not_waiting(out, world, shard, worker),
        Step::Decide { .. } | Step::Abandon { .. } => {
            push_nothing_to_decide(out, world, made, step)
        }
        _ => push_nothing_of_its_own(out, step),
    }
}

/// What a node lacks for a step that needs nothing of another node.
fn push_nothing_of_its_own(out: &mut Vec<u8>, step: Step) -> Result<(), AllocError> {
    let node = Part::Node(step.owner());
    let text = match step {
        Step::Repeat { .. } =>
            "{} waits for no answer: take this line away, or write `issue {}` in its place",
        Step::Take { .. } =>
            "{} keeps no message back: take this line away; what is on its way arrives by `deliver`",
        _ =>
            "{} is down and saved nothing that is undecided: take this line away; `restart {}` brings it back",
    };
    push_sentence(out, text, &[node, node])
}

/// Why a worker that is up does not ask.
fn push_nothing_to_ask<S: CkptStore>(
    out: &mut Vec<u8>,
    world: &World<S>,
    node: NodeId,
) -> Result<(), AllocError> {
    let times = world.kept_len(node);
    if 0 < times {
        let step = Step::Take { node };
        return push_sentence(
            out,
            "{} hears first what it keeps back: write {} above this line",
            &[Part::Node(node), Part::Due(Due { step, times })],
        );
    }
    match Unanswered::of(world, node) {
        Some(request) => push_unanswered(out, world, request),
        None => push_sentence(
            out,
            "{} has done all its commands: take this line away, or write one more below the last of them",
            &[Part::Node(node)],
        ),
    }
}

/// The worker waits for an answer.
fn push_unanswered<S: CkptStore>(
    out: &mut Vec<u8>,
    world: &World<S>,
    request: Unanswered,
) -> Result<(), AllocError> {
    match request.lacking_at(world) {
        Some(shard) => push_lacking(out, request, shard),
        None => push_unfinished(out, request),
    }
}

/// The worker waits for an answer, and these steps bring it.
fn push_unfinished(out: &mut Vec<u8>, request: Unanswered) -> Result<(), AllocError> {
    let (node, number) = (Part::Node(request.worker), Part::Number(request.number));
    match request.place {
        Place::Lost => push_sentence(
            out,
            "request {} of {} was lost by a failure: write `repeat {}` in place of this line",
            &[number, node, node],
        ),
        _ => push_sentence(
            out,
            "{} still waits for the answer to request {}: write {} above this line\n  \
             (`repeat {}` in place of this line sends request {} once more)",
            &[
                node,
                number,
                Part::Steps(&request.steps_to_end()),
                node,
                number,
            ],
        ),
    }
}

/// The worker waits for a tuple that is not at the shard.
fn push_lacking(out: &mut Vec<u8>, request: Unanswered, shard: NodeId) -> Result<(), AllocError> {
    let goes = match request.place {
        Place::Waiting { .. } => "waits at",
        _ => "goes to",
    };
    push_sentence(
        out,
        "request {} of {} {} {}, where no tuple matches it: let another worker put one first, or take this line away",
        &[
            Part::Number(request.number),
            Part::Node(request.worker),
            Part::Words(goes),
            Part::Node(shard),
        ],
    )
}

/// Nothing is on the link.
fn push_empty_link<S: CkptStore>(
    out: &mut Vec<u8>,
    world: &World<S>,
    from: NodeId,
    to: NodeId,
) -> Result<(), AllocError> {
    if awaited(world, from).is_some() {
        return push_votes(out, world, from);
    }
    push_sentence(
        out,
        "{} has sent nothing to {} that is still on its way: ",
        &[Part::Node(from), Part::Node(to)],
    )?;
    match steps_to_vote(world, to, from) {
        [Some(ask), Some(_)] => push_above(out, &[Some(ask)]),
        _ => push_sending(out, world, from, to),
    }
}

/// What is to be written so that a message on a request is on this link; or that none will be.
fn push_sending<S: CkptStore>(
    out: &mut Vec<u8>,
    world: &World<S>,
    from: NodeId,
    to: NodeId,
) -> Result<(), AllocError> {
    let worker = match from {
        NodeId::Worker(_) => from,
        NodeId::Shard(_) => to,
    };
    match Unanswered::of(world, worker) {
        Some(request) => push_on_request(out, world, request, from, to),
        None => push_asking(out, world, worker, worker == to),
    }
}

/// What is to be written so that a message on this request is on the link; or what comes next for it.
fn push_on_request<S: CkptStore>(
    out: &mut Vec<u8>,
    world: &World<S>,
    request: Unanswered,
    from: NodeId,
    to: NodeId,
) -> Result<(), AllocError> {
    if request.worker == to && request.unserved_at() == Some(from) {
        push_answering(out, world, request, from)
    } else {
        push_next(out, world, request)
    }
}

/// What is to be written so that the shard answers the request that it has or that goes to it.
fn push_answering<S: CkptStore>(
    out: &mut Vec<u8>,
    world: &World<S>,
    request: Unanswered,
    shard: NodeId,
) -> Result<(), AllocError> {
    if lacks_tuple(world, shard, request.worker) {
        push_lacking(out, request, shard)
    } else {
        push_above(out, &request.steps_to_answer())
    }
}

/// What is to be written so that the worker, of which nothing is unanswered, asks, and where it is wanted that its
/// request comes to its shard; or that it asks nothing more.
fn push_asking<S: CkptStore>(
    out: &mut Vec<u8>,
    world: &World<S>,
    worker: NodeId,
    is_to_shard: bool,
) -> Result<(), AllocError> {
    if !may_ask(world, worker) {
        return out.extend_from_slice(b"take this line away");
    }
    if is_to_shard {
        push_above(out, &steps_to_shard_of_next(world, worker))
    } else {
        push_above(out, &[Some(Due::once(Step::Issue { node: worker }))])
    }
}

/// That the line goes, and which step comes next for the request; or that it waits for a tuple.
fn push_next<S: CkptStore>(
    out: &mut Vec<u8>,
    world: &World<S>,
    request: Unanswered,
) -> Result<(), AllocError> {
    match (request.next_step(world), request.unserved_at()) {
        (Some(due), _) => push_sentence(
            out,
            "take this line away; next comes {}",
            &[Part::Due(due)],
        ),
        (None, Some(shard)) => push_lacking(out, request, shard),
        (None, None) => out.extend_from_slice(b"take this line away"),
    }
}

/// Says to write these steps before the one that is refused.
fn push_above(out: &mut Vec<u8>, steps: &[Option<Due>]) -> Result<(), AllocError> {
    push_sentence(out, "write {} above this line", &[Part::Steps(steps)])
}

/// The steps by which a worker asks next, and its request comes to its shard. Of several shards it is not known here to
/// which one it goes.
fn steps_to_shard_of_next<S: CkptStore>(world: &World<S>, worker: NodeId) -> [Option<Due>; 2] {
    let issue = Due::once(Step::Issue { node: worker });
    if world.scene().shards() != 1 {
        return [Some(issue), None];
    }
    let deliver = Due::deliveries(worker, NodeId::Shard(1), 1);
    [Some(issue), Some(deliver)]
}

/// The worker does not wait at the shard; perhaps its request is still on the link.
fn push_not_waiting<S: CkptStore>(
    out: &mut Vec<u8>,
    world: &World<S>,
    shard: NodeId,
    worker: NodeId,
) -> Result<(), AllocError> {
    match Unanswered::of(world, worker) {
        Some(request) if request.unserved_at() == Some(shard) => push_sentence(
            out,
            "the request of {} has not come to {} yet: write {} above this line",
            &[
                Part::Node(worker),
                Part::Node(shard),
                Part::Steps(&[request.step_to_shard()]),
            ],
        ),
        Some(request) => push_elsewhere(out, world, shard, request),
        None => push_not_asked(out, world, shard, worker),
    }
}

/// The worker's request is neither at this shard nor on the way to it.
fn push_elsewhere<S: CkptStore>(
    out: &mut Vec<u8>,
    world: &World<S>,
    shard: NodeId,
    request: Unanswered,
) -> Result<(), AllocError> {
    let text = match request.unserved_at() {
        Some(_) => "the request of {} goes to another shard: ",
        None => "{} does not wait at {} any more: ",
    };
    push_sentence(out, text, &[Part::Node(request.worker), Part::Node(shard)])?;
    push_next(out, world, request)
}

/// Nothing of the worker is unanswered.
fn push_not_asked<S: CkptStore>(
    out: &mut Vec<u8>,
    world: &World<S>,
    shard: NodeId,
    worker: NodeId,
) -> Result<(), AllocError> {
    if may_ask(world, worker) {
        let steps = steps_to_shard_of_next(world, worker);
        push_sentence(
            out,
            "{} has asked nothing that is unanswered: write {} above this line",
            &[Part::Node(worker), Part::Steps(&steps)],
        )
    } else {
        push_sentence(
            out,
            "{} does not wait at {}: take this line away",
            &[Part::Node(worker), Part::Node(shard)],
        )
    }
}

/// The node votes and decides nothing, or what it began is decided; or it is down and has begun nothing.
fn push_nothing_to_decide<S: CkptStore>(
    out: &mut Vec<u8>,
    world: &World<S>,
    made: &[Step],
    step: Step,
) -> Result<(), AllocError> {
    let node = step.owner();
    match world.ballot(node) {
        Some(ballot) => push_decided(out, world, made, step, ballot.parent().is_some()),
        None => push_sentence(
            out,
            "{} is down and began nothing that is open: take this line away; `restart {}` brings it back",
            &[Part::Node(node), Part::Node(node)],
        ),
    }
}

/// What the node votes on is decided already; or, where it was asked to vote, it is for another to decide.
fn push_decided<S: CkptStore>(
    out: &mut Vec<u8>,
    world: &World<S>,
    made: &[Step],
    step: Step,
    was_asked: bool,
) -> Result<(), AllocError> {
    let node = step.owner();
    match initiator(world, node) {
        Some(leader) if was_asked && !is_decided(made, leader) => {
            push_decided_by_another(out, world, leader, step)
        }
        _ => push_sentence(
            out,
            "that is decided already: write {} in place of this line",
            &[Part::Steps(&steps_out(world, made, node))],
        ),
    }
}

/// The node takes part in what this other one began, and which steps end it: the votes first that are missing, and then
/// the verdict; or that it is given up, where the step was to do that.
fn push_decided_by_another<S: CkptStore>(
    out: &mut Vec<u8>,
    world: &World<S>,
    leader: NodeId,
    step: Step,
) -> Result<(), AllocError> {
    let began = Part::Node(leader);
    push_sentence(
        out,
        "{} takes part in what {} began, which {} alone decides: write ",
        &[Part::Node(step.owner()), began, began],
    )?;
    match (step, awaited(world, leader)) {
        (Step::Abandon { .. }, _) => push_sentence(
            out,
            "`abandon {}` in place of this line",
            &[began],
        ),
        (_, None) => push_sentence(out, "`decide {}` in place of this line", &[began]),
        (_, Some(voter)) => push_sentence(
            out,
            "{} and at last `decide {}` in place of this line",
            &[Part::Steps(&steps_for_vote(world, leader, voter)), began],
        ),
    }
}
