//! Where a worker's request is that is unanswered, and which steps bring its answer.
//! Cited by missing.rt, reasons.rt.

use crate::sentence::Due;
use kt_core::{Step, World};
use kt_node::{AppMessage, Message, Talk};
use kt_shard::{Request, Shard};
use kt_store::CkptStore;
use kt_tuple::{ALL_NODES, NodeId, Op};

/// A worker's request that is unanswered, and where it is.
#[derive(Clone, Copy)]
pub(crate) struct Unanswered {
    pub(crate) worker: NodeId,
    pub(crate) number: u64,
    pub(crate) place: Place,
}

/// Where a request or its answer is.
#[derive(Clone, Copy)]
pub(crate) enum Place {
    /// The request is on its way to the shard, and arrives with this delivery, counted from 1.
    Coming { shard: NodeId, delivery: usize },
    /// The shard keeps it back, and hears it with this step `take`.
    Kept { shard: NodeId, take: usize },
    /// It waits at the shard.
    Waiting { shard: NodeId },
    /// The answer is on its way back, and arrives with this delivery.
    Answered { shard: NodeId, delivery: usize },
    /// The worker keeps the answer back, and hears it with this step `take`.
    KeptAnswer { take: usize },
    /// A failure has taken it away.
    Lost,
}

impl Unanswered {
    /// The request that the worker has asked and that is unanswered; `None` where there is none, and while the worker
    /// is not up.
    pub(crate) fn of<S: CkptStore>(world: &World<S>, worker: NodeId) -> Option<Unanswered> {
        let asker = world.worker(worker)?;
        asker.asked()?;
        let number = asker.number();
        Some(Unanswered {
            worker,
            number,
            place: place_of(world, worker, number),
        })
    }

    /// The shard that has it, or to which it goes, before it is served.
    pub(crate) fn unserved_at(self) -> Option<NodeId> {
        match self.place {
            Place::Coming { shard, .. } | Place::Kept { shard, .. } | Place::Waiting { shard } => {
                Some(shard)
            }
            Place::Answered { .. } | Place::KeptAnswer { .. } | Place::Lost => None,
        }
    }

    /// The shard that has it, or to which it goes, where no tuple there matches it.
    pub(crate) fn lacking_at<S: CkptStore>(self, world: &World<S>) -> Option<NodeId> {
        let shard = self.unserved_at()?;
        if lacks_tuple(world, shard, self.worker) {
            Some(shard)
        } else {
            None
        }
    }

    /// The step after which it waits at its shard.
    pub(crate) fn step_to_shard(self) -> Option<Due> {
        match self.place {
            Place::Coming { shard, delivery } => {
                Some(Due::deliveries(self.worker, shard, delivery))
            }
            Place::Kept { shard, take } => Some(Due {
                step: Step::Take { node: shard },
                times: take,
            }),
            _ => None,
        }
    }

    /// The steps after which its answer is on the way.
    pub(crate) fn steps_to_answer(self) -> [Option<Due>; 2] {
        let Some(shard) = self.unserved_at() else {
            return [None, None];
        };
        let serve = Due::once(Step::Serve {
            shard,
            worker: self.worker,
            place: 0,
        });
        [self.step_to_shard(), Some(serve)]
    }

    /// The next of the steps after which the worker has its answer; `None` where it waits for a tuple.
    pub(crate) fn next_step<S: CkptStore>(self, world: &World<S>) -> Option<Due> {
        if let Place::Waiting { shard } = self.place {
            if lacks_tuple(world, shard, self.worker) {
                return None;
            }
        }
        let [first, second, third] = self.steps_to_end();
        first.or(second).or(third)
    }

    /// The steps after which the worker has its answer.
    pub(crate) fn steps_to_end(self) -> [Option<Due>; 3] {
        let [to_shard, serve] = self.steps_to_answer();
        let worker = self.worker;
        let last = match self.place {
            Place::Coming { shard, .. } | Place::Kept { shard, .. } | Place::Waiting { shard } => {
                Due::deliveries(shard, worker, 1)
            }
            Place::Answered { shard, delivery } => Due::deliveries(shard, worker, delivery),
            Place::KeptAnswer { take } => Due {
                step: Step::Take { node: worker },
                times: take,
            },
            Place::Lost => Due::once(Step::Repeat { node: worker }),
        };
        [to_shard, serve, Some(last)]
    }
}

/// Whether the worker has a request to ask next: it is up, waits for no answer, keeps nothing back and is not done.
pub(crate) fn may_ask<S: CkptStore>(world: &World<S>, worker: NodeId) -> bool {
    match (world.worker(worker), world.scene().script_of(worker)) {
        (Some(asker), Some(script)) => {
            asker.asked().is_none() && world.kept_len(worker) == 0 && asker.has_next(script)
        }
        _ => false,
    }
}

fn place_of<S: CkptStore>(world: &World<S>, worker: NodeId, number: u64) -> Place {
    for shard in ALL_NODES {
        if world.scene().has_shard(shard) {
            if let Some(place) = place_at(world, worker, shard, number) {
                return place;
            }
        }
    }
    Place::Lost
}

/// Where the request is, if it is at this shard or on a link of it.
fn place_at<S: CkptStore>(
    world: &World<S>,
    worker: NodeId,
    shard: NodeId,
    number: u64,
) -> Option<Place> {
    if is_waiting(world, worker, shard, number) {
        return Some(Place::Waiting { shard });
    }
    match place_of_answer(world, worker, shard, number) {
        Some(place) => Some(place),
        None => place_on_way(world, worker, shard, number),
    }
}

/// Whether the request waits at the shard.
fn is_waiting<S: CkptStore>(world: &World<S>, worker: NodeId, shard: NodeId, number: u64) -> bool {
    let Some(held) = world.shard(shard) else {
        return false;
    };
    match held.waiting(worker.number()) {
        Some(request) => request.number == number,
        None => false,
    }
}

/// Where the answer is, if the shard has given it.
fn place_of_answer<S: CkptStore>(
    world: &World<S>,
    worker: NodeId,
    shard: NodeId,
    number: u64,
) -> Option<Place> {
    if let Some(take) = kept_by(world, worker, worker, number) {
        return Some(Place::KeptAnswer { take });
    }
    let delivery = sent_by(world, shard, worker, number)?;
    Some(Place::Answered { shard, delivery })
}

/// Where the request is, if it is on its way to the shard.
fn place_on_way<S: CkptStore>(
    world: &World<S>,
    worker: NodeId,
    shard: NodeId,
    number: u64,
) -> Option<Place> {
    if let Some(take) = kept_by(world, shard, worker, number) {
        return Some(Place::Kept { shard, take });
    }
    let delivery = sent_by(world, worker, shard, number)?;
    Some(Place::Coming { shard, delivery })
}

/// Which delivery, counted from 1, brings the message on this request.
fn sent_by<S: CkptStore>(world: &World<S>, from: NodeId, to: NodeId, number: u64) -> Option<usize> {
    for index in 0..world.link_len(from, to) {
        if let Some(Message::App(message)) = world.link_at(from, to, index) {
            if request_of(message).number == number {
                return Some(index.saturating_add(1));
            }
        }
    }
    None
}

/// With which step `take`, counted from 1, the node hears the message on this request of the worker.
fn kept_by<S: CkptStore>(
    world: &World<S>,
    node: NodeId,
    worker: NodeId,
    number: u64,
) -> Option<usize> {
    for index in 0..world.kept_len(node) {
        if let Some((sender, message)) = world.kept_at(node, index) {
            let is_its = node == worker || *sender == worker;
            if is_its && request_of(message).number == number {
                return Some(index.saturating_add(1));
            }
        }
    }
    None
}

/// The request that the message carries or answers.
fn request_of(message: &AppMessage) -> &Request {
    match &message.talk {
        Talk::Request(request) => request,
        Talk::Reply { request, .. } => request,
    }
}

/// Whether the worker's request waits at the shard for a tuple that is not there.
pub(crate) fn waits_for_tuple<S: CkptStore>(
    world: &World<S>,
    shard: NodeId,
    worker: NodeId,
) -> bool {
    let Some(held) = world.shard(shard) else {
        return false;
    };
    match held.waiting(worker.number()) {
        Some(request) => is_lacking(held, &request.op),
        None => false,
    }
}

/// Whether what the worker, which is up, has asked wants a tuple that the shard does not hold, wherever its request is.
pub(crate) fn lacks_tuple<S: CkptStore>(world: &World<S>, shard: NodeId, worker: NodeId) -> bool {
    let (Some(held), Some(asker)) = (world.shard(shard), world.worker(worker)) else {
        return false;
    };
    match asker.asked() {
        Some(op) => is_lacking(held, op),
        None => false,
    }
}

/// Whether the operation waits for a tuple, and none at the shard matches.
fn is_lacking(shard: &Shard, op: &Op) -> bool {
    match op {
        Op::In(template) | Op::Rd(template) => shard.bag().count_matches(template) == 0,
        Op::Out(_) | Op::Inp(_) | Op::Rdp(_) => false,
    }
}
