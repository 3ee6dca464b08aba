//! Notes: what a node did, or gave up.
//! Cited by equality.rt, history.rt, mark.rt; other crates.

ghost use Rattle.std.specs.Prelude.{◌≡◌, IfOk};

use kt_tuple::{Answer, NodeId, Op, Service};
use std::alloc::{AllocError, Global};

/// What a node did about a request.
#[derive(Debug, PartialEq, Eq, Drop)]
pub enum What {
    /// A worker asked for an operation for the first time.
    Issue,
    /// A worker asked once more for what is still unanswered.
    Repeat,
    /// A shard heard a request, which waits there from then on.
    Heard,
    /// A shard served a waiting request and sent this answer.
    Served(Answer),
    /// A shard heard a request that it had served, and sent the cached answer again.
    Again(Answer),
    /// A worker accepted this answer to what it had asked.
    Accepted(Answer),
    /// A message was heard that changes nothing: a request at a shard, with no answer, or this answer
    /// at a worker.
    Ignored(Option<Answer>),
}

/// One act of a node, about one request of a worker.
#[derive(Debug, PartialEq, Eq, Drop)]
pub struct Act {
    /// The node that acts.
    pub node: NodeId,
    /// The cause: the number of the act that sent what was heard, or 0 where the node acts of itself.
    pub by: u64,
    /// The worker whose request it is, counted from 1.
    pub worker: u8,
    /// The number of the request, counted from 1 for each worker.
    pub number: u64,
    /// The operation that the request asks for, as it was sent.
    pub op: Op,
    /// What the node did about it.
    pub what: What,
}

/// One entry of a history.
#[derive(Debug, PartialEq, Eq, Drop)]
pub enum Note {
    /// A node acted.
    Act(Act),
    /// A node gave up all but the first `keep` acts that it remembered: it failed, or it was rolled back.
    Cut { node: NodeId, keep: u64 },
}

impl What {
    /// An equal one.
    pub fn copy(&self, alloc: Global) -> Result<What, AllocError>
        ensures { IfOk result (λ what. what ≡ self.now) }
    {
        match self {
            What::Issue => Ok(What::Issue),
            What::Repeat => Ok(What::Repeat),
            What::Heard => Ok(What::Heard),
            What::Served(answer) => Ok(What::Served(answer.copy(alloc)?)),
            What::Again(answer) => Ok(What::Again(answer.copy(alloc)?)),
            What::Accepted(answer) => Ok(What::Accepted(answer.copy(alloc)?)),
            What::Ignored(None) => Ok(What::Ignored(None)),
            What::Ignored(Some(answer)) => Ok(What::Ignored(Some(answer.copy(alloc)?))),
        }
    }
}

impl Note {
    ghost use Rattle.kt_history.specs.Chronicle.{node_of};
    ghost use Rattle.kt_history.specs.Survival.{is_service, note_service};

    /// The node that acted, or that gave acts up.
    pub fn node(&self) -> NodeId
        ensures { result ≡ node_of self.now }
    {
        match self {
            Note::Act(act) => act.node,
            Note::Cut { node, .. } => *node,
        }
    }

    /// Whether it is the service of a request.
    pub fn is_service(&self) -> bool
        ensures { result ≡ is_service self.now }
    {
        match self {
            Note::Act(act) => matches!(act.what, What::Served(_)),
            Note::Cut { .. } => false,
        }
    }

    /// The service that it is; `None` where it is no service. It has memory of its own.
    pub fn service(&self, alloc: Global) -> Result<Option<Service>, AllocError>
        ensures { IfOk result (λ service. service ≡ note_service self.now) }
    {
        match self {
            Note::Act(act) => match &act.what {
                What::Served(answer) => Ok(Some(Service {
                    worker: act.worker,
                    number: act.number,
                    op: act.op.copy(alloc)?,
                    answer: answer.copy(alloc)?,
                })),
                _ => Ok(None),
            },
            Note::Cut { .. } => Ok(None),
        }
    }
}
