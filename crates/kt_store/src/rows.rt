//! What a store holds, row by row.
//! Cited by change.rt, contents.rt, crossing.rt, faulty.rt, instance_row.rt, memory.rt, store.rt; other crates.

ghost use Rattle.std.specs.Prelude.{◌≡◌, IfOk};

use kt_ckpt::{Ckpt, CkptHeader};
use kt_tuple::NodeId;
use std::alloc::{AllocError, Global};

/// What an instance is for: a check or a rollback.
#[derive(Clone, Copy, Debug, PartialEq, Eq)]
pub enum Purpose {
    /// Nodes take checkpoints together.
    Check,
    /// Nodes roll back together.
    Rollback,
}

/// How an instance ended, which the node that began it writes on the board.
#[derive(Clone, Copy, Debug, PartialEq, Eq)]
pub enum Verdict {
    /// It has not ended.
    Open,
    /// All agreed: tentative checkpoints become permanent, or nodes roll back.
    Yes,
    /// Somebody did not, or the instance was given up.
    No,
}

impl Verdict {
    ghost use Rattle.kt_store.specs.Verdict.{is_open, verdict_from};

    /// `Yes` where all agreed, else `No`: never `Open`.
    pub fn of(yes: bool) -> Verdict
        ensures { result ≡ verdict_from yes }
    {
        if yes { Verdict::Yes } else { Verdict::No }
    }

    /// Whether the instance has not ended.
    pub fn is_open(self) -> bool
        ensures { result ≡ is_open self }
    {
        match self {
            Verdict::Open => true,
            Verdict::Yes | Verdict::No => false,
        }
    }
}

/// A checkpoint that a verdict makes permanent or gives up.
#[derive(Debug, Drop)]
pub struct Tentative {
    /// The number of the check in which it was taken.
    pub instance: u64,
    /// The checkpoint, with its node's state.
    pub checkpoint: Ckpt,
}

impl Tentative {
    ghost use Rattle.kt_store.specs.Content.{header_in};

    /// An equal tentative checkpoint, which shares header and state with this one: it takes no memory.
    pub fn copy(&self, alloc: Global) -> Result<Tentative, AllocError>
        ensures { IfOk result (λ t. t ≡ self.now) }
    {
        Ok(Tentative {
            instance: self.instance,
            checkpoint: self.checkpoint.copy(alloc)?,
        })
    }

    /// Its instance, and its checkpoint without the node's state. It takes no memory.
    pub fn header(&self, alloc: Global) -> Result<TentativeHeader, AllocError>
        ensures { IfOk result (λ m. m ≡ header_in self.now) }
    {
        Ok(TentativeHeader {
            instance: self.instance,
            header: self.checkpoint.header(alloc)?,
        })
    }
}

/// What a tentative checkpoint says besides its node's state.
#[derive(Debug, Drop)]
pub struct TentativeHeader {
    /// The number of the check in which it was taken.
    pub instance: u64,
    /// What its checkpoint says besides the node's state.
    pub header: CkptHeader,
}

/// What is stored of a node; one without a row is in incarnation 1 and has nothing stored.
#[derive(Debug, Drop)]
pub struct NodeRow {
    /// Whose row it is.
    pub node: NodeId,
    /// The node's incarnation, from 1 on, at most 2^62.
    pub incarnation: u64,
    /// The permanent checkpoint; `None` where it is the initial one.
    pub permanent: Option<Ckpt>,
    /// The tentative checkpoint, while the node has one.
    pub tentative: Option<Tentative>,
}

/// An instance, as the board has it.
#[derive(Clone, Copy, Debug)]
pub struct InstanceRow {
    /// Its number, from 1 on, at most 2^62.
    pub instance: u64,
    /// The node that began it, and that gives it its verdict.
    pub initiator: NodeId,
    /// Whether it is a check or a rollback.
    pub purpose: Purpose,
    /// How it ended; `Open` until it has.
    pub verdict: Verdict,
}
