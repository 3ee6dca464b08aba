//! What a checkpoint holds of its node.
//! Cited by ckpt.rt, decode.rt, encode.rt, entry.rt, old.rt, old_state.rt, shard.rt, worker.rt; other crates.

ghost use Rattle.std.specs.Prelude.{◌≡◌, IfOk};
ghost use Rattle.std.specs.Option.{option_copied};

use crate::entry::copy_entries;
use kt_shard::{CachedReply, Request};
use kt_tuple::{Op, Tuple, Value, copy_tuples, copy_values};
use std::alloc::{AllocError, Global};
use std::marker::Model;

/// Where a worker stands. Its fields are not public, so that the counts of a checkpoint hold while it is in one.
#[derive(Debug, Drop)]
pub struct WorkerState {
    pub(crate) pc: u16,
    pub(crate) number: u64,
    pub(crate) was_none: bool,
    pub(crate) asked: Option<Op>,
    pub(crate) variables: Vec<Value>,
}

impl Model for WorkerState {
    ghost use Rattle.kt_ckpt.specs.Fields.{WorkerFields, worker_of};

    ghost Value = { WorkerFields };

    ghost view = { λ w. worker_of w.pc w.number w.was_none w.asked w.variables.items };
}

/// What a shard holds. Its requests and cached answers are those of kt_shard, so that what is loaded need not be copied
/// into other types.
#[derive(Debug, Drop)]
pub struct ShardState {
    pub(crate) bag: Vec<Tuple>,
    pub(crate) waiting: Vec<(u8, Request)>,
    pub(crate) cached: Vec<(u8, CachedReply)>,
}

impl Model for ShardState {
    ghost use Rattle.kt_ckpt.specs.Fields.{ShardFields};

    ghost Value = { ShardFields };

    ghost view = { λ s. record { bag = s.bag.items; waiting = s.waiting.items; cached = s.cached.items } };
}

/// What a node holds, by its kind.
#[derive(Debug, Drop)]
pub enum State {
    /// Where a worker stands.
    Worker(WorkerState),
    /// What a shard holds.
    Shard(ShardState),
}

impl WorkerState {
    ghost use Rattle.kt_tuple.specs.declared.op.Op.{Op};
    ghost use Rattle.kt_ckpt.specs.Fields.{worker_of};

    /// Where a worker stands. `pc` is the number of its next command, counted from 0, and `number` that of its last
    /// request, 0 before the first. `was_none` says whether its last answer was none, and `asked` is what it asked for
    /// and has no answer to. `variables` are the values in the order in which the script's text binds the names first.
    pub fn new(
        pc: u16,
        number: u64,
        was_none: bool,
        asked: Option<Op>,
        variables: Vec<Value>,
    ) -> WorkerState
        ensures { result ≡ worker_of pc number was_none asked variables.items }
    {
        WorkerState {
            pc,
            number,
            was_none,
            asked,
            variables,
        }
    }

    /// The number of the next command, counted from 0.
    pub fn pc(&self) -> u16
        ensures { result ≡ self.now.pc }
    {
        self.pc
    }

    /// The number of the last request, 0 before the first.
    pub fn number(&self) -> u64
        ensures { result ≡ self.now.number }
    {
        self.number
    }

    /// Whether the last answer was none; not so before any answer.
    pub fn was_none(&self) -> bool
        ensures { result ≡ self.now.was_none }
    {
        self.was_none
    }

    /// What the last request asks for, where it is unanswered.
    pub fn asked(&self) -> Option<&Op>
        ensures { option_copied result ≡ self.now.asked }
    {
        self.asked.as_ref()
    }

    /// The values of the variables, in the order in which the script's text binds them first.
    pub fn variables(&self) -> &[Value]
        ensures { result.now ≡ self.now.variables }
    {
        &self.variables
    }

    /// What `new` takes, in that order. Nothing is copied.
    pub fn into_parts(self) -> (u16, u64, bool, Option<Op>, Vec<Value>)
        ensures pc { result.0 ≡ self.pc }
        ensures number { result.1 ≡ self.number }
        ensures was_none { result.2 ≡ self.was_none }
        ensures asked { result.3 ≡ self.asked }
        ensures variables { result.4.items ≡ self.variables }
    {
        let WorkerState {
            pc,
            number,
            was_none,
            asked,
            variables,
        } = self;
        (pc, number, was_none, asked, variables)
    }

    /// An equal state of a worker, with memory of its own.
    pub fn copy(&self, alloc: Global) -> Result<WorkerState, AllocError>
        ensures { IfOk result (λ w. w ≡ self.now) }
    {
        let asked = match &self.asked {
            Some(op) => Some(op.copy(alloc)?),
            None => None,
        };
        Ok(WorkerState {
            pc: self.pc,
            number: self.number,
            was_none: self.was_none,
            asked,
            variables: copy_values(alloc, &self.variables)?,
        })
    }
}

impl ShardState {
    /// A shard with these tuples, in order of arrival, and for workers, in rising order, the requests that wait
    /// and those that were served last.
    pub fn new(
        bag: Vec<Tuple>,
        waiting: Vec<(u8, Request)>,
        cached: Vec<(u8, CachedReply)>,
    ) -> ShardState
        ensures { result ≡ record { bag = bag.items; waiting = waiting.items; cached = cached.items } }
    {
        ShardState {
            bag,
            waiting,
            cached,
        }
    }

    /// The tuples, in order of arrival.
    pub fn bag(&self) -> &[Tuple]
        ensures { result.now ≡ self.now.bag }
    {
        &self.bag
    }

    /// The requests that wait, by rising worker: at most one of each.
    pub fn waiting(&self) -> &[(u8, Request)]
        ensures { result.now ≡ self.now.waiting }
    {
        &self.waiting
    }

    /// The requests that were served last with their answers, by rising worker.
    pub fn cached(&self) -> &[(u8, CachedReply)]
        ensures { result.now ≡ self.now.cached }
    {
        &self.cached
    }

    /// What `new` takes, in that order. Nothing is copied.
    pub fn into_parts(self) -> (Vec<Tuple>, Vec<(u8, Request)>, Vec<(u8, CachedReply)>)
        ensures bag { result.0.items ≡ self.bag }
        ensures waiting { result.1.items ≡ self.waiting }
        ensures cached { result.2.items ≡ self.cached }
    {
        let ShardState {
            bag,
            waiting,
            cached,
        } = self;
        (bag, waiting, cached)
    }

    /// An equal state of a shard, with memory of its own.
    pub fn copy(&self, alloc: Global) -> Result<ShardState, AllocError>
        ensures { IfOk result (λ s. s ≡ self.now) }
    {
        Ok(ShardState {
            bag: copy_tuples(alloc, &self.bag)?,
            waiting: copy_entries(alloc, &self.waiting)?,
            cached: copy_entries(alloc, &self.cached)?,
        })
    }
}

impl State {
    /// An equal state with memory of its own.
    pub fn copy(&self, alloc: Global) -> Result<State, AllocError>
        ensures { IfOk result (λ s. s ≡ self.now) }
    {
        match self {
            State::Worker(worker) => Ok(State::Worker(worker.copy(alloc)?)),
            State::Shard(shard) => Ok(State::Shard(shard.copy(alloc)?)),
        }
    }
}
