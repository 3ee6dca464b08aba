//! What a shard has: its tuples, and a session for each worker.
//! Cited by shard.rt; other crates.

ghost use Rattle.std.specs.Prelude.{◌≡◌, ◌<◌, length, replicate, IsTrue, IfOk};
ghost use Rattle.kt_shard.specs.Limits.{sessions};
ghost use Rattle.kt_shard.specs.Session.{empty_session};
ghost use Rattle.kt_shard.specs.Shard.{empty_shard};
ghost use Rattle.kt_shard.specs.Arrival.{waiting_shard};
ghost use Rattle.kt_shard.specs.Service.{served, left_by};
ghost use Rattle.kt_shard.specs.auxiliary.Puts.{put_of};
ghost use Rattle.kt_shard.specs.auxiliary.Sharing.{state_in};

use crate::request::{CachedReply, Request};
use crate::service::Prepared;
use crate::session::Session;
use kt_space::Bag;
use kt_tuple::{MAX_WORKERS, Op, Tuple};
use std::alloc::{AllocError, Global};

/// How many sessions a shard has: the numbers from 0 to that of the last worker. A worker's number is the place of its
/// session, and workers count from 1.
pub const SESSIONS: u8 = MAX_WORKERS + 1;

/// The tuples of a shard, and what it remembers of each worker. Shards that are equal can share them.
#[derive(Debug, Drop)]
pub(crate) struct Parts {
    pub(crate) bag: Bag,
    pub(crate) sessions: Vec<Session>,
}

impl Parts {
    /// No tuples, and of no worker anything.
    pub(crate) fn new(alloc: Global) -> Result<Parts, AllocError>
        ensures { IfOk result (λ p. state_in p ≡ empty_shard) }
    {
        let sessions = empty_sessions(alloc)?;
        Ok(Parts {
            bag: Bag::new(alloc),
            sessions,
        })
    }

    /// Equal parts with memory of their own.
    pub(crate) fn copy(&self, alloc: Global) -> Result<Parts, AllocError>
        ensures { IfOk result (λ p. state_in p ≡ state_in self.now) }
    {
        let sessions = copy_sessions(alloc, &self.sessions)?;
        let bag = self.bag.copy(alloc)?;
        Ok(Parts { bag, sessions })
    }

    /// No tuples, and no sessions either: what stands in a shard while its parts are moved. It takes no memory.
    pub(crate) fn none(alloc: Global) -> Parts {
        Parts {
            bag: Bag::new(alloc),
            sessions: Vec::new(alloc),
        }
    }

    /// What gives it memory.
    pub(crate) fn allocator(&self) -> Global {
        *self.sessions.allocator()
    }

    /// The worker of this number waits with the request from now on.
    pub(crate) fn wait(&mut self, worker: u8, request: Request)
        requires long { length self.old.sessions.items ≡ sessions }
        requires session { worker < sessions }
        ensures state { state_in self.new ≡ waiting_shard (state_in self.old) worker request }
        ensures room { self.new.bag.has_room ≡ self.old.bag.has_room }
        ensures long { length self.new.sessions.items ≡ sessions }
    {
        self.sessions[usize::from(worker)].wait(request);
    }

    /// Carries out the service of the worker of this number. There is room for one more tuple, whatever is served.
    pub(crate) fn carry_out(&mut self, worker: u8, prepared: Prepared)
        requires long { length self.old.sessions.items ≡ sessions }
        requires session { worker < sessions }
        requires room { IsTrue self.old.bag.has_room }
        ensures state { state_in self.new ≡ served (state_in self.old) worker prepared }
        ensures long { length self.new.sessions.items ≡ sessions }
    {
        let Prepared {
            request,
            place,
            answer,
            put,
        } = prepared;
        change_bag(&mut self.bag, &request.op, place, put);
        self.sessions[usize::from(worker)].keep(CachedReply { request, answer });
    }
}

/// Does to the bag what the operation does: `out` puts, `in` and `inp` take, `rd` and `rdp` leave it.
fn change_bag(bag: &mut Bag, op: &Op, place: u64, put: Option<Tuple>)
    requires put { put ≡ put_of op.now }
    requires room { IsTrue bag.old.has_room }
    ensures { bag.new.tuples ≡ left_by bag.old.tuples op.now place }
{
    match (op, put) {
        (Op::Out(_), Some(tuple)) => bag.put_reserved(tuple),
        (Op::In(template), _) => drop(bag.take_nth(template, place as usize)),
        (Op::Inp(template), _) => drop(bag.take_nth(template, place as usize)),
        _ => {}
    }
}

/// A session for each number that a worker can have, and for 0.
fn empty_sessions(alloc: Global) -> Result<Vec<Session>, AllocError>
    ensures { IfOk result (λ made. made.items ≡ replicate sessions empty_session) }
{
    let mut sessions = Vec::with_capacity(alloc, usize::from(SESSIONS))?;
    for number in 0..SESSIONS {
        sessions.push(Session {
            waiting: None,
            cached: None,
        })?;
    }
    Ok(sessions)
}

fn copy_sessions(alloc: Global, sessions: &[Session]) -> Result<Vec<Session>, AllocError>
    ensures { IfOk result (λ copies. copies.items ≡ sessions.now) }
{
    let mut copies = Vec::with_capacity(alloc, sessions.len())?;
    for session in sessions {
        copies.push(session.copy(alloc)?)?;
    }
    Ok(copies)
}
