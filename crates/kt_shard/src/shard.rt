//! Shards: what each has, alone or with others that look at it.
//! Cited by parts.rt; other crates.

ghost use Rattle.std.specs.Prelude.{◌≡◌, ◌<◌, ◌↔◌, false, length, IsTrue, IsOk, IfOk, IfErr, OnOk, OnErr, OnSome};
ghost use Rattle.std.specs.Option.{option_copied, option_map};
ghost use Rattle.kt_shard.specs.Limits.{sessions};
ghost use Rattle.kt_shard.specs.Shard.{empty_shard, session_of};
ghost use Rattle.kt_shard.specs.Arrival.{arrival, arrival_view, heard_view, waiting_shard, heard};
ghost use Rattle.kt_shard.specs.Service.{service, served, got_or_none, answer_at, Refuses, IsServed};
ghost use Rattle.kt_shard.specs.Views.{Chooses, reply_view};
ghost use Rattle.kt_shard.specs.auxiliary.Sharing.{sessions_in, model_of, state_in};
ghost use Rattle.kt_shard.specs.declared.shard.Held.TheVariants.{Own};

use crate::arrival::{Arrival, Heard, arrival_of};
use crate::error::ServeError;
use crate::parts::Parts;
use crate::request::{CachedReply, Request};
use crate::service::{Choice, Prepared, Reply};
use crate::session::Session;
use kt_space::Bag;
use kt_tuple::{Op, Tuple};
use std::alloc::{AllocError, Global};
use std::marker::Model;
use std::mem;
use std::sync::Arc;

/// Whose parts a shard has.
#[derive(Debug, Drop)]
pub(crate) enum Held {
    /// Its own alone, which it may change.
    Own(Parts),
    /// Parts that other shards may have too. None of them changes them.
    Shared(Arc<Parts, Global>),
}

/// A shard: its tuples in order of arrival, and what it remembers of each worker. It can share them (`share`) with a
/// shard that only looks. Then it takes parts of its own before it changes (`reserve`).
#[derive(Debug, Drop)]
pub struct Shard {
    held: Held,
}

impl Model for Shard {
    ghost use Rattle.std.specs.Prelude.{◌≡◌, length};
    ghost use Rattle.kt_shard.specs.Limits.{sessions as session_count};
    ghost use Rattle.kt_shard.specs.ShardModel.{ShardModel};
    ghost use Rattle.kt_shard.specs.auxiliary.Sharing.{sessions_in, model_of};

    ghost Value = { ShardModel };

    ghost view = { λ s. model_of s.held };

    ghost invariant = { λ s. length (sessions_in s.held) ≡ session_count };
}

impl Shard {
    /// A shard without tuples, that has heard of no worker.
    pub fn new(alloc: Global) -> Result<Shard, AllocError>
        ensures { IfOk result (λ s. s.state ≡ empty_shard) }
    {
        let held = Held::Own(Parts::new(alloc)?);
        Ok(Shard { held })
    }

    /// An equal shard with memory of its own.
    pub fn copy(&self, alloc: Global) -> Result<Shard, AllocError>
        ensures { IfOk result (λ s. s.state ≡ self.now.state) }
    {
        let held = Held::Own(self.parts().copy(alloc)?);
        Ok(Shard { held })
    }

    /// A shard of these tuples, with a session for each number that a worker can have, by the number from 0.
    pub fn from_parts(bag: Bag, by_worker: Vec<Session>) -> Shard
        requires { length by_worker.items ≡ sessions }
        ensures state { result.state ≡ record { bag = bag.tuples; sessions = by_worker.items } }
        ensures room { result.has_room ≡ bag.has_room }
    {
        let sessions = by_worker;
        Shard {
            held: Held::Own(Parts { bag, sessions }),
        }
    }

    /// An equal shard that shares all with this one. The first time it takes one block, and nothing is copied. As long
    /// as the two share, neither has room: the one that makes room first (`reserve`) copies all, unless the other is
    /// gone by then. Refused or not, this shard stays what it is.
    pub fn share(&mut self, alloc: Global) -> Result<Shard, AllocError>
        ensures equal { IfOk result (λ s. s.state ≡ self.old.state) }
        ensures same { self.new.state ≡ self.old.state }
    {
        let held = mem::replace(&mut self.held, Held::Own(Parts::none(alloc)));
        let (held, again) = shared(alloc, held);
        drop(mem::replace(&mut self.held, held));
        again
    }

    /// What it has, whether others have it too or not.
    fn parts(&self) -> &Parts
        ensures state { state_in result.now ≡ self.now.state }
        ensures long { length result.now.sessions.items ≡ sessions }
    {
        match &self.held {
            Held::Own(parts) => parts,
            Held::Shared(shared) => shared,
        }
    }

    /// The tuples that it holds, in order of arrival.
    pub fn bag(&self) -> &Bag
        ensures { result.now.tuples ≡ self.now.state.bag }
    {
        &self.parts().bag
    }

    /// What is remembered of each worker, by the worker's number from 0.
    pub fn sessions(&self) -> &[Session]
        ensures sessions { result.now ≡ self.now.state.sessions }
        ensures one_for_each { length result.now ≡ sessions }
    {
        &self.parts().sessions
    }

    /// The request that the worker of this number waits with; `None` where it waits with none.
    pub fn waiting(&self, worker: u8) -> Option<&Request>
        ensures request { option_copied result ≡ (session_of self.now.state worker).waiting }
        ensures session { OnSome result (worker < sessions) }
    {
        self.sessions().get(usize::from(worker))?.waiting.as_ref()
    }

    /// The request of the worker of this number that was served last, and its answer; `None` before the first.
    pub fn kept(&self, worker: u8) -> Option<&CachedReply>
        ensures { option_copied result ≡ (session_of self.now.state worker).cached }
    {
        self.sessions().get(usize::from(worker))?.cached.as_ref()
    }

    /// What becomes of this request of the worker of this number if it is heard. A new number waits, the request that
    /// was served last is answered again while the worker does not wait, and all else is ignored.
    pub fn arrival(&self, worker: u8, request: &Request) -> Arrival<'_>
        ensures { arrival_view result ≡ arrival self.now.state worker request.now }
    {
        arrival_of(self.waiting(worker), self.kept(worker), request)
    }

    /// The worker of this number waits with the request from now on. There is room, and so the parts are its own.
    pub fn wait(&mut self, worker: u8, request: Request)
        requires session { worker < sessions }
        requires room { IsTrue self.old.has_room }
        ensures state { self.new.state ≡ waiting_shard self.old.state worker request }
        ensures room { self.new.has_room ≡ self.old.has_room }
    {
        if let Held::Own(parts) = &mut self.held {
            parts.wait(worker, request);
        }
    }

    /// Hears the request of the worker of this number, at most `MAX_WORKERS`, and says what became of it. Where memory
    /// is wanting nothing changes.
    pub fn hear(&mut self, alloc: Global, worker: u8, request: Request) -> Result<Heard, AllocError>
        requires { worker < sessions }
        ensures state { OnOk result (self.new.state ≡ heard self.old.state worker request) }
        ensures comes_of_it { IfOk result (λ h. heard_view h ≡ arrival self.old.state worker request) }
        ensures room { IsTrue self.old.has_room → IsTrue self.new.has_room }
        ensures unchanged { OnErr result (self.new ≡ self.old) }
    {
        let heard = self.arrival(worker, &request).to_heard(alloc)?;
        if let Heard::Waits = heard {
            self.reserve()?;
            self.wait(worker, request);
        }
        Ok(heard)
    }

    /// How the waiting request of the worker of this number can be served with the match of this place,
    /// counted from 0 in order of arrival; the place is 0 where there is nothing to choose from. `NotWaiting`
    /// where the worker does not wait, `NoSuchMatch` where there is no such match.
    pub fn choose(&self, worker: u8, place: u64) -> Result<Choice<'_>, ServeError>
        ensures service { Chooses result (service self.now.state worker place) }
        ensures session { OnOk result (worker < sessions) }
    {
        let Some(request) = self.waiting(worker) else {
            return Err(ServeError::NotWaiting);
        };
        match reply_at(self.bag(), &request.op, place) {
            Some(reply) => Ok(Choice {
                request,
                place,
                reply,
            }),
            None => Err(ServeError::NoSuchMatch),
        }
    }

    /// Whether the waiting request of the worker of this number can be served with the match of this place.
    pub fn can_serve(&self, worker: u8, place: u64) -> bool
        ensures { IsTrue result ↔ IsOk (service self.now.state worker place) }
    {
        self.choose(worker, place).is_ok()
    }

    /// Makes room for one more tuple; one service puts at most one. What it shares it copies first, unless no other
    /// shard has it any more.
    pub fn reserve(&mut self) -> Result<(), AllocError>
        ensures state { self.new.state ≡ self.old.state }
        ensures room { OnOk result (IsTrue self.new.has_room) }
        ensures unchanged { OnErr result (self.new ≡ self.old) }
        ensures succeeds { IsTrue self.old.has_room → IsOk result }
    {
        if let Held::Own(parts) = &mut self.held {
            return parts.bag.reserve();
        }
        self.take_back()
    }

    /// Takes parts of its own, with room for one more tuple. It is a call of its own, since the parts are moved on the
    /// stack, for which a step that finds them its own does not pay.
    #[inline(never)]
    fn take_back(&mut self) -> Result<(), AllocError>
        ensures state { self.new.state ≡ self.old.state }
        ensures room { OnOk result (IsTrue self.new.has_room) }
        ensures unchanged { OnErr result (self.new ≡ self.old) }
        ensures none { OnErr result (self.old.has_room ≡ false) }
    {
        let alloc = self.parts().allocator();
        let held = mem::replace(&mut self.held, Held::Own(Parts::none(alloc)));
        let (held, made) = with_room(held);
        drop(mem::replace(&mut self.held, held));
        made
    }

    /// Carries out the service of the worker of this number. There is room for one more tuple, whatever is served, and
    /// so the parts are its own, and no refusal is left.
    pub fn carry_out(&mut self, worker: u8, prepared: Prepared)
        requires session { worker < sessions }
        requires room { IsTrue self.old.has_room }
        ensures { self.new.state ≡ served self.old.state worker prepared }
    {
        if let Held::Own(parts) = &mut self.held {
            parts.carry_out(worker, prepared);
        }
    }

    /// Serves the waiting request of the worker of this number with the match of this place, counted from 0
    /// in order of arrival. `NotWaiting` where the worker does not wait, `NoSuchMatch` where there is no such
    /// match; a refused service changes no tuple and no session.
    pub fn serve(&mut self, alloc: Global, worker: u8, place: u64) -> Result<(), ServeError>
        ensures served { OnOk result (IfOk (service self.old.state worker place)
            (λ s. self.new.state ≡ served self.old.state worker s)) }
        ensures enabled { OnOk result (IsOk (service self.old.state worker place)) }
        ensures step { OnOk result (IsServed self.old.state worker self.new.state) }
        ensures refusal { IfErr result (λ e. Refuses e (service self.old.state worker place)) }
        ensures same { OnErr result (self.new.state ≡ self.old.state) }
    {
        let prepared = self.choose(worker, place)?.prepare(alloc)?;
        self.reserve()?;
        self.carry_out(worker, prepared);
        Ok(())
    }
}

/// How the operation is answered with the match of this place, if it can be.
fn reply_at<'a>(bag: &'a Bag, op: &Op, place: u64) -> Option<Reply<'a>>
    ensures { option_map reply_view result ≡ answer_at bag.now.tuples op.now place }
{
    match op {
        Op::Out(_) => (place == 0).then_some(Reply::Done),
        Op::In(template) => bag.nth_match(template, place as usize).map(Reply::Got),
        Op::Rd(template) => bag.nth_match(template, place as usize).map(Reply::Got),
        Op::Inp(template) => got_or_none(bag.nth_match(template, place as usize), place),
        Op::Rdp(template) => got_or_none(bag.nth_match(template, place as usize), place),
    }
}

/// The tuple that was found; where there is none, place 0 answers so.
fn got_or_none(found: Option<&Tuple>, place: u64) -> Option<Reply<'_>>
    ensures { option_map reply_view result ≡ got_or_none place (option_copied found.entry) }
{
    match found {
        Some(tuple) => Some(Reply::Got(tuple)),
        None => (place == 0).then_some(Reply::None),
    }
}

/// The same parts as ones that others may have too, and a shard that has them.
fn shared(alloc: Global, held: Held) -> (Held, Result<Shard, AllocError>)
    requires long { length (sessions_in held) ≡ sessions }
    ensures state { (model_of result.0).state ≡ (model_of held).state }
    ensures equal { IfOk result.1 (λ s. s.state ≡ (model_of held).state) }
    ensures long { length (sessions_in result.0) ≡ sessions }
{
    let parts = match held {
        Held::Shared(parts) => parts,
        Held::Own(own) => match Arc::new(alloc, own) {
            Ok(parts) => parts,
            Err(refused) => return (Held::Own(refused.value), Err(AllocError)),
        },
    };
    match Arc::try_clone(&parts) {
        Ok(again) => {
            let held = Held::Shared(again);
            (Held::Shared(parts), Ok(Shard { held }))
        }
        Err(refusal) => (Held::Shared(parts), Err(refusal)),
    }
}

/// The same parts as ones that no other shard has, with room for one more tuple. They are copied where another shard
/// has them too.
fn with_room(held: Held) -> (Held, Result<(), AllocError>)
    requires long { length (sessions_in held) ≡ sessions }
    ensures state { (model_of result.0).state ≡ (model_of held).state }
    ensures room { OnOk result.1 (IsTrue (model_of result.0).has_room) }
    ensures unchanged { OnErr result.1 (model_of result.0 ≡ model_of held) }
    ensures none { OnErr result.1 ((model_of held).has_room ≡ false) }
    ensures long { length (sessions_in result.0) ≡ sessions }
{
    match held {
        Held::Own(own) => own_with_room(own),
        Held::Shared(parts) => match Arc::try_unwrap(parts) {
            Ok(own) => own_with_room(own),
            Err(parts) => match parts.copy(parts.allocator()) {
                Ok(own) => own_with_room(own),
                Err(refusal) => (Held::Shared(parts), Err(refusal)),
            },
        },
    }
}

fn own_with_room(own: Parts) -> (Held, Result<(), AllocError>)
    ensures state { (model_of result.0).state ≡ state_in own }
    ensures room { OnOk result.1 (IsTrue (model_of result.0).has_room) }
    ensures unchanged { OnErr result.1 (model_of result.0 ≡ model_of (Own own)) }
    ensures none { OnErr result.1 (own.bag.has_room ≡ false) }
    ensures sessions { sessions_in result.0 ≡ own.sessions.items }
{
    let mut own = own;
    let made = own.bag.reserve();
    (Held::Own(own), made)
}
