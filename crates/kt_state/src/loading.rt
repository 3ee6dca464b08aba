//! Loading the permanent state.
//! Cited by other crates.

ghost use Rattle.std.specs.Prelude.{◌≡◌, ◌+◌, ◌<◌, ◌^◌, ◌++◌, IfOk, OnOk, map, Some, None};
ghost use Rattle.kt_shard.specs.Limits.{sessions};
ghost use Rattle.kt_state.specs.Labels.{tabled, no_labels, no_firsts, numbers};
ghost use Rattle.kt_state.specs.Loading.{loaded_by, loaded_from};
ghost use Rattle.kt_state.specs.Node.{IsShard, fresh_live, opening_body, opening_node};
ghost use Rattle.kt_state.specs.Refusing.{Gives};
ghost use Rattle.kt_state.specs.State.{are_of_scene, is_of_scene, body_at, body_from, session_with, entry_of};
ghost use Rattle.kt_state.specs.State.{if_fits, shard_fits, shard_from, worker_fits, worker_from};
ghost use Rattle.kt_state.specs.Views.{role_view};
ghost use Rattle.kt_state.specs.Codes.{body_view, live_view};
ghost use Rattle.kt_state.specs.auxiliary.Rooms.{HasTables};
ghost use Rattle.kt_state.specs.auxiliary.Bodies.{GivesBody};
ghost use Rattle.kt_state.specs.declared.live.Phase.TheVariants as phases;

use crate::change::Loaded;
use crate::labels::{TABLE_SIZE, listed_at};
use crate::live::{Body, Live, Phase};
use crate::node::Node;
use crate::refusal::Refusal;
use crate::role::Role;
use crate::stored::Stored;
use kt_ckpt::{Ckpt, ShardState, State, WorkerState};
use kt_link::Label;
use kt_shard::{CachedReply, Request, SESSIONS, Session, Shard};
use kt_space::Bag;
use kt_tuple::{NodeId, Tuple};
use kt_worker::Worker;
use std::alloc::{AllocError, Global};
use std::collections::VecDeque;
use std::marker::Model;

/// Whether the script has a worker that stands so: no more is known of what it asked for.
fn worker_fits(role: Role<'_>, state: &WorkerState) -> bool
    ensures { result ≡ worker_fits (role_view role.entry) state.now }
{
    let pc = usize::from(state.pc());
    if role.script.commands().len() < pc {
        false
    } else if (pc as u64) < state.number() {
        false
    } else {
        role.script.has_values(state.variables())
    }
}

/// The worker of the state, where it is one of the script. Bytes are judged by their format alone, which allows more
/// than a node can hold; so this is asked here, where the node is made (docs/DECISIONS.md#checkpoints).
fn worker_from(alloc: Global, role: Role<'_>, state: &WorkerState) -> Result<Body, Refusal>
    ensures { GivesBody result (worker_from (role_view role.entry) state.now) }
{
    // It is judged before it is copied, since want of memory is told only of a state that fits.
    if !worker_fits(role, state) {
        return Err(Refusal::Damaged);
    }
    let (pc, number, was_none, asked, variables) = state.copy(alloc)?.into_parts();
    match Worker::from_parts(
        role.script,
        number,
        asked,
        usize::from(pc),
        was_none,
        variables,
    ) {
        Ok(worker) => Ok(Body::Worker(worker)),
        Err(_) => Err(Refusal::Damaged),
    }
}

/// Whether the scene has a worker of this number.
fn is_of_scene(workers: u8, number: u8) -> bool
    ensures { result ≡ is_of_scene workers number }
{
    1 <= number && number <= workers
}

/// Whether each of these entries is of a worker of the scene.
fn are_of_scene<T>(workers: u8, entries: &[(u8, T)]) -> bool
    ensures { result ≡ are_of_scene workers entries.now }
{
    entries.iter().all(|entry| is_of_scene(workers, entry.0))
}

fn bag_of(alloc: Global, tuples: &[Tuple]) -> Result<Bag, AllocError>
    ensures { IfOk result (λ b. b.tuples ≡ tuples.now) }
{
    let mut bag = Bag::new(alloc);
    match put_copies(alloc, &mut bag, tuples) {
        Ok(()) => Ok(bag),
        Err(error) => {
            drop(bag);
            Err(error)
        }
    }
}

/// Puts copies of these behind what the bag has.
fn put_copies(alloc: Global, bag: &mut Bag, tuples: &[Tuple]) -> Result<(), AllocError>
    ensures { OnOk result (bag.new.tuples ≡ bag.old.tuples ++ tuples.now) }
{
    for tuple in tuples {
        let copy = tuple.copy(alloc)?;
        bag.reserve()?;
        bag.put_reserved(copy);
    }
    Ok(())
}

fn request_of(
    alloc: Global,
    worker: u8,
    entries: &[(u8, Request)],
) -> Result<Option<Request>, AllocError>
    ensures { IfOk result (λ r. r ≡ entry_of worker entries.now) }
{
    match entries.iter().find(|entry| entry.0 == worker) {
        Some(entry) => Ok(Some(entry.1.copy(alloc)?)),
        None => Ok(None),
    }
}

fn cached_of(
    alloc: Global,
    worker: u8,
    entries: &[(u8, CachedReply)],
) -> Result<Option<CachedReply>, AllocError>
    ensures { IfOk result (λ k. k ≡ entry_of worker entries.now) }
{
    match entries.iter().find(|entry| entry.0 == worker) {
        Some(entry) => Ok(Some(entry.1.copy(alloc)?)),
        None => Ok(None),
    }
}

fn session_of(
    alloc: Global,
    worker: u8,
    waiting: &[(u8, Request)],
    cached: &[(u8, CachedReply)],
) -> Result<Session, AllocError>
    ensures { IfOk result (λ d. d ≡ session_with waiting.now cached.now worker) }
{
    let waiting = request_of(alloc, worker, waiting)?;
    let cached = cached_of(alloc, worker, cached)?;
    Ok(Session { waiting, cached })
}

#[tactic(auto, using(crate::proofs::Numbers::mapped_none, crate::proofs::Numbers::mapped_from_zero))]
fn sessions_of(
    alloc: Global,
    waiting: &[(u8, Request)],
    cached: &[(u8, CachedReply)],
) -> Result<Vec<Session>, AllocError>
    ensures { IfOk result (λ d. d.items ≡ map (session_with waiting.now cached.now) (numbers 0 sessions)) }
{
    let mut made = Vec::with_capacity(alloc, usize::from(SESSIONS))?;
    for worker in 0..SESSIONS {
        made.push(session_of(alloc, worker, waiting, cached)?)?;
    }
    Ok(made)
}

/// The shard of the state, where it is one of the scene and has no more tuples than there are acts.
fn shard_from(alloc: Global, role: Role<'_>, acts: u64, state: &ShardState) -> Result<Body, Refusal>
    ensures { GivesBody result
        (if_fits (shard_fits (role_view role.entry) acts state.now) (IsShard (shard_from state.now))) }
{
    let (tuples, waiting, cached) = (state.bag(), state.waiting(), state.cached());
    let are_there = are_of_scene(role.peers, waiting) && are_of_scene(role.peers, cached);
    if !(are_there && tuples.len() as u64 <= acts) {
        return Err(Refusal::Damaged);
    }
    Ok(Body::Shard(shard_of(alloc, state)?))
}

/// The shard of a state that fits.
#[tactic(auto, using(crate::proofs::Numbers::whole_table))]
fn shard_of(alloc: Global, state: &ShardState) -> Result<Shard, AllocError>
    ensures { IfOk result (λ s. s.state ≡ shard_from state.now) }
{
    let sessions = sessions_of(alloc, state.waiting(), state.cached())?;
    let bag = bag_of(alloc, state.bag())?;
    Ok(Shard::from_parts(bag, sessions))
}

/// What a node of this kind works with behind so many acts.
fn body_from(alloc: Global, role: Role<'_>, acts: u64, state: &State) -> Result<Body, Refusal>
    ensures { GivesBody result (body_from (role_view role.entry) acts role.entry.id state.now) }
{
    match (role.id, state) {
        (NodeId::Worker(_), State::Worker(state)) => worker_from(alloc, role, state),
        (NodeId::Shard(_), State::Shard(state)) => shard_from(alloc, role, acts, state),
        _ => Err(Refusal::Damaged),
    }
}

/// What a node works with at first.
fn opening_body(alloc: Global, role: Role<'_>) -> Result<Body, AllocError>
    ensures { IfOk result (λ b. body_view b ≡ opening_body (role_view role.entry) role.entry.id) }
{
    match role.id {
        NodeId::Worker(_) => Ok(Body::Worker(Worker::new(alloc, role.script)?)),
        NodeId::Shard(_) => Ok(Body::Shard(Shard::new(alloc)?)),
    }
}

/// The table of a checkpoint's list, which begins with neighbour 1: entry 0 and those behind the list are `(0, 0)`.
#[tactic(auto, using(crate::proofs::Numbers::mapped_none, crate::proofs::Numbers::mapped_from_zero))]
fn tabled(alloc: Global, labels: &[Label]) -> Result<Vec<Label>, AllocError>
    ensures { IfOk result (λ v. v.items ≡ tabled labels.now) }
{
    let mut table = Vec::with_capacity(alloc, usize::from(TABLE_SIZE))?;
    for number in 0..TABLE_SIZE {
        table.push(listed_at(labels, number))?;
    }
    Ok(table)
}

fn no_labels(alloc: Global) -> Result<Vec<Label>, AllocError>
    ensures { IfOk result (λ v. v.items ≡ no_labels) }
{
    let mut table = Vec::with_capacity(alloc, usize::from(TABLE_SIZE))?;
    for number in 0..TABLE_SIZE {
        table.push(Label::default())?;
    }
    Ok(table)
}

fn no_firsts(alloc: Global) -> Result<Vec<Option<Label>>, AllocError>
    ensures { IfOk result (λ v. v.items ≡ no_firsts) }
{
    let mut table = Vec::with_capacity(alloc, usize::from(TABLE_SIZE))?;
    for number in 0..TABLE_SIZE {
        table.push(None)?;
    }
    Ok(table)
}

/// The tables of labels that a node has which has sent nothing since its permanent checkpoint.
#[derive(Debug, Drop)]
struct Tables {
    sent: Vec<Label>,
    received: Vec<Label>,
    first: Vec<Option<Label>>,
}

impl Model for Tables {
    ghost use Rattle.std.specs.Prelude.{◌≡◌, List, length};
    ghost use Rattle.kt_link.specs.declared.label.Label.{Label as Mark};
    ghost use Rattle.kt_state.specs.Labels.{no_firsts, table_size};

    ghost Value = { List Mark × List Mark };

    ghost view = { λ t. (t.sent.items, t.received.items) };

    ghost invariant = { λ t. (length t.sent.items ≡ table_size) × (length t.received.items ≡ table_size)
        × (t.first.items ≡ no_firsts) };
}

fn no_tables(alloc: Global) -> Result<Tables, AllocError>
    ensures { IfOk result (λ t. t ≡ (no_labels, no_labels)) }
{
    let sent = no_labels(alloc)?;
    let received = no_labels(alloc)?;
    let first = no_firsts(alloc)?;
    Ok(Tables {
        sent,
        received,
        first,
    })
}

/// The tables of a checkpoint's lists.
#[tactic(auto, using(crate::proofs::Numbers::whole_table))]
fn tables_of(alloc: Global, sent: &[Label], received: &[Label]) -> Result<Tables, AllocError>
    ensures { IfOk result (λ t. t ≡ (tabled sent.now, tabled received.now)) }
{
    let sent = tabled(alloc, sent)?;
    let received = tabled(alloc, received)?;
    let first = no_firsts(alloc)?;
    Ok(Tables {
        sent,
        received,
        first,
    })
}

/// A node that is up and has done nothing since.
fn fresh_live(alloc: Global, incarnation: u64, body: Body, tables: Tables) -> Live
    ensures value { live_view result ≡ fresh_live phases.Up incarnation (body_view body) tables.0 tables.1 }
    ensures tables { HasTables result }
{
    Live {
        phase: Phase::Up,
        body,
        incarnation,
        count: 0,
        sent: tables.sent,
        received: tables.received,
        first: tables.first,
        kept: VecDeque::new(alloc),
    }
}

/// The node of this role that has done nothing yet, in this incarnation.
fn opening_live(alloc: Global, role: Role<'_>, incarnation: u64) -> Result<Live, AllocError>
    ensures value { IfOk result (λ n. live_view n ≡
        fresh_live phases.Up incarnation (opening_body (role_view role.entry) role.entry.id) no_labels no_labels) }
    ensures tables { IfOk result HasTables }
{
    let tables = no_tables(alloc)?;
    let body = opening_body(alloc, role)?;
    Ok(fresh_live(alloc, incarnation, body, tables))
}

impl Node {
    /// The node with which a world opens: up, in its first incarnation, having done nothing.
    pub fn open(alloc: Global, role: Role<'_>) -> Result<Node, AllocError>
        ensures { IfOk result (λ n. n.node ≡ opening_node (role_view role.entry)) }
    {
        let live = opening_live(alloc, role, 1)?;
        Ok(Node { live: Some(live) })
    }
}

impl Stored {
    /// The node that goes on so from its permanent checkpoint, in the next incarnation: nothing was sent since, and
    /// nothing is kept. `Damaged` where the script or the scene has no node that stands so. Whether the checkpoint is
    /// the node's own is not asked here but by `fits`.
    pub fn load(self, alloc: Global, role: Role<'_>) -> Result<Loaded, Refusal>
        requires { self.incarnation + 1 < 2 ^ 64 }
        ensures { Gives result
            (loaded_by self.permanent (self.incarnation + 1) (body_at (role_view role.entry) self.permanent)) }
    {
        let incarnation = self.incarnation + 1;
        match self.permanent {
            None => Ok(load_opening(alloc, role, incarnation)?),
            Some(checkpoint) => load_checkpoint(alloc, role, incarnation, &checkpoint),
        }
    }
}

fn load_opening(alloc: Global, role: Role<'_>, incarnation: u64) -> Result<Loaded, AllocError>
    ensures { IfOk result (λ l. l ≡
        loaded_from None incarnation (opening_body (role_view role.entry) role.entry.id)) }
{
    let live = opening_live(alloc, role, incarnation)?;
    Ok(Loaded { live })
}

fn load_checkpoint(
    alloc: Global,
    role: Role<'_>,
    incarnation: u64,
    checkpoint: &Ckpt,
) -> Result<Loaded, Refusal>
    ensures { Gives result
        (loaded_by (Some checkpoint.now) incarnation (body_at (role_view role.entry) (Some checkpoint.now))) }
{
    let body = body_from(alloc, role, checkpoint.line_len(), checkpoint.state())?;
    let (sent, received) = (checkpoint.sent(), checkpoint.received());
    Ok(loaded_with(alloc, incarnation, body, sent, received)?)
}

/// The node of a checkpoint with these lists.
fn loaded_with(
    alloc: Global,
    incarnation: u64,
    body: Body,
    sent: &[Label],
    received: &[Label],
) -> Result<Loaded, AllocError>
    ensures { IfOk result (λ l. l ≡
        fresh_live phases.Up incarnation (body_view body) (tabled sent.now) (tabled received.now)) }
{
    match tables_of(alloc, sent, received) {
        Ok(tables) => {
            let live = fresh_live(alloc, incarnation, body, tables);
            Ok(Loaded { live })
        }
        Err(error) => {
            drop(body);
            Err(error)
        }
    }
}
