//! The history, with the acts of each node at hand for its next checkpoint.
//! Cited by other crates.

ghost use Rattle.std.specs.Prelude.{◌≡◌, ◌⊎◌, ◌+◌, ◌<◌, ◌≤◌, ◌^◌, ◌∷◌, ◌++◌, [], All, IfErr, IfOk, IfSome, OnOk, true};
ghost use Rattle.std.specs.Prelude.{drop, length, map, take};
ghost use Rattle.kt_tuple.specs.declared.node.NodeId.{NodeId as Name};
ghost use Rattle.kt_history.specs.declared.note.Note.TheVariants as notes;
ghost use Rattle.kt_history.specs.Chronicle.{node_of, room_of};
ghost use Rattle.kt_history.specs.Closed.{acts_at};
ghost use Rattle.kt_history.specs.Log.{log};
ghost use Rattle.kt_history.specs.WellFormed.{MayFollow};
ghost use Rattle.std.specs.List.{list_all};
ghost use Rattle.kt_ckpt.specs.Acts.{IsActOf, is_act_of};
ghost use Rattle.kt_ckpt.specs.LogActs.{fitting, log_act, log_acts, placed};
ghost use Rattle.kt_ckpt.specs.auxiliary.Gathered.{IsGathered, IsLeft, IsPut, fits_at, row};

use crate::acts::{LogAct, may_stand};
use crate::chain::Acts;
use kt_history::{Act, History, Note};
use kt_tuple::NodeId;
use std::alloc::{AllocError, Global};
use std::marker::Model;

/// What happened: a history. Beside it stand, of each node, first acts of its log as a checkpoint holds them. They are
/// gathered where one is asked for, so a node that takes none pays nothing. They are shared with its checkpoints, so
/// that each act is made once and not again for each checkpoint.
#[derive(Debug, Drop)]
pub struct Past {
    history: History,
    /// By `NodeId::index`. A node without a row has nothing gathered.
    gathered: Vec<Acts>,
}

impl Model for Past {
    ghost use Rattle.kt_history.specs.Chronicle.{Chronicle};

    ghost Value = { Chronicle };

    ghost use Rattle.kt_ckpt.specs.auxiliary.Gathered.{IsPast};

    ghost view = { λ p. p.history };

    ghost invariant = { λ p. IsPast p.history.notes p.gathered.items };
}

/// The act of this number by its node and its place in that node's log; none where the number names no act.
fn placed(history: &History, number: u64) -> Option<(NodeId, u64)>
    ensures { result ≡ placed history.now.notes number }
{
    let node = history.act(number)?.node;
    let place = history.place(number)?;
    Some((node, place))
}

/// The act in the form that a checkpoint holds: what it heard is named by its node and place, which last longer than a
/// number of this history.
fn log_act(alloc: Global, history: &History, act: &Act) -> Result<LogAct, AllocError>
    ensures { IfOk result (λ a. a ≡ log_act history.now.notes act.now) }
{
    Ok(LogAct {
        by: placed(history, act.by),
        worker: act.worker,
        number: act.number,
        op: act.op.copy(alloc)?,
        what: act.what.copy(alloc)?,
    })
}

/// The acts of these numbers.
fn acts_of(alloc: Global, history: &History, numbers: &[u64]) -> Result<Vec<LogAct>, AllocError>
    ensures { IfOk result (λ v. v.items ≡ map (log_act history.now.notes) (acts_at history.now.notes numbers.now)) }
{
    let mut acts = Vec::with_capacity(alloc, numbers.len())?;
    for number in numbers {
        if let Some(act) = history.act(*number) {
            acts.push(log_act(alloc, history, act)?)?;
        }
    }
    Ok(acts)
}

/// Whether the act of this number, if it names one, may stand in the log of the node.
fn is_fit(history: &History, node: NodeId, number: u64) -> bool
    ensures { result ≡ fits_at history.now.notes node number }
{
    match history.act(number) {
        Some(act) => may_stand(node, act.worker, &act.what, placed(history, act.by)),
        None => true,
    }
}

/// The same of each of these numbers.
fn are_fit(history: &History, node: NodeId, numbers: &[u64]) -> bool
    ensures { result ≡ list_all (fits_at history.now.notes node) numbers.now }
{
    numbers.iter().all(|number| is_fit(history, node, *number))
}

/// Whether each act of the node's log behind the first so many may stand in it.
fn are_fit_behind(history: &History, node: NodeId, first: u64) -> bool
    requires { first ≤ length (log history.now.notes node) }
    ensures { result ≡ list_all (is_act_of node) (drop first (log_acts history.now.notes node)) }
{
    are_fit(history, node, &history.line(node)[first as usize..])
}

/// The acts of the node's log behind the first so many, oldest first.
fn acts_behind(
    alloc: Global,
    history: &History,
    node: NodeId,
    first: u64,
) -> Result<Vec<LogAct>, AllocError>
    requires { first ≤ length (log history.now.notes node) }
    ensures acts { IfOk result (λ v. v.items ≡ drop first (log_acts history.now.notes node)) }
    ensures few { IfOk result (λ v. first + length v.items < 2 ^ 64) }
{
    let log = history.line(node);
    let acts = acts_of(alloc, history, &log[first as usize..])?;
    Ok(acts)
}

/// Puts these acts into the row of the node, and makes empty rows up to it where there are too few.
fn put(gathered: &mut Vec<Acts>, node: NodeId, acts: Acts) -> Result<(), AllocError>
    ensures { (p : Name) → IsPut node acts (row gathered.old.items p) p (row gathered.new.items p) }
{
    let place = node.index();
    'grow: while gathered.len() <= place {
        gathered.push(Acts::none())?;
    }
    gathered[place] = acts;
    Ok(())
}

/// The first so many of the acts. To share a block takes no memory. Should it be refused all the same there are none,
/// and they are made again when they are asked for.
fn first_or_none(acts: &Acts, keep: u64) -> Acts
    ensures { (result ≡ take keep acts.now) ⊎ (result ≡ []) }
{
    match acts.first(keep) {
        Ok(kept) => kept,
        Err(_) => Acts::none(),
    }
}

/// At most the first so many of the acts in the row of the node stay.
fn keep_first(gathered: &mut Vec<Acts>, node: NodeId, keep: u64)
    ensures { (p : Name) → IsLeft (notes.Cut node keep) (row gathered.old.items p) p (row gathered.new.items p) }
{
    if let Some(acts) = gathered.get_mut(node.index()) {
        *acts = first_or_none(acts, keep);
    }
}

/// What the note gives up goes from the row of its node too.
fn give_up(gathered: &mut Vec<Acts>, note: &Note)
    ensures { (p : Name) → IsLeft note.now (row gathered.old.items p) p (row gathered.new.items p) }
{
    match note {
        Note::Act(_) => {}
        Note::Cut { node, keep } => keep_first(gathered, *node, *keep),
    }
}

impl Past {
    /// Nothing happened.
    pub fn new(alloc: Global) -> Past
        ensures { result.notes ≡ [] }
    {
        Past::of(alloc, History::new(alloc))
    }

    /// What happened, of which nothing is gathered yet.
    pub fn of(alloc: Global, history: History) -> Past
        ensures { result ≡ history }
    {
        // For the proof alone, which learns so that each note might follow those before it.
        history.notes();
        Past {
            history,
            gathered: Vec::new(alloc),
        }
    }

    /// What happened, as a history.
    pub fn history(&self) -> &History
        ensures { result.now ≡ self.now }
    {
        &self.history
    }

    /// Makes room for one more note of the node, as `History::make_room` does.
    pub fn make_room(&mut self, node: NodeId) -> Result<(), AllocError>
        ensures same { self.new.notes ≡ self.old.notes }
        ensures ok { OnOk result (1 ≤ room_of self.new node) }
    {
        self.history.make_room(node)
    }

    /// Appends a note that may follow and that there is room for, as `History::add` does. It takes no memory.
    pub fn add(&mut self, note: Note)
        requires follows { MayFollow self.old.notes note }
        requires room { 1 ≤ room_of self.old (node_of note) }
        ensures { self.new.notes ≡ self.old.notes ++ note ∷ [] }
    {
        give_up(&mut self.gathered, &note);
        self.history.add(note);
    }

    /// Gathers the acts of the node's log, so that `acts` has them at hand. It costs what came since the last time,
    /// and shows nowhere else. Where memory is wanting nothing is gathered.
    pub fn gather(&mut self, alloc: Global, node: NodeId) -> Result<(), AllocError>
        ensures { self.new ≡ self.old }
    {
        match self.acts(alloc, node)? {
            Some(acts) => put(&mut self.gathered, node, acts),
            None => Ok(()),
        }
    }

    /// The acts of the node's log, oldest first, as a checkpoint holds them; `None` where one may not stand in it.
    /// That is found out first and takes no memory, so want of memory does not hide it. The acts that are gathered are
    /// shared, so it costs what came since.
    pub fn acts(&self, alloc: Global, node: NodeId) -> Result<Option<Acts>, AllocError>
        ensures acts { IfOk result (λ found. found ≡ fitting node (log_acts self.now.notes node)) }
        ensures shape { IfOk result (λ found. IfSome found (All (IsActOf node))) }
        ensures refused { IfErr result (λ _. list_all (is_act_of node) (log_acts self.now.notes node) ≡ true) }
    {
        if !self.are_fit(node) {
            return Ok(None);
        }
        let older = self.gathered(node)?;
        let newer = acts_behind(alloc, &self.history, node, older.len())?;
        Ok(Some(older.with(alloc, newer)?))
    }

    /// Whether each act of the node's log may stand in it. Those that are gathered may, and are not looked at.
    fn are_fit(&self, node: NodeId) -> bool
        ensures { result ≡ list_all (is_act_of node) (log_acts self.now.notes node) }
    {
        match self.gathered_of(node) {
            Some(acts) => are_fit_behind(&self.history, node, acts.len()),
            None => are_fit_behind(&self.history, node, 0),
        }
    }

    /// What is gathered of the node, shared.
    fn gathered(&self, node: NodeId) -> Result<Acts, AllocError>
        ensures { IfOk result (IsGathered self.now.notes node) }
    {
        match self.gathered_of(node) {
            Some(acts) => acts.copy(),
            None => Ok(Acts::none()),
        }
    }

    /// What is gathered of the node, where it has a row.
    fn gathered_of(&self, node: NodeId) -> Option<&Acts>
        ensures { IfSome result (λ a. IsGathered self.now.notes node a.now) }
    {
        self.gathered.get(node.index())
    }
}
