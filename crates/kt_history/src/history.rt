//! Histories: what happened, each node's log, and what survives.
//! Cited by other crates.

ghost use Rattle.std.specs.Prelude.{◌≡◌, ◌≤◌, ◌↔◌, ◌∷◌, ◌++◌, [], IsTrue, IfOk, OnOk, OnErr};
ghost use Rattle.std.specs.Option.{option_copied};
ghost use Rattle.kt_history.specs.Closed.{act_of};
ghost use Rattle.kt_history.specs.Log.{IsAct, log, note_at};
ghost use Rattle.kt_history.specs.Place.{place};
ghost use Rattle.kt_history.specs.Survival.{AreSurvivors, IsLostCount, Survives, services, lost_count};
ghost use Rattle.kt_history.specs.auxiliary.Marks.{kept_service};
ghost use Rattle.kt_history.specs.Chronicle.{node_of, room_of};
ghost use Rattle.kt_history.specs.WellFormed.{CausesComeFirst, MayFollow};

use crate::mark::{Mark, act_mark, lose, lost_with};
use crate::note::{Act, Note};
use crate::rows::{Rows, append, behind, last_number, next_place, reserve_row, shorten};
use kt_tuple::{NodeId, Service};
use std::alloc::{AllocError, Global};
use std::marker::Model;

/// What happened: the notes, oldest first, numbered from 1. It keeps each node's log and what survives,
/// so that both are known without a look at the notes.
#[derive(Debug, Drop)]
pub struct History {
    /// The notes, oldest first; the first has the number 1.
    notes: Vec<Note>,
    /// Each node's log, by `NodeId::index`, as numbers of acts.
    logs: Rows,
    /// One mark for each note.
    marks: Vec<Mark>,
    /// How many services do not survive.
    lost: u64,
}

impl Model for History {
    ghost use Rattle.kt_history.specs.Chronicle.{Chronicle, chronicle};
    ghost use Rattle.kt_history.specs.auxiliary.Marks.{rows_of, Agrees};

    ghost Value = { Chronicle };

    ghost view = { λ h. chronicle h.notes h.marks h.logs.items };

    ghost invariant = { λ h. Agrees h.notes.items (rows_of h.logs.items) h.marks.items h.lost };
}

impl History {
    ghost use Rattle.kt_history.specs.declared.note.Note.TheVariants as notes;

    /// The history of nothing: no note, and all logs empty.
    pub fn new(alloc: Global) -> History
        ensures { result.notes ≡ [] }
    {
        History {
            notes: Vec::new(alloc),
            logs: Vec::new(alloc),
            marks: Vec::new(alloc),
            lost: 0,
        }
    }

    /// All notes, oldest first: each might follow those before it.
    pub fn notes(&self) -> &[Note]
        ensures notes { result.now ≡ self.now.notes }
        ensures causes { CausesComeFirst self.now.notes }
    {
        &self.notes
    }

    /// The act of this number, if it names one.
    pub fn act(&self, number: u64) -> Option<&Act>
        ensures { option_copied result ≡ act_of (note_at self.now.notes number) }
    {
        if number == 0 {
            return None;
        }
        match self.notes.get(number as usize - 1) {
            Some(Note::Act(act)) => Some(act),
            _ => None,
        }
    }

    /// Where the act of this number stood in its node's log when it was added, counted from 1; none where the
    /// number names no act.
    pub fn place(&self, number: u64) -> Option<u64>
        ensures { result ≡ place self.now.notes number }
    {
        self.act(number)?;
        Some(self.marks[number as usize - 1].place)
    }

    /// The numbers of the node's acts that were not cut off, oldest first.
    pub fn line(&self, node: NodeId) -> &[u64]
        ensures { result.now ≡ log self.now.notes node }
    {
        match self.logs.get(node.index()) {
            Some(log) => log,
            None => &[],
        }
    }

    /// Whether the number names an act.
    pub fn is_act(&self, number: u64) -> bool
        ensures { IsTrue result ↔ IsAct self.now.notes number }
    {
        1 <= number
            && number <= self.notes.len() as u64
            && matches!(self.notes[number as usize - 1], Note::Act(_))
    }

    /// Whether the note may come next: an act's cause is an act of the history, and a cut keeps no more
    /// than the log has.
    pub fn may_follow(&self, note: &Note) -> bool
        ensures { IsTrue result ↔ MayFollow self.now.notes note.now }
    {
        match note {
            Note::Act(act) => act.by == 0 || self.is_act(act.by),
            Note::Cut { node, keep } => *keep <= self.line(*node).len() as u64,
        }
    }

    /// Appends the note, which must be one that may follow, as `may_follow` tells. Where memory is wanting the notes
    /// stay as they were.
    ///
    /// An act costs the same however long the history is. A cut looks once at each note from the first act that it
    /// takes out of its log on. So filling is linear where cuts take what is new. It is quadratic where each cut keeps
    /// less than the one before, so that it goes back further.
    pub fn push(&mut self, note: Note) -> Result<(), AllocError>
        requires { MayFollow self.old.notes note }
        ensures ok { OnOk result (self.new.notes ≡ self.old.notes ++ note ∷ []) }
        ensures err { OnErr result (self.new.notes ≡ self.old.notes) }
    {
        self.make_room(note.node())?;
        self.add(note);
        Ok(())
    }

    /// Makes room for one more note of the node, and leaves the notes as they are. So a caller takes all memory before
    /// it changes anything, and `add` has no refusal.
    pub fn make_room(&mut self, node: NodeId) -> Result<(), AllocError>
        ensures same { self.new.notes ≡ self.old.notes }
        ensures ok { OnOk result (1 ≤ room_of self.new node) }
    {
        self.notes.reserve(1)?;
        self.marks.reserve(1)?;
        reserve_row(&mut self.logs, node.index())
    }

    /// Appends a note that may follow and that there is room for, as `make_room` makes it. It takes no memory.
    pub fn add(&mut self, note: Note)
        requires follows { MayFollow self.old.notes note }
        requires room { 1 ≤ room_of self.old (node_of note) }
        ensures { self.new.notes ≡ self.old.notes ++ note ∷ [] }
    {
        match note {
            Note::Act(act) => self.add_act(act),
            Note::Cut { node, keep } => self.add_cut(node, keep),
        }
    }

    fn add_act(&mut self, act: Act)
        requires follows { MayFollow self.old.notes (notes.Act act) }
        requires room { 1 ≤ room_of self.old act.node }
        ensures { self.new.notes ≡ self.old.notes ++ notes.Act act ∷ [] }
    {
        let place = act.node.index();
        let number = self.notes.len() as u64 + 1;
        let previous = last_number(&self.logs[place]);
        let spot = next_place(&self.logs[place]);
        let mark = act_mark(&self.marks, previous, act.by, spot);
        let note = Note::Act(act);
        self.lost = lost_with(self.lost, &note, mark);
        append(&mut self.logs, place, number);
        self.marks.push_reserved(mark);
        self.notes.push_reserved(note);
    }

    fn add_cut(&mut self, node: NodeId, keep: u64)
        requires follows { MayFollow self.old.notes (notes.Cut node keep) }
        requires room { 1 ≤ room_of self.old node }
        ensures { self.new.notes ≡ self.old.notes ++ notes.Cut node keep ∷ [] }
    {
        let place = node.index();
        let kept = keep as usize;
        let lost = behind(&self.logs, place, kept);
        self.lost = lose(&self.notes, &mut self.marks, lost, self.lost);
        shorten(&mut self.logs, place, kept);
        self.marks.push_reserved(Mark::NONE);
        self.notes.push_reserved(Note::Cut { node, keep });
    }

    /// Whether the number names an act with nothing lost in its past.
    pub fn survives(&self, number: u64) -> bool
        ensures { IsTrue result ↔ Survives self.now.notes number }
    {
        1 <= number && number <= self.marks.len() as u64 && self.marks[number as usize - 1].survives
    }

    /// The surviving services, oldest first, with memory of their own.
    pub fn survivors(&self, alloc: Global) -> Result<Vec<Service>, AllocError>
        // Said twice: by the test that computes, which proofs use, and by the relation, which a reader wants.
        ensures services { IfOk result (λ found. found.items ≡ services self.now.notes) }
        ensures survive { IfOk result (λ found. AreSurvivors self.now.notes found.items) }
    {
        let mut services = Vec::new(alloc);
        for (place, note) in self.notes.iter().enumerate() {
            keep_service(alloc, &mut services, note, self.marks[place])?;
        }
        Ok(services)
    }

    /// How many services do not survive: those with something undone in their past.
    pub fn lost_count(&self) -> u64
        ensures count { result ≡ lost_count self.now.notes }
        ensures lost { IsLostCount self.now.notes result }
    {
        self.lost
    }
}

/// Appends the service that the note is, where by its mark it survives.
fn keep_service(
    alloc: Global,
    services: &mut Vec<Service>,
    note: &Note,
    mark: Mark,
) -> Result<(), AllocError>
    ensures { OnOk result (services.new.items ≡ services.old.items ++ kept_service note.now mark) }
{
    if mark.survives {
        if let Some(service) = note.service(alloc)? {
            services.push(service)?;
        }
    }
    Ok(())
}
