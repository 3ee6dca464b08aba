//! What happened in a scene: its rows, the world behind them, and what was lost.
//! Cited by arrow.rt, words.rt; other crates.

ghost use Rattle.std.specs.Prelude.{◌≡◌, ◌==◌, ◌++◌, ◌∷◌, [], IfOk, IsTrue, None, OnOk, Some, is_some, length};
ghost use Rattle.std.specs.List.{find};
ghost use Rattle.std.specs.Option.{option_copied};
ghost use Rattle.kt_history.specs.Log.{note_at};
ghost use Rattle.kt_history.specs.Survival.{survives};
ghost use Rattle.kt_model.specs.Reached.{opening};
ghost use Rattle.kt_story.specs.Blames.{IsBlamed};
ghost use Rattle.kt_story.specs.Marks.{mark_of};
ghost use Rattle.kt_story.specs.Messages.{act_lost_at};
ghost use Rattle.kt_story.specs.Story.{IsStoryOf, act_is_lost, act_survives, is_act, last_refused};
ghost use Rattle.kt_story.specs.Story.{made_rows};
ghost use Rattle.kt_story.specs.auxiliary.Finding.{AreLosses, blame_by, is_of, makes};
ghost use Rattle.kt_story.specs.declared.mark.Mark.TheVariants as marks;

use crate::mark::{Mark, mark_of};
use kt_core::{Scene, Step, World};
use kt_history::{History, Note};
use kt_losses::{Loss, losses};
use kt_store::MemStore;
use kt_trace::{Refused, Traced, TracedStep, trace_on, world_of};
use kt_tuple::NodeId;
use std::alloc::{AllocError, Global};
use std::marker::Model;

/// The steps of a scene that were made, the world behind them, and what they lost.
#[derive(Debug, Drop)]
pub struct Story {
    world: World<MemStore>,
    rows: Vec<TracedStep>,
    refused: Option<Refused>,
    losses: Vec<Loss>,
}

/// The cut that lost a service.
#[derive(Clone, Copy, Debug, PartialEq, Eq)]
pub struct Blame {
    /// The node that gave up what it had done.
    pub node: NodeId,
    /// Whether it failed; else it rolled back.
    pub failed: bool,
    /// The number of the step.
    pub step: u64,
}

impl Model for Story {
    ghost use Rattle.kt_story.specs.Story.{StoryModel};
    ghost use Rattle.kt_story.specs.auxiliary.Finding.{AreLosses};

    ghost Value = { StoryModel };

    ghost view = { λ s. record {
      state = s.world.state;
      rows = s.rows.items;
      refused = s.refused;
    } };

    ghost invariant = { λ s. AreLosses s.world.state.history s.losses.items };
}

impl Story {
    /// Makes the steps in a world of the scene over a store in memory, up to the first that is refused. `AllocError`
    /// where memory is wanting.
    pub fn of(alloc: Global, scene: Scene, steps: &[Step]) -> Result<Story, AllocError>
        ensures told { IfOk result (IsStoryOf (opening scene) steps.now) }
    {
        let mut world = world_of(alloc, scene)?;
        match trace_on(alloc, &mut world, steps, &[]) {
            Ok(entries) => Story::told(alloc, world, entries),
            Err(error) => {
                drop(world);
                Err(error)
            }
        }
    }

    /// The story of which these entries tell, which ends in this world.
    pub fn told(
        alloc: Global,
        world: World<MemStore>,
        entries: Vec<Traced>,
    ) -> Result<Story, AllocError>
        ensures state { IfOk result (λ story. story.state ≡ world.state) }
        ensures rows { IfOk result (λ story. story.rows ≡ made_rows entries.items) }
        ensures refused { IfOk result (λ story. story.refused ≡ last_refused None entries.items) }
    {
        match losses(alloc, world.history()) {
            Ok(losses) => Story::with_losses(alloc, world, entries, losses),
            Err(error) => {
                drop(world);
                drop(entries);
                Err(error)
            }
        }
    }

    /// The same, with the losses of the world.
    fn with_losses(
        alloc: Global,
        world: World<MemStore>,
        entries: Vec<Traced>,
        losses: Vec<Loss>,
    ) -> Result<Story, AllocError>
        requires { AreLosses world.state.history losses.items }
        ensures state { IfOk result (λ story. story.state ≡ world.state) }
        ensures rows { IfOk result (λ story. story.rows ≡ made_rows entries.items) }
        ensures refused { IfOk result (λ story. story.refused ≡ last_refused None entries.items) }
    {
        let mut rows = Vec::new(alloc);
        match split(&mut rows, entries) {
            Ok(refused) => Ok(Story {
                world,
                rows,
                refused,
                losses,
            }),
            Err(error) => {
                drop(world);
                drop(rows);
                drop(losses);
                Err(error)
            }
        }
    }

    /// How many workers the scene has.
    pub fn workers(&self) -> u8
        ensures { result ≡ length self.now.state.scene.scripts }
    {
        self.world.scene().scripts().len() as u8
    }

    /// How many shards it has.
    pub fn shards(&self) -> u8
        ensures { result ≡ self.now.state.scene.shards }
    {
        self.world.scene().shards()
    }

    /// The world behind the last step.
    pub fn world(&self) -> &World<MemStore>
        ensures { result.now.state ≡ self.now.state }
    {
        &self.world
    }

    /// The steps that were made, in order: the one at place n has the number n + 1.
    pub fn rows(&self) -> &[TracedStep]
        ensures { result.now ≡ self.now.rows }
    {
        &self.rows
    }

    /// The step that was refused, and ended the story.
    pub fn refused(&self) -> Option<Refused>
        ensures { result ≡ self.now.refused }
    {
        self.refused
    }

    /// Whether the row has an act and nothing in the past of that is lost.
    pub fn survives(&self, row: &TracedStep) -> bool
        ensures { result ≡ act_survives self.now.state.history row.now }
    {
        matches!(row.note, Some(Note::Act(_))) && lasts(self.world.history(), row.notes)
    }

    /// Whether the row has an act that does not survive.
    pub fn is_lost(&self, row: &TracedStep) -> bool
        ensures { result ≡ act_is_lost self.now.state.history row.now }
    {
        matches!(row.note, Some(Note::Act(_))) && !lasts(self.world.history(), row.notes)
    }

    /// The mark of the row: a service is marked as one that survives just where the history says so.
    pub fn mark(&self, row: &TracedStep) -> Mark
        ensures mark { result ≡ mark_of row.now (act_survives self.now.state.history row.now) }
        ensures survives { result ≡ marks.Survives → IsTrue (act_survives self.now.state.history row.now) }
    {
        mark_of(row, self.survives(row))
    }

    /// Whether the number names an act that does not survive.
    pub fn is_act_lost(&self, number: u64) -> bool
        ensures { result ≡ act_lost_at self.now.state.history number }
    {
        is_act_at(self.world.history(), number) && !lasts(self.world.history(), number)
    }

    /// What lost the row's service; `None` where it survives, or the row has none, or no row made the cut.
    pub fn blame(&self, row: &TracedStep) -> Option<Blame>
        ensures right { (blame : Blame) → result ≡ Some blame → IsBlamed self.now row.now blame }
        ensures found { (blame : Blame) → IsBlamed self.now row.now blame → IsTrue (is_some result) }
    {
        if self.is_lost(row) {
            blame_by(&self.rows, &self.losses, row.notes)
        } else {
            None
        }
    }
}

/// The step that made the cut of the service of this number.
fn blame_by(rows: &[TracedStep], losses: &[Loss], number: u64) -> Option<Blame>
    ensures { result ≡ blame_by rows.now losses.now number }
{
    let loss = loss_of(losses, number)?;
    let cut = row_of(rows, loss.cut)?;
    Some(Blame {
        node: cut.node,
        failed: matches!(cut.step, Step::Fail { .. }),
        step: cut.number,
    })
}

/// The loss of the service of this number.
fn loss_of(losses: &[Loss], number: u64) -> Option<&Loss>
    ensures { option_copied result ≡ find (is_of number) losses.now }
{
    losses.iter().find(|loss| loss.service == number)
}

/// The row that made the event of this number.
fn row_of(rows: &[TracedStep], number: u64) -> Option<&TracedStep>
    ensures { option_copied result ≡ find (makes number) rows.now }
{
    rows.iter()
        .find(|row| row.notes == number && row.note.is_some())
}

/// Whether the number names an act.
fn is_act_at(history: &History, number: u64) -> bool
    ensures { result ≡ is_act (note_at history.now.notes number) }
{
    history.is_act(number)
}

/// Whether nothing in the past of the act of this number is lost.
fn lasts(history: &History, number: u64) -> bool
    ensures { result ≡ survives history.now.notes number }
{
    // Its clauses say what the answer rests on: each cause comes first.
    let _notes = history.notes();
    history.survives(number)
}

/// Puts the rows of the entries behind the others, and gives the refusal that ends them.
fn split(rows: &mut Vec<TracedStep>, entries: Vec<Traced>) -> Result<Option<Refused>, AllocError>
    ensures rows { OnOk result (rows.new.items ≡ rows.old.items ++ made_rows entries.items) }
    ensures refused { IfOk result (λ refused. refused ≡ last_refused None entries.items) }
{
    let mut refused = None;
    for entry in entries {
        refused = put(rows, refused, entry)?;
    }
    Ok(refused)
}

/// Puts the entry's row behind the others, or gives its refusal, and else the one from before.
fn put(
    rows: &mut Vec<TracedStep>,
    before: Option<Refused>,
    entry: Traced,
) -> Result<Option<Refused>, AllocError>
    ensures rows { OnOk result (rows.new.items ≡ rows.old.items ++ made_rows (entry ∷ [])) }
    ensures refused { IfOk result (λ refused. refused ≡ last_refused before (entry ∷ [])) }
{
    match entry {
        Traced::Made(row) => {
            rows.push(row)?;
            Ok(before)
        }
        Traced::Refused(refused) => Ok(Some(refused)),
    }
}
