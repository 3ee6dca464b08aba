//! The steps of a scene made one by one, and what changes of the cells by each.
//! Cited by page.rt.

ghost use Rattle.std.specs.Prelude.{◌≡◌, ◌++◌, IfOk, IsTrue, None, OnOk, []};
ghost use Rattle.kt_model.specs.Reached.{opening};
ghost use Rattle.kt_trace.specs.Rows.{behind, trace_from};
ghost use Rattle.kt_trace.specs.auxiliary.Entries.{is_end};
ghost use Rattle.kt_story.specs.Story.{IsStoryOf, last_refused, made_rows};
ghost use Rattle.kt_cells.specs.Cells.{cells_of};
ghost use Rattle.kt_cells.specs.Texts.{cells_text};

use crate::json::push_changes;
use kt_cells::cells_of;
use kt_core::{Scene, Step, World};
use kt_store::MemStore;
use kt_story::Story;
use kt_trace::{Traced, trace_step, world_of};
use std::alloc::{AllocError, Global};
use std::mem;

/// What a page shows of nodes and links.
#[derive(Drop)]
pub(crate) struct Watched {
    /// What happened.
    pub story: Story,
    /// The cells behind the last step.
    pub cells: Vec<Vec<Vec<u8>>>,
    /// What changes, as JSON: first to make the cells before the first step that is shown, and then by each step.
    pub changes: Vec<Vec<u8>>,
}

/// The cells of before, and what changed of them so far.
#[derive(Drop)]
struct Changes {
    old: Vec<Vec<Vec<u8>>>,
    texts: Vec<Vec<u8>>,
}

impl Changes {
    /// Puts what changed of the cells, up to this world, behind the changes.
    fn note(&mut self, alloc: Global, world: &World<MemStore>) -> Result<(), AllocError> {
        let cells = cells_of(alloc, world)?;
        let noted = self.note_cells(alloc, &cells);
        drop(mem::replace(&mut self.old, cells));
        noted
    }

    /// Puts what changed, up to these cells, behind the changes.
    fn note_cells(&mut self, alloc: Global, cells: &[Vec<Vec<u8>>]) -> Result<(), AllocError> {
        let text = change_of(alloc, &self.old, cells)?;
        self.texts.push(text)?;
        Ok(())
    }
}

/// What changed of the cells, as JSON.
fn change_of(
    alloc: Global,
    old: &[Vec<Vec<u8>>],
    new: &[Vec<Vec<u8>>],
) -> Result<Vec<u8>, AllocError> {
    let mut text = Vec::new(alloc);
    push_changes(&mut text, 0, old, new)?;
    Ok(text)
}

/// Makes the steps in a world of the scene over a store in memory, up to the first that is refused. Those from the step
/// of this number on are shown. `AllocError` where memory is wanting.
pub(crate) fn watch(
    alloc: Global,
    scene: Scene,
    steps: &[Step],
    first: u64,
) -> Result<Watched, AllocError>
    ensures cells { IfOk result (λ watched. cells_text watched.cells.items ≡ cells_of watched.story.state) }
    ensures story { IfOk result (λ watched. IsStoryOf (opening scene) steps.now watched.story) }
{
    let mut world = world_of(alloc, scene)?;
    let mut changes = Changes {
        old: Vec::new(alloc),
        texts: Vec::new(alloc),
    };
    match watch_steps(alloc, &mut world, steps, first, &mut changes) {
        Ok(entries) => {
            let Changes { old, texts } = changes;
            drop(old);
            seen(alloc, world, entries, texts)
        }
        Err(error) => {
            drop(world);
            drop(changes);
            Err(error)
        }
    }
}

/// What was watched up to this world, of these entries and with these changes.
fn seen(
    alloc: Global,
    world: World<MemStore>,
    entries: Vec<Traced>,
    changes: Vec<Vec<u8>>,
) -> Result<Watched, AllocError>
    ensures cells { IfOk result (λ watched. cells_text watched.cells.items ≡ cells_of watched.story.state) }
    ensures state { IfOk result (λ watched. watched.story.state ≡ world.state) }
    ensures rows { IfOk result (λ watched. watched.story.rows ≡ made_rows entries.items) }
    ensures refused { IfOk result (λ watched. watched.story.refused ≡ last_refused None entries.items) }
{
    match cells_of(alloc, &world) {
        Ok(cells) => seen_with(alloc, world, entries, cells, changes),
        Err(error) => {
            drop(world);
            drop(entries);
            drop(changes);
            Err(error)
        }
    }
}

/// The same, with the cells of the world.
fn seen_with(
    alloc: Global,
    world: World<MemStore>,
    entries: Vec<Traced>,
    cells: Vec<Vec<Vec<u8>>>,
    changes: Vec<Vec<u8>>,
) -> Result<Watched, AllocError>
    requires { cells_text cells.items ≡ cells_of world.state }
    ensures cells { IfOk result (λ watched. cells_text watched.cells.items ≡ cells_of watched.story.state) }
    ensures state { IfOk result (λ watched. watched.story.state ≡ world.state) }
    ensures rows { IfOk result (λ watched. watched.story.rows ≡ made_rows entries.items) }
    ensures refused { IfOk result (λ watched. watched.story.refused ≡ last_refused None entries.items) }
{
    match Story::told(alloc, world, entries) {
        Ok(story) => Ok(Watched {
            story,
            cells,
            changes,
        }),
        Err(error) => {
            drop(cells);
            drop(changes);
            Err(error)
        }
    }
}

/// Makes the steps in this world, up to the first that is refused, and notes what changes: first to make the cells
/// before the first step that is shown, and then by each step. Where none is shown, it notes the cells at the end.
fn watch_steps(
    alloc: Global,
    world: &mut World<MemStore>,
    steps: &[Step],
    first: u64,
    changes: &mut Changes,
) -> Result<Vec<Traced>, AllocError>
    requires honest { IsTrue world.old.is_honest }
    ensures entries { IfOk result (λ entries. entries.items ≡ trace_from [] 1 world.old.state steps.now) }
    ensures world { IfOk result (λ _. world.new.state ≡ behind world.old.state steps.now) }
{
    let mut entries = Vec::new(alloc);
    match watch_each(alloc, world, steps, first, changes, &mut entries) {
        Ok(()) => Ok(entries),
        Err(error) => {
            drop(entries);
            Err(error)
        }
    }
}

/// The same, with the entries behind these.
fn watch_each(
    alloc: Global,
    world: &mut World<MemStore>,
    steps: &[Step],
    first: u64,
    changes: &mut Changes,
    entries: &mut Vec<Traced>,
) -> Result<(), AllocError>
    requires honest { IsTrue world.old.is_honest }
    ensures entries { OnOk result
        (entries.new.items ≡ entries.old.items ++ trace_from [] 1 world.old.state steps.now) }
    ensures world { OnOk result (world.new.state ≡ behind world.old.state steps.now) }
{
    if first <= 1 {
        changes.note(alloc, world)?;
    }
    for (place, step) in steps.iter().enumerate() {
        let number = place as u64 + 1;
        let entry = trace_step(alloc, world, number, 0, *step)?;
        let is_end = ends(&entry);
        entries.push(entry)?;
        if is_noted(first, number, is_end) {
            changes.note(alloc, world)?;
        }
        if is_end {
            return Ok(());
        }
    }
    if first > (steps.len() as u64).saturating_add(1) {
        changes.note(alloc, world)?;
    }
    Ok(())
}

/// Whether what changed by the step of this number is noted: where a step behind it may be shown, and where the trace
/// ends with it before one is.
fn is_noted(first: u64, number: u64, is_end: bool) -> bool {
    if is_end {
        first > number
    } else {
        first <= number.saturating_add(1)
    }
}

/// Whether the trace ends with the entry.
fn ends(entry: &Traced) -> bool
    ensures { result ≡ is_end entry.now }
{
    match entry {
        Traced::Made(_) => false,
        Traced::Refused(_) => true,
    }
}
