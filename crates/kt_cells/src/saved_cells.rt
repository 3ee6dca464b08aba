//! What is shown of what a node remembers, and of its checkpoints.
//! Cited by node_cells.rt.

ghost use Rattle.std.specs.Prelude.{◌≡◌, ◌++◌, ◌∷◌, ◌==◌, [], IfOk, OnOk, codes, decimal};
ghost use Rattle.std.specs.List.{find};
ghost use Rattle.std.specs.Option.{option_copied};
ghost use Rattle.kt_tuple.specs.Node.{node_eq};
ghost use Rattle.kt_store.specs.Content.{verdict_of, verdict_on};
ghost use Rattle.kt_store.specs.declared.rows.NodeRow.{NodeRow};
ghost use Rattle.kt_story.specs.Said.{count_text};
ghost use Rattle.kt_cells.specs.Cells.{acts_in, acts_of, saved_lines};
ghost use Rattle.kt_cells.specs.Texts.{text_of};
ghost use Rattle.kt_cells.specs.auxiliary.Found.{permanent_in, tentative_in};

use crate::adding::add_line;
use crate::ballot_cells::instance_at;
use kt_ckpt::Ckpt;
use kt_core::World;
use kt_store::{MemStore, NodeRow, Tentative, Verdict};
use kt_story::push_count;
use kt_tuple::NodeId;
use kt_tuple::writing::push_number;
use std::alloc::{AllocError, Global};

/// How many acts the node remembers, and how many of them its checkpoints hold.
pub(crate) fn saved_lines(
    alloc: Global,
    world: &World<MemStore>,
    node: NodeId,
) -> Result<Vec<Vec<u8>>, AllocError>
    ensures { IfOk result (λ lines. text_of lines.items ≡ saved_lines world.now.state node) }
{
    let row = row_at(world.store().rows(), node);
    let mut lines = Vec::new(alloc);
    add_count(alloc, &mut lines, world.history().line(node).len() as u64)?;
    add_permanent(alloc, &mut lines, permanent_len(world, row))?;
    add_tentative(alloc, &mut lines, row)?;
    Ok(lines)
}

/// The node's row; `None` where nothing was stored of it.
fn row_at(rows: &[NodeRow], node: NodeId) -> Option<&NodeRow>
    ensures { option_copied result ≡ find (λ (row : NodeRow). node_eq row.node node) rows.now }
{
    rows.iter().find(|row| row.node == node)
}

fn add_count(alloc: Global, lines: &mut Vec<Vec<u8>>, count: u64) -> Result<(), AllocError>
    ensures { OnOk result (text_of lines.new.items ≡ text_of lines.old.items ++ count_text count (codes "act") ∷ []) }
{
    let mut line = Vec::new(alloc);
    push_count(&mut line, count, b"act")?;
    add_line(lines, line)
}

fn add_permanent(alloc: Global, lines: &mut Vec<Vec<u8>>, count: u64) -> Result<(), AllocError>
    ensures { OnOk result
        (text_of lines.new.items ≡ text_of lines.old.items ++ (decimal count ++ codes " permanent") ∷ []) }
{
    let mut line = Vec::new(alloc);
    push_number(&mut line, count)?;
    line.extend_from_slice(b" permanent")?;
    add_line(lines, line)
}

fn add_tentative(
    alloc: Global,
    lines: &mut Vec<Vec<u8>>,
    row: Option<&NodeRow>,
) -> Result<(), AllocError>
    ensures { OnOk result
        (text_of lines.new.items ≡ text_of lines.old.items ++ tentative_in (option_copied row.entry)) }
{
    match row {
        Some(row) => match &row.tentative {
            Some(tentative) => {
                let mut line = Vec::new(alloc);
                push_tentative(&mut line, tentative)?;
                add_line(lines, line)
            }
            None => Ok(()),
        },
        None => Ok(()),
    }
}

fn push_tentative(out: &mut Vec<u8>, tentative: &Tentative) -> Result<(), AllocError>
    ensures { OnOk result (out.new.items ≡ out.old.items ++ (decimal tentative.now.checkpoint.line_len
        ++ codes " tentative (check " ++ decimal tentative.now.instance ++ 41 ∷ [])) }
{
    push_number(out, tentative.checkpoint.line_len())?;
    out.extend_from_slice(b" tentative (check ")?;
    push_number(out, tentative.instance)?;
    out.push(b')')?;
    Ok(())
}

/// How many acts the permanent checkpoint holds: a tentative one counts from its Yes on.
fn permanent_len(world: &World<MemStore>, row: Option<&NodeRow>) -> u64
    ensures { result ≡ permanent_in world.now.state.content (option_copied row.entry) }
{
    match row {
        Some(row) => match verdict_on(world, &row.tentative) {
            Some(Verdict::Yes) => acts_of(&row.tentative),
            Some(Verdict::No | Verdict::Open) | None => acts_in(&row.permanent),
        },
        None => 0,
    }
}

/// The verdict on the check of the tentative checkpoint, if there is one.
fn verdict_on(world: &World<MemStore>, tentative: &Option<Tentative>) -> Option<Verdict>
    ensures { result ≡ verdict_on world.now.state.content tentative.now }
{
    match tentative {
        Some(tentative) => verdict_of(world, tentative.instance),
        None => None,
    }
}

fn verdict_of(world: &World<MemStore>, instance: u64) -> Option<Verdict>
    ensures { result ≡ verdict_of world.now.state.content instance }
{
    match instance_at(world.store().board(), instance) {
        Some(row) => Some(row.verdict),
        None => None,
    }
}

/// How many acts a checkpoint holds: the initial one none.
fn acts_in(checkpoint: &Option<Ckpt>) -> u64
    ensures { result ≡ acts_in checkpoint.now }
{
    match checkpoint {
        Some(checkpoint) => checkpoint.line_len(),
        None => 0,
    }
}

fn acts_of(tentative: &Option<Tentative>) -> u64
    ensures { result ≡ acts_of tentative.now }
{
    match tentative {
        Some(tentative) => tentative.checkpoint.line_len(),
        None => 0,
    }
}
