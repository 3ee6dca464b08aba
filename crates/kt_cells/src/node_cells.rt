//! What the cells of a node show.
//! Cited by cells.rt, request_cells.rt.

ghost use Rattle.std.specs.Prelude.{◌≡◌, ◌++◌, ◌∷◌, [], IfOk, OnOk, option_and_then, unwrap_or};
ghost use Rattle.std.specs.Option.{option_copied, option_map};
ghost use Rattle.kt_model.specs.State.{node as node_in};
ghost use Rattle.kt_state.specs.declared.node.Mode.TheVariants as modes;
ghost use Rattle.kt_state.specs.Node.{shard_of, worker_of};
ghost use Rattle.kt_trace.specs.Rows.{mode_at};
ghost use Rattle.kt_cells.specs.Cells.{kept_lines, mode_word, node_cells, own_cells};
ghost use Rattle.kt_cells.specs.Lines.{kept_line};
ghost use Rattle.kt_cells.specs.Texts.{cells_text, text_of};
ghost use Rattle.kt_cells.specs.auxiliary.Found.{line_if};

use crate::adding::{add_cell, add_line, add_text};
use crate::ballot_cells::part_lines;
use crate::message::push_kept;
use crate::request_cells::{request_lines, tuple_lines, waiting_lines};
use crate::saved_cells::saved_lines;
use kt_core::World;
use kt_shard::Shard;
use kt_state::{AppMessage, Mode};
use kt_store::MemStore;
use kt_tuple::NodeId;
use kt_worker::Worker;
use std::alloc::{AllocError, Global};

/// Puts the node's cells behind the others: its mode, what it takes part in, of a worker its request, of a shard its
/// tuples and who waits, what it keeps back, and what it remembers.
pub(crate) fn push_node_cells(
    alloc: Global,
    cells: &mut Vec<Vec<Vec<u8>>>,
    world: &World<MemStore>,
    node: NodeId,
) -> Result<(), AllocError>
    ensures { OnOk result
        (cells_text cells.new.items ≡ cells_text cells.old.items ++ node_cells world.now.state node) }
{
    add_cell(cells, mode_lines(alloc, world, node)?)?;
    add_cell(cells, part_lines(alloc, world, node)?)?;
    push_own_cells(alloc, cells, world, node)?;
    add_cell(cells, kept_lines(alloc, world, node)?)?;
    add_cell(cells, saved_lines(alloc, world, node)?)?;
    Ok(())
}

/// Of a worker its request, of a shard its tuples and who waits.
fn push_own_cells(
    alloc: Global,
    cells: &mut Vec<Vec<Vec<u8>>>,
    world: &World<MemStore>,
    node: NodeId,
) -> Result<(), AllocError>
    ensures { OnOk result
        (cells_text cells.new.items ≡ cells_text cells.old.items ++ own_cells world.now.state node) }
{
    match node {
        NodeId::Worker(_) => {
            add_cell(cells, request_lines(alloc, world, node)?)?;
            Ok(())
        }
        NodeId::Shard(_) => {
            let shard = shard_at(world, node);
            add_cell(cells, tuple_lines(alloc, shard)?)?;
            add_cell(cells, waiting_lines(alloc, shard)?)?;
            Ok(())
        }
    }
}

/// The shard that the node is, in whatever mode it is but down.
fn shard_at(world: &World<MemStore>, node: NodeId) -> Option<&Shard>
    ensures { option_map (λ y. y.now.state) result ≡ option_and_then shard_of (node_in world.now.state node) }
{
    match world.node(node) {
        Some(found) => found.shard(),
        None => None,
    }
}

/// The worker that the node is, in whatever mode it is but down.
pub(crate) fn worker_at(world: &World<MemStore>, node: NodeId) -> Option<&Worker>
    ensures { option_copied result ≡ option_and_then worker_of (node_in world.now.state node) }
{
    match world.node(node) {
        Some(found) => found.worker(),
        None => None,
    }
}

fn mode_lines(
    alloc: Global,
    world: &World<MemStore>,
    node: NodeId,
) -> Result<Vec<Vec<u8>>, AllocError>
    ensures { IfOk result (λ lines. text_of lines.items ≡ mode_word (mode_at world.now.state node) ∷ []) }
{
    let mut lines = Vec::new(alloc);
    add_text(alloc, &mut lines, mode_word(world.mode(node)))?;
    Ok(lines)
}

/// The word for a mode; a node that is not there is down.
fn mode_word(mode: Option<Mode>) -> &'static [u8]
    ensures { result.now ≡ mode_word (unwrap_or mode modes.Down) }
{
    match mode {
        Some(Mode::Up) => b"up",
        Some(Mode::Held) => b"held",
        Some(Mode::Rolling) => b"rolling back",
        Some(Mode::Down) | None => b"down",
    }
}

/// What the node keeps back, in order of arrival.
fn kept_lines(
    alloc: Global,
    world: &World<MemStore>,
    node: NodeId,
) -> Result<Vec<Vec<u8>>, AllocError>
    ensures { IfOk result (λ lines. text_of lines.items ≡ kept_lines world.now.state node) }
{
    let mut lines = Vec::new(alloc);
    for place in 0..world.kept_len(node) {
        add_kept(alloc, &mut lines, world.kept_at(node, place))?;
    }
    Ok(lines)
}

/// Puts the line of the message behind the others, where there is one.
fn add_kept(
    alloc: Global,
    lines: &mut Vec<Vec<u8>>,
    kept: Option<&(NodeId, AppMessage)>,
) -> Result<(), AllocError>
    ensures { OnOk result (text_of lines.new.items
        ≡ text_of lines.old.items ++ line_if (λ x. kept_line x.0 x.1) (option_copied kept.entry)) }
{
    if let Some((from, app)) = kept {
        let mut line = Vec::new(alloc);
        push_kept(&mut line, *from, app)?;
        add_line(lines, line)?;
    }
    Ok(())
}
