//! What the cells of a page show of a world: each is a list of lines of text.
//! Cited by other crates.

ghost use Rattle.std.specs.Prelude.{◌≡◌, ◌++◌, IfOk, OnOk, map};
ghost use Rattle.std.specs.List.{flat_map};
ghost use Rattle.std.specs.Option.{option_copied};
ghost use Rattle.kt_model.specs.State.{link};
ghost use Rattle.kt_cells.specs.Cells.{cells_at, cells_of, way_cells, ways_from};
ghost use Rattle.kt_cells.specs.Lines.{message_line};
ghost use Rattle.kt_cells.specs.Texts.{cells_text, text_of};
ghost use Rattle.kt_cells.specs.auxiliary.Found.{line_if};

use crate::adding::{add_cell, add_line};
use crate::message::push_message;
use crate::node_cells::push_node_cells;
use kt_core::World;
use kt_state::Message;
use kt_store::MemStore;
use kt_tuple::{ALL_NODES, NodeId};
use std::alloc::{AllocError, Global};

/// The cells of all nodes and then of all links, each in its order.
pub fn cells_of(alloc: Global, world: &World<MemStore>) -> Result<Vec<Vec<Vec<u8>>>, AllocError>
    ensures { IfOk result (λ cells. cells_text cells.items ≡ cells_of world.now.state) }
{
    let mut cells = Vec::new(alloc);
    push_nodes(alloc, &mut cells, world, &ALL_NODES)?;
    push_all_ways(alloc, &mut cells, world, &ALL_NODES)?;
    Ok(cells)
}

/// Those of these nodes, of each that is in the scene.
fn push_nodes(
    alloc: Global,
    cells: &mut Vec<Vec<Vec<u8>>>,
    world: &World<MemStore>,
    nodes: &[NodeId],
) -> Result<(), AllocError>
    ensures { OnOk result
        (cells_text cells.new.items ≡ cells_text cells.old.items ++ flat_map (cells_at world.now.state) nodes.now) }
{
    for node in nodes {
        push_cells_at(alloc, cells, world, *node)?;
    }
    Ok(())
}

/// Those of the node, where it is in the scene.
fn push_cells_at(
    alloc: Global,
    cells: &mut Vec<Vec<Vec<u8>>>,
    world: &World<MemStore>,
    node: NodeId,
) -> Result<(), AllocError>
    ensures { OnOk result (cells_text cells.new.items ≡ cells_text cells.old.items ++ cells_at world.now.state node) }
{
    if world.scene().has(node) {
        push_node_cells(alloc, cells, world, node)
    } else {
        Ok(())
    }
}

/// Those of the links from these nodes.
fn push_all_ways(
    alloc: Global,
    cells: &mut Vec<Vec<Vec<u8>>>,
    world: &World<MemStore>,
    nodes: &[NodeId],
) -> Result<(), AllocError>
    ensures { OnOk result
        (cells_text cells.new.items ≡ cells_text cells.old.items ++ flat_map (ways_from world.now.state) nodes.now) }
{
    for from in nodes {
        push_ways(alloc, cells, world, *from, &ALL_NODES)?;
    }
    Ok(())
}

/// Those of the links from the node to these.
fn push_ways(
    alloc: Global,
    cells: &mut Vec<Vec<Vec<u8>>>,
    world: &World<MemStore>,
    from: NodeId,
    nodes: &[NodeId],
) -> Result<(), AllocError>
    ensures { OnOk result (cells_text cells.new.items
        ≡ cells_text cells.old.items ++ flat_map (way_cells world.now.state from) nodes.now) }
{
    for to in nodes {
        push_way(alloc, cells, world, from, *to)?;
    }
    Ok(())
}

/// The one of the link from the one to the other, where they are neighbours.
fn push_way(
    alloc: Global,
    cells: &mut Vec<Vec<Vec<u8>>>,
    world: &World<MemStore>,
    from: NodeId,
    to: NodeId,
) -> Result<(), AllocError>
    ensures { OnOk result
        (cells_text cells.new.items ≡ cells_text cells.old.items ++ way_cells world.now.state from to) }
{
    if world.scene().are_neighbours(from, to) {
        add_cell(cells, way_lines(alloc, world, from, to)?)?;
    }
    Ok(())
}

/// What is on its way from the one to the other, a message a line, the first to arrive first.
fn way_lines(
    alloc: Global,
    world: &World<MemStore>,
    from: NodeId,
    to: NodeId,
) -> Result<Vec<Vec<u8>>, AllocError>
    ensures { IfOk result (λ lines. text_of lines.items ≡ map message_line (link world.now.state from to)) }
{
    let mut lines = Vec::new(alloc);
    for place in 0..world.link_len(from, to) {
        add_message(alloc, &mut lines, world.link_at(from, to, place))?;
    }
    Ok(lines)
}

/// Puts the line of the message behind the others, where there is one.
fn add_message(
    alloc: Global,
    lines: &mut Vec<Vec<u8>>,
    message: Option<&Message>,
) -> Result<(), AllocError>
    ensures { OnOk result
        (text_of lines.new.items ≡ text_of lines.old.items ++ line_if message_line (option_copied message.entry)) }
{
    if let Some(message) = message {
        let mut line = Vec::new(alloc);
        push_message(&mut line, message)?;
        add_line(lines, line)?;
    }
    Ok(())
}
