//! What is shown of the check or rollback in which a node takes part.
//! Cited by node_cells.rt, saved_cells.rt.

ghost use Rattle.std.specs.Prelude.{◌≡◌, ◌++◌, ◌∷◌, ◌==◌, [], IfOk, OnOk, Some, codes, filter};
ghost use Rattle.std.specs.List.{find, flat_map};
ghost use Rattle.std.specs.Option.{option_copied};
ghost use Rattle.kt_tuple.specs.Node.{all_nodes};
ghost use Rattle.kt_store.specs.Content.{instance_row};
ghost use Rattle.kt_store.specs.declared.rows.InstanceRow.{InstanceRow};
ghost use Rattle.kt_vote.specs.Poll.{is_awaited};
ghost use Rattle.kt_model.specs.ReadSet.{poll_at};
ghost use Rattle.kt_cells.specs.Cells.{asked_text, awaited_lines, begun_text, name_behind, names_text};
ghost use Rattle.kt_cells.specs.Cells.{part_lines, purpose_word};
ghost use Rattle.kt_cells.specs.Texts.{text_of};

use crate::adding::{add_line, add_text_if};
use kt_core::World;
use kt_store::{InstanceRow, MemStore, Purpose};
use kt_tuple::writing::push_number;
use kt_tuple::{ALL_NODES, NodeId};
use kt_vote::{Asker, Ballot};
use std::alloc::{AllocError, Global};

/// In which check or rollback the node takes part, by whom it was asked, whose votes are missing, and what came.
pub(crate) fn part_lines(
    alloc: Global,
    world: &World<MemStore>,
    node: NodeId,
) -> Result<Vec<Vec<u8>>, AllocError>
    ensures { IfOk result (λ lines.
        text_of lines.items ≡ part_lines world.now.state.content (poll_at world.now.state node)) }
{
    match world.ballot(node) {
        Some(ballot) => ballot_lines(alloc, world, ballot),
        None => Ok(Vec::new(alloc)),
    }
}

fn ballot_lines(
    alloc: Global,
    world: &World<MemStore>,
    ballot: &Ballot,
) -> Result<Vec<Vec<u8>>, AllocError>
    ensures { IfOk result (λ lines.
        text_of lines.items ≡ part_lines world.now.state.content (Some ballot.now)) }
{
    let mut lines = Vec::new(alloc);
    let line = ballot_line(alloc, world, ballot)?;
    add_line(&mut lines, line)?;
    add_awaited(alloc, &mut lines, ballot)?;
    add_text_if(alloc, &mut lines, ballot.refused(), b"a vote was no")?;
    add_text_if(alloc, &mut lines, ballot.has_voted(), b"has voted")?;
    Ok(lines)
}

/// Which check or rollback it is, and by whom the node was asked.
fn ballot_line(
    alloc: Global,
    world: &World<MemStore>,
    ballot: &Ballot,
) -> Result<Vec<u8>, AllocError>
    ensures { IfOk result (λ line. line.items
        ≡ begun_text (instance_row world.now.state.content ballot.now.instance) ++ asked_text ballot.now.parent) }
{
    let mut line = Vec::new(alloc);
    push_begun(&mut line, world, ballot.instance())?;
    push_asked(&mut line, ballot.parent())?;
    Ok(line)
}

/// By whom the node was asked.
fn push_asked(out: &mut Vec<u8>, asker: Option<Asker>) -> Result<(), AllocError>
    ensures { OnOk result (out.new.items ≡ out.old.items ++ asked_text asker) }
{
    let Some(asker) = asker else {
        return Ok(());
    };
    out.extend_from_slice(b", asked by ")?;
    asker.node.write_to(out)
}

/// Whether it is a check or a rollback, its number, and who began it.
fn push_begun(out: &mut Vec<u8>, world: &World<MemStore>, instance: u64) -> Result<(), AllocError>
    ensures { OnOk result
        (out.new.items ≡ out.old.items ++ begun_text (instance_row world.now.state.content instance)) }
{
    match instance_at(world.store().board(), instance) {
        Some(row) => push_instance(out, row),
        None => Ok(()),
    }
}

/// What the board has of the instance; `None` where it was never begun.
pub(crate) fn instance_at(board: &[InstanceRow], instance: u64) -> Option<&InstanceRow>
    ensures { option_copied result ≡ find (λ (row : InstanceRow). row.instance == instance) board.now }
{
    board.iter().find(|row| row.instance == instance)
}

fn push_instance(out: &mut Vec<u8>, row: &InstanceRow) -> Result<(), AllocError>
    ensures { OnOk result (out.new.items ≡ out.old.items ++ begun_text (Some row.now)) }
{
    out.extend_from_slice(purpose_word(row.purpose))?;
    push_number(out, row.instance)?;
    out.extend_from_slice(b" of ")?;
    row.initiator.write_to(out)
}

fn purpose_word(purpose: Purpose) -> &'static [u8]
    ensures { result.now ≡ purpose_word purpose }
{
    match purpose {
        Purpose::Check => b"check ",
        Purpose::Rollback => b"rollback ",
    }
}

/// Puts a line with those whose votes are missing behind the others, where there are such.
fn add_awaited(alloc: Global, lines: &mut Vec<Vec<u8>>, ballot: &Ballot) -> Result<(), AllocError>
    ensures { OnOk result (text_of lines.new.items
        ≡ text_of lines.old.items ++ awaited_lines (filter (is_awaited ballot.now) all_nodes)) }
{
    let awaited = awaited_of(alloc, ballot, &ALL_NODES)?;
    add_missing(alloc, lines, &awaited)?;
    Ok(())
}

fn add_missing(alloc: Global, lines: &mut Vec<Vec<u8>>, nodes: &[NodeId]) -> Result<(), AllocError>
    ensures { OnOk result (text_of lines.new.items ≡ text_of lines.old.items ++ awaited_lines nodes.now) }
{
    match nodes.split_first() {
        Some(_) => add_waits(alloc, lines, nodes),
        None => Ok(()),
    }
}

fn add_waits(alloc: Global, lines: &mut Vec<Vec<u8>>, nodes: &[NodeId]) -> Result<(), AllocError>
    ensures { OnOk result (text_of lines.new.items
        ≡ text_of lines.old.items ++ (codes "waits for the votes of " ++ names_text nodes.now) ∷ []) }
{
    let mut line = Vec::new(alloc);
    line.extend_from_slice(b"waits for the votes of ")?;
    push_names(&mut line, nodes)?;
    add_line(lines, line)
}

/// Those of these nodes whose votes are missing.
fn awaited_of(alloc: Global, ballot: &Ballot, nodes: &[NodeId]) -> Result<Vec<NodeId>, AllocError>
    ensures { IfOk result (λ awaited. awaited.items ≡ filter (is_awaited ballot.now) nodes.now) }
{
    let mut awaited = Vec::new(alloc);
    for node in nodes {
        if ballot.awaits(*node) {
            awaited.push(*node)?;
        }
    }
    Ok(awaited)
}

/// Names with a comma between each two.
fn push_names(out: &mut Vec<u8>, nodes: &[NodeId]) -> Result<(), AllocError>
    ensures { OnOk result (out.new.items ≡ out.old.items ++ names_text nodes.now) }
{
    let Some((first, others)) = nodes.split_first() else {
        return Ok(());
    };
    first.write_to(out)?;
    push_others(out, others)
}

/// Names, each behind a comma.
fn push_others(out: &mut Vec<u8>, nodes: &[NodeId]) -> Result<(), AllocError>
    ensures { OnOk result (out.new.items ≡ out.old.items ++ flat_map name_behind nodes.now) }
{
    for node in nodes {
        out.extend_from_slice(b", ")?;
        node.write_to(out)?;
    }
    Ok(())
}
