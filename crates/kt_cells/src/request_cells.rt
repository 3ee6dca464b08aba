//! What is shown of a worker's request, and of a shard's tuples and of those who wait there.
//! Cited by node_cells.rt.

ghost use Rattle.std.specs.Prelude.{◌≡◌, ◌++◌, ◌∷◌, IfOk, OnOk, codes, decimal, map, option_and_then};
ghost use Rattle.std.specs.List.{flat_map};
ghost use Rattle.std.specs.Option.{option_copied, option_map};
ghost use Rattle.kt_tuple.specs.Spelling.{node_text, op_text, tuple_text};
ghost use Rattle.kt_scenario.specs.Scene.{script_in};
ghost use Rattle.kt_model.specs.State.{node as node_in};
ghost use Rattle.kt_state.specs.Node.{worker_of};
ghost use Rattle.kt_cells.specs.Cells.{next_in, next_line, numbered_text, request_line, request_lines};
ghost use Rattle.kt_cells.specs.Cells.{tuple_lines, waiting_lines, waiting_of, waiting_text};
ghost use Rattle.kt_cells.specs.Texts.{text_of};
ghost use Rattle.kt_cells.specs.auxiliary.Found.{line_if};

use crate::adding::add_line;
use crate::node_cells::worker_at;
use kt_core::World;
use kt_script::Script;
use kt_shard::{Request, Shard};
use kt_space::Bag;
use kt_store::MemStore;
use kt_tuple::writing::push_number;
use kt_tuple::{ALL_NODES, NodeId, Op, Tuple};
use kt_worker::Worker;
use std::alloc::{AllocError, Global};

/// What the worker waits for, or what it asks next; nothing while it is down.
pub(crate) fn request_lines(
    alloc: Global,
    world: &World<MemStore>,
    node: NodeId,
) -> Result<Vec<Vec<u8>>, AllocError>
    ensures { IfOk result (λ lines. text_of lines.items ≡ request_lines
        (script_in world.now.state.scene node) (option_and_then worker_of (node_in world.now.state node))) }
{
    let mut lines = Vec::new(alloc);
    if let Some(worker) = worker_at(world, node) {
        add_line(
            &mut lines,
            request_line(alloc, world.scene().script_of(node), worker)?,
        )?;
    }
    Ok(lines)
}

/// What is unanswered, and else what comes next in the script.
fn request_line(
    alloc: Global,
    script: Option<&Script>,
    worker: &Worker,
) -> Result<Vec<u8>, AllocError>
    ensures { IfOk result (λ line. line.items ≡ request_line (option_copied script.entry) worker.now worker.now.asked) }
{
    match worker.asked() {
        Some(op) => waited_line(alloc, worker.number(), op),
        None => next_line(alloc, next_of(alloc, script, worker)?),
    }
}

fn waited_line(alloc: Global, number: u64, op: &Op) -> Result<Vec<u8>, AllocError>
    ensures { IfOk result (λ line. line.items ≡ codes "waits for " ++ numbered_text number op.now) }
{
    let mut line = Vec::new(alloc);
    line.extend_from_slice(b"waits for ")?;
    push_numbered(&mut line, number, op)?;
    Ok(line)
}

/// What the worker would ask next.
fn next_of(
    alloc: Global,
    script: Option<&Script>,
    worker: &Worker,
) -> Result<Option<(u64, Op)>, AllocError>
    ensures { IfOk result (λ next. next ≡ option_and_then (next_in worker.now) (option_copied script.entry)) }
{
    match script {
        Some(script) => {
            let mut copy = worker.copy(alloc)?;
            copy.issue(alloc, script)
        }
        None => Ok(None),
    }
}

fn next_line(alloc: Global, next: Option<(u64, Op)>) -> Result<Vec<u8>, AllocError>
    ensures { IfOk result (λ line. line.items ≡ next_line next) }
{
    let mut line = Vec::new(alloc);
    match next {
        Some((number, op)) => {
            line.extend_from_slice(b"next ")?;
            push_numbered(&mut line, number, &op)?;
            Ok(line)
        }
        None => {
            line.extend_from_slice(b"script done")?;
            Ok(line)
        }
    }
}

/// The number of a request, and what it asks for.
fn push_numbered(out: &mut Vec<u8>, number: u64, op: &Op) -> Result<(), AllocError>
    ensures { OnOk result (out.new.items ≡ out.old.items ++ numbered_text number op.now) }
{
    push_number(out, number)?;
    out.extend_from_slice(b": ")?;
    op.write_to(out)
}

/// The shard's tuples in order of arrival, one a line.
pub(crate) fn tuple_lines(alloc: Global, shard: Option<&Shard>) -> Result<Vec<Vec<u8>>, AllocError>
    ensures { IfOk result (λ lines. text_of lines.items ≡ tuple_lines (option_map (λ y. y.now.state) shard.entry)) }
{
    match shard {
        Some(shard) => bag_lines(alloc, shard.bag()),
        None => Ok(Vec::new(alloc)),
    }
}

fn bag_lines(alloc: Global, bag: &Bag) -> Result<Vec<Vec<u8>>, AllocError>
    ensures { IfOk result (λ lines. text_of lines.items ≡ map tuple_text bag.now.tuples) }
{
    let mut lines = Vec::new(alloc);
    for place in 0..bag.len() {
        add_tuple(alloc, &mut lines, bag.get(place))?;
    }
    Ok(lines)
}

/// Puts the line of the tuple behind the others, where there is one.
fn add_tuple(
    alloc: Global,
    lines: &mut Vec<Vec<u8>>,
    tuple: Option<&Tuple>,
) -> Result<(), AllocError>
    ensures { OnOk result
        (text_of lines.new.items ≡ text_of lines.old.items ++ line_if tuple_text (option_copied tuple.entry)) }
{
    if let Some(tuple) = tuple {
        let mut line = Vec::new(alloc);
        tuple.write_to(&mut line)?;
        add_line(lines, line)?;
    }
    Ok(())
}

/// Who waits at the shard, and for what.
pub(crate) fn waiting_lines(
    alloc: Global,
    shard: Option<&Shard>,
) -> Result<Vec<Vec<u8>>, AllocError>
    ensures { IfOk result (λ lines. text_of lines.items ≡ waiting_lines (option_map (λ y. y.now.state) shard.entry)) }
{
    let mut lines = Vec::new(alloc);
    match shard {
        Some(shard) => {
            add_all_waiting(alloc, &mut lines, shard, &ALL_NODES)?;
            Ok(lines)
        }
        None => Ok(lines),
    }
}

fn add_all_waiting(
    alloc: Global,
    lines: &mut Vec<Vec<u8>>,
    shard: &Shard,
    nodes: &[NodeId],
) -> Result<(), AllocError>
    ensures { OnOk result
        (text_of lines.new.items ≡ text_of lines.old.items ++ flat_map (waiting_of shard.now.state) nodes.now) }
{
    for node in nodes {
        add_waiting(alloc, lines, shard, *node)?;
    }
    Ok(())
}

/// Puts the line of the worker behind the others, where it waits at the shard.
fn add_waiting(
    alloc: Global,
    lines: &mut Vec<Vec<u8>>,
    shard: &Shard,
    node: NodeId,
) -> Result<(), AllocError>
    ensures { OnOk result (text_of lines.new.items ≡ text_of lines.old.items ++ waiting_of shard.now.state node) }
{
    match node {
        NodeId::Worker(worker) => add_request(alloc, lines, node, shard.waiting(worker)),
        NodeId::Shard(_) => Ok(()),
    }
}

/// Puts the line of the request behind the others, where there is one.
fn add_request(
    alloc: Global,
    lines: &mut Vec<Vec<u8>>,
    node: NodeId,
    request: Option<&Request>,
) -> Result<(), AllocError>
    ensures { OnOk result
        (text_of lines.new.items ≡ text_of lines.old.items ++ waiting_text node (option_copied request.entry)) }
{
    match request {
        Some(request) => {
            let mut line = Vec::new(alloc);
            push_request(&mut line, node, request)?;
            add_line(lines, line)
        }
        None => Ok(()),
    }
}

/// Which request it is, and what it asks for: `w1.3 in ("a", ?int)`.
fn push_request(out: &mut Vec<u8>, node: NodeId, request: &Request) -> Result<(), AllocError>
    ensures { OnOk result (out.new.items
        ≡ out.old.items ++ (node_text node ++ 46 ∷ decimal request.now.number ++ 32 ∷ op_text request.now.op)) }
{
    node.write_to(out)?;
    out.push(b'.')?;
    push_number(out, request.number)?;
    out.push(b' ')?;
    request.op.write_to(out)
}
