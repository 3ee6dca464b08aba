//! The tables of a page: each cell with what it shows.
//! Cited by page.rt.

use crate::fate::{Begun, Fate, Fates};
use crate::parts::{Part, push_parts};
use kt_core::Scene;
use kt_story::ARROW;
use kt_tuple::{ALL_NODES, NodeId};
use std::alloc::AllocError;

const WORKER_HEADS: &[&str] = &[
    "Node",
    "Mode",
    "Takes part in",
    "Request",
    "Held back",
    "Remembers",
];

const SHARD_HEADS: &[&str] = &[
    "Node",
    "Mode",
    "Takes part in",
    "Tuples",
    "Who waits",
    "Held back",
    "Remembers",
];

const WAY_HEADS: &[&str] = &["Link", "Messages, the first to arrive first"];

const SERVICE_HEADS: &[&str] = &["Request", "Step", "Shard", "Service", "So far"];

const INSTANCE_HEADS: &[&str] = &["Number", "Kind", "Of", "Step", "Verdict"];

/// The cells of a table that is written: all of the page, and how many of them are written.
#[derive(Clone, Copy)]
struct Left<'a> {
    cells: &'a [Vec<Vec<u8>>],
    next: usize,
}

/// All tables, first the one with the last cell, which counts the services.
pub(crate) fn push_tables(
    out: &mut Vec<u8>,
    scene: &Scene,
    fates: &Fates,
    cells: &[Vec<Vec<u8>>],
) -> Result<(), AllocError> {
    push_so_far(out, cells)?;
    let mut left = Left { cells, next: 0 };
    push_workers(out, scene, &mut left)?;
    push_shards(out, scene, &mut left)?;
    push_ways(out, scene, &mut left)?;
    push_services(out, &fates.services, &mut left)?;
    push_instances(out, &fates.instances, &mut left)
}

/// The table with the last cell.
fn push_so_far(out: &mut Vec<u8>, cells: &[Vec<Vec<u8>>]) -> Result<(), AllocError> {
    let mut last = Left {
        cells,
        next: cells.len().saturating_sub(1),
    };
    out.extend_from_slice(b"<table><caption>So far</caption><tbody><tr>")?;
    push_cell(out, &mut last)?;
    out.extend_from_slice(b"</tr></tbody></table>\n")
}

/// The table of the workers.
fn push_workers(out: &mut Vec<u8>, scene: &Scene, left: &mut Left<'_>) -> Result<(), AllocError> {
    push_begin(out, b"Workers", WORKER_HEADS)?;
    for node in &ALL_NODES {
        if scene.has_worker(*node) {
            push_node(out, *node, 5, left)?;
        }
    }
    push_end(out)
}

/// The table of the shards.
fn push_shards(out: &mut Vec<u8>, scene: &Scene, left: &mut Left<'_>) -> Result<(), AllocError> {
    push_begin(out, b"Shards", SHARD_HEADS)?;
    for node in &ALL_NODES {
        if scene.has_shard(*node) {
            push_node(out, *node, 6, left)?;
        }
    }
    push_end(out)
}

/// The row of a node, with so many cells.
fn push_node(
    out: &mut Vec<u8>,
    node: NodeId,
    count: usize,
    left: &mut Left<'_>,
) -> Result<(), AllocError> {
    let name = [
        Part::Text(b"<tr><th scope=\"row\">"),
        Part::Node(node),
        Part::Text(b"</th>"),
    ];
    push_parts(out, &name)?;
    for _ in 0..count {
        push_cell(out, left)?;
    }
    out.extend_from_slice(b"</tr>\n")
}

/// The table of the links.
fn push_ways(out: &mut Vec<u8>, scene: &Scene, left: &mut Left<'_>) -> Result<(), AllocError> {
    push_begin(out, b"On their way", WAY_HEADS)?;
    for from in &ALL_NODES {
        push_ways_from(out, scene, *from, left)?;
    }
    push_end(out)
}

/// The rows of the links that begin at this node.
fn push_ways_from(
    out: &mut Vec<u8>,
    scene: &Scene,
    from: NodeId,
    left: &mut Left<'_>,
) -> Result<(), AllocError> {
    for to in &ALL_NODES {
        if scene.are_neighbours(from, *to) {
            push_way(out, from, *to, left)?;
        }
    }
    Ok(())
}

/// The row of a link.
fn push_way(
    out: &mut Vec<u8>,
    from: NodeId,
    to: NodeId,
    left: &mut Left<'_>,
) -> Result<(), AllocError> {
    let about = [
        Part::Node(from),
        Part::Escaped(&[b' ', ARROW, b' ']),
        Part::Node(to),
        Part::Text(b"</th>"),
    ];
    push_rare(out, &about, left)
}

/// The table of the services.
fn push_services(
    out: &mut Vec<u8>,
    services: &[Fate],
    left: &mut Left<'_>,
) -> Result<(), AllocError> {
    push_begin(out, b"Services", SERVICE_HEADS)?;
    for service in services {
        push_service(out, service, left)?;
    }
    push_end(out)
}

/// The row of a service.
fn push_service(out: &mut Vec<u8>, service: &Fate, left: &mut Left<'_>) -> Result<(), AllocError> {
    let about = [
        Part::Escaped(&service.name),
        Part::Text(b"</th><td>"),
        Part::Number(service.step),
        Part::Text(b"</td><td>"),
        Part::Node(service.node),
        Part::Text(b"</td><td>"),
        Part::Escaped(&service.text),
        Part::Text(b"</td>"),
    ];
    push_rare(out, &about, left)
}

/// The table of the checks and rollbacks.
fn push_instances(
    out: &mut Vec<u8>,
    instances: &[Begun],
    left: &mut Left<'_>,
) -> Result<(), AllocError> {
    push_begin(out, b"Checks and rollbacks", INSTANCE_HEADS)?;
    for begun in instances {
        push_begun(out, begun, left)?;
    }
    push_end(out)
}

/// The row of a check or a rollback.
fn push_begun(out: &mut Vec<u8>, begun: &Begun, left: &mut Left<'_>) -> Result<(), AllocError> {
    let kind = if begun.is_check {
        b"</th><td>check</td><td>".as_slice()
    } else {
        b"</th><td>rollback</td><td>".as_slice()
    };
    let about = [
        Part::Number(begun.instance),
        Part::Text(kind),
        Part::Node(begun.node),
        Part::Text(b"</td><td>"),
        Part::Number(begun.step),
        Part::Text(b"</td>"),
    ];
    push_rare(out, &about, left)
}

/// The begin of a table, with its caption and the heads of its columns.
fn push_begin(
    out: &mut Vec<u8>,
    caption: &'static [u8],
    heads: &'static [&'static str],
) -> Result<(), AllocError> {
    let parts = [
        Part::Text(b"<table><caption>"),
        Part::Text(caption),
        Part::Text(b"</caption>\n<thead><tr>"),
        Part::Each(b"<th scope=\"col\">", heads, b"</th>"),
        Part::Text(b"</tr></thead>\n<tbody>\n"),
    ];
    push_parts(out, &parts)
}

fn push_end(out: &mut Vec<u8>) -> Result<(), AllocError> {
    out.extend_from_slice(b"</tbody></table>\n")
}

/// A row that is hidden while its cell, the next one, shows nothing. These parts stand before the cell.
fn push_rare(out: &mut Vec<u8>, parts: &[Part<'_>], left: &mut Left<'_>) -> Result<(), AllocError> {
    let begin = if next_lines(left).is_empty() {
        b"<tr data-rare=\"1\" hidden><th scope=\"row\">".as_slice()
    } else {
        b"<tr data-rare=\"1\"><th scope=\"row\">".as_slice()
    };
    out.extend_from_slice(begin)?;
    push_parts(out, parts)?;
    push_cell(out, left)?;
    out.extend_from_slice(b"</tr>\n")
}

/// The next cell, a line below the other.
fn push_cell(out: &mut Vec<u8>, left: &mut Left<'_>) -> Result<(), AllocError> {
    let parts = [
        Part::Text(b"<td id=\"c"),
        Part::Number(left.next as u64),
        Part::Text(b"\">"),
        Part::Lines(next_lines(left)),
        Part::Text(b"</td>"),
    ];
    left.next = left.next.saturating_add(1);
    push_parts(out, &parts)
}

/// What the next cell shows.
fn next_lines<'a>(left: &Left<'a>) -> &'a [Vec<u8>] {
    match left.cells.get(left.next) {
        Some(lines) => lines,
        None => &[],
    }
}
