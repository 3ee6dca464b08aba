//! What a node sends in a step: what is new on its links.
//! Cited by glimpse.rt.

ghost use Rattle.std.specs.Prelude.{◌≡◌, ◌++◌, [], ◌∷◌, IfOk, OnOk, map};
ghost use Rattle.std.specs.List.{flat_map};
ghost use Rattle.kt_trace.specs.auxiliary.Glimpses.{new_on, way_to, ways_from};

use crate::copying::copy_message;
use crate::reading::{link_at, link_len};
use kt_core::World;
use kt_state::Outbox;
use kt_store::MemStore;
use kt_tuple::{ALL_NODES, NodeId};
use std::alloc::{AllocError, Global};
use std::marker::Model;

/// Nodes, and how many messages were on their way to each.
#[derive(Drop)]
pub(crate) struct Ways {
    counts: Vec<(NodeId, usize)>,
}

impl Model for Ways {
    ghost use Rattle.std.specs.Prelude.{List, ℕ};
    ghost use Rattle.kt_tuple.specs.declared.node.NodeId.{NodeId as Name};

    ghost Value = { List (Name × ℕ) };

    ghost view = { λ w. w.counts.items };
}

impl Ways {
    /// How many messages are on their way from the node to each other.
    pub(crate) fn of(
        alloc: Global,
        world: &World<MemStore>,
        node: NodeId,
    ) -> Result<Ways, AllocError>
        ensures { IfOk result (λ w. w ≡ ways_from world.now.state node) }
    {
        let counts = counts_to(alloc, world, node, &ALL_NODES)?;
        Ok(Ways { counts })
    }

    /// What came to the links since then, in the order of the nodes and then of sending.
    pub(crate) fn sent_since(
        &self,
        alloc: Global,
        world: &World<MemStore>,
        node: NodeId,
    ) -> Result<Outbox, AllocError>
        ensures { IfOk result (λ sent. sent ≡ flat_map (new_on world.now.state node) self.now) }
    {
        let mut sent = Outbox::empty(alloc);
        for way in &self.counts {
            let (to, count) = *way;
            add_from(alloc, &mut sent, world, node, to, count)?;
        }
        Ok(sent)
    }
}

/// For each of these nodes how many messages are on their way to it from the one.
fn counts_to(
    alloc: Global,
    world: &World<MemStore>,
    from: NodeId,
    nodes: &[NodeId],
) -> Result<Vec<(NodeId, usize)>, AllocError>
    ensures { IfOk result (λ counts. counts.items ≡ map (way_to world.now.state from) nodes.now) }
{
    let mut counts = Vec::new(alloc);
    for to in nodes {
        counts.push((*to, link_len(world, from, *to)))?;
    }
    Ok(counts)
}

/// Puts the messages on the link from this place on behind the others.
fn add_from(
    alloc: Global,
    sent: &mut Outbox,
    world: &World<MemStore>,
    from: NodeId,
    to: NodeId,
    place: usize,
) -> Result<(), AllocError>
    ensures { OnOk result (sent.new ≡ sent.old ++ new_on world.now.state from (to, place)) }
{
    if link_len(world, from, to) <= place {
        return Ok(());
    }
    match link_at(world, from, to, place) {
        Some(message) => {
            sent.add(to, copy_message(alloc, message)?)?;
            add_from(alloc, sent, world, from, to, place + 1)
        }
        None => Ok(()),
    }
}
