//! What a store in memory holds: the rows of nodes, and the board.
//! Cited by crossing.rt, memory.rt.

ghost use Rattle.std.specs.Prelude.{◌≡◌, ◌+◌, OnOk, OnErr, IfOk};
ghost use Rattle.std.specs.Prelude.{◌<◌, ◌≤◌, ◌==◌, ◌&&◌};
ghost use Rattle.std.specs.Option.{option_copied};
ghost use Rattle.std.specs.List.{find};
ghost use Rattle.kt_tuple.specs.declared.node.NodeId.{NodeId};
ghost use Rattle.kt_tuple.specs.Node.{node_eq};
ghost use Rattle.kt_store.specs.declared.instance_row.Opened.{Opened};
ghost use Rattle.kt_store.specs.declared.rows.NodeRow.{NodeRow};
ghost use Rattle.kt_store.specs.declared.rows.InstanceRow.{InstanceRow};
ghost use Rattle.kt_store.specs.Content.{row_of, verdict_of, initiator_of, open_of, next_instance};
ghost use Rattle.kt_store.specs.Proper.{IsBoard};
ghost use Rattle.kt_store.specs.auxiliary.Rising.{IsNumbered, opened};
ghost use Rattle.kt_store.specs.Content.{is_fresh, greatest, nodes_in, permanent_header, tentative_header};
ghost use Rattle.kt_store.specs.Proper.{IsProper};
ghost use Rattle.kt_store.specs.Changes.{decided, opening, storing};
ghost use Rattle.kt_store.specs.auxiliary.Row.{changed, IsWithin};

use crate::change::{Change, change_row};
use crate::instance_row::{Opened, add_instance_row, instance_row_at, opened_at, place_of};
use crate::rows::{InstanceRow, NodeRow, Purpose, Tentative, TentativeHeader, Verdict};
use kt_ckpt::{Ckpt, CkptHeader};
use kt_tuple::NodeId;
use std::alloc::{AllocError, Global};
use std::marker::Model;

/// The rows of nodes and the board, with no count of the memory that was refused.
#[derive(Debug, Drop)]
pub(crate) struct Contents {
    nodes: Vec<NodeRow>,
    // The rows are numbered 1, 2, .. in their order, so that a row is found by its number without a search.
    board: Vec<InstanceRow>,
    // The rows of the board without a verdict: few, however long the board is.
    undecided: Vec<Opened>,
}

impl Model for Contents {
    ghost use Rattle.std.specs.Prelude.{◌≡◌};
    ghost use Rattle.kt_store.specs.Content.{Content};
    ghost use Rattle.kt_store.specs.Proper.{IsBoard, IsNodes};
    ghost use Rattle.kt_store.specs.auxiliary.Rising.{IsNumbered, opened};

    ghost Value = { Content };

    ghost view = { λ s. record { nodes = s.nodes.items; board = s.board.items } };

    ghost invariant = { λ s. IsNodes s.nodes.items × IsBoard s.board.items × IsNumbered s.board.items
        × (s.undecided.items ≡ opened s.board.items) };
}

impl Contents {
    ghost use Rattle.kt_store.specs.Content.{empty_content};

    /// Nothing: no node has a row, and nothing is on the board.
    pub(crate) fn new(alloc: Global) -> Contents
        ensures { result ≡ empty_content }
    {
        Contents {
            nodes: Vec::new(alloc),
            board: Vec::new(alloc),
            undecided: Vec::new(alloc),
        }
    }

    /// The rows of nodes.
    pub(crate) fn nodes(&self) -> &[NodeRow]
        ensures { result.now ≡ self.now.nodes }
    {
        &self.nodes
    }

    /// The board.
    pub(crate) fn board(&self) -> &[InstanceRow]
        ensures { result.now ≡ self.now.board }
    {
        &self.board
    }

    /// The node's incarnation. A node without a row is in the first, so that a store needs no list of the nodes there
    /// are.
    pub(crate) fn incarnation_of(&self, node: NodeId) -> u64
        ensures value { result ≡ (row_of self.now node).incarnation }
        ensures within { result ≤ greatest }
    {
        match row_at(&self.nodes, node) {
            Some(row) => row.incarnation,
            None => 1,
        }
    }

    /// The node's permanent checkpoint, where one is stored.
    fn permanent_at(&self, node: NodeId) -> Option<&Ckpt>
        ensures { option_copied result ≡ (row_of self.now node).permanent }
    {
        row_at(&self.nodes, node)?.permanent.as_ref()
    }

    /// The node's tentative checkpoint, where one is stored.
    fn tentative_at(&self, node: NodeId) -> Option<&Tentative>
        ensures { option_copied result ≡ (row_of self.now node).tentative }
    {
        row_at(&self.nodes, node)?.tentative.as_ref()
    }

    pub(crate) fn permanent_of(
        &self,
        alloc: Global,
        node: NodeId,
    ) -> Result<Option<Ckpt>, AllocError>
        ensures { IfOk result (λ c. c ≡ (row_of self.now node).permanent) }
    {
        match self.permanent_at(node) {
            Some(checkpoint) => Ok(Some(checkpoint.copy(alloc)?)),
            None => Ok(None),
        }
    }

    /// The header of the node's permanent checkpoint, which it shares.
    pub(crate) fn permanent_header_of(
        &self,
        alloc: Global,
        node: NodeId,
    ) -> Result<Option<CkptHeader>, AllocError>
        ensures { IfOk result (λ m. m ≡ permanent_header self.now node) }
    {
        match self.permanent_at(node) {
            Some(checkpoint) => Ok(Some(checkpoint.header(alloc)?)),
            None => Ok(None),
        }
    }

    pub(crate) fn tentative_of(
        &self,
        alloc: Global,
        node: NodeId,
    ) -> Result<Option<Tentative>, AllocError>
        ensures { IfOk result (λ t. t ≡ (row_of self.now node).tentative) }
    {
        match self.tentative_at(node) {
            Some(tentative) => Ok(Some(tentative.copy(alloc)?)),
            None => Ok(None),
        }
    }

    pub(crate) fn tentative_header_of(
        &self,
        alloc: Global,
        node: NodeId,
    ) -> Result<Option<TentativeHeader>, AllocError>
        ensures { IfOk result (λ m. m ≡ tentative_header self.now node) }
    {
        match self.tentative_at(node) {
            Some(tentative) => Ok(Some(tentative.header(alloc)?)),
            None => Ok(None),
        }
    }

    pub(crate) fn verdict_of(&self, instance: u64) -> Option<Verdict>
        ensures { result ≡ verdict_of self.now instance }
    {
        Some(instance_row_at(&self.board, instance)?.verdict)
    }

    pub(crate) fn initiator_of(&self, instance: u64) -> Option<NodeId>
        ensures { result ≡ initiator_of self.now instance }
    {
        Some(instance_row_at(&self.board, instance)?.initiator)
    }

    pub(crate) fn open_instance_of(&self, node: NodeId) -> Option<u64>
        ensures { result ≡ open_of self.now node }
    {
        Some(opened_at(&self.undecided, node)?.instance)
    }

    /// The number that the next instance gets: from 1 on, and above 2^62 where none is left.
    pub(crate) fn next_number(&self) -> u64
        ensures value { result ≡ next_instance self.now }
        ensures within { result ≤ greatest + 1 }
    {
        self.board.len() as u64 + 1
    }

    /// Gives the instance its verdict, where it was begun.
    pub(crate) fn settle(&mut self, instance: u64, yes: bool)
        ensures { self.new ≡ decided instance yes self.old }
    {
        if let Some(place) = place_of(&self.board, instance) {
            self.board[place].verdict = Verdict::of(yes);
            self.undecided.retain(|opened| opened.instance != instance);
        }
    }

    /// Where the store takes its memory from.
    pub(crate) fn allocator(&self) -> Global {
        *self.nodes.allocator()
    }

    /// Makes the change of the node's row.
    pub(crate) fn change(&mut self, node: NodeId, change: Change) -> Result<(), AllocError>
        requires { IsWithin change }
        ensures written { OnOk result (self.new ≡ storing (changed change (row_of self.old node)) self.old) }
        ensures unchanged { OnErr result (self.new ≡ self.old) }
    {
        change_row(&mut self.nodes, node, change)
    }

    /// Begins the next instance, which is the node's, and makes the change of its row.
    pub(crate) fn begin(
        &mut self,
        node: NodeId,
        purpose: Purpose,
        instance: u64,
        change: Change,
    ) -> Result<(), AllocError>
        requires next { instance ≡ next_instance self.old }
        requires room { instance ≤ greatest }
        requires within { IsWithin change }
        ensures written { OnOk result (self.new ≡ opening node purpose
            (storing (changed change (row_of self.old node)) self.old)) }
        ensures unchanged { OnErr result (self.new ≡ self.old) }
    {
        // All memory is taken before a row changes, so that a refused write changes nothing.
        self.board.reserve(1)?;
        self.undecided.reserve(1)?;
        change_row(&mut self.nodes, node, change)?;
        let new = InstanceRow {
            instance,
            initiator: node,
            purpose,
            verdict: Verdict::Open,
        };
        add_instance_row(&mut self.board, &mut self.undecided, new);
        Ok(())
    }

    /// The nodes that have a row, in node order.
    pub(crate) fn node_names(&self, alloc: Global) -> Result<Vec<NodeId>, AllocError>
        ensures value { IfOk result (λ nodes. nodes.items ≡ nodes_in self.now) }
        ensures proper { IsProper self.now }
    {
        let mut nodes = Vec::with_capacity(alloc, self.nodes.len())?;
        for row in &self.nodes {
            nodes.push(row.node)?;
        }
        Ok(nodes)
    }

    /// Whether nothing was ever stored: no node has a row, and nothing is on the board.
    pub(crate) fn has_nothing(&self) -> bool
        ensures { result ≡ is_fresh self.now }
    {
        self.nodes.is_empty() && self.board.is_empty()
    }
}

/// The node's row; `None` where nothing was stored of it.
fn row_at(rows: &[NodeRow], node: NodeId) -> Option<&NodeRow>
    ensures { option_copied result ≡ find (λ (row : NodeRow). node_eq row.node node) rows.now }
{
    rows.iter().find(|row| row.node == node)
}
