//! Seats: who acts on a stage, and what each keeps of it.
//! Cited by closing.rt, glance.rt, locked_journal.rt, node_thread.rt, running.rt, stage.rt, waking.rt.

ghost use Rattle.std.specs.Prelude.{◌≡◌, IsTrue};
ghost use Rattle.kt_stage.specs.Order.{has_node};

use crate::naming::Naming;
use kt_core::Step;
use kt_tuple::NodeId;
use std::marker::Model;
use std::sync::ledger::Share;

/// The place that a step has in the journal, counted from 1.
#[derive(Clone, Copy, Debug, PartialEq, Eq)]
pub struct Receipt {
    /// The place, from 1 on: as many steps stand before it as the number less one.
    pub number: u64,
    /// The step that stands there, which the seat's node made.
    pub step: Step,
}

/// A node's seat on the stage that L names: it keeps the receipts of the node's steps, and a share of one part of the
/// stage's ledger, whose amount is their number. Seats keep receipts although the journal lists all steps: the ledger
/// says how many steps there are, and not which step a receipt names, so `Stage::close` compares the two
/// (docs/DECISIONS.md#threads).
#[derive(Drop)]
pub struct Seat<L: Naming> {
    pub(crate) node: NodeId,
    pub(crate) receipts: Vec<Receipt>,
    pub(crate) share: Share<L>,
}

impl<L: Naming> Model for Seat<L> {
    ghost use Rattle.std.specs.Prelude.{◌≡◌, IsTrue, vec_len};
    ghost use Rattle.kt_stage.specs.Journal.{Held};
    ghost use Rattle.kt_stage.specs.Order.{has_node};

    ghost Value = { Held };

    ghost view = { λ s. record { node = s.node; receipts = s.receipts.items } };

    ghost invariant = { λ s. (s.share.parts ≡ 1) × (s.share.amount ≡ vec_len s.receipts)
        × IsTrue (has_node L.opening.state.scene s.node) };
}

impl<L: Naming> Seat<L> {
    /// The node whose seat it is: one of the scene.
    pub fn node(&self) -> NodeId
        ensures value { result ≡ self.now.node }
        ensures there { IsTrue (has_node L.opening.state.scene self.now.node) }
    {
        self.node
    }

    /// The receipts of its node's steps, the first first: none on a stage that was just opened.
    pub fn receipts(&self) -> &[Receipt]
        ensures { result.now ≡ self.now.receipts }
    {
        &self.receipts
    }
}
