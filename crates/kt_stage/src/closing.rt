//! Closing a stage: whether each seat keeps just the journal's steps of its node, with their places.
//! Cited by running.rt.

ghost use Rattle.std.specs.Prelude.{◌≡◌, ◌≢◌, ◌↔◌, ◌++◌, List, IfErr, IfNone, IfOk, IfSome, IsPermutation};
ghost use Rattle.std.specs.Prelude.{All, IsTrue, MatchOption};
ghost use Rattle.kt_core.specs.Store.{AreLater};
ghost use Rattle.kt_stage.specs.declared.seat.Receipt.{Receipt};
ghost use Rattle.kt_stage.specs.Closing.{IsCloseCause, IsFirstUnmatched, IsMatched, first_missing, has_seat};
ghost use Rattle.kt_stage.specs.auxiliary.Midway.{IsClosed};
ghost use Rattle.kt_stage.specs.Closing.{numbered, receipts_in};
ghost use Rattle.kt_stage.specs.Journal.{Replays, kept_of, receipts_of};
ghost use Rattle.kt_stage.specs.Order.{nodes_of};

use crate::journal::Journal;
use crate::naming::Naming;
use crate::seat::{Receipt, Seat};
use crate::stage::Stage;
use kt_core::Step;
use kt_store::CkptStore;
use kt_tuple::NodeId;
use thiserror::Error;

/// Why a stage was not closed.
#[derive(Clone, Copy, Debug, PartialEq, Eq, Error)]
pub enum CloseError {
    /// A seat of this node keeps other receipts than those of the journal's steps of the node, or is a second one.
    #[error("Unmatched")]
    Unmatched { node: NodeId },
    /// None of the seats is this node's.
    #[error("SeatMissing")]
    SeatMissing { node: NodeId },
}

/// What the node keeps behind the receipt of this step; `None` where the step is its own and has another receipt.
fn behind(node: NodeId, rest: &[Receipt], number: u64, step: Step) -> Option<&[Receipt]>
    ensures some { IfSome result (λ later. rest.now ≡ kept_of node number step ++ later.now) }
    ensures none { IfNone result ((later : List Receipt) → rest.now ≢ kept_of node number step ++ later) }
{
    if step.owner() != node {
        return Some(rest);
    }
    let (first, later) = rest.split_first()?;
    if first.number == number && first.step == step {
        Some(later)
    } else {
        None
    }
}

/// Whether these are just the receipts of the node for these steps. It is found out at run time, since no type says
/// which step a receipt names (docs/DECISIONS.md#threads).
fn fits(node: NodeId, receipts: &[Receipt], steps: &[Step]) -> bool
    ensures { IsTrue result ↔ (receipts.now ≡ receipts_of node 1 steps.now) }
{
    let mut rest = receipts;
    for (before, step) in steps.iter().enumerate() {
        let Some(later) = behind(node, rest, before as u64 + 1, *step) else {
            return false;
        };
        rest = later;
    }
    rest.is_empty()
}

/// Whether there is a seat of the node.
fn has_seat<L: Naming>(seats: &[Seat<L>], node: NodeId) -> bool
    ensures { result ≡ has_seat seats.now node }
{
    seats.iter().any(|seat| node == seat.node)
}

/// Whether the seat is the node's.
fn is_of<L: Naming>(seat: &Seat<L>, node: NodeId) -> bool
    ensures { IsTrue result ↔ (seat.now.node ≡ node) }
{
    seat.node() == node
}

/// Whether the node has one seat, and that keeps the receipts of just the node's steps.
fn is_matched<L: Naming>(node: NodeId, seats: &[Seat<L>], steps: &[Step]) -> bool
    ensures { IsTrue result ↔ IsMatched steps.now seats.now node }
{
    let Some((seat, later)) = seats.split_first() else {
        return false;
    };
    if is_of(seat, node) {
        fits(node, seat.receipts(), steps) && !has_seat(later, node)
    } else {
        is_matched(node, later, steps)
    }
}

/// The first of these seats' nodes, in node order, that is not matched by all seats.
fn first_unmatched<L: Naming>(some: &[Seat<L>], seats: &[Seat<L>], steps: &[Step]) -> Option<NodeId>
    ensures { IsFirstUnmatched steps.now seats.now some.now result }
{
    let (seat, later) = some.split_first()?;
    let first = first_unmatched(later, seats, steps);
    if is_matched(seat.node, seats, steps) {
        return first;
    }
    match first {
        Some(node) if node.is_before(seat.node) => Some(node),
        _ => Some(seat.node),
    }
}

/// The first of these nodes that has no seat.
fn first_missing<L: Naming>(nodes: &[NodeId], seats: &[Seat<L>]) -> Option<NodeId>
    ensures { result ≡ first_missing nodes.now seats.now }
{
    let (node, later) = nodes.split_first()?;
    if has_seat(seats, *node) {
        first_missing(later, seats)
    } else {
        Some(*node)
    }
}

/// Why a stage of these nodes is not closed. It takes no memory.
fn refusal_of<L: Naming>(nodes: &[NodeId], seats: &[Seat<L>], steps: &[Step]) -> Option<CloseError>
    ensures { MatchOption result (IsClosed nodes.now steps.now seats.now) (IsCloseCause nodes.now steps.now seats.now) }
{
    if let Some(node) = first_unmatched(seats, seats, steps) {
        return Some(CloseError::Unmatched { node });
    }
    let node = first_missing(nodes, seats)?;
    Some(CloseError::SeatMissing { node })
}

impl<S: CkptStore, L: Naming> Stage<S, L> {
    /// Ends the stage. Of several refusals one of a seat that does not match comes before one of a seat that is
    /// missing, then the first node in node order. A refusal hands the journal back, and stage and seats are gone. It
    /// takes no memory and waits for nobody.
    pub fn close(self, seats: Vec<Seat<L>>) -> Result<Journal<S>, (CloseError, Journal<S>)>
        ensures replays { IfOk result (λ j. Replays L.opening j.world j.steps) }
        ensures later { IfOk result (λ j. AreLater L.opening.counts j.world.counts) }
        ensures kept { IfOk result (λ j.
            All (λ seat. seat.receipts ≡ receipts_of seat.node 1 j.steps) seats.items) }
        ensures one_each { IfOk result (λ j. All (IsMatched j.steps seats.items) (nodes_of L.opening.state.scene)) }
        ensures each_step { IfOk result (λ j. IsPermutation (numbered 1 j.steps) (receipts_in seats.items)) }
        ensures cause { IfErr result (λ e. IsCloseCause (nodes_of L.opening.state.scene) e.1.steps seats.items e.0) }
        ensures replays_back { IfErr result (λ e. Replays L.opening e.1.world e.1.steps) }
        ensures later_back { IfErr result (λ e. AreLater L.opening.counts e.1.world.counts) }
    {
        let Stage {
            run_state,
            nodes,
            ..
        } = self;
        let journal = run_state.into_inner().locked.journal;
        match refusal_of(&nodes, &seats, &journal.steps) {
            None => Ok(journal),
            Some(cause) => Err((cause, journal)),
        }
    }
}
