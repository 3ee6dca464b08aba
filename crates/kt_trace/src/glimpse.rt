//! A look at a world before a step, and what the step did to it.
//! Cited by tracing.rt.

ghost use Rattle.std.specs.Prelude.{◌≡◌, ◌==◌, ◌&&◌, IfOk};
ghost use Rattle.std.specs.List.{find, flat_map};
ghost use Rattle.std.specs.Option.{option_copied};
ghost use Rattle.kt_tuple.specs.Node.{node_eq};
ghost use Rattle.kt_store.specs.Verdict.{is_open};
ghost use Rattle.kt_store.specs.declared.rows.InstanceRow.{InstanceRow};
ghost use Rattle.kt_store.specs.declared.rows.NodeRow.{NodeRow};
ghost use Rattle.kt_trace.specs.Rows.{heard, mode_at, note_since, begun_since, open_instance, tentative_instance};
ghost use Rattle.kt_trace.specs.Rows.{ruling_by, saving_by, verdict_at};
ghost use Rattle.kt_scenario.specs.Step.{owner};
ghost use Rattle.kt_trace.specs.auxiliary.Glimpses.{glimpse_of, new_on, row_from, ways_from};

use crate::copying::{copy_message, copy_note};
use crate::reading::{board_of, kept_len, link_at, lost_of, notes_of, store_of};
use crate::traced::{Ruling, Saving, TracedStep};
use crate::ways::Ways;
use kt_core::World;
use kt_history::Note;
use kt_scenario::Step;
use kt_state::{Message, Mode, Outbox};
use kt_store::{InstanceRow, MemStore, NodeRow, Verdict};
use kt_tuple::NodeId;
use std::alloc::{AllocError, Global};

/// What is looked at before a step, of the node whose step it is and of the whole.
#[derive(Drop)]
pub(crate) struct Glimpse {
    /// The node's mode.
    mode: Mode,
    /// How many messages it keeps back.
    kept: usize,
    /// The message that the step brings it, with the sender.
    heard: Option<(NodeId, Message)>,
    /// How many messages are on their way from it to each other node.
    ways: Ways,
    /// How many events there are.
    notes: usize,
    /// How many instances were begun.
    instances: usize,
    /// The instance of its tentative checkpoint.
    tentative: Option<u64>,
    /// The instance that it began and that has no verdict.
    pending: Option<u64>,
    /// How many services do not survive.
    lost: u64,
}

impl Glimpse {
    /// A look at the world before this step.
    pub(crate) fn of(
        alloc: Global,
        world: &World<MemStore>,
        step: Step,
    ) -> Result<Glimpse, AllocError>
        ensures { IfOk result (λ g. g ≡ glimpse_of world.now.state step) }
    {
        let ways = Ways::of(alloc, world, step.owner())?;
        match heard(alloc, world, step) {
            Ok(message) => Ok(Glimpse::of_parts(world, step, ways, message)),
            Err(error) => {
                drop(ways);
                Err(error)
            }
        }
    }

    /// A look at the world before this step, with these messages on their way and this one brought by the step.
    fn of_parts(
        world: &World<MemStore>,
        step: Step,
        ways: Ways,
        message: Option<(NodeId, Message)>,
    ) -> Glimpse
        requires ways { ways ≡ ways_from world.now.state (owner step) }
        requires message { message ≡ heard world.now.state step }
        ensures { result ≡ glimpse_of world.now.state step }
    {
        let node = step.owner();
        Glimpse {
            mode: mode_at(world, node),
            kept: kept_len(world, node),
            heard: message,
            ways,
            notes: notes_of(world).len(),
            instances: board_of(world).len(),
            tentative: tentative_instance(world, node),
            pending: open_instance(world, node),
            lost: lost_of(world),
        }
    }

    /// The row of the step, which led from the world that was looked at to this one.
    pub(crate) fn row(
        self,
        alloc: Global,
        world: &World<MemStore>,
        number: u64,
        line: u64,
        step: Step,
    ) -> Result<TracedStep, AllocError>
        ensures { IfOk result (λ row. row ≡ row_from number line step self world.now.state) }
    {
        match self.ways.sent_since(alloc, world, step.owner()) {
            Ok(sent) => self.row_of_sent(alloc, world, number, line, step, sent),
            Err(error) => {
                drop(self);
                Err(error)
            }
        }
    }

    /// The row of the step, which sent this.
    fn row_of_sent(
        self,
        alloc: Global,
        world: &World<MemStore>,
        number: u64,
        line: u64,
        step: Step,
        sent: Outbox,
    ) -> Result<TracedStep, AllocError>
        requires { sent ≡ flat_map (new_on world.now.state (owner step)) self.ways }
        ensures { IfOk result (λ row. row ≡ row_from number line step self world.now.state) }
    {
        match note_since(alloc, world, self.notes) {
            Ok(note) => Ok(self.row_of_parts(world, number, line, step, sent, note)),
            Err(error) => {
                drop(sent);
                drop(self);
                Err(error)
            }
        }
    }

    /// The row of the step, which sent this and left this note.
    fn row_of_parts(
        self,
        world: &World<MemStore>,
        number: u64,
        line: u64,
        step: Step,
        sent: Outbox,
        note: Option<Note>,
    ) -> TracedStep
        requires sent { sent ≡ flat_map (new_on world.now.state (owner step)) self.ways }
        requires note { note ≡ note_since self.notes world.now.state }
        ensures { result ≡ row_from number line step self world.now.state }
    {
        let node = step.owner();
        let tentative = tentative_instance(world, node);
        let Glimpse {
            mode,
            heard,
            ways,
            ..
        } = self;
        drop(ways);
        TracedStep {
            number,
            line,
            step,
            node,
            was: mode,
            is: mode_at(world, node),
            heard,
            keeps: self.kept < kept_len(world, node),
            sent,
            note,
            notes: notes_of(world).len() as u64,
            begun: begun_since(world, self.instances),
            saving: saving_by(world, self.tentative, tentative),
            ruling: ruling_by(world, step, self.pending),
            undone: lost_of(world).saturating_sub(self.lost),
        }
    }
}

/// The node's mode: a node that is not there is down.
fn mode_at(world: &World<MemStore>, node: NodeId) -> Mode
    ensures { result ≡ mode_at world.now.state node }
{
    match world.mode(node) {
        Some(mode) => mode,
        None => Mode::Down,
    }
}

/// The message that the step brings to its node, and who sent it.
fn heard(
    alloc: Global,
    world: &World<MemStore>,
    step: Step,
) -> Result<Option<(NodeId, Message)>, AllocError>
    ensures { IfOk result (λ h. h ≡ heard world.now.state step) }
{
    match step {
        Step::Deliver { from, to } => match link_at(world, from, to, 0) {
            Some(message) => Ok(Some((from, copy_message(alloc, message)?))),
            None => Ok(None),
        },
        Step::Take { node } => match world.kept_at(node, 0) {
            Some((from, app)) => Ok(Some((*from, Message::App(app.copy(alloc)?)))),
            None => Ok(None),
        },
        _ => Ok(None),
    }
}

/// The event that is there besides the first so many.
fn note_since(
    alloc: Global,
    world: &World<MemStore>,
    notes: usize,
) -> Result<Option<Note>, AllocError>
    ensures { IfOk result (λ note. note ≡ note_since notes world.now.state) }
{
    match notes_of(world).get(notes) {
        Some(note) => Ok(Some(copy_note(alloc, note)?)),
        None => Ok(None),
    }
}

/// The instance that is on the board besides the first so many.
fn begun_since(world: &World<MemStore>, instances: usize) -> Option<u64>
    ensures { result ≡ begun_since instances world.now.state }
{
    match board_of(world).get(instances) {
        Some(row) => Some(row.instance),
        None => None,
    }
}

/// The instance of the node's tentative checkpoint.
fn tentative_instance(world: &World<MemStore>, node: NodeId) -> Option<u64>
    ensures { result ≡ tentative_instance world.now.state.content node }
{
    match row_at(store_of(world).rows(), node) {
        Some(row) => match &row.tentative {
            Some(tentative) => Some(tentative.instance),
            None => None,
        },
        None => None,
    }
}

/// The node's row; `None` where nothing was stored of it.
fn row_at(rows: &[NodeRow], node: NodeId) -> Option<&NodeRow>
    ensures { option_copied result ≡ find (λ (row : NodeRow). node_eq row.node node) rows.now }
{
    rows.iter().find(|row| row.node == node)
}

/// The first instance that the node began and that has no verdict.
fn open_instance(world: &World<MemStore>, node: NodeId) -> Option<u64>
    ensures { result ≡ open_instance world.now.state.content node }
{
    match open_at(board_of(world), node) {
        Some(row) => Some(row.instance),
        None => None,
    }
}

/// The row of that instance.
fn open_at(board: &[InstanceRow], node: NodeId) -> Option<&InstanceRow>
    ensures { option_copied result
        ≡ find (λ (row : InstanceRow). node_eq row.initiator node && is_open row.verdict) board.now }
{
    board
        .iter()
        .find(|row| row.initiator == node && row.verdict.is_open())
}

/// The verdict on the instance: open where it was never begun.
fn verdict_at(world: &World<MemStore>, instance: u64) -> Verdict
    ensures { result ≡ verdict_at world.now.state.content instance }
{
    match instance_at(board_of(world), instance) {
        Some(row) => row.verdict,
        None => Verdict::Open,
    }
}

/// What the board has of the instance; `None` where it was never begun.
fn instance_at(board: &[InstanceRow], instance: u64) -> Option<&InstanceRow>
    ensures { option_copied result ≡ find (λ (row : InstanceRow). row.instance == instance) board.now }
{
    board.iter().find(|row| row.instance == instance)
}

/// What became of the tentative checkpoint, whose instance was the one and is the other.
fn saving_by(world: &World<MemStore>, was: Option<u64>, is: Option<u64>) -> Option<Saving>
    ensures { result ≡ saving_by world.now.state.content was is }
{
    match (was, is) {
        (None, Some(instance)) => Some(Saving::Taken(instance)),
        (Some(instance), None) => match verdict_at(world, instance) {
            Verdict::Yes => Some(Saving::Permanent(instance)),
            Verdict::No | Verdict::Open => Some(Saving::GivenUp(instance)),
        },
        (None, None) | (Some(_), Some(_)) => None,
    }
}

/// The verdict that the step wrote on the instance that its node began.
fn ruling_by(world: &World<MemStore>, step: Step, pending: Option<u64>) -> Option<Ruling>
    ensures { result ≡ ruling_by world.now.state.content step pending }
{
    match (step, pending) {
        (Step::Decide { .. } | Step::Abandon { .. }, Some(instance)) => {
            match verdict_at(world, instance) {
                Verdict::Open => None,
                Verdict::Yes => Some(Ruling {
                    instance,
                    yes: true,
                }),
                Verdict::No => Some(Ruling {
                    instance,
                    yes: false,
                }),
            }
        }
        _ => None,
    }
}
