//! What a step does, found out before anything is changed.
//! Cited by asking.rt, voting.rt; other crates.

ghost use Rattle.std.specs.Prelude.{◌≡◌, [], ◌∷◌, ◌++◌, IfOk, None, OnOk, Some};
ghost use Rattle.kt_state.specs.Plan.{empty_plan};
ghost use Rattle.kt_state.specs.declared.change.Change.TheVariants as changes;

use crate::change::{Change, Update};
use crate::message::Message;
use kt_ckpt::Ckpt;
use kt_history::Note;
use kt_tuple::NodeId;
use std::alloc::{AllocError, Global};
use std::marker::Model;

/// One write of the store, of the node whose step it is.
#[derive(Debug, Drop)]
pub enum Write {
    /// The next instance is begun as a check, with this tentative checkpoint.
    BeginCheck(Ckpt),
    /// The tentative checkpoint of a participant.
    PutTentative { instance: u64, checkpoint: Ckpt },
    /// The tentative checkpoint becomes permanent: its instance got Yes.
    Promote,
    /// The tentative checkpoint is given up: its instance got No.
    Discard,
    /// The incarnation is raised, and the next instance begun as a rollback.
    BeginRestart,
    /// The incarnation is raised by one: a participant learns the Yes of a rollback.
    Bump,
    /// The verdict of the instance is written on the board.
    Decide { instance: u64, yes: bool },
}

/// Messages with their receivers, in the order in which they are sent.
#[derive(Debug, Drop)]
pub struct Outbox {
    messages: Vec<(NodeId, Message)>,
}

impl Model for Outbox {
    ghost use Rattle.std.specs.Prelude.{List};
    ghost use Rattle.kt_tuple.specs.declared.node.NodeId.{NodeId as Name};
    ghost use Rattle.kt_state.specs.declared.message.Message.{Message as Sent};

    ghost Value = { List (Name × Sent) };

    ghost view = { λ b. b.messages.items };
}

impl Outbox {
    /// The outbox of a plan that sends nothing. It takes no memory.
    pub fn empty(alloc: Global) -> Outbox
        ensures { result ≡ [] }
    {
        Outbox {
            messages: Vec::new(alloc),
        }
    }

    /// The outbox of a plan that sends one message; refused only for want of memory.
    pub fn one(alloc: Global, to: NodeId, message: Message) -> Result<Outbox, AllocError>
        ensures { IfOk result (λ b. b ≡ (to, message) ∷ []) }
    {
        let mut outbox = Outbox::empty(alloc);
        outbox.add(to, message)?;
        Ok(outbox)
    }

    /// Puts one message more behind the others; refused only for want of memory.
    pub fn add(&mut self, to: NodeId, message: Message) -> Result<(), AllocError>
        ensures { OnOk result (self.new ≡ self.old ++ (to, message) ∷ []) }
    {
        Ok(self.messages.push((to, message))?)
    }

    /// Receivers and messages, in the order in which they are sent.
    pub fn messages(&self) -> &[(NodeId, Message)]
        ensures { result.now ≡ self.now }
    {
        &self.messages
    }

    /// Hands receivers and messages on, in the order in which they are sent.
    pub fn into_messages(self) -> Vec<(NodeId, Message)>
        ensures { result.items ≡ self }
    {
        self.messages
    }
}

/// What a step does: what becomes of its owner, what the owner sends, in node order, and at most one note and one
/// write of the store.
#[derive(Debug, Drop)]
pub struct Plan {
    /// What becomes of the owner: `Stay` where nothing does.
    pub change: Change,
    /// What it sends, with the receivers; empty where nothing is sent.
    pub send: Outbox,
    /// What is noted in the history, if anything is.
    pub note: Option<Note>,
    /// What the store has to write, if anything.
    pub write: Option<Write>,
}

impl Plan {
    /// Nothing is done: a message is dropped.
    pub fn empty(alloc: Global) -> Plan
        ensures { result ≡ empty_plan }
    {
        Plan {
            change: Change::Stay,
            send: Outbox::empty(alloc),
            note: None,
            write: None,
        }
    }

    /// The node goes on with this update and sends these; this is noted.
    pub fn of(
        alloc: Global,
        update: Update,
        send: Outbox,
        note: Option<Note>,
    ) -> Result<Plan, AllocError>
        ensures { IfOk result (λ p. p ≡
            record { change = changes.Update update; send = send; note = note; write = None }) }
    {
        Ok(Plan {
            change: Change::turning(alloc, update)?,
            send,
            note,
            write: None,
        })
    }

    /// The plan of this change, which sends these and has the store write; it makes no note.
    pub fn writing(change: Change, send: Outbox, write: Write) -> Plan
        ensures { result ≡ record { change = change; send = send; note = None; write = Some write } }
    {
        Plan {
            change,
            send,
            note: None,
            write: Some(write),
        }
    }
}
