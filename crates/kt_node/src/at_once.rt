//! A worker asks once more, without a plan of all that a step can be: what is looked at, what is said, and what becomes
//! of the node.
//! Cited by other crates.

ghost use Rattle.std.specs.Prelude.{◌≡◌, ◌≤◌, IfOk, IfSome, Ok, Some};
ghost use Rattle.kt_state.specs.declared.change.Change.TheVariants.{Update as Goes};
ghost use Rattle.kt_node.specs.AtOnce.{again_plan, said_message, said_note, said_plan};
ghost use Rattle.kt_state.specs.Updating.{no_update};
ghost use Rattle.kt_state.specs.Ready.{CanChange};
ghost use Rattle.kt_node.specs.Speaking.{CanSpeak};
ghost use Rattle.kt_node.specs.Steps.{repeat};
ghost use Rattle.kt_state.specs.Updating.{changed};
ghost use Rattle.kt_node.specs.View.{view_of};

use crate::view::View;
use kt_history::{Act, Note, What};
use kt_link::Label;
use kt_shard::Request;
use kt_state::{AppMessage, Body, Message, Node, Talk};
use kt_tuple::{NodeId, Op};
use std::alloc::{AllocError, Global};

/// What a worker asks once more.
#[derive(Clone, Copy, Debug)]
pub struct Again<'a> {
    /// The shard that it asks.
    pub to: NodeId,
    /// The request's number.
    pub number: u64,
    /// Its operation.
    pub op: &'a Op,
    /// The label of the message.
    pub label: Label,
    /// The number of the note.
    pub by: u64,
}

/// What a worker says that asks once more.
#[derive(Debug, Drop)]
pub struct Said {
    /// The shard that it asks.
    pub to: NodeId,
    /// The request's number.
    number: u64,
    /// The label of the message.
    label: Label,
    /// The number of the note.
    by: u64,
    /// The operation, as the message has it.
    asked: Op,
    /// The same, as the note has it.
    noted: Op,
}

impl<'a> View<'a> {
    /// What a worker asks once more, where it may.
    pub fn asked_again(self) -> Option<Again<'a>>
        requires peers { 1 ≤ self.role.peers }
        requires count { CanSpeak self.node.now.node }
        ensures { IfSome result (λ r. repeat (view_of self.entry) ≡ Ok (again_plan self.entry.role.id r)) }
    {
        let live = self.up()?;
        let Body::Worker(worker) = &live.body else {
            return None;
        };
        let (number, op) = worker.again()?;
        Some(Again {
            to: self.home(op),
            number,
            op,
            label: live.next_label(),
            by: self.next(),
        })
    }
}

impl Again<'_> {
    /// The same with operations of its own, one for the message and one for the note.
    pub fn said(self, alloc: Global) -> Result<Said, AllocError>
        ensures { IfOk result (λ s. (p : NodeId) → said_plan p s ≡ again_plan p self.entry) }
    {
        Ok(Said {
            to: self.to,
            number: self.number,
            label: self.label,
            by: self.by,
            asked: self.op.copy(alloc)?,
            noted: self.op.copy(alloc)?,
        })
    }
}

impl Said {
    /// The message of the worker, and the note of it. They are made where they are put, so that neither is moved twice.
    pub fn into_parts(self, node: NodeId) -> (Message, Note)
        ensures message { result.0 ≡ said_message self }
        ensures note { result.1 ≡ said_note node self }
    {
        let Said {
            number,
            label,
            by,
            asked: op,
            noted,
            ..
        } = self;
        let message = Message::App(AppMessage {
            talk: Talk::Request(Request { number, op }),
            label,
            by,
        });
        let note = Note::Act(Act {
            node,
            by: 0,
            worker: node.number(),
            number,
            op: noted,
            what: What::Repeat,
        });
        (message, note)
    }
}
