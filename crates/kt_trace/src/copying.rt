//! Copies of messages and of events.
//! Cited by glimpse.rt, ways.rt.

ghost use Rattle.std.specs.Prelude.{◌≡◌, IfOk};

use kt_history::{Act, Note};
use kt_state::Message;
use std::alloc::{AllocError, Global};

/// An equal message with memory of its own.
pub(crate) fn copy_message(alloc: Global, message: &Message) -> Result<Message, AllocError>
    ensures { IfOk result (λ m. m ≡ message.now) }
{
    match message {
        Message::App(app) => Ok(Message::App(app.copy(alloc)?)),
        Message::CheckAsk(ask) => Ok(Message::CheckAsk(*ask)),
        Message::RollAsk(ask) => Ok(Message::RollAsk(*ask)),
        Message::Vote(vote) => Ok(Message::Vote(*vote)),
        Message::Verdict { instance, yes } => Ok(Message::Verdict {
            instance: *instance,
            yes: *yes,
        }),
    }
}

/// An equal event with memory of its own.
pub(crate) fn copy_note(alloc: Global, note: &Note) -> Result<Note, AllocError>
    ensures { IfOk result (λ n. n ≡ note.now) }
{
    match note {
        Note::Act(act) => Ok(Note::Act(copy_act(alloc, act)?)),
        Note::Cut { node, keep } => Ok(Note::Cut {
            node: *node,
            keep: *keep,
        }),
    }
}

fn copy_act(alloc: Global, act: &Act) -> Result<Act, AllocError>
    ensures { IfOk result (λ a. a ≡ act.now) }
{
    let op = act.op.copy(alloc)?;
    match act.what.copy(alloc) {
        Ok(what) => Ok(Act {
            node: act.node,
            by: act.by,
            worker: act.worker,
            number: act.number,
            op,
            what,
        }),
        Err(error) => {
            drop(op);
            Err(error)
        }
    }
}
