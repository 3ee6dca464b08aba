//! A message in a line of text.
//! Cited by cells.rt, node_cells.rt.

ghost use Rattle.std.specs.Prelude.{◌≡◌, ◌++◌, OnOk};
ghost use Rattle.kt_cells.specs.Lines.{ask_line, kept_line, message_line, talk_line};

use kt_state::{AppMessage, Message, Talk};
use kt_story::{ARROW, push_got};
use kt_tuple::NodeId;
use kt_tuple::writing::push_number;
use std::alloc::AllocError;

/// What the message is, and what it carries.
pub(crate) fn push_message(out: &mut Vec<u8>, message: &Message) -> Result<(), AllocError>
    ensures { OnOk result (out.new.items ≡ out.old.items ++ message_line message.now) }
{
    match message {
        Message::App(app) => push_talk(out, &app.talk),
        Message::CheckAsk(ask) => push_numbered(out, b"ask for a checkpoint", ask.instance),
        Message::RollAsk(ask) => push_numbered(out, b"ask to roll back", ask.instance),
        Message::Vote(vote) => {
            if vote.yes {
                push_numbered(out, b"vote yes", vote.instance)
            } else {
                push_numbered(out, b"vote no", vote.instance)
            }
        }
        Message::Verdict { instance, yes } => {
            if *yes {
                push_numbered(out, b"verdict yes", *instance)
            } else {
                push_numbered(out, b"verdict no", *instance)
            }
        }
    }
}

/// A request or a reply.
fn push_talk(out: &mut Vec<u8>, talk: &Talk) -> Result<(), AllocError>
    ensures { OnOk result (out.new.items ≡ out.old.items ++ talk_line talk.now) }
{
    match talk {
        Talk::Request(request) => {
            out.extend_from_slice(b"request ")?;
            push_number(out, request.number)?;
            out.extend_from_slice(b": ")?;
            request.op.write_to(out)
        }
        Talk::Reply { request, answer } => {
            out.extend_from_slice(b"answer to ")?;
            push_number(out, request.number)?;
            out.extend_from_slice(b": ")?;
            request.op.write_to(out)?;
            out.push(b' ')?;
            out.push(ARROW)?;
            out.push(b' ')?;
            push_got(out, answer)
        }
    }
}

/// The words and the number of a check or a rollback.
fn push_numbered(out: &mut Vec<u8>, words: &[u8], instance: u64) -> Result<(), AllocError>
    ensures { OnOk result (out.new.items ≡ out.old.items ++ ask_line words.now instance) }
{
    out.extend_from_slice(words)?;
    out.extend_from_slice(b" (")?;
    push_number(out, instance)?;
    out.push(b')')?;
    Ok(())
}

/// What a node keeps back, and who sent it.
pub(crate) fn push_kept(out: &mut Vec<u8>, from: NodeId, app: &AppMessage) -> Result<(), AllocError>
    ensures { OnOk result (out.new.items ≡ out.old.items ++ kept_line from app.now) }
{
    from.write_to(out)?;
    out.extend_from_slice(b": ")?;
    push_talk(out, &app.talk)
}
