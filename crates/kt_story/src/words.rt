//! What is said of a row, of a service, and of why it is lost.
//! Cited by other crates.

ghost use Rattle.std.specs.Prelude.{◌≡◌, ◌+◌, ◌++◌, ◌∷◌, [], ℕ, List, codes, length, IfOk, OnOk};
ghost use Rattle.std.specs.List.{flat_map};
ghost use Rattle.kt_story.specs.Blames.{IsReason};
ghost use Rattle.kt_story.specs.Said.{brief_text, count_text, gone_back_text, got_text, how_text, other_text};
ghost use Rattle.kt_story.specs.Said.{reason_text, request_text, said_text, saved_text, served_text, service_text};
ghost use Rattle.kt_story.specs.Said.{shortened, told_brief, told_text, vote_text};

use crate::story::{Blame, Story};
use kt_core::Step;
use kt_history::{Act, Note, What};
use kt_state::Message;
use kt_tell::{push_begun, push_head, push_instance, push_one, push_ruling, push_undone};
use kt_trace::{Saving, TracedStep};
use kt_tuple::writing::push_number;
use kt_tuple::{Answer, NodeId, Op};
use std::alloc::{AllocError, Global};

/// The arrow between what was asked and what was got. All else that is said is ASCII from 32 to 126; who writes it for
/// a reader puts an arrow in its place.
pub const ARROW: u8 = 26;

/// The most characters of a row's text.
const MOST_TEXT: usize = 72;

/// The most characters of a service's operation; its answer has half as many.
const MOST_OP: usize = 40;

/// What is said of a row.
#[derive(Debug, Drop)]
pub struct Words {
    /// What happened.
    pub said: Vec<u8>,
    /// Why the service is lost, where it is one that is.
    pub reason: Vec<u8>,
}

impl Words {
    /// How many characters they are.
    pub fn count(&self) -> u64
        ensures { result ≡ length self.now.said.items + length self.now.reason.items }
    {
        self.said.len() as u64 + self.reason.len() as u64
    }
}

/// What is said of the row: of a service its request and its answer; of all else the words of the trace, without what
/// the picture shows. A text that is too long ends in three dots. There is a reason only where an act is lost.
pub fn words_of(alloc: Global, story: &Story, row: &TracedStep) -> Result<Words, AllocError>
    ensures said { IfOk result (λ words. words.said.items ≡ said_text row.now) }
    ensures reason { IfOk result (λ words. IsReason story.now row.now words.reason.items) }
{
    let reason = reason_of(alloc, story, row)?;
    let mut said = Vec::new(alloc);
    push_said(&mut said, row)?;
    Ok(Words { said, reason })
}

/// Why the row's service is lost, behind a comma; nothing where no step is to blame.
fn reason_of(alloc: Global, story: &Story, row: &TracedStep) -> Result<Vec<u8>, AllocError>
    ensures { IfOk result (λ reason. IsReason story.now row.now reason.items) }
{
    match story.blame(row) {
        Some(blame) => reason_by(alloc, blame),
        None => Ok(Vec::new(alloc)),
    }
}

fn reason_by(alloc: Global, blame: Blame) -> Result<Vec<u8>, AllocError>
    ensures { IfOk result (λ reason. reason.items ≡ codes ", " ++ reason_text blame) }
{
    let mut reason = Vec::new(alloc);
    reason.extend_from_slice(b", ")?;
    push_reason(&mut reason, blame)?;
    Ok(reason)
}

/// What is said of the row.
fn push_said(out: &mut Vec<u8>, row: &TracedStep) -> Result<(), AllocError>
    ensures { OnOk result (out.new.items ≡ out.old.items ++ said_text row.now) }
{
    match &row.note {
        Some(Note::Act(act)) => match &act.what {
            What::Served(answer) => push_served(out, act, answer),
            _ => push_other(out, row),
        },
        Some(Note::Cut { .. }) | None => push_other(out, row),
    }
}

/// A service: which request it answered, what was asked, and what was got.
fn push_served(out: &mut Vec<u8>, act: &Act, answer: &Answer) -> Result<(), AllocError>
    ensures { OnOk result (out.new.items ≡ out.old.items ++ served_text act.now answer.now) }
{
    push_request(out, act)?;
    push_service(out, &act.op, answer, MOST_OP)
}

/// Which request it is, and a space: `w1.3 `.
fn push_request(out: &mut Vec<u8>, act: &Act) -> Result<(), AllocError>
    ensures { OnOk result (out.new.items ≡ out.old.items ++ request_text act.now) }
{
    NodeId::Worker(act.worker).write_to(out)?;
    out.push(b'.')?;
    push_number(out, act.number)?;
    out.push(b' ')?;
    Ok(())
}

/// The operation, and what was got where that tells more than that it was done. The operation has so many characters at
/// most, and the answer half as many.
pub fn push_service(
    out: &mut Vec<u8>,
    op: &Op,
    answer: &Answer,
    most: usize,
) -> Result<(), AllocError>
    ensures { OnOk result (out.new.items ≡ out.old.items ++ service_text op.now answer.now most) }
{
    let start = out.len();
    op.write_to(out)?;
    shorten(out, start, most)?;
    push_told(out, answer, most / 2)?;
    Ok(())
}

/// What was got where that tells more than that it was done, behind an arrow. It has so many characters at most.
fn push_told(out: &mut Vec<u8>, answer: &Answer, most: usize) -> Result<(), AllocError>
    ensures { OnOk result (out.new.items ≡ out.old.items ++ told_text answer.now most) }
{
    match answer {
        Answer::Done => Ok(()),
        Answer::Got(_) | Answer::None => {
            push_arrow(out)?;
            push_short(out, answer, most)
        }
    }
}

/// What was got, without the word for it, in so many characters at most.
fn push_short(out: &mut Vec<u8>, answer: &Answer, most: usize) -> Result<(), AllocError>
    ensures { OnOk result (out.new.items ≡ out.old.items ++ shortened (got_text answer.now) most) }
{
    let start = out.len();
    push_got(out, answer)?;
    shorten(out, start, most)?;
    Ok(())
}

/// The arrow with a space on each side.
fn push_arrow(out: &mut Vec<u8>) -> Result<(), AllocError>
    ensures { OnOk result (out.new.items ≡ out.old.items ++ 32 ∷ 26 ∷ 32 ∷ []) }
{
    out.push(b' ')?;
    out.push(ARROW)?;
    out.push(b' ')?;
    Ok(())
}

/// What was got, without the word for it.
pub fn push_got(out: &mut Vec<u8>, answer: &Answer) -> Result<(), AllocError>
    ensures { OnOk result (out.new.items ≡ out.old.items ++ got_text answer.now) }
{
    match answer {
        Answer::Done => out.extend_from_slice(b"done"),
        Answer::Got(tuple) => tuple.write_to(out),
        Answer::None => out.extend_from_slice(b"none"),
    }
}

/// Why a service is lost.
pub fn push_reason(out: &mut Vec<u8>, blame: Blame) -> Result<(), AllocError>
    ensures { OnOk result (out.new.items ≡ out.old.items ++ reason_text blame) }
{
    out.extend_from_slice(b"lost when ")?;
    blame.node.write_to(out)?;
    out.extend_from_slice(how_text(blame.failed))?;
    push_number(out, blame.step)?;
    out.push(b')')?;
    Ok(())
}

/// How the node lost it.
fn how_text(failed: bool) -> &'static [u8]
    ensures { result.now ≡ how_text failed }
{
    if failed {
        b" failed (step "
    } else {
        b" rolled back (step "
    }
}

/// How many of something there are, whose word is that for one.
pub fn push_count(out: &mut Vec<u8>, count: u64, word: &[u8]) -> Result<(), AllocError>
    ensures { OnOk result (out.new.items ≡ out.old.items ++ count_text count word.now) }
{
    push_number(out, count)?;
    out.push(b' ')?;
    out.extend_from_slice(word)?;
    if count == 1 {
        Ok(())
    } else {
        out.push(b's')?;
        Ok(())
    }
}

/// What is said of a row that is no service.
fn push_other(out: &mut Vec<u8>, row: &TracedStep) -> Result<(), AllocError>
    ensures { OnOk result (out.new.items ≡ out.old.items ++ other_text row.now row.now.saving) }
{
    if let Some(saving) = row.saving {
        return push_saved(out, row.node, saving);
    }
    match &row.note {
        Some(Note::Cut { .. }) if !matches!(row.step, Step::Fail { .. }) => push_back(out, row),
        _ => push_brief(out, row),
    }
}

/// That the node goes back to its checkpoint.
fn push_back(out: &mut Vec<u8>, row: &TracedStep) -> Result<(), AllocError>
    ensures { OnOk result (out.new.items ≡ out.old.items ++ gone_back_text row.now) }
{
    row.node.write_to(out)?;
    out.extend_from_slice(b" goes back to its checkpoint")?;
    push_undone(out, row.note.as_ref(), row.undone)
}

/// What the trace says of the row, without what the picture shows, in as many characters as a row has.
fn push_brief(out: &mut Vec<u8>, row: &TracedStep) -> Result<(), AllocError>
    ensures { OnOk result (out.new.items ≡ out.old.items ++ told_brief row.now) }
{
    let start = out.len();
    push_trace(out, row)?;
    shorten(out, start, MOST_TEXT)
}

/// What became of the node's tentative checkpoint.
fn push_saved(out: &mut Vec<u8>, node: NodeId, saving: Saving) -> Result<(), AllocError>
    ensures { OnOk result (out.new.items ≡ out.old.items ++ saved_text node saving) }
{
    node.write_to(out)?;
    match saving {
        Saving::Taken(instance) => {
            out.extend_from_slice(b" takes a tentative checkpoint")?;
            push_instance(out, instance)
        }
        Saving::Permanent(instance) => {
            out.extend_from_slice(b"'s checkpoint is permanent")?;
            push_instance(out, instance)
        }
        Saving::GivenUp(instance) => {
            out.extend_from_slice(b" gives its checkpoint up")?;
            push_instance(out, instance)
        }
    }
}

/// The words of the trace, without what the picture shows: modes, and whom something is asked or told.
fn push_trace(out: &mut Vec<u8>, row: &TracedStep) -> Result<(), AllocError>
    ensures { OnOk result (out.new.items ≡ out.old.items ++ brief_text row.now) }
{
    push_head(out, row)?;
    push_begun(out, row.begun)?;
    push_ruling(out, row.ruling)?;
    push_votes(out, row.sent.messages())?;
    push_undone(out, row.note.as_ref(), row.undone)
}

/// How the node votes.
fn push_votes(out: &mut Vec<u8>, sent: &[(NodeId, Message)]) -> Result<(), AllocError>
    ensures { OnOk result (out.new.items ≡ out.old.items ++ flat_map vote_text sent.now) }
{
    for (to, message) in sent {
        push_vote(out, *to, message)?;
    }
    Ok(())
}

fn push_vote(out: &mut Vec<u8>, to: NodeId, message: &Message) -> Result<(), AllocError>
    ensures { OnOk result (out.new.items ≡ out.old.items ++ vote_text (to, message.now)) }
{
    match message {
        Message::Vote(_) => push_one(out, to, message),
        _ => Ok(()),
    }
}

/// Cuts what stands behind the first so many bytes down to the most characters, the last three of which are dots then.
fn shorten(text: &mut Vec<u8>, start: usize, most: usize) -> Result<(), AllocError>
    ensures { OnOk result ((front behind : List ℕ) → text.old.items ≡ front ++ behind → start ≡ length front
        → text.new.items ≡ front ++ shortened behind most) }
{
    if text.len() <= start.saturating_add(most) {
        return Ok(());
    }
    text.truncate(start.saturating_add(most.saturating_sub(3)));
    text.extend_from_slice(b"...")?;
    Ok(())
}
