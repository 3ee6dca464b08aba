//! Messages, from the step that sent each to the one by which it arrived.
//! Cited by other crates.

ghost use Rattle.std.specs.Prelude.{◌≡◌, ◌++◌, ◌∷◌, [], List, IfOk, OnOk};
ghost use Rattle.kt_link.specs.Network.{AreNeighbours, ChangesOnly, queue};
ghost use Rattle.kt_story.specs.Messages.{Sent, arrow_of, arrows_behind, arrows_of, check_at, checks_in, is_check};
ghost use Rattle.kt_story.specs.Messages.{kind_of, sender_lost, sent_by, talk_kind};
ghost use Rattle.kt_story.specs.auxiliary.Waiting.{HasArrivals, HasArrived, Waits};

use crate::story::Story;
use kt_core::Step;
use kt_link::Links;
use kt_state::{Message, Talk};
use kt_trace::TracedStep;
use kt_tuple::NodeId;
use std::alloc::{AllocError, Global};

/// A message.
#[derive(Clone, Copy, Debug, PartialEq, Eq)]
pub struct Arrow {
    /// Who sent it.
    pub from: NodeId,
    /// To whom.
    pub to: NodeId,
    /// The number of the step that sent it.
    pub sent: u64,
    /// The number of the step by which it arrived; `None` while it is on its way.
    pub came: Option<u64>,
    /// What it is.
    pub kind: Kind,
    /// Whether the act that sent it is lost.
    pub lost: bool,
}

/// What a message is.
#[derive(Clone, Copy, Debug, PartialEq, Eq)]
pub enum Kind {
    /// A request of a worker.
    Request,
    /// A shard's answer.
    Reply,
    /// An ask to take a checkpoint, the vote on it, and the verdict of a check.
    CheckAsk,
    CheckVote,
    CheckVerdict,
    /// The same of a rollback.
    RollAsk,
    RollVote,
    RollVerdict,
}

/// All messages, in the order in which they were sent. A link is first in, first out: what has so many before it on its
/// link came by the delivery that has as many before it. `AllocError` where memory is wanting.
pub fn arrows(alloc: Global, story: &Story) -> Result<Vec<Arrow>, AllocError>
    ensures { IfOk result (λ arrows. arrows.items ≡ arrows_of story.now) }
{
    let rows = story.rows();
    let checks = checks_in(alloc, rows)?;
    let mut ways = arrivals_of(alloc, story.workers(), story.shards(), rows)?;
    let mut found = Vec::new(alloc);
    for row in rows {
        push_arrows(story, &checks, &mut ways, &mut found, row)?;
    }
    Ok(found)
}

/// Of each instance whether it is a check.
fn checks_in(alloc: Global, rows: &[TracedStep]) -> Result<Vec<bool>, AllocError>
    ensures { IfOk result (λ checks. checks.items ≡ checks_in rows.now) }
{
    let mut checks = Vec::new(alloc);
    for row in rows {
        put_check(&mut checks, row)?;
    }
    Ok(checks)
}

/// Puts behind the others whether the instance that the row began is a check, where it began one.
fn put_check(checks: &mut Vec<bool>, row: &TracedStep) -> Result<(), AllocError>
    ensures { OnOk result (checks.new.items ≡ checks.old.items ++ checks_in (row.now ∷ [])) }
{
    if row.begun.is_some() {
        checks.push(is_check(row.step))?;
    }
    Ok(())
}

fn is_check(step: Step) -> bool
    ensures { result ≡ is_check step }
{
    matches!(step, Step::Check { .. })
}

/// For each link between so many workers and shards the numbers of the steps by which something came, in order.
fn arrivals_of(
    alloc: Global,
    workers: u8,
    shards: u8,
    rows: &[TracedStep],
) -> Result<Links<u64>, AllocError>
    ensures { IfOk result (λ ways. HasArrivals workers shards rows.now ways) }
{
    let mut ways = Links::new(alloc, workers, shards)?;
    for row in rows {
        put_arrival(&mut ways, row)?;
    }
    Ok(ways)
}

/// Puts the number of the row's step behind the others of its link, where something came by it.
fn put_arrival(ways: &mut Links<u64>, row: &TracedStep) -> Result<(), AllocError>
    ensures { OnOk result (HasArrived row.now ways.old ways.new) }
{
    if let Step::Deliver { from, to } = row.step {
        if ways.is_link(from, to) {
            put(ways, from, to, row.number)?;
        }
    }
    Ok(())
}

fn put(ways: &mut Links<u64>, from: NodeId, to: NodeId, number: u64) -> Result<(), AllocError>
    requires { AreNeighbours ways.old.workers ways.old.shards from to }
    ensures put { OnOk result (queue ways.new from to ≡ queue ways.old from to ++ number ∷ []) }
    ensures alone { ChangesOnly ways.old ways.new from to }
{
    match ways.push(from, to, number) {
        Ok(()) => Ok(()),
        Err(_) => Err(AllocError),
    }
}

/// The messages that the row's step sent, each with the first arrival that is left on its link.
fn push_arrows(
    story: &Story,
    checks: &[bool],
    ways: &mut Links<u64>,
    found: &mut Vec<Arrow>,
    row: &TracedStep,
) -> Result<(), AllocError>
    requires { checks.now ≡ checks_in story.now.rows }
    ensures found { OnOk result ((earlier : List Sent) → Waits story.now earlier ways.old
        → found.new.items ≡ found.old.items ++ arrows_behind story.now earlier (sent_by row.now)) }
    ensures ways { OnOk result ((earlier : List Sent) → Waits story.now earlier ways.old
        → Waits story.now (earlier ++ sent_by row.now) ways.new) }
{
    for (to, message) in row.sent.messages() {
        push_arrow(story, checks, ways, found, row, *to, message)?;
    }
    Ok(())
}

/// One of them.
fn push_arrow(
    story: &Story,
    checks: &[bool],
    ways: &mut Links<u64>,
    found: &mut Vec<Arrow>,
    row: &TracedStep,
    to: NodeId,
    message: &Message,
) -> Result<(), AllocError>
    requires { checks.now ≡ checks_in story.now.rows }
    ensures found { OnOk result ((earlier : List Sent) → Waits story.now earlier ways.old
        → found.new.items ≡ found.old.items ++ arrow_of story.now earlier (row.now, (to, message.now)) ∷ []) }
    ensures ways { OnOk result ((earlier : List Sent) → Waits story.now earlier ways.old
        → Waits story.now (earlier ++ (row.now, (to, message.now)) ∷ []) ways.new) }
{
    let came = ways.pop(row.node, to);
    found.push(Arrow {
        from: row.node,
        to,
        sent: row.number,
        came,
        kind: kind_of(message, checks),
        lost: is_lost(story, message),
    })?;
    Ok(())
}

/// What the message is, where `checks` says of each instance whether it is a check.
fn kind_of(message: &Message, checks: &[bool]) -> Kind
    ensures { result ≡ kind_of checks.now message.now }
{
    match message {
        Message::App(app) => talk_kind(&app.talk),
        Message::CheckAsk(_) => Kind::CheckAsk,
        Message::RollAsk(_) => Kind::RollAsk,
        Message::Vote(vote) => {
            if check_at(checks, vote.instance) {
                Kind::CheckVote
            } else {
                Kind::RollVote
            }
        }
        Message::Verdict { instance, .. } => {
            if check_at(checks, *instance) {
                Kind::CheckVerdict
            } else {
                Kind::RollVerdict
            }
        }
    }
}

fn talk_kind(talk: &Talk) -> Kind
    ensures { result ≡ talk_kind talk.now }
{
    match talk {
        Talk::Request(_) => Kind::Request,
        Talk::Reply { .. } => Kind::Reply,
    }
}

/// Whether the instance is a check.
fn check_at(checks: &[bool], instance: u64) -> bool
    ensures { result ≡ check_at checks.now instance }
{
    match checks.get((instance as usize).saturating_sub(1)) {
        Some(is_check) => *is_check,
        None => false,
    }
}

/// Whether the act that sent the message is lost; of asks, votes and verdicts no act is.
fn is_lost(story: &Story, message: &Message) -> bool
    ensures { result ≡ sender_lost story.now.state.history message.now }
{
    match message {
        Message::App(app) => story.is_act_lost(app.by),
        _ => false,
    }
}
