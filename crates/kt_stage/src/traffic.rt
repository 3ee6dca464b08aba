//! What is sought among the messages that are on their way, and among those that nodes keep back.
//! Cited by asking.rt.

ghost use Rattle.std.specs.Prelude.{◌≡◌, slice_get};
ghost use Rattle.kt_core.specs.Lent.{kept};
ghost use Rattle.kt_model.specs.State.{link};
ghost use Rattle.kt_stage.specs.Traffic.{is_about, is_ask, is_kept, is_kept_of, is_on_link, is_sought};
ghost use Rattle.kt_stage.specs.auxiliary.Midway.{is_found};
ghost use Rattle.kt_stage.specs.Traffic.{number_in};

use kt_core::World;
use kt_node::{AppMessage, Ask, Message, Talk};
use kt_store::CkptStore;
use kt_tuple::NodeId;

/// Which messages are sought.
#[derive(Clone, Copy, Debug, PartialEq, Eq)]
pub enum Sought {
    /// Underlying messages about a request with this number: the request, or a reply to it.
    Number(u64),
    /// Asks in this instance and in this incarnation of the asker.
    Ask { instance: u64, incarnation: u64 },
    /// Votes in this instance, on an ask in this incarnation of the asker.
    Vote { instance: u64, incarnation: u64 },
}

/// The number of the request that is asked, or answered.
fn number_in(talk: &Talk) -> u64
    ensures { result ≡ number_in talk.now }
{
    match talk {
        Talk::Request(request) => request.number,
        Talk::Reply { request, .. } => request.number,
    }
}

fn is_about(number: u64, app: &AppMessage) -> bool
    ensures { result ≡ is_about number app.now }
{
    number_in(&app.talk) == number
}

fn is_ask(instance: u64, incarnation: u64, ask: &Ask) -> bool
    ensures { result ≡ is_ask instance incarnation ask.now }
{
    ask.instance == instance && ask.incarnation == incarnation
}

impl Sought {
    /// Whether the message is one of those that are sought.
    fn is_met(self, message: &Message) -> bool
        ensures { result ≡ is_sought self message.now }
    {
        match (self, message) {
            (Sought::Number(number), Message::App(app)) => is_about(number, app),
            (
                Sought::Ask {
                    instance,
                    incarnation,
                },
                Message::CheckAsk(ask),
            ) => { is_ask(instance, incarnation, ask) }
            (
                Sought::Ask {
                    instance,
                    incarnation,
                },
                Message::RollAsk(ask),
            ) => { is_ask(instance, incarnation, ask) }
            (
                Sought::Vote {
                    instance,
                    incarnation,
                },
                Message::Vote(vote),
            ) => { vote.instance == instance && vote.incarnation == incarnation }
            _ => false,
        }
    }
}

/// Whether the message at this place of the link, counted from 0, is such a one; no past the last.
fn is_met_at<S: CkptStore>(
    world: &World<S>,
    from: NodeId,
    to: NodeId,
    index: usize,
    sought: Sought,
) -> bool
    ensures { result ≡ is_found (is_sought sought) (slice_get (link world.now.state from to) index) }
{
    match world.link_at(from, to, index) {
        None => false,
        Some(message) => sought.is_met(message),
    }
}

/// Whether such a message is on its way from one to the other.
pub(crate) fn is_on_link<S: CkptStore>(
    world: &World<S>,
    from: NodeId,
    to: NodeId,
    sought: Sought,
) -> bool
    ensures { result ≡ is_on_link world.now.state from to sought }
{
    for index in 0..world.link_len(from, to) {
        if is_met_at(world, from, to, index, sought) {
            return true;
        }
    }
    false
}

/// Whether this is from the node, and has the number.
fn is_kept_of(from: NodeId, number: u64, kept: &(NodeId, AppMessage)) -> bool
    ensures { result ≡ is_kept_of from number kept.now }
{
    kept.0 == from && is_about(number, &kept.1)
}

/// Whether what the node keeps back with so many before it is from the other, and has the number.
fn is_kept_at<S: CkptStore>(
    world: &World<S>,
    node: NodeId,
    index: usize,
    from: NodeId,
    number: u64,
) -> bool
    ensures { result ≡ is_found (is_kept_of from number) (slice_get (kept world.now.state node) index) }
{
    match world.kept_at(node, index) {
        None => false,
        Some(kept) => is_kept_of(from, number, kept),
    }
}

/// Whether the node keeps back an underlying message of the other with this number.
pub(crate) fn is_kept<S: CkptStore>(
    world: &World<S>,
    node: NodeId,
    from: NodeId,
    number: u64,
) -> bool
    ensures { result ≡ is_kept world.now.state node from number }
{
    for index in 0..world.kept_len(node) {
        if is_kept_at(world, node, index, from, number) {
            return true;
        }
    }
    false
}
