//! Whether what nodes did makes sense where it is placed.
//! Cited by judging.rt.

ghost use Rattle.std.specs.Prelude.{◌≡◌, ◌↔◌, IsTrue};
ghost use Rattle.kt_history.specs.Closed.{acts_in_log};
ghost use Rattle.kt_history.specs.WellFormed.{CausesComeFirst, HeardReply, HeardRequest, IsAnswering, IsAsking};
ghost use Rattle.kt_history.specs.WellFormed.{IsShard, SameRequest};
ghost use Rattle.kt_logs.specs.Legal.{IsLog};
ghost use Rattle.kt_logs.specs.Order.{Setting};
ghost use Rattle.kt_model.specs.Resumed.{MakesSense};
ghost use Rattle.kt_resume.specs.auxiliary.Sense.{CauseFits};

use kt_history::{Act, History, What};
use kt_tuple::{Answer, NodeId};

/// Whether each act of the node's log makes sense where it is placed: what it heard was sent by its cause. That what a
/// shard answers again was served so before need not be asked where its log is one that it may make.
pub(crate) fn makes_sense(history: &History, node: NodeId) -> bool
    ensures { (setting : Setting) → CausesComeFirst history.now.notes
        → IsLog setting node (acts_in_log history.now.notes node)
        → (IsTrue result ↔ MakesSense history.now.notes node) }
{
    for number in history.line(node) {
        // Each number of a log is of an act.
        if let Some(act) = history.act(*number) {
            if !has_cause(history, act) {
                return false;
            }
        }
    }
    true
}

/// Whether the act's cause sent what the act heard, or it has none where it heard nothing.
fn has_cause(history: &History, act: &Act) -> bool
    ensures { IsTrue result ↔ CauseFits history.now.notes act.now act.now.what }
{
    match &act.what {
        What::Issue | What::Repeat => act.by == 0,
        What::Heard | What::Served(_) | What::Again(_) => heard_request(history, act),
        What::Accepted(answer) => heard_reply(history, act, answer),
        What::Ignored(None) => matches!(act.node, NodeId::Shard(_)) && heard_request(history, act),
        What::Ignored(Some(answer)) => {
            matches!(act.node, NodeId::Worker(_)) && heard_reply(history, act, answer)
        }
    }
}

/// Whether the act's cause asked for the request that the act is about.
fn heard_request(history: &History, act: &Act) -> bool
    ensures { IsTrue result ↔ HeardRequest history.now.notes act.now }
{
    match history.act(act.by) {
        Some(cause) => is_asking(&cause.what) && are_about_one(act, cause),
        None => false,
    }
}

/// Whether the act's cause is a shard's, and answered the request that the act is about so.
fn heard_reply(history: &History, act: &Act, answer: &Answer) -> bool
    ensures { IsTrue result ↔ HeardReply history.now.notes act.now answer.now }
{
    match history.act(act.by) {
        Some(cause) => {
            is_shard(cause.node) && is_answering(&cause.what, answer) && are_about_one(act, cause)
        }
        None => false,
    }
}

fn is_shard(node: NodeId) -> bool
    ensures { IsTrue result ↔ IsShard node }
{
    matches!(node, NodeId::Shard(_))
}

/// Whether such an act sends a request.
fn is_asking(what: &What) -> bool
    ensures { IsTrue result ↔ IsAsking what.now }
{
    matches!(what, What::Issue | What::Repeat)
}

/// Whether such an act sends this answer.
fn is_answering(what: &What, answer: &Answer) -> bool
    ensures { IsTrue result ↔ IsAnswering what.now answer.now }
{
    match what {
        What::Served(given) | What::Again(given) => given == answer,
        _ => false,
    }
}

/// Whether two acts are about one request: the same worker, number and operation.
fn are_about_one(act: &Act, other: &Act) -> bool
    ensures { IsTrue result ↔ SameRequest act.now other.now }
{
    other.worker == act.worker && other.number == act.number && other.op == act.op
}
