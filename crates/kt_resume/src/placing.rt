//! The history of a world that is resumed: acts are placed, each once its cause is.
//! Cited by logs.rt.

ghost use Rattle.std.specs.Prelude.{◌≡◌, ◌+◌, ◌<◌, ◌∷◌, [], IfOk, IfSome, IsTrue, IsOk, Some, None, OnOk, OnErr};
ghost use Rattle.std.specs.Prelude.{if◌then◌else◌, is_some, length, drop, slice_get};
ghost use Rattle.kt_model.specs.Effect.{noted};
ghost use Rattle.kt_model.specs.Placing.{Acts, number_of, placed};
ghost use Rattle.kt_resume.specs.Turns.{AreApart, AreLeft, count_left, nodes_in};
ghost use Rattle.kt_resume.specs.auxiliary.Next.{first_in, next_in, next_at};

use crate::unplaced::Unplaced;
use kt_history::{Act, History, Note};
use kt_tuple::NodeId;
use std::alloc::{AllocError, Global};

/// The history of all acts that can be placed: again and again the next act of the first node whose next act's cause is
/// placed, or that has none. The acts are moved out of the lists, of which each is of another node.
pub fn place_all(alloc: Global, logs: &mut [Unplaced]) -> Result<History, AllocError>
    ensures placed { IfOk result (λ h. (acts : Acts) → AreApart (nodes_in logs.old) → AreLeft acts [] logs.old
        → h.notes ≡ placed acts (nodes_in logs.old) (count_left logs.old) []) }
    ensures left { IfOk result (λ h. (acts : Acts) → AreApart (nodes_in logs.old) → AreLeft acts [] logs.old
        → AreLeft acts h.notes logs.new) }
{
    let mut history = History::new(alloc);
    'places: while place_next(&mut history, logs)? {}
    Ok(history)
}

/// Places the next act that can be, if there is one.
fn place_next(history: &mut History, logs: &mut [Unplaced]) -> Result<bool, AllocError>
    ensures notes { IfOk result (λ placed.
        history.new.notes ≡ noted history.old.notes (first_in history.old.notes logs.old)) }
    ensures any { IfOk result (λ placed. placed ≡ is_some (first_in history.old.notes logs.old)) }
    ensures left { IfOk result (λ placed. (acts : Acts) → AreApart (nodes_in logs.old)
        → AreLeft acts history.old.notes logs.old → AreLeft acts history.new.notes logs.new) }
    ensures nodes { nodes_in logs.new ≡ nodes_in logs.old }
    ensures count { IfOk result (λ placed.
        count_left logs.old ≡ (if placed then 1 else 0) + count_left logs.new) }
{
    match first_ready(history, logs) {
        Some(at) => {
            place(history, &mut logs[at])?;
            Ok(true)
        }
        None => Ok(false),
    }
}

/// The number of the first list whose next act can be placed, counted from 0.
fn first_ready(history: &History, logs: &[Unplaced]) -> Option<usize>
    ensures none { result ≡ None → first_in history.now.notes logs.now ≡ None }
    ensures first { IfSome result (λ at.
        first_in history.now.notes logs.now ≡ next_at history.now.notes (slice_get logs.now at)) }
    ensures ready { IfSome result (λ at.
        IsTrue (is_some (next_at history.now.notes (slice_get logs.now at)))) }
{
    for (at, log) in logs.iter().enumerate() {
        if is_ready(history, log) {
            return Some(at);
        }
    }
    None
}

/// Whether the next act of the list can be placed.
fn is_ready(history: &History, log: &Unplaced) -> bool
    ensures { result ≡ is_some (next_in history.now.notes log.now) }
{
    match log.next() {
        Some(act) => number_of(history, act.by).is_some(),
        None => false,
    }
}

/// The number of the act at this place of this node's log, 0 where none is meant, if it is placed already.
fn number_of(history: &History, by: Option<(NodeId, u64)>) -> Option<u64>
    ensures { result ≡ number_of history.now.notes by }
{
    match by {
        None => Some(0),
        Some((_, 0)) => None,
        Some((node, place)) => history.line(node).get(place as usize - 1).copied(),
    }
}

/// Places the next act of the list, which can be placed.
fn place(history: &mut History, log: &mut Unplaced) -> Result<(), AllocError>
    requires { IsTrue (is_some (next_in history.old.notes log.old)) }
    ensures notes { OnOk result
        (history.new.notes ≡ noted history.old.notes (next_in history.old.notes log.old)) }
    ensures rest { OnOk result (log.new.acts ≡ drop 1 log.old.acts) }
    ensures one { OnOk result (length log.old.acts ≡ 1 + length log.new.acts) }
    ensures node { log.new.node ≡ log.old.node }
    ensures unplaced { OnErr result (log.new ≡ log.old) }
{
    let node = log.node();
    history.make_room(node)?;
    let by = match log.next() {
        Some(act) => number_of(history, act.by),
        None => None,
    };
    if let (Some(by), Some(act)) = (by, log.take()) {
        history.add(Note::Act(Act {
            node,
            by,
            worker: act.worker,
            number: act.number,
            op: act.op,
            what: act.what,
        }));
    }
    Ok(())
}
