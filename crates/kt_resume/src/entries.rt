//! Whether a checkpoint's list has for each worker what is in its session.
//! Cited by suits.rt; whoever calls the trait `Entry`.

ghost use Rattle.std.specs.Prelude.{◌≡◌, ◌↔◌, ◌++◌, ◌<◌, ℕ, List, Option, Some, None, IsTrue, IfSome, length};
ghost use Rattle.std.specs.Option.{option_copied};
ghost use Rattle.kt_state.specs.State.{entries, entry};
ghost use Rattle.kt_shard.specs.declared.session.Session.{Session as Remembered};
ghost use Rattle.kt_shard.specs.Limits.{sessions};
ghost use Rattle.kt_shard.specs.Table.{at};
ghost use Rattle.kt_tuple.specs.Op.{answer_eq_decides, op_eq_decides};
ghost use Rattle.kt_resume.specs.Remade.{empty_slot};

use crate::slot::Slot;
use kt_shard::{CachedReply, Request, Session};
use kt_tuple::MAX_WORKERS;

/// What a session has for its worker: a request that waits, or the last one that was served. Both are listed and
/// compared alike.
pub(crate) trait Entry: Sized {
    ghost entry_on: { Remembered → Option Self };

    /// That of the session, if it has one.
    fn on(session: &Session) -> Option<&Self>
        ensures { option_copied result ≡ entry_on session.now };

    /// Whether both are one.
    fn equals(&self, other: &Self) -> bool
        ensures { IsTrue result ↔ (self.now ≡ other.now) };
}

impl Entry for Request {
    ghost entry_on = { λ session. session.waiting };

    fn on(session: &Session) -> Option<&Request> {
        session.waiting.as_ref()
    }

    fn equals(&self, other: &Request) -> bool {
        self.number == other.number && self.op == other.op
    }
}

impl Entry for CachedReply {
    ghost entry_on = { λ session. session.cached };

    fn on(session: &Session) -> Option<&CachedReply> {
        session.cached.as_ref()
    }

    fn equals(&self, other: &CachedReply) -> bool {
        self.request.equals(&other.request) && self.answer == other.answer
    }
}

/// Whether the list has, by rising worker, just what is in the sessions of the numbers from 1.
pub(crate) fn has_entries<E: Entry>(listed: &[(u8, E)], slots: &[Slot]) -> bool
    requires { length slots.now ≡ sessions }
    ensures { IsTrue result
        ↔ (listed.now ≡ entries (λ worker. E.entry_on (at empty_slot slots.now worker).session)) }
{
    let mut rest = listed;
    for before in 0..MAX_WORKERS {
        let worker = before + 1;
        match behind_entry(rest, worker, entry_on_session(slots, worker)) {
            Some(behind) => rest = behind,
            None => return false,
        }
    }
    rest.is_empty()
}

/// What is in the session of the worker of this number.
fn entry_on_session<E: Entry>(slots: &[Slot], worker: u8) -> Option<&E>
    requires { worker < length slots.now }
    ensures { option_copied result ≡ E.entry_on (at empty_slot slots.now worker).session }
{
    E::on(slots[usize::from(worker)].session())
}

/// The list behind the worker's entry, if it begins with that; where the worker has none, all of it.
fn behind_entry<'a, E: Entry>(
    listed: &'a [(u8, E)],
    worker: u8,
    wanted: Option<&E>,
) -> Option<&'a [(u8, E)]>
    ensures some { IfSome result (λ rest. listed.now ≡ entry worker (option_copied wanted.entry) ++ rest.now) }
    ensures none { result ≡ None
        → (rest : List (ℕ × E)) → ¬ (listed.now ≡ entry worker (option_copied wanted.entry) ++ rest) }
{
    let Some(wanted) = wanted else {
        return Some(listed);
    };
    let (first, rest) = listed.split_first()?;
    if first.0 == worker && first.1.equals(wanted) {
        Some(rest)
    } else {
        None
    }
}
