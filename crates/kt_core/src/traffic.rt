//! The messages that a step sends, takes off and makes room for, and its note.
//! Cited by at_once.rt, machine.rt, short_plans.rt.

ghost use Rattle.std.specs.Prelude.{◌≡◌, ◌≤◌, ◌∷◌, [], length, option_to_list, OnOk, IfSome};
ghost use Rattle.std.specs.List.{AllByRecursion};
ghost use Rattle.kt_history.specs.Chronicle.{node_of, room_of};
ghost use Rattle.kt_history.specs.WellFormed.{MayFollow};
ghost use Rattle.kt_link.specs.Network.{AreNeighbours, place, room};
ghost use Rattle.kt_model.specs.Effect.{sent, taken_off, noted};
ghost use Rattle.kt_core.specs.auxiliary.Traffic.{IsSameTraffic};

use kt_ckpt::Past;
use kt_history::Note;
use kt_link::Links;
use kt_model::Step;
use kt_node::Message;
use kt_tuple::NodeId;
use std::alloc::AllocError;

/// Makes room on the links for these messages of the owner.
pub(crate) fn make_room_on_links(
    links: &mut Links<Message>,
    owner: NodeId,
    send: &[(NodeId, Message)],
) -> Result<(), AllocError>
    requires { AllByRecursion (λ m. AreNeighbours links.old.workers links.old.shards owner m.0) send.now }
    ensures same { IsSameTraffic links.old links.new }
    ensures room { OnOk result (AllByRecursion (λ m. length send.now ≤ room links.new owner m.0) send.now) }
{
    for (to, _) in send {
        // Each link gets room for all that is sent, which is at least its own share, so nobody has to count these.
        links.reserve(owner, *to, send.len())?;
    }
    Ok(())
}

/// Takes the first message off the link by which the step's message came.
pub(crate) fn take_off(links: &mut Links<Message>, step: Step)
    ensures queues { links.new.queues ≡ taken_off (place links.old.workers links.old.shards) links.old.queues step }
    ensures workers { links.new.workers ≡ links.old.workers }
    ensures shards { links.new.shards ≡ links.old.shards }
    ensures room { (p q : NodeId) → room links.old p q ≤ room links.new p q }
{
    if let Step::Deliver { from, to } = step {
        links.pop(from, to);
    }
}

/// Sends the messages of the owner, for which there is room.
pub(crate) fn send_all(links: &mut Links<Message>, owner: NodeId, send: Vec<(NodeId, Message)>)
    requires there { AllByRecursion (λ m. AreNeighbours links.old.workers links.old.shards owner m.0) send.items }
    requires room { AllByRecursion (λ m. length send.items ≤ room links.old owner m.0) send.items }
    ensures queues { links.new.queues ≡
        sent (place links.old.workers links.old.shards) links.old.queues owner send.items }
    ensures workers { links.new.workers ≡ links.old.workers }
    ensures shards { links.new.shards ≡ links.old.shards }
{
    for (to, message) in send {
        links.push_reserved(owner, to, message);
    }
}

/// Sends one message of the owner, for which there is room.
pub(crate) fn send_one(links: &mut Links<Message>, owner: NodeId, to: NodeId, message: Message)
    requires there { AreNeighbours links.old.workers links.old.shards owner to }
    requires room { 1 ≤ room links.old owner to }
    ensures queues { links.new.queues ≡
        sent (place links.old.workers links.old.shards) links.old.queues owner ((to, message) ∷ []) }
    ensures workers { links.new.workers ≡ links.old.workers }
    ensures shards { links.new.shards ≡ links.old.shards }
{
    links.push_reserved(owner, to, message);
}

/// Makes room on the link for the message of the owner, if there is one.
pub(crate) fn make_room_on_link(
    links: &mut Links<Message>,
    owner: NodeId,
    send: &Option<(NodeId, Message)>,
) -> Result<(), AllocError>
    requires { IfSome send.now (λ m. AreNeighbours links.old.workers links.old.shards owner m.0) }
    ensures same { IsSameTraffic links.old links.new }
    ensures room { OnOk result (IfSome send.now (λ m. 1 ≤ room links.new owner m.0)) }
{
    if let Some((to, _)) = send {
        links.reserve(owner, *to, 1)?;
    }
    Ok(())
}

/// Sends the message of the owner, if there is one, for which there is room.
pub(crate) fn send_if_any(
    links: &mut Links<Message>,
    owner: NodeId,
    send: Option<(NodeId, Message)>,
)
    requires there { IfSome send (λ m. AreNeighbours links.old.workers links.old.shards owner m.0) }
    requires room { IfSome send (λ m. 1 ≤ room links.old owner m.0) }
    ensures queues { links.new.queues ≡
        sent (place links.old.workers links.old.shards) links.old.queues owner (option_to_list send) }
    ensures workers { links.new.workers ≡ links.old.workers }
    ensures shards { links.new.shards ≡ links.old.shards }
{
    match send {
        Some((to, message)) => send_one(links, owner, to, message),
        None => {}
    }
}

/// Makes the note, if there is one, for which there is room.
pub(crate) fn add_note(past: &mut Past, note: Option<Note>)
    requires follows { IfSome note (MayFollow past.old.notes) }
    requires room { IfSome note (λ n. 1 ≤ room_of past.old (node_of n)) }
    ensures { past.new.notes ≡ noted past.old.notes note }
{
    if let Some(note) = note {
        past.add(note);
    }
}
