//! What a node asks of others.
//! Cited by other crates.

ghost use Rattle.std.specs.Prelude.{◌≡◌, IfOk};
ghost use Rattle.kt_state.specs.Asking.{check_ask, check_asks, roll_ask, roll_asks};
ghost use Rattle.kt_state.specs.Node.{node_number};
ghost use Rattle.kt_state.specs.Codes.{live_view};
ghost use Rattle.kt_state.specs.Asking.{sent_view};

use crate::labels::label_at;
use crate::live::Live;
use crate::message::{Ask, Message};
use crate::plan::Outbox;
use crate::stored::sent_in;
use kt_ckpt::CkptHeader;
use kt_link::Label;
use kt_tuple::NodeId;
use std::alloc::{AllocError, Global};

/// The ask to take a checkpoint, with the last label received from the node.
fn check_ask(instance: u64, live: &Live, node: NodeId) -> (NodeId, Message)
    ensures { result ≡ check_ask instance (live_view live.now) node }
{
    let ask = Ask {
        instance,
        label: label_at(&live.received, node),
        incarnation: live.incarnation,
    };
    (node, Message::CheckAsk(ask))
}

/// Each of these is asked to take a checkpoint.
pub fn check_asks(
    alloc: Global,
    instance: u64,
    live: &Live,
    asked: &[NodeId],
) -> Result<Outbox, AllocError>
    ensures { IfOk result (λ b. b ≡ check_asks instance (live_view live.now) asked.now) }
{
    let mut send = Outbox::empty(alloc);
    for node in asked {
        let (to, ask) = check_ask(instance, live, *node);
        send.add(to, ask)?;
    }
    Ok(send)
}

/// Where the last labels stand that were sent before the permanent checkpoint.
#[derive(Clone, Copy, Debug)]
pub enum Sent<'a> {
    /// In the header of the checkpoint, if there is one.
    CkptHeader(Option<&'a CkptHeader>),
    /// In the table of the node that was loaded from it.
    Table(&'a [Label]),
}

impl Sent<'_> {
    /// The last label sent to the node before the permanent checkpoint, `(0, 0)` where there is none.
    fn to(self, node: NodeId) -> Label
        ensures { result ≡ sent_view self.entry (node_number node) }
    {
        match self {
            Sent::CkptHeader(permanent) => sent_in(permanent, node),
            Sent::Table(table) => label_at(table, node),
        }
    }
}

/// The ask to roll back, with this label.
fn roll_ask(instance: u64, incarnation: u64, label: Label, node: NodeId) -> (NodeId, Message)
    ensures { result ≡ roll_ask instance incarnation (λ _. label) node }
{
    let ask = Ask {
        instance,
        label,
        incarnation,
    };
    (node, Message::RollAsk(ask))
}

/// Each of these is asked to roll back, with the last label sent to it before the permanent checkpoint.
pub fn roll_asks(
    alloc: Global,
    instance: u64,
    incarnation: u64,
    sent: Sent<'_>,
    asked: &[NodeId],
) -> Result<Outbox, AllocError>
    ensures { IfOk result (λ b. b ≡ roll_asks instance incarnation (sent_view sent.entry) asked.now) }
{
    let mut send = Outbox::empty(alloc);
    for node in asked {
        let (to, ask) = roll_ask(instance, incarnation, sent.to(*node), *node);
        send.add(to, ask)?;
    }
    Ok(send)
}
