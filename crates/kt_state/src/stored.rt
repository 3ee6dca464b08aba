//! What the store says to a node of its checkpoints.
//! Cited by asking.rt, loading.rt; other crates.

ghost use Rattle.std.specs.Prelude.{◌≡◌};
ghost use Rattle.std.specs.Option.{option_copied};
ghost use Rattle.kt_tuple.specs.Node.{node_number};
ghost use Rattle.kt_state.specs.Stored.{acts_in, fits, is_undecided, header_fits, received_in, sent_in};
ghost use Rattle.kt_state.specs.Loading.{header_in};
ghost use Rattle.kt_state.specs.Views.{role_view};

use crate::labels::listed_at;
use crate::role::Role;
use kt_ckpt::{Ckpt, CkptHeader};
use kt_link::Label;
use kt_store::Verdict;
use kt_tuple::NodeId;

/// What the store says to a node that is to go on from its permanent checkpoint.
#[derive(Debug, Drop)]
pub struct Stored {
    /// The node's last incarnation, from 1 on; the one that begins now is one more.
    pub incarnation: u64,
    /// Its permanent checkpoint; `None` where it has none, and goes on from its beginning.
    pub permanent: Option<Ckpt>,
}

impl Stored {
    /// How many acts the permanent checkpoint holds.
    pub fn acts(&self) -> u64
        ensures { result ≡ acts_in (header_in self.now) }
    {
        match &self.permanent {
            None => 0,
            Some(checkpoint) => checkpoint.line_len(),
        }
    }

    /// Whether acts and labels of the permanent checkpoint fit the node, which remembers so many acts.
    pub fn fits(&self, role: Role<'_>, line_len: u64) -> bool
        ensures { result ≡ fits (role_view role.entry) line_len (header_in self.now) }
    {
        match &self.permanent {
            None => true,
            Some(checkpoint) => parts_fit(
                role,
                line_len,
                checkpoint.node(),
                checkpoint.line_len(),
                checkpoint.sent(),
                checkpoint.received(),
            ),
        }
    }
}

/// Whether the instance was begun and has no verdict.
pub fn is_undecided(verdict: Option<Verdict>) -> bool
    ensures { result ≡ is_undecided verdict }
{
    match verdict {
        None => false,
        Some(verdict) => verdict.is_open(),
    }
}

/// How many acts the checkpoint holds: 0 where there is none.
pub fn acts_in(stored: Option<&CkptHeader>) -> u64
    ensures { result ≡ acts_in (option_copied stored.entry) }
{
    match stored {
        None => 0,
        Some(header) => header.line_len(),
    }
}

/// The last label that the checkpoint has sent to the node, `(0, 0)` where there is none.
pub fn sent_in(stored: Option<&CkptHeader>, node: NodeId) -> Label
    ensures { result ≡ sent_in (option_copied stored.entry) (node_number node) }
{
    match stored {
        None => Label::default(),
        Some(header) => listed_at(header.sent(), node.number()),
    }
}

/// The last label that the checkpoint has received from the node, `(0, 0)` where there is none.
pub fn received_in(stored: Option<&CkptHeader>, node: NodeId) -> Label
    ensures { result ≡ received_in (option_copied stored.entry) (node_number node) }
{
    match stored {
        None => Label::default(),
        Some(header) => listed_at(header.received(), node.number()),
    }
}

/// Whether acts and labels of the checkpoint fit the node, which remembers so many acts. No checkpoint always fits.
pub fn fits(role: Role<'_>, line_len: u64, stored: Option<&CkptHeader>) -> bool
    ensures { result ≡ fits (role_view role.entry) line_len (option_copied stored.entry) }
{
    match stored {
        None => true,
        Some(header) => parts_fit(
            role,
            line_len,
            header.node(),
            header.line_len(),
            header.sent(),
            header.received(),
        ),
    }
}

/// The test of both: the checkpoint is the node's own, has a label for each neighbour, and no more acts than the node.
pub(crate) fn parts_fit(
    role: Role<'_>,
    line_len: u64,
    node: NodeId,
    acts: u64,
    sent: &[Label],
    received: &[Label],
) -> bool
    ensures { result ≡ header_fits (role_view role.entry) line_len
        (record { node = node; line_len = acts; sent = sent.now; received = received.now }) }
{
    node == role.id
        && sent.len() == usize::from(role.peers)
        && received.len() == usize::from(role.peers)
        && acts <= line_len
}
