//! A checkpoint without its node's state: what a node decides by before it loads one.
//! Cited by ckpt.rt, decode.rt; other crates.

ghost use Rattle.std.specs.Prelude.{◌≡◌, IfOk};

use kt_link::Label;
use kt_tuple::NodeId;
use std::alloc::{AllocError, Global};
use std::marker::Model;
use std::sync::Arc;

/// What a checkpoint says besides its node's state. It costs nothing that grows with what the node holds. It has the
/// same four readers as `Ckpt`, and is what a store tells of a checkpoint that it does not load. It is one shared
/// block.
#[derive(Debug, Drop)]
pub struct CkptHeader {
    parts: Arc<HeaderParts, Global>,
}

#[derive(Debug, Drop)]
struct HeaderParts {
    node: NodeId,
    line_len: u64,
    sent: Vec<Label>,
    received: Vec<Label>,
}

impl Model for HeaderParts {
    ghost use Rattle.kt_ckpt.specs.Header.{HeaderFields, fields_of};

    ghost Value = { HeaderFields };

    ghost view = { λ m. fields_of m.node m.line_len m.sent.items m.received.items };
}

impl Model for CkptHeader {
    ghost use Rattle.std.specs.Arc.{arc_value};
    ghost use Rattle.kt_ckpt.specs.Header.{HeaderFields};

    ghost Value = { HeaderFields };

    ghost view = { λ m. arc_value m.parts };
}

impl CkptHeader {
    ghost use Rattle.kt_ckpt.specs.Header.{fields_of};

    /// The header of a checkpoint with these parts.
    pub(crate) fn new(
        alloc: Global,
        node: NodeId,
        line_len: u64,
        sent: Vec<Label>,
        received: Vec<Label>,
    ) -> Result<CkptHeader, AllocError>
        ensures { IfOk result (λ m. m ≡ fields_of node line_len sent.items received.items) }
    {
        let parts = HeaderParts {
            node,
            line_len,
            sent,
            received,
        };
        Ok(CkptHeader {
            parts: Arc::new(alloc, parts)?,
        })
    }

    /// An equal header, which shares the block with this one: it takes no memory.
    pub(crate) fn copy(&self, _alloc: Global) -> Result<CkptHeader, AllocError>
        ensures { IfOk result (λ m. m ≡ self.now) }
    {
        Ok(CkptHeader {
            parts: Arc::try_clone(&self.parts)?,
        })
    }

    /// Whose checkpoint it is.
    pub fn node(&self) -> NodeId
        ensures { result ≡ self.now.node }
    {
        self.parts.node
    }

    /// How many acts the node's log had when it was taken.
    pub fn line_len(&self) -> u64
        ensures { result ≡ self.now.line_len }
    {
        self.parts.line_len
    }

    /// For each neighbour, in node order, the label of the last message sent to it.
    pub fn sent(&self) -> &[Label]
        ensures { result.now ≡ self.now.sent }
    {
        &self.parts.sent
    }

    /// For each neighbour, in node order, the label of the last message heard from it.
    pub fn received(&self) -> &[Label]
        ensures { result.now ≡ self.now.received }
    {
        &self.parts.received
    }
}
