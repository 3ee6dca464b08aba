//! A store in memory.
//! Cited by crossing.rt; other crates; whoever calls the trait `CkptStore`.

ghost use Rattle.std.specs.Prelude.{◌≡◌, Ok, Err, IfOk, IfErr};
ghost use Rattle.kt_store.specs.Calls.{raised};

use crate::change::Change;
use crate::contents::Contents;
use crate::error::StoreError;
use crate::rows::{InstanceRow, NodeRow, Purpose, Tentative, TentativeHeader, Verdict};
use crate::store::CkptStore;
use kt_ckpt::{Ckpt, CkptHeader};
use kt_tuple::NodeId;
use std::alloc::{AllocError, Global};
use std::marker::Model;

/// The greatest incarnation, and the greatest number of an instance: a call that would go past it is `Full`. Why it is
/// not 2^64 - 1: docs/DECISIONS.md#stores.
pub const GREATEST: u64 = 1 << 62;

/// A store in memory, which is always honest. It has no device that could fail.
#[derive(Debug, Drop)]
pub struct MemStore {
    contents: Contents,
    /// How often it was refused memory, up to 2^64 - 1.
    wants: u64,
}

impl Model for MemStore {
    ghost use Rattle.kt_store.specs.Stored.{Stored};

    ghost Value = { Stored };

    ghost view = { λ s. record { content = s.contents; wants = s.wants } };
}

impl MemStore {
    ghost use Rattle.kt_store.specs.Content.{empty_content};

    /// A fresh store: no node has a row, nothing is on the board, and memory was never refused.
    pub fn new(alloc: Global) -> MemStore
        ensures { result ≡ record { content = empty_content; wants = 0 } }
    {
        MemStore {
            contents: Contents::new(alloc),
            wants: 0,
        }
    }

    /// The rows of the nodes that have one, in node order.
    pub fn rows(&self) -> &[NodeRow]
        ensures { result.now ≡ self.now.content.nodes }
    {
        self.contents.nodes()
    }

    /// The rows of the board, in the order of their instances.
    pub fn board(&self) -> &[InstanceRow]
        ensures { result.now ≡ self.now.content.board }
    {
        self.contents.board()
    }
}

impl CkptStore for MemStore {
    ghost use Rattle.std.specs.Prelude.{true};

    ghost content = { λ s. s.content };

    ghost is_honest = { λ _. true };

    ghost failures = { λ _. 0 };

    ghost is_intact = { λ _. true };

    ghost counts = { λ s. record { faults = 0; wants = s.wants } };

    fn faults(&self) -> u64 {
        0
    }

    fn wants(&self) -> u64 {
        self.wants
    }

    fn incarnation(&mut self, node: NodeId) -> Result<u64, StoreError> {
        Ok(self.contents.incarnation_of(node))
    }

    fn permanent(&mut self, alloc: Global, node: NodeId) -> Result<Option<Ckpt>, StoreError> {
        let answer = self.contents.permanent_of(alloc, node);
        count(&mut self.wants, answer)
    }

    fn tentative(&mut self, alloc: Global, node: NodeId) -> Result<Option<Tentative>, StoreError> {
        let answer = self.contents.tentative_of(alloc, node);
        count(&mut self.wants, answer)
    }

    fn permanent_header(
        &mut self,
        alloc: Global,
        node: NodeId,
    ) -> Result<Option<CkptHeader>, StoreError> {
        let answer = self.contents.permanent_header_of(alloc, node);
        count(&mut self.wants, answer)
    }

    fn tentative_header(
        &mut self,
        alloc: Global,
        node: NodeId,
    ) -> Result<Option<TentativeHeader>, StoreError> {
        let answer = self.contents.tentative_header_of(alloc, node);
        count(&mut self.wants, answer)
    }

    fn verdict(&mut self, instance: u64) -> Result<Option<Verdict>, StoreError> {
        Ok(self.contents.verdict_of(instance))
    }

    fn initiator(&mut self, instance: u64) -> Result<Option<NodeId>, StoreError> {
        Ok(self.contents.initiator_of(instance))
    }

    fn open_of(&mut self, node: NodeId) -> Result<Option<u64>, StoreError> {
        Ok(self.contents.open_instance_of(node))
    }

    fn next_instance(&mut self) -> Result<u64, StoreError> {
        Ok(self.contents.next_number())
    }

    fn is_fresh(&mut self) -> Result<bool, StoreError> {
        Ok(self.contents.has_nothing())
    }

    fn nodes(&mut self, alloc: Global) -> Result<Vec<NodeId>, StoreError> {
        let answer = self.contents.node_names(alloc);
        count(&mut self.wants, answer)
    }

    fn begin_check(&mut self, node: NodeId, ckpt: &Ckpt) -> Result<(), StoreError> {
        let instance = self.contents.next_number();
        if instance > GREATEST {
            return Err(StoreError::Full);
        }
        let copy = ckpt.copy(self.contents.allocator());
        let checkpoint = count(&mut self.wants, copy)?;
        let change = Change::Take(Tentative {
            instance,
            checkpoint,
        });
        let answer = self.contents.begin(node, Purpose::Check, instance, change);
        count(&mut self.wants, answer)
    }

    fn put_tentative(
        &mut self,
        node: NodeId,
        instance: u64,
        ckpt: &Ckpt,
    ) -> Result<(), StoreError> {
        let copy = ckpt.copy(self.contents.allocator());
        let checkpoint = count(&mut self.wants, copy)?;
        let change = Change::Take(Tentative {
            instance,
            checkpoint,
        });
        let answer = self.contents.change(node, change);
        count(&mut self.wants, answer)
    }

    fn promote(&mut self, node: NodeId) -> Result<(), StoreError> {
        let answer = self.contents.change(node, Change::Promote);
        count(&mut self.wants, answer)
    }

    fn discard(&mut self, node: NodeId) -> Result<(), StoreError> {
        let answer = self.contents.change(node, Change::Discard);
        count(&mut self.wants, answer)
    }

    fn begin_restart(&mut self, node: NodeId) -> Result<(), StoreError> {
        let instance = self.contents.next_number();
        let incarnation = self.contents.incarnation_of(node);
        if instance > GREATEST || incarnation == GREATEST {
            return Err(StoreError::Full);
        }
        let change = Change::Incarnation(incarnation + 1);
        let answer = self
            .contents
            .begin(node, Purpose::Rollback, instance, change);
        count(&mut self.wants, answer)
    }

    fn bump(&mut self, node: NodeId) -> Result<(), StoreError> {
        let incarnation = self.contents.incarnation_of(node);
        if incarnation == GREATEST {
            return Err(StoreError::Full);
        }
        let answer = self
            .contents
            .change(node, Change::Incarnation(incarnation + 1));
        count(&mut self.wants, answer)
    }

    fn decide(&mut self, instance: u64, yes: bool) -> Result<(), StoreError> {
        self.contents.settle(instance, yes);
        Ok(())
    }
}

/// The answer as a store gives it. Where memory was refused, that is counted; the count stays at the greatest number.
fn count<T>(wants: &mut u64, answer: Result<T, AllocError>) -> Result<T, StoreError>
    ensures ok { IfOk answer (λ t. (result ≡ Ok t) × (wants.new ≡ wants.old)) }
    ensures err { IfErr answer (λ _. (result ≡ Err StoreError.Memory) × (wants.new ≡ raised wants.old)) }
{
    match answer {
        Ok(value) => Ok(value),
        Err(error) => {
            *wants = wants.saturating_add(1);
            Err(StoreError::from(error))
        }
    }
}
