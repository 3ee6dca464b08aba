//! A store of which one call fails, to try what stands on a store.
//! Cited by whoever calls the trait `CkptStore`.

ghost use Rattle.std.specs.Prelude.{◌≡◌, ◌↔◌, ◌-◌, ◌||◌, false, IsTrue};
ghost use Rattle.kt_store.specs.auxiliary.Failing.{with_fault};

use crate::error::StoreError;
use crate::rows::{Tentative, TentativeHeader, Verdict};
use crate::store::CkptStore;
use kt_ckpt::{Ckpt, CkptHeader};
use kt_tuple::NodeId;
use std::alloc::Global;

/// A store of which one call answers `Device`, as if its device had failed, and changes nothing else. All other calls
/// go to the store below. A call that can fail is each but `faults` and `wants`.
#[derive(Debug, Drop)]
pub struct FaultStore<S: CkptStore> {
    inner: S,
    /// How many calls are left up to the one that fails and with it, 0 where none will.
    left: u64,
    /// Whether it came.
    has_failed: bool,
    ghost spent: { IsTrue has_failed → left ≡ 0 },
}

impl<S: CkptStore> FaultStore<S> {
    /// Over this store. Of the calls that can fail, counted from 1, the one at this number does; none where it is 0.
    pub fn new(inner: S, at: u64) -> FaultStore<S>
        ensures inner { result.inner ≡ inner }
        ensures left { result.left ≡ at }
        ensures not_yet { result.has_failed ≡ false }
    {
        FaultStore {
            inner,
            left: at,
            has_failed: false,
        }
    }

    /// Whether the call that fails came.
    pub fn has_failed(&self) -> bool
        ensures { result ≡ self.now.has_failed }
    {
        self.has_failed
    }

    /// Gives the store below back.
    pub fn into_inner(self) -> S
        ensures { result ≡ self.inner }
    {
        self.inner
    }

    /// Whether this call is the one that fails. Each call that can fail asks once, before all else. That it does is
    /// more than the clauses of `CkptStore` can say: tests show it.
    fn fails(&mut self) -> bool
        ensures due { IsTrue result ↔ (self.old.left ≡ 1) }
        ensures inner { self.new.inner ≡ self.old.inner }
        ensures left { self.new.left ≡ self.old.left - 1 }
        ensures failed { self.new.has_failed ≡ (self.old.has_failed || result) }
        ensures once { IsTrue result → self.old.has_failed ≡ false }
    {
        let is_due = self.left == 1;
        self.left = self.left.saturating_sub(1);
        self.has_failed = self.has_failed || is_due;
        is_due
    }
}

#[tactic(auto, using(crate::proofs::Faulting::passed_on, crate::proofs::Faulting::own_fault))]
impl<S: CkptStore> CkptStore for FaultStore<S> {
    ghost content = { λ s. S.content s.inner };

    ghost is_honest = { λ s. S.is_honest s.inner };

    ghost failures = { λ s. S.failures s.inner };

    ghost is_intact = { λ s. S.is_intact s.inner };

    ghost counts = { λ s. with_fault s.has_failed (S.counts s.inner) };

    fn faults(&self) -> u64 {
        let faults = self.inner.faults();
        if self.has_failed {
            faults.saturating_add(1)
        } else {
            faults
        }
    }

    fn wants(&self) -> u64 {
        self.inner.wants()
    }

    fn incarnation(&mut self, node: NodeId) -> Result<u64, StoreError> {
        if self.fails() {
            return Err(StoreError::Device);
        }
        self.inner.incarnation(node)
    }

    fn permanent(&mut self, alloc: Global, node: NodeId) -> Result<Option<Ckpt>, StoreError> {
        if self.fails() {
            return Err(StoreError::Device);
        }
        self.inner.permanent(alloc, node)
    }

    fn tentative(&mut self, alloc: Global, node: NodeId) -> Result<Option<Tentative>, StoreError> {
        if self.fails() {
            return Err(StoreError::Device);
        }
        self.inner.tentative(alloc, node)
    }

    fn permanent_header(
        &mut self,
        alloc: Global,
        node: NodeId,
    ) -> Result<Option<CkptHeader>, StoreError> {
        if self.fails() {
            return Err(StoreError::Device);
        }
        self.inner.permanent_header(alloc, node)
    }

    fn tentative_header(
        &mut self,
        alloc: Global,
        node: NodeId,
    ) -> Result<Option<TentativeHeader>, StoreError> {
        if self.fails() {
            return Err(StoreError::Device);
        }
        self.inner.tentative_header(alloc, node)
    }

    fn verdict(&mut self, instance: u64) -> Result<Option<Verdict>, StoreError> {
        if self.fails() {
            return Err(StoreError::Device);
        }
        self.inner.verdict(instance)
    }

    fn initiator(&mut self, instance: u64) -> Result<Option<NodeId>, StoreError> {
        if self.fails() {
            return Err(StoreError::Device);
        }
        self.inner.initiator(instance)
    }

    fn open_of(&mut self, node: NodeId) -> Result<Option<u64>, StoreError> {
        if self.fails() {
            return Err(StoreError::Device);
        }
        self.inner.open_of(node)
    }

    fn next_instance(&mut self) -> Result<u64, StoreError> {
        if self.fails() {
            return Err(StoreError::Device);
        }
        self.inner.next_instance()
    }

    fn is_fresh(&mut self) -> Result<bool, StoreError> {
        if self.fails() {
            return Err(StoreError::Device);
        }
        self.inner.is_fresh()
    }

    fn nodes(&mut self, alloc: Global) -> Result<Vec<NodeId>, StoreError> {
        if self.fails() {
            return Err(StoreError::Device);
        }
        self.inner.nodes(alloc)
    }

    fn begin_check(&mut self, node: NodeId, ckpt: &Ckpt) -> Result<(), StoreError> {
        if self.fails() {
            return Err(StoreError::Device);
        }
        self.inner.begin_check(node, ckpt)
    }

    fn put_tentative(
        &mut self,
        node: NodeId,
        instance: u64,
        ckpt: &Ckpt,
    ) -> Result<(), StoreError> {
        if self.fails() {
            return Err(StoreError::Device);
        }
        self.inner.put_tentative(node, instance, ckpt)
    }

    fn promote(&mut self, node: NodeId) -> Result<(), StoreError> {
        if self.fails() {
            return Err(StoreError::Device);
        }
        self.inner.promote(node)
    }

    fn discard(&mut self, node: NodeId) -> Result<(), StoreError> {
        if self.fails() {
            return Err(StoreError::Device);
        }
        self.inner.discard(node)
    }

    fn begin_restart(&mut self, node: NodeId) -> Result<(), StoreError> {
        if self.fails() {
            return Err(StoreError::Device);
        }
        self.inner.begin_restart(node)
    }

    fn bump(&mut self, node: NodeId) -> Result<(), StoreError> {
        if self.fails() {
            return Err(StoreError::Device);
        }
        self.inner.bump(node)
    }

    fn decide(&mut self, instance: u64, yes: bool) -> Result<(), StoreError> {
        if self.fails() {
            return Err(StoreError::Device);
        }
        self.inner.decide(instance, yes)
    }
}
