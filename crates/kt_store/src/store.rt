//! What a store of checkpoints and verdicts promises.
//! Cited by faulty.rt, memory.rt; other crates.

ghost use Rattle.std.specs.Prelude.{◌≡◌, ◌⊎◌, ◌+◌, ◌≤◌, ℕ, Bool, None, Some, false, IsTrue, IsErrOf, IfOk, OnOk, OnErr};
ghost use Rattle.kt_store.specs.declared.rows.Verdict.TheVariants as verdicts;
ghost use Rattle.kt_store.specs.Content.{Content, HasVerdict, greatest, initiator_of, is_fresh, next_instance};
ghost use Rattle.kt_store.specs.Content.{nodes_in};
ghost use Rattle.kt_store.specs.Content.{open_of, permanent_header, row_of, tentative_header, verdict_of};
ghost use Rattle.kt_store.specs.Changes.{bumped, check_begun, decided, discarded};
ghost use Rattle.kt_store.specs.Changes.{promoted, restart_begun, tentative_put};
ghost use Rattle.kt_store.specs.Proper.{IsProper};
ghost use Rattle.kt_store.specs.Calls.{Counts, HasCause, NeverFails};

use crate::error::StoreError;
use crate::rows::{Tentative, TentativeHeader, Verdict};
use kt_ckpt::{Ckpt, CkptHeader};
use kt_tuple::NodeId;
use std::alloc::Global;

/// Where a world keeps what outlasts the failure of a node. What is said of the content is said while the store is
/// honest. One that is honest after a call was so before it, so who finds it honest at the end knows of all calls.
pub trait CkptStore {
    /// What is stored: the abstract state of the store.
    ghost content: { Self → Content };

    /// Whether it has answered so far as a store must: what it answers is what is stored.
    ghost is_honest: { Self → Bool };

    /// How often what lies under it has failed it so far: it did not return what was written, or broke off. Of a kind
    /// of stores that nothing can fail so, each that is honest stays so.
    ghost failures: { Self → ℕ };

    /// Whether what is stored is as it was written: only where it is not is a call refused as `Damaged`. A store that
    /// can't be reached any more is not honest, and may be intact.
    ghost is_intact: { Self → Bool };

    /// How often its device has failed so far, and how often memory was refused. Each count rises by one in just the
    /// calls that answer so, and stays at 2^64 - 1.
    ghost counts: { Self → Counts };

    /// How often the device has failed so far. A refusal is told from damage by it: `Device` only where it rose or
    /// stands at its greatest value.
    fn faults(&self) -> u64
        ensures { result ≡ (counts self.now).faults };

    /// How often memory was refused so far: `Memory` only where it rose or stands at its greatest value.
    fn wants(&self) -> u64
        ensures { result ≡ (counts self.now).wants };

    /// The incarnation of the node: 1 at first, one more by each `begin_restart` and `bump`, and 2^62 at most.
    fn incarnation(&mut self, node: NodeId) -> Result<u64, StoreError>
        ensures value { IsTrue (is_honest self.new)
            → IfOk result (λ n. n ≡ (row_of (content self.old) node).incarnation) }
        ensures most { IsTrue (is_honest self.new) → IfOk result (λ n. n ≤ greatest) }
        ensures same { IsTrue (is_honest self.new) → content self.new ≡ content self.old }
        ensures honest { IsTrue (is_honest self.new) → IsTrue (is_honest self.old) }
        ensures lasts { NeverFails failures → IsTrue (is_honest self.old) → IsTrue (is_honest self.new) }
        ensures intact { IsErrOf result StoreError.Damaged → is_intact self.new ≡ false }
        ensures cause { HasCause (counts self.old) (counts self.new) (is_honest self.new) ⊥ result };

    /// The permanent checkpoint of the node; `None` where it is the initial one. It may share its memory with the
    /// store.
    fn permanent(&mut self, alloc: Global, node: NodeId) -> Result<Option<Ckpt>, StoreError>
        ensures value { IsTrue (is_honest self.new)
            → IfOk result (λ c. c ≡ (row_of (content self.old) node).permanent) }
        ensures same { IsTrue (is_honest self.new) → content self.new ≡ content self.old }
        ensures honest { IsTrue (is_honest self.new) → IsTrue (is_honest self.old) }
        ensures lasts { NeverFails failures → IsTrue (is_honest self.old) → IsTrue (is_honest self.new) }
        ensures intact { IsErrOf result StoreError.Damaged → is_intact self.new ≡ false }
        ensures cause { HasCause (counts self.old) (counts self.new) (is_honest self.new) ⊥ result };

    /// The tentative checkpoint of the node with its instance, if one is stored.
    fn tentative(&mut self, alloc: Global, node: NodeId) -> Result<Option<Tentative>, StoreError>
        ensures value { IsTrue (is_honest self.new)
            → IfOk result (λ t. t ≡ (row_of (content self.old) node).tentative) }
        ensures same { IsTrue (is_honest self.new) → content self.new ≡ content self.old }
        ensures honest { IsTrue (is_honest self.new) → IsTrue (is_honest self.old) }
        ensures lasts { NeverFails failures → IsTrue (is_honest self.old) → IsTrue (is_honest self.new) }
        ensures intact { IsErrOf result StoreError.Damaged → is_intact self.new ≡ false }
        ensures cause { HasCause (counts self.old) (counts self.new) (is_honest self.new) ⊥ result };

    /// The permanent checkpoint of the node without the node's state, if one is stored. It is a call of its own, so
    /// that in memory it costs nothing that grows with the state; a store in SQL reads the row whole
    /// (docs/DECISIONS.md#stores).
    fn permanent_header(
        &mut self,
        alloc: Global,
        node: NodeId,
    ) -> Result<Option<CkptHeader>, StoreError>
        ensures value { IsTrue (is_honest self.new) → IfOk result (λ m. m ≡ permanent_header (content self.old) node) }
        ensures same { IsTrue (is_honest self.new) → content self.new ≡ content self.old }
        ensures honest { IsTrue (is_honest self.new) → IsTrue (is_honest self.old) }
        ensures lasts { NeverFails failures → IsTrue (is_honest self.old) → IsTrue (is_honest self.new) }
        ensures intact { IsErrOf result StoreError.Damaged → is_intact self.new ≡ false }
        ensures cause { HasCause (counts self.old) (counts self.new) (is_honest self.new) ⊥ result };

    /// The tentative checkpoint of the node with its instance and without the node's state, if one is stored.
    fn tentative_header(
        &mut self,
        alloc: Global,
        node: NodeId,
    ) -> Result<Option<TentativeHeader>, StoreError>
        ensures value { IsTrue (is_honest self.new) → IfOk result (λ m. m ≡ tentative_header (content self.old) node) }
        ensures same { IsTrue (is_honest self.new) → content self.new ≡ content self.old }
        ensures honest { IsTrue (is_honest self.new) → IsTrue (is_honest self.old) }
        ensures lasts { NeverFails failures → IsTrue (is_honest self.old) → IsTrue (is_honest self.new) }
        ensures intact { IsErrOf result StoreError.Damaged → is_intact self.new ≡ false }
        ensures cause { HasCause (counts self.old) (counts self.new) (is_honest self.new) ⊥ result };

    /// The verdict on the instance, if it was begun.
    fn verdict(&mut self, instance: u64) -> Result<Option<Verdict>, StoreError>
        ensures value { IsTrue (is_honest self.new) → IfOk result (λ v. v ≡ verdict_of (content self.old) instance) }
        ensures same { IsTrue (is_honest self.new) → content self.new ≡ content self.old }
        ensures honest { IsTrue (is_honest self.new) → IsTrue (is_honest self.old) }
        ensures lasts { NeverFails failures → IsTrue (is_honest self.old) → IsTrue (is_honest self.new) }
        ensures intact { IsErrOf result StoreError.Damaged → is_intact self.new ≡ false }
        ensures cause { HasCause (counts self.old) (counts self.new) (is_honest self.new) ⊥ result };

    /// Who began the instance, if it was begun.
    fn initiator(&mut self, instance: u64) -> Result<Option<NodeId>, StoreError>
        ensures value { IsTrue (is_honest self.new) → IfOk result (λ p. p ≡ initiator_of (content self.old) instance) }
        ensures same { IsTrue (is_honest self.new) → content self.new ≡ content self.old }
        ensures honest { IsTrue (is_honest self.new) → IsTrue (is_honest self.old) }
        ensures lasts { NeverFails failures → IsTrue (is_honest self.old) → IsTrue (is_honest self.new) }
        ensures intact { IsErrOf result StoreError.Damaged → is_intact self.new ≡ false }
        ensures cause { HasCause (counts self.old) (counts self.new) (is_honest self.new) ⊥ result };

    /// The first instance that the node began and that has no verdict, if there is one. A node has one at most, but
    /// that is for the callers to keep.
    fn open_of(&mut self, node: NodeId) -> Result<Option<u64>, StoreError>
        ensures value { IsTrue (is_honest self.new) → IfOk result (λ i. i ≡ open_of (content self.old) node) }
        ensures same { IsTrue (is_honest self.new) → content self.new ≡ content self.old }
        ensures honest { IsTrue (is_honest self.new) → IsTrue (is_honest self.old) }
        ensures lasts { NeverFails failures → IsTrue (is_honest self.old) → IsTrue (is_honest self.new) }
        ensures intact { IsErrOf result StoreError.Damaged → is_intact self.new ≡ false }
        ensures cause { HasCause (counts self.old) (counts self.new) (is_honest self.new) ⊥ result };

    /// The number that the next instance gets: one more than the greatest that was begun, 1 at first.
    fn next_instance(&mut self) -> Result<u64, StoreError>
        ensures value { IsTrue (is_honest self.new) → IfOk result (λ i. i ≡ next_instance (content self.old)) }
        ensures same { IsTrue (is_honest self.new) → content self.new ≡ content self.old }
        ensures honest { IsTrue (is_honest self.new) → IsTrue (is_honest self.old) }
        ensures lasts { NeverFails failures → IsTrue (is_honest self.old) → IsTrue (is_honest self.new) }
        ensures intact { IsErrOf result StoreError.Damaged → is_intact self.new ≡ false }
        ensures cause { HasCause (counts self.old) (counts self.new) (is_honest self.new) ⊥ result };

    /// Whether nothing was ever stored: no node's row and no instance.
    fn is_fresh(&mut self) -> Result<bool, StoreError>
        ensures value { IsTrue (is_honest self.new) → IfOk result (λ fresh. fresh ≡ is_fresh (content self.old)) }
        ensures same { IsTrue (is_honest self.new) → content self.new ≡ content self.old }
        ensures honest { IsTrue (is_honest self.new) → IsTrue (is_honest self.old) }
        ensures lasts { NeverFails failures → IsTrue (is_honest self.old) → IsTrue (is_honest self.new) }
        ensures intact { IsErrOf result StoreError.Damaged → is_intact self.new ≡ false }
        ensures cause { HasCause (counts self.old) (counts self.new) (is_honest self.new) ⊥ result };

    /// The nodes that have a row, in node order: those of which anything was ever written. Rows are in order, and no
    /// number is above 2^62.
    fn nodes(&mut self, alloc: Global) -> Result<Vec<NodeId>, StoreError>
        ensures value { IsTrue (is_honest self.new) → IfOk result (λ nodes. nodes.items ≡ nodes_in (content self.old)) }
        ensures proper { IsTrue (is_honest self.new) → OnOk result (IsProper (content self.old)) }
        ensures same { IsTrue (is_honest self.new) → content self.new ≡ content self.old }
        ensures honest { IsTrue (is_honest self.new) → IsTrue (is_honest self.old) }
        ensures lasts { NeverFails failures → IsTrue (is_honest self.old) → IsTrue (is_honest self.new) }
        ensures intact { IsErrOf result StoreError.Damaged → is_intact self.new ≡ false }
        ensures cause { HasCause (counts self.old) (counts self.new) (is_honest self.new) ⊥ result };

    /// Begins a check: the next instance, of this node, and its tentative checkpoint in it. The node has no tentative
    /// one before. `Full` only where the greatest number, 2^62, was given.
    fn begin_check(&mut self, node: NodeId, ckpt: &Ckpt) -> Result<(), StoreError>
        requires { IsTrue (is_honest self.old) → (row_of (content self.old) node).tentative ≡ None }
        ensures written { IsTrue (is_honest self.new)
            → OnOk result (content self.new ≡ check_begun node ckpt.now (content self.old)) }
        ensures unchanged { IsTrue (is_honest self.new) → OnErr result (content self.new ≡ content self.old) }
        ensures honest { IsTrue (is_honest self.new) → IsTrue (is_honest self.old) }
        ensures lasts { NeverFails failures → IsTrue (is_honest self.old) → IsTrue (is_honest self.new) }
        ensures intact { IsErrOf result StoreError.Damaged → is_intact self.new ≡ false }
        ensures cause { HasCause (counts self.old) (counts self.new) (is_honest self.new)
            (IsTrue (is_honest self.new) → next_instance (content self.old) ≡ greatest + 1) result };

    /// Stores the node's tentative checkpoint in the instance. The node has no tentative one before.
    fn put_tentative(&mut self, node: NodeId, instance: u64, ckpt: &Ckpt) -> Result<(), StoreError>
        requires { IsTrue (is_honest self.old) → (row_of (content self.old) node).tentative ≡ None }
        ensures written { IsTrue (is_honest self.new)
            → OnOk result (content self.new ≡ tentative_put node instance ckpt.now (content self.old)) }
        ensures unchanged { IsTrue (is_honest self.new) → OnErr result (content self.new ≡ content self.old) }
        ensures honest { IsTrue (is_honest self.new) → IsTrue (is_honest self.old) }
        ensures lasts { NeverFails failures → IsTrue (is_honest self.old) → IsTrue (is_honest self.new) }
        ensures intact { IsErrOf result StoreError.Damaged → is_intact self.new ≡ false }
        ensures cause { HasCause (counts self.old) (counts self.new) (is_honest self.new) ⊥ result };

    /// Makes the node's tentative checkpoint permanent. Its instance has Yes.
    fn promote(&mut self, node: NodeId) -> Result<(), StoreError>
        requires { IsTrue (is_honest self.old) → HasVerdict (content self.old) node verdicts.Yes }
        ensures written { IsTrue (is_honest self.new)
            → OnOk result (content self.new ≡ promoted node (content self.old)) }
        ensures unchanged { IsTrue (is_honest self.new) → OnErr result (content self.new ≡ content self.old) }
        ensures honest { IsTrue (is_honest self.new) → IsTrue (is_honest self.old) }
        ensures lasts { NeverFails failures → IsTrue (is_honest self.old) → IsTrue (is_honest self.new) }
        ensures intact { IsErrOf result StoreError.Damaged → is_intact self.new ≡ false }
        ensures cause { HasCause (counts self.old) (counts self.new) (is_honest self.new) ⊥ result };

    /// Gives the node's tentative checkpoint up. Its instance has No.
    fn discard(&mut self, node: NodeId) -> Result<(), StoreError>
        requires { IsTrue (is_honest self.old) → HasVerdict (content self.old) node verdicts.No }
        ensures written { IsTrue (is_honest self.new)
            → OnOk result (content self.new ≡ discarded node (content self.old)) }
        ensures unchanged { IsTrue (is_honest self.new) → OnErr result (content self.new ≡ content self.old) }
        ensures honest { IsTrue (is_honest self.new) → IsTrue (is_honest self.old) }
        ensures lasts { NeverFails failures → IsTrue (is_honest self.old) → IsTrue (is_honest self.new) }
        ensures intact { IsErrOf result StoreError.Damaged → is_intact self.new ≡ false }
        ensures cause { HasCause (counts self.old) (counts self.new) (is_honest self.new) ⊥ result };

    /// Begins a rollback: the next incarnation of the node, and the next instance, of this node. `Full` only where one
    /// of the two has no next number.
    fn begin_restart(&mut self, node: NodeId) -> Result<(), StoreError>
        ensures written { IsTrue (is_honest self.new)
            → OnOk result (content self.new ≡ restart_begun node (content self.old)) }
        ensures unchanged { IsTrue (is_honest self.new) → OnErr result (content self.new ≡ content self.old) }
        ensures honest { IsTrue (is_honest self.new) → IsTrue (is_honest self.old) }
        ensures lasts { NeverFails failures → IsTrue (is_honest self.old) → IsTrue (is_honest self.new) }
        ensures intact { IsErrOf result StoreError.Damaged → is_intact self.new ≡ false }
        ensures cause { HasCause (counts self.old) (counts self.new) (is_honest self.new)
            (IsTrue (is_honest self.new) → (next_instance (content self.old) ≡ greatest + 1)
            ⊎ ((row_of (content self.old) node).incarnation ≡ greatest)) result };

    /// Raises the incarnation of the node by one. `Full` only where it is 2^62.
    fn bump(&mut self, node: NodeId) -> Result<(), StoreError>
        ensures written { IsTrue (is_honest self.new)
            → OnOk result (content self.new ≡ bumped node (content self.old)) }
        ensures unchanged { IsTrue (is_honest self.new) → OnErr result (content self.new ≡ content self.old) }
        ensures honest { IsTrue (is_honest self.new) → IsTrue (is_honest self.old) }
        ensures lasts { NeverFails failures → IsTrue (is_honest self.old) → IsTrue (is_honest self.new) }
        ensures intact { IsErrOf result StoreError.Damaged → is_intact self.new ≡ false }
        ensures cause { HasCause (counts self.old) (counts self.new) (is_honest self.new)
            (IsTrue (is_honest self.new) → (row_of (content self.old) node).incarnation ≡ greatest) result };

    /// Gives the instance its verdict. It has none before.
    fn decide(&mut self, instance: u64, yes: bool) -> Result<(), StoreError>
        requires { IsTrue (is_honest self.old) → verdict_of (content self.old) instance ≡ Some verdicts.Open }
        ensures written { IsTrue (is_honest self.new)
            → OnOk result (content self.new ≡ decided instance yes (content self.old)) }
        ensures unchanged { IsTrue (is_honest self.new) → OnErr result (content self.new ≡ content self.old) }
        ensures honest { IsTrue (is_honest self.new) → IsTrue (is_honest self.old) }
        ensures lasts { NeverFails failures → IsTrue (is_honest self.old) → IsTrue (is_honest self.new) }
        ensures intact { IsErrOf result StoreError.Damaged → is_intact self.new ≡ false }
        ensures cause { HasCause (counts self.old) (counts self.new) (is_honest self.new) ⊥ result };
}
