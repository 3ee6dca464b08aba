//! The calls of a store. A write reads the cells of a row, changes them and writes the row whole; it decodes no
//! checkpoint, and a question about an incarnation or about a header decodes no state (docs/DECISIONS.md#stores).
//! Cited by whoever calls the trait `CkptStore`.

ghost use Rattle.std.specs.Prelude.{◌≡◌, ◌⊎◌, ◌+◌, None, Some, false, IsTrue, IsErrOf, OnOk, OnErr};
ghost use Rattle.kt_store.specs.declared.rows.Verdict.TheVariants as verdicts;
ghost use Rattle.kt_store.specs.Content.{HasVerdict, greatest, next_instance, row_of, verdict_of};
ghost use Rattle.kt_store.specs.Changes.{bumped, check_begun, decided, discarded};
ghost use Rattle.kt_store.specs.Changes.{promoted, restart_begun, tentative_put};
ghost use Rattle.kt_store.specs.Calls.{HasCause};
ghost use Rattle.kt_sql_tables.specs.Held.{content_of, is_sound, is_sure};
ghost use Rattle.kt_sql_tables.specs.Stopped.{StopLeaves};
ghost use Rattle.kt_sql_tables.specs.auxiliary.Lasting.{failures};
ghost use Rattle.sqlite.specs.Held.{state};

use crate::store::SqlStore;
use kt_ckpt::{Ckpt, CkptHeader};
use kt_sql_tables::{bumped, discarded, permanent_in, promoted, tentative_in};
use kt_store::{
    CkptStore, GREATEST, InstanceRow, Purpose, StoreError, Tentative, TentativeHeader, Verdict,
};
use kt_tuple::NodeId;
use sqlite::Alter;
use std::alloc::Global;

impl<S: Alter> CkptStore for SqlStore<S> {
    ghost content = { λ s. content_of S.Store s.tables };

    ghost is_honest = { λ s. is_sure S.Store s.tables };

    ghost failures = { λ s. failures (state S.Store s.tables.conn) };

    ghost is_intact = { λ s. is_sound S.Store s.tables };

    ghost counts = { λ s. s.counts };

    fn faults(&self) -> u64 {
        self.counted_faults()
    }

    fn wants(&self) -> u64 {
        self.counted_wants()
    }

    fn incarnation(&mut self, node: NodeId) -> Result<u64, StoreError> {
        self.incarnation_of(node)
    }

    fn permanent(&mut self, _: Global, node: NodeId) -> Result<Option<Ckpt>, StoreError> {
        Ok(permanent_in(self.row_of(node)?))
    }

    fn tentative(&mut self, _: Global, node: NodeId) -> Result<Option<Tentative>, StoreError> {
        Ok(tentative_in(self.row_of(node)?))
    }

    fn permanent_header(
        &mut self,
        alloc: Global,
        node: NodeId,
    ) -> Result<Option<CkptHeader>, StoreError> {
        self.permanent_header_of(alloc, node)
    }

    fn tentative_header(
        &mut self,
        alloc: Global,
        node: NodeId,
    ) -> Result<Option<TentativeHeader>, StoreError> {
        self.tentative_header_of(alloc, node)
    }

    fn verdict(&mut self, instance: u64) -> Result<Option<Verdict>, StoreError> {
        Ok(
            self.find_instance(instance)?
                .map(|instance_row| instance_row.verdict),
        )
    }

    fn initiator(&mut self, instance: u64) -> Result<Option<NodeId>, StoreError> {
        Ok(
            self.find_instance(instance)?
                .map(|instance_row| instance_row.initiator),
        )
    }

    fn open_of(&mut self, node: NodeId) -> Result<Option<u64>, StoreError> {
        Ok(
            self.find_open(node)?
                .map(|instance_row| instance_row.instance),
        )
    }

    fn next_instance(&mut self) -> Result<u64, StoreError> {
        Ok(self.last_instance()? + 1)
    }

    fn is_fresh(&mut self) -> Result<bool, StoreError> {
        Ok(self.has_no_node()? && self.has_no_instance_row()?)
    }

    fn nodes(&mut self, alloc: Global) -> Result<Vec<NodeId>, StoreError> {
        self.node_names(alloc)
    }

    fn begin_check(&mut self, node: NodeId, ckpt: &Ckpt) -> Result<(), StoreError>
        requires { IsTrue (is_sure S.Store self.old.tables)
            → (row_of (content_of S.Store self.old.tables) node).tentative ≡ None }
        ensures written { IsTrue (is_sure S.Store self.new.tables)
            → OnOk result (content_of S.Store self.new.tables
            ≡ check_begun node ckpt.now (content_of S.Store self.old.tables)) }
        ensures unchanged { IsTrue (is_sure S.Store self.new.tables)
            → OnErr result (content_of S.Store self.new.tables ≡ content_of S.Store self.old.tables) }
        ensures honest { IsTrue (is_sure S.Store self.new.tables) → IsTrue (is_sure S.Store self.old.tables) }
        ensures lasts { failures (state S.Store self.new.tables.conn) ≡ 0 → IsTrue (is_sure S.Store self.old.tables)
            → IsTrue (is_sure S.Store self.new.tables) }
        ensures intact { IsErrOf result StoreError.Damaged → is_sound S.Store self.new.tables ≡ false }
        ensures cause { HasCause self.old.counts self.new.counts (is_sure S.Store self.new.tables)
            (IsTrue (is_sure S.Store self.new.tables)
            → next_instance (content_of S.Store self.old.tables) ≡ greatest + 1) result }
        ensures stop { StopLeaves S.Store self.old.tables self.new.tables
            (check_begun node ckpt.now (content_of S.Store self.old.tables)) }
    {
        let last = self.last_instance()?;
        if last == GREATEST {
            return Err(StoreError::Full);
        }
        let cells = self.cells_with(node, last + 1, ckpt)?;
        let check = InstanceRow {
            instance: last + 1,
            initiator: node,
            purpose: Purpose::Check,
            verdict: Verdict::Open,
        };
        self.put_both(cells, check)
    }

    fn put_tentative(&mut self, node: NodeId, instance: u64, ckpt: &Ckpt) -> Result<(), StoreError>
        requires { IsTrue (is_sure S.Store self.old.tables)
            → (row_of (content_of S.Store self.old.tables) node).tentative ≡ None }
        ensures written { IsTrue (is_sure S.Store self.new.tables)
            → OnOk result (content_of S.Store self.new.tables
            ≡ tentative_put node instance ckpt.now (content_of S.Store self.old.tables)) }
        ensures unchanged { IsTrue (is_sure S.Store self.new.tables)
            → OnErr result (content_of S.Store self.new.tables ≡ content_of S.Store self.old.tables) }
        ensures honest { IsTrue (is_sure S.Store self.new.tables) → IsTrue (is_sure S.Store self.old.tables) }
        ensures lasts { failures (state S.Store self.new.tables.conn) ≡ 0 → IsTrue (is_sure S.Store self.old.tables)
            → IsTrue (is_sure S.Store self.new.tables) }
        ensures intact { IsErrOf result StoreError.Damaged → is_sound S.Store self.new.tables ≡ false }
        ensures cause { HasCause self.old.counts self.new.counts (is_sure S.Store self.new.tables) ⊥ result }
        ensures stop { StopLeaves S.Store self.old.tables self.new.tables
            (tentative_put node instance ckpt.now (content_of S.Store self.old.tables)) }
    {
        let cells = self.cells_with(node, instance, ckpt)?;
        self.put_node(cells)
    }

    fn promote(&mut self, node: NodeId) -> Result<(), StoreError>
        requires { IsTrue (is_sure S.Store self.old.tables)
            → HasVerdict (content_of S.Store self.old.tables) node verdicts.Yes }
        ensures written { IsTrue (is_sure S.Store self.new.tables)
            → OnOk result (content_of S.Store self.new.tables ≡ promoted node (content_of S.Store self.old.tables)) }
        ensures unchanged { IsTrue (is_sure S.Store self.new.tables)
            → OnErr result (content_of S.Store self.new.tables ≡ content_of S.Store self.old.tables) }
        ensures honest { IsTrue (is_sure S.Store self.new.tables) → IsTrue (is_sure S.Store self.old.tables) }
        ensures lasts { failures (state S.Store self.new.tables.conn) ≡ 0 → IsTrue (is_sure S.Store self.old.tables)
            → IsTrue (is_sure S.Store self.new.tables) }
        ensures intact { IsErrOf result StoreError.Damaged → is_sound S.Store self.new.tables ≡ false }
        ensures cause { HasCause self.old.counts self.new.counts (is_sure S.Store self.new.tables) ⊥ result }
        ensures stop { StopLeaves S.Store self.old.tables self.new.tables
            (promoted node (content_of S.Store self.old.tables)) }
    {
        let cells = promoted(self.cells_of(node)?);
        self.put_node(cells)
    }

    fn discard(&mut self, node: NodeId) -> Result<(), StoreError>
        requires { IsTrue (is_sure S.Store self.old.tables)
            → HasVerdict (content_of S.Store self.old.tables) node verdicts.No }
        ensures written { IsTrue (is_sure S.Store self.new.tables)
            → OnOk result (content_of S.Store self.new.tables ≡ discarded node (content_of S.Store self.old.tables)) }
        ensures unchanged { IsTrue (is_sure S.Store self.new.tables)
            → OnErr result (content_of S.Store self.new.tables ≡ content_of S.Store self.old.tables) }
        ensures honest { IsTrue (is_sure S.Store self.new.tables) → IsTrue (is_sure S.Store self.old.tables) }
        ensures lasts { failures (state S.Store self.new.tables.conn) ≡ 0 → IsTrue (is_sure S.Store self.old.tables)
            → IsTrue (is_sure S.Store self.new.tables) }
        ensures intact { IsErrOf result StoreError.Damaged → is_sound S.Store self.new.tables ≡ false }
        ensures cause { HasCause self.old.counts self.new.counts (is_sure S.Store self.new.tables) ⊥ result }
        ensures stop { StopLeaves S.Store self.old.tables self.new.tables
            (discarded node (content_of S.Store self.old.tables)) }
    {
        let cells = discarded(self.cells_of(node)?);
        self.put_node(cells)
    }

    fn begin_restart(&mut self, node: NodeId) -> Result<(), StoreError>
        ensures written { IsTrue (is_sure S.Store self.new.tables)
            → OnOk result (content_of S.Store self.new.tables
            ≡ restart_begun node (content_of S.Store self.old.tables)) }
        ensures unchanged { IsTrue (is_sure S.Store self.new.tables)
            → OnErr result (content_of S.Store self.new.tables ≡ content_of S.Store self.old.tables) }
        ensures honest { IsTrue (is_sure S.Store self.new.tables) → IsTrue (is_sure S.Store self.old.tables) }
        ensures lasts { failures (state S.Store self.new.tables.conn) ≡ 0 → IsTrue (is_sure S.Store self.old.tables)
            → IsTrue (is_sure S.Store self.new.tables) }
        ensures intact { IsErrOf result StoreError.Damaged → is_sound S.Store self.new.tables ≡ false }
        ensures cause { HasCause self.old.counts self.new.counts (is_sure S.Store self.new.tables)
            (IsTrue (is_sure S.Store self.new.tables)
            → (next_instance (content_of S.Store self.old.tables) ≡ greatest + 1)
            ⊎ ((row_of (content_of S.Store self.old.tables) node).incarnation ≡ greatest)) result }
        ensures stop { StopLeaves S.Store self.old.tables self.new.tables
            (restart_begun node (content_of S.Store self.old.tables)) }
    {
        let last = self.last_instance()?;
        if last == GREATEST {
            return Err(StoreError::Full);
        }
        let Some(cells) = bumped(self.cells_of(node)?) else {
            return Err(StoreError::Full);
        };
        let rollback = InstanceRow {
            instance: last + 1,
            initiator: node,
            purpose: Purpose::Rollback,
            verdict: Verdict::Open,
        };
        self.put_both(cells, rollback)
    }

    fn bump(&mut self, node: NodeId) -> Result<(), StoreError>
        ensures written { IsTrue (is_sure S.Store self.new.tables)
            → OnOk result (content_of S.Store self.new.tables ≡ bumped node (content_of S.Store self.old.tables)) }
        ensures unchanged { IsTrue (is_sure S.Store self.new.tables)
            → OnErr result (content_of S.Store self.new.tables ≡ content_of S.Store self.old.tables) }
        ensures honest { IsTrue (is_sure S.Store self.new.tables) → IsTrue (is_sure S.Store self.old.tables) }
        ensures lasts { failures (state S.Store self.new.tables.conn) ≡ 0 → IsTrue (is_sure S.Store self.old.tables)
            → IsTrue (is_sure S.Store self.new.tables) }
        ensures intact { IsErrOf result StoreError.Damaged → is_sound S.Store self.new.tables ≡ false }
        ensures cause { HasCause self.old.counts self.new.counts (is_sure S.Store self.new.tables)
            (IsTrue (is_sure S.Store self.new.tables)
            → (row_of (content_of S.Store self.old.tables) node).incarnation ≡ greatest) result }
        ensures stop { StopLeaves S.Store self.old.tables self.new.tables
            (bumped node (content_of S.Store self.old.tables)) }
    {
        match bumped(self.cells_of(node)?) {
            Some(cells) => self.put_node(cells),
            None => Err(StoreError::Full),
        }
    }

    fn decide(&mut self, instance: u64, yes: bool) -> Result<(), StoreError>
        requires { IsTrue (is_sure S.Store self.old.tables)
            → verdict_of (content_of S.Store self.old.tables) instance ≡ Some verdicts.Open }
        ensures written { IsTrue (is_sure S.Store self.new.tables)
            → OnOk result (content_of S.Store self.new.tables
            ≡ decided instance yes (content_of S.Store self.old.tables)) }
        ensures unchanged { IsTrue (is_sure S.Store self.new.tables)
            → OnErr result (content_of S.Store self.new.tables ≡ content_of S.Store self.old.tables) }
        ensures honest { IsTrue (is_sure S.Store self.new.tables) → IsTrue (is_sure S.Store self.old.tables) }
        ensures lasts { failures (state S.Store self.new.tables.conn) ≡ 0 → IsTrue (is_sure S.Store self.old.tables)
            → IsTrue (is_sure S.Store self.new.tables) }
        ensures intact { IsErrOf result StoreError.Damaged → is_sound S.Store self.new.tables ≡ false }
        ensures cause { HasCause self.old.counts self.new.counts (is_sure S.Store self.new.tables) ⊥ result }
        ensures stop { StopLeaves S.Store self.old.tables self.new.tables
            (decided instance yes (content_of S.Store self.old.tables)) }
    {
        match self.find_instance(instance)? {
            Some(mut instance_row) => {
                instance_row.verdict = Verdict::of(yes);
                self.put_instance_row(instance_row)
            }
            // Not met while the store is honest: who calls `decide` sees to it that the instance is open.
            None => Ok(()),
        }
    }
}
