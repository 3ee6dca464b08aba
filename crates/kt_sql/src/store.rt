//! A store over tables, which counts the faults of its device and the memory that was refused.
//! Cited by calls.rt, laws.rt, migrating.rt, open.rt; other crates.

ghost use Rattle.std.specs.Prelude.{◌≡◌, ◌==◌, ◌&&◌, ◌≤◌, false, IfOk, IfSome, OnOk, OnErr, IsErrOf, IsTrue};
ghost use Rattle.std.specs.Prelude.{fold, map, max};
ghost use Rattle.std.specs.List.{find};
ghost use Rattle.sqlite.specs.Held.{state};
ghost use Rattle.sqlite.specs.State.{HasCleanDisk};
ghost use Rattle.kt_tuple.specs.Node.{node_eq};
ghost use Rattle.kt_store.specs.declared.rows.InstanceRow.{InstanceRow as InstanceFields};
ghost use Rattle.kt_store.specs.Verdict.{is_open};
ghost use Rattle.kt_store.specs.Content.{greatest, is_empty, nodes_in, permanent_header, row_of, tentative_header};
ghost use Rattle.kt_store.specs.Proper.{IsProper};
ghost use Rattle.kt_store.specs.Changes.{storing, taken};
ghost use Rattle.kt_store.specs.Calls.{HasCause, nothing_counted};
ghost use Rattle.kt_sql_tables.specs.Cells.{cells_node, AreSaid};
ghost use Rattle.kt_sql_tables.specs.Rows.{IsInstanceRow, placing};
ghost use Rattle.kt_sql_tables.specs.Opened.{IsReady};
ghost use Rattle.kt_sql_tables.specs.Held.{content_of, is_sound, is_sure};
ghost use Rattle.kt_sql_tables.specs.Stopped.{Answers, StopKeeps, StopLeaves};
ghost use Rattle.kt_sql_tables.specs.auxiliary.Lasting.{failures};

use crate::tally::Tally;
use kt_ckpt::{Ckpt, CkptHeader};
use kt_sql_tables::{NodeCells, Tables};
use kt_store::{InstanceRow, NodeRow, StoreError, TentativeHeader};
use kt_tuple::NodeId;
use sqlite::{Alter, Connection};
use std::alloc::Global;

/// A store in the tables of a database. It is honest while its connection is open, the disk has returned what was
/// written, and each row was as said when it was opened. Over a connection that was shut it may be intact all the same,
/// and is not called damaged then.
pub struct SqlStore<S: Alter> {
    /// What is stored, and whether it is sure.
    tables: Tables<S>,
    /// How often the device failed and memory was refused, since the opening.
    counts: Tally,
}

impl<S: Alter + Drop> Drop for SqlStore<S> {
    fn drop(self) {
        let SqlStore {
            tables: _,
            counts: _,
        } = self;
    }
}

impl<S: Alter> SqlStore<S> {
    /// The store over a connection whose tables were made or tested.
    pub(crate) fn over(alloc: Global, conn: Connection<S>, is_trusted: bool) -> SqlStore<S>
        requires { HasCleanDisk (state S.Store conn) → IsReady (state S.Store conn) is_trusted }
        ensures tables { result.tables ≡ record { conn = conn; is_trusted = is_trusted } }
        ensures counts { result.counts ≡ nothing_counted }
    {
        SqlStore {
            tables: Tables::over(alloc, conn, is_trusted),
            counts: Tally::new(),
        }
    }

    /// Between two calls a stop leaves a store of just what this one holds, while it is honest. There is nothing to do:
    /// a caller's proof is told so.
    pub fn rests(&self)
        ensures { StopKeeps S.Store self.now.tables self.now.tables }
    {
        self.tables.rests();
    }

    /// The connection as it is now; the counts are forgotten.
    pub fn into_connection(self) -> Connection<S>
        ensures { result ≡ self.tables.conn }
    {
        let SqlStore { tables, counts: _ } = self;
        tables.into_connection()
    }

    /// How many faults of the device were counted since the opening.
    pub(crate) fn counted_faults(&self) -> u64
        ensures { result ≡ self.now.counts.faults }
    {
        self.counts.faults()
    }

    /// How often it was counted that memory was refused, since the opening.
    pub(crate) fn counted_wants(&self) -> u64
        ensures { result ≡ self.now.counts.wants }
    {
        self.counts.wants()
    }

    /// What is stored of the node. As in each call below, the tables answer, and the answer is counted.
    pub(crate) fn row_of(&mut self, node: NodeId) -> Result<NodeRow, StoreError>
        ensures value { IsTrue (is_sure S.Store self.new.tables)
            → IfOk result (λ r. r ≡ row_of (content_of S.Store self.old.tables) node) }
        ensures first { IfOk result (λ r. 1 ≤ r.incarnation) }
        ensures last { IfOk result (λ r. r.incarnation ≤ greatest) }
        ensures same { IsTrue (is_sure S.Store self.new.tables)
            → content_of S.Store self.new.tables ≡ content_of S.Store self.old.tables }
        ensures honest { IsTrue (is_sure S.Store self.new.tables) → IsTrue (is_sure S.Store self.old.tables) }
        ensures lasts { failures (state S.Store self.new.tables.conn) ≡ 0 → IsTrue (is_sure S.Store self.old.tables)
            → IsTrue (is_sure S.Store self.new.tables) }
        ensures intact { IsErrOf result StoreError.Damaged → is_sound S.Store self.new.tables ≡ false }
        ensures cause { HasCause self.old.counts self.new.counts (is_sure S.Store self.new.tables) ⊥ result }
    {
        let answer = self.tables.row_of(node);
        self.counts.count(&answer);
        answer
    }

    /// The cells of the node's row.
    pub(crate) fn cells_of(&mut self, node: NodeId) -> Result<NodeCells, StoreError>
        ensures said { IsTrue (is_sure S.Store self.new.tables) → IfOk result AreSaid }
        ensures value { IsTrue (is_sure S.Store self.new.tables)
            → IfOk result (λ c. cells_node c ≡ row_of (content_of S.Store self.old.tables) node) }
        ensures same { IsTrue (is_sure S.Store self.new.tables)
            → content_of S.Store self.new.tables ≡ content_of S.Store self.old.tables }
        ensures stop { StopKeeps S.Store self.old.tables self.new.tables }
        ensures answers { Answers S.Store self.old.tables self.new.tables result }
        ensures honest { IsTrue (is_sure S.Store self.new.tables) → IsTrue (is_sure S.Store self.old.tables) }
        ensures lasts { failures (state S.Store self.new.tables.conn) ≡ 0 → IsTrue (is_sure S.Store self.old.tables)
            → IsTrue (is_sure S.Store self.new.tables) }
        ensures intact { IsErrOf result StoreError.Damaged → is_sound S.Store self.new.tables ≡ false }
        ensures cause { HasCause self.old.counts self.new.counts (is_sure S.Store self.new.tables) ⊥ result }
    {
        let answer = self.tables.cells_of(node);
        self.counts.count(&answer);
        answer
    }

    /// The cells of the node's row with this checkpoint as the tentative one, in the instance.
    pub(crate) fn cells_with(
        &mut self,
        node: NodeId,
        instance: u64,
        ckpt: &Ckpt,
    ) -> Result<NodeCells, StoreError>
        ensures said { IsTrue (is_sure S.Store self.new.tables) → IfOk result AreSaid }
        ensures value { IsTrue (is_sure S.Store self.new.tables)
            → IfOk result (λ c. cells_node c ≡ record (row_of (content_of S.Store self.old.tables) node) {
              tentative = taken instance ckpt.now;
            }) }
        ensures same { IsTrue (is_sure S.Store self.new.tables)
            → content_of S.Store self.new.tables ≡ content_of S.Store self.old.tables }
        ensures stop { StopKeeps S.Store self.old.tables self.new.tables }
        ensures answers { Answers S.Store self.old.tables self.new.tables result }
        ensures honest { IsTrue (is_sure S.Store self.new.tables) → IsTrue (is_sure S.Store self.old.tables) }
        ensures lasts { failures (state S.Store self.new.tables.conn) ≡ 0 → IsTrue (is_sure S.Store self.old.tables)
            → IsTrue (is_sure S.Store self.new.tables) }
        ensures intact { IsErrOf result StoreError.Damaged → is_sound S.Store self.new.tables ≡ false }
        ensures cause { HasCause self.old.counts self.new.counts (is_sure S.Store self.new.tables) ⊥ result }
    {
        let answer = self.tables.cells_with(node, instance, ckpt);
        self.counts.count(&answer);
        answer
    }

    /// The incarnation of the node.
    pub(crate) fn incarnation_of(&mut self, node: NodeId) -> Result<u64, StoreError>
        ensures value { IsTrue (is_sure S.Store self.new.tables)
            → IfOk result (λ n. n ≡ (row_of (content_of S.Store self.old.tables) node).incarnation) }
        ensures most { IfOk result (λ n. n ≤ greatest) }
        ensures same { IsTrue (is_sure S.Store self.new.tables)
            → content_of S.Store self.new.tables ≡ content_of S.Store self.old.tables }
        ensures honest { IsTrue (is_sure S.Store self.new.tables) → IsTrue (is_sure S.Store self.old.tables) }
        ensures lasts { failures (state S.Store self.new.tables.conn) ≡ 0 → IsTrue (is_sure S.Store self.old.tables)
            → IsTrue (is_sure S.Store self.new.tables) }
        ensures intact { IsErrOf result StoreError.Damaged → is_sound S.Store self.new.tables ≡ false }
        ensures cause { HasCause self.old.counts self.new.counts (is_sure S.Store self.new.tables) ⊥ result }
    {
        let answer = self.tables.incarnation_of(node);
        self.counts.count(&answer);
        answer
    }

    /// The nodes that have a row, in node order.
    pub(crate) fn node_names(&mut self, alloc: Global) -> Result<Vec<NodeId>, StoreError>
        ensures value { IsTrue (is_sure S.Store self.new.tables)
            → IfOk result (λ nodes. nodes.items ≡ nodes_in (content_of S.Store self.old.tables)) }
        ensures proper { IsTrue (is_sure S.Store self.new.tables)
            → OnOk result (IsProper (content_of S.Store self.old.tables)) }
        ensures same { IsTrue (is_sure S.Store self.new.tables)
            → content_of S.Store self.new.tables ≡ content_of S.Store self.old.tables }
        ensures honest { IsTrue (is_sure S.Store self.new.tables) → IsTrue (is_sure S.Store self.old.tables) }
        ensures lasts { failures (state S.Store self.new.tables.conn) ≡ 0 → IsTrue (is_sure S.Store self.old.tables)
            → IsTrue (is_sure S.Store self.new.tables) }
        ensures intact { IsErrOf result StoreError.Damaged → is_sound S.Store self.new.tables ≡ false }
        ensures cause { HasCause self.old.counts self.new.counts (is_sure S.Store self.new.tables) ⊥ result }
    {
        let answer = self.tables.nodes(alloc);
        self.counts.count(&answer);
        answer
    }

    /// The permanent checkpoint of the node without its state.
    pub(crate) fn permanent_header_of(
        &mut self,
        alloc: Global,
        node: NodeId,
    ) -> Result<Option<CkptHeader>, StoreError>
        ensures value { IsTrue (is_sure S.Store self.new.tables)
            → IfOk result (λ m. m ≡ permanent_header (content_of S.Store self.old.tables) node) }
        ensures same { IsTrue (is_sure S.Store self.new.tables)
            → content_of S.Store self.new.tables ≡ content_of S.Store self.old.tables }
        ensures honest { IsTrue (is_sure S.Store self.new.tables) → IsTrue (is_sure S.Store self.old.tables) }
        ensures lasts { failures (state S.Store self.new.tables.conn) ≡ 0 → IsTrue (is_sure S.Store self.old.tables)
            → IsTrue (is_sure S.Store self.new.tables) }
        ensures intact { IsErrOf result StoreError.Damaged → is_sound S.Store self.new.tables ≡ false }
        ensures cause { HasCause self.old.counts self.new.counts (is_sure S.Store self.new.tables) ⊥ result }
    {
        let answer = self.tables.permanent_header_of(alloc, node);
        self.counts.count(&answer);
        answer
    }

    /// The tentative checkpoint of the node with its instance and without its state.
    pub(crate) fn tentative_header_of(
        &mut self,
        alloc: Global,
        node: NodeId,
    ) -> Result<Option<TentativeHeader>, StoreError>
        ensures value { IsTrue (is_sure S.Store self.new.tables)
            → IfOk result (λ m. m ≡ tentative_header (content_of S.Store self.old.tables) node) }
        ensures same { IsTrue (is_sure S.Store self.new.tables)
            → content_of S.Store self.new.tables ≡ content_of S.Store self.old.tables }
        ensures honest { IsTrue (is_sure S.Store self.new.tables) → IsTrue (is_sure S.Store self.old.tables) }
        ensures lasts { failures (state S.Store self.new.tables.conn) ≡ 0 → IsTrue (is_sure S.Store self.old.tables)
            → IsTrue (is_sure S.Store self.new.tables) }
        ensures intact { IsErrOf result StoreError.Damaged → is_sound S.Store self.new.tables ≡ false }
        ensures cause { HasCause self.old.counts self.new.counts (is_sure S.Store self.new.tables) ⊥ result }
    {
        let answer = self.tables.tentative_header_of(alloc, node);
        self.counts.count(&answer);
        answer
    }

    /// The row of the instance, where it was begun.
    pub(crate) fn find_instance(&mut self, instance: u64) -> Result<Option<InstanceRow>, StoreError>
        ensures value { IsTrue (is_sure S.Store self.new.tables)
            → IfOk result (λ o. o ≡ find (λ (p : InstanceFields). p.instance == instance)
            (content_of S.Store self.old.tables).board) }
        ensures found { IfOk result (λ o. IfSome o IsInstanceRow) }
        ensures same { IsTrue (is_sure S.Store self.new.tables)
            → content_of S.Store self.new.tables ≡ content_of S.Store self.old.tables }
        ensures stop { StopKeeps S.Store self.old.tables self.new.tables }
        ensures answers { Answers S.Store self.old.tables self.new.tables result }
        ensures honest { IsTrue (is_sure S.Store self.new.tables) → IsTrue (is_sure S.Store self.old.tables) }
        ensures lasts { failures (state S.Store self.new.tables.conn) ≡ 0 → IsTrue (is_sure S.Store self.old.tables)
            → IsTrue (is_sure S.Store self.new.tables) }
        ensures intact { IsErrOf result StoreError.Damaged → is_sound S.Store self.new.tables ≡ false }
        ensures cause { HasCause self.old.counts self.new.counts (is_sure S.Store self.new.tables) ⊥ result }
    {
        let answer = self.tables.find_instance(instance);
        self.counts.count(&answer);
        answer
    }

    /// The first instance that the node began and that is open.
    pub(crate) fn find_open(&mut self, node: NodeId) -> Result<Option<InstanceRow>, StoreError>
        ensures value { IsTrue (is_sure S.Store self.new.tables)
            → IfOk result (λ o. o ≡ find (λ (p : InstanceFields). node_eq p.initiator node && is_open p.verdict)
            (content_of S.Store self.old.tables).board) }
        ensures same { IsTrue (is_sure S.Store self.new.tables)
            → content_of S.Store self.new.tables ≡ content_of S.Store self.old.tables }
        ensures honest { IsTrue (is_sure S.Store self.new.tables) → IsTrue (is_sure S.Store self.old.tables) }
        ensures lasts { failures (state S.Store self.new.tables.conn) ≡ 0 → IsTrue (is_sure S.Store self.old.tables)
            → IsTrue (is_sure S.Store self.new.tables) }
        ensures intact { IsErrOf result StoreError.Damaged → is_sound S.Store self.new.tables ≡ false }
        ensures cause { HasCause self.old.counts self.new.counts (is_sure S.Store self.new.tables) ⊥ result }
    {
        let answer = self.tables.find_open(node);
        self.counts.count(&answer);
        answer
    }

    /// The greatest number of an instance, 0 where there is none.
    pub(crate) fn last_instance(&mut self) -> Result<u64, StoreError>
        ensures value { IsTrue (is_sure S.Store self.new.tables)
            → IfOk result (λ n. n ≡ fold max 0 (map (λ (p : InstanceFields). p.instance)
            (content_of S.Store self.old.tables).board)) }
        ensures within { IfOk result (λ n. n ≤ greatest) }
        ensures same { IsTrue (is_sure S.Store self.new.tables)
            → content_of S.Store self.new.tables ≡ content_of S.Store self.old.tables }
        ensures stop { StopKeeps S.Store self.old.tables self.new.tables }
        ensures answers { Answers S.Store self.old.tables self.new.tables result }
        ensures honest { IsTrue (is_sure S.Store self.new.tables) → IsTrue (is_sure S.Store self.old.tables) }
        ensures lasts { failures (state S.Store self.new.tables.conn) ≡ 0 → IsTrue (is_sure S.Store self.old.tables)
            → IsTrue (is_sure S.Store self.new.tables) }
        ensures intact { IsErrOf result StoreError.Damaged → is_sound S.Store self.new.tables ≡ false }
        ensures cause { HasCause self.old.counts self.new.counts (is_sure S.Store self.new.tables) ⊥ result }
    {
        let answer = self.tables.last_instance();
        self.counts.count(&answer);
        answer
    }

    /// Whether the table of nodes has no row.
    pub(crate) fn has_no_node(&mut self) -> Result<bool, StoreError>
        ensures value { IsTrue (is_sure S.Store self.new.tables)
            → IfOk result (λ b. b ≡ is_empty (content_of S.Store self.old.tables).nodes) }
        ensures same { IsTrue (is_sure S.Store self.new.tables)
            → content_of S.Store self.new.tables ≡ content_of S.Store self.old.tables }
        ensures honest { IsTrue (is_sure S.Store self.new.tables) → IsTrue (is_sure S.Store self.old.tables) }
        ensures lasts { failures (state S.Store self.new.tables.conn) ≡ 0 → IsTrue (is_sure S.Store self.old.tables)
            → IsTrue (is_sure S.Store self.new.tables) }
        ensures intact { IsErrOf result StoreError.Damaged → is_sound S.Store self.new.tables ≡ false }
        ensures cause { HasCause self.old.counts self.new.counts (is_sure S.Store self.new.tables) ⊥ result }
    {
        let answer = self.tables.has_no_node();
        self.counts.count(&answer);
        answer
    }

    /// Whether the board has no row.
    pub(crate) fn has_no_instance_row(&mut self) -> Result<bool, StoreError>
        ensures value { IsTrue (is_sure S.Store self.new.tables)
            → IfOk result (λ b. b ≡ is_empty (content_of S.Store self.old.tables).board) }
        ensures same { IsTrue (is_sure S.Store self.new.tables)
            → content_of S.Store self.new.tables ≡ content_of S.Store self.old.tables }
        ensures honest { IsTrue (is_sure S.Store self.new.tables) → IsTrue (is_sure S.Store self.old.tables) }
        ensures lasts { failures (state S.Store self.new.tables.conn) ≡ 0 → IsTrue (is_sure S.Store self.old.tables)
            → IsTrue (is_sure S.Store self.new.tables) }
        ensures intact { IsErrOf result StoreError.Damaged → is_sound S.Store self.new.tables ≡ false }
        ensures cause { HasCause self.old.counts self.new.counts (is_sure S.Store self.new.tables) ⊥ result }
    {
        let answer = self.tables.has_no_instance_row();
        self.counts.count(&answer);
        answer
    }

    /// Stores the row of these cells, in place of the one that the node has.
    pub(crate) fn put_node(&mut self, cells: NodeCells) -> Result<(), StoreError>
        requires { IsTrue (is_sure S.Store self.old.tables) → AreSaid cells }
        ensures written { IsTrue (is_sure S.Store self.new.tables)
            → OnOk result (content_of S.Store self.new.tables
            ≡ storing (cells_node cells) (content_of S.Store self.old.tables)) }
        ensures unchanged { IsTrue (is_sure S.Store self.new.tables)
            → OnErr result (content_of S.Store self.new.tables ≡ content_of S.Store self.old.tables) }
        ensures stop { StopLeaves S.Store self.old.tables self.new.tables
            (storing (cells_node cells) (content_of S.Store self.old.tables)) }
        ensures clean { HasCleanDisk (state S.Store self.new.tables.conn)
            → HasCleanDisk (state S.Store self.old.tables.conn) }
        ensures honest { IsTrue (is_sure S.Store self.new.tables) → IsTrue (is_sure S.Store self.old.tables) }
        ensures lasts { failures (state S.Store self.new.tables.conn) ≡ 0 → IsTrue (is_sure S.Store self.old.tables)
            → IsTrue (is_sure S.Store self.new.tables) }
        ensures intact { IsErrOf result StoreError.Damaged → is_sound S.Store self.new.tables ≡ false }
        ensures cause { HasCause self.old.counts self.new.counts (is_sure S.Store self.new.tables) ⊥ result }
    {
        let answer = self.tables.put_node(cells);
        self.counts.count(&answer);
        answer
    }

    /// Stores the row, in place of the one that the instance has.
    pub(crate) fn put_instance_row(&mut self, row: InstanceRow) -> Result<(), StoreError>
        requires { 1 ≤ row.instance }
        ensures written { IsTrue (is_sure S.Store self.new.tables)
            → OnOk result (content_of S.Store self.new.tables ≡ placing row (content_of S.Store self.old.tables)) }
        ensures unchanged { IsTrue (is_sure S.Store self.new.tables)
            → OnErr result (content_of S.Store self.new.tables ≡ content_of S.Store self.old.tables) }
        ensures stop { StopLeaves S.Store self.old.tables self.new.tables
            (placing row (content_of S.Store self.old.tables)) }
        ensures clean { HasCleanDisk (state S.Store self.new.tables.conn)
            → HasCleanDisk (state S.Store self.old.tables.conn) }
        ensures honest { IsTrue (is_sure S.Store self.new.tables) → IsTrue (is_sure S.Store self.old.tables) }
        ensures lasts { failures (state S.Store self.new.tables.conn) ≡ 0 → IsTrue (is_sure S.Store self.old.tables)
            → IsTrue (is_sure S.Store self.new.tables) }
        ensures intact { IsErrOf result StoreError.Damaged → is_sound S.Store self.new.tables ≡ false }
        ensures cause { HasCause self.old.counts self.new.counts (is_sure S.Store self.new.tables) ⊥ result }
    {
        let answer = self.tables.put_instance_row(row);
        self.counts.count(&answer);
        answer
    }

    /// Stores both rows in one transaction, or neither.
    pub(crate) fn put_both(&mut self, cells: NodeCells, row: InstanceRow) -> Result<(), StoreError>
        requires cells { IsTrue (is_sure S.Store self.old.tables) → AreSaid cells }
        requires instance { 1 ≤ row.instance }
        ensures written { IsTrue (is_sure S.Store self.new.tables)
            → OnOk result (content_of S.Store self.new.tables ≡ placing row
            (storing (cells_node cells) (content_of S.Store self.old.tables))) }
        ensures unchanged { IsTrue (is_sure S.Store self.new.tables)
            → OnErr result (content_of S.Store self.new.tables ≡ content_of S.Store self.old.tables) }
        ensures stop { StopLeaves S.Store self.old.tables self.new.tables
            (placing row (storing (cells_node cells) (content_of S.Store self.old.tables))) }
        ensures clean { HasCleanDisk (state S.Store self.new.tables.conn)
            → HasCleanDisk (state S.Store self.old.tables.conn) }
        ensures honest { IsTrue (is_sure S.Store self.new.tables) → IsTrue (is_sure S.Store self.old.tables) }
        ensures lasts { failures (state S.Store self.new.tables.conn) ≡ 0 → IsTrue (is_sure S.Store self.old.tables)
            → IsTrue (is_sure S.Store self.new.tables) }
        ensures intact { IsErrOf result StoreError.Damaged → is_sound S.Store self.new.tables ≡ false }
        ensures cause { HasCause self.old.counts self.new.counts (is_sure S.Store self.new.tables) ⊥ result }
    {
        let answer = self.tables.put_both(cells, row);
        self.counts.count(&answer);
        answer
    }
}
