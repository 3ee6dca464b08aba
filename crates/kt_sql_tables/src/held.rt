//! Tables over a connection.
//! Cited by reads.rt; other crates.

ghost use Rattle.std.specs.Prelude.{◌≡◌, ◌<◌, ◌≤◌, true, IfOk, OnOk, OnErr, IsTrue};
ghost use Rattle.sqlite.specs.Values.{bound};
ghost use Rattle.sqlite.specs.Held.{state};
ghost use Rattle.sqlite.specs.Listing.{understood};
ghost use Rattle.sqlite.specs.State.{HasCleanDisk, Shown};
ghost use Rattle.kt_store.specs.declared.rows.InstanceRow.{InstanceRow as InstanceFields};
ghost use Rattle.kt_store.specs.Changes.{storing};
ghost use Rattle.kt_store.specs.Content.{Content};
ghost use Rattle.kt_sql_tables.specs.Rows.{IsInstanceRow, placing};
ghost use Rattle.kt_sql_tables.specs.Cells.{cells_node, AreSaid};
ghost use Rattle.kt_sql_tables.specs.Opened.{IsReady};
ghost use Rattle.kt_sql_tables.specs.auxiliary.Cells.{SpellsInstanceRow};
ghost use Rattle.kt_sql_tables.specs.auxiliary.Changing.{Changes};
ghost use Rattle.sqlite.specs.Given.{IsPlain};
ghost use Rattle.kt_sql_tables.specs.Reason.{HasReason};
ghost use Rattle.kt_sql_tables.specs.Schema.{kt_schema};
ghost use Rattle.kt_sql_tables.specs.Held.{content_of, is_sound, is_sure, IsKept, Lasts};
ghost use Rattle.kt_sql_tables.specs.Stopped.{Answers, StopKeeps, StopLeaves};

use crate::cells::{InstanceCells, NodeCells, instance_row_cells};
use crate::opened::statement_error;
use crate::statements::{PUT_INSTANCE_ROW, PUT_NODE, execute_both};
use kt_store::{InstanceRow, StoreError};
use sqlite::types::ValueRef;
use sqlite::{Alter, Connection, Row};
use std::alloc::Global;
use std::marker::Model;

/// The tables of a store, over a connection. They are sure while the connection is open, the disk has returned what
/// was written, and each row was as said when they were opened. They are sound as long as the last two hold.
pub struct Tables<S: Alter> {
    conn: Connection<S>,
    /// Whether each row was as said when the tables were opened. No write changes it: to write over one bad row must
    /// not make a store honest (docs/DECISIONS.md#stores).
    is_trusted: bool,
    /// Where rows take their memory from.
    alloc: Global,
}

impl<S: Alter> Model for Tables<S> {
    ghost use Rattle.std.specs.Prelude.{IsTrue};
    ghost use Rattle.kt_sql_tables.specs.Held.{IsKept, Tabled, is_sure, tabled_code};

    ghost Value = { Tabled S };

    ghost coded = { tabled_code S.code };

    ghost view = { λ s. record { conn = s.conn; is_trusted = s.is_trusted } };

    ghost invariant = { λ s.
        IsTrue (is_sure S.Store (record { conn = s.conn; is_trusted = s.is_trusted }))
        → IsKept S.Store (record { conn = s.conn; is_trusted = s.is_trusted }) };
}

impl<S: Alter + Drop> Drop for Tables<S> {
    fn drop(self) {
        let Tables {
            conn: _,
            is_trusted: _,
            alloc: _,
        } = self;
    }
}

impl<S: Alter> Tables<S> {
    /// Those of a connection whose tables were made or tested.
    pub fn over(alloc: Global, conn: Connection<S>, is_trusted: bool) -> Tables<S>
        requires { HasCleanDisk (state S.Store conn) → IsReady (state S.Store conn) is_trusted }
        ensures { result ≡ record { conn = conn; is_trusted = is_trusted } }
    {
        // What a connection shows is a database: the clause of its schema tells a proof so.
        let _ = conn.schema();
        Tables {
            conn,
            is_trusted,
            alloc,
        }
    }

    /// The connection as it is now.
    pub fn into_connection(self) -> Connection<S>
        ensures { result ≡ self.conn }
    {
        let Tables {
            conn,
            is_trusted: _,
            alloc: _,
        } = self;
        conn
    }

    /// Where rows take their memory from. Its clauses tell a proof what the tables hold while they are sure, and that a
    /// stop leaves just that.
    pub fn allocator(&self) -> Global
        ensures kept { IsTrue (is_sure S.Store self.now) → IsKept S.Store self.now }
        ensures rests { StopKeeps S.Store self.now self.now }
    {
        self.alloc
    }

    /// Between two calls a stop leaves what the tables hold, while they are sure. There is nothing to do: a caller's
    /// proof is told so.
    pub fn rests(&self)
        ensures rests { StopKeeps S.Store self.now self.now }
    {
        let _ = self.allocator();
    }

    /// All rows of the answer to a query. Over a connection that is shut none is answered: tables that are sound have
    /// answered over one that is open, so they are sure.
    pub(crate) fn ask(&mut self, sql: &str, params: &[ValueRef<'_>]) -> Result<Vec<Row>, StoreError>
        requires { IsPlain (understood kt_schema sql.now) }
        ensures shown { IsTrue (is_sure S.Store self.new)
            → IfOk result (λ rows. Shown sql.now (bound params.now) (state S.Store self.old.conn)
            (state S.Store self.new.conn) rows.items) }
        ensures same { IsTrue (is_sure S.Store self.new)
            → (state S.Store self.new.conn).now ≡ (state S.Store self.old.conn).now }
        ensures honest { IsTrue (is_sure S.Store self.new) → IsTrue (is_sure S.Store self.old) }
        ensures lasts { Lasts S.Store self.old self.new }
        ensures sure { IsTrue (is_sound S.Store self.new) → OnOk result (IsTrue (is_sure S.Store self.new)) }
        ensures kept { IsTrue (is_sure S.Store self.new) → IsKept S.Store self.new }
        ensures stop { StopKeeps S.Store self.old self.new }
        ensures answers { Answers S.Store self.old self.new result }
        ensures trusted { self.new.is_trusted ≡ self.old.is_trusted }
        ensures reason { HasReason (is_sound S.Store self.new) result }
    {
        match self.conn.query_all(sql, params) {
            Ok(rows) => Ok(rows),
            Err(refusal) => Err(statement_error(refusal)),
        }
    }

    /// Whether each row was as said when the tables were opened.
    pub(crate) fn is_trusted(&self) -> bool
        ensures { result ≡ self.now.is_trusted }
    {
        self.is_trusted
    }

    /// Stores the row of these cells, in place of the one that the node has: one statement writes it whole.
    pub fn put_node(&mut self, cells: NodeCells) -> Result<(), StoreError>
        requires { IsTrue (is_sure S.Store self.old) → AreSaid cells }
        ensures written { IsTrue (is_sure S.Store self.new)
            → OnOk result (content_of S.Store self.new ≡ storing (cells_node cells) (content_of S.Store self.old)) }
        ensures unchanged { IsTrue (is_sure S.Store self.new)
            → OnErr result (content_of S.Store self.new ≡ content_of S.Store self.old) }
        ensures stop { StopLeaves S.Store self.old self.new (storing (cells_node cells) (content_of S.Store self.old)) }
        ensures clean { HasCleanDisk (state S.Store self.new.conn) → HasCleanDisk (state S.Store self.old.conn) }
        ensures honest { IsTrue (is_sure S.Store self.new) → IsTrue (is_sure S.Store self.old) }
        ensures lasts { Lasts S.Store self.old self.new }
        ensures trusted { self.new.is_trusted ≡ self.old.is_trusted }
        ensures reason { HasReason (is_sound S.Store self.new) result }
    {
        self.write(PUT_NODE, &cells.params())
    }

    /// Stores the row, in place of the one that the instance has. `Device` where the tables have no id for the
    /// initiator, or hold no number that great.
    pub fn put_instance_row(&mut self, row: InstanceRow) -> Result<(), StoreError>
        requires { 1 ≤ row.instance }
        ensures written { IsTrue (is_sure S.Store self.new)
            → OnOk result (content_of S.Store self.new ≡ placing row (content_of S.Store self.old)) }
        ensures unchanged { IsTrue (is_sure S.Store self.new)
            → OnErr result (content_of S.Store self.new ≡ content_of S.Store self.old) }
        ensures stop { StopLeaves S.Store self.old self.new (placing row (content_of S.Store self.old)) }
        ensures clean { HasCleanDisk (state S.Store self.new.conn) → HasCleanDisk (state S.Store self.old.conn) }
        ensures honest { IsTrue (is_sure S.Store self.new) → IsTrue (is_sure S.Store self.old) }
        ensures lasts { Lasts S.Store self.old self.new }
        ensures trusted { self.new.is_trusted ≡ self.old.is_trusted }
        ensures reason { HasReason (is_sound S.Store self.new) result }
    {
        match instance_row_cells(row) {
            Some(cells) => self.write(PUT_INSTANCE_ROW, &cells.params()),
            None => {
                self.rests();
                Err(StoreError::Device)
            }
        }
    }

    /// Runs a statement that makes a change of what the tables hold.
    fn write(&mut self, sql: &str, params: &[ValueRef<'_>]) -> Result<(), StoreError>
        requires { (change : Content → Content)
            × (IsTrue (is_sure S.Store self.old) → Changes S.Store sql.now (bound params.now) change) }
        ensures written { (change : Content → Content)
            → (IsTrue (is_sure S.Store self.old) → Changes S.Store sql.now (bound params.now) change)
            → IsTrue (is_sure S.Store self.new)
            → OnOk result (content_of S.Store self.new ≡ change (content_of S.Store self.old)) }
        ensures unchanged { IsTrue (is_sure S.Store self.new)
            → OnErr result (content_of S.Store self.new ≡ content_of S.Store self.old) }
        ensures stop { (change : Content → Content)
            → (IsTrue (is_sure S.Store self.old) → Changes S.Store sql.now (bound params.now) change)
            → StopLeaves S.Store self.old self.new (change (content_of S.Store self.old)) }
        ensures clean { HasCleanDisk (state S.Store self.new.conn) → HasCleanDisk (state S.Store self.old.conn) }
        ensures honest { IsTrue (is_sure S.Store self.new) → IsTrue (is_sure S.Store self.old) }
        ensures lasts { Lasts S.Store self.old self.new }
        ensures trusted { self.new.is_trusted ≡ self.old.is_trusted }
        ensures reason { HasReason (is_sound S.Store self.new) result }
    {
        match self.conn.execute(sql, params) {
            Ok(_) => Ok(()),
            Err(error) => Err(statement_error(error)),
        }
    }

    /// Stores both rows in one transaction, or neither. `Device` where the tables have no id for the initiator, or hold
    /// no number that great.
    pub fn put_both(
        &mut self,
        cells: NodeCells,
        instance_row: InstanceRow,
    ) -> Result<(), StoreError>
        requires cells { IsTrue (is_sure S.Store self.old) → AreSaid cells }
        requires instance { 1 ≤ instance_row.instance }
        ensures written { IsTrue (is_sure S.Store self.new)
            → OnOk result (content_of S.Store self.new ≡ placing instance_row
            (storing (cells_node cells) (content_of S.Store self.old))) }
        ensures unchanged { IsTrue (is_sure S.Store self.new)
            → OnErr result (content_of S.Store self.new ≡ content_of S.Store self.old) }
        ensures stop { StopLeaves S.Store self.old self.new
            (placing instance_row (storing (cells_node cells) (content_of S.Store self.old))) }
        ensures clean { HasCleanDisk (state S.Store self.new.conn) → HasCleanDisk (state S.Store self.old.conn) }
        ensures honest { IsTrue (is_sure S.Store self.new) → IsTrue (is_sure S.Store self.old) }
        ensures lasts { Lasts S.Store self.old self.new }
        ensures trusted { self.new.is_trusted ≡ self.old.is_trusted }
        ensures reason { HasReason (is_sound S.Store self.new) result }
    {
        match instance_row_cells(instance_row) {
            Some(instance_row) => self.write_both(&cells, instance_row),
            None => {
                self.rests();
                Err(StoreError::Device)
            }
        }
    }

    fn write_both(
        &mut self,
        node: &NodeCells,
        instance_row: InstanceCells,
    ) -> Result<(), StoreError>
        requires node { IsTrue (is_sure S.Store self.old) → AreSaid node.now }
        requires instance_row { (p : InstanceFields) × IsInstanceRow p × SpellsInstanceRow instance_row p }
        ensures written { (p : InstanceFields) → IsInstanceRow p → SpellsInstanceRow instance_row p
            → IsTrue (is_sure S.Store self.new)
            → OnOk result (content_of S.Store self.new ≡ placing p
            (storing (cells_node node.now) (content_of S.Store self.old))) }
        ensures unchanged { IsTrue (is_sure S.Store self.new)
            → OnErr result (content_of S.Store self.new ≡ content_of S.Store self.old) }
        ensures stop { (p : InstanceFields) → IsInstanceRow p → SpellsInstanceRow instance_row p
            → StopLeaves S.Store self.old self.new
            (placing p (storing (cells_node node.now) (content_of S.Store self.old))) }
        ensures clean { HasCleanDisk (state S.Store self.new.conn) → HasCleanDisk (state S.Store self.old.conn) }
        ensures honest { IsTrue (is_sure S.Store self.new) → IsTrue (is_sure S.Store self.old) }
        ensures lasts { Lasts S.Store self.old self.new }
        ensures trusted { self.new.is_trusted ≡ self.old.is_trusted }
        ensures reason { HasReason (is_sound S.Store self.new) result }
    {
        match execute_both(&mut self.conn, node, instance_row) {
            Ok(true) => Ok(()),
            Ok(false) => Err(StoreError::Device),
            Err(error) => Err(statement_error(error)),
        }
    }
}
