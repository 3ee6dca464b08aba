//! The statements that write.
//! Cited by carrying.rt, held.rt, opened.rt, tables.rt.

ghost use Rattle.std.specs.Prelude.{◌≡◌, ◌≤◌, true, false, IfOk, OnOk, OnErr, IsTrue};
ghost use Rattle.sqlite_trees.specs.View.{doubt};
ghost use Rattle.sqlite.specs.Held.{state};
ghost use Rattle.sqlite.specs.State.{HasCleanDisk, ExecutesInside, KeepsCommit, Survives};
ghost use Rattle.sqlite.specs.Values.{bound};
ghost use Rattle.kt_store.specs.declared.rows.InstanceRow.{InstanceRow as InstanceFields};
ghost use Rattle.kt_sql_tables.specs.Cells.{cells_given};
ghost use Rattle.kt_sql_tables.specs.auxiliary.Cells.{SpellsInstanceRow};
ghost use Rattle.kt_sql_tables.specs.auxiliary.Both.{CommitsBoth, RanBoth};
ghost use Rattle.kt_sql_tables.specs.auxiliary.Lasting.{Lasts};

use crate::cells::{InstanceCells, NodeCells};
use sqlite::types::ValueRef;
use sqlite::{Alter, Connection, Error, Transaction};

/// Puts the row of a node, in place of the one with its id. A row is read whole, changed and written whole: one
/// statement serves every change of a node.
pub(crate) const PUT_NODE: &str = "INSERT OR REPLACE INTO kt_node VALUES (?1, ?2, ?3, ?4, ?5)";

/// Puts the row of an instance, in place of the one with its number.
pub(crate) const PUT_INSTANCE_ROW: &str = "INSERT OR REPLACE INTO kt_board VALUES (?1, ?2, ?3, ?4)";

/// Puts the one row of the third table, which says the version.
pub(crate) const PUT_VERSION: &str = "INSERT OR REPLACE INTO kt_meta VALUES (1, 2)";

/// Runs a statement inside a transaction.
pub(crate) fn run<S: Alter>(
    tx: &mut Transaction<'_, S>,
    sql: &str,
    params: &[ValueRef<'_>],
) -> Result<usize, Error>
    ensures same_reference { tx.new.conn.ghost_name ≡ tx.old.conn.ghost_name }
    ensures runs { HasCleanDisk (state S.Store tx.new.conn.now) → IsTrue (state S.Store tx.old.conn.now).in_transaction
        → ExecutesInside 0 sql.now (bound params.now) (state S.Store tx.old.conn.now) (state S.Store tx.new.conn.now)
        result }
    ensures inside { HasCleanDisk (state S.Store tx.new.conn.now)
        → IsTrue (state S.Store tx.old.conn.now).in_transaction
        → OnOk result (IsTrue (state S.Store tx.new.conn.now).in_transaction) }
    ensures kept { HasCleanDisk (state S.Store tx.new.conn.now) → IsTrue (state S.Store tx.old.conn.now).in_transaction
        → KeepsCommit (state S.Store tx.old.conn.now) (state S.Store tx.new.conn.now) }
    ensures survives { Survives (state S.Store tx.old.conn.now) (state S.Store tx.new.conn.now) (λ _. ⊥) }
{
    tx.execute(sql, params)
}

/// Puts both rows or none. It answers false, and does nothing, where a transaction is open.
pub(crate) fn execute_both<S: Alter>(
    conn: &mut Connection<S>,
    node: &NodeCells,
    instance_row: InstanceCells,
) -> Result<bool, Error>
    ensures both { HasCleanDisk (state S.Store conn.new)
        → IfOk result (λ done. IsTrue done → (p : InstanceFields) → SpellsInstanceRow instance_row p
        → RanBoth S.Store (cells_given node.now) p conn.old conn.new) }
    ensures neither { HasCleanDisk (state S.Store conn.new) → IsTrue (state S.Store conn.new).is_open
        → OnErr result (((state S.Store conn.new).now ≡ (state S.Store conn.old).now)
        × ((state S.Store conn.new).committed ≡ (state S.Store conn.old).committed)) }
    ensures opened { HasCleanDisk (state S.Store conn.new) → IsTrue (state S.Store conn.new).is_open
        → OnErr result (IsTrue (state S.Store conn.old).is_open) }
    ensures ended { OnErr result (conn.new.in_transaction ≡ false) }
    ensures settled { OnErr result (IsTrue (state S.Store conn.old).is_open
        → (state S.Store conn.old).now ≡ (state S.Store conn.old).committed) }
    ensures survives { (p : InstanceFields) → SpellsInstanceRow instance_row p
        → Survives (state S.Store conn.old) (state S.Store conn.new)
        (CommitsBoth S.Store (cells_given node.now) p conn.old) }
    ensures not_begun { IfOk result (λ done. done ≡ false
        → (conn.new ≡ conn.old) × ((state S.Store conn.old).in_transaction ≡ true)) }
    ensures clean { doubt (state S.Store conn.old).is_clean ≤ doubt (state S.Store conn.new).is_clean }
    ensures lasts { Lasts (state S.Store conn.old) (state S.Store conn.new) }
{
    if !conn.is_autocommit() {
        return Ok(false);
    }
    let mut tx = conn.transaction();
    run(&mut tx, PUT_NODE, &node.params())?;
    run(&mut tx, PUT_INSTANCE_ROW, &instance_row.params())?;
    tx.commit()?;
    Ok(true)
}
