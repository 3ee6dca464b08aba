//! How tables of version 1 are carried over: each row of the nodes is put anew, and the version raised, in one
//! transaction. So a stop leaves the tables as they were or as they are to be, and nothing between.
//! Cited by other crates.

ghost use Rattle.std.specs.Prelude.{◌≡◌, ◌⊎◌, ◌≤◌, true, false, [], map, IfOk, IfErr, OnOk, OnErr, IsTrue};
ghost use Rattle.std.specs.List.{AllByRecursion};
ghost use Rattle.std.specs.Option.{option_copied};
ghost use Rattle.sqlite.specs.declared.types.Value.TheVariants.{Blob};
ghost use Rattle.sqlite.specs.Held.{state};
ghost use Rattle.sqlite.specs.State.{HasCleanDisk, KeepsCommit, Survives};
ghost use Rattle.sqlite.specs.Tree.{Trees};
ghost use Rattle.sqlite.specs.Values.{or_null};
ghost use Rattle.sqlite_trees.specs.View.{doubt};
ghost use Rattle.kt_sql_tables.specs.Cells.{cells_given};
ghost use Rattle.kt_sql_tables.specs.Old.{AreNewOf, IsCarried, IsOldOf, IsOldRow};
ghost use Rattle.kt_sql_tables.specs.Rows.{IsNodeRow, IsSpelled, node_given, spelled};
ghost use Rattle.kt_sql_tables.specs.auxiliary.Carrying.{AllPut, AreNewTrees, ArePut, HasTable, IsOld, RiseById};

use crate::cells::{NodeCells, encoded};
use crate::ids::id_of;
use crate::number::Number;
use crate::old::are_old;
use crate::opened::statement_error;
use crate::statements::{PUT_NODE, PUT_VERSION, run};
use kt_ckpt::Ckpt;
use kt_store::{MemStore, NodeRow, StoreError};
use sqlite::{Alter, Connection, Error, Transaction};
use std::alloc::{AllocError, Global};

/// The bytes of the checkpoint, none where there is none.
fn bytes_of(alloc: Global, checkpoint: Option<&Ckpt>) -> Result<Option<Vec<u8>>, AllocError>
    ensures { IfOk result (λ bytes. IsSpelled (option_copied checkpoint.entry)
        × (or_null (λ b. Blob b.items) bytes ≡ spelled (option_copied checkpoint.entry))) }
{
    match checkpoint {
        Some(checkpoint) => Ok(Some(encoded(alloc, checkpoint)?)),
        None => Ok(None),
    }
}

/// The cells of the row; `Device` where the tables have no id for the node, or hold no number that great.
fn cells_of(alloc: Global, row: &NodeRow) -> Result<NodeCells, StoreError>
    ensures value { IsOldRow row.now
        → IfOk result (λ cells. IsNodeRow row.now × (cells_given cells ≡ node_given row.now)) }
    ensures named { IfErr result (λ e. (e ≡ StoreError.Memory) ⊎ (e ≡ StoreError.Device)) }
{
    let (taken, instance) = match &row.tentative {
        Some(tentative) => (
            Some(&tentative.checkpoint),
            Some(Number::new(tentative.instance).ok_or(StoreError::Device)?),
        ),
        None => (None, None),
    };
    Ok(NodeCells {
        id: id_of(row.node).ok_or(StoreError::Device)?,
        incarnation: Number::new(row.incarnation).ok_or(StoreError::Device)?,
        permanent: bytes_of(alloc, row.permanent.as_ref())?,
        tentative: bytes_of(alloc, taken)?,
        instance,
    })
}

/// The cells of each row, in order.
fn all_cells_of(alloc: Global, rows: &[NodeRow]) -> Result<Vec<NodeCells>, StoreError>
    ensures value { AllByRecursion IsOldRow rows.now → IfOk result (λ cells. AllByRecursion IsNodeRow rows.now
        × (map cells_given cells.items ≡ map node_given rows.now)) }
    ensures named { IfErr result (λ e. (e ≡ StoreError.Memory) ⊎ (e ≡ StoreError.Device)) }
{
    let mut cells = Vec::with_capacity(alloc, rows.len())?;
    for row in rows {
        cells
            .push(cells_of(alloc, row)?)
            .map_err(|_| StoreError::Memory)?;
    }
    Ok(cells)
}

/// Puts each row, in place of the one that has its key.
fn put_rows<S: Alter>(tx: &mut Transaction<'_, S>, rows: &[NodeCells]) -> Result<(), Error>
    ensures same_reference { tx.new.conn.ghost_name ≡ tx.old.conn.ghost_name }
    ensures put { HasCleanDisk (state S.Store tx.new.conn.now) → IsTrue (state S.Store tx.old.conn.now).in_transaction
        → HasTable (state S.Store tx.old.conn.now).now
        → OnOk result (AllPut rows.now (state S.Store tx.old.conn.now).now (state S.Store tx.new.conn.now).now) }
    ensures inside { HasCleanDisk (state S.Store tx.new.conn.now)
        → IsTrue (state S.Store tx.old.conn.now).in_transaction
        → OnOk result (IsTrue (state S.Store tx.new.conn.now).in_transaction) }
    ensures kept { HasCleanDisk (state S.Store tx.new.conn.now) → IsTrue (state S.Store tx.old.conn.now).in_transaction
        → KeepsCommit (state S.Store tx.old.conn.now) (state S.Store tx.new.conn.now) }
    ensures survives { Survives (state S.Store tx.old.conn.now) (state S.Store tx.new.conn.now) (λ _. ⊥) }
{
    for row in rows {
        run(tx, PUT_NODE, &row.params())?;
    }
    Ok(())
}

/// Puts the rows in place of those that have their keys, and raises the version: all of it or nothing.
fn put_in_one<S: Alter>(conn: &mut Connection<S>, rows: &[NodeCells]) -> Result<(), Error>
    requires autocommit { conn.old.in_transaction ≡ false }
    requires rise { RiseById rows.now }
    ensures made { HasCleanDisk (state S.Store conn.new) → IsOld (state S.Store conn.old).now rows.now
        → OnOk result (ArePut rows.now (state S.Store conn.old).now (state S.Store conn.new)) }
    ensures none { HasCleanDisk (state S.Store conn.new) → IsTrue (state S.Store conn.new).is_open
        → OnErr result (((state S.Store conn.new).now ≡ (state S.Store conn.old).committed)
        × ((state S.Store conn.new).committed ≡ (state S.Store conn.old).committed)
        × IsTrue (state S.Store conn.old).is_open) }
    ensures ended { conn.new.in_transaction ≡ false }
    ensures clean { doubt (state S.Store conn.old).is_clean ≤ doubt (state S.Store conn.new).is_clean }
    ensures survives { IsOld (state S.Store conn.old).now rows.now
        → Survives (state S.Store conn.old) (state S.Store conn.new)
        (AreNewTrees rows.now (state S.Store conn.old).now.trees) }
{
    let mut tx = conn.transaction();
    put_rows(&mut tx, rows)?;
    run(&mut tx, PUT_VERSION, &[])?;
    tx.commit()?;
    Ok(())
}

/// Carries the tables over where they are of version 1 and hold just what the store holds, but for the acts of its
/// checkpoints; else it answers false and does nothing. All rows and the version are put in one transaction.
pub fn carried<S: Alter>(
    alloc: Global,
    conn: &mut Connection<S>,
    store: &MemStore,
) -> Result<bool, StoreError>
    requires { conn.old.in_transaction ≡ false }
    ensures done { HasCleanDisk (state S.Store conn.new) → IfOk result (λ done. IsTrue done
        → IsOldOf (state S.Store conn.old).now store.now.content
        × IsCarried (state S.Store conn.new) store.now.content) }
    ensures other { HasCleanDisk (state S.Store conn.new) → IfOk result (λ done. done ≡ false
        → IsOldOf (state S.Store conn.old).now store.now.content → ⊥) }
    ensures unchanged { HasCleanDisk (state S.Store conn.new) → IsTrue (state S.Store conn.new).is_open
        → IfOk result (λ done. done ≡ false → (state S.Store conn.new).now ≡ (state S.Store conn.old).now) }
    ensures refused { HasCleanDisk (state S.Store conn.new) → IsTrue (state S.Store conn.new).is_open
        → OnErr result ((state S.Store conn.new).now ≡ (state S.Store conn.old).now) }
    ensures named { IfErr result (λ e. (e ≡ StoreError.Memory) ⊎ (e ≡ StoreError.Device)) }
    ensures ended { conn.new.in_transaction ≡ false }
    // Whatever it answers, a stop leaves the tables that were committed before, or those that hold this.
    ensures stop { HasCleanDisk (state S.Store conn.new) → IsTrue (state S.Store conn.old).is_open
        → (db : Trees) → (state S.Store conn.new).may_leave db
        → (db ≡ (state S.Store conn.old).committed.trees) ⊎ AreNewOf db store.now.content }
    // Once it has answered true, a stop leaves those.
    ensures lasts { HasCleanDisk (state S.Store conn.new) → IfOk result (λ done. IsTrue done
        → (db : Trees) → (state S.Store conn.new).may_leave db → AreNewOf db store.now.content) }
{
    // Outside a transaction what is seen is what was committed.
    let is_settled = conn.is_autocommit();
    prove!(is_settled);
    if !are_old(alloc, conn, store)? {
        return Ok(false);
    }
    // All memory is taken before anything is written.
    let cells = all_cells_of(alloc, store.rows())?;
    match put_in_one(conn, &cells) {
        Ok(()) => Ok(true),
        Err(error) => Err(statement_error(error)),
    }
}
