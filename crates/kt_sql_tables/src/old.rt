//! Whether tables of version 1 hold what a store in memory holds. No checkpoint is decoded: each has one spelling, and
//! its bytes are compared with that.
//! Cited by carrying.rt.

ghost use Rattle.std.specs.Prelude.{◌≡◌, ◌↔◌, ◌⊎◌, ◌<◌, ◌≤◌, true, false, nat_lt, map, length, IfOk, IfErr, OnOk};
ghost use Rattle.std.specs.Prelude.{IsTrue};
ghost use Rattle.std.specs.List.{AllByRecursion};
ghost use Rattle.std.specs.Option.{option_copied};
ghost use Rattle.sqlite.specs.declared.types.Value.TheVariants.{Blob, Null};
ghost use Rattle.sqlite.specs.Held.{state};
ghost use Rattle.sqlite.specs.Order.{column};
ghost use Rattle.sqlite.specs.State.{HasCleanDisk};
ghost use Rattle.sqlite.specs.Tree.{Trees};
ghost use Rattle.sqlite_trees.specs.Tree.{IsAscending};
ghost use Rattle.kt_tuple.specs.Node.{is_before};
ghost use Rattle.kt_store.specs.declared.rows.NodeRow.{NodeRow as NodeFields};
ghost use Rattle.kt_store.specs.declared.rows.InstanceRow.{InstanceRow as InstanceFields};
ghost use Rattle.kt_store.specs.Content.{greatest};
ghost use Rattle.kt_sql_tables.specs.Old.{FitsOld, HoldsOldNodes, IsOldOf, IsOldRow, old_given, spelled_old};
ghost use Rattle.kt_sql_tables.specs.Rows.{HoldsBoard, IsLow, IsInstanceRow, instance_value, instance_row_given};
ghost use Rattle.kt_sql_tables.specs.Rows.{taken_instance};
ghost use Rattle.kt_sql_tables.specs.Rows.{whole};
ghost use Rattle.kt_sql_tables.specs.Schema.{kt_schema};
ghost use Rattle.kt_sql_tables.specs.Settled.{IsSettled};
ghost use Rattle.kt_sql_tables.specs.auxiliary.Looking.{Looks};
ghost use Rattle.kt_sql_tables.specs.auxiliary.OldRows.{AreOldRows};

use crate::cells::instance_row_codes;
use crate::ids::id_of;
use crate::opened::{ALL_INSTANCE_ROWS, ALL_NODES, Kind, ask, kind_of, says};
use kt_ckpt::Ckpt;
use kt_store::{GREATEST, InstanceRow, MemStore, NodeRow, StoreError, Tentative};
use sqlite::types::ValueRef;
use sqlite::{Alter, Connection, Row};
use std::alloc::{AllocError, Global};

/// Whether the value in the column is this number, and one that a table holds.
fn says_number(row: &Row, at: usize, number: u64) -> bool
    ensures { IsTrue result ↔ (at < length row.now) × (number ≤ greatest) × (column row.now at ≡ whole number) }
{
    number <= GREATEST && says(row, at, number as i64)
}

/// Whether the value in the column is NULL.
fn is_null(row: &Row, at: usize) -> bool
    ensures { IsTrue result ↔ (at < length row.now) × (column row.now at ≡ Null) }
{
    matches!(row.get_ref(at), Ok(ValueRef::Null))
}

/// Whether the value in the column is these bytes.
fn is_blob(row: &Row, at: usize, bytes: &[u8]) -> bool
    ensures { IsTrue result ↔ (at < length row.now) × (column row.now at ≡ Blob bytes.now) }
{
    matches!(row.get_ref(at), Ok(ValueRef::Blob(told)) if told == bytes)
}

/// Whether the value in the column is the checkpoint in format 1, or NULL where there is none.
fn is_old_spelling(
    alloc: Global,
    row: &Row,
    at: usize,
    checkpoint: Option<&Ckpt>,
) -> Result<bool, AllocError>
    ensures { IfOk result (λ is. IsTrue is ↔ (at < length row.now) × FitsOld (option_copied checkpoint.entry)
        × (column row.now at ≡ spelled_old (option_copied checkpoint.entry))) }
{
    let Some(checkpoint) = checkpoint else {
        return Ok(is_null(row, at));
    };
    match checkpoint.encode_old(alloc)? {
        Some(bytes) => Ok(is_blob(row, at, &bytes)),
        None => Ok(false),
    }
}

/// Whether the value in the column is the instance of the tentative checkpoint, or NULL where there is none.
fn is_instance(row: &Row, at: usize, tentative: &Option<Tentative>) -> bool
    ensures { IsTrue result ↔ (at < length row.now) × IsLow (taken_instance tentative.now)
        × (column row.now at ≡ instance_value tentative.now) }
{
    match tentative {
        None => is_null(row, at),
        Some(taken) => says_number(row, at, taken.instance),
    }
}

/// Whether the row is that of the node in version 1.
fn is_old_row(alloc: Global, row: &Row, node: &NodeRow) -> Result<bool, AllocError>
    ensures { IfOk result (λ is. IsTrue is ↔ IsOldRow node.now × (row.now ≡ old_given node.now)) }
{
    let Some(id) = id_of(node.node) else {
        return Ok(false);
    };
    if row.column_count() != 5 || !says(row, 0, i64::from(id)) {
        return Ok(false);
    }
    if node.incarnation < 1 || !says_number(row, 1, node.incarnation) {
        return Ok(false);
    }
    let taken = match &node.tentative {
        Some(tentative) => Some(&tentative.checkpoint),
        None => None,
    };
    let is_permanent = is_old_spelling(alloc, row, 2, node.permanent.as_ref())?;
    let is_taken = is_old_spelling(alloc, row, 3, taken)?;
    Ok(is_permanent && is_taken && is_instance(row, 4, &node.tentative))
}

/// Whether the rows are just those of the nodes in version 1, in their order.
fn are_old_rows(alloc: Global, rows: &[Row], nodes: &[NodeRow]) -> Result<bool, AllocError>
    ensures { IfOk result (λ are. IsTrue are
        ↔ AllByRecursion IsOldRow nodes.now × (rows.now ≡ map old_given nodes.now)) }
{
    let mut rest = rows;
    let mut left = nodes;
    while let Some((row, more)) = rest.split_first() {
        let Some((node, others)) = left.split_first() else {
            return Ok(false);
        };
        if !is_old_row(alloc, row, node)? {
            return Ok(false);
        }
        rest = more;
        left = others;
    }
    Ok(left.is_empty())
}

/// Whether the row is that of the instance.
fn is_instance_row(row: &Row, instance_row: &InstanceRow) -> bool
    ensures { IsTrue result ↔ IsInstanceRow instance_row.now × (row.now ≡ instance_row_given instance_row.now) }
{
    let Some(id) = id_of(instance_row.initiator) else {
        return false;
    };
    let (purpose, verdict) = instance_row_codes(instance_row);
    row.column_count() == 4
        && 1 <= instance_row.instance
        && says_number(row, 0, instance_row.instance)
        && says(row, 1, i64::from(id))
        && says(row, 2, i64::from(purpose))
        && says(row, 3, i64::from(verdict))
}

/// Whether the rows are just those of the instances, in their order.
fn are_instance_rows(rows: &[Row], board: &[InstanceRow]) -> bool
    ensures { IsTrue result ↔ AllByRecursion IsInstanceRow board.now × (rows.now ≡ map instance_row_given board.now) }
{
    let mut rest = rows;
    let mut left = board;
    while let Some((row, more)) = rest.split_first() {
        let Some((instance_row, others)) = left.split_first() else {
            return false;
        };
        if !is_instance_row(row, instance_row) {
            return false;
        }
        rest = more;
        left = others;
    }
    left.is_empty()
}

/// Whether the rows stand in node order. A store in memory keeps them so, and no clause of it says that.
fn are_in_order(nodes: &[NodeRow]) -> bool
    ensures { IsTrue result
        ↔ IsAscending (λ (a b : NodeFields). is_before a.node b.node ≡ true) nodes.now }
{
    let Some((first, others)) = nodes.split_first() else {
        return true;
    };
    let mut last = first;
    let mut rest = others;
    while let Some((next, more)) = rest.split_first() {
        if !last.node.is_before(next.node) {
            return false;
        }
        last = next;
        rest = more;
    }
    true
}

/// Whether the numbers of the instances rise. So too here.
fn are_rising(board: &[InstanceRow]) -> bool
    ensures { IsTrue result
        ↔ IsAscending (λ (a b : InstanceFields). nat_lt a.instance b.instance ≡ true) board.now }
{
    let Some((first, others)) = board.split_first() else {
        return true;
    };
    let mut last = first;
    let mut rest = others;
    while let Some((next, more)) = rest.split_first() {
        if last.instance >= next.instance {
            return false;
        }
        last = next;
        rest = more;
    }
    true
}

/// Whether the table of nodes holds just these in version 1.
fn holds_nodes<S: Alter>(
    alloc: Global,
    conn: &mut Connection<S>,
    nodes: &[NodeRow],
) -> Result<bool, StoreError>
    ensures value { HasCleanDisk (state S.Store conn.new) → (state S.Store conn.old).now.schema ≡ kt_schema
        → IfOk result (λ told. IsTrue told ↔ HoldsOldNodes ((state S.Store conn.old).now.trees 0) nodes.now) }
    ensures these { IfOk result (λ told. IsTrue told → AreOldRows nodes.now) }
    ensures looks { Looks (state S.Store conn.old) (state S.Store conn.new) }
    ensures is_open { HasCleanDisk (state S.Store conn.new) → OnOk result (IsTrue (state S.Store conn.new).is_open) }
    ensures named { IfErr result (λ e. (e ≡ StoreError.Memory) ⊎ (e ≡ StoreError.Device)) }
{
    let rows = ask(conn, ALL_NODES)?;
    if !are_old_rows(alloc, &rows, nodes)? {
        return Ok(false);
    }
    Ok(are_in_order(nodes))
}

/// Whether the board holds just these.
fn holds_board<S: Alter>(
    conn: &mut Connection<S>,
    board: &[InstanceRow],
) -> Result<bool, StoreError>
    ensures value { HasCleanDisk (state S.Store conn.new) → (state S.Store conn.old).now.schema ≡ kt_schema
        → IfOk result (λ told. IsTrue told ↔ HoldsBoard ((state S.Store conn.old).now.trees 1) board.now) }
    ensures looks { Looks (state S.Store conn.old) (state S.Store conn.new) }
    ensures is_open { HasCleanDisk (state S.Store conn.new) → OnOk result (IsTrue (state S.Store conn.new).is_open) }
    ensures named { IfErr result (λ e. (e ≡ StoreError.Memory) ⊎ (e ≡ StoreError.Device)) }
{
    let rows = ask(conn, ALL_INSTANCE_ROWS)?;
    if !are_instance_rows(&rows, board) {
        return Ok(false);
    }
    Ok(are_rising(board))
}

/// Whether the tables are of version 1 and hold just what the store holds.
pub(crate) fn are_old<S: Alter>(
    alloc: Global,
    conn: &mut Connection<S>,
    store: &MemStore,
) -> Result<bool, StoreError>
    ensures value { HasCleanDisk (state S.Store conn.new)
        → (IsTrue (state S.Store conn.old).is_open → IsSettled (state S.Store conn.old))
        → IfOk result (λ are. IsTrue are ↔ IsOldOf (state S.Store conn.old).now store.now.content) }
    ensures these { IfOk result (λ are. IsTrue are → AreOldRows store.now.content.nodes) }
    ensures is_open { HasCleanDisk (state S.Store conn.new)
        → IfOk result (λ are. IsTrue are → IsTrue (state S.Store conn.new).is_open) }
    ensures leaves { HasCleanDisk (state S.Store conn.new)
        → (IsTrue (state S.Store conn.old).is_open → IsSettled (state S.Store conn.old))
        → (db : Trees) → (state S.Store conn.new).may_leave db → (state S.Store conn.old).may_leave db }
    ensures same { HasCleanDisk (state S.Store conn.new) → IsTrue (state S.Store conn.new).is_open
        → IsSettled (state S.Store conn.old)
        → ((state S.Store conn.new).now ≡ (state S.Store conn.old).now) × IsSettled (state S.Store conn.new) }
    ensures was_open { HasCleanDisk (state S.Store conn.new)
        → IsTrue (state S.Store conn.new).is_open → IsTrue (state S.Store conn.old).is_open }
    ensures named { IfErr result (λ e. (e ≡ StoreError.Memory) ⊎ (e ≡ StoreError.Device)) }
    ensures mode { (state S.Store conn.old).in_transaction ≡ false → (state S.Store conn.new).in_transaction ≡ false }
{
    if kind_of(conn)? != Kind::Old {
        return Ok(false);
    }
    if !holds_nodes(alloc, conn, store.rows())? {
        return Ok(false);
    }
    holds_board(conn, store.board())
}
