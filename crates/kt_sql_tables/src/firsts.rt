//! The first row of an answer, and keys of all its rows.
//! Cited by reads.rt.

ghost use Rattle.std.specs.List.{AllByRecursion};
ghost use Rattle.std.specs.Prelude.{◌≡◌, ◌==◌, ◌≤◌, List, Option, map, option_map, IfOk, IfErr, IfSome, length};
ghost use Rattle.std.specs.Prelude.{slice_get};
ghost use Rattle.kt_store.specs.declared.rows.NodeRow.{NodeRow as NodeFields};
ghost use Rattle.kt_store.specs.declared.rows.InstanceRow.{InstanceRow as InstanceFields};
ghost use Rattle.kt_store.specs.Content.{greatest};
ghost use Rattle.kt_sql_tables.specs.Rows.{node_given, instance_row_given, IsNodeRow, IsInstanceRow};
ghost use Rattle.kt_sql_tables.specs.auxiliary.Cells.{GivesRow};
ghost use Rattle.kt_sql_tables.specs.auxiliary.Showing.{Gives, IsReadError, id_given, number_of};
ghost use Rattle.kt_sql_tables.specs.auxiliary.Showing.{incarnation_of, permanent_of, tentative_of};

use crate::cells::{NodeCells, cells_at, first_cells};
use crate::records::Record;
use crate::rows::{header_at, node_at, positive_at, tentative_header_at};
use kt_ckpt::CkptHeader;
use kt_store::{InstanceRow, NodeRow, StoreError, TentativeHeader};
use kt_tuple::NodeId;
use sqlite::Row;
use std::alloc::Global;

/// What the first row stands for; `None` where there is no row. `Damaged` where the row is not as said.
pub(crate) fn first_of<R: Record>(alloc: Global, rows: &[Row]) -> Result<Option<R>, StoreError>
    ensures found { IfOk result (λ o. IfSome o R.is_said) }
    ensures exact { (o : Option R) → IfSome o R.is_said → slice_get rows.now 0 ≡ option_map R.given o → Gives o result }
    ensures named { IfErr result IsReadError }
{
    match rows.first() {
        Some(row) => Ok(Some(R::read(alloc, row)?)),
        None => Ok(None),
    }
}

/// The cells of the first row, or those of the node with this id where there is no row. A row that was maybe not as
/// said at the opening is decoded too, so that no write goes over one that is damaged.
pub(crate) fn first_cells_of(
    alloc: Global,
    id: u32,
    is_trusted: bool,
    rows: &[Row],
) -> Result<NodeCells, StoreError>
    ensures exact { (o : Option NodeFields) → IfSome o IsNodeRow → slice_get rows.now 0 ≡ option_map node_given o
        → GivesRow id o result }
    ensures named { IfErr result IsReadError }
{
    let Some(row) = rows.first() else {
        return Ok(first_cells(id));
    };
    if !is_trusted {
        let _ = NodeRow::read(alloc, row)?;
    }
    cells_at(row)
}

/// The incarnation of the node of the first row, 1 where there is no row. Nothing else of the row is read.
pub(crate) fn first_incarnation(rows: &[Row]) -> Result<u64, StoreError>
    ensures exact { (o : Option NodeFields) → IfSome o IsNodeRow → slice_get rows.now 0 ≡ option_map node_given o
        → Gives (incarnation_of o) result }
    ensures most { IfOk result (λ n. n ≤ greatest) }
    ensures named { IfErr result IsReadError }
{
    match rows.first() {
        Some(row) => positive_at(row, 1),
        None => Ok(1),
    }
}

/// The header of the permanent checkpoint of the first row; `None` where there is none, or no row.
pub(crate) fn first_permanent(alloc: Global, rows: &[Row]) -> Result<Option<CkptHeader>, StoreError>
    ensures exact { (o : Option NodeFields) → IfSome o IsNodeRow → slice_get rows.now 0 ≡ option_map node_given o
        → Gives (permanent_of o) result }
    ensures named { IfErr result IsReadError }
{
    match rows.first() {
        Some(row) => header_at(alloc, row, 2),
        None => Ok(None),
    }
}

/// The header of the tentative checkpoint of the first row, with its instance; `None` where there is none, or no row.
pub(crate) fn first_tentative(
    alloc: Global,
    rows: &[Row],
) -> Result<Option<TentativeHeader>, StoreError>
    ensures exact { (o : Option NodeFields) → IfSome o IsNodeRow → slice_get rows.now 0 ≡ option_map node_given o
        → Gives (tentative_of o) result }
    ensures named { IfErr result IsReadError }
{
    match rows.first() {
        Some(row) => tentative_header_at(alloc, row),
        None => Ok(None),
    }
}

/// Whether there is no row. What stands in a row is not looked at.
pub(crate) fn has_no_row(rows: &[Row]) -> bool
    ensures { result ≡ (length rows.now == 0) }
{
    rows.is_empty()
}

/// The nodes whose keys the rows show, each in one column.
pub(crate) fn nodes_of(alloc: Global, rows: &[Row]) -> Result<Vec<NodeId>, StoreError>
    ensures value { (ns : List NodeFields) → AllByRecursion IsNodeRow ns → rows.now ≡ map id_given ns
        → IfOk result (λ nodes. nodes.items ≡ map (λ r. r.node) ns) }
    ensures memory { (ns : List NodeFields) → AllByRecursion IsNodeRow ns → rows.now ≡ map id_given ns
        → IfErr result (λ e. e ≡ StoreError.Memory) }
    ensures named { IfErr result IsReadError }
{
    let mut nodes = Vec::with_capacity(alloc, rows.len())?;
    for row in rows {
        let node = node_at(row, 0)?;
        nodes.push(node).map_err(|_| StoreError::Memory)?;
    }
    Ok(nodes)
}

/// The number of the instance of the first row, 0 where there is none.
pub(crate) fn first_number(alloc: Global, rows: &[Row]) -> Result<u64, StoreError>
    ensures found { IfOk result (λ n. n ≤ greatest) }
    ensures exact { (o : Option InstanceFields) → IfSome o IsInstanceRow
        → slice_get rows.now 0 ≡ option_map instance_row_given o
        → Gives (number_of o) result }
    ensures named { IfErr result IsReadError }
{
    match first_of::<InstanceRow>(alloc, rows)? {
        Some(instance_row) => Ok(instance_row.instance),
        None => Ok(0),
    }
}
