//! Rows, as they are written.
//! Cited by carrying.rt, changes.rt, firsts.rt, held.rt, old.rt, reads.rt, statements.rt; other crates.

ghost use Rattle.std.specs.Prelude.{◌≡◌, ◌≤◌, None, IfOk, IfErr, IfSome};
ghost use Rattle.sqlite.specs.Values.{bound};
ghost use Rattle.kt_ckpt.specs.Checkpoint.{IsCheckpoint};
ghost use Rattle.kt_store.specs.Changes.{taken};
ghost use Rattle.kt_store.specs.declared.rows.NodeRow.{NodeRow as NodeFields};
ghost use Rattle.kt_store.specs.declared.rows.InstanceRow.{InstanceRow as InstanceFields};
ghost use Rattle.kt_sql_tables.specs.Rows.{bytes_of, id_of, node_given, instance_row_given, IsNodeRow, IsInstanceRow};
ghost use Rattle.kt_sql_tables.specs.Rows.{purpose_code, verdict_code};
ghost use Rattle.kt_sql_tables.specs.Cells.{cells_given, cells_node, AreSaid, SpellsNode};
ghost use Rattle.kt_sql_tables.specs.auxiliary.Cells.{GivesCells, SpellsInstanceRow};
ghost use Rattle.kt_sql_tables.specs.auxiliary.Showing.{IsReadError};

use crate::ids::id_of;
use crate::number::Number;
use crate::rows::{bytes_at, id_at, instance_at, positive_at};
use kt_ckpt::Ckpt;
use kt_store::{InstanceRow, Purpose, StoreError, Verdict};
use sqlite::Row;
use sqlite::types::{ToSql, ValueRef};
use std::alloc::{AllocError, Global};

/// The cells of a row of the nodes. What stays at a write is carried as the bytes that stand in the table.
#[derive(Debug, Drop)]
pub struct NodeCells {
    /// The id of the node: a worker's own number, or `SHARD_IDS` more than a shard's.
    pub(crate) id: u32,
    /// Its incarnation, from 1 to 2^62.
    pub(crate) incarnation: Number,
    /// The bytes of its permanent checkpoint; `None` (NULL) where it is the initial one.
    pub(crate) permanent: Option<Vec<u8>>,
    /// The bytes of its tentative checkpoint; `None` (NULL) while it has none.
    pub(crate) tentative: Option<Vec<u8>>,
    /// The instance of the tentative checkpoint; `None` (NULL) while there is none.
    pub(crate) instance: Option<Number>,
}

/// The cells of a row of the board.
#[derive(Clone, Copy)]
pub(crate) struct InstanceCells {
    /// The number of the instance, from 1 to 2^62.
    pub instance: Number,
    /// The id of the node that began it.
    pub initiator: u32,
    /// What it is for: 1 a check, 2 a rollback.
    pub purpose: u32,
    /// How it ended: 0 open, 1 yes, 2 no.
    pub verdict: u32,
}

impl NodeCells {
    /// The values of the statement that puts them, in the order of its parameters.
    pub(crate) fn params(&self) -> [ValueRef<'_>; 5]
        ensures { bound result ≡ cells_given self.now }
    {
        [
            self.id.to_sql(),
            self.incarnation.to_sql(),
            (&self.permanent).to_sql(),
            (&self.tentative).to_sql(),
            self.instance.to_sql(),
        ]
    }
}

impl InstanceCells {
    /// The values of the statement that puts them, in the order of its parameters.
    pub(crate) fn params(&self) -> [ValueRef<'_>; 4]
        ensures { (p : InstanceFields) → SpellsInstanceRow self.now p → bound result ≡ instance_row_given p }
    {
        [
            self.instance.to_sql(),
            self.initiator.to_sql(),
            self.purpose.to_sql(),
            self.verdict.to_sql(),
        ]
    }
}

/// The cells of a row of the nodes as it stands in the table. The numbers are tested, and no checkpoint is decoded.
pub(crate) fn cells_at(row: &Row) -> Result<NodeCells, StoreError>
    ensures exact { (r : NodeFields) → IsNodeRow r → row.now ≡ node_given r → GivesCells r result }
    ensures named { IfErr result IsReadError }
{
    let id = id_at(row)?;
    // Each number from 1 to the greatest is one.
    let Some(incarnation) = Number::new(positive_at(row, 1)?) else {
        return Err(StoreError::Damaged);
    };
    let permanent = bytes_at(row, 2)?;
    let tentative = bytes_at(row, 3)?;
    let instance = instance_at(row, tentative.is_some())?;
    Ok(NodeCells {
        id,
        incarnation,
        permanent,
        tentative,
        instance,
    })
}

/// The cells of a node without a row: it is in incarnation 1, and has no checkpoint stored.
pub(crate) fn first_cells(id: u32) -> NodeCells
    ensures { (r : NodeFields) → id ≡ id_of r.node → r.incarnation ≡ 1 → r.permanent ≡ None → r.tentative ≡ None
        → SpellsNode result r }
{
    NodeCells {
        id,
        incarnation: Number::first(),
        permanent: None,
        tentative: None,
        instance: None,
    }
}

/// The bytes of a checkpoint, which a blob of the table holds as they are.
#[tactic(auto, unfolding(crate::specs::Rows::bytes_of))]
pub(crate) fn encoded(alloc: Global, checkpoint: &Ckpt) -> Result<Vec<u8>, AllocError>
    ensures { IfOk result (λ v. IsCheckpoint checkpoint.now × (v.items ≡ bytes_of checkpoint.now)) }
{
    checkpoint.encode(alloc)
}

/// The cells with this checkpoint as the tentative one, in the instance. What else they have stays.
pub(crate) fn with_tentative(
    alloc: Global,
    cells: NodeCells,
    instance: Number,
    ckpt: &Ckpt,
) -> Result<NodeCells, AllocError>
    ensures said { IfOk result (λ c. AreSaid cells → AreSaid c) }
    ensures value { IfOk result (λ c. AreSaid cells
        → cells_node c ≡ record (cells_node cells) { tentative = taken instance.value ckpt.now }) }
{
    let NodeCells {
        id,
        incarnation,
        permanent,
        ..
    } = cells;
    Ok(NodeCells {
        id,
        incarnation,
        permanent,
        tentative: Some(encoded(alloc, ckpt)?),
        instance: Some(instance),
    })
}

/// What the instance is for and how it ended, by their codes.
pub(crate) fn instance_row_codes(row: &InstanceRow) -> (u32, u32)
    ensures purpose { result.0 ≡ purpose_code row.now.purpose }
    ensures verdict { result.1 ≡ verdict_code row.now.verdict }
{
    let purpose = match row.purpose {
        Purpose::Check => 1,
        Purpose::Rollback => 2,
    };
    let verdict = match row.verdict {
        Verdict::Open => 0,
        Verdict::Yes => 1,
        Verdict::No => 2,
    };
    (purpose, verdict)
}

/// The cells of the row; `None` where the tables have no id for the initiator, or the instance is above 2^62.
pub(crate) fn instance_row_cells(row: InstanceRow) -> Option<InstanceCells>
    requires { 1 ≤ row.instance }
    ensures { IfSome result (λ c. IsInstanceRow row × SpellsInstanceRow c row) }
{
    let (purpose, verdict) = instance_row_codes(&row);
    Some(InstanceCells {
        instance: Number::new(row.instance)?,
        initiator: id_of(row.initiator)?,
        purpose,
        verdict,
    })
}
