//! Rows of an answer, read.
//! Cited by cells.rt, firsts.rt, records.rt.

ghost use Rattle.std.specs.Prelude.{◌≡◌, ◌<◌, ◌≤◌, ℕ, Option, is_some, IfOk, IfErr, length, option_map};
ghost use Rattle.sqlite.specs.declared.types.Value.TheVariants.{Blob};
ghost use Rattle.sqlite.specs.Order.{column};
ghost use Rattle.sqlite.specs.Values.{or_null};
ghost use Rattle.kt_tuple.specs.declared.node.NodeId.{NodeId as NodeName};
ghost use Rattle.kt_ckpt.specs.Checkpoint.{Checkpoint, IsCheckpoint};
ghost use Rattle.kt_ckpt.specs.Header.{header_of};
ghost use Rattle.kt_store.specs.declared.rows.Purpose.{Purpose as Aim};
ghost use Rattle.kt_store.specs.declared.rows.Verdict.{Verdict as Outcome};
ghost use Rattle.kt_store.specs.declared.rows.NodeRow.{NodeRow as NodeFields};
ghost use Rattle.kt_store.specs.declared.rows.InstanceRow.{InstanceRow as InstanceFields};
ghost use Rattle.kt_store.specs.declared.rows.Tentative.{Tentative as TentativeFields};
ghost use Rattle.kt_store.specs.Content.{greatest, header_in};
ghost use Rattle.kt_sql_tables.specs.Rows.{whole, id_of, bytes_of, purpose_code, verdict_code, spelled};
ghost use Rattle.kt_sql_tables.specs.Rows.{checkpoint_value};
ghost use Rattle.kt_sql_tables.specs.Rows.{instance_value, node_given, instance_row_given};
ghost use Rattle.kt_sql_tables.specs.Rows.{HasId, taken_checkpoint, taken_instance, IsLow, IsSpelled, IsTaken};
ghost use Rattle.kt_sql_tables.specs.Rows.{IsNodeRow};
ghost use Rattle.kt_sql_tables.specs.Rows.{IsInstanceRow};
ghost use Rattle.kt_sql_tables.specs.auxiliary.Cells.{GivesInstance};
ghost use Rattle.kt_sql_tables.specs.auxiliary.Showing.{ShowsNode, ShowsInstanceRow, Gives, IsReadError};

use crate::ids::{id_of, node_of};
use crate::number::Number;
use kt_ckpt::{Ckpt, CkptError, CkptHeader};
use kt_store::{
    GREATEST, InstanceRow, NodeRow, Purpose, StoreError, Tentative, TentativeHeader, Verdict,
};
use kt_tuple::NodeId;
use sqlite::types::ValueRef;
use sqlite::{Error, ErrorCode, Row};
use std::alloc::Global;

/// Why a value of a row was refused: `Memory` where memory ran out, else `Damaged`.
fn read_error(error: Error) -> StoreError
    ensures named { IsReadError result }
    ensures memory { error ≡ Error.SqliteFailure ErrorCode.OutOfMemory → result ≡ StoreError.Memory }
{
    match error {
        Error::SqliteFailure(ErrorCode::OutOfMemory) => StoreError::Memory,
        _ => StoreError::Damaged,
    }
}

/// The number in a column; `Damaged` where another value stands there.
fn number_at(row: &Row, at: usize) -> Result<u64, StoreError>
    ensures found { IfOk result (λ n. column row.now at ≡ whole n) }
    ensures exact { (n : ℕ) → at < length row.now → column row.now at ≡ whole n → Gives n result }
    ensures named { IfErr result IsReadError }
{
    row.get(at).map_err(read_error)
}

/// The number in a column, `None` where it is NULL; `Damaged` where another value stands there.
fn optional_number_at(row: &Row, at: usize) -> Result<Option<u64>, StoreError>
    ensures found { IfOk result (λ o. column row.now at ≡ or_null whole o) }
    ensures exact { (o : Option ℕ) → at < length row.now → column row.now at ≡ or_null whole o → Gives o result }
    ensures named { IfErr result IsReadError }
{
    row.get(at).map_err(read_error)
}

/// The checkpoint in a column, `None` where it is NULL; `Damaged` where another value stands there.
fn checkpoint_at(alloc: Global, row: &Row, at: usize) -> Result<Option<Ckpt>, StoreError>
    ensures found { IfOk result (λ c. IsSpelled c × (column row.now at ≡ spelled c)) }
    ensures exact { (c : Option Checkpoint) → IsSpelled c → at < length row.now → column row.now at ≡ spelled c
        → Gives c result }
    ensures named { IfErr result IsReadError }
{
    match row.get_ref(at) {
        Ok(ValueRef::Null) => Ok(None),
        Ok(ValueRef::Blob(bytes)) => Ok(Some(decoded(alloc, bytes)?)),
        _ => Err(StoreError::Damaged),
    }
}

/// The checkpoint that the bytes spell; `Damaged` where they spell none.
#[tactic(auto, unfolding(crate::specs::Rows::bytes_of))]
fn decoded(alloc: Global, bytes: &[u8]) -> Result<Ckpt, StoreError>
    ensures found { IfOk result (λ c. IsCheckpoint c × (bytes.now ≡ bytes_of c)) }
    ensures exact { (c : Checkpoint) → IsCheckpoint c → bytes.now ≡ bytes_of c → Gives c result }
    ensures named { IfErr result IsReadError }
{
    match Ckpt::decode(alloc, bytes) {
        Ok(checkpoint) => Ok(checkpoint),
        Err(CkptError::OutOfMemory) => Err(StoreError::Memory),
        Err(_) => Err(StoreError::Damaged),
    }
}

/// The bytes in a column, `None` where it is NULL; `Damaged` where another value stands there. Whether they spell a
/// checkpoint is not looked at.
pub(crate) fn bytes_at(row: &Row, at: usize) -> Result<Option<Vec<u8>>, StoreError>
    ensures found { IfOk result (λ o. column row.now at ≡ or_null (λ b. Blob b.items) o) }
    ensures exact { (c : Option Checkpoint) → at < length row.now → column row.now at ≡ spelled c
        → IfErr result (λ e. e ≡ StoreError.Memory) }
    ensures named { IfErr result IsReadError }
{
    row.get(at).map_err(read_error)
}

/// The header of the checkpoint in a column, `None` where it is NULL. The state behind it is not read.
pub(crate) fn header_at(
    alloc: Global,
    row: &Row,
    at: usize,
) -> Result<Option<CkptHeader>, StoreError>
    ensures exact { (c : Option Checkpoint) → IsSpelled c → at < length row.now → column row.now at ≡ spelled c
        → Gives (option_map header_of c) result }
    ensures named { IfErr result IsReadError }
{
    match row.get_ref(at) {
        Ok(ValueRef::Null) => Ok(None),
        Ok(ValueRef::Blob(bytes)) => Ok(Some(decoded_header(alloc, bytes)?)),
        _ => Err(StoreError::Damaged),
    }
}

/// The header of the checkpoint that the bytes spell.
#[tactic(auto, unfolding(crate::specs::Rows::bytes_of))]
fn decoded_header(alloc: Global, bytes: &[u8]) -> Result<CkptHeader, StoreError>
    ensures exact { (c : Checkpoint) → IsCheckpoint c → bytes.now ≡ bytes_of c → Gives (header_of c) result }
    ensures named { IfErr result IsReadError }
{
    match CkptHeader::decode(alloc, bytes) {
        Ok(header) => Ok(header),
        Err(CkptError::OutOfMemory) => Err(StoreError::Memory),
        Err(_) => Err(StoreError::Damaged),
    }
}

/// The header of the tentative checkpoint of the row of a node, with its instance.
pub(crate) fn tentative_header_at(
    alloc: Global,
    row: &Row,
) -> Result<Option<TentativeHeader>, StoreError>
    ensures exact { (t : Option TentativeFields) → IsTaken t → 4 < length row.now
        → column row.now 3 ≡ checkpoint_value t
        → column row.now 4 ≡ instance_value t → Gives (option_map header_in t) result }
    ensures named { IfErr result IsReadError }
{
    let header = header_at(alloc, row, 3)?;
    let instance = optional_number_at(row, 4)?;
    match (header, instance) {
        (None, None) => Ok(None),
        (Some(header), Some(instance)) if instance <= GREATEST => {
            Ok(Some(TentativeHeader { instance, header }))
        }
        _ => Err(StoreError::Damaged),
    }
}

/// The tentative checkpoint of the row of a node, with its instance.
fn tentative_at(alloc: Global, row: &Row) -> Result<Option<Tentative>, StoreError>
    ensures found { IfOk result (λ t. IsTaken t × (column row.now 3 ≡ checkpoint_value t)
        × (column row.now 4 ≡ instance_value t)) }
    ensures exact { (t : Option TentativeFields) → IsTaken t → 4 < length row.now
        → column row.now 3 ≡ checkpoint_value t
        → column row.now 4 ≡ instance_value t → Gives t result }
    ensures named { IfErr result IsReadError }
{
    let checkpoint = checkpoint_at(alloc, row, 3)?;
    let instance = optional_number_at(row, 4)?;
    paired(checkpoint, instance)
}

/// The instance of the tentative checkpoint of the row of a node; `Damaged` where the one is there without the other.
pub(crate) fn instance_at(row: &Row, is_taken: bool) -> Result<Option<Number>, StoreError>
    ensures exact { (t : Option TentativeFields) → IsTaken t → 4 < length row.now → column row.now 4 ≡ instance_value t
        → is_taken ≡ is_some t → GivesInstance t result }
    ensures named { IfErr result IsReadError }
{
    match optional_number_at(row, 4)? {
        None if !is_taken => Ok(None),
        Some(instance) if is_taken => match Number::new(instance) {
            Some(number) => Ok(Some(number)),
            None => Err(StoreError::Damaged),
        },
        _ => Err(StoreError::Damaged),
    }
}

/// A checkpoint and its instance, which are both there or both not.
fn paired(checkpoint: Option<Ckpt>, instance: Option<u64>) -> Result<Option<Tentative>, StoreError>
    ensures found { IfOk result (λ t. (checkpoint ≡ taken_checkpoint t) × (instance ≡ taken_instance t)
        × IsLow instance) }
    ensures exact { (t : Option TentativeFields) → IsTaken t → checkpoint ≡ taken_checkpoint t
        → instance ≡ taken_instance t
        → Gives t result }
    ensures named { IfErr result IsReadError }
{
    match (checkpoint, instance) {
        (None, None) => Ok(None),
        (Some(checkpoint), Some(instance)) if instance <= GREATEST => Ok(Some(Tentative {
            instance,
            checkpoint,
        })),
        _ => Err(StoreError::Damaged),
    }
}

/// The node whose number is in a column.
pub(crate) fn node_at(row: &Row, at: usize) -> Result<NodeId, StoreError>
    ensures found { IfOk result (λ n. HasId n × (column row.now at ≡ whole (id_of n))) }
    ensures exact { (n : NodeName) → HasId n → at < length row.now → column row.now at ≡ whole (id_of n)
        → Gives n result }
    ensures named { IfErr result IsReadError }
{
    node_of(number_at(row, at)?).ok_or(StoreError::Damaged)
}

/// The id of the node whose row this is.
pub(crate) fn id_at(row: &Row) -> Result<u32, StoreError>
    ensures exact { (n : NodeName) → HasId n → 0 < length row.now → column row.now 0 ≡ whole (id_of n)
        → Gives (id_of n) result }
    ensures named { IfErr result IsReadError }
{
    id_of(node_at(row, 0)?).ok_or(StoreError::Damaged)
}

/// The number in a column, from 1 to the greatest.
pub(crate) fn positive_at(row: &Row, at: usize) -> Result<u64, StoreError>
    ensures found { IfOk result (λ n. (1 ≤ n) × (n ≤ greatest) × (column row.now at ≡ whole n)) }
    ensures exact { (n : ℕ) → 1 ≤ n → n ≤ greatest → at < length row.now → column row.now at ≡ whole n
        → Gives n result }
    ensures named { IfErr result IsReadError }
{
    let number = number_at(row, at)?;
    if 1 <= number && number <= GREATEST {
        Ok(number)
    } else {
        Err(StoreError::Damaged)
    }
}

/// The row of a node, read whole from its five columns.
pub(crate) fn node_row(alloc: Global, row: &Row) -> Result<NodeRow, StoreError>
    ensures found { IfOk result (λ r. IsNodeRow r × ShowsNode row.now r) }
    ensures exact { (r : NodeFields) → IsNodeRow r → row.now ≡ node_given r → Gives r result }
    ensures named { IfErr result IsReadError }
{
    let node = node_at(row, 0)?;
    let incarnation = positive_at(row, 1)?;
    let permanent = checkpoint_at(alloc, row, 2)?;
    let tentative = tentative_at(alloc, row)?;
    Ok(NodeRow {
        node,
        incarnation,
        permanent,
        tentative,
    })
}

/// What an instance is for, by its code: 1 a check, 2 a rollback; any other is `Damaged`.
fn purpose_at(row: &Row, at: usize) -> Result<Purpose, StoreError>
    ensures found { IfOk result (λ p. column row.now at ≡ whole (purpose_code p)) }
    ensures exact { (p : Aim) → at < length row.now → column row.now at ≡ whole (purpose_code p) → Gives p result }
    ensures named { IfErr result IsReadError }
{
    match number_at(row, at)? {
        1 => Ok(Purpose::Check),
        2 => Ok(Purpose::Rollback),
        _ => Err(StoreError::Damaged),
    }
}

/// How an instance ended, by its code: 0 open, 1 yes, 2 no; any other is `Damaged`.
fn verdict_at(row: &Row, at: usize) -> Result<Verdict, StoreError>
    ensures found { IfOk result (λ v. column row.now at ≡ whole (verdict_code v)) }
    ensures exact { (v : Outcome) → at < length row.now → column row.now at ≡ whole (verdict_code v) → Gives v result }
    ensures named { IfErr result IsReadError }
{
    match number_at(row, at)? {
        0 => Ok(Verdict::Open),
        1 => Ok(Verdict::Yes),
        2 => Ok(Verdict::No),
        _ => Err(StoreError::Damaged),
    }
}

/// The row of an instance, read whole from its four columns.
pub(crate) fn instance_row_of(row: &Row) -> Result<InstanceRow, StoreError>
    ensures found { IfOk result (λ p. IsInstanceRow p × ShowsInstanceRow row.now p) }
    ensures exact { (p : InstanceFields) → IsInstanceRow p → row.now ≡ instance_row_given p → Gives p result }
    ensures named { IfErr result IsReadError }
{
    Ok(InstanceRow {
        instance: positive_at(row, 0)?,
        initiator: node_at(row, 1)?,
        purpose: purpose_at(row, 2)?,
        verdict: verdict_at(row, 3)?,
    })
}
