//! What is read of tables that are there where a store is opened.
//! Cited by carrying.rt, held.rt, old.rt, ready.rt.

ghost use Rattle.std.specs.Prelude.{◌≡◌, ◌≢◌, ◌↔◌, ◌⊎◌, ◌<◌, ◌≤◌, false, [], ◌∷◌, Err, List, length, IsTrue};
ghost use Rattle.std.specs.Prelude.{ℕ, Ok, pos, IfOk, IfErr, OnOk, OnErr, MatchOption};
ghost use Rattle.sqlite_trees.specs.View.{doubt};
ghost use Rattle.sqlite.specs.Order.{column, Row as Values};
ghost use Rattle.sqlite.specs.declared.types.Value.TheVariants.{Int};
ghost use Rattle.sqlite.specs.Given.{IsPlain};
ghost use Rattle.sqlite.specs.Held.{state};
ghost use Rattle.sqlite.specs.Listing.{understood};
ghost use Rattle.sqlite.specs.State.{HasCleanDisk, Shown, Survives};
ghost use Rattle.sqlite.specs.Tree.{Trees};
ghost use Rattle.kt_store.specs.Content.{empty_content, greatest};
ghost use Rattle.kt_sql_tables.specs.Schema.{kt_schema};
ghost use Rattle.kt_sql_tables.specs.Settled.{IsSettled};
ghost use Rattle.kt_sql_tables.specs.auxiliary.Looking.{Looks};
ghost use Rattle.kt_sql_tables.specs.Made.{IsMade};
ghost use Rattle.kt_sql_tables.specs.Stored.{IsStoreOf};
ghost use Rattle.kt_sql_tables.specs.Opened.{meta_of, HasNoRow, IsOldVersion, IsThisVersion, IsReady};
ghost use Rattle.kt_sql_tables.specs.auxiliary.Testing.{key_of, IsRowOf, AreRowsFrom};

use crate::records::Record;
use crate::schema::is_kt_schema;
use crate::statements::{PUT_VERSION, run};
use kt_store::{InstanceRow, NodeRow, StoreError};
use sqlite::types::ValueRef;
use sqlite::{Alter, Connection, Error, ErrorCode, Row};
use std::alloc::Global;

/// The version of the tables that are made, which the one row of the third says.
const VERSION: i64 = 2;

/// The version before it, which differs in the bytes of checkpoints.
const OLD_VERSION: i64 = 1;

/// What the schema and the third table say.
#[derive(Clone, Copy)]
pub(crate) enum Kind {
    /// The tables are those of a store, in the version that is made.
    This,
    /// They are those of a store of version 1.
    Old,
    /// They are others, or of another version.
    Other,
}

const META: &str = "SELECT id, version FROM kt_meta ORDER BY id";

pub(crate) const ALL_NODES: &str =
    "SELECT id, incarnation, permanent, tentative, instance FROM kt_node ORDER BY id";

pub(crate) const ALL_INSTANCE_ROWS: &str =
    "SELECT instance, initiator, purpose, verdict FROM kt_board ORDER BY instance";

/// Why a statement was refused: for memory exactly where sqlite says so, and else for a fault.
pub(crate) fn statement_error(error: Error) -> StoreError
    ensures memory { result ≡ StoreError.Memory ↔ error ≡ Error.SqliteFailure ErrorCode.OutOfMemory }
    ensures named { (result ≡ StoreError.Memory) ⊎ (result ≡ StoreError.Device) }
    ensures whole { result ≢ StoreError.Damaged }
{
    match error {
        Error::SqliteFailure(ErrorCode::OutOfMemory) => StoreError::Memory,
        _ => StoreError::Device,
    }
}

/// All rows of the answer to a query without parameters.
pub(crate) fn ask<S: Alter>(conn: &mut Connection<S>, sql: &str) -> Result<Vec<Row>, StoreError>
    requires { IsPlain (understood kt_schema sql.now) }
    ensures shown { HasCleanDisk (state S.Store conn.new)
        → IfOk result (λ rows. Shown sql.now [] (state S.Store conn.old) (state S.Store conn.new) rows.items) }
    ensures looks { Looks (state S.Store conn.old) (state S.Store conn.new) }
    ensures is_open { HasCleanDisk (state S.Store conn.new) → OnOk result (IsTrue (state S.Store conn.new).is_open) }
    ensures named { IfErr result (λ e. (e ≡ StoreError.Memory) ⊎ (e ≡ StoreError.Device)) }
{
    match conn.query_all(sql, &[]) {
        Ok(rows) => Ok(rows),
        Err(error) => Err(statement_error(error)),
    }
}

/// Whether the value in the column is the number.
pub(crate) fn says(row: &Row, at: usize, number: i64) -> bool
    ensures { IsTrue result ↔ (at < length row.now) × (column row.now at ≡ Int number) }
{
    matches!(row.get_ref(at), Ok(ValueRef::Int(told)) if told == number)
}

/// Whether there is one row, which says the version.
fn is_meta(rows: &[Row], version: i64) -> bool
    ensures { (n : ℕ) → version ≡ pos n → IsTrue result ↔ (rows.now ≡ meta_of n ∷ []) }
{
    let [row] = rows else {
        return false;
    };
    row.column_count() == 2 && says(row, 0, 1) && says(row, 1, version)
}

/// Whose tables they are, and of which version.
pub(crate) fn kind_of<S: Alter>(conn: &mut Connection<S>) -> Result<Kind, StoreError>
    ensures this { HasCleanDisk (state S.Store conn.new)
        → IfOk result (λ kind. kind ≡ Kind.This ↔ IsThisVersion (state S.Store conn.old).now) }
    ensures old { HasCleanDisk (state S.Store conn.new)
        → IfOk result (λ kind. kind ≡ Kind.Old ↔ IsOldVersion (state S.Store conn.old).now) }
    ensures looks { Looks (state S.Store conn.old) (state S.Store conn.new) }
    ensures same { HasCleanDisk (state S.Store conn.new) → IsTrue (state S.Store conn.new).is_open
        → IsSettled (state S.Store conn.old)
        → ((state S.Store conn.new).now ≡ (state S.Store conn.old).now) × IsSettled (state S.Store conn.new) }
    ensures is_open { HasCleanDisk (state S.Store conn.new) → (state S.Store conn.old).now.schema ≡ kt_schema
        → OnOk result (IsTrue (state S.Store conn.new).is_open) }
    ensures leaves { HasCleanDisk (state S.Store conn.new) → (db : Trees) → (state S.Store conn.new).may_leave db
        → (state S.Store conn.old).may_leave db }
    ensures foreign { (state S.Store conn.old).now.schema ≢ kt_schema → result ≡ Ok Kind.Other }
    ensures named { IfErr result (λ e. (e ≡ StoreError.Memory) ⊎ (e ≡ StoreError.Device)) }
{
    if !is_kt_schema(conn.schema()) {
        return Ok(Kind::Other);
    }
    let rows = ask(conn, META)?;
    if is_meta(&rows, VERSION) {
        Ok(Kind::This)
    } else if is_meta(&rows, OLD_VERSION) {
        Ok(Kind::Old)
    } else {
        Ok(Kind::Other)
    }
}

/// The number of the row; `None` where the row is not as said.
fn number_in<R: Record>(alloc: Global, row: &Row) -> Result<Option<u64>, StoreError>
    ensures value { IfOk result (λ o. MatchOption o (¬ IsRowOf R.given R.is_said row.now)
        (λ n. IsRowOf R.given R.is_said row.now × (n ≡ key_of row.now) × (n ≤ greatest))) }
    ensures wanted { IfErr result (λ e. e ≡ StoreError.Memory) }
{
    if row.column_count() != R::COLUMNS {
        return Ok(None);
    }
    match R::read(alloc, row) {
        Ok(record) => Ok(record.number()),
        Err(StoreError::Memory) => Err(StoreError::Memory),
        // A row that is not as said is no refusal: the store opens, and is not honest.
        Err(_) => Ok(None),
    }
}

/// Whether each row is as said, and their numbers rise.
fn are_said<R: Record>(alloc: Global, rows: &[Row]) -> Result<bool, StoreError>
    ensures value { IfOk result (λ told. IsTrue told ↔ AreRowsFrom R.given R.is_said 0 rows.now) }
    ensures wanted { IfErr result (λ e. e ≡ StoreError.Memory) }
{
    let mut low = 0;
    let mut rest = rows;
    while let Some((row, more)) = rest.split_first() {
        let Some(number) = number_in::<R>(alloc, row)? else {
            return Ok(false);
        };
        if number < low {
            return Ok(false);
        }
        low = number + 1;
        rest = more;
    }
    Ok(true)
}

/// Whether all that the query answers is as said.
fn answers_said<S: Alter, R: Record>(
    alloc: Global,
    conn: &mut Connection<S>,
    sql: &str,
) -> Result<bool, StoreError>
    requires { IsPlain (understood kt_schema sql.now) }
    ensures value { HasCleanDisk (state S.Store conn.new) → IfOk result (λ told. (rows : List Values)
        × Shown sql.now [] (state S.Store conn.old) (state S.Store conn.new) rows
        × (IsTrue told ↔ AreRowsFrom R.given R.is_said 0 rows)) }
    ensures looks { Looks (state S.Store conn.old) (state S.Store conn.new) }
    ensures is_open { HasCleanDisk (state S.Store conn.new) → OnOk result (IsTrue (state S.Store conn.new).is_open) }
    ensures named { IfErr result (λ e. (e ≡ StoreError.Memory) ⊎ (e ≡ StoreError.Device)) }
{
    let rows = ask(conn, sql)?;
    are_said::<R>(alloc, &rows)
}

/// Tests the rows of tables of this version, and answers whether each is as said.
pub(crate) fn tested<S: Alter>(alloc: Global, conn: &mut Connection<S>) -> Result<bool, StoreError>
    ensures ready { HasCleanDisk (state S.Store conn.new) → IsSettled (state S.Store conn.old)
        → IsThisVersion (state S.Store conn.old).now → IfOk result (IsReady (state S.Store conn.new)) }
    ensures same { HasCleanDisk (state S.Store conn.new) → IsTrue (state S.Store conn.new).is_open
        → IsSettled (state S.Store conn.old) → IsThisVersion (state S.Store conn.old).now
        → (state S.Store conn.new).now ≡ (state S.Store conn.old).now }
    ensures was_open { HasCleanDisk (state S.Store conn.new)
        → IsTrue (state S.Store conn.new).is_open → IsTrue (state S.Store conn.old).is_open }
    ensures leaves { HasCleanDisk (state S.Store conn.new) → IsSettled (state S.Store conn.old)
        → IsThisVersion (state S.Store conn.old).now → (db : Trees) → (state S.Store conn.new).may_leave db
        → (state S.Store conn.old).may_leave db }
    ensures clean { doubt (state S.Store conn.old).is_clean ≤ doubt (state S.Store conn.new).is_clean }
    ensures named { IfErr result (λ e. (e ≡ StoreError.Memory) ⊎ (e ≡ StoreError.Device)) }
    ensures mode { (state S.Store conn.old).in_transaction ≡ false → (state S.Store conn.new).in_transaction ≡ false }
{
    let are_nodes = answers_said::<S, NodeRow>(alloc, conn, ALL_NODES)?;
    let are_instance_rows = answers_said::<S, InstanceRow>(alloc, conn, ALL_INSTANCE_ROWS)?;
    Ok(are_nodes && are_instance_rows)
}

/// Whether the query answers no row.
fn answers_nothing<S: Alter>(conn: &mut Connection<S>, sql: &str) -> Result<bool, StoreError>
    requires { IsPlain (understood kt_schema sql.now) }
    ensures value { HasCleanDisk (state S.Store conn.new) → IfOk result (λ told. (rows : List Values)
        × Shown sql.now [] (state S.Store conn.old) (state S.Store conn.new) rows × (IsTrue told ↔ (length rows ≡ 0))) }
    ensures looks { Looks (state S.Store conn.old) (state S.Store conn.new) }
    ensures is_open { HasCleanDisk (state S.Store conn.new) → OnOk result (IsTrue (state S.Store conn.new).is_open) }
    ensures named { IfErr result (λ e. (e ≡ StoreError.Memory) ⊎ (e ≡ StoreError.Device)) }
{
    let rows = ask(conn, sql)?;
    Ok(rows.is_empty())
}

/// Whether neither nodes nor instances have a row. What stands in a row is not looked at.
pub(crate) fn has_no_row<S: Alter>(conn: &mut Connection<S>) -> Result<bool, StoreError>
    ensures value { HasCleanDisk (state S.Store conn.new) → IsSettled (state S.Store conn.old)
        → (state S.Store conn.old).now.schema ≡ kt_schema
        → IfOk result (λ none. IsTrue none ↔ HasNoRow (state S.Store conn.old).now) }
    ensures same { HasCleanDisk (state S.Store conn.new) → IsTrue (state S.Store conn.new).is_open
        → IsSettled (state S.Store conn.old) → (state S.Store conn.old).now.schema ≡ kt_schema
        → ((state S.Store conn.new).now ≡ (state S.Store conn.old).now) × IsSettled (state S.Store conn.new) }
    ensures was_open { HasCleanDisk (state S.Store conn.new)
        → IsTrue (state S.Store conn.new).is_open → IsTrue (state S.Store conn.old).is_open }
    ensures is_open { HasCleanDisk (state S.Store conn.new) → OnOk result (IsTrue (state S.Store conn.new).is_open) }
    ensures leaves { HasCleanDisk (state S.Store conn.new) → IsSettled (state S.Store conn.old)
        → (state S.Store conn.old).now.schema ≡ kt_schema → (db : Trees) → (state S.Store conn.new).may_leave db
        → (state S.Store conn.old).may_leave db }
    ensures clean { doubt (state S.Store conn.old).is_clean ≤ doubt (state S.Store conn.new).is_clean }
    ensures named { IfErr result (λ e. (e ≡ StoreError.Memory) ⊎ (e ≡ StoreError.Device)) }
    ensures mode { (state S.Store conn.old).in_transaction ≡ false → (state S.Store conn.new).in_transaction ≡ false }
{
    let no_nodes = answers_nothing(conn, ALL_NODES)?;
    let no_instance_row = answers_nothing(conn, ALL_INSTANCE_ROWS)?;
    Ok(no_nodes && no_instance_row)
}

/// Has the third table say this version. It does nothing where a transaction is open.
pub(crate) fn raise<S: Alter>(conn: &mut Connection<S>) -> Result<(), StoreError>
    ensures made { HasCleanDisk (state S.Store conn.new) → IsSettled (state S.Store conn.old)
        → IsOldVersion (state S.Store conn.old).now → HasNoRow (state S.Store conn.old).now
        → OnOk result (IsMade (state S.Store conn.new)) }
    ensures unchanged { HasCleanDisk (state S.Store conn.new) → IsTrue (state S.Store conn.new).is_open
        → IsSettled (state S.Store conn.old)
        → OnErr result ((state S.Store conn.new).now ≡ (state S.Store conn.old).now) }
    ensures was_open { HasCleanDisk (state S.Store conn.new)
        → IsTrue (state S.Store conn.new).is_open → IsTrue (state S.Store conn.old).is_open }
    ensures survives { IsOldVersion (state S.Store conn.old).now → HasNoRow (state S.Store conn.old).now
        → Survives (state S.Store conn.old) (state S.Store conn.new) (λ db. IsStoreOf db empty_content) }
    ensures clean { doubt (state S.Store conn.old).is_clean ≤ doubt (state S.Store conn.new).is_clean }
    ensures named { IfErr result (λ e. (e ≡ StoreError.Memory) ⊎ (e ≡ StoreError.Device)) }
    ensures mode { (state S.Store conn.old).in_transaction ≡ false → (state S.Store conn.new).in_transaction ≡ false }
{
    if !conn.is_autocommit() {
        return Err(StoreError::Device);
    }
    match put_version(conn) {
        Ok(()) => Ok(()),
        Err(error) => Err(statement_error(error)),
    }
}

/// The same in one transaction: a single statement would not say that none is open after a fault.
fn put_version<S: Alter>(conn: &mut Connection<S>) -> Result<(), Error>
    requires { conn.old.in_transaction ≡ false }
    ensures made { HasCleanDisk (state S.Store conn.new) → IsOldVersion (state S.Store conn.old).now
        → HasNoRow (state S.Store conn.old).now → OnOk result (IsMade (state S.Store conn.new)) }
    ensures none { HasCleanDisk (state S.Store conn.new) → IsTrue (state S.Store conn.new).is_open
        → OnErr result ((state S.Store conn.new).now ≡ (state S.Store conn.old).committed) }
    ensures was_open { HasCleanDisk (state S.Store conn.new)
        → IsTrue (state S.Store conn.new).is_open → IsTrue (state S.Store conn.old).is_open }
    ensures ended { conn.new.in_transaction ≡ false }
    ensures survives { IsOldVersion (state S.Store conn.old).now → HasNoRow (state S.Store conn.old).now
        → Survives (state S.Store conn.old) (state S.Store conn.new) (λ db. IsStoreOf db empty_content) }
    ensures clean { doubt (state S.Store conn.old).is_clean ≤ doubt (state S.Store conn.new).is_clean }
{
    let mut tx = conn.transaction();
    run(&mut tx, PUT_VERSION, &[])?;
    tx.commit()?;
    Ok(())
}
