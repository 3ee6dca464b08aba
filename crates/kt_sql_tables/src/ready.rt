//! How tables are made ready for a store.
//! Cited by other crates.

ghost use Rattle.std.specs.Prelude.{◌≡◌, ◌≢◌, ◌⊎◌, ◌≤◌, false, Err, IfOk, OnOk, OnErr, IsTrue};
ghost use Rattle.sqlite_trees.specs.View.{doubt};
ghost use Rattle.sqlite.specs.Held.{state};
ghost use Rattle.sqlite.specs.State.{HasCleanDisk};
ghost use Rattle.sqlite.specs.Tree.{Trees};
ghost use Rattle.kt_store.specs.Content.{empty_content};
ghost use Rattle.kt_sql_tables.specs.Schema.{kt_schema, no_schema};
ghost use Rattle.kt_sql_tables.specs.Settled.{IsSettled};
ghost use Rattle.kt_sql_tables.specs.Opened.{HasNoRow, IsOldVersion, IsThisVersion, IsReady};
ghost use Rattle.kt_sql_tables.specs.Made.{IsMade};
ghost use Rattle.kt_sql_tables.specs.Stored.{IsStoreOf, IsUnused};

use crate::opened::{Kind, has_no_row, kind_of, raise, statement_error, tested};
use crate::schema::is_no_schema;
use crate::tables::create_tables;
use kt_store::StoreError;
use sqlite::{Alter, Connection};
use std::alloc::Global;

/// Why tables are not made ready. Nothing is changed then.
#[derive(Clone, Copy, Debug, PartialEq, Eq)]
pub enum ReadyError {
    /// Memory ran out.
    Memory,
    /// The device failed.
    Device,
    /// They are not the tables of a store, or of a version that is not known.
    Damaged,
    /// They are those of a store of version 1, and hold something.
    Version,
}

impl From<StoreError> for ReadyError {
    ghost use Rattle.kt_sql_tables.specs.auxiliary.Ready.{ready_error};

    ghost from_gives = { λ error e. e ≡ ready_error error };

    fn from(error: StoreError) -> ReadyError {
        match error {
            StoreError::Memory => ReadyError::Memory,
            StoreError::Damaged => ReadyError::Damaged,
            StoreError::Device | StoreError::Full => ReadyError::Device,
        }
    }
}

/// Makes the tables where there are none, and else tests those that are there. Those of version 1 are raised where they
/// hold nothing; where they hold something they are refused, whatever that is. It answers whether each row is as said.
pub fn readied<S: Alter>(alloc: Global, conn: &mut Connection<S>) -> Result<bool, ReadyError>
    requires { conn.old.in_transaction ≡ false }
    ensures ready { HasCleanDisk (state S.Store conn.new) → IfOk result (IsReady (state S.Store conn.new)) }
    ensures fresh { HasCleanDisk (state S.Store conn.new) → (state S.Store conn.old).now.schema ≡ no_schema
        → OnOk result (IsMade (state S.Store conn.new)) }
    ensures raised { HasCleanDisk (state S.Store conn.new) → IsOldVersion (state S.Store conn.old).now
        → OnOk result (HasNoRow (state S.Store conn.old).now × IsMade (state S.Store conn.new)) }
    ensures found { HasCleanDisk (state S.Store conn.new) → IsThisVersion (state S.Store conn.old).now
        → OnOk result ((state S.Store conn.new).now ≡ (state S.Store conn.old).now) }
    ensures damaged { HasCleanDisk (state S.Store conn.new) → result ≡ Err ReadyError.Damaged
        → ((state S.Store conn.old).now.schema ≢ no_schema) × (IsThisVersion (state S.Store conn.old).now → ⊥)
        × (IsOldVersion (state S.Store conn.old).now → ⊥) }
    ensures foreign { (state S.Store conn.old).now.schema ≢ no_schema → (state S.Store conn.old).now.schema ≢ kt_schema
        → result ≡ Err ReadyError.Damaged }
    ensures version { HasCleanDisk (state S.Store conn.new) → result ≡ Err ReadyError.Version
        → IsOldVersion (state S.Store conn.old).now × (HasNoRow (state S.Store conn.old).now → ⊥) }
    ensures unchanged { HasCleanDisk (state S.Store conn.new) → IsTrue (state S.Store conn.new).is_open
        → OnErr result ((state S.Store conn.new).now ≡ (state S.Store conn.old).now) }
    // A stop leaves the tables as they were or, where nothing was stored there, those of an empty store.
    ensures stop { HasCleanDisk (state S.Store conn.new) → IsTrue (state S.Store conn.old).is_open
        → (db : Trees) → (state S.Store conn.new).may_leave db → (db ≡ (state S.Store conn.old).committed.trees)
        ⊎ (IsUnused (state S.Store conn.old).now × IsStoreOf db empty_content) }
    ensures ended { conn.new.in_transaction ≡ false }
{
    // Outside a transaction what is seen is what was committed.
    let is_settled = conn.is_autocommit();
    prove!(is_settled);
    if is_no_schema(conn.schema()) {
        return match create_tables(conn) {
            Ok(()) => Ok(true),
            Err(error) => Err(ReadyError::from(statement_error(error))),
        };
    }
    match kind_of(conn)? {
        Kind::This => Ok(tested(alloc, conn)?),
        Kind::Old => raised(conn),
        Kind::Other => Err(ReadyError::Damaged),
    }
}

/// Raises tables of version 1 where they hold nothing.
fn raised<S: Alter>(conn: &mut Connection<S>) -> Result<bool, ReadyError>
    ensures made { HasCleanDisk (state S.Store conn.new)
        → (IsTrue (state S.Store conn.old).is_open → IsSettled (state S.Store conn.old))
        → IsOldVersion (state S.Store conn.old).now
        → IfOk result (λ told. IsTrue told × HasNoRow (state S.Store conn.old).now × IsMade (state S.Store conn.new)) }
    ensures version { HasCleanDisk (state S.Store conn.new)
        → (IsTrue (state S.Store conn.old).is_open → IsSettled (state S.Store conn.old))
        → IsOldVersion (state S.Store conn.old).now
        → result ≡ Err ReadyError.Version → HasNoRow (state S.Store conn.old).now → ⊥ }
    ensures unchanged { HasCleanDisk (state S.Store conn.new) → IsTrue (state S.Store conn.new).is_open
        → (IsTrue (state S.Store conn.old).is_open → IsSettled (state S.Store conn.old))
        → IsOldVersion (state S.Store conn.old).now
        → OnErr result ((state S.Store conn.new).now ≡ (state S.Store conn.old).now) }
    ensures stop { HasCleanDisk (state S.Store conn.new)
        → (IsTrue (state S.Store conn.old).is_open → IsSettled (state S.Store conn.old))
        → IsTrue (state S.Store conn.old).is_open → IsOldVersion (state S.Store conn.old).now
        → (db : Trees) → (state S.Store conn.new).may_leave db → (state S.Store conn.old).may_leave db
        ⊎ (HasNoRow (state S.Store conn.old).now × IsStoreOf db empty_content) }
    ensures undamaged { result ≢ Err ReadyError.Damaged }
    ensures clean { doubt (state S.Store conn.old).is_clean ≤ doubt (state S.Store conn.new).is_clean }
    ensures mode { (state S.Store conn.old).in_transaction ≡ false → (state S.Store conn.new).in_transaction ≡ false }
{
    if !has_no_row(conn)? {
        return Err(ReadyError::Version);
    }
    raise(conn)?;
    Ok(true)
}
