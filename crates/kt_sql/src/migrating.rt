//! How a store of version 1 is carried over.
//! Cited by other crates.

ghost use Rattle.std.specs.Prelude.{◌≡◌, ◌⊎◌, false, codes, Err, IfOk, IfErr, IsTrue};
ghost use Rattle.sqlite.specs.Held.{state};
ghost use Rattle.sqlite.specs.State.{HasCleanDisk};
ghost use Rattle.sqlite.specs.Tree.{Trees};
ghost use Rattle.kt_store.specs.Calls.{nothing_counted};
ghost use Rattle.kt_sql_tables.specs.Held.{content_of, is_sure};
ghost use Rattle.kt_sql_tables.specs.Old.{AreNewOf, IsOldOf};
ghost use Rattle.kt_sql_tables.specs.Opened.{IsThisVersion};

use crate::error::SqlOpenError;
use crate::open::file_connection;
use crate::store::SqlStore;
use kt_sql_tables::carried;
use kt_store::{MemStore, StoreError};
use sqlite::{Alter, Connection, File, FileStore};
use std::alloc::Global;

/// Why nothing is carried over, where it is not for what the tables hold.
fn carry_error(error: StoreError) -> SqlOpenError
    ensures { (result ≡ SqlOpenError.Memory) ⊎ (result ≡ SqlOpenError.Device) }
{
    match error {
        StoreError::Memory => SqlOpenError::Memory,
        StoreError::Device | StoreError::Damaged | StoreError::Full => SqlOpenError::Device,
    }
}

impl<S: Alter> SqlStore<S> {
    /// The store in the tables of the connection, which has no transaction open, where all that they hold is what the
    /// store in memory holds, in version 1, which keeps no acts. They are carried over: all rows and the version are
    /// written in one transaction. Bytes are compared with the one spelling of each checkpoint, and none are decoded.
    /// Any other tables, or none, are a `Mismatch`. A refusal changes nothing and hands the connection back.
    pub fn migrate(
        alloc: Global,
        mut conn: Connection<S>,
        store: &MemStore,
    ) -> Result<SqlStore<S>, (SqlOpenError, Connection<S>)>
        requires { conn.in_transaction ≡ false }
        ensures same { IfOk result (λ s. HasCleanDisk (state S.Store s.tables.conn)
            → IsOldOf (state S.Store conn).now store.now.content) }
        ensures honest { IfOk result (λ s. HasCleanDisk (state S.Store s.tables.conn)
            → IsTrue (is_sure S.Store s.tables)) }
        ensures content { IfOk result (λ s. HasCleanDisk (state S.Store s.tables.conn)
            → content_of S.Store s.tables ≡ store.now.content) }
        ensures version { IfOk result (λ s. HasCleanDisk (state S.Store s.tables.conn)
            → IsThisVersion (state S.Store s.tables.conn).now) }
        ensures counts { IfOk result (λ s. s.counts ≡ nothing_counted) }
        ensures mismatch { IfErr result (λ e. e.0 ≡ SqlOpenError.Mismatch → HasCleanDisk (state S.Store e.1)
            → IsOldOf (state S.Store conn).now store.now.content → ⊥) }
        ensures named { IfErr result (λ e. (e.0 ≡ SqlOpenError.Memory)
            ⊎ ((e.0 ≡ SqlOpenError.Device) ⊎ (e.0 ≡ SqlOpenError.Mismatch))) }
        ensures unchanged { IfErr result (λ e. HasCleanDisk (state S.Store e.1)
            → IsTrue (state S.Store e.1).is_open → (state S.Store e.1).now ≡ (state S.Store conn).now) }
        ensures ended { IfErr result (λ e. e.1.in_transaction ≡ false) }
        // A stop leaves the tables as they were or carried over, also where it comes with a refusal; and once this has
        // answered with the store, carried over.
        ensures stop { IfErr result (λ e. HasCleanDisk (state S.Store e.1) → IsTrue (state S.Store conn).is_open
            → (db : Trees) → (state S.Store e.1).may_leave db
            → (db ≡ (state S.Store conn).committed.trees) ⊎ AreNewOf db store.now.content) }
        ensures lasts { IfOk result (λ s. HasCleanDisk (state S.Store s.tables.conn)
            → (db : Trees) → (state S.Store s.tables.conn).may_leave db → AreNewOf db store.now.content) }
    {
        match carried(alloc, &mut conn, store) {
            Ok(true) => Ok(SqlStore::over(alloc, conn, true)),
            Ok(false) => Err((SqlOpenError::Mismatch, conn)),
            Err(error) => Err((carry_error(error), conn)),
        }
    }
}

/// The connection to the database at the path, for `SqlStore::migrate`, which tells what its tables are. Where no file
/// is there, an empty database is made.
pub fn connect(rt: &HostRuntime, path: &str) -> Result<Connection<FileStore<File>>, SqlOpenError>
    ensures ended { IfOk result (λ c. c.in_transaction ≡ false) }
    ensures memory { path.now ≡ codes ":memory:" → result ≡ Err SqlOpenError.Device }
{
    file_connection(rt, path)
}
