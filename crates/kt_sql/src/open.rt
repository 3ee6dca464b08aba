//! How a store is opened.
//! Cited by migrating.rt; other crates.

ghost use Rattle.std.specs.Prelude.{◌≡◌, ◌≢◌, ◌↔◌, ◌⊎◌, false, codes, Err, IfOk, IfErr, OnOk, IsTrue};
ghost use Rattle.std.specs.IoError.{error_kind};
ghost use Rattle.sqlite.specs.Files.{over_files, file_state};
ghost use Rattle.sqlite.specs.Held.{state};
ghost use Rattle.sqlite.specs.State.{HasCleanDisk};
ghost use Rattle.sqlite.specs.Steps.{over_memory};
ghost use Rattle.sqlite.specs.Tree.{Trees};
ghost use Rattle.kt_store.specs.Calls.{nothing_counted};
ghost use Rattle.kt_store.specs.Content.{Content, empty_content};
ghost use Rattle.kt_sql_tables.specs.Schema.{kt_schema, no_schema};
ghost use Rattle.kt_sql_tables.specs.Rows.{AreAsSaid};
ghost use Rattle.kt_sql_tables.specs.Opened.{HasNoRow, IsOldVersion, IsThisVersion};
ghost use Rattle.kt_sql_tables.specs.Held.{is_sure, content_of};
ghost use Rattle.kt_sql_tables.specs.Stored.{IsStoreOf, IsUnused};

use crate::error::SqlOpenError;
use crate::store::SqlStore;
use kt_sql_tables::{ReadyError, readied};
use sqlite::{Alter, Connection, Error, ErrorCode, File, FileStore, MemStore, Options, Unknown};
use sqlite_std_file::OpenError as PathError;
use std::alloc::Global;
use std::hash::{BuildHasher, RandomState};
use std::io::ErrorKind;

/// How many pages that were read are kept in memory: a megabyte, in which a board of 80,000 instances lies. The kit
/// keeps 2,000 if not told, and fills the memory of all as it opens (docs/DECISIONS.md#stores).
const CACHE_PAGES: usize = 256;

/// Why a file was not opened. One that is no database has no tables of a store, so it is damaged.
fn file_error(error: Error) -> SqlOpenError
    ensures memory { result ≡ SqlOpenError.Memory ↔ error ≡ Error.SqliteFailure ErrorCode.OutOfMemory }
    ensures damaged { result ≡ SqlOpenError.Damaged
        ↔ (error ≡ Error.SqliteFailure ErrorCode.NotADatabase)
        ⊎ (error ≡ Error.SqliteFailure ErrorCode.DatabaseCorrupt) }
{
    match error {
        Error::SqliteFailure(ErrorCode::OutOfMemory) => SqlOpenError::Memory,
        Error::SqliteFailure(ErrorCode::NotADatabase | ErrorCode::DatabaseCorrupt) =>
            SqlOpenError::Damaged,
        _ => SqlOpenError::Device,
    }
}

/// Why the files at a path were not opened.
fn path_error(error: PathError) -> SqlOpenError
    ensures memory { result ≡ SqlOpenError.Memory
        ↔ (error ≡ PathError.OutOfMemory)
        ⊎ ((e : _) × (error ≡ PathError.Io e) × (error_kind e ≡ ErrorKind.OutOfMemory)) }
    ensures named { (result ≡ SqlOpenError.Memory) ⊎ (result ≡ SqlOpenError.Device) }
{
    match error {
        PathError::OutOfMemory => SqlOpenError::Memory,
        PathError::Io(error) if error.kind() == ErrorKind::OutOfMemory => SqlOpenError::Memory,
        _ => SqlOpenError::Device,
    }
}

/// The kit's own options but for what is kept in memory.
fn options(rt: &HostRuntime) -> Result<Options, SqlOpenError>
    ensures { IfErr result (λ e. e ≡ SqlOpenError.Device) }
{
    let Ok(seeds) = RandomState::new(rt) else {
        return Err(SqlOpenError::Device);
    };
    let mut options = Options::new(seeds.hash_one(&0u8));
    options.cache_pages = CACHE_PAGES;
    Ok(options)
}

/// The connection to the database at the path: as the kit's `Connection::open` makes it, but for these options, and it
/// tells no time.
pub(crate) fn file_connection(
    rt: &HostRuntime,
    path: &str,
) -> Result<Connection<FileStore<File>>, SqlOpenError>
    ensures ended { IfOk result (λ c. c.in_transaction ≡ false) }
    ensures memory { path.now ≡ codes ":memory:" → result ≡ Err SqlOpenError.Device }
{
    // Neither names a file to the kit.
    if path == ":memory:" || path.starts_with("file:") {
        return Err(SqlOpenError::Device);
    }
    let options = options(rt)?;
    match sqlite_std_file::open(rt, path, Unknown) {
        Ok(files) => match Connection::open_files(rt.alloc(), files, options) {
            Ok(conn) => Ok(conn),
            Err((error, _)) => Err(file_error(error)),
        },
        Err(error) => Err(path_error(error)),
    }
}

/// Closes a connection that was refused, and hands back why it was.
pub(crate) fn closed(conn: Connection<FileStore<File>>, error: SqlOpenError) -> SqlOpenError
    ensures { result ≡ error }
{
    drop(conn.close());
    error
}

/// Why a connection is no store's.
fn open_error(error: ReadyError) -> SqlOpenError
    ensures memory { result ≡ SqlOpenError.Memory ↔ error ≡ ReadyError.Memory }
    ensures damaged { result ≡ SqlOpenError.Damaged ↔ error ≡ ReadyError.Damaged }
    ensures version { result ≡ SqlOpenError.Version ↔ error ≡ ReadyError.Version }
    ensures opened { result ≢ SqlOpenError.Mismatch }
{
    match error {
        ReadyError::Memory => SqlOpenError::Memory,
        ReadyError::Device => SqlOpenError::Device,
        ReadyError::Damaged => SqlOpenError::Damaged,
        ReadyError::Version => SqlOpenError::Version,
    }
}

impl<S: Alter> SqlStore<S> {
    /// The store in the tables of the connection, which has no transaction open. Where there are no tables they are
    /// made. Where they are those of a store, each row is read, and the store is honest where all are as said. Tables
    /// of version 1 are raised where they have no row, and are refused where they have one, whatever it holds:
    /// `migrate` carries them over. A refusal hands the connection back.
    pub fn adopt(
        alloc: Global,
        mut conn: Connection<S>,
    ) -> Result<SqlStore<S>, (SqlOpenError, Connection<S>)>
        requires { conn.in_transaction ≡ false }
        ensures fresh { IfOk result (λ s. HasCleanDisk (state S.Store s.tables.conn)
            → (state S.Store conn).now.schema ≡ no_schema
            → IsTrue (is_sure S.Store s.tables) × (content_of S.Store s.tables ≡ empty_content)) }
        ensures found { IfOk result (λ s. HasCleanDisk (state S.Store s.tables.conn)
            → IsThisVersion (state S.Store conn).now
            → (state S.Store s.tables.conn).now ≡ (state S.Store conn).now) }
        ensures raised { IfOk result (λ s. HasCleanDisk (state S.Store s.tables.conn)
            → IsOldVersion (state S.Store conn).now → HasNoRow (state S.Store conn).now
            × IsTrue (is_sure S.Store s.tables) × (content_of S.Store s.tables ≡ empty_content)) }
        ensures version { IfOk result (λ s. HasCleanDisk (state S.Store s.tables.conn)
            → IsThisVersion (state S.Store s.tables.conn).now) }
        ensures honest { IfOk result (λ s. HasCleanDisk (state S.Store s.tables.conn)
            → (IsTrue (is_sure S.Store s.tables) ↔ AreAsSaid (state S.Store s.tables.conn).now.trees)) }
        ensures counts { IfOk result (λ s. s.counts ≡ nothing_counted) }
        // Other tables than a store's are refused, and by this name.
        ensures foreign { (state S.Store conn).now.schema ≢ no_schema → (state S.Store conn).now.schema ≢ kt_schema
            → OnOk result ⊥ }
        ensures foreign_name { (state S.Store conn).now.schema ≢ no_schema
            → (state S.Store conn).now.schema ≢ kt_schema → IfErr result (λ e. e.0 ≡ SqlOpenError.Damaged) }
        ensures damaged { IfErr result (λ e. e.0 ≡ SqlOpenError.Damaged → HasCleanDisk (state S.Store e.1)
            → ((state S.Store conn).now.schema ≢ no_schema) × (IsThisVersion (state S.Store conn).now → ⊥)
            × (IsOldVersion (state S.Store conn).now → ⊥)) }
        // Rows of version 1 are refused by this name, and nothing else is.
        ensures old { IfErr result (λ e. e.0 ≡ SqlOpenError.Version → HasCleanDisk (state S.Store e.1)
            → IsOldVersion (state S.Store conn).now × (HasNoRow (state S.Store conn).now → ⊥)) }
        ensures opened { IfErr result (λ e. e.0 ≢ SqlOpenError.Mismatch) }
        ensures unchanged { IfErr result (λ e. HasCleanDisk (state S.Store e.1)
            → IsTrue (state S.Store e.1).is_open → (state S.Store e.1).now ≡ (state S.Store conn).now) }
        ensures ended { IfErr result (λ e. e.1.in_transaction ≡ false) }
        // Over what a stop of a store left, which is a store of one content or of another, it gives a store that is
        // honest and holds just that, or is refused for memory or the device alone.
        ensures reopened { IfOk result (λ s. HasCleanDisk (state S.Store s.tables.conn)
            → IsTrue (state S.Store conn).is_open → (c : Content) → IsStoreOf (state S.Store conn).now.trees c
            → IsTrue (is_sure S.Store s.tables) × (content_of S.Store s.tables ≡ c)) }
        ensures reopens { IfErr result (λ e. HasCleanDisk (state S.Store e.1)
            → IsTrue (state S.Store conn).is_open → (c : Content) → IsStoreOf (state S.Store conn).now.trees c
            → (e.0 ≡ SqlOpenError.Memory) ⊎ (e.0 ≡ SqlOpenError.Device)) }
        // A stop inside the call leaves what was there or, where nothing was stored there, an empty store; and once it
        // has answered with the store, what that shows.
        ensures stop { IfErr result (λ e. HasCleanDisk (state S.Store e.1) → IsTrue (state S.Store conn).is_open
            → (db : Trees) → (state S.Store e.1).may_leave db → (db ≡ (state S.Store conn).committed.trees)
            ⊎ (IsUnused (state S.Store conn).now × IsStoreOf db empty_content)) }
        ensures rests { IfOk result (λ s. HasCleanDisk (state S.Store s.tables.conn)
            → (db : Trees) → (state S.Store s.tables.conn).may_leave db
            → db ≡ (state S.Store s.tables.conn).now.trees) }
    {
        // What a connection shows is a database: the clause of its schema tells a proof so.
        let _ = conn.schema();
        match readied(alloc, &mut conn) {
            Ok(is_trusted) => Ok(SqlStore::over(alloc, conn, is_trusted)),
            Err(error) => Err((open_error(error), conn)),
        }
    }
}

impl SqlStore<MemStore> {
    /// A fresh store in a database that lies in memory, and in no file.
    pub fn in_memory(alloc: Global) -> Result<SqlStore<MemStore>, SqlOpenError>
        ensures honest { IfOk result (λ s. IsTrue (is_sure over_memory s.tables)) }
        ensures fresh { IfOk result (λ s. content_of over_memory s.tables ≡ empty_content) }
        ensures counts { IfOk result (λ s. s.counts ≡ nothing_counted) }
        ensures undamaged { IfErr result (λ e. e ≢ SqlOpenError.Damaged) }
    {
        match SqlStore::adopt(alloc, Connection::open_in_memory(alloc)?) {
            Ok(store) => Ok(store),
            Err((error, _)) => Err(error),
        }
    }
}

impl SqlStore<FileStore<File>> {
    /// The store in the database at the path, which is made where no file or an empty one is there. The file is locked
    /// while the store lives. That it is this file, that it is made and locked, and which rows it has then, is tested,
    /// and no clause says it.
    pub fn open(rt: &HostRuntime, path: &str) -> Result<SqlStore<FileStore<File>>, SqlOpenError>
        ensures version { IfOk result (λ s. HasCleanDisk (file_state s.tables.conn)
            → IsThisVersion (file_state s.tables.conn).now) }
        ensures honest { IfOk result (λ s. HasCleanDisk (file_state s.tables.conn)
            → (IsTrue (is_sure over_files s.tables) ↔ AreAsSaid (file_state s.tables.conn).now.trees)) }
        ensures counts { IfOk result (λ s. s.counts ≡ nothing_counted) }
        ensures memory { path.now ≡ codes ":memory:" → result ≡ Err SqlOpenError.Device }
    {
        match SqlStore::adopt(rt.alloc(), file_connection(rt, path)?) {
            Ok(store) => Ok(store),
            Err((error, conn)) => Err(closed(conn, error)),
        }
    }
}
