//! How the three tables are made.
//! Cited by ready.rt.

ghost use Rattle.std.specs.Prelude.{◌≡◌, ◌≤◌, false, OnOk, OnErr, IsTrue};
ghost use Rattle.sqlite_trees.specs.View.{doubt};
ghost use Rattle.sqlite.specs.Held.{state};
ghost use Rattle.sqlite.specs.State.{HasCleanDisk, Survives};
ghost use Rattle.kt_sql_tables.specs.Schema.{no_schema};
ghost use Rattle.kt_sql_tables.specs.Made.{IsMade};
ghost use Rattle.kt_sql_tables.specs.Stored.{IsStoreOf};
ghost use Rattle.kt_store.specs.Content.{empty_content};

use crate::statements::{PUT_VERSION, run};
use sqlite::{Alter, Connection, Error};

const CREATE_NODE: &str =
    "CREATE TABLE kt_node (id INTEGER PRIMARY KEY, incarnation INTEGER NOT NULL, permanent BLOB, tentative BLOB, \
     instance INTEGER) STRICT";

const CREATE_BOARD: &str =
    "CREATE TABLE kt_board (instance INTEGER PRIMARY KEY, initiator INTEGER NOT NULL, purpose INTEGER NOT NULL, \
     verdict INTEGER NOT NULL) STRICT";

const CREATE_META: &str =
    "CREATE TABLE kt_meta (id INTEGER PRIMARY KEY, version INTEGER NOT NULL) STRICT";

/// Makes the three tables, or none of them.
pub(crate) fn create_tables<S: Alter>(conn: &mut Connection<S>) -> Result<(), Error>
    requires { conn.old.in_transaction ≡ false }
    ensures made { HasCleanDisk (state S.Store conn.new) → (state S.Store conn.old).now.schema ≡ no_schema
        → OnOk result (IsMade (state S.Store conn.new)) }
    ensures none { HasCleanDisk (state S.Store conn.new) → IsTrue (state S.Store conn.new).is_open
        → OnErr result (((state S.Store conn.new).now ≡ (state S.Store conn.old).committed)
        × IsTrue (state S.Store conn.old).is_open) }
    ensures ended { conn.new.in_transaction ≡ false }
    ensures clean { doubt (state S.Store conn.old).is_clean ≤ doubt (state S.Store conn.new).is_clean }
    ensures survives { (state S.Store conn.old).now.schema ≡ no_schema
        → Survives (state S.Store conn.old) (state S.Store conn.new) (λ db. IsStoreOf db empty_content) }
{
    let mut tx = conn.transaction();
    run(&mut tx, CREATE_NODE, &[])?;
    run(&mut tx, CREATE_BOARD, &[])?;
    run(&mut tx, CREATE_META, &[])?;
    run(&mut tx, PUT_VERSION, &[])?;
    tx.commit()?;
    Ok(())
}
