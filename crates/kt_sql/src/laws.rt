//! A law of stores in SQL.
//! Cited by no other file of crates/.

ghost use Rattle.kt_store.specs.Calls.{NeverFails};

use crate::store::SqlStore;
use kt_store::CkptStore;
use sqlite::MemStore;

/// Nothing can fail a store in SQL that lies in memory: no disk lies under it. So one that is honest stays so, whatever
/// is called.
pub fn nothing_fails_a_store_in_memory()
    ensures { NeverFails ⟦<SqlStore<MemStore> as CkptStore>⟧.failures }
{}
