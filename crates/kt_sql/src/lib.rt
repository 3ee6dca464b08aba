//! The store in SQL: checkpoints, incarnations and verdicts in tables of a database that `sqlite3` opens, over a file
//! or in memory.
//!
//! - Contract: `SqlStore` keeps each promise of `CkptStore` while its tables keep theirs, and counts exactly how often
//!   its device failed and how often memory was refused (clause `cause` of each call). A connection that was shut is no
//!   damage (clause `intact`). A stop inside a write leaves the content before it or after it (clause `stop`), and over
//!   that the next opening gives a store of just that content (`SqlStore::adopt`, clause `reopened`).
//! - Stands on: kt_tuple, kt_ckpt, kt_store, kt_sql_tables; of the kit: sqlite, sqlite_std_file, sqlite_trees,
//!   thiserror
//! - Begin in: `open.rt` for how a store is opened and `migrating.rt` for how one of version 1 is carried over, then
//!   `calls.rt` for what each call makes of a row. `store.rt` has each answer counted by `tally.rt`.
#![tactic(auto)]

mod calls;
mod error;
mod laws;
mod migrating;
mod open;
mod store;
mod tally;

pub use error::SqlOpenError;
pub use laws::nothing_fails_a_store_in_memory;
pub use migrating::connect;
pub use store::SqlStore;
