//! The three tables of a store in SQL: their rows, how they are made, tested and opened, and the statements that read
//! and write them.
//!
//! - Contract: a call reads or makes its one change of what the tables hold (`Tables::row_of`, clause `value`;
//!   `Tables::put_node`, clauses `written` and `unchanged`). This is said while the connection is open, the disk
//!   returns what was written, and each row was as said at the opening. A stop inside a write leaves what the tables
//!   held before it or hold after it (clause `stop`).
//! - Stands on: kt_tuple, kt_ckpt, kt_store; of the kit: sqlite, sqlite_disk, sqlite_tied, sqlite_sql, sqlite_value,
//!   sqlite_trees, sqlite_resolve, sqlite_rules, sqlite_schema, sqlite_catalog, sqlite_keyed,
//!   sqlite_typed
//! - Begin in: `tables.rt` for how they are made, then `held.rt` for `Tables` and `reads.rt`. `cells.rt` and `rows.rt`
//!   have the rows, out and in. `old.rt` and `carrying.rt` are of tables of version 1.
#![tactic(auto)]

mod carrying;
mod cells;
mod changes;
mod firsts;
mod held;
mod ids;
mod number;
mod old;
mod opened;
mod reads;
mod ready;
mod records;
mod rows;
mod schema;
mod statements;
mod tables;

pub use carrying::carried;
pub use cells::NodeCells;
pub use changes::{bumped, discarded, permanent_in, promoted, tentative_in};
pub use held::Tables;
pub use ready::{ReadyError, readied};
