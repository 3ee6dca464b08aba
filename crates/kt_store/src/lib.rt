//! Where checkpoints, incarnations and verdicts are kept: what a store promises, a store in memory that keeps it, and a
//! store of which one call fails.
//!
//! - Contract: while a store is honest, each write is its one change of the whole content, and a refused one changes
//!   nothing (`CkptStore::promote` and its sisters, clauses `written` and `unchanged`). The store in memory,
//!   `MemStore`, always is. A store counts exactly how often its device failed and how often memory was refused
//!   (clause `cause`). `FaultStore` keeps all this over any other store, and counts its own fault.
//! - Stands on: kt_tuple, kt_history, kt_ckpt; of the kit: thiserror
//! - Begin in: `store.rt` for the promises and `rows.rt` for what is stored. `memory.rt` is the store in memory, over
//!   `contents.rt`, `instance_row.rt` and `change.rt`. `faulty.rt` is the store of which one call fails.
#![tactic(auto)]

mod change;
mod contents;
mod crossing;
mod error;
mod faulty;
mod instance_row;
mod laws;
mod memory;
mod rows;
mod store;

pub use crossing::memory_may_go;
pub use error::StoreError;
pub use faulty::FaultStore;
pub use laws::{other_instances_stay, other_nodes_stay, what_is_written_is_read};
pub use memory::{GREATEST, MemStore};
pub use rows::{InstanceRow, NodeRow, Purpose, Tentative, TentativeHeader, Verdict};
pub use store::CkptStore;
