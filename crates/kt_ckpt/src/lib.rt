//! A checkpoint of a node as plain fields, and its one spelling (canonical encoding) in bytes; and a history with the
//! acts of each log at hand for its next checkpoint.
//!
//! - Contract: each checkpoint has one spelling, which is read as this checkpoint (`Ckpt::encode`, clauses `value` and
//!   `read_back`). Other bytes are refused with their first fault from the left, want of memory aside (`Ckpt::decode`,
//!   clause `exact`). What a history gives as the acts of a log is what its notes say (`Past::acts`, clause `acts`).
//! - Stands on: kt_tuple, kt_script, kt_space, kt_link, kt_shard, kt_history; of the kit: thiserror
//! - Begin in: `ckpt.rt`, `state.rt` and `acts.rt` for the fields, then `decode.rt` and `encode.rt`, field by field.
//!   `limits.rt` has the codes of the format, `old.rt` reads and writes format 1. `chain.rt` has how acts are shared,
//!   `past.rt` where they come from.
#![tactic(auto)]

mod act_bytes;
mod acts;
mod chain;
mod ckpt;
mod decode;
mod encode;
mod entry;
mod error;
mod header;
mod limits;
mod list;
mod numbers;
mod old;
mod old_limits;
mod old_parts;
mod old_state;
mod op;
mod past;
mod shard;
mod state;
mod tuple;
mod value;
mod worker;

pub use acts::{LogAct, are_acts_of};
pub use chain::Acts;
pub use ckpt::Ckpt;
pub use error::CkptError;
pub use header::CkptHeader;
pub use limits::MAX_PEERS;
pub use past::Past;
pub use state::{ShardState, State, WorkerState};
