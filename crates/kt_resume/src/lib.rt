//! What a resumed world is made of again: the history of the acts that checkpoints hold, and whether all fits the
//! scene.
//!
//! - Contract: the history is the one that `Resumed` of kt_model defines for what was found (`history_of`, clause
//!   `notes`), and a node is named as unfit just where what was found of it is not what a world of the scene leaves
//!   (`first_unfit`, clauses `none` and `first`). For that a worker and a shard are made again by the acts of their
//!   logs, where they may make them (`remake_worker` and `remake_shard`, clauses `made` and `none`), and compared with
//!   what a checkpoint has of them (`suits_worker` and `suits_shard`).
//! - Stands on: kt_tuple, kt_script, kt_space, kt_link, kt_shard, kt_worker, kt_history, kt_scenario, kt_ckpt,
//!   kt_store, kt_logs, kt_state, kt_node, kt_model
//! - Begin in: `found.rt`, then `judging.rt`; `placing.rt` places the acts.
#![tactic(auto)]

mod entries;
mod found;
mod judging;
mod labels;
mod leads;
mod logs;
mod parts;
mod placing;
mod scene;
mod sense;
mod shard;
mod slot;
mod space;
mod suits;
mod unplaced;
mod worker;

pub use found::Found;
pub use judging::{first_unfit, is_fit};
pub use logs::history_of;
pub use placing::place_all;
pub use shard::{Remade, remake_shard};
pub use suits::{suits_shard, suits_worker};
pub use unplaced::Unplaced;
pub use worker::remake_worker;
