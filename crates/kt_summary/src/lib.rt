//! What a replay or a run came to, for people: who finished and who waits, what was lost, which fault lines struck,
//! and how checks ended.
//!
//! - Contract: all requests that wait are found, each with its shard (`waiting`, clause `list`, and the law
//!   `what_waits_is_found`). Each fault line has the one step that struck it, or none (`struck`, clauses `lines` and
//!   `each`, and the law `a_line_is_struck_once`). Steps made once more tell which step wrote each note, and each
//!   verdict (`remake`). The words of `explain_end` are tested and not proved.
//! - Stands on: kt_tuple, kt_script, kt_shard, kt_worker, kt_history, kt_losses, kt_scenario, kt_text, kt_store,
//!   kt_state, kt_node, kt_model, kt_core, kt_stage
//! - Begin in: `waits.rt`, `strikes.rt` and `remaking.rt` for what is found, and `ending.rt` for the words.
#![tactic(auto)]

mod checks;
mod ending;
mod faults;
mod laws;
mod lost;
mod names;
mod remaking;
mod strikes;
mod waits;
mod workers;

pub use ending::explain_end;
pub use laws::{a_line_is_struck_once, what_waits_is_found};
pub use remaking::{Remade, remake};
pub use strikes::{FaultEnd, struck};
pub use waits::{Wait, WorkerEnd, waiting, worker_end};
