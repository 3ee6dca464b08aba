//! A scenario of fault lines, run several times, or with random faults.
//!
//! - Contract: what is written is the tally of a list of reports, each of them that of a run of the scenario that was
//!   read, over a fresh store (`run_times`, clause `written`); or the faults that were drawn for its scene, and then
//!   what is told of a run of the scenario with them (`run_chaos_returning_store`, clause `written`).
//! - Stands on: kt_tuple, kt_scenario, kt_text, kt_chaos, kt_store, kt_model, kt_core, kt_scene, kt_stage, kt_run
//! - Begin in: `times.rt` and `chaos.rt`, the whole way from bytes to bytes, then `tally.rt`.
#![tactic(auto)]

mod chaos;
mod memory;
mod tally;
mod times;

pub use chaos::run_chaos_returning_store;
pub use kt_chaos::Chaos;
pub use times::{MAX_TIMES, run_times};
