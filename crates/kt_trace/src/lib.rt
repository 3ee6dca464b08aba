//! What happens in a scenario, step by step: a row of plain data for each step that is made.
//!
//! - Contract: each step that is made stands once, in order, as what it is between the state before it and the state
//!   behind it. The first that is refused ends the trace (`trace`, clause `entries`).
//! - Stands on: kt_tuple, kt_history, kt_scenario, kt_store, kt_state, kt_model, kt_core
//! - Begin in: `traced.rt` for what is told of a step and `tracing.rt` for how it comes about, then `glimpse.rt`. What
//!   a row has is defined in specs/Rows.antt.
#![tactic(auto)]

mod copying;
mod glimpse;
mod reading;
mod traced;
mod tracing;
mod ways;

pub use traced::{Refused, Ruling, Saving, Traced, TracedStep};
pub use tracing::{trace, trace_on, trace_step, world_of};
