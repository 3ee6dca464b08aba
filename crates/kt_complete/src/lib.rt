//! A scenario of steps that was cut short, completed: its own steps are made, and then those that the policy gives,
//! until no node has a next one.
//!
//! - Contract: what is written is the journal of steps that begin with those of the scenario. Each later one is the one
//!   that the policy gives next where it is made, and in the end no node has a next step (`complete_returning_store`,
//!   clause `written`).
//! - Stands on: kt_tuple, kt_scenario, kt_text, kt_store, kt_model, kt_core, kt_scene, kt_stage
//! - Begin in: `completing.rt`, the whole way from bytes to bytes, then `going.rt` for the policy's steps.
#![tactic(auto)]

mod completing;
mod going;

pub use completing::complete_returning_store;
