//! Why a step or a store was refused, in words: who is down, which link is empty, what stands in the way; and which
//! steps to write.
//!
//! - Contract: none that says what stands in the words, which are tested and not proved. Each call takes what it looks
//!   at by reference, so it changes nothing.
//! - Stands on: kt_tuple, kt_space, kt_shard, kt_worker, kt_vote, kt_scenario, kt_text, kt_store, kt_node, kt_core,
//!   kt_scene
//! - Begin in: `refused.rt` for steps and `faults.rt` for stores and streams; `reasons.rt` goes by the refusal,
//!   `request.rt` knows where a request is, and `voting.rt` who decides.
#![tactic(auto)]

mod faults;
mod missing;
mod modes;
mod reasons;
mod refused;
mod request;
mod sentence;
mod voting;

pub use faults::{explain_fault, explain_unopened};
pub use refused::explain_step;
