//! A worker: the numbered requests that its script makes, at most one of them unanswered.
//!
//! - Contract: after any answers the next request is what the script asks then, with the next number (`Worker::issue`,
//!   clause `asks`). Just the answer to the unanswered request is accepted (`Worker::hear`, clause `accepts`).
//! - Stands on: kt_tuple, kt_script; of the kit: thiserror
//! - Begin in: `worker.rt`. `misfit.rt` says why stored parts make no worker.
#![tactic(auto)]

mod laws;
mod misfit;
mod worker;

pub use laws::parts_of_a_worker_make_it_again;
pub use misfit::Misfit;
pub use worker::Worker;
