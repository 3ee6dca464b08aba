//! A shard: its tuples, which workers wait there, and what each was answered last.
//!
//! - Contract: a service is a step of the sequential space on the shard's own tuples, with what the worker waited with
//!   (`Shard::serve`, clause `step`). A request waits once, and is answered again once it was served (`Shard::hear`,
//!   clause `comes_of_it`).
//! - Stands on: kt_tuple, kt_space; of the kit: thiserror
//! - Begin in: `session.rt`, a worker's session (`Session`) at the shard, then `arrival.rt` for what hearing does and
//!   `service.rt` for what serving does. `parts.rt` puts them together, and `shard.rt` shares them.
#![tactic(auto)]

mod arrival;
mod error;
mod laws;
mod parts;
mod request;
mod service;
mod session;
mod shard;

pub use arrival::{Arrival, Heard};
pub use error::ServeError;
pub use laws::{
    a_served_request_is_answered_again, a_shard_is_its_parts, a_table_reads_what_was_put,
    other_sessions_stay, services_are_steps_of_the_space,
};
pub use parts::SESSIONS;
pub use request::{CachedReply, Request};
pub use service::{Choice, Prepared, Reply};
pub use session::Session;
pub use shard::Shard;
