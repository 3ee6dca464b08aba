//! Services: requests that were served.
//! Cited by equality.rt, writing.rt; other crates.

use crate::op::{Answer, Op};

/// A request that was served: what a worker's request asked and what it was answered.
#[derive(Debug, PartialEq, Eq, Drop)]
pub struct Service {
    /// The worker, counted from 1.
    pub worker: u8,
    /// The number of the worker's request, counted from 1.
    pub number: u64,
    /// The operation that it asked for, as it was sent: with values and bare formals.
    pub op: Op,
    /// The answer of the shard that served it.
    pub answer: Answer,
}
