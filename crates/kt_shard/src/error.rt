//! Why a request is not served.
//! Cited by shard.rt; other crates.

use std::alloc::AllocError;
use thiserror::Error;

/// Why a request was not served. Of several reasons the first that stands here is given.
#[derive(Clone, Copy, Debug, PartialEq, Eq, Error)]
pub enum ServeError {
    /// No request of the worker waits at this shard.
    #[error("NotWaiting")]
    NotWaiting,
    /// There is no match of this place. An `out`, which has nothing to choose from, is served at place 0 alone.
    #[error("NoSuchMatch")]
    NoSuchMatch,
    /// Memory ran out; the request waits as before.
    #[error("OutOfMemory")]
    OutOfMemory,
}

impl From<AllocError> for ServeError {
    ghost use Rattle.std.specs.Prelude.{◌≡◌};
    ghost use Rattle.kt_shard.specs.declared.error.ServeError.TheVariants.{OutOfMemory};

    ghost from_gives = { λ _ e. e ≡ OutOfMemory };

    fn from(_error: AllocError) -> ServeError {
        ServeError::OutOfMemory
    }
}
