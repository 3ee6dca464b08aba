//! Why bytes are no checkpoint.
//! Cited by act_bytes.rt, decode.rt, entry.rt, list.rt, numbers.rt, old.rt, old_parts.rt, old_state.rt, op.rt,
//!   shard.rt, tuple.rt, value.rt, worker.rt; other crates.

ghost use Rattle.std.specs.Prelude.{◌≡◌};
ghost use Rattle.kt_ckpt.specs.declared.error.CkptError.TheVariants.{OutOfMemory};

use std::alloc::{AllocError, AllocFailed};
use thiserror::Error;

/// Why bytes are no checkpoint: the first fault from left to right.
#[derive(Clone, Copy, Debug, PartialEq, Eq, Error)]
pub enum CkptError {
    /// They do not begin with the magic bytes.
    #[error("no checkpoint")]
    Magic,
    /// They are of a version that is not read.
    #[error("another version")]
    Version,
    /// They end before a field is whole, whatever stands in its first bytes.
    #[error("cut short")]
    Cut,
    /// A field has a value that the format does not allow.
    #[error("bad field")]
    Field,
    /// Bytes follow the last field.
    #[error("bytes behind the end")]
    Extra,
    /// Memory ran out before a fault was met; what is further right was not looked at.
    #[error("out of memory")]
    OutOfMemory,
}

impl From<AllocError> for CkptError {
    ghost from_gives = { λ _ e. e ≡ OutOfMemory };

    fn from(_e: AllocError) -> CkptError {
        CkptError::OutOfMemory
    }
}

impl<T: Drop> From<AllocFailed<T>> for CkptError {
    ghost from_gives = { λ _ e. e ≡ OutOfMemory };

    fn from(_e: AllocFailed<T>) -> CkptError {
        CkptError::OutOfMemory
    }
}
