//! Why a node does not make a step.
//! Cited by loading.rt; other crates.

ghost use Rattle.std.specs.Prelude.{◌≡◌};
ghost use Rattle.kt_state.specs.declared.refusal.Refusal.TheVariants.{OutOfMemory};

use std::alloc::AllocError;
use thiserror::Error;

/// Why a node does not make a step. Of several reasons the first that stands here is given.
#[derive(Clone, Copy, Debug, PartialEq, Eq, Error)]
pub enum Refusal {
    /// The node's mode does not allow the step.
    #[error("WrongMode")]
    WrongMode,
    /// There is nothing to ask, to take, to serve, to decide or to learn.
    #[error("NothingThere")]
    NothingThere,
    /// No tuple that matches stands at this place.
    #[error("NoSuchMatch")]
    NoSuchMatch,
    /// Votes or the verdict are missing.
    #[error("NotDecided")]
    NotDecided,
    /// A tentative checkpoint or an open instance of its own stands in the way.
    #[error("Unresolved")]
    Unresolved,
    /// A checkpoint that the store gave does not fit the node; no honest store gives such.
    #[error("Damaged")]
    Damaged,
    /// The step is allowed, and memory ran out.
    #[error("OutOfMemory")]
    OutOfMemory,
}

impl From<AllocError> for Refusal {
    ghost from_gives = { λ _ e. e ≡ OutOfMemory };

    fn from(_error: AllocError) -> Refusal {
        Refusal::OutOfMemory
    }
}
