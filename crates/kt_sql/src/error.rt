//! Why a store in SQL is not opened.
//! Cited by migrating.rt, open.rt; other crates.

use std::alloc::AllocError;
use thiserror::Error;

/// Why a store can't be opened.
#[derive(Clone, Copy, Debug, PartialEq, Eq, Error)]
pub enum SqlOpenError {
    /// Memory ran out before the store was open.
    #[error("Memory")]
    Memory,
    /// The device failed, or the file can't be opened; so too for `:memory:`, which names no file.
    #[error("Device")]
    Device,
    /// The tables are not those of a store, or of a version that is not known, or the file is no database.
    #[error("Damaged")]
    Damaged,
    /// The tables are those of a store of version 1, and hold something: they can be carried over by the journal that
    /// made them.
    #[error("Version")]
    Version,
    /// What is to be carried over is not what the journal makes, in version 1.
    #[error("Mismatch")]
    Mismatch,
}

impl From<AllocError> for SqlOpenError {
    ghost use Rattle.std.specs.Prelude.{◌≡◌};
    ghost use Rattle.kt_sql.specs.declared.error.SqlOpenError.TheVariants.{Memory};

    ghost from_gives = { λ _ e. e ≡ Memory };

    fn from(_: AllocError) -> Self {
        SqlOpenError::Memory
    }
}
