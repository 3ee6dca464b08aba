//! Why a command may not follow a script.
//! Cited by script.rt; other crates.

use thiserror::Error;

/// Why a command may not follow a script: of all that stand, the lowest.
#[derive(Clone, Copy, Debug, PartialEq, Eq, Error)]
pub enum ScriptError {
    /// A variable is used that no earlier command binds, `set` adds to one that is no int, or a name is bound
    /// to values of two kinds.
    #[error("a name breaks the rules of variables")]
    Variable,
    /// More than `MAX_COMMANDS` commands or `MAX_VARIABLES` variables, or `unless` with a number that is not 1 to
    /// `MAX_COMMANDS`.
    #[error("too many")]
    Limit,
    /// No memory was left for a command that may follow.
    #[error("out of memory")]
    OutOfMemory,
}
