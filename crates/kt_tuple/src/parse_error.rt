//! Why a text is no tuple or template.
//! Cited by parsing.rt.

use thiserror::Error;

/// Why a text is no tuple or template: of all that stand, the lowest.
#[derive(Clone, Copy, Debug, PartialEq, Eq, Error)]
pub enum ParseError {
    /// It has not the shape: its first `at` bytes begin a text of the shape, and no more of them do.
    #[error("syntax error at byte {at}")]
    Syntax { at: usize },
    /// It has the shape, and an int is out of range: the first one begins at byte `at`, counted from 0.
    #[error("int out of range at byte {at}")]
    Range { at: usize },
    /// It has the shape and its ints are in range, but more than `MAX_PLACES` places or more than `MAX_CHARACTERS`
    /// characters in a str.
    #[error("too long")]
    TooLong,
    /// The text is one, and no memory was left for it.
    #[error("out of memory")]
    OutOfMemory,
}
