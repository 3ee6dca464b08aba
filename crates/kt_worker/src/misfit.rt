//! Why parts make no worker.
//! Cited by worker.rt.

use thiserror::Error;

/// Why parts are not those of a worker of a script: of all that stand, the first.
#[derive(Clone, Copy, Debug, PartialEq, Eq, Error)]
pub enum Misfit {
    /// The script has fewer commands than stand before the next one.
    #[error("the position is not in the script")]
    Position,
    /// More requests were made than commands stand before the next one.
    #[error("there are more requests than commands")]
    Number,
    /// The values are not one for each variable of the script, of the variable's kind.
    #[error("the values are not those of the script's variables")]
    Values,
}
