//! What of the store the rule of a step looks at.
//! Cited by other crates.

use crate::store_reads::StoreReads;
use kt_node::Stored;

/// After which verdict a rule asks.
#[derive(Clone, Copy, Debug, PartialEq, Eq)]
pub enum VerdictQuery {
    /// After no verdict; the board is not read for one.
    Nothing,
    /// After the verdict on the instance of this number.
    Of(u64),
    /// After the verdict on the instance of the owner's tentative checkpoint, where it has one.
    OfTentative,
}

/// What of the store the rule of a step looks at. Only this is asked for, so that a step costs nothing that it can do
/// without. That this is enough is proved (docs/DECISIONS.md#the-world-with-failures).
#[derive(Clone, Copy, Debug, PartialEq, Eq)]
pub struct ReadSet {
    /// The verdict after which it asks, if after any.
    pub verdict: VerdictQuery,
    /// Acts and labels of the owner's permanent checkpoint.
    pub permanent: bool,
    /// Acts and labels of its tentative checkpoint.
    pub tentative: bool,
    /// Its incarnation, and all of its permanent checkpoint.
    pub stored: bool,
    /// The open instance that it began.
    pub undecided: bool,
    /// The number of the next instance.
    pub next: bool,
}

impl ReadSet {
    ghost use Rattle.std.specs.Prelude.{◌≡◌};
    ghost use Rattle.kt_model.specs.ReadSet.{empty_read_set};

    /// The rule looks at nothing stored, so nothing is read of the store.
    pub fn none() -> ReadSet
        ensures { result ≡ empty_read_set }
    {
        ReadSet {
            verdict: VerdictQuery::Nothing,
            permanent: false,
            tentative: false,
            stored: false,
            undecided: false,
            next: false,
        }
    }
}

impl StoreReads {
    ghost use Rattle.std.specs.Prelude.{◌≡◌};
    ghost use Rattle.kt_model.specs.ReadSet.{no_reads};

    /// What is told where nothing is asked: all as a fresh store has it.
    pub fn none() -> StoreReads
        ensures { result ≡ no_reads }
    {
        StoreReads {
            verdict: None,
            permanent: None,
            tentative: None,
            stored: Stored {
                incarnation: 1,
                permanent: None,
            },
            undecided: None,
            next: 1,
        }
    }
}
