//! What the store says to the owner of a step.
//! Cited by read_set.rt; other crates.

use kt_ckpt::CkptHeader;
use kt_node::Stored;
use kt_store::Verdict;

/// What the store says to the owner of a step: just what the rule of the step looks at has to be asked for. What is
/// not asked for is as a fresh store has it. It is one record, and a step is judged by it alone: so what the code needs
/// can be said of each answer that a store may give (docs/DECISIONS.md#the-world-with-failures).
#[derive(Debug, Drop)]
pub struct StoreReads {
    /// What the board has of the instance that the rule asks after; `None` where it has no row of it.
    pub verdict: Option<Verdict>,
    /// Acts and labels of the owner's permanent checkpoint; `None` where it has none.
    pub permanent: Option<CkptHeader>,
    /// Acts and labels of the owner's tentative checkpoint; `None` where it has none.
    pub tentative: Option<CkptHeader>,
    /// The owner's incarnation, and all of its permanent checkpoint.
    pub stored: Stored,
    /// The open instance that the owner began; `None` where it began none that is open.
    pub undecided: Option<u64>,
    /// The number of the next instance, from 1 on.
    pub next: u64,
}
