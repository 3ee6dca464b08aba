//! What ends a replay.
//! Cited by journal.rt, observer.rt, replaying.rt, report.rt, stream.rt; other crates.

ghost use Rattle.std.specs.Prelude.{◌≡◌};

use kt_core::{OpenError, ResumeError, StartError, StepError};
use kt_store::StoreError;
use kt_text::{SceneError, SceneFault};
use std::error::Error;
use std::fmt;
use std::fmt::{Display, Formatter};

/// Why a replay ended early. All but `Write` leave nothing written.
#[derive(Clone, Copy, Debug, PartialEq, Eq)]
pub enum ReplayFault {
    /// The text is no scenario: its first line that has a fault, counted from 1.
    Scene { line: usize, cause: SceneError },
    /// A step was refused: its number, counted from 1.
    Step { at: usize, cause: StepError },
    /// The world could not be opened.
    Open(OpenError),
    /// The world could not be resumed.
    Resume(ResumeError),
    /// The store refused what the report tells of it.
    Report(StoreError),
    /// Memory ran out for the text or for the report.
    Memory,
    /// The reader failed, or `MAX_READS` calls did not bring the end of the text.
    Read,
    /// The writer failed. A front of the report is written.
    Write,
}

impl From<StartError> for ReplayFault {
    ghost use Rattle.std.specs.Prelude.{◌≡◌};
    ghost use Rattle.kt_scene.specs.auxiliary.Unbegun.{fault_of};

    ghost from_gives = { λ cause fault. fault ≡ fault_of cause };

    fn from(cause: StartError) -> ReplayFault {
        match cause {
            StartError::Open(cause) => ReplayFault::Open(cause),
            StartError::Resume(cause) => ReplayFault::Resume(cause),
        }
    }
}

/// The line that tells of the fault, as `line 4: 3 Tuple`, `step 9: 4 NoSuchMatch`, `store: NotFresh`, `store: Unfit`,
/// `memory`, `read` or `write`. It is written by hand, since its form goes by the cause; it is tested and not proved
/// (docs/DECISIONS.md#the-program).
impl Display for ReplayFault {
    fn fmt<W: fmt::Write>(&self, f: &mut Formatter<W>) -> fmt::Result {
        match *self {
            ReplayFault::Scene { line, cause } => {
                let fault = SceneFault { line, cause };
                write!(f, "{fault}")
            }
            ReplayFault::Memory
            | ReplayFault::Open(OpenError::OutOfMemory)
            | ReplayFault::Resume(ResumeError::OutOfMemory)
            | ReplayFault::Step {
                at: _,
                cause: StepError::OutOfMemory,
            } => write!(f, "memory"),
            ReplayFault::Open(OpenError::NotFresh) => write!(f, "store: NotFresh"),
            ReplayFault::Resume(ResumeError::Unfit { .. }) => write!(f, "store: Unfit"),
            ReplayFault::Open(OpenError::Store(cause))
            | ReplayFault::Resume(ResumeError::Store(cause))
            | ReplayFault::Report(cause)
            | ReplayFault::Step {
                at: _,
                cause: StepError::Store(cause),
            } => write!(f, "store: {cause}"),
            ReplayFault::Step { at, cause } => {
                let number = cause.number();
                write!(f, "step {at}: {number} {cause}")
            }
            ReplayFault::Read => write!(f, "read"),
            ReplayFault::Write => write!(f, "write"),
        }
    }
}

impl Error for ReplayFault {}
