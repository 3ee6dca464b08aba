//! Runs that read from memory and write to memory.
//! Cited by chaos.rt, times.rt.

ghost use Rattle.std.specs.Prelude.{◌≡◌};
ghost use Rattle.kt_trials.specs.Memory.{told_of};

use kt_run::RunTextFault;
use kt_scene::ReplayFault;

/// The fault of such a run as it is told: a writer that fails wants memory.
pub(crate) fn told(fault: RunTextFault) -> RunTextFault
    ensures { result ≡ told_of fault }
{
    match fault {
        RunTextFault::Text(ReplayFault::Write) => RunTextFault::Text(ReplayFault::Memory),
        fault => fault,
    }
}
