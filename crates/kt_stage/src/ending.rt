//! Whether a journal is at its end: no node has a next step.
//! Cited by running.rt.

ghost use Rattle.std.specs.Prelude.{◌≡◌};
ghost use Rattle.kt_stage.specs.Asking.{IsAsked};
ghost use Rattle.kt_stage.specs.Policy.{first_unfinished, spent_by};

use crate::journal::Journal;
use crate::policy::first_unfinished;
use kt_core::{Faults, Step};
use kt_store::{CkptStore, StoreError};
use kt_tuple::NodeId;
use std::alloc::Global;

/// Spends the fault lines by the steps. It takes no memory.
fn spend_all(faults: &mut Faults, steps: &[Step])
    ensures { faults.new ≡ spent_by faults.old steps.now }
{
    for step in steps {
        faults.spend(step);
    }
}

/// Spends the fault lines by the journal's steps, and gives the first node, in node order, that has a next step then.
/// The journal stays; the lines are marked after a refusal too.
pub fn unfinished<S: CkptStore>(
    alloc: Global,
    journal: &mut Journal<S>,
    faults: &mut Faults,
) -> Result<Option<NodeId>, StoreError>
    ensures spent { faults.new ≡ spent_by faults.old journal.old.steps }
    ensures found { IsAsked S.CkptStore journal.old.world journal.new.world
        (λ s x. x ≡ first_unfinished s (spent_by faults.old journal.old.steps)) result }
    ensures steps { journal.new.steps ≡ journal.old.steps }
{
    let Journal { world, steps } = journal;
    spend_all(faults, steps);
    first_unfinished(world, alloc, faults)
}
