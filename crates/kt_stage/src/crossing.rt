//! That a stage may be shared by threads, type by type from within. One search would have to go from the stage down to
//! the letters of a tuple, and gives up before it is there.
//! Cited by running.rt.

ghost use denote.Param.Send.{IsSend, IsSync};
ghost use Rattle.kt_core.specs.contracts.world.World.{the_row as world_row};
ghost use Rattle.kt_scenario.specs.contracts.faults.Faults.{the_row as faults_row};
ghost use Rattle.kt_stage.specs.contracts.journal.Journal.{the_row as journal_row};
ghost use Rattle.kt_stage.specs.contracts.stage.RunState.{the_row as run_state_row};
ghost use Rattle.kt_stage.specs.contracts.stage.Stage.{the_row as stage_row};

use crate::journal::Journal;
use crate::naming::Naming;
use crate::stage::{RunState, Stage};
use kt_core::{Faults, World};
use kt_store::CkptStore;

/// Values of this type may go to another thread.
fn may_go<T: Send>()
    ensures { IsSend T.row }
{}

/// Threads may share values of this type.
fn may_be_shared<T: Sync>()
    ensures { IsSync T.row }
{}

fn world_may_go<S: CkptStore + Send>()
    ensures { IsSend (world_row S.row S.CkptStore) }
{
    may_go::<World<S>>();
}

fn journal_may_go<S: CkptStore + Send>()
    ensures { IsSend (journal_row S.row S.CkptStore) }
{
    world_may_go::<S>();
    may_go::<Journal<S>>();
}

fn faults_may_go()
    ensures { IsSend faults_row }
{
    may_go::<Faults>();
}

fn run_state_may_go<S: CkptStore + Send, L: Naming + Send>()
    ensures { IsSend (run_state_row S.row L.row S.CkptStore (record { opening = L.opening })
        (record { name = L.name; parts = L.parts })) }
{
    journal_may_go::<S>();
    faults_may_go();
    may_go::<RunState<S, L>>();
}

/// Threads may share a stage whose store and whose name may go to another thread. It does nothing: whoever drives seats
/// by threads of its own calls it first, and the prover has this fact at hand.
pub fn stage_may_be_shared<S: CkptStore + Send, L: Naming + Send>()
    ensures { IsSync (stage_row S.row L.row S.CkptStore (record { opening = L.opening })
        (record { name = L.name; parts = L.parts })) }
{
    run_state_may_go::<S, L>();
    may_be_shared::<Stage<S, L>>();
}
