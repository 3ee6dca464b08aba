//! Laws about the definitions, each the contract of a function with nothing to do.
//! Cited by no other file of crates/.

ghost use Rattle.std.specs.Prelude.{◌≡◌, ℕ, List, All, Contains, IsTrue};
ghost use Rattle.kt_scenario.specs.declared.step.Step.{Step};
ghost use Rattle.kt_scenario.specs.declared.faults.FaultLine.{FaultLine};
ghost use Rattle.kt_scenario.specs.Scene.{IsScene, is_shard, is_worker};
ghost use Rattle.kt_model.specs.State.{State};
ghost use Rattle.kt_summary.specs.declared.waits.Wait.{Wait};
ghost use Rattle.kt_summary.specs.Strikes.{IsStruckBy};
ghost use Rattle.kt_summary.specs.Waits.{IsWait, all_waits};

/// What `waiting` lists is all that waits, and nothing else.
pub fn what_waits_is_found()
    ensures each { (s : State) → All (IsWait s) (all_waits s) }
    ensures all { (s : State) (wait : Wait) → IsScene s.scene → IsTrue (is_worker s.scene wait.worker)
        → IsTrue (is_shard s.scene wait.shard) → IsWait s wait → Contains (all_waits s) wait }
{}

/// A fault line is struck by one step and no other.
pub fn a_line_is_struck_once()
    ensures { (lines : List FaultLine) (steps : List Step) (place m n : ℕ)
        → IsStruckBy lines steps place m → IsStruckBy lines steps place n → m ≡ n }
{}
