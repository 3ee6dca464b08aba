//! Laws of the world with checkpoints, rollbacks and failures, each the contract of a function with nothing to do. They
//! speak of every state that a list of steps, refused ones among them, leads to from the opening of a scene whose
//! scripts a checkpoint can count, over a store that tells what it holds, or from what such a store holds that fits the
//! scene.
//! Cited by no other file of crates/.

ghost use Rattle.std.specs.Prelude.{◌≡◌, ℕ, Ok, IsPermutation, IsTrue};
ghost use Rattle.kt_history.specs.Survival.{Stands, Survives, services};
ghost use Rattle.kt_scenario.specs.declared.step.Step.{Step};
ghost use Rattle.kt_model.specs.State.{State};
ghost use Rattle.kt_model.specs.Effect.{step_result};
ghost use Rattle.kt_model.specs.Reached.{IsReached};
ghost use Rattle.kt_model.specs.Cut.{IsCausallyClosed, part, permanent_length};
ghost use Rattle.kt_model.specs.Forced.{IsForced};
ghost use Rattle.kt_model.specs.Headline.{Headline, IsSteadyRun, is_steady};
ghost use Rattle.kt_model.specs.PermanentRun.{IsPermanentRun};
ghost use Rattle.kt_model.specs.Resumed.{AreFit, history_of};

/// Each act that the permanent checkpoints hold has all of its past among them: they are a consistent cut (Koo and
/// Toueg, "Checkpointing and Rollback-Recovery for Distributed Systems"). A tentative checkpoint counts from the moment
/// that its Yes is written.
pub fn permanent_checkpoints_are_causally_closed()
    ensures closed { (s : State) → IsReached s → IsCausallyClosed s.history (permanent_length s.content) }
{}

/// The services that the permanent checkpoints hold, in the order made, are one run of a sequential tuple space, each
/// worker's requests being its script's, in order, and the checkpoints hold just the tuples of that run.
pub fn permanent_tuples_are_those_of_one_run()
    ensures permanent { (s : State) → IsReached s → IsPermanentRun s }
{}

/// While no node is down or rolls back, each act that a node remembers survives: nothing in its past is lost.
pub fn nothing_remembered_is_lost_in_steady_states()
    ensures survive { (s : State) → IsReached s → IsTrue (is_steady s)
        → (n : ℕ) → Stands s.history n → Survives s.history n }
{}

/// While no node is down or rolls back, the shards hold just the tuples of the surviving services' run.
pub fn steady_shards_hold_the_survivors_tuples()
    ensures steady { (s : State) → IsReached s → IsTrue (is_steady s) → IsSteadyRun s }
{}

/// A node that is up rolls back only where a message comes from a node of which it has heard what that node's permanent
/// checkpoint lacks. It takes a checkpoint only where it begins a check, or where a message comes from a node that has
/// heard of it what it remembers and its own permanent checkpoint lacks.
pub fn checkpoints_and_rollbacks_are_forced()
    ensures forced { (s : State) → IsReached s → (step : Step) (new : State) → step_result s step ≡ Ok new
        → IsForced s step new }
{}

/// All that is promised of a state (`Headline`) holds of each: what the laws above say of states, with the stored
/// states and the survivors' run, as one record.
pub fn all_that_is_promised_holds()
    ensures headline { (s : State) → IsReached s → Headline s }
{}

/// What a world leaves in its store, whatever steps were made, fits its scene: a world goes on from it.
pub fn what_a_world_leaves_can_be_resumed()
    ensures fits { (s : State) → IsReached s → AreFit s.scene s.content }
{}

/// A world that goes on from what another left has the services that the permanent checkpoints held there, and no
/// other: in some order, which need not be the one in which they were made.
pub fn a_resumed_world_has_the_permanent_services()
    ensures services { (s : State) → IsReached s
        → IsPermutation (part s.history (permanent_length s.content)) (services (history_of s.scene s.content)) }
{}
