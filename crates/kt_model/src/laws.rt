//! Laws of the world, each the contract of a function with nothing to do. They speak of every state that a list of
//! steps, refused ones among them, leads to from the opening of a scene whose scripts a checkpoint can count, over a
//! store that tells what it holds, or from what such a store holds that fits the scene.
//! Cited by no other file of crates/.

ghost use Rattle.std.specs.Prelude.{◌≡◌, ◌<◌, ℕ, List, ◌∷◌, ◌++◌, None, Ok, IsTrue, length};
ghost use Rattle.kt_tuple.specs.declared.node.NodeId.{NodeId};
ghost use Rattle.kt_tuple.specs.declared.node.NodeId.TheVariants.{Shard};
ghost use Rattle.kt_tuple.specs.declared.op.Answer.{Answer};
ghost use Rattle.kt_history.specs.declared.note.Act.{Act};
ghost use Rattle.kt_history.specs.declared.note.What.TheVariants.{Served};
ghost use Rattle.kt_history.specs.Log.{log};
ghost use Rattle.kt_history.specs.Closed.{acts_in_log};
ghost use Rattle.kt_history.specs.WellFormed.{HasNoCut};
ghost use Rattle.kt_logs.specs.Hearing.{WasHeardFor};
ghost use Rattle.kt_store.specs.Proper.{IsFull};
ghost use Rattle.kt_scenario.specs.declared.step.Step.{Step};
ghost use Rattle.kt_scenario.specs.Step.{owner};
ghost use Rattle.kt_model.specs.State.{State};
ghost use Rattle.kt_model.specs.Effect.{step_result};
ghost use Rattle.kt_model.specs.StepPlan.{IsUndamaged};
ghost use Rattle.kt_model.specs.Reached.{IsReached};
ghost use Rattle.kt_model.specs.Headline.{HasOneRun, IsWhole, NotesOneAtMost, LogAfter, may_forget, HasCut, IsFailure};
ghost use Rattle.kt_model.specs.Workers.{WorkersFollowLogs};
ghost use Rattle.kt_model.specs.Cut.{IsCausallyClosed, permanent_length};
ghost use Rattle.kt_model.specs.Like.{StoresFollowLogs};
ghost use Rattle.kt_model.specs.PermanentRun.{IsPermanentRun};

/// The surviving services, in the order made, are one run of a sequential tuple space, each worker's requests being its
/// script's, in order.
pub fn survivors_are_one_run()
    ensures one_run { (s : State) → IsReached s → HasOneRun s }
{}

/// In a world that was opened: without a cut no act is lost, each survives, and the shards hold just the tuples of the
/// surviving run.
pub fn without_a_cut_nothing_is_lost()
    ensures whole { (s : State) → IsReached s → s.found ≡ None → HasNoCut s.history → IsWhole s }
{}

/// Each worker that is not down has unanswered what its log says, and stands in its script as after the answers in its
/// log: so its next operation is what the script asks after them.
pub fn workers_stand_as_their_answers_say()
    ensures workers { (s : State) → IsReached s → WorkersFollowLogs s }
{}

/// A service in a shard's log has before it in that log the hearing of its request, with the same cause.
pub fn services_have_the_cause_of_their_hearing()
    ensures services { (s : State) → IsReached s
        → (r : ℕ) (before : List Act) (a : Act) (later : List Act) (answer : Answer)
        → acts_in_log s.history (Shard r) ≡ before ++ a ∷ later → a.what ≡ Served answer → WasHeardFor before a }
{}

/// A step notes one thing at most, of its owner.
pub fn steps_note_one_thing_at_most()
    ensures notes { (s : State) → IsReached s → (step : Step) (new : State) → step_result s step ≡ Ok new
        → NotesOneAtMost (owner step) s.history new.history }
{}

/// A log grows by an act of its own node alone, and is cut only in a step of that node by which it may forget: it
/// fails, or it learns a verdict, from the board or by a message. So a log that is shorter than before was cut so.
pub fn logs_are_cut_by_their_own_node_alone()
    ensures logs { (s : State) → IsReached s → (step : Step) (new : State) → step_result s step ≡ Ok new
        → (q : NodeId) → LogAfter s step new.history q }
    ensures shorter { (s : State) → IsReached s → (step : Step) (new : State) → step_result s step ≡ Ok new
        → (q : NodeId) → length (log new.history q) < length (log s.history q)
        → (owner step ≡ q) × IsTrue (may_forget s step) }
{}

/// The step that makes the first cut of the history of a world that was opened is a failure.
pub fn only_a_failure_makes_the_first_cut()
    ensures first { (s : State) → IsReached s → (step : Step) (new : State) → step_result s step ≡ Ok new
        → s.found ≡ None → HasNoCut s.history → HasCut new.history → IsFailure step }
{}

/// What is stored fits its node: no step is refused because a checkpoint does not.
pub fn no_step_is_refused_for_damage()
    ensures undamaged { (s : State) → IsReached s → IsUndamaged s }
{}

/// The store of a world that was opened always has a number left for the next instance, and for the next incarnation of
/// each node: each step uses up one at most, and `MAX_STEPS` of them are made.
pub fn the_store_of_an_opened_world_is_never_full()
    ensures never { (s : State) → IsReached s → s.found ≡ None → (p : NodeId) → IsFull s.content p → ⊥ }
{}

/// Each stored permanent checkpoint, and each tentative one whose instance did not get No, holds the state behind the
/// first acts of its node's log. Where the permanent ones, among which a tentative one counts that has Yes, hold with
/// each act all of its past, the services that they hold are one run, in order, and they hold its tuples.
pub fn checkpoints_hold_the_fronts_of_logs()
    ensures fronts { (s : State) → IsReached s → StoresFollowLogs s }
    ensures permanent { (s : State) → IsReached s → IsCausallyClosed s.history (permanent_length s.content)
        → IsPermanentRun s }
{}
