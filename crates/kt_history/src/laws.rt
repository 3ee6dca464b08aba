//! Laws about the definitions, each the contract of a function with nothing to do.
//! Cited by no other file of crates/.

ghost use Rattle.std.specs.Prelude.{◌≡◌, ◌≢◌, ◌⊎◌, ◌↔◌, ◌++◌, ◌∷◌, [], ℕ, Bool, IsTrue};
ghost use Rattle.std.specs.Prelude.{List, Some, take, slice_get, IsPermutation};
ghost use Rattle.kt_tuple.specs.declared.node.NodeId.{NodeId};
ghost use Rattle.kt_tuple.specs.declared.service.Service.{Service};
ghost use Rattle.kt_tuple.specs.declared.tuple.Tuple.{Tuple};
ghost use Rattle.kt_tuple.specs.Space.{IsSpaceRun};
ghost use Rattle.kt_history.specs.declared.note.Act.{Act};
ghost use Rattle.kt_history.specs.declared.note.Note.{Note};
ghost use Rattle.kt_history.specs.declared.note.Note.TheVariants as notes;
ghost use Rattle.kt_history.specs.Log.{IsAct, before, log, note_at, last_of};
ghost use Rattle.kt_history.specs.Past.{InPast};
ghost use Rattle.kt_history.specs.Survival.{Survives, marked_acts, survives};
ghost use Rattle.kt_history.specs.WellFormed.{CausesComeFirst, Fits, HasNoCut, IsWellFormed, MayFollow};
ghost use Rattle.kt_history.specs.Closed.{IsClosed, IsFront, acts_at, own};

/// Happened-before is transitive.
pub fn happened_before_is_transitive()
    ensures { (h : List Note) (d e f : ℕ) → InPast h d e → InPast h e f → InPast h d f }
{}

/// The past of an act is the act, the past of the act before it in its log, and the past of its cause.
pub fn the_past_goes_back_step_by_step()
    ensures itself { (h : List Note) (e : ℕ) → InPast h e e }
    ensures previous { (h : List Note) (e f : ℕ) (a : Act)
        → note_at h f ≡ Some (notes.Act a) → last_of (log (before h f) a.node) ≢ 0
        → InPast h e (last_of (log (before h f) a.node)) → InPast h e f }
    ensures cause { (h : List Note) (e f : ℕ) (a : Act)
        → note_at h f ≡ Some (notes.Act a) → a.by ≢ 0 → InPast h e a.by → InPast h e f }
    ensures nothing_else { (h : List Note) (e f : ℕ) (a : Act)
        → note_at h f ≡ Some (notes.Act a) → InPast h e f
        → (e ≡ f) ⊎ (InPast h e (last_of (log (before h f) a.node)) ⊎ InPast h e a.by) }
{}

/// What survives has its whole past surviving.
pub fn survivors_keep_their_past()
    ensures { (h : List Note) (e f : ℕ) → Survives h f → InPast h e f → Survives h e }
{}

/// The test that picks the survivors is survival.
pub fn survival_is_decided()
    ensures { (h : List Note) → CausesComeFirst h → (n : ℕ) → IsTrue (survives h n) ↔ Survives h n }
{}

/// Without a cut every act of a well-formed history survives.
pub fn nothing_is_lost_without_a_cut()
    ensures { (h : List Note) → IsWellFormed h → HasNoCut h → (n : ℕ) → IsAct h n → Survives h n }
{}

/// A log is a stack: what stands before an act in its log is what stood there when it was appended.
pub fn logs_are_stacks()
    ensures { (h : List Note) (p : NodeId) (i e : ℕ)
        → slice_get (log h p) i ≡ Some e → log (before h e) p ≡ take i (log h p) }
{}

/// The survivors hold the whole past of each of them, and the surviving acts of a node are the first of
/// its log.
pub fn survivors_are_fronts()
    ensures closed { (h : List Note) → CausesComeFirst h → IsClosed h (survives h) }
    ensures front { (h : List Note) → CausesComeFirst h → (p : NodeId) → IsFront h (survives h) p }
{}

/// A closed choice of acts is, of each node's acts, the first of its log, in the order of the log.
pub fn closed_choices_are_fronts()
    ensures { (h : List Note) (marks : ℕ → Bool) → IsClosed h marks → (p : NodeId)
        → (f : IsFront h marks p) × (own p (marked_acts marks h) ≡ acts_at h f.front) }
{}

/// A well-formed history stays so with a note that makes sense after it, and such a note may follow.
pub fn well_formed_histories_grow()
    ensures grows { (h : List Note) (note : Note) → IsWellFormed h → Fits h note → IsWellFormed (h ++ note ∷ []) }
    ensures follows { (h : List Note) (note : Note) → Fits h note → MayFollow h note }
{}

/// The tuples of a run are known up to their order.
pub fn a_run_has_one_space()
    ensures { (services : List Service) (a b : List Tuple)
        → IsSpaceRun services a → IsSpaceRun services b → IsPermutation a b }
{}
