//! The theorem, each law the contract of a function with nothing to do.
//! Cited by no other file of crates/.

ghost use Rattle.std.specs.Prelude.{◌≡◌, ℕ, Bool, IsTrue, ◌∷◌, Option};
ghost use Rattle.kt_protocol.specs.Labels.{Label};
ghost use Rattle.kt_protocol.specs.Laws.{ChecksWhileDown, CutsALog, IsHeld, IsReached, IsRolling, IsSteady, MustRoll};
ghost use Rattle.kt_protocol.specs.Laws.{WhyHeld};
ghost use Rattle.kt_protocol.specs.Logs.{IsIn, Hears, Sends};
ghost use Rattle.kt_protocol.specs.Machine.{Ask, Check, Rollback, State, Up};
ghost use Rattle.kt_protocol.specs.Rows.{Asking, hear_check_ask, hear_roll_ask};
ghost use Rattle.kt_protocol.specs.Steps.{Step};

/// The permanent checkpoints agree with one another, in every state that is reached: what one has heard,
/// the sender's has sent.
pub fn permanent_checkpoints_agree()
    ensures { (peer : ℕ → ℕ → Bool) (s : State) → IsReached peer s → (p q by : ℕ) (l : Label)
        → IsIn (Hears by p l) (s.node q).perm → IsIn (Sends by q l) (s.node p).perm }
{}

/// While no node is down or rolling, each act that a node remembers heard one that its node remembers.
pub fn nothing_remembered_is_undone()
    ensures { (peer : ℕ → ℕ → Bool) (s : State) → IsReached peer s → IsSteady s → (p q by : ℕ) (l : Label)
        → IsIn (Hears by p l) (s.node q).log → IsIn (Sends by q l) (s.node p).log }
{}

/// A node that is up and rolls after a step was asked to, and heard from the asker what the asker's
/// permanent checkpoint has not sent.
pub fn rolling_is_forced()
    ensures { (peer : ℕ → ℕ → Bool) (s t : State) → IsReached peer s → Step peer s t → (o : ℕ)
        → (s.node o).mode ≡ Up → IsRolling (t.node o).mode → MustRoll s t o }
{}

/// A node that is up and held after a step began a check of its own, or was asked to, by a node that heard
/// of it what its own permanent checkpoint lacks.
pub fn held_is_forced()
    ensures { (peer : ℕ → ℕ → Bool) (s t : State) → IsReached peer s → Step peer s t → (o : ℕ)
        → (s.node o).mode ≡ Up → IsHeld (t.node o).mode → WhyHeld s t o }
{}

/// The row of the ask of a rollback is a step of the machine, whichever of its tests stands.
pub fn the_row_of_a_rollback_ask_is_a_step()
    ensures { (peer : ℕ → ℕ → Bool) (k o x : ℕ) (a : Asking) (s : State) → IsTrue (peer x o)
        → s.link x o ≡ Ask (Rollback k) a.label a.life ∷ a.rest
        → Step peer s (hear_roll_ask peer k o x a s (s.node o).mode) }
{}

/// The row of the ask of a check is a step of the machine, whichever of its tests stands, whatever label is
/// taken for that of the first message.
pub fn the_row_of_a_check_ask_is_a_step()
    ensures { (peer : ℕ → ℕ → Bool) (k o x : ℕ) (a : Asking) (first : Option Label) (s : State)
        → IsTrue (peer x o) → s.link x o ≡ Ask (Check k) a.label a.life ∷ a.rest
        → Step peer s (hear_check_ask peer k o x a first s (s.node o).mode) }
{}

/// There is a run in which a rollback gets Yes and cuts a log: nobody shall think the steps empty.
pub fn a_rollback_can_cut_a_log()
    ensures { (peer : ℕ → ℕ → Bool) × CutsALog peer }
{}

/// There is a run in which a check of two nodes gets Yes while one of them is down.
pub fn a_check_can_succeed_while_a_node_is_down()
    ensures { (peer : ℕ → ℕ → Bool) × ChecksWhileDown peer }
{}
