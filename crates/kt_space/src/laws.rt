//! Laws about what a template picks, each the contract of a function with nothing to do.
//! Cited by no other file of crates/.

ghost use Rattle.std.specs.Prelude.{◌≡◌, ◌≤◌, ◌↔◌, ◌∷◌, ◌++◌, [], ℕ, List, length, slice_get, Some, None};
ghost use Rattle.std.specs.Prelude.{Contains, IsPermutation};
ghost use Rattle.kt_tuple.specs.declared.op.Answer.TheVariants as answers;
ghost use Rattle.kt_tuple.specs.declared.op.Op.TheVariants as ops;
ghost use Rattle.kt_tuple.specs.declared.template.Template.{Template};
ghost use Rattle.kt_tuple.specs.declared.tuple.Tuple.{Tuple};
ghost use Rattle.kt_tuple.specs.Matching.{Matches};
ghost use Rattle.kt_tuple.specs.Space.{SpaceStep};
ghost use Rattle.kt_space.specs.Picking.{TakesOut, matching, without_match};

/// The match of a number is a tuple of the bag that matches, and as many that match stand before it as the
/// number says. Without it the bag has just the others, in their order.
pub fn a_match_is_taken_from_its_place()
    ensures matches { (t : Template) (k : ℕ) (tuples : List Tuple) (u : Tuple)
        → slice_get (matching t tuples) k ≡ Some u → Matches t u }
    ensures contained { (t : Template) (k : ℕ) (tuples : List Tuple) (u : Tuple)
        → slice_get (matching t tuples) k ≡ Some u → Contains tuples u }
    ensures place { (t : Template) (k : ℕ) (tuples : List Tuple) (u : Tuple)
        → slice_get (matching t tuples) k ≡ Some u → TakesOut t k tuples u (without_match t k tuples) }
    ensures others { (t : Template) (k : ℕ) (tuples : List Tuple) (u : Tuple)
        → slice_get (matching t tuples) k ≡ Some u → IsPermutation tuples (u ∷ without_match t k tuples) }
{}

/// There is no match of a number exactly where so many do not match, and then nothing is taken. Where there
/// is no first one, nothing matches.
pub fn no_match_is_given_where_fewer_match()
    ensures fewer { (t : Template) (k : ℕ) (tuples : List Tuple)
        → slice_get (matching t tuples) k ≡ None ↔ (length (matching t tuples) ≤ k) }
    ensures all { (t : Template) (k : ℕ) (tuples : List Tuple)
        → slice_get (matching t tuples) k ≡ None → without_match t k tuples ≡ tuples }
    ensures nothing { (t : Template) (tuples : List Tuple)
        → slice_get (matching t tuples) 0 ≡ None → (u : Tuple) → Contains tuples u → ¬ Matches t u }
{}

/// To put, to take a match, to read one, and to find none are steps of the sequential space.
pub fn a_bag_makes_steps_of_the_space()
    ensures put { (tuples : List Tuple) (u : Tuple) → SpaceStep tuples (ops.Out u) answers.Done (tuples ++ u ∷ []) }
    ensures taken { (t : Template) (k : ℕ) (tuples : List Tuple) (u : Tuple)
        → slice_get (matching t tuples) k ≡ Some u
        → SpaceStep tuples (ops.In t) (answers.Got u) (without_match t k tuples) }
    ensures taken_at_once { (t : Template) (k : ℕ) (tuples : List Tuple) (u : Tuple)
        → slice_get (matching t tuples) k ≡ Some u
        → SpaceStep tuples (ops.Inp t) (answers.Got u) (without_match t k tuples) }
    ensures read { (t : Template) (k : ℕ) (tuples : List Tuple) (u : Tuple)
        → slice_get (matching t tuples) k ≡ Some u → SpaceStep tuples (ops.Rd t) (answers.Got u) tuples }
    ensures read_at_once { (t : Template) (k : ℕ) (tuples : List Tuple) (u : Tuple)
        → slice_get (matching t tuples) k ≡ Some u → SpaceStep tuples (ops.Rdp t) (answers.Got u) tuples }
    ensures none_to_take { (t : Template) (tuples : List Tuple)
        → slice_get (matching t tuples) 0 ≡ None → SpaceStep tuples (ops.Inp t) answers.None tuples }
    ensures none_to_read { (t : Template) (tuples : List Tuple)
        → slice_get (matching t tuples) 0 ≡ None → SpaceStep tuples (ops.Rdp t) answers.None tuples }
{}
