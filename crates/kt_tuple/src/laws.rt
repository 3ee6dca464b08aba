//! Laws about the definitions, each the contract of a function with nothing to do.
//! Cited by no other file of crates/.

ghost use Rattle.std.specs.Prelude.{◌≡◌, ◌<◌, ◌≤◌, ◌↔◌, ◌++◌, ◌∷◌, [], ℕ, List, false};
ghost use Rattle.std.specs.Prelude.{length, take, Ok, Some, None, IsTrue, IsSome, All};
ghost use Rattle.std.specs.Int.{w64};
ghost use Rattle.std.specs.Int.RustNames.{FitsSigned};
ghost use Rattle.std.specs.Str.Parse.{signed_digits_value};
ghost use Rattle.kt_tuple.specs.declared.node.NodeId.{NodeId};
ghost use Rattle.kt_tuple.specs.declared.parse_error.ParseError.TheVariants as faults;
ghost use Rattle.kt_tuple.specs.declared.template.Template.{Template};
ghost use Rattle.kt_tuple.specs.declared.template.Place.{Place};
ghost use Rattle.kt_tuple.specs.declared.tuple.Tuple.{Tuple};
ghost use Rattle.kt_tuple.specs.declared.value.Kind.{Kind};
ghost use Rattle.kt_tuple.specs.declared.value.Value.{Value};
ghost use Rattle.kt_tuple.specs.Grammar.{IsValueText, IsPlaceText, Consists, IsTupleText, IsTemplateText};
ghost use Rattle.kt_tuple.specs.Grammar.{Begins, IsLongestFront, IsFirstOutside, IsTooLong, IsAccepted};
ghost use Rattle.kt_tuple.specs.Grammar.{IsInt, IsCharacters, IsStr, character_count};
ghost use Rattle.kt_tuple.specs.Matching.{HasArity, Matches};
ghost use Rattle.kt_tuple.specs.Node.{node_index};
ghost use Rattle.kt_tuple.specs.Parsing.{tuple_fault, tuple_values, template_fault, template_places};
ghost use Rattle.kt_tuple.specs.Reading.{begins_with_digit, value_at, value_of};
ghost use Rattle.kt_tuple.specs.Reading.{place_at, place_of, has_range, is_short};
ghost use Rattle.kt_tuple.specs.Signature.{kinds_of, kinds_of_places, signature_of, shard_of};
ghost use Rattle.kt_tuple.specs.Spelling.{value_text, place_text, tuple_text, template_text};
ghost use Rattle.kt_tuple.specs.Valid.{IsValue, IsPlace};
ghost use Rattle.kt_tuple.specs.declared.node.TheConstants.{ALL_NODES, ALL_WORKERS};
ghost use Rattle.kt_tuple.specs.declared.string.TheConstants.{MAX_CHARACTERS};
ghost use Rattle.kt_tuple.specs.Node.{all_nodes, all_workers};

/// A template and a tuple that match have one signature, hence one shard is the home of both.
pub fn matching_has_one_home()
    ensures signature { (t : Template) (u : Tuple) → Matches t u
        → signature_of (kinds_of_places t) ≡ signature_of (kinds_of u) }
    ensures home { (shards : ℕ) (t : Template) (u : Tuple) → Matches t u
        → shard_of shards (kinds_of_places t) ≡ shard_of shards (kinds_of u) }
{}

/// Nodes with one number are one node, and lists of kinds with one signature are one list.
pub fn numbers_tell_apart()
    ensures nodes { (p q : NodeId) → node_index p ≡ node_index q → p ≡ q }
    ensures kinds { (a b : List Kind) → signature_of a ≡ signature_of b → a ≡ b }
{}

/// What is read as a value, or as a place, stands in front of the text and is the one text of it. It has one
/// where it is in range and short, and that is one that a program can hold.
pub fn a_front_read_is_spelled_so()
    ensures value_front { (text p rest : List ℕ) → value_at text ≡ Ok (p, rest) → text ≡ p ++ rest }
    ensures value_spelling { (text p rest : List ℕ) (v : Value) → value_at text ≡ Ok (p, rest) → value_of p ≡ Some v
        → value_text v ≡ p }
    ensures value_made { (text p rest : List ℕ) → value_at text ≡ Ok (p, rest) → IsTrue (has_range p)
        → IsTrue (is_short p) → IsSome (value_of p) }
    ensures value_held { (p : List ℕ) (v : Value) → value_of p ≡ Some v → IsValue v }
    ensures place_front { (text p rest : List ℕ) → place_at text ≡ Ok (p, rest) → text ≡ p ++ rest }
    ensures place_spelling { (text p rest : List ℕ) (q : Place) → place_at text ≡ Ok (p, rest) → place_of p ≡ Some q
        → place_text q ≡ p }
    ensures place_made { (text p rest : List ℕ) → place_at text ≡ Ok (p, rest) → IsTrue (has_range p)
        → IsTrue (is_short p) → IsSome (place_of p) }
    ensures place_held { (p : List ℕ) (q : Place) → place_of p ≡ Some q → IsPlace q }
{}

/// The text of a value, or of a place, is read up to its end as it. A digit behind an int would belong to it.
pub fn a_front_spelled_is_read()
    ensures value_front { (v : Value) (rest : List ℕ) → IsValue v → begins_with_digit rest ≡ false
        → value_at (value_text v ++ rest) ≡ Ok (value_text v, rest) }
    ensures value_made { (v : Value) → IsValue v → value_of (value_text v) ≡ Some v }
    ensures value_in_range { (v : Value) → IsValue v → IsTrue (has_range (value_text v)) }
    ensures value_short { (v : Value) → IsValue v → IsTrue (is_short (value_text v)) }
    ensures place_front { (q : Place) (rest : List ℕ) → IsPlace q → begins_with_digit rest ≡ false
        → place_at (place_text q ++ rest) ≡ Ok (place_text q, rest) }
    ensures place_made { (q : Place) → IsPlace q → place_of (place_text q) ≡ Some q }
    ensures place_in_range { (q : Place) → IsPlace q → IsTrue (has_range (place_text q)) }
    ensures place_short { (q : Place) → IsPlace q → IsTrue (is_short (place_text q)) }
{}

/// A text without a fault is the one text of what is read of it: 1 to `MAX_PLACES` values, or places, that a program
/// can hold.
pub fn a_text_read_is_spelled_so()
    ensures tuple_spelling { (text : List ℕ) → tuple_fault text ≡ None → tuple_text (tuple_values text) ≡ text }
    ensures tuple_arity { (text : List ℕ) → tuple_fault text ≡ None → HasArity (tuple_values text) }
    ensures tuple_held { (text : List ℕ) → tuple_fault text ≡ None → All IsValue (tuple_values text) }
    ensures template_spelling { (text : List ℕ) → template_fault text ≡ None
        → template_text (template_places text) ≡ text }
    ensures template_arity { (text : List ℕ) → template_fault text ≡ None → HasArity (template_places text) }
    ensures template_held { (text : List ℕ) → template_fault text ≡ None → All IsPlace (template_places text) }
{}

/// The text of 1 to `MAX_PLACES` values, or places, has no fault, and is read as these.
pub fn a_text_spelled_is_read()
    ensures tuple_faultless { (us : List Value) → HasArity us → All IsValue us → tuple_fault (tuple_text us) ≡ None }
    ensures tuple_values { (us : List Value) → HasArity us → All IsValue us → tuple_values (tuple_text us) ≡ us }
    ensures template_faultless { (ts : List Place) → HasArity ts → All IsPlace ts
        → template_fault (template_text ts) ≡ None }
    ensures template_places { (ts : List Place) → HasArity ts → All IsPlace ts
        → template_places (template_text ts) ≡ ts }
{}

/// A text has the shape of a tuple, or of a template, exactly where it has no syntax fault; then it has one row of
/// places. A syntax fault is at the length of the longest front that begins some text of the shape.
pub fn a_syntax_fault_is_at_the_longest_front()
    ensures tuple_shape { (text : List ℕ) (at : ℕ) → IsTupleText text → tuple_fault text ≡ Some (faults.Syntax at) → ⊥ }
    ensures tuple_others { (text : List ℕ) → ((at : ℕ) → tuple_fault text ≡ Some (faults.Syntax at) → ⊥)
        → IsTupleText text }
    ensures tuple_places { (ps qs : List (List ℕ)) (text : List ℕ) → Consists IsValueText ps text
        → Consists IsValueText qs text → ps ≡ qs }
    ensures tuple_within { (text : List ℕ) (at : ℕ) → tuple_fault text ≡ Some (faults.Syntax at) → at ≤ length text }
    ensures tuple_begins { (text : List ℕ) (at : ℕ) → tuple_fault text ≡ Some (faults.Syntax at)
        → Begins IsTupleText (take at text) }
    ensures tuple_longest { (text : List ℕ) (at n : ℕ) → tuple_fault text ≡ Some (faults.Syntax at)
        → at < n → n ≤ length text → Begins IsTupleText (take n text) → ⊥ }
    ensures tuple_only { (text : List ℕ) (at : ℕ) → ¬ IsTupleText text → IsLongestFront IsTupleText text at
        → tuple_fault text ≡ Some (faults.Syntax at) }
    ensures template_shape { (text : List ℕ) (at : ℕ) → IsTemplateText text
        → template_fault text ≡ Some (faults.Syntax at) → ⊥ }
    ensures template_others { (text : List ℕ) → ((at : ℕ) → template_fault text ≡ Some (faults.Syntax at) → ⊥)
        → IsTemplateText text }
    ensures template_places { (ps qs : List (List ℕ)) (text : List ℕ) → Consists IsPlaceText ps text
        → Consists IsPlaceText qs text → ps ≡ qs }
    ensures template_within { (text : List ℕ) (at : ℕ) → template_fault text ≡ Some (faults.Syntax at)
        → at ≤ length text }
    ensures template_begins { (text : List ℕ) (at : ℕ) → template_fault text ≡ Some (faults.Syntax at)
        → Begins IsTemplateText (take at text) }
    ensures template_longest { (text : List ℕ) (at n : ℕ) → template_fault text ≡ Some (faults.Syntax at)
        → at < n → n ≤ length text → Begins IsTemplateText (take n text) → ⊥ }
    ensures template_only { (text : List ℕ) (at : ℕ) → ¬ IsTemplateText text → IsLongestFront IsTemplateText text at
        → template_fault text ≡ Some (faults.Syntax at) }
{}

/// A text of the shape has a range fault exactly at its first int outside 64 bits. It is too long exactly where
/// its ints are in range and it has more than `MAX_PLACES` places or a str too long, and else it is accepted.
pub fn a_text_of_the_shape_has_these_faults()
    ensures tuple_range { (text : List ℕ) (at : ℕ)
        → (tuple_fault text ≡ Some (faults.Range at)) ↔ IsFirstOutside IsValueText text at }
    ensures tuple_too_long { (text : List ℕ) → (tuple_fault text ≡ Some faults.TooLong) ↔ IsTooLong IsValueText text }
    ensures tuple_accepted { (text : List ℕ) → (tuple_fault text ≡ None) ↔ IsAccepted IsValueText text }
    ensures template_range { (text : List ℕ) (at : ℕ)
        → (template_fault text ≡ Some (faults.Range at)) ↔ IsFirstOutside IsPlaceText text at }
    ensures template_too_long { (text : List ℕ) → (template_fault text ≡ Some faults.TooLong)
        ↔ IsTooLong IsPlaceText text }
    ensures template_accepted { (text : List ℕ) → (template_fault text ≡ None) ↔ IsAccepted IsPlaceText text }
{}

/// The places out of range are the ints outside 64 bits, and those too long the strs of more than 64
/// characters, of which an escaped one counts once.
pub fn a_place_is_outside_or_too_long_by_its_shape()
    ensures int { (p : List ℕ) → IsInt p → IsTrue (has_range p) ↔ FitsSigned w64 (signed_digits_value 10 p) }
    ensures in_range { (p : List ℕ) → IsPlaceText p → has_range p ≡ false → IsInt p }
    ensures characters { (cs : List ℕ) (h : IsCharacters cs)
        → IsTrue (is_short (34 ∷ (cs ++ 34 ∷ []))) ↔ (character_count h ≤ MAX_CHARACTERS) }
    ensures short { (p : List ℕ) → IsPlaceText p → is_short p ≡ false → IsStr p }
{}

/// The lists of names are in node order, and whole: each worker and each shard that a scene can have.
pub fn names_are_listed_in_node_order()
    ensures workers { ALL_WORKERS ≡ all_workers }
    ensures nodes { ALL_NODES ≡ all_nodes }
{}
