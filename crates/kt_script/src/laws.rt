//! Laws about the definitions, each the contract of a function with nothing to do.
//! Cited by no other file of crates/.

ghost use Rattle.std.specs.Prelude.{◌≡◌, ◌≤◌, ℕ, true, false, List, length, [], ◌∷◌, ◌++◌, Some, Contains, flat_map};
ghost use Rattle.kt_tuple.specs.declared.op.Answer.{Answer};
ghost use Rattle.kt_tuple.specs.declared.op.Answer.TheVariants.{Done, Got, None as NoMatch};
ghost use Rattle.kt_tuple.specs.declared.tuple.Tuple.{Tuple};
ghost use Rattle.kt_tuple.specs.declared.value.Kind.{Kind};
ghost use Rattle.kt_tuple.specs.declared.value.Value.{Value};
ghost use Rattle.kt_script.specs.declared.command.Command.{Command};
ghost use Rattle.kt_script.specs.declared.name.Name.{Name};
ghost use Rattle.kt_script.specs.declared.next.Next.{Next};
ghost use Rattle.kt_script.specs.declared.script.TheConstants.{MAX_COMMANDS, MAX_VARIABLES};
ghost use Rattle.kt_script.specs.Asks.{asks};
ghost use Rattle.kt_script.specs.Command.{bindings};
ghost use Rattle.kt_script.specs.Meaning.{has_kinds};
ghost use Rattle.kt_script.specs.Memory.{Memory, held, opening_memory, are_values_of, memory_of};
ghost use Rattle.kt_script.specs.Next.{Position, next_at, after_one, opening_position};
ghost use Rattle.kt_script.specs.Next.{position_after, op_of_next, bound, slots_before, IsInScript};
ghost use Rattle.kt_script.specs.Rules.{IsScript};
ghost use Rattle.kt_script.specs.Variables.{kind_in, variables_of};

/// After any list of answers the position that `next` and `bind` lead to has the operation that is asked
/// next. The position starts at the script's beginning and goes on by one answer at a time.
pub fn next_and_bind_reach_what_is_asked()
    ensures reached { (script : List Command) (answers : List Answer)
        → asks script answers ≡ op_of_next (next_at script (position_after script answers)) }
    ensures first { (script : List Command) → position_after script [] ≡ opening_position script }
    ensures later { (script : List Command) (answers : List Answer) (answer : Answer)
        → position_after script (answers ++ answer ∷ []) ≡ after_one script (position_after script answers) answer }
{}

/// An answer changes no variable where no template stands before the position, where it is no tuple, and
/// where the tuple has other kinds than the template as it was sent.
pub fn bind_changes_only_formals()
    ensures no_template { (script : List Command) (pc : ℕ) (answer : Answer) (memory : Memory)
        → slots_before script pc ≡ [] → (bound script pc answer memory).values ≡ memory.values }
    ensures no_tuple { (script : List Command) (pc : ℕ) (memory : Memory)
        → ((bound script pc Done memory).values ≡ memory.values)
        × ((bound script pc NoMatch memory).values ≡ memory.values) }
    ensures other_kinds { (script : List Command) (pc : ℕ) (tuple : Tuple) (memory : Memory)
        → has_kinds (held (variables_of script) memory.values) (slots_before script pc) tuple ≡ false
        → (bound script pc (Got tuple) memory).values ≡ memory.values }
{}

/// In a script a name is bound to values of one kind alone, and that is the kind of its variable.
pub fn names_have_one_kind()
    ensures one { (script : List Command) → IsScript script → (name : Name) (j k : Kind)
        → Contains (flat_map bindings script) (name, j)
        → Contains (flat_map bindings script) (name, k) → j ≡ k }
    ensures variable { (script : List Command) → IsScript script → (name : Name) (kind : Kind)
        → Contains (flat_map bindings script) (name, kind)
        → kind_in (variables_of script) name ≡ Some kind }
{}

/// Before any answer there is one value for each variable of the script, of the variable's kind; behind the
/// next operation, and after its answer, there is again. So what is kept then is made again of its parts.
pub fn variables_keep_their_kinds()
    ensures opening { (script : List Command)
        → are_values_of (variables_of script) (opening_memory script).values ≡ true }
    ensures next { (script : List Command) → IsScript script → (position : Position) (next : Next)
        → are_values_of (variables_of script) position.memory.values ≡ true
        → next_at script position ≡ Some next
        → are_values_of (variables_of script) next.env.values ≡ true }
    ensures bound { (script : List Command) → IsScript script → (pc : ℕ) (answer : Answer) (memory : Memory)
        → are_values_of (variables_of script) memory.values ≡ true
        → are_values_of (variables_of script) (bound script pc answer memory).values ≡ true }
    ensures again { (script : List Command) (memory : Memory)
        → are_values_of (variables_of script) memory.values ≡ true
        → memory_of script memory.values memory.was_none ≡ Some memory }
{}

/// The position that answers lead to is within the script, and so is the one behind the operation that is
/// next there; both have one value for each variable, of the variable's kind.
pub fn answers_lead_to_places_of_the_script()
    ensures after { (script : List Command) → IsScript script → (answers : List Answer)
        → IsInScript script (position_after script answers) }
    ensures next { (script : List Command) → IsScript script → (position : Position) (next : Next)
        → IsInScript script position → next_at script position ≡ Some next
        → IsInScript script (record { pc = next.pc; memory = next.env }) }
{}

/// A script has at most `MAX_COMMANDS` commands, and at most `MAX_VARIABLES` values are those of its variables.
pub fn a_script_keeps_its_limits()
    ensures commands { (script : List Command) → IsScript script → length script ≤ MAX_COMMANDS }
    ensures values { (script : List Command) → IsScript script → (values : List Value)
        → are_values_of (variables_of script) values ≡ true → length values ≤ MAX_VARIABLES }
{}
