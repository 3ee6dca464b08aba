//! The variables of a script: its names in the order of their first bindings, and their values.
//! Cited by env.rt, meaning.rt, next.rt, rules.rt, script.rt.

ghost use Rattle.std.specs.Prelude.{◌≡◌, ◌+◌, ◌<◌, ◌≤◌, IfOk, OnOk, OnErr, Some, position, pos, unwrap_or};
ghost use Rattle.std.specs.Option.{option_copied};
ghost use Rattle.std.specs.Map.{keys_of};
ghost use Rattle.std.specs.Cmp.Lexicographic.{pointwise};
ghost use Rattle.kt_tuple.specs.declared.value.Value.TheVariants.{Int};
ghost use Rattle.kt_tuple.specs.Equality.{kind_eq};
ghost use Rattle.kt_tuple.specs.Signature.{kinds_of};
ghost use Rattle.kt_script.specs.Name.{same_name};
ghost use Rattle.indexmap.specs.IndexMap.{spare};
ghost use Rattle.kt_script.specs.Variables.{kind_in, with_bindings, with_binding};
ghost use Rattle.kt_script.specs.Meaning.{zero_of};
ghost use Rattle.kt_script.specs.Memory.{are_values_of, held, with_held, zeros_of};

use crate::name::Name;
use indexmap::IndexMap;
use kt_tuple::{Kind, Str, Value};
use std::alloc::{AllocError, Global};

/// The names of a script, numbered in the order in which they are first bound, each with its kind.
pub(crate) type Variables = IndexMap<Name, Kind>;

/// The kind of the name, where it is bound.
pub(crate) fn kind_in(variables: &Variables, name: &Name) -> Option<Kind>
    ensures { result ≡ kind_in variables.now.entries name.now }
{
    variables.get(name).copied()
}

/// The number of the name, where it is bound: the place of its value too.
fn place_of(variables: &Variables, name: &Name) -> Option<usize>
    ensures { result ≡ position (same_name name.now) (keys_of variables.now.entries) }
{
    variables.get_index_of(name)
}

/// The value of the name, where it is bound.
#[tactic(auto, using(crate::proofs::PlaceLemmas::held_laws))]
pub(crate) fn held<'a>(variables: &Variables, values: &'a [Value], name: &Name) -> Option<&'a Value>
    ensures { unwrap_or (option_copied result) (Int (pos 0)) ≡ held variables.now.entries values.now name.now }
{
    match place_of(variables, name) {
        Some(place) => values.get(place),
        None => None,
    }
}

/// Gives the name this value. A name that is not bound has no place, and nothing changes.
#[tactic(auto, using(crate::proofs::PlaceLemmas::with_held_laws))]
pub(crate) fn hold(variables: &Variables, values: &mut [Value], name: &Name, value: Value)
    ensures { values.new ≡ with_held variables.now.entries values.old name.now value }
{
    if let Some(place) = place_of(variables, name) {
        if place < values.len() {
            values[place] = value;
        }
    }
}

/// Whether there is one value for each variable, of its kind.
pub(crate) fn are_values_of(variables: &Variables, values: &[Value]) -> bool
    ensures { result ≡ are_values_of variables.now.entries values.now }
{
    have_kinds(variables.values().as_slice(), values)
}

/// Whether there are as many values as kinds, and each is of its kind.
fn have_kinds(kinds: &[Kind], values: &[Value]) -> bool
    ensures { result ≡ pointwise kind_eq kinds.now (kinds_of values.now) }
{
    match (kinds.split_first(), values.split_first()) {
        (None, None) => true,
        (Some((kind, kinds)), Some((value, values))) => {
            *kind == value.kind() && have_kinds(kinds, values)
        }
        _ => false,
    }
}

/// What a variable of this kind holds before it is bound: 0, the empty string or `false`.
fn zero_of(kind: Kind) -> Value
    ensures { result ≡ zero_of (Some kind) }
{
    match kind {
        Kind::Int => Value::Int(0),
        Kind::Str => Value::Str(Str::new(&[]).unwrap()),
        Kind::Bool => Value::Bool(false),
    }
}

/// The value of each variable before it is bound.
pub(crate) fn zeros_of(alloc: Global, variables: &Variables) -> Result<Vec<Value>, AllocError>
    ensures { IfOk result (λ v. v.items ≡ zeros_of variables.now.entries) }
{
    let mut zeros = Vec::with_capacity(alloc, variables.len())?;
    for (_, kind) in variables {
        zeros.push(zero_of(*kind))?;
    }
    Ok(zeros)
}

/// Binds one name more, or leaves it where it is bound. There is room.
fn bind(variables: &mut Variables, name: Name, kind: Kind)
    requires { 0 < spare variables.old }
    ensures value { variables.new.entries ≡ with_binding variables.old.entries (name, kind) }
    ensures room { spare variables.old ≤ spare variables.new + 1 }
{
    match kind_in(variables, &name) {
        Some(_) => {}
        None => {
            let _ = variables.insert(name, kind);
        }
    }
}

/// Binds the names, from left to right. The room is made before the first one.
pub(crate) fn bind_all(
    variables: &mut Variables,
    bindings: Vec<(Name, Kind)>,
) -> Result<(), AllocError>
    ensures ok { OnOk result (variables.new.entries ≡ with_bindings variables.old.entries bindings.items) }
    ensures err { OnErr result (variables.new.entries ≡ variables.old.entries) }
{
    variables.reserve(bindings.len())?;
    for (name, kind) in bindings {
        bind(variables, name, kind);
    }
    Ok(())
}
