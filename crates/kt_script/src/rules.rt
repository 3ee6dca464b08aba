//! Which command may follow a script: the rules of variables and the limits, judged without memory.
//! Cited by script.rt.

ghost use Rattle.std.specs.Prelude.{◌≡◌, ◌≤◌, length, flat_map};
ghost use Rattle.std.specs.List.{list_all};
ghost use Rattle.kt_script.specs.Command.{slot_bindings, bindings};
ghost use Rattle.kt_script.specs.Variables.{kind_in};
ghost use Rattle.kt_script.specs.Rules.{is_bound, is_slot_bound, are_slots_bound, are_actuals_bound};
ghost use Rattle.kt_script.specs.Rules.{agrees, are_uses_bound, are_kinds_kept, keeps_rules, has_count};
ghost use Rattle.kt_script.specs.auxiliary.Counting.{count_new};

use crate::command::{Actual, Command, Operation, Slot};
use crate::name::Name;
use crate::script::MAX_COMMANDS;
use crate::variables::{Variables, kind_in};
use kt_tuple::Kind;

/// Whether the command uses only variables that are bound before it, and each of its bindings has the kind
/// that its name was first bound with.
pub(crate) fn keeps_rules(variables: &Variables, command: &Command) -> bool
    ensures { result ≡ keeps_rules variables.now.entries command.now }
{
    are_uses_bound(variables, command) && are_kinds_kept(variables, command)
}

/// Whether `unless` has a number from 1 to `MAX_COMMANDS`.
pub(crate) fn has_count(command: &Command) -> bool
    ensures { result ≡ has_count command.now }
{
    match command {
        Command::Ask(_) | Command::Set { .. } => true,
        Command::Unless(count) => 0 < *count && usize::from(*count) <= MAX_COMMANDS,
    }
}

/// How many names the command binds that are not bound yet.
pub(crate) fn count_new(variables: &Variables, command: &Command) -> usize
    ensures { result ≡ count_new variables.now.entries (bindings command.now) }
{
    match command {
        Command::Ask(operation) => count_new_slots(variables, operation.slots()),
        Command::Set { variable, .. } => usize::from(kind_in(variables, variable).is_none()),
        Command::Unless(_) => 0,
    }
}

fn are_uses_bound(variables: &Variables, command: &Command) -> bool
    ensures { result ≡ are_uses_bound variables.now.entries command.now }
{
    match command {
        Command::Ask(operation) => are_actuals_bound(variables, operation),
        Command::Set { source, .. } => {
            let kind = kind_in(variables, source);
            kind.is_some() && agrees(kind, Kind::Int)
        }
        Command::Unless(_) => true,
    }
}

fn are_actuals_bound(variables: &Variables, operation: &Operation) -> bool
    ensures { result ≡ are_actuals_bound variables.now.entries operation.now }
{
    match operation {
        Operation::Out(actuals) => are_bound(variables, actuals.as_slice()),
        Operation::In(pattern)
        | Operation::Rd(pattern)
        | Operation::Inp(pattern)
        | Operation::Rdp(pattern) => are_slots_bound(variables, pattern.as_slice()),
    }
}

fn are_bound(variables: &Variables, actuals: &[Actual]) -> bool
    ensures { result ≡ list_all (is_bound variables.now.entries) actuals.now }
{
    actuals.iter().all(|actual| is_bound(variables, actual))
}

fn are_slots_bound(variables: &Variables, slots: &[Slot]) -> bool
    ensures { result ≡ are_slots_bound variables.now.entries slots.now }
{
    slots.iter().all(|slot| is_slot_bound(variables, slot))
}

fn is_slot_bound(variables: &Variables, slot: &Slot) -> bool
    ensures { result ≡ is_slot_bound variables.now.entries slot.now }
{
    match slot {
        Slot::Actual(actual) => is_bound(variables, actual),
        Slot::Formal(..) => true,
    }
}

fn is_bound(variables: &Variables, actual: &Actual) -> bool
    ensures { result ≡ is_bound variables.now.entries actual.now }
{
    match actual {
        Actual::Literal(_) => true,
        Actual::Variable(name) => kind_in(variables, name).is_some(),
    }
}

/// Whether a name that has a kind has this one.
fn agrees(bound: Option<Kind>, kind: Kind) -> bool
    ensures { result ≡ agrees bound kind }
{
    match bound {
        Some(bound) => kind == bound,
        None => true,
    }
}

fn are_kinds_kept(variables: &Variables, command: &Command) -> bool
    ensures { result ≡ are_kinds_kept variables.now.entries (bindings command.now) }
{
    match command {
        Command::Ask(operation) => are_slot_kinds_kept(variables, operation.slots()),
        Command::Set { variable, .. } => agrees(kind_in(variables, variable), Kind::Int),
        Command::Unless(_) => true,
    }
}

/// Whether each formal binds its name with the kind that the name has, before this template and further right in it.
fn are_slot_kinds_kept(variables: &Variables, slots: &[Slot]) -> bool
    ensures { result ≡ are_kinds_kept variables.now.entries (flat_map slot_bindings slots.now) }
{
    match slots.split_first() {
        None => true,
        Some((Slot::Formal(kind, Some(name)), later)) => {
            agrees(kind_in(variables, name), *kind)
                && agrees(first_kind(later, name), *kind)
                && are_slot_kinds_kept(variables, later)
        }
        Some((_, later)) => are_slot_kinds_kept(variables, later),
    }
}

/// The kind with which the places first bind the name.
fn first_kind(slots: &[Slot], name: &Name) -> Option<Kind>
    ensures { result ≡ kind_in (flat_map slot_bindings slots.now) name.now }
{
    match slots.split_first() {
        None => None,
        Some((Slot::Formal(kind, Some(first)), _)) if name == first => Some(*kind),
        Some((_, later)) => first_kind(later, name),
    }
}

/// How many new names the places bind. A name that they bind twice is counted where it stands last, so once.
fn count_new_slots(variables: &Variables, slots: &[Slot]) -> usize
    ensures value { result ≡ count_new variables.now.entries (flat_map slot_bindings slots.now) }
    ensures bounded { result ≤ length slots.now }
{
    match slots.split_first() {
        None => 0,
        Some((Slot::Formal(_, Some(name)), later))
            if kind_in(variables, name).is_none() && first_kind(later, name).is_none() => {
            1 + count_new_slots(variables, later)
        }
        Some((_, later)) => count_new_slots(variables, later),
    }
}
