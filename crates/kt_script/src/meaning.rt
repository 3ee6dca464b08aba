//! What commands mean where the variables have values.
//! Cited by env.rt, next.rt.

ghost use Rattle.std.specs.Prelude.{◌≡◌, ◌++◌, IfOk, OnOk, map, List};
ghost use Rattle.kt_tuple.specs.Signature.{kind_of_place};
ghost use Rattle.kt_tuple.specs.Value.{kind_of};
ghost use Rattle.kt_script.specs.Meaning.{value_of_actual, place_of_slot, template_of, op_of, plus, has_kinds};
ghost use Rattle.kt_script.specs.Memory.{with_slot_held, with_tuple_held};

use crate::command::{Actual, Actuals, Operation, Pattern, Slot};
use crate::name::Name;
use crate::variables::{Variables, held, hold};
use kt_tuple::{Kind, Op, Place, Template, Tuple, Value};
use std::alloc::{AllocError, Global};

/// The variables of a script with a value for each: what names stand for. They go together where commands are looked up
/// by name. Where values are changed, the values alone are lent for it, and the variables beside them
/// (docs/DECISIONS.md#values).
#[derive(Clone, Copy)]
pub(crate) struct Scope<'a> {
    pub(crate) variables: &'a Variables,
    pub(crate) values: &'a [Value],
}

impl Scope<'_> {
    ghost use Rattle.kt_script.specs.auxiliary.Scope.{meaning_in};

    /// The value of the name. It is 0 where the name is not bound: by the rules of a script no command uses such a
    /// name.
    fn value_of(self, name: &Name) -> Value
        ensures { result ≡ meaning_in self.entry name.now }
    {
        match held(self.variables, self.values, name) {
            Some(value) => value.copy(),
            None => Value::Int(0),
        }
    }

    /// The kind of the name's value; `Int` where it is not bound, as `value_of` gives 0 then.
    fn kind_of(self, name: &Name) -> Kind
        ensures { result ≡ kind_of (meaning_in self.entry name.now) }
    {
        match held(self.variables, self.values, name) {
            Some(value) => value.kind(),
            None => Kind::Int,
        }
    }

    /// The name's value plus a number, held at the ends of 64 bits. A str or a bool counts as 0: the rules of a script
    /// let a command add to ints alone.
    pub(crate) fn sum_of(self, name: &Name, number: i64) -> Value
        ensures { result ≡ plus (meaning_in self.entry name.now) number }
    {
        match held(self.variables, self.values, name) {
            Some(Value::Int(n)) => Value::Int(n.saturating_add(number)),
            Some(Value::Str(_) | Value::Bool(_)) => Value::Int(number),
            None => Value::Int(0i64.saturating_add(number)),
        }
    }

    fn value_of_actual(self, actual: &Actual) -> Value
        ensures { result ≡ value_of_actual (meaning_in self.entry) actual.now }
    {
        match actual {
            Actual::Literal(value) => value.copy(),
            Actual::Variable(name) => self.value_of(name),
        }
    }

    fn place_of_slot(self, slot: &Slot) -> Place
        ensures { result ≡ place_of_slot (meaning_in self.entry) slot.now }
    {
        match slot {
            Slot::Actual(actual) => Place::Actual(self.value_of_actual(actual)),
            Slot::Formal(kind, _) => Place::Formal(*kind),
        }
    }

    fn values_of(self, alloc: Global, actuals: &[Actual]) -> Result<Vec<Value>, AllocError>
        ensures { IfOk result (λ v. v.items ≡ map (value_of_actual (meaning_in self.entry)) actuals.now) }
    {
        let mut copies = Vec::with_capacity(alloc, actuals.len())?;
        for actual in actuals {
            copies.push(self.value_of_actual(actual))?;
        }
        Ok(copies)
    }

    fn places_of(self, alloc: Global, slots: &[Slot]) -> Result<Vec<Place>, AllocError>
        ensures { IfOk result (λ v. v.items ≡ template_of (meaning_in self.entry) slots.now) }
    {
        let mut places = Vec::with_capacity(alloc, slots.len())?;
        for slot in slots {
            places.push(self.place_of_slot(slot))?;
        }
        Ok(places)
    }

    fn template_of(self, alloc: Global, pattern: &Pattern) -> Result<Template, AllocError>
        ensures { IfOk result (λ t. t ≡ template_of (meaning_in self.entry) pattern.now) }
    {
        let places = self.places_of(alloc, pattern.as_slice())?;
        // A command's template has no place too many, so it makes a template.
        Ok(Template::new(alloc, places)?.unwrap())
    }

    fn tuple_of(self, alloc: Global, actuals: &Actuals) -> Result<Tuple, AllocError>
        ensures { IfOk result (λ t. t ≡ map (value_of_actual (meaning_in self.entry)) actuals.now) }
    {
        let values = self.values_of(alloc, actuals.as_slice())?;
        // A command's tuple has no value too many, so it makes a tuple.
        Ok(Tuple::new(alloc, values)?.unwrap())
    }

    /// The operation as it is sent: with values and bare formals.
    pub(crate) fn op_of(self, alloc: Global, operation: &Operation) -> Result<Op, AllocError>
        ensures { IfOk result (λ op. op ≡ op_of (meaning_in self.entry) operation.now) }
    {
        Ok(match operation {
            Operation::Out(actuals) => Op::Out(self.tuple_of(alloc, actuals)?),
            Operation::In(pattern) => Op::In(self.template_of(alloc, pattern)?),
            Operation::Rd(pattern) => Op::Rd(self.template_of(alloc, pattern)?),
            Operation::Inp(pattern) => Op::Inp(self.template_of(alloc, pattern)?),
            Operation::Rdp(pattern) => Op::Rdp(self.template_of(alloc, pattern)?),
        })
    }

    /// The kind of the values that the place admits.
    fn kind_of_slot(self, slot: &Slot) -> Kind
        ensures { result ≡ kind_of_place (place_of_slot (meaning_in self.entry) slot.now) }
    {
        match slot {
            Slot::Actual(Actual::Literal(value)) => value.kind(),
            Slot::Actual(Actual::Variable(name)) => self.kind_of(name),
            Slot::Formal(kind, _) => *kind,
        }
    }

    /// Whether the tuple has the kinds of the template as it is sent.
    pub(crate) fn has_kinds(self, slots: &[Slot], tuple: &[Value]) -> bool
        ensures { result ≡ has_kinds (meaning_in self.entry) slots.now tuple.now }
    {
        match (slots.split_first(), tuple.split_first()) {
            (None, None) => true,
            (Some((slot, slots)), Some((value, tuple))) => {
                self.kind_of_slot(slot) == value.kind() && self.has_kinds(slots, tuple)
            }
            _ => false,
        }
    }
}

/// Binds the formal's name, where it has one, to the value.
fn bind_slot(variables: &Variables, values: &mut [Value], slot: &Slot, value: &Value)
    ensures { values.new ≡ with_slot_held variables.now.entries values.old slot.now value.now }
{
    if let Slot::Formal(_, Some(name)) = slot {
        hold(variables, values, name, value.copy());
    }
}

/// Binds the formals to the values got, from left to right.
pub(crate) fn bind_tuple(variables: &Variables, values: &mut [Value], slots: &[Slot], got: &[Value])
    ensures { values.new ≡ with_tuple_held variables.now.entries values.old slots.now got.now }
{
    let both = (slots.split_first(), got.split_first());
    if let (Some((slot, slots)), Some((value, got))) = both {
        bind_slot(variables, values, slot, value);
        bind_tuple(variables, values, slots, got);
    }
}
