//! The commands of a script.
//! Cited by env.rt, equality.rt, meaning.rt, next.rt, rules.rt, script.rt, writing.rt; other crates.

ghost use Rattle.std.specs.Prelude.{◌≡◌, IfOk, flat_map};
ghost use Rattle.kt_script.specs.Command.{slot_bindings};

use crate::name::Name;
use crate::places::Places;
use kt_tuple::{Kind, Value};
use std::alloc::{AllocError, Global};

/// A value of an operation: written out, or that of a variable.
#[derive(Debug, PartialEq, Eq, Drop)]
pub enum Actual {
    /// This value, as the command's text has it.
    Literal(Value),
    /// The value of the variable with this name.
    Variable(Name),
}

/// One place of a command's template.
#[derive(Debug, PartialEq, Eq, Drop)]
pub enum Slot {
    /// Only this value is admitted.
    Actual(Actual),
    /// Any value of this kind is admitted. Where there is a name, the value that was got is bound to it.
    Formal(Kind, Option<Name>),
}

/// The values of a command's tuple: 1 to `MAX_PLACES`.
pub type Actuals = Places<Actual>;

/// The places of a command's template: 1 to `MAX_PLACES`.
pub type Pattern = Places<Slot>;

/// An operation on the space as a script has it.
#[derive(Debug, Drop)]
pub enum Operation {
    /// Adds the tuple.
    Out(Actuals),
    /// Withdraws a tuple that matches, and waits while there is none.
    In(Pattern),
    /// Reads a tuple that matches, and waits while there is none.
    Rd(Pattern),
    /// Withdraws a tuple that matches, or answers that there is none.
    Inp(Pattern),
    /// Reads a tuple that matches, or answers that there is none.
    Rdp(Pattern),
}

/// One command of a script.
#[derive(Debug, Drop)]
pub enum Command {
    /// Asks the space for this operation.
    Ask(Operation),
    /// Binds the variable to the source's value plus a number, held at the ends of 64 bits.
    Set {
        variable: Name,
        source: Name,
        plus: i64,
    },
    /// Skips so many commands, 1 to `MAX_COMMANDS`, where the last answer was none.
    Unless(u8),
}

impl Actual {
    /// An equal actual. It takes no memory, so it is not refused.
    pub fn copy(&self) -> Actual
        ensures { result ≡ self.now }
    {
        match self {
            Actual::Literal(value) => Actual::Literal(value.copy()),
            Actual::Variable(name) => Actual::Variable(name.copy()),
        }
    }
}

impl Operation {
    ghost use Rattle.kt_script.specs.Command.{slots_of};

    /// The places that may bind a name, from left to right: `out` has none.
    pub fn slots(&self) -> &[Slot]
        ensures { result.now ≡ slots_of self.now }
    {
        match self {
            Operation::Out(_) => &[],
            Operation::In(pattern)
            | Operation::Rd(pattern)
            | Operation::Inp(pattern)
            | Operation::Rdp(pattern) => pattern.as_slice(),
        }
    }
}

impl Command {
    ghost use Rattle.std.specs.Prelude.{◌≡◌, IfOk};
    ghost use Rattle.kt_script.specs.Command.{bindings};

    /// The names that the command binds, from left to right, each with its kind.
    pub(crate) fn bindings(&self, alloc: Global) -> Result<Vec<(Name, Kind)>, AllocError>
        ensures { IfOk result (λ b. b.items ≡ bindings self.now) }
    {
        match self {
            Command::Ask(operation) => slot_bindings(alloc, operation.slots()),
            Command::Set { variable, .. } => {
                let mut bindings = Vec::with_capacity(alloc, 1)?;
                bindings.push((variable.copy(), Kind::Int))?;
                Ok(bindings)
            }
            Command::Unless(_) => Ok(Vec::new(alloc)),
        }
    }
}

fn slot_bindings(alloc: Global, slots: &[Slot]) -> Result<Vec<(Name, Kind)>, AllocError>
    ensures { IfOk result (λ b. b.items ≡ flat_map slot_bindings slots.now) }
{
    let mut bindings = Vec::with_capacity(alloc, slots.len())?;
    for slot in slots {
        if let Slot::Formal(kind, Some(name)) = slot {
            bindings.push((name.copy(), *kind))?;
        }
    }
    Ok(bindings)
}
