//! The one text of each command, written at the end of bytes.
//! Cited by whoever calls the trait `Spelled`.

ghost use Rattle.std.specs.Prelude.{◌≡◌, ◌++◌, OnOk, OnErr, codes, ⊤};
ghost use Rattle.std.specs.Io.{StartsWith};
ghost use Rattle.kt_script.specs.Spelling.{actual_text, slot_text, operation_text, command_text};

use crate::command::{Actual, Command, Operation, Slot};
use crate::name::Name;
use kt_tuple::writing::{Spelled, cut_back, push_in_parentheses, push_int, push_number};
use std::alloc::AllocError;

impl Spelled for Actual {
    ghost text_of = { actual_text };

    ghost is_held = { λ _. ⊤ };

    fn push_to(&self, out: &mut Vec<u8>) -> Result<(), AllocError> {
        match self {
            Actual::Literal(value) => value.push_to(out),
            Actual::Variable(name) => out.extend_from_slice(name.as_bytes()),
        }
    }
}

impl Spelled for Slot {
    ghost text_of = { slot_text };

    ghost is_held = { λ _. ⊤ };

    fn push_to(&self, out: &mut Vec<u8>) -> Result<(), AllocError> {
        match self {
            Slot::Actual(actual) => actual.push_to(out),
            Slot::Formal(kind, None) => {
                out.push(b'?')?;
                kind.push_to(out)
            }
            Slot::Formal(kind, Some(name)) => {
                out.push(b'?')?;
                kind.push_to(out)?;
                out.push(b' ')?;
                out.extend_from_slice(name.as_bytes())
            }
        }
    }
}

impl Command {
    /// Appends its text, as `in ("a", ?int n)` or `set n = n + 1`. A refused call leaves the bytes as they were.
    pub fn write_to(&self, out: &mut Vec<u8>) -> Result<(), AllocError>
        ensures ok { OnOk result (out.new.items ≡ out.old.items ++ command_text self.now) }
        ensures err { OnErr result (out.new.items ≡ out.old.items) }
    {
        let start = out.len();
        let written = push_command(out, self);
        cut_back(out, start, written)
    }
}

fn push_command(out: &mut Vec<u8>, command: &Command) -> Result<(), AllocError>
    ensures ok { OnOk result (out.new.items ≡ out.old.items ++ command_text command.now) }
    ensures front { StartsWith out.new.items out.old.items }
{
    match command {
        Command::Ask(operation) => push_operation(out, operation),
        Command::Set {
            variable,
            source,
            plus,
        } => {
            push_names(out, variable, source)?;
            out.extend_from_slice(b" + ")?;
            push_int(out, *plus)
        }
        Command::Unless(count) => {
            out.extend_from_slice(b"unless ")?;
            push_number(out, u64::from(*count))
        }
    }
}

/// The names of a sum: the one that is set, and the one that is added to.
fn push_names(out: &mut Vec<u8>, variable: &Name, source: &Name) -> Result<(), AllocError>
    ensures ok { OnOk result (out.new.items ≡ out.old.items ++ codes "set " ++ variable.now
        ++ codes " = " ++ source.now) }
    ensures front { StartsWith out.new.items out.old.items }
{
    out.extend_from_slice(b"set ")?;
    out.extend_from_slice(variable.as_bytes())?;
    out.extend_from_slice(b" = ")?;
    out.extend_from_slice(source.as_bytes())
}

fn push_operation(out: &mut Vec<u8>, operation: &Operation) -> Result<(), AllocError>
    ensures ok { OnOk result (out.new.items ≡ out.old.items ++ operation_text operation.now) }
    ensures front { StartsWith out.new.items out.old.items }
{
    match operation {
        Operation::Out(actuals) => {
            out.extend_from_slice(b"out ")?;
            push_in_parentheses(out, actuals.as_slice())
        }
        Operation::In(pattern) => {
            out.extend_from_slice(b"in ")?;
            push_in_parentheses(out, pattern.as_slice())
        }
        Operation::Rd(pattern) => {
            out.extend_from_slice(b"rd ")?;
            push_in_parentheses(out, pattern.as_slice())
        }
        Operation::Inp(pattern) => {
            out.extend_from_slice(b"inp ")?;
            push_in_parentheses(out, pattern.as_slice())
        }
        Operation::Rdp(pattern) => {
            out.extend_from_slice(b"rdp ")?;
            push_in_parentheses(out, pattern.as_slice())
        }
    }
}
