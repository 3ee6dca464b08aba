//! Values and their kinds.
//! Cited by copying.rt, equality.rt, item.rt, parsing.rt, reading.rt, signature.rt, template.rt, tuple.rt,
//!   writing.rt; other crates.

ghost use Rattle.std.specs.Prelude.{◌≡◌, ◌↔◌, IsTrue};
ghost use Rattle.kt_tuple.specs.Equality.{value_eq};
ghost use Rattle.kt_tuple.specs.Value.{kind_of};

use crate::string::Str;

/// One value of a tuple.
#[derive(Debug, PartialEq, Eq, Drop)]
pub enum Value {
    /// A whole number of 64 bits with a sign.
    Int(i64),
    /// A string of at most `MAX_CHARACTERS` printable characters.
    Str(Str),
    /// A truth: true or false.
    Bool(bool),
}

/// What kind of value a place holds.
#[derive(Clone, Copy, Debug, PartialEq, Eq, Hash)]
pub enum Kind {
    /// A whole number of 64 bits with a sign.
    Int,
    /// A string.
    Str,
    /// True or false.
    Bool,
}

impl Value {
    /// `Int`, `Str` or `Bool`, as the value is.
    pub fn kind(&self) -> Kind
        ensures { result ≡ kind_of self.now }
    {
        match self {
            Value::Int(_) => Kind::Int,
            Value::Str(_) => Kind::Str,
            Value::Bool(_) => Kind::Bool,
        }
    }

    /// An equal value. It takes no memory, so it is not refused.
    pub fn copy(&self) -> Value
        ensures { result ≡ self.now }
    {
        match self {
            Value::Int(n) => Value::Int(*n),
            Value::Str(s) => Value::Str(s.copy()),
            Value::Bool(b) => Value::Bool(*b),
        }
    }
}
