//! Values and places in bytes.
//! Cited by old_parts.rt, tuple.rt.

ghost use Rattle.std.specs.Prelude.{◌≡◌, ◌++◌, OnOk};
ghost use Rattle.kt_tuple.specs.Valid.{IsValue, IsPlace};
ghost use Rattle.kt_ckpt.specs.Reading.{Gives};
ghost use Rattle.kt_ckpt.specs.Value.{value_bytes, place_bytes, int_at, str_at, bool_at};
ghost use Rattle.kt_ckpt.specs.Value.{value_behind, value_at, place_behind, place_at};

use crate::error::CkptError;
use crate::limits::{BOOL, BOOL_FORMAL, INT, INT_FORMAL, STR, STR_FORMAL};
use crate::numbers::{byte_at, byte_within, bytes_at, flag_at, push_flag, u64_at};
use kt_tuple::{Kind, MAX_CHARACTERS, Place, Str, Value};
use std::alloc::AllocError;

/// Appends the value's code, and the eight bytes of an int, the length and characters of a str or the byte of a bool.
pub(crate) fn push_value(out: &mut Vec<u8>, value: &Value) -> Result<(), AllocError>
    ensures ok { OnOk result (out.new.items ≡ out.old.items ++ value_bytes value.now) }
    ensures held { IsValue value.now }
{
    match value {
        Value::Int(number) => {
            let bytes = number.to_be_bytes();
            out.push(INT)?;
            out.extend_from_slice(&bytes)
        }
        Value::Str(string) => {
            let characters = string.as_bytes();
            out.push(STR)?;
            out.push(characters.len() as u8)?;
            out.extend_from_slice(characters)
        }
        Value::Bool(truth) => {
            out.push(BOOL)?;
            push_flag(out, *truth)
        }
    }
}

/// Appends the bytes of an actual's value, or the code of a formal.
pub(crate) fn push_place(out: &mut Vec<u8>, place: &Place) -> Result<(), AllocError>
    ensures ok { OnOk result (out.new.items ≡ out.old.items ++ place_bytes place.now) }
    ensures held { IsPlace place.now }
{
    match place {
        Place::Actual(value) => push_value(out, value),
        Place::Formal(Kind::Int) => Ok(out.push(INT_FORMAL)?),
        Place::Formal(Kind::Str) => Ok(out.push(STR_FORMAL)?),
        Place::Formal(Kind::Bool) => Ok(out.push(BOOL_FORMAL)?),
    }
}

/// A value, and the bytes behind it.
#[tactic(auto, unfolding(crate::specs::Value::value_at))]
pub(crate) fn value_at(bytes: &[u8]) -> Result<(Value, &[u8]), CkptError>
    ensures { Gives (λ x. (x.0, x.1.now)) result (value_at bytes.now) }
{
    let (code, rest) = byte_at(bytes)?;
    value_behind(code, rest)
}

/// A value behind its code.
#[tactic(auto, unfolding(crate::specs::Value::value_behind))]
fn value_behind(code: u8, bytes: &[u8]) -> Result<(Value, &[u8]), CkptError>
    ensures { Gives (λ x. (x.0, x.1.now)) result (value_behind code bytes.now) }
{
    match code {
        INT => int_at(bytes),
        STR => str_at(bytes),
        BOOL => bool_at(bytes),
        _ => Err(CkptError::Field),
    }
}

#[tactic(auto, unfolding(crate::specs::Value::int_at))]
fn int_at(bytes: &[u8]) -> Result<(Value, &[u8]), CkptError>
    ensures { Gives (λ x. (x.0, x.1.now)) result (int_at bytes.now) }
{
    let (number, rest) = u64_at(bytes)?;
    Ok((Value::Int(number.cast_signed()), rest))
}

#[tactic(auto, unfolding(crate::specs::Value::str_at))]
fn str_at(bytes: &[u8]) -> Result<(Value, &[u8]), CkptError>
    ensures { Gives (λ x. (x.0, x.1.now)) result (str_at bytes.now) }
{
    let (len, rest) = byte_within(0, MAX_CHARACTERS as u8, bytes)?;
    // The characters are one field: that there are too few is told before one that is not printable.
    let (characters, rest) = bytes_at(len as usize, rest)?;
    match Str::new(characters) {
        Some(string) => Ok((Value::Str(string), rest)),
        None => Err(CkptError::Field),
    }
}

#[tactic(auto, unfolding(crate::specs::Value::bool_at))]
fn bool_at(bytes: &[u8]) -> Result<(Value, &[u8]), CkptError>
    ensures { Gives (λ x. (x.0, x.1.now)) result (bool_at bytes.now) }
{
    let (truth, rest) = flag_at(bytes)?;
    Ok((Value::Bool(truth), rest))
}

/// A place, and the bytes behind it.
#[tactic(auto, unfolding(crate::specs::Value::place_at))]
pub(crate) fn place_at(bytes: &[u8]) -> Result<(Place, &[u8]), CkptError>
    ensures { Gives (λ x. (x.0, x.1.now)) result (place_at bytes.now) }
{
    let (code, rest) = byte_at(bytes)?;
    place_behind(code, rest)
}

/// A place behind its code.
#[tactic(auto, unfolding(crate::specs::Value::place_behind))]
fn place_behind(code: u8, bytes: &[u8]) -> Result<(Place, &[u8]), CkptError>
    ensures { Gives (λ x. (x.0, x.1.now)) result (place_behind code bytes.now) }
{
    match code {
        INT_FORMAL => Ok((Place::Formal(Kind::Int), bytes)),
        STR_FORMAL => Ok((Place::Formal(Kind::Str), bytes)),
        BOOL_FORMAL => Ok((Place::Formal(Kind::Bool), bytes)),
        _ => {
            let (value, rest) = value_behind(code, bytes)?;
            Ok((Place::Actual(value), rest))
        }
    }
}
