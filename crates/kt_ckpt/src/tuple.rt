//! Tuples and templates in bytes.
//! Cited by op.rt, shard.rt, worker.rt; whoever calls the trait `Listed`.

ghost use Rattle.std.specs.Prelude.{◌≡◌, ◌≤◌, ◌++◌, All, length, OnOk, IfOk};
ghost use Rattle.std.specs.List.{flat_map};
ghost use Rattle.kt_tuple.specs.Valid.{IsValue, IsPlace};
ghost use Rattle.kt_ckpt.specs.Reading.{Gives, byte_within};
ghost use Rattle.kt_ckpt.specs.Tuple.{IsTuple, IsTemplate, tuple_bytes, template_bytes, tuple_at, template_at};
ghost use Rattle.kt_ckpt.specs.Value.{value_bytes, place_bytes};

use crate::error::CkptError;
use crate::list::{Listed, list_at};
use crate::numbers::byte_within;
use crate::value::{place_at, push_place, push_value, value_at};
use kt_tuple::{MAX_PLACES, Place, Template, Tuple, Value};
use std::alloc::{AllocError, Global};

/// Appends how many values there are, in one byte, and the values.
pub(crate) fn push_tuple(out: &mut Vec<u8>, tuple: &Tuple) -> Result<(), AllocError>
    ensures ok { OnOk result (out.new.items ≡ out.old.items ++ tuple_bytes tuple.now) }
    ensures held { OnOk result (IsTuple tuple.now) }
{
    let values = tuple.values();
    out.push(values.len() as u8)?;
    push_values(out, values)
}

/// Appends values, one behind the other, without their count.
pub(crate) fn push_values(out: &mut Vec<u8>, values: &[Value]) -> Result<(), AllocError>
    ensures ok { OnOk result (out.new.items ≡ out.old.items ++ flat_map value_bytes values.now) }
    ensures held { OnOk result (All IsValue values.now) }
{
    for value in values {
        push_value(out, value)?;
    }
    Ok(())
}

/// Appends how many places there are, in one byte, and the places.
pub(crate) fn push_template(out: &mut Vec<u8>, template: &Template) -> Result<(), AllocError>
    ensures ok { OnOk result (out.new.items ≡ out.old.items ++ template_bytes template.now) }
    ensures held { OnOk result (IsTemplate template.now) }
{
    let places = template.places();
    out.push(places.len() as u8)?;
    push_places(out, places)
}

fn push_places(out: &mut Vec<u8>, places: &[Place]) -> Result<(), AllocError>
    ensures ok { OnOk result (out.new.items ≡ out.old.items ++ flat_map place_bytes places.now) }
    ensures held { OnOk result (All IsPlace places.now) }
{
    for place in places {
        push_place(out, place)?;
    }
    Ok(())
}

impl Listed for Value {
    ghost use Rattle.kt_ckpt.specs.Value.{value_at};

    ghost reader = { value_at };

    fn read(_alloc: Global, bytes: &[u8]) -> Result<(Value, &[u8]), CkptError> {
        value_at(bytes)
    }
}

impl Listed for Place {
    ghost use Rattle.kt_ckpt.specs.Value.{place_at};

    ghost reader = { place_at };

    fn read(_alloc: Global, bytes: &[u8]) -> Result<(Place, &[u8]), CkptError> {
        place_at(bytes)
    }
}

impl Listed for Tuple {
    ghost use Rattle.kt_ckpt.specs.Tuple.{tuple_at};

    ghost reader = { tuple_at };

    fn read(alloc: Global, bytes: &[u8]) -> Result<(Tuple, &[u8]), CkptError> {
        tuple_at(alloc, bytes)
    }
}

/// How many places there are, from 1 to `MAX_PLACES`, and the bytes behind their count.
fn place_count_at(bytes: &[u8]) -> Result<(u8, &[u8]), CkptError>
    ensures value { Gives (λ x. (x.0, x.1.now)) result (byte_within 1 MAX_PLACES bytes.now) }
    ensures within { IfOk result (λ x. (1 ≤ x.0) × (x.0 ≤ MAX_PLACES)) }
{
    byte_within(1, MAX_PLACES as u8, bytes)
}

/// A tuple, and the bytes behind it.
#[tactic(auto, unfolding(crate::specs::Tuple::tuple_at))]
pub(crate) fn tuple_at(alloc: Global, bytes: &[u8]) -> Result<(Tuple, &[u8]), CkptError>
    ensures { Gives (λ x. (x.0, x.1.now)) result (tuple_at bytes.now) }
{
    let (count, rest) = place_count_at(bytes)?;
    let (values, rest) = list_at(alloc, u32::from(count), rest)?;
    // Not refused here: by their count there are as many values as a tuple may have.
    let tuple = Tuple::new(alloc, values)?.ok_or(CkptError::Field)?;
    Ok((tuple, rest))
}

/// A template, and the bytes behind it.
#[tactic(auto, unfolding(crate::specs::Tuple::template_at))]
pub(crate) fn template_at(alloc: Global, bytes: &[u8]) -> Result<(Template, &[u8]), CkptError>
    ensures { Gives (λ x. (x.0, x.1.now)) result (template_at bytes.now) }
{
    let (count, rest) = place_count_at(bytes)?;
    let (places, rest) = list_at(alloc, u32::from(count), rest)?;
    // Not refused here: by their count there are as many places as a template may have.
    let template = Template::new(alloc, places)?.ok_or(CkptError::Field)?;
    Ok((template, rest))
}
