//! The tuples of a shard that is made again answer as they did.
//! Cited by shard.rt, suits.rt.

ghost use Rattle.std.specs.Prelude.{◌≡◌, ◌↔◌, ◌∷◌, IfOk, IsTrue, List, Contains, IsPermutation};
ghost use Rattle.kt_tuple.specs.declared.tuple.Tuple.{Tuple};
ghost use Rattle.kt_tuple.specs.Space.{FindsNone, Reads, SpaceStep, Withdraws};

use kt_space::Bag;
use kt_tuple::{Answer, Op, Template, Tuple};
use std::alloc::{AllocError, Global};

/// Has the bag answer the operation so, and says whether a tuple space may.
pub(crate) fn answer(
    alloc: Global,
    bag: &mut Bag,
    op: &Op,
    answer: &Answer,
) -> Result<bool, AllocError>
    ensures step { IfOk result (λ may. IsTrue may
        → SpaceStep bag.old.tuples op.now answer.now bag.new.tuples) }
    ensures all { (new : List Tuple) → SpaceStep bag.old.tuples op.now answer.now new
        → IfOk result (λ may. IsTrue may) }
{
    match (op, answer) {
        (Op::Out(tuple), Answer::Done) => put(alloc, bag, tuple),
        (Op::In(template), Answer::Got(tuple)) => withdraw(alloc, bag, template, tuple),
        (Op::Inp(template), Answer::Got(tuple)) => withdraw(alloc, bag, template, tuple),
        (Op::Rd(template), Answer::Got(tuple)) => reads(alloc, bag, template, tuple),
        (Op::Rdp(template), Answer::Got(tuple)) => reads(alloc, bag, template, tuple),
        (Op::Inp(template), Answer::None) => Ok(finds_none(bag, template)),
        (Op::Rdp(template), Answer::None) => Ok(finds_none(bag, template)),
        _ => Ok(false),
    }
}

fn put(alloc: Global, bag: &mut Bag, tuple: &Tuple) -> Result<bool, AllocError>
    ensures put { IfOk result (λ may. IsPermutation (tuple.now ∷ bag.old.tuples) bag.new.tuples) }
    ensures always { IfOk result (λ may. IsTrue may) }
{
    let copy = tuple.copy(alloc)?;
    bag.reserve()?;
    bag.put_reserved(copy);
    Ok(true)
}

/// Takes the tuple out, if the template admits it and there is one like it.
fn withdraw(
    alloc: Global,
    bag: &mut Bag,
    template: &Template,
    tuple: &Tuple,
) -> Result<bool, AllocError>
    ensures step { IfOk result (λ may. IsTrue may
        → Withdraws template.now bag.old.tuples tuple.now bag.new.tuples) }
    ensures all { (new : List Tuple) → Withdraws template.now bag.old.tuples tuple.now new
        → IfOk result (λ may. IsTrue may) }
{
    if !template.matches(tuple) {
        return Ok(false);
    }
    take_equal(alloc, bag, tuple)
}

/// Whether the template admits the tuple, and there is one like it.
fn reads(alloc: Global, bag: &Bag, template: &Template, tuple: &Tuple) -> Result<bool, AllocError>
    ensures step { IfOk result (λ may. IsTrue may
        → Reads template.now bag.now.tuples tuple.now bag.now.tuples) }
    ensures all { (new : List Tuple) → Reads template.now bag.now.tuples tuple.now new
        → IfOk result (λ may. IsTrue may) }
{
    if !template.matches(tuple) {
        return Ok(false);
    }
    let alone = Template::of(alloc, tuple)?;
    Ok(bag.nth_match(&alone, 0).is_some())
}

/// Whether no tuple matches.
fn finds_none(bag: &Bag, template: &Template) -> bool
    ensures step { IsTrue result → FindsNone template.now bag.now.tuples bag.now.tuples }
    ensures all { (new : List Tuple) → FindsNone template.now bag.now.tuples new → IsTrue result }
{
    bag.nth_match(template, 0).is_none()
}

/// Takes out the first tuple that equals this one, and says whether there was one.
pub(crate) fn take_equal(alloc: Global, bag: &mut Bag, tuple: &Tuple) -> Result<bool, AllocError>
    ensures there { IfOk result (λ taken. IsTrue taken ↔ Contains bag.old.tuples tuple.now) }
    ensures left { IfOk result (λ taken. IsTrue taken
        → IsPermutation bag.old.tuples (tuple.now ∷ bag.new.tuples)) }
{
    let alone = Template::of(alloc, tuple)?;
    Ok(bag.take_nth(&alone, 0).is_some())
}
