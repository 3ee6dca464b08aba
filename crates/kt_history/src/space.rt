//! The tuples that services lead to.
//! Cited by other crates.

ghost use Rattle.std.specs.Prelude.{◌≡◌, ◌∷◌, Contains, IsPermutation, IfOk, OnOk};
ghost use Rattle.kt_tuple.specs.Space.{SpaceStep, IsSpaceRun};
ghost use Rattle.kt_history.specs.Run.{IsRun};
ghost use Rattle.kt_history.specs.auxiliary.Taking.{CanStep, IsThere, TakesOut};

use kt_space::Bag;
use kt_tuple::{Answer, Op, Service, Template, Tuple};
use std::alloc::{AllocError, Global};

/// The tuples to which services lead from the empty space, where they are one run of it. Of others each does what it
/// can: a tuple that is not there is not withdrawn. So a report is never refused for services that are no run, which
/// can be only after a store was not honest (docs/DECISIONS.md#the-report).
pub fn space_of(alloc: Global, services: &[Service]) -> Result<Bag, AllocError>
    ensures { IsRun services.now → IfOk result (λ bag. IsSpaceRun services.now bag.tuples) }
{
    let mut bag = Bag::new(alloc);
    for service in services {
        serve(alloc, &mut bag, service)?;
    }
    Ok(bag)
}

/// Adds what the service put, or takes out what it withdrew.
fn serve(alloc: Global, bag: &mut Bag, service: &Service) -> Result<(), AllocError>
    ensures { CanStep bag.old.tuples service.now.op service.now.answer
        → OnOk result (SpaceStep bag.old.tuples service.now.op service.now.answer bag.new.tuples) }
{
    match &service.op {
        Op::Out(tuple) => add(alloc, bag, tuple),
        Op::In(_) => take_out(alloc, bag, &service.answer),
        Op::Inp(_) => take_out(alloc, bag, &service.answer),
        Op::Rd(_) => Ok(()),
        Op::Rdp(_) => Ok(()),
    }
}

/// Adds a copy of the tuple.
fn add(alloc: Global, bag: &mut Bag, tuple: &Tuple) -> Result<(), AllocError>
    ensures { OnOk result (IsPermutation (tuple.now ∷ bag.old.tuples) bag.new.tuples) }
{
    bag.put(tuple.copy(alloc)?)?;
    Ok(())
}

/// Takes out the tuple that the answer names, if it names one.
fn take_out(alloc: Global, bag: &mut Bag, answer: &Answer) -> Result<(), AllocError>
    ensures { IsThere bag.old.tuples answer.now → OnOk result (TakesOut bag.old.tuples answer.now bag.new.tuples) }
{
    if let Answer::Got(tuple) = answer {
        withdraw(alloc, bag, tuple)?;
    }
    Ok(())
}

/// Takes out the first tuple that equals this one: the template of its values matches it alone.
fn withdraw(alloc: Global, bag: &mut Bag, tuple: &Tuple) -> Result<(), AllocError>
    ensures { Contains bag.old.tuples tuple.now
        → OnOk result (IsPermutation bag.old.tuples (tuple.now ∷ bag.new.tuples)) }
{
    let alone = Template::of(alloc, tuple)?;
    drop(bag.take_nth(&alone, 0));
    Ok(())
}
