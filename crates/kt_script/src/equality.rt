//! That `==` of names, actuals and slots is equality, by the law of `kt_tuple::Equality`.
//! Cited by whoever calls the trait `Equality`.

ghost use Rattle.std.proofs.Common.{rules};
ghost use Rattle.std.specs.Cmp.Rules.{comparing};
ghost use Rattle.kt_tuple.specs.Equality.{decides_as, text_eq_decides};
ghost use Rattle.kt_script.specs.Equality.{actual_eq_decides, slot_eq_decides};

use crate::command::{Actual, Slot};
use crate::name::Name;
use kt_tuple::Equality;

impl Equality for Name {
    ghost is_equality = { text_eq_decides };
}

impl Equality for Actual {
    ghost is_equality = { decides_as actual_eq_decides (λ a b. Prim.search (comparing, rules)) };
}

impl Equality for Slot {
    ghost is_equality = { decides_as slot_eq_decides (λ a b. Prim.search (comparing, rules)) };
}
