//! That `==` of notes, acts and what was done is equality, by the law of `kt_tuple::Equality`.
//! Cited by whoever calls the trait `Equality`.

ghost use Rattle.std.proofs.Common.{rules};
ghost use Rattle.std.specs.Cmp.Rules.{comparing};
ghost use Rattle.kt_tuple.specs.Equality.{decides_as};
ghost use Rattle.kt_history.specs.Equality.{act_eq_decides, note_eq_decides, what_eq_decides};

use crate::note::{Act, Note, What};
use kt_tuple::Equality;

impl Equality for What {
    ghost is_equality = { decides_as what_eq_decides (λ a b. Prim.search (comparing, rules)) };
}

impl Equality for Act {
    ghost is_equality = { decides_as act_eq_decides (λ a b. Prim.search (comparing, rules)) };
}

impl Equality for Note {
    ghost is_equality = { decides_as note_eq_decides (λ a b. Prim.search (comparing, rules)) };
}
