//! That `==` is equality, said once for all types.
//! Cited by other crates; whoever calls the trait `Equality`.

ghost use Rattle.std.specs.Prelude.{◌≡◌};
ghost use Rattle.std.specs.Bool.{Decides};
ghost use Rattle.std.proofs.Common.{rules};
ghost use Rattle.std.specs.Cmp.Rules.{comparing};
ghost use Rattle.kt_tuple.specs.Equality.{decides_as};

use crate::node::NodeId;
use crate::op::{Answer, Op};
use crate::service::Service;
use crate::signature::Signature;
use crate::string::Str;
use crate::template::{Place, Template};
use crate::tuple::Tuple;
use crate::value::{Kind, Value};

/// A type whose `==` is equality: it answers true exactly where both are one. This one law serves all types: no method
/// `equals` stands beside `==`, and a derived `==` that leaves a field out is refused (docs/DECISIONS.md#values).
pub trait Equality: Eq {
    ghost is_equality: { (a b : Self) → Decides (Self.PartialEq.eq a b) (a ≡ b) };
}

impl Equality for NodeId {
    ghost use Rattle.kt_tuple.specs.Node.{node_eq_decides};

    ghost is_equality = { decides_as node_eq_decides (λ a b. Prim.search (comparing, rules)) };
}

impl Equality for Str {
    ghost use Rattle.kt_tuple.specs.Equality.{text_eq_decides};

    ghost is_equality = { text_eq_decides };
}

impl Equality for Kind {
    ghost use Rattle.kt_tuple.specs.Equality.{kind_eq_decides};

    ghost is_equality = { decides_as kind_eq_decides (λ a b. Prim.search (comparing, rules)) };
}

impl Equality for Value {
    ghost use Rattle.kt_tuple.specs.Equality.{value_eq_decides};

    ghost is_equality = { decides_as value_eq_decides (λ a b. Prim.search (comparing, rules)) };
}

impl Equality for Tuple {
    ghost use Rattle.kt_tuple.specs.Op.{tuple_eq_decides};

    ghost is_equality = { tuple_eq_decides };
}

impl Equality for Place {
    ghost use Rattle.kt_tuple.specs.Matching.{place_eq_decides};

    ghost is_equality = { decides_as place_eq_decides (λ a b. Prim.search (comparing, rules)) };
}

impl Equality for Template {
    ghost use Rattle.kt_tuple.specs.Op.{template_eq_decides};

    ghost is_equality = { template_eq_decides };
}

impl Equality for Op {
    ghost use Rattle.kt_tuple.specs.Op.{op_eq_decides};

    ghost is_equality = { op_eq_decides };
}

impl Equality for Answer {
    ghost use Rattle.kt_tuple.specs.Op.{answer_eq_decides};

    ghost is_equality = { answer_eq_decides };
}

impl Equality for Service {
    ghost use Rattle.kt_tuple.specs.Op.{service_eq_decides};

    ghost is_equality = { decides_as service_eq_decides (λ a b. Prim.search (comparing, rules)) };
}

impl Equality for Signature {
    ghost use Rattle.std.specs.Cmp.{unsigned_Decides};

    ghost is_equality = { unsigned_Decides };
}
