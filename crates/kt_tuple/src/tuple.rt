//! Tuples of values.
//! Cited by copying.rt, equality.rt, op.rt, parsing.rt, template.rt, writing.rt; other crates.

ghost use Rattle.std.specs.Prelude.{◌≡◌, ◌↔◌, IsTrue, IsSome, IfSome, IfOk};
ghost use Rattle.kt_tuple.specs.Matching.{HasArity};
ghost use Rattle.kt_tuple.specs.Signature.{kinds_of, signature_of};

use crate::signature::Signature;
use crate::value::Value;
use std::alloc::{AllocError, Global};
use std::marker::Model;
use std::sync::Arc;

/// The most places that a tuple or a template has.
pub const MAX_PLACES: usize = 16;

/// An ordered list of 1 to `MAX_PLACES` values (Gelernter, "Generative Communication in Linda").
#[derive(Debug, Drop)]
pub struct Tuple {
    values: Arc<Vec<Value>, Global>,
}

impl Model for Tuple {
    ghost use Rattle.std.specs.Arc.{arc_value};
    ghost use Rattle.std.specs.Prelude.{List};
    ghost use Rattle.kt_tuple.specs.declared.value.Value.{Value as Datum};
    ghost use Rattle.kt_tuple.specs.Matching.{HasArity};

    ghost Value = { List Datum };

    ghost view = { λ t. (arc_value t.values).items };

    ghost invariant = { λ t. HasArity (arc_value t.values).items };
}

impl Tuple {
    ghost use Rattle.kt_tuple.specs.Signature.{kinds_of, signature_of};

    /// The tuple of these values, or `None` where there are none or more than `MAX_PLACES`. `AllocError` where memory
    /// is wanting for the block that its copies share.
    pub fn new(alloc: Global, values: Vec<Value>) -> Result<Option<Tuple>, AllocError>
        ensures within { IfOk result (λ o. IsSome o ↔ HasArity values.items) }
        ensures value { IfOk result (λ o. IfSome o (λ t. t ≡ values.items)) }
    {
        if 1 <= values.len() && values.len() <= MAX_PLACES {
            let values = Arc::new(alloc, values)?;
            Ok(Some(Tuple { values }))
        } else {
            Ok(None)
        }
    }

    /// The values, from left to right: 1 to `MAX_PLACES` of them.
    pub fn values(&self) -> &[Value]
        ensures value { result.now ≡ self.now }
        ensures arity { HasArity self.now }
    {
        &self.values
    }

    /// An equal tuple, which shares the values with this one: it takes no memory.
    pub fn copy(&self, _alloc: Global) -> Result<Tuple, AllocError>
        ensures { IfOk result (λ t. t ≡ self.now) }
    {
        Ok(Tuple {
            values: Arc::try_clone(&self.values)?,
        })
    }

    /// The kinds of its values, as one number.
    pub fn signature(&self) -> Signature
        ensures { result ≡ signature_of (kinds_of self.now) }
    {
        signature_of(self.values())
    }
}

/// The kinds of these values, as one number.
fn signature_of(values: &[Value]) -> Signature
    requires { HasArity values.now }
    ensures { result ≡ signature_of (kinds_of values.now) }
{
    let mut signature = Signature::empty();
    for value in values {
        signature = signature.then(value.kind());
    }
    signature
}

impl PartialEq for Tuple {
    ghost use Rattle.std.specs.Cmp.{partial_equiv_from_equiv};
    ghost use Rattle.std.specs.Cmp.Lexicographic.{pointwise, lists_equiv};
    ghost use Rattle.kt_tuple.specs.Equality.{value_eq, value_eq_decides, equivalence_from_decides};

    ghost eq = { λ a b. pointwise value_eq a b };

    ghost laws = { partial_equiv_from_equiv (lists_equiv (equivalence_from_decides value_eq value_eq_decides)) };

    fn eq(&self, other: &Tuple) -> bool {
        self.values() == other.values()
    }
}

impl Eq for Tuple {
    ghost use Rattle.std.specs.Cmp.Lexicographic.{lists_equiv};
    ghost use Rattle.kt_tuple.specs.Equality.{value_eq, value_eq_decides, equivalence_from_decides};

    ghost laws = { lists_equiv (equivalence_from_decides value_eq value_eq_decides) };
}
