//! What tuples are grouped by.
//! Cited by groups.rt, index.rt, search.rt.

ghost use Rattle.std.specs.Prelude.{◌≡◌, is_some};
ghost use Rattle.kt_space.specs.auxiliary.Grouping.{first_key, kinds_key, template_key};

use kt_tuple::{Place, Signature, Template, Tuple, Value};
use std::hash::{Hash, Hasher};

/// A signature, and a first value or none.
#[derive(Debug, Drop)]
pub(crate) struct Key {
    signature: Signature,
    first: Option<Value>,
}

impl Key {
    /// The key of the kinds of the tuple, without a first value.
    pub(crate) fn of_kinds(tuple: &Tuple) -> Key
        ensures { result ≡ kinds_key tuple.now }
    {
        Key {
            signature: tuple.signature(),
            first: None,
        }
    }

    /// The kinds of the tuple and its first value.
    pub(crate) fn of_first(tuple: &Tuple) -> Key
        ensures { result ≡ first_key tuple.now }
    {
        Key {
            signature: tuple.signature(),
            first: tuple.values().first().map(|value| value.copy()),
        }
    }

    /// The kinds of the template and, where its first place is an actual, that value.
    pub(crate) fn of_template(template: &Template) -> Key
        ensures { result ≡ template_key template.now }
    {
        let first = match template.places().first() {
            Some(Place::Actual(value)) => Some(value.copy()),
            _ => None,
        };
        Key {
            signature: template.signature(),
            first,
        }
    }

    /// Whether a first value belongs to it: then it is looked up by kinds and first value, else by kinds alone.
    pub(crate) fn has_first(&self) -> bool
        ensures { result ≡ is_some self.now.first }
    {
        self.first.is_some()
    }
}

impl PartialEq for Key {
    ghost use Rattle.std.specs.Cmp.{partial_equiv_from_equiv};
    ghost use Rattle.kt_tuple.specs.Equality.{equivalence_from_decides};
    ghost use Rattle.kt_space.specs.auxiliary.Grouping.{key_eq, key_eq_decides};

    ghost eq = { key_eq };

    ghost laws = { partial_equiv_from_equiv (equivalence_from_decides key_eq key_eq_decides) };

    fn eq(&self, other: &Key) -> bool {
        self.signature == other.signature && self.first == other.first
    }
}

impl Eq for Key {
    ghost use Rattle.kt_tuple.specs.Equality.{equivalence_from_decides};
    ghost use Rattle.kt_space.specs.auxiliary.Grouping.{key_eq, key_eq_decides};

    ghost laws = { equivalence_from_decides key_eq key_eq_decides };
}

impl Hash for Key {
    ghost use Rattle.std.proofs.Common.{ap};
    ghost use Rattle.kt_space.specs.auxiliary.Grouping.{key_eq_decides};
    ghost use Rattle.kt_space.specs.auxiliary.Hashing.{key_input};

    ghost hash_input = { key_input };

    ghost respects_eq = { λ a b e. ap key_input ((key_eq_decides a b).0 e) };

    fn hash<H: Hasher>(&self, state: &mut H) {
        self.signature.hash(state);
        match &self.first {
            None => {}
            Some(Value::Int(n)) => n.hash(state),
            Some(Value::Str(s)) => s.as_bytes().hash(state),
            Some(Value::Bool(b)) => b.hash(state),
        }
    }
}
