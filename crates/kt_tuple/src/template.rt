//! Templates, and which tuples they match.
//! Cited by equality.rt, item.rt, op.rt, parsing.rt, reading.rt, writing.rt; other crates.

ghost use Rattle.std.specs.Prelude.{◌≡◌, ◌↔◌, IsTrue, IsSome, IfSome, IfOk, map};
ghost use Rattle.kt_tuple.specs.declared.template.Place.TheVariants.{Actual};
ghost use Rattle.kt_tuple.specs.Matching.{HasArity, Admits, Matches, MatchesOnly, admits, matches};
ghost use Rattle.kt_tuple.specs.Signature.{kinds_of_places, signature_of};

use crate::signature::Signature;
use crate::tuple::{MAX_PLACES, Tuple};
use crate::value::{Kind, Value};
use std::alloc::{AllocError, Global};
use std::marker::Model;
use std::sync::Arc;

/// One place of a template.
#[derive(Debug, PartialEq, Eq, Drop)]
pub enum Place {
    /// Only this value is admitted.
    Actual(Value),
    /// Any value of this kind is admitted.
    Formal(Kind),
}

impl Place {
    ghost use Rattle.kt_tuple.specs.Signature.{kind_of_place};

    /// The kind of the values that it admits.
    pub fn kind(&self) -> Kind
        ensures { result ≡ kind_of_place self.now }
    {
        match self {
            Place::Actual(value) => value.kind(),
            Place::Formal(kind) => *kind,
        }
    }

    /// Whether the value may stand here: the actual's value itself, or any of the formal's kind.
    pub fn admits(&self, value: &Value) -> bool
        ensures meaning { IsTrue result ↔ Admits self.now value.now }
        ensures decided { result ≡ admits self.now value.now }
    {
        match (self, value) {
            // Two ints are told apart by one comparison, with no look at how strings are compared.
            (Place::Actual(Value::Int(wanted)), Value::Int(found)) => wanted == found,
            (Place::Actual(actual), _) => actual == value,
            (Place::Formal(kind), _) => *kind == value.kind(),
        }
    }

    /// An equal place. It takes no memory, so it is not refused.
    pub fn copy(&self) -> Place
        ensures { result ≡ self.now }
    {
        match self {
            Place::Actual(value) => Place::Actual(value.copy()),
            Place::Formal(kind) => Place::Formal(*kind),
        }
    }
}

/// An ordered list of 1 to `MAX_PLACES` places (Gelernter, "Generative Communication in Linda").
#[derive(Debug, Drop)]
pub struct Template {
    places: Arc<Vec<Place>, Global>,
}

impl Model for Template {
    ghost use Rattle.std.specs.Arc.{arc_value};
    ghost use Rattle.std.specs.Prelude.{List};
    ghost use Rattle.kt_tuple.specs.declared.template.Place.{Place};
    ghost use Rattle.kt_tuple.specs.Matching.{HasArity};

    ghost Value = { List Place };

    ghost view = { λ t. (arc_value t.places).items };

    ghost invariant = { λ t. HasArity (arc_value t.places).items };
}

impl Template {
    ghost use Rattle.kt_tuple.specs.Signature.{kinds_of_places, signature_of};

    /// The template of these places, or `None` where there are none or more than `MAX_PLACES`. `AllocError` where
    /// memory is wanting for the block that its copies share.
    pub fn new(alloc: Global, places: Vec<Place>) -> Result<Option<Template>, AllocError>
        ensures within { IfOk result (λ o. IsSome o ↔ HasArity places.items) }
        ensures value { IfOk result (λ o. IfSome o (λ t. t ≡ places.items)) }
    {
        if 1 <= places.len() && places.len() <= MAX_PLACES {
            let places = Arc::new(alloc, places)?;
            Ok(Some(Template { places }))
        } else {
            Ok(None)
        }
    }

    /// The template that this tuple alone matches: its values as actuals. `AllocError` where memory is wanting.
    pub fn of(alloc: Global, tuple: &Tuple) -> Result<Template, AllocError>
        ensures value { IfOk result (λ t. t ≡ map Actual tuple.now) }
        ensures alone { IfOk result (λ t. MatchesOnly t tuple.now) }
    {
        Ok(Template {
            places: Arc::new(alloc, actuals(alloc, tuple.values())?)?,
        })
    }

    /// The places, from left to right: 1 to `MAX_PLACES` of them.
    pub fn places(&self) -> &[Place]
        ensures value { result.now ≡ self.now }
        ensures arity { HasArity self.now }
    {
        &self.places
    }

    /// Whether the tuple has as many values as there are places, each admitted by its place. `meaning` says so as a
    /// relation, for a reader; `decided` as a test that computes, for the contracts above.
    pub fn matches(&self, tuple: &Tuple) -> bool
        ensures meaning { IsTrue result ↔ Matches self.now tuple.now }
        ensures decided { result ≡ matches self.now tuple.now }
    {
        all_admit(self.places(), tuple.values())
    }

    /// An equal template, which shares the places with this one: it takes no memory.
    pub fn copy(&self, _alloc: Global) -> Result<Template, AllocError>
        ensures { IfOk result (λ t. t ≡ self.now) }
    {
        Ok(Template {
            places: Arc::try_clone(&self.places)?,
        })
    }

    /// The kinds of its places, as one number.
    pub fn signature(&self) -> Signature
        ensures { result ≡ signature_of (kinds_of_places self.now) }
    {
        signature_of(self.places())
    }
}

/// The kinds of these places, as one number.
fn signature_of(places: &[Place]) -> Signature
    requires { HasArity places.now }
    ensures { result ≡ signature_of (kinds_of_places places.now) }
{
    let mut signature = Signature::empty();
    for place in places {
        signature = signature.then(place.kind());
    }
    signature
}

/// Whether each place admits the value beside it, and none is left over. The last place is compared before all others:
/// tuples mostly begin alike, and so the places behind tell them apart sooner.
fn all_admit(places: &[Place], values: &[Value]) -> bool
    ensures meaning { IsTrue result ↔ Matches places.now values.now }
    ensures decided { result ≡ matches places.now values.now }
{
    let count = places.len();
    if count != values.len() {
        return false;
    }
    if count == 0 {
        return true;
    }
    let last = count - 1;
    places[last].admits(&values[last]) && each_admits(places, values)
}

/// The same, place by place from the last. It is a call of its own, so that a search that compares the last places of
/// many tuples stays a short loop.
#[inline(never)]
fn each_admits(places: &[Place], values: &[Value]) -> bool
    ensures { result ≡ matches places.now values.now }
{
    if places.len() != values.len() {
        return false;
    }
    let mut left = places.len();
    while left > 0 {
        left -= 1;
        if !places[left].admits(&values[left]) {
            return false;
        }
    }
    true
}

fn actuals(alloc: Global, values: &[Value]) -> Result<Vec<Place>, AllocError>
    ensures { IfOk result (λ places. places.items ≡ map Actual values.now) }
{
    let mut places = Vec::with_capacity(alloc, values.len())?;
    for value in values {
        places.push(Place::Actual(value.copy()))?;
    }
    Ok(places)
}

impl PartialEq for Template {
    ghost use Rattle.std.specs.Cmp.{partial_equiv_from_equiv};
    ghost use Rattle.std.specs.Cmp.Lexicographic.{pointwise, lists_equiv};
    ghost use Rattle.kt_tuple.specs.Equality.{equivalence_from_decides};
    ghost use Rattle.kt_tuple.specs.Matching.{place_eq, place_eq_decides};

    ghost eq = { λ a b. pointwise place_eq a b };

    ghost laws = { partial_equiv_from_equiv (lists_equiv (equivalence_from_decides place_eq place_eq_decides)) };

    fn eq(&self, other: &Template) -> bool {
        self.places() == other.places()
    }
}

impl Eq for Template {
    ghost use Rattle.std.specs.Cmp.Lexicographic.{lists_equiv};
    ghost use Rattle.kt_tuple.specs.Equality.{equivalence_from_decides};
    ghost use Rattle.kt_tuple.specs.Matching.{place_eq, place_eq_decides};

    ghost laws = { lists_equiv (equivalence_from_decides place_eq place_eq_decides) };
}
