//! The places of a command's tuple or template.
//! Cited by command.rt; other crates.

ghost use Rattle.std.specs.Prelude.{◌≡◌, ◌↔◌, IsSome, IfSome};
ghost use Rattle.kt_tuple.specs.Matching.{HasArity};

use kt_tuple::MAX_PLACES;
use std::marker::Model;

/// 1 to `MAX_PLACES` places of one sort, from left to right. They stand apart from the command, which so is small where
/// it is moved.
#[derive(Debug, Drop)]
pub struct Places<T> {
    places: Vec<T>,
}

impl<T> Model for Places<T> {
    ghost use Rattle.std.specs.Prelude.{List};
    ghost use Rattle.kt_tuple.specs.Matching.{HasArity};

    ghost Value = { List T };

    ghost view = { λ p. p.places.items };

    ghost invariant = { λ p. HasArity p.places.items };
}

impl<T: Drop> Places<T> {
    /// These places, or `None` where there are none or more than `MAX_PLACES`. It takes no memory.
    pub fn new(places: Vec<T>) -> Option<Places<T>>
        ensures within { IsSome result ↔ HasArity places.items }
        ensures value { IfSome result (λ p. p ≡ places.items) }
    {
        if 1 <= places.len() && places.len() <= MAX_PLACES {
            Some(Places { places })
        } else {
            None
        }
    }

    /// The places, from left to right: 1 to `MAX_PLACES` of them.
    pub fn as_slice(&self) -> &[T]
        ensures value { result.now ≡ self.now }
        ensures arity { HasArity self.now }
    {
        &self.places
    }
}
