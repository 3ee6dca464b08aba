//! The kinds of a list of places as one number, and the shard that is their home.
//! Cited by equality.rt, op.rt, template.rt, tuple.rt; other crates.

ghost use Rattle.std.specs.Prelude.{◌≡◌, ◌+◌, ◌*◌, ◌%◌, ◌≤◌, ◌<◌, ◌^◌};
ghost use Rattle.kt_tuple.specs.Signature.{code_of};

use crate::value::Kind;
use std::marker::Model;

/// The kinds of a list of at most `MAX_PLACES` places, as one number: two such lists have one number only where
/// they are one list (`numbers_tell_apart`).
#[derive(Clone, Copy, Debug, PartialEq, Eq, Hash)]
pub struct Signature {
    number: u64,
}

impl Model for Signature {
    ghost use Rattle.std.specs.Prelude.{ℕ};

    ghost Value = { ℕ };

    ghost view = { λ s. s.number };

    ghost inverse = { λ n. record { number = n } };
}

impl Signature {
    /// The signature of no places.
    pub(crate) fn empty() -> Signature
        ensures { result ≡ 0 }
    {
        Signature { number: 0 }
    }

    /// The signature of the places so far and one more of this kind.
    pub(crate) fn then(self, kind: Kind) -> Signature
        requires { 5 * self + 5 < 2 ^ 64 }
        ensures { result ≡ 5 * self + code_of kind }
    {
        let code = match kind {
            Kind::Int => 1,
            Kind::Str => 2,
            Kind::Bool => 3,
        };
        Signature {
            number: 5 * self.number + code,
        }
    }

    /// The signature as a plain number: 0 for no places, above 0 for any.
    pub fn number(self) -> u64
        ensures { result ≡ self }
    {
        self.number
    }

    /// Which of the shards, of which there must be one at least, holds the tuples of this signature, counted
    /// from 1.
    pub fn shard_of(self, shards: u8) -> u8
        requires { 1 ≤ shards }
        ensures { result ≡ self % shards + 1 }
    {
        (self.number % u64::from(shards)) as u8 + 1
    }
}
