//! Strings: short texts of printable characters.
//! Cited by equality.rt, reading.rt, value.rt, writing.rt; other crates.

ghost use Rattle.std.specs.Prelude.{◌≡◌, ◌↔◌, ℕ, List, ◌≤◌, length, IsSome, IfSome, IsTrue};
ghost use Rattle.kt_tuple.specs.Text.{IsText, ArePrintable};

use arrayvec::ArrayVec;
use std::marker::Model;

/// The most characters that a string has, each of one byte.
pub const MAX_CHARACTERS: usize = 64;

/// A string: 0 to `MAX_CHARACTERS` printable ASCII characters, each a byte from 32 to 126. Its room is fixed and takes
/// no memory, so that a line can be judged whole before anything of it is kept (docs/DECISIONS.md#values).
#[derive(Debug, Drop)]
pub struct Str {
    characters: ArrayVec<u8, MAX_CHARACTERS>,
}

impl Model for Str {
    ghost Value = { List ℕ };

    ghost view = { λ s. s.characters.items };

    ghost invariant = { λ s. IsText s.characters.items };
}

impl Str {
    /// The string of these characters, or `None` where they are more than `MAX_CHARACTERS` or one is not printable.
    pub fn new(characters: &[u8]) -> Option<Str>
        ensures within { IsSome result ↔ IsText characters.now }
        ensures value { IfSome result (λ s. s ≡ characters.now) }
    {
        if !are_printable(characters) {
            return None;
        }
        let mut held = ArrayVec::new();
        match held.try_extend_from_slice(characters) {
            Ok(()) => Some(Str { characters: held }),
            Err(_) => None,
        }
    }

    /// The characters, one byte each: 0 to `MAX_CHARACTERS` of them.
    pub fn as_bytes(&self) -> &[u8]
        ensures value { result.now ≡ self.now }
        ensures text { IsText self.now }
    {
        &self.characters
    }

    /// An equal string. It takes no memory, so it is not refused.
    pub fn copy(&self) -> Str
        ensures { result ≡ self.now }
    {
        let mut characters = ArrayVec::new();
        // Both have room for `MAX_CHARACTERS` characters, so all of them fit.
        let _ = characters.try_extend_from_slice(&self.characters);
        Str { characters }
    }
}

impl PartialEq for Str {
    ghost use Rattle.std.specs.Prelude.{nat_eq};
    ghost use Rattle.std.specs.Cmp.Lexicographic.{pointwise};
    ghost use Rattle.std.proofs.Common.{rules};
    ghost use Rattle.std.specs.Cmp.Rules.{comparing};

    ghost eq = { λ a b. pointwise nat_eq a b };

    ghost laws = { Prim.search (comparing, rules) };

    fn eq(&self, other: &Str) -> bool {
        self.characters.as_slice() == other.characters.as_slice()
    }
}

impl Eq for Str {
    ghost use Rattle.std.proofs.Common.{rules};
    ghost use Rattle.std.specs.Cmp.Rules.{comparing};

    ghost laws = { Prim.search (comparing, rules) };
}

fn are_printable(characters: &[u8]) -> bool
    ensures { IsTrue result ↔ ArePrintable characters.now }
{
    characters.iter().all(|c| 32 <= *c && *c <= 126)
}
