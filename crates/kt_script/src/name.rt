//! The names of variables.
//! Cited by command.rt, equality.rt, meaning.rt, next.rt, rules.rt, script.rt, variables.rt, writing.rt; other
//!   crates.

ghost use Rattle.std.specs.Prelude.{◌≡◌, ◌↔◌, IsTrue, IsSome, IfSome};
ghost use Rattle.std.specs.List.{list_all};
ghost use Rattle.kt_script.specs.Name.{IsName, begins_with_letter, is_name, is_name_character, is_reserved};

use arrayvec::ArrayVec;
use std::hash::{Hash, Hasher};
use std::marker::Model;

/// The most characters that a name has, each of one byte.
pub const MAX_NAME: usize = 16;

/// What a variable is called: a letter a to z and up to 15 of a to z, 0 to 9 and `_`, and none of the words `int`,
/// `str`, `bool`, `true` and `false`. It is a type of its own beside `Str`, whose body is alike: what each may hold
/// differs, and so does its room (docs/DECISIONS.md#values).
#[derive(Debug, Drop)]
pub struct Name {
    characters: ArrayVec<u8, MAX_NAME>,
}

impl Model for Name {
    ghost use Rattle.std.specs.Prelude.{ℕ, List};
    ghost use Rattle.kt_script.specs.Name.{IsName};

    ghost Value = { List ℕ };

    ghost view = { λ n. n.characters.items };

    ghost invariant = { λ n. IsName n.characters.items };
}

impl Name {
    /// The name with these characters, or `None` where they are no name.
    pub fn new(characters: &[u8]) -> Option<Name>
        ensures within { IsSome result ↔ IsName characters.now }
        ensures value { IfSome result (λ n. n ≡ characters.now) }
    {
        if !is_name(characters) {
            return None;
        }
        let mut held = ArrayVec::new();
        match held.try_extend_from_slice(characters) {
            Ok(()) => Some(Name { characters: held }),
            Err(_) => None,
        }
    }

    /// The characters, one byte each: 1 to `MAX_NAME` of them.
    pub fn as_bytes(&self) -> &[u8]
        ensures value { result.now ≡ self.now }
        ensures name { IsName self.now }
    {
        &self.characters
    }

    /// An equal name. It takes no memory, so it is not refused.
    pub fn copy(&self) -> Name
        ensures { result ≡ self.now }
    {
        let mut characters = ArrayVec::new();
        // Both have room for `MAX_NAME` characters, so all of them fit.
        let _ = characters.try_extend_from_slice(&self.characters);
        Name { characters }
    }
}

/// Whether these characters are a name: the rule of `Name`, judged without making one.
pub fn is_name(word: &[u8]) -> bool
    ensures { result ≡ is_name word.now }
{
    begins_with_letter(word)
        && word.len() <= MAX_NAME
        && are_name_characters(word)
        && !is_reserved(word)
}

fn begins_with_letter(word: &[u8]) -> bool
    ensures { result ≡ begins_with_letter word.now }
{
    match word.first() {
        Some(c) => (b'a'..=b'z').contains(c),
        None => false,
    }
}

fn are_name_characters(word: &[u8]) -> bool
    ensures { result ≡ list_all is_name_character word.now }
{
    word.iter().all(|c| is_name_character(*c))
}

/// Whether a name may have this character behind its first: a to z, 0 to 9 or `_`.
pub fn is_name_character(c: u8) -> bool
    ensures { result ≡ is_name_character c }
{
    (b'a' <= c && c <= b'z') || c.is_ascii_digit() || c == b'_'
}

#[tactic(auto, unfolding(crate::specs::Name::is_reserved))]
fn is_reserved(word: &[u8]) -> bool
    ensures { result ≡ is_reserved word.now }
{
    word == b"int".as_slice()
        || word == b"str".as_slice()
        || word == b"bool".as_slice()
        || word == b"true".as_slice()
        || word == b"false".as_slice()
}

impl PartialEq for Name {
    ghost use Rattle.std.specs.Prelude.{nat_eq};
    ghost use Rattle.std.specs.Cmp.Lexicographic.{pointwise};
    ghost use Rattle.std.proofs.Common.{rules};
    ghost use Rattle.std.specs.Cmp.Rules.{comparing};

    ghost eq = { λ a b. pointwise nat_eq a b };

    ghost laws = { Prim.search (comparing, rules) };

    fn eq(&self, other: &Name) -> bool {
        self.characters.as_slice() == other.characters.as_slice()
    }
}

impl Eq for Name {
    ghost use Rattle.std.proofs.Common.{rules};
    ghost use Rattle.std.specs.Cmp.Rules.{comparing};

    ghost laws = { Prim.search (comparing, rules) };
}

impl Hash for Name {
    ghost use Rattle.std.specs.Hash as fed;
    ghost use Rattle.std.proofs.Common.{rules};
    ghost use Rattle.std.specs.Cmp.Rules.{hashing};

    ghost hash_input = { λ n. fed.slice fed.u8 n };

    ghost respects_eq = { Prim.search (hashing, rules) };

    fn hash<H: Hasher>(&self, state: &mut H) {
        self.characters.as_slice().hash(state);
    }
}
