//! Where the tuples of a bag stand, by what templates ask for.
//! Cited by bag.rt, search.rt.

ghost use Rattle.std.specs.Prelude.{◌≡◌, ◌++◌, ◌∷◌, [], ◌&&◌, IsTrue, OnOk, IfOk, Some, None, map};
ghost use Rattle.std.specs.List.{slice_set as set};
ghost use Rattle.kt_space.specs.auxiliary.Grouping.{first_key, kinds_key};
ghost use Rattle.kt_space.specs.auxiliary.Slots.{filled};

use crate::groups::Groups;
use crate::key::Key;
use kt_tuple::Tuple;
use std::alloc::{AllocError, Global};

/// The places of tuples by their kinds, and by their kinds and first values. A template whose first place is a formal
/// goes by the kinds alone, so that it needs no merging of groups.
#[derive(Debug, Drop)]
pub(crate) struct Index {
    pub(crate) by_kinds: Groups,
    pub(crate) by_first: Groups,
}

impl Index {
    /// The index of no tuples.
    pub(crate) fn new(alloc: Global) -> Index
        ensures kinds { result.by_kinds.keys ≡ [] }
        ensures firsts { result.by_first.keys ≡ [] }
    {
        Index {
            by_kinds: Groups::new(alloc),
            by_first: Groups::new(alloc),
        }
    }

    /// Makes room for the place of one tuple more.
    pub(crate) fn reserve(&mut self) -> Result<(), AllocError>
        ensures kinds { self.new.by_kinds.keys ≡ self.old.by_kinds.keys }
        ensures firsts { self.new.by_first.keys ≡ self.old.by_first.keys }
        ensures room { OnOk result (IsTrue (self.new.by_kinds.has_room && self.new.by_first.has_room)) }
    {
        self.by_kinds.reserve()?;
        self.by_first.reserve()
    }

    /// Puts the place of the tuple behind all others.
    pub(crate) fn push(&mut self, tuple: &Tuple)
        requires { IsTrue (self.old.by_kinds.has_room && self.old.by_first.has_room) }
        ensures kinds { self.new.by_kinds.keys ≡ self.old.by_kinds.keys ++ Some (kinds_key tuple.now) ∷ [] }
        ensures firsts { self.new.by_first.keys ≡ self.old.by_first.keys ++ Some (first_key tuple.now) ∷ [] }
    {
        self.by_kinds.push(Key::of_kinds(tuple));
        self.by_first.push(Key::of_first(tuple));
    }

    /// Takes the place out of both groups that it is in: its tuple is gone.
    pub(crate) fn remove(&mut self, place: usize)
        ensures kinds { self.new.by_kinds.keys ≡ set self.old.by_kinds.keys place None }
        ensures firsts { self.new.by_first.keys ≡ set self.old.by_first.keys place None }
        ensures kinds_room { self.new.by_kinds.has_room ≡ self.old.by_kinds.has_room }
        ensures firsts_room { self.new.by_first.has_room ≡ self.old.by_first.has_room }
    {
        self.by_kinds.remove(place);
        self.by_first.remove(place);
    }

    /// The index of the tuples, as they stand without the empty slots.
    pub(crate) fn of(alloc: Global, slots: &[Option<Tuple>]) -> Result<Index, AllocError>
        ensures kinds { IfOk result (λ index. index.by_kinds.keys ≡ map (λ u. Some (kinds_key u)) (filled slots.now)) }
        ensures firsts { IfOk result (λ index. index.by_first.keys ≡ map (λ u. Some (first_key u)) (filled slots.now)) }
    {
        let mut index = Index::new(alloc);
        for slot in slots {
            if let Some(tuple) = slot {
                index.reserve()?;
                index.push(tuple);
            }
        }
        Ok(index)
    }
}
