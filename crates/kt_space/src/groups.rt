//! Places in a row, each with a key or with none, and through the places of one key a chain in rising order.
//! Cited by index.rt, search.rt.

ghost use Rattle.std.specs.Prelude.{◌≡◌, ◌++◌, ◌∷◌, [], IsTrue, OnOk, Some, None};
ghost use Rattle.std.specs.List.{slice_set as set};
ghost use Rattle.kt_space.specs.declared.key.Key.{Key};
ghost use Rattle.kt_space.specs.auxiliary.Chaining.{Beside, Has};

use crate::chains::Chains;
use crate::key::Key;
use indexmap::IndexSet;
use std::alloc::{AllocError, Global};
use std::marker::Model;

/// The key of each place. A key that has no place any more keeps its number until the bag makes its index anew.
#[derive(Debug, Drop)]
pub(crate) struct Groups {
    keys: IndexSet<Key>,
    chains: Chains,
}

impl Model for Groups {
    ghost use Rattle.std.specs.Prelude.{◌&&◌, nat_lt};
    ghost use Rattle.indexmap.specs.IndexSet.{spare};
    ghost use Rattle.kt_space.specs.auxiliary.Grouping.{AreNumbers, Grouped, keys_at};

    ghost Value = { Grouped };

    ghost view = { λ g. record {
      keys = keys_at g.keys.keys g.chains.groups;
      has_room = nat_lt 0 (spare g.keys) && g.chains.has_room;
    } };

    ghost invariant = { λ g. AreNumbers g.keys.keys g.chains.groups g.chains.count };
}

impl Groups {
    /// No places, and so no groups.
    pub(crate) fn new(alloc: Global) -> Groups
        ensures { result.keys ≡ [] }
    {
        Groups {
            keys: IndexSet::new(alloc),
            chains: Chains::new(alloc),
        }
    }

    /// Makes room for one place more, of whatever key.
    pub(crate) fn reserve(&mut self) -> Result<(), AllocError>
        ensures keys { self.new.keys ≡ self.old.keys }
        ensures room { OnOk result (IsTrue self.new.has_room) }
    {
        self.keys.reserve(1)?;
        self.chains.reserve()
    }

    /// Puts a place of this key behind all others.
    pub(crate) fn push(&mut self, key: Key)
        requires { IsTrue self.old.has_room }
        ensures { self.new.keys ≡ self.old.keys ++ Some key ∷ [] }
    {
        match self.keys.insert_full(key) {
            Ok((group, _)) => self.chains.push(group),
            // There is room for one key more.
            Err(_) => {}
        }
    }

    /// The first place of the key; `None` where no place has it.
    pub(crate) fn first(&self, key: &Key) -> Option<usize>
        ensures { Beside self.now.keys key.now None result }
    {
        let group = self.keys.get_index_of(key)?;
        self.chains.first(group)
    }

    /// The next place of the key that this place has; `None` behind the last.
    pub(crate) fn next(&self, place: usize) -> Option<usize>
        ensures { (key : Key) → Has self.now.keys place key → Beside self.now.keys key (Some place) result }
    {
        self.chains.next(place)
    }

    /// Takes the key from the place.
    pub(crate) fn remove(&mut self, place: usize)
        ensures keys { self.new.keys ≡ set self.old.keys place None }
        ensures room { self.new.has_room ≡ self.old.has_room }
    {
        self.chains.remove(place);
    }
}
