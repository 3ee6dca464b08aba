//! Places in a row, each in one group or in none, and through each group a chain in rising order of its places.
//! Cited by groups.rt.

ghost use Rattle.std.specs.Prelude.{◌≡◌, ℕ, ◌+◌, ◌≤◌, ◌<◌, ◌++◌, ◌∷◌, [], max, IsTrue, OnOk};
ghost use Rattle.std.specs.Prelude.{vec_len, vec_capacity};
ghost use Rattle.std.specs.List.{slice_get, slice_set as set};
ghost use Rattle.std.specs.Option.{option_and_then};
ghost use Rattle.kt_space.specs.auxiliary.Chaining.{Beside, Has, after_of, before_of, changed, opened};
ghost use Rattle.kt_space.specs.auxiliary.Chaining.{after_changed, before_changed, first_changed, last_changed};

use std::alloc::{AllocError, Global};
use std::marker::Model;

/// Where the chain of a group begins and ends; `None` twice where the group has no place.
#[derive(Clone, Copy, Debug)]
struct Ends {
    first: Option<usize>,
    last: Option<usize>,
}

/// A place: its group, `None` once its tuple was taken, and the places beside it in the group's chain. The chain is
/// linked both ways, so that a place leaves it without a look at others.
#[derive(Clone, Copy, Debug)]
struct Link {
    group: Option<usize>,
    before: Option<usize>,
    after: Option<usize>,
}

/// A row for each group, and one for each place. Groups are no lists of their own: room for one tuple more must be room
/// in whatever group it comes to, and here that is one row in each list.
#[derive(Debug, Drop)]
struct Table {
    ends: Vec<Ends>,
    links: Vec<Link>,
}

impl Table {
    /// The group of the place; `None` where it is of none, or there is no such place.
    fn group(&self, place: usize) -> Option<usize>
        ensures { result ≡ option_and_then (λ l. l.group) (slice_get self.now.links.items place) }
    {
        self.links.get(place)?.group
    }

    /// What stands behind this place in the chain of the group, or at the front of the chain.
    fn after(&self, group: usize, at: Option<usize>) -> Option<usize>
        ensures { result ≡ after_of self.now.ends.items self.now.links.items group at }
    {
        match at {
            Some(place) => self.links.get(place)?.after,
            None => self.ends.get(group)?.first,
        }
    }

    /// What stands before this place in the chain of the group, or at the end of the chain.
    fn before(&self, group: usize, at: Option<usize>) -> Option<usize>
        ensures { result ≡ before_of self.now.ends.items self.now.links.items group at }
    {
        match at {
            Some(place) => self.links.get(place)?.before,
            None => self.ends.get(group)?.last,
        }
    }

    /// Where the group is the next new one, it has an empty chain then.
    fn open(&mut self, group: usize)
        requires { vec_len self.old.ends < vec_capacity self.old.ends }
        ensures ends { self.new.ends.items ≡ opened self.old.ends.items group }
        ensures links { self.new.links.items ≡ self.old.links.items }
        ensures links_room { vec_capacity self.new.links ≡ vec_capacity self.old.links }
    {
        if group == self.ends.len() {
            self.ends.push_reserved(Ends {
                first: None,
                last: None,
            });
        }
    }

    /// Has this stand behind the place in the chain of the group, or at the front of the chain.
    fn set_after(&mut self, group: usize, at: Option<usize>, to: Option<usize>)
        ensures ends { self.new.ends.items ≡ first_changed self.old.ends.items group at to }
        ensures links { self.new.links.items ≡ after_changed self.old.links.items at to }
        ensures ends_room { vec_capacity self.new.ends ≡ vec_capacity self.old.ends }
        ensures links_room { vec_capacity self.new.links ≡ vec_capacity self.old.links }
    {
        match at {
            Some(place) => {
                if place < self.links.len() {
                    self.links[place].after = to;
                }
            }
            None => {
                if group < self.ends.len() {
                    self.ends[group].first = to;
                }
            }
        }
    }

    /// Has this stand before the place in the chain of the group, or at the end of the chain.
    fn set_before(&mut self, group: usize, at: Option<usize>, to: Option<usize>)
        ensures ends { self.new.ends.items ≡ last_changed self.old.ends.items group at to }
        ensures links { self.new.links.items ≡ before_changed self.old.links.items at to }
        ensures ends_room { vec_capacity self.new.ends ≡ vec_capacity self.old.ends }
        ensures links_room { vec_capacity self.new.links ≡ vec_capacity self.old.links }
    {
        match at {
            Some(place) => {
                if place < self.links.len() {
                    self.links[place].before = to;
                }
            }
            None => {
                if group < self.ends.len() {
                    self.ends[group].last = to;
                }
            }
        }
    }

    /// The place is of no group then. What stands beside it stays.
    fn leave_group(&mut self, place: usize)
        ensures ends { self.new.ends.items ≡ self.old.ends.items }
        ensures links { self.new.links.items ≡ changed (λ l. record l { group = None }) self.old.links.items place }
        ensures ends_room { vec_capacity self.new.ends ≡ vec_capacity self.old.ends }
        ensures links_room { vec_capacity self.new.links ≡ vec_capacity self.old.links }
    {
        if place < self.links.len() {
            self.links[place].group = None;
        }
    }
}

/// The group of each place, and the chains of the groups.
#[derive(Debug, Drop)]
pub(crate) struct Chains {
    table: Table,
}

impl Model for Chains {
    ghost use Rattle.std.specs.Prelude.{◌&&◌, nat_lt, length, vec_len, vec_capacity};
    ghost use Rattle.kt_space.specs.auxiliary.Chaining.{AreChains, Chained, after_of, before_of, groups_of};

    ghost Value = { Chained };

    ghost view = { λ c. record {
      groups = groups_of c.table.links.items;
      count = length c.table.ends.items;
      has_room = nat_lt (vec_len c.table.links) (vec_capacity c.table.links)
          && nat_lt (vec_len c.table.ends) (vec_capacity c.table.ends);
    } };

    ghost invariant = { λ c. AreChains (groups_of c.table.links.items) (length c.table.ends.items)
        (after_of c.table.ends.items c.table.links.items) (before_of c.table.ends.items c.table.links.items) };
}

impl Chains {
    /// No places and no groups.
    pub(crate) fn new(alloc: Global) -> Chains
        ensures groups { result.groups ≡ [] }
        ensures count { result.count ≡ 0 }
    {
        Chains {
            table: Table {
                ends: Vec::new(alloc),
                links: Vec::new(alloc),
            },
        }
    }

    /// Makes room for one place more, in a new group too.
    pub(crate) fn reserve(&mut self) -> Result<(), AllocError>
        ensures groups { self.new.groups ≡ self.old.groups }
        ensures count { self.new.count ≡ self.old.count }
        ensures room { OnOk result (IsTrue self.new.has_room) }
    {
        self.table.links.reserve(1)?;
        self.table.ends.reserve(1)
    }

    /// Puts a place of this group behind all others. It may be the next new group.
    pub(crate) fn push(&mut self, group: usize)
        requires known { group ≤ self.old.count }
        requires room { IsTrue self.old.has_room }
        ensures groups { self.new.groups ≡ self.old.groups ++ Some group ∷ [] }
        ensures count { self.new.count ≡ max self.old.count (group + 1) }
    {
        self.table.open(group);
        let place = self.table.links.len();
        let last = self.table.before(group, None);
        self.table.set_after(group, last, Some(place));
        self.table.set_before(group, None, Some(place));
        self.table.links.push_reserved(Link {
            group: Some(group),
            before: last,
            after: None,
        });
    }

    /// The first place of the group; `None` where it has none.
    pub(crate) fn first(&self, group: usize) -> Option<usize>
        ensures { group < self.now.count → Beside self.now.groups group None result }
    {
        self.table.after(group, None)
    }

    /// The next place of the group that this place is of; `None` behind the last.
    pub(crate) fn next(&self, place: usize) -> Option<usize>
        ensures { (g : ℕ) → Has self.now.groups place g → Beside self.now.groups g (Some place) result }
    {
        // Behind a place the group is not asked for, so any number does.
        self.table.after(0, Some(place))
    }

    /// Takes the place out of its group.
    pub(crate) fn remove(&mut self, place: usize)
        ensures groups { self.new.groups ≡ set self.old.groups place None }
        ensures count { self.new.count ≡ self.old.count }
        ensures room { self.new.has_room ≡ self.old.has_room }
    {
        if let Some(group) = self.table.group(place) {
            let before = self.table.before(group, Some(place));
            let after = self.table.after(group, Some(place));
            self.table.set_after(group, before, after);
            self.table.set_before(group, after, before);
            self.table.leave_group(place);
        }
    }
}
