//! The bag: tuples in order of arrival, found by their kinds and their first value.
//! Cited by other crates.

ghost use Rattle.std.specs.Prelude.{◌≡◌, ◌≤◌, ◌↔◌, ◌++◌, ◌∷◌, [], length, filter, slice_get};
ghost use Rattle.std.specs.Prelude.{IsTrue, IsOk, IfOk, IfErr, OnOk, OnErr, is_some, false};
ghost use Rattle.std.specs.Option.{option_and_then, option_copied};
ghost use Rattle.kt_space.specs.Picking.{could_match, matching, up_to_match, without_match};
ghost use Rattle.kt_space.specs.auxiliary.Slots.{filled};

use crate::index::Index;
use crate::search::Search;
use kt_tuple::{Template, Tuple};
use std::alloc::{AllocError, AllocFailed, Global};
use std::marker::Model;

/// A bag with fewer slots is not tidied: making its index anew costs more than a few empty slots do.
const LEAST_TIDIED: usize = 64;

/// Tuples in order of arrival, equal ones too.
#[derive(Debug, Drop)]
pub struct Bag {
    /// The tuples in order of arrival. A slot whose tuple was taken stays empty until the slots move together, since
    /// its number is the tuple's number in the index (docs/DECISIONS.md#bags-and-links).
    slots: Vec<Option<Tuple>>,
    /// How many of the slots have a tuple.
    len: usize,
    /// Which slots a template may match.
    index: Index,
    /// Whether room was made that no `put` has used yet. It is a flag and no count: a map does not say how much room it
    /// has after a refusal.
    has_room: bool,
}

impl Model for Bag {
    ghost use Rattle.std.specs.Prelude.{◌<◌, ◌&&◌, IsTrue, vec_len, vec_capacity};
    ghost use Rattle.kt_space.specs.Holding.{Holding};
    ghost use Rattle.kt_space.specs.auxiliary.Slots.{IsIndexed, filled};

    ghost Value = { Holding };

    ghost view = { λ b. record {
      tuples = filled b.slots.items;
      has_room = b.has_room;
    } };

    ghost invariant = { λ b. record {
      indexed : IsIndexed b.slots.items b.len b.index.by_kinds.keys b.index.by_first.keys;
      room : IsTrue b.has_room → (vec_len b.slots < vec_capacity b.slots)
          × IsTrue (b.index.by_kinds.has_room && b.index.by_first.has_room);
    } };
}

impl Bag {
    /// The empty bag. It takes no memory.
    pub fn new(alloc: Global) -> Bag
        ensures { result.tuples ≡ [] }
    {
        Bag {
            slots: Vec::new(alloc),
            len: 0,
            index: Index::new(alloc),
            has_room: false,
        }
    }

    /// How many tuples there are: the empty slots do not count.
    pub fn len(&self) -> usize
        ensures { result ≡ length self.now.tuples }
    {
        self.len
    }

    /// Whether there is no tuple.
    pub fn is_empty(&self) -> bool
        ensures { IsTrue result ↔ (self.now.tuples ≡ []) }
    {
        self.len == 0
    }

    /// The tuple at this place, counted from 0 in order of arrival. After a `take_nth` it goes through the slots
    /// up to the place, so a whole bag is read by `to_vec`.
    pub fn get(&self, place: usize) -> Option<&Tuple>
        ensures { option_copied result ≡ slice_get self.now.tuples place }
    {
        // No slot is empty, so the place is that of the slot.
        if self.len == self.slots.len() {
            return tuple_at(&self.slots, Some(place));
        }
        nth_tuple(&self.slots, place)
    }

    /// Puts the tuple behind all others. Where memory is wanting it comes back, so that nothing is lost, and the bag
    /// stays.
    pub fn put(&mut self, tuple: Tuple) -> Result<(), AllocFailed<Tuple>>
        ensures put { OnOk result (self.new.tuples ≡ self.old.tuples ++ tuple ∷ []) }
        ensures unchanged { OnErr result (self.new ≡ self.old) }
        ensures comes_back { IfErr result (λ refused. refused.value ≡ tuple) }
        ensures succeeds { IsTrue self.old.has_room → IsOk result }
    {
        match self.reserve() {
            Ok(()) => {
                self.put_reserved(tuple);
                Ok(())
            }
            Err(_) => Err(AllocFailed { value: tuple }),
        }
    }

    /// Makes room for one more tuple, of whatever kind: one step puts at most one. A refusal changes nothing.
    pub fn reserve(&mut self) -> Result<(), AllocError>
        ensures tuples { self.new.tuples ≡ self.old.tuples }
        ensures room { OnOk result (IsTrue self.new.has_room) }
        ensures unchanged { OnErr result (self.new ≡ self.old) }
        ensures succeeds { IsTrue self.old.has_room → IsOk result }
    {
        if self.has_room {
            return Ok(());
        }
        // Only where the slots are full and half of them or more are empty: so neither empty slots nor groups without a
        // tuple are ever more than the slots that the bag once filled, or a few.
        let slots = self.slots.len();
        if slots == self.slots.capacity() && LEAST_TIDIED <= slots && self.len <= slots / 2 {
            self.tidy()?;
        }
        self.slots.reserve(1)?;
        self.index.reserve()?;
        self.has_room = true;
        Ok(())
    }

    /// Moves the slots together, which numbers them anew, and forgets what was only asked for by tuples that are gone.
    /// The index is made anew first, so that a refusal changes nothing.
    fn tidy(&mut self) -> Result<(), AllocError>
        ensures tuples { self.new.tuples ≡ self.old.tuples }
        ensures room { OnOk result (self.new.has_room ≡ false) }
        ensures unchanged { OnErr result (self.new ≡ self.old) }
    {
        let index = Index::of(*self.slots.allocator(), &self.slots)?;
        drop_empty(&mut self.slots);
        self.index = index;
        self.has_room = false;
        Ok(())
    }

    /// Puts the tuple behind all others, where room was made for it.
    pub fn put_reserved(&mut self, tuple: Tuple)
        requires { IsTrue self.old.has_room }
        ensures { self.new.tuples ≡ self.old.tuples ++ tuple ∷ [] }
    {
        // There are fewer tuples than there is room for slots, and that is a `usize`.
        let _most = self.slots.capacity();
        self.len += 1;
        self.has_room = false;
        self.index.push(&tuple);
        self.slots.push_reserved(Some(tuple));
    }

    /// How many tuples match: the numbers of matches are those below it.
    pub fn count_matches(&self, template: &Template) -> usize
        ensures { result ≡ length (matching template.now self.now.tuples) }
    {
        // There is no match of so high a number: the search passes all, and tells how many too few they are.
        let most = self.slots.len();
        most - Search::new(&self.slots, &self.index, template, most).left
    }

    /// The match of this number, counted from 0 in order of arrival, or `None` where there are fewer.
    pub fn nth_match(&self, template: &Template, number: usize) -> Option<&Tuple>
        ensures { option_copied result ≡ slice_get (matching template.now self.now.tuples) number }
    {
        self.nth_match_counted(template, number).0
    }

    /// The match of this number, and how many tuples were compared with the template: those with its kinds and,
    /// where its first place is an actual, that first value, up to the match; all of them where there is none.
    pub fn nth_match_counted(&self, template: &Template, number: usize) -> (Option<&Tuple>, u64)
        ensures value { option_copied result.0 ≡ slice_get (matching template.now self.now.tuples) number }
        ensures counted { result.1 ≡
            length (filter (could_match template.now) (up_to_match template.now number self.now.tuples)) }
        ensures few { result.1 ≤ length (filter (could_match template.now) self.now.tuples) }
    {
        let search = Search::new(&self.slots, &self.index, template, number);
        (tuple_at(&self.slots, search.place), search.compared as u64)
    }

    /// Takes out what `nth_match` gives. The others keep their order.
    pub fn take_nth(&mut self, template: &Template, number: usize) -> Option<Tuple>
        ensures taken { result ≡ slice_get (matching template.now self.old.tuples) number }
        ensures left { self.new.tuples ≡ without_match template.now number self.old.tuples }
        ensures room { IsTrue self.old.has_room → IsTrue self.new.has_room }
    {
        let place = Search::new(&self.slots, &self.index, template, number).place?;
        let taken = self.slots[place].take();
        self.index.remove(place);
        self.len -= 1;
        taken
    }

    /// Equal tuples in the same order. It goes through the slots once, where reading them by `get` would count anew for
    /// each.
    pub fn to_vec(&self, alloc: Global) -> Result<Vec<Tuple>, AllocError>
        ensures { IfOk result (λ tuples. tuples.items ≡ self.now.tuples) }
    {
        tuples_of(alloc, &self.slots, self.len)
    }

    /// A bag of equal tuples in the same order.
    pub fn copy(&self, alloc: Global) -> Result<Bag, AllocError>
        ensures { IfOk result (λ bag. bag.tuples ≡ self.now.tuples) }
    {
        copy_of(alloc, &self.slots)
    }
}

/// The tuple of the slot, where there is a slot.
fn tuple_at(slots: &[Option<Tuple>], place: Option<usize>) -> Option<&Tuple>
    ensures { option_copied result ≡ option_and_then (λ p. option_and_then (λ s. s) (slice_get slots.now p)) place }
{
    slots.get(place?)?.as_ref()
}

/// Equal tuples, of which there are so many.
fn tuples_of(alloc: Global, slots: &[Option<Tuple>], len: usize) -> Result<Vec<Tuple>, AllocError>
    ensures { IfOk result (λ tuples. tuples.items ≡ filled slots.now) }
{
    let mut tuples = Vec::with_capacity(alloc, len)?;
    for slot in slots {
        if let Some(tuple) = slot {
            tuples.push(tuple.copy(alloc)?)?;
        }
    }
    Ok(tuples)
}

fn copy_of(alloc: Global, slots: &[Option<Tuple>]) -> Result<Bag, AllocError>
    ensures { IfOk result (λ bag. bag.tuples ≡ filled slots.now) }
{
    let mut bag = Bag::new(alloc);
    for slot in slots {
        if let Some(tuple) = slot {
            let copy = tuple.copy(alloc)?;
            bag.reserve()?;
            bag.put_reserved(copy);
        }
    }
    Ok(bag)
}

/// The tuple of this number, counted over the slots that are not empty.
fn nth_tuple(slots: &[Option<Tuple>], number: usize) -> Option<&Tuple>
    ensures { option_copied result ≡ slice_get (filled slots.now) number }
{
    let mut before = number;
    for slot in slots {
        if let Some(tuple) = slot {
            if before == 0 {
                return Some(tuple);
            }
            before -= 1;
        }
    }
    None
}

/// Takes the empty slots out; the others keep their order.
fn drop_empty(slots: &mut Vec<Option<Tuple>>)
    ensures { slots.new.items ≡ filter (λ s. is_some s) slots.old.items }
{
    slots.retain(|slot| slot.is_some());
}
