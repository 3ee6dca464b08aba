//! The search for a match.
//! Cited by bag.rt.

ghost use Rattle.std.specs.Prelude.{◌≡◌, ◌+◌, length, true, Some, IfSome, IfNone};
ghost use Rattle.std.specs.List.{slice_get};
ghost use Rattle.kt_tuple.specs.Matching.{matches};
ghost use Rattle.kt_space.specs.auxiliary.Grouping.{first_key, kinds_key};
ghost use Rattle.kt_space.specs.Picking.{could_match, matching};
ghost use Rattle.kt_space.specs.auxiliary.Slots.{IsAsked, IsFound, filled, keyed, passing, slot_matches, through_place};

use crate::groups::Groups;
use crate::index::Index;
use crate::key::Key;
use kt_tuple::{Template, Tuple};

/// What a search found, and what it did for it.
#[derive(Clone, Copy)]
pub(crate) struct Search {
    /// The slot of the match; `None` where there are too few matches.
    pub(crate) place: Option<usize>,
    /// How many matches more it would have had to pass, where there are too few.
    pub(crate) left: usize,
    /// How many tuples it compared with the template: a `usize`, since there are no more of them than slots, so that
    /// the count is exact.
    pub(crate) compared: usize,
}

impl Search {
    /// The search for the match of this number, among the tuples that the template's key stands for.
    pub(crate) fn new(
        slots: &[Option<Tuple>],
        index: &Index,
        template: &Template,
        number: usize,
    ) -> Search
        requires kinds { index.now.by_kinds.keys ≡ keyed kinds_key slots.now }
        requires firsts { index.now.by_first.keys ≡ keyed first_key slots.now }
        ensures found { IfSome result.place (λ place. IsFound slots.now template.now number place) }
        ensures fewer { IfNone result.place (length (matching template.now (filled slots.now)) + result.left ≡ number) }
        ensures none_left { IfSome result.place (λ place. result.left ≡ 0) }
        ensures counted { result.compared ≡
            passing (could_match template.now) slots.now (through_place slots.now result.place) }
    {
        let key = Key::of_template(template);
        if key.has_first() {
            among(slots, &index.by_first, &key, template, number)
        } else {
            among(slots, &index.by_kinds, &key, template, number)
        }
    }
}

/// The search among the tuples that have the key.
fn among(
    slots: &[Option<Tuple>],
    groups: &Groups,
    key: &Key,
    template: &Template,
    number: usize,
) -> Search
    requires { IsAsked slots.now groups.now.keys key.now template.now }
    ensures found { IfSome result.place (λ place. IsFound slots.now template.now number place) }
    ensures fewer { IfNone result.place (length (matching template.now (filled slots.now)) + result.left ≡ number) }
    ensures none_left { IfSome result.place (λ place. result.left ≡ 0) }
    ensures counted { result.compared ≡
        passing (could_match template.now) slots.now (through_place slots.now result.place) }
{
    let mut left = number;
    let mut compared = 0usize;
    let mut next = groups.first(key);
    while let Some(place) = next {
        // No more tuples are compared than there are slots.
        prove!(compared < slots.len());
        compared += 1;
        if fits(template, slots, place) {
            if left == 0 {
                return Search {
                    place: Some(place),
                    left,
                    compared,
                };
            }
            left -= 1;
        }
        next = groups.next(place);
    }
    Search {
        place: None,
        left,
        compared,
    }
}

/// Whether the tuple of the slot matches. It is the one call that compares, so the loop above counts each comparison.
fn fits(template: &Template, slots: &[Option<Tuple>], place: usize) -> bool
    ensures { result ≡ slot_matches template.now (slice_get slots.now place) }
{
    match slots.get(place) {
        Some(Some(tuple)) => template.matches(tuple),
        _ => false,
    }
}
