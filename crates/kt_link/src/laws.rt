//! Laws about labels and links, each the contract of a function with nothing to do.
//! Cited by no other file of crates/.

ghost use Rattle.std.specs.Prelude.{◌≡◌, ◌⊎◌, ◌↔◌, ◌<◌, ◌*◌, ℕ, Some, IsSome};
ghost use Rattle.std.specs.declared.cmp.Ordering.TheVariants.{Less, Equal, Greater};
ghost use Rattle.kt_link.specs.declared.label.Label.{Label};
ghost use Rattle.kt_link.specs.Label.{IsBelow, label_cmp};
ghost use Rattle.kt_link.specs.Network.{AreNeighbours, ChangesOnly, Network, place, queue, room};
ghost use Rattle.kt_tuple.specs.declared.node.NodeId.{NodeId};

use crate::label::Label;

/// Labels compare by incarnation first, and by count within one.
pub fn labels_compare_by_incarnation_first()
    ensures derived { (a b : Label) → ⟦<Label as Ord>⟧.cmp a b ≡ label_cmp a b }
    ensures less { (a b : Label) → (label_cmp a b ≡ Less) ↔ IsBelow a b }
    ensures equal { (a b : Label) → (label_cmp a b ≡ Equal) ↔ (a ≡ b) }
    ensures greater { (a b : Label) → (label_cmp a b ≡ Greater) ↔ IsBelow b a }
{}

/// Any two labels are in one order.
pub fn labels_are_in_one_order()
    ensures not_itself { (a : Label) → ¬ IsBelow a a }
    ensures transitive { (a b c : Label) → IsBelow a b → IsBelow b c → IsBelow a c }
    ensures total { (a b : Label) → IsBelow a b ⊎ ((a ≡ b) ⊎ IsBelow b a) }
{}

/// Each ordered pair of neighbours has a place of its own, below twice the number of pairs; no other pair has one.
pub fn neighbours_have_their_own_places()
    ensures neighbours { (workers shards : ℕ) (p q : NodeId)
        → AreNeighbours workers shards p q ↔ IsSome (place workers shards p q) }
    ensures within { (workers shards : ℕ) (p q : NodeId) (k : ℕ)
        → place workers shards p q ≡ Some k → k < 2 * (workers * shards) }
    ensures own { (workers shards : ℕ) (p q x y : NodeId) (k : ℕ)
        → place workers shards p q ≡ Some k → place workers shards x y ≡ Some k → (p ≡ x) × (q ≡ y) }
{}

/// What changes one link alone changes no other.
pub fn other_links_stay<M>()
    ensures queues { (old new : Network M) (p q x y : NodeId)
        → ChangesOnly old new p q → ¬ ((p ≡ x) × (q ≡ y)) → queue new x y ≡ queue old x y }
    ensures rooms { (old new : Network M) (p q x y : NodeId)
        → ChangesOnly old new p q → ¬ ((p ≡ x) × (q ≡ y)) → room new x y ≡ room old x y }
{}
