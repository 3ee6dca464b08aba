//! Laws about ballots, each the contract of a function with nothing to do.
//! Cited by no other file of crates/.

ghost use Rattle.std.specs.Prelude.{◌≡◌, ◌⊎◌, ◌↔◌, List, [], All, Any, IsTrue, IsSome, Some, false};
ghost use Rattle.kt_tuple.specs.declared.node.NodeId.{NodeId};
ghost use Rattle.kt_vote.specs.declared.vote.Vote.{Vote};
ghost use Rattle.kt_vote.specs.Order.{IsBefore};
ghost use Rattle.kt_vote.specs.Poll.{Poll};
ghost use Rattle.kt_vote.specs.Counting.{IsAfter, after, said};

/// Any two nodes are in one order.
pub fn nodes_are_in_one_order()
    ensures not_itself { (a : NodeId) → ¬ IsBefore a a }
    ensures transitive { (a b c : NodeId) → IsBefore a b → IsBefore b c → IsBefore a c }
    ensures total { (a b : NodeId) → IsBefore a b ⊎ ((a ≡ b) ⊎ IsBefore b a) }
{}

/// Whatever votes come to a ballot that has counted none, it awaits nobody exactly where each node that it asked
/// said something to it, and is refused exactly where one said no first. Votes of other instances or incarnations,
/// of nodes that were not asked, and later ones of the same node make no difference.
pub fn votes_make_the_ballot()
    ensures counted { (b : Poll) (votes : List (NodeId × Vote)) → IsAfter [] b → IsAfter votes (after b votes) }
    ensures complete { (b : Poll) (votes : List (NodeId × Vote)) → IsAfter [] b
        → ((after b votes).awaited ≡ []) ↔ All (λ x. IsSome (said b votes x)) b.asked }
    ensures refused { (b : Poll) (votes : List (NodeId × Vote)) → IsAfter [] b
        → IsTrue (after b votes).refused ↔ Any (λ x. said b votes x ≡ Some false) b.asked }
{}
