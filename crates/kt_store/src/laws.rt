//! Laws about what writes make of a store's content, each the contract of a function with nothing to do. That other
//! nodes and instances stay is said here of the changes, and in no clause of a call: a clause says the whole content,
//! and a law holds of every store (docs/DECISIONS.md#stores).
//! Cited by no other file of crates/.

ghost use Rattle.std.specs.Prelude.{◌≡◌, ℕ, Bool, Some};
ghost use Rattle.std.specs.Option.{option_map};
ghost use Rattle.kt_tuple.specs.declared.node.NodeId.{NodeId};
ghost use Rattle.kt_ckpt.specs.declared.ckpt.Ckpt.{Ckpt};
ghost use Rattle.kt_store.specs.declared.rows.NodeRow.{NodeRow};
ghost use Rattle.kt_store.specs.declared.rows.InstanceRow.{InstanceRow};
ghost use Rattle.kt_store.specs.declared.rows.Purpose.{Purpose};
ghost use Rattle.kt_store.specs.declared.rows.Verdict.TheVariants as verdicts;
ghost use Rattle.kt_store.specs.Verdict.{verdict_from};
ghost use Rattle.kt_store.specs.Content.{Content, next_instance, instance_row, row_of};
ghost use Rattle.kt_store.specs.Changes.{bumped, check_begun, decided, discarded, opening, promoted, restart_begun};
ghost use Rattle.kt_store.specs.Changes.{storing, tentative_put};
ghost use Rattle.kt_store.specs.Others.{OtherInstancesStay, OtherNodesStay};

/// What a write stores of a node leaves what is stored of every other node. A verdict leaves that of all nodes.
pub fn other_nodes_stay()
    ensures check_begun { (p : NodeId) (ckpt : Ckpt) (c : Content) → OtherNodesStay p c (check_begun p ckpt c) }
    ensures tentative_put { (p : NodeId) (i : ℕ) (ckpt : Ckpt) (c : Content)
        → OtherNodesStay p c (tentative_put p i ckpt c) }
    ensures promoted { (p : NodeId) (c : Content) → OtherNodesStay p c (promoted p c) }
    ensures discarded { (p : NodeId) (c : Content) → OtherNodesStay p c (discarded p c) }
    ensures restart_begun { (p : NodeId) (c : Content) → OtherNodesStay p c (restart_begun p c) }
    ensures bumped { (p : NodeId) (c : Content) → OtherNodesStay p c (bumped p c) }
    ensures decided { (i : ℕ) (agreed : Bool) (c : Content) → (decided i agreed c).nodes ≡ c.nodes }
{}

/// An instance that is begun, or that gets its verdict, leaves every other instance. All other writes leave the
/// board.
pub fn other_instances_stay()
    ensures check_begun { (p : NodeId) (ckpt : Ckpt) (c : Content)
        → OtherInstancesStay (next_instance c) c (check_begun p ckpt c) }
    ensures restart_begun { (p : NodeId) (c : Content)
        → OtherInstancesStay (next_instance c) c (restart_begun p c) }
    ensures decided { (i : ℕ) (agreed : Bool) (c : Content) → OtherInstancesStay i c (decided i agreed c) }
    ensures tentative_put { (p : NodeId) (i : ℕ) (ckpt : Ckpt) (c : Content)
        → (tentative_put p i ckpt c).board ≡ c.board }
    ensures promoted { (p : NodeId) (c : Content) → (promoted p c).board ≡ c.board }
    ensures discarded { (p : NodeId) (c : Content) → (discarded p c).board ≡ c.board }
    ensures bumped { (p : NodeId) (c : Content) → (bumped p c).board ≡ c.board }
{}

/// What was written is read: the row that was stored of its node; an instance that was begun, open and its
/// initiator's; the verdict of an instance that was begun and has got it.
pub fn what_is_written_is_read()
    ensures stored { (row : NodeRow) (c : Content) → row_of (storing row c) row.node ≡ row }
    ensures begun { (p : NodeId) (purpose : Purpose) (c : Content)
        → instance_row (opening p purpose c) (next_instance c)
        ≡ Some record { instance = next_instance c; initiator = p; purpose = purpose; verdict = verdicts.Open } }
    ensures decided { (i : ℕ) (agreed : Bool) (c : Content)
        → instance_row (decided i agreed c) i
        ≡ option_map (λ (row : InstanceRow). record row { verdict = verdict_from agreed }) (instance_row c i) }
{}
