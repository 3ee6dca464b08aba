//! The acts of a node that are not placed yet.
//! Cited by logs.rt, placing.rt.

ghost use Rattle.std.specs.Prelude.{◌≡◌, ◌∷◌, [], slice_get};
ghost use Rattle.std.specs.Option.{option_copied};

use kt_ckpt::LogAct;
use kt_tuple::NodeId;
use std::marker::Model;

/// The acts of one node, in the order of its log, that are not placed yet.
#[derive(Drop)]
pub struct Unplaced {
    node: NodeId,
    /// The next one is the last, so that it is taken at once.
    kept: Vec<LogAct>,
}

impl Model for Unplaced {
    ghost use Rattle.kt_resume.specs.Unplaced.{Left};
    ghost use Rattle.kt_resume.specs.auxiliary.Kept.{left_of};

    ghost Value = { Left };

    ghost view = { λ u. left_of u.node u.kept };

    ghost invariant = { λ u. Unit {0} };
}

impl Unplaced {
    ghost use Rattle.std.specs.Prelude.{Some, None, IfSome, length};
    ghost use Rattle.kt_ckpt.specs.declared.acts.LogAct.{LogAct};

    /// All acts of the node, oldest first.
    pub fn new(node: NodeId, acts: Vec<LogAct>) -> Unplaced
        ensures node { result.node ≡ node }
        ensures acts { result.acts ≡ acts.items }
    {
        let mut kept = acts;
        kept.reverse();
        Unplaced { node, kept }
    }

    /// Whose acts these are.
    pub fn node(&self) -> NodeId
        ensures { result ≡ self.now.node }
    {
        self.node
    }

    /// The next act, if one is left.
    pub fn next(&self) -> Option<&LogAct>
        ensures { option_copied result ≡ slice_get self.now.acts 0 }
    {
        self.kept.last()
    }

    /// Takes the next act out.
    pub(crate) fn take(&mut self) -> Option<LogAct>
        ensures none { result ≡ None → (self.old.acts ≡ []) × (self.new ≡ self.old) }
        ensures some { IfSome result (λ a. self.old.acts ≡ a ∷ self.new.acts) }
        ensures node { self.new.node ≡ self.old.node }
    {
        self.kept.pop()
    }

    /// How many are left.
    pub(crate) fn len(&self) -> usize
        ensures { result ≡ length self.now.acts }
    {
        self.kept.len()
    }
}
