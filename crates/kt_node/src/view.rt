//! What the owner of a step sees.
//! Cited by app_messages.rt, arrivals.rt, at_once.rt, deciding.rt, failing.rt, hearing.rt, joining.rt, learning.rt,
//!   short_plan.rt, steps.rt, talking.rt; other crates.

ghost use Rattle.std.specs.Prelude.{◌≡◌, ◌+◌, ◌<◌, ◌^◌, All, IfErr, IfOk, IfSome, true};

use kt_ckpt::{Acts, Past};
use kt_state::{Loaded, Node, Refusal, Role, Stored};
use std::alloc::{AllocError, Global};

/// What the owner of a step sees, but for the store and for what it hears.
#[derive(Clone, Copy, Debug)]
pub struct View<'a> {
    /// Who the owner is, by the scene.
    pub role: Role<'a>,
    /// The owner as it is before the step, down or not.
    pub node: &'a Node,
    /// What happened so far, to all nodes.
    pub past: &'a Past,
}

impl View<'_> {
    ghost use Rattle.kt_ckpt.specs.Acts.{IsActOf};
    ghost use Rattle.kt_ckpt.specs.LogActs.{fitting};
    ghost use Rattle.kt_state.specs.Stored.{acts_fit};
    ghost use Rattle.kt_node.specs.Loading.{load};
    ghost use Rattle.kt_node.specs.View.{view_of};
    ghost use Rattle.kt_state.specs.Refusing.{Gives};
    ghost use Rattle.kt_state.specs.Views.{role_view};

    /// The number that the next note will have, counted from 1.
    pub(crate) fn next(self) -> u64
        ensures { result ≡ (view_of self.entry).next }
    {
        self.past.history().notes().len() as u64 + 1
    }

    /// How many acts the owner remembers.
    pub(crate) fn line_len(self) -> u64
        ensures { result ≡ (view_of self.entry).line_len }
    {
        self.past.history().line(self.role.id).len() as u64
    }

    /// The acts that the owner remembers, as a checkpoint holds them; `None` where one of them may not stand in its
    /// log. While the store is honest each may. Want of memory hides no such act.
    pub(crate) fn acts(self, alloc: Global) -> Result<Option<Acts>, AllocError>
        ensures acts { IfOk result (λ found. found ≡ fitting self.entry.role.id (view_of self.entry).acts) }
        ensures shape { IfOk result (λ found. IfSome found (All (IsActOf self.entry.role.id))) }
        ensures refused { IfErr result (λ _. acts_fit (role_view self.entry.role) (view_of self.entry).acts ≡ true) }
    {
        self.past.acts(alloc, self.role.id)
    }

    /// The node that goes on so from its permanent checkpoint, in the next incarnation. `Damaged` where the checkpoint
    /// does not fit it.
    pub(crate) fn load(self, alloc: Global, stored: Stored) -> Result<Loaded, Refusal>
        requires { stored.incarnation + 1 < 2 ^ 64 }
        ensures { Gives result (load (view_of self.entry) stored) }
    {
        if !stored.fits(self.role, self.line_len()) {
            return Err(Refusal::Damaged);
        }
        stored.load(alloc, self.role)
    }
}
