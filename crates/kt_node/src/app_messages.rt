//! What an underlying message makes of the node that it comes to.
//! Cited by other crates.

ghost use Rattle.std.specs.Prelude.{◌≡◌, IfOk};
ghost use Rattle.kt_node.specs.View.{view_of};
ghost use Rattle.kt_state.specs.Refusing.{Gives};
ghost use Rattle.kt_node.specs.Speaking.{CanSpeak};
ghost use Rattle.kt_node.specs.AppMessages.{hear_app, keep_plan};

use crate::view::View;
use kt_state::{AppMessage, BodyChange, KeptChange, Outbox, Phase, Plan, Refusal, Update};
use kt_tuple::NodeId;
use std::alloc::{AllocError, Global};

/// The message is put behind what is kept.
fn keep_plan(alloc: Global, from: NodeId, app: &AppMessage) -> Result<Plan, AllocError>
    ensures { IfOk result (λ plan. plan ≡ keep_plan from app.now) }
{
    let app = app.copy(alloc)?;
    let update = Update {
        body: BodyChange::Stay,
        kept: KeptChange::Append { from, app },
        heard: None,
        said: None,
        promoted: false,
        phase: None,
    };
    Plan::of(alloc, update, Outbox::empty(alloc), None)
}

impl View<'_> {
    /// A node that is up hears the message, or keeps it behind what is kept; a held node keeps it; one that
    /// rolls back or is down drops it. What is kept came first, and the labels heard of a node have to rise; so nothing
    /// is heard before it. A held node hears nothing, so that its log stays that of its tentative checkpoint.
    pub fn hear_app(self, alloc: Global, from: NodeId, app: &AppMessage) -> Result<Plan, Refusal>
        requires { CanSpeak self.node.now.node }
        ensures { Gives result (hear_app (view_of self.entry) from app.now) }
    {
        let node = self.node;
        let Some(live) = node.live() else {
            return Ok(Plan::empty(alloc));
        };
        match (&live.phase, live.first_kept()) {
            (Phase::Rolling(_), _) => Ok(Plan::empty(alloc)),
            (Phase::Up, None) => { Ok(self.heard_plan(alloc, live, KeptChange::Stay, from, app)?) }
            (Phase::Up | Phase::Held(_), _) => Ok(keep_plan(alloc, from, app)?),
        }
    }
}
