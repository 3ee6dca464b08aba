//! What a verdict makes of a node.
//! Cited by arrivals.rt, deciding.rt, failing.rt.

ghost use Rattle.std.specs.Prelude.{◌≡◌, ◌+◌, ◌<◌, ◌^◌, IfOk, Ok, Some, false, true};
ghost use Rattle.kt_state.specs.Refusing.{Gives};
ghost use Rattle.kt_node.specs.View.{view_of};
ghost use Rattle.kt_node.specs.Learning.{cut_of, down_learns, held_learns, release_plan};
ghost use Rattle.kt_node.specs.Learning.{restored, rolling_learns, verdict_to};
ghost use Rattle.kt_node.specs.Loading.{load};
ghost use Rattle.kt_state.specs.declared.change.Change.TheVariants.{Load};
ghost use Rattle.kt_state.specs.declared.plan.Write.TheVariants.{Bump};

use crate::view::View;
use kt_history::Note;
use kt_state::{
    BodyChange, Change, KeptChange, Loaded, Message, Outbox, Phase, Plan, Refusal, Stored, Update,
    Write,
};
use kt_tuple::NodeId;
use std::alloc::{AllocError, Global};

/// The verdict of the instance for each of these, in their order; refused only for want of memory.
pub(crate) fn verdict_to(
    alloc: Global,
    instance: u64,
    yes: bool,
    asked: &[NodeId],
) -> Result<Outbox, AllocError>
    ensures { IfOk result (λ b. b ≡ verdict_to instance yes asked.now) }
{
    let mut send = Outbox::empty(alloc);
    for node in asked {
        send.add(*node, Message::Verdict { instance, yes })?;
    }
    Ok(send)
}

/// The node remembers its first so many acts alone.
pub(crate) fn cut_of(node: NodeId, keep: u64) -> Option<Note>
    ensures { result ≡ cut_of node keep }
{
    Some(Note::Cut { node, keep })
}

/// What a held node does with the verdict; `send` is what it passes on. With Yes the tentative checkpoint is
/// permanent and nothing was sent since, with No it is given up.
pub(crate) fn held_learns(alloc: Global, yes: bool, send: Outbox) -> Result<Plan, AllocError>
    ensures { IfOk result (λ p. p ≡ held_learns yes send) }
{
    let update = Update {
        body: BodyChange::Stay,
        kept: KeptChange::Stay,
        heard: None,
        said: None,
        promoted: yes,
        phase: Some(Phase::Up),
    };
    let write = if yes { Write::Promote } else { Write::Discard };
    Ok(Plan::writing(Change::turning(alloc, update)?, send, write))
}

/// The rollback got Yes, which is passed on to these: the node becomes this one, and its log keeps so many acts.
fn restoring_plan(
    alloc: Global,
    node: NodeId,
    loaded: Loaded,
    keep: u64,
    instance: u64,
    asked: &[NodeId],
) -> Result<Plan, AllocError>
    ensures { IfOk result (λ p. p ≡ record {
      change = Load loaded;
      send = verdict_to instance true asked.now;
      note = cut_of node keep;
      write = Some Bump;
    }) }
{
    let change = Change::loading(alloc, loaded)?;
    Ok(Plan {
        change,
        send: verdict_to(alloc, instance, true, asked)?,
        note: cut_of(node, keep),
        write: Some(Write::Bump),
    })
}

impl View<'_> {
    /// What a participant of a rollback does with the verdict, which it passes on to these. With Yes it goes on
    /// from its permanent checkpoint in the next incarnation, and its log is cut to it.
    pub(crate) fn rolling_learns(
        self,
        alloc: Global,
        stored: Stored,
        instance: u64,
        yes: bool,
        asked: &[NodeId],
    ) -> Result<Plan, Refusal>
        requires { stored.incarnation + 1 < 2 ^ 64 }
        ensures { Gives result (rolling_learns (view_of self.entry) stored yes (verdict_to instance yes asked.now)) }
    {
        if yes {
            self.restores(alloc, stored, instance, asked)
        } else {
            // It goes on as it is.
            drop(stored);
            let send = verdict_to(alloc, instance, false, asked)?;
            Ok(Plan::of(alloc, Update::to(Phase::Up), send, None)?)
        }
    }

    fn restores(
        self,
        alloc: Global,
        stored: Stored,
        instance: u64,
        asked: &[NodeId],
    ) -> Result<Plan, Refusal>
        requires { stored.incarnation + 1 < 2 ^ 64 }
        ensures { Gives result (restored (view_of self.entry) stored
            (verdict_to instance true asked.now) (load (view_of self.entry) stored)) }
    {
        let keep = stored.acts();
        let loaded = self.load(alloc, stored)?;
        let plan = restoring_plan(alloc, self.role.id, loaded, keep, instance, asked)?;
        Ok(plan)
    }

    /// What a node that is down with a tentative checkpoint does with the verdict; it stays down. With No its log
    /// is cut to the permanent one.
    pub(crate) fn down_learns(
        self,
        alloc: Global,
        stored: &Stored,
        yes: bool,
    ) -> Result<Plan, Refusal>
        ensures { Gives result (down_learns (view_of self.entry) stored.now yes) }
    {
        if yes {
            return Ok(Plan::writing(Change::Stay, Outbox::empty(alloc), Write::Promote));
        }
        if !stored.fits(self.role, self.line_len()) {
            return Err(Refusal::Damaged);
        }
        Ok(Plan {
            change: Change::Stay,
            send: Outbox::empty(alloc),
            note: cut_of(self.role.id, stored.acts()),
            write: Some(Write::Discard),
        })
    }
}
