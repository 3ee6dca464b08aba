//! What a control message makes of the node that it comes to.
//! Cited by other crates.

ghost use Rattle.std.specs.Prelude.{◌≡◌, ◌+◌, ◌<◌, ◌^◌, IfOk, Ok};
ghost use Rattle.std.specs.Option.{option_copied};
ghost use Rattle.kt_state.specs.Refusing.{Gives};
ghost use Rattle.kt_node.specs.Saving.{CanSave, CanSaveNode};
ghost use Rattle.kt_node.specs.View.{view_of};
ghost use Rattle.kt_state.specs.Codes.{live_view};
ghost use Rattle.kt_node.specs.Arrivals.{answer_plan, check_plan, hear_check, sieved_answer_plan, hear_rollback};
ghost use Rattle.kt_node.specs.Arrivals.{counted_if, hear_vote, vote_in, vote_plan, voting_plan};
ghost use Rattle.kt_node.specs.Arrivals.{hear_verdict, verdict_by_parent, verdict_in, verdict_when_held};
ghost use Rattle.kt_state.specs.Node.{in_phase};

use crate::joining::asker_of;
use crate::learning::{held_learns, verdict_to};
use crate::reaction::{Reaction, check_reaction, is_in, rollback_reaction};
use crate::view::View;
use kt_ckpt::CkptHeader;
use kt_state::{Ask, Live, Phase, Plan, Refusal, Stored, Update, cast, fits, vote_alone, vote_for};
use kt_store::Verdict;
use kt_tuple::NodeId;
use kt_vote::{Ballot, Vote};
use std::alloc::{AllocError, Global};

/// A vote at once, which changes nothing of the node.
fn answer_plan(alloc: Global, from: NodeId, ask: Ask, yes: bool) -> Result<Plan, AllocError>
    ensures { IfOk result (λ p. p ≡ answer_plan from ask yes) }
{
    let vote = vote_for(ask.instance, asker_of(from, ask), yes);
    let send = vote_alone(alloc, Some(vote))?;
    Plan::of(alloc, Update::none(), send, None)
}

/// A vote at once; what is kept from the asker above the label is dropped. A Yes undoes the act that sent such a
/// message, and who votes yes says that nothing of it is left.
fn sieved_answer_plan(alloc: Global, from: NodeId, ask: Ask, yes: bool) -> Result<Plan, AllocError>
    ensures { IfOk result (λ p. p ≡ sieved_answer_plan from ask yes) }
{
    let vote = vote_for(ask.instance, asker_of(from, ask), yes);
    let send = vote_alone(alloc, Some(vote))?;
    Plan::of(alloc, Update::sieving(from, ask.label), send, None)
}

/// A ballot with one vote more, and the vote that its node has to cast now.
fn counted(
    alloc: Global,
    ballot: &Ballot,
    from: NodeId,
    vote: Vote,
) -> Result<Option<(Ballot, Option<(NodeId, Vote)>)>, AllocError>
    ensures { IfOk result (λ r. r ≡ counted_if ballot.now from vote) }
{
    let mut ballot = ballot.copy(alloc)?;
    if !ballot.count_vote(from, vote) {
        return Ok(None);
    }
    let own = cast(&mut ballot);
    Ok(Some((ballot, own)))
}

/// The node does this from now on, and casts the vote that it has to.
fn voting_plan(alloc: Global, phase: Phase, own: Option<(NodeId, Vote)>) -> Result<Plan, AllocError>
    ensures { IfOk result (λ p. p ≡ voting_plan phase own) }
{
    let send = vote_alone(alloc, own)?;
    Plan::of(alloc, Update::to(phase), send, None)
}

/// What a vote makes of a node in this phase, which has this ballot.
fn vote_by(
    alloc: Global,
    from: NodeId,
    vote: Vote,
    phase: &Phase,
    ballot: &Ballot,
) -> Result<Plan, AllocError>
    ensures { IfOk result (λ p. p ≡ vote_plan (in_phase phase.now) (counted_if ballot.now from vote)) }
{
    match counted(alloc, ballot, from, vote)? {
        None => Ok(Plan::empty(alloc)),
        Some((ballot, own)) => voting_plan(alloc, phase.with(ballot), own),
    }
}

/// What a vote makes of a node in this phase.
fn vote_in(alloc: Global, from: NodeId, vote: Vote, phase: &Phase) -> Result<Plan, AllocError>
    ensures { IfOk result (λ p. p ≡ vote_in from vote phase.now) }
{
    match phase {
        Phase::Up => Ok(Plan::empty(alloc)),
        Phase::Held(ballot) | Phase::Rolling(ballot) => vote_by(alloc, from, vote, phase, ballot),
    }
}

/// What a held node makes of a verdict: where it is that of its ballot, it learns it and passes it on to all that
/// it asked.
fn verdict_when_held(
    alloc: Global,
    ballot: &Ballot,
    instance: u64,
    yes: bool,
) -> Result<Plan, Refusal>
    ensures { Gives result (Ok (verdict_when_held ballot.now instance yes)) }
{
    if !is_in(ballot, instance) {
        return Ok(Plan::empty(alloc));
    }
    let send = verdict_to(alloc, instance, yes, ballot.asked())?;
    Ok(held_learns(alloc, yes, send)?)
}

impl View<'_> {
    fn check_plan(
        self,
        alloc: Global,
        live: &Live,
        from: NodeId,
        ask: Ask,
        permanent: Option<&CkptHeader>,
        reaction: Reaction,
    ) -> Result<Plan, Refusal>
        requires { CanSave (view_of self) (live_view live.now) }
        ensures { Gives result
            (check_plan (view_of self.entry) (live_view live.now) from ask (option_copied permanent.entry) reaction) }
    {
        match reaction {
            Reaction::Says(yes) => Ok(answer_plan(alloc, from, ask, yes)?),
            Reaction::Joins => {
                let Some(acts) = self.acts(alloc)? else {
                    return Err(Refusal::Damaged);
                };
                Ok(self.join_check_plan(alloc, live, from, ask, permanent, acts)?)
            }
        }
    }

    /// An ask to take a checkpoint. `verdict` is what the board has of its instance; `permanent` and `tentative` are
    /// the header of the node's checkpoints. `Damaged` where these do not fit the node.
    pub fn hear_check(
        self,
        alloc: Global,
        from: NodeId,
        ask: Ask,
        verdict: Option<Verdict>,
        permanent: Option<&CkptHeader>,
        tentative: Option<&CkptHeader>,
    ) -> Result<Plan, Refusal>
        requires { CanSaveNode (view_of self) self.node.now.node }
        ensures { Gives result (hear_check (view_of self.entry) from ask verdict
            (option_copied permanent.entry) (option_copied tentative.entry)) }
    {
        let node = self.node;
        let Some(live) = node.live() else {
            return Ok(Plan::empty(alloc));
        };
        let (role, line_len) = (self.role, self.line_len());
        if !(fits(role, line_len, permanent) && fits(role, line_len, tentative)) {
            return Err(Refusal::Damaged);
        }
        let reaction = check_reaction(live, from, ask, verdict, permanent, tentative);
        self.check_plan(alloc, live, from, ask, permanent, reaction)
    }

    /// An ask to roll back. `verdict` is what the board has of its instance, `permanent` the header of the node's
    /// permanent checkpoint. What the node keeps from the asker above the label is dropped, whatever it answers.
    /// `Damaged` where the node takes part and these do not fit it.
    pub fn hear_rollback(
        self,
        alloc: Global,
        from: NodeId,
        ask: Ask,
        verdict: Option<Verdict>,
        permanent: Option<&CkptHeader>,
    ) -> Result<Plan, Refusal>
        ensures { Gives result (hear_rollback (view_of self.entry) from ask verdict (option_copied permanent.entry)) }
    {
        let node = self.node;
        let Some(live) = node.live() else {
            return Ok(Plan::empty(alloc));
        };
        match rollback_reaction(live, from, ask, verdict) {
            Reaction::Says(yes) => Ok(sieved_answer_plan(alloc, from, ask, yes)?),
            Reaction::Joins => {
                if !fits(self.role, self.line_len(), permanent) {
                    return Err(Refusal::Damaged);
                }
                Ok(self.join_rollback_plan(alloc, live, from, ask, permanent)?)
            }
        }
    }

    /// A vote. One of another instance, on an ask of another incarnation, or of a node that is not awaited is
    /// ignored.
    pub fn hear_vote(self, alloc: Global, from: NodeId, vote: Vote) -> Result<Plan, Refusal>
        ensures { Gives result (hear_vote (view_of self.entry) from vote) }
    {
        let node = self.node;
        match node.live() {
            None => Ok(Plan::empty(alloc)),
            Some(live) => Ok(vote_in(alloc, from, vote, &live.phase)?),
        }
    }

    /// A verdict. A held node learns that of its ballot, and so does a participant of a rollback; both pass it on
    /// to all that they asked. `Damaged` where a permanent checkpoint is to be loaded that does not fit the node.
    pub fn hear_verdict(
        self,
        alloc: Global,
        stored: Stored,
        instance: u64,
        yes: bool,
    ) -> Result<Plan, Refusal>
        requires { stored.incarnation + 1 < 2 ^ 64 }
        ensures { Gives result (hear_verdict (view_of self.entry) stored instance yes) }
    {
        let node = self.node;
        match node.live() {
            None => Ok(Plan::empty(alloc)),
            Some(live) => self.verdict_in(alloc, stored, &live.phase, instance, yes),
        }
    }

    /// What a node in this phase makes of a verdict.
    fn verdict_in(
        self,
        alloc: Global,
        stored: Stored,
        phase: &Phase,
        instance: u64,
        yes: bool,
    ) -> Result<Plan, Refusal>
        requires { stored.incarnation + 1 < 2 ^ 64 }
        ensures { Gives result (verdict_in (view_of self.entry) stored instance yes phase.now) }
    {
        match phase {
            Phase::Up => Ok(Plan::empty(alloc)),
            Phase::Held(ballot) => verdict_when_held(alloc, ballot, instance, yes),
            Phase::Rolling(ballot) => {
                self.verdict_when_rolling(alloc, stored, ballot, instance, yes)
            }
        }
    }

    /// What a node that rolls makes of a verdict: a participant learns that of its ballot and passes it on to all
    /// that it asked.
    fn verdict_when_rolling(
        self,
        alloc: Global,
        stored: Stored,
        ballot: &Ballot,
        instance: u64,
        yes: bool,
    ) -> Result<Plan, Refusal>
        requires { stored.incarnation + 1 < 2 ^ 64 }
        ensures { Gives result
            (verdict_by_parent (view_of self.entry) stored ballot.now instance yes ballot.now.parent) }
    {
        if ballot.parent().is_none() || !is_in(ballot, instance) {
            return Ok(Plan::empty(alloc));
        }
        self.rolling_learns(alloc, stored, instance, yes, ballot.asked())
    }
}
