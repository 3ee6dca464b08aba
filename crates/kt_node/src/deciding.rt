//! The steps of checks and rollbacks that a node makes of itself.
//! Cited by other crates.

ghost use Rattle.std.specs.Prelude.{◌≡◌, ◌+◌, ◌<◌, ◌^◌, IfOk, None, Some, false};
ghost use Rattle.std.specs.Option.{option_copied};
ghost use Rattle.kt_state.specs.Refusing.{Gives};
ghost use Rattle.kt_node.specs.Saving.{CanSaveNode};
ghost use Rattle.kt_node.specs.View.{view_of};
ghost use Rattle.kt_node.specs.Deciding.{check, decide, decide_by, decide_plan, decided_change};
ghost use Rattle.kt_node.specs.Deciding.{abandon, abandon_by, abandon_open, declined_plan, no_plan};
ghost use Rattle.kt_node.specs.Deciding.{learn, learn_by, learn_down, learn_held, learn_in, settled};
ghost use Rattle.kt_state.specs.Voting.{voted};
ghost use Rattle.kt_state.specs.Node.{in_phase};
ghost use Rattle.kt_state.specs.declared.plan.Write.TheVariants.{Decide};

use crate::learning::{held_learns, verdict_to};
use crate::view::View;
use kt_ckpt::CkptHeader;
use kt_state::{
    Change, Outbox, Phase, Plan, Refusal, Stored, Update, Write, fits, is_undecided, vote_alone,
    vote_for,
};
use kt_store::Verdict;
use kt_tuple::NodeId;
use kt_vote::{Asker, Ballot};
use std::alloc::{AllocError, Global};

/// What becomes of a node in this phase that writes the verdict: a rollback that got Yes is over for it.
fn decided_change(alloc: Global, phase: &Phase, yes: bool) -> Result<Change, AllocError>
    ensures { IfOk result (λ c. c ≡ decided_change phase.now yes) }
{
    match phase {
        Phase::Rolling(_) if yes => Change::turning(alloc, Update::to(Phase::Up)),
        _ => Change::turning(alloc, Update::none()),
    }
}

/// This becomes of the node, which writes No for the instance and has these messages of it.
fn no_plan(change: Change, instance: u64, send: Outbox) -> Plan
    ensures { result ≡ record { change = change; send = send; note = None; write = Some (Decide instance false) } }
{
    let write = Write::Decide {
        instance,
        yes: false,
    };
    Plan::writing(change, send, write)
}

/// The verdict is written, and sent to all that were asked.
fn decide_plan(alloc: Global, phase: &Phase, ballot: &Ballot, yes: bool) -> Result<Plan, AllocError>
    ensures { IfOk result (λ p. p ≡ decide_plan phase.now ballot.now yes) }
{
    let instance = ballot.instance();
    let change = decided_change(alloc, phase, yes)?;
    let send = verdict_to(alloc, instance, yes, ballot.asked())?;
    let write = Write::Decide { instance, yes };
    Ok(Plan::writing(change, send, write))
}

/// Who began an open instance decides it as soon as the votes do.
fn decide_by(
    alloc: Global,
    phase: &Phase,
    ballot: &Ballot,
    verdict: Option<Verdict>,
) -> Result<Plan, Refusal>
    ensures { Gives result (decide_by phase.now ballot.now verdict ballot.now.parent) }
{
    if ballot.parent().is_some() || !is_undecided(verdict) {
        return Err(Refusal::NothingThere);
    }
    match ballot.outcome() {
        Some(yes) => Ok(decide_plan(alloc, phase, ballot, yes)?),
        None => Err(Refusal::NotDecided),
    }
}

/// The participant has voted, and its vote is no.
fn declined_plan(
    alloc: Global,
    phase: Phase,
    instance: u64,
    parent: Asker,
) -> Result<Plan, AllocError>
    ensures { IfOk result (λ p. p ≡ declined_plan phase instance parent) }
{
    let send = vote_alone(alloc, Some(vote_for(instance, parent, false)))?;
    Plan::of(alloc, Update::to(phase), send, None)
}

/// The verdict as a yes or a no; `None` while the instance is open, and where the board has no row of it.
fn settled(verdict: Option<Verdict>) -> Option<bool>
    ensures { result ≡ settled verdict }
{
    match verdict {
        None | Some(Verdict::Open) => None,
        Some(Verdict::Yes) => Some(true),
        Some(Verdict::No) => Some(false),
    }
}

/// Who began the instance writes No while it is open.
fn abandon_open(alloc: Global, ballot: &Ballot, verdict: Option<Verdict>) -> Result<Plan, Refusal>
    ensures { Gives result (abandon_open ballot.now verdict) }
{
    if !is_undecided(verdict) {
        return Err(Refusal::NothingThere);
    }
    let instance = ballot.instance();
    let change = Change::turning(alloc, Update::none())?;
    let send = verdict_to(alloc, instance, false, ballot.asked())?;
    Ok(no_plan(change, instance, send))
}

/// What a held node learns from the board.
fn learn_held(alloc: Global, verdict: Option<bool>) -> Result<Plan, Refusal>
    ensures { Gives result (learn_held verdict) }
{
    match verdict {
        Some(yes) => Ok(held_learns(alloc, yes, Outbox::empty(alloc))?),
        None => Err(Refusal::NotDecided),
    }
}

/// An equal ballot whose node has voted.
fn voted(alloc: Global, ballot: &Ballot) -> Result<Ballot, AllocError>
    ensures { IfOk result (λ b. b ≡ voted ballot.now) }
{
    let mut ballot = ballot.copy(alloc)?;
    ballot.mark_voted();
    Ok(ballot)
}

/// Who began the instance writes No while it is open; a participant that has not voted votes no.
fn abandon_by(
    alloc: Global,
    phase: &Phase,
    ballot: &Ballot,
    verdict: Option<Verdict>,
) -> Result<Plan, Refusal>
    ensures { Gives result (abandon_by (in_phase phase.now) ballot.now verdict ballot.now.parent) }
{
    let Some(parent) = ballot.parent() else {
        return abandon_open(alloc, ballot, verdict);
    };
    if ballot.has_voted() {
        return Err(Refusal::NothingThere);
    }
    let phase = phase.with(voted(alloc, ballot)?);
    Ok(declined_plan(alloc, phase, ballot.instance(), parent)?)
}

impl View<'_> {
    /// A node that is up begins a check, which has the number `next`. `permanent` are the header of its permanent
    /// checkpoint: `Damaged` where these do not fit it.
    pub fn check(
        self,
        alloc: Global,
        next: u64,
        permanent: Option<&CkptHeader>,
    ) -> Result<Plan, Refusal>
        requires { CanSaveNode (view_of self) self.node.now.node }
        ensures { Gives result (check (view_of self.entry) next (option_copied permanent.entry)) }
    {
        let node = self.node;
        let Some(live) = node.live() else {
            return Err(Refusal::WrongMode);
        };
        let Phase::Up = &live.phase else {
            return Err(Refusal::WrongMode);
        };
        if !fits(self.role, self.line_len(), permanent) {
            return Err(Refusal::Damaged);
        }
        let Some(acts) = self.acts(alloc)? else {
            return Err(Refusal::Damaged);
        };
        Ok(self.begin_check_plan(alloc, live, next, permanent, acts)?)
    }

    /// Who began an instance that is open writes Yes where nothing is awaited, and No as soon as one refused.
    /// `verdict` is what the board has of its ballot's instance.
    pub fn decide(self, alloc: Global, verdict: Option<Verdict>) -> Result<Plan, Refusal>
        ensures { Gives result (decide (view_of self.entry) verdict) }
    {
        let node = self.node;
        let Some(live) = node.live() else {
            return Err(Refusal::WrongMode);
        };
        match &live.phase {
            Phase::Up => Err(Refusal::WrongMode),
            Phase::Held(ballot) | Phase::Rolling(ballot) => {
                decide_by(alloc, &live.phase, ballot, verdict)
            }
        }
    }

    /// Who began an instance that is open writes No, and so does a node that is down and has begun the open
    /// instance `undecided`. A participant that has not voted votes no. `verdict` is what the board has of the
    /// ballot's instance.
    pub fn abandon(
        self,
        alloc: Global,
        verdict: Option<Verdict>,
        undecided: Option<u64>,
    ) -> Result<Plan, Refusal>
        ensures { Gives result (abandon (view_of self.entry) verdict undecided) }
    {
        let node = self.node;
        let Some(live) = node.live() else {
            return match undecided {
                // The ballot went with the failure, so it knows nobody to tell: who votes in it can learn No from
                // the board.
                Some(instance) => Ok(no_plan(Change::Stay, instance, Outbox::empty(alloc))),
                None => Err(Refusal::NothingThere),
            };
        };
        match &live.phase {
            Phase::Up => Err(Refusal::WrongMode),
            Phase::Held(ballot) | Phase::Rolling(ballot) => {
                abandon_by(alloc, &live.phase, ballot, verdict)
            }
        }
    }

    /// What the board says. A node that votes learns the verdict of its ballot's instance, unless it began a
    /// rollback; a node that is down and has a tentative checkpoint that of the checkpoint's instance. `verdict`
    /// is what the board has of that instance, `stored` what the store has of the node.
    pub fn learn(
        self,
        alloc: Global,
        stored: Stored,
        is_tentative: bool,
        verdict: Option<Verdict>,
    ) -> Result<Plan, Refusal>
        requires { stored.incarnation + 1 < 2 ^ 64 }
        ensures { Gives result (learn (view_of self.entry) stored is_tentative verdict) }
    {
        let node = self.node;
        match node.live() {
            None => self.learn_down(alloc, &stored, is_tentative, settled(verdict)),
            Some(live) => self.learn_in(alloc, stored, &live.phase, settled(verdict)),
        }
    }

    /// What a node in this phase learns from the board.
    fn learn_in(
        self,
        alloc: Global,
        stored: Stored,
        phase: &Phase,
        verdict: Option<bool>,
    ) -> Result<Plan, Refusal>
        requires { stored.incarnation + 1 < 2 ^ 64 }
        ensures { Gives result (learn_in (view_of self.entry) stored verdict phase.now) }
    {
        match phase {
            Phase::Up => Err(Refusal::WrongMode),
            Phase::Held(_) => learn_held(alloc, verdict),
            Phase::Rolling(ballot) => self.learn_by(alloc, stored, ballot, verdict),
        }
    }

    /// What a node that rolls learns from the board: who began the rollback learns nothing.
    fn learn_by(
        self,
        alloc: Global,
        stored: Stored,
        ballot: &Ballot,
        verdict: Option<bool>,
    ) -> Result<Plan, Refusal>
        requires { stored.incarnation + 1 < 2 ^ 64 }
        ensures { Gives result (learn_by (view_of self.entry) stored verdict ballot.now.parent) }
    {
        if ballot.parent().is_none() {
            return Err(Refusal::WrongMode);
        }
        match verdict {
            Some(yes) => self.rolling_learns(alloc, stored, ballot.instance(), yes, &[]),
            None => Err(Refusal::NotDecided),
        }
    }

    fn learn_down(
        self,
        alloc: Global,
        stored: &Stored,
        is_tentative: bool,
        verdict: Option<bool>,
    ) -> Result<Plan, Refusal>
        ensures { Gives result (learn_down (view_of self.entry) stored.now is_tentative verdict) }
    {
        if !is_tentative {
            return Err(Refusal::NothingThere);
        }
        match verdict {
            None => Err(Refusal::NotDecided),
            Some(yes) => self.down_learns(alloc, stored, yes),
        }
    }
}
