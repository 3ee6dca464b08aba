//! How a node fails, and comes back.
//! Cited by other crates.

ghost use Rattle.std.specs.Prelude.{◌≡◌, ◌+◌, ◌<◌, ◌^◌, ℕ, IfOk, MatchResult, None, Some};
ghost use Rattle.std.specs.Option.{option_copied};
ghost use Rattle.kt_vote.specs.Poll.{asking_poll};
ghost use Rattle.kt_state.specs.declared.change.Change.TheVariants.{Load};
ghost use Rattle.kt_state.specs.declared.live.Phase.TheVariants.{Rolling};
ghost use Rattle.kt_state.specs.declared.plan.Write.TheVariants.{BeginRestart};
ghost use Rattle.kt_state.specs.declared.stored.Stored.{Stored as StoredData};
ghost use Rattle.kt_node.specs.Failing.{fail, log_left, restart, restart_of, restart_plan};
ghost use Rattle.kt_state.specs.Asking.{roll_asks};
ghost use Rattle.kt_state.specs.Labels.{label_at};
ghost use Rattle.kt_state.specs.Node.{neighbours};
ghost use Rattle.kt_state.specs.Refusing.{Gives, Refuses};
ghost use Rattle.kt_node.specs.View.{View as ViewData, view_of};
ghost use Rattle.kt_state.specs.Views.{role_view};

use crate::joining::neighbours;
use crate::learning::cut_of;
use crate::view::View;
use kt_ckpt::CkptHeader;
use kt_link::Label;
use kt_state::{
    Change, Loaded, Node, Outbox, Phase, Plan, Refusal, Role, Sent, Stored, Write, acts_in, fits,
    roll_asks,
};
use kt_store::Verdict;
use kt_vote::Ballot;
use std::alloc::{AllocError, Global};

/// How many acts a node that fails remembers: those of the tentative checkpoint if there is one whose instance did
/// not get No, else those of the permanent one. Without a row on the board it is undecided: only a No takes it back
/// (docs/DECISIONS.md#the-world-with-failures).
fn log_left(
    verdict: Option<Verdict>,
    permanent: Option<&CkptHeader>,
    tentative: Option<&CkptHeader>,
) -> u64
    ensures { result ≡ log_left verdict (option_copied permanent.entry) (option_copied tentative.entry) }
{
    match (verdict, tentative) {
        (Some(Verdict::No), _) | (_, None) => acts_in(permanent),
        _ => acts_in(tentative),
    }
}

/// Whether the node restarts, and why it does not.
fn may_restart(
    node: &Node,
    is_tentative: bool,
    undecided: Option<u64>,
    verdict: Option<Verdict>,
) -> Result<(), Refusal>
    ensures { (v : ViewData) (s : StoredData) (next : ℕ) → MatchResult result
        (λ _. restart_of v s next is_tentative undecided verdict node.now.node ≡ restart_plan v s next)
        (λ r. Refuses r (restart_of v s next is_tentative undecided verdict node.now.node)) }
{
    let Some(live) = node.live() else {
        if is_tentative || undecided.is_some() {
            // Its asks to roll back have the labels of the permanent checkpoint, and a Yes would make the tentative one
            // permanent after them; so it learns first what became of that.
            return Err(Refusal::Unresolved);
        }
        return Ok(());
    };
    let Phase::Rolling(ballot) = &live.phase else {
        return Err(Refusal::WrongMode);
    };
    if ballot.parent().is_some() {
        return Err(Refusal::WrongMode);
    }
    match verdict {
        Some(Verdict::No) => Ok(()),
        _ => Err(Refusal::NotDecided),
    }
}

/// The ballot of who restarts, and what it asks its neighbours; `sent` are the labels of its permanent checkpoint.
fn restarting(
    alloc: Global,
    role: Role<'_>,
    sent: &[Label],
    next: u64,
    incarnation: u64,
) -> Result<(Ballot, Outbox), AllocError>
    ensures { IfOk result (λ r. r ≡ (
      asking_poll next incarnation None (neighbours (role_view role.entry)),
      roll_asks next incarnation (label_at sent.now) (neighbours (role_view role.entry)),
    )) }
{
    let asked = neighbours(alloc, role)?;
    let send = roll_asks(alloc, next, incarnation, Sent::Table(sent), &asked)?;
    let ballot = Ballot::asking(alloc, next, incarnation, None, asked)?;
    Ok((ballot, send))
}

/// The node of the permanent checkpoint begins the rollback.
fn restarting_plan(
    alloc: Global,
    role: Role<'_>,
    loaded: Loaded,
    next: u64,
    incarnation: u64,
) -> Result<Plan, AllocError>
    ensures { IfOk result (λ p. p ≡ record {
      change = Load record loaded {
        phase = Rolling (asking_poll next incarnation None (neighbours (role_view role.entry)));
      };
      send = roll_asks next incarnation (label_at loaded.sent) (neighbours (role_view role.entry));
      note = None;
      write = Some BeginRestart;
    }) }
{
    match restarting(alloc, role, loaded.sent(), next, incarnation) {
        Ok((ballot, send)) => match Change::loading(alloc, loaded.rolling(ballot)) {
            Ok(change) => Ok(Plan::writing(change, send, Write::BeginRestart)),
            Err(error) => {
                drop(send);
                Err(error)
            }
        },
        Err(error) => {
            drop(loaded);
            Err(error)
        }
    }
}

impl View<'_> {
    /// The node fails. `verdict` is what the board has of the instance of its tentative checkpoint. `permanent` and
    /// `tentative` are the headers of its checkpoints: `Damaged` where these do not fit it.
    pub fn fail(
        self,
        alloc: Global,
        verdict: Option<Verdict>,
        permanent: Option<&CkptHeader>,
        tentative: Option<&CkptHeader>,
    ) -> Result<Plan, Refusal>
        ensures { Gives result (fail (view_of self.entry) verdict
            (option_copied permanent.entry) (option_copied tentative.entry)) }
    {
        let node = self.node;
        if node.live().is_none() {
            return Err(Refusal::WrongMode);
        }
        let (role, line_len) = (self.role, self.line_len());
        if !(fits(role, line_len, permanent) && fits(role, line_len, tentative)) {
            return Err(Refusal::Damaged);
        }
        Ok(Plan {
            change: Change::Fall,
            send: Outbox::empty(alloc),
            note: cut_of(role.id, log_left(verdict, permanent, tentative)),
            write: None,
        })
    }

    /// The node goes on from its permanent checkpoint, in the next incarnation, and asks all neighbours to roll back.
    /// It may where it is down, has nothing tentative and began no instance that is open. It may too where it began a
    /// rollback that got No.
    ///
    /// `stored` is what the store has of it, and `is_tentative` whether it has a tentative checkpoint. `undecided` is
    /// the open instance that it began, `verdict` what the board has of its ballot's instance. The rollback has the
    /// number `next`. `Damaged` where the checkpoint does not fit the node.
    pub fn restart(
        self,
        alloc: Global,
        stored: Stored,
        next: u64,
        is_tentative: bool,
        undecided: Option<u64>,
        verdict: Option<Verdict>,
    ) -> Result<Plan, Refusal>
        requires { stored.incarnation + 1 < 2 ^ 64 }
        ensures { Gives result (restart (view_of self.entry) stored next is_tentative undecided verdict) }
    {
        may_restart(self.node, is_tentative, undecided, verdict)?;
        self.restart_plan(alloc, stored, next)
    }

    fn restart_plan(self, alloc: Global, stored: Stored, next: u64) -> Result<Plan, Refusal>
        requires { stored.incarnation + 1 < 2 ^ 64 }
        ensures { Gives result (restart_plan (view_of self.entry) stored next) }
    {
        // Labels have to rise along a log, and the old incarnation may have used those that come next.
        let incarnation = stored.incarnation + 1;
        let loaded = self.load(alloc, stored)?;
        Ok(restarting_plan(alloc, self.role, loaded, next, incarnation)?)
    }
}
