//! How a node begins to vote in an instance.
//! Cited by arrivals.rt, deciding.rt, failing.rt.

ghost use Rattle.std.specs.Prelude.{◌≡◌, ◌++◌, All, IfOk, None, Some, filter};
ghost use Rattle.std.specs.Option.{option_copied};
ghost use Rattle.kt_ckpt.specs.Acts.{IsActOf};
ghost use Rattle.kt_vote.specs.Order.{IsInOrder};
ghost use Rattle.kt_vote.specs.Poll.{asking_poll};
ghost use Rattle.kt_state.specs.Node.{across, neighbours};
ghost use Rattle.kt_node.specs.View.{view_of};
ghost use Rattle.kt_state.specs.Views.{role_view};
ghost use Rattle.kt_state.specs.Codes.{live_view};
ghost use Rattle.kt_node.specs.Saving.{CanSave};
ghost use Rattle.kt_node.specs.Joining.{asker_of, begin_check_plan, cohort, is_in_cohort};
ghost use Rattle.kt_node.specs.auxiliary.Between.{held_ballot};
ghost use Rattle.kt_node.specs.Joining.{join_check_plan, join_rollback_plan, rolling_plan};
ghost use Rattle.kt_state.specs.Updating.{updating_to};
ghost use Rattle.kt_state.specs.Voting.{casting, poll_after, votes};
ghost use Rattle.kt_state.specs.declared.live.Phase.TheVariants.{Held};

use crate::view::View;
use kt_ckpt::{Acts, CkptHeader};
use kt_state::{
    Ask, Change, Live, Outbox, Phase, Plan, Role, Sent, Update, Write, add_vote, cast, check_asks,
    checkpoint_of, label_at, received_in, roll_asks, up_to,
};
use kt_tuple::NodeId;
use kt_vote::{Asker, Ballot};
use std::alloc::{AllocError, Global};

/// The asker of this ask: the node that sent it, and the incarnation in which it asked.
pub(crate) fn asker_of(from: NodeId, ask: Ask) -> Asker
    ensures { result ≡ asker_of from ask }
{
    Asker {
        node: from,
        incarnation: ask.incarnation,
    }
}

/// The node of the other kind with this number.
fn across(node: NodeId, number: u8) -> NodeId
    ensures { result ≡ across node number }
{
    match node {
        NodeId::Worker(_) => NodeId::Shard(number),
        NodeId::Shard(_) => NodeId::Worker(number),
    }
}

/// All neighbours, in node order.
#[tactic(auto, using(crate::proofs::Neighbours::none_yet, crate::proofs::Neighbours::one_more_yet))]
pub(crate) fn neighbours(alloc: Global, role: Role<'_>) -> Result<Vec<NodeId>, AllocError>
    ensures value { IfOk result (λ v. v.items ≡ neighbours (role_view role.entry)) }
    ensures in_order { IfOk result (λ v. IsInOrder v.items) }
{
    let mut nodes = Vec::with_capacity(alloc, usize::from(role.peers))?;
    for number in 0..role.peers {
        nodes.push(across(role.id, number + 1))?;
    }
    Ok(nodes)
}

/// Whether something of the node was heard that the permanent checkpoint has not received.
fn is_in_cohort(permanent: Option<&CkptHeader>, live: &Live, node: NodeId) -> bool
    ensures { result ≡ is_in_cohort (option_copied permanent.entry) (live_view live.now) node }
{
    !up_to(label_at(&live.received, node), received_in(permanent, node))
}

/// The nodes that the node asks in a check.
fn cohort(
    alloc: Global,
    role: Role<'_>,
    permanent: Option<&CkptHeader>,
    live: &Live,
) -> Result<Vec<NodeId>, AllocError>
    ensures value { IfOk result (λ v. v.items ≡
        cohort (role_view role.entry) (option_copied permanent.entry) (live_view live.now)) }
    ensures in_order { IfOk result (λ v. IsInOrder v.items) }
{
    let mut nodes = neighbours(alloc, role)?;
    nodes.retain(|node| is_in_cohort(permanent, live, *node));
    Ok(nodes)
}

/// Behind these asks the vote that the node has to cast now, if it has to; then it has voted.
fn then_vote(send: Outbox, ballot: &mut Ballot) -> Result<Outbox, AllocError>
    ensures sent { IfOk result (λ b. b ≡ send ++ votes (casting ballot.old)) }
    ensures voted { ballot.new ≡ poll_after ballot.old (casting ballot.old) }
{
    let mut send = send;
    add_vote(&mut send, cast(ballot))?;
    Ok(send)
}

/// The ballot with which the node is held, and what it sends: its cohort is asked; a participant whose cohort is
/// empty votes at once.
fn held_ballot(alloc: Global, live: &Live, ballot: Ballot) -> Result<(Ballot, Outbox), AllocError>
    ensures { IfOk result (λ r. r ≡ held_ballot (live_view live.now) ballot) }
{
    let mut ballot = ballot;
    let send = check_asks(alloc, ballot.instance(), live, ballot.asked())?;
    let send = then_vote(send, &mut ballot)?;
    Ok((ballot, send))
}

/// The node is held with this ballot and sends these, and its tentative checkpoint is stored.
fn held_plan(alloc: Global, ballot: Ballot, send: Outbox, write: Write) -> Result<Plan, AllocError>
    ensures { IfOk result (λ p. p ≡
        record { change = updating_to (Held ballot); send = send; note = None; write = Some write }) }
{
    let change = Change::turning(alloc, Update::to(Phase::Held(ballot)))?;
    Ok(Plan::writing(change, send, write))
}

/// The node rolls with this ballot and asks all neighbours; what it keeps from the asker above the label is
/// dropped.
fn rolling_plan(
    alloc: Global,
    live: &Live,
    from: NodeId,
    ask: Ask,
    permanent: Option<&CkptHeader>,
    ballot: Ballot,
) -> Result<Plan, AllocError>
    ensures { IfOk result (λ p. p ≡ rolling_plan (live_view live.now) from ask (option_copied permanent.entry) ballot) }
{
    let mut ballot = ballot;
    let (instance, incarnation) = (ballot.instance(), live.incarnation);
    let sent = Sent::CkptHeader(permanent);
    let send = roll_asks(alloc, instance, incarnation, sent, ballot.asked())?;
    let send = then_vote(send, &mut ballot)?;
    let mut update = Update::sieving(from, ask.label);
    update.phase = Some(Phase::Rolling(ballot));
    Plan::of(alloc, update, send, None)
}

impl View<'_> {
    /// The node begins a check of its own, which has this number.
    pub(crate) fn begin_check_plan(
        self,
        alloc: Global,
        live: &Live,
        instance: u64,
        permanent: Option<&CkptHeader>,
        acts: Acts,
    ) -> Result<Plan, AllocError>
        requires can { CanSave (view_of self) (live_view live.now) }
        requires acts { acts ≡ (view_of self).acts }
        requires shape { All (IsActOf self.role.id) acts }
        ensures { IfOk result (λ p. p ≡
            begin_check_plan (view_of self.entry) (live_view live.now) instance (option_copied permanent.entry)) }
    {
        let asked = cohort(alloc, self.role, permanent, live)?;
        let ballot = Ballot::asking(alloc, instance, live.incarnation, None, asked)?;
        let (ballot, send) = held_ballot(alloc, live, ballot)?;
        let checkpoint = checkpoint_of(alloc, self.role, live, self.line_len(), acts)?;
        held_plan(alloc, ballot, send, Write::BeginCheck(checkpoint))
    }

    /// The node takes part in the check of the ask.
    pub(crate) fn join_check_plan(
        self,
        alloc: Global,
        live: &Live,
        from: NodeId,
        ask: Ask,
        permanent: Option<&CkptHeader>,
        acts: Acts,
    ) -> Result<Plan, AllocError>
        requires can { CanSave (view_of self) (live_view live.now) }
        requires acts { acts ≡ (view_of self).acts }
        requires shape { All (IsActOf self.role.id) acts }
        ensures { IfOk result (λ p. p ≡
            join_check_plan (view_of self.entry) (live_view live.now) from ask (option_copied permanent.entry)) }
    {
        let asked = cohort(alloc, self.role, permanent, live)?;
        let (instance, incarnation) = (ask.instance, live.incarnation);
        let parent = Some(asker_of(from, ask));
        let ballot = Ballot::asking(alloc, instance, incarnation, parent, asked)?;
        let (ballot, send) = held_ballot(alloc, live, ballot)?;
        let checkpoint = checkpoint_of(alloc, self.role, live, self.line_len(), acts)?;
        let write = Write::PutTentative {
            instance,
            checkpoint,
        };
        held_plan(alloc, ballot, send, write)
    }

    /// The node takes part in the rollback of the ask. It asks all neighbours, not only a cohort. A link is first in,
    /// first out, and who rolls sends no underlying message: so once its ask has arrived, none is left on that link.
    pub(crate) fn join_rollback_plan(
        self,
        alloc: Global,
        live: &Live,
        from: NodeId,
        ask: Ask,
        permanent: Option<&CkptHeader>,
    ) -> Result<Plan, AllocError>
        ensures { IfOk result (λ p. p ≡
            join_rollback_plan (view_of self.entry) (live_view live.now) from ask (option_copied permanent.entry)) }
    {
        let asked = neighbours(alloc, self.role)?;
        let (instance, incarnation) = (ask.instance, live.incarnation);
        let parent = Some(asker_of(from, ask));
        let ballot = Ballot::asking(alloc, instance, incarnation, parent, asked)?;
        rolling_plan(alloc, live, from, ask, permanent, ballot)
    }
}
