//! What a node does next of itself, while a scenario of fault lines is run.
//! Cited by ending.rt, locked_journal.rt, settling.rt; other crates.

ghost use Rattle.std.specs.Prelude.{◌≡◌, IfOk, IfSome, IsTrue};
ghost use Rattle.std.specs.List.{list_all};
ghost use Rattle.std.specs.Option.{option_copied};
ghost use Rattle.kt_core.specs.Lent.{is_allowed};
ghost use Rattle.kt_scenario.specs.Step.{owner};
ghost use Rattle.kt_stage.specs.Asking.{IsAsked};
ghost use Rattle.kt_stage.specs.Policy.{asks, by_rule, checks, comes_back, fails, first_some, first_unfinished};
ghost use Rattle.kt_stage.specs.Policy.{decides, gives_up, has_sent, hears, if_unfinished, learns, lets_restart};
ghost use Rattle.kt_stage.specs.Policy.{next_step, repeats, takes, tries_again};
ghost use Rattle.kt_stage.specs.auxiliary.Serving.{next_before_serving};
ghost use Rattle.kt_stage.specs.auxiliary.Unanswered.{may_issue};

use crate::asking::{
    got_no, if_allowed, is_down, is_lost_request, is_up, lets_restart, waits_in_vain,
};
use crate::serving::serves;
use kt_core::{FaultKind, Faults, Step, World};
use kt_store::{CkptStore, StoreError};
use kt_tuple::{ALL_NODES, NodeId};
use kt_worker::Worker;
use std::alloc::Global;

/// A rule of the policy: what a node does where it applies.
#[derive(Clone, Copy, Debug, PartialEq, Eq)]
pub enum Rule {
    /// It fails, where that is due.
    Fails,
    /// It begins a check, where that is due.
    Checks,
    /// It learns from the board a verdict for which it waits.
    Learns,
    /// It is down, and gives up the instance that it began, or restarts.
    ComesBack,
    /// Its rollback got No, and it restarts.
    TriesAgain,
    /// It began an instance, and writes the verdict that the votes come to.
    Decides,
    /// It hears the first node that has sent it something.
    Hears,
    /// It takes what it keeps back.
    Takes,
    /// It asks for the next operation, or once more for the last one.
    Asks,
    /// It serves the first worker that it can serve.
    Serves,
    /// It gives up, where it waits in vain for a vote.
    GivesUp,
}

/// The rules in the order in which they are tried.
const POLICY: [Rule; 11] = [
    Rule::Fails,
    Rule::Checks,
    Rule::Learns,
    Rule::ComesBack,
    Rule::TriesAgain,
    Rule::Decides,
    Rule::Hears,
    Rule::Takes,
    Rule::Asks,
    Rule::Serves,
    Rule::GivesUp,
];

/// How many of them come before that of serving.
const BEFORE_SERVING: usize = 9;

/// A failure that is due, of a node that is not down.
fn fails<S: CkptStore>(world: &World<S>, faults: &Faults, node: NodeId) -> Option<Step>
    ensures { result ≡ fails world.now.state faults.now node }
{
    if !is_down(world, node) && faults.is_due(FaultKind::Fail, node, world.steps_of(node)) {
        Some(Step::Fail { node })
    } else {
        None
    }
}

/// A check that is due, of a node that is up.
fn checks<S: CkptStore>(world: &World<S>, faults: &Faults, node: NodeId) -> Option<Step>
    ensures { result ≡ checks world.now.state faults.now node }
{
    if is_up(world, node) && faults.is_due(FaultKind::Check, node, world.steps_of(node)) {
        Some(Step::Check { node })
    } else {
        None
    }
}

/// A node that is down gives up the instance that it began and that is open, or else restarts.
fn comes_back<S: CkptStore>(
    world: &mut World<S>,
    alloc: Global,
    node: NodeId,
) -> Result<Option<Step>, StoreError>
    ensures { IsAsked S.CkptStore world.old world.new (λ s x. x ≡ comes_back s node) result }
{
    if !is_down(world, node) {
        return Ok(None);
    }
    match if_allowed(world, alloc, Step::Abandon { node })? {
        Some(step) => Ok(Some(step)),
        None => if_allowed(world, alloc, Step::Restart { node }),
    }
}

/// Whether none of these stands in the way of the node's restart.
fn all_let_restart<S: CkptStore>(
    others: &[NodeId],
    world: &mut World<S>,
    alloc: Global,
    node: NodeId,
) -> Result<bool, StoreError>
    ensures { IsAsked S.CkptStore world.old world.new (λ s x. x ≡ list_all (lets_restart s node) others.now) result }
{
    let Some((other, later)) = others.split_first() else {
        return Ok(true);
    };
    if lets_restart(world, alloc, node, *other)? {
        all_let_restart(later, world, alloc, node)
    } else {
        Ok(false)
    }
}

/// A node whose rollback got No restarts where each other node is up, or began a rollback that got No and comes later
/// in node order. All names are asked that a scene can have: one that is not in the scene stands in nobody's way.
fn tries_again<S: CkptStore>(
    world: &mut World<S>,
    alloc: Global,
    node: NodeId,
) -> Result<Option<Step>, StoreError>
    ensures { IsAsked S.CkptStore world.old world.new (λ s x. x ≡ tries_again s node) result }
{
    if !got_no(world, alloc, node)? {
        return Ok(None);
    }
    if all_let_restart(&ALL_NODES, world, alloc, node)? {
        Ok(Some(Step::Restart { node }))
    } else {
        Ok(None)
    }
}

/// The node hears the first node that has sent it something.
fn hears<S: CkptStore>(world: &World<S>, node: NodeId) -> Option<Step>
    ensures { result ≡ hears world.now.state node }
{
    let from = ALL_NODES
        .iter()
        .find(|from| world.link_at(**from, node, 0).is_some())?;
    Some(Step::Deliver {
        from: *from,
        to: node,
    })
}

/// A worker asks once more for what is unanswered, where its request has come to nothing.
fn repeats<S: CkptStore>(
    world: &mut World<S>,
    alloc: Global,
    node: NodeId,
) -> Result<Option<Step>, StoreError>
    ensures { IsAsked S.CkptStore world.old world.new (λ s x. x ≡ repeats s node) result }
{
    if is_lost_request(world, node) {
        if_allowed(world, alloc, Step::Repeat { node })
    } else {
        Ok(None)
    }
}

/// The node learns a verdict. One that is up learns none.
fn learns<S: CkptStore>(
    world: &mut World<S>,
    alloc: Global,
    node: NodeId,
) -> Result<Option<Step>, StoreError>
    ensures { IsAsked S.CkptStore world.old world.new (λ s x. x ≡ learns s node) result }
{
    if is_up(world, node) {
        return Ok(None);
    }
    if_allowed(world, alloc, Step::Learn { node })
}

/// The node decides. One that does not vote decides nothing.
fn decides<S: CkptStore>(
    world: &mut World<S>,
    alloc: Global,
    node: NodeId,
) -> Result<Option<Step>, StoreError>
    ensures { IsAsked S.CkptStore world.old world.new (λ s x. x ≡ decides s node) result }
{
    if world.ballot(node).is_none() {
        return Ok(None);
    }
    if_allowed(world, alloc, Step::Decide { node })
}

/// The node takes what it keeps back, where it keeps anything.
fn takes<S: CkptStore>(
    world: &mut World<S>,
    alloc: Global,
    node: NodeId,
) -> Result<Option<Step>, StoreError>
    ensures { IsAsked S.CkptStore world.old world.new (λ s x. x ≡ takes s node) result }
{
    if world.kept_len(node) == 0 {
        return Ok(None);
    }
    if_allowed(world, alloc, Step::Take { node })
}

/// Whether there is a worker, and it has nothing unanswered.
fn may_issue(worker: Option<&Worker>) -> bool
    ensures { result ≡ may_issue (option_copied worker.entry) }
{
    match worker {
        None => false,
        Some(worker) => worker.again().is_none(),
    }
}

/// A worker asks for its next operation, or once more for the last one: only one that has nothing unanswered may do the
/// one, and only one that has something the other.
fn asks<S: CkptStore>(
    world: &mut World<S>,
    alloc: Global,
    node: NodeId,
) -> Result<Option<Step>, StoreError>
    ensures { IsAsked S.CkptStore world.old world.new (λ s x. x ≡ asks s node) result }
{
    if may_issue(world.worker(node)) {
        if_allowed(world, alloc, Step::Issue { node })
    } else {
        repeats(world, alloc, node)
    }
}

/// A node that votes gives up, where one that it awaits owes it no vote.
fn gives_up<S: CkptStore>(
    world: &mut World<S>,
    alloc: Global,
    node: NodeId,
) -> Result<Option<Step>, StoreError>
    ensures { IsAsked S.CkptStore world.old world.new (λ s x. x ≡ gives_up s node) result }
{
    if waits_in_vain(world, node) {
        if_allowed(world, alloc, Step::Abandon { node })
    } else {
        Ok(None)
    }
}

impl Rule {
    /// The step that the rule gives the node, `None` where the rule does not apply.
    fn step<S: CkptStore>(
        self,
        world: &mut World<S>,
        alloc: Global,
        faults: &Faults,
        node: NodeId,
    ) -> Result<Option<Step>, StoreError>
        ensures { IsAsked S.CkptStore world.old world.new (λ s x. x ≡ by_rule s faults.now node self) result }
    {
        match self {
            Rule::Fails => Ok(fails(world, faults, node)),
            Rule::Checks => Ok(checks(world, faults, node)),
            Rule::Learns => learns(world, alloc, node),
            Rule::ComesBack => comes_back(world, alloc, node),
            Rule::TriesAgain => tries_again(world, alloc, node),
            Rule::Decides => decides(world, alloc, node),
            Rule::Hears => Ok(hears(world, node)),
            Rule::Takes => takes(world, alloc, node),
            Rule::Asks => asks(world, alloc, node),
            Rule::Serves => Ok(serves(world, node)),
            Rule::GivesUp => gives_up(world, alloc, node),
        }
    }
}

/// The step that the first of these rules gives that applies.
fn first_by<S: CkptStore>(
    rules: &[Rule],
    world: &mut World<S>,
    alloc: Global,
    faults: &Faults,
    node: NodeId,
) -> Result<Option<Step>, StoreError>
    ensures { IsAsked S.CkptStore world.old world.new
        (λ s x. x ≡ first_some (by_rule s faults.now node) rules.now) result }
{
    let Some((rule, later)) = rules.split_first() else {
        return Ok(None);
    };
    match rule.step(world, alloc, faults, node)? {
        Some(step) => Ok(Some(step)),
        None => first_by(later, world, alloc, faults, node),
    }
}

/// The step that the first rule of the policy gives that applies to the node, where the fault lines are spent so;
/// `None` where none applies, and for a node that is not in the scene. It is a step of the node itself, and enabled but
/// for the limit of steps, which it leaves aside as `World::is_allowed` does. The store's refusal, where the store does
/// not say what has to be known. The world stays.
pub fn next_for<S: CkptStore>(
    alloc: Global,
    world: &mut World<S>,
    faults: &Faults,
    node: NodeId,
) -> Result<Option<Step>, StoreError>
    ensures next { IsAsked S.CkptStore world.old world.new (λ s x. x ≡ next_step s faults.now node) result }
    ensures own { IsTrue world.new.is_honest → IfOk result (λ x. IfSome x (λ step. owner step ≡ node)) }
    ensures allowed { IsTrue world.new.is_honest
        → IfOk result (λ x. IfSome x (λ step. IsTrue (is_allowed world.old.state step))) }
{
    match world.mode(node) {
        None => Ok(None),
        Some(_) => first_by(&POLICY, world, alloc, faults, node),
    }
}

/// As `next_for`, by the rules before that of serving alone.
pub(crate) fn next_before_serving<S: CkptStore>(
    alloc: Global,
    world: &mut World<S>,
    faults: &Faults,
    node: NodeId,
) -> Result<Option<Step>, StoreError>
    ensures next { IsAsked S.CkptStore world.old world.new (λ s x. x ≡ next_before_serving s faults.now node) result }
    ensures own { IsTrue world.new.is_honest → IfOk result (λ x. IfSome x (λ step. owner step ≡ node)) }
    ensures allowed { IsTrue world.new.is_honest
        → IfOk result (λ x. IfSome x (λ step. IsTrue (is_allowed world.old.state step))) }
{
    match world.mode(node) {
        None => Ok(None),
        Some(_) => first_by(&POLICY[..BEFORE_SERVING], world, alloc, faults, node),
    }
}

/// The first of these nodes that has a next step.
fn first_with_step<S: CkptStore>(
    nodes: &[NodeId],
    world: &mut World<S>,
    alloc: Global,
    faults: &Faults,
) -> Result<Option<NodeId>, StoreError>
    ensures { IsAsked S.CkptStore world.old world.new
        (λ s x. x ≡ first_some (if_unfinished s faults.now) nodes.now) result }
{
    let Some((node, later)) = nodes.split_first() else {
        return Ok(None);
    };
    match next_for(alloc, world, faults, *node)? {
        Some(_) => Ok(Some(*node)),
        None => first_with_step(later, world, alloc, faults),
    }
}

/// The first node, in node order, that has a next step, where the fault lines are spent so. The world stays. All
/// names are asked that a scene can have, since of a node that is not in the scene the policy gives nothing
/// (docs/DECISIONS.md#threads).
pub(crate) fn first_unfinished<S: CkptStore>(
    world: &mut World<S>,
    alloc: Global,
    faults: &Faults,
) -> Result<Option<NodeId>, StoreError>
    ensures { IsAsked S.CkptStore world.old world.new (λ s x. x ≡ first_unfinished s faults.now) result }
{
    first_with_step(&ALL_NODES, world, alloc, faults)
}
