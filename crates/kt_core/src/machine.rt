//! All of a world but its store, and its step in parts: each growth is made before the first change.
//! Cited by at_once.rt, lending.rt, planning.rt, read_sets.rt, resuming.rt, short_plans.rt, stepping.rt, world.rt.

ghost use Rattle.std.specs.Prelude.{◌≡◌, ℕ, length, map, IfOk, IfSome, OnOk, OnErr, replicate, ◌*◌, []};
ghost use Rattle.kt_model.specs.Limits.{rows};
ghost use Rattle.kt_shard.specs.Limits.{sessions};
ghost use Rattle.kt_scenario.specs.Scene.{IsScene};
ghost use Rattle.kt_model.specs.Short.{AreShort};
ghost use Rattle.kt_core.specs.auxiliary.Rows.{row_view};
ghost use Rattle.kt_model.specs.Reached.{opening_rows};
ghost use Rattle.kt_model.specs.Resumed.{down_rows};

use crate::change::{change_node, count, make_room_in_row};
use crate::opening::{down_nodes, no_counts, opening_nodes, scripts_are_short};
use crate::traffic::{add_note, make_room_on_links, send_all, take_off};
use kt_ckpt::Past;
use kt_history::History;
use kt_link::Links;
use kt_model::{MAX_NOTES, MAX_STEPS, Step};
use kt_node::{Message, Node, Plan};
use kt_scenario::Scene;
use kt_script::Script;
use kt_tuple::NodeId;
use std::alloc::{AllocError, Global};

/// All of a world but its store.
#[derive(Debug, Drop)]
pub(crate) struct Machine {
    pub(crate) scene: Scene,
    /// The script with no command: each node's role lends a script, and a shard's is this one.
    pub(crate) no_script: Script,
    /// By the nodes' numbers. A row is `None` where the scene has no such node; one that is down has its row.
    pub(crate) nodes: Vec<Option<Node>>,
    pub(crate) links: Links<Message>,
    pub(crate) past: Past,
    /// How many steps each node made, by the nodes' numbers.
    pub(crate) own: Vec<u64>,
    /// How many steps were made, by all nodes together: at most `MAX_STEPS`.
    pub(crate) made: u64,
    /// Where the world goes on from what a store held: the greatest number of an instance that was found then.
    pub(crate) found: Option<u64>,
    ghost workers: { links.workers ≡ length scene.scripts },
    ghost shards: { links.shards ≡ scene.shards },
    ghost blank: { no_script ≡ [] },
}

/// The nodes, the links and the counts of a world in which no step was made.
type Tables = (Vec<Option<Node>>, Links<Message>, Vec<u64>);

/// Those of a world that was just opened.
fn opening_tables(alloc: Global, scene: &Scene, no_script: &Script) -> Result<Tables, AllocError>
    requires { no_script.now ≡ [] }
    ensures scene { IsScene scene.now }
    ensures nodes { IfOk result (λ t. map row_view t.0.items ≡ opening_rows scene.now sessions) }
    ensures workers { IfOk result (λ t. t.1.workers ≡ length scene.now.scripts) }
    ensures shards { IfOk result (λ t. t.1.shards ≡ scene.now.shards) }
    ensures links { IfOk result (λ t. t.1.queues ≡ replicate (2 * (length scene.now.scripts * scene.now.shards)) []) }
    ensures own { IfOk result (λ t. t.2.items ≡ replicate rows 0) }
{
    let (workers, shards) = (scene.scripts().len() as u8, scene.shards());
    let nodes = opening_nodes(alloc, scene, no_script)?;
    let links = Links::new(alloc, workers, shards)?;
    let own = no_counts(alloc)?;
    Ok((nodes, links, own))
}

/// Those of a world that was just resumed.
fn resumed_tables(alloc: Global, scene: &Scene) -> Result<Tables, AllocError>
    ensures scene { IsScene scene.now }
    ensures nodes { IfOk result (λ t. map row_view t.0.items ≡ down_rows scene.now sessions) }
    ensures workers { IfOk result (λ t. t.1.workers ≡ length scene.now.scripts) }
    ensures shards { IfOk result (λ t. t.1.shards ≡ scene.now.shards) }
    ensures links { IfOk result (λ t. t.1.queues ≡ replicate (2 * (length scene.now.scripts * scene.now.shards)) []) }
    ensures own { IfOk result (λ t. t.2.items ≡ replicate rows 0) }
{
    let (workers, shards) = (scene.scripts().len() as u8, scene.shards());
    let nodes = down_nodes(alloc, scene)?;
    let links = Links::new(alloc, workers, shards)?;
    let own = no_counts(alloc)?;
    Ok((nodes, links, own))
}

impl Machine {
    ghost use Rattle.std.specs.Prelude.{Ok, IfErr};
    ghost use Rattle.kt_store.specs.Content.{Content, empty_content};
    ghost use Rattle.kt_scenario.specs.Step.{owner};
    ghost use Rattle.kt_model.specs.Effect.{applied};
    ghost use Rattle.kt_model.specs.StepPlan.{has_room};
    ghost use Rattle.kt_model.specs.Writing.{content_after};
    ghost use Rattle.kt_model.specs.auxiliary.Ready.{IsReady, CanApply};
    ghost use Rattle.kt_model.specs.Reached.{opening};
    ghost use Rattle.kt_core.specs.Resuming.{going_on};
    ghost use Rattle.kt_core.specs.auxiliary.Machine.{state_of, HasRoomFor};

    /// The machine of the scene, in which nothing was done yet, or the scene where memory runs out.
    pub(crate) fn open(alloc: Global, scene: Scene) -> Result<Machine, Scene>
        ensures opened { IfOk result (λ m. state_of m empty_content ≡ opening scene) }
        ensures scene { IsScene scene }
        ensures short { AreShort scene }
        ensures back { IfErr result (λ back. back ≡ scene) }
    {
        let no_script = Script::new(alloc);
        scripts_are_short(scene.scripts());
        match opening_tables(alloc, &scene, &no_script) {
            Ok((nodes, links, own)) => Ok(Machine {
                scene,
                no_script,
                nodes,
                links,
                past: Past::new(alloc),
                own,
                made: 0,
                found: None,
            }),
            Err(_) => Err(scene),
        }
    }

    /// The machine of the scene in which every node is down, and this happened: what a store holds, where the greatest
    /// number of an instance was found. Where memory runs out the scene comes back.
    pub(crate) fn resumed(
        alloc: Global,
        scene: Scene,
        history: History,
        found: u64,
    ) -> Result<Machine, Scene>
        ensures resumed { IfOk result (λ m. state_of m empty_content ≡ going_on scene history.notes found) }
        ensures scene { IsScene scene }
        ensures short { AreShort scene }
        ensures back { IfErr result (λ back. back ≡ scene) }
    {
        scripts_are_short(scene.scripts());
        match resumed_tables(alloc, &scene) {
            Ok((nodes, links, own)) => Ok(Machine {
                scene,
                no_script: Script::new(alloc),
                nodes,
                links,
                past: Past::of(alloc, history),
                own,
                made: 0,
                found: Some(found),
            }),
            Err(_) => Err(scene),
        }
    }

    /// Whether one step more may be made: fewer than `MAX_STEPS` were, and the history has fewer than `MAX_NOTES`
    /// notes.
    pub(crate) fn has_room(&self) -> bool
        ensures { result ≡ has_room (state_of self.now empty_content) }
    {
        self.made < MAX_STEPS && (self.past.history().notes().len() as u64) < MAX_NOTES
    }

    /// Gathers the acts of a node that the step may have saved, so that its checkpoints share them. Nothing that is to
    /// be seen changes.
    pub(crate) fn gather(&mut self, alloc: Global, step: Step)
        ensures { (c : Content) → state_of self.new c ≡ state_of self.old c }
    {
        let saves = match step {
            Step::Check { .. } => true,
            Step::Deliver { from, to } => {
                matches!(self.links.front(from, to), Some(Message::CheckAsk(_)))
            }
            _ => false,
        };
        if saves {
            // Where memory is wanting the plan makes them itself, or is refused for it.
            let _ = self.past.gather(alloc, step.owner());
        }
    }

    /// Makes room for all that the plan of the node brings. Nothing changes.
    pub(crate) fn make_room(&mut self, owner: NodeId, plan: &Plan) -> Result<(), AllocError>
        requires ready { IsReady (state_of self.old empty_content) }
        requires can { CanApply (state_of self.old empty_content) owner plan.now }
        ensures same { (c : Content) → state_of self.new c ≡ state_of self.old c }
        ensures room { OnOk result (HasRoomFor self.new owner plan.now) }
    {
        make_room_in_row(&mut self.nodes, owner.index())?;
        make_room_on_links(&mut self.links, owner, plan.send.messages())?;
        self.past.make_room(owner)
    }

    /// Carries out the plan of the step, for which there is room; its write was made.
    pub(crate) fn carry_out(&mut self, step: Step, plan: Plan)
        requires ready { IsReady (state_of self.old empty_content) }
        requires can { CanApply (state_of self.old empty_content) (owner step) plan }
        requires room { HasRoomFor self.old (owner step) plan }
        ensures { (c : Content) →
            state_of self.new (content_after (owner step) plan.write c) ≡ applied (state_of self.old c) step plan }
    {
        let Plan {
            change,
            send,
            note,
            ..
        } = plan;
        let owner = step.owner();
        let row = owner.index();
        take_off(&mut self.links, step);
        send_all(&mut self.links, owner, send.into_messages());
        add_note(&mut self.past, note);
        change_node(&mut self.nodes, row, change);
        count(&mut self.own, row);
        self.made += 1;
    }
}
