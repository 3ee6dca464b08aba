//! Who takes part in a world.
//! Cited by other crates.

ghost use Rattle.std.specs.Prelude.{◌≡◌, ◌↔◌, ◌≤◌, length, IsSome, IfSome};
ghost use Rattle.std.specs.Option.{option_copied};

use crate::step::Step;
use kt_script::Script;
use kt_tuple::{MAX_SHARDS, MAX_WORKERS, NodeId};
use std::marker::Model;

/// Who takes part: 1 to `MAX_WORKERS` workers, each with its script, and 1 to `MAX_SHARDS` shards.
#[derive(Debug, Drop)]
pub struct Scene {
    shards: u8,
    scripts: Vec<Script>,
}

impl Model for Scene {
    ghost use Rattle.kt_scenario.specs.Scene.{SceneModel, IsScene};

    ghost Value = { SceneModel };

    ghost view = { λ s. record { shards = s.shards; scripts = s.scripts.items } };

    ghost invariant = { λ s. IsScene (record { shards = s.shards; scripts = s.scripts.items }) };
}

impl Scene {
    ghost use Rattle.kt_scenario.specs.Scene.{SceneModel, IsScene, script_in};
    ghost use Rattle.kt_scenario.specs.Scene.{is_worker, is_shard, is_node, are_neighbours, is_in_scene};

    /// The scene of so many shards and of a worker for each script, or `None` where there are none or too many of
    /// either.
    pub fn new(shards: u8, scripts: Vec<Script>) -> Option<Scene>
        ensures within { IsSome result ↔ IsScene (record { shards = shards; scripts = scripts.items }) }
        ensures value { IfSome result (λ s. s ≡ record { shards = shards; scripts = scripts.items }) }
    {
        let workers = scripts.len();
        let has_shards = 1 <= shards && shards <= MAX_SHARDS;
        if has_shards && 1 <= workers && workers <= usize::from(MAX_WORKERS) {
            Some(Scene { shards, scripts })
        } else {
            None
        }
    }

    /// How many shards there are, from 1 to `MAX_SHARDS`.
    pub fn shards(&self) -> u8
        ensures value { result ≡ self.now.shards }
        ensures some { 1 ≤ result }
        ensures few { result ≤ MAX_SHARDS }
    {
        let Scene { shards, .. } = self;
        *shards
    }

    /// The script of each worker, the first worker's first.
    pub fn scripts(&self) -> &[Script]
        ensures value { result.now ≡ self.now.scripts }
        ensures some { 1 ≤ length self.now.scripts }
        ensures few { length self.now.scripts ≤ MAX_WORKERS }
    {
        &self.scripts
    }

    /// The script of this worker, where the scene has it.
    pub fn script_of(&self, node: NodeId) -> Option<&Script>
        ensures { option_copied result ≡ script_in self.now node }
    {
        match node {
            NodeId::Worker(0) | NodeId::Shard(_) => None,
            NodeId::Worker(number) => self.scripts.get(usize::from(number - 1)),
        }
    }

    /// Whether the node is a worker of the scene.
    pub fn has_worker(&self, node: NodeId) -> bool
        ensures { result ≡ is_worker self.now node }
    {
        self.script_of(node).is_some()
    }

    /// Whether the node is a shard of the scene.
    pub fn has_shard(&self, node: NodeId) -> bool
        ensures { result ≡ is_shard self.now node }
    {
        match node {
            NodeId::Worker(_) => false,
            NodeId::Shard(number) => 1 <= number && number <= self.shards,
        }
    }

    /// Whether one is a worker of the scene and the other a shard: only these send each other messages.
    pub fn are_neighbours(&self, p: NodeId, q: NodeId) -> bool
        ensures { result ≡ are_neighbours self.now p q }
    {
        self.has_worker(p) && self.has_shard(q) || self.has_shard(p) && self.has_worker(q)
    }

    /// Whether the node is in the scene.
    pub fn has(&self, node: NodeId) -> bool
        ensures { result ≡ is_node self.now node }
    {
        self.has_worker(node) || self.has_shard(node)
    }

    /// Whether the step names nodes of the scene, of the kinds that it is for.
    pub fn is_for(&self, step: Step) -> bool
        ensures { result ≡ is_in_scene self.now step }
    {
        match step {
            Step::Issue { node } | Step::Repeat { node } => self.has_worker(node),
            Step::Deliver { from, to } => self.are_neighbours(from, to),
            Step::Serve { shard, worker, .. } => self.has_shard(shard) && self.has_worker(worker),
            Step::Take { node }
            | Step::Check { node }
            | Step::Decide { node }
            | Step::Abandon { node }
            | Step::Learn { node }
            | Step::Fail { node }
            | Step::Restart { node } => self.has(node),
        }
    }
}
