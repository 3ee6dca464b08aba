//! Random fault lines of a scene, the same ones for the same seed.
//! Cited by other crates.

ghost use Rattle.std.specs.Prelude.{◌≡◌, ◌<◌, ◌≤◌, ◌++◌, length, map, All, OnOk};
ghost use Rattle.kt_text.specs.Scenario.{IsFaultLine};
ghost use Rattle.kt_text.specs.Work.{unspent};
ghost use Rattle.kt_chaos.specs.Drawing.{below, drawn_fault, drawn_faults, kind_at, node_at, node_count, random_faults};

use kt_scenario::{Fault, FaultKind, Faults, Scene};
use kt_tuple::NodeId;
use rand_core::{Rng, SeedableRng};
use rand_pcg::Pcg32;
use std::alloc::AllocError;

/// Which random faults a scenario is given.
#[derive(Clone, Copy, Debug, PartialEq, Eq)]
pub struct Chaos {
    /// How many.
    pub count: u32,
    /// The seed of the generator that gives them.
    pub seed: u64,
}

/// The most steps of its own after which a node has a random fault.
pub const MAX_AFTER: u32 = 40;

/// Of so many random faults one is a check, and the others are failures, as far as the generator is fair.
pub const ONE_CHECK_IN: u32 = 4;

/// A number below this one, from the generator's next word.
fn below<R: Rng>(rng: &mut R, count: u32) -> u32
    requires { 0 < count }
    ensures drawn { (result, R.stream rng.new) ≡ below count (R.stream rng.old) }
    ensures within { result < count }
{
    rng.next_u32() % count
}

/// A check or a failure.
fn kind_at(number: u32) -> FaultKind
    ensures { result ≡ kind_at number }
{
    if number == 0 {
        FaultKind::Check
    } else {
        FaultKind::Fail
    }
}

/// How many nodes the scene has.
fn nodes_in(scene: &Scene) -> u32
    ensures value { result ≡ node_count scene.now }
    ensures some { 1 ≤ scene.now.shards }
    ensures few { result < 25 }
{
    scene.scripts().len() as u32 + u32::from(scene.shards())
}

/// The node at this place in node order, counted from 0.
fn node_at(scene: &Scene, place: u32) -> NodeId
    requires { place < node_count scene.now }
    ensures { result ≡ node_at scene.now place }
{
    let workers = scene.scripts().len() as u32;
    let shards = u32::from(scene.shards());
    if place < workers {
        NodeId::Worker((place + 1) as u8)
    } else {
        NodeId::Shard((place - workers + 1) as u8)
    }
}

/// A fault from the generator's next three words: its kind, its node, and when it is due.
fn draw_fault<R: Rng>(scene: &Scene, nodes: u32, rng: &mut R) -> Fault
    requires all { nodes ≡ node_count scene.now }
    requires some { 1 ≤ scene.now.shards }
    ensures { (result, R.stream rng.new) ≡ drawn_fault scene.now (R.stream rng.old) }
{
    let kind = kind_at(below(rng, ONE_CHECK_IN));
    let node = node_at(scene, below(rng, nodes));
    let after = u64::from(below(rng, MAX_AFTER + 1));
    Fault { kind, node, after }
}

/// So many faults behind the others.
fn push_drawn<R: Rng>(
    faults: &mut Faults,
    scene: &Scene,
    nodes: u32,
    count: u32,
    rng: &mut R,
) -> Result<(), AllocError>
    requires all { nodes ≡ node_count scene.now }
    requires some { 1 ≤ scene.now.shards }
    ensures { OnOk result (faults.new ≡ faults.old ++ map unspent (drawn_faults count scene.now (R.stream rng.old))) }
{
    for _ in 0..count {
        let fault = draw_fault(scene, nodes, rng);
        faults.push(fault)?;
    }
    Ok(())
}

/// So many random fault lines behind the others: failures mostly, and checks, each of a node of the scene, due after at
/// most `MAX_AFTER` steps of its own. They are a function of the scene, their number and the seed: the generator is
/// `Pcg32` of the kit's `rand_pcg`, which gives the same words on every machine. Where memory runs out, some of the
/// lines may be there.
pub fn push_random_faults(
    faults: &mut Faults,
    scene: &Scene,
    chaos: Chaos,
) -> Result<(), AllocError>
    ensures drawn { OnOk result (faults.new ≡ faults.old ++ map unspent (random_faults chaos scene.now)) }
    ensures many { length (random_faults chaos scene.now) ≡ chaos.count }
    ensures valid { All (IsFaultLine scene.now) (map unspent (random_faults chaos scene.now)) }
{
    let nodes = nodes_in(scene);
    let mut rng = Pcg32::seed_from_u64(chaos.seed);
    push_drawn(faults, scene, nodes, chaos.count, &mut rng)
}
