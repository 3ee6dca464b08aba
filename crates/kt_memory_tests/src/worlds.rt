//! What a world makes of want of memory.
//! Cited by no other file of crates/.

use crate::hoard::{BLOCKS, hoard_all};
use kt_core::{OpenError, OpenRefused, Scene, Step, StepError, World};
use kt_scene::{Scenario, WorkKind, read_scene};
use kt_store::{MemStore, StoreError};
use kt_tuple::NodeId;
use std::alloc::{AllocError, Global};
use std::process::Abort;
use std::test::Fail;

type Game = World<MemStore>;

const W1: NodeId = NodeId::Worker(1);

const S1: NodeId = NodeId::Shard(1);

/// A shard, and a worker that puts a tuple and takes one.
const SCENE: &[u8] = b"linda-kt 1\nshards 1\nworker\nout (7)\nin (?int)\nsteps\nend\n";

/// The scene of that text.
fn scene(alloc: Global) -> Result<Scene, Fail> {
    match read_scene(alloc, SCENE, WorkKind::Steps) {
        Ok(Scenario { scene, .. }) => Ok(scene),
        Err(_) => Err(Fail::new("no scene")),
    }
}

/// How many notes there are, and how many steps the node made.
fn counts(world: &Game, node: NodeId) -> (usize, u64) {
    (world.history().notes().len(), world.steps_of(node))
}

/// All memory is taken, `hoard`, but for small blocks that are given back one after the other, `spare`: so each call is
/// tried with a little more than the one before.
#[derive(Drop)]
struct Little {
    hoard: Vec<Vec<u8>>,
    spare: Vec<Vec<u8>>,
}

impl Little {
    fn new(alloc: Global) -> Result<Little, AllocError> {
        let mut spare = Vec::with_capacity(alloc, 4000)?;
        for _ in 0..4000usize {
            spare.push(Vec::with_capacity(alloc, 160)?)?;
        }
        let hoard = Vec::with_capacity(alloc, BLOCKS)?;
        Ok(Little { hoard, spare })
    }

    fn give_back_one(&mut self) {
        drop(self.spare.pop());
    }
}

/// The scene and the store that came back.
fn given_back(rt: &impl Abort, refused: OpenRefused<MemStore>) -> (Scene, MemStore) {
    let OpenRefused {
        cause,
        scene,
        store,
    } = refused;
    assert!(rt; cause == OpenError::OutOfMemory);
    assert!(rt; scene.shards() == 1 && scene.scripts().len() == 1);
    (scene, store)
}

/// Opens the scene with a little more memory each time. Until it is opened scene and store come back.
fn open_with_little(
    rt: &impl Abort,
    alloc: Global,
    scene: Scene,
    little: &mut Little,
) -> Result<Game, Fail> {
    let mut parts = (scene, MemStore::new(alloc));
    for round in 0..2000usize {
        let (scene, store) = parts;
        match World::open(alloc, scene, store) {
            Ok(world) => {
                assert!(rt; round > 10, "{round}");
                return Ok(world);
            }
            Err(refused) => parts = given_back(rt, refused),
        }
        little.give_back_one();
    }
    Err(Fail::new("never opened"))
}

/// Whether memory ran out, in the world or in its store.
fn is_of_memory(error: StepError) -> bool {
    error == StepError::OutOfMemory || error == StepError::Store(StoreError::Memory)
}

/// Makes the step with a little more memory each time. Until it is made neither the notes nor the owner's count of
/// steps change. Answers whether it was refused before it was made.
fn step_with_little(
    rt: &impl Abort,
    alloc: Global,
    world: &mut Game,
    step: Step,
    little: &mut Little,
) -> Result<bool, Fail> {
    let before = counts(world, step.owner());
    for round in 0..2000usize {
        match world.step(alloc, step) {
            Ok(()) => return Ok(round > 0),
            Err(error) => assert!(rt; is_of_memory(error), "{step:?}"),
        }
        assert!(rt; counts(world, step.owner()) == before, "{step:?}");
        little.give_back_one();
    }
    Err(Fail::new("never made"))
}

const ISSUE: Step = Step::Issue { node: W1 };

const REPEAT: Step = Step::Repeat { node: W1 };

const HEAR: Step = Step::Deliver { from: W1, to: S1 };

const ACCEPT: Step = Step::Deliver { from: S1, to: W1 };

const SERVE: Step = Step::Serve {
    shard: S1,
    worker: W1,
    place: 0,
};

const CHECK: Step = Step::Check { node: W1 };

const DECIDE: Step = Step::Decide { node: W1 };

const LEARN: Step = Step::Learn { node: W1 };

const TAKE: Step = Step::Take { node: W1 };

const FAIL: Step = Step::Fail { node: W1 };

const RESTART: Step = Step::Restart { node: W1 };

/// Two requests; a check to its end, with a reply that is kept meanwhile; a failure of the worker and its rollback.
const STEPS: [Step; 26] = [
    ISSUE, HEAR, SERVE, REPEAT, HEAR, ACCEPT, ACCEPT, ISSUE, HEAR, SERVE, CHECK, HEAR, ACCEPT,
    ACCEPT, HEAR, ACCEPT, DECIDE, LEARN, TAKE, HEAR, FAIL, RESTART, HEAR, ACCEPT, ACCEPT, DECIDE,
];

/// Makes the steps, each with all memory taken but what it needs. Some are refused before they are made.
fn steps_with_little(
    rt: &impl Abort,
    alloc: Global,
    world: &mut Game,
    steps: &[Step],
    little: &mut Little,
) -> Result<(), Fail> {
    let mut refused = 0u8;
    for step in steps {
        hoard_all(alloc, &mut little.hoard)?;
        if step_with_little(rt, alloc, world, *step, little)? {
            refused = refused.saturating_add(1);
        }
    }
    assert!(rt; refused >= 3, "{refused} of the steps were refused first");
    Ok(())
}

/// The world in which the steps were made with little memory, when the hoard is given back.
fn played_with_little(rt: &impl Abort, alloc: Global) -> Result<Game, Fail> {
    let scene = scene(alloc)?;
    match Little::new(alloc) {
        Ok(mut little) => {
            let played = played_with(rt, alloc, scene, &mut little);
            drop(little);
            played
        }
        Err(error) => {
            drop(scene);
            Err(Fail::from(error))
        }
    }
}

/// The world of the scene in which the steps were made with this memory.
fn played_with(
    rt: &impl Abort,
    alloc: Global,
    scene: Scene,
    little: &mut Little,
) -> Result<Game, Fail> {
    if let Err(error) = hoard_all(alloc, &mut little.hoard) {
        drop(scene);
        return Err(Fail::from(error));
    }
    let mut world = open_with_little(rt, alloc, scene, little)?;
    match steps_with_little(rt, alloc, &mut world, &STEPS, little) {
        Ok(()) => Ok(world),
        Err(fail) => {
            drop(world);
            Err(fail)
        }
    }
}

/// With ever more memory a world is opened and each step made, as it would have been with much of it.
#[test]
fn little_memory(rt: HostRuntime) -> Result<(), Fail> {
    let alloc = rt.alloc();
    let world = played_with_little(&rt, alloc)?;
    let seen = has_played(&rt, alloc, &world);
    drop(world);
    seen
}

/// Both requests were served, and nothing was lost.
fn has_played(rt: &impl Abort, alloc: Global, world: &Game) -> Result<(), Fail> {
    assert_eq!(rt; counts(world, W1), (12, 17));
    assert_eq!(rt; counts(world, S1), (12, 9));
    let survivors = world.history().survivors(alloc)?;
    assert_eq!(rt; world.history().lost_count(), 0);
    assert_eq!(rt; survivors.len(), 2);
    for (service, number) in survivors.iter().zip(1u64..) {
        assert!(rt; service.worker == 1 && service.number == number);
    }
    Ok(())
}
