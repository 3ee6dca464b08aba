//! The first worker hands the task 7 over, which a checkpoint then holds, and the second takes it, which is lost when
//! the shard fails. So the second rolls back, takes the task again, and says which one it has done.
//!
//! What is proved beside: the store stays honest, whatever the steps do, as nothing can fail one in memory. So the
//! headline holds of this world after each step: `space` makes up the tuples of the surviving services, and its clause
//! says that these services are one run of a tuple space that leads there. The laws of kt_model hold too, here that
//! each worker stands in its script where the answers in its log say.
#![tactic(auto)]

ghost use Rattle.std.specs.Prelude.{IfOk, IsTrue};
ghost use Rattle.kt_history.specs.Survival.{services};
ghost use Rattle.kt_model.specs.Workers.{WorkersFollowLogs};
ghost use Rattle.kt_tuple.specs.Space.{IsSpaceRun};

use kt_core::{Scene, Step, World};
use kt_history::{History, space_of};
use kt_model::workers_stand_as_their_answers_say;
use kt_script::{Actual, Actuals, Command, Name, Operation, Pattern, Script, Slot};
use kt_space::Bag;
use kt_store::MemStore;
use kt_tuple::{Kind, NodeId, Str, Value};
use std::alloc::{AllocError, Global};
use std::test::Fail;

const WORKERS: [NodeId; 2] = [NodeId::Worker(1), NodeId::Worker(2)];

const SHARD: NodeId = NodeId::Shard(1);

fn main(rt: HostRuntime) -> Result<(), Fail> {
    let alloc = rt.alloc();
    let mut world = opened(alloc)?;
    let [giver, taker] = WORKERS;
    go_on(alloc, &mut world, Step::Issue { node: giver });
    go_on(alloc, &mut world, Step::Check { node: SHARD });
    go_on(alloc, &mut world, Step::Issue { node: taker });
    go_on(alloc, &mut world, Step::Fail { node: SHARD });
    go_on(alloc, &mut world, Step::Restart { node: SHARD });
    print_survivors(&rt, &world, "after the rollback")?;
    go_on(alloc, &mut world, Step::Issue { node: taker });
    go_on(alloc, &mut world, Step::Issue { node: taker });
    print_survivors(&rt, &world, "in the end")
}

/// A shard and two workers: the script of the first is `out (7)`, that of the second `in (?int task)` and then
/// `out ("done", task)`.
fn opened(alloc: Global) -> Result<World<MemStore>, Fail>
    ensures honest { IfOk result (λ w. IsTrue w.is_honest) }
{
    let task = Name::new(b"task").ok_or("a name")?;
    let done = Str::new(b"done").ok_or("a string")?;
    let seven = tuple(alloc, &[Actual::Literal(Value::Int(7))])?;
    let any_task = template(alloc, Slot::Formal(Kind::Int, Some(task.copy())))?;
    let said = tuple(
        alloc,
        &[Actual::Literal(Value::Str(done)), Actual::Variable(task)],
    )?;
    let (mut gives, mut takes) = (Script::new(alloc), Script::new(alloc));
    gives.push(Command::Ask(Operation::Out(seven)))?;
    takes.push(Command::Ask(Operation::In(any_task)))?;
    takes.push(Command::Ask(Operation::Out(said)))?;
    let mut scripts = Vec::new(alloc);
    scripts.push(gives)?;
    scripts.push(takes)?;
    let scene = Scene::new(1, scripts).ok_or("a scene")?;
    let world = World::open(alloc, scene, MemStore::new(alloc)).ok();
    Ok(world.ok_or("a world")?)
}

fn tuple(alloc: Global, actuals: &[Actual]) -> Result<Actuals, Fail> {
    let mut places = Vec::new(alloc);
    for actual in actuals {
        places.push(actual.copy())?;
    }
    Ok(Actuals::new(places).ok_or("a tuple")?)
}

fn template(alloc: Global, slot: Slot) -> Result<Pattern, Fail> {
    let mut places = Vec::new(alloc);
    places.push(slot)?;
    Ok(Pattern::new(places).ok_or("a template")?)
}

/// Tries the step. One that is not enabled is refused, and changes nothing.
fn try_step(alloc: Global, world: &mut World<MemStore>, step: Step)
    ensures honest { IsTrue world.old.is_honest → IsTrue world.new.is_honest }
{
    world.step(alloc, step).ok();
}

/// Makes the step; then all that is on its way arrives, what waits is served, and what has all votes is decided.
fn go_on(alloc: Global, world: &mut World<MemStore>, step: Step)
    ensures honest { IsTrue world.old.is_honest → IsTrue world.new.is_honest }
{
    try_step(alloc, world, step);
    let (shard, place) = (SHARD, 0);
    for _ in 0..8u8 {
        for worker in WORKERS {
            let (there, back) = ((worker, SHARD), (SHARD, worker));
            try_step(alloc, world, deliver(there));
            let serve = Step::Serve {
                shard,
                worker,
                place,
            };
            try_step(alloc, world, serve);
            try_step(alloc, world, deliver(back));
        }
        try_step(alloc, world, Step::Decide { node: SHARD });
    }
}

fn deliver((from, to): (NodeId, NodeId)) -> Step {
    Step::Deliver { from, to }
}

/// What happened so far. It says that some steps lead to this world, and the law says of each such world where its
/// workers stand.
fn history_of(world: &World<MemStore>) -> &History
    requires { IsTrue world.now.is_honest }
    ensures follow { WorkersFollowLogs world.now.state }
{
    workers_stand_as_their_answers_say();
    world.history()
}

/// The tuples in the space after the surviving services. `space_of` promises this of services that are one run of a
/// tuple space. That these are one, whatever steps were made, is the headline of the world.
fn space(alloc: Global, world: &World<MemStore>) -> Result<Bag, AllocError>
    requires { IsTrue world.now.is_honest }
    ensures one_run { IfOk result (λ bag. IsSpaceRun (services world.now.state.history) bag.tuples) }
{
    let survivors = world.history().survivors(alloc)?;
    space_of(alloc, &survivors)
}

/// Prints how many services were lost, which survive, and how many tuples they leave.
fn print_survivors(rt: &HostRuntime, world: &World<MemStore>, when: &str) -> Result<(), Fail>
    requires { IsTrue world.now.is_honest }
{
    let alloc = rt.alloc();
    let history = history_of(world);
    println!(rt; "{when}: {} lost", history.lost_count())?;
    for service in &history.survivors(alloc)? {
        let mut text = Vec::new(alloc);
        service.op.write_to(&mut text)?;
        let text = String::from_utf8(text).map_err(|_| "a text")?;
        println!(rt; "w{}.{} {text}", service.worker, service.number)?;
    }
    println!(rt; "space {}", space(alloc, world)?.len())?;
    Ok(())
}
