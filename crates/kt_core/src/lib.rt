//! The world of workers and shards over a store of checkpoints: a scene, what is on its way, what happened, and the
//! step that changes it.
//!
//! - Contract: while the store is honest, a step that is made has the effect of its rule (`World::step`, clause
//!   `effect`), and a refused one changes nothing (`same`). Every state keeps the headline then (`headline`).
//! - Stands on: kt_tuple, kt_script, kt_space, kt_link, kt_shard, kt_worker, kt_vote, kt_history, kt_scenario, kt_ckpt,
//!   kt_store, kt_protocol, kt_logs, kt_state, kt_node, kt_model, kt_resume, kt_refinement; of the kit: arrayvec,
//!   thiserror
//! - Begin in: `world.rt`, which has the public calls of a world but for `resume` (`resuming.rt`), then `stepping.rt`
//!   for the order within a step.
#![tactic(auto)]

mod at_once;
mod causes;
mod change;
mod lending;
mod machine;
mod opening;
mod planning;
mod read_sets;
mod resuming;
mod roles;
mod short_plans;
mod space;
mod start;
mod stepping;
mod store_reads;
mod tables;
mod traffic;
mod world;
mod writing;

pub use kt_model::StepError;
pub use kt_scenario::{Fault, FaultKind, FaultLine, Faults, MAX_STEPS, Scene, Step};
pub use kt_script::{
    Actual, Actuals, Command, MAX_COMMANDS, Name, Operation, Pattern, Script, ScriptError, Slot,
};
pub use resuming::{ResumeError, ResumeRefused};
pub use start::{Start, StartError, StartRefused};
pub use world::{OpenError, OpenRefused, World};
