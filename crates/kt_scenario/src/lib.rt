//! A scenario as data: who takes part, the steps of a world, and fault lines.
//!
//! - Contract: a `Scene` always has shards and workers, and no more than the limits of either (`Scene::new`, clause
//!   `within`). A failure and a check mark, of the lines of their kind and node that are not marked, the one that is
//!   due first (`Faults::spend`, whose clause names `spent`).
//! - Stands on: kt_tuple, kt_script, kt_link
//! - Begin in: `scene.rt`, then `step.rt`.
#![tactic(auto)]

mod faults;
mod scene;
mod step;

pub use faults::{Fault, FaultKind, FaultLine, Faults};
pub use scene::Scene;
pub use step::{MAX_NOTES, MAX_STEPS, Step};
