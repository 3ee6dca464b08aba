//! Random fault lines for a scene: the same ones for the same seed, on every machine.
//!
//! - Contract: as many lines as were asked for stand behind the others, each of them one that a scenario of the scene
//!   may have, and they are a function of the scene, their number and the seed (`push_random_faults`, clauses `drawn`,
//!   `many` and `valid`).
//! - Stands on: kt_tuple, kt_scenario, kt_text; of the kit: rand_core, rand_pcg
//! - Begin in: `drawing.rt`.
#![tactic(auto)]

mod drawing;

pub use drawing::{Chaos, MAX_AFTER, ONE_CHECK_IN, push_random_faults};
