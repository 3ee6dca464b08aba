//! Tests of what public calls make of want of memory: not the product. They take away all memory that is left, so they
//! are run as a program is, and stand apart from those that `tests/tried` runs.
//!
//! - Contract: none, since these are tests. They try clauses such as `same` of `World::step`: refused for want of
//!   memory, a step changes nothing.
//! - Stands on: kt_tuple, kt_script, kt_history, kt_store, kt_core, kt_scene
//! - Begin in: `hoard.rt`, which takes the memory away, then `scenarios.rt` for texts and `worlds.rt` for steps.
#![tactic(auto)]

#[cfg(test)]
mod hoard;
#[cfg(test)]
mod scenarios;
#[cfg(test)]
mod worlds;
