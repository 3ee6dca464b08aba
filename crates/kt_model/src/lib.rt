//! The world as plain data: its state, what each step makes of it, and what holds of every state that steps lead to.
//! The code that meets these definitions is kt_core's, so a law is not checked again when a body changes there.
//!
//! - Contract: in every state that steps lead to, the surviving services are one run of a sequential tuple space, in
//!   the order of the scripts (the law `survivors_are_one_run`, clause `one_run`). The other laws stand in `laws.rt`
//!   too.
//! - Stands on: kt_tuple, kt_script, kt_space, kt_link, kt_shard, kt_worker, kt_vote, kt_history, kt_scenario, kt_ckpt,
//!   kt_store, kt_logs, kt_state, kt_node; of the kit: thiserror
//! - Begin in: `error.rt`, why a step is refused, then `specs/State.antt` and `specs/Effect.antt`.
#![tactic(auto)]

mod error;
mod laws;
mod read_set;
mod store_reads;

pub use error::StepError;
pub use kt_scenario::{MAX_NOTES, MAX_STEPS, Step};
pub use laws::{
    checkpoints_hold_the_fronts_of_logs, logs_are_cut_by_their_own_node_alone,
    no_step_is_refused_for_damage, only_a_failure_makes_the_first_cut,
    services_have_the_cause_of_their_hearing, steps_note_one_thing_at_most, survivors_are_one_run,
    the_store_of_an_opened_world_is_never_full, without_a_cut_nothing_is_lost,
    workers_stand_as_their_answers_say,
};
pub use read_set::{ReadSet, VerdictQuery};
pub use store_reads::StoreReads;
