//! The world refines the abstract machine of checkpoints and rollbacks: each of its steps is a short run of the
//! machine. So what is proved of the machine holds of the world, in its own words. Lemmas and laws, no code.
//!
//! - Contract: every state that steps lead to keeps the headline (the law `all_that_is_promised_holds`, clause
//!   `headline`). The survivors are one run, and in a steady state nothing remembered is lost. The permanent
//!   checkpoints are a consistent cut.
//! - Stands on: kt_tuple, kt_script, kt_space, kt_link, kt_shard, kt_worker, kt_vote, kt_history, kt_scenario, kt_ckpt,
//!   kt_store, kt_protocol, kt_logs, kt_state, kt_node, kt_model
//! - Begin in: `laws.rt`, then `proofs/Represents.antt`: how a state of the world stands for one of the machine.
#![tactic(auto)]

mod laws;

pub use laws::{
    all_that_is_promised_holds, checkpoints_and_rollbacks_are_forced,
    nothing_remembered_is_lost_in_steady_states, permanent_checkpoints_are_causally_closed,
    permanent_tuples_are_those_of_one_run, steady_shards_hold_the_survivors_tuples,
};
