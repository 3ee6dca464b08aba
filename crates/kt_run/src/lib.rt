//! From the bytes of a scenario of fault lines to the bytes of the report of its run by threads, or of its journal.
//!
//! - Contract: if the store that is given back is honest, some list of steps led from the start of the scene's world to
//!   what is told, and no node had a next step then (`run_text_returning_store`, clause `written`).
//! - Stands on: kt_tuple, kt_script, kt_space, kt_shard, kt_scenario, kt_text, kt_store, kt_logs, kt_state, kt_node,
//!   kt_model, kt_core, kt_scene, kt_stage
//! - Begin in: `running.rt`, the whole way, then `laws.rt`: the replay of a journal leads to the same state.
#![tactic(auto)]

mod fault;
mod laws;
mod running;

pub use fault::RunTextFault;
pub use laws::{
    what_a_resumed_run_tells_is_resumed, what_a_run_tells_is_replayed, what_was_made_can_be_said,
    what_was_made_is_replayed,
};
pub use running::{Output, run_text, run_text_returning_store};
