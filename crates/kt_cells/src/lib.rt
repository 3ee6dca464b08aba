//! What a page shows of a world: cells, each a list of lines of text.
//!
//! - Contract: the cells are those of the state, of all nodes and then of all links (`cells_of`).
//! - Stands on: kt_tuple, kt_script, kt_space, kt_shard, kt_worker, kt_vote, kt_history, kt_scenario, kt_ckpt,
//!   kt_store, kt_state, kt_model, kt_core, kt_trace, kt_story
//! - Begin in: `cells.rt`, then `node_cells.rt`; `ballot_cells.rt`, `request_cells.rt` and `saved_cells.rt` have a kind
//!   of cell each, and `message.rt` the line of a message.
#![tactic(auto)]

mod adding;
mod ballot_cells;
mod cells;
mod message;
mod node_cells;
mod request_cells;
mod saved_cells;

pub use adding::add_text;
pub use cells::cells_of;
