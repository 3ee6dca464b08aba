//! A page in which a person goes through a scenario step by step: the picture, the state after each step, and the list
//! of all steps.
//!
//! - Contract: a page has the picture's row of each step from the first one that is shown on, in order (`page_of`,
//!   clause `rows`). What it shows of nodes and links behind the last step is what the state there has (`watch`,
//!   clauses `cells` and `story`). The lines that a change leaves are the new ones (`splice_of`, clause `put`). Text
//!   stands in the page without signs of markup, and in the script's data without `<` (`push_escaped` of kt_draw,
//!   `push_string`).
//! - Stands on: kt_tuple, kt_history, kt_scenario, kt_store, kt_model, kt_core, kt_trace, kt_tell, kt_story, kt_draw,
//!   kt_cells
//! - Begin in: `page.rt`, then `watch.rt` for what changes from step to step, and `fate.rt` for what became of
//!   services. `look.rt` and `script.rt` are constant text.
#![tactic(auto)]

mod fate;
mod json;
mod list;
mod look;
mod page;
mod parts;
mod script;
mod splice;
mod table;
mod watch;

pub use page::{Drawn, page_of};
