//! What is wrong with a scenario's text, said in words, and what each number and name that is printed means.
//!
//! - Contract: what `explain_text` says is printable ASCII and line feeds, whatever the text holds (clause `plain`).
//!   The word that `nearest` gives is one of those handed in, and none of them is nearer. `part_of` gives the part to
//!   which the lines above lead. What an answer says is tested and not proved.
//! - Stands on: kt_tuple, kt_script, kt_scenario, kt_text; of the kit: strsim
//! - Begin in: `explain.rt`, which goes by the fault, then `part.rt` for where a line stands. `reason.rt` has what is
//!   said, and the other files find which of it is meant.
#![tactic(auto)]

mod case;
mod command_form;
mod ending;
mod explain;
mod fault_word;
mod finding;
mod header;
mod limit;
mod meaning;
mod meaning_table;
mod name;
mod near;
mod node;
mod part;
mod place;
mod reason;
mod script_word;
mod shown;
mod spacing;
mod step_word;
mod tuple;
mod variable;
mod words;

pub use explain::explain_text;
pub use meaning::{Meaning, MeaningKind, meanings, meanings_of};
pub use near::{MAX_EDITS, nearest};
pub use part::{Part, part_of};
