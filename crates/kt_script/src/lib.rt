//! Scripts: commands with variables, and the operation that a worker asks for next.
//!
//! - Contract: after any list of answers the operation that a script gives next is the one that it asks when it is read
//!   from its beginning (`Script::next`, clause `asks`).
//! - Stands on: kt_tuple; of the kit: arrayvec, indexmap, thiserror
//! - Begin in: `command.rt` for what a script is made of, then `script.rt`, which keeps the rules. `env.rt` and
//!   `next.rt` go from one operation to the next.
#![tactic(auto)]

mod command;
mod env;
mod equality;
mod laws;
mod meaning;
mod name;
mod next;
mod places;
mod rules;
mod script;
mod script_error;
mod variables;
mod writing;

pub use command::{Actual, Actuals, Command, Operation, Pattern, Slot};
pub use env::Env;
pub use laws::{
    a_script_keeps_its_limits, answers_lead_to_places_of_the_script, bind_changes_only_formals,
    names_have_one_kind, next_and_bind_reach_what_is_asked, variables_keep_their_kinds,
};
pub use name::{MAX_NAME, Name, is_name, is_name_character};
pub use next::Next;
pub use places::Places;
pub use script::{MAX_COMMANDS, MAX_VARIABLES, Script};
pub use script_error::ScriptError;
