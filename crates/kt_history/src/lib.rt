//! The history: the notes (events) of what happened, each node's log, and what of it survives.
//!
//! - Contract: an act survives exactly where nothing in its causal past was rolled back (`History::survives`), and the
//!   survivors are the services that do (`History::survivors`, clause `survive`).
//! - Stands on: kt_tuple, kt_space
//! - Begin in: `note.rt` for what a note is, then `history.rt`. `mark.rt` has what it keeps of each note, so that it
//!   need not look at the past.
#![tactic(auto)]

mod equality;
mod history;
mod laws;
mod mark;
mod note;
mod rows;
mod space;

pub use history::History;
pub use kt_tuple::Service;
pub use laws::{
    a_run_has_one_space, closed_choices_are_fronts, happened_before_is_transitive, logs_are_stacks,
    nothing_is_lost_without_a_cut, survival_is_decided, survivors_are_fronts,
    survivors_keep_their_past, the_past_goes_back_step_by_step, well_formed_histories_grow,
};
pub use note::{Act, Note, What};
pub use space::space_of;
