//! What happens in a scenario, from the bytes of its text to those that a person looks at: of a trace, of a picture or
//! of a page.
//!
//! - Contract: the trace of the text that was read is written, and the answer is how its steps ended (`write_trace`,
//!   clause `ends`). What is drawn of a text has a row for each step that was chosen, in order (`write_drawing`, clause
//!   `ends`).
//! - Stands on: kt_scenario, kt_text, kt_model, kt_core, kt_scene, kt_trace, kt_tell, kt_story, kt_draw, kt_page
//! - Begin in: `telling.rt` for a trace, `drawing.rt` for a picture or a page.
#![tactic(auto)]

mod drawing;
mod telling;

pub use drawing::{DrawFault, Drawing, Kind, write_drawing};
pub use telling::{Form, write_trace};
