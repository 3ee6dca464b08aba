//! A picture of what happens in a scenario, as SVG: a column for each node, a row for each step.
//!
//! - Contract: each step has one row, in order, with its number and its mark: that of a service that survives just
//!   where the history says so (`picture_of`, clause `drawn`). Rows and columns stand apart (laws
//!   `rows_stand_one_below_the_other`, `columns_stand_side_by_side`). Text is written without signs of markup
//!   (`push_escaped`, and the law `what_is_escaped_has_no_markup`).
//! - Stands on: kt_tuple, kt_history, kt_state, kt_trace, kt_tell, kt_story
//! - Begin in: `picture.rt`, then `row.rt` for a row and `plane.rt` for what stands where. How rows are drawn is
//!   defined in specs/Rows.antt.
#![tactic(auto)]

mod band;
mod element;
mod escape;
mod foot;
mod head;
mod laws;
mod legend;
mod life;
mod part;
mod picture;
mod plane;
mod row;
mod sheet;
mod style;
mod title;
mod way;

pub use element::{Point, push_box, push_label, push_line, push_use};
pub use escape::push_escaped;
pub use laws::{
    columns_stand_side_by_side, rows_stand_one_below_the_other, what_is_escaped_has_no_markup,
};
pub use life::{Stretch, mode_before};
pub use picture::{Form, MOST_ROWS, picture_of};
pub use plane::{BAND, BLOCK, GAP, NARROWEST, NUMBERS, Plane, ROW, SHORT, TITLE, WIDE, WIDEST};
pub use title::{refused_text, tally_of, title_of};
