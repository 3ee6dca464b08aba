//! Labels of messages, and links: a queue for each ordered pair of a worker and a shard.
//!
//! - Contract: a message is sent behind all others of its pair (`Links::push`, clause `sent`) and taken off in front of
//!   them (`Links::pop`, clause `first`). No call touches another pair's queue (clause `alone`).
//! - Stands on: kt_tuple
//! - Begin in: `links.rt`, then `label.rt`.
#![tactic(auto)]

mod label;
mod laws;
mod links;

pub use label::Label;
pub use laws::{
    labels_are_in_one_order, labels_compare_by_incarnation_first, neighbours_have_their_own_places,
    other_links_stay,
};
pub use links::Links;
