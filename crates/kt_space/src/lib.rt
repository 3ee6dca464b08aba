//! A bag: tuples in order of arrival, from which a template picks. Those that it may match are found without a look at
//! the others.
//!
//! - Contract: `Bag::take_nth` (clauses `taken` and `left`) takes the match of a number, counted in order of arrival,
//!   and leaves the others in their order. `Bag::put` (clauses `put` and `comes_back`) puts a tuple behind all others,
//!   or gives it back.
//! - Stands on: kt_tuple; of the kit: indexmap
//! - Begin in: `bag.rt`, then `search.rt` for how a match is found. `index.rt`, `groups.rt` and `chains.rt` are the
//!   index below, each over the next.
#![tactic(auto)]

mod bag;
mod chains;
mod groups;
mod index;
mod key;
mod laws;
mod search;

pub use bag::Bag;
pub use laws::{
    a_bag_makes_steps_of_the_space, a_match_is_taken_from_its_place,
    no_match_is_given_where_fewer_match,
};
