//! Ballots: whom a node asked in an instance, and what the votes that came in come to.
//!
//! - Contract: whatever votes come, of each node that was asked its first vote for this ballot is counted, and no other
//!   (`Ballot::count_vote`, clauses `counts` and `after`).
//! - Stands on: kt_tuple
//! - Begin in: `ballot.rt`, then `vote.rt` for what comes in and `asker.rt` for whom the node's own vote goes to.
#![tactic(auto)]

mod asker;
mod ballot;
mod laws;
mod vote;

pub use asker::Asker;
pub use ballot::Ballot;
pub use laws::{nodes_are_in_one_order, votes_make_the_ballot};
pub use vote::Vote;
