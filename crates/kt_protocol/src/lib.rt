//! The protocol of checkpoints and rollbacks, on a machine of its own: its steps, and the theorem on every run.
//! Definitions and laws, no code; docs/PROTOCOL.md tells the argument.
//!
//! - Contract: in every state that steps reach, what a permanent checkpoint has heard, the sender's has sent (the law
//!   `permanent_checkpoints_agree`). Three more laws stand beside it: `nothing_remembered_is_undone`,
//!   `rolling_is_forced` and `held_is_forced`.
//! - Stands on: none
//! - Begin in: `laws.rt`, the theorem, then `specs/Machine.antt` and `specs/Steps.antt`, the machine that it is about.
#![tactic(auto)]

mod laws;

pub use laws::{
    a_check_can_succeed_while_a_node_is_down, a_rollback_can_cut_a_log, held_is_forced,
    nothing_remembered_is_undone, permanent_checkpoints_agree, rolling_is_forced,
    the_row_of_a_check_ask_is_a_step, the_row_of_a_rollback_ask_is_a_step,
};
