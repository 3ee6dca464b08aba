//! The logs of workers and shards: which acts each may make one after the other, and what they make of it. Definitions
//! and lemmas, no code.
//!
//! - Contract: any choice of acts of such logs that is closed under causes is one run of a sequential tuple space (the
//!   lemma `closed_run`). In a well-formed history it is in the order of the scripts (`closed_order`).
//! - Stands on: kt_tuple, kt_script, kt_space, kt_shard, kt_worker, kt_history
//! - Begin in: `specs/Order.antt`, what the order of the scripts is, then `specs/Legal.antt` for logs that may be
//!   made.
#![tactic(auto)]
