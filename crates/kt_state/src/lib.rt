//! What a node is: live or down, its labels and what it keeps back; what a change makes of it; the checkpoint of a
//! moment, and the node of a checkpoint; what a plan may have, and what a node asks of others and votes.
//!
//! - Contract: `Node::change` makes of a node just what the change says (its clause names `changed`), and takes no
//!   memory: room is made before (`Node::reserve`). `checkpoint_of` gives what is stored of a node, and `Stored::load`
//!   the node that goes on from that (their clauses name `checkpoint_of` and `loaded_by`).
//! - Stands on: kt_tuple, kt_script, kt_space, kt_link, kt_shard, kt_worker, kt_vote, kt_history, kt_ckpt, kt_store; of
//!   the kit: thiserror
//! - Begin in: `live.rt`, which says what a node has, then `change.rt` and `updating.rt` for what becomes of it, and
//!   `plan.rt` for what a step may do.
#![tactic(auto)]

mod asking;
mod boxed;
mod change;
mod labels;
mod live;
mod loading;
mod message;
mod node;
mod plan;
mod refusal;
mod role;
mod saving;
mod short_update;
mod stored;
mod updating;
mod voting;

pub use asking::{Sent, check_asks, roll_asks};
pub use boxed::Boxed;
pub use change::{BodyChange, Change, KeptChange, Loaded, Update};
pub use labels::{label_at, reaches, up_to};
pub use live::{Body, Live, Phase};
pub use message::{AppMessage, Ask, Message, Talk};
pub use node::{Mode, Node};
pub use plan::{Outbox, Plan, Write};
pub use refusal::Refusal;
pub use role::Role;
pub use saving::checkpoint_of;
pub use short_update::ShortUpdate;
pub use stored::{Stored, acts_in, fits, is_undecided, received_in, sent_in};
pub use voting::{add_vote, cast, vote_alone, vote_for};
