//! The rules of a node: what becomes of it by each step and each message. Each call answers a plan; nothing changes
//! until that is carried out.
//!
//! - Contract: each call of `View`, such as `View::fail` or `View::hear_vote`, gives the plan of its rule or the first
//!   refusal that stands (its clause is `Gives result` with that rule). `Node::change` of kt_state carries a plan's
//!   change out.
//! - Stands on: kt_tuple, kt_script, kt_space, kt_link, kt_shard, kt_worker, kt_vote, kt_history, kt_ckpt, kt_store,
//!   kt_state
//! - Begin in: `steps.rt` for steps and `arrivals.rt` for messages. What a plan is, kt_state says.
#![tactic(auto)]

mod app_messages;
mod arrivals;
mod at_once;
mod deciding;
mod failing;
mod hearing;
mod joining;
mod laws;
mod learning;
mod reaction;
mod short_plan;
mod steps;
mod talking;
mod view;

pub use at_once::{Again, Said};
pub use kt_state::{
    AppMessage, Ask, Body, BodyChange, Boxed, Change, KeptChange, Loaded, Message, Mode, Node,
    Outbox, Phase, Plan, Refusal, Role, ShortUpdate, Stored, Talk, Update, Write,
};
pub use laws::plans_can_be_carried_out;
pub use reaction::Reaction;
pub use short_plan::ShortPlan;
pub use view::View;
