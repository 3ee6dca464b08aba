//! Linda's values, tuples, templates and operations, their texts, and the sequential tuple space as definitions.
//!
//! - Contract: a template matches a tuple exactly by the definition (`Template::matches`, clause `meaning`). A text is
//!   read as what it spells, or refused with its lowest fault (`Tuple::parse`, clauses `spelling` and `fault`).
//! - Stands on: none; of the kit: thiserror, itoa, arrayvec
//! - Begin in: `template.rt`, which has the matching, then `op.rt` for what is asked and answered. `parsing.rt` and
//!   `writing.rt` have the texts.
#![tactic(auto)]

mod copying;
mod equality;
mod item;
pub mod laws;
mod node;
mod op;
mod parse_error;
mod parsing;
pub mod reading;
mod service;
mod signature;
mod string;
mod template;
mod tuple;
mod value;
pub mod writing;

pub use copying::{copy_tuples, copy_values};
pub use equality::Equality;
pub use node::{ALL_NODES, ALL_WORKERS, MAX_NODES, MAX_SHARDS, MAX_WORKERS, NodeId};
pub use op::{Answer, Op};
pub use parse_error::ParseError;
pub use service::Service;
pub use signature::Signature;
pub use string::{MAX_CHARACTERS, Str};
pub use template::{Place, Template};
pub use tuple::{MAX_PLACES, Tuple};
pub use value::{Kind, Value};
