//! Reports and journals as text, streams, and the replay that turns a scenario into its report.
//!
//! - Contract: the bytes that go out are the report of the run of the scenario that the bytes that came in spell
//!   (`replay_returning_store`, clause `written`), while the store that is given back is honest. The world is opened,
//!   or goes on from what the store holds.
//! - Stands on: kt_tuple, kt_script, kt_space, kt_history, kt_scenario, kt_text, kt_store, kt_model, kt_core
//! - Begin in: `replaying.rt`, the whole way from bytes to bytes, then `report.rt` for writing. The text of a scenario
//!   is kt_text's.
#![tactic(auto)]

mod fault;
mod journal;
mod laws;
mod observer;
mod replaying;
mod report;
mod sink;
mod source;
mod stream;

pub use fault::ReplayFault;
pub use journal::write_journal;
pub use kt_core::{OpenError, ResumeError, Start, StepError};
pub use kt_text::{
    MAX_TEXT, Scenario, SceneError, SceneFault, Work, WorkKind, read_scene, write_scene,
};
pub use laws::{a_state_has_one_report, what_a_journal_tells_is_read};
pub use observer::{Nobody, Observer};
pub use replaying::{
    make_steps, replay, replay_returning_store, replay_world, report_returning_store, resume_replay,
};
pub use report::write_report;
pub use sink::Sink;
pub use source::{MAX_READS, Outcome, Source};
pub use stream::{read_text, write_text};
