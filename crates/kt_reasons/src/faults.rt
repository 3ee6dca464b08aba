//! Faults that no line of the text has, in words: of the store, of memory and of the streams.
//! Cited by other crates.

use crate::reasons::meaning_of_store;
use crate::sentence::{Part, push_sentence};
use kt_scene::{MAX_TEXT, OpenError, ReplayFault, ResumeError, SceneError, StepError};
use std::alloc::{AllocError, Global};

/// Why a store is not what a command can begin with.
const NOT_FRESH: &str =
    "the store holds what an earlier command left: name another file, or go on from this one by \
     `linda_kt resume --store FILE` or `linda_kt run --resume --store FILE`";

/// What the fault means and what to do, where that is the same for all faults of its kind.
fn meaning_of_fault(fault: ReplayFault) -> Option<&'static str> {
    match fault {
        ReplayFault::Open(OpenError::NotFresh) => Some(NOT_FRESH),
        ReplayFault::Open(OpenError::Store(cause))
        | ReplayFault::Resume(ResumeError::Store(cause))
        | ReplayFault::Report(cause) => Some(meaning_of_store(cause)),
        ReplayFault::Read => Some(
            "the scenario could not be read: is it a folder, or was standard input closed?",
        ),
        ReplayFault::Write => Some(
            "standard output could not be written: is the disk full, or has the reader gone? Write it elsewhere",
        ),
        ReplayFault::Step {
            at: _,
            cause: StepError::StepLimit,
        } => Some(
            "the run has made as many steps as can be made at once: give it fewer commands or fault lines",
        ),
        ReplayFault::Scene { .. }
        | ReplayFault::Step { .. }
        | ReplayFault::Open(OpenError::OutOfMemory)
        | ReplayFault::Resume(ResumeError::Unfit { .. } | ResumeError::OutOfMemory)
        | ReplayFault::Memory => None,
    }
}

/// Puts what the fault means and what to do.
fn push_fault(out: &mut Vec<u8>, fault: ReplayFault) -> Result<(), AllocError> {
    match fault {
        ReplayFault::Resume(ResumeError::Unfit { node }) => push_sentence(
            out,
            "  what the store holds of {} is not what this scenario leaves: give the scenario that made it, with the \
             same shards, workers and scripts\n",
            &[Part::Node(node)],
        ),
        ReplayFault::Scene {
            line: 1,
            cause: SceneError::Limit,
        } => push_sentence(
            out,
            "  the text has more than {} bytes: make it shorter\n",
            &[Part::Number(MAX_TEXT as u64)],
        ),
        _ => match meaning_of_fault(fault) {
            Some(meaning) => push_sentence(out, "  {}\n", &[Part::Words(meaning)]),
            None => Ok(()),
        },
    }
}

/// What the fault means and what to do, on a line that begins with two spaces. Nothing of a fault that has a line of
/// the text: `explain_text` and `explain_step` explain that. Only a limit of line 1 is explained here: no line that can
/// stand there has one, so the text is too long, and is not kept.
pub fn explain_fault(alloc: Global, fault: ReplayFault) -> Result<Vec<u8>, AllocError> {
    let mut out = Vec::new(alloc);
    push_fault(&mut out, fault)?;
    Ok(out)
}

/// Why no store was opened at the path, by the name of the refusal as the program prints it.
fn why_not_opened(name: &str) -> Option<&'static str> {
    match name {
        "Memory" => Some("there was no memory to open it: give the program more"),
        "Device" => Some(
            "it could not be opened or made: name a file that can be written, not in use, in a folder that is there",
        ),
        "Damaged" => Some(
            "it is there and is no store of this program: name a file that is not there yet",
        ),
        "Version" => Some(
            "it is of version 1: carry it over by `linda_kt migrate --store FILE JOURNAL`, with the steps that \
             `run --journal` wrote as it was made",
        ),
        "Mismatch" => Some(
            "it does not hold what this journal makes: give the one that `run --journal` wrote as it was made",
        ),
        _ => None,
    }
}

/// Why no store was opened at the path, and what to do, on a line that begins with two spaces. The refusal is named as
/// the program prints it: `Memory`, `Device`, `Damaged`, `Version` or `Mismatch`; of any other nothing is said.
pub fn explain_unopened(alloc: Global, path: &str, name: &str) -> Result<Vec<u8>, AllocError> {
    let mut out = Vec::new(alloc);
    if path.is_empty() {
        out.extend_from_slice(b"  the name of the file is empty: write `--store FILE`\n")?;
    } else if path == ":memory:" {
        out.extend_from_slice(
            b"  `:memory:` names no file: leave `--store` out for a store in memory\n",
        )?;
    } else if let Some(why) = why_not_opened(name) {
        push_sentence(
            &mut out,
            "  {}: {}\n",
            &[Part::Words(path), Part::Words(why)],
        )?;
    }
    Ok(out)
}
