//! The program that answers before anything is proved: `replay`, `run` and `run --journal` as `linda_kt` does them,
//! over a store in memory. Without the command-line reader and the store in SQL it is compiled in a third of the time.
//!
//! - Contract: `run_arguments`, clause `told`: words that name a command do it over a fresh store in memory, by the
//!   same call as `linda_kt`. Any other words end with status 2, and nothing is read or written.
//! - Stands on: kt_scene, kt_run, kt_command
//! - Begin in: `program.rt`.
#![tactic(auto)]

mod program;

use kt_scene::{Sink, Source};
use std::env;
use std::io::IsTerminal;
use std::process::ExitCode;

fn main(rt: HostRuntime) -> ExitCode {
    let arguments = env::args(&rt);
    let mut reader = Source::new(rt.stdin());
    let mut writer = Sink::new(rt.stdout());
    let mut errors = rt.stderr();
    let is_watched = errors.is_terminal();
    let status = program::run_arguments(
        &rt,
        rt.alloc(),
        arguments,
        &mut reader,
        &mut writer,
        &mut errors,
        is_watched,
    );
    ExitCode::from(status)
}
