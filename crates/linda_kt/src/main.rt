//! The program: `linda_kt replay` reads a scenario, from a file or standard input, makes its steps and writes the
//! report to standard output. `linda_kt run` runs one by a thread for each node, several times where that is asked for,
//! or with random faults. With `--store FILE` checkpoints are kept in a file. `linda_kt resume --store FILE` and
//! `linda_kt run --resume --store FILE` go on from such a file after a stop, and `linda_kt migrate --store FILE`
//! carries one of the version before over. `linda_kt check` reads a scenario alone, `linda_kt trace` and
//! `linda_kt draw` show what happens in one, and `linda_kt explain NUMBER` says what a number means.
//!
//! - Contract: `run_program`, clause `told`: words without a fault do their command over the store that they name, and
//!   the exit status says how it ended; what `linda_kt` writes is what that command may write.
//! - Stands on: kt_tuple, kt_chaos, kt_store, kt_sql_tables, kt_sql, kt_scene, kt_stage, kt_tell, kt_look, kt_run,
//!   kt_trials, kt_words, kt_command; of the kit: sqlite, clap, thiserror
//! - Begin in: `program.rt`; the grammar of the words is in `grammar.rt`, and what they ask in `words.rt`.
#![tactic(auto)]

mod copies;
mod files;
mod grammar;
mod holding;
mod looking;
mod program;
mod progress;
mod trials;
mod words;

use crate::copies::ShowError;
use crate::files::{Files, OldFile, StoreInFile};
use crate::holding::Holds;
use crate::progress::run_with_progress;
use kt_command::{Carries, Opens, Shows, Terminals, Texts};
use kt_scene::{Sink, Source};
use kt_sql::{SqlOpenError, SqlStore};
use sqlite::{Alter, File, FileStore};
use std::io::{IsTerminal, Write};
use std::process::ExitCode;
use std::sync::Wait;
use std::thread::Threads;
use std::{env, fs, io};

fn main(rt: HostRuntime) -> ExitCode {
    let terminals = Terminals {
        is_typed: rt.stdin().is_terminal(),
        is_watched: rt.stderr().is_terminal(),
    };
    let status = if terminals.is_watched && !terminals.is_typed {
        run_with_progress(&rt, &rt, terminals)
    } else {
        run(&rt, &rt, terminals, &mut rt.stderr())
    };
    ExitCode::from(status)
}

/// Runs the program on the arguments and the streams of its process, and says on `errors` what is to be said there. By
/// `rt` files are opened, and by `threads` threads are started.
pub(crate) fn run<T: Threads + Wait + Sync, E: Write>(
    rt: &HostRuntime,
    threads: &T,
    terminals: Terminals,
    errors: &mut E,
) -> u8 {
    run_by::<FileStore<File>, StoreInFile, Files<'_>, T, E>(
        Files::new(rt),
        rt,
        threads,
        terminals,
        errors,
    )
}

/// Runs it by an opener of holders of stores. It stands apart from `run`, so that the prover looks at the types of the
/// streams in one call, and at that of the disk in another.
fn run_by<
    D: Alter + Drop + Send,
    H: Holds<SqlStore<D>>,
    O: Opens<H, SqlOpenError>
        + Carries<OldFile, SqlOpenError>
        + Shows<H, ShowError>
        + Texts<fs::File, io::Error>,
    T: Threads + Wait + Sync,
    E: Write,
>(opener: O, rt: &HostRuntime, threads: &T, terminals: Terminals, errors: &mut E) -> u8 {
    let mut reader = Source::new(rt.stdin());
    let mut writer = Sink::new(rt.stdout());
    program::run_process::<D, H, OldFile, ShowError, fs::File, io::Error, O, T, _, _, E>(
        opener,
        threads,
        rt.alloc(),
        env::args(rt),
        &mut reader,
        &mut writer,
        errors,
        terminals,
    )
}
