//! What a person sees while a command takes long.
//! Cited by no other file of crates/.

use crate::run;
use kt_command::{MEMORY, Terminals};
use std::io::Write;
use std::sync::Wait;
use std::sync::atomic::{AtomicBool, Ordering};
use std::thread;
use std::thread::Threads;
use std::time::{Duration, Instant};

/// How often it is looked whether the command has ended, in milliseconds.
const TICK: u64 = 50;

/// Room for the lines of a command on standard error, which are held back while it goes on. More is taken where more is
/// said.
const ROOM: usize = 4096;

/// Runs the program for a person who watches standard error, and sees there for how many seconds it has gone on, from
/// the first full one. What the command says there comes once that is wiped off.
pub fn run_with_progress<T: Threads + Wait + Sync>(
    rt: &HostRuntime,
    threads: &T,
    terminals: Terminals,
) -> u8 {
    let mut said = match Vec::with_capacity(rt.alloc(), ROOM) {
        Ok(said) => said,
        Err(_) => {
            let _ = writeln!(rt.stderr(), "memory");
            return MEMORY;
        }
    };
    let is_done = AtomicBool::new(false);
    let ((), status) = thread::join(
        threads,
        || show_until(rt, &is_done),
        || {
            let status = run(rt, threads, terminals, &mut said);
            is_done.store(true, Ordering::Release);
            status
        },
    );
    // A standard error that is closed leaves the status alone to tell.
    let _ = rt.stderr().write_all(&said);
    status
}

/// Shows how many seconds have gone by, until it is done. The cursor is left in front of them, so that what is written
/// to standard output on the same terminal covers them.
fn show_until(rt: &HostRuntime, is_done: &AtomicBool) {
    let Ok(begun) = Instant::now(rt) else {
        return;
    };
    let mut errors = rt.stderr();
    let mut shown = 0;
    for _ in 0..u64::MAX {
        if is_done.load(Ordering::Acquire) {
            break;
        }
        thread::sleep(rt, Duration::from_millis(TICK));
        let Ok(elapsed) = begun.elapsed(rt) else {
            break;
        };
        let seconds = elapsed.as_secs();
        if shown < seconds {
            shown = seconds;
            let _ = write!(errors, "\r{seconds} s\r");
        }
    }
    if 0 < shown {
        let _ = write!(errors, "\r\x1b[K");
    }
}
