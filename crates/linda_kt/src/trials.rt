//! What the words ask of several runs, and of random fault lines.
//! Cited by looking.rt, words.rt.
ghost use Rattle.std.specs.Prelude.{◌≡◌, Some};
ghost use Rattle.clap.specs.Words.{found_of, rows_of};
ghost use Rattle.kt_command.specs.Asking.{task_of};
ghost use Rattle.linda_kt.specs.Numbers.{count_of, in_range, number_of, times_of};
ghost use Rattle.linda_kt.specs.Words.{chaos_by, chaos_of, is_of_one_run, repeated_of, told_as};

use crate::words::{Misfit, has_flag, text_of};
use clap::ArgMatches;
use kt_command::Task;
use kt_trials::{Chaos, MAX_TIMES};

/// The most random fault lines that the words may ask for. So many have less than 200,000 bytes, so a scenario with
/// them is seldom too long.
pub const MAX_CHAOS: u32 = 10_000;

/// The task of so many runs. They have no file, no journal and no random faults: each goes over a fresh store in
/// memory, and of its report is told alone how often it came.
pub(crate) fn repeated_of<'a>(times: &str, options: &ArgMatches<'a>) -> Result<Task<'a>, Misfit>
    ensures { told_as task_of result ≡ repeated_of times.now (rows_of (found_of options.now)) }
{
    if is_of_one_run(options) {
        return Err(Misfit::OneRun);
    }
    match times_of(times) {
        Some(times) => Ok(Task::Repeat { times }),
        None => Err(Misfit::WrongTimes),
    }
}

/// Whether an option stands there that only one run can have.
fn is_of_one_run(options: &ArgMatches<'_>) -> bool
    ensures { result ≡ is_of_one_run (rows_of (found_of options.now)) }
{
    has_flag(options, "journal")
        || has_flag(options, "resume")
        || text_of(options, "store").is_some()
        || text_of(options, "chaos").is_some()
        || text_of(options, "seed").is_some()
}

/// The random fault lines that are asked for, if any are.
pub(crate) fn chaos_of(options: &ArgMatches<'_>) -> Result<Option<Chaos>, Misfit>
    ensures { result ≡ chaos_of (rows_of (found_of options.now)) }
{
    match (text_of(options, "chaos"), text_of(options, "seed")) {
        (None, None) => Ok(None),
        (None, Some(_)) => Err(Misfit::NoChaos),
        (Some(_), None) => Err(Misfit::NoSeed),
        (Some(count), Some(seed)) => chaos_by(count, seed),
    }
}

/// So many random fault lines by this seed.
fn chaos_by(count: &str, seed: &str) -> Result<Option<Chaos>, Misfit>
    ensures { result ≡ chaos_by count.now seed.now }
{
    let Some(count) = count_of(count) else {
        return Err(Misfit::WrongChaos);
    };
    let Some(seed) = number_of(seed) else {
        return Err(Misfit::WrongSeed);
    };
    Ok(Some(Chaos { count, seed }))
}

/// The text as a number of runs.
fn times_of(text: &str) -> Option<u32>
    ensures { result ≡ times_of text.now }
{
    match number_of(text) {
        Some(number) => match from_one_to(u64::from(MAX_TIMES), number) {
            Some(times) => Some(times as u32),
            None => None,
        },
        None => None,
    }
}

/// The text as a number of random fault lines.
fn count_of(text: &str) -> Option<u32>
    ensures { result ≡ count_of text.now }
{
    match number_of(text) {
        Some(number) => match from_one_to(u64::from(MAX_CHAOS), number) {
            Some(count) => Some(count as u32),
            None => None,
        },
        None => None,
    }
}

/// The number, where it is from 1 to the most that may be asked for.
pub(crate) fn from_one_to(most: u64, number: u64) -> Option<u64>
    ensures { result ≡ in_range 1 most (Some number) }
{
    if 1 <= number && number <= most {
        Some(number)
    } else {
        None
    }
}

/// The text as a number.
pub(crate) fn number_of(text: &str) -> Option<u64>
    ensures { result ≡ number_of text.now }
{
    match text.parse::<u64>() {
        Ok(number) => Some(number),
        Err(_) => None,
    }
}
