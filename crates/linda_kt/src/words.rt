//! What the words of the command line ask.
//! Cited by looking.rt, program.rt, trials.rt.
ghost use Rattle.std.specs.Prelude.{◌≡◌, ◌⊎◌, ◌∷◌, [], IfOk, Some, option_map};
ghost use Rattle.clap.specs.Words.{FailsBy, HasKind, first_of, found_of, kind_of, rows_of};
ghost use Rattle.kt_command.specs.Asking.{asked, task_of};
ghost use Rattle.kt_command.specs.Command.{texts};
ghost use Rattle.linda_kt.specs.Words.{asked_by, asked_of, done_of, has_flag, kinds_of, looks, made_of, reads};
ghost use Rattle.linda_kt.specs.Words.{required_text, run_or_made_of, scenario_of, telling_of, told_as, words_fault};

use crate::grammar::command_line;
use crate::looking::{draw_of, trace_of};
use crate::trials::{chaos_of, repeated_of};
use clap::error::ErrorKind;
use clap::{ArgMatches, Error};
use kt_command::{Command, Request, Task, Telling};
use kt_words::Shell;
use std::alloc::{AllocError, Global};

/// Why words that the grammar lets pass ask nothing. It can't say that one word wants another.
#[derive(Clone, Copy, Debug, PartialEq, Eq)]
pub enum Misfit {
    /// They name no command.
    NoCommand,
    /// A run is to go on from a file, and none is named.
    NoFile,
    /// No shell has the name.
    NoShell,
    /// How often is no number, or not within its limits.
    WrongTimes,
    /// How many random fault lines is no number, or not within its limits.
    WrongChaos,
    /// The seed is no number, or has more than 64 bits.
    WrongSeed,
    /// Random fault lines are asked for, and no seed is named.
    NoSeed,
    /// A seed is named, and no random fault lines are asked for.
    NoChaos,
    /// Several runs are asked for, and something that only one run can have.
    OneRun,
    /// The first step that is chosen is no number, or is 0.
    WrongFrom,
    /// The last one is.
    WrongTo,
    /// The first one stands behind the last one.
    NoSteps,
    /// No node has the name.
    WrongNode,
}

/// What the words ask. The words are those after the program's name. Words that ask nothing are an error of `clap`,
/// whose text is for the user.
pub fn read_words<'a>(alloc: Global, words: &'a [&'a str]) -> Result<Request<'a>, Error>
    ensures command { IfOk result (λ r. asked_by (texts words.entry.now) ≡ Some (asked r)) }
    ensures refused { FailsBy (words_fault (texts words.entry.now)) result }
{
    let matches = command_line(alloc)?.try_get_matches_from(words)?;
    let Some((name, options)) = matches.subcommand() else {
        return Err(refuse(alloc, Misfit::NoCommand));
    };
    match request_of(name, options) {
        Ok(request) => Ok(request),
        Err(misfit) => Err(refuse(alloc, misfit)),
    }
}

/// What a command and its own words ask.
fn request_of<'a>(name: &str, options: &ArgMatches<'a>) -> Result<Request<'a>, Misfit>
    ensures { told_as asked result ≡ asked_of name.now (rows_of (found_of options.now)) }
{
    if name == "show" {
        Ok(Request::Show {
            store: required_text(options, "store"),
            is_json: has_flag(options, "json"),
        })
    } else if name == "explain" {
        let word = required_text(options, "meaning");
        Ok(Request::Explain { word })
    } else if name == "completion" {
        match Shell::of_name(required_text(options, "shell")) {
            Some(shell) => Ok(Request::Completion { shell }),
            None => Err(Misfit::NoShell),
        }
    } else if name == "manual" {
        Ok(Request::Manual)
    } else if name == "trace" {
        look_of(trace_of(options), options)
    } else if name == "draw" {
        look_of(draw_of(options), options)
    } else {
        read_request_of(name, options)
    }
}

/// What a command asks that shows what happens in a scenario. No explanation can be asked for.
fn look_of<'a>(
    task: Result<Task<'a>, Misfit>,
    options: &ArgMatches<'a>,
) -> Result<Request<'a>, Misfit>
    ensures { told_as asked result ≡ looks (rows_of (found_of options.now)) (told_as task_of task.entry) }
{
    let task = task?;
    Ok(Request::Read {
        task,
        file: scenario_of(options),
        telling: Telling::Nothing,
    })
}

/// What a command asks that reads a scenario.
fn read_request_of<'a>(name: &str, options: &ArgMatches<'a>) -> Result<Request<'a>, Misfit>
    ensures { told_as asked result ≡ reads (rows_of (found_of options.now))
        (done_of name.now (rows_of (found_of options.now))) }
{
    let task = task_of(name, options)?;
    Ok(Request::Read {
        task,
        file: scenario_of(options),
        telling: telling_of(options),
    })
}

/// What is done with a scenario by a command of this name.
fn task_of<'a>(name: &str, options: &ArgMatches<'a>) -> Result<Task<'a>, Misfit>
    ensures { told_as task_of result ≡ done_of name.now (rows_of (found_of options.now)) }
{
    if name == "check" {
        Ok(Task::Check)
    } else if name == "complete" {
        Ok(Task::Complete)
    } else if name == "migrate" {
        let store = required_text(options, "store");
        Ok(Task::Migrate { store })
    } else {
        run_or_made_of(name, options)
    }
}

/// What a command and its own words ask that may ask for several runs.
fn run_or_made_of<'a>(name: &str, options: &ArgMatches<'a>) -> Result<Task<'a>, Misfit>
    ensures { told_as task_of result ≡ run_or_made_of name.now (rows_of (found_of options.now)) }
{
    match text_of(options, "times") {
        Some(times) => repeated_of(times, options),
        None => made_of(name, options),
    }
}

/// What a command over a store and its own words ask.
fn made_of<'a>(name: &str, options: &ArgMatches<'a>) -> Result<Task<'a>, Misfit>
    ensures { told_as task_of result ≡ made_of name.now (rows_of (found_of options.now)) }
{
    let store = text_of(options, "store");
    let is_resumed = has_flag(options, "resume");
    if is_resumed && store.is_none() {
        return Err(Misfit::NoFile);
    }
    let chaos = chaos_of(options)?;
    match Command::of_name(name, is_resumed, has_flag(options, "journal")) {
        Some(command) => Ok(Task::Make {
            command: command.with_chaos(chaos),
            store,
        }),
        None => Err(Misfit::NoCommand),
    }
}

/// The file of the scenario that a command's words name; none for standard input, of which `-` is a name.
fn scenario_of<'a>(options: &ArgMatches<'a>) -> Option<&'a str>
    ensures { option_map (λ s. s.now) result ≡ scenario_of (rows_of (found_of options.now)) }
{
    match text_of(options, "scenario") {
        Some(file) if file != "-" => Some(file),
        _ => None,
    }
}

/// How what happened is to be explained: as JSON where that is asked for, whether or not `--explain` stands there too.
fn telling_of(options: &ArgMatches<'_>) -> Telling
    ensures { result ≡ telling_of (rows_of (found_of options.now)) }
{
    if has_flag(options, "json") {
        Telling::Json
    } else if has_flag(options, "explain") {
        Telling::Words
    } else {
        Telling::Nothing
    }
}

/// The text of an option, or none.
pub(crate) fn text_of<'a>(options: &ArgMatches<'a>, id: &str) -> Option<&'a str>
    ensures { option_map (λ s. s.now) result ≡ first_of id.now (rows_of (found_of options.now)) }
{
    options.get_str(id)
}

/// The text of a word that must stand. Words that pass the grammar have it, so no request has the empty text.
fn required_text<'a>(options: &ArgMatches<'a>, id: &str) -> &'a str
    ensures { result.now ≡ required_text (first_of id.now (rows_of (found_of options.now))) }
{
    match text_of(options, id) {
        Some(text) => text,
        None => "",
    }
}

/// Whether the flag stands among a command's words.
pub(crate) fn has_flag(options: &ArgMatches<'_>, flag: &str) -> bool
    ensures { result ≡ has_flag flag.now (rows_of (found_of options.now)) }
{
    // Of a flag that stands there the text is that of `true`.
    match text_of(options, flag) {
        Some(text) => text == "true",
        None => false,
    }
}

/// The error for words that do not fit together.
fn refuse(alloc: Global, misfit: Misfit) -> Error
    ensures { HasKind (kinds_of misfit) result }
{
    let words = words_for(misfit);
    match misfit {
        Misfit::NoCommand => refuse_as(alloc, ErrorKind::MissingSubcommand, words),
        Misfit::NoFile | Misfit::NoSeed | Misfit::NoChaos => {
            refuse_as(alloc, ErrorKind::MissingRequiredArgument, words)
        }
        Misfit::NoShell => refuse_as(alloc, ErrorKind::InvalidValue, words),
        Misfit::WrongTimes
        | Misfit::WrongChaos
        | Misfit::WrongSeed
        | Misfit::WrongFrom
        | Misfit::WrongTo
        | Misfit::NoSteps
        | Misfit::WrongNode => refuse_as(alloc, ErrorKind::ValueValidation, words),
        Misfit::OneRun => refuse_as(alloc, ErrorKind::ArgumentConflict, words),
    }
}

/// An error of this kind that says so, or the want of memory for it.
fn refuse_as(alloc: Global, kind: ErrorKind, message: &str) -> Error
    ensures { HasKind (kind ∷ []) result }
{
    match refusal(alloc, kind, message) {
        Ok(error) => error,
        Err(error) => Error::from(error),
    }
}

/// What that error says.
fn words_for(misfit: Misfit) -> &'static str {
    match misfit {
        Misfit::NoCommand => "the words name no command",
        Misfit::NoFile => "the argument '--resume' wants '--store <FILE>'",
        Misfit::NoShell => "the words that complete a shell are there for bash, zsh and fish",
        Misfit::WrongTimes => "the argument '--times <N>' wants a number from 1 to 10000",
        Misfit::WrongChaos => "the argument '--chaos <N>' wants a number from 1 to 10000",
        Misfit::WrongSeed => {
            "the argument '--seed <K>' wants a number from 0 to 18446744073709551615"
        }
        Misfit::NoSeed => "the argument '--chaos <N>' wants '--seed <K>'",
        Misfit::NoChaos => "the argument '--seed <K>' wants '--chaos <N>'",
        Misfit::OneRun => {
            "the argument '--times <N>' cannot be used with '--store', '--journal', '--resume' or '--chaos'"
        }
        Misfit::WrongFrom => "the argument '--from <N>' wants the number of a step, counted from 1",
        Misfit::WrongTo => "the argument '--to <N>' wants the number of a step, counted from 1",
        Misfit::NoSteps =>
            "the argument '--from <N>' wants a step that is not behind that of '--to <N>'",
        Misfit::WrongNode => {
            "the argument '--node <NODE>' wants a worker, from w1 to w16, or a shard, from s1 to s8"
        }
    }
}

/// The error for words that are not text.
pub fn refuse_bytes(alloc: Global) -> Error
    ensures { (kind_of result ≡ ErrorKind.InvalidValue) ⊎ (kind_of result ≡ ErrorKind.OutOfMemory) }
{
    match refusal(
        alloc,
        ErrorKind::InvalidValue,
        "invalid UTF-8 was detected in one or more arguments",
    ) {
        Ok(error) => error,
        Err(error) => Error::from(error),
    }
}

/// An error of this kind, in the form of those of a parse.
fn refusal(alloc: Global, kind: ErrorKind, message: &str) -> Result<Error, AllocError>
    ensures { IfOk result (λ e. kind_of e ≡ kind) }
{
    command_line(alloc)?.error(kind, message)
}
