//! What the program does with its words and its three streams.
//! Cited by no other file of crates/.
ghost use Rattle.std.specs.Prelude.{◌≡◌, ◌⊎◌, ◌||◌, codes, false, IfOk, IsErr};
ghost use Rattle.std.specs.Vec.Iter.{into_iter_items};
ghost use Rattle.kt_command.specs.Command.{is_word, texts, words_behind};
ghost use Rattle.kt_quick.specs.Words.{IsQuickStatus, ask_for_words, command_asked, command_of_one};
ghost use Rattle.kt_quick.specs.Words.{command_of_three, command_of_two};

use kt_command::{
    COMMAND_LINE, Command, DONE, Explained, Explainer, MEMORY, Telling, run_in_memory, texts_of,
    words_behind,
};
use kt_run::Output;
use kt_scene::{Sink, Source, Start};
use std::alloc::{AllocError, Global};
use std::env::Args;
use std::io;
use std::io::{Read, Write};
use std::sync::Wait;
use std::thread::Threads;

/// Runs the program on the arguments of its process, of which the first is its name, and answers the exit status. A
/// fault is one line on `errors`. A run starts its threads by `threads`.
pub fn run_arguments<T: Threads + Wait + Sync, R: Read, W: Write, E: Write>(
    threads: &T,
    alloc: Global,
    arguments: io::Result<Args>,
    reader: &mut Source<R>,
    writer: &mut Sink<W>,
    errors: &mut E,
    is_watched: bool,
) -> u8
    ensures told { IfOk arguments (λ a. IsQuickStatus (words_behind (into_iter_items a))
        reader.old reader.new writer.old writer.new result) }
    ensures no_text { IsErr arguments → result ≡ COMMAND_LINE }
    ensures no_text_reads_nothing { IsErr arguments → reader.new ≡ reader.old }
    ensures no_text_prints_nothing { IsErr arguments → writer.new ≡ writer.old }
    ensures done_without_a_word { IfOk arguments (λ a. ask_for_words (words_behind (into_iter_items a)) ≡ false
        → is_watched ≡ false → result ≡ DONE → errors.new ≡ errors.old) }
{
    match arguments {
        Ok(arguments) => match texts_of(alloc, arguments) {
            Ok(texts) => run_texts(threads, alloc, &texts, reader, writer, errors, is_watched),
            Err(AllocError) => end_by("memory", MEMORY, errors),
        },
        Err(_) => refuse_words(errors),
    }
}

/// Runs the program on these texts, of which the first is its name.
fn run_texts<T: Threads + Wait + Sync, R: Read, W: Write, E: Write>(
    threads: &T,
    alloc: Global,
    arguments: &[String],
    reader: &mut Source<R>,
    writer: &mut Sink<W>,
    errors: &mut E,
    is_watched: bool,
) -> u8
    ensures told { IsQuickStatus (words_behind arguments.now) reader.old reader.new writer.old writer.new result }
    ensures done_without_a_word { ask_for_words (words_behind arguments.now) ≡ false → is_watched ≡ false
        → result ≡ DONE → errors.new ≡ errors.old }
{
    match words_behind(alloc, arguments) {
        Ok(words) => run_words(threads, alloc, &words, reader, writer, errors, is_watched),
        Err(AllocError) => end_by("memory", MEMORY, errors),
    }
}

/// Does what the words ask over a store in memory.
fn run_words<T: Threads + Wait + Sync, R: Read, W: Write, E: Write>(
    threads: &T,
    alloc: Global,
    words: &[&str],
    reader: &mut Source<R>,
    writer: &mut Sink<W>,
    errors: &mut E,
    is_watched: bool,
) -> u8
    ensures told { IsQuickStatus (texts words.now) reader.old reader.new writer.old writer.new result }
    ensures done_without_a_word { ask_for_words (texts words.now) ≡ false → is_watched ≡ false → result ≡ DONE
        → errors.new ≡ errors.old }
{
    match command_asked(words) {
        Some(command) => {
            let much = explained(words, is_watched);
            let mut explainer = Explainer::new(alloc, much);
            let status = run_in_memory(
                threads,
                alloc,
                command,
                reader,
                writer,
                errors,
                &mut explainer,
            );
            explainer.tell(alloc, much, Telling::Words, status, errors);
            status
        }
        None => refuse_words(errors),
    }
}

/// The command that the words name: `replay`, `run` or `run --journal`, each with `--explain` or without. None of any
/// others.
fn command_asked(words: &[&str]) -> Option<Command>
    ensures { result ≡ command_asked (texts words.now) }
{
    match words {
        [name] => command_of_one(name),
        [name, flag] => command_of_two(name, flag),
        [name, first, second] => command_of_three(name, first, second),
        _ => None,
    }
}

/// The command that two words name.
fn command_of_two(name: &str, flag: &str) -> Option<Command>
    ensures { result ≡ command_of_two name.now flag.now }
{
    if flag == "--explain" {
        command_of_one(name)
    } else if name == "run" && flag == "--journal" {
        Some(Command::Run(Start::Open, Output::Journal))
    } else {
        None
    }
}

/// A run with both flags.
fn command_of_three(name: &str, first: &str, second: &str) -> Option<Command>
    ensures { result ≡ command_of_three name.now first.now second.now }
{
    let has_both = first == "--journal" && second == "--explain"
        || first == "--explain" && second == "--journal";
    if name == "run" && has_both {
        Some(Command::Run(Start::Open, Output::Journal))
    } else {
        None
    }
}

/// How much is explained: all where the words ask for that, and a fault where a person watches.
fn explained(words: &[&str], is_watched: bool) -> Explained
    ensures { ask_for_words (texts words.now) ≡ false → is_watched ≡ false → result ≡ Explained.Nothing }
{
    if ask_for_words(words) {
        Explained::All
    } else if is_watched {
        Explained::Faults
    } else {
        Explained::Nothing
    }
}

/// Whether the words of a command ask for an explanation.
fn ask_for_words(words: &[&str]) -> bool
    ensures { result ≡ ask_for_words (texts words.now) }
{
    match words {
        [_, flag] => asks_for_words(flag),
        [_, first, second] => one_asks_for_words(first, second),
        _ => false,
    }
}

/// Whether one of two flags asks for an explanation.
fn one_asks_for_words(first: &str, second: &str) -> bool
    ensures { result ≡ is_word first.now (codes "--explain") || is_word second.now (codes "--explain") }
{
    asks_for_words(first) || asks_for_words(second)
}

/// Whether the flag asks for an explanation.
fn asks_for_words(flag: &str) -> bool
    ensures { result ≡ is_word flag.now (codes "--explain") }
{
    flag == "--explain"
}

/// The command that one word names. In memory there is nothing to go on from.
fn command_of_one(name: &str) -> Option<Command>
    ensures { result ≡ command_of_one name.now }
{
    if name == "resume" {
        None
    } else {
        Command::of_name(name, false, false)
    }
}

/// Says which words the program knows.
fn refuse_words<E: Write>(errors: &mut E) -> u8
    ensures { result ≡ COMMAND_LINE }
{
    end_by(
        "the words are `replay`, `run` or `run --journal`, and `--explain`",
        COMMAND_LINE,
        errors,
    )
}

/// Writes the line of a fault, and answers `status`.
fn end_by<E: Write>(line: &str, status: u8, errors: &mut E) -> u8
    ensures { result ≡ status }
{
    // A standard error that is closed leaves the status alone to tell.
    let _ = writeln!(errors, "{line}");
    status
}
