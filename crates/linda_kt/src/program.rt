//! What the program does with its words and its three streams.
//! Cited by no other file of crates/.
ghost use Rattle.std.specs.Prelude.{◌≡◌, ◌≢◌, ◌⊎◌, [], IsErr, IfErr, IfOk, true};
ghost use Rattle.std.specs.IoError.{error_kind};
ghost use Rattle.std.specs.declared.io.ErrorKind.TheVariants as io_kind;
ghost use Rattle.std.specs.Vec.Iter.{into_iter_items};
ghost use Rattle.clap.specs.Words.{kind_of};
ghost use Rattle.clap.specs.declared.error.kind.ErrorKind.TheVariants as kind;
ghost use Rattle.kt_command.specs.Command.{texts, words_behind};
ghost use Rattle.linda_kt.specs.Status.{IsRunStatus, IsWordsStatus};
ghost use Rattle.linda_kt.specs.Words.{AreWrong, are_silent, words_fault};

use crate::holding::{Holding, Holds};
use crate::words::{read_words, refuse_bytes};
use clap::Error;
use clap::error::ErrorKind;
use kt_command::{
    COMMAND_LINE, Carries, DONE, MEMORY, Opens, STREAM, Shows, Terminals, Texts, run_request,
    texts_of, words_behind,
};
use kt_scene::{Outcome, Sink, Source};
use kt_sql::{SqlOpenError, SqlStore};
use kt_store::CkptStore;
use sqlite::Alter;
use std::alloc::{AllocError, Global};
use std::env::Args;
use std::fmt::Display;
use std::io;
use std::io::{Read, Write};
use std::sync::Wait;
use std::thread::Threads;

/// Runs the program as `run_arguments` does, by an opener of holders of stores, and says nothing of it. The contract is
/// that of `run_arguments` for `Holding`: at the types of a process it is too large to be looked at, and the process
/// wants nothing of it.
pub fn run_process<
    D: Alter + Drop + Send,
    H: Holds<SqlStore<D>>,
    C: Drop,
    G: Display + Drop,
    X: Read + Drop,
    Y: Display + Drop,
    O: Opens<H, SqlOpenError> + Carries<C, SqlOpenError> + Shows<H, G> + Texts<X, Y>,
    T: Threads + Wait + Sync,
    R: Read,
    W: Write,
    E: Write,
>(
    opener: O,
    threads: &T,
    alloc: Global,
    arguments: io::Result<Args>,
    reader: &mut Source<R>,
    writer: &mut Sink<W>,
    errors: &mut E,
    terminals: Terminals,
) -> u8 {
    run_arguments::<D, C, G, X, Y, Holding<O, H>, T, R, W, E>(
        Holding::new(opener),
        threads,
        alloc,
        arguments,
        reader,
        writer,
        errors,
        terminals,
    )
}

/// Runs the program on the arguments of its process, of which the first is its name. Arguments that
/// are not text are wrong words. The store in a file and the scenario in one are opened by `opener`, and a run starts
/// its threads by `threads`.
pub fn run_arguments<
    D: Alter + Drop + Send,
    C: Drop,
    G: Display + Drop,
    X: Read + Drop,
    Y: Display + Drop,
    O: Opens<SqlStore<D>, SqlOpenError>
        + Carries<C, SqlOpenError>
        + Shows<SqlStore<D>, G>
        + Texts<X, Y>,
    T: Threads + Wait + Sync,
    R: Read,
    W: Write,
    E: Write,
>(
    opener: O,
    threads: &T,
    alloc: Global,
    arguments: io::Result<Args>,
    reader: &mut Source<R>,
    writer: &mut Sink<W>,
    errors: &mut E,
    terminals: Terminals,
) -> u8
    ensures no_text { IsErr arguments → (result ≡ COMMAND_LINE) ⊎ (result ≡ MEMORY) }
    ensures no_memory { IfErr arguments (λ e. error_kind e ≡ io_kind.OutOfMemory → result ≡ MEMORY) }
    ensures no_text_reads_nothing { IsErr arguments → reader.new ≡ reader.old }
    ensures no_text_prints_nothing { IsErr arguments → writer.new ≡ writer.old }
    ensures told { IfOk arguments (λ a. words_fault (words_behind (into_iter_items a)) ≡ []
        → IsRunStatus ⟦<SqlStore<D> as CkptStore>⟧ (O.gives opener) (O.gives_copy opener) (O.connects opener)
        O.carries X.remaining (O.gives_text opener) (words_behind (into_iter_items a))
        reader.old reader.new writer.old writer.new result) }
    ensures wrong_words { IfOk arguments (λ a. AreWrong (words_behind (into_iter_items a))
        → (result ≡ COMMAND_LINE) ⊎ (result ≡ MEMORY)) }
    ensures wrong_words_print_nothing { IfOk arguments (λ a. AreWrong (words_behind (into_iter_items a))
        → writer.new ≡ writer.old) }
    ensures no_command { IfOk arguments (λ a. words_fault (words_behind (into_iter_items a)) ≢ []
        → IsWordsStatus result) }
    ensures no_command_reads_nothing { IfOk arguments (λ a. words_fault (words_behind (into_iter_items a)) ≢ []
        → reader.new ≡ reader.old) }
    ensures done_without_a_word { IfOk arguments (λ a.
        are_silent terminals (words_behind (into_iter_items a)) ≡ true → result ≡ DONE → errors.new ≡ errors.old) }
{
    let texts = match arguments {
        Ok(arguments) => texts_of(alloc, arguments),
        Err(error) if error.kind() == io::ErrorKind::OutOfMemory => {
            return end_by("memory", MEMORY, errors);
        }
        Err(_) => return answer_words(&refuse_bytes(alloc), writer, errors),
    };
    match texts {
        Ok(texts) => run_texts(
            opener, threads, alloc, &texts, reader, writer, errors, terminals,
        ),
        Err(AllocError) => end_by("memory", MEMORY, errors),
    }
}

/// Runs the program on these texts, of which the first is its name.
fn run_texts<
    D: Alter + Drop + Send,
    C: Drop,
    G: Display + Drop,
    X: Read + Drop,
    Y: Display + Drop,
    O: Opens<SqlStore<D>, SqlOpenError>
        + Carries<C, SqlOpenError>
        + Shows<SqlStore<D>, G>
        + Texts<X, Y>,
    T: Threads + Wait + Sync,
    R: Read,
    W: Write,
    E: Write,
>(
    opener: O,
    threads: &T,
    alloc: Global,
    arguments: &[String],
    reader: &mut Source<R>,
    writer: &mut Sink<W>,
    errors: &mut E,
    terminals: Terminals,
) -> u8
    ensures told { words_fault (words_behind arguments.now) ≡ []
        → IsRunStatus ⟦<SqlStore<D> as CkptStore>⟧ (O.gives opener) (O.gives_copy opener) (O.connects opener)
        O.carries X.remaining (O.gives_text opener) (words_behind arguments.now)
        reader.old reader.new writer.old writer.new result }
    ensures wrong_words { AreWrong (words_behind arguments.now) → (result ≡ COMMAND_LINE) ⊎ (result ≡ MEMORY) }
    ensures wrong_words_print_nothing { AreWrong (words_behind arguments.now) → writer.new ≡ writer.old }
    ensures no_command { words_fault (words_behind arguments.now) ≢ [] → IsWordsStatus result }
    ensures no_command_reads_nothing { words_fault (words_behind arguments.now) ≢ [] → reader.new ≡ reader.old }
    ensures done_without_a_word { are_silent terminals (words_behind arguments.now) ≡ true → result ≡ DONE
        → errors.new ≡ errors.old }
{
    match words_behind(alloc, arguments) {
        Ok(words) => run_program(
            opener,
            threads,
            alloc,
            words.as_slice(),
            reader,
            writer,
            errors,
            terminals,
        ),
        Err(AllocError) => end_by("memory", MEMORY, errors),
    }
}

/// Does what the words ask, which are those after the program's name, and answers the exit status.
/// A fault is one line on `errors`, with what explains it where the words ask for that or where a person watches; of
/// wrong words it is the text of `clap`.
pub fn run_program<
    D: Alter + Drop + Send,
    C: Drop,
    G: Display + Drop,
    X: Read + Drop,
    Y: Display + Drop,
    O: Opens<SqlStore<D>, SqlOpenError>
        + Carries<C, SqlOpenError>
        + Shows<SqlStore<D>, G>
        + Texts<X, Y>,
    T: Threads + Wait + Sync,
    R: Read,
    W: Write,
    E: Write,
>(
    opener: O,
    threads: &T,
    alloc: Global,
    words: &[&str],
    reader: &mut Source<R>,
    writer: &mut Sink<W>,
    errors: &mut E,
    terminals: Terminals,
) -> u8
    ensures told { words_fault (texts words.now) ≡ []
        → IsRunStatus ⟦<SqlStore<D> as CkptStore>⟧ (O.gives opener) (O.gives_copy opener) (O.connects opener)
        O.carries X.remaining (O.gives_text opener) (texts words.now)
        reader.old reader.new writer.old writer.new result }
    ensures done_without_a_word { are_silent terminals (texts words.now) ≡ true → result ≡ DONE
        → errors.new ≡ errors.old }
    ensures wrong_words { AreWrong (texts words.now)
        → (result ≡ COMMAND_LINE) ⊎ (result ≡ MEMORY) }
    ensures wrong_words_print_nothing { AreWrong (texts words.now) → writer.new ≡ writer.old }
    ensures no_command { words_fault (texts words.now) ≢ [] → IsWordsStatus result }
    ensures no_command_reads_nothing { words_fault (texts words.now) ≢ []
        → reader.new ≡ reader.old }
{
    match read_words(alloc, words) {
        Ok(request) => run_request(
            opener, threads, alloc, request, terminals, reader, writer, errors,
        ),
        Err(error) => answer_words(&error, writer, errors),
    }
}

/// Says why the words name no command: help on the output, anything else on `errors`.
fn answer_words<W: Write, E: Write>(error: &Error, writer: &mut Sink<W>, errors: &mut E) -> u8
    ensures memory { kind_of error.now ≡ kind.OutOfMemory → result ≡ MEMORY }
    ensures wrong { kind_of error.now ≢ kind.OutOfMemory → kind_of error.now ≢ kind.DisplayHelp
        → kind_of error.now ≢ kind.DisplayVersion → result ≡ COMMAND_LINE }
    ensures quiet { kind_of error.now ≢ kind.DisplayHelp → kind_of error.now ≢ kind.DisplayVersion
        → writer.new ≡ writer.old }
    ensures status { IsWordsStatus result }
    ensures done { result ≡ DONE → errors.new ≡ errors.old }
{
    if error.kind() == ErrorKind::OutOfMemory {
        return end_by("memory", MEMORY, errors);
    }
    if error.use_stderr() {
        // A standard error that is closed leaves the status alone to tell.
        let _ = write!(errors, "{error}");
        return COMMAND_LINE;
    }
    writer.print(error);
    match writer.outcome() {
        Outcome::Done => DONE,
        _ => end_by("write", STREAM, errors),
    }
}

/// Writes the line of a fault, and answers `status`.
fn end_by<E: Write>(line: &str, status: u8, errors: &mut E) -> u8
    ensures { result ≡ status }
{
    let _ = writeln!(errors, "{line}");
    status
}
