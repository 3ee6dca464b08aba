//! The grammar of the command line, in the words of `clap`, made of the table of `kt_words`.
//! Cited by words.rt.
ghost use Rattle.std.specs.Prelude.{◌≡◌, false, map, IfOk};
ghost use Rattle.clap.specs.Words.{app_of, rule_of};
ghost use Rattle.clap.specs.declared.builder.command.Command.TheViews.{out-Command as fields_of};
ghost use Rattle.clap.specs.Simple.{shape_of};
ghost use Rattle.linda_kt.specs.Grammar.{bare_app, command_line_app, program_app};
ghost use Rattle.linda_kt.specs.auxiliary.Table.{argument_rule, option_rule, table_shape, with_rules, with_table};

use clap::{Arg, ArgAction};
use kt_words::{ABOUT, ArgumentWords, COMMANDS, CommandWords, OptionWords, PROGRAM, VERSION};
use std::alloc::{AllocError, Global};

/// The grammar of the command line: one subcommand, which must be there.
pub(crate) fn command_line<'a>(alloc: Global) -> Result<clap::Command<'a>, AllocError>
    ensures { IfOk result (λ c. app_of c ≡ command_line_app) }
{
    let bare = described(alloc)
        .bin_name(PROGRAM)?
        .no_binary_name(true)
        .subcommand_required(true);
    with_commands(alloc, bare, table())
}

/// The table of commands.
fn table() -> &'static [CommandWords]
    ensures { with_table bare_app result.now ≡ command_line_app }
{
    COMMANDS
}

/// The command line with these commands too.
fn with_commands<'a>(
    alloc: Global,
    bare: clap::Command<'a>,
    table: &[CommandWords],
) -> Result<clap::Command<'a>, AllocError>
    ensures { IfOk result (λ c. app_of c ≡ with_table (app_of bare.entry) table.now) }
{
    let mut app = bare;
    for words in table {
        // `clap` has the command `help` of itself.
        if words.name != "help" {
            app = app.subcommand(command(alloc, words)?)?;
        }
    }
    Ok(app)
}

/// A command with its arguments and its options.
fn command<'a>(alloc: Global, words: &CommandWords) -> Result<clap::Command<'a>, AllocError>
    ensures shape { IfOk result (λ c. shape_of c ≡ table_shape words.now) }
    ensures local { IfOk result (λ c. (fields_of c).has_globals ≡ false) }
{
    let named = clap::Command::new(alloc, words.name).about(words.about);
    let command = with_arguments(alloc, named, words.arguments)?;
    with_options(alloc, command, words.options)
}

/// The command with these arguments too.
fn with_arguments<'a>(
    alloc: Global,
    command: clap::Command<'a>,
    arguments: &[ArgumentWords],
) -> Result<clap::Command<'a>, AllocError>
    ensures shape { IfOk result (λ c. shape_of c ≡
        with_rules (shape_of command.entry) (map argument_rule arguments.now)) }
    ensures local { IfOk result (λ c. (fields_of c).has_globals ≡ (fields_of command.entry).has_globals) }
{
    let mut command = command;
    for words in arguments {
        command = command.arg(argument(alloc, words))?;
    }
    Ok(command)
}

/// The command with these options too.
fn with_options<'a>(
    alloc: Global,
    command: clap::Command<'a>,
    options: &[OptionWords],
) -> Result<clap::Command<'a>, AllocError>
    ensures shape { IfOk result (λ c. shape_of c ≡
        with_rules (shape_of command.entry) (map option_rule options.now)) }
    ensures local { IfOk result (λ c. (fields_of c).has_globals ≡ (fields_of command.entry).has_globals) }
{
    let mut command = command;
    for words in options {
        command = command.arg(option(alloc, words))?;
    }
    Ok(command)
}

/// An argument, which has its place and no name.
fn argument<'a>(alloc: Global, words: &ArgumentWords) -> Arg<'a>
    ensures rule { rule_of result ≡ argument_rule words.now }
    ensures local { result.global ≡ false }
{
    Arg::new(alloc, words.id)
        .value_name(words.name)
        .required(words.is_required)
        .help(words.help)
}

/// An option with a value, or a flag. That a value has its form, as that of a number, and is within its limits, is seen
/// where the words are read.
fn option<'a>(alloc: Global, words: &OptionWords) -> Arg<'a>
    ensures rule { rule_of result ≡ option_rule words.now }
    ensures local { result.global ≡ false }
{
    let named = Arg::new(alloc, words.long)
        .long(words.long)
        .required(words.is_required)
        .help(words.help);
    match words.value {
        Some(value) => named.value_name(value),
        None => named.action(ArgAction::SetTrue),
    }
}

/// The program's name, what it is, and its version.
fn described<'a>(alloc: Global) -> clap::Command<'a>
    ensures app { app_of result ≡ program_app }
    ensures local { (fields_of result).has_globals ≡ false }
{
    clap::Command::new(alloc, PROGRAM)
        .about(ABOUT)
        .version(VERSION)
}
