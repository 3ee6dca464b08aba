//! The commands in the manual page.
//! Cited by page.rt.
#![tactic(auto, using(crate::proofs::Growing::growing))]

ghost use Rattle.std.specs.Prelude.{All, OnOk};
ghost use Rattle.kt_words.specs.Plain.{IsPlain};
ghost use Rattle.kt_words.specs.auxiliary.Growth.{Extends, HasCommand, HasCommands, HasOption, HasOptions};
ghost use Rattle.kt_words.specs.auxiliary.Parts.{IsPlainArgument, IsPlainCommand, IsPlainOption};

use crate::escape::{Place, push_escaped};
use crate::text::push_text;
use crate::words::{ArgumentWords, CommandWords, OptionWords};
use std::alloc::AllocError;

/// Appends a line for each command with its arguments and options.
pub(crate) fn push_synopsis(out: &mut Vec<u8>, commands: &[CommandWords]) -> Result<(), AllocError>
    requires { All IsPlainCommand commands.now }
    ensures { OnOk result (Extends out.old.items out.new.items) }
{
    push_text(out, ".SH SYNOPSIS\n.PD 0\n")?;
    for command in commands {
        push_use(out, command)?;
    }
    push_text(out, ".PD\n")
}

/// Appends the command with its arguments and options.
fn push_use(out: &mut Vec<u8>, command: &CommandWords) -> Result<(), AllocError>
    requires { IsPlainCommand command.now }
    ensures { OnOk result (Extends out.old.items out.new.items) }
{
    push_text(out, ".HP\n\\fBlinda_kt\\ ")?;
    push_text(out, command.name)?;
    push_text(out, "\\fR")?;
    push_arguments(out, command.arguments)?;
    push_options(out, command.options)?;
    push_text(out, "\n")
}

/// Appends the arguments, each behind a space.
fn push_arguments(out: &mut Vec<u8>, arguments: &[ArgumentWords]) -> Result<(), AllocError>
    requires { All IsPlainArgument arguments.now }
    ensures { OnOk result (Extends out.old.items out.new.items) }
{
    for argument in arguments {
        push_argument(out, argument)?;
    }
    Ok(())
}

/// Appends the argument, behind a space.
fn push_argument(out: &mut Vec<u8>, argument: &ArgumentWords) -> Result<(), AllocError>
    requires { IsPlainArgument argument.now }
    ensures { OnOk result (Extends out.old.items out.new.items) }
{
    push_text(out, open_of(argument.is_required))?;
    push_text(out, "\\fI")?;
    push_text(out, argument.name)?;
    push_text(out, "\\fR")?;
    push_text(out, close_of(argument.is_required))
}

/// Appends the options, each behind a space.
fn push_options(out: &mut Vec<u8>, options: &[OptionWords]) -> Result<(), AllocError>
    requires { All IsPlainOption options.now }
    ensures { OnOk result (Extends out.old.items out.new.items) }
{
    for option in options {
        push_text(out, open_of(option.is_required))?;
        push_option(out, option)?;
        push_text(out, close_of(option.is_required))?;
    }
    Ok(())
}

/// Appends the option with its value.
fn push_option(out: &mut Vec<u8>, option: &OptionWords) -> Result<(), AllocError>
    requires { IsPlainOption option.now }
    ensures extends { OnOk result (Extends out.old.items out.new.items) }
    ensures word { OnOk result (HasOption out.new.items option.now) }
{
    push_text(out, "\\fB\\-\\-")?;
    push_text(out, option.long)?;
    push_text(out, "\\fR")?;
    push_value(out, option)
}

/// Appends what stands for the option's value, where it has one.
fn push_value(out: &mut Vec<u8>, option: &OptionWords) -> Result<(), AllocError>
    requires { IsPlainOption option.now }
    ensures { OnOk result (Extends out.old.items out.new.items) }
{
    let Some(value) = option.value else {
        return Ok(());
    };
    // A line does not break there.
    push_text(out, "\\ \\fI")?;
    push_text(out, value)?;
    push_text(out, "\\fR")
}

/// What stands before a word: a bracket where it may be left out.
fn open_of(is_required: bool) -> &'static str
    ensures { IsPlain result.now }
{
    if is_required { " " } else { " [" }
}

/// What stands behind it.
fn close_of(is_required: bool) -> &'static str
    ensures { IsPlain result.now }
{
    if is_required { "" } else { "]" }
}

/// Appends each command with its arguments and options, and what is said of them.
pub(crate) fn push_commands(out: &mut Vec<u8>, commands: &[CommandWords]) -> Result<(), AllocError>
    requires { All IsPlainCommand commands.now }
    ensures extends { OnOk result (Extends out.old.items out.new.items) }
    ensures words { OnOk result (HasCommands out.new.items commands.now) }
{
    for command in commands {
        push_command(out, command)?;
    }
    Ok(())
}

/// Appends the command.
fn push_command(out: &mut Vec<u8>, command: &CommandWords) -> Result<(), AllocError>
    requires { IsPlainCommand command.now }
    ensures extends { OnOk result (Extends out.old.items out.new.items) }
    ensures words { OnOk result (HasCommand out.new.items command.now) }
{
    push_text(out, ".SS ")?;
    push_text(out, command.name)?;
    push_text(out, "\n")?;
    push_sentence(out, command.about)?;
    push_argument_entries(out, command.arguments)?;
    push_option_entries(out, command.options)
}

/// Appends each argument and what it is.
fn push_argument_entries(out: &mut Vec<u8>, arguments: &[ArgumentWords]) -> Result<(), AllocError>
    requires { All IsPlainArgument arguments.now }
    ensures { OnOk result (Extends out.old.items out.new.items) }
{
    for argument in arguments {
        push_argument_entry(out, argument)?;
    }
    Ok(())
}

/// Appends the argument and what it is.
fn push_argument_entry(out: &mut Vec<u8>, argument: &ArgumentWords) -> Result<(), AllocError>
    requires { IsPlainArgument argument.now }
    ensures { OnOk result (Extends out.old.items out.new.items) }
{
    push_text(out, ".TP\n\\fI")?;
    push_text(out, argument.name)?;
    push_text(out, "\\fR\n")?;
    push_sentence(out, argument.help)
}

/// Appends each option and what it does.
fn push_option_entries(out: &mut Vec<u8>, options: &[OptionWords]) -> Result<(), AllocError>
    requires { All IsPlainOption options.now }
    ensures extends { OnOk result (Extends out.old.items out.new.items) }
    ensures words { OnOk result (HasOptions out.new.items options.now) }
{
    for option in options {
        push_option_entry(out, option)?;
    }
    Ok(())
}

/// Appends the option and what it does.
fn push_option_entry(out: &mut Vec<u8>, option: &OptionWords) -> Result<(), AllocError>
    requires { IsPlainOption option.now }
    ensures extends { OnOk result (Extends out.old.items out.new.items) }
    ensures word { OnOk result (HasOption out.new.items option.now) }
{
    push_text(out, ".TP\n")?;
    push_option(out, option)?;
    push_text(out, "\n")?;
    push_sentence(out, option.help)
}

/// Appends a line with the text and a full stop.
fn push_sentence(out: &mut Vec<u8>, text: &str) -> Result<(), AllocError>
    requires { IsPlain text.now }
    ensures { OnOk result (Extends out.old.items out.new.items) }
{
    push_escaped(out, Place::Roff, text)?;
    push_text(out, ".\n")
}
