//! The script for fish.
//! Cited by completing.rt.
#![tactic(auto, using(crate::proofs::Growing::growing))]

ghost use Rattle.std.specs.Prelude.{All, OnOk};
ghost use Rattle.std.specs.Str.Iter.{HasSubslice};
ghost use Rattle.kt_words.specs.Plain.{IsPlain};
ghost use Rattle.kt_words.specs.Shell.{purpose_of};
ghost use Rattle.kt_words.specs.declared.shell.Shell.TheVariants as shells;
ghost use Rattle.kt_words.specs.auxiliary.Growth.{Extends, HasCommand, HasCommands, HasOption, HasOptions};
ghost use Rattle.kt_words.specs.auxiliary.Parts.{IsPlainArgument, IsPlainCommand, IsPlainOption};

use crate::escape::{Place, push_escaped};
use crate::text::{push_text, push_values};
use crate::words::{ArgumentWords, CommandWords, OptionWords, ValueKind};
use std::alloc::AllocError;

/// What the script is for.
const PURPOSE: &str = "# Completes the words of linda_kt in fish.";

/// What stands before the commands.
const HEAD: &str = " In ~/.config/fish/completions/linda_kt.fish, or at once:
#     linda_kt completion fish | source

function __linda_kt_needs_command
    test (count (commandline -opc)) -eq 1
end

function __linda_kt_has_command
    set -l words (commandline -opc)
    test (count $words) -gt 1; and test $words[2] = $argv[1]
end

complete -c linda_kt -f
complete -c linda_kt -s h -l help -d 'Print help'
complete -c linda_kt -n __linda_kt_needs_command -s V -l version -d 'Print version'
";

/// Appends the script.
pub(crate) fn push_fish(out: &mut Vec<u8>, commands: &[CommandWords]) -> Result<(), AllocError>
    requires { All IsPlainCommand commands.now }
    ensures extends { OnOk result (Extends out.old.items out.new.items) }
    ensures words { OnOk result (HasCommands out.new.items commands.now) }
    ensures purpose { OnOk result (HasSubslice out.new.items (purpose_of shells.Fish)) }
{
    push_text(out, PURPOSE)?;
    push_text(out, HEAD)?;
    push_cases(out, commands)
}

/// Appends what is completed behind each command.
fn push_cases(out: &mut Vec<u8>, commands: &[CommandWords]) -> Result<(), AllocError>
    requires { All IsPlainCommand commands.now }
    ensures extends { OnOk result (Extends out.old.items out.new.items) }
    ensures words { OnOk result (HasCommands out.new.items commands.now) }
{
    for command in commands {
        push_case(out, command)?;
    }
    Ok(())
}

/// Appends the command, and what is completed behind it.
fn push_case(out: &mut Vec<u8>, command: &CommandWords) -> Result<(), AllocError>
    requires { IsPlainCommand command.now }
    ensures extends { OnOk result (Extends out.old.items out.new.items) }
    ensures words { OnOk result (HasCommand out.new.items command.now) }
{
    push_text(
        out,
        "\ncomplete -c linda_kt -n __linda_kt_needs_command -a ",
    )?;
    push_text(out, command.name)?;
    push_text(out, " -d '")?;
    push_escaped(out, Place::Fish, command.about)?;
    push_text(out, "'\n")?;
    push_arguments(out, command.name, command.arguments)?;
    push_options(out, command.name, command.options)
}

/// Appends what each argument of the command of this name can be.
fn push_arguments(
    out: &mut Vec<u8>,
    name: &str,
    arguments: &[ArgumentWords],
) -> Result<(), AllocError>
    requires name { IsPlain name.now }
    requires arguments { All IsPlainArgument arguments.now }
    ensures { OnOk result (Extends out.old.items out.new.items) }
{
    for argument in arguments {
        push_argument(out, name, argument)?;
    }
    Ok(())
}

/// Appends what the argument can be; there is no line for a number.
fn push_argument(out: &mut Vec<u8>, name: &str, argument: &ArgumentWords) -> Result<(), AllocError>
    requires name { IsPlain name.now }
    requires argument { IsPlainArgument argument.now }
    ensures { OnOk result (Extends out.old.items out.new.items) }
{
    if argument.is_file() {
        push_condition(out, name)?;
        return push_text(out, " -F\n");
    }
    if argument.values.is_empty() {
        return Ok(());
    }
    push_condition(out, name)?;
    push_text(out, " -a '")?;
    push_values(out, argument.values)?;
    push_text(out, "'\n")
}

/// Appends each option of the command of this name.
fn push_options(out: &mut Vec<u8>, name: &str, options: &[OptionWords]) -> Result<(), AllocError>
    requires name { IsPlain name.now }
    requires options { All IsPlainOption options.now }
    ensures extends { OnOk result (Extends out.old.items out.new.items) }
    ensures words { OnOk result (HasOptions out.new.items options.now) }
{
    for option in options {
        push_option(out, name, option)?;
    }
    Ok(())
}

/// Appends the option.
fn push_option(out: &mut Vec<u8>, name: &str, option: &OptionWords) -> Result<(), AllocError>
    requires name { IsPlain name.now }
    requires option { IsPlainOption option.now }
    ensures extends { OnOk result (Extends out.old.items out.new.items) }
    ensures word { OnOk result (HasOption out.new.items option.now) }
{
    push_condition(out, name)?;
    push_text(out, " -l ")?;
    push_text(out, option.long)?;
    push_text(out, flags_of(option.kind()))?;
    push_escaped(out, Place::Fish, option.help)?;
    push_text(out, "'\n")
}

/// What stands between an option's name and what it does.
fn flags_of(kind: ValueKind) -> &'static str
    ensures { IsPlain result.now }
{
    match kind {
        ValueKind::Flag => " -d '",
        ValueKind::File => " -rF -d '",
        ValueKind::Other => " -x -d '",
    }
}

/// Appends the begin of a line that holds behind the command of this name.
fn push_condition(out: &mut Vec<u8>, name: &str) -> Result<(), AllocError>
    requires { IsPlain name.now }
    ensures { OnOk result (Extends out.old.items out.new.items) }
{
    push_text(out, "complete -c linda_kt -n '__linda_kt_has_command ")?;
    push_text(out, name)?;
    push_text(out, "'")
}
