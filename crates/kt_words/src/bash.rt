//! The script for bash.
//! Cited by completing.rt.
#![tactic(auto, using(crate::proofs::Growing::growing))]

ghost use Rattle.std.specs.Prelude.{All, OnOk};
ghost use Rattle.std.specs.Str.Iter.{HasSubslice};
ghost use Rattle.kt_words.specs.Plain.{IsPlain};
ghost use Rattle.kt_words.specs.Shell.{purpose_of};
ghost use Rattle.kt_words.specs.declared.shell.Shell.TheVariants as shells;
ghost use Rattle.kt_words.specs.auxiliary.Growth.{Extends, HasCommand, HasCommands, HasOption, HasOptions};
ghost use Rattle.kt_words.specs.auxiliary.Parts.{IsPlainArgument, IsPlainCommand, IsPlainOption};

use crate::text::{push_text, push_values, separator_before};
use crate::words::{ArgumentWords, CommandWords, OptionWords, ValueKind};
use std::alloc::AllocError;

/// What the script is for.
const PURPOSE: &str = "# Completes the words of linda_kt in bash.";

/// What stands before the commands. bash makes a word of its own of a `=` between an option and its value.
const HEAD: &str = " For each new shell, in ~/.bashrc:
#     source <(linda_kt completion bash)

_linda_kt() {
    local word=${COMP_WORDS[COMP_CWORD]} before=${COMP_WORDS[COMP_CWORD - 1]}
    local options='' with_file='' with_other='' argument='' words=''
    if [[ $word == '=' ]]; then
        word=''
    elif [[ $before == '=' ]]; then
        before=${COMP_WORDS[COMP_CWORD - 2]}
    fi
    if ((COMP_CWORD == 1)); then
        options='--help --version'
        words='";

/// What stands between the names of the commands and the words of each.
const BEHIND_NAMES: &str = "'
    else
        case ${COMP_WORDS[1]} in
";

/// What stands behind the commands.
const TAIL: &str = "        esac
    fi
    COMPREPLY=()
    if [[ \" $with_other \" == *\" $before \"* ]]; then
        return
    fi
    if [[ $word != -* && $argument == file || \" $with_file \" == *\" $before \"* ]]; then
        # Nothing is offered here, so bash offers names of files.
        compopt -o default
    elif [[ $word == -* ]]; then
        mapfile -t COMPREPLY < <(compgen -W \"$options\" -- \"$word\")
    else
        mapfile -t COMPREPLY < <(compgen -W \"$words\" -- \"$word\")
    fi
}

complete -F _linda_kt linda_kt
";

/// How the line begins with the options whose value is a file.
const FILE_LINE: &str = "                with_file='";

/// How the line begins with those whose value it cannot complete.
const OTHER_LINE: &str = "                with_other='";

/// Appends the script.
pub(crate) fn push_bash(out: &mut Vec<u8>, commands: &[CommandWords]) -> Result<(), AllocError>
    requires { All IsPlainCommand commands.now }
    ensures extends { OnOk result (Extends out.old.items out.new.items) }
    ensures words { OnOk result (HasCommands out.new.items commands.now) }
    ensures purpose { OnOk result (HasSubslice out.new.items (purpose_of shells.Bash)) }
{
    push_text(out, PURPOSE)?;
    push_text(out, HEAD)?;
    push_names(out, commands)?;
    push_text(out, BEHIND_NAMES)?;
    push_cases(out, commands)?;
    push_text(out, TAIL)
}

/// Appends the names of the commands, each behind a space but the first.
fn push_names(out: &mut Vec<u8>, commands: &[CommandWords]) -> Result<(), AllocError>
    requires { All IsPlainCommand commands.now }
    ensures { OnOk result (Extends out.old.items out.new.items) }
{
    for (place, command) in commands.iter().enumerate() {
        push_text(out, separator_before(place))?;
        push_text(out, command.name)?;
    }
    Ok(())
}

/// Appends what is completed behind each command.
fn push_cases(out: &mut Vec<u8>, commands: &[CommandWords]) -> Result<(), AllocError>
    requires { All IsPlainCommand commands.now }
    ensures extends { OnOk result (Extends out.old.items out.new.items) }
    ensures words { OnOk result (HasCommands out.new.items commands.now) }
{
    for command in commands {
        push_case(out, command)?;
    }
    Ok(())
}

/// Appends what is completed behind the command.
fn push_case(out: &mut Vec<u8>, command: &CommandWords) -> Result<(), AllocError>
    requires { IsPlainCommand command.now }
    ensures extends { OnOk result (Extends out.old.items out.new.items) }
    ensures words { OnOk result (HasCommand out.new.items command.now) }
{
    push_text(out, "            ")?;
    push_text(out, command.name)?;
    push_text(out, ")\n                options='--help")?;
    push_options(out, command.options)?;
    push_text(out, "'\n")?;
    push_valued(out, command.options, ValueKind::File, FILE_LINE)?;
    push_valued(out, command.options, ValueKind::Other, OTHER_LINE)?;
    push_arguments(out, command.arguments)?;
    push_text(out, "                ;;\n")
}

/// Appends each option, behind a space.
fn push_options(out: &mut Vec<u8>, options: &[OptionWords]) -> Result<(), AllocError>
    requires { All IsPlainOption options.now }
    ensures extends { OnOk result (Extends out.old.items out.new.items) }
    ensures words { OnOk result (HasOptions out.new.items options.now) }
{
    for option in options {
        push_option(out, option)?;
    }
    Ok(())
}

/// Appends the option, behind a space.
fn push_option(out: &mut Vec<u8>, option: &OptionWords) -> Result<(), AllocError>
    requires { IsPlainOption option.now }
    ensures extends { OnOk result (Extends out.old.items out.new.items) }
    ensures word { OnOk result (HasOption out.new.items option.now) }
{
    push_text(out, " --")?;
    push_text(out, option.long)
}

/// Appends a line with the options whose value is of this kind, where there are any.
fn push_valued(
    out: &mut Vec<u8>,
    options: &[OptionWords],
    kind: ValueKind,
    begin: &str,
) -> Result<(), AllocError>
    requires options { All IsPlainOption options.now }
    requires begin { IsPlain begin.now }
    ensures { OnOk result (Extends out.old.items out.new.items) }
{
    if !options.iter().any(|option| option.kind() == kind) {
        return Ok(());
    }
    push_text(out, begin)?;
    for option in options {
        if option.kind() == kind {
            push_option(out, option)?;
        }
    }
    push_text(out, "'\n")
}

/// Appends a line that says what the arguments are: files, or one of these words.
fn push_arguments(out: &mut Vec<u8>, arguments: &[ArgumentWords]) -> Result<(), AllocError>
    requires { All IsPlainArgument arguments.now }
    ensures { OnOk result (Extends out.old.items out.new.items) }
{
    for argument in arguments {
        push_argument(out, argument)?;
    }
    Ok(())
}

/// Appends the line of the argument; there is none for a number.
fn push_argument(out: &mut Vec<u8>, argument: &ArgumentWords) -> Result<(), AllocError>
    requires { IsPlainArgument argument.now }
    ensures { OnOk result (Extends out.old.items out.new.items) }
{
    if argument.is_file() {
        return push_text(out, "                argument=file\n");
    }
    if argument.values.is_empty() {
        return Ok(());
    }
    push_text(out, "                words='")?;
    push_values(out, argument.values)?;
    push_text(out, "'\n")
}
