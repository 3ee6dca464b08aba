//! The script for zsh.
//! Cited by completing.rt.
#![tactic(auto, using(crate::proofs::Growing::growing))]

ghost use Rattle.std.specs.Prelude.{All, OnOk};
ghost use Rattle.std.specs.Str.Iter.{HasSubslice};
ghost use Rattle.kt_words.specs.Plain.{IsPlain};
ghost use Rattle.kt_words.specs.Shell.{purpose_of};
ghost use Rattle.kt_words.specs.declared.shell.Shell.TheVariants as shells;
ghost use Rattle.kt_words.specs.auxiliary.Growth.{Extends, HasCommand, HasCommands, HasOption, HasOptions};
ghost use Rattle.kt_words.specs.auxiliary.Parts.{IsPlainArgument, IsPlainCommand, IsPlainOption};

use crate::escape::{Place, push_escaped};
use crate::text::{push_text, push_values};
use crate::words::{ArgumentWords, CommandWords, OptionWords, ValueKind};
use std::alloc::AllocError;

/// The line by which zsh knows the file.
const FIRST: &str = "#compdef linda_kt\n";

/// What the script is for.
const PURPOSE: &str = "# Completes the words of linda_kt in zsh.";

/// What stands before what is completed behind each command.
const HEAD: &str = " In a file `_linda_kt` of a folder of $fpath, or for each new shell, in
# ~/.zshrc behind compinit:
#     source <(linda_kt completion zsh)

_linda_kt() {
    local context curcontext=\"$curcontext\" state line ret=1
    typeset -A opt_args
    _arguments -s -C : \\
        '(- *)'{-h,--help}'[Print help]' \\
        '(- *)'{-V,--version}'[Print version]' \\
        ':: :_linda_kt_commands' \\
        '*::: :->behind' && ret=0
    if [[ $state == behind ]]; then
        words=($line[1] \"${words[@]}\")
        ((CURRENT += 1))
        curcontext=\"${curcontext%:*:*}:linda_kt-command-$line[1]:\"
        case $line[1] in
";

/// What stands between those and the names of the commands.
const BEFORE_NAMES: &str = "        esac
    fi
    return ret
}

_linda_kt_commands() {
    local commands
    commands=(
";

/// What stands behind the names.
const TAIL: &str = "    )
    _describe -t commands 'linda_kt command' commands \"$@\"
}

if [[ $funcstack[1] == _linda_kt ]]; then
    _linda_kt \"$@\"
else
    compdef _linda_kt linda_kt
fi
";

/// Appends the script.
pub(crate) fn push_zsh(out: &mut Vec<u8>, commands: &[CommandWords]) -> Result<(), AllocError>
    requires { All IsPlainCommand commands.now }
    ensures extends { OnOk result (Extends out.old.items out.new.items) }
    ensures words { OnOk result (HasCommands out.new.items commands.now) }
    ensures purpose { OnOk result (HasSubslice out.new.items (purpose_of shells.Zsh)) }
{
    push_text(out, FIRST)?;
    push_text(out, PURPOSE)?;
    push_text(out, HEAD)?;
    push_cases(out, commands)?;
    push_text(out, BEFORE_NAMES)?;
    push_names(out, commands)?;
    push_text(out, TAIL)
}

/// Appends the names of the commands, each with what it does.
fn push_names(out: &mut Vec<u8>, commands: &[CommandWords]) -> Result<(), AllocError>
    requires { All IsPlainCommand commands.now }
    ensures { OnOk result (Extends out.old.items out.new.items) }
{
    for command in commands {
        push_name(out, command)?;
    }
    Ok(())
}

/// Appends the name of the command, with what it does.
fn push_name(out: &mut Vec<u8>, command: &CommandWords) -> Result<(), AllocError>
    requires { IsPlainCommand command.now }
    ensures { OnOk result (Extends out.old.items out.new.items) }
{
    push_text(out, "        '")?;
    push_text(out, command.name)?;
    push_text(out, ":")?;
    push_escaped(out, Place::Zsh, command.about)?;
    push_text(out, "'\n")
}

/// Appends what is completed behind each command.
fn push_cases(out: &mut Vec<u8>, commands: &[CommandWords]) -> Result<(), AllocError>
    requires { All IsPlainCommand commands.now }
    ensures extends { OnOk result (Extends out.old.items out.new.items) }
    ensures words { OnOk result (HasCommands out.new.items commands.now) }
{
    for command in commands {
        push_case(out, command)?;
    }
    Ok(())
}

/// Appends what is completed behind the command.
fn push_case(out: &mut Vec<u8>, command: &CommandWords) -> Result<(), AllocError>
    requires { IsPlainCommand command.now }
    ensures extends { OnOk result (Extends out.old.items out.new.items) }
    ensures words { OnOk result (HasCommand out.new.items command.now) }
{
    push_text(out, "            ")?;
    push_text(out, command.name)?;
    push_text(out, ")\n                _arguments -s : \\\n")?;
    push_options(out, command.options)?;
    push_arguments(out, command.arguments)?;
    push_text(
        out,
        "                    '(- *)'{-h,--help}'[Print help]' && ret=0\n                ;;\n",
    )
}

/// Appends each option with what it does and what its value is.
fn push_options(out: &mut Vec<u8>, options: &[OptionWords]) -> Result<(), AllocError>
    requires { All IsPlainOption options.now }
    ensures extends { OnOk result (Extends out.old.items out.new.items) }
    ensures words { OnOk result (HasOptions out.new.items options.now) }
{
    for option in options {
        push_option(out, option)?;
    }
    Ok(())
}

/// Appends the option.
fn push_option(out: &mut Vec<u8>, option: &OptionWords) -> Result<(), AllocError>
    requires { IsPlainOption option.now }
    ensures extends { OnOk result (Extends out.old.items out.new.items) }
    ensures word { OnOk result (HasOption out.new.items option.now) }
{
    push_text(out, "                    '--")?;
    push_text(out, option.long)?;
    push_text(out, bracket_of(option.kind()))?;
    push_escaped(out, Place::Zsh, option.help)?;
    push_text(out, "]")?;
    push_value(out, option)?;
    push_text(out, "' \\\n")
}

/// What stands between an option's name and what it does.
fn bracket_of(kind: ValueKind) -> &'static str
    ensures { IsPlain result.now }
{
    match kind {
        ValueKind::Flag => "[",
        ValueKind::File | ValueKind::Other => "=[",
    }
}

/// Appends what the option's value is, where it has one.
fn push_value(out: &mut Vec<u8>, option: &OptionWords) -> Result<(), AllocError>
    requires { IsPlainOption option.now }
    ensures { OnOk result (Extends out.old.items out.new.items) }
{
    let Some(value) = option.value else {
        return Ok(());
    };
    push_text(out, ":")?;
    push_text(out, value)?;
    match option.kind() {
        ValueKind::File => push_text(out, ":_files"),
        _ => push_text(out, ": "),
    }
}

/// Appends what each argument can be.
fn push_arguments(out: &mut Vec<u8>, arguments: &[ArgumentWords]) -> Result<(), AllocError>
    requires { All IsPlainArgument arguments.now }
    ensures { OnOk result (Extends out.old.items out.new.items) }
{
    for argument in arguments {
        push_argument(out, argument)?;
    }
    Ok(())
}

/// Appends what the argument can be.
fn push_argument(out: &mut Vec<u8>, argument: &ArgumentWords) -> Result<(), AllocError>
    requires { IsPlainArgument argument.now }
    ensures { OnOk result (Extends out.old.items out.new.items) }
{
    push_text(out, "                    '")?;
    push_text(out, colons_of(argument.is_required))?;
    push_text(out, argument.name)?;
    push_action(out, argument)?;
    push_text(out, "' \\\n")
}

/// What stands before an argument's name.
fn colons_of(is_required: bool) -> &'static str
    ensures { IsPlain result.now }
{
    if is_required { ":" } else { "::" }
}

/// Appends by what the argument is completed.
fn push_action(out: &mut Vec<u8>, argument: &ArgumentWords) -> Result<(), AllocError>
    requires { IsPlainArgument argument.now }
    ensures { OnOk result (Extends out.old.items out.new.items) }
{
    if argument.is_file() {
        return push_text(out, ":_files");
    }
    if argument.values.is_empty() {
        return push_text(out, ": ");
    }
    push_text(out, ":(")?;
    push_values(out, argument.values)?;
    push_text(out, ")")
}
