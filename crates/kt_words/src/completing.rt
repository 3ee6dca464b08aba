//! Scripts by which shells complete the words.
//! Cited by other crates.

ghost use Rattle.std.specs.Prelude.{All, IfOk, OnOk};
ghost use Rattle.std.specs.Str.Iter.{HasSubslice};
ghost use Rattle.kt_words.specs.Grammar.{HasWords, grammar};
ghost use Rattle.kt_words.specs.Plain.{IsPlain};
ghost use Rattle.kt_words.specs.Shell.{purpose_of};
ghost use Rattle.kt_words.specs.auxiliary.Growth.{Extends, HasCommands};
ghost use Rattle.kt_words.specs.auxiliary.Parts.{IsPlainCommand};

use crate::bash::push_bash;
use crate::command_table::commands;
use crate::fish::push_fish;
use crate::shell::Shell;
use crate::words::CommandWords;
use crate::zsh::push_zsh;
use std::alloc::{AllocError, Global};

/// The script for the shell: it completes names of commands, long options, names of files where one is wanted, and the
/// words that an argument can be.
pub fn completion(alloc: Global, shell: Shell) -> Result<Vec<u8>, AllocError>
    ensures plain { IfOk result (λ script. IsPlain script.items) }
    ensures words { IfOk result (λ script. HasWords script.items grammar) }
    ensures purpose { IfOk result (λ script. HasSubslice script.items (purpose_of shell)) }
{
    let mut out = Vec::new(alloc);
    push_script(&mut out, shell, commands())?;
    Ok(out)
}

/// Appends the script for the shell.
fn push_script(out: &mut Vec<u8>, shell: Shell, commands: &[CommandWords]) -> Result<(), AllocError>
    requires { All IsPlainCommand commands.now }
    ensures extends { OnOk result (Extends out.old.items out.new.items) }
    ensures words { OnOk result (HasCommands out.new.items commands.now) }
    ensures purpose { OnOk result (HasSubslice out.new.items (purpose_of shell)) }
{
    match shell {
        Shell::Bash => push_bash(out, commands),
        Shell::Zsh => push_zsh(out, commands),
        Shell::Fish => push_fish(out, commands),
    }
}
