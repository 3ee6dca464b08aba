//! The words of a process: its arguments without the first, which is the program's name.
//! Cited by other crates.
ghost use Rattle.std.specs.Prelude.{◌≡◌, IfOk};
ghost use Rattle.std.specs.Vec.Iter.{into_iter_items};
ghost use Rattle.kt_command.specs.Command.{texts, words_behind};

use std::alloc::{AllocError, Global};
use std::env::Args;

/// All arguments of a process, in order. An error is want of memory.
pub fn texts_of(alloc: Global, arguments: Args) -> Result<Vec<String>, AllocError>
    ensures { IfOk result (λ all. all.items ≡ into_iter_items arguments) }
{
    arguments.collect(alloc)
}

/// The words behind the first argument, which is the program's name; none where there is no argument at all. An error
/// is want of memory.
pub fn words_behind<'a>(alloc: Global, arguments: &'a [String]) -> Result<Vec<&'a str>, AllocError>
    ensures { IfOk result (λ words. texts words.items ≡ words_behind arguments.entry.now) }
{
    let mut words = Vec::new(alloc);
    if let Some((_, behind)) = arguments.split_first() {
        for word in behind {
            words.push(word.as_str())?;
        }
    }
    Ok(words)
}
