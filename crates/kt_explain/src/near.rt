//! Which word was meant by one that is misspelt.
//! Cited by fault_word.rt, header.rt, script_word.rt, step_word.rt, variable.rt.

ghost use Rattle.std.specs.Prelude.{◌≡◌, ◌≤◌, ◌<◌, ◌+◌, IfOk, IfSome, IfNone, All, length, map, min};
ghost use Rattle.std.specs.Char.{to_ascii_lowercase};
ghost use Rattle.kt_explain.specs.Near.{edits, IsNearest};

use std::alloc::{AllocError, Global};
use strsim::generic_levenshtein;

/// The most edits, each of one character, that lead from a word that is meant to what was written.
pub const MAX_EDITS: usize = 2;

/// The longest word that is compared with others: no word of a scenario is so long.
const MAX_LENGTH: usize = 16;

/// The word that is nearest to this one, by how many characters have to be changed, taken away or put in. None where
/// that takes more than `MAX_EDITS`, or as many as the word has, or where the word has more than `MAX_LENGTH`. Large
/// letters count as small ones.
pub fn nearest<'a>(
    alloc: Global,
    word: &[u8],
    words: &'a [&'a str],
) -> Result<Option<&'a str>, AllocError>
    ensures nearest { IfOk result (λ found. IfSome found (λ meant.
        IsNearest (map to_ascii_lowercase word.now) (map (λ w. w.now) words.now) meant.now)) }
    // Not more than `MAX_EDITS` edits, and fewer than the word has characters.
    ensures near { IfOk result (λ found. IfSome found (λ meant.
        edits (map to_ascii_lowercase word.now) meant.now < min (length word.now) (MAX_EDITS + 1))) }
{
    if word.len() > MAX_LENGTH {
        return Ok(None);
    }
    let small = in_small_letters(alloc, word)?;
    nearest_below(alloc, &small, words, word.len().min(MAX_EDITS + 1))
}

/// The nearest word of those that take fewer edits than this bound.
fn nearest_below<'a>(
    alloc: Global,
    word: &[u8],
    words: &'a [&'a str],
    bound: usize,
) -> Result<Option<&'a str>, AllocError>
    ensures nearest { IfOk result (λ found. IfSome found (λ meant.
        IsNearest word.now (map (λ w. w.now) words.now) meant.now)) }
    ensures below { IfOk result (λ found. IfSome found (λ meant. edits word.now meant.now < bound)) }
    ensures none { IfOk result (λ found. IfNone found
        (All (λ other. bound ≤ edits word.now other) (map (λ w. w.now) words.now))) }
{
    let Some((first, later)) = words.split_first() else {
        return Ok(None);
    };
    let edits = edits_between(alloc, word, first.as_bytes())?;
    if edits >= bound {
        return nearest_below(alloc, word, later, bound);
    }
    match nearest_below(alloc, word, later, edits)? {
        Some(nearer) => Ok(Some(nearer)),
        None => Ok(Some(*first)),
    }
}

fn edits_between(alloc: Global, word: &[u8], other: &[u8]) -> Result<usize, AllocError>
    ensures { IfOk result (λ d. d ≡ edits word.now other.now) }
{
    generic_levenshtein(alloc, word, other)
}

fn in_small_letters(alloc: Global, word: &[u8]) -> Result<Vec<u8>, AllocError>
    ensures { IfOk result (λ small. small.items ≡ map to_ascii_lowercase word.now) }
{
    word.iter().map(|c| c.to_ascii_lowercase()).collect(alloc)
}
