//! What each number and name that the program prints means.
//! Cited by meaning_table.rt; other crates.

use crate::meaning_table::MEANINGS;
use kt_tuple::writing::push_number;
use std::alloc::{AllocError, Global};

/// What a number or a name tells of.
#[derive(Clone, Copy, Debug, PartialEq, Eq)]
pub enum MeaningKind {
    /// A fault of a scenario's text, as in `line 4: 3 Tuple`.
    Fault,
    /// Why a step is refused, as in `step 2: 3 NothingThere`.
    Refusal,
    /// The exit status.
    Status,
    /// Why a store is refused, as in `store: NotFresh`.
    Store,
    /// Why a run did not close, as in `close: Unfinished`.
    Close,
}

/// What a number or a name means.
#[derive(Clone, Copy, Debug, PartialEq, Eq)]
pub struct Meaning {
    /// What it tells of.
    pub kind: MeaningKind,
    /// The number; `None` where the name alone is printed.
    pub number: Option<u8>,
    /// The name as it is printed; empty where the number alone tells.
    pub name: &'static str,
    /// What it means, in one line.
    pub text: &'static str,
}

/// What each fault, each refusal and each status means, in that order, and what a store and a closing say.
pub fn meanings() -> &'static [Meaning] {
    MEANINGS
}

/// All that a word can mean that the program prints, a line each, as `fault 3 Tuple: ..`: the word is a number or a
/// name. Of a word that is printed nowhere it is empty.
pub fn meanings_of(alloc: Global, word: &str) -> Result<Vec<u8>, AllocError> {
    let mut out = Vec::new(alloc);
    for meaning in meanings() {
        if meaning.is_called(word) {
            push_meaning(&mut out, meaning)?;
        }
    }
    Ok(out)
}

impl Meaning {
    /// Whether the word is its number or its name.
    fn is_called(&self, word: &str) -> bool {
        !word.is_empty()
            && (self.name == word || self.number.is_some() && self.number == number_in(word))
    }
}

/// The number that the word is, in decimal.
fn number_in(word: &str) -> Option<u8> {
    word.parse::<u8>().ok()
}

fn push_meaning(out: &mut Vec<u8>, meaning: &Meaning) -> Result<(), AllocError> {
    out.extend_from_slice(meaning.kind.word().as_bytes())?;
    if let Some(number) = meaning.number {
        out.push(b' ')?;
        push_number(out, u64::from(number))?;
    }
    if !meaning.name.is_empty() {
        out.push(b' ')?;
        out.extend_from_slice(meaning.name.as_bytes())?;
    }
    out.extend_from_slice(b": ")?;
    out.extend_from_slice(meaning.text.as_bytes())?;
    Ok(out.push(b'\n')?)
}

impl MeaningKind {
    /// The word before the number or the name.
    fn word(self) -> &'static str {
        match self {
            MeaningKind::Fault => "fault",
            MeaningKind::Refusal => "refusal",
            MeaningKind::Status => "status",
            MeaningKind::Store => "store",
            MeaningKind::Close => "close",
        }
    }
}
