//! The words that may begin a line, part by part.
//! Cited by fault_word.rt, script_word.rt, step_word.rt.

use kt_text::WorkKind;

/// The words of operations.
pub(crate) const VERBS: &[&str] = &["out", "in", "rd", "inp", "rdp"];

/// What may begin a line of a script in a scenario of steps.
const WORDS_BEFORE_STEPS: &[&str] = &[
    "out", "in", "rd", "inp", "rdp", "set", "unless", "worker", "steps",
];

/// What may begin a line of a script in a scenario of fault lines.
const WORDS_BEFORE_FAULTS: &[&str] = &[
    "out", "in", "rd", "inp", "rdp", "set", "unless", "worker", "faults",
];

/// What may begin a line below `steps`.
pub(crate) const STEP_WORDS: &[&str] = &[
    "issue", "repeat", "deliver", "take", "serve", "check", "decide", "abandon", "learn", "fail",
    "restart", "end",
];

/// What may begin a line below `faults`.
pub(crate) const FAULT_WORDS: &[&str] = &["fail", "check", "end"];

/// What may begin a line of a script.
pub(crate) fn script_words(kind: WorkKind) -> &'static [&'static str] {
    match kind {
        WorkKind::Steps => WORDS_BEFORE_STEPS,
        WorkKind::Faults => WORDS_BEFORE_FAULTS,
    }
}

/// Words that other spaces of tuples have, and the commands that do it here.
const OTHER_WORDS: &[(&str, &str)] = &[
    ("put", "out"),
    ("write", "out"),
    ("send", "out"),
    ("add", "out"),
    ("get", "in"),
    ("take", "in"),
    ("read", "rd"),
];

/// The command that is meant by a word of another space of tuples, before a tuple.
pub(crate) fn command_meant(word: &[u8], rest: &[u8]) -> Option<&'static str> {
    if !rest.starts_with(b" (") {
        return None;
    }
    for (other, meant) in OTHER_WORDS {
        if word.eq_ignore_ascii_case(other.as_bytes()) {
            return Some(*meant);
        }
    }
    None
}

/// The one of these that is the word.
pub(crate) fn listed(word: &[u8], words: &'static [&'static str]) -> Option<&'static str> {
    for other in words {
        if word == other.as_bytes() {
            return Some(*other);
        }
    }
    None
}

/// Whether the word is one of these.
pub(crate) fn is_among(word: &[u8], words: &'static [&'static str]) -> bool {
    listed(word, words).is_some()
}
