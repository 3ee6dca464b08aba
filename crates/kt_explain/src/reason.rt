//! What is said of a mistake: what to do, in one line, and in two where it has to say how lines begin.
//! Cited by case.rt, command_form.rt, ending.rt, explain.rt, fault_word.rt, finding.rt, header.rt, limit.rt, name.rt,
//!   node.rt, script_word.rt, spacing.rt, step_word.rt, tuple.rt, variable.rt.

use kt_scenario::MAX_STEPS;
use kt_script::{MAX_COMMANDS, MAX_NAME, MAX_VARIABLES};
use kt_text::MAX_TEXT;
use kt_tuple::{Kind, MAX_CHARACTERS, MAX_PLACES, MAX_SHARDS, MAX_WORKERS};
use std::alloc::{AllocError, Global};

/// The greatest place of a match in a line of steps: so many tuples are put before the last step at most.
const MAX_MATCH: u64 = MAX_STEPS - 1;

/// Of a remark that does not have its line for itself.
pub(crate) const REMARK_BEHIND: Reason = Reason::Said(
    "a remark needs a line of its own, which begins with `#`: write it above this line",
);

/// Of more behind a word that stands alone.
pub(crate) const ALONE: Reason = Reason::Said(
    "the first word of this line stands alone: take away what comes after it",
);

/// Why a line has a fault.
#[derive(Clone, Copy)]
pub(crate) enum Reason {
    /// This text says all of it.
    Said(&'static str),
    /// This text says it, behind the number of the line.
    OfLine(&'static str),
    /// The text ends too early.
    Missing(Missing),
    /// No line begins so; two lines say how lines begin there.
    Unknown(&'static str, &'static str),
    /// This was meant.
    Meant(&'static str),
    /// Nothing binds the name, and it is near to this value.
    NearValue(&'static str),
    /// Behind this word one node is wanted.
    OneNode(&'static str),
    /// A limit is passed.
    Limit(Limit),
    /// There is no such node among so many workers and shards.
    NoNode { workers: usize, shards: i64 },
    /// The name stands for values of this kind.
    BoundTo(Kind),
    /// The name stands for values of this kind, and `set` adds to ints.
    NoInt(Kind),
}

/// What a text lacks that ends too early.
#[derive(Clone, Copy)]
pub(crate) struct Missing {
    /// What the next line is to be.
    pub(crate) line: &'static str,
    /// What is to come then.
    pub(crate) then: &'static str,
}

/// What has a limit.
#[derive(Clone, Copy)]
pub(crate) enum Limit {
    /// The bytes of the text.
    Text,
    /// The line `shards N`, which is wanted.
    ShardsLine,
    /// The number of shards.
    Shards,
    Workers,
    /// The numbers of nodes.
    NodeNumbers,
    Commands,
    Names,
    /// The characters of a name.
    Name,
    Places,
    /// The characters of a str.
    Characters,
    /// The bits of an int.
    Bits,
    /// The form of `unless`, with its number.
    Skips,
    /// The number of `unless`, which is too great.
    ManySkips,
    /// The number of a fault line.
    After,
    /// The place of `serve`.
    Match,
}

impl Reason {
    /// Of a byte that is no ASCII character, the first of these.
    pub(crate) fn of_foreign(rest: &[u8]) -> Reason {
        Reason::Said(match rest.first() {
            Some(b'\t') => "a tab, shown as `\\t`: write one space in its place",
            Some(b'\r') =>
                "a carriage return, shown as `\\r`: take it away, lines end with LF alone",
            Some(128..=255) =>
                "no ASCII character, its bytes are shown as `\\x..`: write letters, digits and signs of ASCII alone",
            _ => "a control byte, shown as `\\x..`: take it away",
        })
    }

    /// Whether it is of the whole line, so that no place in it is marked.
    pub(crate) fn is_of_all(self) -> bool {
        matches!(self, Reason::Unknown(_, _))
    }

    /// The second line of what is said, without a line feed; most have none.
    pub(crate) fn second_line(self) -> Option<&'static str> {
        match self {
            Reason::Unknown(_, second) => Some(second),
            _ => None,
        }
    }

    /// The first line of what is said of the line of this number, without a line feed.
    pub(crate) fn first_line(self, alloc: Global, number: usize) -> Result<String, AllocError> {
        match self {
            Reason::Said(text) | Reason::Unknown(text, _) => String::from_str(alloc, text),
            Reason::OfLine(text) => format!(in alloc; "line {number} {text}"),
            Reason::Missing(Missing { line, then }) => {
                format!(in alloc;
                    "the text ends too early: write `{line}` as line {number}, {then}"
                )
            }
            Reason::Limit(limit) => limit.message(alloc),
            Reason::NoNode { workers, shards } => no_node(alloc, workers, shards),
            _ => self.word_message(alloc),
        }
    }

    /// Of a word or a name.
    fn word_message(self, alloc: Global) -> Result<String, AllocError> {
        match self {
            Reason::NearValue(value) => {
                format!(in alloc; "no command above binds this name: did you mean `{value}`?")
            }
            Reason::OneNode(word) => {
                format!(in alloc;
                    "the form is `{word} NODE`, with one node alone, as in `{word} w1`"
                )
            }
            Reason::BoundTo(kind) => {
                let kind = name_of(kind);
                format!(in alloc;
                    "this name stands for {kind} since it was first bound: take another name here"
                )
            }
            Reason::NoInt(kind) => {
                let kind = name_of(kind);
                format!(in alloc;
                    "`set` adds to an int, and this name stands for {kind}: write a name that was bound by `?int`"
                )
            }
            Reason::Meant(word) => format!(in alloc; "did you mean `{word}`?"),
            _ => Ok(String::new(alloc)),
        }
    }
}

impl Limit {
    fn message(self, alloc: Global) -> Result<String, AllocError> {
        match self {
            Limit::Text => format!(in alloc;
                "the text has more than {MAX_TEXT} bytes: make it shorter"
            ),
            Limit::Skips | Limit::ManySkips | Limit::After | Limit::Match => {
                self.number_message(alloc)
            }
            Limit::ShardsLine | Limit::Shards | Limit::Workers | Limit::NodeNumbers => {
                self.scene_message(alloc)
            }
            _ => self.script_message(alloc),
        }
    }

    /// Of what a script has.
    fn script_message(self, alloc: Global) -> Result<String, AllocError> {
        match self {
            Limit::Commands => format!(in alloc;
                "a script has at most {MAX_COMMANDS} commands: take some away"
            ),
            Limit::Names => format!(in alloc;
                "a script has at most {MAX_VARIABLES} names: write one here that the script has already"
            ),
            Limit::Name => format!(in alloc;
                "a name has at most {MAX_NAME} characters: make it shorter"
            ),
            Limit::Places => {
                format!(in alloc;
                    "a tuple or template has at most {MAX_PLACES} places: take away this one and those after it"
                )
            }
            Limit::Characters => {
                format!(in alloc; "a str has at most {MAX_CHARACTERS} characters: make it shorter")
            }
            _ => {
                let (least, most) = (i64::MIN, i64::MAX);
                format!(in alloc; "an int has 64 bits: write one from {least} to {most}")
            }
        }
    }

    /// Of the numbers of commands, steps and fault lines.
    fn number_message(self, alloc: Global) -> Result<String, AllocError> {
        match self {
            Limit::Skips => {
                format!(in alloc;
                    "`unless N` skips the next N commands where the last answer was none: write N, from 1 to \
                     {MAX_COMMANDS}, with no zeros in front"
                )
            }
            Limit::ManySkips => {
                format!(in alloc;
                    "a script has at most {MAX_COMMANDS} commands: write `unless {MAX_COMMANDS}`, which skips all \
                     that follow where the last answer was none"
                )
            }
            Limit::After => {
                format!(in alloc;
                    "the number says how many steps of its own the node makes first: write one from 0 to \
                     {MAX_STEPS}, with no zeros in front"
                )
            }
            _ => {
                format!(in alloc;
                    "the last number picks one of the tuples that match, 0 the oldest: write 0, or one up to \
                     {MAX_MATCH}"
                )
            }
        }
    }

    /// Of what a scene has.
    fn scene_message(self, alloc: Global) -> Result<String, AllocError> {
        match self {
            Limit::Shards => format!(in alloc;
                "the form is `shards N`, N from 1 to {MAX_SHARDS} with no zeros in front, as in `shards 1`"
            ),
            Limit::ShardsLine => {
                format!(in alloc;
                    "the second line says how many shards hold the tuples, 1 to {MAX_SHARDS}: write `shards 1` \
                     above this line"
                )
            }
            Limit::Workers => format!(in alloc;
                "a scenario has at most {MAX_WORKERS} workers: take one away"
            ),
            _ => {
                format!(in alloc;
                    "no scenario has such a node: workers go up to `w{MAX_WORKERS}`, shards to `s{MAX_SHARDS}`"
                )
            }
        }
    }
}

fn name_of(kind: Kind) -> &'static str {
    match kind {
        Kind::Int => "ints",
        Kind::Str => "strs",
        Kind::Bool => "bools",
    }
}

/// Which nodes there are.
fn no_node(alloc: Global, workers: usize, shards: i64) -> Result<String, AllocError> {
    let mut message = String::from_str(alloc, "there is no such node: write one of `w1`")?;
    if workers > 1 {
        let more = format!(in alloc; " to `w{workers}`")?;
        message.push_str(&more)?;
    }
    message.push_str(" and `s1`")?;
    if shards > 1 {
        let more = format!(in alloc; " to `s{shards}`")?;
        message.push_str(&more)?;
    }
    message.push_str(", which this scenario has")?;
    Ok(message)
}
