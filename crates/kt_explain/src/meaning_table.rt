//! What each number and name means, as a table.
//! Cited by meaning.rt.

use crate::meaning::{Meaning, MeaningKind};

/// By kind, and in each by number.
pub(crate) const MEANINGS: &[Meaning] = &[
    Meaning {
        kind: MeaningKind::Fault,
        number: Some(1),
        name: "Header",
        text: "the first two lines of a scenario are `linda-kt 1` and `shards N`, and this one is not as it must be",
    },
    Meaning {
        kind: MeaningKind::Fault,
        number: Some(2),
        name: "Word",
        text: "no rule allows such a line there",
    },
    Meaning {
        kind: MeaningKind::Fault,
        number: Some(3),
        name: "Tuple",
        text: "what comes after the operation's word is no tuple or template, or is over its limits",
    },
    Meaning {
        kind: MeaningKind::Fault,
        number: Some(4),
        name: "Variable",
        text: "a name is used that no command above binds, or belongs to another kind of value",
    },
    Meaning {
        kind: MeaningKind::Fault,
        number: Some(5),
        name: "Limit",
        text: "a number is out of its bounds, or there are too many workers, commands, names or bytes",
    },
    Meaning {
        kind: MeaningKind::Fault,
        number: Some(6),
        name: "Node",
        text: "a fault line names a worker or a shard that the scenario has not",
    },
    Meaning {
        kind: MeaningKind::Fault,
        number: Some(7),
        name: "End",
        text: "the last line has no line feed, the text ends before `end`, or something stands below `end`",
    },
    Meaning {
        kind: MeaningKind::Fault,
        number: Some(8),
        name: "OutOfMemory",
        text: "memory ran out while the scenario was read",
    },
    Meaning {
        kind: MeaningKind::Refusal,
        number: Some(1),
        name: "NoNode",
        text: "no such node is there, or a worker is named where a shard is wanted, or a shard where a worker is",
    },
    Meaning {
        kind: MeaningKind::Refusal,
        number: Some(2),
        name: "WrongMode",
        text: "the node's mode does not allow it: most steps need a node that is up, `restart` one that failed",
    },
    Meaning {
        kind: MeaningKind::Refusal,
        number: Some(3),
        name: "NothingThere",
        text: "there is nothing to issue, deliver, take, serve, decide or learn: a step before it is missing",
    },
    Meaning {
        kind: MeaningKind::Refusal,
        number: Some(4),
        name: "NoSuchMatch",
        text: "fewer tuples match than the place asks for: places are counted from 0",
    },
    Meaning {
        kind: MeaningKind::Refusal,
        number: Some(5),
        name: "NotDecided",
        text: "a vote is missing, or the verdict is not there yet: `deliver` the votes, then `decide`",
    },
    Meaning {
        kind: MeaningKind::Refusal,
        number: Some(6),
        name: "Unresolved",
        text: "a check or a rollback stands open in the node's way: `learn` or `abandon` it first",
    },
    Meaning {
        kind: MeaningKind::Refusal,
        number: Some(7),
        name: "StepLimit",
        text: "so many steps were made as can be made at once: split the scenario",
    },
    Meaning {
        kind: MeaningKind::Refusal,
        number: Some(8),
        name: "Store",
        text: "a call of the store was refused",
    },
    Meaning {
        kind: MeaningKind::Refusal,
        number: Some(9),
        name: "OutOfMemory",
        text: "memory ran out in the step, which changed nothing",
    },
    Meaning {
        kind: MeaningKind::Status,
        number: Some(0),
        name: "",
        text: "all was done, and the report is on standard output",
    },
    Meaning {
        kind: MeaningKind::Status,
        number: Some(2),
        name: "",
        text: "the words of the command line are wrong: see `linda_kt --help`",
    },
    Meaning {
        kind: MeaningKind::Status,
        number: Some(3),
        name: "",
        text: "the scenario has a fault: the line on standard error says which line and which fault",
    },
    Meaning {
        kind: MeaningKind::Status,
        number: Some(4),
        name: "",
        text: "a step was refused: the line on standard error says which step and why",
    },
    Meaning {
        kind: MeaningKind::Status,
        number: Some(5),
        name: "",
        text: "the store was not opened, is not fresh, does not fit the scenario or refused a call",
    },
    Meaning {
        kind: MeaningKind::Status,
        number: Some(6),
        name: "",
        text: "memory was refused, or a thread could not be started",
    },
    Meaning {
        kind: MeaningKind::Status,
        number: Some(7),
        name: "",
        text: "standard input, the file of the scenario or standard output failed",
    },
    Meaning {
        kind: MeaningKind::Status,
        number: Some(8),
        name: "",
        text: "there are more steps than can be made at once",
    },
    Meaning {
        kind: MeaningKind::Store,
        number: None,
        name: "Memory",
        text: "memory ran out, of the program or within the database",
    },
    Meaning {
        kind: MeaningKind::Store,
        number: None,
        name: "Device",
        text: "the file can't be opened, read or written: see its name, folder and rights, and who else has it open",
    },
    Meaning {
        kind: MeaningKind::Store,
        number: None,
        name: "Damaged",
        text: "the file is no database, or a database of something else, or what it holds is damaged",
    },
    Meaning {
        kind: MeaningKind::Store,
        number: None,
        name: "Full",
        text: "a number in the store is the greatest there is: take a new file",
    },
    Meaning {
        kind: MeaningKind::Store,
        number: None,
        name: "NotFresh",
        text: "the file holds something of an earlier command: take a new file, or go on with `resume`",
    },
    Meaning {
        kind: MeaningKind::Store,
        number: None,
        name: "Unfit",
        text: "what the file holds is not what a scenario with these workers and shards leaves",
    },
    Meaning {
        kind: MeaningKind::Store,
        number: None,
        name: "Version",
        text: "the file is of version 1 and holds something: `migrate` carries it over",
    },
    Meaning {
        kind: MeaningKind::Store,
        number: None,
        name: "Mismatch",
        text: "the file is not what the steps of the journal make: give `migrate` the journal that made it",
    },
    Meaning {
        kind: MeaningKind::Close,
        number: None,
        name: "Unmatched",
        text: "the threads of the run do not fit what it did: a mistake of the program",
    },
    Meaning {
        kind: MeaningKind::Close,
        number: None,
        name: "SeatMissing",
        text: "a thread of the run is missing: a mistake of the program",
    },
    Meaning {
        kind: MeaningKind::Close,
        number: None,
        name: "Unfinished",
        text: "a node has a step left at the end of the run: a mistake of the program",
    },
];
