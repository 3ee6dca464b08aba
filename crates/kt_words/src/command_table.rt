//! The program and its commands.
//! Cited by completing.rt, page.rt; other crates.

ghost use Rattle.std.specs.Prelude.{◌≡◌, IsTrue, map};
ghost use Rattle.std.specs.List.{list_all};
ghost use Rattle.kt_words.specs.Grammar.{grammar, named};
ghost use Rattle.kt_words.specs.Plain.{is_plain_command};

use crate::argument_table::{COMMAND, NUMBER, SCENARIO, SHELL, STORE_FILE, STORE_JOURNAL};
use crate::option_table::{
    CHAOS, EXPLAIN, FIRST_DRAWN, FROM, HTML, JOURNAL, JSON, JSON_OF_STORE, JSON_OF_TRACE,
    KEPT_STORE, LAST_DRAWN, NODE, OLD_STORE, RESUME, SEED, STORE, TIMES, TO,
};
use crate::texts::{
    CHECK_ABOUT, COMPLETE_ABOUT, COMPLETION_ABOUT, DRAW_ABOUT, EXPLAIN_NUMBER_ABOUT,
    HELP_COMMAND_ABOUT, MANUAL_ABOUT, MIGRATE_ABOUT, REPLAY_ABOUT, RESUME_COMMAND_ABOUT, RUN_ABOUT,
    SHOW_ABOUT, TRACE_ABOUT,
};
use crate::words::CommandWords;

/// The program's name.
pub const PROGRAM: &str = "linda_kt";

/// What the program is.
pub const ABOUT: &str = "A Linda tuple space that survives failures";

/// The program's version.
pub const VERSION: &str = "0.1.0";

/// `replay`.
pub const REPLAY: CommandWords = CommandWords {
    name: "replay",
    about: REPLAY_ABOUT,
    arguments: &[SCENARIO],
    options: &[STORE, EXPLAIN, JSON],
};

/// `run`.
pub const RUN: CommandWords = CommandWords {
    name: "run",
    about: RUN_ABOUT,
    arguments: &[SCENARIO],
    options: &[STORE, JOURNAL, RESUME, TIMES, CHAOS, SEED, EXPLAIN, JSON],
};

/// `resume`.
pub const RESUME_COMMAND: CommandWords = CommandWords {
    name: "resume",
    about: RESUME_COMMAND_ABOUT,
    arguments: &[SCENARIO],
    options: &[KEPT_STORE, EXPLAIN, JSON],
};

/// `migrate`.
pub const MIGRATE: CommandWords = CommandWords {
    name: "migrate",
    about: MIGRATE_ABOUT,
    arguments: &[STORE_JOURNAL],
    options: &[OLD_STORE],
};

/// `check`.
pub const CHECK: CommandWords = CommandWords {
    name: "check",
    about: CHECK_ABOUT,
    arguments: &[SCENARIO],
    options: &[EXPLAIN, JSON],
};

/// `complete`.
pub const COMPLETE: CommandWords = CommandWords {
    name: "complete",
    about: COMPLETE_ABOUT,
    arguments: &[SCENARIO],
    options: &[],
};

/// `trace`.
pub const TRACE: CommandWords = CommandWords {
    name: "trace",
    about: TRACE_ABOUT,
    arguments: &[SCENARIO],
    options: &[FROM, TO, NODE, JSON_OF_TRACE],
};

/// `draw`.
pub const DRAW: CommandWords = CommandWords {
    name: "draw",
    about: DRAW_ABOUT,
    arguments: &[SCENARIO],
    options: &[HTML, FIRST_DRAWN, LAST_DRAWN],
};

/// `show`.
pub const SHOW: CommandWords = CommandWords {
    name: "show",
    about: SHOW_ABOUT,
    arguments: &[STORE_FILE],
    options: &[JSON_OF_STORE],
};

/// `explain`.
pub const EXPLAIN_NUMBER: CommandWords = CommandWords {
    name: "explain",
    about: EXPLAIN_NUMBER_ABOUT,
    arguments: &[NUMBER],
    options: &[],
};

/// `completion`.
pub const COMPLETION: CommandWords = CommandWords {
    name: "completion",
    about: COMPLETION_ABOUT,
    arguments: &[SHELL],
    options: &[],
};

/// `manual`.
pub const MANUAL: CommandWords = CommandWords {
    name: "manual",
    about: MANUAL_ABOUT,
    arguments: &[],
    options: &[],
};

/// `help`.
pub const HELP_COMMAND: CommandWords = CommandWords {
    name: "help",
    about: HELP_COMMAND_ABOUT,
    arguments: &[COMMAND],
    options: &[],
};

/// The commands, in the order of the help.
pub const COMMANDS: &[CommandWords] = &[
    REPLAY,
    RUN,
    RESUME_COMMAND,
    MIGRATE,
    CHECK,
    COMPLETE,
    TRACE,
    DRAW,
    SHOW,
    EXPLAIN_NUMBER,
    COMPLETION,
    MANUAL,
    HELP_COMMAND,
];

/// The commands, in the order of the help.
pub fn commands() -> &'static [CommandWords]
    ensures words { map named result.now ≡ grammar }
    // Each text is printable.
    ensures plain { IsTrue (list_all is_plain_command result.now) }
{
    COMMANDS
}
