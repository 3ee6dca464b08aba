//! The arguments of the commands.
//! Cited by command_table.rt.

use crate::texts::{
    COMMAND_HELP, JOURNAL_HELP, NUMBER_HELP, SCENARIO_HELP, SHELL_HELP, STORE_FILE_HELP,
    STORE_JOURNAL_HELP,
};
use crate::words::ArgumentWords;

/// The scenario.
pub const SCENARIO: ArgumentWords = ArgumentWords {
    id: "scenario",
    name: "SCENARIO",
    help: SCENARIO_HELP,
    is_required: false,
    values: &[],
};

/// The journal of `migrate`.
pub const STORE_JOURNAL: ArgumentWords = ArgumentWords {
    id: "scenario",
    name: "SCENARIO",
    help: STORE_JOURNAL_HELP,
    is_required: false,
    values: &[],
};

/// The store of `show`.
pub const STORE_FILE: ArgumentWords = ArgumentWords {
    id: "store",
    name: "FILE",
    help: STORE_FILE_HELP,
    is_required: true,
    values: &[],
};

/// The number of `explain`.
pub const NUMBER: ArgumentWords = ArgumentWords {
    id: "meaning",
    name: "NUMBER",
    help: NUMBER_HELP,
    is_required: true,
    values: &[],
};

/// The shell of `completion`.
pub const SHELL: ArgumentWords = ArgumentWords {
    id: "shell",
    name: "SHELL",
    help: SHELL_HELP,
    is_required: true,
    values: &["bash", "zsh", "fish"],
};

/// The command of `help`.
pub const COMMAND: ArgumentWords = ArgumentWords {
    id: "command",
    name: "COMMAND",
    help: COMMAND_HELP,
    is_required: false,
    values: &[
        "replay",
        "run",
        "resume",
        "migrate",
        "check",
        "complete",
        "trace",
        "draw",
        "show",
        "explain",
        "completion",
        "manual",
        "help",
    ],
};
