//! The options of the commands.
//! Cited by command_table.rt.

use crate::texts::{
    CHAOS_HELP, EXPLAIN_HELP, FIRST_DRAWN_HELP, FROM_HELP, HELP_HELP, HTML_HELP, JOURNAL_HELP,
    JSON_HELP, JSON_OF_STORE_HELP, JSON_OF_TRACE_HELP, KEPT_STORE_HELP, LAST_DRAWN_HELP, NODE_HELP,
    OLD_STORE_HELP, RESUME_HELP, SEED_HELP, STORE_HELP, TIMES_HELP, TO_HELP, VERSION_FLAG_HELP,
};
use crate::words::OptionWords;

/// `--store FILE` of a command that begins.
pub const STORE: OptionWords = OptionWords {
    long: "store",
    value: Some("FILE"),
    help: STORE_HELP,
    is_required: false,
};

/// `--store FILE` of `resume`.
pub const KEPT_STORE: OptionWords = OptionWords {
    long: "store",
    value: Some("FILE"),
    help: KEPT_STORE_HELP,
    is_required: true,
};

/// `--store FILE` of `migrate`.
pub const OLD_STORE: OptionWords = OptionWords {
    long: "store",
    value: Some("FILE"),
    help: OLD_STORE_HELP,
    is_required: true,
};

/// `--journal`.
pub const JOURNAL: OptionWords = OptionWords {
    long: "journal",
    value: None,
    help: JOURNAL_HELP,
    is_required: false,
};

/// `--resume`.
pub const RESUME: OptionWords = OptionWords {
    long: "resume",
    value: None,
    help: RESUME_HELP,
    is_required: false,
};

/// `--times N`.
pub const TIMES: OptionWords = OptionWords {
    long: "times",
    value: Some("N"),
    help: TIMES_HELP,
    is_required: false,
};

/// `--chaos N`.
pub const CHAOS: OptionWords = OptionWords {
    long: "chaos",
    value: Some("N"),
    help: CHAOS_HELP,
    is_required: false,
};

/// `--seed K`.
pub const SEED: OptionWords = OptionWords {
    long: "seed",
    value: Some("K"),
    help: SEED_HELP,
    is_required: false,
};

/// `--explain`.
pub const EXPLAIN: OptionWords = OptionWords {
    long: "explain",
    value: None,
    help: EXPLAIN_HELP,
    is_required: false,
};

/// `--json` of a command that reads a scenario.
pub const JSON: OptionWords = OptionWords {
    long: "json",
    value: None,
    help: JSON_HELP,
    is_required: false,
};

/// `--json` of `show`.
pub const JSON_OF_STORE: OptionWords = OptionWords {
    long: "json",
    value: None,
    help: JSON_OF_STORE_HELP,
    is_required: false,
};

/// `--from N` of `trace`.
pub const FROM: OptionWords = OptionWords {
    long: "from",
    value: Some("N"),
    help: FROM_HELP,
    is_required: false,
};

/// `--to N` of `trace`.
pub const TO: OptionWords = OptionWords {
    long: "to",
    value: Some("N"),
    help: TO_HELP,
    is_required: false,
};

/// `--node NODE`.
pub const NODE: OptionWords = OptionWords {
    long: "node",
    value: Some("NODE"),
    help: NODE_HELP,
    is_required: false,
};

/// `--json` of `trace`.
pub const JSON_OF_TRACE: OptionWords = OptionWords {
    long: "json",
    value: None,
    help: JSON_OF_TRACE_HELP,
    is_required: false,
};

/// `--html`.
pub const HTML: OptionWords = OptionWords {
    long: "html",
    value: None,
    help: HTML_HELP,
    is_required: false,
};

/// `--from N` of `draw`.
pub const FIRST_DRAWN: OptionWords = OptionWords {
    long: "from",
    value: Some("N"),
    help: FIRST_DRAWN_HELP,
    is_required: false,
};

/// `--to N` of `draw`.
pub const LAST_DRAWN: OptionWords = OptionWords {
    long: "to",
    value: Some("N"),
    help: LAST_DRAWN_HELP,
    is_required: false,
};

/// `--help`, which the program and each command have.
pub const HELP: OptionWords = OptionWords {
    long: "help",
    value: None,
    help: HELP_HELP,
    is_required: false,
};

/// `--version`, which the program has.
pub const VERSION_FLAG: OptionWords = OptionWords {
    long: "version",
    value: None,
    help: VERSION_FLAG_HELP,
    is_required: false,
};
