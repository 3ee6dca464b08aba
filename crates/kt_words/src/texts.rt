//! What is said of each command, argument and option, in one line each.
//! Cited by argument_table.rt, command_table.rt, option_table.rt.

/// What is said of the option `store`.
pub const STORE_HELP: &str =
    "Keeps the checkpoints in FILE, which is absent, empty or a fresh store";

/// What is said of the option `store`.
pub const KEPT_STORE_HELP: &str =
    "The store to go on from; one that is absent, empty or fresh was stopped before its first write";

/// What is said of the option `store`.
pub const OLD_STORE_HELP: &str =
    "The store of version 1, which holds what the journal makes and nothing else";

/// What is said of the option `journal`.
pub const JOURNAL_HELP: &str =
    "Writes the report as remarks, and then the steps that were made, as a scenario for replay or resume";

/// What is said of the option `resume`.
pub const RESUME_HELP: &str =
    "Goes on from what FILE holds, after the program was stopped; it need not be fresh then";

/// What is said of the option `times`.
pub const TIMES_HELP: &str =
    "Runs the scenario N times, from 1 to 10000, each time over a store of its own in memory, and writes each \
            different report once, behind how often it came";

/// What is said of the option `chaos`.
pub const CHAOS_HELP: &str =
    "Adds N random fault lines, from 1 to 10000, and writes each of them as a remark before the report, so that it \
            can be kept; wants --seed";

/// What is said of the option `seed`.
pub const SEED_HELP: &str =
    "Which fault lines --chaos adds: for one number and one scene always the same ones";

/// What is said of the option `explain`.
pub const EXPLAIN_HELP: &str =
    "Says behind the line of a fault why it came, as on a terminal without the flag, and behind a \
    report what it came to";

/// What is said of the option `json`.
pub const JSON_HELP: &str = "Says what --explain says as one JSON object on a line";

/// What is said of the option `json`.
pub const JSON_OF_STORE_HELP: &str = "Writes what the store holds as JSON";

/// What is said of the option `json`.
pub const JSON_OF_TRACE_HELP: &str = "Writes one JSON object on a line for each step";

/// What is said of the option `from`.
pub const FROM_HELP: &str = "The number of the first step that is told, counted from 1";

/// What is said of the option `to`.
pub const TO_HELP: &str = "The number of the last step that is told";

/// What is said of the option `node`.
pub const NODE_HELP: &str =
    "Tells the steps of one node alone, as w1 or s2, and those that bring what it sent";

/// What is said of the option `html`.
pub const HTML_HELP: &str =
    "Draws a page of HTML, in which a person goes through the scenario step by step";

/// What is said of the option `from`.
pub const FIRST_DRAWN_HELP: &str =
    "The number of the first step that is drawn, counted from 1; those before it are made";

/// What is said of the option `to`.
pub const LAST_DRAWN_HELP: &str =
    "The number of the last step that is made; what survives is what does so behind it";

/// What is said of the option `help`.
pub const HELP_HELP: &str = "Print help";

/// What is said of the option `version`.
pub const VERSION_FLAG_HELP: &str = "Print version";

/// What is said of the command `replay`.
pub const REPLAY_ABOUT: &str =
    "Makes the steps of the scenario and writes the report to standard output";

/// What is said of the command `run`.
pub const RUN_ABOUT: &str =
    "Runs the scenario, by a thread for each node, and writes the report to standard output; `fail s1 after 3` counts \
     the steps of s1 alone";

/// What is said of the command `resume`.
pub const RESUME_COMMAND_ABOUT: &str =
    "Goes on from a store after the program was stopped: makes the steps of the scenario and writes the report \
            to standard output";

/// What is said of the command `migrate`.
pub const MIGRATE_ABOUT: &str =
    "Carries a store of version 1 over, by the journal that made it, and writes the report to standard output";

/// What is said of the command `check`.
pub const CHECK_ABOUT: &str =
    "Reads the scenario and does nothing: says of how many steps or fault lines it is, or which fault it has";

/// What is said of the command `complete`.
pub const COMPLETE_ABOUT: &str =
    "Writes the scenario with the steps behind its own that bring it to its end";

/// What is said of the command `trace`.
pub const TRACE_ABOUT: &str =
    "Writes what happens in the scenario of steps, or in the journal: a line for each step";

/// What is said of the command `draw`.
pub const DRAW_ABOUT: &str = "Draws the scenario of steps, or the journal, as an SVG picture";

/// What is said of the command `show`.
pub const SHOW_ABOUT: &str =
    "Writes what a store holds: the checkpoints of each node, and the board";

/// What is said of the command `explain`.
pub const EXPLAIN_NUMBER_ABOUT: &str =
    "Says what a number or a name means that is printed where something fails";

/// What is said of the command `completion`.
pub const COMPLETION_ABOUT: &str =
    "Writes a script by which a shell completes the words of this program";

/// What is said of the command `manual`.
pub const MANUAL_ABOUT: &str = "Writes the manual page, for man";

/// What is said of the command `help`.
pub const HELP_COMMAND_ABOUT: &str = "Prints the help of the program or of a command";

/// What is said of the argument `SCENARIO`.
pub const SCENARIO_HELP: &str =
    "The file with the scenario; standard input where it is - or left out";

/// What is said of the argument `SCENARIO`.
pub const STORE_JOURNAL_HELP: &str =
    "The file with the journal; standard input where it is - or left out";

/// What is said of the argument `FILE`.
pub const STORE_FILE_HELP: &str = "The store";

/// What is said of the argument `NUMBER`.
pub const NUMBER_HELP: &str = "The number or the name, as in `line 4: 3 Tuple`, or the exit status";

/// What is said of the argument `SHELL`.
pub const SHELL_HELP: &str = "The shell";

/// What is said of the argument `COMMAND`.
pub const COMMAND_HELP: &str = "The command; the program itself where it is left out";
