//! The words of the command line as a table: each command with its arguments and options, and what is said of them.
//! From it come the help, the completion in shells and the manual page.
//!
//! - Contract: the table has the commands and long options that `grammar` lists (`commands`, clause `words`).
//!   `Shell::of_name` gives the shell of a name. What `completion` and `manual` write is printable ASCII and line feeds
//!   (clause `plain`), and each command's name and each long option stands in it (clause `words`). That a shell and a
//!   reader of manual pages take it as it is meant is tried and not proved.
//! - Stands on: none
//! - Begin in: `command_table.rt`, then `completing.rt` and `page.rt`.
#![tactic(auto)]

mod argument_table;
mod bash;
mod command_table;
mod completing;
mod escape;
mod fish;
mod option_table;
mod page;
mod page_commands;
mod shell;
mod status_table;
mod text;
mod texts;
mod words;
mod zsh;

pub use argument_table::{COMMAND, NUMBER, SCENARIO, SHELL, STORE_FILE, STORE_JOURNAL};
pub use command_table::{
    ABOUT, CHECK, COMMANDS, COMPLETE, COMPLETION, DRAW, EXPLAIN_NUMBER, HELP_COMMAND, MANUAL,
    MIGRATE, PROGRAM, REPLAY, RESUME_COMMAND, RUN, SHOW, TRACE, VERSION, commands,
};
pub use completing::completion;
pub use option_table::{
    CHAOS, EXPLAIN, FIRST_DRAWN, FROM, HELP, HTML, JOURNAL, JSON, JSON_OF_STORE, JSON_OF_TRACE,
    KEPT_STORE, LAST_DRAWN, NODE, OLD_STORE, RESUME, SEED, STORE, TIMES, TO, VERSION_FLAG,
};
pub use page::manual;
pub use shell::Shell;
pub use words::{ArgumentWords, CommandWords, OptionWords, ValueKind};
