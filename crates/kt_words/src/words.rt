//! What the table is made of.
//! Cited by argument_table.rt, bash.rt, command_table.rt, completing.rt, fish.rt, option_table.rt, page.rt,
//!   page_commands.rt, zsh.rt; other crates.

ghost use Rattle.std.specs.Prelude.{◌≡◌};
ghost use Rattle.kt_words.specs.Kind.{is_file_name, kind_of};

/// An option of a command: one with a value, or a flag.
#[derive(Clone, Copy, Debug, PartialEq, Eq)]
pub struct OptionWords {
    /// Its name, which stands behind `--`.
    pub long: &'static str,
    /// What stands for its value in texts, as `FILE`; `None` of a flag. `FILE` is the name of a file, and any other is
    /// something that a shell cannot complete.
    pub value: Option<&'static str>,
    /// What it does, in one line.
    pub help: &'static str,
    /// Whether it has to stand there.
    pub is_required: bool,
}

/// An argument of a command: a word without a name.
#[derive(Clone, Copy, Debug, PartialEq, Eq)]
pub struct ArgumentWords {
    /// The name by which the program asks for it. No text shows it.
    pub id: &'static str,
    /// What stands for it in texts, as `SCENARIO`. `SCENARIO` and `FILE` are names of files.
    pub name: &'static str,
    /// What it is, in one line.
    pub help: &'static str,
    /// Whether it has to stand there.
    pub is_required: bool,
    /// The words that complete it; none where it is a file or a number.
    pub values: &'static [&'static str],
}

/// A command.
#[derive(Clone, Copy, Debug, PartialEq, Eq)]
pub struct CommandWords {
    /// Its name.
    pub name: &'static str,
    /// What it does, in one line.
    pub about: &'static str,
    /// Its arguments, in their order.
    pub arguments: &'static [ArgumentWords],
    /// Its options, in the order of its help. `--help`, which each command has, is not among them.
    pub options: &'static [OptionWords],
}

/// What the value of an option is.
#[derive(Clone, Copy, Debug, PartialEq, Eq)]
pub enum ValueKind {
    /// It has none.
    Flag,
    /// The name of a file.
    File,
    /// A number, or something else that a shell cannot complete.
    Other,
}

impl OptionWords {
    /// What its value is.
    pub fn kind(&self) -> ValueKind
        ensures { result ≡ kind_of self.now.value }
    {
        let Some(value) = self.value else {
            return ValueKind::Flag;
        };
        if value == "FILE" {
            ValueKind::File
        } else {
            ValueKind::Other
        }
    }
}

impl ArgumentWords {
    /// Whether it is the name of a file.
    pub fn is_file(&self) -> bool
        ensures { result ≡ is_file_name self.now.name.now }
    {
        self.name == "FILE" || self.name == "SCENARIO"
    }
}
