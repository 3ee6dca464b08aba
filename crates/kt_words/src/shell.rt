//! The shells that complete words.
//! Cited by completing.rt; other crates.

ghost use Rattle.std.specs.Prelude.{◌≡◌};
ghost use Rattle.kt_words.specs.Shell.{name_of, shell_of};

/// A shell that completes words by a script.
#[derive(Clone, Copy, Debug, PartialEq, Eq)]
pub enum Shell {
    /// bash, from version 4 on.
    Bash,
    /// zsh.
    Zsh,
    /// fish, from version 3 on.
    Fish,
}

impl Shell {
    /// The shell of that name, in small letters. None where none has it.
    pub fn of_name(name: &str) -> Option<Shell>
        ensures { result ≡ shell_of name.now }
    {
        if name == "bash" {
            Some(Shell::Bash)
        } else if name == "zsh" {
            Some(Shell::Zsh)
        } else if name == "fish" {
            Some(Shell::Fish)
        } else {
            None
        }
    }

    /// Its name.
    pub fn name(self) -> &'static str
        ensures { result.now ≡ name_of self }
    {
        match self {
            Shell::Bash => "bash",
            Shell::Zsh => "zsh",
            Shell::Fish => "fish",
        }
    }
}
