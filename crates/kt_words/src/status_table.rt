//! What each exit status means, for the manual page.
//! Cited by page.rt.

ghost use Rattle.std.specs.Prelude.{IsTrue};
ghost use Rattle.std.specs.List.{list_all};
ghost use Rattle.kt_words.specs.auxiliary.Status.{is_plain_status};

/// An exit status.
#[derive(Clone, Copy)]
pub(crate) struct StatusWords {
    /// The number.
    pub(crate) number: &'static str,
    /// What it means, in one line.
    pub(crate) text: &'static str,
}

/// In rising order.
const STATUSES: &[StatusWords] = &[
    StatusWords {
        number: "0",
        text: "All was done, and what was asked for is on standard output.",
    },
    StatusWords {
        number: "2",
        text: "The words of the command line are wrong, or choose more steps than a picture can have: `draw: ..`.",
    },
    StatusWords {
        number: "3",
        text: "The scenario has a fault: `line N: C Name` says which line and which fault.",
    },
    StatusWords {
        number: "4",
        text: "A step was refused: `step N: C Name` says which step and why.",
    },
    StatusWords {
        number: "5",
        text: "The store was not opened, is not fresh, does not fit the scenario or refused a call: `store: Name` says \
               which; or a run did not close: `close: Name`.",
    },
    StatusWords {
        number: "6",
        text: "Memory was refused, or a thread could not be started: `memory`.",
    },
    StatusWords {
        number: "7",
        text: "Standard input, the file of the scenario or standard output failed: `read`, `write` or \
               `scenario: FILE: ..`.",
    },
    StatusWords {
        number: "8",
        text: "There are more steps than can be made at once: `step N: 7 StepLimit`.",
    },
];

/// Each exit status, in rising order.
pub(crate) fn statuses() -> &'static [StatusWords]
    ensures { IsTrue (list_all is_plain_status result.now) }
{
    STATUSES
}
