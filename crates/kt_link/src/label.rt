//! Labels of messages.
//! Cited by laws.rt; other crates.

ghost use Rattle.std.specs.Prelude.{◌↔◌, IsTrue};

/// When a message was sent: the sender's incarnation, and how many it had sent in it. Labels compare by
/// incarnation first. No message has the label `(0, 0)`, which is the default.
#[derive(Clone, Copy, Debug, Default, PartialEq, Eq, PartialOrd, Ord, Hash)]
pub struct Label {
    /// The sender's incarnation when it sent the message.
    pub incarnation: u64,
    /// How many underlying messages it had sent in that incarnation, this one among them and to whomever.
    pub count: u64,
}

impl Label {
    ghost use Rattle.kt_link.specs.Label.{IsBelow};

    /// Whether this label is below the other: by incarnation, and by count within one.
    pub fn is_below(self, other: Label) -> bool
        ensures { IsTrue result ↔ IsBelow self other }
    {
        self < other
    }
}
