//! Where in a scenario a line stands.
//! Cited by case.rt, ending.rt, explain.rt, header.rt, limit.rt.

ghost use Rattle.std.specs.Prelude.{◌≡◌};
ghost use Rattle.kt_explain.specs.Part.{behind_script, part_at, part_behind};

use kt_text::line_at;

/// The part of a scenario in which a line stands.
#[derive(Clone, Copy, Debug, PartialEq, Eq)]
pub enum Part {
    /// The first line of all is wanted: `linda-kt 1`.
    Title,
    /// The line `shards N` is wanted.
    Shards,
    /// The line `worker` of the first worker is wanted.
    Workers,
    /// Behind a line `worker`: a command, the next worker or the line before the work.
    Scripts,
    /// Behind `steps`.
    Steps,
    /// Behind `faults`.
    Faults,
    /// Behind `end`.
    Ended,
}

impl Part {
    /// The part in which the line behind this one stands. This one has no fault.
    pub(crate) fn behind(self, line: &[u8]) -> Part
        ensures { result ≡ part_behind self line.now }
    {
        if line.first() == Some(&b'#') {
            return self;
        }
        match self {
            Part::Title => Part::Shards,
            Part::Shards => Part::Workers,
            Part::Workers => Part::Scripts,
            Part::Scripts => behind_script(line),
            Part::Steps | Part::Faults if line == b"end".as_slice() => Part::Ended,
            Part::Steps | Part::Faults | Part::Ended => self,
        }
    }
}

/// The part in which the line behind this line of a script stands.
fn behind_script(line: &[u8]) -> Part
    ensures { result ≡ behind_script line.now }
{
    if line == b"steps".as_slice() {
        Part::Steps
    } else if line == b"faults".as_slice() {
        Part::Faults
    } else {
        Part::Scripts
    }
}

/// The part of the text in which the line of this number stands, counted from 1, where the lines above it have no
/// fault. It takes no memory. Of a text with fewer lines it is the part behind its last one.
pub fn part_of(text: &[u8], line: usize) -> Part
    ensures { result ≡ part_at text.now line }
{
    let mut part = Part::Title;
    let mut rest = text;
    let mut left = line.saturating_sub(1);
    while left > 0 {
        let Some((words, after)) = line_at(rest) else {
            return part;
        };
        part = part.behind(words);
        rest = after;
        left -= 1;
    }
    part
}
