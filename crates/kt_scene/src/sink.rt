//! A writer and what its calls came to.
//! Cited by journal.rt, replaying.rt, report.rt, stream.rt; other crates.

use crate::source::Outcome;
use std::fmt::Display;
use std::io::{ErrorKind, Write};
use std::marker::Model;

/// A writer, and what its calls came to. Without it a body that never has the writer pass on what was written would
/// meet the contract (docs/DECISIONS.md#the-program).
#[derive(Drop)]
pub struct Sink<W: Write> {
    writer: W,
    outcome: Outcome,
    /// How many bytes were written, to be told to people.
    count: u64,
}

impl<W: Write> Model for Sink<W> {
    ghost use Rattle.kt_scene.specs.Outside.{Writer};

    ghost Value = { Writer };

    ghost view = { λ s. record { bytes = W.contents s.writer; outcome = s.outcome } };
}

impl<W: Write> Sink<W> {
    ghost use Rattle.std.specs.Prelude.{◌≡◌, ◌≢◌, ◌<◌, ◌≤◌, length, take};
    ghost use Rattle.std.specs.Io.KnownBytes.{Appends, Keeps};
    ghost use Rattle.kt_scene.specs.Outside.{Writer};

    /// The writer before any call: `Open`.
    pub fn new(writer: W) -> Sink<W>
        ensures bytes { result.bytes ≡ W.contents writer }
        ensures outcome { result.outcome ≡ Outcome.Open }
    {
        Sink {
            writer,
            outcome: Outcome::Open,
            count: 0,
        }
    }

    /// How many bytes of known length were written so far: all but those of `print`. It is for people, and no clause
    /// speaks of it.
    pub fn count(&self) -> u64 {
        self.count
    }

    /// What the calls came to so far: `Open` before the first.
    pub fn outcome(&self) -> Outcome
        ensures { result ≡ self.now.outcome }
    {
        self.outcome
    }

    /// Hands the writer on; what its calls came to is dropped.
    pub fn into_inner(self) -> W
        ensures { W.contents result ≡ self.bytes }
    {
        let Sink {
            writer,
            outcome: _,
            count: _,
        } = self;
        writer
    }

    /// Writes some of the bytes, and answers how many: none only where the writer failed. A call that was
    /// interrupted is made again.
    pub(crate) fn write(&mut self, bytes: &[u8]) -> usize
        requires { 0 < length bytes.now }
        ensures within { result ≤ length bytes.now }
        ensures bytes { Appends self.old.bytes self.new.bytes (take result bytes.now) }
        ensures none { self.new.outcome ≢ Outcome.Failed → 0 < result }
        ensures on_its_way { self.new.outcome ≢ Outcome.Done }
    {
        self.outcome = Outcome::Failed;
        // More turns than anybody waits for: a loop has to have an end, and an interrupted call is no failure.
        for _ in 0..u64::MAX {
            match self.writer.write(bytes) {
                Ok(0) => return 0,
                Ok(count) => {
                    self.outcome = Outcome::Open;
                    self.count = self.count.saturating_add(count as u64);
                    return count;
                }
                Err(error) if error.kind() == ErrorKind::Interrupted => {}
                Err(_) => return 0,
            }
        }
        0
    }

    /// Has the writer pass on all that was written.
    pub(crate) fn flush(&mut self)
        ensures same { Keeps self.old.bytes self.new.bytes }
        ensures settled { self.new.outcome ≢ Outcome.Open }
    {
        self.outcome = match self.writer.flush() {
            Ok(()) => Outcome::Done,
            Err(_) => Outcome::Failed,
        };
    }

    /// Writes the text and has the writer pass it on. Which bytes are written is tested alone.
    pub fn print<D: Display + Drop>(&mut self, text: D)
        ensures { self.new.outcome ≢ Outcome.Open }
    {
        match write!(self.writer, "{text}") {
            Ok(()) => self.flush(),
            Err(_) => self.outcome = Outcome::Failed,
        }
    }
}
