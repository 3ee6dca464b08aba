//! What a history keeps of each note, so that it knows what survives without a look at the past.
//! Cited by history.rt.

ghost use Rattle.std.specs.Prelude.{◌≡◌, if◌then◌else◌, false, ◌+◌, ◌-◌, ◌^◌, ◌<◌, ◌≤◌, ℕ};
ghost use Rattle.std.specs.Prelude.{length, Contains, slice_get, slice_set, slice_index};
ghost use Rattle.kt_history.specs.auxiliary.Marks.{act_mark, lasts_in, mark_at, renewed, is_lost, lost_among};
ghost use Rattle.kt_history.specs.auxiliary.Marks.{LooksBack, AreMarksOf, AreLost, IsUnmarked, IsRenewed, HasLost};

use crate::note::Note;

/// What is kept of one note.
#[derive(Clone, Copy, Debug, PartialEq, Eq)]
pub(crate) struct Mark {
    /// The act that stood last in the node's log before this one, or 0.
    pub(crate) previous: u64,
    /// Where an act stood in its node's log when it was added, counted from 1.
    pub(crate) place: u64,
    /// Whether it is an act with nothing lost in its past.
    pub(crate) survives: bool,
}

impl Mark {
    /// The mark of a note that is no act.
    pub(crate) const NONE: Mark = Mark {
        previous: 0,
        place: 0,
        survives: false,
    };
}

/// Whether, by the marks, nothing is lost with this number: it survives, or is 0 and names nothing.
fn lasts(marks: &[Mark], number: u64) -> bool
    requires { number ≤ length marks.now }
    ensures { result ≡ lasts_in marks.now number }
{
    number == 0 || marks[number as usize - 1].survives
}

/// The mark of an act that comes next, by the act before it in its log, by its cause and its place.
pub(crate) fn act_mark(marks: &[Mark], previous: u64, cause: u64, place: u64) -> Mark
    requires previous { previous ≤ length marks.now }
    requires cause { cause ≤ length marks.now }
    ensures { result ≡ act_mark marks.now previous cause place }
{
    Mark {
        previous,
        place,
        survives: lasts(marks, previous) && lasts(marks, cause),
    }
}

/// Marks the acts of these numbers as lost, and all that is lost with them, and answers how many services
/// are lost then.
pub(crate) fn lose(notes: &[Note], marks: &mut [Mark], numbers: &[u64], lost: u64) -> u64
    requires marks_of { AreMarksOf notes.now marks.old }
    requires numbers { 0 < length numbers.now → AreLost notes.now numbers.now }
    requires lost { lost ≡ lost_among notes.now marks.old }
    ensures none { length numbers.now ≡ 0 → marks.new ≡ marks.old }
    ensures some { 0 < length numbers.now → HasLost notes.now numbers.now marks.old marks.new }
    ensures lost { result ≡ lost_among notes.now marks.new }
{
    if numbers.is_empty() {
        lost
    } else {
        lose_some(notes, marks, numbers, lost)
    }
}

/// As `lose`, of one number at least. No mark before that of the first of them can change, so only the notes from it on
/// are counted again.
fn lose_some(notes: &[Note], marks: &mut [Mark], numbers: &[u64], lost: u64) -> u64
    requires marks_of { AreMarksOf notes.now marks.old }
    requires numbers { AreLost notes.now numbers.now }
    requires lost { lost ≡ lost_among notes.now marks.old }
    ensures marks { HasLost notes.now numbers.now marks.old marks.new }
    ensures lost { result ≡ lost_among notes.now marks.new }
{
    let first = numbers[0] as usize - 1;
    let before = count_lost(&notes[first..], &marks[first..]);
    unmark(marks, numbers);
    renew(notes, marks, first);
    lost - before + count_lost(&notes[first..], &marks[first..])
}

/// Marks the acts of these numbers as lost.
fn unmark(marks: &mut [Mark], numbers: &[u64])
    requires { (n : ℕ) → Contains numbers.now n → (1 ≤ n) × (n ≤ length marks.old) }
    ensures { IsUnmarked numbers.now marks.old marks.new }
{
    for number in numbers {
        unmark_one(marks, *number);
    }
}

/// Marks the act of this number as lost.
fn unmark_one(marks: &mut [Mark], number: u64)
    requires positive { 1 ≤ number }
    requires within { number ≤ length marks.old }
    ensures { marks.new ≡ slice_set marks.old (number - 1)
        (record {
          previous = (mark_at marks.old (number - 1)).previous;
          place = (mark_at marks.old (number - 1)).place;
          survives = false;
        }) }
{
    let at = number as usize - 1;
    marks[at] = Mark {
        previous: marks[at].previous,
        place: marks[at].place,
        survives: false,
    };
}

/// Carries what was lost on to all that came after it, from the note at this place on. It looks at every note, and not
/// only at those that depend on the lost ones: to find these it would have to keep for each act who named it as a cause
/// (docs/DECISIONS.md#the-history).
fn renew(notes: &[Note], marks: &mut [Mark], first: usize)
    requires marks_of { AreMarksOf notes.now marks.old }
    requires first { first ≤ length notes.now }
    ensures { IsRenewed notes.now marks.old marks.new first }
{
    for place in first..notes.len() {
        renew_at(notes, marks, place);
    }
}

/// Carries what was lost on to the note at this place.
fn renew_at(notes: &[Note], marks: &mut [Mark], place: usize)
    requires within { place < length notes.now }
    requires marks_of { AreMarksOf notes.now marks.old }
    ensures { marks.new ≡ slice_set marks.old place
        (renewed (slice_get notes.now place) (mark_at marks.old place) marks.old) }
{
    if let Note::Act(act) = &notes[place] {
        let mark = marks[place];
        let survives = mark.survives && lasts(marks, mark.previous) && lasts(marks, act.by);
        marks[place] = Mark {
            previous: mark.previous,
            place: mark.place,
            survives,
        };
    }
}

/// How many services among these notes are not marked.
fn count_lost(notes: &[Note], marks: &[Mark]) -> u64
    requires { length marks.now ≡ length notes.now }
    ensures { result ≡ lost_among notes.now marks.now }
{
    let mut lost = 0;
    for (place, note) in notes.iter().enumerate() {
        if is_lost(note, marks[place]) {
            lost += 1;
        }
    }
    lost
}

/// How many services are lost once this note comes.
pub(crate) fn lost_with(lost: u64, note: &Note, mark: Mark) -> u64
    requires { lost + 1 < 2 ^ 64 }
    ensures { result ≡ lost + (if is_lost note.now mark then 1 else 0) }
{
    if is_lost(note, mark) { lost + 1 } else { lost }
}

/// Whether the note is a service that by its mark does not survive.
fn is_lost(note: &Note, mark: Mark) -> bool
    ensures { result ≡ is_lost note.now mark }
{
    !mark.survives && note.is_service()
}
