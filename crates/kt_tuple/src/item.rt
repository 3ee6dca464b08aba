//! What stands between the parentheses of a tuple or a template, as one reader takes it.
//! Cited by parsing.rt; whoever calls the trait `Item`.

ghost use Rattle.std.specs.Prelude.{◌≡◌, ℕ, List, Option};
ghost use Rattle.kt_tuple.specs.Parsing.{Reader};
ghost use Rattle.kt_tuple.specs.Reading.{Gives};

use crate::reading::{place_at, place_of, value_at, value_of};
use crate::template::Place;
use crate::value::Value;

/// A value, as a tuple has them, or a place, as a template has them. The two differ in this alone, so one function
/// reads both, generic in what stands between the parentheses (docs/DECISIONS.md#values).
pub(crate) trait Item: Sized + Drop {
    ghost reader: { Reader };

    ghost of_spelling: { List ℕ → Option Self };

    /// Reads the item in front: its spelling and the bytes after it, or the bytes from its fault on.
    fn item_at(text: &[u8]) -> Result<(&[u8], &[u8]), &[u8]>
        ensures { Gives (λ x. (x.0.now, x.1.now)) (λ e. e.now) result (reader text.now) };

    /// The item with this spelling; `None` where its int is out of range or its str too long.
    fn of_spelling(spelling: &[u8]) -> Option<Self>
        ensures { result ≡ of_spelling spelling.now };
}

impl Item for Value {
    ghost use Rattle.kt_tuple.specs.Reading as readers;

    ghost reader = { readers.value_at };

    ghost of_spelling = { readers.value_of };

    fn item_at(text: &[u8]) -> Result<(&[u8], &[u8]), &[u8]> {
        value_at(text)
    }

    fn of_spelling(spelling: &[u8]) -> Option<Value> {
        value_of(spelling)
    }
}

impl Item for Place {
    ghost use Rattle.kt_tuple.specs.Reading as readers;

    ghost reader = { readers.place_at };

    ghost of_spelling = { readers.place_of };

    fn item_at(text: &[u8]) -> Result<(&[u8], &[u8]), &[u8]> {
        place_at(text)
    }

    fn of_spelling(spelling: &[u8]) -> Option<Place> {
        place_of(spelling)
    }
}
