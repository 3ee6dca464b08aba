//! Tuples and templates from their text: first judged without memory, then built.
//! Cited by no other file of crates/.

ghost use Rattle.std.specs.Prelude.{◌≡◌, ◌++◌, IfOk, IfErr, OnOk, option_to_list, IfSome, None, Err};
ghost use Rattle.kt_tuple.specs.Grammar.{IsValueText, IsPlaceText, Explains, IsAccepted};
ghost use Rattle.kt_tuple.specs.Reading.{Gives};
ghost use Rattle.kt_tuple.specs.Parsing.{tuple_fault, tuple_values, template_fault, template_places};
ghost use Rattle.kt_tuple.specs.Parsing.{fault_of, lower_fault, made_of, places_in};
ghost use Rattle.kt_tuple.specs.Spelling.{tuple_text, template_text};
ghost use Rattle.kt_tuple.specs.auxiliary.Findings.{nothing_found, with_place, found_in};
ghost use Rattle.kt_tuple.specs.auxiliary.Making.{made_in};

use crate::item::Item;
use crate::parse_error::ParseError;
use crate::reading::{after_place, is_in_range, is_short, word_at};
use crate::template::{Place, Template};
use crate::tuple::{MAX_PLACES, Tuple};
use crate::value::Value;
use std::alloc::{AllocError, Global};

/// What was found in the places read so far.
#[derive(Clone, Copy)]
struct Findings {
    /// Where the first int begins that is out of range.
    out_of_range: Option<usize>,
    /// A str of more than `MAX_CHARACTERS` characters, or a place too many.
    too_long: bool,
}

impl Tuple {
    /// The tuple that the text spells, all of the text. Of several faults the lowest is given, and want of
    /// memory only of a text that has none.
    #[tactic(auto, using(crate::proofs::Explained::tuple_laws))]
    pub fn parse(alloc: Global, text: &[u8]) -> Result<Tuple, ParseError>
        // A text with a fault is answered by its lowest one.
        ensures fault { IfSome (tuple_fault text.now) (λ fault. result ≡ Err fault) }
        ensures value { IfOk result (λ tuple. tuple ≡ tuple_values text.now) }
        // What is accepted is the one text of it.
        ensures spelling { IfOk result (λ tuple. tuple_text tuple ≡ text.now) }
        // What is accepted, and each error, is as the grammar says, which knows no reader.
        ensures accepted { IfOk result (λ _. IsAccepted IsValueText text.now) }
        ensures explained { IfErr result (λ e. Explains IsValueText text.now e) }
        // A text without a fault is refused for want of memory alone.
        ensures memory { tuple_fault text.now ≡ None → IfErr result (λ e. e ≡ ParseError.OutOfMemory) }
    {
        // Not refused here: a text without a fault has 1 to `MAX_PLACES` values (`a_text_read_is_spelled_so`,
        // `tuple_arity`).
        let items = parsed::<Value>(alloc, text)?;
        match Tuple::new(alloc, items) {
            Ok(made) => made.ok_or(ParseError::TooLong),
            Err(AllocError) => Err(ParseError::OutOfMemory),
        }
    }
}

impl Template {
    /// The template that the text spells, all of the text. Of several faults the lowest is given, and want
    /// of memory only of a text that has none.
    #[tactic(auto, using(crate::proofs::Explained::template_laws))]
    pub fn parse(alloc: Global, text: &[u8]) -> Result<Template, ParseError>
        // A text with a fault is answered by its lowest one.
        ensures fault { IfSome (template_fault text.now) (λ fault. result ≡ Err fault) }
        ensures value { IfOk result (λ template. template ≡ template_places text.now) }
        // What is accepted is the one text of it.
        ensures spelling { IfOk result (λ template. template_text template ≡ text.now) }
        // What is accepted, and each error, is as the grammar says, which knows no reader.
        ensures accepted { IfOk result (λ _. IsAccepted IsPlaceText text.now) }
        ensures explained { IfErr result (λ e. Explains IsPlaceText text.now e) }
        // A text without a fault is refused for want of memory alone.
        ensures memory { template_fault text.now ≡ None → IfErr result (λ e. e ≡ ParseError.OutOfMemory) }
    {
        // Not refused here: a text without a fault has 1 to `MAX_PLACES` places (`a_text_read_is_spelled_so`,
        // `template_arity`).
        let items = parsed::<Place>(alloc, text)?;
        match Template::new(alloc, items) {
            Ok(made) => made.ok_or(ParseError::TooLong),
            Err(AllocError) => Err(ParseError::OutOfMemory),
        }
    }
}

/// The items that the text spells, or its lowest fault. The text is judged whole before any memory is taken, so that
/// want of memory hides no other fault (docs/DECISIONS.md#the-scenarios-text).
#[tactic(auto, using(crate::proofs::Making::made_of_text))]
fn parsed<I: Item>(alloc: Global, text: &[u8]) -> Result<Vec<I>, ParseError>
    ensures fault { IfSome (fault_of I.reader text.now) (λ fault. result ≡ Err fault) }
    ensures value { IfOk result (λ items. items.items ≡ made_of I.of_spelling (places_in I.reader text.now)) }
    ensures memory { fault_of I.reader text.now ≡ None → IfErr result (λ e. e ≡ ParseError.OutOfMemory) }
{
    match fault_of::<I>(text) {
        Some(fault) => Err(fault),
        None => items_in(alloc, text).map_err(|_| ParseError::OutOfMemory),
    }
}

impl Findings {
    /// Before the first place: no fault was found.
    fn none() -> Findings
        ensures { result ≡ nothing_found }
    {
        Findings {
            out_of_range: None,
            too_long: false,
        }
    }

    /// With one more place of the text, the i-th, counted from 0: its spelling, and the text from it on.
    fn with(self, text: &[u8], i: usize, spelling: &[u8], start: &[u8]) -> Findings
        ensures { result ≡ with_place text.now self i (spelling.now, start.now) }
    {
        let out_of_range = match self.out_of_range {
            Some(at) => Some(at),
            None if is_in_range(spelling) => None,
            None => Some(text.len().saturating_sub(start.len())),
        };
        Findings {
            out_of_range,
            too_long: self.too_long || !is_short(spelling) || i >= MAX_PLACES,
        }
    }

    /// The lower of the two faults: an int out of range comes before a text that is too long.
    fn fault(self) -> Option<ParseError>
        ensures { result ≡ lower_fault self.out_of_range self.too_long }
    {
        match self.out_of_range {
            Some(at) => Some(ParseError::Range { at }),
            None if self.too_long => Some(ParseError::TooLong),
            None => None,
        }
    }
}

/// The lowest fault of the text, want of memory aside.
#[tactic(auto, using(crate::proofs::Findings::found_laws))]
fn fault_of<I: Item>(text: &[u8]) -> Option<ParseError>
    ensures { result ≡ fault_of I.reader text.now }
{
    match found_in::<I>(text) {
        Ok(found) => found.fault(),
        Err(rest) => Some(ParseError::Syntax {
            at: text.len().saturating_sub(rest.len()),
        }),
    }
}

/// What stands in the places, or the bytes from the first one that no text goes on with.
fn found_in<I: Item>(text: &[u8]) -> Result<Findings, &[u8]>
    ensures { Gives (λ found. found) (λ e. e.now) result (found_in I.reader text.now) }
{
    let mut found = Findings::none();
    let mut rest = word_at(text, b"(")?;
    // A text has fewer places than bytes.
    for i in 0..text.len() {
        let (spelling, after) = I::item_at(rest)?;
        found = found.with(text, i, spelling, rest);
        match after_place(after)? {
            None => return Ok(found),
            Some(next) => rest = next,
        }
    }
    Err(rest)
}

/// The items of a text in which no fault was found. It reads the text a second time, now to build what it spells. A
/// refusal of a reader ends the list: it is not met, since the text was judged.
fn items_in<I: Item>(alloc: Global, text: &[u8]) -> Result<Vec<I>, AllocError>
    ensures { IfOk result (λ items. items.items ≡ made_in I.reader I.of_spelling text.now) }
{
    let mut items = Vec::new(alloc);
    let Ok(mut rest) = word_at(text, b"(") else {
        return Ok(items);
    };
    for _ in 0..MAX_PLACES {
        let (spelling, after) = match I::item_at(rest) {
            Ok(found) => found,
            Err(_) => return Ok(items),
        };
        push_item(&mut items, spelling)?;
        match after_place(after) {
            Ok(Some(next)) => rest = next,
            Ok(None) => return Ok(items),
            Err(_) => return Ok(items),
        }
    }
    Ok(items)
}

/// Appends the item with this spelling, where there is one.
fn push_item<I: Item>(items: &mut Vec<I>, spelling: &[u8]) -> Result<(), AllocError>
    ensures { OnOk result (items.new.items ≡ items.old.items ++ option_to_list (I.of_spelling spelling.now)) }
{
    if let Some(item) = I::of_spelling(spelling) {
        items.push(item)?;
    }
    Ok(())
}
