//! The lines of commands, judged without memory.
//! Cited by draft.rt.

ghost use Rattle.std.specs.Prelude.{◌≡◌, ◌≤◌, ℕ, List, [], ◌∷◌, length, IfSome, IfOk, false, not, position};
ghost use Rattle.std.specs.Prelude.{Option, Some, None};
ghost use Rattle.std.specs.Option.{option_map};
ghost use Rattle.kt_tuple.specs.Matching.{HasArity};
ghost use Rattle.kt_script.specs.Name.{begins_with_letter, is_name_character};
ghost use Rattle.kt_text.specs.Commands.{name_length, name_at, word_of, actual_at, kind_at, named, slot_at};
ghost use Rattle.kt_text.specs.Commands.{slots_in};
ghost use Rattle.kt_text.specs.Commands.{actuals_of, operation_of, verb_at, set_with, set_of, unless_with, unless_of};
ghost use Rattle.kt_text.specs.Commands.{asked, spelled_of, fault_behind};
ghost use Rattle.kt_text.specs.auxiliary.Placing.{all_taken, of_read};
ghost use Rattle.kt_text.specs.auxiliary.Room.{HasRoom, IsReady};
ghost use Rattle.kt_script.specs.declared.command.Slot.{Slot as Place};

use crate::fault::SceneError;
use crate::line::{behind, ended, number_at};
use crate::rooms::{Rooms, taken_out};
use kt_script::{
    Actual, Actuals, Command, Name, Operation, Pattern, Script, ScriptError, Slot,
    is_name_character,
};
use kt_tuple::reading::{after_place, int_at, int_of, value_at, value_of};
use kt_tuple::{Kind, MAX_PLACES, Value};

/// The verb of an operation: the word that begins its line.
#[derive(Clone, Copy)]
pub(crate) enum Verb {
    Out,
    In,
    Rd,
    Inp,
    Rdp,
}

/// A command as its line spells it.
#[derive(Drop)]
pub(crate) struct Spelled {
    pub(crate) command: Command,
    /// The number in it is not too large; otherwise 0 stands in its place.
    pub(crate) fits: bool,
}

/// How many characters of a name stand in front.
fn name_length(text: &[u8]) -> usize
    ensures value { result ≡ name_length text.now }
    ensures within { result ≤ length text.now }
{
    match name_end(text) {
        Some(length) => length,
        None => text.len(),
    }
}

/// Where the first byte stands that no name has.
fn name_end(text: &[u8]) -> Option<usize>
    ensures value { result ≡ position (λ c. not (is_name_character c)) text.now }
    ensures within { IfSome result (λ n. n ≤ length text.now) }
{
    text.iter().position(|c| !is_name_character(*c))
}

/// A name, up to the first byte that none has.
#[tactic(auto, unfolding(crate::specs::Commands::name_at))]
fn name_at(text: &[u8]) -> Option<(Name, &[u8])>
    ensures { option_map (λ x. (x.0, x.1.now)) result ≡ name_at text.now }
{
    let (word, rest) = text.split_at(name_length(text));
    match Name::new(word) {
        Some(name) => Some((name, rest)),
        None => None,
    }
}

/// What a whole word is: `true` and `false` are values, and any other word is a name or nothing.
#[tactic(auto, unfolding(crate::specs::Commands::word_of))]
fn word_of(word: &[u8]) -> Option<Actual>
    ensures { result ≡ word_of word.now }
{
    if word == b"true".as_slice() {
        Some(Actual::Literal(Value::Bool(true)))
    } else if word == b"false".as_slice() {
        Some(Actual::Literal(Value::Bool(false)))
    } else {
        Name::new(word).map(Actual::Variable)
    }
}

/// A variable's name or a value. A word is read whole before it is judged: `trueish` is a name.
#[tactic(auto, unfolding(crate::specs::Commands::actual_at))]
fn actual_at(text: &[u8]) -> Option<(Actual, &[u8])>
    ensures { option_map (λ x. (x.0, x.1.now)) result ≡ actual_at text.now }
{
    if begins_with_letter(text) {
        let (word, rest) = text.split_at(name_length(text));
        return Some((word_of(word)?, rest));
    }
    match value_at(text) {
        Ok((spelling, rest)) => {
            let value = value_of(spelling)?;
            Some((Actual::Literal(value), rest))
        }
        Err(_) => None,
    }
}

/// The kind of `?int`, `?str` or `?bool` in front, and the bytes behind it.
fn kind_at(text: &[u8]) -> Option<(Kind, &[u8])>
    ensures { option_map (λ x. (x.0, x.1.now)) result ≡ kind_at text.now }
{
    if let Some(rest) = behind(text, b"?int") {
        Some((Kind::Int, rest))
    } else if let Some(rest) = behind(text, b"?str") {
        Some((Kind::Str, rest))
    } else if let Some(rest) = behind(text, b"?bool") {
        Some((Kind::Bool, rest))
    } else {
        None
    }
}

/// A space and a name behind a kind, or neither.
fn named(kind: Kind, rest: &[u8]) -> Option<(Slot, &[u8])>
    ensures { option_map (λ x. (x.0, x.1.now)) result ≡ named kind rest.now }
{
    if let Some(words) = behind(rest, b" ") {
        let (name, rest) = name_at(words)?;
        Some((Slot::Formal(kind, Some(name)), rest))
    } else {
        Some((Slot::Formal(kind, None), rest))
    }
}

/// A place of a command in front, and the bytes behind it: a formal, a variable or a value.
#[tactic(auto, unfolding(crate::specs::Commands::slot_at))]
fn slot_at(text: &[u8]) -> Option<(Slot, &[u8])>
    ensures { option_map (λ x. (x.0, x.1.now)) result ≡ slot_at text.now }
{
    match text.first() {
        None => None,
        Some(b'?') => {
            let (kind, rest) = kind_at(text)?;
            named(kind, rest)
        }
        Some(_) => {
            let (actual, rest) = actual_at(text)?;
            Some((Slot::Actual(actual), rest))
        }
    }
}

/// What a place of a command is taken for: a place of a template, or a value or variable of a tuple.
trait Placed: Sized + Drop {
    ghost taken: { Place → Option Self };

    /// The place, where it can be one.
    fn of(slot: Slot) -> Option<Self>
        ensures { result ≡ taken slot };
}

impl Placed for Slot {
    ghost taken = { Some };

    fn of(slot: Slot) -> Option<Slot> {
        Some(slot)
    }
}

impl Placed for Actual {
    ghost use Rattle.kt_text.specs.auxiliary.Placing.{actual_of};

    ghost taken = { actual_of };

    fn of(slot: Slot) -> Option<Actual> {
        match slot {
            Slot::Actual(actual) => Some(actual),
            Slot::Formal(..) => None,
        }
    }
}

/// The places of a text in parentheses, 1 to `MAX_PLACES`, each taken so. They are read into this room.
fn places_in<T: Placed>(text: &[u8], room: &mut Vec<T>) -> Option<Vec<T>>
    requires { HasRoom room.old }
    ensures value { option_map (λ s. s.items) result ≡ of_read (all_taken T.taken) (slots_in text.now) }
    ensures arity { IfSome result (λ s. HasArity s.items) }
{
    let mut rest = behind(text, b"(")?;
    for _ in 0..MAX_PLACES {
        let Some((slot, after)) = slot_at(rest) else {
            return None;
        };
        let Some(place) = T::of(slot) else {
            return None;
        };
        room.push_reserved(place);
        match after_place(after) {
            Ok(None) => return Some(taken_out(room)),
            Ok(Some(next)) => rest = next,
            Err(_) => return None,
        }
    }
    None
}

/// The places of a template, read into these rooms.
#[tactic(auto, using(crate::proofs::Slots::all_as_they_stand))]
fn pattern_in(text: &[u8], rooms: &mut Rooms) -> Option<Pattern>
    requires { IsReady rooms.old }
    ensures { result ≡ slots_in text.now }
{
    Pattern::new(places_in(text, &mut rooms.slots)?)
}

/// The values and variables of a tuple, read into these rooms: none of its places is a formal.
#[tactic(auto, using(crate::proofs::Slots::all_as_actuals))]
fn actuals_in(text: &[u8], rooms: &mut Rooms) -> Option<Actuals>
    requires { IsReady rooms.old }
    ensures { result ≡ of_read actuals_of (slots_in text.now) }
{
    Actuals::new(places_in(text, &mut rooms.actuals)?)
}

impl Verb {
    /// The operation with the places of this text; `None` where the text has other places than the verb wants, as
    /// `out` a formal.
    fn operation(self, text: &[u8], rooms: &mut Rooms) -> Option<Operation>
        requires { IsReady rooms.old }
        ensures { result ≡ of_read (operation_of self) (slots_in text.now) }
    {
        match self {
            Verb::Out => Some(Operation::Out(actuals_in(text, rooms)?)),
            Verb::In => Some(Operation::In(pattern_in(text, rooms)?)),
            Verb::Rd => Some(Operation::Rd(pattern_in(text, rooms)?)),
            Verb::Inp => Some(Operation::Inp(pattern_in(text, rooms)?)),
            Verb::Rdp => Some(Operation::Rdp(pattern_in(text, rooms)?)),
        }
    }
}

/// The verb of a line, and what stands behind it and a space.
fn verb_at(line: &[u8]) -> Option<(Verb, &[u8])>
    ensures { option_map (λ x. (x.0, x.1.now)) result ≡ verb_at line.now }
{
    if let Some(rest) = behind(line, b"out ") {
        Some((Verb::Out, rest))
    } else if let Some(rest) = behind(line, b"in ") {
        Some((Verb::In, rest))
    } else if let Some(rest) = behind(line, b"rd ") {
        Some((Verb::Rd, rest))
    } else if let Some(rest) = behind(line, b"inp ") {
        Some((Verb::Inp, rest))
    } else if let Some(rest) = behind(line, b"rdp ") {
        Some((Verb::Rdp, rest))
    } else {
        None
    }
}

fn asked(verb: Verb, text: &[u8], rooms: &mut Rooms) -> Option<Spelled>
    requires { IsReady rooms.old }
    ensures { result ≡ asked verb text.now }
{
    let operation = verb.operation(text, rooms)?;
    Some(Spelled {
        command: Command::Ask(operation),
        fits: true,
    })
}

fn set_with(variable: Name, source: Name, number: Option<i64>) -> Spelled
    ensures { result ≡ set_with variable source number }
{
    let (plus, fits) = match number {
        Some(number) => (number, true),
        None => (0, false),
    };
    Spelled {
        command: Command::Set {
            variable,
            source,
            plus,
        },
        fits,
    }
}

/// The command of `x = y + K`, which stands behind `set `; `None` where it is spelled otherwise.
fn set_of(words: &[u8]) -> Option<Spelled>
    ensures { result ≡ set_of words.now }
{
    let (variable, rest) = name_at(words)?;
    let (source, rest) = name_at(behind(rest, b" = ")?)?;
    match int_at(behind(rest, b" + ")?) {
        Ok((digits, rest)) => {
            let number = ended(int_of(digits), rest)?;
            Some(set_with(variable, source, number))
        }
        Err(_) => None,
    }
}

fn unless_with(count: Option<u64>) -> Spelled
    ensures { result ≡ unless_with count }
{
    match count {
        Some(count) if count <= 255 => Spelled {
            command: Command::Unless(count as u8),
            fits: true,
        },
        _ => Spelled {
            command: Command::Unless(0),
            fits: false,
        },
    }
}

fn unless_of(words: &[u8]) -> Option<Spelled>
    ensures { result ≡ unless_of words.now }
{
    let (count, rest) = number_at(words)?;
    ended(unless_with(count), rest)
}

/// The command that the line spells, its places read into these rooms; or what is wrong with the line by itself.
pub(crate) fn spelled_of(line: &[u8], rooms: &mut Rooms) -> Result<Spelled, SceneError>
    requires { IsReady rooms.old }
    ensures { result ≡ spelled_of line.now }
{
    if let Some((verb, text)) = verb_at(line) {
        asked(verb, text, rooms).ok_or(SceneError::Tuple)
    } else if let Some(words) = behind(line, b"set ") {
        set_of(words).ok_or(SceneError::Word)
    } else if let Some(words) = behind(line, b"unless ") {
        unless_of(words).ok_or(SceneError::Word)
    } else {
        Err(SceneError::Word)
    }
}

/// What is wrong with a command whose number is too large for it. The number counts only where the variables have no
/// fault, which has the lower number (docs/DECISIONS.md#the-scenarios-text).
pub(crate) fn fault_of_misfit(script: &Script, command: &Command) -> SceneError
    ensures { Some result ≡ fault_behind script.now (record { command = command.now; fits = false }) }
{
    match script.refusal_of(command) {
        Some(ScriptError::Variable) => SceneError::Variable,
        Some(ScriptError::Limit | ScriptError::OutOfMemory) | None => SceneError::Limit,
    }
}

fn begins_with_letter(text: &[u8]) -> bool
    ensures { result ≡ begins_with_letter text.now }
{
    match text.first() {
        Some(c) => (b'a'..=b'z').contains(c),
        None => false,
    }
}
