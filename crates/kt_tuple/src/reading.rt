//! The text of values and places, read from left to right without memory.
//!
//! A reader is given the bytes that are left. It answers the spelling that it read and the bytes after
//! it, or the bytes from the first one that no text of its kind goes on with.
//! Cited by item.rt, parsing.rt; other crates.

ghost use Rattle.std.specs.Prelude.{◌≡◌, ◌≤◌, ℕ, List, length, take, drop, false, position, IfSome};
ghost use Rattle.std.specs.Option.{option_map};
ghost use Rattle.kt_tuple.specs.Reading.{Gives, word_at, spelled_at, after_digits, after_positive, split_before};
ghost use Rattle.kt_tuple.specs.Reading.{after_characters, int_at, str_at, value_at, formal_at, place_at, after_place};
ghost use Rattle.kt_tuple.specs.Reading.{is_printable, int_of, has_range, is_short, value_of};
ghost use Rattle.kt_tuple.specs.auxiliary.Digits.{is_no_digit};
ghost use Rattle.kt_tuple.specs.Reading.{place_of, between_quotes, characters_of, str_of, is_escape};

use crate::string::{MAX_CHARACTERS, Str};
use crate::template::Place;
use crate::value::{Kind, Value};
use arrayvec::ArrayVec;

/// Reads a value. A text that begins with a quote is read as a str, one with a `t` as `true`, one with an `f` as
/// `false`, and any other as an int.
#[tactic(auto, unfolding(crate::specs::Reading::value_at))]
pub fn value_at(text: &[u8]) -> Result<(&[u8], &[u8]), &[u8]>
    ensures { Gives (λ x. (x.0.now, x.1.now)) (λ e. e.now) result (value_at text.now) }
{
    match text.first() {
        Some(b'"') => str_at(text),
        Some(b't') => spelled_at(text, b"true"),
        Some(b'f') => spelled_at(text, b"false"),
        _ => int_at(text),
    }
}

/// Reads a value, `?int`, `?str` or `?bool`.
#[tactic(auto, unfolding(crate::specs::Reading::place_at))]
pub(crate) fn place_at(text: &[u8]) -> Result<(&[u8], &[u8]), &[u8]>
    ensures { Gives (λ x. (x.0.now, x.1.now)) (λ e. e.now) result (place_at text.now) }
{
    match text.first() {
        Some(b'?') => formal_at(text),
        _ => value_at(text),
    }
}

/// Reads what stands behind a place: a comma and a space, and then the next place, which is given;
/// or the closing parenthesis, with which the text ends.
#[tactic(auto, unfolding(crate::specs::Reading::after_place))]
pub fn after_place(text: &[u8]) -> Result<Option<&[u8]>, &[u8]>
    ensures { Gives (λ next. option_map (λ x. x.now) next) (λ e. e.now) result (after_place text.now) }
{
    match text.split_first() {
        Some((b')', rest)) if rest.is_empty() => Ok(None),
        Some((b')', rest)) => Err(rest),
        _ => Ok(Some(word_at(text, b", ")?)),
    }
}

/// Reads just this word, and answers the bytes after it.
pub fn word_at<'a>(text: &'a [u8], word: &[u8]) -> Result<&'a [u8], &'a [u8]>
    ensures { Gives (λ x. x.now) (λ e. e.now) result (word_at text.now word.now) }
{
    // Most words stand there, which is seen at once.
    match text.strip_prefix(word) {
        Some(rest) => Ok(rest),
        None => word_by_bytes(text, word),
    }
}

/// The same byte by byte, up to the first that differs.
fn word_by_bytes<'a>(text: &'a [u8], word: &[u8]) -> Result<&'a [u8], &'a [u8]>
    ensures { Gives (λ x. x.now) (λ e. e.now) result (word_at text.now word.now) }
{
    match (word.split_first(), text.split_first()) {
        (None, _) => Ok(text),
        (Some((wanted, word)), Some((found, rest))) if wanted == found => word_by_bytes(rest, word),
        _ => Err(text),
    }
}

/// Reads `?int`, `?bool` or `?str`. What goes on with neither an `i` nor a `b` is read as `?str`, so its fault is where
/// that breaks off.
#[tactic(auto, unfolding(crate::specs::Reading::formal_at))]
pub(crate) fn formal_at(text: &[u8]) -> Result<(&[u8], &[u8]), &[u8]>
    ensures { Gives (λ x. (x.0.now, x.1.now)) (λ e. e.now) result (formal_at text.now) }
{
    let kind = word_at(text, b"?")?;
    let rest = match kind.first() {
        Some(b'i') => word_at(kind, b"int")?,
        Some(b'b') => word_at(kind, b"bool")?,
        _ => word_at(kind, b"str")?,
    };
    Ok(split_before(text, rest))
}

/// Reads just this word, and answers it and the bytes after it.
fn spelled_at<'a>(text: &'a [u8], word: &[u8]) -> Result<(&'a [u8], &'a [u8]), &'a [u8]>
    ensures { Gives (λ x. (x.0.now, x.1.now)) (λ e. e.now) result (spelled_at text.now word.now) }
{
    Ok(split_before(text, word_at(text, word)?))
}

/// The bytes in front of the rest, and the rest.
fn split_before<'a>(text: &'a [u8], rest: &'a [u8]) -> (&'a [u8], &'a [u8])
    ensures { (result.0.now, result.1.now) ≡ split_before text.now rest.now }
{
    text.split_at(text.len().saturating_sub(rest.len()))
}

/// Reads `0`, or a minus sign or none and digits of which the first is not 0.
#[tactic(auto, unfolding(crate::specs::Reading::int_at))]
pub fn int_at(text: &[u8]) -> Result<(&[u8], &[u8]), &[u8]>
    ensures { Gives (λ x. (x.0.now, x.1.now)) (λ e. e.now) result (int_at text.now) }
{
    match text.split_first() {
        Some((b'0', _)) => Ok(text.split_at(1)),
        Some((b'-', rest)) => Ok(split_before(text, after_positive(rest)?)),
        _ => Ok(split_before(text, after_positive(text)?)),
    }
}

/// Reads digits of which the first is not 0, and answers the bytes after them.
fn after_positive(text: &[u8]) -> Result<&[u8], &[u8]>
    ensures { Gives (λ x. x.now) (λ e. e.now) result (after_positive text.now) }
{
    match text.split_first() {
        Some((b'1'..=b'9', rest)) => Ok(after_digits(rest)),
        _ => Err(text),
    }
}

/// The bytes after the digits that stand in front.
fn after_digits(text: &[u8]) -> &[u8]
    ensures { result.now ≡ after_digits text.now }
{
    match first_no_digit(text) {
        Some(count) => {
            let (_, rest) = text.split_at(count);
            rest
        }
        None => &[],
    }
}

/// How many digits stand in front; `None` where all of the text is digits.
fn first_no_digit(text: &[u8]) -> Option<usize>
    ensures value { result ≡ position is_no_digit text.now }
    ensures within { IfSome result (λ count. count ≤ length text.now) }
{
    text.iter().position(|c| !c.is_ascii_digit())
}

/// Reads a quote, characters and the closing quote.
#[tactic(auto, unfolding(crate::specs::Reading::str_at))]
fn str_at(text: &[u8]) -> Result<(&[u8], &[u8]), &[u8]>
    ensures { Gives (λ x. (x.0.now, x.1.now)) (λ e. e.now) result (str_at text.now) }
{
    let characters = word_at(text, b"\"")?;
    Ok(split_before(text, after_characters(characters)?))
}

/// Reads characters and the closing quote, and answers the bytes after it.
fn after_characters(text: &[u8]) -> Result<&[u8], &[u8]>
    ensures { Gives (λ x. x.now) (λ e. e.now) result (after_characters false text.now) }
{
    let mut behind_backslash = false;
    for (i, c) in text.iter().enumerate() {
        if behind_backslash {
            if *c != b'"' && *c != b'\\' {
                return Err(&text[i..]);
            }
            behind_backslash = false;
        } else if *c == b'"' {
            return Ok(&text[i + 1..]);
        } else if *c == b'\\' {
            behind_backslash = true;
        } else if !is_printable(*c) {
            return Err(&text[i..]);
        }
    }
    // The closing quote is missing: the fault is at the end of the text, where no byte is left.
    Err(&[])
}

/// Whether a str may have this byte: ASCII from space to tilde.
fn is_printable(c: u8) -> bool
    ensures { result ≡ is_printable c }
{
    32 <= c && c <= 126
}

/// Whether the place is no int outside 64 bits.
#[tactic(auto, unfolding(crate::specs::Reading::has_range))]
pub(crate) fn is_in_range(spelling: &[u8]) -> bool
    ensures { result ≡ has_range spelling.now }
{
    match spelling.first() {
        Some(b'"' | b'?' | b't' | b'f') => true,
        _ => int_of(spelling).is_some(),
    }
}

/// Whether the place is no str of more than `MAX_CHARACTERS` characters.
#[tactic(auto, unfolding(crate::specs::Reading::is_short))]
pub(crate) fn is_short(spelling: &[u8]) -> bool
    ensures { result ≡ is_short spelling.now }
{
    match spelling.first() {
        Some(b'"') => character_count(spelling) <= MAX_CHARACTERS,
        _ => true,
    }
}

/// The value with this spelling, or `None` where it is out of range or too long.
#[tactic(auto, unfolding(crate::specs::Reading::value_of))]
pub fn value_of(spelling: &[u8]) -> Option<Value>
    ensures { result ≡ value_of spelling.now }
{
    match spelling.first() {
        Some(b'"') => str_of(spelling),
        Some(b't') => Some(Value::Bool(true)),
        Some(b'f') => Some(Value::Bool(false)),
        _ => int_of(spelling).map(Value::Int),
    }
}

/// The place with this spelling, or `None` where it is out of range or too long.
#[tactic(auto, unfolding(crate::specs::Reading::place_of))]
pub(crate) fn place_of(spelling: &[u8]) -> Option<Place>
    ensures { result ≡ place_of spelling.now }
{
    if spelling == b"?int".as_slice() {
        Some(Place::Formal(Kind::Int))
    } else if spelling == b"?str".as_slice() {
        Some(Place::Formal(Kind::Str))
    } else if spelling == b"?bool".as_slice() {
        Some(Place::Formal(Kind::Bool))
    } else {
        value_of(spelling).map(Place::Actual)
    }
}

/// The number with this spelling, where it has 64 bits.
pub fn int_of(spelling: &[u8]) -> Option<i64>
    ensures { result ≡ int_of spelling.now }
{
    match str::from_utf8(spelling) {
        Ok(digits) => match digits.parse::<i64>() {
            Ok(number) => Some(number),
            Err(_) => None,
        },
        Err(_) => None,
    }
}

/// What stands between the quotes, with the backslashes of escapes.
fn between_quotes(spelling: &[u8]) -> &[u8]
    ensures { result.now ≡ between_quotes spelling.now }
{
    match spelling.split_first() {
        Some((_, rest)) => &rest[..rest.len().saturating_sub(1)],
        None => spelling,
    }
}

/// The str with this spelling, where it has at most `MAX_CHARACTERS` characters, all printable.
fn str_of(spelling: &[u8]) -> Option<Value>
    ensures { result ≡ str_of (characters_of spelling.now) }
{
    let mut characters: ArrayVec<u8, MAX_CHARACTERS> = ArrayVec::new();
    let mut behind_backslash = false;
    for c in between_quotes(spelling) {
        behind_backslash = is_escape(behind_backslash, *c);
        if !behind_backslash && characters.try_push(*c).is_err() {
            return None;
        }
    }
    str_with(&characters)
}

/// The str of these characters, where they are at most `MAX_CHARACTERS` and printable.
fn str_with(characters: &[u8]) -> Option<Value>
    ensures { result ≡ str_of characters.now }
{
    match Str::new(characters) {
        Some(string) => Some(Value::Str(string)),
        None => None,
    }
}

/// Whether this is a backslash that is not behind a backslash.
fn is_escape(behind_backslash: bool, c: u8) -> bool
    ensures { result ≡ is_escape behind_backslash c }
{
    !behind_backslash && c == b'\\'
}

/// How many characters the str has: an escaped one counts once.
fn character_count(spelling: &[u8]) -> usize
    ensures { result ≡ length (characters_of spelling.now) }
{
    let mut count = 0;
    let mut behind_backslash = false;
    for c in between_quotes(spelling) {
        behind_backslash = is_escape(behind_backslash, *c);
        if !behind_backslash {
            count += 1;
        }
    }
    count
}
