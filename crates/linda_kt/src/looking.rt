//! What the words ask that show what happens in a scenario: a trace, or a drawing.
//! Cited by words.rt.
ghost use Rattle.std.specs.Prelude.{◌≡◌, option_map};
ghost use Rattle.clap.specs.Lexer.{strip_byte};
ghost use Rattle.clap.specs.Words.{found_of, rows_of};
ghost use Rattle.kt_command.specs.Asking.{task_of};
ghost use Rattle.linda_kt.specs.Numbers.{begins_plainly, name_number, node_named, shard_of, step_of, worker_of};
ghost use Rattle.linda_kt.specs.Words.{draw_of, drawn_kind, form_of, node_given, range_of, step_given, told_as};
ghost use Rattle.linda_kt.specs.Words.{trace_of};

use crate::trials::{from_one_to, number_of};
use crate::words::{Misfit, has_flag, text_of};
use clap::ArgMatches;
use kt_command::Task;
use kt_look::{Drawing, Form, Kind};
use kt_tell::Choice;
use kt_tuple::{MAX_SHARDS, MAX_WORKERS, NodeId};

/// The greatest number of a step that the words may name. No scenario has so many.
pub const LAST_STEP: u64 = u64::MAX;

/// The task of a trace: which steps are told, and in which form.
pub(crate) fn trace_of<'a>(options: &ArgMatches<'a>) -> Result<Task<'a>, Misfit>
    ensures { told_as task_of result ≡ trace_of (rows_of (found_of options.now)) }
{
    let (from, to) = range_of(options)?;
    let node = node_given(text_of(options, "node"))?;
    Ok(Task::Trace {
        form: form_of(options),
        choice: Choice { from, to, node },
    })
}

/// The task of a drawing: which steps are drawn, as a picture or as a page.
pub(crate) fn draw_of<'a>(options: &ArgMatches<'a>) -> Result<Task<'a>, Misfit>
    ensures { told_as task_of result ≡ draw_of (rows_of (found_of options.now)) }
{
    let (from, to) = range_of(options)?;
    let kind = drawn_kind(options);
    Ok(Task::Draw {
        drawing: Drawing { kind, from, to },
    })
}

/// In which form a trace is told.
fn form_of(options: &ArgMatches<'_>) -> Form
    ensures { result ≡ form_of (rows_of (found_of options.now)) }
{
    if has_flag(options, "json") {
        Form::Json
    } else {
        Form::Words
    }
}

/// What is drawn.
fn drawn_kind(options: &ArgMatches<'_>) -> Kind
    ensures { result ≡ drawn_kind (rows_of (found_of options.now)) }
{
    if has_flag(options, "html") {
        Kind::Page
    } else {
        Kind::Picture
    }
}

/// The numbers of the first and of the last step that are chosen.
fn range_of(options: &ArgMatches<'_>) -> Result<(u64, u64), Misfit>
    ensures { result ≡ range_of (rows_of (found_of options.now)) }
{
    let from = step_given(1, Misfit::WrongFrom, text_of(options, "from"))?;
    let to = step_given(LAST_STEP, Misfit::WrongTo, text_of(options, "to"))?;
    if from <= to {
        Ok((from, to))
    } else {
        Err(Misfit::NoSteps)
    }
}

/// The number of a step that stands there, and else this one.
fn step_given(default: u64, misfit: Misfit, text: Option<&str>) -> Result<u64, Misfit>
    ensures { result ≡ step_given default misfit (option_map (λ s. s.now) text.entry) }
{
    match text {
        Some(text) => match step_of(text) {
            Some(number) => Ok(number),
            None => Err(misfit),
        },
        None => Ok(default),
    }
}

/// The text as the number of a step.
fn step_of(text: &str) -> Option<u64>
    ensures { result ≡ step_of text.now }
{
    match number_of(text) {
        Some(number) => from_one_to(LAST_STEP, number),
        None => None,
    }
}

/// The node whose steps alone are told, if one is named.
fn node_given(text: Option<&str>) -> Result<Option<NodeId>, Misfit>
    ensures { result ≡ node_given (option_map (λ s. s.now) text.entry) }
{
    match text {
        Some(text) => match node_named(text) {
            Some(node) => Ok(Some(node)),
            None => Err(Misfit::WrongNode),
        },
        None => Ok(None),
    }
}

/// The node that the text names, as `w1` or `s2`.
fn node_named(text: &str) -> Option<NodeId>
    ensures { result ≡ node_named text.now }
{
    match behind_w(text) {
        Some(digits) => worker_of(digits),
        None => match behind_s(text) {
            Some(digits) => shard_of(digits),
            None => None,
        },
    }
}

/// What stands behind a first `w`.
fn behind_w(text: &str) -> Option<&str>
    ensures { option_map (λ s. s.now) result ≡ strip_byte 119 text.now }
{
    text.strip_prefix('w')
}

/// What stands behind a first `s`.
fn behind_s(text: &str) -> Option<&str>
    ensures { option_map (λ s. s.now) result ≡ strip_byte 115 text.now }
{
    text.strip_prefix('s')
}

/// The number of a node, as names have it: with no plus and no zero in front.
fn name_number(digits: &str) -> Option<u64>
    ensures { result ≡ name_number digits.now }
{
    if begins_plainly(digits) {
        number_of(digits)
    } else {
        None
    }
}

/// Whether it begins with neither a plus nor a zero.
fn begins_plainly(digits: &str) -> bool
    ensures { result ≡ begins_plainly digits.now }
{
    match digits.as_bytes().first() {
        Some(first) => *first != b'+' && *first != b'0',
        None => false,
    }
}

/// The worker of this number.
fn worker_of(digits: &str) -> Option<NodeId>
    ensures { result ≡ worker_of digits.now }
{
    match name_number(digits) {
        Some(number) => match from_one_to(u64::from(MAX_WORKERS), number) {
            Some(number) => Some(NodeId::Worker(number as u8)),
            None => None,
        },
        None => None,
    }
}

/// The shard of this number.
fn shard_of(digits: &str) -> Option<NodeId>
    ensures { result ≡ shard_of digits.now }
{
    match name_number(digits) {
        Some(number) => match from_one_to(u64::from(MAX_SHARDS), number) {
            Some(number) => Some(NodeId::Shard(number as u8)),
            None => None,
        },
        None => None,
    }
}
