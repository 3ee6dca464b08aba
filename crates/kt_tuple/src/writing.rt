//! The one text of each value, tuple, template, operation, answer, node and service, written at the end of bytes.
//! Cited by other crates; whoever calls the trait `Spelled`.

ghost use Rattle.std.specs.Prelude.{◌≡◌, ◌++◌, ℕ, List, take, map, decimal, OnOk, OnErr, None, All, ⊤};
ghost use Rattle.std.specs.Fmt.{signed_decimal};
ghost use Rattle.std.specs.Int.{w64};
ghost use Rattle.std.specs.Int.RustNames.{FitsSigned};
ghost use Rattle.std.specs.Io.{StartsWith};
ghost use Rattle.kt_tuple.specs.Parsing.{tuple_fault, tuple_values, template_fault, template_places};
ghost use Rattle.kt_tuple.specs.Spelling.{character_text, string_text, value_text, kind_text, place_text};
ghost use Rattle.kt_tuple.specs.Spelling.{in_parentheses};
ghost use Rattle.kt_tuple.specs.Spelling.{tuple_text, template_text, op_text, answer_text, node_text};
ghost use Rattle.kt_tuple.specs.Spelling.{request_text, service_text};
ghost use Rattle.kt_tuple.specs.Valid.{IsValue, IsPlace};

use crate::node::NodeId;
use crate::op::{Answer, Op};
use crate::service::Service;
use crate::template::{Place, Template};
use crate::tuple::Tuple;
use crate::value::{Kind, Value};
use itoa::Buffer;
use std::alloc::AllocError;

/// A type with one text for each of its values.
pub trait Spelled {
    ghost text_of: { Self → List ℕ };

    ghost is_held: { Self → Type 0 };

    /// Appends its text, or where memory runs out a front of it.
    fn push_to(&self, out: &mut Vec<u8>) -> Result<(), AllocError>
        ensures ok { OnOk result (out.new.items ≡ out.old.items ++ text_of self.now) }
        ensures front { StartsWith out.new.items out.old.items }
        // The invariant of the type, which the laws of reading a text back ask for.
        ensures held { is_held self.now };
}

impl Spelled for Value {
    ghost text_of = { value_text };

    ghost is_held = { IsValue };

    fn push_to(&self, out: &mut Vec<u8>) -> Result<(), AllocError> {
        push_value(out, self)
    }
}

impl Spelled for Kind {
    ghost text_of = { kind_text };

    ghost is_held = { λ _. ⊤ };

    fn push_to(&self, out: &mut Vec<u8>) -> Result<(), AllocError> {
        match self {
            Kind::Int => out.extend_from_slice(b"int"),
            Kind::Str => out.extend_from_slice(b"str"),
            Kind::Bool => out.extend_from_slice(b"bool"),
        }
    }
}

impl Spelled for Place {
    ghost text_of = { place_text };

    ghost is_held = { IsPlace };

    fn push_to(&self, out: &mut Vec<u8>) -> Result<(), AllocError> {
        push_place(out, self)
    }
}

impl Value {
    /// Appends its text, as `"a"`. A refused call leaves the bytes as they were.
    pub fn write_to(&self, out: &mut Vec<u8>) -> Result<(), AllocError>
        ensures ok { OnOk result (out.new.items ≡ out.old.items ++ value_text self.now) }
        ensures err { OnErr result (out.new.items ≡ out.old.items) }
    {
        let start = out.len();
        let written = push_value(out, self);
        cut_back(out, start, written)
    }
}

impl Tuple {
    /// Appends its text, as `("a", 1)`. A refused call leaves the bytes as they were.
    pub fn write_to(&self, out: &mut Vec<u8>) -> Result<(), AllocError>
        ensures ok { OnOk result (out.new.items ≡ out.old.items ++ tuple_text self.now) }
        ensures err { OnErr result (out.new.items ≡ out.old.items) }
        // What is written has no fault and is read as this tuple.
        ensures faultless { OnOk result (tuple_fault (tuple_text self.now) ≡ None) }
        ensures read_back { OnOk result (tuple_values (tuple_text self.now) ≡ self.now) }
    {
        let start = out.len();
        let written = push_in_parentheses(out, self.values());
        cut_back(out, start, written)
    }
}

impl Template {
    /// Appends its text, as `("a", ?int)`. A refused call leaves the bytes as they were.
    pub fn write_to(&self, out: &mut Vec<u8>) -> Result<(), AllocError>
        ensures ok { OnOk result (out.new.items ≡ out.old.items ++ template_text self.now) }
        ensures err { OnErr result (out.new.items ≡ out.old.items) }
        // What is written has no fault and is read as this template.
        ensures faultless { OnOk result (template_fault (template_text self.now) ≡ None) }
        ensures read_back { OnOk result (template_places (template_text self.now) ≡ self.now) }
    {
        let start = out.len();
        let written = push_in_parentheses(out, self.places());
        cut_back(out, start, written)
    }
}

impl NodeId {
    /// Appends its text, as `w1` or `s1`. A refused call leaves the bytes as they were.
    pub fn write_to(self, out: &mut Vec<u8>) -> Result<(), AllocError>
        ensures ok { OnOk result (out.new.items ≡ out.old.items ++ node_text self) }
        ensures err { OnErr result (out.new.items ≡ out.old.items) }
    {
        let start = out.len();
        let written = push_node(out, self);
        cut_back(out, start, written)
    }
}

impl Service {
    /// Appends its text, as `w1.2 in ("a", ?int) got ("a", 1)`. A refused call leaves the bytes as they were.
    pub fn write_to(&self, out: &mut Vec<u8>) -> Result<(), AllocError>
        ensures ok { OnOk result (out.new.items ≡ out.old.items ++ service_text self.now) }
        ensures err { OnErr result (out.new.items ≡ out.old.items) }
    {
        let start = out.len();
        let written = push_service(out, self);
        cut_back(out, start, written)
    }
}

impl Op {
    /// Appends its text, as `in ("a", ?int)`. A refused call leaves the bytes as they were.
    pub fn write_to(&self, out: &mut Vec<u8>) -> Result<(), AllocError>
        ensures ok { OnOk result (out.new.items ≡ out.old.items ++ op_text self.now) }
        ensures err { OnErr result (out.new.items ≡ out.old.items) }
    {
        let start = out.len();
        let written = push_op(out, self);
        cut_back(out, start, written)
    }
}

impl Answer {
    /// Appends its text, as `got ("a", 1)`. A refused call leaves the bytes as they were.
    pub fn write_to(&self, out: &mut Vec<u8>) -> Result<(), AllocError>
        ensures ok { OnOk result (out.new.items ≡ out.old.items ++ answer_text self.now) }
        ensures err { OnErr result (out.new.items ≡ out.old.items) }
    {
        let start = out.len();
        let written = push_answer(out, self);
        cut_back(out, start, written)
    }
}

/// Where a write was refused, takes away what it appended behind the first `start` bytes. A writer appends piece by
/// piece, and no half of a text is to stay.
pub fn cut_back(
    out: &mut Vec<u8>,
    start: usize,
    written: Result<(), AllocError>,
) -> Result<(), AllocError>
    ensures same { result ≡ written }
    ensures ok { OnOk result (out.new.items ≡ out.old.items) }
    ensures err { OnErr result (out.new.items ≡ take start out.old.items) }
{
    if written.is_err() {
        out.truncate(start);
    }
    written
}

fn push_service(out: &mut Vec<u8>, service: &Service) -> Result<(), AllocError>
    ensures ok { OnOk result (out.new.items ≡ out.old.items ++ service_text service.now) }
    ensures front { StartsWith out.new.items out.old.items }
{
    push_request(out, service)?;
    out.push(b' ')?;
    push_op(out, &service.op)?;
    out.push(b' ')?;
    push_answer(out, &service.answer)
}

/// The worker, a dot, and the number of its request.
fn push_request(out: &mut Vec<u8>, service: &Service) -> Result<(), AllocError>
    ensures ok { OnOk result (out.new.items ≡ out.old.items ++ request_text service.now) }
    ensures front { StartsWith out.new.items out.old.items }
{
    push_node(out, NodeId::Worker(service.worker))?;
    out.push(b'.')?;
    push_number(out, service.number)
}

fn push_node(out: &mut Vec<u8>, node: NodeId) -> Result<(), AllocError>
    ensures ok { OnOk result (out.new.items ≡ out.old.items ++ node_text node) }
    ensures front { StartsWith out.new.items out.old.items }
{
    match node {
        NodeId::Worker(number) => {
            out.push(b'w')?;
            push_number(out, u64::from(number))
        }
        NodeId::Shard(number) => {
            out.push(b's')?;
            push_number(out, u64::from(number))
        }
    }
}

fn push_op(out: &mut Vec<u8>, op: &Op) -> Result<(), AllocError>
    ensures ok { OnOk result (out.new.items ≡ out.old.items ++ op_text op.now) }
    ensures front { StartsWith out.new.items out.old.items }
{
    match op {
        Op::Out(tuple) => {
            out.extend_from_slice(b"out ")?;
            push_in_parentheses(out, tuple.values())
        }
        Op::In(template) => {
            out.extend_from_slice(b"in ")?;
            push_in_parentheses(out, template.places())
        }
        Op::Rd(template) => {
            out.extend_from_slice(b"rd ")?;
            push_in_parentheses(out, template.places())
        }
        Op::Inp(template) => {
            out.extend_from_slice(b"inp ")?;
            push_in_parentheses(out, template.places())
        }
        Op::Rdp(template) => {
            out.extend_from_slice(b"rdp ")?;
            push_in_parentheses(out, template.places())
        }
    }
}

fn push_answer(out: &mut Vec<u8>, answer: &Answer) -> Result<(), AllocError>
    ensures ok { OnOk result (out.new.items ≡ out.old.items ++ answer_text answer.now) }
    ensures front { StartsWith out.new.items out.old.items }
{
    match answer {
        Answer::Done => out.extend_from_slice(b"done"),
        Answer::Got(tuple) => {
            out.extend_from_slice(b"got ")?;
            push_in_parentheses(out, tuple.values())
        }
        Answer::None => out.extend_from_slice(b"none"),
    }
}

/// Appends the texts in parentheses, each but the first behind a comma and a space; where memory runs out a front of
/// that.
pub fn push_in_parentheses<T: Spelled>(out: &mut Vec<u8>, items: &[T]) -> Result<(), AllocError>
    ensures ok { OnOk result (out.new.items ≡ out.old.items ++ in_parentheses (map T.text_of items.now)) }
    ensures front { StartsWith out.new.items out.old.items }
    ensures held { OnOk result (All T.is_held items.now) }
{
    out.push(b'(')?;
    let mut separator: &[u8] = b"";
    for item in items {
        out.extend_from_slice(separator)?;
        item.push_to(out)?;
        separator = b", ";
    }
    out.push(b')')?;
    Ok(())
}

fn push_place(out: &mut Vec<u8>, place: &Place) -> Result<(), AllocError>
    ensures ok { OnOk result (out.new.items ≡ out.old.items ++ place_text place.now) }
    ensures front { StartsWith out.new.items out.old.items }
    ensures held { IsPlace place.now }
{
    match place {
        Place::Actual(value) => push_value(out, value),
        Place::Formal(kind) => {
            out.push(b'?')?;
            kind.push_to(out)
        }
    }
}

fn push_value(out: &mut Vec<u8>, value: &Value) -> Result<(), AllocError>
    ensures ok { OnOk result (out.new.items ≡ out.old.items ++ value_text value.now) }
    ensures front { StartsWith out.new.items out.old.items }
    ensures held { IsValue value.now }
{
    match value {
        Value::Int(number) => push_int(out, *number),
        Value::Str(string) => push_string(out, string.as_bytes()),
        Value::Bool(true) => out.extend_from_slice(b"true"),
        Value::Bool(false) => out.extend_from_slice(b"false"),
    }
}

/// Appends an int in decimal, or where memory runs out a front of that.
pub fn push_int(out: &mut Vec<u8>, number: i64) -> Result<(), AllocError>
    ensures ok { OnOk result (out.new.items ≡ out.old.items ++ signed_decimal number) }
    ensures front { StartsWith out.new.items out.old.items }
    ensures held { FitsSigned w64 number }
{
    let mut buffer = Buffer::new();
    out.extend_from_slice(buffer.format(number).as_bytes())
}

/// Appends a number in decimal, or where memory runs out a front of that.
pub fn push_number(out: &mut Vec<u8>, number: u64) -> Result<(), AllocError>
    ensures ok { OnOk result (out.new.items ≡ out.old.items ++ decimal number) }
    ensures front { StartsWith out.new.items out.old.items }
{
    let mut buffer = Buffer::new();
    out.extend_from_slice(buffer.format(number).as_bytes())
}

fn push_string(out: &mut Vec<u8>, characters: &[u8]) -> Result<(), AllocError>
    ensures ok { OnOk result (out.new.items ≡ out.old.items ++ string_text characters.now) }
    ensures front { StartsWith out.new.items out.old.items }
{
    out.push(b'"')?;
    for character in characters {
        push_character(out, *character)?;
    }
    out.push(b'"')?;
    Ok(())
}

fn push_character(out: &mut Vec<u8>, character: u8) -> Result<(), AllocError>
    ensures ok { OnOk result (out.new.items ≡ out.old.items ++ character_text character) }
    ensures front { StartsWith out.new.items out.old.items }
{
    if character == b'"' || character == b'\\' {
        out.push(b'\\')?;
    }
    out.push(character)?;
    Ok(())
}
