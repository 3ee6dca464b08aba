//! A line as it is shown, and a caret under a byte of it.
//! Cited by explain.rt.

ghost use Rattle.std.specs.Prelude.{OnOk, IsTrue};
ghost use Rattle.kt_explain.specs.Shown.{IsPlain, is_plain_byte};

use std::alloc::AllocError;

/// The most bytes of a line that are shown.
const MAX_SHOWN: usize = 100;

/// How many of them stand before the byte with the caret, where that stands far behind.
const BEFORE_CARET: usize = 50;

/// Appends the line. Of a long one the part is shown in which its byte at this place stands, counted from 0, with `...`
/// where something is left out.
pub(crate) fn push_line(out: &mut Vec<u8>, line: &[u8], at: usize) -> Result<(), AllocError>
    ensures { OnOk result (IsPlain out.old.items → IsPlain out.new.items) }
{
    let start = start_of_part(line.len(), at);
    let (before, from_start) = line.split_at(start.min(line.len()));
    let (shown, behind) = from_start.split_at(from_start.len().min(MAX_SHOWN));
    push_plain(out, b"  ")?;
    push_dots(out, b"...", before)?;
    push_shown(out, shown)?;
    push_dots(out, b"...", behind)?;
    push_plain(out, b"\n")
}

/// Appends a caret that stands under this byte of the line, where the line was appended before.
pub(crate) fn push_caret(out: &mut Vec<u8>, line: &[u8], at: usize) -> Result<(), AllocError>
    ensures { OnOk result (IsPlain out.old.items → IsPlain out.new.items) }
{
    let start = start_of_part(line.len(), at);
    let (before, from_start) = line.split_at(start.min(line.len()));
    let (front, _) = from_start.split_at(at.saturating_sub(start).min(from_start.len()));
    push_plain(out, b"  ")?;
    push_dots(out, b"   ", before)?;
    push_widths(out, front)?;
    push_plain(out, b"^\n")
}

/// Where the part begins that is shown.
fn start_of_part(length: usize, at: usize) -> usize {
    if length <= MAX_SHOWN || at < MAX_SHOWN {
        0
    } else {
        at.saturating_sub(BEFORE_CARET)
    }
}

/// Appends this text, which is shown as it stands.
pub(crate) fn push_plain(out: &mut Vec<u8>, text: &[u8]) -> Result<(), AllocError>
    requires { IsPlain text.now }
    ensures { OnOk result (IsPlain out.old.items → IsPlain out.new.items) }
{
    out.extend_from_slice(text)
}

/// Appends this text, where anything is left out.
fn push_dots(out: &mut Vec<u8>, text: &[u8], left_out: &[u8]) -> Result<(), AllocError>
    requires { IsPlain text.now }
    ensures { OnOk result (IsPlain out.old.items → IsPlain out.new.items) }
{
    if left_out.is_empty() {
        Ok(())
    } else {
        push_plain(out, text)
    }
}

/// Appends the bytes as they are shown.
pub(crate) fn push_shown(out: &mut Vec<u8>, bytes: &[u8]) -> Result<(), AllocError>
    ensures { OnOk result (IsPlain out.old.items → IsPlain out.new.items) }
{
    for byte in bytes {
        push_byte(out, *byte)?;
    }
    Ok(())
}

/// The byte as it is shown.
fn push_byte(out: &mut Vec<u8>, byte: u8) -> Result<(), AllocError>
    ensures { OnOk result (IsPlain out.old.items → IsPlain out.new.items) }
{
    match byte {
        b'\t' => push_plain(out, b"\\t"),
        b'\r' => push_plain(out, b"\\r"),
        32..=126 => push_plain(out, &[byte]),
        _ => {
            push_plain(out, b"\\x")?;
            push_plain(out, &[digit_of(byte / 16)])?;
            push_plain(out, &[digit_of(byte % 16)])
        }
    }
}

/// As many spaces as the bytes are wide.
fn push_widths(out: &mut Vec<u8>, bytes: &[u8]) -> Result<(), AllocError>
    ensures { OnOk result (IsPlain out.old.items → IsPlain out.new.items) }
{
    for byte in bytes {
        match *byte {
            b'\t' | b'\r' => push_plain(out, b"  ")?,
            32..=126 => push_plain(out, b" ")?,
            _ => push_plain(out, b"    ")?,
        }
    }
    Ok(())
}

/// The hexadecimal digit of a number below 16.
fn digit_of(number: u8) -> u8
    ensures { IsTrue (is_plain_byte result) }
{
    match number {
        0..=9 => b'0' + number,
        10..=15 => b'a' + (number - 10),
        _ => b'?',
    }
}
