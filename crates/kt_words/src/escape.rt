//! Texts for places where some bytes have a meaning of their own.
//! Cited by fish.rt, page.rt, page_commands.rt, zsh.rt.
#![tactic(auto, using(crate::proofs::Growing::growing))]

ghost use Rattle.std.specs.Prelude.{IfSome, OnOk};
ghost use Rattle.kt_words.specs.Plain.{IsPlain};
ghost use Rattle.kt_words.specs.auxiliary.Growth.{Extends};

use crate::text::{push_byte, push_text};
use std::alloc::AllocError;

/// Where a text is put.
#[derive(Clone, Copy)]
pub(crate) enum Place {
    /// Between single quotes of zsh, as the description of a word.
    Zsh,
    /// Between single quotes of fish.
    Fish,
    /// In a line of a manual page.
    Roff,
}

/// Appends the text, so that it is read there as it stands here.
pub(crate) fn push_escaped(out: &mut Vec<u8>, place: Place, text: &str) -> Result<(), AllocError>
    requires { IsPlain text.now }
    ensures { OnOk result (Extends out.old.items out.new.items) }
{
    for byte in text.as_bytes() {
        match place.escape_of(*byte) {
            Some(escape) => push_text(out, escape)?,
            None => push_byte(out, *byte)?,
        }
    }
    Ok(())
}

impl Place {
    /// What is written for a byte that has a meaning there; `None` of one that stands for itself.
    fn escape_of(self, byte: u8) -> Option<&'static str>
        ensures { IfSome result (λ text. IsPlain text.now) }
    {
        match self {
            Place::Zsh => zsh_escape(byte),
            Place::Fish => fish_escape(byte),
            Place::Roff => roff_escape(byte),
        }
    }
}

fn zsh_escape(byte: u8) -> Option<&'static str>
    ensures { IfSome result (λ text. IsPlain text.now) }
{
    match byte {
        b'\'' => Some("'\\''"),
        b'\\' => Some("\\\\"),
        b'[' => Some("\\["),
        b']' => Some("\\]"),
        b':' => Some("\\:"),
        b'$' => Some("\\$"),
        b'`' => Some("\\`"),
        _ => None,
    }
}

fn fish_escape(byte: u8) -> Option<&'static str>
    ensures { IfSome result (λ text. IsPlain text.now) }
{
    match byte {
        b'\'' => Some("\\'"),
        b'\\' => Some("\\\\"),
        _ => None,
    }
}

/// In a page `-` alone is a hyphen, and quotes alone are typographic ones. A dot begins a macro at the begin of a line.
fn roff_escape(byte: u8) -> Option<&'static str>
    ensures { IfSome result (λ text. IsPlain text.now) }
{
    match byte {
        b'\\' => Some("\\e"),
        b'-' => Some("\\-"),
        b'\'' => Some("\\(aq"),
        b'`' => Some("\\(ga"),
        b'^' => Some("\\(ha"),
        b'~' => Some("\\(ti"),
        b'.' => Some("\\&."),
        _ => None,
    }
}
