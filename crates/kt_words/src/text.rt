//! Texts that are appended to a script or a page.
//! Cited by bash.rt, escape.rt, fish.rt, page.rt, page_commands.rt, zsh.rt.
#![tactic(auto, using(crate::proofs::Growing::growing))]

ghost use Rattle.std.specs.Prelude.{All, IsTrue, OnOk};
ghost use Rattle.std.specs.Str.Iter.{HasSubslice};
ghost use Rattle.kt_words.specs.Plain.{IsPlain, is_plain_byte};
ghost use Rattle.kt_words.specs.auxiliary.Growth.{Extends};

use std::alloc::AllocError;

/// Appends the text as it stands.
pub(crate) fn push_text(out: &mut Vec<u8>, text: &str) -> Result<(), AllocError>
    requires { IsPlain text.now }
    ensures extends { OnOk result (Extends out.old.items out.new.items) }
    ensures there { OnOk result (HasSubslice out.new.items text.now) }
{
    out.extend_from_slice(text.as_bytes())
}

/// Appends the byte.
pub(crate) fn push_byte(out: &mut Vec<u8>, byte: u8) -> Result<(), AllocError>
    requires { IsTrue (is_plain_byte byte) }
    ensures { OnOk result (Extends out.old.items out.new.items) }
{
    Ok(out.push(byte)?)
}

/// Appends the words, with a space between two.
pub(crate) fn push_values(out: &mut Vec<u8>, values: &[&str]) -> Result<(), AllocError>
    requires { All (λ v. IsPlain v.now) values.now }
    ensures { OnOk result (Extends out.old.items out.new.items) }
{
    for (place, value) in values.iter().enumerate() {
        push_text(out, separator_before(place))?;
        push_text(out, value)?;
    }
    Ok(())
}

/// What stands before the word at this place, counted from 0.
pub(crate) fn separator_before(place: usize) -> &'static str
    ensures { IsPlain result.now }
{
    if place == 0 { "" } else { " " }
}
