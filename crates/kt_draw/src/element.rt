//! The elements of a picture as text, each on a line of its own. Numbers are pixels.
//! Cited by band.rt, foot.rt, head.rt, legend.rt, life.rt, picture.rt, row.rt, sheet.rt, way.rt.

ghost use Rattle.std.specs.Prelude.{◌≡◌, ◌++◌, OnOk};
ghost use Rattle.kt_draw.specs.Elements.{box_text, element, label_text, line_text, number_attribute};
ghost use Rattle.kt_draw.specs.Elements.{place_attributes, point_text, struck_content, struck_text, use_text};

use crate::escape::push_escaped;
use kt_tuple::writing::push_number;
use std::alloc::AllocError;

/// A point of a picture.
#[derive(Clone, Copy, Debug, PartialEq, Eq)]
pub struct Point {
    /// From the left edge.
    pub x: u64,
    /// From the upper edge.
    pub y: u64,
}

/// Puts an attribute with a number behind the text: a space, its name, and its value in quotes.
fn push_attribute(out: &mut Vec<u8>, name: &[u8], number: u64) -> Result<(), AllocError>
    ensures { OnOk result (out.new.items ≡ out.old.items ++ number_attribute name.now number) }
{
    out.push(b' ')?;
    out.extend_from_slice(name)?;
    out.extend_from_slice(b"=\"")?;
    push_number(out, number)?;
    out.push(b'"')?;
    Ok(())
}

/// The begin of an element: its name, and its classes.
fn push_element(out: &mut Vec<u8>, name: &[u8], classes: &[u8]) -> Result<(), AllocError>
    ensures { OnOk result (out.new.items ≡ out.old.items ++ element name.now classes.now) }
{
    out.push(b'<')?;
    out.extend_from_slice(name)?;
    out.extend_from_slice(b" class=\"")?;
    out.extend_from_slice(classes)?;
    out.push(b'"')?;
    Ok(())
}

/// The attributes of an element that stands at the point.
fn push_place(out: &mut Vec<u8>, at: Point) -> Result<(), AllocError>
    ensures { OnOk result (out.new.items ≡ out.old.items ++ place_attributes at) }
{
    push_attribute(out, b"x", at.x)?;
    push_attribute(out, b"y", at.y)
}

/// The point in a path.
fn push_point(out: &mut Vec<u8>, at: Point) -> Result<(), AllocError>
    ensures { OnOk result (out.new.items ≡ out.old.items ++ point_text at) }
{
    push_number(out, at.x)?;
    out.push(b' ')?;
    push_number(out, at.y)
}

/// Puts a text of these classes that begins at the point, or stands there as the classes say. The text is escaped.
pub fn push_label(
    out: &mut Vec<u8>,
    classes: &[u8],
    at: Point,
    text: &[u8],
) -> Result<(), AllocError>
    ensures { OnOk result (out.new.items ≡ out.old.items ++ label_text classes.now at text.now) }
{
    push_element(out, b"text", classes)?;
    push_place(out, at)?;
    out.push(b'>')?;
    push_escaped(out, text)?;
    out.extend_from_slice(b"</text>\n")
}

/// Puts a text that begins at the point, of which the begin is struck through. Both parts are escaped.
pub(crate) fn push_struck(
    out: &mut Vec<u8>,
    at: Point,
    struck: &[u8],
    text: &[u8],
) -> Result<(), AllocError>
    ensures { OnOk result (out.new.items ≡ out.old.items ++ struck_text at struck.now text.now) }
{
    push_element(out, b"text", b"t")?;
    push_place(out, at)?;
    out.push(b'>')?;
    push_struck_content(out, struck, text)?;
    out.extend_from_slice(b"</text>\n")
}

/// The content of such a text.
fn push_struck_content(out: &mut Vec<u8>, struck: &[u8], text: &[u8]) -> Result<(), AllocError>
    ensures { OnOk result (out.new.items ≡ out.old.items ++ struck_content struck.now text.now) }
{
    out.extend_from_slice(b"<tspan class=\"s\">")?;
    push_escaped(out, struck)?;
    out.extend_from_slice(b"</tspan>")?;
    push_escaped(out, text)
}

/// Puts the symbol of this name, with its middle at the point.
pub fn push_use(out: &mut Vec<u8>, name: &[u8], at: Point) -> Result<(), AllocError>
    ensures { OnOk result (out.new.items ≡ out.old.items ++ use_text name.now at) }
{
    out.extend_from_slice(b"<use href=\"#")?;
    out.extend_from_slice(name)?;
    out.push(b'"')?;
    push_place(out, at)?;
    out.extend_from_slice(b"/>\n")?;
    Ok(())
}

/// Puts a line of these classes from the one point to the other.
pub fn push_line(
    out: &mut Vec<u8>,
    classes: &[u8],
    from: Point,
    to: Point,
) -> Result<(), AllocError>
    ensures { OnOk result (out.new.items ≡ out.old.items ++ line_text classes.now from to) }
{
    push_element(out, b"path", classes)?;
    out.extend_from_slice(b" d=\"M")?;
    push_point(out, from)?;
    out.push(b'L')?;
    push_point(out, to)?;
    out.extend_from_slice(b"\"/>\n")?;
    Ok(())
}

/// Puts a box of these classes with this upper left corner, so wide and so high.
pub fn push_box(
    out: &mut Vec<u8>,
    classes: &[u8],
    corner: Point,
    width: u64,
    height: u64,
) -> Result<(), AllocError>
    ensures { OnOk result (out.new.items ≡ out.old.items ++ box_text classes.now corner width height) }
{
    push_element(out, b"rect", classes)?;
    push_place(out, corner)?;
    push_attribute(out, b"width", width)?;
    push_attribute(out, b"height", height)?;
    out.extend_from_slice(b"/>\n")
}
