//! Messages as lines.
//! Cited by legend.rt, picture.rt.

use crate::element::Point;
use crate::part::{Part, push_parts};
use crate::sheet::Sheet;
use kt_story::{Arrow, Kind};
use std::alloc::AllocError;

/// How far a line stands from the middle of a column, and how long its stub is where the other end is not in the
/// picture.
const FROM: u64 = 7;

const TO: u64 = 8;

const STUB: u64 = 20;

/// The line of the message: whole, or a stub at the end that is in the picture, or nothing.
pub(crate) fn push_arrow(out: &mut Vec<u8>, sheet: Sheet, arrow: &Arrow) -> Result<(), AllocError> {
    let rightward = sheet.plane.column(arrow.from) < sheet.plane.column(arrow.to);
    let sent = sheet
        .place(arrow.sent)
        .map(|place| sheet.point(arrow.from, place));
    let came = match arrow.came {
        Some(number) => sheet
            .place(number)
            .map(|place| sheet.point(arrow.to, place)),
        None => None,
    };
    match (sent, came) {
        (Some(sent), Some(came)) => {
            let from = beside(sent, rightward, FROM, 2);
            push_way(out, arrow, b"", from, above(came, rightward, TO, 1))
        }
        (Some(sent), None) => {
            let from = beside(sent, rightward, FROM, 2);
            push_way(out, arrow, b" way", from, beside(sent, rightward, STUB, 7))
        }
        (None, Some(came)) => {
            let from = above(came, rightward, STUB, 6);
            push_way(out, arrow, b" late", from, above(came, rightward, TO, 1))
        }
        (None, None) => Ok(()),
    }
}

/// A point on the side where the line goes, a little lower.
fn beside(point: Point, rightward: bool, by: u64, lower: u64) -> Point {
    Point {
        x: if rightward {
            point.x.saturating_add(by)
        } else {
            point.x.saturating_sub(by)
        },
        y: point.y.saturating_add(lower),
    }
}

/// A point on the side from which the line comes, a little higher.
fn above(point: Point, rightward: bool, by: u64, higher: u64) -> Point {
    Point {
        x: if rightward {
            point.x.saturating_sub(by)
        } else {
            point.x.saturating_add(by)
        },
        y: point.y.saturating_sub(higher),
    }
}

fn push_way(
    out: &mut Vec<u8>,
    arrow: &Arrow,
    more: &[u8],
    from: Point,
    to: Point,
) -> Result<(), AllocError> {
    let lost: &[u8] = if arrow.lost { b" l" } else { b"" };
    push_parts(
        out,
        &[
            Part::Text(b"<path class=\""),
            Part::Text(classes_of(arrow.kind)),
            Part::Text(lost),
            Part::Text(more),
            Part::Text(b"\" d=\"M"),
            Part::Number(from.x),
            Part::Text(b" "),
            Part::Number(from.y),
            Part::Text(b"L"),
            Part::Number(to.x),
            Part::Text(b" "),
            Part::Number(to.y),
            Part::Text(b"\"/>\n"),
        ],
    )
}

/// The classes of the line of such a message.
pub(crate) fn classes_of(kind: Kind) -> &'static [u8] {
    match kind {
        Kind::Request => b"request m",
        Kind::Reply => b"reply m",
        Kind::CheckAsk => b"ask c",
        Kind::CheckVote => b"vote c",
        Kind::CheckVerdict => b"verdict c",
        Kind::RollAsk => b"ask r",
        Kind::RollVote => b"vote r",
        Kind::RollVerdict => b"verdict r",
    }
}
