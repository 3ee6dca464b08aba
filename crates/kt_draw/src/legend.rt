//! What the marks and the lines of a picture mean.
//! Cited by picture.rt.

use crate::element::{Point, push_box, push_label, push_line, push_use};
use crate::life::push_piece;
use crate::row::symbol_of;
use crate::sheet::{MARGIN, Sheet, text_width};
use crate::way::classes_of;
use kt_state::Mode;
use kt_story::{Arrow, Kind, Mark};
use std::alloc::AllocError;

/// The height of a line of the legend.
pub(crate) const LINE: u64 = 22;

/// What an entry of the legend explains.
#[derive(Clone, Copy)]
pub(crate) enum Symbol {
    /// A mark.
    Mark(Mark),
    /// What was crossed out.
    Crossed,
    /// The line of a node in this mode.
    Life(Mode),
    /// A message.
    Way(Kind),
    /// A message of an act that is lost.
    LostWay,
    /// A message that did not arrive in the picture.
    OpenWay,
}

/// All entries, a symbol and what it means, in their order.
pub(crate) const ENTRIES: &[(Symbol, &str)] = &[
    (Symbol::Mark(Mark::Survives), "service that survives"),
    (Symbol::Mark(Mark::Lost), "service that is lost"),
    (Symbol::Crossed, "undone by a failure or a rollback"),
    (Symbol::Mark(Mark::Asks), "asks, or answers again"),
    (Symbol::Mark(Mark::Waits), "request heard"),
    (Symbol::Mark(Mark::Hears), "answer heard"),
    (Symbol::Mark(Mark::Holds), "held back"),
    (Symbol::Mark(Mark::Drops), "gone"),
    (Symbol::Mark(Mark::Reads), "read or ignored"),
    (Symbol::Mark(Mark::Tentative), "tentative checkpoint"),
    (Symbol::Mark(Mark::Permanent), "it is permanent"),
    (Symbol::Mark(Mark::GivenUp), "it is given up"),
    (Symbol::Mark(Mark::Yes), "verdict yes"),
    (Symbol::Mark(Mark::No), "verdict no"),
    (Symbol::Mark(Mark::Fails), "failure"),
    (Symbol::Mark(Mark::Restarts), "restart"),
    (Symbol::Mark(Mark::Joins), "joins a rollback"),
    (Symbol::Mark(Mark::GoesBack), "rollback"),
    (Symbol::Life(Mode::Up), "up"),
    (Symbol::Life(Mode::Held), "held"),
    (Symbol::Life(Mode::Rolling), "rolling back"),
    (Symbol::Life(Mode::Down), "down"),
    (Symbol::Way(Kind::Request), "request"),
    (Symbol::Way(Kind::Reply), "answer"),
    (Symbol::LostWay, "of what is lost"),
    (Symbol::Way(Kind::CheckAsk), "ask of a check"),
    (Symbol::Way(Kind::CheckVote), "its vote"),
    (Symbol::Way(Kind::CheckVerdict), "its verdict"),
    (Symbol::Way(Kind::RollAsk), "ask of a rollback"),
    (Symbol::Way(Kind::RollVote), "its vote"),
    (Symbol::Way(Kind::RollVerdict), "its verdict"),
    (Symbol::OpenWay, "still on its way"),
];

impl Symbol {
    /// The width of the symbol with what parts it from its text.
    fn width(self) -> u64 {
        match self {
            Symbol::Mark(_) | Symbol::Life(_) => 20,
            Symbol::Crossed => 30,
            Symbol::Way(_) | Symbol::LostWay | Symbol::OpenWay => 40,
        }
    }

    /// Whether the message calls for this entry.
    pub(crate) fn is_of(self, sheet: Sheet, arrow: &Arrow) -> bool {
        let starts = sheet.place(arrow.sent).is_some();
        let ends = match arrow.came {
            Some(number) => sheet.place(number).is_some(),
            None => false,
        };
        match self {
            Symbol::Way(kind) => kind == arrow.kind && (starts || ends),
            Symbol::LostWay => arrow.lost && (starts || ends),
            Symbol::OpenWay => starts && !ends,
            Symbol::Mark(_) | Symbol::Crossed | Symbol::Life(_) => false,
        }
    }
}

/// Where the entries of a legend stand: each behind the one before, on the same line where it fits.
#[derive(Clone, Copy)]
pub(crate) struct Flow {
    /// Where the next entry begins.
    pub next: Point,
    /// The width of the sheet without its margin.
    pub width: u64,
}

impl Flow {
    /// The flow of a legend whose first line stands there.
    pub(crate) fn new(top: u64, width: u64) -> Flow {
        Flow {
            next: Point { x: MARGIN, y: top },
            width,
        }
    }

    /// Where an entry of this symbol and so many characters stands, and the flow behind it.
    pub(crate) fn put(self, symbol: Symbol, characters: u64) -> (Point, Flow) {
        let wide = text_width(characters)
            .saturating_add(symbol.width())
            .saturating_add(22);
        let Point { x, y } = self.next;
        let at = if x.saturating_add(wide) > self.width && x > MARGIN {
            Point {
                x: MARGIN,
                y: y.saturating_add(LINE),
            }
        } else {
            self.next
        };
        let next = Point {
            x: at.x.saturating_add(wide),
            y: at.y,
        };
        (
            at,
            Flow {
                next,
                width: self.width,
            },
        )
    }
}

/// The entry there.
pub(crate) fn push_entry(
    out: &mut Vec<u8>,
    at: Point,
    symbol: Symbol,
    text: &[u8],
) -> Result<(), AllocError> {
    push_symbol(out, at, symbol)?;
    let beside = Point {
        x: at.x.saturating_add(symbol.width()).saturating_add(4),
        y: at.y.saturating_add(4),
    };
    push_label(out, b"t", beside, text)
}

fn push_symbol(out: &mut Vec<u8>, at: Point, symbol: Symbol) -> Result<(), AllocError> {
    match symbol {
        Symbol::Mark(mark) => push_use(out, symbol_of(mark), right(at, 8)),
        Symbol::Crossed => {
            let corner = Point {
                x: at.x,
                y: at.y.saturating_sub(8),
            };
            push_box(out, b"x", corner, 24, 16)
        }
        Symbol::Life(mode) => {
            let top = Point {
                x: at.x.saturating_add(8),
                y: at.y.saturating_sub(9),
            };
            push_piece(out, mode, top, at.y.saturating_add(9))
        }
        Symbol::Way(kind) => push_line(out, classes_of(kind), at, right(at, 30)),
        Symbol::LostWay => push_line(out, b"request m l", at, right(at, 30)),
        Symbol::OpenWay => push_line(out, b"request m way", at, right(at, 30)),
    }
}

fn right(at: Point, by: u64) -> Point {
    Point {
        x: at.x.saturating_add(by),
        y: at.y,
    }
}
