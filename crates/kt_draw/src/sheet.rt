//! The sheet that a picture is drawn on: its plane, its rows, and its size.
//! Cited by band.rt, foot.rt, head.rt, legend.rt, life.rt, picture.rt, row.rt, way.rt.

ghost use Rattle.std.specs.Prelude.{◌≡◌, ◌≤◌, ◌^◌};
ghost use Rattle.kt_draw.specs.Rows.{above, point, text_x};

use crate::element::Point;
use crate::plane::{BAND, GAP, NUMBERS, Plane, ROW, TITLE};
use kt_tuple::{ALL_NODES, NodeId};

/// The width between the columns and the texts of the rows, where a mark stands once more.
const ICON: u64 = 26;
/// The margin of the sheet.
pub(crate) const MARGIN: u64 = 12;
/// The least width of a sheet.
const NARROW: u64 = 480;

/// A sheet.
#[derive(Clone, Copy)]
pub(crate) struct Sheet {
    pub plane: Plane,
    /// The number of the step of the first row.
    pub first: u64,
    /// Whether one line more stands below the rows.
    pub has_end: bool,
    /// How many characters the longest text of a row has.
    pub longest: u64,
}

/// At least the width of so many characters.
pub(crate) fn text_width(characters: u64) -> u64 {
    characters.saturating_mul(29).saturating_add(3) / 4
}

impl Sheet {
    /// Where the row of this step stands, counted from 0; `None` outside the picture.
    pub fn place(self, number: u64) -> Option<u32> {
        if number < self.first {
            return None;
        }
        let place = number - self.first;
        if place < u64::from(self.plane.rows) {
            Some(place as u32)
        } else {
            None
        }
    }

    /// The middle of the row with so many above it in the column of this node.
    pub fn point(self, node: NodeId, above: u32) -> Point
        ensures value { result ≡ point self node above }
        ensures low { result.y ≤ 2 ^ 40 }
    {
        Point {
            x: self.plane.column(node),
            y: self.plane.row_y(above),
        }
    }

    /// How many rows stand above that of the step of this number.
    pub fn above(self, number: u64) -> u32
        ensures { result ≡ above self number }
    {
        number.saturating_sub(self.first).min(u64::from(u32::MAX)) as u32
    }

    /// Where the texts of the rows begin.
    pub fn text_x(self) -> u64
        ensures { result ≡ text_x self }
    {
        let nodes = u64::from(self.plane.workers) + u64::from(self.plane.shards);
        nodes * self.plane.pitch() + (NUMBERS + GAP + ICON)
    }

    /// The width of the sheet: a multiple of 16.
    pub fn width(self) -> u64 {
        let wanted = self
            .text_x()
            .saturating_add(text_width(self.longest))
            .saturating_add(MARGIN);
        wanted.max(NARROW).saturating_add(15) / 16 * 16
    }

    /// The lower edge of the last row.
    pub fn rows_bottom(self) -> u64 {
        let bands = BAND.saturating_mul(self.plane.bands());
        (TITLE + ROW * u64::from(self.plane.rows)).saturating_add(bands)
    }

    /// Where the nodes' lines and the veil over later rows end.
    pub fn bottom(self) -> u64 {
        let more = if self.has_end { ROW } else { 0 };
        self.rows_bottom().saturating_add(10 + more)
    }

    /// Whether the scene has this node, and so a column for it.
    pub fn has(self, node: NodeId) -> bool {
        match node {
            NodeId::Worker(number) => 1 <= number && number <= self.plane.workers,
            NodeId::Shard(number) => 1 <= number && number <= self.plane.shards,
        }
    }
}

/// The nodes that a scene can have, in the order of their columns.
pub(crate) const NODES: &[NodeId] = &ALL_NODES;
