//! Where things stand in a picture, in pixels: a column for each node, a row for each step, and bands with the names of
//! the nodes among the rows.
//! Cited by band.rt, foot.rt, life.rt, picture.rt, row.rt, sheet.rt, way.rt; other crates.

ghost use Rattle.std.specs.Prelude.{◌≡◌, ◌≤◌, ◌^◌, min};
ghost use Rattle.kt_draw.specs.declared.plane.TheConstants.{NARROWEST, WIDEST};

use kt_tuple::NodeId;

/// The height of a row.
pub const ROW: u64 = 18;
/// The height of a band with the names of the nodes.
pub const BAND: u64 = 24;
/// The height of the title, above the first band.
pub const TITLE: u64 = 52;
/// The width of the numbers of steps, before the first column.
pub const NUMBERS: u64 = 56;
/// The width between the workers and the shards.
pub const GAP: u64 = 20;
/// A band stands above each so many rows.
pub const BLOCK: u64 = 40;
/// Fewer rows than these at the end have no band of their own.
pub const SHORT: u64 = 10;
/// The width that the columns share.
pub const WIDE: u64 = 960;
/// The least width of a column.
pub const NARROWEST: u64 = 40;
/// The greatest width of a column.
pub const WIDEST: u64 = 96;

/// How large a picture is.
#[derive(Clone, Copy, Debug, PartialEq, Eq)]
pub struct Plane {
    /// How many workers have a column.
    pub workers: u8,
    /// How many shards have one.
    pub shards: u8,
    /// How many rows there are.
    pub rows: u32,
}

impl Plane {
    ghost use Rattle.kt_draw.specs.Places.{bands, column, pitch, row_y};

    /// The plane of so many nodes and rows.
    pub fn new(workers: u8, shards: u8, rows: usize) -> Plane
        ensures { result ≡ record { workers = workers; shards = shards; rows = min rows 4294967295 } }
    {
        Plane {
            workers,
            shards,
            rows: rows.min(u32::MAX as usize) as u32,
        }
    }

    /// How many bands there are.
    pub fn bands(self) -> u64
        ensures { result ≡ bands self.rows }
    {
        ((u64::from(self.rows) + (BLOCK - SHORT)) / BLOCK).max(1)
    }

    /// The middle of the row with so many rows above it.
    pub fn row_y(self, above: u32) -> u64
        ensures value { result ≡ row_y self.rows above }
        ensures low { result ≤ 2 ^ 40 }
    {
        let rows = u64::from(above);
        let bands = (rows / BLOCK + 1).min(self.bands());
        TITLE + BAND * bands + ROW * rows + ROW / 2
    }

    /// The width of a column.
    pub fn pitch(self) -> u64
        ensures value { result ≡ pitch self.workers self.shards }
        ensures least { NARROWEST ≤ result }
        ensures most { result ≤ WIDEST }
    {
        let nodes = (u64::from(self.workers) + u64::from(self.shards)).max(1);
        (WIDE / nodes).min(WIDEST).max(NARROWEST)
    }

    /// The middle of the column of the node: first the workers, then the shards.
    pub fn column(self, node: NodeId) -> u64
        ensures { result ≡ column self.workers self.shards node }
    {
        let pitch = self.pitch();
        let before = u64::from(node.number()).saturating_sub(1);
        let left = match node {
            NodeId::Worker(_) => NUMBERS + pitch * before,
            NodeId::Shard(_) => NUMBERS + GAP + pitch * (u64::from(self.workers) + before),
        };
        left + pitch / 2
    }
}
