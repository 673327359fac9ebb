//! Where a box stops.

use fz_base::Kind;

/// Why a tile gives no pixels, or its row no record.
#[derive(Clone, Copy, Debug, PartialEq, Eq)]
pub enum Why {
    /// Its row is not among the bytes that were read.
    FewRows,
    /// What is read of its record is not among the bytes that were read.
    FewBytes,
    /// Its row or its record is refused as of this kind.
    Refused(Kind),
}

/// The first tile of a box that gives nothing.
#[derive(Clone, Copy, Debug, PartialEq, Eq)]
pub struct Stopped {
    /// The number of the tile.
    pub tile: u32,
    /// Why it gives nothing.
    pub why: Why,
}
