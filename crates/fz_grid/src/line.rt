//! Lines of picks.

/// Picks that follow each other along axis 1 of a tile.
#[derive(Clone, Copy, Debug, PartialEq, Eq)]
pub struct Line {
    /// The number of the first pick among the pixels of the tile.
    pub in_tile: u64,
    /// How far one pick is from the next in the tile.
    pub step: u32,
    /// The number of the first pick in what is cut out, in which the picks are neighbours.
    pub in_cutout: u64,
    /// How many picks there are.
    pub count: u32,
}
