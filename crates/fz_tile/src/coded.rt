//! Where the bytes of a tile are, and how many there are.

/// The column that has the bytes of a tile (FITS 4.0, section 10.1.3).
#[derive(Clone, Copy, Debug, PartialEq, Eq)]
pub enum Place2 {
    /// COMPRESSED_DATA: the code of the tile.
    Coded,
    /// UNCOMPRESSED_DATA: its plain bytes.
    Stored,
}

/// What was written for a tile.
#[derive(Clone, Copy, Debug, PartialEq, Eq)]
pub struct Coded {
    /// The column that the bytes belong to.
    pub place: Place2,
    /// The number of bytes.
    pub len: u32,
}
