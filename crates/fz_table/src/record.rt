//! The record of a tile.

/// The columns that may hold a tile (FITS 4.0, section 10.1.3).
#[derive(Clone, Copy, Debug, PartialEq, Eq)]
pub enum TileColumn {
    /// COMPRESSED_DATA.
    Coded,
    /// UNCOMPRESSED_DATA.
    Stored,
}

/// What is known of a tile before its row is read.
#[derive(Clone, Copy, Debug, PartialEq, Eq)]
pub struct Tile {
    /// The number of its pixels.
    pub pixels: u32,
    /// The length of its plain bytes.
    pub plain_len: u64,
    /// Whether the codec is NOCOMPRESS, so that plain bytes may be in either column.
    pub plain: bool,
}

/// Where the bytes of a tile are in the file.
#[derive(Clone, Copy, Debug, PartialEq, Eq)]
pub struct Record {
    /// The column that is chosen.
    pub column: TileColumn,
    /// The byte of the file at which the record begins.
    pub start: u64,
    /// The length of the record in bytes.
    pub total: u64,
    /// How many of its first bytes are read: at most 8 for each pixel and 64 more.
    pub read: u64,
}
