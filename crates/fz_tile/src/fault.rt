//! Why a record is refused.

/// Why a record gives no pixels.
#[derive(Clone, Copy, Debug, PartialEq, Eq)]
pub enum TileFault {
    /// The Rice code ends early, in a record that was read whole.
    CodeShort,
    /// The Rice code is unlawful, or ends early in a record that is longer than what is read.
    CodeValue,
    /// The line list is refused.
    LineList,
    /// A number of the code is outside the range of BITPIX.
    PixelRange,
    /// Plain bytes have another length than the tile.
    TileSize,
}
