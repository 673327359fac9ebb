//! How an image is packed.
use fz_block::Axes;
use fz_tile::Codec;

/// How an image is packed (FITS 4.0, sections 10.1 and 10.4).
#[derive(Clone, Copy, Debug, PartialEq, Eq)]
pub struct Plan {
    pub codec: Codec,
    /// The bits of a pixel: 8, 16, 32 or 64.
    pub bitpix: i32,
    /// The lengths of the image's axes.
    pub shape: Axes,
    /// The lengths of a tile, each at most that of the axis.
    pub tile: Axes,
    /// Whether the image is a primary, and not an extension.
    pub primary: bool,
    /// Whether the image's plain bytes are more than 2,147,483,647, so that its descriptors have 64
    /// bits if `fz` packs it. It does not say how wide those of a table are that is read.
    pub wide: bool,
}
