//! How the tiles of an image are coded.

/// The codec of an image (FITS 4.0, section 10.4).
#[derive(Clone, Copy, Debug, PartialEq, Eq)]
pub enum Codec {
    /// RICE_1, with so many numbers in a block and so many bytes for a number.
    Rice { block: u32, bytepix: u32 },
    /// PLIO_1.
    Plio,
    /// NOCOMPRESS: only plain bytes.
    Plain,
}
