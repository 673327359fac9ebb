//! What a row says.
use crate::Descriptor;

/// What a row of the table of a packed image says of its tile (FITS 4.0, section 10.1.3). A column that
/// is not there describes no elements.
#[derive(Clone, Copy, Debug, PartialEq, Eq)]
pub struct Row {
    /// The descriptor in COMPRESSED_DATA.
    pub coded: Descriptor,
    /// The descriptor in UNCOMPRESSED_DATA.
    pub stored: Descriptor,
    /// The descriptor in GZIP_COMPRESSED_DATA.
    pub gzip: Descriptor,
}
