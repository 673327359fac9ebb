//! What the tiles of an image are restored with.

use fz_block::Header;
use fz_checks::PackedImage;
use fz_pool::Crew;

/// An image that is restored, and by whom.
#[derive(Drop)]
pub(crate) struct Restoring<'c, 'a, R, G> {
    /// Who works.
    pub(crate) crew: &'c Crew<'a, R, G>,
    /// The facts of the packed header.
    pub(crate) header: Header,
    /// The packed image.
    pub(crate) image: PackedImage,
    /// The byte of the sink at which the pixels begin.
    pub(crate) data_at: u64,
    /// How many tiles there are.
    pub(crate) tiles: u32,
}
