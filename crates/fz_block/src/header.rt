//! The facts of a header, and the places that follow from them.
ghost use Rattle.std.specs.Prelude.{◌≡◌, ◌≤◌, ◌^◌};
ghost use Rattle.fz_block.specs.Header.{data_start_of, next_start_of, whole_blocks_of};

use crate::Axes;
use crate::blocks::BLOCK_LEN;

/// What an HDU is: the primary, or an extension by its XTENSION (FITS 4.0, section 7).
#[derive(Clone, Copy, Debug, PartialEq, Eq)]
pub enum Sort {
    Primary,
    Image,
    BinTable,
    Other,
}

/// The facts of a header (FITS 4.0, section 4.4.1).
#[derive(Clone, Copy, Debug, PartialEq, Eq)]
pub struct Header {
    /// The number of the HDU, counted from 0.
    pub hdu: u32,
    /// The byte of the file at which the header begins.
    pub start: u64,
    /// The index of the END card.
    pub cards: u32,
    /// The header's length in blocks.
    pub blocks: u32,
    pub sort: Sort,
    pub bitpix: i32,
    pub axes: Axes,
    /// PCOUNT, or 0 for a primary.
    pub pcount: u64,
    /// GCOUNT, or 1 for a primary.
    pub gcount: u64,
    /// The length of the data in bytes, without fill.
    pub data_len: u64,
}

/// The byte of the file at which the data begin.
pub fn data_start(h: &Header) -> u64
    requires { next_start_of h.now ≤ 2 ^ 62 }
    ensures { result ≡ data_start_of h.now }
{
    h.start + BLOCK_LEN as u64 * u64::from(h.blocks)
}

/// The byte of the file after the data and their fill, where the next HDU begins.
pub fn next_start(h: &Header) -> u64
    requires { next_start_of h.now ≤ 2 ^ 62 }
    ensures { result ≡ next_start_of h.now }
{
    data_start(h) + whole_blocks(h.data_len)
}

/// A length with the fill to whole blocks.
pub(crate) fn whole_blocks(len: u64) -> u64
    requires { whole_blocks_of len ≤ 2 ^ 63 }
    ensures { result ≡ whole_blocks_of len }
{
    len.div_ceil(BLOCK_LEN as u64) * BLOCK_LEN as u64
}
