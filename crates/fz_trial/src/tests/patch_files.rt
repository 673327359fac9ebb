//! The files: images that are put in, and packed images that they are put into.
use crate::tests::files::Hdu;
use crate::tests::grids::{GRID_PACKED, GRID_ROWS, GRID_SUMS, GRID_TILES};
use crate::tests::small::EMPTY_PRIMARY_HDU;

/// An image of 3 by 2 pixels of 8 bits, all 0.
pub(crate) const SIX: [Hdu<'static>; 1] = [Hdu {
    cards: &SIX_CARDS,
    numbers: &[],
    bytes: &[0; 6],
}];

const SIX_CARDS: [&str; 5] = [
    "SIMPLE  =                    T",
    "BITPIX  =                    8",
    "NAXIS   =                    2",
    "NAXIS1  =                    3",
    "NAXIS2  =                    2",
];

/// One pixel of 8 bits.
pub(crate) const ONE: [Hdu<'static>; 1] = [Hdu {
    cards: &[
        "SIMPLE  =                    T",
        "BITPIX  =                    8",
        "NAXIS   =                    2",
        "NAXIS1  =                    1",
        "NAXIS2  =                    1",
    ],
    numbers: &[],
    bytes: &[99],
}];

/// A line of 4 pixels of 16 bits.
pub(crate) const LINE: [Hdu<'static>; 1] = [Hdu {
    cards: &[
        "SIMPLE  =                    T",
        "BITPIX  =                   16",
        "NAXIS   =                    2",
        "NAXIS1  =                    4",
        "NAXIS2  =                    1",
    ],
    numbers: &[0x0000_8000, 0x0005_fff9],
    bytes: &[],
}];

/// Two pixels of 64 bits.
pub(crate) const LONGS: [Hdu<'static>; 1] = [Hdu {
    cards: &[
        "SIMPLE  =                    T",
        "BITPIX  =                   64",
        "NAXIS   =                    1",
        "NAXIS1  =                    1",
    ],
    numbers: &[0x0102_0304, 0x0506_0708],
    bytes: &[],
}];

/// The packed image of 5 by 3 pixels, in tiles of 2 by 2, with checksums.
pub(crate) const SUMMED: [Hdu<'static>; 2] = [
    EMPTY_PRIMARY_HDU,
    Hdu {
        cards: &GRID_SUMS,
        numbers: &GRID_ROWS,
        bytes: &GRID_TILES,
    },
];

/// The packed image without checksums.
pub(crate) const GRID: [Hdu<'static>; 2] = GRID_PACKED;

pub(crate) static SIX_FILE: [Hdu<'static>; 1] = SIX;
