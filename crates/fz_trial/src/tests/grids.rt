//! Images in tiles, and what they are packed into.
use crate::tests::files::{Case, Hdu};
use crate::tests::small::{EMPTY_PRIMARY, EMPTY_PRIMARY_HDU};

/// Images in tiles of several shapes.
pub(crate) static CASES: [Case<'static>; 6] = [
    // tiles of 2 by 2, cut short at the upper ends
    Case {
        options: &["--codec", "none", "--tile", "2,2"],
        plain: &[Hdu {
            cards: &GRID,
            numbers: &[],
            bytes: &GRID_PIXELS,
        }],
        packed: &[
            Hdu {
                cards: &EMPTY_PRIMARY,
                numbers: &[],
                bytes: &[],
            },
            Hdu {
                cards: &GRID_TABLE,
                numbers: &GRID_ROWS,
                bytes: &GRID_TILES,
            },
        ],
    },
    // lengths beyond the axes are ignored
    Case {
        options: &["--codec", "none", "--tile", "2,2,7"],
        plain: &[Hdu {
            cards: &GRID,
            numbers: &[],
            bytes: &GRID_PIXELS,
        }],
        packed: &[
            Hdu {
                cards: &EMPTY_PRIMARY,
                numbers: &[],
                bytes: &[],
            },
            Hdu {
                cards: &GRID_TABLE,
                numbers: &GRID_ROWS,
                bytes: &GRID_TILES,
            },
        ],
    },
    // tiles of 2 by 2 with sums
    Case {
        options: &["--codec", "none", "--tile", "2,2", "--sums"],
        plain: &[Hdu {
            cards: &GRID,
            numbers: &[],
            bytes: &GRID_PIXELS,
        }],
        packed: &[
            Hdu {
                cards: &EMPTY_PRIMARY,
                numbers: &[],
                bytes: &[],
            },
            Hdu {
                cards: &GRID_SUMS,
                numbers: &GRID_ROWS,
                bytes: &GRID_TILES,
            },
        ],
    },
    // a tile that is longer than the image is cut to it
    Case {
        options: &["--codec", "none", "--tile", "9,2147483647"],
        plain: &[Hdu {
            cards: &GRID,
            numbers: &[],
            bytes: &GRID_PIXELS,
        }],
        packed: &[
            Hdu {
                cards: &EMPTY_PRIMARY,
                numbers: &[],
                bytes: &[],
            },
            Hdu {
                cards: &GRID_WHOLE,
                numbers: &[0, 0, 15, 0],
                bytes: &GRID_PIXELS,
            },
        ],
    },
    // an axis that is not named gets 1
    Case {
        options: &["--codec", "none", "--tile", "3"],
        plain: &[Hdu {
            cards: &GRID,
            numbers: &[],
            bytes: &GRID_PIXELS,
        }],
        packed: &[
            Hdu {
                cards: &EMPTY_PRIMARY,
                numbers: &[],
                bytes: &[],
            },
            Hdu {
                cards: &GRID_THREES,
                numbers: &[
                    0, 0, 3, 0, 0, 0, 2, 3, 0, 0, 3, 5, 0, 0, 2, 8, 0, 0, 3, 10, 0, 0, 2, 13,
                ],
                bytes: &GRID_PIXELS,
            },
        ],
    },
    // three axes
    Case {
        options: &["--codec", "none", "--tile", "2,2"],
        plain: &[Hdu {
            cards: &CUBE,
            numbers: &[],
            bytes: &[1, 2, 3, 4, 5, 6, 7, 8, 9, 10, 11, 12],
        }],
        packed: &[
            Hdu {
                cards: &EMPTY_PRIMARY,
                numbers: &[],
                bytes: &[],
            },
            Hdu {
                cards: &CUBE_TABLE,
                numbers: &[0, 0, 4, 0, 0, 0, 2, 4, 0, 0, 4, 6, 0, 0, 2, 10],
                bytes: &[1, 2, 3, 4, 5, 6, 7, 8, 9, 10, 11, 12],
            },
        ],
    },
];

/// The grid file: 5 by 3 pixels of 8 bits.
pub(crate) const GRID: [&str; 5] = [
    "SIMPLE  =                    T",
    "BITPIX  =                    8",
    "NAXIS   =                    2",
    "NAXIS1  =                    5",
    "NAXIS2  =                    3",
];

/// The pixels 1 to 15.
pub(crate) const GRID_PIXELS: [u8; 15] = [1, 2, 3, 4, 5, 6, 7, 8, 9, 10, 11, 12, 13, 14, 15];

/// The same in tiles of 2 by 2.
pub(crate) const GRID_TILES: [u8; 15] = [1, 2, 6, 7, 3, 4, 8, 9, 5, 10, 11, 12, 13, 14, 15];

/// The rows of its table: those of the tiles 2 by 2, 2 by 2, 1 by 2, 2 by 1, 2 by 1 and 1 by 1.
pub(crate) const GRID_ROWS: [u32; 24] = [
    0, 0, 4, 0, 0, 0, 4, 4, 0, 0, 2, 8, 0, 0, 2, 10, 0, 0, 2, 12, 0, 0, 1, 14,
];

/// Its table in stored tiles of 2 by 2.
pub(crate) const GRID_TABLE: [&str; 21] = [
    "XTENSION= 'BINTABLE'",
    "BITPIX  =                    8",
    "NAXIS   =                    2",
    "NAXIS1  =                   16",
    "NAXIS2  =                    6",
    "PCOUNT  =                   15",
    "GCOUNT  =                    1",
    "TFIELDS =                    2",
    "TTYPE1  = 'COMPRESSED_DATA'",
    "TFORM1  = '1PB(0)  '",
    "TTYPE2  = 'UNCOMPRESSED_DATA'",
    "TFORM2  = '1PB(4)  '",
    "ZIMAGE  =                    T",
    "ZCMPTYPE= 'NOCOMPRESS'",
    "ZTILE1  =                    2",
    "ZTILE2  =                    2",
    "ZSIMPLE =                    T",
    "ZBITPIX =                    8",
    "ZNAXIS  =                    2",
    "ZNAXIS1 =                    5",
    "ZNAXIS2 =                    3",
];

/// The same with sums, which other means computed.
pub(crate) const GRID_SUMS: [&str; 23] = [
    "XTENSION= 'BINTABLE'",
    "BITPIX  =                    8",
    "NAXIS   =                    2",
    "NAXIS1  =                   16",
    "NAXIS2  =                    6",
    "PCOUNT  =                   15",
    "GCOUNT  =                    1",
    "TFIELDS =                    2",
    "TTYPE1  = 'COMPRESSED_DATA'",
    "TFORM1  = '1PB(0)  '",
    "TTYPE2  = 'UNCOMPRESSED_DATA'",
    "TFORM2  = '1PB(4)  '",
    "ZIMAGE  =                    T",
    "ZCMPTYPE= 'NOCOMPRESS'",
    "ZTILE1  =                    2",
    "ZTILE2  =                    2",
    "ZSIMPLE =                    T",
    "ZBITPIX =                    8",
    "ZNAXIS  =                    2",
    "ZNAXIS1 =                    5",
    "ZNAXIS2 =                    3",
    "DATASUM = '371075163'",
    "CHECKSUM= 'FkBCGjA9FjAAFjA9'",
];

/// The same in one tile.
pub(crate) const GRID_WHOLE: [&str; 21] = [
    "XTENSION= 'BINTABLE'",
    "BITPIX  =                    8",
    "NAXIS   =                    2",
    "NAXIS1  =                   16",
    "NAXIS2  =                    1",
    "PCOUNT  =                   15",
    "GCOUNT  =                    1",
    "TFIELDS =                    2",
    "TTYPE1  = 'COMPRESSED_DATA'",
    "TFORM1  = '1PB(0)  '",
    "TTYPE2  = 'UNCOMPRESSED_DATA'",
    "TFORM2  = '1PB(15) '",
    "ZIMAGE  =                    T",
    "ZCMPTYPE= 'NOCOMPRESS'",
    "ZTILE1  =                    5",
    "ZTILE2  =                    3",
    "ZSIMPLE =                    T",
    "ZBITPIX =                    8",
    "ZNAXIS  =                    2",
    "ZNAXIS1 =                    5",
    "ZNAXIS2 =                    3",
];

/// The same in tiles of 3 by 1.
pub(crate) const GRID_THREES: [&str; 21] = [
    "XTENSION= 'BINTABLE'",
    "BITPIX  =                    8",
    "NAXIS   =                    2",
    "NAXIS1  =                   16",
    "NAXIS2  =                    6",
    "PCOUNT  =                   15",
    "GCOUNT  =                    1",
    "TFIELDS =                    2",
    "TTYPE1  = 'COMPRESSED_DATA'",
    "TFORM1  = '1PB(0)  '",
    "TTYPE2  = 'UNCOMPRESSED_DATA'",
    "TFORM2  = '1PB(3)  '",
    "ZIMAGE  =                    T",
    "ZCMPTYPE= 'NOCOMPRESS'",
    "ZTILE1  =                    3",
    "ZTILE2  =                    1",
    "ZSIMPLE =                    T",
    "ZBITPIX =                    8",
    "ZNAXIS  =                    2",
    "ZNAXIS1 =                    5",
    "ZNAXIS2 =                    3",
];

/// 2 by 3 by 2 pixels.
pub(crate) const CUBE: [&str; 6] = [
    "SIMPLE  =                    T",
    "BITPIX  =                    8",
    "NAXIS   =                    3",
    "NAXIS1  =                    2",
    "NAXIS2  =                    3",
    "NAXIS3  =                    2",
];

/// Its table in tiles of 2 by 2 by 1.
pub(crate) const CUBE_TABLE: [&str; 23] = [
    "XTENSION= 'BINTABLE'",
    "BITPIX  =                    8",
    "NAXIS   =                    2",
    "NAXIS1  =                   16",
    "NAXIS2  =                    4",
    "PCOUNT  =                   12",
    "GCOUNT  =                    1",
    "TFIELDS =                    2",
    "TTYPE1  = 'COMPRESSED_DATA'",
    "TFORM1  = '1PB(0)  '",
    "TTYPE2  = 'UNCOMPRESSED_DATA'",
    "TFORM2  = '1PB(4)  '",
    "ZIMAGE  =                    T",
    "ZCMPTYPE= 'NOCOMPRESS'",
    "ZTILE1  =                    2",
    "ZTILE2  =                    2",
    "ZTILE3  =                    1",
    "ZSIMPLE =                    T",
    "ZBITPIX =                    8",
    "ZNAXIS  =                    3",
    "ZNAXIS1 =                    2",
    "ZNAXIS2 =                    3",
    "ZNAXIS3 =                    2",
];

/// The grid file, packed in stored tiles of 2 by 2.
pub(crate) const GRID_PACKED: [Hdu<'static>; 2] = [
    EMPTY_PRIMARY_HDU,
    Hdu {
        cards: &GRID_TABLE,
        numbers: &GRID_ROWS,
        bytes: &GRID_TILES,
    },
];
