//! The small file, and what it is packed into.
use crate::tests::files::{Case, Hdu};

/// The small file, packed with several options.
pub(crate) static CASES: [Case<'static>; 5] = [
    // rows as tiles, in Rice codes
    Case {
        options: &[],
        plain: &[Hdu {
            cards: &SMALL,
            numbers: &[],
            bytes: &SMALL_PIXELS,
        }],
        packed: &[
            Hdu {
                cards: &EMPTY_PRIMARY,
                numbers: &[],
                bytes: &[],
            },
            Hdu {
                cards: &SMALL_TABLE,
                numbers: &SMALL_ROWS,
                bytes: &SMALL_CODES,
            },
        ],
    },
    // the same, with each default given
    Case {
        options: &["--codec=rice", "--tile", "4,1", "--block", "32"],
        plain: &[Hdu {
            cards: &SMALL,
            numbers: &[],
            bytes: &SMALL_PIXELS,
        }],
        packed: &[
            Hdu {
                cards: &EMPTY_PRIMARY,
                numbers: &[],
                bytes: &[],
            },
            Hdu {
                cards: &SMALL_TABLE,
                numbers: &SMALL_ROWS,
                bytes: &SMALL_CODES,
            },
        ],
    },
    // stored tiles
    Case {
        options: &["--codec", "none"],
        plain: &[Hdu {
            cards: &SMALL,
            numbers: &[],
            bytes: &SMALL_PIXELS,
        }],
        packed: &[
            Hdu {
                cards: &EMPTY_PRIMARY,
                numbers: &[],
                bytes: &[],
            },
            Hdu {
                cards: &SMALL_STORED,
                numbers: &[0, 0, 4, 0, 0, 0, 4, 8],
                bytes: &SMALL_PIXELS,
            },
        ],
    },
    // sums
    Case {
        options: &["--sums"],
        plain: &[Hdu {
            cards: &SMALL,
            numbers: &[],
            bytes: &SMALL_PIXELS,
        }],
        packed: &[
            Hdu {
                cards: &EMPTY_PRIMARY,
                numbers: &[],
                bytes: &[],
            },
            Hdu {
                cards: &SMALL_SUMS,
                numbers: &SMALL_ROWS,
                bytes: &SMALL_CODES,
            },
        ],
    },
    // blocks of two: the ids of both have k = 0
    Case {
        options: &["--block", "2"],
        plain: &[Hdu {
            cards: &SMALL,
            numbers: &[],
            bytes: &SMALL_PIXELS,
        }],
        packed: &[
            Hdu {
                cards: &EMPTY_PRIMARY,
                numbers: &[],
                bytes: &[],
            },
            Hdu {
                cards: &SMALL_TWOS,
                numbers: &[5, 0, 0, 0, 5, 5, 0, 0],
                bytes: &[0, 0, 25, 20, 128, 0, 0, 25, 20, 128],
            },
        ],
    },
];

/// The primary that is before the table of a primary image.
pub(crate) const EMPTY_PRIMARY: [&str; 4] = [
    "SIMPLE  =                    T",
    "BITPIX  =                    8",
    "NAXIS   =                    0",
    "EXTEND  =                    T",
];

/// The small file: 4 by 2 pixels of 16 bits.
pub(crate) const SMALL: [&str; 5] = [
    "SIMPLE  =                    T",
    "BITPIX  =                   16",
    "NAXIS   =                    2",
    "NAXIS1  =                    4",
    "NAXIS2  =                    2",
];

/// Its table in Rice codes.
pub(crate) const SMALL_TABLE: [&str; 25] = [
    "XTENSION= 'BINTABLE'",
    "BITPIX  =                    8",
    "NAXIS   =                    2",
    "NAXIS1  =                   16",
    "NAXIS2  =                    2",
    "PCOUNT  =                    8",
    "GCOUNT  =                    1",
    "TFIELDS =                    2",
    "TTYPE1  = 'COMPRESSED_DATA'",
    "TFORM1  = '1PB(4)  '",
    "TTYPE2  = 'UNCOMPRESSED_DATA'",
    "TFORM2  = '1PI(0)  '",
    "ZIMAGE  =                    T",
    "ZCMPTYPE= 'RICE_1  '",
    "ZTILE1  =                    4",
    "ZTILE2  =                    1",
    "ZNAME1  = 'BLOCKSIZE'",
    "ZVAL1   =                   32",
    "ZNAME2  = 'BYTEPIX '",
    "ZVAL2   =                    2",
    "ZSIMPLE =                    T",
    "ZBITPIX =                   16",
    "ZNAXIS  =                    2",
    "ZNAXIS1 =                    4",
    "ZNAXIS2 =                    2",
];

/// Its table in stored tiles.
pub(crate) const SMALL_STORED: [&str; 21] = [
    "XTENSION= 'BINTABLE'",
    "BITPIX  =                    8",
    "NAXIS   =                    2",
    "NAXIS1  =                   16",
    "NAXIS2  =                    2",
    "PCOUNT  =                   16",
    "GCOUNT  =                    1",
    "TFIELDS =                    2",
    "TTYPE1  = 'COMPRESSED_DATA'",
    "TFORM1  = '1PB(0)  '",
    "TTYPE2  = 'UNCOMPRESSED_DATA'",
    "TFORM2  = '1PI(4)  '",
    "ZIMAGE  =                    T",
    "ZCMPTYPE= 'NOCOMPRESS'",
    "ZTILE1  =                    4",
    "ZTILE2  =                    1",
    "ZSIMPLE =                    T",
    "ZBITPIX =                   16",
    "ZNAXIS  =                    2",
    "ZNAXIS1 =                    4",
    "ZNAXIS2 =                    2",
];

/// Its table in Rice codes with sums, which other means computed.
pub(crate) const SMALL_SUMS: [&str; 27] = [
    "XTENSION= 'BINTABLE'",
    "BITPIX  =                    8",
    "NAXIS   =                    2",
    "NAXIS1  =                   16",
    "NAXIS2  =                    2",
    "PCOUNT  =                    8",
    "GCOUNT  =                    1",
    "TFIELDS =                    2",
    "TTYPE1  = 'COMPRESSED_DATA'",
    "TFORM1  = '1PB(4)  '",
    "TTYPE2  = 'UNCOMPRESSED_DATA'",
    "TFORM2  = '1PI(0)  '",
    "ZIMAGE  =                    T",
    "ZCMPTYPE= 'RICE_1  '",
    "ZTILE1  =                    4",
    "ZTILE2  =                    1",
    "ZNAME1  = 'BLOCKSIZE'",
    "ZVAL1   =                   32",
    "ZNAME2  = 'BYTEPIX '",
    "ZVAL2   =                    2",
    "ZSIMPLE =                    T",
    "ZBITPIX =                   16",
    "ZNAXIS  =                    2",
    "ZNAXIS1 =                    4",
    "ZNAXIS2 =                    2",
    "DATASUM = '12956   '",
    "CHECKSUM= 'ZfeGfdcEZdcEddcE'",
];

/// Two rows of the pixels 0, 1, 0, 1.
pub(crate) const SMALL_PIXELS: [u8; 16] = [0, 0, 0, 1, 0, 0, 0, 1, 0, 0, 0, 1, 0, 0, 0, 1];

/// The Rice code of each row: the start value, the id of a block with k = 0, and the mapped differences 0, 2, 1, 2.
pub(crate) const SMALL_CODES: [u8; 8] = [0, 0, 0x19, 0x48, 0, 0, 0x19, 0x48];

/// The numbers of both rows of its table in Rice codes.
pub(crate) const SMALL_ROWS: [u32; 8] = [4, 0, 0, 0, 4, 4, 0, 0];

/// The small file.
pub(crate) const SMALL_FILE: Hdu<'static> = Hdu {
    cards: &SMALL,
    numbers: &[],
    bytes: &SMALL_PIXELS,
};

/// The empty primary.
pub(crate) const EMPTY_PRIMARY_HDU: Hdu<'static> = Hdu {
    cards: &EMPTY_PRIMARY,
    numbers: &[],
    bytes: &[],
};

/// The table of the small file in Rice codes.
pub(crate) const SMALL_PACKED: Hdu<'static> = Hdu {
    cards: &SMALL_TABLE,
    numbers: &SMALL_ROWS,
    bytes: &SMALL_CODES,
};

/// Its table in Rice codes of blocks of two numbers.
pub(crate) const SMALL_TWOS: [&str; 25] = [
    "XTENSION= 'BINTABLE'",
    "BITPIX  =                    8",
    "NAXIS   =                    2",
    "NAXIS1  =                   16",
    "NAXIS2  =                    2",
    "PCOUNT  =                   10",
    "GCOUNT  =                    1",
    "TFIELDS =                    2",
    "TTYPE1  = 'COMPRESSED_DATA'",
    "TFORM1  = '1PB(5)  '",
    "TTYPE2  = 'UNCOMPRESSED_DATA'",
    "TFORM2  = '1PI(0)  '",
    "ZIMAGE  =                    T",
    "ZCMPTYPE= 'RICE_1  '",
    "ZTILE1  =                    4",
    "ZTILE2  =                    1",
    "ZNAME1  = 'BLOCKSIZE'",
    "ZVAL1   =                    2",
    "ZNAME2  = 'BYTEPIX '",
    "ZVAL2   =                    2",
    "ZSIMPLE =                    T",
    "ZBITPIX =                   16",
    "ZNAXIS  =                    2",
    "ZNAXIS1 =                    4",
    "ZNAXIS2 =                    2",
];

/// The small file, packed in Rice codes.
pub(crate) const SMALL_PACKED_FILE: [Hdu<'static>; 2] = [EMPTY_PRIMARY_HDU, SMALL_PACKED];
