//! Tiles and their records, and what they are packed into.
use crate::tests::files::{Case, Hdu};
use crate::tests::small::{EMPTY_PRIMARY, EMPTY_PRIMARY_HDU};

/// Images of one tile: with every codec, of every size of a pixel, as codes and stored.
pub(crate) static CASES: [Case<'static>; 12] = [
    // Rice at 16 bits: 1000, 1000, 1003
    Case {
        options: &[],
        plain: &[Hdu {
            cards: &LINE,
            numbers: &[],
            bytes: &[3, 232, 3, 232, 3, 235],
        }],
        packed: &[
            Hdu {
                cards: &EMPTY_PRIMARY,
                numbers: &[],
                bytes: &[],
            },
            Hdu {
                cards: &LINE_TABLE,
                numbers: &[4, 0, 0, 0],
                bytes: &[3, 232, 28, 8],
            },
        ],
    },
    // Rice at 32 bits: four times 5
    Case {
        options: &[],
        plain: &[Hdu {
            cards: &FIVES,
            numbers: &[5, 5, 5, 5],
            bytes: &[],
        }],
        packed: &[
            Hdu {
                cards: &EMPTY_PRIMARY,
                numbers: &[],
                bytes: &[],
            },
            Hdu {
                cards: &FIVES_TABLE,
                numbers: &[5, 0, 0, 0],
                bytes: &[0, 0, 0, 5, 0],
            },
        ],
    },
    // Rice at 8 bits: differences wrap
    Case {
        options: &[],
        plain: &[Hdu {
            cards: &OCTETS,
            numbers: &[],
            bytes: &[0, 255, 0, 255],
        }],
        packed: &[
            Hdu {
                cards: &EMPTY_PRIMARY,
                numbers: &[],
                bytes: &[],
            },
            Hdu {
                cards: &OCTETS_TABLE,
                numbers: &[3, 0, 0, 0],
                bytes: &[0, 52, 160],
            },
        ],
    },
    // a code that is not shorter than the pixels is not taken: 0, -32768
    Case {
        options: &[],
        plain: &[Hdu {
            cards: &PAIR,
            numbers: &[],
            bytes: &[0, 0, 128, 0],
        }],
        packed: &[
            Hdu {
                cards: &EMPTY_PRIMARY,
                numbers: &[],
                bytes: &[],
            },
            Hdu {
                cards: &PAIR_TABLE,
                numbers: &[0, 0, 2, 0],
                bytes: &[0, 0, 128, 0],
            },
        ],
    },
    // Rice at 16 bits: -32768, 32767
    Case {
        options: &[],
        plain: &[Hdu {
            cards: &PAIR,
            numbers: &[],
            bytes: &[128, 0, 127, 255],
        }],
        packed: &[
            Hdu {
                cards: &EMPTY_PRIMARY,
                numbers: &[],
                bytes: &[],
            },
            Hdu {
                cards: &PAIR_CODED,
                numbers: &[3, 0, 0, 0],
                bytes: &[128, 0, 26],
            },
        ],
    },
    // a code of the same length is not taken
    Case {
        options: &[],
        plain: &[Hdu {
            cards: &ONE,
            numbers: &[],
            bytes: &[7],
        }],
        packed: &[
            Hdu {
                cards: &EMPTY_PRIMARY,
                numbers: &[],
                bytes: &[],
            },
            Hdu {
                cards: &ONE_TABLE,
                numbers: &[0, 0, 1, 0],
                bytes: &[7],
            },
        ],
    },
    // a line list: counts are in words
    Case {
        options: &["--codec", "plio"],
        plain: &[Hdu {
            cards: &HUNDRED,
            numbers: &HUNDRED_FIVES,
            bytes: &[],
        }],
        packed: &[
            Hdu {
                cards: &EMPTY_PRIMARY,
                numbers: &[],
                bytes: &[],
            },
            Hdu {
                cards: &HUNDRED_TABLE,
                numbers: &[9, 0, 0, 0],
                bytes: &[0, 0, 0, 7, 255, 156, 0, 9, 0, 0, 0, 0, 0, 0, 32, 4, 64, 100],
            },
        ],
    },
    // a line list that is not shorter is not taken
    Case {
        options: &["--codec", "plio"],
        plain: &[Hdu {
            cards: &FEW,
            numbers: &[],
            bytes: &[0, 0, 0, 0, 0, 5, 0, 5, 0, 0],
        }],
        packed: &[
            Hdu {
                cards: &EMPTY_PRIMARY,
                numbers: &[],
                bytes: &[],
            },
            Hdu {
                cards: &FEW_TABLE,
                numbers: &[0, 0, 5, 0],
                bytes: &[0, 0, 0, 0, 0, 5, 0, 5, 0, 0],
            },
        ],
    },
    // a negative number has no line list
    Case {
        options: &["--codec", "plio"],
        plain: &[Hdu {
            cards: &HUNDRED,
            numbers: &[],
            bytes: &HUNDRED_ONES,
        }],
        packed: &[
            Hdu {
                cards: &EMPTY_PRIMARY,
                numbers: &[],
                bytes: &[],
            },
            Hdu {
                cards: &HUNDRED_STORED,
                numbers: &[0, 0, 100, 0],
                bytes: &HUNDRED_ONES,
            },
        ],
    },
    // 64 bits are stored
    Case {
        options: &["--codec", "rice"],
        plain: &[Hdu {
            cards: &LONGS,
            numbers: &[],
            bytes: &[
                0, 0, 1, 0, 0, 0, 0, 0, 255, 255, 255, 255, 255, 255, 255, 255,
            ],
        }],
        packed: &[
            Hdu {
                cards: &EMPTY_PRIMARY,
                numbers: &[],
                bytes: &[],
            },
            Hdu {
                cards: &LONGS_TABLE,
                numbers: &[0, 0, 2, 0],
                bytes: &[
                    0, 0, 1, 0, 0, 0, 0, 0, 255, 255, 255, 255, 255, 255, 255, 255,
                ],
            },
        ],
    },
    // 64 bits are stored
    Case {
        options: &["--codec", "plio"],
        plain: &[Hdu {
            cards: &LONGS,
            numbers: &[],
            bytes: &[
                0, 0, 1, 0, 0, 0, 0, 0, 255, 255, 255, 255, 255, 255, 255, 255,
            ],
        }],
        packed: &[
            Hdu {
                cards: &EMPTY_PRIMARY,
                numbers: &[],
                bytes: &[],
            },
            Hdu {
                cards: &LONGS_TABLE,
                numbers: &[0, 0, 2, 0],
                bytes: &[
                    0, 0, 1, 0, 0, 0, 0, 0, 255, 255, 255, 255, 255, 255, 255, 255,
                ],
            },
        ],
    },
    // 64 bits are stored
    Case {
        options: &["--codec", "none"],
        plain: &[Hdu {
            cards: &LONGS,
            numbers: &[],
            bytes: &[
                0, 0, 1, 0, 0, 0, 0, 0, 255, 255, 255, 255, 255, 255, 255, 255,
            ],
        }],
        packed: &[
            Hdu {
                cards: &EMPTY_PRIMARY,
                numbers: &[],
                bytes: &[],
            },
            Hdu {
                cards: &LONGS_TABLE,
                numbers: &[0, 0, 2, 0],
                bytes: &[
                    0, 0, 1, 0, 0, 0, 0, 0, 255, 255, 255, 255, 255, 255, 255, 255,
                ],
            },
        ],
    },
];

/// Three pixels of 16 bits.
pub(crate) const LINE: [&str; 4] = [
    "SIMPLE  =                    T",
    "BITPIX  =                   16",
    "NAXIS   =                    1",
    "NAXIS1  =                    3",
];

/// Their table in a Rice code.
pub(crate) const LINE_TABLE: [&str; 23] = [
    "XTENSION= 'BINTABLE'",
    "BITPIX  =                    8",
    "NAXIS   =                    2",
    "NAXIS1  =                   16",
    "NAXIS2  =                    1",
    "PCOUNT  =                    4",
    "GCOUNT  =                    1",
    "TFIELDS =                    2",
    "TTYPE1  = 'COMPRESSED_DATA'",
    "TFORM1  = '1PB(4)  '",
    "TTYPE2  = 'UNCOMPRESSED_DATA'",
    "TFORM2  = '1PI(0)  '",
    "ZIMAGE  =                    T",
    "ZCMPTYPE= 'RICE_1  '",
    "ZTILE1  =                    3",
    "ZNAME1  = 'BLOCKSIZE'",
    "ZVAL1   =                   32",
    "ZNAME2  = 'BYTEPIX '",
    "ZVAL2   =                    2",
    "ZSIMPLE =                    T",
    "ZBITPIX =                   16",
    "ZNAXIS  =                    1",
    "ZNAXIS1 =                    3",
];

/// Four pixels of 32 bits.
pub(crate) const FIVES: [&str; 4] = [
    "SIMPLE  =                    T",
    "BITPIX  =                   32",
    "NAXIS   =                    1",
    "NAXIS1  =                    4",
];

/// Their table in a Rice code.
pub(crate) const FIVES_TABLE: [&str; 23] = [
    "XTENSION= 'BINTABLE'",
    "BITPIX  =                    8",
    "NAXIS   =                    2",
    "NAXIS1  =                   16",
    "NAXIS2  =                    1",
    "PCOUNT  =                    5",
    "GCOUNT  =                    1",
    "TFIELDS =                    2",
    "TTYPE1  = 'COMPRESSED_DATA'",
    "TFORM1  = '1PB(5)  '",
    "TTYPE2  = 'UNCOMPRESSED_DATA'",
    "TFORM2  = '1PJ(0)  '",
    "ZIMAGE  =                    T",
    "ZCMPTYPE= 'RICE_1  '",
    "ZTILE1  =                    4",
    "ZNAME1  = 'BLOCKSIZE'",
    "ZVAL1   =                   32",
    "ZNAME2  = 'BYTEPIX '",
    "ZVAL2   =                    4",
    "ZSIMPLE =                    T",
    "ZBITPIX =                   32",
    "ZNAXIS  =                    1",
    "ZNAXIS1 =                    4",
];

/// Four pixels of 8 bits.
pub(crate) const OCTETS: [&str; 4] = [
    "SIMPLE  =                    T",
    "BITPIX  =                    8",
    "NAXIS   =                    1",
    "NAXIS1  =                    4",
];

/// Their table in a Rice code.
pub(crate) const OCTETS_TABLE: [&str; 23] = [
    "XTENSION= 'BINTABLE'",
    "BITPIX  =                    8",
    "NAXIS   =                    2",
    "NAXIS1  =                   16",
    "NAXIS2  =                    1",
    "PCOUNT  =                    3",
    "GCOUNT  =                    1",
    "TFIELDS =                    2",
    "TTYPE1  = 'COMPRESSED_DATA'",
    "TFORM1  = '1PB(3)  '",
    "TTYPE2  = 'UNCOMPRESSED_DATA'",
    "TFORM2  = '1PB(0)  '",
    "ZIMAGE  =                    T",
    "ZCMPTYPE= 'RICE_1  '",
    "ZTILE1  =                    4",
    "ZNAME1  = 'BLOCKSIZE'",
    "ZVAL1   =                   32",
    "ZNAME2  = 'BYTEPIX '",
    "ZVAL2   =                    1",
    "ZSIMPLE =                    T",
    "ZBITPIX =                    8",
    "ZNAXIS  =                    1",
    "ZNAXIS1 =                    4",
];

/// Two pixels of 16 bits.
pub(crate) const PAIR: [&str; 4] = [
    "SIMPLE  =                    T",
    "BITPIX  =                   16",
    "NAXIS   =                    1",
    "NAXIS1  =                    2",
];

/// Their table, whose tile is stored under RICE_1.
pub(crate) const PAIR_TABLE: [&str; 23] = [
    "XTENSION= 'BINTABLE'",
    "BITPIX  =                    8",
    "NAXIS   =                    2",
    "NAXIS1  =                   16",
    "NAXIS2  =                    1",
    "PCOUNT  =                    4",
    "GCOUNT  =                    1",
    "TFIELDS =                    2",
    "TTYPE1  = 'COMPRESSED_DATA'",
    "TFORM1  = '1PB(0)  '",
    "TTYPE2  = 'UNCOMPRESSED_DATA'",
    "TFORM2  = '1PI(2)  '",
    "ZIMAGE  =                    T",
    "ZCMPTYPE= 'RICE_1  '",
    "ZTILE1  =                    2",
    "ZNAME1  = 'BLOCKSIZE'",
    "ZVAL1   =                   32",
    "ZNAME2  = 'BYTEPIX '",
    "ZVAL2   =                    2",
    "ZSIMPLE =                    T",
    "ZBITPIX =                   16",
    "ZNAXIS  =                    1",
    "ZNAXIS1 =                    2",
];

/// Their table in a Rice code.
pub(crate) const PAIR_CODED: [&str; 23] = [
    "XTENSION= 'BINTABLE'",
    "BITPIX  =                    8",
    "NAXIS   =                    2",
    "NAXIS1  =                   16",
    "NAXIS2  =                    1",
    "PCOUNT  =                    3",
    "GCOUNT  =                    1",
    "TFIELDS =                    2",
    "TTYPE1  = 'COMPRESSED_DATA'",
    "TFORM1  = '1PB(3)  '",
    "TTYPE2  = 'UNCOMPRESSED_DATA'",
    "TFORM2  = '1PI(0)  '",
    "ZIMAGE  =                    T",
    "ZCMPTYPE= 'RICE_1  '",
    "ZTILE1  =                    2",
    "ZNAME1  = 'BLOCKSIZE'",
    "ZVAL1   =                   32",
    "ZNAME2  = 'BYTEPIX '",
    "ZVAL2   =                    2",
    "ZSIMPLE =                    T",
    "ZBITPIX =                   16",
    "ZNAXIS  =                    1",
    "ZNAXIS1 =                    2",
];

/// One pixel of 8 bits.
pub(crate) const ONE: [&str; 4] = [
    "SIMPLE  =                    T",
    "BITPIX  =                    8",
    "NAXIS   =                    1",
    "NAXIS1  =                    1",
];

/// Its table.
pub(crate) const ONE_TABLE: [&str; 23] = [
    "XTENSION= 'BINTABLE'",
    "BITPIX  =                    8",
    "NAXIS   =                    2",
    "NAXIS1  =                   16",
    "NAXIS2  =                    1",
    "PCOUNT  =                    1",
    "GCOUNT  =                    1",
    "TFIELDS =                    2",
    "TTYPE1  = 'COMPRESSED_DATA'",
    "TFORM1  = '1PB(0)  '",
    "TTYPE2  = 'UNCOMPRESSED_DATA'",
    "TFORM2  = '1PB(1)  '",
    "ZIMAGE  =                    T",
    "ZCMPTYPE= 'RICE_1  '",
    "ZTILE1  =                    1",
    "ZNAME1  = 'BLOCKSIZE'",
    "ZVAL1   =                   32",
    "ZNAME2  = 'BYTEPIX '",
    "ZVAL2   =                    1",
    "ZSIMPLE =                    T",
    "ZBITPIX =                    8",
    "ZNAXIS  =                    1",
    "ZNAXIS1 =                    1",
];

/// 100 pixels of 16 bits.
pub(crate) const HUNDRED: [&str; 4] = [
    "SIMPLE  =                    T",
    "BITPIX  =                   16",
    "NAXIS   =                    1",
    "NAXIS1  =                  100",
];

/// Their table in a line list.
pub(crate) const HUNDRED_TABLE: [&str; 19] = [
    "XTENSION= 'BINTABLE'",
    "BITPIX  =                    8",
    "NAXIS   =                    2",
    "NAXIS1  =                   16",
    "NAXIS2  =                    1",
    "PCOUNT  =                   18",
    "GCOUNT  =                    1",
    "TFIELDS =                    2",
    "TTYPE1  = 'COMPRESSED_DATA'",
    "TFORM1  = '1PI(9)  '",
    "TTYPE2  = 'UNCOMPRESSED_DATA'",
    "TFORM2  = '1PI(0)  '",
    "ZIMAGE  =                    T",
    "ZCMPTYPE= 'PLIO_1  '",
    "ZTILE1  =                  100",
    "ZSIMPLE =                    T",
    "ZBITPIX =                   16",
    "ZNAXIS  =                    1",
    "ZNAXIS1 =                  100",
];

/// 100 times the pixel 5.
pub(crate) const HUNDRED_FIVES: [u32; 50] = [0x0005_0005; 50];

/// Five pixels of 16 bits.
pub(crate) const FEW: [&str; 4] = [
    "SIMPLE  =                    T",
    "BITPIX  =                   16",
    "NAXIS   =                    1",
    "NAXIS1  =                    5",
];

/// Their table, whose tile is stored under PLIO_1.
pub(crate) const FEW_TABLE: [&str; 19] = [
    "XTENSION= 'BINTABLE'",
    "BITPIX  =                    8",
    "NAXIS   =                    2",
    "NAXIS1  =                   16",
    "NAXIS2  =                    1",
    "PCOUNT  =                   10",
    "GCOUNT  =                    1",
    "TFIELDS =                    2",
    "TTYPE1  = 'COMPRESSED_DATA'",
    "TFORM1  = '1PI(0)  '",
    "TTYPE2  = 'UNCOMPRESSED_DATA'",
    "TFORM2  = '1PI(5)  '",
    "ZIMAGE  =                    T",
    "ZCMPTYPE= 'PLIO_1  '",
    "ZTILE1  =                    5",
    "ZSIMPLE =                    T",
    "ZBITPIX =                   16",
    "ZNAXIS  =                    1",
    "ZNAXIS1 =                    5",
];

/// The 100 pixels stored under PLIO_1.
pub(crate) const HUNDRED_STORED: [&str; 19] = [
    "XTENSION= 'BINTABLE'",
    "BITPIX  =                    8",
    "NAXIS   =                    2",
    "NAXIS1  =                   16",
    "NAXIS2  =                    1",
    "PCOUNT  =                  200",
    "GCOUNT  =                    1",
    "TFIELDS =                    2",
    "TTYPE1  = 'COMPRESSED_DATA'",
    "TFORM1  = '1PI(0)  '",
    "TTYPE2  = 'UNCOMPRESSED_DATA'",
    "TFORM2  = '1PI(100)'",
    "ZIMAGE  =                    T",
    "ZCMPTYPE= 'PLIO_1  '",
    "ZTILE1  =                  100",
    "ZSIMPLE =                    T",
    "ZBITPIX =                   16",
    "ZNAXIS  =                    1",
    "ZNAXIS1 =                  100",
];

/// 100 times the pixel -1.
pub(crate) const HUNDRED_ONES: [u8; 200] = [255; 200];

/// Two pixels of 64 bits.
pub(crate) const LONGS: [&str; 4] = [
    "SIMPLE  =                    T",
    "BITPIX  =                   64",
    "NAXIS   =                    1",
    "NAXIS1  =                    2",
];

/// Their table, which has stored tiles whatever the codec.
pub(crate) const LONGS_TABLE: [&str; 19] = [
    "XTENSION= 'BINTABLE'",
    "BITPIX  =                    8",
    "NAXIS   =                    2",
    "NAXIS1  =                   16",
    "NAXIS2  =                    1",
    "PCOUNT  =                   16",
    "GCOUNT  =                    1",
    "TFIELDS =                    2",
    "TTYPE1  = 'COMPRESSED_DATA'",
    "TFORM1  = '1PB(0)  '",
    "TTYPE2  = 'UNCOMPRESSED_DATA'",
    "TFORM2  = '1PK(2)  '",
    "ZIMAGE  =                    T",
    "ZCMPTYPE= 'NOCOMPRESS'",
    "ZTILE1  =                    2",
    "ZSIMPLE =                    T",
    "ZBITPIX =                   64",
    "ZNAXIS  =                    1",
    "ZNAXIS1 =                    2",
];

/// Two pixels of 64 bits, packed.
pub(crate) const LONGS_PACKED: [Hdu<'static>; 2] = [
    EMPTY_PRIMARY_HDU,
    Hdu {
        cards: &LONGS_TABLE,
        numbers: &[0, 0, 2, 0],
        bytes: &[
            0, 0, 1, 0, 0, 0, 0, 0, 255, 255, 255, 255, 255, 255, 255, 255,
        ],
    },
];
