//! Headers and files of many HDUs, and what they are packed into.
use crate::tests::files::{Case, Hdu};
use crate::tests::small::{
    EMPTY_PRIMARY, SMALL, SMALL_CODES, SMALL_PIXELS, SMALL_ROWS, SMALL_TABLE,
};

/// Files whose headers have cards of other names, and files of many HDUs.
pub(crate) static CASES: [Case<'static>; 4] = [
    // the names of cards of the image
    Case {
        options: &[],
        plain: &[Hdu {
            cards: &FULL,
            numbers: &[],
            bytes: &SMALL_PIXELS,
        }],
        packed: &[
            Hdu {
                cards: &EMPTY_PRIMARY,
                numbers: &[],
                bytes: &[],
            },
            Hdu {
                cards: &FULL_TABLE,
                numbers: &SMALL_ROWS,
                bytes: &SMALL_CODES,
            },
        ],
    },
    // two images in extensions; the primary and the table are copied
    Case {
        options: &[],
        plain: &[
            Hdu {
                cards: &NO_IMAGE,
                numbers: &[],
                bytes: &[],
            },
            Hdu {
                cards: &FIRST,
                numbers: &[],
                bytes: &SMALL_PIXELS,
            },
            Hdu {
                cards: &SECOND,
                numbers: &[],
                bytes: &[0, 255, 0, 255],
            },
            Hdu {
                cards: &PLAIN_TABLE,
                numbers: &[1, 2],
                bytes: &[1, 2, 3],
            },
        ],
        packed: &[
            Hdu {
                cards: &NO_IMAGE,
                numbers: &[],
                bytes: &[],
            },
            Hdu {
                cards: &FIRST_TABLE,
                numbers: &SMALL_ROWS,
                bytes: &SMALL_CODES,
            },
            Hdu {
                cards: &SECOND_TABLE,
                numbers: &[3, 0, 0, 0],
                bytes: &[0, 52, 160],
            },
            Hdu {
                cards: &PLAIN_TABLE,
                numbers: &[1, 2],
                bytes: &[1, 2, 3],
            },
        ],
    },
    // a primary image, and after it HDUs that are copied and one that is packed
    Case {
        options: &[],
        plain: &[
            Hdu {
                cards: &SMALL,
                numbers: &[],
                bytes: &SMALL_PIXELS,
            },
            Hdu {
                cards: &FLOATS,
                numbers: &[1065353216, 4294967295],
                bytes: &[],
            },
            Hdu {
                cards: &NOTHING,
                numbers: &[],
                bytes: &[],
            },
            Hdu {
                cards: &EXTRA,
                numbers: &[],
                bytes: &[0, 255, 0, 255, 1, 2],
            },
            Hdu {
                cards: &OTHER,
                numbers: &[],
                bytes: &[1, 2, 3, 4, 5, 6],
            },
            Hdu {
                cards: &SECOND,
                numbers: &[],
                bytes: &[0, 255, 0, 255],
            },
        ],
        packed: &[
            Hdu {
                cards: &EMPTY_PRIMARY,
                numbers: &[],
                bytes: &[],
            },
            Hdu {
                cards: &SMALL_TABLE,
                numbers: &SMALL_ROWS,
                bytes: &SMALL_CODES,
            },
            Hdu {
                cards: &FLOATS,
                numbers: &[1065353216, 4294967295],
                bytes: &[],
            },
            Hdu {
                cards: &NOTHING,
                numbers: &[],
                bytes: &[],
            },
            Hdu {
                cards: &EXTRA,
                numbers: &[],
                bytes: &[0, 255, 0, 255, 1, 2],
            },
            Hdu {
                cards: &OTHER,
                numbers: &[],
                bytes: &[1, 2, 3, 4, 5, 6],
            },
            Hdu {
                cards: &SECOND_TABLE,
                numbers: &[3, 0, 0, 0],
                bytes: &[0, 52, 160],
            },
        ],
    },
    // a file without an image that can be packed is copied
    Case {
        options: &["--sums", "--codec", "plio"],
        plain: &[
            Hdu {
                cards: &FLOAT_PRIMARY,
                numbers: &[2146435072, 1],
                bytes: &[],
            },
            Hdu {
                cards: &PLAIN_TABLE,
                numbers: &[1, 2],
                bytes: &[1, 2, 3],
            },
        ],
        packed: &[
            Hdu {
                cards: &FLOAT_PRIMARY,
                numbers: &[2146435072, 1],
                bytes: &[],
            },
            Hdu {
                cards: &PLAIN_TABLE,
                numbers: &[1, 2],
                bytes: &[1, 2, 3],
            },
        ],
    },
];

/// The small file with further cards; those of sums are of another time.
pub(crate) const FULL: [&str; 15] = [
    "SIMPLE  =                    T",
    "BITPIX  =                   16",
    "NAXIS   =                    2",
    "NAXIS1  =                    4",
    "NAXIS2  =                    2",
    "BLOCKED =                    F",
    "PCOUNT  =                    7 / no matter in a primary",
    "OBJECT  = 'it''s a star'        / name",
    "EXTEND  =                    T / more HDUs may follow",
    "HISTORY made by hand",
    "",
    "COMMENT DATASUM and CHECKSUM are those of the plain file",
    "NAXIS01 =                    9",
    "CHECKSUM= 'hcHjjc9ghcEghc9g'   / HDU checksum",
    "DATASUM = '868229149'          / data checksum",
];

/// Its table: nine names are others, and each card keeps all after its name.
pub(crate) const FULL_TABLE: [&str; 35] = [
    "XTENSION= 'BINTABLE'",
    "BITPIX  =                    8",
    "NAXIS   =                    2",
    "NAXIS1  =                   16",
    "NAXIS2  =                    2",
    "PCOUNT  =                    8",
    "GCOUNT  =                    1",
    "TFIELDS =                    2",
    "TTYPE1  = 'COMPRESSED_DATA'",
    "TFORM1  = '1PB(4)  '",
    "TTYPE2  = 'UNCOMPRESSED_DATA'",
    "TFORM2  = '1PI(0)  '",
    "ZIMAGE  =                    T",
    "ZCMPTYPE= 'RICE_1  '",
    "ZTILE1  =                    4",
    "ZTILE2  =                    1",
    "ZNAME1  = 'BLOCKSIZE'",
    "ZVAL1   =                   32",
    "ZNAME2  = 'BYTEPIX '",
    "ZVAL2   =                    2",
    "ZSIMPLE =                    T",
    "ZBITPIX =                   16",
    "ZNAXIS  =                    2",
    "ZNAXIS1 =                    4",
    "ZNAXIS2 =                    2",
    "ZBLOCKED=                    F",
    "ZPCOUNT =                    7 / no matter in a primary",
    "OBJECT  = 'it''s a star'        / name",
    "ZEXTEND =                    T / more HDUs may follow",
    "HISTORY made by hand",
    "",
    "COMMENT DATASUM and CHECKSUM are those of the plain file",
    "NAXIS01 =                    9",
    "ZHECKSUM= 'hcHjjc9ghcEghc9g'   / HDU checksum",
    "ZDATASUM= '868229149'          / data checksum",
];

/// A primary without data.
pub(crate) const NO_IMAGE: [&str; 5] = [
    "SIMPLE  =                    T",
    "BITPIX  =                   16",
    "NAXIS   =                    0",
    "EXTEND  =                    T",
    "ORIGIN  = 'by hand '",
];

/// An image extension.
pub(crate) const FIRST: [&str; 9] = [
    "XTENSION= 'IMAGE   '",
    "BITPIX  =                   16",
    "NAXIS   =                    2",
    "NAXIS1  =                    4",
    "NAXIS2  =                    2",
    "PCOUNT  =                    0",
    "GCOUNT  =                    1",
    "EXTNAME = 'FIRST   '",
    "GROUPS  =                    F",
];

/// Its table.
pub(crate) const FIRST_TABLE: [&str; 29] = [
    "XTENSION= 'BINTABLE'",
    "BITPIX  =                    8",
    "NAXIS   =                    2",
    "NAXIS1  =                   16",
    "NAXIS2  =                    2",
    "PCOUNT  =                    8",
    "GCOUNT  =                    1",
    "TFIELDS =                    2",
    "TTYPE1  = 'COMPRESSED_DATA'",
    "TFORM1  = '1PB(4)  '",
    "TTYPE2  = 'UNCOMPRESSED_DATA'",
    "TFORM2  = '1PI(0)  '",
    "ZIMAGE  =                    T",
    "ZCMPTYPE= 'RICE_1  '",
    "ZTILE1  =                    4",
    "ZTILE2  =                    1",
    "ZNAME1  = 'BLOCKSIZE'",
    "ZVAL1   =                   32",
    "ZNAME2  = 'BYTEPIX '",
    "ZVAL2   =                    2",
    "ZTENSION= 'IMAGE   '",
    "ZBITPIX =                   16",
    "ZNAXIS  =                    2",
    "ZNAXIS1 =                    4",
    "ZNAXIS2 =                    2",
    "ZPCOUNT =                    0",
    "ZGCOUNT =                    1",
    "EXTNAME = 'FIRST   '",
    "GROUPS  =                    F",
];

/// Another one.
pub(crate) const SECOND: [&str; 7] = [
    "XTENSION= 'IMAGE   '",
    "BITPIX  =                    8",
    "NAXIS   =                    1",
    "NAXIS1  =                    4",
    "PCOUNT  =                    0",
    "GCOUNT  =                    1",
    "INHERIT =                    T",
];

/// Its table.
pub(crate) const SECOND_TABLE: [&str; 26] = [
    "XTENSION= 'BINTABLE'",
    "BITPIX  =                    8",
    "NAXIS   =                    2",
    "NAXIS1  =                   16",
    "NAXIS2  =                    1",
    "PCOUNT  =                    3",
    "GCOUNT  =                    1",
    "TFIELDS =                    2",
    "TTYPE1  = 'COMPRESSED_DATA'",
    "TFORM1  = '1PB(3)  '",
    "TTYPE2  = 'UNCOMPRESSED_DATA'",
    "TFORM2  = '1PB(0)  '",
    "ZIMAGE  =                    T",
    "ZCMPTYPE= 'RICE_1  '",
    "ZTILE1  =                    4",
    "ZNAME1  = 'BLOCKSIZE'",
    "ZVAL1   =                   32",
    "ZNAME2  = 'BYTEPIX '",
    "ZVAL2   =                    1",
    "ZTENSION= 'IMAGE   '",
    "ZBITPIX =                    8",
    "ZNAXIS  =                    1",
    "ZNAXIS1 =                    4",
    "ZPCOUNT =                    0",
    "ZGCOUNT =                    1",
    "INHERIT =                    T",
];

/// A table that holds no image.
pub(crate) const PLAIN_TABLE: [&str; 10] = [
    "XTENSION= 'BINTABLE'",
    "BITPIX  =                    8",
    "NAXIS   =                    2",
    "NAXIS1  =                    4",
    "NAXIS2  =                    2",
    "PCOUNT  =                    3",
    "GCOUNT  =                    1",
    "TFIELDS =                    1",
    "TFORM1  = '1J      '",
    "ZIMAGE  =                    F",
];

/// An image of floats.
pub(crate) const FLOATS: [&str; 6] = [
    "XTENSION= 'IMAGE   '",
    "BITPIX  =                  -32",
    "NAXIS   =                    1",
    "NAXIS1  =                    2",
    "PCOUNT  =                    0",
    "GCOUNT  =                    1",
];

/// An image without pixels.
pub(crate) const NOTHING: [&str; 7] = [
    "XTENSION= 'IMAGE   '",
    "BITPIX  =                   16",
    "NAXIS   =                    2",
    "NAXIS1  =                    0",
    "NAXIS2  =                    4",
    "PCOUNT  =                    0",
    "GCOUNT  =                    1",
];

/// An image extension with two bytes after its pixels.
pub(crate) const EXTRA: [&str; 6] = [
    "XTENSION= 'IMAGE   '",
    "BITPIX  =                    8",
    "NAXIS   =                    1",
    "NAXIS1  =                    4",
    "PCOUNT  =                    2",
    "GCOUNT  =                    1",
];

/// An extension of another kind.
pub(crate) const OTHER: [&str; 6] = [
    "XTENSION= 'FOREIGN '",
    "BITPIX  =                    8",
    "NAXIS   =                    1",
    "NAXIS1  =                    3",
    "PCOUNT  =                    0",
    "GCOUNT  =                    2",
];

/// A primary of one float.
pub(crate) const FLOAT_PRIMARY: [&str; 4] = [
    "SIMPLE  =                    T",
    "BITPIX  =                  -64",
    "NAXIS   =                    1",
    "NAXIS1  =                    1",
];
