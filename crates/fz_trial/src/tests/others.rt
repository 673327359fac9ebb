//! Packed files of other packers, and the files that they stand for.
use crate::tests::files::{Case, Hdu};
use crate::tests::small::{EMPTY_PRIMARY_HDU, SMALL_FILE, SMALL_PIXELS};

/// Packed files of other packers, and what they stand for.
pub(crate) static CASES: [Case<'static>; 3] = [
    // one column, no lengths of tiles and no parameters
    Case {
        options: &[],
        plain: &[Hdu {
            cards: &OTHER,
            numbers: &[],
            bytes: &[3, 232, 3, 232, 3, 235],
        }],
        packed: &OTHER_PACKED,
    },
    // descriptors of 64 bits
    Case {
        options: &[],
        plain: &[SMALL_FILE],
        packed: &WIDE_PACKED,
    },
    // columns in another order and a further one, names in small letters, a gap before the heap, another name of the codec
    Case {
        options: &[],
        plain: &[SMALL_FILE],
        packed: &[
            EMPTY_PRIMARY_HDU,
            Hdu {
                cards: &TURNED_TABLE,
                numbers: &[7, 4, 4, 0, 0, 8, 0, 0, 0, 0, 4, 8],
                bytes: &[255, 255, 255, 255, 0, 0, 0, 1, 0, 0, 0, 1, 0, 0, 0x19, 0x48],
            },
        ],
    },
];

/// Three pixels of 16 bits.
pub(crate) const OTHER: [&str; 5] = [
    "SIMPLE  =                    T",
    "BITPIX  =                   16",
    "NAXIS   =                    1",
    "NAXIS1  =                    3",
    "OBJECT  = 'M31     '           / name",
];

/// A file of another packer: the code of the pixels is of 32 bits.
pub(crate) const OTHER_PACKED: [Hdu<'static>; 2] = [
    Hdu {
        cards: &[
            "SIMPLE  =                    T",
            "BITPIX  =                   16",
            "NAXIS   =                    0",
            "EXTEND  =                    T",
            "COMMENT empty",
        ],
        numbers: &[],
        bytes: &[],
    },
    Hdu {
        cards: &[
            "XTENSION= 'BINTABLE'           / binary table",
            "BITPIX  =                    8",
            "NAXIS   =                    2",
            "NAXIS1  =                    8",
            "NAXIS2  =                    1",
            "PCOUNT  =                    6",
            "GCOUNT  =                    1",
            "TFIELDS =                    1",
            "TTYPE1  = 'COMPRESSED_DATA'",
            "TFORM1  = '1PB(6)  '",
            "ZIMAGE  =                    T",
            "ZCMPTYPE= 'RICE_1  '",
            "ZBITPIX =                   16",
            "ZNAXIS  =                    1",
            "ZNAXIS1 =                    3",
            "ZSIMPLE =                    T",
            "EXTNAME = 'COMPRESSED_IMAGE'",
            "OBJECT  = 'M31     '           / name",
            "CHECKSUM= 'hcHjjc9ghcEghc9g'",
            "DATASUM = '868229149'",
        ],
        numbers: &[6, 0],
        bytes: &[0, 0, 3, 0xe8, 0x0e, 4],
    },
];

/// The small file in stored tiles, with descriptors of 64 bits.
pub(crate) const WIDE_PACKED: [Hdu<'static>; 2] = [
    EMPTY_PRIMARY_HDU,
    Hdu {
        cards: &[
            "XTENSION= 'BINTABLE'",
            "BITPIX  =                    8",
            "NAXIS   =                    2",
            "NAXIS1  =                   32",
            "NAXIS2  =                    2",
            "PCOUNT  =                   16",
            "GCOUNT  =                    1",
            "TFIELDS =                    2",
            "TTYPE1  = 'COMPRESSED_DATA'",
            "TFORM1  = '1QB(0)  '",
            "TTYPE2  = 'UNCOMPRESSED_DATA'",
            "TFORM2  = '1QI(4)  '",
            "ZIMAGE  =                    T",
            "ZCMPTYPE= 'NOCOMPRESS'",
            "ZTILE1  =                    4",
            "ZTILE2  =                    1",
            "ZSIMPLE =                    T",
            "ZBITPIX =                   16",
            "ZNAXIS  =                    2",
            "ZNAXIS1 =                    4",
            "ZNAXIS2 =                    2",
        ],
        numbers: &[0, 0, 0, 0, 0, 4, 0, 0, 0, 0, 0, 0, 0, 4, 0, 8],
        bytes: &SMALL_PIXELS,
    },
];

/// The small file: its first row is stored after a gap of four bytes, and its second row is a code after that.
const TURNED_TABLE: [&str; 26] = [
    "XTENSION= 'BINTABLE'",
    "BITPIX  =                    8",
    "NAXIS   =                    2",
    "NAXIS1  =                   24",
    "NAXIS2  =                    2",
    "PCOUNT  =                   16",
    "GCOUNT  =                    1",
    "TFIELDS =                    3",
    "TTYPE1  = 'SOMETHING'",
    "TFORM1  = '2J      '",
    "TTYPE2  = 'uncompressed_data'",
    "TFORM2  = 'PI      '",
    "TTYPE3  = 'Compressed_Data'",
    "TFORM3  = 'PB      '",
    "THEAP   =                   52",
    "ZIMAGE  =                    T",
    "ZCMPTYPE= 'RICE_ONE'",
    "ZNAME1  = 'BYTEPIX '",
    "ZVAL1   =                    2",
    "ZSIMPLE =                    T",
    "ZBITPIX =                   16",
    "ZNAXIS  =                    2",
    "ZNAXIS1 =                    4",
    "ZNAXIS2 =                    2",
    "EXTNAME = 'COMPRESSED_IMAGE'",
    "ZQUANTIZ= 'NONE    '",
];
