//! Packed headers: the plans that they stand for, and the checks that refuse them.
use crate::asserts::alike;
use crate::files::{PACKED, fault_at, file_of, one_block, packed_plan};
use fz_base::Kind;
use fz_block::{Axes, Sort};
use fz_checks::table_check;
use fz_head::{Plan, is_packed};
use fz_tile::Codec;
use std::test::Fail;

/// The plan of the small file.
const PLAN: Plan = Plan {
    codec: Codec::Rice {
        block: 32,
        bytepix: 2,
    },
    bitpix: 16,
    shape: Axes {
        n: 2,
        len: [4, 2, 0, 0, 0, 0, 0, 0, 0],
    },
    tile: Axes {
        n: 2,
        len: [4, 1, 0, 0, 0, 0, 0, 0, 0],
    },
    primary: true,
    wide: false,
};

/// ZSIMPLE a second time directly after itself.
const ZSIMPLE_TWICE: [(usize, &[u8]); 6] = [
    (21, b"ZSIMPLE =                    T"),
    (22, b"ZBITPIX =                   16"),
    (23, b"ZNAXIS  =                    2"),
    (24, b"ZNAXIS1 =                    4"),
    (25, b"ZNAXIS2 =                    2"),
    (26, b"END"),
];

/// Cards of the packed header that are other ones, or are after it, and the card that is refused, and why.
static CHECKED: [(&[(usize, &[u8])], Option<(u32, Kind)>); 6] = [
    (&[], None),
    (&ZSIMPLE_TWICE, Some((21, Kind::Duplicate))),
    // ZSIMPLE and ZTENSION count as one name.
    (
        &[(25, b"ZTENSION= 'IMAGE   '"), (26, b"END")],
        Some((25, Kind::Duplicate)),
    ),
    (
        &[
            (25, b"TTYPE1  = 'OTHER   '"),
            (26, b"ZTABLE  =                    T"),
            (27, b"END"),
        ],
        Some((26, Kind::CompressedTable)),
    ),
    // A table that is not packed may have a name twice.
    (
        &[
            (12, b"ZIMAGE  =                    F"),
            (25, b"TTYPE1  = 'OTHER   '"),
            (26, b"END"),
        ],
        None,
    ),
    (
        &[
            (25, b"OBJECT  = 'M 31'"),
            (26, b"OBJECT  = 'M 31'"),
            (27, b"END"),
        ],
        None,
    ),
];

#[test]
fn checks_of_tables(rt: HostRuntime) -> Result<(), Fail> {
    let alloc = rt.alloc();
    for &(changes, wanted) in &CHECKED {
        let mut buf = [0; 2880];
        let header = one_block(alloc, &file_of(&PACKED, changes), 1, &mut buf)?;
        assert!(rt; header.sort == Sort::BinTable);
        let wanted = match wanted {
            None => Ok(()),
            Some((card, kind)) => Err(fault_at(card, kind)),
        };
        alike(&rt, table_check(&buf, &header), wanted);
    }
    Ok(())
}

/// Cards of the packed header that are other ones, and the plan that it stands for then.
static PLANS: [(&[(usize, &[u8])], Plan); 5] = [
    (&[], PLAN),
    // The plain bytes pass 31 bits.
    (
        &[
            (3, b"NAXIS1  =                   32"),
            (4, b"NAXIS2  =                   32"),
            (9, b"TFORM1  = '1QB(4)  '"),
            (11, b"TFORM2  = '1QI(0)  '"),
            (14, b"ZTILE1  =             67108864"),
            (23, b"ZNAXIS1 =             67108864"),
            (24, b"ZNAXIS2 =                   32"),
        ],
        Plan {
            shape: Axes {
                n: 2,
                len: [67_108_864, 32, 0, 0, 0, 0, 0, 0, 0],
            },
            tile: Axes {
                n: 2,
                len: [67_108_864, 1, 0, 0, 0, 0, 0, 0, 0],
            },
            wide: true,
            ..PLAN
        },
    ),
    // A tile that is longer than its axis counts as the axis.
    (&[(14, b"ZTILE1  =   999999999999999999")], PLAN),
    // Without ZTILE1 and ZTILE2 a tile is a row, and without ZNAME1 a block has 32 numbers.
    (
        &[(14, b"HISTORY"), (15, b"HISTORY"), (16, b"HISTORY")],
        PLAN,
    ),
    (
        &[
            (13, b"ZCMPTYPE= 'RICE_ONE'"),
            (15, b"ZTILE2  =                    2"),
            (4, b"NAXIS2  =                    1"),
            (17, b"ZVAL1   =                32767"),
            (19, b"ZVAL2   =                    1"),
        ],
        Plan {
            codec: Codec::Rice {
                block: 32767,
                bytepix: 1,
            },
            tile: Axes {
                n: 2,
                len: [4, 2, 0, 0, 0, 0, 0, 0, 0],
            },
            ..PLAN
        },
    ),
];

#[test]
fn plans(rt: HostRuntime) -> Result<(), Fail> {
    let alloc = rt.alloc();
    for &(changes, plan) in &PLANS {
        let mut buf = [0; 2880];
        let header = one_block(alloc, &file_of(&PACKED, changes), 1, &mut buf)?;
        assert!(rt; is_packed(&buf, &header));
        alike(&rt, packed_plan(&buf, &header, true), Ok(plan));
    }
    Ok(())
}

/// Line lists of pixels with an offset.
const LINE_LISTS: [(usize, &[u8]); 3] = [
    (13, b"ZCMPTYPE= 'PLIO_1  '"),
    (25, b"BZERO   =                32768"),
    (26, b"END"),
];

/// Cards of the packed header that are other ones, or are after it, whether it is after an empty primary, and the card that
/// is refused, and why.
static REFUSED: [(&[(usize, &[u8])], bool, u32, Kind); 15] = [
    (&ZSIMPLE_TWICE, true, 21, Kind::Duplicate),
    (
        &[(25, b"ZSCALE  =                  1.5"), (26, b"END")],
        true,
        25,
        Kind::Quantised,
    ),
    (
        &[(13, b"ZCMPTYPE= 'HCOMPRESS_1'")],
        true,
        13,
        Kind::UnknownCodec,
    ),
    (
        &[(21, b"ZBITPIX =                  -32")],
        true,
        21,
        Kind::Quantised,
    ),
    (
        &[(21, b"ZBITPIX =                   64")],
        true,
        13,
        Kind::UnknownCodec,
    ),
    // The codec comes before the bits of a pixel, and these before the axes.
    (
        &[
            (13, b"ZCMPTYPE= 'HCOMPRESS_1'"),
            (21, b"ZBITPIX =                  -32"),
            (22, b"ZNAXIS  =                    0"),
        ],
        true,
        13,
        Kind::UnknownCodec,
    ),
    (
        &[
            (21, b"ZBITPIX =                  -32"),
            (22, b"ZNAXIS  =                    0"),
        ],
        true,
        21,
        Kind::Quantised,
    ),
    // Of the axes all come before the tiles.
    (
        &[
            (14, b"ZTILE1  =                    0"),
            (24, b"ZNAXIS2 =                    0"),
        ],
        true,
        24,
        Kind::BadCard,
    ),
    (
        &[(14, b"ZTILE1  =                    0")],
        true,
        14,
        Kind::BadCard,
    ),
    (
        &[(17, b"ZVAL1   =                    0")],
        true,
        17,
        Kind::BadCard,
    ),
    (
        &[(19, b"ZVAL2   =                    8")],
        true,
        19,
        Kind::UnknownCodec,
    ),
    (&[], false, 20, Kind::MisplacedPrimary),
    // What the image is comes before an offset of its pixels.
    (&LINE_LISTS, false, 20, Kind::MisplacedPrimary),
    (&LINE_LISTS, true, 25, Kind::PlioOffset),
    (
        &[(4, b"NAXIS2  =                    1")],
        true,
        4,
        Kind::RowCount,
    ),
];

#[test]
fn refused_packed_headers(rt: HostRuntime) -> Result<(), Fail> {
    let alloc = rt.alloc();
    for &(changes, after_empty, card, kind) in &REFUSED {
        let mut buf = [0; 2880];
        let header = one_block(alloc, &file_of(&PACKED, changes), 1, &mut buf)?;
        let answer = packed_plan(&buf, &header, after_empty);
        alike(&rt, answer, Err(fault_at(card, kind)));
    }
    Ok(())
}

/// One tile of 67,108,865 pixels of 8 bits.
static LARGE: [&[u8]; 19] = [
    b"XTENSION= 'BINTABLE'",
    b"BITPIX  =                    8",
    b"NAXIS   =                    2",
    b"NAXIS1  =                   16",
    b"NAXIS2  =                    1",
    b"PCOUNT  =                    0",
    b"GCOUNT  =                    1",
    b"TFIELDS =                    2",
    b"TTYPE1  = 'COMPRESSED_DATA'",
    b"TFORM1  = '1PB(0)  '",
    b"TTYPE2  = 'UNCOMPRESSED_DATA'",
    b"TFORM2  = '1PB(67108865)'",
    b"ZIMAGE  =                    T",
    b"ZCMPTYPE= 'NOCOMPRESS'",
    b"ZTILE1  =             67108865",
    b"ZSIMPLE =                    T",
    b"ZBITPIX =                    8",
    b"ZNAXIS  =                    1",
    b"ZNAXIS1 =             67108865",
];

#[test]
fn tile_of_too_many_pixels(rt: HostRuntime) -> Result<(), Fail> {
    let mut buf = [0; 2880];
    let header = one_block(rt.alloc(), &file_of(&LARGE, &[]), 1, &mut buf)?;
    let answer = packed_plan(&buf, &header, true);
    alike(&rt, answer, Err(fault_at(17, Kind::Limit)));
    Ok(())
}
