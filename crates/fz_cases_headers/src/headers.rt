//! Headers there and back, those of other packers, and those of parts of an image.
ghost use Rattle.std.specs.Prelude.{◌≡◌, ◌+◌, ◌≤◌, ◌^◌, IsTrue, length as len};
ghost use Rattle.fz_block.specs.Facts.{IsHeaderOf};
ghost use Rattle.fz_block.specs.Header.{next_start_of};
ghost use Rattle.fz_grid.specs.Region.{IsWithin};

use crate::asserts::alike;
use crate::files::{
    FILE_LEN, PACKED, SMALL, begin_alike, file_of, one_block, pack_header, packed_plan, put,
    restore_header, totals_for, two_blocks,
};
use fz_base::{Fault, Stop};
use fz_block::{Axes, BLOCK_LEN, Header};
use fz_grid::Region;
use fz_head::{CodecWord, Plan, to_cut};
use fz_tile::Codec;
use std::alloc::Global;
use std::process::Abort;
use std::test::Fail;

/// Writes the packed header of an image whose header has so many blocks, and answers its length.
fn pack(
    alloc: Global,
    file: &[u8; FILE_LEN],
    hdu: u32,
    blocks: usize,
    out: &mut [u8; FILE_LEN],
) -> Result<usize, Stop> {
    if blocks == 1 {
        let mut buf = [0; 2880];
        let header = one_block(alloc, file, hdu, &mut buf)?;
        return pack_header(&buf, &header, CodecWord::Rice, &totals_for(false), out).map_err(
            Stop::Refused,
        );
    }
    let mut buf = [0; 5760];
    let header = two_blocks(alloc, file, hdu, &mut buf)?;
    pack_header(&buf, &header, CodecWord::Rice, &totals_for(false), out).map_err(Stop::Refused)
}

/// Writes the header that a packed header of so many blocks stands for, and answers its length.
fn restore(
    alloc: Global,
    packed: &[u8; FILE_LEN],
    blocks: usize,
    out: &mut [u8; FILE_LEN],
) -> Result<usize, Stop> {
    if blocks == 1 {
        let mut buf = [0; 2880];
        let header = one_block(alloc, packed, 1, &mut buf)?;
        return restore_header(&buf, &header, out).map_err(Stop::Refused);
    }
    let mut buf = [0; 5760];
    let header = two_blocks(alloc, packed, 1, &mut buf)?;
    restore_header(&buf, &header, out).map_err(Stop::Refused)
}

/// The header of the small file with HISTORY cards after its own, so many in all, and END.
fn long_header(cards: usize) -> [u8; FILE_LEN] {
    let mut file = file_of(&SMALL, &[]);
    for i in SMALL.len()..cards.min(71) {
        put(&mut file, i, b"HISTORY written by hand");
    }
    put(&mut file, cards, b"END");
    file
}

#[test]
fn long_headers_come_back(rt: HostRuntime) -> Result<(), Fail> {
    let alloc = rt.alloc();
    for (cards, blocks) in [(35, 1), (36, 2)] {
        let file = long_header(cards);
        let mut packed = [0; FILE_LEN];
        let packed_len = pack(alloc, &file, 0, blocks, &mut packed)?;
        let mut plain = [0; FILE_LEN];
        let len = restore(alloc, &packed, 2, &mut plain)?;
        alike(
            &rt,
            (packed_len, len, begin_alike(&plain, &file, len)),
            (2 * BLOCK_LEN, blocks * BLOCK_LEN, true),
        );
    }
    Ok(())
}

/// Cards after those of an image, and how they are in its packed header.
static KEPT: [(&[u8], &[u8]); 14] = [
    (b"HISTORY = 'is not a value'", b"HISTORY = 'is not a value'"),
    (
        b"EXTEND  =                    T",
        b"ZEXTEND =                    T",
    ),
    (
        b"BLOCKED =                    T / in blocks",
        b"ZBLOCKED=                    T / in blocks",
    ),
    (
        b"CHECKSUM= 'hcHjjc9ghcEghc9g'",
        b"ZHECKSUM= 'hcHjjc9ghcEghc9g'",
    ),
    (b"", b""),
    (
        b"COMMENT   END and SIMPLE  =",
        b"COMMENT   END and SIMPLE  =",
    ),
    (b"LONGTEXT= 'one &   '", b"LONGTEXT= 'one &   '"),
    (b"CONTINUE  'and two'", b"CONTINUE  'and two'"),
    (
        b"bitpix  =                   99",
        b"bitpix  =                   99",
    ),
    (
        b"NAXIS01 =                    7",
        b"NAXIS01 =                    7",
    ),
    (b"~!@#$%^&*()_+", b"~!@#$%^&*()_+"),
    (b"", b""),
    (b"DATASUM = '868229149'", b"ZDATASUM= '868229149'"),
    (b"EXTNAME = 'COMPRESSED_'", b"EXTNAME = 'COMPRESSED_'"),
];

#[test]
fn cards_come_back_in_their_places(rt: HostRuntime) -> Result<(), Fail> {
    let alloc = rt.alloc();
    let mut file = file_of(&SMALL, &[(19, b"END")]);
    let mut wanted = file_of(&PACKED, &[(39, b"END")]);
    for (i, (plain, packed)) in KEPT.iter().enumerate() {
        put(&mut file, 5 + i, plain);
        put(&mut wanted, 25 + i, packed);
    }
    let mut packed = [0; FILE_LEN];
    let packed_len = pack(alloc, &file, 0, 1, &mut packed)?;
    let is_packed = begin_alike(&packed, &wanted, 2 * BLOCK_LEN);
    let mut plain = [0; FILE_LEN];
    let len = restore(alloc, &packed, 2, &mut plain)?;
    let is_back = begin_alike(&plain, &file, BLOCK_LEN);
    alike(
        &rt,
        (packed_len, is_packed, len, is_back),
        (2 * BLOCK_LEN, true, BLOCK_LEN, true),
    );
    Ok(())
}

/// An extension of 4 by 2 pixels.
static EXTENSION: [&[u8]; 8] = [
    b"XTENSION= 'IMAGE   '           / an extension",
    b"BITPIX  =                   16",
    b"NAXIS   =                    2",
    b"NAXIS1  =                    4",
    b"NAXIS2  =                    2",
    b"PCOUNT  =                    0",
    b"GCOUNT  =                    1",
    b"EXTNAME = 'SCI     '",
];

#[test]
fn extensions_come_back(rt: HostRuntime) -> Result<(), Fail> {
    let alloc = rt.alloc();
    let file = file_of(&EXTENSION, &[]);
    let wanted = file_of(
        &PACKED,
        &[
            (20, b"ZTENSION= 'IMAGE   '           / an extension"),
            (25, b"ZPCOUNT =                    0"),
            (26, b"ZGCOUNT =                    1"),
            (27, b"EXTNAME = 'SCI     '"),
            (28, b"END"),
        ],
    );
    let mut packed = [0; FILE_LEN];
    let packed_len = pack(alloc, &file, 1, 1, &mut packed)?;
    let is_packed = begin_alike(&packed, &wanted, BLOCK_LEN);
    let mut plain = [0; FILE_LEN];
    let len = restore(alloc, &packed, 1, &mut plain)?;
    let is_back = begin_alike(&plain, &file, BLOCK_LEN);
    alike(
        &rt,
        (packed_len, is_packed, len, is_back),
        (BLOCK_LEN, true, BLOCK_LEN, true),
    );
    Ok(())
}

/// A packed header of another packer: one column, no ZTILE1 and no BYTEPIX.
static OTHER: [&[u8]; 20] = [
    b"XTENSION= 'BINTABLE'",
    b"BITPIX  =                    8",
    b"NAXIS   =                    2",
    b"NAXIS1  =                    8",
    b"NAXIS2  =                    1",
    b"PCOUNT  =                    6",
    b"GCOUNT  =                    1",
    b"TFIELDS =                    1",
    b"TTYPE1  = 'COMPRESSED_DATA'",
    b"TFORM1  = '1PB(6)  '",
    b"ZIMAGE  =                    T",
    b"ZCMPTYPE= 'RICE_1  '",
    b"ZBITPIX =                   16",
    b"ZNAXIS  =                    1",
    b"ZNAXIS1 =                    3",
    b"ZSIMPLE =                    T",
    b"EXTNAME = 'COMPRESSED_IMAGE'",
    b"OBJECT  = 'M 31    '",
    b"CHECKSUM= 'hcHjjc9ghcEghc9g'",
    b"DATASUM = '868229149'",
];

/// The image in it.
static OTHER_PLAIN: [&[u8]; 5] = [
    b"SIMPLE  =                    T",
    b"BITPIX  =                   16",
    b"NAXIS   =                    1",
    b"NAXIS1  =                    3",
    b"OBJECT  = 'M 31    '",
];

#[test]
fn header_of_another_packer(rt: HostRuntime) -> Result<(), Fail> {
    let alloc = rt.alloc();
    let file = file_of(&OTHER, &[]);
    let mut buf = [0; 2880];
    let header = one_block(alloc, &file, 1, &mut buf)?;
    let line = Axes {
        n: 1,
        len: [3, 0, 0, 0, 0, 0, 0, 0, 0],
    };
    let plan = Plan {
        codec: Codec::Rice {
            block: 32,
            bytepix: 4,
        },
        bitpix: 16,
        shape: line,
        tile: line,
        primary: true,
        wide: false,
    };
    alike(&rt, packed_plan(&buf, &header, true), Ok(plan));
    let mut plain = [0; FILE_LEN];
    let len = restore(alloc, &file, 1, &mut plain)?;
    let is_back = begin_alike(&plain, &file_of(&OTHER_PLAIN, &[]), BLOCK_LEN);
    alike(&rt, (len, is_back), (BLOCK_LEN, true));
    Ok(())
}

/// Whether the region lies in the array, and has a pixel.
fn is_within(shape: &Axes, region: &Region) -> bool
    ensures { IsTrue result → IsWithin shape.now region.now }
{
    if region.n != shape.n {
        return false;
    }
    if shape.n > 9 {
        return false;
    }
    for i in 0..shape.n as usize {
        if region.len[i] < 1 {
            return false;
        }
        if region.lo[i] > shape.len[i] {
            return false;
        }
        if region.len[i] > shape.len[i] - region.lo[i] {
            return false;
        }
    }
    true
}

/// Writes the header of a part of an image, and answers its length; 0 if the region is not one of the
/// image.
fn cut_header(buf: &[u8], header: &Header, region: &Region, out: &mut [u8]) -> Result<usize, Fault>
    requires header { IsHeaderOf buf.now header.now }
    requires end { next_start_of header.now ≤ 2 ^ 62 }
    requires room { len buf.now + 2880 ≤ len out.old }
{
    let plan = packed_plan(buf, header, true)?;
    if !is_within(&plan.shape, region) {
        return Ok(0);
    }
    Ok(to_cut(buf, header, &plan, region, out))
}

/// The packed header of 5 by 3 pixels of 8 bits, in stored tiles of 2 by 2.
static GRID: [&[u8]; 21] = [
    b"XTENSION= 'BINTABLE'",
    b"BITPIX  =                    8",
    b"NAXIS   =                    2",
    b"NAXIS1  =                   16",
    b"NAXIS2  =                    6",
    b"PCOUNT  =                   15",
    b"GCOUNT  =                    1",
    b"TFIELDS =                    2",
    b"TTYPE1  = 'COMPRESSED_DATA'",
    b"TFORM1  = '1PB(0)  '",
    b"TTYPE2  = 'UNCOMPRESSED_DATA'",
    b"TFORM2  = '1PB(4)  '",
    b"ZIMAGE  =                    T",
    b"ZCMPTYPE= 'NOCOMPRESS'",
    b"ZTILE1  =                    2",
    b"ZTILE2  =                    2",
    b"ZSIMPLE =                    T",
    b"ZBITPIX =                    8",
    b"ZNAXIS  =                    2",
    b"ZNAXIS1 =                    5",
    b"ZNAXIS2 =                    3",
];

/// The small file as an extension, with cards that hold for the whole of it.
static WHOLE: [(usize, &[u8]); 10] = [
    (20, b"ZTENSION= 'IMAGE   '"),
    (25, b"ZPCOUNT =                    0"),
    (26, b"ZGCOUNT =                    1"),
    (27, b"ZEXTEND =                    T"),
    (28, b"ZBLOCKED=                    T"),
    (29, b"INHERIT =                    T"),
    (30, b"EXTNAME = 'SCI     '"),
    (31, b"ZHECKSUM= 'hcHjjc9ghcEghc9g'"),
    (32, b"ZDATASUM= '868229149'"),
    (33, b"END"),
];

/// Compares the header of a part of the image of a packed header.
fn expect_part(
    rt: &impl Abort,
    alloc: Global,
    packed: &[u8; FILE_LEN],
    region: &Region,
    wanted: &[u8; FILE_LEN],
) -> Result<(), Stop> {
    let mut buf = [0; 2880];
    let header = one_block(alloc, packed, 1, &mut buf)?;
    let mut out = [0; 5760];
    let answer = cut_header(&buf, &header, region, &mut out);
    let are_alike = begin_alike(&out, wanted, BLOCK_LEN);
    alike(rt, (answer, are_alike), (Ok(BLOCK_LEN), true));
    Ok(())
}

#[test]
fn headers_of_parts(rt: HostRuntime) -> Result<(), Fail> {
    let alloc = rt.alloc();
    let region = Region {
        n: 2,
        lo: [1, 1, 0, 0, 0, 0, 0, 0, 0],
        len: [3, 2, 0, 0, 0, 0, 0, 0, 0],
    };
    let wanted = file_of(
        &[
            b"SIMPLE  =                    T",
            b"BITPIX  =                    8",
            b"NAXIS   =                    2",
            b"NAXIS1  =                    3",
            b"NAXIS2  =                    2",
        ],
        &[],
    );
    expect_part(&rt, alloc, &file_of(&GRID, &[]), &region, &wanted)?;
    let region = Region {
        n: 1,
        lo: [2, 0, 0, 0, 0, 0, 0, 0, 0],
        len: [1, 0, 0, 0, 0, 0, 0, 0, 0],
    };
    let wanted = file_of(&OTHER_PLAIN, &[(3, b"NAXIS1  =                    1")]);
    expect_part(&rt, alloc, &file_of(&OTHER, &[]), &region, &wanted)?;
    // What holds only for the whole extension is left out.
    let region = Region {
        n: 2,
        lo: [0, 1, 0, 0, 0, 0, 0, 0, 0],
        len: [4, 1, 0, 0, 0, 0, 0, 0, 0],
    };
    let wanted = file_of(
        &SMALL,
        &[
            (4, b"NAXIS2  =                    1"),
            (5, b"EXTNAME = 'SCI     '"),
            (6, b"END"),
        ],
    );
    expect_part(&rt, alloc, &file_of(&PACKED, &WHOLE), &region, &wanted)?;
    Ok(())
}
