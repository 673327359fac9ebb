//! Images that are to be packed: their plans, the checks that refuse them, and their packed headers.
use crate::asserts::alike;
use crate::files::{
    FILE_LEN, PACKED, SMALL, begin_alike, file_of, one_block, options_for, pack_header, put,
    totals_for,
};
use fz_base::{Fault, Kind, Place, Stop};
use fz_block::{Axes, BLOCK_LEN};
use fz_head::{CodecWord, Plan, is_packable, is_packed, pack_plan, there_and_back_law};
use fz_tile::Codec;
use std::alloc::Global;
use std::process::Abort;
use std::test::Fail;

#[test]
fn plan_of_the_small_file(rt: HostRuntime) -> Result<(), Fail> {
    there_and_back_law();
    let mut buf = [0; 2880];
    let header = one_block(rt.alloc(), &file_of(&SMALL, &[]), 0, &mut buf)?;
    assert!(rt; is_packable(&buf, &header));
    assert!(rt; !is_packed(&buf, &header));
    let plan = Plan {
        codec: Codec::Rice {
            block: 32,
            bytepix: 2,
        },
        bitpix: 16,
        shape: Axes {
            n: 2,
            len: [4, 2, 0, 0, 0, 0, 0, 0, 0],
        },
        tile: Axes {
            n: 2,
            len: [4, 1, 0, 0, 0, 0, 0, 0, 0],
        },
        primary: true,
        wide: false,
    };
    alike(
        &rt,
        pack_plan(&buf, &header, &options_for(CodecWord::Rice, false)),
        Ok(plan),
    );
    Ok(())
}

/// Cards of the small image that are other ones, or are after it, the codec that it is to be packed with, and where it is refused,
/// and why.
static REFUSED: [(&[(usize, &[u8])], CodecWord, Place, Kind); 6] = [
    (
        &[(5, b"ZTILE1  =                    4"), (6, b"END")],
        CodecWord::Rice,
        Place::Card(5),
        Kind::Reserved,
    ),
    (
        &[(5, b"BITPIX  =                   16"), (6, b"END")],
        CodecWord::Rice,
        Place::Card(5),
        Kind::Duplicate,
    ),
    // A reserved name comes before a name that occurs twice, and that before the fill.
    (
        &[
            (5, b"BITPIX  =                   16"),
            (6, b"ZTILE1  =                    4"),
            (7, b"END     X"),
        ],
        CodecWord::Rice,
        Place::Card(6),
        Kind::Reserved,
    ),
    (
        &[
            (5, b"BITPIX  =                   16"),
            (6, b"OBJECT  = 'M 31'"),
            (7, b"END     X"),
        ],
        CodecWord::Rice,
        Place::Card(5),
        Kind::Duplicate,
    ),
    (
        &[(5, b"OBJECT  = 'M 31'"), (6, b"END     X")],
        CodecWord::Rice,
        Place::Byte(488),
        Kind::HeaderFill,
    ),
    (
        &[
            (5, b"EXTEND  =                    T"),
            (6, b"BZERO   =                32768"),
            (7, b"END"),
        ],
        CodecWord::Plio,
        Place::Card(6),
        Kind::PlioOffset,
    ),
];

#[test]
fn refused_images(rt: HostRuntime) -> Result<(), Fail> {
    let alloc = rt.alloc();
    for &(changes, codec, at, kind) in &REFUSED {
        let mut buf = [0; 2880];
        let header = one_block(alloc, &file_of(&SMALL, changes), 0, &mut buf)?;
        assert!(rt; is_packable(&buf, &header));
        let answer = pack_plan(&buf, &header, &options_for(codec, false));
        alike(&rt, answer, Err(Fault { hdu: 0, at, kind }));
    }
    Ok(())
}

#[test]
fn last_byte_of_a_header(rt: HostRuntime) -> Result<(), Fail> {
    let mut file = file_of(&SMALL, &[]);
    file[2879] = b'X';
    let mut buf = [0; 2880];
    let header = one_block(rt.alloc(), &file, 0, &mut buf)?;
    assert!(rt; is_packable(&buf, &header));
    let fault = Fault {
        hdu: 0,
        at: Place::Byte(2879),
        kind: Kind::HeaderFill,
    };
    alike(
        &rt,
        pack_plan(&buf, &header, &options_for(CodecWord::Rice, false)),
        Err(fault),
    );
    Ok(())
}

#[test]
fn packed_header_of_the_small_file(rt: HostRuntime) -> Result<(), Fail> {
    let mut buf = [0; 2880];
    let header = one_block(rt.alloc(), &file_of(&SMALL, &[]), 0, &mut buf)?;
    let mut wanted = file_of(&PACKED, &[]);
    let mut out = [0; 5760];
    let answer = pack_header(&buf, &header, CodecWord::Rice, &totals_for(false), &mut out);
    let are_alike = begin_alike(&out, &wanted, BLOCK_LEN);
    alike(&rt, (answer, are_alike), (Ok(BLOCK_LEN), true));
    put(&mut wanted, 25, b"DATASUM = '0       '");
    put(&mut wanted, 26, b"CHECKSUM= '0000000000000000'");
    put(&mut wanted, 27, b"END");
    let answer = pack_header(&buf, &header, CodecWord::Rice, &totals_for(true), &mut out);
    let are_alike = begin_alike(&out, &wanted, BLOCK_LEN);
    alike(&rt, (answer, are_alike), (Ok(BLOCK_LEN), true));
    Ok(())
}

/// The packed header of the small file if the codec has no parameters.
static WITHOUT_PARAMETERS: [&[u8]; 21] = [
    b"XTENSION= 'BINTABLE'",
    b"BITPIX  =                    8",
    b"NAXIS   =                    2",
    b"NAXIS1  =                   16",
    b"NAXIS2  =                    2",
    b"PCOUNT  =                    8",
    b"GCOUNT  =                    1",
    b"TFIELDS =                    2",
    b"TTYPE1  = 'COMPRESSED_DATA'",
    b"TFORM1  = '1PB(4)  '",
    b"TTYPE2  = 'UNCOMPRESSED_DATA'",
    b"TFORM2  = '1PI(0)  '",
    b"ZIMAGE  =                    T",
    b"ZCMPTYPE= 'NOCOMPRESS'",
    b"ZTILE1  =                    4",
    b"ZTILE2  =                    1",
    b"ZSIMPLE =                    T",
    b"ZBITPIX =                   16",
    b"ZNAXIS  =                    2",
    b"ZNAXIS1 =                    4",
    b"ZNAXIS2 =                    2",
];

/// Compares the packed header of the small file with these changes.
fn expect_packed(
    rt: &impl Abort,
    alloc: Global,
    changes: &[(usize, &[u8])],
    codec: CodecWord,
    wanted: &[u8; FILE_LEN],
) -> Result<(), Stop> {
    let mut buf = [0; 2880];
    let header = one_block(alloc, &file_of(&SMALL, changes), 0, &mut buf)?;
    let mut out = [0; 5760];
    let answer = pack_header(&buf, &header, codec, &totals_for(false), &mut out);
    let are_alike = begin_alike(&out, wanted, BLOCK_LEN);
    alike(rt, (answer, are_alike), (Ok(BLOCK_LEN), true));
    Ok(())
}

#[test]
fn packed_headers_of_other_codecs(rt: HostRuntime) -> Result<(), Fail> {
    let alloc = rt.alloc();
    let wanted = file_of(&WITHOUT_PARAMETERS, &[]);
    expect_packed(&rt, alloc, &[], CodecWord::None, &wanted)?;
    let wanted = file_of(
        &WITHOUT_PARAMETERS,
        &[(9, b"TFORM1  = '1PI(4)  '"), (13, b"ZCMPTYPE= 'PLIO_1  '")],
    );
    expect_packed(&rt, alloc, &[], CodecWord::Plio, &wanted)?;
    // Pixels of 64 bits are stored, and so an offset is no fault.
    static CHANGES: [(usize, &[u8]); 3] = [
        (1, b"BITPIX  =                   64"),
        (5, b"BZERO   =                    1"),
        (6, b"END"),
    ];
    let wanted = file_of(
        &WITHOUT_PARAMETERS,
        &[
            (11, b"TFORM2  = '1PK(0)  '"),
            (17, b"ZBITPIX =                   64"),
            (21, b"BZERO   =                    1"),
            (22, b"END"),
        ],
    );
    expect_packed(&rt, alloc, &CHANGES, CodecWord::Plio, &wanted)?;
    Ok(())
}
