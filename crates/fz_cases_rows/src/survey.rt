//! Small files that a job looks at, and the buffers that it then takes, with the values of the rules.
use crate::asserts::alike;
use fz_base::{Fault, Kind, MemSource, Meter, Place, Short, Source, Stop};
use fz_block::BLOCK_LEN;
use fz_grid::Region;
use fz_head::{CodecWord, PackOptions};
use fz_job::{
    Survey, Wants, Workspace, survey_to_cut, survey_to_pack, survey_to_unpack, workspace_law,
};
use fz_pool::Window;
use std::alloc::Global;
use std::test::Fail;

/// An image of 4 by 2 pixels.
static SMALL: [&[u8]; 5] = [
    b"SIMPLE  =                    T",
    b"BITPIX  =                   16",
    b"NAXIS   =                    2",
    b"NAXIS1  =                    4",
    b"NAXIS2  =                    2",
];

/// The same with a name that no image to be packed may have.
static RESERVED: [&[u8]; 6] = [
    b"SIMPLE  =                    T",
    b"BITPIX  =                   16",
    b"NAXIS   =                    2",
    b"NAXIS1  =                    4",
    b"NAXIS2  =                    2",
    b"ZTILE1  =                    1",
];

static EMPTY: [&[u8]; 3] = [
    b"SIMPLE  =                    T",
    b"BITPIX  =                    8",
    b"NAXIS   =                    0",
];

/// The table of an image of 4 by 2 pixels in rows.
static PACKED: [&[u8]; 21] = [
    b"XTENSION= 'BINTABLE'",
    b"BITPIX  =                    8",
    b"NAXIS   =                    2",
    b"NAXIS1  =                   16",
    b"NAXIS2  =                    2",
    b"PCOUNT  =                    8",
    b"GCOUNT  =                    1",
    b"TFIELDS =                    2",
    b"TTYPE1  = 'COMPRESSED_DATA'",
    b"TFORM1  = '1PB(4)  '",
    b"TTYPE2  = 'UNCOMPRESSED_DATA'",
    b"TFORM2  = '1PI(0)  '",
    b"ZIMAGE  =                    T",
    b"ZCMPTYPE= 'RICE_1  '",
    b"ZTILE1  =                    4",
    b"ZTILE2  =                    1",
    b"ZSIMPLE =                    T",
    b"ZBITPIX =                   16",
    b"ZNAXIS  =                    2",
    b"ZNAXIS1 =                    4",
    b"ZNAXIS2 =                    2",
];

fn put(file: &mut [u8], at: usize, text: &[u8]) {
    if at <= file.len() && text.len() <= file.len() - at {
        file[at..at + text.len()].copy_from_slice(text);
    }
}

/// A header of one block at a block of the file.
fn put_header(file: &mut [u8], block: u32, cards: &[&[u8]]) {
    let start = BLOCK_LEN * block as usize;
    put(file, start, &[b' '; BLOCK_LEN]);
    for (i, text) in cards.iter().enumerate() {
        put(file, start + 80 * i.min(35), text);
    }
    put(file, start + 80 * cards.len().min(35), b"END");
}

/// A source of so many zeros, but for one byte and these headers.
fn source_of(
    alloc: Global,
    len: u32,
    other: u32,
    headers: &[(u32, &[&[u8]])],
) -> Result<MemSource, Stop> {
    let mut file = vec![in alloc; 0u8; len as usize].map_err(|_| Stop::NoMemory)?;
    put(&mut file, other as usize, b"x");
    for (block, cards) in headers {
        put_header(&mut file, *block, cards);
    }
    if file.len() > 1 << 32 {
        return Err(Stop::NoMemory);
    }
    Ok(MemSource::new(alloc, file, Vec::new(alloc)))
}

/// What `pack` learns of a file.
fn look_to_pack(mut source: MemSource, meter: &mut Meter) -> Result<Survey, Stop> {
    let length = source.attach("any").map_err(Stop::reading)?;
    let mut block = [0; BLOCK_LEN];
    let options = PackOptions {
        codec: CodecWord::Rice,
        tile: None,
        block: 32,
        sums: false,
        workers: 1,
    };
    survey_to_pack(&mut source, length, meter, &mut block, &options)
}

/// A file of an empty primary, a packed image, and bytes that are no HDU.
fn packed_source(alloc: Global) -> Result<MemSource, Stop> {
    source_of(alloc, 8650, 8645, &[(0, &EMPTY), (1, &PACKED)])
}

fn refused(hdu: u32, at: Place, kind: Kind) -> Result<Survey, Stop> {
    Err(Stop::Refused(Fault { hdu, at, kind }))
}

#[test]
fn a_look_at_an_image(rt: HostRuntime) -> Result<(), Fail> {
    let alloc = rt.alloc();
    let mut meter = Meter::new(alloc, 63_360);
    let source = source_of(alloc, 5760, 2880, &[(0, &SMALL)])?;
    let seen = Survey {
        hdus: 1,
        header_len: 2880,
        tile: 4,
        packed_primary: None,
        stopped: None,
    };
    alike(&rt, look_to_pack(source, &mut meter), Ok(seen));
    // the room for headers, of 22 blocks
    alike(&rt, (meter.live(), meter.peak()), (0, 63_360));
    // a fill byte after the 16 bytes of data
    let source = source_of(alloc, 5760, 2900, &[(0, &SMALL)])?;
    alike(
        &rt,
        look_to_pack(source, &mut meter),
        refused(0, Place::Byte(2900), Kind::DataFill),
    );
    // the job's checks of HDU 0 come before those of HDU 1
    let source = source_of(alloc, 5770, 5765, &[(0, &RESERVED)])?;
    alike(
        &rt,
        look_to_pack(source, &mut meter),
        refused(0, Place::Card(5), Kind::Reserved),
    );
    // the room passes the limit
    let mut meter = Meter::new(alloc, 63_359);
    let source = source_of(alloc, 5760, 2880, &[(0, &SMALL)])?;
    let over = Stop::OverLimit {
        live: 0,
        asked: 63_360,
        limit: 63_359,
    };
    alike(&rt, look_to_pack(source, &mut meter), Err(over));
    Ok(())
}

#[test]
fn a_look_at_a_packed_image(rt: HostRuntime) -> Result<(), Fail> {
    let alloc = rt.alloc();
    let mut meter = Meter::new(alloc, 63_360);
    let mut block = [0; BLOCK_LEN];
    let region = Region {
        n: 2,
        lo: [1, 1, 0, 0, 0, 0, 0, 0, 0],
        len: [3, 1, 0, 0, 0, 0, 0, 0, 0],
    };
    let mut source = packed_source(alloc)?;
    let length = source.attach("any").map_err(Stop::reading)?;
    let seen = survey_to_cut(&mut source, length, &mut meter, &mut block, None, &region)?;
    alike(&rt, (seen.hdus, seen.header_len, seen.tile), (2, 2880, 4));
    alike(&rt, seen.stopped.map(|h| h.start), Some(2880));
    let missing = survey_to_cut(
        &mut source,
        length,
        &mut meter,
        &mut block,
        Some(0),
        &region,
    );
    alike(&rt, missing, refused(0, Place::Byte(0), Kind::NotPacked));
    let answer = survey_to_unpack(&mut source, length, &mut meter, &mut block);
    alike(
        &rt,
        answer,
        refused(2, Place::Byte(8640), Kind::TrailingBytes),
    );
    let mut source = source_of(alloc, 2880, 0, &[(0, &EMPTY)])?;
    let length = source.attach("any").map_err(Stop::reading)?;
    let missing = survey_to_cut(&mut source, length, &mut meter, &mut block, None, &region);
    alike(&rt, missing, refused(1, Place::Byte(2880), Kind::NotPacked));
    Ok(())
}

#[test]
fn a_packed_primary(rt: HostRuntime) -> Result<(), Fail> {
    let alloc = rt.alloc();
    let mut meter = Meter::new(alloc, 63_360);
    let mut block = [0; BLOCK_LEN];
    let mut source = source_of(alloc, 8640, 0, &[(0, &EMPTY), (1, &PACKED)])?;
    let length = source.attach("any").map_err(Stop::reading)?;
    let seen = survey_to_unpack(&mut source, length, &mut meter, &mut block)?;
    alike(&rt, (seen.hdus, seen.packed_primary), (2, Some(2880)));
    let mut source = source_of(alloc, 2880, 0, &[(0, &EMPTY)])?;
    let length = source.attach("any").map_err(Stop::reading)?;
    let seen = survey_to_unpack(&mut source, length, &mut meter, &mut block)?;
    alike(&rt, (seen.hdus, seen.packed_primary), (1, None));
    Ok(())
}

/// What a job that packs wants for headers of one block and tiles of 4 pixels.
static TO_PACK: Wants = Wants {
    header_len: 2880,
    translates: true,
    tile: Some(4),
};

/// What one that writes nothing wants for them.
static TO_VERIFY: Wants = Wants {
    header_len: 2880,
    translates: false,
    tile: Some(4),
};

/// What one that looks only at headers wants.
static TO_LIST: Wants = Wants {
    header_len: 2880,
    translates: false,
    tile: None,
};

/// What is live and asked at each taking of the job that packs, with one worker.
static TAKINGS: [(u64, u64); 7] = [
    (0, 2880),
    (2880, 5760),
    (8640, 32),
    (8672, 96),
    (8768, 32),
    (8800, 96),
    (8896, 65_536),
];

/// The lengths of the buffers that a taking gives under a limit, and then what is live and the peak, when all
/// is handed back.
fn take_and_give_back(
    alloc: Global,
    limit: u64,
    wants: &Wants,
) -> Result<(Result<[u64; 3], Short>, u64, u64), Short> {
    let mut window = Window::new(alloc, 1).map_err(|_| Short::NoMemory)?;
    let mut meter = Meter::new(alloc, limit);
    workspace_law();
    let answer = match Workspace::take(&mut meter, &mut window, wants) {
        Ok(space) => {
            let lengths = [space.header.len(), space.translated.len(), space.copy.len()];
            space.give_back(&mut meter, &mut window);
            Ok(lengths)
        }
        Err(short) => Err(short),
    };
    Ok((answer, meter.live(), meter.peak()))
}

#[test]
fn buffers_of_a_job(rt: HostRuntime) -> Result<(), Fail> {
    let alloc = rt.alloc();
    let cases = [
        (TO_PACK, [2880, 5760, 65_536], 74_432),
        (TO_VERIFY, [2880, 0, 65_536], 68_672),
        (TO_LIST, [2880, 0, 0], 2880),
    ];
    for (wants, lengths, all) in cases {
        alike(
            &rt,
            take_and_give_back(alloc, all, &wants),
            Ok((Ok(lengths), 0, all)),
        );
    }
    Ok(())
}

#[test]
fn each_taking_at_the_limit(rt: HostRuntime) -> Result<(), Fail> {
    let alloc = rt.alloc();
    for &(live, asked) in &TAKINGS {
        let limit = live + asked - 1;
        let over = Short::OverLimit { live, asked, limit };
        alike(
            &rt,
            take_and_give_back(alloc, limit, &TO_PACK),
            Ok((Err(over), 0, live)),
        );
    }
    Ok(())
}
