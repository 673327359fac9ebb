//! Each public call on a file that is taken, and rows of refused files with the values of the rules.
use crate::asserts::alike;
use fz_base::{Fault, Kind, MemSource, Meter, Place, Source, Stop};
use fz_block::{
    Axes, BLOCK_LEN, Header, Sort, again_law, buffered_header, card, cards_law, data_start,
    first_card_law, found_law, hdu_law, hdu_list_law, header_again, header_at, header_blocks,
    header_into, next_start, number_law, read_header, start_law, walk_law,
};
use std::alloc::Global;
use std::test::Fail;

/// A card's index and the text that it begins with.
type Text = (u32, &'static [u8]);

const SIMPLE: &[u8] = b"SIMPLE  =                    T";

const BITPIX_16: &[u8] = b"BITPIX  =                   16";

const NAXIS_0: &[u8] = b"NAXIS   =                    0";

const NAXIS_1: &[u8] = b"NAXIS   =                    1";

const NAXIS_2: &[u8] = b"NAXIS   =                    2";

const NAXIS1_0: &[u8] = b"NAXIS1  =                    0";

const GROUPS: &[u8] = b"GROUPS  =                    T";

const END: &[u8] = b"END";

/// An image of 4 by 2 pixels.
static SMALL_CARDS: [Text; 6] = [
    (0, SIMPLE),
    (1, BITPIX_16),
    (2, NAXIS_2),
    (3, b"NAXIS1  =                    4"),
    (4, b"NAXIS2  =                    2"),
    (5, END),
];

/// What its header says.
static SMALL: Header = Header {
    hdu: 0,
    start: 0,
    cards: 5,
    blocks: 1,
    sort: Sort::Primary,
    bitpix: 16,
    axes: Axes {
        n: 2,
        len: [4, 2, 0, 0, 0, 0, 0, 0, 0],
    },
    pcount: 0,
    gcount: 1,
    data_len: 16,
};

/// A primary without data, and after it a table of two rows of 16 bytes and a heap of 17.
static TABLE_CARDS: [Text; 13] = [
    (0, SIMPLE),
    (1, BITPIX_16),
    (2, NAXIS_0),
    (3, END),
    (36, b"XTENSION= 'BINTABLE'           / packed"),
    (37, b"BITPIX  =                    8"),
    (38, NAXIS_2),
    (39, b"NAXIS1  =                   16"),
    (40, b"NAXIS2  =                    2"),
    (41, b"PCOUNT  =                   17"),
    (42, b"GCOUNT  =                    1"),
    (43, b"TFIELDS =                    2"),
    (44, END),
];

/// What its header says.
static TABLE: Header = Header {
    hdu: 1,
    start: 2880,
    cards: 8,
    blocks: 1,
    sort: Sort::BinTable,
    bitpix: 8,
    axes: Axes {
        n: 2,
        len: [16, 2, 0, 0, 0, 0, 0, 0, 0],
    },
    pcount: 17,
    gcount: 1,
    data_len: 49,
};

fn put(file: &mut [u8], i: u32, text: &[u8]) {
    let at = 80 * i as usize;
    if at <= file.len() && text.len() <= file.len() - at {
        file[at..at + text.len()].copy_from_slice(text);
    }
}

/// A source of so many bytes, blank but for these cards.
fn source_of(alloc: Global, len: u32, cards: &[Text]) -> Result<MemSource, Stop> {
    let mut file = vec![in alloc; b' '; len as usize].map_err(|_| Stop::NoMemory)?;
    for (i, text) in cards {
        put(&mut file, *i, text);
    }
    if file.len() > 1 << 32 {
        return Err(Stop::NoMemory);
    }
    Ok(MemSource::new(alloc, file, Vec::new(alloc)))
}

/// What `header_blocks` answers of such a file.
fn blocks_of(alloc: Global, len: u32, cards: &[Text], hdu: u32, start: u64) -> Result<u32, Stop> {
    let mut source = source_of(alloc, len, cards)?;
    let length = source.attach("any").map_err(Stop::reading)?;
    let mut block = [0; BLOCK_LEN];
    if start < length {
        return header_blocks(&mut source, length, hdu, start, &mut block);
    }
    header_blocks(&mut source, length, 0, 0, &mut block)
}

/// What `read_header` answers of one block of such a file.
fn header_of(
    alloc: Global,
    len: u32,
    cards: &[Text],
    hdu: u32,
    start: u64,
) -> Result<Header, Stop> {
    let mut source = source_of(alloc, len, cards)?;
    let length = source.attach("any").map_err(Stop::reading)?;
    if start > length || length - start < 2880 {
        return Err(Stop::NoMemory);
    }
    let mut buf = [0; BLOCK_LEN];
    read_header(&mut source, length, hdu, start, &mut buf)
}

#[test]
fn headers_that_are_taken(rt: HostRuntime) {
    let alloc = rt.alloc();
    let small = header_of(alloc, 5760, &SMALL_CARDS, 0, 0);
    let table = header_of(alloc, 8640, &TABLE_CARDS, 1, 2880);
    alike(&rt, (small, table), (Ok(SMALL), Ok(TABLE)));
}

#[test]
fn places(rt: HostRuntime) {
    alike(&rt, (data_start(&SMALL), next_start(&SMALL)), (2880, 5760));
    alike(&rt, (data_start(&TABLE), next_start(&TABLE)), (5760, 8640));
    hdu_law();
    hdu_list_law();
    start_law();
    number_law();
    found_law();
    walk_law();
    cards_law();
    first_card_law();
    again_law();
}

/// A source of such a file, whose header was looked for, and read, if it has one block.
fn looked_at(
    alloc: Global,
    len: u32,
    cards: &[Text],
    hdu: u32,
    start: u64,
) -> Result<MemSource, Stop> {
    let mut source = source_of(alloc, len, cards)?;
    let length = source.attach("any").map_err(Stop::reading)?;
    let mut block = [0; BLOCK_LEN];
    if start >= length || length - start < 2880 {
        return Err(Stop::NoMemory);
    }
    if header_blocks(&mut source, length, hdu, start, &mut block) == Ok(1) {
        let mut header = [0; BLOCK_LEN];
        read_header(&mut source, length, hdu, start, &mut header)?;
    }
    Ok(source)
}

#[test]
fn reads_headers_alone(rt: HostRuntime) -> Result<(), Fail> {
    let alloc = rt.alloc();
    let source = looked_at(alloc, 8640, &SMALL_CARDS, 0, 0)?;
    alike(&rt, source.reads(), [(0, 2880), (0, 2880)].as_slice());
    let source = looked_at(alloc, 11520, &TABLE_CARDS, 1, 2880)?;
    alike(
        &rt,
        source.reads(),
        [(2880, 8), (2880, 2880), (2880, 2880)].as_slice(),
    );
    // END in block 1, none in a file that ends there, another first card, and bytes after an HDU
    let source = looked_at(alloc, 8640, &[(0, SIMPLE), (36, END)], 0, 0)?;
    alike(&rt, source.reads(), [(0, 2880), (2880, 2880)].as_slice());
    let source = looked_at(alloc, 5000, &[(0, SIMPLE)], 0, 0)?;
    alike(&rt, source.reads(), [(0, 2880)].as_slice());
    let source = looked_at(alloc, 8640, &[(0, END)], 0, 0)?;
    alike(&rt, source.reads(), [(0, 2880)].as_slice());
    let source = looked_at(alloc, 8640, &SMALL_CARDS, 1, 5760)?;
    alike(&rt, source.reads(), [(5760, 8)].as_slice());
    Ok(())
}

#[test]
fn a_header_in_a_buffer(rt: HostRuntime) {
    let mut block = [b' '; BLOCK_LEN];
    for &(i, text) in &SMALL_CARDS {
        put(&mut block, i, text);
    }
    alike(&rt, buffered_header(&block, 5760, 0, 0), Ok(SMALL));
}

/// What `header_again` answers of HDU 1 of a source, with a buffer of so many bytes.
fn header_once_more(source: &mut MemSource, room: usize) -> Result<Header, Stop> {
    let length = source.attach("any").map_err(Stop::reading)?;
    if length <= 2880 || room < BLOCK_LEN || room > 2 * BLOCK_LEN {
        return Err(Stop::NoMemory);
    }
    let mut buf = [0; 2 * BLOCK_LEN];
    header_again(source, length, 1, 2880, &mut buf[..room])
}

/// The table with END in the second block of its header.
fn long_table() -> [Text; 13] {
    let mut cards = TABLE_CARDS;
    cards[12] = (80, END);
    cards
}

/// What `header_at` answers of HDU 1 of a source. The buffer of the header goes back.
fn header_at_first(source: &mut MemSource, meter: &mut Meter) -> Result<Header, Stop> {
    let length = source.attach("any").map_err(Stop::reading)?;
    if length <= 2880 {
        return Err(Stop::NoMemory);
    }
    let mut block = [0; BLOCK_LEN];
    let read = header_at(source, length, 1, 2880, meter, &mut block)?;
    let header = read.facts;
    meter.give_bytes(read.bytes);
    Ok(header)
}

// The blocks before the last are read twice, since the buffer is taken after the search for END.
#[test]
fn a_header_in_a_buffer_of_its_length(rt: HostRuntime) -> Result<(), Fail> {
    let alloc = rt.alloc();
    let mut meter = Meter::new(alloc, 5760);
    let mut source = source_of(alloc, 8640, &TABLE_CARDS)?;
    alike(&rt, header_at_first(&mut source, &mut meter), Ok(TABLE));
    alike(&rt, source.reads(), [(2880, 8), (2880, 2880)].as_slice());
    let mut source = source_of(alloc, 11520, &long_table())?;
    let header = header_at_first(&mut source, &mut meter)?;
    alike(
        &rt,
        (header.cards, header.blocks, meter.live(), meter.peak()),
        (44, 2, 0, 5760),
    );
    alike(
        &rt,
        source.reads(),
        [(2880, 8), (2880, 2880), (5760, 2880), (2880, 2880)].as_slice(),
    );
    Ok(())
}

/// What `header_into` answers of HDU 1 of a source, with a buffer of so many bytes. The buffer that is live then goes back.
fn header_in_room(source: &mut MemSource, meter: &mut Meter, room: u64) -> Result<Header, Stop> {
    let length = source.attach("any").map_err(Stop::reading)?;
    if length <= 2880 || room < 2880 {
        return Err(Stop::NoMemory);
    }
    let room = meter.bytes(room)?;
    let read = header_into(source, length, 1, 2880, meter, room)?;
    let header = read.facts;
    meter.give_bytes(read.bytes);
    Ok(header)
}

// Each block is read once if there is room for the header.
#[test]
fn a_header_in_a_buffer_that_is_there(rt: HostRuntime) -> Result<(), Fail> {
    let alloc = rt.alloc();
    let mut meter = Meter::new(alloc, 5760);
    let mut source = source_of(alloc, 8640, &TABLE_CARDS)?;
    alike(
        &rt,
        header_in_room(&mut source, &mut meter, 5760),
        Ok(TABLE),
    );
    alike(&rt, source.reads(), [(2880, 8), (2880, 2880)].as_slice());
    let mut source = source_of(alloc, 11520, &long_table())?;
    let header = header_in_room(&mut source, &mut meter, 5760)?;
    alike(
        &rt,
        (header.cards, header.blocks, meter.live(), meter.peak()),
        (44, 2, 0, 5760),
    );
    alike(
        &rt,
        source.reads(),
        [(2880, 8), (2880, 2880), (5760, 2880)].as_slice(),
    );
    Ok(())
}

// A longer header is read once more, into a buffer that is taken in the place of the other.
#[test]
fn a_header_longer_than_the_buffer(rt: HostRuntime) -> Result<(), Fail> {
    let alloc = rt.alloc();
    let mut meter = Meter::new(alloc, 5760);
    let mut source = source_of(alloc, 11520, &long_table())?;
    let header = header_in_room(&mut source, &mut meter, 5759)?;
    alike(
        &rt,
        (header.cards, header.blocks, meter.live(), meter.peak()),
        (44, 2, 0, 5760),
    );
    alike(
        &rt,
        source.reads(),
        [(2880, 8), (2880, 2880), (5760, 2880), (2880, 5760)].as_slice(),
    );
    let mut meter = Meter::new(alloc, 5759);
    let mut source = source_of(alloc, 11520, &long_table())?;
    let over = Stop::OverLimit {
        live: 0,
        asked: 5760,
        limit: 5759,
    };
    alike(
        &rt,
        header_in_room(&mut source, &mut meter, 5759),
        Err(over),
    );
    alike(&rt, (meter.live(), meter.peak()), (0, 5759));
    Ok(())
}

#[test]
fn a_header_once_more(rt: HostRuntime) -> Result<(), Fail> {
    let alloc = rt.alloc();
    for room in [5760, 2880] {
        let mut source = source_of(alloc, 8640, &TABLE_CARDS)?;
        alike(&rt, header_once_more(&mut source, room), Ok(TABLE));
        alike(&rt, source.reads(), [(2880, 8), (2880, 2880)].as_slice());
    }
    let mut source = source_of(alloc, 11520, &long_table())?;
    let header = header_once_more(&mut source, 5760)?;
    alike(&rt, (header.cards, header.blocks), (44, 2));
    alike(
        &rt,
        source.reads(),
        [(2880, 8), (2880, 2880), (5760, 2880)].as_slice(),
    );
    Ok(())
}

#[test]
fn headers_that_are_refused_again(rt: HostRuntime) -> Result<(), Fail> {
    let alloc = rt.alloc();
    let long = long_table();
    let mut foreign = long;
    foreign[4] = (36, b"EXTENSION");
    let mut faulty = long;
    faulty[6] = (38, NAXIS_1);
    let mut endless = long;
    endless[12] = (80, b"ENDED");
    let cases = [
        (foreign, 2880, Place::Byte(2880), Kind::TrailingBytes),
        (long, 5759, Place::Card(0), Kind::BadCard),
        (faulty, 5759, Place::Card(0), Kind::BadCard),
        (faulty, 5760, Place::Card(4), Kind::BadCard),
        // the search for END goes on after the buffer is full
        (endless, 2880, Place::Byte(11520), Kind::Truncated),
    ];
    for (cards, room, at, kind) in cases {
        let fault = Fault { hdu: 1, at, kind };
        let mut source = source_of(alloc, 11520, &cards)?;
        alike(
            &rt,
            header_once_more(&mut source, room),
            Err(Stop::Refused(fault)),
        );
    }
    Ok(())
}

#[test]
fn a_card(rt: HostRuntime) {
    let mut block = [b' '; BLOCK_LEN];
    block[160..190].copy_from_slice(NAXIS_2);
    assert!(rt; card(&block, 2).bytes.starts_with(NAXIS_2));
}

/// The index of a card that no file of these tests has.
const NOWHERE: u32 = 100_000;

#[test]
fn numbers_of_blocks(rt: HostRuntime) {
    let alloc = rt.alloc();
    for (i, blocks) in [(2, 1), (35, 1), (36, 2), (71, 2), (9215, 256)] {
        let cards = [(0, SIMPLE), (1, b"ENDS"), (i, END), (i + 1, END)];
        alike(&rt, blocks_of(alloc, 740_160, &cards, 0, 0), Ok(blocks));
    }
}

/// The bytes of a file, the index of its card END, the number of an HDU and the byte where it starts, and where it is refused, and why.
static NOT_FOUND: [(u32, u32, u32, u64, Place, Kind); 9] = [
    (0, NOWHERE, 0, 0, Place::Byte(0), Kind::Truncated),
    (2879, 1, 0, 0, Place::Byte(2879), Kind::Truncated),
    (5770, 1, 1, 5760, Place::Byte(5760), Kind::TrailingBytes),
    (5767, 1, 1, 5760, Place::Byte(5760), Kind::TrailingBytes),
    (5770, 1, 65536, 5760, Place::Byte(5760), Kind::Limit),
    (2880, 0, 0, 0, Place::Card(0), Kind::NotFits),
    (737_280, NOWHERE, 0, 0, Place::Byte(0), Kind::LongHeader),
    (740_160, 9216, 0, 0, Place::Byte(0), Kind::LongHeader),
    (
        737_279,
        NOWHERE,
        0,
        0,
        Place::Byte(737_279),
        Kind::Truncated,
    ),
];

#[test]
fn headers_that_are_not_found(rt: HostRuntime) {
    let alloc = rt.alloc();
    for &(len, end, hdu, start, at, kind) in &NOT_FOUND {
        let cards = [(0, SIMPLE), (1, b"ENDS"), (end, END)];
        let fault = Fault { hdu, at, kind };
        alike(
            &rt,
            blocks_of(alloc, len, &cards, hdu, start),
            Err(Stop::Refused(fault)),
        );
    }
}

/// A card of the small image that is another one, and where it is refused, and why.
static FAULTY: [(Text, Place, Kind); 12] = [
    ((1, NAXIS_2), Place::Card(1), Kind::BadCard),
    (
        (1, b"BITPIX  =                   24"),
        Place::Card(1),
        Kind::BadCard,
    ),
    (
        (1, b"BITPIX  =                 16.0"),
        Place::Card(1),
        Kind::BadCard,
    ),
    (
        (2, b"NAXIS   =                   -1"),
        Place::Card(2),
        Kind::BadCard,
    ),
    (
        (2, b"NAXIS   =                   10"),
        Place::Card(2),
        Kind::Limit,
    ),
    (
        (2, b"NAXIS   =                    3"),
        Place::Card(5),
        Kind::BadCard,
    ),
    (
        (3, b"NAXIS2  =                    4"),
        Place::Card(3),
        Kind::BadCard,
    ),
    (
        (3, b"NAXIS1  =                   -4"),
        Place::Card(3),
        Kind::BadCard,
    ),
    (
        (3, b"NAXIS1  =           2147483648"),
        Place::Card(3),
        Kind::Limit,
    ),
    (
        (4, b"END                           "),
        Place::Card(4),
        Kind::BadCard,
    ),
    (
        (4, b"NAXIS2  =                  361"),
        Place::Byte(5760),
        Kind::Truncated,
    ),
    ((5, b"ENDS"), Place::Card(0), Kind::BadCard),
];

#[test]
fn headers_with_a_faulty_card(rt: HostRuntime) {
    let alloc = rt.alloc();
    for &((i, text), at, kind) in &FAULTY {
        let mut cards = SMALL_CARDS;
        cards[i as usize % 6] = (i, text);
        let fault = Fault { hdu: 0, at, kind };
        alike(
            &rt,
            header_of(alloc, 5760, &cards, 0, 0),
            Err(Stop::Refused(fault)),
        );
    }
}

/// Nine axes of the greatest length.
static LONG_CARDS: [Text; 13] = [
    (0, SIMPLE),
    (1, b"BITPIX  =                    8"),
    (2, b"NAXIS   =                    9"),
    (3, b"NAXIS1  =           2147483647"),
    (4, b"NAXIS2  =           2147483647"),
    (5, b"NAXIS3  =           2147483647"),
    (6, b"NAXIS4  =           2147483647"),
    (7, b"NAXIS5  =           2147483647"),
    (8, b"NAXIS6  =           2147483647"),
    (9, b"NAXIS7  =           2147483647"),
    (10, b"NAXIS8  =           2147483647"),
    (11, b"NAXIS9  =           2147483647"),
    (12, END),
];

#[test]
fn data_that_are_too_long(rt: HostRuntime) {
    let fault = Fault {
        hdu: 0,
        at: Place::Card(2),
        kind: Kind::Limit,
    };
    alike(
        &rt,
        header_of(rt.alloc(), 5760, &LONG_CARDS, 0, 0),
        Err(Stop::Refused(fault)),
    );
}

#[test]
fn random_groups(rt: HostRuntime) {
    let mut cards: [Text; 7] = [
        (0, SIMPLE),
        (1, BITPIX_16),
        (2, NAXIS_1),
        (3, NAXIS1_0),
        (4, b"GROUPS  =                    F"),
        (5, GROUPS),
        (6, END),
    ];
    let fault = Fault {
        hdu: 0,
        at: Place::Card(5),
        kind: Kind::Groups,
    };
    alike(
        &rt,
        header_of(rt.alloc(), 5760, &cards, 0, 0),
        Err(Stop::Refused(fault)),
    );
    cards[3] = (3, b"NAXIS1  =                 1440");
    assert!(rt; header_of(rt.alloc(), 5760, &cards, 0, 0).is_ok());
}
