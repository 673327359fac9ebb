//! Rows from outside the program: the headers of packed tables, and descriptors in the rows.
ghost use Rattle.std.specs.Prelude.{◌≡◌};

use crate::asserts::alike;
use fz_base::{Fault, Kind, MemSource, Place, Source, Stop};
use fz_block::{BLOCK_LEN, read_header};
use fz_card::Name;
use fz_table::{
    Column, Descriptor, Record, Row, Table, Tile, TileColumn, descriptor, find_record, first_named,
    is_filled, range, read_record, read_rest, record_of, row_in, write_row,
};
use std::alloc::Global;
use std::test::Fail;

/// The header of the packed table of 4 by 2 pixels of 16 bits, whose tiles are stored plainly.
static CARDS: [&[u8]; 22] = [
    b"XTENSION= 'BINTABLE'",
    b"BITPIX  =                    8",
    b"NAXIS   =                    2",
    b"NAXIS1  =                   16",
    b"NAXIS2  =                    2",
    b"PCOUNT  =                   16",
    b"GCOUNT  =                    1",
    b"TFIELDS =                    2",
    b"TTYPE1  = 'COMPRESSED_DATA'",
    b"TFORM1  = '1PB(0)  '",
    b"TTYPE2  = 'UNCOMPRESSED_DATA'",
    b"TFORM2  = '1PI(4)  '",
    b"ZIMAGE  =                    T",
    b"ZCMPTYPE= 'NOCOMPRESS'",
    b"ZTILE1  =                    4",
    b"ZTILE2  =                    1",
    b"ZSIMPLE =                    T",
    b"ZBITPIX =                   16",
    b"ZNAXIS  =                    2",
    b"ZNAXIS1 =                    4",
    b"ZNAXIS2 =                    2",
    b"END",
];

/// The table that it says, in HDU 1 of a file whose HDU 0 has one block.
const TABLE: Table = Table {
    row_bytes: 16,
    rows: 2,
    rows_at: 5760,
    heap_at: 5792,
    heap_len: 16,
    coded: Some(Column {
        at: 0,
        wide: false,
        unit: 1,
    }),
    stored: Some(Column {
        at: 8,
        wide: false,
        unit: 2,
    }),
    gzip: None,
};

/// The file whose header has these cards in place of some of its own, or after them.
fn file_of(changes: &[(usize, &[u8])]) -> [u8; 8640] {
    let mut file = [0; 8640];
    file[BLOCK_LEN..2 * BLOCK_LEN].fill(b' ');
    for (i, text) in CARDS.iter().enumerate() {
        put(&mut file, i, text);
    }
    for (i, text) in changes {
        put(&mut file, *i, text);
    }
    file
}

/// Puts a card into the header.
fn put(file: &mut [u8; 8640], i: usize, text: &[u8]) {
    let i = i.min(35);
    let len = text.len().min(80);
    let card = &mut file[BLOCK_LEN + 80 * i..BLOCK_LEN + 80 * (i + 1)];
    card.fill(b' ');
    card[..len].copy_from_slice(&text[..len]);
}

/// A fault at this card.
fn bad_at(card: u32) -> Fault {
    Fault {
        hdu: 1,
        at: Place::Card(card),
        kind: Kind::BadTable,
    }
}

/// What the header of HDU 1 says of its table, and the card of ZIMAGE in it.
fn table_of(alloc: Global, file: &[u8; 8640]) -> Result<(Result<Table, Fault>, Option<u32>), Stop> {
    let bytes = file.to_vec(alloc).map_err(|_| Stop::NoMemory)?;
    let mut source = MemSource::new(alloc, bytes, Vec::new(alloc));
    let length = source.attach("any").map_err(Stop::reading)?;
    if length < 5760 {
        return Err(Stop::NoMemory);
    }
    let mut buf = [0; BLOCK_LEN];
    let header = read_header(&mut source, length, 1, 2880, &mut buf)?;
    let zimage = first_named(&buf, &header, &Name::ZIMAGE);
    Ok((Table::of(&buf, &header), zimage))
}

/// Cards of the header that are other ones, or are after it, and the table that it says then, or the index of the faulty card.
static TABLES: [(&[(usize, &[u8])], Result<Table, u32>); 33] = [
    (&[], Ok(TABLE)),
    (&[(1, b"BITPIX  =                   16")], Err(1)),
    (
        &[
            (2, b"NAXIS   =                    1"),
            (4, b"PCOUNT  =                   16"),
            (5, b"GCOUNT  =                    1"),
        ],
        Err(2),
    ),
    (&[(6, b"GCOUNT  =                    2")], Err(6)),
    (&[(7, b"TFIELDS =                    0")], Err(7)),
    (&[(7, b"TFIELDS =                 1000")], Err(7)),
    (&[(7, b"COMMENT two columns")], Err(21)),
    (&[(7, b"TFIELDS =                    3")], Err(21)),
    (&[(9, b"COMMENT no form")], Err(21)),
    (&[(9, b"TFORM1  = '2PB(0)'")], Err(9)),
    (&[(9, b"TFORM1  = 'Z'")], Err(9)),
    (&[(9, b"TFORM1  = '0000000001PB'")], Err(9)),
    (&[(9, b"TFORM1  = '000000001PB'")], Ok(TABLE)),
    (&[(9, b"TFORM1  = 'PB'")], Ok(TABLE)),
    (&[(9, b"TFORM1  = '1pb'")], Err(9)),
    (&[(9, b"TFORM1  = ' 1PB'")], Err(9)),
    (&[(9, b"TFORM1  = ''")], Err(9)),
    (&[(9, b"TFORM1  = '0PB(0)'")], Err(3)),
    (&[(3, b"NAXIS1  =                   17")], Err(3)),
    (&[(11, b"TFORM2  = '1PX(4)'")], Err(11)),
    (&[(11, b"TFORM2  = '8B'")], Err(11)),
    (
        &[(11, b"TFORM2  = '1PK(2)'")],
        Ok(Table {
            stored: Some(Column {
                at: 8,
                wide: false,
                unit: 8,
            }),
            ..TABLE
        }),
    ),
    (
        &[(10, b"TTYPE2  = 2"), (11, b"TFORM2  = '8B'")],
        Ok(Table {
            stored: None,
            ..TABLE
        }),
    ),
    (&[(10, b"TTYPE2  = 'compressed_data'")], Err(10)),
    (&[(10, b"TTYPE2  = 'uncompressed_data'")], Ok(TABLE)),
    (
        &[(21, b"THEAP   =                    0"), (22, b"END")],
        Err(21),
    ),
    (
        &[(21, b"THEAP   =                   49"), (22, b"END")],
        Err(21),
    ),
    (&[(21, b"THEAP   = '40'"), (22, b"END")], Err(21)),
    (
        &[(21, b"THEAP   =                   48"), (22, b"END")],
        Ok(Table {
            heap_at: 5808,
            heap_len: 0,
            ..TABLE
        }),
    ),
    (
        &[(21, b"THEAP   =                   40"), (22, b"END")],
        Ok(Table {
            heap_at: 5800,
            heap_len: 8,
            ..TABLE
        }),
    ),
    (
        &[
            (3, b"NAXIS1  =                   18"),
            (7, b"TFIELDS =                    3"),
            (21, b"TFORM3  = '9X'"),
            (22, b"END"),
        ],
        Ok(Table {
            row_bytes: 18,
            heap_at: 5796,
            ..TABLE
        }),
    ),
    (
        &[
            (3, b"NAXIS1  =                   24"),
            (7, b"TFIELDS =                    3"),
            (21, b"TFORM3  = 'PE'"),
            (22, b"TTYPE3  = 'GZIP_COMPRESSED_DATA'"),
            (23, b"END"),
        ],
        Ok(Table {
            row_bytes: 24,
            heap_at: 5808,
            gzip: Some(Column {
                at: 16,
                wide: false,
                unit: 4,
            }),
            ..TABLE
        }),
    ),
    (
        &[
            (3, b"NAXIS1  =                   32"),
            (9, b"TFORM1  = '1QB(0)'"),
            (11, b"TFORM2  = '1QI(4)'"),
        ],
        Ok(Table {
            row_bytes: 32,
            heap_at: 5824,
            coded: Some(Column {
                at: 0,
                wide: true,
                unit: 1,
            }),
            stored: Some(Column {
                at: 16,
                wide: true,
                unit: 2,
            }),
            ..TABLE
        }),
    ),
];

#[test]
fn tables(rt: HostRuntime) {
    let alloc = rt.alloc();
    for &(changes, expected) in &TABLES {
        let file = file_of(changes);
        alike(
            &rt,
            table_of(alloc, &file),
            Ok((expected.map_err(bad_at), Some(12))),
        );
    }
}

/// Four rows of TABLE from byte 0 on, and its heap after them.
static FOUR_ROWS: Table = Table {
    rows_at: 0,
    rows: 4,
    heap_at: 100,
    ..TABLE
};

/// A column of 16-bit elements, whose descriptors have 32-bit numbers.
const SHORTS: Column = Column {
    at: 8,
    wide: false,
    unit: 2,
};

/// A column of 64-bit elements, whose descriptors have 64-bit numbers.
const LONGS: Column = Column {
    at: 0,
    wide: true,
    unit: 8,
};

/// A descriptor of nothing.
static NONE: Descriptor = Descriptor {
    count: 0,
    offset: 0,
};

/// A descriptor of four elements.
const STORED: Descriptor = Descriptor {
    count: 4,
    offset: 8,
};

/// The greatest numbers of 32 bits.
static HIGH: Descriptor = Descriptor {
    count: 4_294_967_295,
    offset: 4_294_967_295,
};

/// The greatest numbers of 64 bits.
const GREATEST: Descriptor = Descriptor {
    count: 18_446_744_073_709_551_615,
    offset: 18_446_744_073_709_551_615,
};

/// A column, a descriptor in it, and the range that this describes after the four rows.
static RANGES: [(Column, Descriptor, Option<(u64, u64)>); 5] = [
    (SHORTS, STORED, Some((108, 8))),
    (LONGS, STORED, None),
    (
        SHORTS,
        Descriptor {
            count: 5,
            offset: 8,
        },
        None,
    ),
    (
        SHORTS,
        Descriptor {
            count: 1 << 63,
            offset: 0,
        },
        None,
    ),
    (SHORTS, GREATEST, None),
];

#[test]
fn rows_and_ranges(rt: HostRuntime) -> Result<(), Fail> {
    let alloc = rt.alloc();
    let mut rows = [0; 64];
    write_row(&mut rows[..16], false, &NONE, &STORED);
    write_row(&mut rows[16..48], true, &STORED, &NONE);
    rows[48..].fill(0xff);
    let narrow = rows[..16] == [0, 0, 0, 0, 0, 0, 0, 0, 0, 0, 0, 4, 0, 0, 0, 8];
    let wide = rows[16..32] == [0, 0, 0, 0, 0, 0, 0, 4, 0, 0, 0, 0, 0, 0, 0, 8];
    assert!(rt; narrow && wide);
    let mut source = MemSource::new(alloc, rows.to_vec(alloc)?, Vec::new(alloc));
    let length = source.attach("any")?;
    assert!(rt; length == 64);
    let found = [
        descriptor(&mut source, &FOUR_ROWS, &SHORTS, 0)?,
        descriptor(&mut source, &FOUR_ROWS, &LONGS, 1)?,
        descriptor(&mut source, &FOUR_ROWS, &LONGS, 3)?,
        descriptor(&mut source, &FOUR_ROWS, &SHORTS, 3)?,
    ];
    alike(&rt, found, [STORED, STORED, GREATEST, HIGH]);
    assert!(rt; source.reads() == [(8, 8), (16, 16), (48, 16), (56, 8)].as_slice());
    for &(column, described, expected) in &RANGES {
        alike(&rt, range(&FOUR_ROWS, &column, &described), expected);
    }
    Ok(())
}

/// A table of three columns.
static THREE: Table = Table {
    row_bytes: 24,
    rows: 3,
    rows_at: 0,
    heap_at: 72,
    heap_len: 24,
    coded: Some(Column {
        at: 0,
        wide: false,
        unit: 1,
    }),
    stored: Some(Column {
        at: 8,
        wide: false,
        unit: 2,
    }),
    gzip: Some(Column {
        at: 16,
        wide: false,
        unit: 4,
    }),
};

/// A tile of 4 pixels of 16 bits, as a codec other than NOCOMPRESS has it.
const TILE: Tile = Tile {
    pixels: 4,
    plain_len: 8,
    plain: false,
};

/// The same under NOCOMPRESS.
const PLAIN: Tile = Tile {
    plain: true,
    ..TILE
};

/// The descriptor of so many elements from a byte of the heap on.
fn at(count: u64, offset: u64) -> Descriptor
    ensures count { result.count ≡ count }
    ensures offset { result.offset ≡ offset }
{
    Descriptor { count, offset }
}

/// What a row says.
fn says(coded: Descriptor, stored: Descriptor, gzip: Descriptor) -> Row {
    Row {
        coded,
        stored,
        gzip,
    }
}

/// A record of which all is read.
fn whole(column: TileColumn, start: u64, total: u64) -> Result<Record, Fault> {
    Ok(Record {
        column,
        start,
        total,
        read: total,
    })
}

/// A fault of row 5.
fn refused(kind: Kind) -> Result<Record, Fault> {
    Err(Fault {
        hdu: 1,
        at: Place::Row(5),
        kind,
    })
}

/// The count and the offset of the descriptors in three columns, the tile, and the column, start and length of the record, or why
/// the row is refused.
static RECORDS: [(
    ((u64, u64), (u64, u64), (u64, u64)),
    Tile,
    Result<(TileColumn, u64, u64), Kind>,
); 21] = [
    (
        ((4, 2), (0, 0), (0, 0)),
        TILE,
        Ok((TileColumn::Coded, 74, 4)),
    ),
    (
        ((4, 2), (4, 8), (0, 0)),
        TILE,
        Ok((TileColumn::Coded, 74, 4)),
    ),
    (
        ((0, 0), (4, 8), (0, 0)),
        TILE,
        Ok((TileColumn::Stored, 80, 8)),
    ),
    (
        ((0, 0), (4, 16), (0, 0)),
        TILE,
        Ok((TileColumn::Stored, 88, 8)),
    ),
    (
        ((0, 0), (4, 8), (2, 0)),
        TILE,
        Ok((TileColumn::Stored, 80, 8)),
    ),
    (
        ((4, 2), (0, 0), (2, 0)),
        TILE,
        Ok((TileColumn::Coded, 74, 4)),
    ),
    (
        ((24, 0), (0, 0), (0, 0)),
        TILE,
        Ok((TileColumn::Coded, 72, 24)),
    ),
    (((0, 0), (0, 0), (2, 0)), TILE, Err(Kind::GzipTile)),
    (((0, 0), (0, 0), (u64::MAX, 0)), TILE, Err(Kind::GzipTile)),
    (((0, 0), (0, 0), (0, 0)), TILE, Err(Kind::TileMissing)),
    (((0, 30), (0, 30), (0, 30)), TILE, Err(Kind::TileMissing)),
    (((0, 0), (4, 17), (0, 0)), TILE, Err(Kind::DescriptorRange)),
    (((0, 0), (16, 0), (0, 0)), TILE, Err(Kind::DescriptorRange)),
    (
        ((4_294_967_295, 0), (0, 0), (0, 0)),
        TILE,
        Err(Kind::DescriptorRange),
    ),
    (
        ((0, 0), (4, u64::MAX), (0, 0)),
        TILE,
        Err(Kind::DescriptorRange),
    ),
    (((0, 0), (1, 0), (0, 0)), TILE, Err(Kind::TileSize)),
    (((0, 0), (5, 0), (0, 0)), TILE, Err(Kind::TileSize)),
    (
        ((8, 0), (0, 0), (0, 0)),
        PLAIN,
        Ok((TileColumn::Coded, 72, 8)),
    ),
    (((7, 0), (0, 0), (0, 0)), PLAIN, Err(Kind::TileSize)),
    (
        ((0, 0), (4, 0), (0, 0)),
        PLAIN,
        Ok((TileColumn::Stored, 72, 8)),
    ),
    (((25, 0), (0, 0), (0, 0)), PLAIN, Err(Kind::DescriptorRange)),
];

#[test]
fn records(rt: HostRuntime) {
    for &(described, tile, expected) in &RECORDS {
        let (coded, stored, gzip) = described;
        let row = says(
            at(coded.0, coded.1),
            at(stored.0, stored.1),
            at(gzip.0, gzip.1),
        );
        let expected = match expected {
            Ok((column, start, total)) => whole(column, start, total),
            Err(kind) => refused(kind),
        };
        alike(&rt, record_of(1, 5, &THREE, &row, &tile), expected);
    }
    let long = Table {
        heap_len: 1_000_006,
        ..THREE
    };
    let three = Tile {
        pixels: 3,
        plain_len: 6,
        plain: false,
    };
    let expected = Ok(Record {
        column: TileColumn::Coded,
        start: 72,
        total: 1_000_006,
        read: 88,
    });
    alike(
        &rt,
        record_of(1, 0, &long, &says(at(1_000_006, 0), NONE, NONE), &three),
        expected,
    );
}

#[test]
fn records_of_a_file(rt: HostRuntime) -> Result<(), Fail> {
    let alloc = rt.alloc();
    let none = at(0, 0);
    let mut bytes = [0; 96];
    write_row(&mut bytes[..16], false, &at(4, 2), &none);
    write_row(&mut bytes[24..40], false, &none, &at(4, 8));
    bytes[67] = 2;
    for i in 0..24 {
        bytes[72 + i] = i as u8;
    }
    alike(
        &rt,
        row_in(&THREE, &bytes[24..48]),
        says(none, at(4, 8), none),
    );
    assert!(rt; is_filled(&TABLE) && !is_filled(&THREE));
    let mut source = MemSource::new(alloc, bytes.to_vec(alloc)?, Vec::new(alloc));
    let length = source.attach("any")?;
    assert!(rt; length == 96);
    let mut code = [0; 96];
    let first = find_record(&mut source, 1, &THREE, 0, &TILE)?;
    alike(&rt, Ok(first), whole(TileColumn::Coded, 74, 4));
    read_record(&mut source, &first, &mut code)?;
    assert!(rt; code[..5] == [2, 3, 4, 5, 0]);
    if first.read < 2 {
        return Err(Fail::new("the record has four bytes"));
    }
    read_rest(&mut source, &first, 1, &mut code)?;
    assert!(rt; code[..5] == [3, 4, 5, 5, 0]);
    let apart = Table {
        coded: THREE.gzip,
        gzip: None,
        stored: THREE.coded,
        ..THREE
    };
    let swapped = Table {
        coded: THREE.stored,
        stored: THREE.coded,
        gzip: None,
        ..THREE
    };
    let missing = Err(Stop::Refused(Fault {
        hdu: 1,
        at: Place::Row(1),
        kind: Kind::TileMissing,
    }));
    alike(&rt, find_record(&mut source, 1, &apart, 1, &TILE), missing);
    let second = find_record(&mut source, 1, &swapped, 1, &TILE)?;
    alike(&rt, Ok(second), whole(TileColumn::Coded, 80, 8));
    let gzip = Err(Stop::Refused(Fault {
        hdu: 1,
        at: Place::Row(2),
        kind: Kind::GzipTile,
    }));
    alike(&rt, find_record(&mut source, 1, &THREE, 2, &TILE), gzip);
    let reads = [
        (0, 16),
        (16, 8),
        (74, 4),
        (75, 3),
        (40, 8),
        (24, 8),
        (24, 16),
        (48, 16),
        (64, 8),
    ];
    assert!(rt; source.reads() == reads.as_slice());
    Ok(())
}
