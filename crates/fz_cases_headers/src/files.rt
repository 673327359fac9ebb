//! Files whose headers are made here, and what the calls answer of them.
ghost use Rattle.std.specs.Prelude.{◌≡◌, ◌+◌, ◌<◌, ◌≤◌, ◌^◌, IfOk, IsTrue, length as len};
ghost use Rattle.fz_block.specs.Facts.{IsHeaderOf};
ghost use Rattle.fz_block.specs.Header.{next_start_of};
ghost use Rattle.fz_head.specs.Conditions.{AreShort, IsPackedPlan};
ghost use Rattle.fz_head.specs.Planned.{AreOptions};

use fz_base::{Fault, Kind, MemSource, Place, Source, Stop};
use fz_block::{BLOCK_LEN, Header, Sort, read_header};
use fz_checks::{plan_of, table_check};
use fz_head::{
    CodecWord, PackOptions, Plan, Totals, is_packable, is_packed, pack_plan, to_packed, to_plain,
};
use fz_table::Table;
use std::alloc::Global;

/// The bytes of a file: two blocks for its header, and one for its data.
pub(crate) const FILE_LEN: usize = 8640;

pub(crate) static SMALL: [&[u8]; 5] = [
    b"SIMPLE  =                    T",
    b"BITPIX  =                   16",
    b"NAXIS   =                    2",
    b"NAXIS1  =                    4",
    b"NAXIS2  =                    2",
];

pub(crate) static PACKED: [&[u8]; 25] = [
    b"XTENSION= 'BINTABLE'",
    b"BITPIX  =                    8",
    b"NAXIS   =                    2",
    b"NAXIS1  =                   16",
    b"NAXIS2  =                    2",
    b"PCOUNT  =                    8",
    b"GCOUNT  =                    1",
    b"TFIELDS =                    2",
    b"TTYPE1  = 'COMPRESSED_DATA'",
    b"TFORM1  = '1PB(4)  '",
    b"TTYPE2  = 'UNCOMPRESSED_DATA'",
    b"TFORM2  = '1PI(0)  '",
    b"ZIMAGE  =                    T",
    b"ZCMPTYPE= 'RICE_1  '",
    b"ZTILE1  =                    4",
    b"ZTILE2  =                    1",
    b"ZNAME1  = 'BLOCKSIZE'",
    b"ZVAL1   =                   32",
    b"ZNAME2  = 'BYTEPIX '",
    b"ZVAL2   =                    2",
    b"ZSIMPLE =                    T",
    b"ZBITPIX =                   16",
    b"ZNAXIS  =                    2",
    b"ZNAXIS1 =                    4",
    b"ZNAXIS2 =                    2",
];

/// Puts a card into the header of a file.
pub(crate) fn put(file: &mut [u8; FILE_LEN], i: usize, text: &[u8]) {
    let i = i.min(71);
    let len = text.len().min(80);
    let card = &mut file[80 * i..80 * (i + 1)];
    card.fill(b' ');
    card[..len].copy_from_slice(&text[..len]);
}

/// The file whose header has these cards and END, and other cards in place of some of them or after
/// them.
pub(crate) fn file_of(cards: &[&[u8]], changes: &[(usize, &[u8])]) -> [u8; FILE_LEN] {
    let mut file = [0; FILE_LEN];
    file[..2 * BLOCK_LEN].fill(b' ');
    for (i, text) in cards.iter().enumerate() {
        put(&mut file, i, text);
    }
    put(&mut file, cards.len(), b"END");
    for (i, text) in changes {
        put(&mut file, *i, text);
    }
    file
}

/// Whether two buffers begin with the same bytes, so many.
pub(crate) fn begin_alike(one: &[u8], other: &[u8], len: usize) -> bool {
    len <= one.len() && len <= other.len() && one[..len] == other[..len]
}

/// A source that holds the file, if there is memory.
fn source_of(alloc: Global, file: &[u8; FILE_LEN]) -> Result<MemSource, Stop> {
    let bytes = file.to_vec(alloc).map_err(|_| Stop::NoMemory)?;
    Ok(MemSource::new(alloc, bytes, Vec::new(alloc)))
}

/// Reads the header of one block at the front of the file.
pub(crate) fn one_block(
    alloc: Global,
    file: &[u8; FILE_LEN],
    hdu: u32,
    buf: &mut [u8; 2880],
) -> Result<Header, Stop>
    ensures header { IfOk result (IsHeaderOf buf.new) }
    ensures end { IfOk result (λ h. next_start_of h ≤ 2 ^ 62) }
{
    let mut source = source_of(alloc, file)?;
    let length = source.attach("any").map_err(Stop::reading)?;
    if length < 2880 {
        return Err(Stop::NoMemory);
    }
    read_header(&mut source, length, hdu, 0, buf)
}

/// Reads the header of two blocks at the front of the file.
pub(crate) fn two_blocks(
    alloc: Global,
    file: &[u8; FILE_LEN],
    hdu: u32,
    buf: &mut [u8; 5760],
) -> Result<Header, Stop>
    ensures header { IfOk result (IsHeaderOf buf.new) }
    ensures end { IfOk result (λ h. next_start_of h ≤ 2 ^ 62) }
{
    let mut source = source_of(alloc, file)?;
    let length = source.attach("any").map_err(Stop::reading)?;
    if length < 5760 {
        return Err(Stop::NoMemory);
    }
    read_header(&mut source, length, hdu, 0, buf)
}

/// The options of a row: the codec, with sums or without, and no tile.
pub(crate) fn options_for(codec: CodecWord, sums: bool) -> PackOptions
    ensures options { AreOptions result }
    ensures sums { result.sums ≡ sums }
{
    PackOptions {
        codec,
        tile: None,
        block: 32,
        sums,
        workers: 1,
    }
}

/// What the packed header of the small file says of its tiles.
pub(crate) fn totals_for(sums: bool) -> Totals
    ensures { AreShort result }
{
    Totals {
        heap: 8,
        emax_coded: 4,
        emax_stored: 0,
        sums,
    }
}

/// Writes the packed header of an image with this codec, and answers its length; 0 if the HDU is not
/// packable.
pub(crate) fn pack_header(
    buf: &[u8],
    header: &Header,
    codec: CodecWord,
    totals: &Totals,
    out: &mut [u8],
) -> Result<usize, Fault>
    requires header { IsHeaderOf buf.now header.now }
    requires end { next_start_of header.now ≤ 2 ^ 62 }
    requires totals { AreShort totals.now }
    requires room { len buf.now + 2880 ≤ len out.old }
{
    if !is_packable(buf, header) {
        return Ok(0);
    }
    let options = options_for(codec, totals.sums);
    let plan = pack_plan(buf, header, &options)?;
    Ok(to_packed(buf, header, &plan, totals, out))
}

/// A fault of HDU 1 at this card.
pub(crate) fn fault_at(card: u32, kind: Kind) -> Fault {
    Fault {
        hdu: 1,
        at: Place::Card(card),
        kind,
    }
}

/// The plan that a packed header stands for, or the first check that refuses.
pub(crate) fn packed_plan(buf: &[u8], header: &Header, after_empty: bool) -> Result<Plan, Fault>
    requires header { IsHeaderOf buf.now header.now }
    requires end { next_start_of header.now ≤ 2 ^ 62 }
    ensures { IfOk result (IsPackedPlan buf.now header.now) }
{
    if header.sort != Sort::BinTable || !is_packed(buf, header) {
        return Err(fault_at(0, Kind::NotPacked));
    }
    table_check(buf, header)?;
    let table = Table::of(buf, header)?;
    plan_of(buf, header, &table, after_empty)
}

/// Writes the header of the image of a packed header, and answers its length.
pub(crate) fn restore_header(buf: &[u8], header: &Header, out: &mut [u8]) -> Result<usize, Fault>
    requires header { IsHeaderOf buf.now header.now }
    requires end { next_start_of header.now ≤ 2 ^ 62 }
    requires room { len buf.now + 2880 ≤ len out.old }
{
    let plan = packed_plan(buf, header, true)?;
    Ok(to_plain(buf, header, &plan, out))
}
