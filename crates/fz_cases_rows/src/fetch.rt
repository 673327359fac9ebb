//! Packed images that were written out by hand: what is fetched of them, what is refused, and what is written.
ghost use Rattle.std.specs.Prelude.{ℕ, ◌≡◌, ◌*◌, ◌^◌, ◌<◌, ◌≤◌, IsTrue, ℤ, List, length as len, None, IfOk, OnOk, slice_index};
ghost use Rattle.fz_grid.specs.Overlap.{has_pixel};
ghost use Rattle.fz_grid.specs.Region.{IsDivided, lengths_of};
ghost use Rattle.fz_grid.specs.Sieve.{IsSieveOf};
ghost use Rattle.fz_grid.specs.Cutout.{part_lengths};
ghost use Rattle.fz_files.specs.Restored.{pixels_of};
ghost use Rattle.fz_pool.specs.Window.{HasSlotsFor};
ghost use Rattle.fz_fetch.specs.Fetched.{HaveTiles};
ghost use Rattle.fz_job.specs.Images.{AreTilesOf, IsReadable};

use crate::asserts::alike;
use fz_base::{
    Failed, Fault, FreeGate, Kind, MemSink, MemSource, Meter, Place, Sink, Source, Stop,
};
use fz_block::{Axes, Header, Sort};
use fz_checks::PackedImage;
use fz_fetch::{Ahead, fetch_ahead, fetch_tiles, number_tiles};
use fz_grid::{Grid, Sieve, cutout_axes, shape_law};
use fz_head::Plan;
use fz_job::{Held, write_pieces};
use fz_pixels::{scatter_held, scatter_picks, scatter_tiles};
use fz_pool::{Crew, Window, sizes_law};
use fz_table::{Column, Table};
use fz_tile::Codec;
use std::alloc::{AllocError, Global};
use std::process::Abort;
use std::test::Fail;
use std::thread::Threads;

/// The header of HDU 1. A source that does not show its bytes leaves open what is in it.
pub(crate) const HEADER: Header = Header {
    hdu: 1,
    start: 0,
    cards: 0,
    blocks: 1,
    sort: Sort::BinTable,
    bitpix: 8,
    axes: Axes { n: 0, len: [0; 9] },
    pcount: 0,
    gcount: 1,
    data_len: 0,
};

/// An image of 5 by 3 pixels of one byte, packed in plain tiles of 2 by 2: six rows, and 15 bytes of heap.
fn plain_image() -> PackedImage
    ensures readable { IsReadable result }
    ensures pixels { pixels_of result.plan 0 ≡ 4 }
{
    PackedImage {
        plan: Plan {
            codec: Codec::Plain,
            bitpix: 8,
            shape: Axes {
                n: 2,
                len: [5, 3, 0, 0, 0, 0, 0, 0, 0],
            },
            tile: Axes {
                n: 2,
                len: [2, 2, 0, 0, 0, 0, 0, 0, 0],
            },
            primary: true,
            wide: false,
        },
        table: Table {
            row_bytes: 16,
            rows: 6,
            rows_at: 0,
            heap_at: 96,
            heap_len: 15,
            coded: Some(Column {
                at: 0,
                wide: false,
                unit: 1,
            }),
            stored: Some(Column {
                at: 8,
                wide: false,
                unit: 1,
            }),
            gzip: None,
        },
    }
}

/// Its rows, of the counts and offsets of the codes, of which there are none, and of the plain bytes; and its heap,
/// which has the pixels 1 to 15 tile by tile.
static PLAIN: [u8; 111] = [
    0, 0, 0, 0, 0, 0, 0, 0, 0, 0, 0, 4, 0, 0, 0, 0, //
    0, 0, 0, 0, 0, 0, 0, 0, 0, 0, 0, 4, 0, 0, 0, 4, //
    0, 0, 0, 0, 0, 0, 0, 0, 0, 0, 0, 2, 0, 0, 0, 8, //
    0, 0, 0, 0, 0, 0, 0, 0, 0, 0, 0, 2, 0, 0, 0, 10, //
    0, 0, 0, 0, 0, 0, 0, 0, 0, 0, 0, 2, 0, 0, 0, 12, //
    0, 0, 0, 0, 0, 0, 0, 0, 0, 0, 0, 1, 0, 0, 0, 14, //
    1, 2, 6, 7, 3, 4, 8, 9, 5, 10, 11, 12, 13, 14, 15,
];

/// An image of 4 by 2 pixels of two bytes, packed in RICE_1 tiles of a line: two rows, and 8 bytes of heap.
fn rice_image() -> PackedImage
    ensures readable { IsReadable result }
    ensures pixels { pixels_of result.plan 0 ≡ 4 }
{
    PackedImage {
        plan: Plan {
            codec: Codec::Rice {
                block: 32,
                bytepix: 2,
            },
            bitpix: 16,
            shape: Axes {
                n: 2,
                len: [4, 2, 0, 0, 0, 0, 0, 0, 0],
            },
            tile: Axes {
                n: 2,
                len: [4, 1, 0, 0, 0, 0, 0, 0, 0],
            },
            primary: true,
            wide: false,
        },
        table: Table {
            row_bytes: 16,
            rows: 2,
            rows_at: 0,
            heap_at: 32,
            heap_len: 8,
            coded: Some(Column {
                at: 0,
                wide: false,
                unit: 1,
            }),
            stored: Some(Column {
                at: 8,
                wide: false,
                unit: 2,
            }),
            gzip: None,
        },
    }
}

/// Its rows and its heap, which has the code of the pixels 0, 1, 0, 1 twice.
static RICE: [u8; 40] = [
    0, 0, 0, 4, 0, 0, 0, 0, 0, 0, 0, 0, 0, 0, 0, 0, //
    0, 0, 0, 4, 0, 0, 0, 4, 0, 0, 0, 0, 0, 0, 0, 0, //
    0, 0, 0x19, 0x48, 0, 0, 0x19, 0x48,
];

/// A source that another one reads for, and that does not show its bytes: so no header need say the image.
#[derive(Drop)]
pub(crate) struct Untold<S: Source + Drop> {
    pub(crate) source: S,
}

impl<S: Source + Drop> Source for Untold<S> {
    ghost held = { λ _. None };

    ghost ranges = { λ s. S.ranges s.source };

    ghost attached = { λ s. S.attached s.source };

    ghost tally = { λ s. S.tally s.source };

    fn attach(&mut self, name: &str) -> Result<u64, Failed> {
        self.source.attach(name)
    }

    fn read_at(&mut self, at: u64, into: &mut [u8]) -> Result<(), Failed> {
        self.source.read_at(at, into)
    }

    ghost agrees = { λ _ _ _. tt };

    ghost near = { λ s n e. S.near s.source n e };

    ghost octets = { λ _. tt };
}

/// A source of these bytes, of which some are made others.
pub(crate) fn source_of(
    alloc: Global,
    bytes: &[u8],
    others: &[(usize, u8)],
) -> Result<Untold<MemSource>, AllocError>
    requires { len bytes.now ≤ 2 ^ 32 }
{
    let mut file = vec![in alloc; 0u8; bytes.len()]?;
    file.copy_from_slice(bytes);
    for (at, byte) in others {
        if *at < file.len() {
            file[*at] = *byte;
        }
    }
    let source = MemSource::new(alloc, file, Vec::new(alloc));
    Ok(Untold { source })
}

/// A window for tiles of 4 pixels.
fn filled(alloc: Global, workers: u32) -> Result<Window, AllocError>
    requires { (1 ≤ workers) × (workers ≤ 64) }
    ensures workers { IfOk result (λ w. w.workers ≡ workers) }
    ensures slots { IfOk result (HasSlotsFor 4) }
{
    sizes_law();
    let mut meter = Meter::new(alloc, 1 << 20);
    let Ok(mut window) = Window::new(alloc, workers) else {
        return Err(AllocError);
    };
    match window.fill(&mut meter, 4) {
        Ok(()) => Ok(window),
        Err(_) => Err(AllocError),
    }
}

/// These are tiles of the image.
fn are_tiles(image: &PackedImage, tiles: &[u32]) -> bool
    requires { IsReadable image.now }
    ensures { IsTrue result → AreTilesOf image.now tiles.now }
{
    for i in 0..tiles.len() {
        if tiles[i] >= image.table.rows {
            return false;
        }
    }
    true
}

/// Fetches tiles into the window.
fn fetch<R: Threads + Sync>(
    rt: &R,
    source: &mut Untold<MemSource>,
    image: &PackedImage,
    tiles: &[u32],
    window: &mut Window,
) -> Result<(), Stop>
    requires image { IsReadable image.now }
    requires pixels { pixels_of image.now.plan 0 ≡ 4 }
    requires few { len tiles.now ≤ 2 * window.old.workers }
    requires window { HasSlotsFor 4 window.old }
    ensures fetched { OnOk result ((pixels : List (List ℤ)) × HaveTiles image.now.plan tiles.now window.new.slots pixels) }
    ensures tiles { OnOk result (AreTilesOf image.now tiles.now) }
    ensures workers { window.new.workers ≡ window.old.workers }
    ensures window { HasSlotsFor 4 window.new }
{
    let length = source.attach("any").map_err(Stop::reading)?;
    if length < image.table.heap_at + image.table.heap_len {
        return Err(Stop::ReadFault);
    }
    if !are_tiles(image, tiles) {
        return Err(Stop::ReadFault);
    }
    let mut rows = [0; 4096];
    let crew = Crew {
        rt,
        gate: &FreeGate,
        workers: window.workers(),
    };
    fetch_tiles(&crew, source, &HEADER, image, tiles, &mut rows, window)
}

/// Fetches the first two tiles into the window, and then the next two, with what is wanted later.
fn fetch_four<R: Threads + Sync>(
    rt: &R,
    source: &mut Untold<MemSource>,
    image: &PackedImage,
    window: &mut Window,
) -> Result<(), Stop>
    requires image { IsReadable image.now }
    requires pixels { pixels_of image.now.plan 0 ≡ 4 }
    requires some { 1 ≤ window.old.workers }
    requires window { HasSlotsFor 4 window.old }
    ensures workers { window.new.workers ≡ window.old.workers }
    ensures window { HasSlotsFor 4 window.new }
{
    let length = source.attach("any").map_err(Stop::reading)?;
    if length < image.table.heap_at + image.table.heap_len {
        return Err(Stop::ReadFault);
    }
    let first = [0, 1];
    if !are_tiles(image, &first) {
        return Err(Stop::ReadFault);
    }
    let next = [2, 3];
    if !are_tiles(image, &next) {
        return Err(Stop::ReadFault);
    }
    let mut buf = [0; 4160];
    let mut ahead = Ahead::none();
    let crew = Crew {
        rt,
        gate: &FreeGate,
        workers: window.workers(),
    };
    fetch_ahead(
        &crew, source, &HEADER, image, &first, &mut buf, &mut ahead, window,
    )?;
    fetch_ahead(
        &crew, source, &HEADER, image, &next, &mut buf, &mut ahead, window,
    )
}

/// Row `row` of HDU 1 is refused.
fn refused(row: u32, kind: Kind) -> Result<(), Stop> {
    Err(Stop::Refused(Fault {
        hdu: 1,
        at: Place::Row(row),
        kind,
    }))
}

/// The numbers of a slot begin with these.
fn expect_numbers(rt: &impl Abort, window: &Window, i: u32, numbers: &[i32])
    requires filled { HasSlotsFor 4 window.now }
    requires near { i < 2 * window.now.workers }
{
    sizes_law();
    let slot = window.slot(i);
    assert!(rt; slot.numbers.as_slice().starts_with(numbers));
}

/// A sink that was made.
fn made(alloc: Global) -> Result<MemSink, Failed>
    ensures { IfOk result (λ s. IsTrue (⟦<MemSink as Sink>⟧.created s)) }
{
    let mut sink = MemSink::new(alloc, Vec::new(alloc), 0);
    sink.create("any")?;
    Ok(sink)
}

/// The sieve has a pick along each axis of the array, and none after it.
pub(crate) fn sifts(shape: &Axes, sieve: &Sieve) -> bool
    requires { shape.now.n ≤ 9 }
    ensures { IsTrue result → IsSieveOf shape.now sieve.now }
{
    if sieve.n != shape.n {
        return false;
    }
    for i in 0..shape.n as usize {
        if sieve.lo[i] > sieve.hi[i] {
            return false;
        }
        if sieve.hi[i] >= shape.len[i] {
            return false;
        }
        if sieve.step[i] < 1 {
            return false;
        }
    }
    true
}

/// The tile has a pick.
pub(crate) fn has_pick(plan: &Plan, sieve: &Sieve, tile: u32) -> bool
    requires divided { IsDivided plan.now.shape plan.now.tile }
    requires sieve { IsSieveOf plan.now.shape sieve.now }
    ensures { IsTrue result → IsTrue (has_pixel (part_lengths (lengths_of plan.now.shape) (lengths_of plan.now.tile) sieve.now tile)) }
{
    let grid = Grid::new(plan.shape, plan.tile);
    for other in grid.sieve_tiles(sieve) {
        if other == tile {
            return true;
        }
    }
    false
}

/// All these tiles have a pick.
fn have_picks(plan: &Plan, sieve: &Sieve, tiles: &[u32]) -> bool
    requires divided { IsDivided plan.now.shape plan.now.tile }
    requires sieve { IsSieveOf plan.now.shape sieve.now }
    ensures { IsTrue result → (i : ℕ) → i < len tiles.now →
        IsTrue (has_pixel (part_lengths (lengths_of plan.now.shape) (lengths_of plan.now.tile) sieve.now (slice_index tiles.now i))) }
{
    for i in 0..tiles.len() {
        if !has_pick(plan, sieve, tiles[i]) {
            return false;
        }
    }
    true
}

/// Writes tiles of the window to the sink, after 3 bytes.
fn scatter(
    sink: &mut MemSink,
    image: &PackedImage,
    tiles: &[u32],
    window: &mut Window,
) -> Result<(), Stop>
    requires created { IsTrue (⟦<MemSink as Sink>⟧.created sink.old) }
    requires image { IsReadable image.now }
    requires few { len tiles.now ≤ 2 * window.old.workers }
    requires small { pixels_of image.now.plan 0 ≡ 4 }
    requires window { HasSlotsFor 4 window.old }
    requires tiles { AreTilesOf image.now tiles.now }
    requires pixels { (pixels : List (List ℤ)) × HaveTiles image.now.plan tiles.now window.old.slots pixels }
{
    scatter_tiles(sink, 3, &image.plan, tiles, window)
}

/// Writes as `scatter` does, many pieces together, and answers how many bytes were held back before the last writing.
fn scatter_together(
    sink: &mut MemSink,
    image: &PackedImage,
    tiles: &[u32],
    window: &mut Window,
) -> Result<usize, Stop>
    requires created { IsTrue (⟦<MemSink as Sink>⟧.created sink.old) }
    requires image { IsReadable image.now }
    requires few { len tiles.now ≤ 2 * window.old.workers }
    requires small { pixels_of image.now.plan 0 ≡ 4 }
    requires window { HasSlotsFor 4 window.old }
    requires tiles { AreTilesOf image.now tiles.now }
    requires pixels { (pixels : List (List ℤ)) × HaveTiles image.now.plan tiles.now window.old.slots pixels }
{
    let mut held = [0; 64];
    let mut back = Held::none();
    scatter_held(sink, 3, &image.plan, tiles, window, &mut held, &mut back)?;
    write_pieces(sink, &held, &back)?;
    Ok(back.count)
}

/// Writes picks of tiles of the window to the sink, after 3 bytes.
fn cut(
    sink: &mut MemSink,
    image: &PackedImage,
    sieve: &Sieve,
    tiles: &[u32],
    window: &mut Window,
) -> Result<(), Stop>
    requires created { IsTrue (⟦<MemSink as Sink>⟧.created sink.old) }
    requires image { IsReadable image.now }
    requires few { len tiles.now ≤ 2 * window.old.workers }
    requires small { pixels_of image.now.plan 0 ≡ 4 }
    requires window { HasSlotsFor 4 window.old }
    requires tiles { AreTilesOf image.now tiles.now }
    requires pixels { (pixels : List (List ℤ)) × HaveTiles image.now.plan tiles.now window.old.slots pixels }
{
    let plan = &image.plan;
    shape_law();
    if !sifts(&plan.shape, sieve) {
        return Err(Stop::WriteFault);
    }
    if !have_picks(plan, sieve, tiles) {
        return Err(Stop::WriteFault);
    }
    // This call shows that the cutout is no larger than an image.
    let _cutout = cutout_axes(&plan.shape, sieve);
    scatter_picks(sink, 3, plan, sieve, tiles, window)
}

#[test]
fn tiles_are_numbered(rt: HostRuntime) {
    let mut tiles = [0; 3];
    number_tiles(4, &mut tiles);
    alike(&rt, tiles, [4, 5, 6]);
}

#[test]
fn tiles_are_fetched_and_written(rt: HostRuntime) -> Result<(), Fail> {
    let alloc = rt.alloc();
    let image = plain_image();
    let mut source = source_of(alloc, &PLAIN, &[])?;
    let mut window = filled(alloc, 3)?;
    let mut tiles = [0; 6];
    number_tiles(0, &mut tiles);
    fetch(&rt, &mut source, &image, &tiles, &mut window)?;
    // The descriptors fill the rows, which are read by one reading.
    let read = [
        (0, 96),
        (96, 4),
        (100, 4),
        (104, 2),
        (106, 2),
        (108, 2),
        (110, 1),
    ];
    alike(&rt, source.source.reads(), read.as_slice());
    expect_numbers(&rt, &window, 0, &[1, 2, 6, 7]);
    expect_numbers(&rt, &window, 1, &[3, 4, 8, 9]);
    expect_numbers(&rt, &window, 2, &[5, 10]);
    expect_numbers(&rt, &window, 3, &[11, 12]);
    expect_numbers(&rt, &window, 4, &[13, 14]);
    expect_numbers(&rt, &window, 5, &[15]);
    let mut sink = made(alloc)?;
    scatter(&mut sink, &image, &tiles, &mut window)?;
    let written = [0, 0, 0, 1, 2, 3, 4, 5, 6, 7, 8, 9, 10, 11, 12, 13, 14, 15];
    alike(&rt, sink.contents(), written.as_slice());
    Ok(())
}

#[test]
fn rows_and_records_are_read_before_they_are_wanted(rt: HostRuntime) -> Result<(), Fail> {
    let alloc = rt.alloc();
    let image = plain_image();
    let mut source = source_of(alloc, &PLAIN, &[])?;
    let mut window = filled(alloc, 1)?;
    fetch_four(&rt, &mut source, &image, &mut window)?;
    // All rows are read by one reading, and all records, which follow each other, by another.
    alike(&rt, source.source.reads(), [(0, 96), (96, 15)].as_slice());
    expect_numbers(&rt, &window, 0, &[5, 10]);
    expect_numbers(&rt, &window, 1, &[11, 12]);
    Ok(())
}

#[test]
fn records_that_do_not_follow_are_read_one_by_one(rt: HostRuntime) -> Result<(), Fail> {
    let alloc = rt.alloc();
    let image = plain_image();
    // The record of row 1 begins a byte later, and ends in that of row 2.
    let mut source = source_of(alloc, &PLAIN, &[(31, 5)])?;
    let mut window = filled(alloc, 1)?;
    fetch_four(&rt, &mut source, &image, &mut window)?;
    let read = [(0, 96), (96, 4), (101, 4), (104, 7)];
    alike(&rt, source.source.reads(), read.as_slice());
    expect_numbers(&rt, &window, 0, &[5, 10]);
    expect_numbers(&rt, &window, 1, &[11, 12]);
    Ok(())
}

#[test]
fn neighbours_are_written_together(rt: HostRuntime) -> Result<(), Fail> {
    let alloc = rt.alloc();
    let image = rice_image();
    let mut source = source_of(alloc, &RICE, &[])?;
    let mut window = filled(alloc, 1)?;
    let tiles = [0, 1];
    fetch(&rt, &mut source, &image, &tiles, &mut window)?;
    let mut sink = made(alloc)?;
    let held = scatter_together(&mut sink, &image, &tiles, &mut window)?;
    alike(&rt, held, 16);
    let wanted = [0, 0, 0, 0, 0, 0, 1, 0, 0, 0, 1, 0, 0, 0, 1, 0, 0, 0, 1];
    alike(&rt, sink.contents(), wanted.as_slice());
    Ok(())
}

#[test]
fn pieces_that_are_apart_are_written_in_order(rt: HostRuntime) -> Result<(), Fail> {
    let alloc = rt.alloc();
    let image = plain_image();
    let mut source = source_of(alloc, &PLAIN, &[])?;
    let mut window = filled(alloc, 3)?;
    let mut tiles = [0; 6];
    number_tiles(0, &mut tiles);
    fetch(&rt, &mut source, &image, &tiles, &mut window)?;
    let mut sink = made(alloc)?;
    let held = scatter_together(&mut sink, &image, &tiles, &mut window)?;
    // The last pixel of tile 2 is followed by the last line of the image.
    alike(&rt, held, 6);
    let wanted = [0, 0, 0, 1, 2, 3, 4, 5, 6, 7, 8, 9, 10, 11, 12, 13, 14, 15];
    alike(&rt, sink.contents(), wanted.as_slice());
    Ok(())
}

#[test]
fn coded_tiles_are_fetched(rt: HostRuntime) -> Result<(), Fail> {
    let alloc = rt.alloc();
    let image = rice_image();
    let mut source = source_of(alloc, &RICE, &[])?;
    let mut window = filled(alloc, 1)?;
    fetch(&rt, &mut source, &image, &[1, 0], &mut window)?;
    expect_numbers(&rt, &window, 0, &[0, 1, 0, 1]);
    expect_numbers(&rt, &window, 1, &[0, 1, 0, 1]);
    Ok(())
}

#[test]
fn picks_are_fetched_and_written(rt: HostRuntime) -> Result<(), Fail> {
    let alloc = rt.alloc();
    let image = plain_image();
    let mut source = source_of(alloc, &PLAIN, &[])?;
    let mut window = filled(alloc, 3)?;
    let middle = Sieve {
        n: 2,
        lo: [1, 1, 0, 0, 0, 0, 0, 0, 0],
        hi: [3, 2, 0, 0, 0, 0, 0, 0, 0],
        step: [1; 9],
    };
    let tiles = [0, 1, 3, 4];
    fetch(&rt, &mut source, &image, &tiles, &mut window)?;
    // No byte of the rows 2 and 5 and of their records is read.
    let read = [
        (0, 16),
        (96, 4),
        (16, 16),
        (100, 4),
        (48, 16),
        (106, 2),
        (64, 16),
        (108, 2),
    ];
    alike(&rt, source.source.reads(), read.as_slice());
    let mut sink = made(alloc)?;
    cut(&mut sink, &image, &middle, &tiles, &mut window)?;
    alike(
        &rt,
        sink.contents(),
        [0, 0, 0, 7, 8, 9, 12, 13, 14].as_slice(),
    );
    Ok(())
}

#[test]
fn picks_with_a_step_are_written(rt: HostRuntime) -> Result<(), Fail> {
    let alloc = rt.alloc();
    let image = plain_image();
    let mut source = source_of(alloc, &PLAIN, &[])?;
    let mut window = filled(alloc, 3)?;
    let apart = Sieve {
        n: 2,
        lo: [0; 9],
        hi: [4, 2, 0, 0, 0, 0, 0, 0, 0],
        step: [2; 9],
    };
    let tiles = [0, 1, 2, 3, 4, 5];
    fetch(&rt, &mut source, &image, &tiles, &mut window)?;
    let mut sink = made(alloc)?;
    cut(&mut sink, &image, &apart, &tiles, &mut window)?;
    alike(
        &rt,
        sink.contents(),
        [0, 0, 0, 1, 3, 5, 11, 13, 15].as_slice(),
    );
    Ok(())
}

#[test]
fn picks_of_two_bytes_are_gathered(rt: HostRuntime) -> Result<(), Fail> {
    let alloc = rt.alloc();
    let image = rice_image();
    let mut source = source_of(alloc, &RICE, &[])?;
    let mut window = filled(alloc, 1)?;
    let second = Sieve {
        n: 2,
        lo: [1, 0, 0, 0, 0, 0, 0, 0, 0],
        hi: [3, 1, 0, 0, 0, 0, 0, 0, 0],
        step: [2, 1, 1, 1, 1, 1, 1, 1, 1],
    };
    let tiles = [0, 1];
    fetch(&rt, &mut source, &image, &tiles, &mut window)?;
    let mut sink = made(alloc)?;
    cut(&mut sink, &image, &second, &tiles, &mut window)?;
    let wanted = [0, 0, 0, 0, 1, 0, 1, 0, 1, 0, 1];
    alike(&rt, sink.contents(), wanted.as_slice());
    Ok(())
}

/// What a fetch of the tiles answers, if some bytes of the table are others.
fn fetch_of<R: Threads + Sync>(
    rt: &R,
    alloc: Global,
    others: &[(usize, u8)],
    tiles: &[u32],
) -> Result<(), Stop>
    requires { len tiles.now ≤ 6 }
{
    let Ok(mut source) = source_of(alloc, &PLAIN, others) else {
        return Err(Stop::NoMemory);
    };
    let Ok(mut window) = filled(alloc, 3) else {
        return Err(Stop::NoMemory);
    };
    fetch(rt, &mut source, &plain_image(), tiles, &mut window)
}

#[test]
fn the_first_faulty_row_is_refused(rt: HostRuntime) -> Result<(), Fail> {
    let alloc = rt.alloc();
    let all = [0, 1, 2, 3, 4, 5];
    // The plain bytes of rows 3 and 5 end after the heap.
    let two = [(59, 16), (91, 16)];
    alike(
        &rt,
        fetch_of(&rt, alloc, &two, &all),
        refused(3, Kind::DescriptorRange),
    );
    alike(
        &rt,
        fetch_of(&rt, alloc, &two, &[0, 5, 3]),
        refused(5, Kind::DescriptorRange),
    );
    alike(&rt, fetch_of(&rt, alloc, &two, &[0, 1, 2, 4]), Ok(()));
    // Row 5 has no plain bytes, and no codes.
    let none = [(91, 0)];
    alike(
        &rt,
        fetch_of(&rt, alloc, &none, &all),
        refused(5, Kind::TileMissing),
    );
    // Row 4 has too few.
    let short = [(75, 1)];
    alike(
        &rt,
        fetch_of(&rt, alloc, &short, &all),
        refused(4, Kind::TileSize),
    );
    Ok(())
}

#[test]
fn a_code_comes_before_a_later_row(rt: HostRuntime) -> Result<(), Fail> {
    let alloc = rt.alloc();
    let image = rice_image();
    let mut window = filled(alloc, 1)?;
    // The code of row 0 has 2 bytes, and that of row 1 ends after the heap.
    let mut source = source_of(alloc, &RICE, &[(3, 2), (19, 5)])?;
    let answer = fetch(&rt, &mut source, &image, &[0, 1], &mut window);
    alike(&rt, answer, refused(0, Kind::CodeShort));
    let answer = fetch(&rt, &mut source, &image, &[1], &mut window);
    alike(&rt, answer, refused(1, Kind::DescriptorRange));
    Ok(())
}
