//! The code of a tile that was written out by hand, and is read in parts.
ghost use Rattle.std.specs.Prelude.{◌≡◌};
ghost use Rattle.fz_files.specs.Packed.{tiles_in};
ghost use Rattle.fz_files.specs.Restored.{pixels_of};
ghost use Rattle.fz_job.specs.Images.{IsReadable};

use crate::asserts::alike;
use crate::fetch::{HEADER, Untold, has_pick, sifts, source_of};
use fz_base::{MemSource, Source, Stop};
use fz_block::Axes;
use fz_checks::PackedImage;
use fz_grid::{Sieve, shape_law};
use fz_head::Plan;
use fz_pixels::{Mark, TileMark, fetch_part, part_span, part_start};
use fz_table::{Column, Table};
use fz_tile::Codec;
use std::test::Fail;

/// An image of 33 pixels of two bytes, packed in one RICE_1 tile: a row, and 4 bytes of heap.
fn line_image() -> PackedImage
    ensures readable { IsReadable result }
    ensures pixels { pixels_of result.plan 0 ≡ 33 }
    ensures tiles { tiles_in result.plan ≡ 1 }
{
    PackedImage {
        plan: Plan {
            codec: Codec::Rice {
                block: 32,
                bytepix: 2,
            },
            bitpix: 16,
            shape: Axes {
                n: 1,
                len: [33, 0, 0, 0, 0, 0, 0, 0, 0],
            },
            tile: Axes {
                n: 1,
                len: [33, 0, 0, 0, 0, 0, 0, 0, 0],
            },
            primary: true,
            wide: false,
        },
        table: Table {
            row_bytes: 16,
            rows: 1,
            rows_at: 0,
            heap_at: 16,
            heap_len: 4,
            coded: Some(Column {
                at: 0,
                wide: false,
                unit: 1,
            }),
            stored: Some(Column {
                at: 8,
                wide: false,
                unit: 2,
            }),
            gzip: None,
        },
    }
}

/// Its row and its heap, which has the code of 32 pixels of 10, whose block has id 0, and one of 12.
static LINE: [u8; 20] = [
    0, 0, 0, 4, 0, 0, 0, 0, 0, 0, 0, 0, 0, 0, 0, 0, //
    0x00, 0x0a, 0x02, 0x20,
];

/// Reads pixels of the tile, up to this one or the end of its block.
fn read_part(
    source: &mut Untold<MemSource>,
    from: Option<TileMark>,
    end: u32,
    numbers: &mut [i32; 33],
) -> Result<Option<TileMark>, Stop> {
    let image = line_image();
    let length = source.attach("any").map_err(Stop::reading)?;
    if length < image.table.heap_at + image.table.heap_len {
        return Err(Stop::ReadFault);
    }
    if end > 33 {
        return Err(Stop::ReadFault);
    }
    if part_start(from) >= end {
        return Err(Stop::ReadFault);
    }
    let mut code = [0; 328];
    fetch_part(source, &HEADER, &image, 0, from, end, numbers, &mut code)
}

/// Where the picks of the tile begin and end, if it has any.
fn span_of(lo: u32, hi: u32, step: u32) -> Option<(u32, u32)> {
    let plan = line_image().plan;
    let sieve = Sieve {
        n: 1,
        lo: [lo, 0, 0, 0, 0, 0, 0, 0, 0],
        hi: [hi, 0, 0, 0, 0, 0, 0, 0, 0],
        step: [step, 1, 1, 1, 1, 1, 1, 1, 1],
    };
    shape_law();
    if !sifts(&plan.shape, &sieve) {
        return None;
    }
    if !has_pick(&plan, &sieve, 0) {
        return None;
    }
    Some(part_span(&plan, &sieve, 0))
}

#[test]
fn a_code_is_read_in_two_parts(rt: HostRuntime) -> Result<(), Fail> {
    let alloc = rt.alloc();
    let mut source = source_of(alloc, &LINE, &[])?;
    let mut numbers = [7; 33];
    let first = read_part(&mut source, None, 5, &mut numbers)?;
    let block = TileMark {
        pixel: 32,
        mark: Mark { bit: 20, last: 10 },
    };
    alike(&rt, first, Some(block));
    let mut wanted = [10; 33];
    wanted[32] = 7;
    alike(&rt, numbers, wanted);
    let second = read_part(&mut source, first, 33, &mut numbers)?;
    let whole = TileMark {
        pixel: 33,
        mark: Mark { bit: 28, last: 12 },
    };
    alike(&rt, second, Some(whole));
    wanted[32] = 12;
    alike(&rt, numbers, wanted);
    // The second part is read from the mark's byte on.
    let read = [(0, 16), (16, 4), (0, 16), (18, 2)];
    alike(&rt, source.source.reads(), read.as_slice());
    Ok(())
}

#[test]
fn a_part_that_is_not_there_is_none(rt: HostRuntime) -> Result<(), Fail> {
    let alloc = rt.alloc();
    let mut numbers = [7; 33];
    // The code has 3 bytes, and ends before the value of pixel 32.
    let mut source = source_of(alloc, &LINE, &[(3, 3)])?;
    let all = read_part(&mut source, None, 33, &mut numbers)?;
    let most = read_part(&mut source, None, 32, &mut numbers)?;
    alike(&rt, (all, part_start(most)), (None, 32));
    // The tile is stored as its plain bytes, of which the heap has too few.
    let mut source = source_of(alloc, &LINE, &[(3, 0), (11, 2)])?;
    assert!(rt; read_part(&mut source, None, 33, &mut numbers).is_err());
    Ok(())
}

#[test]
fn picks_have_a_span(rt: HostRuntime) {
    alike(&rt, span_of(0, 32, 1), Some((0, 33)));
    alike(&rt, span_of(5, 5, 1), Some((5, 6)));
    alike(&rt, span_of(1, 32, 2), Some((1, 32)));
}
