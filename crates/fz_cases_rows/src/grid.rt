//! Rows that were worked out by hand, and arrays of 1 to 9 axes against a plain walk over their pixels.

ghost use Rattle.std.specs.Prelude.{◌≡◌, ℕ, ◌<◌, ◌≤◌, IsTrue, slice_index};
ghost use Rattle.fz_grid.specs.Region.{IsDivided, IsPlaceOf, IsShape, IsWithin};

use crate::asserts::alike;
use crate::lawful::{is_within, sifts};
use fz_block::Axes;
use fz_grid::{
    Grid, Region, Runs, Sieve, coordinates, index, one_tile_law, overlap_law, picks, place_law,
    runs, shape_law, tile_counts, tiles_law, volume,
};
use std::alloc::{AllocError, Global};
use std::process::Abort;
use std::test::Fail;

/// The array has 1 to 9 axes of 1 to 6 pixels each.
fn is_small(shape: &Axes) -> bool
    ensures shape { IsTrue result → IsShape shape.now }
    ensures small { IsTrue result → (i : ℕ) → i < shape.now.n → slice_index shape.now.len i ≤ 6 }
{
    if shape.n < 1 {
        return false;
    }
    if shape.n > 9 {
        return false;
    }
    for i in 0..shape.n as usize {
        if shape.len[i] < 1 {
            return false;
        }
        if shape.len[i] > 6 {
            return false;
        }
    }
    true
}

/// These are lengths of tiles of the array.
fn divides(shape: &Axes, tile: &Axes) -> bool
    requires shape { IsShape shape.now }
    requires small { (i : ℕ) → i < shape.now.n → slice_index shape.now.len i ≤ 6 }
    ensures { IsTrue result → IsDivided shape.now tile.now }
{
    if tile.n != shape.n {
        return false;
    }
    for i in 0..shape.n as usize {
        if tile.len[i] < 1 {
            return false;
        }
        if tile.len[i] > shape.len[i] {
            return false;
        }
    }
    true
}

/// These are coordinates of a pixel of the array.
fn is_place(shape: &Axes, at: &[u32; 9]) -> bool
    requires { IsShape shape.now }
    ensures { IsTrue result → IsPlaceOf shape.now at.now }
{
    for i in 0..shape.n as usize {
        if at[i] >= shape.len[i] {
            return false;
        }
    }
    true
}

static SHAPE: Axes = Axes {
    n: 2,
    len: [5, 3, 0, 0, 0, 0, 0, 0, 0],
};

static TILE: Axes = Axes {
    n: 2,
    len: [2, 2, 0, 0, 0, 0, 0, 0, 0],
};

/// A region of an array of 2 axes.
fn plane(lo: [u32; 2], len: [u32; 2]) -> Region {
    Region {
        n: 2,
        lo: [lo[0], lo[1], 0, 0, 0, 0, 0, 0, 0],
        len: [len[0], len[1], 0, 0, 0, 0, 0, 0, 0],
    }
}

/// The grid of these tiles.
fn grid_of(rt: &impl Abort, shape: Axes, tile: Axes) -> Grid
    ensures shape { result.shape ≡ shape }
    ensures tile { result.tile ≡ tile }
{
    assert!(rt; is_small(&shape));
    assert!(rt; divides(&shape, &tile));
    Grid::new(shape, tile)
}

#[test]
fn tiles_of_an_array(rt: HostRuntime) {
    let grid = grid_of(&rt, SHAPE, TILE);
    alike(&rt, (grid.tile_count(), grid.largest()), (6, 4));
    let boxes = [
        plane([0, 0], [2, 2]),
        plane([2, 0], [2, 2]),
        plane([4, 0], [1, 2]),
        plane([0, 2], [2, 1]),
        plane([2, 2], [2, 1]),
        plane([4, 2], [1, 1]),
    ];
    let mut tile = 0;
    for wanted in boxes {
        assert!(rt; tile < grid.tile_count());
        alike(&rt, grid.tile_box(tile), wanted);
        tile += 1;
    }
    place_law();
    one_tile_law();
    tiles_law();
    shape_law();
    overlap_law();
}

#[test]
fn number_of_a_pixel(rt: HostRuntime) {
    assert!(rt; is_small(&SHAPE));
    let at = [3, 2, 0, 0, 0, 0, 0, 0, 0];
    assert!(rt; is_place(&SHAPE, &at));
    let found = (index(&SHAPE, &at), coordinates(&SHAPE, 13), volume(&SHAPE));
    alike(&rt, found, (13, at, 15));
}

/// Compares the tiles that the region overlaps.
fn expect_tiles(rt: &impl Abort, region: &Region, tiles: &[u32]) {
    let grid = grid_of(rt, SHAPE, TILE);
    assert!(rt; is_small(&SHAPE));
    assert!(rt; is_within(&SHAPE, region));
    let mut overlaps = grid.overlapping(region);
    for tile in tiles {
        alike(rt, overlaps.next(), Some(*tile));
    }
    alike(rt, overlaps.next(), None);
}

#[test]
fn tiles_that_overlap(rt: HostRuntime) {
    expect_tiles(&rt, &plane([1, 1], [3, 2]), &[0, 1, 3, 4]);
    expect_tiles(&rt, &plane([4, 2], [1, 1]), &[5]);
    expect_tiles(&rt, &plane([0, 0], [5, 3]), &[0, 1, 2, 3, 4, 5]);
}

#[test]
fn pixels_in_common(rt: HostRuntime) {
    let grid = grid_of(&rt, SHAPE, TILE);
    let region = plane([1, 1], [3, 2]);
    assert!(rt; is_small(&SHAPE));
    assert!(rt; is_within(&SHAPE, &region));
    let rows = [
        Some(plane([1, 1], [1, 1])),
        Some(plane([2, 1], [2, 1])),
        None,
        Some(plane([1, 2], [1, 1])),
        Some(plane([2, 2], [2, 1])),
        None,
    ];
    let mut tile = 0;
    for wanted in rows {
        assert!(rt; tile < grid.tile_count());
        alike(&rt, grid.overlap(&region, tile), wanted);
        tile += 1;
    }
}

/// Compares the runs of the region.
fn expect_runs(rt: &impl Abort, shape: &Axes, region: &Region, wanted: &[(u64, u64)]) {
    assert!(rt; is_small(shape));
    assert!(rt; is_within(shape, region));
    let mut found = runs(shape, region);
    for run in wanted {
        alike(rt, found.next(), Some(*run));
    }
    alike(rt, found.next(), None);
}

#[test]
fn runs_of_a_region(rt: HostRuntime) {
    expect_runs(&rt, &SHAPE, &plane([0, 0], [5, 3]), &[(0, 15)]);
    expect_runs(&rt, &SHAPE, &plane([1, 1], [3, 2]), &[(6, 3), (11, 3)]);
    expect_runs(&rt, &SHAPE, &plane([0, 1], [5, 2]), &[(5, 10)]);
    let cube = Axes {
        n: 3,
        len: [4, 2, 3, 0, 0, 0, 0, 0, 0],
    };
    let planes = Region {
        n: 3,
        lo: [0, 0, 1, 0, 0, 0, 0, 0, 0],
        len: [4, 2, 2, 0, 0, 0, 0, 0, 0],
    };
    expect_runs(&rt, &cube, &planes, &[(8, 16)]);
}

/// Compares the picks of a sieve, and the tiles with one.
fn expect_picks(rt: &impl Abort, sieve: &Sieve, numbers: &[u64], tiles: &[u32]) {
    let grid = grid_of(rt, SHAPE, TILE);
    assert!(rt; is_small(&SHAPE));
    assert!(rt; sifts(&SHAPE, sieve));
    let mut found = picks(&SHAPE, sieve);
    for number in numbers {
        alike(rt, found.next(), Some(*number));
    }
    alike(rt, found.next(), None);
    let mut touched = grid.sieve_tiles(sieve);
    for tile in tiles {
        alike(rt, touched.next(), Some(*tile));
    }
    alike(rt, touched.next(), None);
}

/// A sieve of an array of 2 axes.
fn plane_sieve(lo: [u32; 2], hi: [u32; 2], step: [u32; 2]) -> Sieve {
    Sieve {
        n: 2,
        lo: [lo[0], lo[1], 0, 0, 0, 0, 0, 0, 0],
        hi: [hi[0], hi[1], 0, 0, 0, 0, 0, 0, 0],
        step: [step[0], step[1], 0, 0, 0, 0, 0, 0, 0],
    }
}

#[test]
fn picks_of_a_sieve(rt: HostRuntime) {
    let rows = plane_sieve([0, 0], [4, 2], [2, 2]);
    expect_picks(&rt, &rows, &[0, 2, 4, 10, 12, 14], &[0, 1, 2, 3, 4, 5]);
    expect_picks(&rt, &plane_sieve([0, 0], [4, 0], [4, 1]), &[0, 4], &[0, 2]);
    expect_picks(&rt, &plane_sieve([0, 0], [4, 0], [9, 1]), &[0], &[0]);
    expect_picks(
        &rt,
        &plane_sieve([1, 1], [3, 2], [1, 1]),
        &[6, 7, 8, 11, 12, 13],
        &[0, 1, 3, 4],
    );
    let thirds = Sieve {
        n: 2,
        lo: [0; 9],
        hi: [4, 2, 0, 0, 0, 0, 0, 0, 0],
        step: [3, 2, 1, 1, 1, 1, 1, 1, 1],
    };
    alike(&rt, thirds.len(0), 2);
}

/// The next number of a fixed sequence, from 0 on and below `end`.
fn drawn(seed: &mut u64, end: u32) -> u32
    requires { 0 < end }
    ensures { result < end }
{
    *seed = seed
        .wrapping_mul(6_364_136_223_846_793_005)
        .wrapping_add(1_442_695_040_888_963_407);
    (*seed >> 33) as u32 % end
}

/// An array of `n` axes, fewer pixels along each if there are more axes.
fn some_shape(seed: &mut u64, n: u32) -> Axes
    requires { n ≤ 9 }
{
    let mut shape = Axes { n, len: [0; 9] };
    let most = if n < 4 {
        6
    } else if n < 6 {
        3
    } else {
        2
    };
    for i in 0..n as usize {
        shape.len[i] = drawn(seed, most).wrapping_add(1);
    }
    shape
}

/// Lengths of tiles of the array.
fn some_tile(seed: &mut u64, shape: &Axes) -> Axes
    requires { IsShape shape.now }
{
    let mut tile = Axes {
        n: shape.n,
        len: [0; 9],
    };
    for i in 0..shape.n as usize {
        tile.len[i] = drawn(seed, shape.len[i]).wrapping_add(1);
    }
    tile
}

/// A region of the array.
fn some_region(seed: &mut u64, shape: &Axes) -> Region
    requires { IsShape shape.now }
{
    let mut region = Region {
        n: shape.n,
        lo: [0; 9],
        len: [0; 9],
    };
    for i in 0..shape.n as usize {
        let lo = drawn(seed, shape.len[i]);
        region.lo[i] = lo;
        region.len[i] = drawn(seed, shape.len[i] - lo).wrapping_add(1);
    }
    region
}

/// How many pixels the array has.
fn pixels_of(shape: &Axes) -> u64
    requires { IsShape shape.now }
{
    let mut pixels = 1u64;
    for i in 0..shape.n as usize {
        pixels = pixels.wrapping_mul(u64::from(shape.len[i]));
    }
    pixels
}

/// The coordinates of this pixel lie in the region.
fn holds(shape: &Axes, region: &Region, pixel: u64) -> bool
    requires { IsShape shape.now }
{
    let mut higher = pixel;
    for i in 0..shape.n as usize {
        let at = higher % u64::from(shape.len[i]);
        higher /= u64::from(shape.len[i]);
        let lo = u64::from(region.lo[i]);
        if at < lo {
            return false;
        }
        if at - lo >= u64::from(region.len[i]) {
            return false;
        }
    }
    true
}

/// The tile in which this pixel lies.
fn tile_of(grid: &Grid, pixel: u64) -> u64
    requires { IsShape grid.now.shape }
{
    let mut higher = pixel;
    let mut tile = 0u64;
    let mut stride = 1u64;
    for i in 0..grid.shape.n as usize {
        let length = u64::from(grid.shape.len[i]);
        let of_tile = u64::from(grid.tile.len[i]);
        let place = (higher % length) / of_tile;
        higher /= length;
        tile = tile.wrapping_add(stride.wrapping_mul(place));
        stride = stride.wrapping_mul((length - 1) / of_tile + 1);
    }
    tile
}

/// Compares the next run.
fn expect_run(rt: &impl Abort, found: &mut Runs, wanted: Option<(u64, u64)>) {
    alike(rt, found.next(), wanted);
}

/// The runs that a walk over all pixels finds.
fn walk_runs(rt: &impl Abort, shape: &Axes, region: &Region)
    requires shape { IsShape shape.now }
    requires region { IsWithin shape.now region.now }
{
    let mut found = runs(shape, region);
    let mut length = 0u64;
    let pixels = pixels_of(shape);
    for pixel in 0..pixels {
        if holds(shape, region, pixel) {
            length = length.wrapping_add(1);
        } else if length > 0 {
            expect_run(rt, &mut found, Some((pixel.wrapping_sub(length), length)));
            length = 0;
        }
    }
    if length > 0 {
        expect_run(rt, &mut found, Some((pixels.wrapping_sub(length), length)));
    }
    expect_run(rt, &mut found, None);
}

/// The tiles that a walk over all pixels finds.
fn walk_tiles(
    rt: &impl Abort,
    alloc: Global,
    grid: &Grid,
    region: &Region,
) -> Result<(), AllocError>
    requires shape { IsShape grid.now.shape }
    requires region { IsWithin grid.now.shape region.now }
{
    let mut touched = vec![in alloc; false; grid.tile_count() as usize]?;
    for pixel in 0..pixels_of(&grid.shape) {
        if holds(&grid.shape, region, pixel) {
            let tile = tile_of(grid, pixel) as usize;
            assert!(rt; tile < touched.len());
            touched[tile] = true;
        }
    }
    let mut found = grid.overlapping(region);
    for (tile, is_touched) in touched.iter().enumerate() {
        if *is_touched {
            alike(rt, found.next().map(u64::from), Some(tile as u64));
        }
    }
    alike(rt, found.next(), None);
    Ok(())
}

#[test]
fn plain_walks(rt: HostRuntime) -> Result<(), Fail> {
    let mut seed = 2026u64;
    for round in 0..2000u32 {
        let shape = some_shape(&mut seed, 1 + round % 9);
        assert!(rt; is_small(&shape));
        let tile = some_tile(&mut seed, &shape);
        let region = some_region(&mut seed, &shape);
        assert!(rt; divides(&shape, &tile));
        assert!(rt; is_within(&shape, &region));
        walk_runs(&rt, &shape, &region);
        walk_tiles(&rt, rt.alloc(), &Grid::new(shape, tile), &region)?;
    }
    Ok(())
}
