//! Rows that were worked out by hand.

ghost use Rattle.std.specs.Prelude.{◌≡◌, ◌<◌, IsTrue};
ghost use Rattle.fz_grid.specs.Grid.{tile_count};
ghost use Rattle.fz_grid.specs.Overlap.{has_pixel};
ghost use Rattle.fz_grid.specs.Region.{IsShape, lengths_of};
ghost use Rattle.fz_grid.specs.Sieve.{IsSieve, IsSieveOf};
ghost use Rattle.fz_grid.specs.Cutout.{part_lengths};

use crate::asserts::alike;
use crate::lawful::{is_within, sifts};
use fz_block::Axes;
use fz_grid::{
    Grid, Line, Region, Sieve, cutout_axes, cutout_law, runs, tile_counts, tile_lines, whole_lines,
};
use std::process::Abort;

/// Lengths of 2 axes.
fn pair(len: [u32; 2]) -> Axes {
    Axes {
        n: 2,
        len: [len[0], len[1], 0, 0, 0, 0, 0, 0, 0],
    }
}

/// The array of 5 x 3 pixels in tiles of 2 x 2.
fn small_tiles() -> Grid {
    let shape = Axes {
        n: 2,
        len: [5, 3, 0, 0, 0, 0, 0, 0, 0],
    };
    let tile = Axes {
        n: 2,
        len: [2, 2, 0, 0, 0, 0, 0, 0, 0],
    };
    Grid::new(shape, tile)
}

/// The same array in tiles of one line.
fn line_tiles() -> Grid {
    let shape = Axes {
        n: 2,
        len: [5, 3, 0, 0, 0, 0, 0, 0, 0],
    };
    let tile = Axes {
        n: 2,
        len: [5, 1, 0, 0, 0, 0, 0, 0, 0],
    };
    Grid::new(shape, tile)
}

/// An array of 9 axes in 2^30 tiles of one pixel.
fn many_tiles() -> Grid {
    let shape = Axes {
        n: 9,
        len: [16, 16, 16, 8, 8, 8, 8, 8, 8],
    };
    let tile = Axes { n: 9, len: [1; 9] };
    Grid::new(shape, tile)
}

/// An array of 2^40 pixels.
fn wide() -> Axes
    ensures { IsShape result }
{
    Axes {
        n: 2,
        len: [1_048_576, 1_048_576, 0, 0, 0, 0, 0, 0, 0],
    }
}

/// A sieve of an array of 2 axes.
fn plane(lo: [u32; 2], hi: [u32; 2], step: [u32; 2]) -> Sieve {
    Sieve {
        n: 2,
        lo: [lo[0], lo[1], 0, 0, 0, 0, 0, 0, 0],
        hi: [hi[0], hi[1], 0, 0, 0, 0, 0, 0, 0],
        step: [step[0], step[1], 0, 0, 0, 0, 0, 0, 0],
    }
}

/// The lengths of the grid's array, which a call takes.
fn shape_of(grid: &Grid) -> Axes
    ensures shape { IsShape result }
    ensures same { result ≡ grid.now.shape }
{
    grid.shape
}

/// Tile `t` has a pick.
fn has_part(grid: &Grid, sieve: &Sieve, t: u32) -> bool
    requires { IsSieveOf grid.now.shape sieve.now }
    ensures tile { IsTrue result → t < tile_count (lengths_of grid.now.shape) (lengths_of grid.now.tile) }
    ensures some { IsTrue result
        → IsTrue (has_pixel (part_lengths (lengths_of grid.now.shape) (lengths_of grid.now.tile) sieve.now t)) }
{
    for tile in grid.sieve_tiles(sieve) {
        if tile == t {
            return true;
        }
    }
    false
}

/// Compares the lines of tile `t`.
fn expect_lines(rt: &impl Abort, grid: &Grid, sieve: &Sieve, t: u32, wanted: &[Line]) {
    let shape = shape_of(grid);
    assert!(rt; sifts(&shape, sieve));
    assert!(rt; has_part(grid, sieve, t));
    let mut lines = tile_lines(grid, sieve, t);
    for line in wanted {
        alike(rt, lines.next(), Some(*line));
    }
    alike(rt, lines.next(), None);
}

/// A line of picks.
fn line(in_tile: u64, step: u32, in_cutout: u64, count: u32) -> Line {
    Line {
        in_tile,
        step,
        in_cutout,
        count,
    }
}

#[test]
fn lines_of_a_box(rt: HostRuntime) {
    let grid = small_tiles();
    let inner = plane([1, 1], [3, 2], [1, 1]);
    expect_lines(&rt, &grid, &inner, 0, &[line(3, 1, 0, 1)]);
    expect_lines(&rt, &grid, &inner, 1, &[line(2, 1, 1, 2)]);
    expect_lines(&rt, &grid, &inner, 3, &[line(1, 1, 3, 1)]);
    expect_lines(&rt, &grid, &inner, 4, &[line(0, 1, 4, 2)]);
    let lower = plane([0, 0], [2, 1], [1, 1]);
    expect_lines(&rt, &grid, &lower, 0, &[line(0, 1, 0, 2), line(2, 1, 3, 2)]);
    expect_lines(&rt, &grid, &lower, 1, &[line(0, 1, 2, 1), line(2, 1, 5, 1)]);
    cutout_law();
}

#[test]
fn lines_with_a_step(rt: HostRuntime) {
    let grid = small_tiles();
    let second = plane([0, 0], [4, 2], [2, 2]);
    for t in 0..6u32 {
        expect_lines(&rt, &grid, &second, t, &[line(0, 2, u64::from(t), 1)]);
    }
    let ends = plane([0, 0], [4, 0], [4, 1]);
    expect_lines(&rt, &grid, &ends, 0, &[line(0, 4, 0, 1)]);
    expect_lines(&rt, &grid, &ends, 2, &[line(0, 4, 1, 1)]);
    let rows = plane([0, 1], [4, 2], [2, 1]);
    expect_lines(&rt, &line_tiles(), &rows, 2, &[line(0, 2, 3, 3)]);
    let thirds = plane([1, 1], [4, 1], [3, 1]);
    expect_lines(&rt, &line_tiles(), &thirds, 1, &[line(1, 3, 0, 2)]);
    let shape = shape_of(&grid);
    assert!(rt; sifts(&shape, &second));
    alike(&rt, cutout_axes(&shape, &second), pair([3, 2]));
}

#[test]
fn lines_of_a_tile(rt: HostRuntime) {
    let grid = small_tiles();
    assert!(rt; 1 < grid.tile_count());
    let mut lines = whole_lines(&grid, 1);
    let found = [lines.next(), lines.next(), lines.next()];
    alike(
        &rt,
        found,
        [Some(line(0, 1, 2, 2)), Some(line(2, 1, 7, 2)), None],
    );
    assert!(rt; 5 < grid.tile_count());
    let mut corner = whole_lines(&grid, 5);
    let found = [corner.next(), corner.next()];
    alike(&rt, found, [Some(line(0, 1, 14, 1)), None]);
}

/// The sieve of every third column and every second line of the array of 5 x 3 pixels.
fn thirds() -> Sieve
    ensures { IsSieve result }
{
    Sieve {
        n: 2,
        lo: [0; 9],
        hi: [4, 2, 0, 0, 0, 0, 0, 0, 0],
        step: [3, 2, 1, 1, 1, 1, 1, 1, 1],
    }
}

#[test]
fn parts_of_a_sieve(rt: HostRuntime) {
    let grid = small_tiles();
    let shape = shape_of(&grid);
    let counts = tile_counts(&grid.shape, &grid.tile);
    alike(
        &rt,
        (thirds().lengths(), counts),
        (pair([2, 2]), pair([3, 2])),
    );
    let inner = plane([1, 1], [3, 2], [1, 1]);
    assert!(rt; sifts(&shape, &inner));
    assert!(rt; has_part(&grid, &inner, 1));
    let part = inner.part(&grid.shape, &grid.tile_box(1));
    let at = Region {
        n: 2,
        lo: [1, 0, 0, 0, 0, 0, 0, 0, 0],
        len: [2, 1, 0, 0, 0, 0, 0, 0, 0],
    };
    let inside = plane([0, 1], [1, 1], [1, 1]);
    alike(&rt, (part.inside, part.at), (inside, at));
}

#[test]
fn walks_over_large_arrays(rt: HostRuntime) {
    let grid = many_tiles();
    let shape = shape_of(&grid);
    let at = [1, 2, 3, 4, 5, 6, 7, 0, 1];
    let region = Region {
        n: 9,
        lo: at,
        len: [1; 9],
    };
    assert!(rt; is_within(&shape, &region));
    let mut overlaps = grid.overlapping(&region);
    let overlapping = [overlaps.next(), overlaps.next()];
    let sieve = Sieve {
        n: 9,
        lo: at,
        hi: at,
        step: [1; 9],
    };
    assert!(rt; sifts(&shape, &sieve));
    let mut tiles = grid.sieve_tiles(&sieve);
    let picked = [tiles.next(), tiles.next()];
    let one = [Some(150_651_681), None];
    alike(&rt, (overlapping, picked), (one, one));
    let whole = Region {
        n: 2,
        lo: [0; 9],
        len: [1_048_576, 1_048_576, 0, 0, 0, 0, 0, 0, 0],
    };
    let shape = wide();
    assert!(rt; is_within(&shape, &whole));
    let mut found = runs(&shape, &whole);
    let runs = [found.next(), found.next()];
    alike(&rt, runs, [Some((0, 1_099_511_627_776)), None]);
}
