//! The parts of an array's tiles in a cutout, and in the whole image.
ghost use Rattle.std.specs.Prelude.{◌≡◌, ℕ, ◌<◌, ◌≤◌, IsTrue, slice_index};
ghost use Rattle.std.specs.List.{AllByRecursion, range_with_len};
ghost use Rattle.fz_grid.specs.Arrays.{product};
ghost use Rattle.fz_grid.specs.Division.{tile_places};
ghost use Rattle.fz_grid.specs.Grid.{tile_count, tile_lengths};
ghost use Rattle.fz_grid.specs.Overlap.{has_pixel};
ghost use Rattle.fz_grid.specs.Region.{IsShape, IsZeroFrom, axes_of, lengths_of, region_lengths};
ghost use Rattle.fz_grid.specs.Sieve.{IsSieveOf, pick_count, picked_places, sieve_lengths};
ghost use Rattle.fz_grid.specs.Cutout.{Sifts, part_lengths, picks_in_cutout, picks_in_tile};
ghost use Rattle.fz_grid.specs.Line.{IsLineWithin, lines_in_cutout, lines_in_tile};
ghost use Rattle.fz_grid.specs.LineWalks.{lines_left};

use crate::grid::Grid;
use crate::law::place_law;
use crate::line_walk::Lines;
use crate::lines_of::lines;
use crate::part::Part;
use crate::region::Region;
use crate::sieve::{Sieve, picks_along};
use fz_block::Axes;

/// The lengths of what a sieve cuts out of an array, which are those of an array that a call takes.
pub fn cutout_axes(shape: &Axes, sieve: &Sieve) -> Axes
    requires shape { IsShape shape.now }
    requires sieve { IsSieveOf shape.now sieve.now }
    ensures shape { IsShape result }
    ensures axes { result.n ≡ shape.now.n }
    ensures lengths { lengths_of result ≡ sieve_lengths sieve.now }
    ensures sifts { Sifts (lengths_of shape.now) sieve.now }
    ensures zero { IsZeroFrom result.n result.len }
{
    let mut cutout = Axes {
        n: shape.n,
        len: [0; 9],
    };
    for i in 0..shape.n as usize {
        cutout.len[i] = picks_along(sieve.lo[i], sieve.hi[i], sieve.step[i], shape.len[i]);
    }
    cutout
}

/// The lines of the picks in tile `t`, which has one, in the tile and in the cutout. Takes no memory.
pub fn tile_lines(grid: &Grid, sieve: &Sieve, t: u32) -> Lines
    requires sieve { IsSieveOf grid.now.shape sieve.now }
    requires tile { t < tile_count (lengths_of grid.now.shape) (lengths_of grid.now.tile) }
    requires some { IsTrue (has_pixel (part_lengths (lengths_of grid.now.shape) (lengths_of grid.now.tile) sieve.now t)) }
    ensures tile { lines_in_tile (lines_left result)
        ≡ picks_in_tile (lengths_of grid.now.shape) (lengths_of grid.now.tile) sieve.now t }
    ensures cutout { lines_in_cutout (lines_left result)
        ≡ picks_in_cutout (lengths_of grid.now.shape) (lengths_of grid.now.tile) sieve.now t }
    ensures step { AllByRecursion (λ line. line.step ≡ slice_index sieve.now.step 0) (lines_left result) }
    ensures within { AllByRecursion
        (IsLineWithin
        (product (tile_lengths (lengths_of grid.now.shape) (lengths_of grid.now.tile) t))
        (product (sieve_lengths sieve.now)))
        (lines_left result) }
{
    let region = grid.tile_box(t);
    let part = sieve.part(&grid.shape, &region);
    let cutout = cutout_axes(&grid.shape, sieve);
    lines(region.axes(), cutout, part)
}

/// The lines of tile `t`, in the tile and in the whole array. Takes no memory.
pub fn whole_lines(grid: &Grid, t: u32) -> Lines
    requires { t < tile_count (lengths_of grid.now.shape) (lengths_of grid.now.tile) }
    ensures tile { lines_in_tile (lines_left result)
        ≡ range_with_len 0 (product (tile_lengths (lengths_of grid.now.shape) (lengths_of grid.now.tile) t)) }
    ensures image { lines_in_cutout (lines_left result)
        ≡ tile_places (lengths_of grid.now.shape) (lengths_of grid.now.tile) t }
    ensures step { AllByRecursion (λ line. line.step ≡ 1) (lines_left result) }
    ensures within { AllByRecursion
        (IsLineWithin
        (product (tile_lengths (lengths_of grid.now.shape) (lengths_of grid.now.tile) t))
        (product (lengths_of grid.now.shape)))
        (lines_left result) }
{
    let region = grid.tile_box(t);
    lines(region.axes(), grid.shape, whole_part(&region))
}

/// All pixels of a region, as a part of it.
fn whole_part(region: &Region) -> Part
    requires { IsShape (axes_of region.now) }
    ensures at { result.at ≡ region.now }
    ensures step { slice_index result.inside.step 0 ≡ 1 }
    ensures inside { IsSieveOf (axes_of region.now) result.inside }
    ensures counts { (i : ℕ) → i < region.now.n → slice_index region.now.len i
        ≡ pick_count (slice_index result.inside.lo i) (slice_index result.inside.hi i) (slice_index result.inside.step i) }
    ensures places { picked_places (region_lengths region.now) result.inside
        ≡ range_with_len 0 (product (region_lengths region.now)) }
{
    place_law();
    let mut inside = Sieve {
        n: region.n,
        lo: [0; 9],
        hi: [0; 9],
        step: [1; 9],
    };
    for i in 0..region.n as usize {
        inside.hi[i] = region.len[i] - 1;
    }
    Part {
        inside,
        at: *region,
    }
}
