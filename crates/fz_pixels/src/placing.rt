//! The picks of a tile, placed in a buffer that has what a sieve cuts out of the image.
ghost use Rattle.std.specs.Prelude.{ℕ, ◌≡◌, ◌+◌, ◌*◌, ◌/◌, ◌<◌, ◌≤◌, ◌^◌, IsTrue, ℤ, List, Some, unsigned_abs, length as len};
ghost use Rattle.std.specs.List.{AllByRecursion};
ghost use Rattle.fz_grid.specs.Arrays.{product};
ghost use Rattle.fz_grid.specs.Overlap.{has_pixel};
ghost use Rattle.fz_grid.specs.Region.{IsDivided, lengths_of};
ghost use Rattle.fz_grid.specs.Sieve.{IsSieveOf, sieve_lengths};
ghost use Rattle.fz_grid.specs.Cutout.{part_lengths};
ghost use Rattle.fz_grid.specs.Line.{lines_in_cutout, lines_in_tile};
ghost use Rattle.fz_grid.specs.LineWalks.{lines_left};
ghost use Rattle.fz_tile.specs.Pixels.{HoldPixels, IsBitpix, place_count as place_count_of};
ghost use Rattle.fz_tile.specs.Plain.{plain_bytes};
ghost use Rattle.fz_files.specs.Packed.{pixel_bits, tiles_in};
ghost use Rattle.fz_files.specs.Restored.{pixels_of};
ghost use Rattle.fz_fetch.specs.Fetched.{HoldsPixels};
ghost use Rattle.fz_pixels.specs.Marks.{HoldsBetween, PicksLieBetween};
ghost use Rattle.fz_pixels.specs.Parts.{IsLineBetween, pixels_from};
ghost use Rattle.fz_pixels.specs.Pieces.{pieces_written};
ghost use Rattle.fz_pixels.specs.Scattered.{part_written};

use crate::bytes::{pixel_len, place_count, put_line};
use fz_base::output_law;
use fz_fetch::tile_pixels;
use fz_grid::{
    Grid, Line, Lines, Sieve, cutout_axes, cutout_law, shape_law, tile_lines, tile_pixels_law,
};
use fz_head::Plan;
use fz_tile::plain_law;

/// Writes the picks of a tile, which these numbers hold and which has one, to their places in a buffer that has what the
/// sieve cuts out of the image.
pub fn place_part(plan: &Plan, sieve: &Sieve, tile: u32, numbers: &[i32], out: &mut [u8])
    requires divided { IsDivided plan.now.shape plan.now.tile }
    requires size { IsBitpix plan.now.bitpix }
    requires sieve { IsSieveOf plan.now.shape sieve.now }
    requires tile { tile < tiles_in plan.now }
    requires picked { IsTrue (has_pixel (part_lengths (lengths_of plan.now.shape) (lengths_of plan.now.tile) sieve.now tile)) }
    requires numbers { place_count_of (pixel_bits plan.now) (pixels_of plan.now tile) ≤ len numbers.now }
    requires room { pixel_bits plan.now / 8 * product (sieve_lengths sieve.now) ≤ len out.old }
    requires pixels { (xs : List ℤ) × HoldsPixels plan.now tile numbers.now xs }
    ensures placed { (xs : List ℤ) → HoldsPixels plan.now tile numbers.now xs
        → Some out.new ≡ part_written plan.now sieve.now 0 tile xs (Some out.old) }
    ensures len { len out.new ≡ len out.old }
{
    cutout_law();
    plain_law();
    shape_law();
    tile_pixels_law();
    let grid = Grid::new(plan.shape, plan.tile);
    // These calls show that no tile has more than 2^26 pixels, and that the sieve is one of the image.
    let _largest = grid.largest();
    let _cutout = cutout_axes(&plan.shape, sieve);
    let places = place_count(plan.bitpix, grid.tile_box(tile).pixels()) as usize;
    let lines = tile_lines(&grid, sieve, tile);
    place_lines(plan.bitpix, &numbers[..places], 0, lines, out);
}

/// The same if these numbers hold only the pixels from `first` on and before `end`, and all picks are of these.
pub fn place_between(
    plan: &Plan,
    sieve: &Sieve,
    tile: u32,
    first: u32,
    end: u32,
    numbers: &[i32],
    out: &mut [u8],
)
    requires divided { IsDivided plan.now.shape plan.now.tile }
    requires size { IsBitpix plan.now.bitpix }
    requires sieve { IsSieveOf plan.now.shape sieve.now }
    requires tile { tile < tiles_in plan.now }
    requires picked { IsTrue (has_pixel (part_lengths (lengths_of plan.now.shape) (lengths_of plan.now.tile) sieve.now tile)) }
    requires picks { PicksLieBetween plan.now sieve.now tile first end }
    requires span { (first ≤ end) × (end ≤ pixels_of plan.now tile) }
    requires numbers { place_count_of (pixel_bits plan.now) end ≤ len numbers.now }
    requires room { pixel_bits plan.now / 8 * product (sieve_lengths sieve.now) ≤ len out.old }
    requires pixels { (xs : List ℤ) × HoldsBetween plan.now tile first end numbers.now xs }
    ensures placed { (xs : List ℤ) → HoldsBetween plan.now tile first end numbers.now xs
        → Some out.new ≡ part_written plan.now sieve.now 0 tile xs (Some out.old) }
    ensures len { len out.new ≡ len out.old }
{
    // This call tells that a tile has at most 2^26 pixels.
    let _pixels = tile_pixels(plan, tile);
    let grid = Grid::new(plan.shape, plan.tile);
    let low = u64::from(first);
    let high = u64::from(end);
    let start = place_count(plan.bitpix, low) as usize;
    let stop = place_count(plan.bitpix, high) as usize;
    let lines = tile_lines(&grid, sieve, tile);
    place_lines(plan.bitpix, &numbers[start..stop], low, lines, out);
}

// Writes the picks of these lines to their places. The numbers hold the pixels of a tile from `first` on.
fn place_lines(bitpix: i32, numbers: &[i32], first: u64, lines: Lines, out: &mut [u8])
    requires size { IsBitpix bitpix }
    requires pixels { (xs : List ℤ) × HoldPixels (unsigned_abs bitpix) numbers.now xs × (len xs ≤ 2 ^ 26)
        × ((cutout : ℕ) × AllByRecursion (IsLineBetween first (first + len xs) cutout) (lines_left lines)
        × (unsigned_abs bitpix / 8 * cutout ≤ len out.old)) }
    ensures placed { (xs : List ℤ) → HoldPixels (unsigned_abs bitpix) numbers.now xs
        → Some out.new ≡ pieces_written (unsigned_abs bitpix / 8) 0 (lines_in_cutout (lines_left lines))
        (plain_bytes (unsigned_abs bitpix) (pixels_from first xs (lines_in_tile (lines_left lines)))) (Some out.old) }
    ensures len { len out.new ≡ len out.old }
{
    output_law();
    plain_law();
    let len = u64::from(pixel_len(bitpix));
    for line in lines {
        let in_tile = line.in_tile - first;
        let near = Line {
            in_tile,
            step: line.step,
            in_cutout: line.in_cutout,
            count: line.count,
        };
        put_line(bitpix, numbers, &near, out, len * line.in_cutout);
    }
}
