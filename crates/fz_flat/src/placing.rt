//! The pixels of a tile that are in a box, put to their places in it.
ghost use Rattle.std.specs.Prelude.{ℕ, ◌≡◌, ◌⊎◌, ◌+◌, ◌-◌, ◌*◌, ◌<◌, ◌≤◌, ℤ, List, length as len, slice_index, unsigned_abs};
ghost use Rattle.std.specs.List.{AllByRecursion};
ghost use Rattle.fz_grid.specs.Region.{IsDivided};
ghost use Rattle.fz_grid.specs.Sieve.{IsSieveOf};
ghost use Rattle.fz_grid.specs.Line.{IsLineWithin, lines_in_cutout, lines_in_tile};
ghost use Rattle.fz_grid.specs.LineWalks.{lines_left};
ghost use Rattle.fz_tile.specs.Pixels.{IsBitpix, place_count};
ghost use Rattle.fz_flat.specs.Boxes.{numbers_in};
ghost use Rattle.fz_flat.specs.Cutting.{HasPick, in_box, in_tile, width_of as width_in};
ghost use Rattle.fz_flat.specs.Placed.{HasPixelsOf, IsNearer, pixel_in};
ghost use Rattle.fz_flat.specs.Tiles.{pixels_of, places_of};

use fz_grid::{Grid, Line, Lines, Sieve, cutout_axes, tile_lines};
use fz_head::Plan;

/// Puts the pixels of a tile that are in the box to their places; the numbers are those of the tile.
pub(crate) fn place_tile(plan: &Plan, sieve: &Sieve, tile: u32, numbers: &[i32], out: &mut [i32])
    requires divided { IsDivided plan.now.shape plan.now.tile }
    requires size { IsBitpix plan.now.bitpix }
    requires sieve { IsSieveOf plan.now.shape sieve.now }
    requires tile { HasPick plan.now sieve.now tile }
    requires numbers { len numbers.now ≡ places_of plan.now tile }
    requires room { len out.old ≡ numbers_in plan.now sieve.now }
    ensures placed { (whole : List ℤ)
        → HasPixelsOf (width_in plan.now) whole (in_box plan.now sieve.now tile) numbers.now (in_tile plan.now sieve.now tile)
        → IsNearer (width_in plan.now) whole out.old out.new (in_box plan.now sieve.now tile) }
    ensures inside { (k : ℕ) → k < len (in_tile plan.now sieve.now tile)
        → slice_index (in_tile plan.now sieve.now tile) k < pixels_of plan.now tile }
    ensures len { len out.new ≡ len out.old }
{
    let grid = Grid::new(plan.shape, plan.tile);
    // This call shows that the box has at most 2^40 pixels.
    let _cutout = cutout_axes(&plan.shape, sieve);
    let lines = tile_lines(&grid, sieve, tile);
    place_lines(width_of(plan.bitpix), numbers, lines, out);
}

// How many places a pixel takes.
fn width_of(bitpix: i32) -> usize
    requires size { IsBitpix bitpix }
    ensures width { result ≡ place_count (unsigned_abs bitpix) 1 }
    ensures some { 1 ≤ result }
    ensures most { result ≤ 2 }
{
    if bitpix == 64 { 2 } else { 1 }
}

// Puts the pixels of lines to their places, which are so many for each.
fn place_lines(width: usize, numbers: &[i32], lines: Lines, out: &mut [i32])
    requires some { 1 ≤ width }
    requires most { width ≤ 2 }
    requires lines { (pixels : ℕ) × ((cutout : ℕ) × AllByRecursion (IsLineWithin pixels cutout) (lines_left lines)
        × (width * pixels ≤ len numbers.now) × (width * cutout ≤ len out.old)) }
    ensures placed { (whole : List ℤ) → HasPixelsOf width whole (lines_in_cutout (lines_left lines)) numbers.now
        (lines_in_tile (lines_left lines))
        → IsNearer width whole out.old out.new (lines_in_cutout (lines_left lines)) }
    ensures len { len out.new ≡ len out.old }
{
    for line in lines {
        place_line(width, numbers, &line, out);
    }
}

// Puts the pixels of a line to their places.
fn place_line(width: usize, numbers: &[i32], line: &Line, out: &mut [i32])
    requires some { 1 ≤ width }
    requires most { width ≤ 2 }
    requires line { (pixels : ℕ) × ((cutout : ℕ) × IsLineWithin pixels cutout line.now
        × (width * pixels ≤ len numbers.now) × (width * cutout ≤ len out.old)) }
    ensures inside { (k : ℕ) → k < line.now.count → pixel_in width out.new (line.now.in_cutout + k)
        ≡ pixel_in width numbers.now (line.now.in_tile + k * line.now.step) }
    ensures outside { (i : ℕ) → (i < line.now.in_cutout) ⊎ (line.now.in_cutout + line.now.count ≤ i)
        → pixel_in width out.new i ≡ pixel_in width out.old i }
    ensures len { len out.new ≡ len out.old }
{
    let from = line.in_tile as usize;
    let to = line.in_cutout as usize;
    let count = line.count as usize;
    if line.step == 1 {
        place_run(width, numbers, from, count, out, to);
    } else {
        place_apart(width, numbers, from, line.step as usize, count, out, to);
    }
}

// Puts pixels that are apart in the tile to their places, one at a time.
fn place_apart(
    width: usize,
    numbers: &[i32],
    from: usize,
    step: usize,
    count: usize,
    out: &mut [i32],
    to: usize,
)
    requires some { 1 ≤ width }
    requires most { width ≤ 2 }
    requires count { 1 ≤ count }
    requires inside { width * (from + (count - 1) * step + 1) ≤ len numbers.now }
    requires room { width * (to + count) ≤ len out.old }
    ensures inside { (k : ℕ) → k < count → pixel_in width out.new (to + k) ≡ pixel_in width numbers.now (from + k * step) }
    ensures outside { (i : ℕ) → (i < to) ⊎ (to + count ≤ i) → pixel_in width out.new i ≡ pixel_in width out.old i }
    ensures len { len out.new ≡ len out.old }
{
    for k in 0..count {
        place_run(width, numbers, from + k * step, 1, out, to + k);
    }
}

// Puts pixels that are together in the tile to their places.
fn place_run(width: usize, numbers: &[i32], from: usize, count: usize, out: &mut [i32], to: usize)
    requires some { 1 ≤ width }
    requires most { width ≤ 2 }
    requires inside { width * (from + count) ≤ len numbers.now }
    requires room { width * (to + count) ≤ len out.old }
    ensures inside { (k : ℕ) → k < count → pixel_in width out.new (to + k) ≡ pixel_in width numbers.now (from + k) }
    ensures outside { (i : ℕ) → (i < to) ⊎ (to + count ≤ i) → pixel_in width out.new i ≡ pixel_in width out.old i }
    ensures len { len out.new ≡ len out.old }
{
    let run = &numbers[width * from..width * (from + count)];
    out[width * to..width * (to + count)].copy_from_slice(run);
}
