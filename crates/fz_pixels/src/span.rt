//! Where the picks of a tile are among its pixels.
ghost use Rattle.std.specs.Prelude.{ℕ, ◌≡◌, ◌+◌, ◌-◌, ◌*◌, ◌<◌, ◌≤◌, ◌^◌, All, Contains, IsTrue, max, min, length as len};
ghost use Rattle.std.specs.List.{AllByRecursion};
ghost use Rattle.fz_grid.specs.Overlap.{has_pixel};
ghost use Rattle.fz_grid.specs.Region.{IsDivided, lengths_of};
ghost use Rattle.fz_grid.specs.Sieve.{IsSieveOf};
ghost use Rattle.fz_grid.specs.Cutout.{part_lengths};
ghost use Rattle.fz_grid.specs.Line.{IsLineWithin, lines_in_tile};
ghost use Rattle.fz_grid.specs.LineWalks.{lines_left};
ghost use Rattle.fz_files.specs.Packed.{tiles_in};
ghost use Rattle.fz_files.specs.Restored.{pixels_of};
ghost use Rattle.fz_pixels.specs.Marks.{SpansPicks};
ghost use Rattle.fz_pixels.specs.Parts.{IsPlaceBetween};

use fz_fetch::tile_pixels;
use fz_grid::{Grid, Line, Lines, Sieve, place_law, tile_lines};
use fz_head::Plan;

/// Where the picks of a tile, which has one, begin and end among its pixels: the first pick, and the pixel after the last.
pub fn part_span(plan: &Plan, sieve: &Sieve, tile: u32) -> (u32, u32)
    requires divided { IsDivided plan.now.shape plan.now.tile }
    requires sieve { IsSieveOf plan.now.shape sieve.now }
    requires tile { tile < tiles_in plan.now }
    requires picked { IsTrue (has_pixel (part_lengths (lengths_of plan.now.shape) (lengths_of plan.now.tile) sieve.now tile)) }
    ensures spans { SpansPicks plan.now sieve.now tile result.0 result.1 }
    ensures some { result.0 < result.1 }
    ensures most { result.1 ≤ pixels_of plan.now tile }
{
    place_law();
    let grid = Grid::new(plan.shape, plan.tile);
    let pixels = u64::from(tile_pixels(plan, tile));
    let lines = tile_lines(&grid, sieve, tile);
    let span = lines_span(lines, pixels);
    let first = span.0 as u32;
    let end = span.1 as u32;
    (first, end)
}

// The same for some lines of a tile of so many pixels.
fn lines_span(lines: Lines, pixels: u64) -> (u64, u64)
    requires few { pixels ≤ 2 ^ 26 }
    requires within { (cutout : ℕ) × AllByRecursion (IsLineWithin pixels cutout) (lines_left lines) }
    requires some { 0 < len (lines_in_tile (lines_left lines)) }
    ensures within { All (IsPlaceBetween result.0 result.1) (lines_in_tile (lines_left lines)) }
    ensures first { Contains (lines_in_tile (lines_left lines)) result.0 }
    ensures last { Contains (lines_in_tile (lines_left lines)) (result.1 - 1) }
    ensures some { result.0 < result.1 }
    ensures most { result.1 ≤ pixels }
{
    let mut span = (pixels, 0u64);
    for line in lines {
        span = joined(span, &line);
    }
    span
}

// The span that has the picks of a line, too.
fn joined(span: (u64, u64), line: &Line) -> (u64, u64)
    requires { (n : ℕ) × (n ≤ 2 ^ 26) × ((cutout : ℕ) × IsLineWithin n cutout line.now) }
    ensures first { result.0 ≡ min span.0 line.now.in_tile }
    ensures end { result.1 ≡ max span.1 (line.now.in_tile + (line.now.count - 1) * line.now.step + 1) }
{
    let steps = u64::from(line.count - 1);
    let step = u64::from(line.step);
    let far = steps * step;
    let last = line.in_tile + far;
    let end = last + 1;
    (span.0.min(line.in_tile), span.1.max(end))
}
