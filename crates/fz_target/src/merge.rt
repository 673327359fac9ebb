//! The pixels of PATCH, read to their places in a tile.
ghost use Rattle.std.specs.Prelude.{ℕ, ◌≡◌, ◌+◌, ◌*◌, ◌/◌, ◌^◌, ◌≤◌, ℤ, List, length as len, IfSome, OnOk, unsigned_abs};
ghost use Rattle.fz_base.specs.Keeps.{SourceStays};
ghost use Rattle.fz_base.specs.Source.{LogsWithin};
ghost use Rattle.fz_base.specs.Stop.{OnlyReads};
ghost use Rattle.fz_fetch.specs.Fetched.{HoldsPixels};
ghost use Rattle.fz_files.specs.Packed.{pixel_bits};
ghost use Rattle.fz_files.specs.Restored.{pixels_of};
ghost use Rattle.fz_grid.specs.Arrays.{product};
ghost use Rattle.fz_grid.specs.Sieve.{sieve_lengths};
ghost use Rattle.fz_grid.specs.Line.{IsLineWithin};
ghost use Rattle.fz_laws.specs.NewNumbers.{new_numbers};
ghost use Rattle.fz_tile.specs.Pixels.{IsBitpix, place_count as place_count_of};
ghost use Rattle.fz_target.specs.Reads.{pixels_end};
ghost use Rattle.fz_target.specs.Targets.{GivesWithin, IsGivenTo, IsTarget, given_at};
ghost use Rattle.fz_target.specs.Tiles.{HasPiece, IsBoxTile};

use crate::target::Target;
use fz_base::{Source, Stop, log_law};
use fz_grid::{Line, place_law, shape_law, tile_lines, tile_pixels_law};
use fz_laws::new_numbers_law;
use fz_tile::{plain_law, plain_len, read_plain, slice_law};

/// Reads the pixels of PATCH that lie in this tile over those of the tile, which the numbers hold, by pieces of the copy
/// buffer.
pub(crate) fn put_given<S: Source>(
    patch: &mut S,
    target: &Target,
    tile: u32,
    numbers: &mut [i32],
    copy: &mut [u8],
) -> Result<(), Stop>
    requires target { IsTarget target.now }
    requires given { GivesWithin (S.attached patch.old) target.now }
    requires tile { IsBoxTile target.now tile }
    requires pixels { (xs : List ℤ) × HoldsPixels target.now.image.plan tile numbers.old xs }
    requires room { 2 * pixels_of target.now.image.plan tile ≤ len numbers.old }
    requires copy { 4096 ≤ len copy.old }
    ensures new { OnOk result (IfSome (S.held patch.old) (λ p. (corner : List ℕ) (xs : List ℤ) → IsGivenTo corner p target.now
        → HoldsPixels target.now.image.plan tile numbers.old xs
        → HoldsPixels target.now.image.plan tile numbers.new (new_numbers target.now.image.plan (given_at corner p) tile xs))) }
    ensures pixels { OnOk result ((xs : List ℤ) × HoldsPixels target.now.image.plan tile numbers.new xs) }
    ensures pixels_read { LogsWithin target.now.pixels_at (pixels_end target.now) (S.ranges patch.old) (S.ranges patch.new) }
    ensures stays { SourceStays S.held S.attached S.ranges patch.old patch.new × (len numbers.new ≡ len numbers.old)
        × (len copy.new ≡ len copy.old) }
    ensures cause { OnlyReads (S.tally patch.old) (S.tally patch.new) result }
{
    log_law();
    new_numbers_law();
    place_law();
    shape_law();
    tile_pixels_law();
    let grid = target.grid();
    // This call shows that no tile has more than 2^26 pixels.
    let _largest = grid.largest();
    for line in tile_lines(&grid, &target.sieve, tile) {
        put_line(patch, target, &line, numbers, copy)?;
    }
    Ok(())
}

// Reads the pixels of a line, which are neighbours in both images, by pieces of the copy buffer.
fn put_line<S: Source>(
    patch: &mut S,
    target: &Target,
    line: &Line,
    numbers: &mut [i32],
    copy: &mut [u8],
) -> Result<(), Stop>
    requires target { IsTarget target.now }
    requires given { GivesWithin (S.attached patch.old) target.now }
    requires line { (pixels : ℕ) × (pixels ≤ 2 ^ 26) × IsLineWithin pixels (product (sieve_lengths target.now.sieve)) line.now
        × (2 * pixels ≤ len numbers.old) }
    requires step { line.now.step ≡ 1 }
    requires copy { 4096 ≤ len copy.old }
    ensures piece { OnOk result (HasPiece target.now line.now.in_tile line.now.in_cutout line.now.count (S.held patch.old) numbers.old numbers.new) }
    ensures pixels_read { LogsWithin target.now.pixels_at (pixels_end target.now) (S.ranges patch.old) (S.ranges patch.new) }
    ensures stays { SourceStays S.held S.attached S.ranges patch.old patch.new × (len numbers.new ≡ len numbers.old)
        × (len copy.new ≡ len copy.old) }
    ensures cause { OnlyReads (S.tally patch.old) (S.tally patch.new) result }
{
    log_law();
    let count = u64::from(line.count);
    let most = copy.len() as u64 / plain_len(target.image.plan.bitpix, 1);
    let mut done = 0;
    while done < count {
        let pixels = (count - done).min(most);
        put_piece(
            patch,
            target,
            line.in_tile + done,
            line.in_cutout + done,
            pixels,
            numbers,
            copy,
        )?;
        done += pixels;
    }
    Ok(())
}

// Reads so many pixels of PATCH, from one on, over those of the tile from another on.
fn put_piece<S: Source>(
    patch: &mut S,
    target: &Target,
    to: u64,
    from: u64,
    count: u64,
    numbers: &mut [i32],
    copy: &mut [u8],
) -> Result<(), Stop>
    requires target { IsTarget target.now }
    requires given { GivesWithin (S.attached patch.old) target.now }
    requires some { 1 ≤ count }
    requires room { pixel_bits target.now.image.plan / 8 * count ≤ len copy.old }
    requires here { from + count ≤ product (sieve_lengths target.now.sieve) }
    requires there { (to + count ≤ 2 ^ 26) × (2 * (to + count) ≤ len numbers.old) }
    ensures piece { OnOk result (HasPiece target.now to from count (S.held patch.old) numbers.old numbers.new) }
    ensures pixels_read { LogsWithin target.now.pixels_at (pixels_end target.now) (S.ranges patch.old) (S.ranges patch.new) }
    ensures stays { SourceStays S.held S.attached S.ranges patch.old patch.new × (len numbers.new ≡ len numbers.old)
        × (len copy.new ≡ len copy.old) }
    ensures cause { OnlyReads (S.tally patch.old) (S.tally patch.new) result }
{
    log_law();
    plain_law();
    slice_law();
    let bitpix = target.image.plan.bitpix;
    let size = plain_len(bitpix, 1);
    let piece = &mut copy[..(size * count) as usize];
    let at = target.pixels_at + size * from;
    patch.read_at(at, piece).map_err(Stop::reading)?;
    let first = place_count(bitpix, to);
    let end = place_count(bitpix, to + count);
    read_plain(bitpix, piece, &mut numbers[first..end]);
    Ok(())
}

// How many places so many pixels have: two each at 64 bits.
fn place_count(bitpix: i32, pixels: u64) -> usize
    requires size { IsBitpix bitpix }
    requires few { pixels ≤ 2 ^ 40 }
    ensures count { result ≡ place_count_of (unsigned_abs bitpix) pixels }
    ensures most { result ≤ 2 * pixels }
{
    if bitpix == 64 {
        2 * pixels as usize
    } else {
        pixels as usize
    }
}
