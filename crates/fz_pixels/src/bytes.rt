//! The plain bytes of a tile that was decoded.
ghost use Rattle.std.specs.Prelude.{ℕ, ◌≡◌, ◌+◌, ◌*◌, ◌/◌, ◌<◌, ◌≤◌, ◌^◌, ℤ, List, ◌++◌, take, drop, unsigned_abs, length as len};
ghost use Rattle.std.specs.List.{AllByRecursion};
ghost use Rattle.fz_grid.specs.Cutout.{numbers_at};
ghost use Rattle.fz_grid.specs.Line.{IsLineWithin, line_in_tile, lines_in_tile};
ghost use Rattle.fz_grid.specs.LineWalks.{lines_left};
ghost use Rattle.fz_tile.specs.Pixels.{HoldPixels, IsBitpix, place_count as place_count_of};
ghost use Rattle.fz_tile.specs.Plain.{plain_bytes};

use crate::gather::gather;
use fz_grid::{Line, Lines};
use fz_tile::{plain_law, plain_len, slice_law, write_plain};

/// The bytes of a pixel.
pub(crate) fn pixel_len(bitpix: i32) -> u32
    requires size { IsBitpix bitpix }
    ensures len { result ≡ unsigned_abs bitpix / 8 }
    ensures some { 1 ≤ result }
    ensures few { result ≤ 8 }
{
    plain_len(bitpix, 1) as u32
}

/// How many places so many pixels have: two each at 64 bits.
pub(crate) fn place_count(bitpix: i32, pixels: u64) -> u64
    requires size { IsBitpix bitpix }
    requires few { pixels ≤ 2 ^ 40 }
    ensures count { result ≡ place_count_of (unsigned_abs bitpix) pixels }
    ensures most { result ≤ 2 * pixels }
{
    if bitpix == 64 { 2 * pixels } else { pixels }
}

/// Writes the plain bytes of a tile of so many pixels, which the first numbers hold, to the front of the code.
pub(crate) fn put_tile(bitpix: i32, pixels: u32, numbers: &[i32], code: &mut [u8])
    requires size { IsBitpix bitpix }
    requires few { pixels ≤ 2 ^ 26 }
    requires pixels { (xs : List ℤ) × (len xs ≡ pixels)
        × HoldPixels (unsigned_abs bitpix) (take (place_count_of (unsigned_abs bitpix) pixels) numbers.now) xs }
    requires numbers { 2 * pixels ≤ len numbers.now }
    requires room { 8 * pixels ≤ len code.old }
    ensures bytes { (xs : List ℤ) → len xs ≡ pixels → HoldPixels (unsigned_abs bitpix)
        (take (place_count_of (unsigned_abs bitpix) pixels) numbers.now) xs
        → take (unsigned_abs bitpix / 8 * pixels) code.new ≡ plain_bytes (unsigned_abs bitpix) xs }
    ensures len { len code.new ≡ len code.old }
{
    let places = place_count(bitpix, u64::from(pixels)) as usize;
    let size = plain_len(bitpix, u64::from(pixels)) as usize;
    write_plain(bitpix, &numbers[..places], &mut code[..size]);
}

/// Writes the plain bytes of so many pixels, from this one on, to a place of the code.
pub(crate) fn put_pixels(
    bitpix: i32,
    numbers: &[i32],
    from: u64,
    count: u64,
    code: &mut [u8],
    at: u64,
)
    requires size { IsBitpix bitpix }
    requires few { from + count ≤ 2 ^ 26 }
    requires pixels { (xs : List ℤ) × HoldPixels (unsigned_abs bitpix) numbers.now xs × (from + count ≤ len xs) }
    requires room { at + unsigned_abs bitpix / 8 * count ≤ len code.old }
    ensures bytes { (xs : List ℤ) → HoldPixels (unsigned_abs bitpix) numbers.now xs → from + count ≤ len xs
        → code.new ≡ take at code.old ++ (plain_bytes (unsigned_abs bitpix) (take count (drop from xs)) ++ drop
        (at + unsigned_abs bitpix / 8 * count) code.old) }
    ensures len { len code.new ≡ len code.old }
{
    slice_law();
    plain_law();
    let first = place_count(bitpix, from) as usize;
    let end = place_count(bitpix, from + count) as usize;
    let size = plain_len(bitpix, count);
    write_plain(
        bitpix,
        &numbers[first..end],
        &mut code[at as usize..(at + size) as usize],
    );
}

/// Writes the plain bytes of the picks of a tile, line by line, to the front of the code. Answers how many they are.
pub(crate) fn put_picks(bitpix: i32, numbers: &[i32], lines: Lines, code: &mut [u8]) -> u64
    requires size { IsBitpix bitpix }
    requires pixels { (xs : List ℤ) × HoldPixels (unsigned_abs bitpix) numbers.now xs × (len xs ≤ 2 ^ 26)
        × ((cutout : ℕ) × AllByRecursion (IsLineWithin (len xs) cutout) (lines_left lines)) }
    requires room { unsigned_abs bitpix / 8 * len (lines_in_tile (lines_left lines)) ≤ len code.old }
    ensures bytes { (xs : List ℤ) → HoldPixels (unsigned_abs bitpix) numbers.now xs
        → take (unsigned_abs bitpix / 8 * len (lines_in_tile (lines_left lines))) code.new ≡ plain_bytes (unsigned_abs bitpix)
        (numbers_at xs (lines_in_tile (lines_left lines))) }
    ensures count { result ≡ unsigned_abs bitpix / 8 * len (lines_in_tile (lines_left lines)) }
    ensures len { len code.new ≡ len code.old }
{
    plain_law();
    let mut done = 0u64;
    for line in lines {
        put_line(bitpix, numbers, &line, code, done);
        done += plain_len(bitpix, u64::from(line.count));
    }
    done
}

/// Writes the plain bytes of the picks of a line to a place of the code.
pub(crate) fn put_line(bitpix: i32, numbers: &[i32], line: &Line, code: &mut [u8], at: u64)
    requires size { IsBitpix bitpix }
    requires pixels { (xs : List ℤ) × HoldPixels (unsigned_abs bitpix) numbers.now xs × (len xs ≤ 2 ^ 26)
        × ((cutout : ℕ) × IsLineWithin (len xs) cutout line.now) }
    requires room { at + unsigned_abs bitpix / 8 * line.now.count ≤ len code.old }
    ensures bytes { (xs : List ℤ) → HoldPixels (unsigned_abs bitpix) numbers.now xs
        → code.new ≡ take at code.old ++ (plain_bytes (unsigned_abs bitpix) (numbers_at xs (line_in_tile line.now)) ++ drop
        (at + unsigned_abs bitpix / 8 * line.now.count) code.old) }
    ensures len { len code.new ≡ len code.old }
{
    if line.step == 1 {
        put_pixels(
            bitpix,
            numbers,
            line.in_tile,
            u64::from(line.count),
            code,
            at,
        );
        return;
    }
    if bitpix == 64 {
        put_apart(bitpix, numbers, line, code, at);
        return;
    }
    let size = plain_len(bitpix, u64::from(line.count));
    gather(
        bitpix,
        numbers,
        line,
        &mut code[at as usize..(at + size) as usize],
    );
}

// The same if the picks are not together in the tile, and a pixel has two places: one at a time.
fn put_apart(bitpix: i32, numbers: &[i32], line: &Line, code: &mut [u8], at: u64)
    requires size { IsBitpix bitpix }
    requires pixels { (xs : List ℤ) × HoldPixels (unsigned_abs bitpix) numbers.now xs × (len xs ≤ 2 ^ 26)
        × ((cutout : ℕ) × IsLineWithin (len xs) cutout line.now) }
    requires room { at + unsigned_abs bitpix / 8 * line.now.count ≤ len code.old }
    ensures bytes { (xs : List ℤ) → HoldPixels (unsigned_abs bitpix) numbers.now xs
        → code.new ≡ take at code.old ++ (plain_bytes (unsigned_abs bitpix) (numbers_at xs (line_in_tile line.now)) ++ drop
        (at + unsigned_abs bitpix / 8 * line.now.count) code.old) }
    ensures len { len code.new ≡ len code.old }
{
    plain_law();
    slice_law();
    let len = u64::from(pixel_len(bitpix));
    for k in 0..line.count {
        let from = line.in_tile + u64::from(k) * u64::from(line.step);
        put_pixels(bitpix, numbers, from, 1, code, at + len * u64::from(k));
    }
}
