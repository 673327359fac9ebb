//! The plain bytes of pixels that are apart in a tile, gathered in one loop.
ghost use Rattle.std.specs.Prelude.{ℕ, ◌≡◌, ◌≢◌, ◌+◌, ◌-◌, ◌*◌, ◌/◌, ◌<◌, ◌≤◌, ◌^◌, ℤ, pos, List, map, unsigned_abs, length as len};
ghost use Rattle.std.specs.List.{range_with_len};
ghost use Rattle.fz_grid.specs.Cutout.{numbers_at};
ghost use Rattle.fz_grid.specs.Line.{IsLineWithin, line_in_tile};
ghost use Rattle.fz_tile.specs.Pixels.{HoldPixels, IsBitpix};
ghost use Rattle.fz_tile.specs.Plain.{plain_bytes};

use fz_grid::Line;

/// Writes the plain bytes of the picks of a line, if a pixel has one place.
pub(crate) fn gather(bitpix: i32, numbers: &[i32], line: &Line, out: &mut [u8])
    requires size { IsBitpix bitpix }
    requires one { bitpix ≢ pos 64 }
    requires pixels { (xs : List ℤ) × HoldPixels (unsigned_abs bitpix) numbers.now xs × (len xs ≤ 2 ^ 26)
        × ((cutout : ℕ) × IsLineWithin (len xs) cutout line.now) }
    requires room { len out.old ≡ unsigned_abs bitpix / 8 * line.now.count }
    ensures { (xs : List ℤ) → HoldPixels (unsigned_abs bitpix) numbers.now xs
        → out.new ≡ plain_bytes (unsigned_abs bitpix) (numbers_at xs (line_in_tile line.now)) }
{
    let from = line.in_tile as usize;
    let step = line.step as usize;
    let count = line.count as usize;
    match bitpix {
        8 => gather_bytes(numbers, from, step, count, out),
        16 => gather_pairs(numbers, from, step, count, out),
        _ => gather_words(numbers, from, step, count, out),
    }
}

// Writes pixels of 8 bits.
fn gather_bytes(numbers: &[i32], from: usize, step: usize, count: usize, out: &mut [u8])
    requires fit { HoldPixels 8 numbers.now numbers.now }
    requires some { 1 ≤ count }
    requires within { from + (count - 1) * step < len numbers.now }
    requires room { len out.old ≡ count }
    ensures { out.new ≡ plain_bytes 8 (numbers_at numbers.now (map (λ k. from + k * step) (range_with_len 0 count))) }
{
    for k in 0..count {
        out[k] = numbers[from + k * step] as u8;
    }
}

// Writes pixels of 16 bits.
fn gather_pairs(numbers: &[i32], from: usize, step: usize, count: usize, out: &mut [u8])
    requires fit { HoldPixels 16 numbers.now numbers.now }
    requires some { 1 ≤ count }
    requires within { from + (count - 1) * step < len numbers.now }
    requires room { len out.old ≡ 2 * count }
    ensures { out.new ≡ plain_bytes 16 (numbers_at numbers.now (map (λ k. from + k * step) (range_with_len 0 count))) }
{
    for k in 0..count {
        let [high, low] = (numbers[from + k * step] as i16).to_be_bytes();
        out[2 * k] = high;
        out[2 * k + 1] = low;
    }
}

// Writes pixels of 32 bits.
fn gather_words(numbers: &[i32], from: usize, step: usize, count: usize, out: &mut [u8])
    requires fit { HoldPixels 32 numbers.now numbers.now }
    requires some { 1 ≤ count }
    requires within { from + (count - 1) * step < len numbers.now }
    requires room { len out.old ≡ 4 * count }
    ensures { out.new ≡ plain_bytes 32 (numbers_at numbers.now (map (λ k. from + k * step) (range_with_len 0 count))) }
{
    for k in 0..count {
        let [first, second, third, fourth] = numbers[from + k * step].to_be_bytes();
        out[4 * k] = first;
        out[4 * k + 1] = second;
        out[4 * k + 2] = third;
        out[4 * k + 3] = fourth;
    }
}
