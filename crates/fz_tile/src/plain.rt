//! Plain bytes: big-endian, unsigned at 8 bits, in two's complement at 16, 32 and 64 (FITS 4.0, section 5.2).
//!
//! The bytes of a pixel of 64 bits are those of its two halves at 32 bits.
ghost use Rattle.std.specs.Prelude.{◌≡◌, ℕ, ◌+◌, ◌*◌, ◌/◌, ◌^◌, ◌<◌, ◌≤◌, ℤ, List, length, take, drop, All, FitsSigned, unsigned_abs};
ghost use Rattle.std.specs.Int.{w32};
ghost use Rattle.fz_bits.specs.Numbers.{IsNumber};
ghost use Rattle.fz_tile.specs.Plain.{plain_bytes, stored_pixels, pixel_of};
ghost use Rattle.fz_tile.specs.Pixels.{IsBitpix, HoldPixels, HoldWhole, pixel_count};

use crate::pixels::{read_pixels, write_pixels};

/// The number of plain bytes of so many pixels (FITS 4.0, section 5.2). An image has at most 2^40.
pub fn plain_len(bitpix: i32, pixels: u64) -> u64
    requires size { IsBitpix bitpix }
    requires most { pixels ≤ 2 ^ 40 }
    ensures { result ≡ unsigned_abs bitpix / 8 * pixels }
{
    match bitpix {
        8 => pixels,
        16 => 2 * pixels,
        32 => 4 * pixels,
        _ => 8 * pixels,
    }
}

/// The number of pixels in so many places.
pub fn pixels_in(bitpix: i32, places: usize) -> usize
    requires { IsBitpix bitpix }
    ensures { result ≡ pixel_count (unsigned_abs bitpix) places }
{
    if bitpix == 64 { places / 2 } else { places }
}

/// Writes the plain bytes of the pixels in these places (FITS 4.0, section 5.2): a place for each pixel, and two at 64
/// bits, the upper half and the lower half, each signed.
pub fn write_plain(bitpix: i32, numbers: &[i32], out: &mut [u8])
    requires size { IsBitpix bitpix }
    requires pixels { (xs : List ℤ) × HoldPixels (unsigned_abs bitpix) numbers.now xs }
    requires room { length out.old
        ≡ unsigned_abs bitpix / 8 * pixel_count (unsigned_abs bitpix) (length numbers.now) }
    ensures { (xs : List ℤ) → HoldPixels (unsigned_abs bitpix) numbers.now xs
        → out.new ≡ plain_bytes (unsigned_abs bitpix) xs }
{
    match bitpix {
        8 => write_bytes(numbers, out),
        16 => write_pixels(numbers, out),
        _ => write_words(numbers, out),
    }
}

/// Writes pixels of 8 bits.
fn write_bytes(numbers: &[i32], out: &mut [u8])
    requires fit { All (IsNumber 8) numbers.now }
    requires room { length out.old ≡ length numbers.now }
    ensures { out.new ≡ plain_bytes 8 numbers.now }
{
    for i in 0..numbers.len() {
        out[i] = numbers[i] as u8;
    }
}

/// Writes pixels of 32 bits.
fn write_words(numbers: &[i32], out: &mut [u8])
    requires room { length out.old ≡ 4 * length numbers.now }
    ensures { out.new ≡ plain_bytes 32 numbers.now }
{
    for i in 0..numbers.len() {
        let [first, second, third, fourth] = numbers[i].to_be_bytes();
        out[4 * i] = first;
        out[4 * i + 1] = second;
        out[4 * i + 2] = third;
        out[4 * i + 3] = fourth;
    }
}

/// Reads the pixels whose plain bytes these are, into a place for each pixel, and two at 64 bits (FITS 4.0, section 5.2).
pub fn read_plain(bitpix: i32, code: &[u8], numbers: &mut [i32])
    requires size { IsBitpix bitpix }
    requires whole { HoldWhole (unsigned_abs bitpix) (length numbers.old) }
    requires len { length code.now
        ≡ unsigned_abs bitpix / 8 * pixel_count (unsigned_abs bitpix) (length numbers.old) }
    ensures pixels { HoldPixels (unsigned_abs bitpix) numbers.new
        (stored_pixels (unsigned_abs bitpix) (pixel_count (unsigned_abs bitpix) (length numbers.old)) code.now) }
    ensures bytes { code.now ≡ plain_bytes (unsigned_abs bitpix)
        (stored_pixels (unsigned_abs bitpix) (pixel_count (unsigned_abs bitpix) (length numbers.old)) code.now) }
{
    match bitpix {
        8 => read_bytes(code, numbers),
        16 => read_pixels(code, numbers),
        _ => read_words(code, numbers),
    }
}

/// Reads pixels of 8 bits.
fn read_bytes(code: &[u8], numbers: &mut [i32])
    requires { length code.now ≡ length numbers.old }
    ensures { numbers.new ≡ stored_pixels 8 (length numbers.old) code.now }
{
    for i in 0..numbers.len() {
        numbers[i] = i32::from(code[i]);
    }
}

/// Reads pixels of 32 bits.
fn read_words(code: &[u8], numbers: &mut [i32])
    requires { length code.now ≡ 4 * length numbers.old }
    ensures { numbers.new ≡ stored_pixels 32 (length numbers.old) code.now }
{
    for i in 0..numbers.len() {
        numbers[i] = word_at(code, i);
    }
}

/// The pixel of 32 bits with this index.
#[inline]
fn word_at(code: &[u8], i: usize) -> i32
    requires { 4 * i + 4 ≤ length code.now }
    ensures value { result ≡ pixel_of 32 (take 4 (drop (4 * i) code.now)) }
    ensures fits { FitsSigned w32 result }
{
    i32::from_be_bytes([
        code[4 * i],
        code[4 * i + 1],
        code[4 * i + 2],
        code[4 * i + 3],
    ])
}
