//! Tiles to bytes.
ghost use Rattle.std.specs.Prelude.{◌≡◌, ℕ, ◌+◌, ◌*◌, ◌/◌, ◌^◌, ◌<◌, ◌≤◌, ◌↔◌, ℤ, List, length, take, All, Some, None, unsigned_abs, MatchOption};
ghost use Rattle.fz_bits.specs.Numbers.{IsNumber};
ghost use Rattle.fz_rice.specs.Numbers.{IsWidth};
ghost use Rattle.fz_rice.specs.Producer.{rice_bytes};
ghost use Rattle.fz_tile.specs.Pixels.{HoldPixels, HoldTile, pixel_count};
ghost use Rattle.fz_tile.specs.Codecs.{CanWrite, IsBlock};
ghost use Rattle.fz_tile.specs.TileCode.{tile_code, code_of, IsWritten};
ghost use Rattle.fz_tile.specs.Coding.{CanTry, Tries};

use crate::plain::{pixels_in, plain_len, write_plain};
use crate::{Codec, Coded, Place2};
use fz_rice::Coder;

/// Writes the bytes of a tile at the front of `out`, and answers their place and number (FITS 4.0, section 10.1.3):
/// the tile's code if the codec has one that is shorter than the plain bytes, otherwise the plain bytes.
///
/// A pixel is in one place of `numbers`, and one of 64 bits in two: its upper half and its lower half, each
/// signed. `out` has at least 8 bytes for each pixel and 64 more; after the tile's bytes it then holds some bytes.
pub fn encode_tile(codec: Codec, bitpix: i32, numbers: &[i32], out: &mut [u8]) -> Coded
    requires codec { CanWrite codec bitpix }
    requires tile { HoldTile (unsigned_abs bitpix) (length numbers.now) }
    requires pixels { (xs : List ℤ) × HoldPixels (unsigned_abs bitpix) numbers.now xs }
    requires room { 8 * pixel_count (unsigned_abs bitpix) (length numbers.now) + 64 ≤ length out.old }
    ensures within { result.len ≤ length out.new }
    ensures code { (xs : List ℤ) → HoldPixels (unsigned_abs bitpix) numbers.now xs
        → IsWritten (tile_code codec (unsigned_abs bitpix) xs) result.place result.len out.new }
{
    let pixels = pixels_in(bitpix, numbers.len());
    let len = plain_len(bitpix, pixels as u64) as usize;
    if let Some(len) = write_code(codec, numbers, &mut out[..len - 1]) {
        return Coded {
            place: Place2::Coded,
            len: len as u32,
        };
    }
    write_plain(bitpix, numbers, &mut out[..len]);
    Coded {
        place: Place2::Stored,
        len: len as u32,
    }
}

/// Writes the code of the numbers at the front of `out`, and answers its length; None if there is no code or it is
/// longer than `out`.
fn write_code(codec: Codec, numbers: &[i32], out: &mut [u8]) -> Option<usize>
    requires { CanTry codec numbers.now }
    ensures { Tries (code_of codec numbers.now) out.new result }
{
    match codec {
        Codec::Rice { block, bytepix } => write_rice(block, bytepix, numbers, out),
        Codec::Plio => write_line(numbers, out),
        Codec::Plain => None,
    }
}

/// The same for a Rice code of so many bytes for a number.
fn write_rice(block: u32, bytepix: u32, numbers: &[i32], out: &mut [u8]) -> Option<usize>
    requires block { IsBlock block }
    requires bytepix { IsWidth (8 * bytepix) }
    requires some { 1 ≤ length numbers.now }
    requires fit { All (IsNumber (8 * bytepix)) numbers.now }
    ensures { Tries (Some (rice_bytes (8 * bytepix) block numbers.now)) out.new result }
{
    match bytepix {
        1 => write_rice_code::<8>(block, numbers, out),
        2 => write_rice_code::<16>(block, numbers, out),
        _ => write_rice_code::<32>(block, numbers, out),
    }
}

/// The same for a Rice code of `W` bits.
fn write_rice_code<const W: u32>(block: u32, numbers: &[i32], out: &mut [u8]) -> Option<usize>
    requires block { IsBlock block }
    requires width { IsWidth W }
    requires some { 1 ≤ length numbers.now }
    requires fit { All (IsNumber W) numbers.now }
    ensures { Tries (Some (rice_bytes W block numbers.now)) out.new result }
{
    match Coder::<W>::encode(numbers, block, out) {
        Ok(len) => Some(len),
        Err(_) => None,
    }
}

/// The same for a line list.
fn write_line(numbers: &[i32], out: &mut [u8]) -> Option<usize>
    requires { length numbers.now ≤ 2 ^ 26 }
    ensures { Tries (code_of Codec.Plio numbers.now) out.new result }
{
    fz_plio::can_hold_law();
    match fz_plio::encode(numbers, out) {
        Ok(len) => Some(len),
        Err(_) => None,
    }
}
