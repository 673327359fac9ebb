//! Bytes to tiles.
ghost use Rattle.std.specs.Prelude.{◌≡◌, ◌≢◌, ℕ, ◌+◌, ◌*◌, ◌/◌, ◌^◌, ◌<◌, ◌≤◌, ◌↔◌, ℤ, List, length, Err, IsOk, OnOk, MatchResult, unsigned_abs};
ghost use Rattle.fz_rice.specs.Numbers.{IsWidth};
ghost use Rattle.fz_plio.specs.Meaning.{IsLineList, IsRefused};
ghost use Rattle.fz_tile.specs.Pixels.{IsBitpix, HoldPixels, HoldTile, pixel_count};
ghost use Rattle.fz_tile.specs.Codecs.{CanRead, IsBlock};
ghost use Rattle.fz_tile.specs.Record.{IsRecord, IsRecordOf, IsStored, read_len};
ghost use Rattle.fz_tile.specs.Refusals.{IsFault};
ghost use Rattle.fz_tile.specs.Coding.{Reads, ReadsRice};
ghost use Rattle.fz_tile.specs.declared.fault.TileFault.{TileFault};

use crate::laws::one_fault_law;
use crate::plain::{pixels_in, plain_len, read_plain};
use crate::range::{check_range, check_width};
use crate::{Codec, Place2, TileFault};
use fz_rice::{CodeFault, Coder};

/// Reads the pixels of a tile from its record in the heap (FITS 4.0, section 10.1.3).
///
/// `total` is the length of the record, and `code` is what was read of it: its first bytes, at most 8 for each pixel
/// and 64 more. A pixel takes one place of `numbers`, and one of 64 bits two. Each refusal of `TileFault` comes
/// exactly in the case that it names; after it `numbers` holds some values.
pub fn decode_tile(
    codec: Codec,
    bitpix: i32,
    place: Place2,
    code: &[u8],
    total: u64,
    numbers: &mut [i32],
) -> Result<(), TileFault>
    requires codec { CanRead codec bitpix }
    requires tile { HoldTile (unsigned_abs bitpix) (length numbers.old) }
    requires code { length code.now ≡ read_len (pixel_count (unsigned_abs bitpix) (length numbers.old)) total }
    ensures pixels { OnOk result ((xs : List ℤ)
        × (length xs ≡ pixel_count (unsigned_abs bitpix) (length numbers.old))
        × IsRecord codec (unsigned_abs bitpix) place total code.now xs
        × HoldPixels (unsigned_abs bitpix) numbers.new xs) }
    ensures ok { IsOk result ↔ IsRecordOf codec (unsigned_abs bitpix) place total code.now
        (pixel_count (unsigned_abs bitpix) (length numbers.old)) }
    ensures fault { (fault : TileFault) → (result ≡ Err fault)
        ↔ IsFault codec (unsigned_abs bitpix) place total code.now
        (pixel_count (unsigned_abs bitpix) (length numbers.old)) fault }
{
    one_fault_law();
    match place {
        Place2::Stored => read_stored(bitpix, code, total, numbers),
        Place2::Coded => read_coded(codec, bitpix, code, total, numbers),
    }
}

/// Reads a tile that is stored as plain bytes.
fn read_stored(bitpix: i32, code: &[u8], total: u64, numbers: &mut [i32]) -> Result<(), TileFault>
    requires size { IsBitpix bitpix }
    requires tile { HoldTile (unsigned_abs bitpix) (length numbers.old) }
    requires code { length code.now ≡ read_len (pixel_count (unsigned_abs bitpix) (length numbers.old)) total }
    ensures { MatchResult result
        (λ _. (xs : List ℤ) × (length xs ≡ pixel_count (unsigned_abs bitpix) (length numbers.old))
        × IsStored (unsigned_abs bitpix) total code.now xs × HoldPixels (unsigned_abs bitpix) numbers.new xs)
        (λ fault. (fault ≡ TileFault.TileSize)
        × (total ≢ unsigned_abs bitpix / 8 * pixel_count (unsigned_abs bitpix) (length numbers.old))) }
{
    let pixels = pixels_in(bitpix, numbers.len());
    if total != plain_len(bitpix, pixels as u64) {
        return Err(TileFault::TileSize);
    }
    read_plain(bitpix, code, numbers);
    Ok(())
}

/// Reads a tile that is in the column of coded tiles.
fn read_coded(
    codec: Codec,
    bitpix: i32,
    code: &[u8],
    total: u64,
    numbers: &mut [i32],
) -> Result<(), TileFault>
    requires codec { CanRead codec bitpix }
    requires tile { HoldTile (unsigned_abs bitpix) (length numbers.old) }
    requires code { length code.now ≡ read_len (pixel_count (unsigned_abs bitpix) (length numbers.old)) total }
    ensures { Reads codec (unsigned_abs bitpix) Place2.Coded total code.now
        (pixel_count (unsigned_abs bitpix) (length numbers.old)) result numbers.new }
{
    match codec {
        Codec::Rice { block, bytepix } => {
            read_rice(block, bytepix, code, total, numbers)?;
            check_width(8 * bytepix, bitpix, numbers)
        }
        Codec::Plio => {
            read_line(code, numbers)?;
            check_range(bitpix, numbers)
        }
        Codec::Plain => read_stored(bitpix, code, total, numbers),
    }
}

/// Reads the numbers of a Rice code of so many bytes for a number.
fn read_rice(
    block: u32,
    bytepix: u32,
    code: &[u8],
    total: u64,
    numbers: &mut [i32],
) -> Result<(), TileFault>
    requires block { IsBlock block }
    requires bytepix { IsWidth (8 * bytepix) }
    requires most { length numbers.old ≤ 2 ^ 26 }
    requires code { length code.now ≤ 2 ^ 60 }
    ensures { ReadsRice (8 * bytepix) block total code.now (length numbers.old) result numbers.new }
{
    match bytepix {
        1 => read_rice_code::<8>(block, code, total, numbers),
        2 => read_rice_code::<16>(block, code, total, numbers),
        _ => read_rice_code::<32>(block, code, total, numbers),
    }
}

/// The same for a Rice code of `W` bits.
fn read_rice_code<const W: u32>(
    block: u32,
    code: &[u8],
    total: u64,
    numbers: &mut [i32],
) -> Result<(), TileFault>
    requires block { IsBlock block }
    requires width { IsWidth W }
    requires most { length numbers.old ≤ 2 ^ 26 }
    requires code { length code.now ≤ 2 ^ 60 }
    ensures { ReadsRice W block total code.now (length numbers.old) result numbers.new }
{
    match Coder::<W>::decode(code, block, numbers) {
        Ok(_) => Ok(()),
        Err(CodeFault::Ended) => Err(cut_fault(total, numbers.len())),
        Err(CodeFault::Unlawful) => Err(TileFault::CodeValue),
    }
}

/// The refusal of a code that ends early: whether all bytes of the record were read.
#[cold]
fn cut_fault(total: u64, pixels: usize) -> TileFault
    requires { pixels ≤ 2 ^ 26 }
    ensures short { total ≤ 8 * pixels + 64 → result ≡ TileFault.CodeShort }
    ensures long { 8 * pixels + 64 < total → result ≡ TileFault.CodeValue }
{
    if total <= 8 * pixels as u64 + 64 {
        TileFault::CodeShort
    } else {
        TileFault::CodeValue
    }
}

/// Reads the numbers of a line list.
fn read_line(code: &[u8], numbers: &mut [i32]) -> Result<(), TileFault>
    ensures { MatchResult result (λ _. IsLineList (length numbers.old) code.now numbers.new)
        (λ fault. (fault ≡ TileFault.LineList) × IsRefused (length numbers.old) code.now) }
{
    match fz_plio::decode(code, numbers) {
        Ok(()) => Ok(()),
        Err(_) => Err(TileFault::LineList),
    }
}
