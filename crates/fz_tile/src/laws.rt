//! Laws of tile records.
ghost use Rattle.std.specs.Prelude.{◌≡◌, ℕ, ◌^◌, ◌≤◌, ℤ, pos, List, length, All};
ghost use Rattle.fz_bits.specs.Numbers.{IsNumber};
ghost use Rattle.fz_tile.specs.Codecs.{CanRead, CanWrite};
ghost use Rattle.fz_tile.specs.Record.{IsRecord};
ghost use Rattle.fz_tile.specs.TileCode.{tile_code};
ghost use Rattle.fz_tile.specs.Laws.{StandsUnrefused, IsRefusedOnce, FillsColumn, HasPlainLen, GivesBytesAgain};
ghost use Rattle.fz_tile.specs.Laws.{GivesPixelsAgain, StoresPixels, SlicesBytes, SlicesPixels, SlicesPlaces};
ghost use Rattle.fz_tile.specs.declared.codec.Codec.{Codec};
ghost use Rattle.fz_tile.specs.declared.coded.Place2.{Place2};

use fz_plio::{can_hold_law, line_list_law};
use fz_rice::{producer_law, reading_law};

/// A record stands for at most one list of so many pixels.
pub fn one_record_law()
    ensures { (codec : Codec) (bitpix total : ℕ) (place : Place2) (read : List ℕ) (xs ys : List ℤ)
        → CanRead codec (pos bitpix) → length ys ≡ length xs
        → IsRecord codec bitpix place total read xs → IsRecord codec bitpix place total read ys → ys ≡ xs }
{
    reading_law();
}

/// What is written for the pixels of a tile is a record that stands for them, and for no other list of as many pixels.
pub fn tile_code_law()
    ensures holds { (codec : Codec) (bitpix : ℕ) (xs : List ℤ) → CanWrite codec (pos bitpix)
        → 1 ≤ length xs → length xs ≤ 2 ^ 26 → All (IsNumber bitpix) xs
        → IsRecord codec bitpix (tile_code codec bitpix xs).place
        (length (tile_code codec bitpix xs).bytes) (tile_code codec bitpix xs).bytes xs }
    ensures no_other { (codec : Codec) (bitpix : ℕ) (xs ys : List ℤ) → CanWrite codec (pos bitpix)
        → 1 ≤ length xs → length xs ≤ 2 ^ 26 → All (IsNumber bitpix) xs → length ys ≡ length xs
        → IsRecord codec bitpix (tile_code codec bitpix xs).place
        (length (tile_code codec bitpix xs).bytes) (tile_code codec bitpix xs).bytes ys → ys ≡ xs }
{
    can_hold_law();
    line_list_law();
    producer_law();
    reading_law();
}

/// A record that stands for so many pixels has no fault, and a record has at most one.
pub fn one_fault_law()
    ensures none { StandsUnrefused }
    ensures one { IsRefusedOnce }
{
    reading_law();
}

/// What is written for the pixels of a tile has at least one byte, no more bytes than the plain ones, and whole
/// elements of its column (FITS 4.0, sections 7.3.5 and 10.1.3).
pub fn column_law()
    ensures { FillsColumn }
{
    can_hold_law();
    line_list_law();
    producer_law();
}

/// Plain bytes and pixels undo each other.
pub fn plain_law()
    ensures len { HasPlainLen }
    ensures bytes { GivesBytesAgain }
    ensures pixels { GivesPixelsAgain }
    ensures stored { StoresPixels }
{}

/// A slice of pixels is a slice of their bytes, and of their places.
pub fn slice_law()
    ensures bytes { SlicesBytes }
    ensures pixels { SlicesPixels }
    ensures places { SlicesPlaces }
{}
