//! What a caller asks for by numbers: codecs, columns and tiles.
ghost use Rattle.std.specs.Prelude.{◌≡◌, ◌↔◌, ◌+◌, ◌*◌, ◌^◌, ◌≤◌, IsTrue, MatchOption, unsigned_abs};
ghost use Rattle.fz_tile.specs.Pixels.{IsBitpix, HoldTile, pixel_count};
ghost use Rattle.fz_tile.specs.Codecs.{CanWrite, IsBlock, WritesCodes};
ghost use Rattle.fz_tile.specs.Record.{read_len};
ghost use Rattle.fz_c.specs.Asked.{codec_of, column_of, HasReader, HasNoReader, HasWriter, HasNoWriter};

use fz_flat::can_read;
use fz_tile::{Codec, Place2};

/// The greatest BLOCKSIZE of a Rice code.
const GREATEST_BLOCK: u32 = 32_767;

/// The most pixels of a tile.
const GREATEST_TILE: usize = 1 << 26;

/// The most bytes that a call looks at.
pub const MOST_BYTES: usize = 1 << 60;

/// The codec of these numbers, if tiles of such pixels can be read by it.
pub fn reader(number: u32, block: u32, bytepix: u32, bitpix: i32) -> Option<Codec>
    ensures { MatchOption result (HasNoReader (codec_of number block bytepix) bitpix)
        (HasReader (codec_of number block bytepix) bitpix) }
{
    let codec = codec_from(number, block, bytepix)?;
    if can_read(codec, bitpix) {
        Some(codec)
    } else {
        None
    }
}

/// The codec of these numbers, if tiles of such pixels can be written by it.
pub fn writer(number: u32, block: u32, bytepix: u32, bitpix: i32) -> Option<Codec>
    ensures { MatchOption result (HasNoWriter (codec_of number block bytepix) bitpix)
        (HasWriter (codec_of number block bytepix) bitpix) }
{
    let codec = codec_from(number, block, bytepix)?;
    if can_write(codec, bitpix) {
        Some(codec)
    } else {
        None
    }
}

/// The codec of these numbers.
fn codec_from(number: u32, block: u32, bytepix: u32) -> Option<Codec>
    ensures { result ≡ codec_of number block bytepix }
{
    match number {
        0 => Some(Codec::Plain),
        1 => Some(Codec::Rice { block, bytepix }),
        2 => Some(Codec::Plio),
        _ => None,
    }
}

/// Tiles of such pixels can be written by the codec.
fn can_write(codec: Codec, bitpix: i32) -> bool
    ensures { IsTrue result ↔ CanWrite codec bitpix }
{
    match bitpix {
        8 => writes_codes(codec, 1),
        16 => writes_codes(codec, 2),
        32 => writes_codes(codec, 4),
        64 => is_plain(codec),
        _ => false,
    }
}

/// A writer takes these parameters of the codec for pixels of so many bytes.
fn writes_codes(codec: Codec, bytes: u32) -> bool
    requires { bytes ≤ 4 }
    ensures { IsTrue result ↔ WritesCodes codec (8 * bytes) }
{
    match codec {
        Codec::Rice { block, bytepix } => is_block(block) && bytepix == bytes,
        Codec::Plio | Codec::Plain => true,
    }
}

/// A Rice code may have this BLOCKSIZE.
pub fn is_block(block: u32) -> bool
    ensures { IsTrue result ↔ IsBlock block }
{
    1 <= block && block <= GREATEST_BLOCK
}

/// The codec is NOCOMPRESS.
fn is_plain(codec: Codec) -> bool
    ensures { IsTrue result ↔ (codec ≡ Codec.Plain) }
{
    match codec {
        Codec::Plain => true,
        Codec::Plio => false,
        Codec::Rice {
            block: _,
            bytepix: _,
        } => false,
    }
}

/// The column of this number.
pub fn column_from(number: u32) -> Option<Place2>
    ensures { result ≡ column_of number }
{
    match number {
        0 => Some(Place2::Coded),
        1 => Some(Place2::Stored),
        _ => None,
    }
}

/// The number of pixels in so many places, if they hold a tile.
pub fn tile_pixels(bitpix: i32, places: usize) -> Option<usize>
    requires { IsBitpix bitpix }
    ensures { MatchOption result (¬ HoldTile (unsigned_abs bitpix) places)
        (λ pixels. HoldTile (unsigned_abs bitpix) places × (pixels ≡ pixel_count (unsigned_abs bitpix) places)) }
{
    let pixels = pixels_in(bitpix, places);
    if holds_tile(bitpix, places, pixels) {
        Some(pixels)
    } else {
        None
    }
}

/// The number of pixels in so many places.
fn pixels_in(bitpix: i32, places: usize) -> usize
    requires { IsBitpix bitpix }
    ensures { result ≡ pixel_count (unsigned_abs bitpix) places }
{
    if bitpix == 64 { places / 2 } else { places }
}

/// So many places hold a tile of so many pixels.
fn holds_tile(bitpix: i32, places: usize, pixels: usize) -> bool
    requires size { IsBitpix bitpix }
    requires pixels { pixels ≡ pixel_count (unsigned_abs bitpix) places }
    ensures { IsTrue result ↔ HoldTile (unsigned_abs bitpix) places }
{
    1 <= pixels && pixels <= GREATEST_TILE && (bitpix != 64 || places % 2 == 0)
}

/// The number of bytes that are read of a record of `total` bytes, for so many pixels.
pub fn record_len(pixels: usize, total: u64) -> usize
    requires { pixels ≤ 2 ^ 26 }
    ensures { result ≡ read_len pixels total }
{
    total.min(room_for(pixels) as u64) as usize
}

/// The room that is enough for the bytes of so many pixels.
pub fn room_for(pixels: usize) -> usize
    requires { pixels ≤ 2 ^ 26 }
    ensures { result ≡ 8 * pixels + 64 }
{
    8 * pixels + 64
}
