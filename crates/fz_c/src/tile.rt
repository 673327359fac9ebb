//! Tiles.
ghost use Rattle.std.specs.Prelude.{◌≡◌, ◌≢◌, length, pos, Some};
ghost use Rattle.fz_c.specs.Asked.{codec_of, column_of};
ghost use Rattle.fz_c.specs.Tiles.{Decodes, Encodes};

use crate::asked::{column_from, reader, record_len, room_for, tile_pixels, writer};
use crate::fault::Fault;
use crate::range::hold_pixels;
use fz_tile::{Coded, Place2, decode_tile, encode_tile};

/// What was written for a tile.
#[repr(C)]
#[derive(Clone, Copy)]
pub struct FzCoded {
    /// The column that the bytes belong to: 0 COMPRESSED_DATA, 1 UNCOMPRESSED_DATA.
    pub column: u32,
    /// The number of bytes.
    pub len: u32,
}

/// Reads the pixels of a tile from its record in the heap, and answers 0 (FITS 4.0, section 10.1.3).
///
/// `total` is the length of the record, and `code` has at least what is read of it: its first bytes, at most
/// 8 for each pixel and 64 more. A pixel takes one place of `numbers`, and one of 64 bits two, its upper half
/// and then its lower half, each signed. After another answer `numbers` holds some values: `Refused` the
/// record stands for no so many pixels, `NoCodec`, `NoColumn`, `NoTile` or `FewBytes`.
#[unsafe(no_mangle)]
pub extern "C" fn fz_decode_tile(
    codec: u32,
    block: u32,
    bytepix: u32,
    bitpix: i32,
    column: u32,
    code: &[u8],
    total: u64,
    numbers: &mut [i32],
) -> i32
    ensures answer { Decodes (codec_of codec block bytepix) bitpix (column_of column) code.now total
        (length numbers.old) numbers.new result }
{
    let Some(codec) = reader(codec, block, bytepix, bitpix) else {
        return Fault::NoCodec.answer();
    };
    let Some(column) = column_from(column) else {
        return Fault::NoColumn.answer();
    };
    let Some(pixels) = tile_pixels(bitpix, numbers.len()) else {
        return Fault::NoTile.answer();
    };
    let len = record_len(pixels, total);
    if code.len() < len {
        return Fault::FewBytes.answer();
    }
    match decode_tile(codec, bitpix, column, &code[..len], total, numbers) {
        Ok(()) => 0,
        Err(fault) => Fault::Refused(fault).answer(),
    }
}

/// Writes the bytes of a tile at the front of `out`, their column and number to `coded`, and answers 0 (FITS
/// 4.0, section 10.1.3): the tile's code if the codec has one that is shorter than the plain bytes, otherwise
/// these.
///
/// `out` has at least 8 bytes for each pixel and 64 more; after the tile's bytes it then holds some bytes.
/// After another answer `coded` is as it was: `NoCodec`, `NoTile`, `NoRoom`, or `NumberRange`, a pixel is
/// outside the range of BITPIX.
#[unsafe(no_mangle)]
pub extern "C" fn fz_encode_tile(
    codec: u32,
    block: u32,
    bytepix: u32,
    bitpix: i32,
    numbers: &[i32],
    out: &mut [u8],
    coded: &mut FzCoded,
) -> i32
    ensures answer { Encodes (codec_of codec block bytepix) bitpix numbers.now (length out.old)
        coded.new.column coded.new.len out.new result }
    ensures kept { result ≢ pos 0 → coded.new ≡ coded.old }
{
    let Some(codec) = writer(codec, block, bytepix, bitpix) else {
        return Fault::NoCodec.answer();
    };
    let Some(pixels) = tile_pixels(bitpix, numbers.len()) else {
        return Fault::NoTile.answer();
    };
    if out.len() < room_for(pixels) {
        return Fault::NoRoom.answer();
    }
    if !hold_pixels(bitpix, numbers) {
        return Fault::NumberRange.answer();
    }
    let Coded { place, len } = encode_tile(codec, bitpix, numbers, out);
    *coded = FzCoded {
        column: number_of(place),
        len,
    };
    0
}

/// The number of a column.
fn number_of(column: Place2) -> u32
    ensures { column_of result ≡ Some column }
{
    match column {
        Place2::Coded => 0,
        Place2::Stored => 1,
    }
}
