//! Tiles that are read in parts (FITS 4.0, section 10.4.1).
ghost use Rattle.std.specs.Prelude.{◌≡◌, ◌≢◌, length, pos};
ghost use Rattle.fz_c.specs.Asked.{codec_of};
ghost use Rattle.fz_c.specs.Parts.{FindsMark, ReadsNext};

use crate::asked::{MOST_BYTES, reader};
use crate::fault::Fault;
use fz_tile::{Mark, decode_part, first_part_mark};

/// Where the Rice code of a tile is read on.
#[repr(C)]
#[derive(Clone, Copy)]
pub struct FzMark {
    /// The number of bits before it.
    pub bit: u64,
    /// The residue of the number before it, or the start value.
    pub last: u32,
}

/// Writes the mark before the first pixel of a tile, and answers 0.
///
/// After another answer the mark is as it was: `NoPart` no record of a Rice code that stands for pixels
/// begins so, `NoCodec`, or `ManyBytes`.
#[unsafe(no_mangle)]
pub extern "C" fn fz_first_mark(
    codec: u32,
    block: u32,
    bytepix: u32,
    bitpix: i32,
    code: &[u8],
    mark: &mut FzMark,
) -> i32
    ensures answer { FindsMark (codec_of codec block bytepix) bitpix code.now mark.new result }
    ensures kept { result ≢ pos 0 → mark.new ≡ mark.old }
{
    let Some(codec) = reader(codec, block, bytepix, bitpix) else {
        return Fault::NoCodec.answer();
    };
    if code.len() > MOST_BYTES {
        return Fault::ManyBytes.answer();
    }
    match first_part_mark(codec, bitpix, code) {
        Some(Mark { bit, last }) => {
            *mark = FzMark { bit, last };
            0
        }
        None => Fault::NoPart.answer(),
    }
}

/// Reads the next pixels of a tile, as many as there are places, from the mark on, moves the mark after them,
/// and answers 0.
///
/// `code` is the record without some of its first bytes, and the mark is counted from there. After another
/// answer `numbers` holds some values, and the mark is as it was: `NoPart` no record has so many pixels more,
/// `NoCodec`, or `ManyBytes`.
#[unsafe(no_mangle)]
pub extern "C" fn fz_decode_part(
    codec: u32,
    block: u32,
    bytepix: u32,
    bitpix: i32,
    code: &[u8],
    mark: &mut FzMark,
    numbers: &mut [i32],
) -> i32
    ensures answer { ReadsNext (codec_of codec block bytepix) bitpix code.now mark.old mark.new
        (length numbers.old) numbers.new result }
    ensures kept { result ≢ pos 0 → mark.new ≡ mark.old }
{
    let Some(codec) = reader(codec, block, bytepix, bitpix) else {
        return Fault::NoCodec.answer();
    };
    if code.len() > MOST_BYTES {
        return Fault::ManyBytes.answer();
    }
    let from = Mark {
        bit: mark.bit,
        last: mark.last,
    };
    match decode_part(codec, bitpix, code, from, numbers) {
        Some(Mark { bit, last }) => {
            *mark = FzMark { bit, last };
            0
        }
        None => Fault::NoPart.answer(),
    }
}
