//! Rice codes that are read in parts.
ghost use Rattle.std.specs.Prelude.{◌≡◌, ℕ, ◌+◌, ◌*◌, ◌^◌, ◌<◌, ◌≤◌, ◌↔◌, ℤ, List, length, All, IsTrue, IfSome, MatchOption, unsigned_abs};
ghost use Rattle.fz_bits.specs.Bits.{bits_of};
ghost use Rattle.fz_bits.specs.Numbers.{IsNumber};
ghost use Rattle.fz_rice.specs.Numbers.{IsWidth};
ghost use Rattle.fz_tile.specs.Codecs.{CanRead, IsBlock};
ghost use Rattle.fz_tile.specs.Parts.{ReadsPart, ReadsCodeOn, HasFirstMark, HasStartMark};

use crate::Codec;
use crate::range::check_width;
use fz_bits::bytes_law;
use fz_rice::{Coder, Mark, marks_law};

/// Reads the next pixels of a tile from its Rice code, and answers the mark after them.
///
/// `code` is the record in the heap without some of its first bytes, and the mark is where its code is read
/// on, counted from there. None comes for no record that has so many pixels more.
pub fn decode_part(
    codec: Codec,
    bitpix: i32,
    code: &[u8],
    mark: Mark,
    numbers: &mut [i32],
) -> Option<Mark>
    requires codec { CanRead codec bitpix }
    requires code { length code.now ≤ 2 ^ 60 }
    ensures part { ReadsPart codec (unsigned_abs bitpix) code.now mark (length numbers.old) numbers.new result }
    ensures range { IfSome result (λ _. All (IsNumber (unsigned_abs bitpix)) numbers.new) }
    ensures place { IfSome result (λ next. next.bit ≤ 8 * length code.now) }
{
    marks_law();
    bytes_law();
    match codec {
        Codec::Rice { block, bytepix } => {
            let next = read_part(block, bytepix, code, mark, numbers)?;
            match check_width(8 * bytepix, bitpix, numbers) {
                Ok(()) => Some(next),
                Err(_) => None,
            }
        }
        Codec::Plio | Codec::Plain => None,
    }
}

/// The mark before the first pixel of a Rice code. None comes for no record of such a code that stands for
/// pixels.
pub fn first_part_mark(codec: Codec, bitpix: i32, code: &[u8]) -> Option<Mark>
    requires codec { CanRead codec bitpix }
    requires code { length code.now ≤ 2 ^ 60 }
    ensures { HasFirstMark codec (unsigned_abs bitpix) code.now result }
{
    marks_law();
    match codec {
        Codec::Rice { block: _, bytepix } => first_mark(bytepix, code),
        Codec::Plio | Codec::Plain => None,
    }
}

/// The same for a Rice code of so many bytes for a number.
fn first_mark(bytepix: u32, code: &[u8]) -> Option<Mark>
    requires bytepix { IsWidth (8 * bytepix) }
    requires code { length code.now ≤ 2 ^ 60 }
    ensures { HasStartMark (8 * bytepix) (bits_of code.now) result }
{
    match bytepix {
        1 => start_mark::<8>(code),
        2 => start_mark::<16>(code),
        _ => start_mark::<32>(code),
    }
}

/// The same for a Rice code of `W` bits.
fn start_mark<const W: u32>(code: &[u8]) -> Option<Mark>
    requires width { IsWidth W }
    requires code { length code.now ≤ 2 ^ 60 }
    ensures { HasStartMark W (bits_of code.now) result }
{
    match Coder::<W>::first_mark(code) {
        Ok(mark) => Some(mark),
        Err(_) => None,
    }
}

/// Reads the numbers of a Rice code of so many bytes for a number from the mark on.
fn read_part(block: u32, bytepix: u32, code: &[u8], mark: Mark, numbers: &mut [i32]) -> Option<Mark>
    requires block { IsBlock block }
    requires bytepix { IsWidth (8 * bytepix) }
    requires code { length code.now ≤ 2 ^ 60 }
    ensures { ReadsCodeOn (8 * bytepix) block code.now mark (length numbers.old) numbers.new result }
{
    match bytepix {
        1 => read_part_code::<8>(block, code, mark, numbers),
        2 => read_part_code::<16>(block, code, mark, numbers),
        _ => read_part_code::<32>(block, code, mark, numbers),
    }
}

/// The same for a Rice code of `W` bits.
fn read_part_code<const W: u32>(
    block: u32,
    code: &[u8],
    mark: Mark,
    numbers: &mut [i32],
) -> Option<Mark>
    requires block { IsBlock block }
    requires width { IsWidth W }
    requires code { length code.now ≤ 2 ^ 60 }
    ensures { ReadsCodeOn W block code.now mark (length numbers.old) numbers.new result }
{
    if mark.bit > 8 * code.len() as u64 || !holds::<W>(mark.last) {
        return None;
    }
    match Coder::<W>::decode_on(code, mark, block, numbers) {
        Ok(next) => Some(next),
        Err(_) => None,
    }
}

/// `W` bits hold a residue.
fn holds<const W: u32>(residue: u32) -> bool
    requires { IsWidth W }
    ensures { IsTrue result ↔ (residue < 2 ^ W) }
{
    if W == 8 {
        residue < 256
    } else if W == 16 {
        residue < 65_536
    } else {
        true
    }
}
