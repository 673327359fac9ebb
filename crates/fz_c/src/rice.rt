//! Rice codes (FITS 4.0, section 10.4.1).
ghost use Rattle.std.specs.Prelude.{◌≡◌, ◌≢◌, ◌^◌, ◌≤◌, length, pos};
ghost use Rattle.fz_rice.specs.Numbers.{IsWidth};
ghost use Rattle.fz_tile.specs.Codecs.{IsBlock};
ghost use Rattle.fz_c.specs.Codes.{ReadsRice, WritesRice};

use crate::asked::{MOST_BYTES, is_block};
use crate::fault::Fault;
use crate::range::are_numbers;
use fz_rice::{CodeFault, Coder};
use fz_tile::TileFault;

/// Reads as many numbers as there are places from a Rice code of 8, 16 or 32 bits, writes the number of bytes
/// that the code takes to `used`, and answers 0.
///
/// After another answer `numbers` holds some values, and `used` is as it was: `CodeShort` the code ends
/// early, `CodeValue` no code begins so, `NoCodec`, or `ManyBytes`.
#[unsafe(no_mangle)]
pub extern "C" fn fz_rice_decode(
    width: u32,
    block: u32,
    code: &[u8],
    numbers: &mut [i32],
    used: &mut u64,
) -> i32
    ensures answer { ReadsRice width block code.now (length numbers.old) numbers.new used.new result }
    ensures kept { result ≢ pos 0 → used.new ≡ used.old }
{
    if !is_block(block) {
        return Fault::NoCodec.answer();
    }
    match width {
        8 => read_rice::<8>(block, code, numbers, used),
        16 => read_rice::<16>(block, code, numbers, used),
        32 => read_rice::<32>(block, code, numbers, used),
        _ => Fault::NoCodec.answer(),
    }
}

/// The same for a code of `W` bits.
fn read_rice<const W: u32>(block: u32, code: &[u8], numbers: &mut [i32], used: &mut u64) -> i32
    requires width { IsWidth W }
    requires block { IsBlock block }
    ensures answer { ReadsRice W block code.now (length numbers.old) numbers.new used.new result }
    ensures kept { result ≢ pos 0 → used.new ≡ used.old }
{
    if code.len() > MOST_BYTES {
        return Fault::ManyBytes.answer();
    }
    match Coder::<W>::decode(code, block, numbers) {
        Ok(len) => {
            *used = len as u64;
            0
        }
        Err(CodeFault::Ended) => Fault::Refused(TileFault::CodeShort).answer(),
        Err(CodeFault::Unlawful) => Fault::Refused(TileFault::CodeValue).answer(),
    }
}

/// Writes the Rice code of 8, 16 or 32 bits of the numbers at the front of `out`, its number of bytes to
/// `used`, and answers 0.
///
/// After the code `out` holds some bytes. After another answer it does, too, and `used` is as it was:
/// `NoCodec`; `NoTile` there is no number; `NumberRange` one is not of so many bits; or `NoRoom` the code is
/// longer than `out`.
#[unsafe(no_mangle)]
pub extern "C" fn fz_rice_encode(
    width: u32,
    block: u32,
    numbers: &[i32],
    out: &mut [u8],
    used: &mut u64,
) -> i32
    ensures answer { WritesRice width block numbers.now (length out.old) out.new used.new result }
    ensures kept { result ≢ pos 0 → used.new ≡ used.old }
{
    if !is_block(block) {
        return Fault::NoCodec.answer();
    }
    match width {
        8 => write_rice::<8>(block, numbers, out, used),
        16 => write_rice::<16>(block, numbers, out, used),
        32 => write_rice::<32>(block, numbers, out, used),
        _ => Fault::NoCodec.answer(),
    }
}

/// The same for a code of `W` bits.
fn write_rice<const W: u32>(block: u32, numbers: &[i32], out: &mut [u8], used: &mut u64) -> i32
    requires width { IsWidth W }
    requires block { IsBlock block }
    ensures answer { WritesRice W block numbers.now (length out.old) out.new used.new result }
    ensures kept { result ≢ pos 0 → used.new ≡ used.old }
{
    if numbers.is_empty() {
        return Fault::NoTile.answer();
    }
    if !are_numbers::<W>(numbers) {
        return Fault::NumberRange.answer();
    }
    match Coder::<W>::encode(numbers, block, out) {
        Ok(len) => {
            *used = len as u64;
            0
        }
        Err(_) => Fault::NoRoom.answer(),
    }
}
