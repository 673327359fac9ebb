//! Line lists (FITS 4.0, section 10.4.3).
ghost use Rattle.std.specs.Prelude.{◌≡◌, ◌≢◌, length, pos};
ghost use Rattle.fz_c.specs.Codes.{ReadsLine, WritesLine};

use crate::fault::Fault;
use fz_plio::PlioStop;
use fz_tile::TileFault;

/// The most numbers of a line.
const GREATEST_LINE: usize = 1 << 26;

/// Reads the numbers of a line, as many as there are places, from its list, and answers 0. `LineList`: the
/// list is refused, and `numbers` holds some values.
#[unsafe(no_mangle)]
pub extern "C" fn fz_plio_decode(code: &[u8], numbers: &mut [i32]) -> i32
    ensures answer { ReadsLine code.now (length numbers.old) numbers.new result }
{
    match fz_plio::decode(code, numbers) {
        Ok(()) => 0,
        Err(_) => Fault::Refused(TileFault::LineList).answer(),
    }
}

/// Writes the list of a line at the front of `out`, its number of bytes to `used`, and answers 0. What is
/// after the list in `out` stays.
///
/// After another answer `used` is as it was: `NoTile` the line is too long; `NumberRange` no list holds one
/// of the numbers, and `out` is as it was; or `NoRoom` the list is longer than `out`, which then holds some
/// bytes.
#[unsafe(no_mangle)]
pub extern "C" fn fz_plio_encode(numbers: &[i32], out: &mut [u8], used: &mut u64) -> i32
    ensures answer { WritesLine numbers.now out.old out.new used.new result }
    ensures kept { result ≢ pos 0 → used.new ≡ used.old }
{
    if numbers.len() > GREATEST_LINE {
        return Fault::NoTile.answer();
    }
    match fz_plio::encode(numbers, out) {
        Ok(len) => {
            *used = len as u64;
            0
        }
        Err(PlioStop::Range { index: _ }) => Fault::NumberRange.answer(),
        Err(PlioStop::Full) => Fault::NoRoom.answer(),
    }
}
