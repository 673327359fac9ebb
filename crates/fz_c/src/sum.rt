//! Sums of bytes (FITS 4.0, appendix J).
ghost use Rattle.std.specs.Prelude.{◌≡◌, ◌≢◌, pos};
ghost use Rattle.fz_c.specs.Sums.{Sums};

use crate::asked::MOST_BYTES;
use crate::fault::Fault;
use fz_sum::{Sum, sum_law};

/// Writes to `sum` the ones' complement sum of the words of these bytes, after a sum of the words before
/// them, and answers 0. A last word that is not whole is filled up with zeros. `ManyBytes`: the sum is as it
/// was.
#[unsafe(no_mangle)]
pub extern "C" fn fz_sum(before: u32, bytes: &[u8], sum: &mut u32) -> i32
    ensures answer { Sums before bytes.now sum.new result }
    ensures kept { result ≢ pos 0 → sum.new ≡ sum.old }
{
    if bytes.len() > MOST_BYTES {
        return Fault::ManyBytes.answer();
    }
    sum_law();
    let mut added = Sum::new();
    added.add(0, &before.to_be_bytes());
    added.add(0, bytes);
    *sum = added.value();
    0
}
