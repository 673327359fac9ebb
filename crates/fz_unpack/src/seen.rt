//! What the second reading of the headers has to find as the first look did: else another program changed the file.

ghost use Rattle.std.specs.Prelude.{◌≡◌, ◌+◌, ◌<◌, ◌≤◌, ◌^◌, ◌==◌, ◌↔◌, true, IsTrue};
ghost use Rattle.fz_job.specs.Again.{was_primary_image};

use crate::first::First;
use fz_job::ReadHdu;

/// Whether the HDU after an empty primary is a packed primary exactly if the first HDU that stands for something is HDU 1
/// (FITS 4.0, section 10.1.2).
pub(crate) fn is_primary_as_found(first: &First, after_empty: bool, again: &ReadHdu) -> bool
    ensures exact { IsTrue result ↔ (after_empty ≡ true → was_primary_image again.now.image ≡ (first.now.hdu == 1)) }
{
    if !after_empty {
        return true;
    }
    if first.hdu == 1 {
        again.was_primary()
    } else {
        !again.was_primary()
    }
}

/// Whether an HDU before this byte ends the file exactly if it is the last (FITS 4.0, section 3.1).
pub(crate) fn is_last_as_seen(hdu: u32, hdus: u32, next: u64, length: u64) -> bool
    requires { hdu < hdus }
    ensures exact { IsTrue result ↔ ((next ≡ length) ↔ (hdu + 1 ≡ hdus)) }
{
    if next == length {
        hdu + 1 == hdus
    } else {
        hdu + 1 != hdus
    }
}
