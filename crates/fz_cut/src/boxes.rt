//! The box of a sieve, and the part that it picks.
ghost use Rattle.std.specs.Prelude.{◌≡◌, length as len};
ghost use Rattle.fz_files.specs.CutoutBytes.{picked_region};
ghost use Rattle.fz_files.specs.Walks.{box_of};
ghost use Rattle.fz_checks.specs.JobChecks.{IsBox};
ghost use Rattle.fz_files.specs.Picks.{HasPicks};

use fz_grid::{Region, Sieve};

/// The box of a sieve, without its steps: what has to fit into the image.
pub(crate) fn box_of(sieve: &Sieve) -> Region
    requires { HasPicks sieve.now }
    ensures exact { result ≡ box_of sieve.now }
    ensures some { IsBox result }
{
    let mut len = [0; 9];
    for i in 0..sieve.n as usize {
        len[i] = sieve.hi[i] - sieve.lo[i] + 1;
    }
    let n = sieve.n;
    let lo = sieve.lo;
    Region { n, lo, len }
}

/// The part of a sieve as a region: its corner, and as many places along each axis as there are picks.
pub(crate) fn picked_region(sieve: &Sieve) -> Region
    requires { HasPicks sieve.now }
    ensures { result ≡ picked_region sieve.now }
{
    let lengths = sieve.lengths();
    let len = lengths.len;
    let n = sieve.n;
    let lo = sieve.lo;
    Region { n, lo, len }
}

/// The tables of a sieve have a place for each of 9 axes.
pub(crate) fn tables_law(sieve: &Sieve)
    ensures lo { len sieve.now.lo ≡ 9 }
    ensures hi { len sieve.now.hi ≡ 9 }
    ensures step { len sieve.now.step ≡ 9 }
{
    let _lo = sieve.lo;
    let _hi = sieve.hi;
    let _step = sieve.step;
}
