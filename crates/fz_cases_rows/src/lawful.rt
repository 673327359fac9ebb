//! What regions and sieves the calls take, as functions that decide it.
ghost use Rattle.std.specs.Prelude.{IsTrue};
ghost use Rattle.fz_grid.specs.Region.{IsShape, IsWithin};
ghost use Rattle.fz_grid.specs.Sieve.{IsSieveOf};

use fz_block::Axes;
use fz_grid::{Region, Sieve};

/// The region lies in the array, and has a pixel.
pub(crate) fn is_within(shape: &Axes, region: &Region) -> bool
    requires { IsShape shape.now }
    ensures { IsTrue result → IsWithin shape.now region.now }
{
    if region.n != shape.n {
        return false;
    }
    for i in 0..shape.n as usize {
        if region.len[i] < 1 {
            return false;
        }
        if region.lo[i] > shape.len[i] {
            return false;
        }
        if region.len[i] > shape.len[i] - region.lo[i] {
            return false;
        }
    }
    true
}

/// The sieve has a pick along each axis of the array, and none after it.
pub(crate) fn sifts(shape: &Axes, sieve: &Sieve) -> bool
    requires { IsShape shape.now }
    ensures { IsTrue result → IsSieveOf shape.now sieve.now }
{
    if sieve.n != shape.n {
        return false;
    }
    for i in 0..shape.n as usize {
        if sieve.lo[i] > sieve.hi[i] {
            return false;
        }
        if sieve.hi[i] >= shape.len[i] {
            return false;
        }
        if sieve.step[i] < 1 {
            return false;
        }
    }
    true
}
