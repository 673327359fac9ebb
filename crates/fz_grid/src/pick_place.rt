//! Where a pick of a part is.
ghost use Rattle.std.specs.Prelude.{◌≡◌, ℕ, ◌+◌, ◌*◌, ◌<◌, ◌≤◌, slice_index};
ghost use Rattle.fz_grid.specs.Region.{IsPlaceOf, IsWithin};
ghost use Rattle.fz_grid.specs.Sieve.{IsSieveOf, pick_count};

use crate::region::Region;
use crate::sieve::{Sieve, pick_along};
use fz_block::Axes;

/// The coordinates of the pick with these numbers along the axes.
pub(crate) fn pick_at(tile: &Axes, sieve: &Sieve, numbers: &[u32; 9]) -> [u32; 9]
    requires axes { tile.now.n ≤ 9 }
    requires sieve { IsSieveOf tile.now sieve.now }
    requires numbers { (i : ℕ) → i < tile.now.n → slice_index numbers.now i
        < pick_count (slice_index sieve.now.lo i) (slice_index sieve.now.hi i) (slice_index sieve.now.step i) }
    ensures pick { (i : ℕ) → i < tile.now.n → slice_index result i
        ≡ slice_index sieve.now.lo i + slice_index numbers.now i * slice_index sieve.now.step i }
    ensures inside { IsPlaceOf tile.now result }
{
    let mut at = [0u32; 9];
    for i in 0..tile.n as usize {
        at[i] = pick_along(sieve.lo[i], sieve.hi[i], sieve.step[i], numbers[i]);
    }
    at
}

/// The coordinates of the pixel of a region with these coordinates, counted from its corner.
pub(crate) fn pixel_at(shape: &Axes, region: &Region, numbers: &[u32; 9]) -> [u32; 9]
    requires axes { shape.now.n ≤ 9 }
    requires region { IsWithin shape.now region.now }
    requires numbers { (i : ℕ) → i < shape.now.n → slice_index numbers.now i < slice_index region.now.len i }
    ensures pixel { (i : ℕ) → i < shape.now.n → slice_index result i
        ≡ slice_index region.now.lo i + slice_index numbers.now i }
    ensures inside { IsPlaceOf shape.now result }
{
    let mut at = [0u32; 9];
    for i in 0..shape.n as usize {
        at[i] = pixel_along(region.lo[i], region.len[i], shape.len[i], numbers[i]);
    }
    at
}

/// The `k`-th pixel of a region along an axis, which ends at `end`.
fn pixel_along(lo: u32, len: u32, end: u32, k: u32) -> u32
    requires region { lo + len ≤ end }
    requires inside { k < len }
    ensures pixel { result ≡ lo + k }
    ensures before { result < end }
{
    lo + k
}
