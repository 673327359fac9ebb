//! Along which axes the lines of a region are together in the array.
ghost use Rattle.std.specs.Prelude.{◌≡◌, ◌≢◌, ℕ, ◌+◌, ◌-◌, ◌<◌, ◌≤◌, slice_index};
ghost use Rattle.fz_grid.specs.Region.{IsShape, IsWithin, lengths_of, places_of, region_corner, region_lengths};
ghost use Rattle.fz_grid.specs.Arrays.{product};
ghost use Rattle.fz_grid.specs.Runs.{AreRunsOf, EndWithin, total_length};
ghost use Rattle.fz_grid.specs.Walks.{runs_left};

use crate::places::Places;
use crate::sizes::volume;
use crate::{Region, Runs};
use fz_block::Axes;

/// The longest runs of neighbouring pixels that list the region's pixels, axis 1 fastest.
pub fn runs(shape: &Axes, region: &Region) -> Runs
    requires shape { IsShape shape.now }
    requires region { IsWithin shape.now region.now }
    ensures runs { AreRunsOf
        (places_of (lengths_of shape.now) (region_corner region.now) (region_lengths region.now))
        (runs_left result) }
    ensures inside { EndWithin (product (lengths_of shape.now)) (runs_left result) }
    ensures pixels { total_length (runs_left result) ≡ product (region_lengths region.now) }
{
    let joined = joined_axes(shape, region);
    let mut first = *region;
    for i in 0..joined as usize {
        first.len[i] = 1;
    }
    let length = volume(&Axes {
        n: joined,
        len: region.len,
    });
    Runs {
        starts: Places::new(*shape, first),
        length,
    }
}

/// How many axes of the region are together in the array: those along which it is as long as the
/// array, up to the first along which it is shorter, and that one.
fn joined_axes(shape: &Axes, region: &Region) -> u32
    requires shape { IsShape shape.now }
    requires region { IsWithin shape.now region.now }
    ensures some { 1 ≤ result }
    ensures few { result ≤ shape.now.n }
    ensures full { (i : ℕ) → i + 1 < result → slice_index region.now.len i ≡ slice_index shape.now.len i }
    ensures shorter { result < shape.now.n
        → slice_index region.now.len (result - 1) ≢ slice_index shape.now.len (result - 1) }
{
    for i in 0..shape.n {
        if region.len[i as usize] != shape.len[i as usize] {
            return i + 1;
        }
    }
    shape.n
}
