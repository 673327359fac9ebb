//! The division of an array into tiles.
ghost use Rattle.std.specs.Prelude.{◌≡◌, ℕ, ◌+◌, ◌-◌, ◌/◌, ◌^◌, ◌<◌, ◌≤◌, slice_index};
ghost use Rattle.fz_grid.specs.Grid.{tile_counts};
ghost use Rattle.fz_grid.specs.Region.{IsDivided, IsZeroFrom, lengths_of};

use crate::Region;
use crate::sizes::volume;
use fz_block::Axes;

/// An array and the lengths of its tiles (FITS 4.0, section 10.1).
#[derive(Clone, Copy, Debug)]
pub struct Grid {
    pub shape: Axes,
    pub tile: Axes,
    ghost divided: { IsDivided shape tile },
}

impl Grid {
    ghost use Rattle.fz_grid.specs.Arrays.{product};
    ghost use Rattle.fz_grid.specs.Grid.{tile_corner, tile_count, tile_counts, tile_lengths};
    ghost use Rattle.fz_grid.specs.Region.{IsShape, IsWithin, IsZeroFrom, axes_of, lengths_of, region_corner, region_lengths};

    /// The array of this shape, divided into tiles of these lengths. The tiles at the upper ends are
    /// cut short.
    pub fn new(shape: Axes, tile: Axes) -> Grid
        requires { IsDivided shape tile }
        ensures shape { result.shape ≡ shape }
        ensures tile { result.tile ≡ tile }
    {
        Grid { shape, tile }
    }

    /// How many tiles there are.
    pub fn tile_count(&self) -> u32
        ensures count { result ≡ tile_count (lengths_of self.now.shape) (lengths_of self.now.tile) }
        ensures some { 1 ≤ result }
        ensures most { result < 2 ^ 31 }
    {
        volume(&self.counts()) as u32
    }

    /// The number of pixels of tile 0, which no tile exceeds.
    pub fn largest(&self) -> u32
        ensures pixels { result ≡ product (tile_lengths (lengths_of self.now.shape) (lengths_of self.now.tile) 0) }
        ensures some { 1 ≤ result }
        ensures most { result ≤ 2 ^ 26 }
    {
        volume(&self.tile) as u32
    }

    /// The pixels of tile `t`.
    pub fn tile_box(&self, t: u32) -> Region
        requires { t < tile_count (lengths_of self.now.shape) (lengths_of self.now.tile) }
        ensures axes { result.n ≡ self.now.shape.n }
        ensures within { IsWithin self.now.shape result }
        ensures shape { IsShape (axes_of result) }
        ensures corner { region_corner result ≡ tile_corner (lengths_of self.now.shape) (lengths_of self.now.tile) t }
        ensures lengths { region_lengths result ≡ tile_lengths (lengths_of self.now.shape) (lengths_of self.now.tile) t }
        ensures no_larger { product (region_lengths result)
            ≤ product (tile_lengths (lengths_of self.now.shape) (lengths_of self.now.tile) 0) }
        ensures zero_lo { IsZeroFrom result.n result.lo }
        ensures zero_len { IsZeroFrom result.n result.len }
    {
        let mut region = Region {
            n: self.shape.n,
            lo: [0; 9],
            len: [0; 9],
        };
        let mut digits = t;
        for i in 0..self.shape.n as usize {
            let count = tiles_along(self.shape.len[i], self.tile.len[i]);
            let lo = digits % count * self.tile.len[i];
            digits /= count;
            region.lo[i] = lo;
            region.len[i] = self.tile.len[i].min(self.shape.len[i] - lo);
        }
        region
    }

    /// How many tiles there are along each axis.
    pub(crate) fn counts(&self) -> Axes
        ensures axes { result.n ≡ self.now.shape.n }
        ensures counts { lengths_of result ≡ tile_counts (lengths_of self.now.shape) (lengths_of self.now.tile) }
        ensures positive { (i : ℕ) → i < result.n → 1 ≤ slice_index result.len i }
    {
        tile_counts(&self.shape, &self.tile)
    }
}

/// How many tiles of these lengths there are along each axis (FITS 4.0, section 10.1). The two have as
/// many axes.
pub fn tile_counts(shape: &Axes, tile: &Axes) -> Axes
    requires axes { shape.now.n ≤ 9 }
    requires same { tile.now.n ≡ shape.now.n }
    requires positive { (i : ℕ) → i < shape.now.n → 1 ≤ slice_index tile.now.len i }
    ensures axes { result.n ≡ shape.now.n }
    ensures counts { lengths_of result ≡ tile_counts (lengths_of shape.now) (lengths_of tile.now) }
    ensures zero { IsZeroFrom result.n result.len }
{
    let mut counts = Axes {
        n: shape.n,
        len: [0; 9],
    };
    for i in 0..shape.n as usize {
        counts.len[i] = tiles_along(shape.len[i], tile.len[i]);
    }
    counts
}

/// How many tiles of this length an axis has.
fn tiles_along(axis: u32, tile: u32) -> u32
    requires tile { 0 < tile }
    ensures { result ≡ (axis + (tile - 1)) / tile }
{
    ((u64::from(axis) + u64::from(tile - 1)) / u64::from(tile)) as u32
}
