//! Boxes of an array.
ghost use Rattle.std.specs.Prelude.{◌≡◌, ◌^◌, ◌≤◌};
ghost use Rattle.fz_grid.specs.Arrays.{product};

use crate::sizes::volume;
use fz_block::Axes;

/// A box of pixels: its least coordinates, counted from 0, and how long it is along each axis, axis 1
/// first. The entries from `n` on are 0 in what a call answers, and are not looked at in what it is
/// given.
#[derive(Clone, Copy, Debug, PartialEq, Eq)]
pub struct Region {
    pub n: u32,
    pub lo: [u32; 9],
    pub len: [u32; 9],
}

impl Region {
    ghost use Rattle.fz_grid.specs.Region.{IsShape, axes_of, region_lengths};

    /// The region's lengths, as those of an array of its own.
    pub fn axes(&self) -> Axes
        ensures { result ≡ axes_of self.now }
    {
        Axes {
            n: self.n,
            len: self.len,
        }
    }

    /// How many pixels the region has.
    pub fn pixels(&self) -> u64
        requires { IsShape (axes_of self.now) }
        ensures pixels { result ≡ product (region_lengths self.now) }
        ensures some { 1 ≤ result }
        ensures most { result ≤ 2 ^ 40 }
    {
        volume(&self.axes())
    }
}
