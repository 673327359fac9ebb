//! The places of a box, one after the other.
ghost use Rattle.std.specs.Prelude.{◌≡◌, ◌<◌, ◌≤◌, IfSome};
ghost use Rattle.fz_grid.specs.Arrays.{product};
ghost use Rattle.fz_grid.specs.Nth.{nth_place};
ghost use Rattle.fz_grid.specs.Region.{IsShape, IsWithin, lengths_of, places_of, region_corner, region_lengths};

use crate::Region;
use fz_block::Axes;

/// The numbers of the pixels of a region, axis 1 fastest.
#[derive(Drop)]
pub(crate) struct Places {
    shape: Axes,
    region: Region,
    /// How many places were given.
    next: u64,
    /// How many places there are.
    end: u64,
    ghost shape_is: { IsShape shape },
    ghost within: { IsWithin shape region },
    ghost all: { end ≡ product (region_lengths region) },
    ghost ordered: { next ≤ end },
}

impl Places {
    ghost use Rattle.std.specs.Iterator.{YieldsFirst};
    ghost use Rattle.fz_grid.specs.Walks.{places_left};

    /// The places of this region of an array of this shape.
    pub(crate) fn new(shape: Axes, region: Region) -> Places
        requires shape { IsShape shape }
        requires region { IsWithin shape region }
        ensures shape { result.shape ≡ shape }
        ensures left { places_left result
            ≡ places_of (lengths_of shape) (region_corner region) (region_lengths region) }
    {
        let end = region.pixels();
        Places {
            shape,
            region,
            next: 0,
            end,
        }
    }

    /// The next place; None if all were given.
    pub(crate) fn advance(&mut self) -> Option<u64>
        ensures gives { YieldsFirst places_left self.old result self.new }
        ensures inside { IfSome result (λ place. place < product (lengths_of self.new.shape)) }
        ensures shape { self.new.shape ≡ self.old.shape }
    {
        if self.next == self.end {
            return None;
        }
        let place = nth(&self.shape, &self.region, self.next);
        self.next += 1;
        Some(place)
    }
}

/// The number of the `k`-th pixel of the region.
fn nth(shape: &Axes, region: &Region, k: u64) -> u64
    requires shape { IsShape shape.now }
    requires region { IsWithin shape.now region.now }
    ensures place { result
        ≡ nth_place (lengths_of shape.now) (region_corner region.now) (region_lengths region.now) k }
    ensures inside { result < product (lengths_of shape.now) }
{
    let mut digits = k;
    let mut place = 0u64;
    let mut stride = 1u64;
    for i in 0..shape.n as usize {
        let length = u64::from(region.len[i]);
        place += stride * (u64::from(region.lo[i]) + digits % length);
        digits /= length;
        stride *= u64::from(shape.len[i]);
    }
    place
}
