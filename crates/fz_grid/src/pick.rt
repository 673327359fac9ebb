//! The picks of a sieve, one after the other.
ghost use Rattle.std.specs.Prelude.{◌≡◌, ℕ, ◌+◌, ◌-◌, ◌/◌, ◌<◌, ◌≤◌, slice_index};
ghost use Rattle.fz_grid.specs.Arrays.{product};
ghost use Rattle.fz_grid.specs.Region.{IsShape, lengths_of};
ghost use Rattle.fz_grid.specs.Sieve.{IsSieveOf, pick_count};

use crate::{Sieve, coordinates, index};
use fz_block::Axes;

/// The numbers of the picks of a sieve in an array, axis 1 fastest.
#[derive(Drop)]
pub struct Picks {
    pub(crate) shape: Axes,
    pub(crate) sieve: Sieve,
    /// How many picks there are along each axis.
    pub(crate) lengths: Axes,
    /// How many picks were given.
    pub(crate) next: u64,
    /// How many picks there are.
    pub(crate) end: u64,
    ghost shape_is: { IsShape shape },
    ghost within: { IsSieveOf shape sieve },
    ghost lengths_axes: { lengths.n ≡ shape.n },
    ghost counted: { (i : ℕ) → i < shape.n → slice_index lengths.len i
        ≡ pick_count (slice_index sieve.lo i) (slice_index sieve.hi i) (slice_index sieve.step i) },
    ghost lengths_are: { IsShape lengths },
    ghost all: { end ≡ product (lengths_of lengths) },
    ghost ordered: { next ≤ end },
}

impl Picks {
    ghost use Rattle.fz_grid.specs.Arrays.{product};
    ghost use Rattle.fz_grid.specs.Region.{lengths_of};
    ghost use Rattle.fz_grid.specs.Sieve.{sieve_lo, sieve_step};
    ghost use Rattle.fz_grid.specs.Visits.{nth_pick};

    /// The number of the next pick.
    fn number(&self) -> u64
        requires { self.now.next < self.now.end }
        ensures number { result ≡ nth_pick (lengths_of self.now.shape) (sieve_lo self.now.sieve)
            (sieve_step self.now.sieve) (lengths_of self.now.lengths) self.now.next }
        ensures inside { result < product (lengths_of self.now.shape) }
    {
        let numbers = coordinates(&self.lengths, self.next);
        index(&self.shape, &self.sieve.pick(&numbers))
    }
}

impl Iterator for Picks {
    ghost use Rattle.std.specs.Iterator.{YieldsFirst, item_count};
    ghost use Rattle.fz_grid.specs.SieveWalks.{picks_left};

    type Item = u64;

    ghost next_gives = { YieldsFirst picks_left };

    ghost remaining = { item_count picks_left };

    fn next(&mut self) -> Option<u64> {
        if self.next == self.end {
            return None;
        }
        let number = self.number();
        self.next += 1;
        Some(number)
    }
}
