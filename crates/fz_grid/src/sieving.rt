//! The tiles with a pick of a sieve, one after the other.
ghost use Rattle.std.specs.Prelude.{◌≡◌, ℕ, ◌<◌, ◌≤◌, slice_index};
ghost use Rattle.fz_grid.specs.Arrays.{product};
ghost use Rattle.fz_grid.specs.Region.{IsPlaceOf, lengths_of};
ghost use Rattle.fz_grid.specs.Sieve.{IsSieveOf};
ghost use Rattle.fz_grid.specs.Visits.{AreVisits, visited, visited_count};

use crate::sizes::volume;
use crate::{Grid, Sieve, coordinates, index};
use fz_block::Axes;

/// The numbers of the tiles with a pick of a sieve, ascending.
#[derive(Drop)]
pub struct SieveTiles {
    pub(crate) shape: Axes,
    pub(crate) tile: Axes,
    /// How many tiles there are along each axis.
    pub(crate) grid: Axes,
    pub(crate) sieve: Sieve,
    /// How many of them have a pick.
    pub(crate) counts: Axes,
    /// How many tiles were given.
    pub(crate) next: u64,
    /// How many tiles have a pick.
    pub(crate) end: u64,
    ghost visits: { AreVisits shape tile grid sieve counts },
    ghost all: { end ≡ product (lengths_of counts) },
    ghost ordered: { next ≤ end },
}

impl SieveTiles {
    ghost use Rattle.std.specs.Iterator.{YieldsFirst};
    ghost use Rattle.fz_grid.specs.Arrays.{product};
    ghost use Rattle.fz_grid.specs.Region.{lengths_of};
    ghost use Rattle.fz_grid.specs.Sieve.{sieve_lo, sieve_step};
    ghost use Rattle.fz_grid.specs.SieveWalks.{sieve_tiles_left};
    ghost use Rattle.fz_grid.specs.Visits.{nth_visited};

    /// Its place along each axis of the grid, at which the next tile has these numbers along the axes.
    fn place(&self, numbers: &[u32; 9]) -> [u32; 9]
        requires { (i : ℕ) → i < self.now.counts.n → slice_index numbers.now i < slice_index self.now.counts.len i }
        ensures place { (i : ℕ) → i < self.now.shape.n → slice_index result i
            ≡ visited (slice_index self.now.sieve.lo i) (slice_index self.now.sieve.step i)
            (slice_index self.now.tile.len i) (slice_index numbers.now i) }
        ensures inside { IsPlaceOf self.now.grid result }
    {
        let mut at = [0u32; 9];
        for i in 0..self.shape.n as usize {
            at[i] = tile_along(
                self.sieve.lo[i],
                self.sieve.step[i],
                self.tile.len[i],
                numbers[i],
                self.grid.len[i],
            );
        }
        at
    }

    /// The next tile; None if all were given.
    fn advance(&mut self) -> Option<u32>
        ensures { YieldsFirst sieve_tiles_left self.old result self.new }
    {
        if self.next == self.end {
            return None;
        }
        let number = self.number();
        self.next += 1;
        Some(number)
    }

    /// The number of the next tile.
    fn number(&self) -> u32
        requires { self.now.next < self.now.end }
        ensures { result ≡ nth_visited (lengths_of self.now.grid) (sieve_lo self.now.sieve)
            (sieve_step self.now.sieve) (lengths_of self.now.tile) (lengths_of self.now.counts) self.now.next }
    {
        let numbers = coordinates(&self.counts, self.next);
        index(&self.grid, &self.place(&numbers)) as u32
    }
}

/// The `k`-th tile with a pick of an axis, which has so many tiles.
fn tile_along(lo: u32, step: u32, tile: u32, k: u32, tiles: u32) -> u32
    requires tile { 1 ≤ tile }
    requires inside { visited lo step tile k < tiles }
    ensures { result ≡ visited lo step tile k }
{
    ((u64::from(lo) + u64::from(k) * u64::from(step.max(tile))) / u64::from(tile)) as u32
}

/// How many tiles of an axis, which ends at `end`, have a pick.
fn picked_along(lo: u32, hi: u32, step: u32, tile: u32, end: u32) -> u32
    requires ordered { lo ≤ hi }
    requires inside { hi < end }
    requires step { 1 ≤ step }
    requires tile { 1 ≤ tile }
    ensures { result ≡ visited_count lo hi step tile }
{
    let steps = (hi - lo) / step;
    if step < tile {
        (lo + steps * step) / tile - lo / tile + 1
    } else {
        steps + 1
    }
}

impl Iterator for SieveTiles {
    ghost use Rattle.std.specs.Iterator.{YieldsFirst, item_count};
    ghost use Rattle.fz_grid.specs.SieveWalks.{sieve_tiles_left};

    type Item = u32;

    ghost next_gives = { YieldsFirst sieve_tiles_left };

    ghost remaining = { item_count sieve_tiles_left };

    fn next(&mut self) -> Option<u32> {
        self.advance()
    }
}

impl Grid {
    ghost use Rattle.std.specs.Prelude.{IsTrue};
    ghost use Rattle.std.specs.List.{AllByRecursion};
    ghost use Rattle.fz_grid.specs.Overlap.{has_pixel};
    ghost use Rattle.fz_grid.specs.Grid.{tile_count};
    ghost use Rattle.fz_grid.specs.Region.{lengths_of};
    ghost use Rattle.fz_grid.specs.Sieve.{IsSieveOf, picked_tiles, sieve_hi, sieve_lo, sieve_step, tile_picks};
    ghost use Rattle.fz_grid.specs.SieveWalks.{sieve_tiles_left};

    /// The numbers of the tiles with a pick of the sieve, ascending, each once.
    pub fn sieve_tiles(&self, sieve: &Sieve) -> SieveTiles
        requires { IsSieveOf self.now.shape sieve.now }
        ensures tiles { sieve_tiles_left result
            ≡ picked_tiles (lengths_of self.now.shape) (lengths_of self.now.tile)
            (sieve_lo sieve.now) (sieve_hi sieve.now) (sieve_step sieve.now) }
        ensures picked { AllByRecursion
            (λ t. IsTrue (has_pixel (tile_picks (lengths_of self.now.shape) (lengths_of self.now.tile)
            (sieve_lo sieve.now) (sieve_hi sieve.now) (sieve_step sieve.now) t)))
            (sieve_tiles_left result) }
        ensures inside { AllByRecursion
            (λ t. t < tile_count (lengths_of self.now.shape) (lengths_of self.now.tile))
            (sieve_tiles_left result) }
    {
        let counts = self.visits(sieve);
        let end = volume(&counts);
        SieveTiles {
            shape: self.shape,
            tile: self.tile,
            grid: self.counts(),
            sieve: *sieve,
            counts,
            next: 0,
            end,
        }
    }

    /// How many tiles with a pick there are along each axis.
    fn visits(&self, sieve: &Sieve) -> Axes
        requires { IsSieveOf self.now.shape sieve.now }
        ensures axes { result.n ≡ self.now.shape.n }
        ensures counts { (i : ℕ) → i < self.now.shape.n → slice_index result.len i
            ≡ visited_count (slice_index sieve.now.lo i) (slice_index sieve.now.hi i)
            (slice_index sieve.now.step i) (slice_index self.now.tile.len i) }
    {
        let mut counts = Axes {
            n: self.shape.n,
            len: [0; 9],
        };
        for i in 0..self.shape.n as usize {
            counts.len[i] = picked_along(
                sieve.lo[i],
                sieve.hi[i],
                sieve.step[i],
                self.tile.len[i],
                self.shape.len[i],
            );
        }
        counts
    }
}
