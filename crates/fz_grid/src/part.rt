//! The part of a sieve that lies in a box.
ghost use Rattle.std.specs.Prelude.{◌≡◌, ℕ, ◌+◌, ◌-◌, ◌<◌, ◌≤◌, IsTrue, List, length};
ghost use Rattle.fz_grid.specs.Grid.{moved};
ghost use Rattle.fz_grid.specs.Overlap.{has_pixel};
ghost use Rattle.fz_grid.specs.Parts.{IsPartAlong, IsPartOf};
ghost use Rattle.fz_grid.specs.Region.{AreSameFrom, IsWithin, IsZeroFrom, region_corner, region_lengths};
ghost use Rattle.fz_grid.specs.Sieve.{IsSieveOf, picks_before, picks_in, sieve_hi, sieve_lengths, sieve_lo, sieve_step, stepped};

use crate::sieve::pick_along;
use crate::{Region, Sieve};
use fz_block::Axes;

/// The picks of a sieve that lie in a region.
#[derive(Clone, Copy, Debug, PartialEq, Eq)]
pub struct Part {
    /// The picks, counted from the corner of the region.
    pub inside: Sieve,
    /// Where they are among all picks: a box of what is cut out.
    pub at: Region,
}

/// The same along one axis.
#[derive(Clone, Copy, Debug)]
pub struct AxisPart {
    /// How many picks are before the region.
    pub(crate) first: u32,
    /// How many are in it.
    pub(crate) count: u32,
    /// The first pick in the region, counted from its corner.
    pub(crate) lo: u32,
    /// The last one.
    pub(crate) hi: u32,
}

impl Sieve {
    /// The picks that lie in a region of the array, which has one. The entries of `inside` after the last
    /// axis are the sieve's.
    pub fn part(&self, shape: &Axes, region: &Region) -> Part
        requires axes { shape.now.n ≤ 9 }
        requires sieve { IsSieveOf shape.now self.now }
        requires region { IsWithin shape.now region.now }
        requires some { IsTrue (has_pixel (picks_in (sieve_lo self.now) (sieve_hi self.now) (sieve_step self.now)
            (region_corner region.now) (region_lengths region.now))) }
        ensures part { IsPartOf self.now region.now result }
        ensures lengths { sieve_lengths result.inside ≡ region_lengths result.at }
        ensures picks { (numbers : List ℕ) → length numbers ≡ self.now.n
            → stepped (sieve_lo self.now) (sieve_step self.now) (moved (region_corner result.at) numbers)
            ≡ moved (region_corner region.now) (stepped (sieve_lo result.inside) (sieve_step result.inside) numbers) }
        ensures zero_lo { IsZeroFrom result.at.n result.at.lo }
        ensures zero_len { IsZeroFrom result.at.n result.at.len }
        ensures same_lo { AreSameFrom self.now.n result.inside.lo self.now.lo }
        ensures same_hi { AreSameFrom self.now.n result.inside.hi self.now.hi }
        ensures same_step { AreSameFrom self.now.n result.inside.step self.now.step }
    {
        let mut inside = *self;
        let mut at = Region {
            n: self.n,
            lo: [0; 9],
            len: [0; 9],
        };
        for i in 0..self.n as usize {
            let axis = part_along(
                self.lo[i],
                self.hi[i],
                self.step[i],
                region.lo[i],
                region.len[i],
                shape.len[i],
            );
            at.lo[i] = axis.first;
            at.len[i] = axis.count;
            inside.lo[i] = axis.lo;
            inside.hi[i] = axis.hi;
        }
        Part { inside, at }
    }
}

/// The picks of an axis, which ends at `end`, that lie in `len` coordinates from `corner` on.
fn part_along(lo: u32, hi: u32, step: u32, corner: u32, len: u32, end: u32) -> AxisPart
    requires ordered { lo ≤ hi }
    requires inside { hi < end }
    requires step { 1 ≤ step }
    requires region { corner + len ≤ end }
    requires some { 0 < picks_before lo hi step (corner + len) - picks_before lo hi step corner }
    ensures { IsPartAlong lo hi step corner len result }
{
    let first = picks_ahead(lo, hi, step, corner, end);
    let behind = picks_ahead(lo, hi, step, corner + len, end);
    let start = pick_along(lo, hi, step, first);
    let stop = pick_along(lo, hi, step, behind - 1);
    AxisPart {
        first,
        count: behind - first,
        lo: start - corner,
        hi: stop - corner,
    }
}

/// How many picks of an axis, which ends at `end`, are before `at`.
fn picks_ahead(lo: u32, hi: u32, step: u32, at: u32, end: u32) -> u32
    requires ordered { lo ≤ hi }
    requires inside { hi < end }
    requires step { 1 ≤ step }
    ensures { result ≡ picks_before lo hi step at }
{
    if at <= lo {
        return 0;
    }
    let most = (hi - lo) / step;
    ((at - lo - 1) / step).min(most) + 1
}
