//! Boxes with a step.
ghost use Rattle.std.specs.Prelude.{◌≡◌, ℕ, ◌+◌, ◌*◌, ◌-◌, ◌/◌, ◌^◌, ◌<◌, ◌≤◌, slice_index};
ghost use Rattle.fz_grid.specs.Sieve.{pick_count};

use fz_block::Axes;

/// A box of an array with a step along each axis, counted from 0, axis 1 first; both ends belong to it.
/// The picks of an axis are `lo`, `lo + step` and so on up to `hi`; a pick of the sieve has a pick on
/// each axis. The entries from `n` on are not looked at.
#[derive(Clone, Copy, Debug, PartialEq, Eq)]
pub struct Sieve {
    pub n: u32,
    pub lo: [u32; 9],
    pub hi: [u32; 9],
    pub step: [u32; 9],
}

impl Sieve {
    ghost use Rattle.fz_grid.specs.Region.{IsZeroFrom, lengths_of};
    ghost use Rattle.fz_grid.specs.Sieve.{IsSieve, IsSieveOf, sieve_lengths};

    /// How many picks axis `i`, counted from 0, has.
    pub fn len(&self, i: u32) -> u32
        requires axes { self.now.n ≤ 9 }
        requires axis { i < self.now.n }
        requires ordered { slice_index self.now.lo i ≤ slice_index self.now.hi i }
        requires inside { slice_index self.now.hi i + 1 < 2 ^ 32 }
        requires positive { 1 ≤ slice_index self.now.step i }
        ensures { result ≡ pick_count (slice_index self.now.lo i) (slice_index self.now.hi i) (slice_index self.now.step i) }
    {
        let i = i as usize;
        (self.hi[i] - self.lo[i]) / self.step[i] + 1
    }

    /// How many picks there are along each axis of an array that has them all.
    pub(crate) fn lengths_in(&self, shape: &Axes) -> Axes
        requires axes { shape.now.n ≤ 9 }
        requires sieve { IsSieveOf shape.now self.now }
        ensures axes { result.n ≡ shape.now.n }
        ensures lengths { (i : ℕ) → i < shape.now.n → slice_index result.len i
            ≡ pick_count (slice_index self.now.lo i) (slice_index self.now.hi i) (slice_index self.now.step i) }
    {
        let mut lengths = Axes {
            n: shape.n,
            len: [0; 9],
        };
        for i in 0..shape.n as usize {
            lengths.len[i] = picks_along(self.lo[i], self.hi[i], self.step[i], shape.len[i]);
        }
        lengths
    }

    /// How many picks there are along each axis: the lengths of what is cut out.
    pub fn lengths(&self) -> Axes
        requires { IsSieve self.now }
        ensures axes { result.n ≡ self.now.n }
        ensures lengths { lengths_of result ≡ sieve_lengths self.now }
        ensures zero { IsZeroFrom result.n result.len }
    {
        let mut lengths = Axes {
            n: self.n,
            len: [0; 9],
        };
        for i in 0..self.n {
            lengths.len[i as usize] = self.len(i);
        }
        lengths
    }

    /// The coordinates of the pick with these numbers along the axes.
    pub(crate) fn pick(&self, numbers: &[u32; 9]) -> [u32; 9]
        requires axes { self.now.n ≤ 9 }
        requires ordered { (i : ℕ) → i < self.now.n → slice_index self.now.lo i ≤ slice_index self.now.hi i }
        requires numbers { (i : ℕ) → i < self.now.n → slice_index numbers.now i
            < pick_count (slice_index self.now.lo i) (slice_index self.now.hi i) (slice_index self.now.step i) }
        ensures pick { (i : ℕ) → i < self.now.n → slice_index result i
            ≡ slice_index self.now.lo i + slice_index numbers.now i * slice_index self.now.step i }
        ensures inside { (i : ℕ) → i < self.now.n → slice_index result i ≤ slice_index self.now.hi i }
    {
        let mut at = [0u32; 9];
        for i in 0..self.n as usize {
            at[i] = pick_along(self.lo[i], self.hi[i], self.step[i], numbers[i]);
        }
        at
    }
}

/// How many picks an axis, which ends at `end`, has.
pub fn picks_along(lo: u32, hi: u32, step: u32, end: u32) -> u32
    requires ordered { lo ≤ hi }
    requires inside { hi < end }
    requires step { 1 ≤ step }
    ensures count { result ≡ pick_count lo hi step }
    ensures most { result ≤ end }
{
    (hi - lo) / step + 1
}

/// The `k`-th pick of an axis.
pub fn pick_along(lo: u32, hi: u32, step: u32, k: u32) -> u32
    requires ordered { lo ≤ hi }
    requires inside { k < pick_count lo hi step }
    ensures pick { result ≡ lo + k * step }
    ensures most { result ≤ hi }
{
    lo + k * step
}
