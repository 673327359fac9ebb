//! A box with a step along each axis, in numbers that cross to C.
ghost use Rattle.std.specs.Prelude.{ℕ, ◌≡◌, ◌↔◌, ◌<◌, ◌≤◌, ◌^◌, IsTrue, length as len, slice_index};
ghost use Rattle.std.specs.List.{AllByRecursion};
ghost use Rattle.fz_grid.specs.Region.{IsDivided};
ghost use Rattle.fz_grid.specs.Sieve.{IsSieveOf};
ghost use Rattle.fz_grid.specs.SieveWalks.{sieve_tiles_left};
ghost use Rattle.fz_flat.specs.Boxes.{picked_in, sieve_there};
ghost use Rattle.fz_flat.specs.Cutting.{HasPick};

use fz_block::Axes;
use fz_grid::{Grid, Sieve, SieveTiles};
use fz_head::Plan;

/// A box with a step along each axis, counted from 0, axis 1 first; both ends belong to it. Its pixels along an
/// axis are `first`, `first + step` and so on up to `last`. The entries from `axes` on are not looked at.
#[repr(C)]
#[derive(Clone, Copy, PartialEq)]
pub struct FzBox {
    /// The number of axes.
    pub axes: u32,
    /// The first pixel along each axis.
    pub first: [u32; 9],
    /// The last pixel along each axis.
    pub last: [u32; 9],
    /// The steps, 1 or more.
    pub step: [u32; 9],
}

/// The sieve of a box.
pub fn sieve_of(part: &FzBox) -> Sieve
    ensures { result ≡ sieve_there part.now }
{
    Sieve {
        n: part.axes,
        lo: part.first,
        hi: part.last,
        step: part.step,
    }
}

/// The sieve has a pick along each axis of the array, and none after it.
pub fn is_box(shape: &Axes, sieve: &Sieve) -> bool
    requires { shape.now.n ≤ 9 }
    ensures { IsTrue result ↔ IsSieveOf shape.now sieve.now }
{
    sieve.n == shape.n && is_within(shape, sieve)
}

// Along each axis of the array there is a pick, and none after the array.
fn is_within(shape: &Axes, sieve: &Sieve) -> bool
    requires { shape.now.n ≤ 9 }
    ensures { IsTrue result ↔ ((i : ℕ) → i < shape.now.n
        → (slice_index sieve.now.lo i ≤ slice_index sieve.now.hi i)
        × (slice_index sieve.now.hi i < slice_index shape.now.len i) × (1 ≤ slice_index sieve.now.step i)) }
{
    for i in 0..shape.n as usize {
        if sieve.lo[i] > sieve.hi[i] || sieve.hi[i] >= shape.len[i] || sieve.step[i] == 0 {
            return false;
        }
    }
    true
}

/// The tiles that have a pixel of the box, ascending.
pub(crate) fn box_tiles(plan: &Plan, sieve: &Sieve) -> SieveTiles
    requires divided { IsDivided plan.now.shape plan.now.tile }
    requires sieve { IsSieveOf plan.now.shape sieve.now }
    ensures tiles { sieve_tiles_left result ≡ picked_in plan.now sieve.now }
    ensures picked { AllByRecursion (HasPick plan.now sieve.now) (sieve_tiles_left result) }
    ensures few { len (sieve_tiles_left result) < 2 ^ 31 }
{
    let grid = Grid::new(plan.shape, plan.tile);
    // This call shows that there are fewer than 2^31 tiles.
    let _tiles = grid.tile_count();
    grid.sieve_tiles(sieve)
}
