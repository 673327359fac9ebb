//! The tiles with a pixel in the box, one after another, and the slot in which the code of each is.
ghost use Rattle.std.specs.Prelude.{ℕ, ◌≡◌, ◌<◌, ◌≤◌, ◌^◌, length as len, slice_index_or};
ghost use Rattle.std.specs.List.{AllByRecursion};
ghost use Rattle.fz_files.specs.FirstFault.{picked_tiles_of};
ghost use Rattle.fz_grid.specs.SieveWalks.{sieve_tiles_left};
ghost use Rattle.fz_target.specs.Targets.{IsTarget};
ghost use Rattle.fz_target.specs.Tiles.{HasSomeCode, IsBoxTile, IsFirstOf};

use crate::target::Target;
use fz_grid::SieveTiles;
use fz_pool::{Slot, Window};
use fz_tile::column_law;

/// The tiles with a pixel in the box, ascending.
pub fn tiles_in_box(target: &Target) -> SieveTiles
    requires target { IsTarget target.now }
    ensures tiles { picked_tiles_of target.now.image.plan target.now.sieve ≡ sieve_tiles_left result }
    ensures each { AllByRecursion (IsBoxTile target.now) (sieve_tiles_left result) }
{
    let grid = target.grid();
    grid.sieve_tiles(&target.sieve)
}

/// The slot with the code of a tile that was prepared: at least one byte, and at most 2^29.
pub fn code_slot<'a>(target: &Target, window: &'a Window) -> &'a Slot
    requires target { IsTarget target.now }
    requires code { (tile : ℕ) × HasSomeCode target.now.image.plan tile window.now }
    ensures first { IsFirstOf window.now result.now }
    ensures within { result.now.job.len ≤ len result.now.code }
    ensures some { 0 < result.now.job.len }
    ensures most { result.now.job.len ≤ 2 ^ 29 }
{
    column_law();
    window.slot(0)
}
