//! Whether an image may be divided into such tiles.
ghost use Rattle.std.specs.Prelude.{ℕ, ◌≡◌, ◌↔◌, ◌<◌, ◌≤◌, IsTrue, slice_index};
ghost use Rattle.fz_grid.specs.Region.{IsDivided};

use fz_block::Axes;
use fz_grid::{has_more_places, has_more_tiles};
use fz_head::{MAX_PIXELS, MAX_TILE_PIXELS, MAX_TILES};

/// The most axes of an image.
pub(crate) const MAX_AXES: u32 = 9;

/// The image can be divided into these tiles.
pub(crate) fn is_divided(shape: &Axes, tile: &Axes) -> bool
    requires few { shape.now.n ≤ 9 }
    requires same { tile.now.n ≡ shape.now.n }
    ensures { IsTrue result ↔ IsDivided shape.now tile.now }
{
    1 <= shape.n
        && fits(shape, tile)
        && !has_more_places(shape, MAX_PIXELS)
        && !has_more_places(tile, MAX_TILE_PIXELS)
        && !has_more_tiles(shape, tile, MAX_TILES)
}

// A tile has a place along each axis, and is no longer than it.
fn fits(shape: &Axes, tile: &Axes) -> bool
    requires few { shape.now.n ≤ 9 }
    ensures { IsTrue result ↔ ((i : ℕ) → i < shape.now.n
        → (1 ≤ slice_index tile.now.len i) × (slice_index tile.now.len i ≤ slice_index shape.now.len i)) }
{
    for i in 0..shape.n as usize {
        if tile.len[i] == 0 || tile.len[i] > shape.len[i] {
            return false;
        }
    }
    true
}
