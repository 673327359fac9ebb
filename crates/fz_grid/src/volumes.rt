//! Numbers of pixels and tiles, which may be too many for any image.
ghost use Rattle.std.specs.Prelude.{◌≡◌, ℕ, ◌-◌, ◌<◌, ◌≤◌, ◌^◌, min, nat_lt, slice_index};
ghost use Rattle.fz_grid.specs.Arrays.{product};
ghost use Rattle.fz_grid.specs.Grid.{tile_count};
ghost use Rattle.fz_grid.specs.Region.{lengths_of};

use crate::grid::tile_counts;
use crate::sizes::volume;
use fz_block::Axes;

/// Whether there are more places than so many.
#[tactic(auto, using(std::proofs::lemmas::Bool::Decides::nat_tests))]
pub fn has_more_places(axes: &Axes, most: u64) -> bool
    requires few { axes.now.n ≤ 9 }
    requires most { most < 2 ^ 63 }
    ensures { result ≡ nat_lt most (product (lengths_of axes.now)) }
{
    volume(axes) > most
}

/// Whether there are more tiles than so many.
#[tactic(auto, using(std::proofs::lemmas::Bool::Decides::nat_tests))]
pub fn has_more_tiles(shape: &Axes, tile: &Axes, most: u64) -> bool
    requires axes { shape.now.n ≤ 9 }
    requires same { tile.now.n ≡ shape.now.n }
    requires positive { (i : ℕ) → i < shape.now.n → 1 ≤ slice_index tile.now.len i }
    requires most { most < 2 ^ 63 }
    ensures { result ≡ nat_lt most (tile_count (lengths_of shape.now) (lengths_of tile.now)) }
{
    tile_count(shape, tile) > most
}

// How many tiles there are, or the greatest number if there are more.
fn tile_count(shape: &Axes, tile: &Axes) -> u64
    requires axes { shape.now.n ≤ 9 }
    requires same { tile.now.n ≡ shape.now.n }
    requires positive { (i : ℕ) → i < shape.now.n → 1 ≤ slice_index tile.now.len i }
    ensures { result ≡ min (tile_count (lengths_of shape.now) (lengths_of tile.now)) (2 ^ 64 - 1) }
{
    volume(&tile_counts(shape, tile))
}
