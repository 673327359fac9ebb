//! The pixels that a region and a tile have in common, and the tiles that share a pixel with a region.
ghost use Rattle.std.specs.Prelude.{◌≡◌, ◌<◌, ◌↔◌, IfSome, IsSome, IsTrue};
ghost use Rattle.std.specs.List.{AllByRecursion};
ghost use Rattle.fz_grid.specs.Grid.{tile_corner, tile_count};
ghost use Rattle.fz_grid.specs.Overlap.{common_corner, has_pixel, overlapping_tiles, shared_lengths};
ghost use Rattle.fz_grid.specs.Region.{IsWithin, IsZeroFrom, lengths_of, region_corner, region_lengths};
ghost use Rattle.fz_grid.specs.Span.{first_tiles, touched_counts};
ghost use Rattle.fz_grid.specs.Walks.{tiles_left};

use crate::places::Places;
use crate::{Grid, Overlaps, Region};

impl Grid {
    /// The pixels that the region has in common with tile `t`; None if there is none.
    pub fn overlap(&self, region: &Region, t: u32) -> Option<Region>
        requires region { IsWithin self.now.shape region.now }
        requires tile { t < tile_count (lengths_of self.now.shape) (lengths_of self.now.tile) }
        ensures some { IsSome result
            ↔ IsTrue (
            has_pixel (
            shared_lengths (lengths_of self.now.shape) (lengths_of self.now.tile)
            (region_corner region.now) (region_lengths region.now) t)) }
        ensures axes { IfSome result (λ common. common.n ≡ self.now.shape.n) }
        ensures within { IfSome result (IsWithin self.now.shape) }
        ensures corner { IfSome result (λ common.
            region_corner common
            ≡ common_corner (region_corner region.now)
            (tile_corner (lengths_of self.now.shape) (lengths_of self.now.tile) t)) }
        ensures lengths { IfSome result (λ common.
            region_lengths common
            ≡ shared_lengths (lengths_of self.now.shape) (lengths_of self.now.tile)
            (region_corner region.now) (region_lengths region.now) t) }
        ensures zero_lo { IfSome result (λ common. IsZeroFrom common.n common.lo) }
        ensures zero_len { IfSome result (λ common. IsZeroFrom common.n common.len) }
    {
        let tile = self.tile_box(t);
        let mut common = Region {
            n: self.shape.n,
            lo: [0; 9],
            len: [0; 9],
        };
        for i in 0..self.shape.n as usize {
            let lo = region.lo[i].max(tile.lo[i]);
            let of_region = region.len[i].saturating_sub(lo - region.lo[i]);
            let of_tile = tile.len[i].saturating_sub(lo - tile.lo[i]);
            let len = of_region.min(of_tile);
            if len == 0 {
                return None;
            }
            common.lo[i] = lo;
            common.len[i] = len;
        }
        Some(common)
    }

    /// The numbers of the tiles that have a pixel in common with the region, ascending.
    pub fn overlapping(&self, region: &Region) -> Overlaps
        requires { IsWithin self.now.shape region.now }
        ensures tiles { tiles_left result
            ≡ overlapping_tiles (lengths_of self.now.shape) (lengths_of self.now.tile)
            (region_corner region.now) (region_lengths region.now) }
        ensures inside { AllByRecursion
            (λ t. t < tile_count (lengths_of self.now.shape) (lengths_of self.now.tile))
            (tiles_left result) }
    {
        Overlaps::new(Places::new(self.counts(), self.span(region)))
    }

    /// The box of the grid, counted in tiles, that the region touches.
    fn span(&self, region: &Region) -> Region
        requires { IsWithin self.now.shape region.now }
        ensures axes { result.n ≡ self.now.shape.n }
        ensures first { region_corner result ≡ first_tiles (region_corner region.now) (lengths_of self.now.tile) }
        ensures counts { region_lengths result
            ≡ touched_counts (region_corner region.now) (region_lengths region.now) (lengths_of self.now.tile) }
    {
        let mut span = Region {
            n: self.shape.n,
            lo: [0; 9],
            len: [0; 9],
        };
        for i in 0..self.shape.n as usize {
            let first = region.lo[i] / self.tile.len[i];
            let last = (region.lo[i] + (region.len[i] - 1)) / self.tile.len[i];
            span.lo[i] = first;
            span.len[i] = last - first + 1;
        }
        span
    }
}
