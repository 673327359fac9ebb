//! The walk over a part.
ghost use Rattle.std.specs.Prelude.{◌≡◌, slice_index};
ghost use Rattle.std.specs.List.{AllByRecursion};
ghost use Rattle.fz_grid.specs.Arrays.{product};
ghost use Rattle.fz_grid.specs.Region.{lengths_of, places_of, region_corner, region_lengths};
ghost use Rattle.fz_grid.specs.Sieve.{picked_places};
ghost use Rattle.fz_grid.specs.Line.{IsLineWithin, IsPartBetween, lines_in_cutout, lines_in_tile};
ghost use Rattle.fz_grid.specs.LineWalks.{lines_left};

use crate::law::{place_law, shape_law};
use crate::line_walk::Lines;
use crate::part::Part;
use crate::sizes::volume;
use fz_block::Axes;

/// The lines of a part of a tile of these lengths in a cutout of these: together they have the part's
/// picks in their order, in the tile and in the cutout. Takes no memory.
pub fn lines(tile: Axes, cutout: Axes, part: Part) -> Lines
    requires { IsPartBetween tile cutout part }
    ensures tile { lines_in_tile (lines_left result) ≡ picked_places (lengths_of tile) part.inside }
    ensures cutout { lines_in_cutout (lines_left result)
        ≡ places_of (lengths_of cutout) (region_corner part.at) (region_lengths part.at) }
    ensures step { AllByRecursion (λ line. line.step ≡ slice_index part.inside.step 0) (lines_left result) }
    ensures within { AllByRecursion
        (IsLineWithin (product (lengths_of tile)) (product (lengths_of cutout)))
        (lines_left result) }
{
    place_law();
    shape_law();
    let mut rows = part.at.axes();
    rows.len[0] = 1;
    let end = volume(&rows);
    Lines {
        tile,
        cutout,
        part,
        rows,
        next: 0,
        end,
    }
}
