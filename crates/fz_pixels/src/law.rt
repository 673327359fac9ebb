//! What the definitions of scattered tiles promise: no code runs.
ghost use Rattle.fz_pixels.specs.Laws.{JoinsRounds, JoinsRoundsOfParts, PartsMakeTheBytes, TilesMakeTheBytes};

use fz_base::places_law;
use fz_grid::{cutout_law, one_tile_law, place_law, shape_law, tiles_law};
use fz_tile::{plain_law, slice_law};

/// Rounds of tiles follow each other. All tiles of an image, each written to its places in whatever order, are the bytes
/// of the image in one piece; and the picks of all tiles that hold one are those of the cutout.
pub fn scattered_law()
    ensures rounds { JoinsRounds }
    ensures parts { JoinsRoundsOfParts }
    ensures image { TilesMakeTheBytes }
    ensures cutout { PartsMakeTheBytes }
{
    places_law();
    place_law();
    one_tile_law();
    tiles_law();
    shape_law();
    cutout_law();
    plain_law();
    slice_law();
}
