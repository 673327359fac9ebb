//! What the definitions of cutouts promise.
ghost use Rattle.fz_grid.specs.CutoutLaws.{CutoutsAreWhole, PartsAreOfTilesWithAPick, PartsLieInTheCutout};
ghost use Rattle.fz_grid.specs.CutoutLaws.{PartsMakeTheCutout, PicksArePixels, PickedTilesMakeOneCutout, PicksLieInPickedTiles};
ghost use Rattle.fz_grid.specs.CutoutLaws.{PlacesArePickedOnce, TilesGiveTheirPicks, TilesMakeTheImage};

use crate::law::{one_tile_law, place_law, tiles_law};

/// The parts of an array's tiles lie in the cutout and make it, each place of it once, and its tiles make
/// the array; a tile has no more picks than pixels.
pub fn cutout_law()
    ensures count { CutoutsAreWhole }
    ensures numbers { TilesGiveTheirPicks }
    ensures inside { PartsLieInTheCutout }
    ensures room { PicksArePixels }
    ensures once { PlacesArePickedOnce }
    ensures cutout { PartsMakeTheCutout }
    ensures image { TilesMakeTheImage }
    ensures some { PartsAreOfTilesWithAPick }
{
    place_law();
    one_tile_law();
    tiles_law();
}

/// Each pick lies in one of the tiles with a pick, and these tiles make the cutout.
pub fn picked_tiles_law()
    ensures picks { PicksLieInPickedTiles }
    ensures same { PickedTilesMakeOneCutout }
{
    place_law();
    one_tile_law();
}
