//! What the definitions of arrays, tiles and boxes promise.
ghost use Rattle.std.specs.Prelude.{◌≡◌, ◌↔◌, ℕ, IsTrue, List, length};
ghost use Rattle.fz_grid.specs.Laws.{BoxesAreInOrder, BoxesHaveTheirPixels, CoordinatesAreInOneTile, DividedArraysAreShapes};
ghost use Rattle.fz_grid.specs.Laws.{DividedArraysHaveTiles, FirstTilesAreLargest, JoinedHasTheTiles, JoinedIsArray};
ghost use Rattle.fz_grid.specs.Laws.{NumbersAreInOneTile, NumbersHavePlaces, PlacesAreInside, PlacesHaveCoordinates};
ghost use Rattle.fz_grid.specs.Laws.{RegionsAreShapes, TilesAreAtTheirPlaces, TilesHaveAPixel, TilesHaveAllPixels};
ghost use Rattle.fz_grid.specs.Laws.{TilesHaveAtMostTheirLengths, TilesHaveTheirPixels, TilesLieInTheArray, TilesMakeOneArray};
ghost use Rattle.fz_grid.specs.Overlap.{IsInBox, common_corner, common_lengths, has_pixel};

/// Coordinates below the lengths and numbers below how many places there are belong together, one to
/// one, and a box lists them in order.
pub fn place_law()
    ensures inside { PlacesAreInside }
    ensures coordinates { PlacesHaveCoordinates }
    ensures numbers { NumbersHavePlaces }
    ensures order { BoxesAreInOrder }
    ensures pixels { BoxesHaveTheirPixels }
{}

/// Each place of an array lies in exactly one tile, once.
pub fn one_tile_law()
    ensures coordinates { CoordinatesAreInOneTile }
    ensures numbers { NumbersAreInOneTile }
{}

/// A tile has the numbers at its places, which lie in the array; an array is known by its tiles, and any
/// lists of the right lengths are the tiles of one.
pub fn tiles_law()
    ensures places { TilesAreAtTheirPlaces }
    ensures inside { TilesLieInTheArray }
    ensures pixels { TilesHaveTheirPixels }
    ensures same { TilesMakeOneArray }
    ensures whole { JoinedIsArray }
    ensures joined { JoinedHasTheTiles }
{}

/// Each tile has at least one pixel, no more than tile 0, and no more than a tile of these lengths that is
/// not cut short; and together the tiles have as many as the array.
pub fn tile_pixels_law()
    ensures some { TilesHaveAPixel }
    ensures most { FirstTilesAreLargest }
    ensures whole { TilesHaveAtMostTheirLengths }
    ensures all { TilesHaveAllPixels }
{}

/// The conditions of one call give those of another.
pub fn shape_law()
    ensures divided { DividedArraysAreShapes }
    ensures tiles { DividedArraysHaveTiles }
    ensures region { RegionsAreShapes }
{}

/// The box that two boxes have in common has exactly the pixels that both have.
pub fn overlap_law()
    ensures pixels { (ps ms qs ks coordinates : List ℕ)
        → length ms ≡ length ps
        → length qs ≡ length ps
        → length ks ≡ length ps
        → (IsInBox (common_corner ps qs) (common_lengths ps ms qs ks) coordinates
        ↔ (IsInBox ps ms coordinates × IsInBox qs ks coordinates)) }
    ensures some { (ps ms qs ks : List ℕ)
        → length ms ≡ length ps
        → length qs ≡ length ps
        → length ks ≡ length ps
        → (IsTrue (has_pixel (common_lengths ps ms qs ks))
        ↔ ((coordinates : List ℕ) × IsInBox ps ms coordinates × IsInBox qs ks coordinates)) }
{}
