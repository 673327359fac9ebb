//! What holds of tables that are made tile by tile: no code runs.
ghost use Rattle.fz_image.specs.Laws.{NextTilesFit, TablesAreSmall, TilesJoin};

use fz_sum::sum_law;

/// Tiles that were encoded find room after those before them, what is written of a table is joined of the tiles, and a
/// table is small.
pub fn table_law()
    ensures next { NextTilesFit }
    ensures joined { TilesJoin }
    ensures small { TablesAreSmall }
{
    sum_law();
}
