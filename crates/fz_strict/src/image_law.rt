//! When a packed image is what `pack` makes of what it stands for: no code runs.
ghost use Rattle.fz_strict.specs.Backs.{ImagesAreCompared};

use fz_block::cards_law;
use fz_checks::{plan_to_pack_law, primary_law};
use fz_grid::{one_tile_law, shape_law, tile_pixels_law, tiles_law};
use fz_head::{sum_cards_law, whole_cards_law};
use fz_image::table_law;
use fz_sum::sum_law;
use fz_tile::{column_law, plain_law, slice_law};

/// What was found of the header, the tiles and the rest of the table of a packed image decides whether the table is what
/// `pack` makes of the image.
pub(crate) fn image_law()
    ensures { ImagesAreCompared }
{
    cards_law();
    column_law();
    one_tile_law();
    plain_law();
    plan_to_pack_law();
    primary_law();
    shape_law();
    slice_law();
    sum_cards_law();
    sum_law();
    table_law();
    tile_pixels_law();
    tiles_law();
    whole_cards_law();
}
