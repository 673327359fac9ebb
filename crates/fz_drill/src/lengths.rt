//! How long the files of `drill` are, and that its jobs stay within its bound: no code runs.
ghost use Rattle.fz_drill.specs.Lengths.{DrillsAreBounded, PackedFilesAreShort, PlainFilesAreLong, StoredFilesAreLong};

use crate::law::{cuts_law, packed_laws, packs_law, unpacks_law};
use fz_checks::image_to_pack_law;
use fz_files::buffers_law;
use fz_grid::{shape_law, tile_pixels_law, tiles_law};
use fz_tile::column_law;

/// How long the file of so many rows is; that a packed one is no longer than if all its pixels are stored, as they are
/// without a codec.
pub fn lengths_law()
    ensures plain { PlainFilesAreLong }
    ensures packed { PackedFilesAreShort }
    ensures stored { StoredFilesAreLong }
{
    column_law();
    image_to_pack_law();
    packed_laws();
    shape_law();
    tile_pixels_law();
    tiles_law();
}

/// No taking of `drill` passes its bound.
pub fn drill_bound_law()
    ensures { DrillsAreBounded }
{
    buffers_law();
    cuts_law();
    lengths_law();
    packs_law();
    unpacks_law();
}
