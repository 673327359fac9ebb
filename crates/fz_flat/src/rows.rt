//! The record of a tile, by the bytes of its row.
ghost use Rattle.std.specs.Prelude.{◌≡◌, ◌<◌, ◌≤◌, IfOk, length as len};
ghost use Rattle.fz_table.specs.Records.{StandsInHeap};
ghost use Rattle.fz_flat.specs.Lawful.{IsPackedImage};
ghost use Rattle.fz_flat.specs.Rows.{row_says};
ghost use Rattle.fz_flat.specs.Tiles.{tile_of, tiles_in};

use crate::tiles::known_tile;
use fz_base::Fault;
use fz_checks::PackedImage;
use fz_table::{Record, record_of, row_in};

/// The record of a tile, by the bytes of its row (FITS 4.0, sections 7.3.5 and 10.1.3).
///
/// Refused, as `record_of` refuses the row.
pub fn read_row(hdu: u32, image: &PackedImage, tile: u32, row: &[u8]) -> Result<Record, Fault>
    requires image { IsPackedImage image.now }
    requires tile { tile < tiles_in image.now.plan }
    requires row { image.now.table.row_bytes ≤ len row.now }
    ensures exact { result ≡ row_says hdu image.now row.now tile }
    ensures within { IfOk result (StandsInHeap image.now.table (tile_of image.now.plan tile)) }
{
    let says = row_in(&image.table, row);
    let known = known_tile(&image.plan, tile);
    record_of(hdu, tile, &image.table, &says, &known)
}
