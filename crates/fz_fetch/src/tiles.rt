//! The tiles of a round.
ghost use Rattle.std.specs.Prelude.{◌≡◌, ◌+◌, ◌<◌, ◌≤◌, ◌^◌, length as len};
ghost use Rattle.std.specs.List.{range_with_len};
ghost use Rattle.fz_grid.specs.Region.{IsDivided};
ghost use Rattle.fz_tile.specs.Pixels.{IsBitpix};
ghost use Rattle.fz_files.specs.Packed.{tiles_in};
ghost use Rattle.fz_files.specs.Restored.{is_plain_codec, pixels_of, place_in as place_in_column, tile_of};
ghost use Rattle.fz_fetch.specs.Tiles.{decoding_job};

use fz_checks::PackedImage;
use fz_grid::{Grid, place_law};
use fz_head::Plan;
use fz_pool::Job;
use fz_table::{Record, Tile, TileColumn};
use fz_tile::{Codec, Place2, plain_len};

/// The most tiles of a round: two for each of 64 workers.
pub const MOST_TILES: usize = 128;

/// A tile of a packed image, and so a row of its table.
#[derive(Clone, Copy)]
pub(crate) struct PackedTile<'i> {
    /// The number of the HDU.
    pub(crate) hdu: u32,
    /// The image.
    pub(crate) image: &'i PackedImage,
    /// The number of the tile, from 0.
    pub(crate) number: u32,
}

/// Numbers tiles from this one on.
pub fn number_tiles(first: u32, tiles: &mut [u32])
    requires { first + len tiles.old ≤ 2 ^ 31 }
    ensures { tiles.new ≡ range_with_len first (len tiles.old) }
{
    for i in 0..tiles.len() {
        tiles[i] = first + i as u32;
    }
}

/// What is known of a tile before its row is read.
pub fn known_tile(plan: &Plan, tile: u32) -> Tile
    requires divided { IsDivided plan.now.shape plan.now.tile }
    requires size { IsBitpix plan.now.bitpix }
    requires tile { tile < tiles_in plan.now }
    ensures known { result ≡ tile_of plan.now tile }
    ensures some { 1 ≤ result.pixels }
    ensures most { result.pixels ≤ 2 ^ 26 }
    ensures no_larger { pixels_of plan.now tile ≤ pixels_of plan.now 0 }
{
    let pixels = tile_pixels(plan, tile);
    Tile {
        pixels,
        plain_len: plain_len(plan.bitpix, u64::from(pixels)),
        plain: is_plain(plan.codec),
    }
}

/// How many pixels a tile has.
pub fn tile_pixels(plan: &Plan, tile: u32) -> u32
    requires divided { IsDivided plan.now.shape plan.now.tile }
    requires tile { tile < tiles_in plan.now }
    ensures pixels { result ≡ pixels_of plan.now tile }
    ensures some { 1 ≤ result }
    ensures most { result ≤ 2 ^ 26 }
    ensures no_larger { pixels_of plan.now tile ≤ pixels_of plan.now 0 }
{
    place_law();
    let grid = Grid::new(plan.shape, plan.tile);
    // This call shows that no tile has more than 2^26 pixels.
    let _largest = grid.largest();
    grid.tile_box(tile).pixels() as u32
}

// Whether tiles are stored only as plain bytes.
fn is_plain(codec: Codec) -> bool
    ensures { result ≡ is_plain_codec codec }
{
    match codec {
        Codec::Rice { .. } | Codec::Plio => false,
        Codec::Plain => true,
    }
}

/// The job of a slot that has the record of a tile with so many pixels.
pub(crate) fn job_of(plan: &Plan, tile: u32, pixels: u32, found: &Record) -> Job
    requires pixels { pixels ≡ pixels_of plan.now tile }
    requires read { found.now.read < 2 ^ 32 }
    ensures { result ≡ decoding_job plan.now tile found.now }
{
    Job {
        tile,
        pixels,
        codec: plan.codec,
        bitpix: plan.bitpix,
        place: place_in(found.column),
        len: found.read as u32,
        total: found.total,
    }
}

/// The place of a tile whose record was found in this column.
pub fn place_in(column: TileColumn) -> Place2
    ensures { result ≡ place_in_column column }
{
    match column {
        TileColumn::Coded => Place2::Coded,
        TileColumn::Stored => Place2::Stored,
    }
}
