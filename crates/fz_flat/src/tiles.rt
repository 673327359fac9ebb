//! The tiles of a packed image, before their rows are read.
ghost use Rattle.std.specs.Prelude.{◌≡◌, ◌<◌, ◌≤◌, ◌^◌, unsigned_abs};
ghost use Rattle.fz_grid.specs.Region.{IsDivided};
ghost use Rattle.fz_tile.specs.Pixels.{HoldTile, IsBitpix, pixel_count, place_count as place_count_of};
ghost use Rattle.fz_flat.specs.Tiles.{is_plain_codec, pixel_bits, pixels_of, place_in as place_in_column, places_of as places_of_tile, tile_of, tiles_in};

use fz_grid::{Grid, place_law};
use fz_head::Plan;
use fz_table::{Tile, TileColumn};
use fz_tile::{Codec, Place2, plain_len};

/// How many pixels a tile has.
pub fn tile_pixels(plan: &Plan, tile: u32) -> u32
    requires divided { IsDivided plan.now.shape plan.now.tile }
    requires tile { tile < tiles_in plan.now }
    ensures pixels { result ≡ pixels_of plan.now tile }
    ensures some { 1 ≤ result }
    ensures most { result ≤ 2 ^ 26 }
{
    place_law();
    let grid = Grid::new(plan.shape, plan.tile);
    // This call shows that no tile has more than 2^26 pixels.
    let _largest = grid.largest();
    grid.tile_box(tile).pixels() as u32
}

/// What is known of a tile before its row is read.
pub(crate) fn known_tile(plan: &Plan, tile: u32) -> Tile
    requires divided { IsDivided plan.now.shape plan.now.tile }
    requires size { IsBitpix plan.now.bitpix }
    requires tile { tile < tiles_in plan.now }
    ensures known { result ≡ tile_of plan.now tile }
    ensures some { 1 ≤ result.pixels }
    ensures most { result.pixels ≤ 2 ^ 26 }
{
    let pixels = tile_pixels(plan, tile);
    Tile {
        pixels,
        plain_len: plain_len(plan.bitpix, u64::from(pixels)),
        plain: is_plain(plan.codec),
    }
}

// Whether tiles are stored only as plain bytes.
fn is_plain(codec: Codec) -> bool
    ensures { result ≡ is_plain_codec codec }
{
    match codec {
        Codec::Rice { .. } | Codec::Plio => false,
        Codec::Plain => true,
    }
}

/// How many places the pixels of a tile take.
pub fn places_of(plan: &Plan, tile: u32) -> usize
    requires divided { IsDivided plan.now.shape plan.now.tile }
    requires size { IsBitpix plan.now.bitpix }
    requires tile { tile < tiles_in plan.now }
    ensures places { result ≡ places_of_tile plan.now tile }
    ensures whole { HoldTile (pixel_bits plan.now) result }
    ensures pixels { pixel_count (pixel_bits plan.now) result ≡ pixels_of plan.now tile }
{
    place_count(plan.bitpix, tile_pixels(plan, tile)) as usize
}

// How many places so many pixels have: two each at 64 bits.
fn place_count(bitpix: i32, pixels: u32) -> u32
    requires size { IsBitpix bitpix }
    requires some { 1 ≤ pixels }
    requires most { pixels ≤ 2 ^ 26 }
    ensures { result ≡ place_count_of (unsigned_abs bitpix) pixels }
{
    if bitpix == 64 { 2 * pixels } else { pixels }
}

/// The place of a tile whose record was found in this column.
pub(crate) fn place_in(column: TileColumn) -> Place2
    ensures { result ≡ place_in_column column }
{
    match column {
        TileColumn::Coded => Place2::Coded,
        TileColumn::Stored => Place2::Stored,
    }
}
