//! The pixels of a box.
ghost use Rattle.std.specs.Prelude.{ℕ, ◌≡◌, ◌<◌, ◌≤◌, OnOk, IfErr, length as len};
ghost use Rattle.fz_grid.specs.Sieve.{IsSieveOf};
ghost use Rattle.fz_tile.specs.declared.fault.TileFault.{TileFault as TileFaultOf};
ghost use Rattle.fz_checks.specs.TileKinds.{kind_of_tile};
ghost use Rattle.fz_flat.specs.Boxes.{HasBox, TileStops, TilesStop, numbers_in as numbers_in_box, picked_in};
ghost use Rattle.fz_flat.specs.Cutting.{AreCut, HasPick, PlacesTile};
ghost use Rattle.fz_flat.specs.Lawful.{IsPackedImage};
ghost use Rattle.fz_flat.specs.Rows.{TileIsFaulty, TileMeans, read_of};
ghost use Rattle.fz_flat.specs.Tiles.{places_of as places_of_tile, tiles_in};
ghost use Rattle.fz_flat.specs.declared.stops.Why.TheVariants.{Refused};

use crate::boxes::box_tiles;
use crate::decoding::decode_record;
use crate::needs::numbers_in;
use crate::placing::place_tile;
use crate::reads::{offset_of, said_record};
use crate::stops::{Stopped, Why};
use crate::tiles::places_of;
use fz_checks::{PackedImage, tile_kind};
use fz_grid::{Sieve, cutout_axes, cutout_law, place_law, shape_law, tile_pixels_law, tiles_law};
use fz_table::Record;
use fz_tile::one_record_law;

/// Puts the pixels of a box to the front of `out`, axis 1 fastest; what is after them stays. `rows` has the bytes
/// of the file from byte `from` on, and `codes` those from byte `at` on. A pixel takes one place of `out`, and one
/// of 64 bits two. `numbers` has the places of the largest tile.
///
/// Refused: the first tile of the box that gives no pixels; `out` and `numbers` then have some values.
pub fn cut_box(
    image: &PackedImage,
    sieve: &Sieve,
    from: u64,
    rows: &[u8],
    at: u64,
    codes: &[u8],
    numbers: &mut [i32],
    out: &mut [i32],
) -> Result<(), Stopped>
    requires image { IsPackedImage image.now }
    requires sieve { IsSieveOf image.now.plan.shape sieve.now }
    requires numbers { places_of_tile image.now.plan 0 ≤ len numbers.old }
    requires room { numbers_in_box image.now.plan sieve.now ≤ len out.old }
    ensures slice { OnOk result (HasBox image.now sieve.now from rows.now at codes.now out.old out.new) }
    ensures stopped { IfErr result (TilesStop image.now from rows.now at codes.now (picked_in image.now.plan sieve.now)) }
    ensures len { len out.new ≡ len out.old }
{
    let count = numbers_in(&image.plan, sieve) as usize;
    let (front, _others) = out.split_at_mut(count);
    cut_tiles(image, sieve, from, rows, at, codes, numbers, front)
}

// Puts the pixels of a box to `out`, which has their places.
fn cut_tiles(
    image: &PackedImage,
    sieve: &Sieve,
    from: u64,
    rows: &[u8],
    at: u64,
    codes: &[u8],
    numbers: &mut [i32],
    out: &mut [i32],
) -> Result<(), Stopped>
    requires image { IsPackedImage image.now }
    requires sieve { IsSieveOf image.now.plan.shape sieve.now }
    requires numbers { places_of_tile image.now.plan 0 ≤ len numbers.old }
    requires room { len out.old ≡ numbers_in_box image.now.plan sieve.now }
    ensures cut { OnOk result (AreCut image.now sieve.now from rows.now at codes.now out.new) }
    ensures stopped { IfErr result (TilesStop image.now from rows.now at codes.now (picked_in image.now.plan sieve.now)) }
    ensures len { len out.new ≡ len out.old }
{
    cutout_law();
    one_record_law();
    place_law();
    shape_law();
    tiles_law();
    let _cutout = cutout_axes(&image.plan.shape, sieve);
    for tile in box_tiles(&image.plan, sieve) {
        cut_tile(image, sieve, from, rows, at, codes, tile, numbers, out)?;
    }
    Ok(())
}

// Puts the pixels of a tile that are in the box to their places.
fn cut_tile(
    image: &PackedImage,
    sieve: &Sieve,
    from: u64,
    rows: &[u8],
    at: u64,
    codes: &[u8],
    tile: u32,
    numbers: &mut [i32],
    out: &mut [i32],
) -> Result<(), Stopped>
    requires image { IsPackedImage image.now }
    requires sieve { IsSieveOf image.now.plan.shape sieve.now }
    requires tile { HasPick image.now.plan sieve.now tile }
    requires numbers { places_of_tile image.now.plan 0 ≤ len numbers.old }
    requires room { len out.old ≡ numbers_in_box image.now.plan sieve.now }
    ensures placed { OnOk result (PlacesTile image.now sieve.now from rows.now at codes.now tile out.old out.new) }
    ensures stops { IfErr result (λ stopped. (stopped.tile ≡ tile) × TileStops image.now from rows.now at codes.now stopped) }
    ensures len { (len out.new ≡ len out.old) × (len numbers.new ≡ len numbers.old) }
{
    let found = said_record(image, from, rows, tile)?;
    let Some(start) = offset_of(at, codes.len(), found.start, found.read) else {
        return Err(Stopped {
            tile,
            why: Why::FewBytes,
        });
    };
    let code = &codes[start..start + found.read as usize];
    shape_law();
    tile_pixels_law();
    decode_part(image, tile, &found, code, numbers)?;
    let places = places_of(&image.plan, tile);
    place_tile(&image.plan, sieve, tile, &numbers[..places], out);
    Ok(())
}

// Decodes what was read of the record of a tile into the first numbers.
fn decode_part(
    image: &PackedImage,
    tile: u32,
    found: &Record,
    code: &[u8],
    numbers: &mut [i32],
) -> Result<(), Stopped>
    requires image { IsPackedImage image.now }
    requires tile { tile < tiles_in image.now.plan }
    requires read { len code.now ≡ read_of image.now.plan tile found.now }
    requires places { places_of_tile image.now.plan tile ≤ len numbers.old }
    ensures pixels { OnOk result (TileMeans image.now.plan tile found.now code.now numbers.old numbers.new) }
    ensures stops { IfErr result (λ stopped. (stopped.tile ≡ tile) × ((fault : TileFaultOf) × TileIsFaulty image.now.plan tile found.now code.now fault
        × (stopped.why ≡ Refused (kind_of_tile fault)))) }
    ensures len { len numbers.new ≡ len numbers.old }
{
    match decode_record(&image.plan, tile, found, code, numbers) {
        Ok(()) => Ok(()),
        Err(fault) => Err(Stopped {
            tile,
            why: Why::Refused(tile_kind(fault)),
        }),
    }
}
