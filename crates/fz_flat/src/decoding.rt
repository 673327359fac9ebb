//! The pixels of a tile, by what was read of its record.
ghost use Rattle.std.specs.Prelude.{◌≡◌, ◌<◌, ◌≤◌, Err, IfErr, OnOk, length as len};
ghost use Rattle.std.specs.Result.{MatchResult};
ghost use Rattle.fz_grid.specs.Region.{IsDivided};
ghost use Rattle.fz_tile.specs.Codecs.{CanRead};
ghost use Rattle.fz_tile.specs.Pixels.{HoldTile, pixel_count};
ghost use Rattle.fz_tile.specs.Record.{read_len};
ghost use Rattle.fz_flat.specs.Rows.{TileIsFaulty, TileMeans, read_of};
ghost use Rattle.fz_flat.specs.Tiles.{pixel_bits, places_of as places_of_tile, tiles_in};
ghost use Rattle.fz_flat.specs.Decoded.{Decodes};

use crate::tiles::{place_in, places_of};
use fz_head::Plan;
use fz_table::Record;
use fz_tile::{TileFault, decode_tile};

/// Decodes what was read of the record of a tile into the first numbers; those after them stay.
///
/// Refused, as `decode_tile` refuses the record; the numbers then have some values.
pub fn decode_record(
    plan: &Plan,
    tile: u32,
    found: &Record,
    code: &[u8],
    numbers: &mut [i32],
) -> Result<(), TileFault>
    requires divided { IsDivided plan.now.shape plan.now.tile }
    requires codec { CanRead plan.now.codec plan.now.bitpix }
    requires tile { tile < tiles_in plan.now }
    requires read { len code.now ≡ read_of plan.now tile found.now }
    requires places { places_of_tile plan.now tile ≤ len numbers.old }
    ensures pixels { OnOk result (TileMeans plan.now tile found.now code.now numbers.old numbers.new) }
    ensures fault { IfErr result (TileIsFaulty plan.now tile found.now code.now) }
    ensures len { len numbers.new ≡ len numbers.old }
{
    let places = places_of(plan, tile);
    let (front, _others) = numbers.split_at_mut(places);
    decode_numbers(plan, found, code, front)
}

// Decodes a record into as many numbers as its pixels take.
fn decode_numbers(
    plan: &Plan,
    found: &Record,
    code: &[u8],
    numbers: &mut [i32],
) -> Result<(), TileFault>
    requires codec { CanRead plan.now.codec plan.now.bitpix }
    requires tile { HoldTile (pixel_bits plan.now) (len numbers.old) }
    requires read { len code.now ≡ read_len (pixel_count (pixel_bits plan.now) (len numbers.old)) found.now.total }
    ensures decodes { Decodes plan.now found.now code.now (pixel_count (pixel_bits plan.now) (len numbers.old)) numbers.new result }
    ensures len { len numbers.new ≡ len numbers.old }
{
    decode_tile(
        plan.codec,
        plan.bitpix,
        place_in(found.column),
        code,
        found.total,
        numbers,
    )
}
