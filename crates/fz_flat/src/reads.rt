//! The records of the tiles of a box.
ghost use Rattle.std.specs.Prelude.{◌≡◌, ◌<◌, ◌≤◌, ◌+◌, ◌-◌, ◌^◌, MatchOption, OnOk, IfOk, IfErr, length as len};
ghost use Rattle.fz_grid.specs.Sieve.{IsSieveOf};
ghost use Rattle.fz_table.specs.Records.{StandsInHeap};
ghost use Rattle.fz_flat.specs.Boxes.{AreAmong, AreListed, RowStops, RowsStop, SaysRecord, picked_in};
ghost use Rattle.fz_flat.specs.Lawful.{IsPackedImage};
ghost use Rattle.fz_flat.specs.Tiles.{tile_of, tiles_in};

use crate::boxes::box_tiles;
use crate::needs::row_start;
use crate::record::{FzRecord, flat_record};
use crate::rows::read_row;
use crate::stops::{Stopped, Why};
use fz_checks::PackedImage;
use fz_grid::Sieve;
use fz_table::Record;

/// Puts the records of the tiles of a box to the front of `reads`, in the order of the tiles. `rows` has the bytes
/// of the file from byte `from` on; what is after the records in `reads` stays.
///
/// Refused: the first tile whose row was not read or is refused; `reads` then has some records.
pub fn list_reads(
    image: &PackedImage,
    sieve: &Sieve,
    from: u64,
    rows: &[u8],
    reads: &mut [FzRecord],
) -> Result<(), Stopped>
    requires image { IsPackedImage image.now }
    requires sieve { IsSieveOf image.now.plan.shape sieve.now }
    requires room { len (picked_in image.now.plan sieve.now) ≤ len reads.old }
    ensures listed { OnOk result (AreListed image.now from rows.now (picked_in image.now.plan sieve.now) reads.old reads.new) }
    ensures stopped { IfErr result (RowsStop image.now from rows.now (picked_in image.now.plan sieve.now)) }
    ensures len { len reads.new ≡ len reads.old }
{
    let mut count = 0;
    for tile in box_tiles(&image.plan, sieve) {
        let found = said_record(image, from, rows, tile)?;
        reads[count] = flat_record(&found);
        count += 1;
    }
    Ok(())
}

/// The record of a tile, by bytes of the file from byte `from` on.
///
/// Refused, if the row of the tile is not among them, or as `read_row` refuses it.
pub(crate) fn said_record(
    image: &PackedImage,
    from: u64,
    rows: &[u8],
    tile: u32,
) -> Result<Record, Stopped>
    requires image { IsPackedImage image.now }
    requires tile { tile < tiles_in image.now.plan }
    ensures said { IfOk result (SaysRecord image.now from rows.now tile) }
    ensures within { IfOk result (StandsInHeap image.now.table (tile_of image.now.plan tile)) }
    ensures stops { IfErr result (λ stopped. (stopped.tile ≡ tile) × RowStops image.now from rows.now stopped) }
{
    let start = row_start(&image.table, tile);
    let Some(at) = offset_of(from, rows.len(), start, u64::from(image.table.row_bytes)) else {
        return Err(Stopped {
            tile,
            why: Why::FewRows,
        });
    };
    match read_row(0, image, tile, &rows[at..]) {
        Ok(found) => Ok(found),
        Err(fault) => Err(Stopped {
            tile,
            why: Why::Refused(fault.kind),
        }),
    }
}

/// Where so many bytes from byte `start` of the file on are among `count` bytes from byte `from` on, if they are.
pub(crate) fn offset_of(from: u64, count: usize, start: u64, len: u64) -> Option<usize>
    requires { start + len < 2 ^ 64 }
    ensures { MatchOption result (¬ AreAmong from count start len) (λ at. AreAmong from count start len × (at ≡ start - from)) }
{
    if start < from || start - from > count as u64 || count as u64 - (start - from) < len {
        return None;
    }
    Some((start - from) as usize)
}
