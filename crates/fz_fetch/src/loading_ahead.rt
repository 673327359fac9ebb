//! The records of a round, read into the slots of the window together with those that are wanted later.
ghost use Rattle.std.specs.Prelude.{◌≡◌, ◌+◌, ◌*◌, ◌<◌, ◌≤◌, ◌^◌, min, length as len, IfOk, IfSome, OnOk};
ghost use Rattle.fz_base.specs.Keeps.{SourceStays};
ghost use Rattle.fz_base.specs.Ranges.{LogsIn};
ghost use Rattle.fz_base.specs.Stop.{IfRefused, IsRefused, ReadsOnly};
ghost use Rattle.fz_table.specs.Records.{IsOfRow, StandsInHeap, record_bytes};
ghost use Rattle.fz_files.specs.Packed.{tiles_in};
ghost use Rattle.fz_files.specs.Restored.{pixels_of, tile_of};
ghost use Rattle.fz_pool.specs.Calls.{AreSameFrom};
ghost use Rattle.fz_pool.specs.Slots.{IsForDecoding, record_of as record_in_slot};
ghost use Rattle.fz_pool.specs.Window.{IsPut, slot_size, WindowStays};
ghost use Rattle.fz_pool.specs.declared.slot.Slot.{Slot as SlotOf};
ghost use Rattle.fz_fetch.specs.Ahead.{IsAhead, all_ranges};
ghost use Rattle.fz_job.specs.Images.{HasSlotFor, HaveRoom, IsReadable};
ghost use Rattle.fz_fetch.specs.Loaded.{CanLoad, IsLoaded, IsRecordIn, IsRefusedIn, LoadsTiles};
ghost use Rattle.fz_fetch.specs.Rows.{StandsWithin};
ghost use Rattle.fz_fetch.specs.Tiles.{decoding_job};

use crate::ahead::{Ahead, row_ahead};
use crate::heap::record_ahead;
use crate::loading::{Loaded, refused_by};
use crate::tiles::{PackedTile, job_of, known_tile};
use fz_base::{Source, Stop, log_law, ranges_law};
use fz_checks::PackedImage;
use fz_pool::{Slot, Window, put_law, sizes_law};
use fz_table::{Record, record_of};

/// Reads the records of these tiles into the first slots, as far as no row is refused, as `load_round` does.
pub(crate) fn load_round_ahead<S: Source>(
    source: &mut S,
    hdu: u32,
    image: &PackedImage,
    tiles: &[u32],
    buf: &mut [u8],
    ahead: &mut Ahead,
    window: &mut Window,
) -> Result<Loaded, Stop>
    requires round { CanLoad (S.attached source.old) image.now tiles.now window.old }
    requires ahead { IsAhead (S.held source.old) image.now.table buf.old ahead.old }
    ensures loaded { IfOk result (LoadsTiles (S.held source.old) hdu image.now tiles.now window.new.slots) }
    ensures others { AreSameFrom (len tiles.now) window.old.slots window.new.slots }
    ensures ahead { IsAhead (S.held source.new) image.now.table buf.new ahead.new }
    ensures read { IfSome (S.held source.old) (λ g. LogsIn (all_ranges g hdu image.now) (S.ranges source.old) (S.ranges source.new)) }
    ensures stays { SourceStays S.held S.attached S.ranges source.old source.new × WindowStays window.old window.new
        × (len buf.new ≡ len buf.old) }
    ensures cause { ReadsOnly (S.tally source.old) (S.tally source.new) result }
    ensures unrefused { ¬ (IsRefused result) }
{
    ranges_law();
    log_law();
    for i in 0..tiles.len() as u32 {
        let tile = PackedTile {
            hdu,
            image,
            number: tiles[i as usize],
        };
        match load_next_ahead(source, tile, buf, ahead, window, i) {
            Ok(()) => {}
            Err(stop) => {
                let fault = refused_by(stop)?;
                return Ok(Loaded {
                    count: i,
                    refused: Some(fault),
                });
            }
        }
    }
    Ok(Loaded {
        count: tiles.len() as u32,
        refused: None,
    })
}

// Reads the record of a tile into a slot of the window. A row that is refused leaves the window as it was.
fn load_next_ahead<S: Source>(
    source: &mut S,
    tile: PackedTile<'_>,
    buf: &mut [u8],
    ahead: &mut Ahead,
    window: &mut Window,
    i: u32,
) -> Result<(), Stop>
    requires image { IsReadable tile.image.now }
    requires within { StandsWithin (S.attached source.old) tile.image.now.table }
    requires tile { tile.number < tiles_in tile.image.now.plan }
    requires ahead { IsAhead (S.held source.old) tile.image.now.table buf.old ahead.old }
    requires window { HaveRoom tile.image.now window.old }
    requires near { i < 2 * window.old.workers }
    ensures put { OnOk result ((x : SlotOf) × IsPut window.old i x window.new × IsLoaded (S.held source.old) tile.entry.hdu tile.entry.image.now tile.entry.number x) }
    ensures others { AreSameFrom (i + 1) window.old.slots window.new.slots }
    ensures place { IfRefused result (IsOfRow tile.entry.hdu tile.entry.number) }
    ensures refused { IfRefused result (λ x. IfSome (S.held source.old) (λ g. IsRefusedIn g tile.entry.hdu tile.entry.image.now tile.entry.number x)) }
    ensures same { IsRefused result → window.new ≡ window.old }
    ensures ahead { IsAhead (S.held source.new) tile.entry.image.now.table buf.new ahead.new }
    ensures len { len buf.new ≡ len buf.old }
    ensures read { IfSome (S.held source.old) (λ g. LogsIn (all_ranges g tile.entry.hdu tile.entry.image.now) (S.ranges source.old) (S.ranges source.new)) }
    ensures source { SourceStays S.held S.attached S.ranges source.old source.new }
    ensures window { WindowStays window.old window.new }
    ensures cause { ReadsOnly (S.tally source.old) (S.tally source.new) result }
{
    sizes_law();
    put_law();
    ranges_law();
    log_law();
    let (hdu, image, number) = (tile.hdu, tile.image, tile.number);
    let says = row_ahead(source, &image.table, number, buf, ahead)?;
    let known = known_tile(&image.plan, number);
    let found = record_of(hdu, number, &image.table, &says, &known).map_err(Stop::Refused)?;
    load_slot_ahead(
        source,
        tile,
        known.pixels,
        &found,
        buf,
        ahead,
        window.slot_mut(i),
    )
}

// Reads the record of a tile into the slot, where it is to be decoded.
fn load_slot_ahead<S: Source>(
    source: &mut S,
    tile: PackedTile<'_>,
    pixels: u32,
    found: &Record,
    buf: &mut [u8],
    ahead: &mut Ahead,
    slot: &mut Slot,
) -> Result<(), Stop>
    requires image { IsReadable tile.image.now }
    requires within { StandsWithin (S.attached source.old) tile.image.now.table }
    requires tile { tile.number < tiles_in tile.image.now.plan }
    requires pixels { (pixels ≡ pixels_of tile.image.now.plan tile.number) × (1 ≤ pixels) × (pixels ≤ 2 ^ 26) }
    requires found { StandsInHeap tile.image.now.table (tile_of tile.image.now.plan tile.number) found.now }
    requires told { IfSome (S.held source.old) (λ g. IsRecordIn g tile.hdu tile.image.now tile.number found.now) }
    requires read { found.now.read ≡ min found.now.total (8 * pixels + 64) }
    requires no_larger { pixels ≤ pixels_of tile.image.now.plan 0 }
    requires room { HasSlotFor (pixels_of tile.image.now.plan 0) (slot_size slot.old) }
    requires ahead { IsAhead (S.held source.old) tile.image.now.table buf.old ahead.old }
    ensures job { OnOk result (slot.new.job ≡ decoding_job tile.entry.image.now.plan tile.entry.number found.now) }
    ensures ready { OnOk result (IsForDecoding slot.new) }
    ensures bytes { OnOk result (IfSome (S.held source.old) (λ g. record_in_slot slot.new ≡ record_bytes g found.now)) }
    ensures ahead { IsAhead (S.held source.new) tile.entry.image.now.table buf.new ahead.new }
    ensures read { IfSome (S.held source.old) (λ g. LogsIn (all_ranges g tile.entry.hdu tile.entry.image.now) (S.ranges source.old) (S.ranges source.new)) }
    ensures stays { SourceStays S.held S.attached S.ranges source.old source.new
        × (slot_size slot.new ≡ slot_size slot.old) × (len buf.new ≡ len buf.old) }
    ensures cause { ReadsOnly (S.tally source.old) (S.tally source.new) result }
    ensures unrefused { ¬ (IsRefused result) }
{
    slot.job = job_of(&tile.image.plan, tile.number, pixels, found);
    let code = slot.code.as_mut_slice();
    record_ahead(source, tile, found, buf, ahead, code)
}
