//! The records of a round, read into the slots of the window.
ghost use Rattle.std.specs.Prelude.{◌≡◌, ◌+◌, ◌*◌, ◌<◌, ◌≤◌, ◌^◌, min, [], ◌∷◌, length as len, IfErr, IfOk, IfSome, OnOk};
ghost use Rattle.fz_base.specs.Keeps.{SourceStays};
ghost use Rattle.fz_base.specs.Ranges.{LogsIn};
ghost use Rattle.fz_base.specs.Stop.{IfRefused, IsRefused, ReadsOnly};
ghost use Rattle.fz_base.specs.declared.failure.Stop.TheVariants.{Refused};
ghost use Rattle.fz_table.specs.Reads.{tile_ranges};
ghost use Rattle.fz_table.specs.Records.{IsOfRow, StandsInHeap, record_bytes};
ghost use Rattle.fz_tile.specs.Codecs.{CanRead};
ghost use Rattle.fz_files.specs.Packed.{tiles_in};
ghost use Rattle.fz_files.specs.Restored.{pixels_of, tile_of};
ghost use Rattle.fz_pool.specs.Calls.{AreSameFrom};
ghost use Rattle.fz_pool.specs.Slots.{IsForDecoding, record_of as record_in_slot};
ghost use Rattle.fz_pool.specs.Window.{IsPut, slot_size, WindowStays};
ghost use Rattle.fz_pool.specs.declared.slot.Slot.{Slot as SlotOf};
ghost use Rattle.fz_job.specs.Images.{HasSlotFor, HaveRoom, IsReadable};
ghost use Rattle.fz_fetch.specs.Loaded.{CanLoad, IsLoaded, IsRefusedIn, LoadsTiles, tiles_ranges};
ghost use Rattle.fz_fetch.specs.Rows.{HasRow, HasRowsOf, StandsWithin};
ghost use Rattle.fz_fetch.specs.Tiles.{decoding_job};

use crate::rows::{read_rows, row_of, rows_len, stand_together};
use crate::tiles::{job_of, known_tile};
use fz_base::{Fault, Source, Stop, log_law, ranges_law};
use fz_checks::PackedImage;
use fz_head::Plan;
use fz_pool::{Slot, Window, put_law, sizes_law};
use fz_table::{Record, Table, read_record, record_of};

/// How many tiles of a round have their records in the first slots, and why the row of the next one is refused, if it
/// is.
#[derive(Clone, Copy, Debug)]
pub(crate) struct Loaded {
    pub(crate) count: u32,
    pub(crate) refused: Option<Fault>,
}

/// Reads the records of these tiles into the first slots, as far as no row is refused.
pub(crate) fn load_round<S: Source>(
    source: &mut S,
    hdu: u32,
    image: &PackedImage,
    tiles: &[u32],
    rows: &mut [u8],
    window: &mut Window,
) -> Result<Loaded, Stop>
    requires round { CanLoad (S.attached source.old) image.now tiles.now window.old }
    requires rows { 4096 ≤ len rows.old }
    ensures loaded { IfOk result (LoadsTiles (S.held source.old) hdu image.now tiles.now window.new.slots) }
    ensures others { AreSameFrom (len tiles.now) window.old.slots window.new.slots }
    ensures read { IfSome (S.held source.old) (λ g. LogsIn (tiles_ranges g hdu image.now tiles.now) (S.ranges source.old) (S.ranges source.new)) }
    ensures stays { SourceStays S.held S.attached S.ranges source.old source.new × WindowStays window.old window.new
        × (len rows.new ≡ len rows.old) }
    ensures cause { ReadsOnly (S.tally source.old) (S.tally source.new) result }
    ensures unrefused { ¬ (IsRefused result) }
{
    ranges_law();
    log_law();
    if !stand_together(&image.table, tiles) {
        return load_tiles(source, hdu, image, tiles, None, window);
    }
    let rows = &mut rows[..rows_len(&image.table, tiles.len())];
    read_rows(source, &image.table, tiles, rows)?;
    load_tiles(source, hdu, image, tiles, Some(rows), window)
}

// Reads the records of these tiles, whose rows were read together, or else are read one by one.
fn load_tiles<S: Source>(
    source: &mut S,
    hdu: u32,
    image: &PackedImage,
    tiles: &[u32],
    rows: Option<&[u8]>,
    window: &mut Window,
) -> Result<Loaded, Stop>
    requires round { CanLoad (S.attached source.old) image.now tiles.now window.old }
    requires rows { IfSome rows (λ r. HasRowsOf (S.held source.old) image.now.table r.now tiles.now) }
    ensures loaded { IfOk result (LoadsTiles (S.held source.old) hdu image.now tiles.now window.new.slots) }
    ensures others { AreSameFrom (len tiles.now) window.old.slots window.new.slots }
    ensures read { IfSome (S.held source.old) (λ g. LogsIn (tiles_ranges g hdu image.now tiles.now) (S.ranges source.old) (S.ranges source.new)) }
    ensures stays { SourceStays S.held S.attached S.ranges source.old source.new × WindowStays window.old window.new }
    ensures cause { ReadsOnly (S.tally source.old) (S.tally source.new) result }
    ensures unrefused { ¬ (IsRefused result) }
{
    ranges_law();
    for i in 0..tiles.len() as u32 {
        match load_next(source, hdu, image, tiles[i as usize], rows, window, i) {
            Ok(()) => {}
            Err(stop) => {
                let fault = refused_by(stop)?;
                return Ok(Loaded {
                    count: i,
                    refused: Some(fault),
                });
            }
        }
    }
    Ok(Loaded {
        count: tiles.len() as u32,
        refused: None,
    })
}

/// The fault of a row that was refused; any other stop is the answer.
pub(crate) fn refused_by(stop: Stop) -> Result<Fault, Stop>
    ensures refused { IfOk result (λ fault. stop ≡ Refused fault) }
    ensures other { IfErr result (λ other. other ≡ stop) }
    ensures unrefused { ¬ (IsRefused result) }
{
    match stop {
        Stop::Refused(fault) => Ok(fault),
        other => Err(other),
    }
}

// Reads the record of a tile into a slot of the window. A row that is refused leaves the window as it was.
fn load_next<S: Source>(
    source: &mut S,
    hdu: u32,
    image: &PackedImage,
    tile: u32,
    rows: Option<&[u8]>,
    window: &mut Window,
    i: u32,
) -> Result<(), Stop>
    requires image { IsReadable image.now }
    requires within { StandsWithin (S.attached source.old) image.now.table }
    requires tile { tile < tiles_in image.now.plan }
    requires rows { IfSome rows (λ r. HasRow (S.held source.old) image.now.table r.now i tile) }
    requires window { HaveRoom image.now window.old }
    requires near { i < 2 * window.old.workers }
    ensures put { OnOk result ((x : SlotOf) × IsPut window.old i x window.new × IsLoaded (S.held source.old) hdu image.now tile x) }
    ensures others { AreSameFrom (i + 1) window.old.slots window.new.slots }
    ensures place { IfRefused result (IsOfRow hdu tile) }
    ensures refused { IfRefused result (λ x. IfSome (S.held source.old) (λ g. IsRefusedIn g hdu image.now tile x)) }
    ensures same { IsRefused result → window.new ≡ window.old }
    ensures read { IfSome (S.held source.old) (λ g. LogsIn (tile_ranges g hdu image.now.table tile (tile_of image.now.plan tile))
        (S.ranges source.old) (S.ranges source.new)) }
    ensures stays { SourceStays S.held S.attached S.ranges source.old source.new × WindowStays window.old window.new }
    ensures cause { ReadsOnly (S.tally source.old) (S.tally source.new) result }
{
    sizes_law();
    put_law();
    ranges_law();
    log_law();
    let says = row_of(source, &image.table, rows, i, tile)?;
    let known = known_tile(&image.plan, tile);
    let found = record_of(hdu, tile, &image.table, &says, &known).map_err(Stop::Refused)?;
    load_slot(
        source,
        &image.table,
        &image.plan,
        tile,
        known.pixels,
        &found,
        window.slot_mut(i),
    )
}

// Reads the record of a tile into the slot in which it is to be decoded.
fn load_slot<S: Source>(
    source: &mut S,
    table: &Table,
    plan: &Plan,
    tile: u32,
    pixels: u32,
    found: &Record,
    slot: &mut Slot,
) -> Result<(), Stop>
    requires codec { CanRead plan.now.codec plan.now.bitpix }
    requires within { StandsWithin (S.attached source.old) table.now }
    requires pixels { (pixels ≡ pixels_of plan.now tile) × (1 ≤ pixels) × (pixels ≤ 2 ^ 26) }
    requires found { StandsInHeap table.now (tile_of plan.now tile) found.now }
    requires read { found.now.read ≡ min found.now.total (8 * pixels + 64) }
    requires no_larger { pixels ≤ pixels_of plan.now 0 }
    requires room { HasSlotFor (pixels_of plan.now 0) (slot_size slot.old) }
    ensures job { OnOk result (slot.new.job ≡ decoding_job plan.now tile found.now) }
    ensures ready { OnOk result (IsForDecoding slot.new) }
    ensures bytes { OnOk result (IfSome (S.held source.old) (λ g. record_in_slot slot.new ≡ record_bytes g found.now)) }
    ensures read { LogsIn ((found.now.start, found.now.read) ∷ []) (S.ranges source.old) (S.ranges source.new) }
    ensures stays { SourceStays S.held S.attached S.ranges source.old source.new
        × (slot_size slot.new ≡ slot_size slot.old) }
    ensures cause { ReadsOnly (S.tally source.old) (S.tally source.new) result }
    ensures unrefused { ¬ (IsRefused result) }
{
    ranges_law();
    slot.job = job_of(plan, tile, pixels, found);
    read_record(source, found, slot.code.as_mut_slice())
}
