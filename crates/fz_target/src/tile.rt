//! One tile: its old pixels are decoded, those of PATCH put over them, and the new ones encoded.
ghost use Rattle.std.specs.Prelude.{ℕ, ◌≡◌, ◌∷◌, [], ◌<◌, ◌≤◌, ◌^◌, List, ℤ, length as len, slice_get, Some, None, IfSome, OnOk};
ghost use Rattle.fz_base.specs.Keeps.{SourceStays};
ghost use Rattle.fz_base.specs.Ranges.{LogsIn};
ghost use Rattle.fz_base.specs.Source.{LogsWithin};
ghost use Rattle.fz_base.specs.Stop.{IfRefused, IsRefused, OnlyReads};
ghost use Rattle.fz_fetch.specs.Fetched.{HasTile};
ghost use Rattle.fz_job.specs.Images.{HasSlotFor, HaveRoom, fetched_ranges};
ghost use Rattle.fz_fetch.specs.Rows.{StandsWithin};
ghost use Rattle.fz_files.specs.FirstFault.{IsFirstRowFault, image_row};
ghost use Rattle.fz_files.specs.Packed.{tiles_in};
ghost use Rattle.fz_files.specs.Restored.{RowStandsFor, pixels_of};
ghost use Rattle.fz_pool.specs.Window.{IsPut, slot_size, WindowStays};
ghost use Rattle.fz_pool.specs.declared.slot.Slot.{Slot as SlotOf};
ghost use Rattle.fz_table.specs.Records.{IsOfRow};
ghost use Rattle.fz_target.specs.Ends.{ReadsTiles};
ghost use Rattle.fz_target.specs.Reads.{pixels_end};
ghost use Rattle.fz_target.specs.Targets.{GivesWithin, IsGivenTo, IsTarget, IsTargetIn, given_at};
ghost use Rattle.fz_target.specs.Tiles.{HasFirst, HasNewCode, HasSomeCode, IsBoxTile, IsFilledSlot, encoding_job};
ghost use Rattle.fz_target.specs.Told.{IfBoth};

use crate::merge::put_given;
use crate::target::Target;
use fz_base::{FreeGate, NoMemory, Source, Stop};
use fz_fetch::fetch_tiles;
use fz_grid::{place_law, shape_law, tile_pixels_law};
use fz_pool::{Crew, Job, Slot, Window, encode_window, put_law, sizes_law};
use fz_tile::{Place2, one_fault_law, one_record_law};
use std::thread::Threads;

/// Leaves the code of the new pixels of a tile in slot 0 of the window, if the store gives the old ones.
///
/// Refused: the row of the tile, as `fetch_tiles` refuses it; never if the row stands for numbers.
pub fn prepare_tile<R: Threads + Sync, D: Source, S: Source>(
    rt: &R,
    store: &mut D,
    patch: &mut S,
    target: &Target,
    tile: u32,
    window: &mut Window,
    copy: &mut [u8],
) -> Result<(), Stop>
    requires target { IsTarget target.now }
    requires within { StandsWithin (D.attached store.old) target.now.image.table }
    requires said { IfSome (D.held store.old) (λ f. IsTargetIn f target.now) }
    requires given { GivesWithin (S.attached patch.old) target.now }
    requires tile { IsBoxTile target.now tile }
    requires window { HaveRoom target.now.image window.old }
    requires copy { 4096 ≤ len copy.old }
    ensures new { OnOk result (IfBoth (D.held store.old) (S.held patch.old) (λ f p. (corner : List ℕ) → IsGivenTo corner p target.now
        → HasNewCode f target.now.header target.now.image.plan (given_at corner p) tile window.new)) }
    ensures code { OnOk result (HasSomeCode target.now.image.plan tile window.new) }
    ensures sound { OnOk result (IfSome (D.held store.old) (λ f. IsFirstRowFault f (image_row target.now.header tile ∷ []) None)) }
    ensures fault { IfRefused result (λ x. IfSome (D.held store.old) (λ f. IsFirstRowFault f (image_row target.now.header tile ∷ []) (Some x))) }
    ensures row { IfRefused result (IsOfRow target.now.header.hdu tile) }
    ensures unrefused { IsRefused result → IfSome (D.held store.old) (λ f. (xs : List ℤ) → ¬ RowStandsFor f target.now.header tile xs) }
    ensures read { IfSome (D.held store.old) (λ f. LogsIn (fetched_ranges f target.now.header (tile ∷ [])) (D.ranges store.old) (D.ranges store.new)) }
    ensures pixels_read { LogsWithin target.now.pixels_at (pixels_end target.now) (S.ranges patch.old) (S.ranges patch.new) }
    ensures stays { SourceStays D.held D.attached D.ranges store.old store.new
        × SourceStays S.held S.attached S.ranges patch.old patch.new × WindowStays window.old window.new
        × (len copy.new ≡ len copy.old) }
    ensures cause { ReadsTiles (D.tally store.old) (D.tally store.new) (S.tally patch.old) (S.tally patch.new) result }
{
    one_fault_law();
    one_record_law();
    sizes_law();
    let crew = Crew {
        rt,
        gate: &FreeGate,
        workers: window.workers(),
    };
    fetch_tiles(
        &crew,
        store,
        &target.header,
        &target.image,
        &[tile],
        copy,
        window,
    )?;
    fill_first(patch, target, tile, window, copy)?;
    match encode_window(rt, window, 1, &FreeGate) {
        Ok(()) => Ok(()),
        Err(NoMemory) => Err(Stop::NoMemory),
    }
}

// Puts the pixels of PATCH over those of a tile, which slot 0 has, and has it encoded.
fn fill_first<S: Source>(
    patch: &mut S,
    target: &Target,
    tile: u32,
    window: &mut Window,
    copy: &mut [u8],
) -> Result<(), Stop>
    requires target { IsTarget target.now }
    requires given { GivesWithin (S.attached patch.old) target.now }
    requires tile { IsBoxTile target.now tile }
    requires window { HaveRoom target.now.image window.old × (1 ≤ window.old.workers) }
    requires pixels { (xs : List ℤ) × HasFirst (λ (x : SlotOf). HasTile target.now.image.plan tile x xs) window.old }
    requires copy { 4096 ≤ len copy.old }
    ensures pixels_read { LogsWithin target.now.pixels_at (pixels_end target.now) (S.ranges patch.old) (S.ranges patch.new) }
    ensures put { OnOk result ((x : SlotOf) × (y : SlotOf) × (slice_get window.old.slots 0 ≡ Some x) × IsPut window.old 0 y window.new
        × IsFilledSlot target.now tile (S.held patch.old) x y) }
    ensures stays { SourceStays S.held S.attached S.ranges patch.old patch.new × WindowStays window.old window.new
        × (len copy.new ≡ len copy.old) }
    ensures cause { OnlyReads (S.tally patch.old) (S.tally patch.new) result }
{
    put_law();
    sizes_law();
    fill_slot(patch, target, tile, window.slot_mut(0), copy)
}

// The same for the slot that has the tile.
fn fill_slot<S: Source>(
    patch: &mut S,
    target: &Target,
    tile: u32,
    slot: &mut Slot,
    copy: &mut [u8],
) -> Result<(), Stop>
    requires target { IsTarget target.now }
    requires given { GivesWithin (S.attached patch.old) target.now }
    requires tile { IsBoxTile target.now tile }
    requires room { HasSlotFor (pixels_of target.now.image.plan 0) (slot_size slot.old) }
    requires pixels { (xs : List ℤ) × HasTile target.now.image.plan tile slot.old xs }
    requires copy { 4096 ≤ len copy.old }
    ensures pixels_read { LogsWithin target.now.pixels_at (pixels_end target.now) (S.ranges patch.old) (S.ranges patch.new) }
    ensures filled { OnOk result (IsFilledSlot target.now tile (S.held patch.old) slot.old slot.new) }
    ensures stays { SourceStays S.held S.attached S.ranges patch.old patch.new
        × (slot_size slot.new ≡ slot_size slot.old) × (len copy.new ≡ len copy.old) }
    ensures cause { OnlyReads (S.tally patch.old) (S.tally patch.new) result }
{
    shape_law();
    tile_pixels_law();
    put_given(patch, target, tile, slot.numbers.as_mut_slice(), copy)?;
    slot.job = job_of(target, tile);
    Ok(())
}

// What is to be done to encode a tile.
fn job_of(target: &Target, tile: u32) -> Job
    requires target { IsTarget target.now }
    requires tile { tile < tiles_in target.now.image.plan }
    ensures job { result ≡ encoding_job target.now tile }
    ensures some { (1 ≤ result.pixels) × (result.pixels ≤ 2 ^ 26) }
    ensures no_larger { result.pixels ≤ pixels_of target.now.image.plan 0 }
{
    Job {
        tile,
        pixels: tile_pixels(target, tile),
        codec: target.image.plan.codec,
        bitpix: target.image.plan.bitpix,
        place: Place2::Coded,
        len: 0,
        total: 0,
    }
}

// How many pixels a tile has.
fn tile_pixels(target: &Target, tile: u32) -> u32
    requires target { IsTarget target.now }
    requires tile { tile < tiles_in target.now.image.plan }
    ensures pixels { result ≡ pixels_of target.now.image.plan tile }
    ensures some { 1 ≤ result }
    ensures most { result ≤ 2 ^ 26 }
    ensures no_larger { pixels_of target.now.image.plan tile ≤ pixels_of target.now.image.plan 0 }
{
    place_law();
    let grid = target.grid();
    // This call shows that no tile has more than 2^26 pixels.
    let _largest = grid.largest();
    grid.tile_box(tile).pixels() as u32
}
