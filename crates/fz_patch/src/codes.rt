//! The new codes, from the heap's end on: the second pass over the tiles with a pixel in the box.
ghost use Rattle.std.specs.Prelude.{ℕ, ◌≡◌, ◌+◌, ◌<◌, ◌≤◌, ◌^◌, ℤ, List, length as len, IfSome, OnOk};
ghost use Rattle.fz_base.specs.Keeps.{SourceStays};
ghost use Rattle.fz_base.specs.Source.{LogsWithin};
ghost use Rattle.fz_base.specs.Stop.{IfRefused, IsRefused};
ghost use Rattle.fz_base.specs.Store.{HasAtLeast, IsSettled};
ghost use Rattle.fz_base.specs.Told.{StaysTold};
ghost use Rattle.fz_job.specs.Images.{HaveRoom};
ghost use Rattle.fz_fetch.specs.Rows.{StandsWithin};
ghost use Rattle.fz_files.specs.Packed.{heap_of};
ghost use Rattle.fz_laws.specs.FirstPatchFault.{BoxHasNumbers};
ghost use Rattle.fz_laws.specs.NewNumbers.{box_tiles};
ghost use Rattle.fz_laws.specs.Writes.{grown_end, heap_end as heap_end_of, heap_writes, new_codes, zero_writes};
ghost use Rattle.fz_patch.specs.Kept.{KeepsBytes};
ghost use Rattle.fz_pool.specs.Round.{coded_tile};
ghost use Rattle.fz_target.specs.Ends.{AmendsStore, Patches};
ghost use Rattle.fz_target.specs.Measures.{HasRoom};
ghost use Rattle.fz_target.specs.Reads.{pixels_end};
ghost use Rattle.fz_target.specs.Steps.{ComesInWork, KeepsHeader, KeepsReach, Wrote, WroteSome};
ghost use Rattle.fz_target.specs.Targets.{GivesWithin, IsGivenTo, IsTarget, IsTargetIn, given_at};
ghost use Rattle.fz_target.specs.Told.{IfBoth};
ghost use Rattle.fz_pool.specs.Window.{WindowStays};

use crate::settled::settle;
use fz_base::{Source, Stop, Store, amend_at, log_law, places_law};
use fz_block::BLOCK_LEN;
use fz_pool::{Slot, Window};
use fz_target::{Measure, Target, changed, code_slot, prepare_tile, tiles_in_box};
use std::thread::Threads;

/// Writes the new codes of all tiles with a pixel in the box, one after another, and zeros to a whole block.
///
/// Refused only if a file gave other bytes than before: a row, or, if the codes are not as long as was measured, with
/// BadCard at card 0.
pub(crate) fn write_codes<R: Threads + Sync, D: Store, S: Source>(
    rt: &R,
    store: &mut D,
    patch: &mut S,
    target: &Target,
    found: &Measure,
    window: &mut Window,
    copy: &mut [u8],
) -> Result<(), Stop>
    requires target { IsTarget target.now }
    requires within { StandsWithin (D.attached store.old) target.now.image.table }
    requires said { IfSome (D.held store.old) (λ f. IsTargetIn f target.now) }
    requires given { GivesWithin (S.attached patch.old) target.now }
    requires room { HasRoom target.now found.now }
    requires window { HaveRoom target.now.image window.old }
    requires copy { 4096 ≤ len copy.old }
    ensures wrote { OnOk result (IfBoth (D.held store.old) (S.held patch.old) (λ f p. (corner : List ℕ) (olds : List (List ℤ))
        → IsGivenTo corner p target.now → BoxHasNumbers f target.now.header (given_at corner p) olds
        → Wrote (heap_writes f target.now.header
        (new_codes target.now.image.plan (given_at corner p) (box_tiles target.now.image.plan (given_at corner p)) olds))
        (D.held store.old) (D.held store.new) (D.tally store.old).amended.writes (D.tally store.new).amended.writes)) }
    ensures some { IfBoth (D.held store.old) (S.held patch.old) (λ f p. (corner : List ℕ) (olds : List (List ℤ))
        → IsGivenTo corner p target.now → BoxHasNumbers f target.now.header (given_at corner p) olds
        → WroteSome (heap_writes f target.now.header
        (new_codes target.now.image.plan (given_at corner p) (box_tiles target.now.image.plan (given_at corner p)) olds))
        (D.held store.old) (D.held store.new) (D.tally store.old).amended.writes (D.tally store.new).amended.writes) }
    ensures unrefused { IfBoth (D.held store.old) (S.held patch.old) (λ f p. (corner : List ℕ) (olds : List (List ℤ))
        → IsGivenTo corner p target.now → BoxHasNumbers f target.now.header (given_at corner p) olds
        → len (heap_of (new_codes target.now.image.plan (given_at corner p) (box_tiles target.now.image.plan (given_at corner p)) olds)) ≡ found.now.bytes
        → ¬ IsRefused result) }
    ensures settled { OnOk result (IsSettled (D.tally store.new).amended) }
    ensures grown { OnOk result (HasAtLeast (D.attached store.new) (grown_end target.now.header found.now.bytes)) }
    ensures late { IfRefused result (ComesInWork target.now.header.hdu) }
    // Of FILE only: all bytes before the heap's end are kept.
    ensures kept { IfSome (D.held store.old) (λ f. KeepsBytes (λ i. i < heap_end_of target.now.image.table) f (D.held store.new)
        (D.tally store.old).amended.writes (D.tally store.new).amended.writes) }
    ensures pixels_read { LogsWithin target.now.pixels_at (pixels_end target.now) (S.ranges patch.old) (S.ranges patch.new) }
    ensures header { OnOk result (KeepsHeader target.now.header (D.held store.old) (D.held store.new)) }
    ensures reach { KeepsReach (D.attached store.old) (D.attached store.new) }
    ensures stays { SourceStays S.held S.attached S.ranges patch.old patch.new × WindowStays window.old window.new
        × StaysTold (D.held store.old) (D.held store.new) × (len copy.new ≡ len copy.old) }
    ensures cause { Patches (D.tally store.old) (D.tally store.new) (S.tally patch.old) (S.tally patch.new) result }
{
    log_law();
    places_law();
    let mut at = target.heap_end();
    let end = at + found.bytes;
    for tile in tiles_in_box(target) {
        prepare_tile(rt, store, patch, target, tile, window, copy)?;
        let slot = code_slot(target, window);
        let count = u64::from(slot.job.len);
        let room = end - at;
        if count > room {
            return Err(changed(target.header.hdu));
        }
        amend_at(store, at, code_in(slot))?;
        at += count;
    }
    if at < end {
        return Err(changed(target.header.hdu));
    }
    write_zeros(store, at, target.grown_end(found.bytes))?;
    settle(store)
}

/// The code in the slot.
pub(crate) fn code_in(slot: &Slot) -> &[u8]
    requires { slot.now.job.len ≤ len slot.now.code }
    ensures bytes { result.now ≡ (coded_tile slot.now).bytes }
    ensures count { len result.now ≡ slot.now.job.len }
{
    &slot.code.as_slice()[..slot.job.len as usize]
}

// Writes zeros up to this byte, which is less than a block away; none if it is there.
fn write_zeros<D: Store>(store: &mut D, at: u64, end: u64) -> Result<(), Stop>
    requires within { HasAtLeast (D.attached store.old) at }
    requires near { (at ≤ end) × (end ≤ at + 2879) × (end ≤ 2 ^ 62) }
    ensures wrote { OnOk result (Wrote (zero_writes at end) (D.held store.old) (D.held store.new)
        (D.tally store.old).amended.writes (D.tally store.new).amended.writes) }
    ensures some { WroteSome (zero_writes at end) (D.held store.old) (D.held store.new)
        (D.tally store.old).amended.writes (D.tally store.new).amended.writes }
    ensures grown { OnOk result (HasAtLeast (D.attached store.new) end) }
    ensures reach { KeepsReach (D.attached store.old) (D.attached store.new) }
    ensures cause { AmendsStore (D.tally store.old) (D.tally store.new) result }
{
    if at == end {
        return Ok(());
    }
    let zeros = [0; BLOCK_LEN];
    amend_at(store, at, &zeros[..(end - at) as usize])
}
