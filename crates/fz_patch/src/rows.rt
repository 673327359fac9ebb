//! The rows, by which tiles have their new codes: the third pass over the tiles with a pixel in the box.
ghost use Rattle.std.specs.Prelude.{ℕ, ◌≡◌, ◌+◌, ◌-◌, ◌*◌, ◌<◌, ◌≤◌, ◌^◌, ℤ, List, zip, if◌then◌else◌, length as len, IfSome, OnErr, OnOk};
ghost use Rattle.fz_base.specs.Keeps.{SourceStays};
ghost use Rattle.fz_base.specs.Ranges.{LiesIn};
ghost use Rattle.fz_base.specs.Sink.{written};
ghost use Rattle.fz_base.specs.Source.{LogsWithin};
ghost use Rattle.fz_base.specs.Stop.{Amends, IfRefused, IsRefused};
ghost use Rattle.fz_base.specs.Store.{HasAtLeast, IsSettled, MayAmend, amend_of, amended_by};
ghost use Rattle.fz_base.specs.Told.{StaysTold};
ghost use Rattle.fz_job.specs.Images.{HaveRoom};
ghost use Rattle.fz_fetch.specs.Rows.{StandsWithin};
ghost use Rattle.fz_files.specs.FirstFault.{picked_tiles_of};
ghost use Rattle.fz_files.specs.Packed.{heap_of, row_of};
ghost use Rattle.fz_laws.specs.FirstPatchFault.{BoxHasNumbers};
ghost use Rattle.fz_laws.specs.NewNumbers.{box_tiles};
ghost use Rattle.fz_laws.specs.Writes.{new_codes, row_writes};
ghost use Rattle.fz_pool.specs.Round.{coded_tile};
ghost use Rattle.fz_table.specs.Rows.{descriptor_len, row_start};
ghost use Rattle.fz_patch.specs.Compared.{DescribesCodes, HeapEndsWith};
ghost use Rattle.fz_patch.specs.Kept.{KeepsBytes, row_ranges};
ghost use Rattle.fz_target.specs.Ends.{Patches};
ghost use Rattle.fz_target.specs.Measures.{measure_of};
ghost use Rattle.fz_target.specs.Reads.{pixels_end};
ghost use Rattle.fz_target.specs.Steps.{ComesInWork, KeepsHeader, KeepsReach, Wrote, WroteSome};
ghost use Rattle.fz_target.specs.Targets.{GivesWithin, IsGivenTo, IsTarget, IsTargetIn, given_at, plan_to_write};
ghost use Rattle.fz_target.specs.Told.{IfBoth};
ghost use Rattle.fz_pool.specs.Window.{WindowStays};

use crate::codes::code_in;
use crate::settled::settle;
use fz_base::{Source, Stop, Store, amend_at, has_bytes, log_law, places_law};
use fz_pool::{Slot, Window};
use fz_table::{Descriptor, write_row};
use fz_target::{
    Measure, Target, changed, code_slot, coded_count, is_measured, prepare_tile, stored_count,
    tiles_in_box,
};
use fz_tile::Place2;
use std::thread::Threads;

/// The most bytes of a row.
const ROW_LEN: usize = 32;

/// Writes the rows of all tiles with a pixel in the box, each in one write, of a target whose heap ends with their new codes.
/// Each tile is decoded and encoded once more, and its row is written only if its code lies in the heap at that place, and has no
/// more elements than was measured, which the forms of the columns say.
///
/// Refused only if a file gave other bytes than before: a row, or, if another code lies there or the codes are not as was
/// measured, with BadCard at card 0.
pub(crate) fn write_rows<R: Threads + Sync, D: Store, S: Source>(
    rt: &R,
    store: &mut D,
    patch: &mut S,
    target: &Target,
    found: &Measure,
    window: &mut Window,
    copy: &mut [u8],
) -> Result<(), Stop>
    requires target { IsTarget target.now }
    requires within { StandsWithin (D.attached store.old) target.now.image.table }
    requires said { IfSome (D.held store.old) (λ f. IsTargetIn f target.now) }
    requires given { GivesWithin (S.attached patch.old) target.now }
    requires heap { found.now.bytes ≤ target.now.image.table.heap_len }
    requires room { target.now.image.table.heap_len < (if target.now.wide then 2 ^ 63 else 2 ^ 31) }
    requires window { HaveRoom target.now.image window.old }
    requires copy { 4096 ≤ len copy.old }
    ensures wrote { OnOk result (IfBoth (D.held store.old) (S.held patch.old) (λ f p. (corner : List ℕ) (olds : List (List ℤ))
        → IsGivenTo corner p target.now → BoxHasNumbers f target.now.header (given_at corner p) olds
        → Wrote (row_writes target.now.image.table (plan_to_write target.now) (target.now.image.table.heap_len - found.now.bytes)
        (zip (box_tiles target.now.image.plan (given_at corner p))
        (new_codes target.now.image.plan (given_at corner p) (box_tiles target.now.image.plan (given_at corner p)) olds)))
        (D.held store.old) (D.held store.new) (D.tally store.old).amended.writes (D.tally store.new).amended.writes)) }
    ensures some { IfBoth (D.held store.old) (S.held patch.old) (λ f p. (corner : List ℕ) (olds : List (List ℤ))
        → IsGivenTo corner p target.now → BoxHasNumbers f target.now.header (given_at corner p) olds
        → WroteSome (row_writes target.now.image.table (plan_to_write target.now) (target.now.image.table.heap_len - found.now.bytes)
        (zip (box_tiles target.now.image.plan (given_at corner p))
        (new_codes target.now.image.plan (given_at corner p) (box_tiles target.now.image.plan (given_at corner p)) olds)))
        (D.held store.old) (D.held store.new) (D.tally store.old).amended.writes (D.tally store.new).amended.writes) }
    ensures settled { OnOk result (IsSettled (D.tally store.new).amended) }
    ensures unrefused { IfBoth (D.held store.old) (S.held patch.old) (λ f p. (corner : List ℕ) (olds : List (List ℤ))
        → IsGivenTo corner p target.now → BoxHasNumbers f target.now.header (given_at corner p) olds
        → found.now ≡ measure_of target.now.image.plan
        (new_codes target.now.image.plan (given_at corner p) (box_tiles target.now.image.plan (given_at corner p)) olds)
        → HeapEndsWith f target.now.image.table
        (heap_of (new_codes target.now.image.plan (given_at corner p) (box_tiles target.now.image.plan (given_at corner p)) olds))
        → ¬ IsRefused result) }
    ensures described { IfSome (D.held store.old) (λ f. DescribesCodes target.now.image.table (plan_to_write target.now) found.now
        (target.now.image.table.heap_len - found.now.bytes) f
        (D.held store.old) (D.held store.new) (D.tally store.old).amended.writes (D.tally store.new).amended.writes) }
    ensures late { IfRefused result (ComesInWork target.now.header.hdu) }
    // Of FILE only: all bytes but those of the rows of the tiles in the box are kept.
    ensures kept { IfSome (D.held store.old) (λ f. KeepsBytes
        (λ i. ¬ LiesIn (row_ranges target.now.image.table (picked_tiles_of target.now.image.plan target.now.sieve)) i) f (D.held store.new)
        (D.tally store.old).amended.writes (D.tally store.new).amended.writes) }
    ensures pixels_read { LogsWithin target.now.pixels_at (pixels_end target.now) (S.ranges patch.old) (S.ranges patch.new) }
    ensures header { OnOk result (KeepsHeader target.now.header (D.held store.old) (D.held store.new)) }
    ensures reach { KeepsReach (D.attached store.old) (D.attached store.new) }
    ensures stays { SourceStays S.held S.attached S.ranges patch.old patch.new × WindowStays window.old window.new
        × StaysTold (D.held store.old) (D.held store.new) × (len copy.new ≡ len copy.old) }
    ensures cause { Patches (D.tally store.old) (D.tally store.new) (S.tally patch.old) (S.tally patch.new) result }
{
    log_law();
    places_law();
    let end = target.image.table.heap_len;
    let mut offset = end - found.bytes;
    for tile in tiles_in_box(target) {
        prepare_tile(rt, store, patch, target, tile, window, copy)?;
        let slot = code_slot(target, window);
        let count = u64::from(slot.job.len);
        let room = end - offset;
        if count > room {
            return Err(changed(target.header.hdu));
        }
        if !is_measured(found, target, slot) {
            return Err(changed(target.header.hdu));
        }
        let at = target.image.table.heap_at + offset;
        let is_there = has_bytes(store, at, code_in(slot), copy)?;
        if !is_there {
            return Err(changed(target.header.hdu));
        }
        write_tile(store, target, tile, slot, offset)?;
        offset += count;
    }
    if offset < end {
        return Err(changed(target.header.hdu));
    }
    settle(store)
}

// Writes the row of this tile, whose code is in the slot and begins at this byte of the heap.
fn write_tile<D: Store>(
    store: &mut D,
    target: &Target,
    tile: u32,
    slot: &Slot,
    offset: u64,
) -> Result<(), Stop>
    requires target { IsTarget target.now }
    requires tile { tile < target.now.image.table.rows }
    requires within { slot.now.job.len ≤ len slot.now.code }
    requires heap { offset + slot.now.job.len < (if target.now.wide then 2 ^ 63 else 2 ^ 31) }
    requires reach { HasAtLeast (D.attached store.old) (row_start target.now.image.table tile) }
    ensures amended { OnOk result (D.held store.new ≡ written (row_start target.now.image.table tile)
        (row_of (plan_to_write target.now) offset (coded_tile slot.now)) (D.held store.old)) }
    ensures partly { OnErr result (MayAmend (row_start target.now.image.table tile)
        (len (row_of (plan_to_write target.now) offset (coded_tile slot.now))) (D.held store.old) (D.held store.new)) }
    ensures reach { KeepsReach (D.attached store.old) (D.attached store.new) }
    ensures cause { Amends (D.tally store.old) (amended_by (amend_of (row_start target.now.image.table tile)
        (row_of (plan_to_write target.now) offset (coded_tile slot.now))) (D.tally store.old)) (D.tally store.new) result }
    ensures count { len (row_of (plan_to_write target.now) offset (coded_tile slot.now)) ≡ target.now.image.table.row_bytes }
{
    let table = &target.image.table;
    let mut bytes = [0; ROW_LEN];
    let row = &mut bytes[..row_len(target.wide)];
    put_row(target, slot, offset, row);
    let at = table.rows_at + u64::from(table.row_bytes) * u64::from(tile);
    amend_at(store, at, row)
}

// The bytes of a row.
fn row_len(wide: bool) -> usize
    ensures len { result ≡ 2 * descriptor_len wide }
    ensures most { result ≤ 32 }
{
    if wide { ROW_LEN } else { ROW_LEN / 2 }
}

// Makes the row of the tile whose code is in the slot and begins at this byte of the heap.
fn put_row(target: &Target, slot: &Slot, offset: u64, into: &mut [u8])
    requires target { IsTarget target.now }
    requires within { slot.now.job.len ≤ len slot.now.code }
    requires heap { offset + slot.now.job.len < (if target.now.wide then 2 ^ 63 else 2 ^ 31) }
    requires room { len into.old ≡ 2 * descriptor_len target.now.wide }
    ensures { into.new ≡ row_of (plan_to_write target.now) offset (coded_tile slot.now) }
{
    let none = described(0, 0);
    match slot.job.place {
        Place2::Coded => {
            let coded = described(coded_count(target, slot), offset);
            write_row(into, target.wide, &coded, &none);
        }
        Place2::Stored => {
            let stored = described(stored_count(target, slot), offset);
            write_row(into, target.wide, &none, &stored);
        }
    }
}

// A descriptor of so many elements, which begin at this byte of the heap.
fn described(count: u64, offset: u64) -> Descriptor
    ensures { result ≡ record { count = count; offset = offset } }
{
    Descriptor { count, offset }
}
