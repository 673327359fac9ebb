//! What the new codes need: the first pass over the tiles with a pixel in the box. Nothing is written.
ghost use Rattle.std.specs.Prelude.{ℕ, ◌≡◌, ◌<◌, ◌≤◌, ◌^◌, ℤ, List, length as len, Some, None, IfOk, IfSome, OnOk};
ghost use Rattle.fz_base.specs.Keeps.{SourceStays};
ghost use Rattle.fz_base.specs.Ranges.{LogsIn};
ghost use Rattle.fz_base.specs.Source.{LogsWithin};
ghost use Rattle.fz_base.specs.Stop.{IfRefused};
ghost use Rattle.fz_job.specs.Images.{HaveRoom, fetched_ranges};
ghost use Rattle.fz_fetch.specs.Rows.{StandsWithin};
ghost use Rattle.fz_files.specs.FirstFault.{IsFirstRowFault, picked_rows, picked_tiles_of};
ghost use Rattle.fz_files.specs.Packed.{coded_count as coded_count_of, stored_count as stored_count_of};
ghost use Rattle.fz_head.specs.Planned.{pixel_len as pixel_len_of};
ghost use Rattle.fz_laws.specs.FirstPatchFault.{BoxHasNumbers, IsBoxFault};
ghost use Rattle.fz_laws.specs.NewNumbers.{box_tiles};
ghost use Rattle.fz_laws.specs.Writes.{new_codes};
ghost use Rattle.fz_pool.specs.Round.{coded_tile};
ghost use Rattle.fz_target.specs.Ends.{ReadsTiles};
ghost use Rattle.fz_target.specs.Measures.{HasRoom, has_room as has_room_of, is_measured as is_measured_of, measure_of, measured_with};
ghost use Rattle.fz_target.specs.Reads.{pixels_end};
ghost use Rattle.fz_target.specs.Targets.{GivesWithin, IsGivenTo, IsTarget, IsTargetIn, given_at};
ghost use Rattle.fz_target.specs.Told.{IfBoth};
ghost use Rattle.fz_pool.specs.Window.{WindowStays};

use crate::target::Target;
use crate::tile::prepare_tile;
use crate::walk::{code_slot, tiles_in_box};
use fz_base::{Fault, Kind, Place, Source, Stop, log_law, ranges_law};
use fz_head::coded_unit;
use fz_pool::{Slot, Window};
use fz_tile::{Place2, plain_len};
use std::thread::Threads;

/// The most bytes of a heap whose descriptors have 32 bits, of one that PCOUNT can say, and of a file.
const MOST_NARROW: u64 = 2_147_483_647;

const MOST_SAID: u64 = 999_999_999_999_999_999;

const MOST_FILE: u64 = 1 << 62;

/// What is known of new codes: their bytes, and the greatest count in each column.
#[derive(Clone, Copy, Debug)]
pub struct Measure {
    pub bytes: u64,
    pub coded: u64,
    pub stored: u64,
}

/// Measures the new codes of all tiles with a pixel in the box.
///
/// Refused: the lowest faulty row of these tiles, as `fetch_tiles` refuses it; and then with Limit at card 5, if the heap
/// with the new codes is longer than one may be.
pub fn measure_codes<R: Threads + Sync, D: Source, S: Source>(
    rt: &R,
    store: &mut D,
    patch: &mut S,
    target: &Target,
    window: &mut Window,
    copy: &mut [u8],
) -> Result<Measure, Stop>
    requires target { IsTarget target.now }
    requires within { StandsWithin (D.attached store.old) target.now.image.table }
    requires said { IfSome (D.held store.old) (λ f. IsTargetIn f target.now) }
    requires given { GivesWithin (S.attached patch.old) target.now }
    requires window { HaveRoom target.now.image window.old }
    requires copy { 4096 ≤ len copy.old }
    ensures measured { IfOk result (λ m. IfBoth (D.held store.old) (S.held patch.old) (λ f p. (corner : List ℕ) (olds : List (List ℤ))
        → IsGivenTo corner p target.now → BoxHasNumbers f target.now.header (given_at corner p) olds
        → m ≡ measure_of target.now.image.plan
        (new_codes target.now.image.plan (given_at corner p) (box_tiles target.now.image.plan (given_at corner p)) olds))) }
    ensures sound { OnOk result (IfSome (D.held store.old) (λ f. IsFirstRowFault f (picked_rows f target.now.sieve target.now.header) None)) }
    ensures room { IfOk result (λ m. HasRoom target.now m) }
    ensures fault { IfRefused result (λ x. IfBoth (D.held store.old) (S.held patch.old) (λ f p. (corner : List ℕ)
        → IsGivenTo corner p target.now → IsBoxFault f target.now.header (given_at corner p) (Some x))) }
    ensures read { IfSome (D.held store.old) (λ f. LogsIn (fetched_ranges f target.now.header (picked_tiles_of target.now.image.plan target.now.sieve))
        (D.ranges store.old) (D.ranges store.new)) }
    ensures pixels_read { LogsWithin target.now.pixels_at (pixels_end target.now) (S.ranges patch.old) (S.ranges patch.new) }
    ensures stays { SourceStays D.held D.attached D.ranges store.old store.new
        × SourceStays S.held S.attached S.ranges patch.old patch.new × WindowStays window.old window.new
        × (len copy.new ≡ len copy.old) }
    ensures cause { ReadsTiles (D.tally store.old) (D.tally store.new) (S.tally patch.old) (S.tally patch.new) result }
{
    log_law();
    ranges_law();
    let mut found = Measure {
        bytes: 0,
        coded: 0,
        stored: 0,
    };
    for tile in tiles_in_box(target) {
        prepare_tile(rt, store, patch, target, tile, window, copy)?;
        let slot = code_slot(target, window);
        found = with_tile(&found, target, slot);
    }
    if !has_room(target, found.bytes) {
        return Err(Stop::Refused(Fault {
            hdu: target.header.hdu,
            at: Place::Card(5),
            kind: Kind::Limit,
        }));
    }
    Ok(found)
}

// With the code in the slot.
fn with_tile(found: &Measure, target: &Target, slot: &Slot) -> Measure
    requires target { IsTarget target.now }
    requires within { slot.now.job.len ≤ len slot.now.code }
    requires few { found.now.bytes ≤ 2 ^ 62 }
    ensures { result ≡ measured_with target.now.image.plan found.now (coded_tile slot.now) }
{
    Measure {
        bytes: found.bytes + u64::from(slot.job.len),
        coded: found.coded.max(coded_count(target, slot)),
        stored: found.stored.max(stored_count(target, slot)),
    }
}

/// Whether the code in the slot has no more elements than was measured, in either column.
pub fn is_measured(found: &Measure, target: &Target, slot: &Slot) -> bool
    requires target { IsTarget target.now }
    requires within { slot.now.job.len ≤ len slot.now.code }
    ensures { result ≡ is_measured_of target.now.image.plan found.now (coded_tile slot.now) }
{
    coded_count(target, slot) <= found.coded && stored_count(target, slot) <= found.stored
}

/// How many elements the code in the slot has in the column of codes: bytes, or the words of a line list.
pub fn coded_count(target: &Target, slot: &Slot) -> u64
    requires within { slot.now.job.len ≤ len slot.now.code }
    ensures count { result ≡ coded_count_of target.now.image.plan (coded_tile slot.now) }
    ensures most { result ≤ slot.now.job.len }
{
    match slot.job.place {
        Place2::Coded => u64::from(slot.job.len / coded_unit(target.image.plan.codec)),
        Place2::Stored => 0,
    }
}

/// How many pixels it has in the column of plain bytes.
pub fn stored_count(target: &Target, slot: &Slot) -> u64
    requires target { IsTarget target.now }
    requires within { slot.now.job.len ≤ len slot.now.code }
    ensures count { result ≡ stored_count_of target.now.image.plan (coded_tile slot.now) }
    ensures most { result ≤ slot.now.job.len }
{
    match slot.job.place {
        Place2::Coded => 0,
        Place2::Stored => u64::from(slot.job.len) / pixel_len(target),
    }
}

// The bytes of a pixel.
fn pixel_len(target: &Target) -> u64
    requires target { IsTarget target.now }
    ensures len { result ≡ pixel_len_of target.now.image.plan.bitpix }
    ensures some { 0 < result }
{
    plain_len(target.image.plan.bitpix, 1)
}

// Whether a heap that is longer by so many bytes can be said.
fn has_room(target: &Target, more: u64) -> bool
    requires target { IsTarget target.now }
    requires more { more ≤ 2 ^ 61 }
    ensures { result ≡ has_room_of target.now more }
{
    let heap = target.header.pcount + more;
    let end = target.grown_end(more);
    (target.wide || heap <= MOST_NARROW) && heap <= MOST_SAID && end <= MOST_FILE
}
