//! The tiles of a round, encoded and compared with the rows and the heap of the file.
ghost use Rattle.std.specs.Prelude.{ℕ, ◌≡◌, ◌+◌, ◌*◌, ◌^◌, ◌<◌, ◌≤◌, ℤ, List, Option, Some, length as len, slice_get, IfOk, IfSome};
ghost use Rattle.std.specs.List.{range_with_len};
ghost use Rattle.fz_base.specs.Keeps.{SourceStays};
ghost use Rattle.fz_base.specs.Source.{LogsWithin};
ghost use Rattle.fz_base.specs.Stop.{Codes, OnlyReads};
ghost use Rattle.fz_fetch.specs.Fetched.{HaveTiles};
ghost use Rattle.fz_image.specs.Layout.{IsLayout};
ghost use Rattle.fz_image.specs.Progress.{AreNext, with_heap, with_tiles};
ghost use Rattle.fz_image.specs.Tiles.{AreLoaded, HaveRoom, tiles_from};
ghost use Rattle.fz_pool.specs.Round.{coded_tiles};
ghost use Rattle.fz_pool.specs.Window.{IsPut, WindowStays};
ghost use Rattle.fz_pool.specs.declared.slot.Slot.{Slot as SlotOf};
ghost use Rattle.fz_compare.specs.Compared.{AreReady, ComparesCodes, ComparesHeap, ComparesRound, HasFewPixels, with_job};

use crate::bytes::has_bytes;
use fz_base::{Gate, Source, Stop, log_law};
use fz_image::{
    Layout, Progress, code_of, encode_loaded, job_of, put_rows, table_law, tile_pixels,
};
use fz_pool::{Crew, Slot, Window, put_law, sizes_law};
use fz_sum::sum_law;
use std::thread::Threads;

/// The bytes that are kept for the rows of a round, in which at most 128 tiles have 32 bytes each.
const ROWS_LEN: usize = 4096;

/// The tiles that come next, and where their table ends.
#[derive(Clone, Copy)]
pub(crate) struct Coming {
    /// How many tiles there are.
    pub(crate) count: u32,
    /// The first byte of the file after the table.
    pub(crate) end: u64,
}

/// Encodes the tiles in the first slots, which are the next ones, and compares their rows and codes with those of the
/// file, whose table ends before the byte `coming.end`. Answers what is then written of the table; none if they differ.
pub(crate) fn compare_round<R: Threads + Sync, S: Source, G: Gate>(
    crew: &Crew<'_, R, G>,
    source: &mut S,
    window: &mut Window,
    coming: Coming,
    layout: &Layout,
    progress: Progress,
    copy: &mut [u8],
) -> Result<Option<Progress>, Stop>
    requires within { (n : ℕ) × (S.attached source.old ≡ Some n) × (coming.end ≤ n) }
    requires ready { AreReady layout.now progress coming.count window.old }
    requires some { 0 < coming.count }
    requires few { coming.count ≤ 128 }
    requires near { coming.count ≤ 2 * window.old.workers }
    requires copy { 4096 < len copy.old }
    ensures compared { IfOk result (ComparesRound (S.held source.old) coming.end layout.now progress coming.count window.old.slots) }
    ensures stays { SourceStays S.held S.attached S.ranges source.old source.new × WindowStays window.old window.new
        × (len copy.new ≡ len copy.old) }
    ensures read { LogsWithin 0 coming.end (S.ranges source.old) (S.ranges source.new) }
    ensures cause { Codes (S.tally source.old) (S.tally source.new) result }
{
    log_law();
    table_law();
    set_jobs(layout, progress.tiles, window, coming.count);
    encode_loaded(crew, layout, progress.tiles, window, coming.count)?;
    let (rows, piece) = copy.split_at_mut(ROWS_LEN);
    compare_coded(source, window, coming, layout, progress, rows, piece)
}

// Has the tiles in the first slots encoded by the layout: their pixels are there.
fn set_jobs(layout: &Layout, first: u32, window: &mut Window, count: u32)
    requires layout { IsLayout layout.now }
    requires tiles { first + count ≤ layout.now.tiles }
    requires near { count ≤ 2 * window.old.workers }
    requires window { HaveRoom layout.now window.old }
    ensures loaded { (held : Option (List ℕ)) (pixels : List (List ℤ)) → HaveTiles layout.now.plan (range_with_len first count) window.old.slots pixels
        → IfSome held (λ u. pixels ≡ tiles_from layout.now u first count) → AreLoaded layout.now held first count window.new }
    ensures window { WindowStays window.old window.new }
{
    sizes_law();
    for i in 0..count {
        set_next(layout, first + i, window, i);
    }
}

// The same of the slot of one tile.
fn set_next(layout: &Layout, tile: u32, window: &mut Window, i: u32)
    requires layout { IsLayout layout.now }
    requires tile { tile < layout.now.tiles }
    requires window { HaveRoom layout.now window.old }
    requires near { i < 2 * window.old.workers }
    ensures put { (x : SlotOf) × (slice_get window.old.slots i ≡ Some x) × IsPut window.old i (with_job layout.now tile x) window.new }
    ensures pixels { HasFewPixels layout.now tile }
{
    put_law();
    sizes_law();
    set_job(layout, tile, window.slot_mut(i));
}

fn set_job(layout: &Layout, tile: u32, slot: &mut Slot)
    requires layout { IsLayout layout.now }
    requires tile { tile < layout.now.tiles }
    ensures slot { slot.new ≡ with_job layout.now tile slot.old }
    ensures pixels { HasFewPixels layout.now tile }
{
    slot.job = job_of(layout, tile, tile_pixels(layout, tile));
}

// Compares the rows and the codes of the tiles in the first slots, which were encoded.
fn compare_coded<S: Source>(
    source: &mut S,
    window: &Window,
    coming: Coming,
    layout: &Layout,
    progress: Progress,
    rows: &mut [u8],
    piece: &mut [u8],
) -> Result<Option<Progress>, Stop>
    requires within { (n : ℕ) × (S.attached source.old ≡ Some n) × (coming.end ≤ n) }
    requires layout { IsLayout layout.now }
    requires next { AreNext layout.now progress.heap coming.count window.now }
    requires tiles { progress.tiles + coming.count ≤ layout.now.tiles }
    requires some { 0 < coming.count }
    requires heap { progress.heap ≤ 2 ^ 43 }
    requires summed { progress.sum.count ≤ 2 ^ 60 }
    requires rows { layout.now.row_len * coming.count ≤ len rows.old }
    requires piece { 0 < len piece.old }
    ensures compared { IfOk result (λ c. IfSome (S.held source.old) (λ g. ComparesCodes g coming.end layout.now progress
        (coded_tiles coming.count window.now.slots) c)) }
    ensures progress { IfOk result (λ c. IfSome c (λ w. w ≡ with_tiles layout.now progress (coded_tiles coming.count window.now.slots))) }
    ensures stays { SourceStays S.held S.attached S.ranges source.old source.new × (len rows.new ≡ len rows.old)
        × (len piece.new ≡ len piece.old) }
    ensures read { LogsWithin 0 coming.end (S.ranges source.old) (S.ranges source.new) }
    ensures cause { OnlyReads (S.tally source.old) (S.tally source.new) result }
{
    log_law();
    sum_law();
    let mut written = progress;
    let rows = &mut rows[..layout.row_len as usize * coming.count as usize];
    put_rows(layout, window, coming.count, written.heap, rows);
    let at = layout.rows_at + u64::from(layout.row_len) * u64::from(written.tiles);
    let same = has_bytes(source, at, coming.end, rows, piece)?;
    if !same {
        return Ok(None);
    }
    written.add_rows(layout, coming.count, rows);
    compare_codes(source, window, coming, layout, written, piece)
}

// Compares the codes of the tiles in the first slots with the next bytes of the heap.
fn compare_codes<S: Source>(
    source: &mut S,
    window: &Window,
    coming: Coming,
    layout: &Layout,
    progress: Progress,
    piece: &mut [u8],
) -> Result<Option<Progress>, Stop>
    requires within { (n : ℕ) × (S.attached source.old ≡ Some n) × (coming.end ≤ n) }
    requires layout { IsLayout layout.now }
    requires next { AreNext layout.now progress.heap coming.count window.now }
    requires some { 0 < coming.count }
    requires heap { progress.heap ≤ 2 ^ 43 }
    requires summed { progress.sum.count ≤ 2 ^ 61 }
    requires piece { 0 < len piece.old }
    ensures compared { IfOk result (λ c. IfSome (S.held source.old) (λ g. ComparesHeap g coming.end layout.now progress
        (coded_tiles coming.count window.now.slots) c)) }
    ensures progress { IfOk result (λ c. IfSome c (λ w. w ≡ with_heap layout.now progress (coded_tiles coming.count window.now.slots))) }
    ensures stays { SourceStays S.held S.attached S.ranges source.old source.new × (len piece.new ≡ len piece.old) }
    ensures read { LogsWithin 0 coming.end (S.ranges source.old) (S.ranges source.new) }
    ensures cause { OnlyReads (S.tally source.old) (S.tally source.new) result }
{
    log_law();
    sum_law();
    let mut written = progress;
    for i in 0..coming.count {
        let slot = window.slot(i);
        let at = layout.heap_at() + written.heap;
        let same = has_bytes(source, at, coming.end, code_of(slot), piece)?;
        if !same {
            return Ok(None);
        }
        written.add_tile(layout, slot);
    }
    Ok(Some(written))
}
