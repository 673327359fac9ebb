//! The picks of the tiles of a round, written to their places in what is cut out of the image.
ghost use Rattle.std.specs.Prelude.{ℕ, ◌≡◌, ◌+◌, ◌*◌, ◌/◌, ◌<◌, ◌≤◌, ◌≢◌, ◌^◌, IsTrue, ℤ, List, length as len, OnOk, slice_index, slice_index_or};
ghost use Rattle.fz_base.specs.Keeps.{SinkStays};
ghost use Rattle.fz_base.specs.Stop.{Writes};
ghost use Rattle.fz_grid.specs.Arrays.{product};
ghost use Rattle.fz_grid.specs.Overlap.{has_pixel};
ghost use Rattle.fz_grid.specs.Region.{IsDivided, lengths_of};
ghost use Rattle.fz_grid.specs.Sieve.{IsSieveOf, sieve_lengths};
ghost use Rattle.fz_grid.specs.Cutout.{part_lengths};
ghost use Rattle.fz_tile.specs.Pixels.{IsBitpix};
ghost use Rattle.fz_files.specs.Packed.{pixel_bits, tiles_in};
ghost use Rattle.fz_files.specs.Restored.{pixels_of};
ghost use Rattle.fz_pool.specs.Calls.{AreSameFrom};
ghost use Rattle.fz_pool.specs.Window.{HasSlotsFor, slot_size, WindowStays};
ghost use Rattle.fz_pool.specs.declared.slot.Slot.{Slot as SlotOf};
ghost use Rattle.fz_fetch.specs.Fetched.{HasTile, HaveTiles, HoldsPixels};
ghost use Rattle.fz_job.specs.Images.{HasSlotFor};
ghost use Rattle.fz_pixels.specs.Scattered.{CanBePicked, part_written, parts_written};

use crate::bytes::{pixel_len, place_count, put_picks};
use crate::runs::write_lines;
use fz_base::{Sink, Stop};
use fz_grid::{Grid, Sieve, cutout_axes, cutout_law, shape_law, tile_lines, tile_pixels_law};
use fz_head::Plan;
use fz_pool::{Slot, Window, put_law, sizes_law};
use fz_tile::plain_law;

/// Writes the picks of these tiles, which are in the first slots and have a pick each, to their places in what the sieve
/// cuts out of the image, whose data begin at this byte of the sink after byte 0.
pub fn scatter_picks<K: Sink>(
    sink: &mut K,
    data_at: u64,
    plan: &Plan,
    sieve: &Sieve,
    tiles: &[u32],
    window: &mut Window,
) -> Result<(), Stop>
    requires created { IsTrue (K.created sink.old) }
    requires behind { 0 < data_at }
    requires near { data_at + pixel_bits plan.now / 8 * product (sieve_lengths sieve.now) < 2 ^ 64 }
    requires divided { IsDivided plan.now.shape plan.now.tile }
    requires size { IsBitpix plan.now.bitpix }
    requires sieve { IsSieveOf plan.now.shape sieve.now }
    requires few { len tiles.now ≤ 2 * window.old.workers }
    requires window { HasSlotsFor (pixels_of plan.now 0) window.old }
    requires tiles { (i : ℕ) → i < len tiles.now → slice_index tiles.now i < tiles_in plan.now }
    requires picked { (i : ℕ) → i < len tiles.now → IsTrue
        (has_pixel (part_lengths (lengths_of plan.now.shape) (lengths_of plan.now.tile) sieve.now (slice_index tiles.now i))) }
    requires pixels { (pixels : List (List ℤ)) × HaveTiles plan.now tiles.now window.old.slots pixels }
    ensures written { OnOk result ((pixels : List (List ℤ)) → HaveTiles plan.now tiles.now window.old.slots pixels
        → K.contents sink.new ≡ parts_written plan.now sieve.now data_at tiles.now pixels (K.contents sink.old)) }
    ensures others { AreSameFrom (len tiles.now) window.old.slots window.new.slots }
    ensures stays { SinkStays K.created K.contents sink.old sink.new × WindowStays window.old window.new }
    ensures cause { Writes (K.tally sink.old) (K.tally sink.new) result }
{
    sizes_law();
    // This call shows that there are no more than 128 slots.
    let _workers = window.workers();
    for i in 0..tiles.len() as u32 {
        scatter_next(sink, data_at, plan, sieve, tiles[i as usize], window, i)?;
    }
    Ok(())
}

// Writes the picks of a tile, which is in this slot of the window.
fn scatter_next<K: Sink>(
    sink: &mut K,
    data_at: u64,
    plan: &Plan,
    sieve: &Sieve,
    tile: u32,
    window: &mut Window,
    i: u32,
) -> Result<(), Stop>
    requires tile { CanBePicked (K.created sink.old) plan.now sieve.now data_at tile }
    requires window { HasSlotsFor (pixels_of plan.now 0) window.old }
    requires slot { i < 2 * window.old.workers }
    requires pixels { (xs : List ℤ) × ((d : SlotOf) → HasTile plan.now tile (slice_index_or window.old.slots i d) xs) }
    ensures written { OnOk result ((xs : List ℤ) → ((d : SlotOf) → HasTile plan.now tile (slice_index_or window.old.slots i d) xs)
        → K.contents sink.new ≡ part_written plan.now sieve.now data_at tile xs (K.contents sink.old)) }
    ensures others { (k : ℕ) (d : SlotOf) → k ≢ i → slice_index_or window.new.slots k d ≡ slice_index_or window.old.slots k d }
    ensures stays { SinkStays K.created K.contents sink.old sink.new × WindowStays window.old window.new }
    ensures cause { Writes (K.tally sink.old) (K.tally sink.new) result }
{
    sizes_law();
    put_law();
    scatter_part(sink, data_at, plan, sieve, tile, window.slot_mut(i))
}

// Writes the picks of a tile, which is in the slot.
fn scatter_part<K: Sink>(
    sink: &mut K,
    data_at: u64,
    plan: &Plan,
    sieve: &Sieve,
    tile: u32,
    slot: &mut Slot,
) -> Result<(), Stop>
    requires tile { CanBePicked (K.created sink.old) plan.now sieve.now data_at tile }
    requires room { HasSlotFor (pixels_of plan.now 0) (slot_size slot.old) }
    requires pixels { (xs : List ℤ) × HasTile plan.now tile slot.old xs }
    ensures written { OnOk result ((xs : List ℤ) → HasTile plan.now tile slot.old xs
        → K.contents sink.new ≡ part_written plan.now sieve.now data_at tile xs (K.contents sink.old)) }
    ensures stays { SinkStays K.created K.contents sink.old sink.new × (slot_size slot.new ≡ slot_size slot.old) }
    ensures cause { Writes (K.tally sink.old) (K.tally sink.new) result }
{
    tile_pixels_law();
    shape_law();
    let numbers = slot.numbers.as_slice();
    write_part(
        sink,
        data_at,
        plan,
        sieve,
        tile,
        numbers,
        slot.code.as_mut_slice(),
    )
}

// Writes the picks of a tile, which these numbers hold: their plain bytes to the front of the code, and then to their
// places.
fn write_part<K: Sink>(
    sink: &mut K,
    data_at: u64,
    plan: &Plan,
    sieve: &Sieve,
    tile: u32,
    numbers: &[i32],
    code: &mut [u8],
) -> Result<(), Stop>
    requires tile { CanBePicked (K.created sink.old) plan.now sieve.now data_at tile }
    requires numbers { 2 * pixels_of plan.now tile ≤ len numbers.now }
    requires code { 8 * pixels_of plan.now tile ≤ len code.old }
    requires pixels { (xs : List ℤ) × HoldsPixels plan.now tile numbers.now xs }
    ensures written { OnOk result ((xs : List ℤ) → HoldsPixels plan.now tile numbers.now xs
        → K.contents sink.new ≡ part_written plan.now sieve.now data_at tile xs (K.contents sink.old)) }
    ensures stays { SinkStays K.created K.contents sink.old sink.new × (len code.new ≡ len code.old) }
    ensures cause { Writes (K.tally sink.old) (K.tally sink.new) result }
{
    cutout_law();
    shape_law();
    plain_law();
    let grid = Grid::new(plan.shape, plan.tile);
    // These calls show that no tile has more than 2^26 pixels, and that the sieve is one of the image.
    let _largest = grid.largest();
    let _cutout = cutout_axes(&plan.shape, sieve);
    let places = place_count(plan.bitpix, grid.tile_box(tile).pixels()) as usize;
    let lines = tile_lines(&grid, sieve, tile);
    let done = put_picks(plan.bitpix, &numbers[..places], lines, code);
    let lines = tile_lines(&grid, sieve, tile);
    let bytes = &code[..done as usize];
    write_lines(sink, data_at, pixel_len(plan.bitpix), lines, bytes)
}
