//! The tiles of a round, written to their places in the image.
ghost use Rattle.std.specs.Prelude.{ℕ, ◌≡◌, ◌+◌, ◌*◌, ◌/◌, ◌<◌, ◌≤◌, ◌^◌, ◌≢◌, IsTrue, ℤ, List, length as len, OnOk, slice_index, slice_index_or};
ghost use Rattle.fz_base.specs.Keeps.{SinkStays};
ghost use Rattle.fz_base.specs.Stop.{Writes};
ghost use Rattle.fz_grid.specs.Arrays.{product};
ghost use Rattle.fz_grid.specs.Region.{IsDivided, lengths_of};
ghost use Rattle.fz_tile.specs.Pixels.{IsBitpix};
ghost use Rattle.fz_files.specs.Packed.{pixel_bits, tiles_in};
ghost use Rattle.fz_files.specs.Restored.{pixels_of};
ghost use Rattle.fz_pool.specs.Calls.{AreSameFrom};
ghost use Rattle.fz_pool.specs.Window.{HasSlotsFor, slot_size, WindowStays};
ghost use Rattle.fz_pool.specs.declared.slot.Slot.{Slot as SlotOf};
ghost use Rattle.fz_job.specs.Held.{IsHeld, settled};
ghost use Rattle.fz_fetch.specs.Fetched.{HasTile, HaveTiles, HoldsPixels};
ghost use Rattle.fz_job.specs.Images.{HasSlotFor};
ghost use Rattle.fz_pixels.specs.Scattered.{CanBeScattered, tile_written, tiles_written};

use crate::bytes::{pixel_len, put_tile};
use crate::runs::{PixelPlaces, write_region};
use fz_base::{Sink, Stop};
use fz_grid::{Grid, place_law, shape_law, tile_pixels_law};
use fz_head::Plan;
use fz_job::Held;
use fz_pool::{Slot, Window, put_law, sizes_law};

/// An image that is written.
#[derive(Clone, Copy)]
struct ImageAt<'p> {
    /// The byte of the sink, after byte 0, at which its data begin.
    data_at: u64,
    /// Its plan.
    plan: &'p Plan,
}

/// Writes the pixels of these tiles, which are in the first slots, to their places in the image, whose data begin at
/// this byte of the sink after byte 0.
pub fn scatter_tiles<K: Sink>(
    sink: &mut K,
    data_at: u64,
    plan: &Plan,
    tiles: &[u32],
    window: &mut Window,
) -> Result<(), Stop>
    requires created { IsTrue (K.created sink.old) }
    requires behind { 0 < data_at }
    requires near { data_at + pixel_bits plan.now / 8 * product (lengths_of plan.now.shape) < 2 ^ 64 }
    requires divided { IsDivided plan.now.shape plan.now.tile }
    requires size { IsBitpix plan.now.bitpix }
    requires few { len tiles.now ≤ 2 * window.old.workers }
    requires window { HasSlotsFor (pixels_of plan.now 0) window.old }
    requires tiles { (i : ℕ) → i < len tiles.now → slice_index tiles.now i < tiles_in plan.now }
    requires pixels { (pixels : List (List ℤ)) × HaveTiles plan.now tiles.now window.old.slots pixels }
    ensures written { OnOk result ((pixels : List (List ℤ)) → HaveTiles plan.now tiles.now window.old.slots pixels
        → K.contents sink.new ≡ tiles_written plan.now data_at tiles.now pixels (K.contents sink.old)) }
    ensures others { AreSameFrom (len tiles.now) window.old.slots window.new.slots }
    ensures stays { SinkStays K.created K.contents sink.old sink.new × WindowStays window.old window.new }
    ensures cause { Writes (K.tally sink.old) (K.tally sink.new) result }
{
    let mut back = Held::none();
    let no_room: &mut [u8] = &mut [];
    scatter_held(sink, data_at, plan, tiles, window, no_room, &mut back)
}

/// Writes as `scatter_tiles` does, now or later: bytes are held back as long as they are neighbours and there is room for
/// them.
pub fn scatter_held<K: Sink>(
    sink: &mut K,
    data_at: u64,
    plan: &Plan,
    tiles: &[u32],
    window: &mut Window,
    held: &mut [u8],
    back: &mut Held,
) -> Result<(), Stop>
    requires created { IsTrue (K.created sink.old) }
    requires behind { 0 < data_at }
    requires near { data_at + pixel_bits plan.now / 8 * product (lengths_of plan.now.shape) < 2 ^ 64 }
    requires divided { IsDivided plan.now.shape plan.now.tile }
    requires size { IsBitpix plan.now.bitpix }
    requires few { len tiles.now ≤ 2 * window.old.workers }
    requires window { HasSlotsFor (pixels_of plan.now 0) window.old }
    requires tiles { (i : ℕ) → i < len tiles.now → slice_index tiles.now i < tiles_in plan.now }
    requires pixels { (pixels : List (List ℤ)) × HaveTiles plan.now tiles.now window.old.slots pixels }
    requires held { IsHeld back.old held.old }
    ensures written { OnOk result ((pixels : List (List ℤ)) → HaveTiles plan.now tiles.now window.old.slots pixels
        → settled back.new held.new (K.contents sink.new)
        ≡ tiles_written plan.now data_at tiles.now pixels (settled back.old held.old (K.contents sink.old))) }
    ensures kept { OnOk result (IsHeld back.new held.new) }
    ensures others { AreSameFrom (len tiles.now) window.old.slots window.new.slots }
    ensures stays { SinkStays K.created K.contents sink.old sink.new × WindowStays window.old window.new
        × (len held.new ≡ len held.old) }
    ensures cause { Writes (K.tally sink.old) (K.tally sink.new) result }
{
    sizes_law();
    // This call shows that there are no more than 128 slots.
    let _workers = window.workers();
    for i in 0..tiles.len() as u32 {
        let image = ImageAt { data_at, plan };
        scatter_next(sink, image, tiles[i as usize], window, i, held, back)?;
    }
    Ok(())
}

// Has the pixels of a tile, which is in this slot of the window, written now or later.
fn scatter_next<K: Sink>(
    sink: &mut K,
    image: ImageAt<'_>,
    tile: u32,
    window: &mut Window,
    i: u32,
    held: &mut [u8],
    back: &mut Held,
) -> Result<(), Stop>
    requires tile { CanBeScattered (K.created sink.old) image.plan.now image.data_at tile }
    requires window { HasSlotsFor (pixels_of image.plan.now 0) window.old }
    requires slot { i < 2 * window.old.workers }
    requires pixels { (xs : List ℤ) × ((d : SlotOf) → HasTile image.plan.now tile (slice_index_or window.old.slots i d) xs) }
    requires held { IsHeld back.old held.old }
    ensures written { OnOk result ((xs : List ℤ) → ((d : SlotOf) → HasTile image.entry.plan.now tile (slice_index_or window.old.slots i d) xs)
        → settled back.new held.new (K.contents sink.new)
        ≡ tile_written image.entry.plan.now image.entry.data_at tile xs (settled back.old held.old (K.contents sink.old))) }
    ensures kept { OnOk result (IsHeld back.new held.new) }
    ensures others { (k : ℕ) (d : SlotOf) → k ≢ i → slice_index_or window.new.slots k d ≡ slice_index_or window.old.slots k d }
    ensures stays { SinkStays K.created K.contents sink.old sink.new × WindowStays window.old window.new
        × (len held.new ≡ len held.old) }
    ensures cause { Writes (K.tally sink.old) (K.tally sink.new) result }
{
    sizes_law();
    put_law();
    scatter_tile(sink, image, tile, window.slot_mut(i), held, back)
}

// Has the pixels of a tile, which is in the slot, written now or later.
fn scatter_tile<K: Sink>(
    sink: &mut K,
    image: ImageAt<'_>,
    tile: u32,
    slot: &mut Slot,
    held: &mut [u8],
    back: &mut Held,
) -> Result<(), Stop>
    requires tile { CanBeScattered (K.created sink.old) image.plan.now image.data_at tile }
    requires room { HasSlotFor (pixels_of image.plan.now 0) (slot_size slot.old) }
    requires pixels { (xs : List ℤ) × HasTile image.plan.now tile slot.old xs }
    requires held { IsHeld back.old held.old }
    ensures written { OnOk result ((xs : List ℤ) → HasTile image.entry.plan.now tile slot.old xs
        → settled back.new held.new (K.contents sink.new)
        ≡ tile_written image.entry.plan.now image.entry.data_at tile xs (settled back.old held.old (K.contents sink.old))) }
    ensures kept { OnOk result (IsHeld back.new held.new) }
    ensures stays { SinkStays K.created K.contents sink.old sink.new × (len held.new ≡ len held.old)
        × (slot_size slot.new ≡ slot_size slot.old) }
    ensures cause { Writes (K.tally sink.old) (K.tally sink.new) result }
{
    tile_pixels_law();
    shape_law();
    let numbers = slot.numbers.as_slice();
    write_tile(
        sink,
        image,
        tile,
        numbers,
        slot.code.as_mut_slice(),
        held,
        back,
    )
}

// Has the pixels of a tile, which these numbers hold, written: their plain bytes to the front of the code, and then to
// their places, now or later.
fn write_tile<K: Sink>(
    sink: &mut K,
    image: ImageAt<'_>,
    tile: u32,
    numbers: &[i32],
    code: &mut [u8],
    held: &mut [u8],
    back: &mut Held,
) -> Result<(), Stop>
    requires tile { CanBeScattered (K.created sink.old) image.plan.now image.data_at tile }
    requires numbers { 2 * pixels_of image.plan.now tile ≤ len numbers.now }
    requires code { 8 * pixels_of image.plan.now tile ≤ len code.old }
    requires pixels { (xs : List ℤ) × HoldsPixels image.plan.now tile numbers.now xs }
    requires held { IsHeld back.old held.old }
    ensures written { OnOk result ((xs : List ℤ) → HoldsPixels image.entry.plan.now tile numbers.now xs
        → settled back.new held.new (K.contents sink.new)
        ≡ tile_written image.entry.plan.now image.entry.data_at tile xs (settled back.old held.old (K.contents sink.old))) }
    ensures kept { OnOk result (IsHeld back.new held.new) }
    ensures stays { SinkStays K.created K.contents sink.old sink.new × (len held.new ≡ len held.old)
        × (len code.new ≡ len code.old) }
    ensures cause { Writes (K.tally sink.old) (K.tally sink.new) result }
{
    place_law();
    shape_law();
    let plan = image.plan;
    let grid = Grid::new(plan.shape, plan.tile);
    // This call shows that no tile has more than 2^26 pixels.
    let _largest = grid.largest();
    let region = grid.tile_box(tile);
    let pixels = region.pixels();
    put_tile(plan.bitpix, pixels as u32, numbers, code);
    let len = pixel_len(plan.bitpix);
    let bytes = &code[..len as usize * pixels as usize];
    let places = PixelPlaces {
        data_at: image.data_at,
        pixel_len: len,
        shape: plan.shape,
    };
    write_region(sink, places, &region, bytes, held, back)
}
