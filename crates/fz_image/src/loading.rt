//! The tiles of a round, read into the slots of the window.
ghost use Rattle.std.specs.Prelude.{◌≡◌, ◌+◌, ◌*◌, ◌/◌, ◌<◌, ◌≤◌, ◌^◌, unsigned_abs, take, length as len, OnOk};
ghost use Rattle.fz_pool.specs.Window.{IsPut, slot_size, WindowStays};
ghost use Rattle.fz_pool.specs.declared.slot.Slot.{Slot as SlotOf};
ghost use Rattle.fz_tile.specs.Pixels.{HoldPixels, IsBitpix, place_count as place_count_of};
ghost use Rattle.fz_tile.specs.Plain.{stored_pixels};
ghost use Rattle.fz_tile.specs.declared.coded.Place2.TheVariants.{Stored};
ghost use Rattle.fz_image.specs.Layout.{IsLayout};
ghost use Rattle.fz_image.specs.Strips.{HasStrips};
ghost use Rattle.fz_image.specs.Tiles.{AreLoaded, HasRoom, HaveRoom, HoldTile, IsLoaded, pixels_of};
ghost use Rattle.fz_image.specs.Working.{CanLoad, StaysLoading};

use crate::gather::read_region;
use crate::layout::Layout;
use crate::strips::{Strips, look_ahead};
use fz_base::{Source, Stop, log_law};
use fz_grid::{place_law, tiles_law};
use fz_pool::{Job, Slot, Window, put_law, sizes_law};
use fz_tile::{Place2, read_plain};

/// Reads so many tiles, from the first on, into the first slots of the window. What the strips have is not read again,
/// and lines of later tiles may be read with those of a tile.
pub fn load_round<S: Source>(
    source: &mut S,
    layout: &Layout,
    first: u32,
    window: &mut Window,
    count: u32,
    strips: &mut Strips,
    ahead: &mut [u8],
) -> Result<(), Stop>
    requires can { CanLoad (S.attached source.old) layout.now }
    requires tiles { first + count ≤ layout.now.tiles }
    requires window { HaveRoom layout.now window.old }
    requires near { count ≤ 2 * window.old.workers }
    requires strips { HasStrips (S.held source.old) strips.old ahead.old }
    ensures loaded { OnOk result (AreLoaded layout.now (S.held source.old) first count window.new) }
    ensures strips { HasStrips (S.held source.new) strips.new ahead.new }
    ensures stays { WindowStays window.old window.new
        × StaysLoading S.held S.attached S.ranges S.tally layout.now source.old source.new result
        × (len ahead.new ≡ len ahead.old) }
{
    log_law();
    put_law();
    for i in 0..count {
        load_next(source, layout, first + i, window, i, strips, ahead)?;
    }
    Ok(())
}

// Reads a tile into a slot of the window.
fn load_next<S: Source>(
    source: &mut S,
    layout: &Layout,
    tile: u32,
    window: &mut Window,
    i: u32,
    strips: &mut Strips,
    ahead: &mut [u8],
) -> Result<(), Stop>
    requires can { CanLoad (S.attached source.old) layout.now }
    requires tile { tile < layout.now.tiles }
    requires window { HaveRoom layout.now window.old }
    requires near { i < 2 * window.old.workers }
    requires strips { HasStrips (S.held source.old) strips.old ahead.old }
    ensures put { OnOk result ((x : SlotOf) × IsPut window.old i x window.new × IsLoaded layout.now (S.held source.old) tile x) }
    ensures strips { HasStrips (S.held source.new) strips.new ahead.new }
    ensures stays { WindowStays window.old window.new
        × StaysLoading S.held S.attached S.ranges S.tally layout.now source.old source.new result
        × (len ahead.new ≡ len ahead.old) }
{
    sizes_law();
    put_law();
    load_slot(source, layout, tile, window.slot_mut(i), strips, ahead)
}

// Reads the pixels of a tile into the slot, in which it is to be encoded.
fn load_slot<S: Source>(
    source: &mut S,
    layout: &Layout,
    tile: u32,
    slot: &mut Slot,
    strips: &mut Strips,
    ahead: &mut [u8],
) -> Result<(), Stop>
    requires can { CanLoad (S.attached source.old) layout.now }
    requires tile { tile < layout.now.tiles }
    requires room { HasRoom layout.now (slot_size slot.old) }
    requires strips { HasStrips (S.held source.old) strips.old ahead.old }
    ensures loaded { OnOk result (IsLoaded layout.now (S.held source.old) tile slot.new) }
    ensures strips { HasStrips (S.held source.new) strips.new ahead.new }
    ensures stays { StaysLoading S.held S.attached S.ranges S.tally layout.now source.old source.new result
        × (len ahead.new ≡ len ahead.old) × (slot_size slot.new ≡ slot_size slot.old) }
{
    slot.job = job_of(layout, tile, tile_pixels(layout, tile));
    let numbers = slot.numbers.as_mut_slice();
    load_tile(
        source,
        layout,
        tile,
        numbers,
        slot.code.as_mut_slice(),
        strips,
        ahead,
    )
}

// Reads the pixels of a tile: their bytes to the front of the code, and the pixels into the first numbers.
fn load_tile<S: Source>(
    source: &mut S,
    layout: &Layout,
    tile: u32,
    numbers: &mut [i32],
    code: &mut [u8],
    strips: &mut Strips,
    ahead: &mut [u8],
) -> Result<(), Stop>
    requires can { CanLoad (S.attached source.old) layout.now }
    requires tile { tile < layout.now.tiles }
    requires numbers { 2 * pixels_of layout.now tile ≤ len numbers.old }
    requires code { 8 * pixels_of layout.now tile ≤ len code.old }
    requires strips { HasStrips (S.held source.old) strips.old ahead.old }
    ensures holds { OnOk result (HoldTile layout.now (S.held source.old) tile numbers.new) }
    ensures strips { HasStrips (S.held source.new) strips.new ahead.new }
    ensures stays { StaysLoading S.held S.attached S.ranges S.tally layout.now source.old source.new result
        × (len ahead.new ≡ len ahead.old) × (len numbers.new ≡ len numbers.old) × (len code.new ≡ len code.old) }
{
    log_law();
    place_law();
    tiles_law();
    let region = layout.grid().tile_box(tile);
    let pixels = tile_pixels(layout, tile);
    look_ahead(source, layout, &region, strips, ahead)?;
    let bytes = &mut code[..layout.pixel_len as usize * pixels as usize];
    read_region(source, layout, &region, strips, ahead, bytes)?;
    read_front(layout.plan.bitpix, pixels, bytes, numbers);
    Ok(())
}

// Reads so many pixels into the first numbers.
fn read_front(bitpix: i32, pixels: u32, bytes: &[u8], numbers: &mut [i32])
    requires size { IsBitpix bitpix }
    requires bytes { len bytes.now ≡ unsigned_abs bitpix / 8 * pixels }
    requires room { 2 * pixels ≤ len numbers.old }
    ensures pixels { HoldPixels (unsigned_abs bitpix) (take (place_count_of (unsigned_abs bitpix) pixels) numbers.new)
        (stored_pixels (unsigned_abs bitpix) pixels bytes.now) }
    ensures len { len numbers.new ≡ len numbers.old }
{
    let places = place_count(bitpix, pixels);
    read_plain(bitpix, bytes, &mut numbers[..places]);
}

/// How many pixels a tile has.
pub fn tile_pixels(layout: &Layout, tile: u32) -> u32
    requires layout { IsLayout layout.now }
    requires tile { tile < layout.now.tiles }
    ensures pixels { result ≡ pixels_of layout.now tile }
    ensures some { 1 ≤ result }
    ensures most { result ≤ 2 ^ 26 }
    ensures no_larger { pixels_of layout.now tile ≤ pixels_of layout.now 0 }
{
    let grid = layout.grid();
    // This call says that no tile has more than 2^26 pixels.
    let _largest = grid.largest();
    grid.tile_box(tile).pixels() as u32
}

/// The job of a slot whose tile is to be encoded.
pub fn job_of(layout: &Layout, tile: u32, pixels: u32) -> Job
    ensures { result ≡ record {
      tile = tile;
      pixels = pixels;
      codec = layout.now.plan.codec;
      bitpix = layout.now.plan.bitpix;
      place
          = Stored;
      len = 0;
      total = 0;
    } }
{
    Job {
        tile,
        pixels,
        codec: layout.plan.codec,
        bitpix: layout.plan.bitpix,
        place: Place2::Stored,
        len: 0,
        total: 0,
    }
}

// How many places so many pixels have: two each at 64 bits.
fn place_count(bitpix: i32, pixels: u32) -> usize
    requires { IsBitpix bitpix }
    ensures count { result ≡ place_count_of (unsigned_abs bitpix) pixels }
    ensures few { result ≤ 2 * pixels }
{
    if bitpix == 64 {
        2 * pixels as usize
    } else {
        pixels as usize
    }
}
