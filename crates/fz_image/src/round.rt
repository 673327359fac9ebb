//! A round of tiles: how many it has, how they are read and encoded, and how they are written.
ghost use Rattle.std.specs.Prelude.{ℕ, ◌≡◌, ◌+◌, ◌*◌, ◌^◌, ◌<◌, ◌≤◌, Err, IsTrue, List, Option, length as len, OnErr, OnOk};
ghost use Rattle.fz_base.specs.Keeps.{SinkStays, SourceStays};
ghost use Rattle.fz_base.specs.declared.failure.Stop.TheVariants.{NoMemory};
ghost use Rattle.fz_base.specs.Sink.{written};
ghost use Rattle.fz_base.specs.Stop.{Codes, Writes};
ghost use Rattle.fz_files.specs.Packed.{heap_of};
ghost use Rattle.fz_pool.specs.Round.{coded_tiles};
ghost use Rattle.fz_image.specs.Held.{AreHeldBack, contents_of};
ghost use Rattle.fz_image.specs.Layout.{HasPixels, IsLayout, ReadsPixels, heap_at_of};
ghost use Rattle.fz_image.specs.Progress.{AreNext, tiles_written, with_heap, with_tiles};
ghost use Rattle.fz_image.specs.Strips.{HasStrips};
ghost use Rattle.fz_image.specs.Tiles.{AreEncodedTiles, AreLoaded, HaveRoom};
ghost use Rattle.fz_pool.specs.Window.{WindowStays};

use crate::descriptors::put_rows;
use crate::layout::Layout;
use crate::loading::load_round;
use crate::progress::{Underway, code_of};
use crate::strips::Strips;
use fz_base::{Gate, Sink, Source, Stop, output_law, write_behind};
use fz_job::hold_back;
use fz_pool::{Crew, Window, encode_window, round_law, sizes_law};
use fz_sum::sum_law;
use fz_tile::column_law;
use std::thread::Threads;

/// Who writes a table, and where its parts are.
#[derive(Drop)]
pub struct Writing<'a, 'c, R, G> {
    /// Who works.
    pub crew: &'c Crew<'a, R, G>,
    /// Where the parts of the image and of its table are.
    pub layout: Layout,
}

/// How many tiles the next round has, the first of which is this one: as many as the window has slots for, if so many are
/// left.
pub fn round_len(layout: &Layout, first: u32, window: &Window) -> u32
    requires left { first < layout.now.tiles }
    ensures some { 0 < result }
    ensures within { first + result ≤ layout.now.tiles }
    ensures near { result ≤ 2 * window.now.workers }
    ensures few { result ≤ 128 }
{
    (2 * window.workers()).min(layout.tiles - first)
}

/// Reads so many tiles into the first slots, and encodes them. Lines of later tiles may be read with those of these:
/// `strips` says which `ahead` has.
pub fn encode_tiles<R: Threads + Sync, S: Source, G: Gate>(
    writing: &Writing<'_, '_, R, G>,
    source: &mut S,
    first: u32,
    window: &mut Window,
    count: u32,
    strips: &mut Strips,
    ahead: &mut [u8],
) -> Result<(), Stop>
    requires layout { IsLayout writing.now.layout }
    requires pixels { HasPixels (S.attached source.old) writing.now.layout }
    requires tiles { first + count ≤ writing.now.layout.tiles }
    requires window { HaveRoom writing.now.layout window.old }
    requires near { count ≤ 2 * window.old.workers }
    requires strips { HasStrips (S.held source.old) strips.old ahead.old }
    ensures encoded { OnOk result (AreEncodedTiles writing.now.layout (S.held source.old) first count window.new) }
    ensures strips { HasStrips (S.held source.new) strips.new ahead.new }
    ensures stays { SourceStays S.held S.attached S.ranges source.old source.new × WindowStays window.old window.new
        × (len ahead.new ≡ len ahead.old) }
    ensures log { ReadsPixels writing.now.layout (S.ranges source.old) (S.ranges source.new) }
    ensures cause { Codes (S.tally source.old) (S.tally source.new) result }
{
    load_round(source, &writing.layout, first, window, count, strips, ahead)?;
    encode_loaded(writing.crew, &writing.layout, first, window, count)
}

/// Encodes the tiles in the first slots, which are so many from the first on.
pub fn encode_loaded<R: Threads + Sync, G: Gate>(
    crew: &Crew<'_, R, G>,
    layout: &Layout,
    first: u32,
    window: &mut Window,
    count: u32,
) -> Result<(), Stop>
    requires layout { IsLayout layout.now }
    requires window { HaveRoom layout.now window.old }
    requires near { count ≤ 2 * window.old.workers }
    requires loaded { (held : Option (List ℕ)) × AreLoaded layout.now held first count window.old }
    ensures encoded { OnOk result ((held : Option (List ℕ)) → AreLoaded layout.now held first count window.old
        → AreEncodedTiles layout.now held first count window.new) }
    ensures window { WindowStays window.old window.new }
    ensures no_memory { OnErr result (result ≡ Err NoMemory) }
{
    sizes_law();
    round_law();
    column_law();
    encode_window(crew.rt, window, count, crew.gate).map_err(|_| Stop::NoMemory)
}

/// Writes the tiles in the first slots, which were encoded: their codes go after the heap, and their rows after the rows.
/// The last bytes of the heap may be held back, before and then.
pub fn write_encoded<K: Sink>(
    sink: &mut K,
    layout: &Layout,
    underway: &mut Underway,
    window: &Window,
    tiles: u32,
    rows: &mut [u8],
    held: &mut [u8],
) -> Result<(), Stop>
    requires layout { IsLayout layout.now }
    requires created { IsTrue (K.created sink.old) }
    requires next { AreNext layout.now underway.old.progress.heap tiles window.now }
    requires tiles { underway.old.progress.tiles + tiles ≤ layout.now.tiles }
    requires summed { underway.old.progress.sum.count ≤ 2 ^ 60 }
    requires rows { layout.now.row_len * tiles ≤ len rows.old }
    requires held { AreHeldBack underway.old held.old }
    ensures progress { OnOk result (underway.new.progress ≡ with_tiles layout.now underway.old.progress (coded_tiles tiles window.now.slots)) }
    ensures contents { OnOk result (contents_of layout.now underway.new held.new (K.contents sink.new)
        ≡ tiles_written layout.now underway.old.progress (coded_tiles tiles window.now.slots)
        (contents_of layout.now underway.old held.old (K.contents sink.old))) }
    ensures held { OnOk result (AreHeldBack underway.new held.new) }
    ensures stays { SinkStays K.created K.contents sink.old sink.new × (len rows.new ≡ len rows.old)
        × (len held.new ≡ len held.old) }
    ensures cause { Writes (K.tally sink.old) (K.tally sink.new) result }
{
    output_law();
    let rows = &mut rows[..layout.row_len as usize * tiles as usize];
    put_rows(layout, window, tiles, underway.progress.heap, rows);
    let behind_rows = u64::from(layout.row_len) * u64::from(underway.progress.tiles);
    write_behind(sink, layout.rows_at + behind_rows, rows)?;
    underway.progress.add_rows(layout, tiles, rows);
    write_codes(sink, layout, underway, window, tiles, held)
}

// Has the bytes of the tiles in the first slots written after the heap, now or later.
fn write_codes<K: Sink>(
    sink: &mut K,
    layout: &Layout,
    underway: &mut Underway,
    window: &Window,
    tiles: u32,
    held: &mut [u8],
) -> Result<(), Stop>
    requires layout { IsLayout layout.now }
    requires created { IsTrue (K.created sink.old) }
    requires next { AreNext layout.now underway.old.progress.heap tiles window.now }
    requires summed { underway.old.progress.sum.count ≤ 2 ^ 61 }
    requires held { AreHeldBack underway.old held.old }
    ensures progress { OnOk result (underway.new.progress ≡ with_heap layout.now underway.old.progress (coded_tiles tiles window.now.slots)) }
    ensures contents { OnOk result (contents_of layout.now underway.new held.new (K.contents sink.new)
        ≡ written (heap_at_of layout.now + underway.old.progress.heap) (heap_of (coded_tiles tiles window.now.slots))
        (contents_of layout.now underway.old held.old (K.contents sink.old))) }
    ensures held { OnOk result (AreHeldBack underway.new held.new) }
    ensures stays { SinkStays K.created K.contents sink.old sink.new × (len held.new ≡ len held.old) }
    ensures cause { Writes (K.tally sink.old) (K.tally sink.new) result }
{
    output_law();
    sum_law();
    for i in 0..tiles {
        let slot = window.slot(i);
        hold_back(
            sink,
            layout.heap_at() + underway.progress.heap,
            code_of(slot),
            held,
            &mut underway.held_back,
        )?;
        underway.progress.add_tile(layout, slot);
    }
    Ok(())
}
