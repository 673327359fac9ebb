//! The image that is in a packed table, written whole.

ghost use Rattle.std.specs.Prelude.{ℕ, ◌≡◌, ◌+◌, ◌-◌, ◌*◌, ◌/◌, ◌^◌, ◌≤◌, ◌<◌, IsTrue, Some, map, length as len, IfOk, IfSome, OnOk};
ghost use Rattle.std.specs.List.{range_with_len};
ghost use Rattle.fz_base.specs.Sink.{written};
ghost use Rattle.fz_base.specs.Ranges.{LogsIn};
ghost use Rattle.fz_base.specs.Stop.{IfRefused, Writes};
ghost use Rattle.fz_block.specs.Facts.{IsHeaderOf};
ghost use Rattle.fz_block.specs.Hdus.{cards_of, header_bytes};
ghost use Rattle.fz_grid.specs.Arrays.{product};
ghost use Rattle.fz_grid.specs.Region.{IsDivided, lengths_of};
ghost use Rattle.fz_tile.specs.Pixels.{IsBitpix};
ghost use Rattle.fz_head.specs.Conditions.{IsPackedPlan};
ghost use Rattle.fz_head.specs.PlainHeader.{plain_header};
ghost use Rattle.fz_files.specs.FirstFault.{IsFirstRowFault, image_row, rows_of};
ghost use Rattle.fz_files.specs.Packed.{pixel_bits};
ghost use Rattle.fz_files.specs.Restored.{pixels_of};
ghost use Rattle.fz_pool.specs.Window.{HasSlotsFor, WindowStays};
ghost use Rattle.fz_fetch.specs.Ahead.{IsAhead};
ghost use Rattle.fz_job.specs.Images.{HaveRoom};
ghost use Rattle.fz_job.specs.Again.{IsAgain};
ghost use Rattle.fz_base.specs.Keeps.{SinkStays, SourceStays};
ghost use Rattle.fz_files.specs.Touched.{image_ranges};
ghost use Rattle.fz_job.specs.Behind.{HoldsBytes, written_behind};
ghost use Rattle.fz_job.specs.Held.{IsHeld, settled};
ghost use Rattle.fz_unpack.specs.Behind.{HoldsImage, IsHduFault};
ghost use Rattle.fz_job.specs.Clauses.{IsOfSomeRow};
ghost use Rattle.fz_unpack.specs.Images.{AreWrittenTiles, CanRestore, HoldsPixels, StaysRestoring};
ghost use Rattle.fz_job.specs.Workspace.{SpaceStays};
ghost use Rattle.fz_job.specs.Keeps.{Rewrites};

use crate::restore::Restoring;
use crate::turns::write_by_turns;
use fz_base::{Gate, Sink, Source, Stop, output_law, ranges_law, write_behind};
use fz_block::{BLOCK_LEN, Header};
use fz_checks::PackedImage;
use fz_fetch::{Ahead, MOST_TILES, ROWS_LEN, fetch_ahead, number_tiles};
use fz_grid::{Grid, shape_law, tiles_law, volume};
use fz_head::{Plan, to_plain};
use fz_job::{Held, Workspace, hdus_law, left_for_last, write_fill, write_pieces};
use fz_pixels::{scatter_held, scattered_law};
use fz_pool::{BY_TURNS, Crew, Window};
use fz_tile::{plain_law, plain_len};
use std::thread::Threads;

/// A round of tiles: which, what was read before it is wanted, and what is held back.
#[derive(Clone, Copy)]
pub(crate) struct Round {
    /// The first tile.
    pub(crate) first: u32,
    /// So many tiles.
    pub(crate) count: u32,
    /// What the buffer of rows has.
    pub(crate) ahead: Ahead,
    /// What the buffer of pixels has.
    pub(crate) back: Held,
}

/// Writes the image of a packed HDU, whose header is in the workspace, from this byte of the sink on, but not byte 0 of
/// the file, and answers the byte after it.
pub(crate) fn write_image<R: Threads + Sync, S: Source, K: Sink, G: Gate>(
    crew: &Crew<'_, R, G>,
    source: &mut S,
    sink: &mut K,
    window: &mut Window,
    header: &Header,
    image: &PackedImage,
    at: u64,
    space: &mut Workspace,
) -> Result<u64, Stop>
    requires again { (n : ℕ) × (n < 2 ^ 64) × (S.attached source.old ≡ Some n)
        × IsAgain (S.held source.old) n space.old.header (record { header = header.now; image = Some image.now }) }
    requires near { at + 2 ^ 46 ≤ 2 ^ 63 }
    requires created { IsTrue (K.created sink.old) }
    requires window { HasSlotsFor (pixels_of image.now.plan 0) window.old }
    requires translated { len space.old.header + 2880 ≤ len space.old.translated }
    requires copy { 4096 ≤ len space.old.copy }
    ensures image { IfOk result (λ end. IfSome (S.held source.old)
        (λ g. HoldsImage header.now g at end (K.contents sink.old) (K.contents sink.new))) }
    ensures fault { IfRefused result (λ x. IfSome (S.held source.old) (λ g. IsHduFault g header.now x)) }
    ensures end { IfOk result (λ end. (at < end) × (end ≤ at + 2 ^ 45)) }
    ensures stays { SourceStays S.held S.attached S.ranges source.old source.new
        × SinkStays K.created K.contents sink.old sink.new × SpaceStays space.old space.new
        × WindowStays window.old window.new }
    ensures row { IfRefused result IsOfSomeRow }
    ensures read { IfSome (S.held source.old) (λ g. LogsIn (image_ranges g header.now) (S.ranges source.old) (S.ranges source.new)) }
    ensures cause { Rewrites (S.tally source.old) (S.tally source.new) (K.tally sink.old) (K.tally sink.new) result }
{
    output_law();
    plain_law();
    let buf = &space.header.as_slice()[..BLOCK_LEN * header.blocks as usize];
    let made = space.translated.as_mut_slice();
    let data_at = write_plain_header(sink, at, buf, header, &image.plan, made)?;
    let copy = space.copy.as_mut_slice();
    let tiles = Grid::new(image.plan.shape, image.plan.tile).tile_count();
    let asked = Restoring {
        crew,
        header: *header,
        image: *image,
        data_at,
        tiles,
    };
    write_tiles(&asked, source, sink, window, copy)?;
    write_fill(sink, data_at, data_len(image), copy)
}

// Writes the header of the image that a packed header stands for, without byte 0 of the file, and answers the byte
// after it.
fn write_plain_header<K: Sink>(
    sink: &mut K,
    at: u64,
    buf: &[u8],
    header: &Header,
    plan: &Plan,
    made: &mut [u8],
) -> Result<u64, Stop>
    requires header { IsHeaderOf buf.now header.now }
    requires plan { IsPackedPlan buf.now header.now plan.now }
    requires room { len buf.now + 2880 ≤ len made.old }
    requires near { at + 2 ^ 46 ≤ 2 ^ 63 }
    requires created { IsTrue (K.created sink.old) }
    ensures header { IfOk result (λ end. HoldsBytes (header_bytes (plain_header (cards_of buf.now))) at end (K.contents sink.old)
        (K.contents sink.new)) }
    ensures end { IfOk result (λ end. (at < end) × (end ≤ at + 2 ^ 20)) }
    ensures stays { SinkStays K.created K.contents sink.old sink.new × (len made.new ≡ len made.old) }
    ensures cause { Writes (K.tally sink.old) (K.tally sink.new) result }
{
    let len = to_plain(buf, header, plan, made);
    write_header(sink, at, &made[..len])?;
    Ok(at + len as u64)
}

// Writes a header, without byte 0 of the file.
fn write_header<K: Sink>(sink: &mut K, at: u64, header: &[u8]) -> Result<(), Stop>
    requires created { IsTrue (K.created sink.old) }
    requires near { at + 1 < 2 ^ 64 }
    requires some { 0 < len header.now }
    ensures written { OnOk result (K.contents sink.new ≡ written_behind at header.now (K.contents sink.old)) }
    ensures sink { SinkStays K.created K.contents sink.old sink.new }
    ensures cause { Writes (K.tally sink.old) (K.tally sink.new) result }
{
    let skipped = left_for_last(at);
    write_behind(sink, at + skipped, &header[skipped as usize..])
}

// The bytes of the image.
fn data_len(image: &PackedImage) -> u64
    requires divided { IsDivided image.now.plan.shape image.now.plan.tile }
    requires size { IsBitpix image.now.plan.bitpix }
    ensures len { result ≡ pixel_bits image.now.plan / 8 * product (lengths_of image.now.plan.shape) }
    ensures most { result ≤ 2 ^ 43 }
{
    plain_len(image.plan.bitpix, volume(&image.plan.shape))
}

// Writes the pixels of all tiles, round by round or by turns.
fn write_tiles<R: Threads + Sync, S: Source, K: Sink, G: Gate>(
    asked: &Restoring<'_, '_, R, G>,
    source: &mut S,
    sink: &mut K,
    window: &mut Window,
    rows: &mut [u8],
) -> Result<(), Stop>
    requires image { CanRestore (S.held source.old) (S.attached source.old) asked.now.header asked.now.image asked.now.data_at asked.now.tiles }
    requires created { IsTrue (K.created sink.old) }
    requires window { HaveRoom asked.now.image window.old }
    requires rows { 4096 ≤ len rows.old }
    ensures pixels { OnOk result (IfSome (S.held source.old)
        (λ g. HoldsPixels g asked.now.header asked.now.data_at (K.contents sink.old) (K.contents sink.new))) }
    ensures fault { IfRefused result (λ x. IfSome (S.held source.old) (λ g. IsFirstRowFault g (rows_of g asked.now.header) (Some x))) }
    ensures stays { WindowStays window.old window.new
        × StaysRestoring S.held S.attached S.ranges S.tally K.created K.contents K.tally asked.now.header source.old
        source.new sink.old sink.new result × (len rows.new ≡ len rows.old) }
{
    scattered_law();
    shape_law();
    tiles_law();
    let tiles = asked.tiles;
    if window.workers() >= BY_TURNS && tiles > 2 * window.workers() {
        return write_by_turns(asked, source, sink, window, rows);
    }
    write_gathered(asked, source, sink, window, rows)
}

// The same round by round: what is short is read and written together with its neighbours. The copy buffer has rows, then
// records, and then pixels that are held back.
fn write_gathered<R: Threads + Sync, S: Source, K: Sink, G: Gate>(
    asked: &Restoring<'_, '_, R, G>,
    source: &mut S,
    sink: &mut K,
    window: &mut Window,
    copy: &mut [u8],
) -> Result<(), Stop>
    requires image { CanRestore (S.held source.old) (S.attached source.old) asked.now.header asked.now.image asked.now.data_at asked.now.tiles }
    requires created { IsTrue (K.created sink.old) }
    requires window { HaveRoom asked.now.image window.old }
    requires copy { 4096 ≤ len copy.old }
    ensures pixels { OnOk result (IfSome (S.held source.old)
        (λ g. AreWrittenTiles g asked.now.header asked.now.image.plan asked.now.data_at (range_with_len 0 asked.now.tiles) (K.contents sink.old)
        (K.contents sink.new))) }
    ensures fault { IfRefused result (λ x. IfSome (S.held source.old) (λ g. IsFirstRowFault g (rows_of g asked.now.header) (Some x))) }
    ensures stays { WindowStays window.old window.new
        × StaysRestoring S.held S.attached S.ranges S.tally K.created K.contents K.tally asked.now.header source.old
        source.new sink.old sink.new result × (len copy.new ≡ len copy.old) }
{
    let half = ROWS_LEN + (copy.len() - ROWS_LEN) / 2;
    let (buf, held) = copy.split_at_mut(half);
    let mut back = Held::none();
    write_rounds(asked, source, sink, window, buf, held, &mut back)?;
    write_pieces(sink, held, &back)
}

// The same, but the last pixels may be held back.
fn write_rounds<R: Threads + Sync, S: Source, K: Sink, G: Gate>(
    asked: &Restoring<'_, '_, R, G>,
    source: &mut S,
    sink: &mut K,
    window: &mut Window,
    buf: &mut [u8],
    held: &mut [u8],
    back: &mut Held,
) -> Result<(), Stop>
    requires image { CanRestore (S.held source.old) (S.attached source.old) asked.now.header asked.now.image asked.now.data_at asked.now.tiles }
    requires created { IsTrue (K.created sink.old) }
    requires window { HaveRoom asked.now.image window.old }
    requires buffer { 4096 ≤ len buf.old }
    requires held { IsHeld back.old held.old }
    ensures pixels { OnOk result (IfSome (S.held source.old)
        (λ g. AreWrittenTiles g asked.now.header asked.now.image.plan asked.now.data_at (range_with_len 0 asked.now.tiles)
        (settled back.old held.old (K.contents sink.old)) (settled back.new held.new (K.contents sink.new)))) }
    ensures kept { OnOk result (IsHeld back.new held.new) }
    ensures fault { IfRefused result (λ x. IfSome (S.held source.old) (λ g. IsFirstRowFault g (rows_of g asked.now.header) (Some x))) }
    ensures stays { WindowStays window.old window.new
        × StaysRestoring S.held S.attached S.ranges S.tally K.created K.contents K.tally asked.now.header source.old
        source.new sink.old sink.new result × (len buf.new ≡ len buf.old) × (len held.new ≡ len held.old) }
{
    ranges_law();
    scattered_law();
    let mut ahead = Ahead::none();
    let mut first = 0;
    while first < asked.tiles {
        let count = (2 * window.workers()).min(asked.tiles - first);
        let mut round = Round {
            first,
            count,
            ahead,
            back: *back,
        };
        write_round(asked, source, sink, window, buf, held, &mut round)?;
        ahead = round.ahead;
        *back = round.back;
        first += count;
    }
    Ok(())
}

// Writes the pixels of the tiles of a round, now or later.
fn write_round<R: Threads + Sync, S: Source, K: Sink, G: Gate>(
    asked: &Restoring<'_, '_, R, G>,
    source: &mut S,
    sink: &mut K,
    window: &mut Window,
    buf: &mut [u8],
    held: &mut [u8],
    round: &mut Round,
) -> Result<(), Stop>
    requires image { CanRestore (S.held source.old) (S.attached source.old) asked.now.header asked.now.image asked.now.data_at asked.now.tiles }
    requires tiles { round.old.first + round.old.count ≤ asked.now.tiles }
    requires near { round.old.count ≤ 2 * window.old.workers }
    requires few { round.old.count ≤ 128 }
    requires created { IsTrue (K.created sink.old) }
    requires window { HaveRoom asked.now.image window.old }
    requires ahead { IsAhead (S.held source.old) asked.now.image.table buf.old round.old.ahead }
    requires held { IsHeld round.old.back held.old }
    ensures pixels { OnOk result (IfSome (S.held source.old)
        (λ g. AreWrittenTiles g asked.now.header asked.now.image.plan asked.now.data_at (range_with_len round.old.first round.old.count)
        (settled round.old.back held.old (K.contents sink.old)) (settled round.new.back held.new (K.contents sink.new)))) }
    ensures kept { OnOk result (IsHeld round.new.back held.new) }
    ensures fault { IfRefused result (λ x. IfSome (S.held source.old)
        (λ g. IsFirstRowFault g (map (image_row asked.now.header) (range_with_len round.old.first round.old.count)) (Some x))) }
    ensures ahead { IsAhead (S.held source.new) asked.now.image.table buf.new round.new.ahead }
    ensures stays { WindowStays window.old window.new
        × StaysRestoring S.held S.attached S.ranges S.tally K.created K.contents K.tally asked.now.header source.old
        source.new sink.old sink.new result × (len buf.new ≡ len buf.old) × (len held.new ≡ len held.old) }
{
    hdus_law();
    let mut numbers = [0; MOST_TILES];
    let tiles = &mut numbers[..round.count as usize];
    number_tiles(round.first, tiles);
    fetch_ahead(
        asked.crew,
        source,
        &asked.header,
        &asked.image,
        tiles,
        buf,
        &mut round.ahead,
        window,
    )?;
    scatter_held(
        sink,
        asked.data_at,
        &asked.image.plan,
        tiles,
        window,
        held,
        &mut round.back,
    )
}
