//! The table of an image, written whole.
ghost use Rattle.std.specs.Prelude.{ℕ, ◌≡◌, ◌+◌, ◌-◌, ◌*◌, ◌<◌, ◌≤◌, ◌^◌, IsTrue, true, codes, Some, IfOk, IfSome, OnOk, replicate, length as len};
ghost use Rattle.fz_base.specs.Keeps.{SinkStays, SourceStays};
ghost use Rattle.fz_base.specs.Sink.{written};
ghost use Rattle.fz_base.specs.Source.{LogsWithin, Reads};
ghost use Rattle.fz_base.specs.Stop.{CodesAndWrites, Writes};
ghost use Rattle.fz_block.specs.Cards.{card_at};
ghost use Rattle.fz_block.specs.Checks.{is_set};
ghost use Rattle.fz_block.specs.Facts.{IsHeaderOf};
ghost use Rattle.fz_block.specs.Hdus.{cards_of, header_bytes};
ghost use Rattle.fz_block.specs.Header.{data_start_of, next_start_of, whole_blocks_of};
ghost use Rattle.fz_grid.specs.Arrays.{product};
ghost use Rattle.fz_grid.specs.Grid.{tile_lengths};
ghost use Rattle.fz_grid.specs.Region.{lengths_of};
ghost use Rattle.fz_head.specs.Conditions.{AreShort, IsPackPlan};
ghost use Rattle.fz_head.specs.PackedHeader.{packed_header};
ghost use Rattle.fz_head.specs.declared.totals.Totals.{Totals as TotalsOf};
ghost use Rattle.fz_pool.specs.Window.{HasSlotsFor, WindowStays};
ghost use Rattle.fz_image.specs.Held.{AreHeldBack, IsUnderwayFrom};
ghost use Rattle.fz_image.specs.Image.{HoldsCodes, HoldsTable};
ghost use Rattle.fz_image.specs.Progress.{IsWritten};
ghost use Rattle.fz_image.specs.Tiles.{HaveRoom, codes_from};
ghost use Rattle.fz_image.specs.Working.{CanPack, StaysPacking};

use crate::turns::{has_turns, write_by_turns};
use fz_base::{Gate, Sink, Source, Stop, log_law, output_law, write_behind};
use fz_block::{Header, cards_law};
use fz_checks::pack_plan_law;
use fz_head::{Plan, Totals, sizes_law, sum_cards_law, to_packed, whole_cards_law};
use fz_image::{
    Layout, Progress, Strips, Underway, Writing, encode_tiles, make_header, round_len,
    write_encoded,
};
use fz_job::{write_fill, write_held};
use fz_pool::{Crew, Window};
use fz_sum::sum_law;
use fz_tile::slice_law;
use std::thread::Threads;

// So many bytes are kept for the rows of a round, in which at most 128 tiles have 32 bytes each.
const ROWS_LEN: usize = 4096;

/// An image that is to be packed, and the place of its table.
#[derive(Clone, Copy)]
pub struct ImageToPack<'b> {
    /// The bytes of its header.
    pub buf: &'b [u8],
    /// The facts of its header.
    pub header: Header,
    /// How it is packed.
    pub plan: Plan,
    /// Whether the table has DATASUM and CHECKSUM.
    pub sums: bool,
    /// The byte of the sink, after byte 0, at which the table begins.
    pub at: u64,
}

/// Packs an image: writes its table from a byte of the sink after byte 0 on, and answers the byte after it
/// (FITS 4.0, section 10.1).
///
/// `made` has room for a header that is a block longer, and `copy` for the rows of a round, for lines that are read before
/// they are wanted, and for codes that are held back; the slots of the window are those of a tile of the plan or of a larger
/// one.
pub fn write_image<R: Threads + Sync, S: Source, K: Sink, G: Gate>(
    crew: &Crew<'_, R, G>,
    source: &mut S,
    sink: &mut K,
    image: &ImageToPack<'_>,
    made: &mut [u8],
    copy: &mut [u8],
    window: &mut Window,
) -> Result<u64, Stop>
    requires header { IsHeaderOf image.now.buf.now image.now.header }
    requires simple { image.now.header.hdu ≡ 0 → is_set (codes "SIMPLE") (card_at image.now.buf.now 0) ≡ true }
    requires within { (n : ℕ) × (S.attached source.old ≡ Some n) × (next_start_of image.now.header ≤ n) }
    requires end { next_start_of image.now.header ≤ 2 ^ 62 }
    requires read { Reads (S.held source.old) image.now.header.start image.now.buf.now }
    requires plan { IsPackPlan image.now.buf.now image.now.header image.now.sums image.now.plan }
    requires created { IsTrue (K.created sink.old) }
    requires at { (0 < image.now.at) × (image.now.at + 2 ^ 45 ≤ 2 ^ 63) }
    requires made { len image.now.buf.now + 2880 ≤ len made.old }
    requires copy { 4096 ≤ len copy.old }
    requires window { HasSlotsFor (product (tile_lengths (lengths_of image.now.plan.shape) (lengths_of image.now.plan.tile) 0)) window.old }
    ensures table { IfOk result (λ end. IfSome (S.held source.old)
        (λ g. HoldsTable image.now.sums image.now.plan image.now.header g image.now.at end (K.contents sink.old) (K.contents sink.new))) }
    ensures end { IfOk result (λ end. (image.now.at ≤ end) × (end ≤ image.now.at + 2 ^ 45)) }
    ensures stays { SourceStays S.held S.attached S.ranges source.old source.new
        × SinkStays K.created K.contents sink.old sink.new × WindowStays window.old window.new
        × (len made.new ≡ len made.old) × (len copy.new ≡ len copy.old) }
    ensures log { LogsWithin (data_start_of image.now.header) (next_start_of image.now.header) (S.ranges source.old) (S.ranges source.new) }
    ensures cause { CodesAndWrites (S.tally source.old) (S.tally source.new) (K.tally sink.old) (K.tally sink.new) result }
{
    log_law();
    pack_plan_law();
    slice_law();
    let rows_at = image.at + header_len(image, made);
    let layout = Layout::of(&image.header, &image.plan, rows_at);
    let writing = Writing { crew, layout };
    write_table(&writing, source, sink, image, made, copy, window)
}

// Writes the rows, the heap, the fill and then the header.
fn write_table<R: Threads + Sync, S: Source, K: Sink, G: Gate>(
    writing: &Writing<'_, '_, R, G>,
    source: &mut S,
    sink: &mut K,
    image: &ImageToPack<'_>,
    made: &mut [u8],
    copy: &mut [u8],
    window: &mut Window,
) -> Result<u64, Stop>
    requires header { IsHeaderOf image.now.buf.now image.now.header }
    requires simple { image.now.header.hdu ≡ 0 → is_set (codes "SIMPLE") (card_at image.now.buf.now 0) ≡ true }
    requires plan { IsPackPlan image.now.buf.now image.now.header image.now.sums image.now.plan }
    requires can { CanPack (S.attached source.old) (K.created sink.old) writing.now.layout }
    requires plan_is { writing.now.layout.plan ≡ image.now.plan }
    requires at { 0 < image.now.at }
    requires near { writing.now.layout.rows_at + 2 ^ 44 ≤ 2 ^ 63 }
    requires place { (s : TotalsOf) → s.sums ≡ image.now.sums → AreShort s
        → writing.now.layout.rows_at ≡ image.now.at + len (header_bytes (packed_header (cards_of image.now.buf.now) image.now.plan s)) }
    requires made { len image.now.buf.now + 2880 ≤ len made.old }
    requires copy { 4096 ≤ len copy.old }
    requires window { HaveRoom writing.now.layout window.old }
    ensures table { IfOk result (λ end. IfSome (S.held source.old)
        (λ g. HoldsCodes image.now.sums writing.now.layout (cards_of image.now.buf.now)
        (codes_from writing.now.layout g 0 writing.now.layout.tiles) image.now.at end (K.contents sink.old) (K.contents sink.new))) }
    ensures end { IfOk result (λ end. (writing.now.layout.rows_at ≤ end) × (end ≤ writing.now.layout.rows_at + 2 ^ 44)) }
    ensures stays { WindowStays window.old window.new
        × StaysPacking S.held S.attached S.ranges S.tally K.created K.contents K.tally writing.now.layout source.old
        source.new sink.old sink.new result × (len made.new ≡ len made.old) × (len copy.new ≡ len copy.old) }
{
    output_law();
    let layout = &writing.layout;
    let progress = write_tiles(writing, source, sink, window, copy)?;
    let data_len = layout.rows_len() + progress.heap;
    let end = write_fill(sink, layout.rows_at, data_len, copy)?;
    let len = make_header(
        image.buf,
        &image.header,
        &image.plan,
        image.sums,
        progress,
        made,
    );
    write_behind(sink, image.at, &made[..len])?;
    Ok(end)
}

// Writes the rows and the heap of all tiles, round by round.
fn write_tiles<R: Threads + Sync, S: Source, K: Sink, G: Gate>(
    writing: &Writing<'_, '_, R, G>,
    source: &mut S,
    sink: &mut K,
    window: &mut Window,
    copy: &mut [u8],
) -> Result<Progress, Stop>
    requires can { CanPack (S.attached source.old) (K.created sink.old) writing.now.layout }
    requires window { HaveRoom writing.now.layout window.old }
    requires copy { 4096 ≤ len copy.old }
    ensures written { IfOk result (λ w. IsWritten writing.now.layout (S.held source.old) (K.contents sink.old) (K.contents sink.new) w
        × (w.tiles ≡ writing.now.layout.tiles)) }
    ensures stays { WindowStays window.old window.new
        × StaysPacking S.held S.attached S.ranges S.tally K.created K.contents K.tally writing.now.layout source.old
        source.new sink.old sink.new result × (len copy.new ≡ len copy.old) }
{
    let (rows, more) = copy.split_at_mut(ROWS_LEN);
    let half = ahead_len(more.len(), &writing.layout, window);
    let (ahead, held) = more.split_at_mut(half);
    let underway = write_rounds(writing, source, sink, window, ahead, rows, held)?;
    write_held(
        sink,
        writing.layout.heap_at() + underway.progress.heap,
        held,
        underway.held_back,
    )?;
    Ok(underway.progress)
}

// How much of a buffer with so much room has lines that are read before they are wanted: none of it if the halves of the
// window take turns, since lines are then read over the rows that were written.
fn ahead_len(room: usize, layout: &Layout, window: &Window) -> usize
    ensures { result ≤ room }
{
    if has_turns(layout, window) {
        return 0;
    }
    room / 2
}

// The same, but the last bytes of the heap are held back. If the halves of the window do not take turns, one part of the
// work is done after the other, with all slots in each round.
fn write_rounds<R: Threads + Sync, S: Source, K: Sink, G: Gate>(
    writing: &Writing<'_, '_, R, G>,
    source: &mut S,
    sink: &mut K,
    window: &mut Window,
    ahead: &mut [u8],
    rows: &mut [u8],
    held: &mut [u8],
) -> Result<Underway, Stop>
    requires can { CanPack (S.attached source.old) (K.created sink.old) writing.now.layout }
    requires window { HaveRoom writing.now.layout window.old }
    requires rows { 4096 ≤ len rows.old }
    ensures written { IfOk result (λ u. IsUnderwayFrom writing.now.layout (S.held source.old) (K.contents sink.old) u held.new
        (K.contents sink.new) × (u.progress.tiles ≡ writing.now.layout.tiles)) }
    ensures last { IfOk result (λ u. AreHeldBack u held.new) }
    ensures stays { WindowStays window.old window.new
        × StaysPacking S.held S.attached S.ranges S.tally K.created K.contents K.tally writing.now.layout source.old
        source.new sink.old sink.new result × (len ahead.new ≡ len ahead.old) × (len rows.new ≡ len rows.old)
        × (len held.new ≡ len held.old) }
{
    log_law();
    output_law();
    sum_law();
    if has_turns(&writing.layout, window) {
        return write_by_turns(writing, source, sink, window, rows, held);
    }
    let mut strips = Strips::none();
    let mut underway = Underway::new();
    while underway.progress.tiles < writing.layout.tiles {
        let first = underway.progress.tiles;
        let tiles = round_len(&writing.layout, first, window);
        encode_tiles(writing, source, first, window, tiles, &mut strips, ahead)?;
        write_encoded(
            sink,
            &writing.layout,
            &mut underway,
            window,
            tiles,
            rows,
            held,
        )?;
    }
    Ok(underway)
}

// The length of the header of the table, which does not depend on what it says of the heap.
fn header_len(image: &ImageToPack<'_>, made: &mut [u8]) -> u64
    requires header { IsHeaderOf image.now.buf.now image.now.header }
    requires simple { image.now.header.hdu ≡ 0 → is_set (codes "SIMPLE") (card_at image.now.buf.now 0) ≡ true }
    requires plan { IsPackPlan image.now.buf.now image.now.header image.now.sums image.now.plan }
    requires room { len image.now.buf.now + 2880 ≤ len made.old }
    ensures length { (s : TotalsOf) → s.sums ≡ image.now.sums → AreShort s
        → result ≡ len (header_bytes (packed_header (cards_of image.now.buf.now) image.now.plan s)) }
    ensures some { 0 < result }
    ensures short { result ≤ 737280 }
    ensures len { len made.new ≡ len made.old }
{
    sizes_law();
    sum_cards_law();
    whole_cards_law();
    cards_law();
    let none = Totals {
        heap: 0,
        emax_coded: 0,
        emax_stored: 0,
        sums: image.sums,
    };
    to_packed(image.buf, &image.header, &image.plan, &none, made) as u64
}
