//! Tiles in the two halves of the window, by turns: those of one half are written, and others read into it, while those
//! of the other are encoded.
ghost use Rattle.std.specs.Prelude.{ℕ, ◌≡◌, ◌+◌, ◌*◌, ◌^◌, ◌<◌, ◌≤◌, IsTrue, List, Option, length as len, IfOk, OnOk};
ghost use Rattle.fz_base.specs.Stop.{CodesAndWrites, ReadsAndWrites};
ghost use Rattle.fz_image.specs.Held.{AreHeldBack, IsUnderwayFrom};
ghost use Rattle.fz_image.specs.Tiles.{AreEncodedTiles, AreLoaded, HaveRoom};
ghost use Rattle.fz_pack.specs.Turns.{AreAlike, CanMove, HasMoved, HaveRooms, StandReady, ends_at};
ghost use Rattle.fz_image.specs.Working.{CanPack, StaysPacking};
ghost use Rattle.fz_pool.specs.Window.{WindowStays};

use fz_base::{Gate, Sink, Source, Stop, log_law, output_law};
use fz_image::{Layout, Strips, Underway, Writing, load_round, write_encoded};
use fz_pool::{BY_TURNS, Window, encode_beside, halves_law, round_law, sizes_law};
use fz_sum::sum_law;
use fz_tile::column_law;
use std::mem;
use std::thread::Threads;

/// How many tiles are in the halves of the window between two turns, from the first one on that is not written.
#[derive(Clone, Copy)]
pub(crate) struct Turn {
    /// So many are encoded, in the second half.
    pub(crate) coded: u32,
    /// So many after them are to be encoded, in the first half.
    pub(crate) loaded: u32,
}

/// Whether there are so many workers and tiles that the halves of the window take turns.
pub(crate) fn has_turns(layout: &Layout, window: &Window) -> bool
    ensures several { IsTrue result → 2 ≤ window.now.workers }
{
    if window.workers() < BY_TURNS {
        return false;
    }
    2 * window.workers() < layout.tiles
}

/// Writes the rows and the heap of all tiles by turns. The last bytes of the heap are held back.
pub(crate) fn write_by_turns<R: Threads + Sync, S: Source, K: Sink, G: Gate>(
    writing: &Writing<'_, '_, R, G>,
    source: &mut S,
    sink: &mut K,
    window: &mut Window,
    rows: &mut [u8],
    held: &mut [u8],
) -> Result<Underway, Stop>
    requires can { CanPack (S.attached source.old) (K.created sink.old) writing.now.layout }
    requires window { HaveRoom writing.now.layout window.old }
    requires several { 2 ≤ window.old.workers }
    requires rows { 4096 ≤ len rows.old }
    ensures written { IfOk result (λ u. IsUnderwayFrom writing.now.layout (S.held source.old) (K.contents sink.old) u held.new
        (K.contents sink.new) × (u.progress.tiles ≡ writing.now.layout.tiles)) }
    ensures last { IfOk result (λ u. AreHeldBack u held.new) }
    ensures stays { WindowStays window.old window.new
        × StaysPacking S.held S.attached S.ranges S.tally K.created K.contents K.tally writing.now.layout source.old
        source.new sink.old sink.new result × (len rows.new ≡ len rows.old) × (len held.new ≡ len held.old) }
{
    sizes_law();
    halves_law();
    log_law();
    let Ok((mut first, mut second)) = window.halve() else {
        return Err(Stop::NoMemory);
    };
    let answer = write_turns(writing, source, sink, &mut first, &mut second, rows, held);
    window.rejoin(first, second);
    answer
}

// The same, in the halves of the window.
fn write_turns<R: Threads + Sync, S: Source, K: Sink, G: Gate>(
    writing: &Writing<'_, '_, R, G>,
    source: &mut S,
    sink: &mut K,
    first: &mut Window,
    second: &mut Window,
    rows: &mut [u8],
    held: &mut [u8],
) -> Result<Underway, Stop>
    requires can { CanPack (S.attached source.old) (K.created sink.old) writing.now.layout }
    requires rooms { HaveRooms writing.now.layout first.old second.old }
    requires rows { 4096 ≤ len rows.old }
    ensures written { IfOk result (λ u. IsUnderwayFrom writing.now.layout (S.held source.old) (K.contents sink.old) u held.new
        (K.contents sink.new) × (u.progress.tiles ≡ writing.now.layout.tiles)) }
    ensures last { IfOk result (λ u. AreHeldBack u held.new) }
    ensures windows { (size : ℕ × ℕ) → AreAlike size first.old → AreAlike size second.old → AreAlike size first.new × AreAlike size second.new }
    ensures stays { StaysPacking S.held S.attached S.ranges S.tally K.created K.contents K.tally writing.now.layout
        source.old source.new sink.old sink.new result × (len rows.new ≡ len rows.old) × (len held.new ≡ len held.old)
        × (first.new.workers + second.new.workers ≡ first.old.workers + second.old.workers) }
{
    log_law();
    sizes_law();
    let mut underway = Underway::new();
    let mut turn = Turn {
        coded: 0,
        loaded: 0,
    };
    while underway.progress.tiles < writing.layout.tiles {
        take_turn(
            writing,
            source,
            sink,
            &mut underway,
            &mut turn,
            first,
            second,
            rows,
            held,
        )?;
    }
    Ok(underway)
}

// One turn, after which the halves change their parts.
fn take_turn<R: Threads + Sync, S: Source, K: Sink, G: Gate>(
    writing: &Writing<'_, '_, R, G>,
    source: &mut S,
    sink: &mut K,
    underway: &mut Underway,
    turn: &mut Turn,
    first: &mut Window,
    second: &mut Window,
    rows: &mut [u8],
    held: &mut [u8],
) -> Result<(), Stop>
    requires can { CanPack (S.attached source.old) (K.created sink.old) writing.now.layout }
    requires rooms { HaveRooms writing.now.layout first.old second.old }
    requires rows { 4096 ≤ len rows.old }
    requires held { AreHeldBack underway.old held.old }
    requires so_far { (before : Option (List ℕ))
        × IsUnderwayFrom writing.now.layout (S.held source.old) before underway.old held.old (K.contents sink.old) }
    requires ready { StandReady writing.now.layout (S.held source.old) underway.old.progress turn.old.coded turn.old.loaded first.old second.old }
    ensures more { OnOk result ((before : Option (List ℕ))
        → IsUnderwayFrom writing.now.layout (S.held source.old) before underway.old held.old (K.contents sink.old)
        → IsUnderwayFrom writing.now.layout (S.held source.old) before underway.new held.new (K.contents sink.new)) }
    ensures held { OnOk result (AreHeldBack underway.new held.new) }
    ensures ready { OnOk result (StandReady writing.now.layout (S.held source.old) underway.new.progress turn.new.coded turn.new.loaded
        first.new second.new) }
    ensures tiles { OnOk result ((underway.new.progress.tiles ≡ underway.old.progress.tiles + turn.old.coded)
        × (turn.new.coded ≡ turn.old.loaded)) }
    ensures loaded { OnOk result (underway.old.progress.tiles + turn.old.coded + turn.old.loaded < writing.now.layout.tiles
        → 0 < turn.new.loaded) }
    ensures windows { (size : ℕ × ℕ) → AreAlike size first.old → AreAlike size second.old → AreAlike size first.new × AreAlike size second.new }
    ensures stays { StaysPacking S.held S.attached S.ranges S.tally K.created K.contents K.tally writing.now.layout
        source.old source.new sink.old sink.new result × (len rows.new ≡ len rows.old) × (len held.new ≡ len held.old)
        × (first.new.workers + second.new.workers ≡ first.old.workers + second.old.workers) }
{
    output_law();
    sum_law();
    let next = underway.progress.tiles + turn.coded + turn.loaded;
    let more = (2 * second.workers()).min(writing.layout.tiles - next);
    encode_and_move(
        writing, source, sink, underway, *turn, next, more, first, second, rows, held,
    )?;
    *turn = Turn {
        coded: turn.loaded,
        loaded: more,
    };
    mem::swap(first, second);
    Ok(())
}

// Encodes the tiles of the first half, and beside that has those of the second written and more read into it.
fn encode_and_move<R: Threads + Sync, S: Source, K: Sink, G: Gate>(
    writing: &Writing<'_, '_, R, G>,
    source: &mut S,
    sink: &mut K,
    underway: &mut Underway,
    turn: Turn,
    next: u32,
    more: u32,
    first: &mut Window,
    second: &mut Window,
    rows: &mut [u8],
    held: &mut [u8],
) -> Result<(), Stop>
    requires can_move { CanMove writing.now.layout (ends_at (S.held source.old) (S.attached source.old) (S.ranges source.old) (S.tally source.old)
        (K.created sink.old) (K.contents sink.old) (K.tally sink.old))
        underway.old second.old turn.coded next more rows.old held.old }
    requires first { HaveRoom writing.now.layout first.old }
    requires loaded { AreLoaded writing.now.layout (S.held source.old) (underway.old.progress.tiles + turn.coded) turn.loaded first.old }
    requires few { turn.loaded ≤ 2 * first.old.workers }
    ensures encoded { OnOk result (AreEncodedTiles writing.now.layout (S.held source.old) (underway.old.progress.tiles + turn.coded)
        turn.loaded first.new) }
    ensures moved { HasMoved writing.now.layout (ends_at (S.held source.old) (S.attached source.old) (S.ranges source.old) (S.tally source.old)
        (K.created sink.old) (K.contents sink.old) (K.tally sink.old))
        (ends_at (S.held source.new) (S.attached source.new) (S.ranges source.new) (S.tally source.new)
        (K.created sink.new) (K.contents sink.new) (K.tally sink.new))
        underway.old underway.new second.old second.new turn.coded next more rows.old rows.new held.old held.new result }
    ensures first { WindowStays first.old first.new }
    ensures cause { CodesAndWrites (S.tally source.old) (S.tally source.new) (K.tally sink.old) (K.tally sink.new) result }
{
    sizes_law();
    round_law();
    column_law();
    let layout = &writing.layout;
    let (coded, loaded) = (turn.coded, turn.loaded);
    let mut job = || -> Result<(), Stop>
        requires { CanMove layout.now (ends_at (S.held source.now) (S.attached source.now) (S.ranges source.now) (S.tally source.now)
            (K.created sink.now) (K.contents sink.now) (K.tally sink.now))
            underway.now second.now coded next more rows.now held.now }
        ensures { HasMoved layout.entry.now
            (ends_at (S.held source.entry.now) (S.attached source.entry.now) (S.ranges source.entry.now) (S.tally source.entry.now)
            (K.created sink.entry.now) (K.contents sink.entry.now) (K.tally sink.entry.now))
            (ends_at (S.held source.exit.now) (S.attached source.exit.now) (S.ranges source.exit.now) (S.tally source.exit.now)
            (K.created sink.exit.now) (K.contents sink.exit.now) (K.tally sink.exit.now))
            underway.entry.now underway.exit.now second.entry.now second.exit.now coded next more rows.entry.now rows.exit.now
            held.entry.now held.exit.now result
            × ReadsAndWrites (S.tally source.entry.now) (S.tally source.exit.now) (K.tally sink.entry.now) (K.tally sink.exit.now) result }
    {
        move_tiles(
            source, sink, layout, underway, second, coded, next, more, rows, held,
        )
    };
    let (encoded, moved) = encode_beside(writing.crew, first, loaded, &mut job);
    moved?;
    encoded.map_err(|_| Stop::NoMemory)
}

// Writes the tiles in the first slots, which were encoded, and reads more into them.
fn move_tiles<S: Source, K: Sink>(
    source: &mut S,
    sink: &mut K,
    layout: &Layout,
    underway: &mut Underway,
    window: &mut Window,
    tiles: u32,
    next: u32,
    more: u32,
    rows: &mut [u8],
    held: &mut [u8],
) -> Result<(), Stop>
    requires can_move { CanMove layout.now (ends_at (S.held source.old) (S.attached source.old) (S.ranges source.old) (S.tally source.old)
        (K.created sink.old) (K.contents sink.old) (K.tally sink.old))
        underway.old window.old tiles next more rows.old held.old }
    ensures moved { HasMoved layout.now (ends_at (S.held source.old) (S.attached source.old) (S.ranges source.old) (S.tally source.old)
        (K.created sink.old) (K.contents sink.old) (K.tally sink.old))
        (ends_at (S.held source.new) (S.attached source.new) (S.ranges source.new) (S.tally source.new)
        (K.created sink.new) (K.contents sink.new) (K.tally sink.new))
        underway.old underway.new window.old window.new tiles next more rows.old rows.new held.old held.new result }
    ensures cause { ReadsAndWrites (S.tally source.old) (S.tally source.new) (K.tally sink.old) (K.tally sink.new) result }
{
    log_law();
    write_encoded(sink, layout, underway, window, tiles, rows, held)?;
    // The rows were written: there is room for lines of several tiles.
    let mut strips = Strips::none();
    load_round(source, layout, next, window, more, &mut strips, rows)
}
