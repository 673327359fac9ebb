//! Tiles in the two halves of the window, by turns: those of one half are scattered while those of the other are decoded.
ghost use Rattle.std.specs.Prelude.{ℕ, ◌≡◌, ◌+◌, ◌*◌, ◌/◌, ◌<◌, ◌≤◌, IsTrue, Some, map, length as len, IfSome, OnOk};
ghost use Rattle.std.specs.List.{range_with_len};
ghost use Rattle.fz_base.specs.Keeps.{SourceStays};
ghost use Rattle.fz_base.specs.Ranges.{LogsIn};
ghost use Rattle.fz_base.specs.Stop.{IfRefused, Writes};
ghost use Rattle.fz_files.specs.FirstFault.{IsFirstRowFault, image_row, rows_of};
ghost use Rattle.fz_fetch.specs.Fetched.{AreFetched, TellsRowFault};
ghost use Rattle.fz_job.specs.Images.{AreTilesOf, HaveRoom};
ghost use Rattle.fz_files.specs.Touched.{image_ranges};
ghost use Rattle.fz_job.specs.Clauses.{IsOfSomeRow};
ghost use Rattle.fz_job.specs.Keeps.{Rewrites};
ghost use Rattle.fz_pool.specs.Window.{WindowStays};
ghost use Rattle.fz_unpack.specs.Images.{AreWrittenTiles, CanRestore, StaysRestoring};
ghost use Rattle.fz_unpack.specs.Turns.{AreAlike, CanScatter, HasScattered, HaveRooms, StandFetched};

use crate::restore::Restoring;
use fz_base::{Gate, Sink, Source, Stop, ranges_law};
use fz_fetch::{MOST_TILES, fetch_beside, number_tiles};
use fz_head::Plan;
use fz_job::hdus_law;
use fz_pixels::{scatter_tiles, scattered_law};
use fz_pool::{Window, halves_law, sizes_law};
use std::mem;
use std::thread::Threads;

/// How far the tiles are between two turns.
#[derive(Clone, Copy)]
pub(crate) struct Turn {
    /// So many are written.
    pub(crate) written: u32,
    /// So many after them are decoded, in the second half.
    pub(crate) decoded: u32,
}

/// The tiles of a turn.
#[derive(Clone, Copy)]
pub(crate) struct Step<'f, 's> {
    /// Those that are fetched.
    pub(crate) fetching: &'f [u32],
    /// Those that are scattered.
    pub(crate) scattering: &'s [u32],
}

/// Writes the pixels of all tiles by turns.
pub(crate) fn write_by_turns<R: Threads + Sync, S: Source, K: Sink, G: Gate>(
    asked: &Restoring<'_, '_, R, G>,
    source: &mut S,
    sink: &mut K,
    window: &mut Window,
    rows: &mut [u8],
) -> Result<(), Stop>
    requires image { CanRestore (S.held source.old) (S.attached source.old) asked.now.header asked.now.image asked.now.data_at asked.now.tiles }
    requires created { IsTrue (K.created sink.old) }
    requires rows { 4096 ≤ len rows.old }
    requires several { 2 ≤ window.old.workers }
    requires window { HaveRoom asked.now.image window.old }
    ensures pixels { OnOk result (IfSome (S.held source.old)
        (λ g. AreWrittenTiles g asked.now.header asked.now.image.plan asked.now.data_at (range_with_len 0 asked.now.tiles) (K.contents sink.old)
        (K.contents sink.new))) }
    ensures fault { IfRefused result (λ x. IfSome (S.held source.old) (λ g. IsFirstRowFault g (rows_of g asked.now.header) (Some x))) }
    ensures stays { WindowStays window.old window.new
        × StaysRestoring S.held S.attached S.ranges S.tally K.created K.contents K.tally asked.now.header source.old
        source.new sink.old sink.new result × (len rows.new ≡ len rows.old) }
{
    halves_law();
    sizes_law();
    let Ok((mut first, mut second)) = window.halve() else {
        return Err(Stop::NoMemory);
    };
    let answer = write_turns(asked, source, sink, &mut first, &mut second, rows);
    window.rejoin(first, second);
    answer
}

// The same, in the halves of the window.
fn write_turns<R: Threads + Sync, S: Source, K: Sink, G: Gate>(
    asked: &Restoring<'_, '_, R, G>,
    source: &mut S,
    sink: &mut K,
    first: &mut Window,
    second: &mut Window,
    rows: &mut [u8],
) -> Result<(), Stop>
    requires image { CanRestore (S.held source.old) (S.attached source.old) asked.now.header asked.now.image asked.now.data_at asked.now.tiles }
    requires created { IsTrue (K.created sink.old) }
    requires rows { 4096 ≤ len rows.old }
    requires rooms { HaveRooms asked.now.image first.old second.old }
    ensures pixels { OnOk result (IfSome (S.held source.old)
        (λ g. AreWrittenTiles g asked.now.header asked.now.image.plan asked.now.data_at (range_with_len 0 asked.now.tiles) (K.contents sink.old)
        (K.contents sink.new))) }
    ensures fault { IfRefused result (λ x. IfSome (S.held source.old) (λ g. IsFirstRowFault g (rows_of g asked.now.header) (Some x))) }
    ensures windows { (size : ℕ × ℕ) → AreAlike size first.old → AreAlike size second.old → AreAlike size first.new × AreAlike size second.new }
    ensures stays { StaysRestoring S.held S.attached S.ranges S.tally K.created K.contents K.tally asked.now.header
        source.old source.new sink.old sink.new result × (len rows.new ≡ len rows.old)
        × (first.new.workers + second.new.workers ≡ first.old.workers + second.old.workers) }
{
    ranges_law();
    scattered_law();
    let mut turn = Turn {
        written: 0,
        decoded: 0,
    };
    while turn.written < asked.tiles {
        take_turn(asked, source, sink, first, second, &mut turn, rows)?;
    }
    Ok(())
}

// One turn, after which the halves change their parts.
fn take_turn<R: Threads + Sync, S: Source, K: Sink, G: Gate>(
    asked: &Restoring<'_, '_, R, G>,
    source: &mut S,
    sink: &mut K,
    first: &mut Window,
    second: &mut Window,
    turn: &mut Turn,
    rows: &mut [u8],
) -> Result<(), Stop>
    requires image { CanRestore (S.held source.old) (S.attached source.old) asked.now.header asked.now.image asked.now.data_at asked.now.tiles }
    requires created { IsTrue (K.created sink.old) }
    requires rows { 4096 ≤ len rows.old }
    requires rooms { HaveRooms asked.now.image first.old second.old }
    requires stand { StandFetched (S.held source.old) asked.now.header asked.now.image.plan turn.old.written turn.old.decoded asked.now.tiles second.old }
    ensures pixels { OnOk result (IfSome (S.held source.old)
        (λ g. AreWrittenTiles g asked.now.header asked.now.image.plan asked.now.data_at (range_with_len turn.old.written turn.old.decoded)
        (K.contents sink.old) (K.contents sink.new))) }
    ensures stand { OnOk result (StandFetched (S.held source.old) asked.now.header asked.now.image.plan turn.new.written turn.new.decoded
        asked.now.tiles second.new) }
    ensures turn { OnOk result ((turn.new.written ≡ turn.old.written + turn.old.decoded) × (turn.new.written < asked.now.tiles → 0 < turn.new.decoded)) }
    ensures fault { IfRefused result (λ x. IfSome (S.held source.old) (λ g. (more : ℕ) × (turn.old.written + more ≤ asked.now.tiles)
        × IsFirstRowFault g (map (image_row asked.now.header) (range_with_len turn.old.written more)) (Some x))) }
    ensures windows { (size : ℕ × ℕ) → AreAlike size first.old → AreAlike size second.old → AreAlike size first.new × AreAlike size second.new }
    ensures stays { StaysRestoring S.held S.attached S.ranges S.tally K.created K.contents K.tally asked.now.header
        source.old source.new sink.old sink.new result × (len rows.new ≡ len rows.old)
        × (first.new.workers + second.new.workers ≡ first.old.workers + second.old.workers) }
{
    let next = turn.written + turn.decoded;
    let count = (2 * first.workers()).min(asked.tiles - next);
    // This call shows that the second half has no more than 128 slots.
    let _others = second.workers();
    let (mut numbers, mut others) = ([0; MOST_TILES], [0; MOST_TILES]);
    let scattering = &mut others[..turn.decoded as usize];
    number_tiles(turn.written, scattering);
    let fetching = &mut numbers[..count as usize];
    number_tiles(next, fetching);
    let step = Step {
        fetching: &*fetching,
        scattering: &*scattering,
    };
    fetch_and_scatter(asked, source, sink, first, second, &step, rows)?;
    *turn = Turn {
        written: next,
        decoded: count,
    };
    mem::swap(first, second);
    Ok(())
}

// Fetches tiles into the first half, and scatters those of the second beside that.
fn fetch_and_scatter<R: Threads + Sync, S: Source, K: Sink, G: Gate>(
    asked: &Restoring<'_, '_, R, G>,
    source: &mut S,
    sink: &mut K,
    first: &mut Window,
    second: &mut Window,
    step: &Step<'_, '_>,
    rows: &mut [u8],
) -> Result<(), Stop>
    requires image { CanRestore (S.held source.old) (S.attached source.old) asked.now.header asked.now.image asked.now.data_at asked.now.tiles }
    requires tiles { AreTilesOf asked.now.image step.now.fetching.now }
    requires few { len step.now.fetching.now ≤ 2 * first.old.workers }
    requires rows { 4096 ≤ len rows.old }
    requires window { HaveRoom asked.now.image first.old }
    requires can_scatter { CanScatter asked.now.image.plan asked.now.data_at (K.created sink.old) step.now.scattering.now second.old }
    ensures fetched { OnOk result (AreFetched (S.held source.old) asked.now.header asked.now.image.plan step.now.fetching.now first.new.slots) }
    ensures fault { TellsRowFault (S.held source.old) asked.now.header step.now.fetching.now result }
    ensures scattered { HasScattered asked.now.image.plan asked.now.data_at step.now.scattering.now second.old second.new (K.created sink.old)
        (K.created sink.new) (K.contents sink.old) (K.contents sink.new) result }
    ensures row { IfRefused result IsOfSomeRow }
    ensures stays { SourceStays S.held S.attached S.ranges source.old source.new × WindowStays first.old first.new
        × (len rows.new ≡ len rows.old) }
    ensures read { IfSome (S.held source.old) (λ g. LogsIn (image_ranges g asked.now.header) (S.ranges source.old) (S.ranges source.new)) }
    ensures cause { Rewrites (S.tally source.old) (S.tally source.new) (K.tally sink.old) (K.tally sink.new) result }
{
    hdus_law();
    let plan = &asked.image.plan;
    let data_at = asked.data_at;
    let scattering = step.scattering;
    let mut job = || -> Result<(), Stop>
        requires { CanScatter plan.now data_at (K.created sink.now) scattering.now second.now }
        ensures { HasScattered plan.entry.now data_at scattering.entry.now second.entry.now second.exit.now
            (K.created sink.entry.now) (K.created sink.exit.now) (K.contents sink.entry.now) (K.contents sink.exit.now) result
            × Writes (K.tally sink.entry.now) (K.tally sink.exit.now) result }
    { scatter_round(sink, data_at, plan, scattering, second) };
    let (fetched, scattered) = fetch_beside(
        asked.crew,
        source,
        &asked.header,
        &asked.image,
        step.fetching,
        rows,
        first,
        &mut job,
    );
    scattered?;
    fetched
}

// Scatters the tiles in the first slots.
fn scatter_round<K: Sink>(
    sink: &mut K,
    data_at: u64,
    plan: &Plan,
    tiles: &[u32],
    window: &mut Window,
) -> Result<(), Stop>
    requires can_scatter { CanScatter plan.now data_at (K.created sink.old) tiles.now window.old }
    ensures scattered { HasScattered plan.now data_at tiles.now window.old window.new (K.created sink.old) (K.created sink.new)
        (K.contents sink.old) (K.contents sink.new) result }
    ensures cause { Writes (K.tally sink.old) (K.tally sink.new) result }
{
    scatter_tiles(sink, data_at, plan, tiles, window)
}
