//! A round of tiles: their rows and records are read, and then decoded.
ghost use Rattle.std.specs.Prelude.{◌≡◌, ◌*◌, ◌≤◌, length as len, IfSome, OnOk};
ghost use Rattle.fz_base.specs.Keeps.{SourceStays};
ghost use Rattle.fz_base.specs.Ranges.{LogsIn};
ghost use Rattle.fz_base.specs.Refusal.{refusal};
ghost use Rattle.fz_base.specs.Stop.{IfRefused};
ghost use Rattle.fz_base.specs.declared.failure.Stop.TheVariants.{Refused};
ghost use Rattle.fz_base.specs.declared.fault.Place.TheVariants.{Row as AtRow};
ghost use Rattle.fz_checks.specs.TileKinds.{kind_of_tile};
ghost use Rattle.fz_pool.specs.Calls.{AreSameFrom};
ghost use Rattle.fz_fetch.specs.Ahead.{IsAhead, image_tiles};
ghost use Rattle.fz_fetch.specs.Fetched.{AreFetched, IsOfRowAmong, TellsRowFault};
ghost use Rattle.fz_job.specs.Images.{fetched_ranges, AreTilesOf, HaveRoom, IsReadable, IsSaid};
ghost use Rattle.fz_fetch.specs.Rows.{StandsWithin};
ghost use Rattle.fz_fetch.specs.Stops.{Fetches};
ghost use Rattle.fz_pool.specs.Window.{WindowStays};

use crate::ahead::Ahead;
use crate::loading::load_round;
use crate::loading_ahead::load_round_ahead;
use fz_base::{Fault, Gate, Place, Source, Stop};
use fz_block::Header;
use fz_checks::{PackedImage, tile_kind};
use fz_pool::{Crew, Window, decode_beside, decode_window, round_law, sizes_law};
use fz_tile::TileFault;
use std::thread::Threads;

/// Reads these tiles of the packed image in the HDU with this header into the first slots of the window, and decodes
/// them by its workers. `rows` has room for the rows of a round; the slots of the window are those of a tile of the
/// image or of a larger one. Its buffers stay the window's, and keep their lengths;
/// the slots after those of these tiles are as before.
///
/// Refused: the lowest of these rows that is faulty, in the order in which they are given: its record is not found
/// (GzipTile, TileMissing, DescriptorRange, TileSize), or stands for no pixels (CodeShort, CodeValue, LineList,
/// PixelRange). No record after a row whose record is not found is read, and of a record at most 8 bytes for each
/// pixel and 64 more.
pub fn fetch_tiles<R: Threads + Sync, S: Source, G: Gate>(
    crew: &Crew<'_, R, G>,
    source: &mut S,
    header: &Header,
    image: &PackedImage,
    tiles: &[u32],
    rows: &mut [u8],
    window: &mut Window,
) -> Result<(), Stop>
    requires image { IsReadable image.now }
    requires within { StandsWithin (S.attached source.old) image.now.table }
    requires said { IfSome (S.held source.old) (λ g. IsSaid g header.now image.now) }
    requires tiles { AreTilesOf image.now tiles.now }
    requires few { len tiles.now ≤ 2 * window.old.workers }
    requires rows { 4096 ≤ len rows.old }
    requires window { HaveRoom image.now window.old }
    ensures fetched { OnOk result (AreFetched (S.held source.old) header.now image.now.plan tiles.now window.new.slots) }
    ensures row { IfRefused result (IsOfRowAmong header.now.hdu tiles.now) }
    ensures fault { TellsRowFault (S.held source.old) header.now tiles.now result }
    ensures read { IfSome (S.held source.old) (λ g. LogsIn (fetched_ranges g header.now tiles.now) (S.ranges source.old) (S.ranges source.new)) }
    ensures others { AreSameFrom (len tiles.now) window.old.slots window.new.slots }
    ensures stays { SourceStays S.held S.attached S.ranges source.old source.new × WindowStays window.old window.new
        × (len rows.new ≡ len rows.old) }
    ensures cause { Fetches (S.tally source.old) (S.tally source.new) result }
{
    round_law();
    sizes_law();
    // This call shows that there are at most 64 workers.
    let _workers = window.workers();
    let loaded = load_round(source, header.hdu, image, tiles, rows, window)?;
    match decode_window(crew.rt, window, loaded.count, crew.gate) {
        Ok(Some((i, fault))) => Err(faulty(header.hdu, tiles[i as usize], fault)),
        Ok(None) => match loaded.refused {
            Some(fault) => Err(Stop::Refused(fault)),
            None => Ok(()),
        },
        Err(_) => Err(Stop::NoMemory),
    }
}

/// Fetches as `fetch_tiles` does, but reads rows and records of the image that are wanted later together with those of
/// these tiles, into the buffer. What `ahead` says the buffer has of the image is not read again.
pub fn fetch_ahead<R: Threads + Sync, S: Source, G: Gate>(
    crew: &Crew<'_, R, G>,
    source: &mut S,
    header: &Header,
    image: &PackedImage,
    tiles: &[u32],
    buf: &mut [u8],
    ahead: &mut Ahead,
    window: &mut Window,
) -> Result<(), Stop>
    requires image { IsReadable image.now }
    requires within { StandsWithin (S.attached source.old) image.now.table }
    requires said { IfSome (S.held source.old) (λ g. IsSaid g header.now image.now) }
    requires tiles { AreTilesOf image.now tiles.now }
    requires few { len tiles.now ≤ 2 * window.old.workers }
    requires ahead { IsAhead (S.held source.old) image.now.table buf.old ahead.old }
    requires window { HaveRoom image.now window.old }
    ensures fetched { OnOk result (AreFetched (S.held source.old) header.now image.now.plan tiles.now window.new.slots) }
    ensures row { IfRefused result (IsOfRowAmong header.now.hdu tiles.now) }
    ensures fault { TellsRowFault (S.held source.old) header.now tiles.now result }
    ensures ahead { IsAhead (S.held source.new) image.now.table buf.new ahead.new }
    ensures read { IfSome (S.held source.old)
        (λ g. LogsIn (fetched_ranges g header.now (image_tiles image.now)) (S.ranges source.old) (S.ranges source.new)) }
    ensures others { AreSameFrom (len tiles.now) window.old.slots window.new.slots }
    ensures stays { SourceStays S.held S.attached S.ranges source.old source.new × WindowStays window.old window.new
        × (len buf.new ≡ len buf.old) }
    ensures cause { Fetches (S.tally source.old) (S.tally source.new) result }
{
    round_law();
    sizes_law();
    // This call shows that there are at most 64 workers.
    let _workers = window.workers();
    let loaded = load_round_ahead(source, header.hdu, image, tiles, buf, ahead, window)?;
    match decode_window(crew.rt, window, loaded.count, crew.gate) {
        Ok(Some((slot, fault))) => Err(faulty(header.hdu, tiles[slot as usize], fault)),
        Ok(None) => match loaded.refused {
            Some(fault) => Err(Stop::Refused(fault)),
            None => Ok(()),
        },
        Err(_) => Err(Stop::NoMemory),
    }
}

/// Fetches as `fetch_tiles` does, but decodes by the workers of the crew, and does the job beside that on this thread, which
/// then helps. The job is done once, whatever the answer is.
pub fn fetch_beside<R: Threads + Sync, S: Source, G: Gate, J: FnMut() -> B, B>(
    crew: &Crew<'_, R, G>,
    source: &mut S,
    header: &Header,
    image: &PackedImage,
    tiles: &[u32],
    rows: &mut [u8],
    window: &mut Window,
    job: &mut J,
) -> (Result<(), Stop>, B)
    requires image { IsReadable image.now }
    requires within { StandsWithin (S.attached source.old) image.now.table }
    requires said { IfSome (S.held source.old) (λ g. IsSaid g header.now image.now) }
    requires tiles { AreTilesOf image.now tiles.now }
    requires few { len tiles.now ≤ 2 * window.old.workers }
    requires rows { 4096 ≤ len rows.old }
    requires window { HaveRoom image.now window.old }
    requires job { J.pre job.old }
    ensures fetched { OnOk result.0 (AreFetched (S.held source.old) header.now image.now.plan tiles.now window.new.slots) }
    ensures row { IfRefused result.0 (IsOfRowAmong header.now.hdu tiles.now) }
    ensures fault { TellsRowFault (S.held source.old) header.now tiles.now result.0 }
    ensures read { IfSome (S.held source.old) (λ g. LogsIn (fetched_ranges g header.now tiles.now) (S.ranges source.old) (S.ranges source.new)) }
    ensures others { AreSameFrom (len tiles.now) window.old.slots window.new.slots }
    ensures stays { SourceStays S.held S.attached S.ranges source.old source.new × WindowStays window.old window.new
        × (len rows.new ≡ len rows.old) }
    ensures cause { Fetches (S.tally source.old) (S.tally source.new) result.0 }
    ensures job { J.step job.old result.1 job.new }
{
    round_law();
    sizes_law();
    // This call shows that there are at most 64 workers.
    let _workers = window.workers();
    let loaded = match load_round(source, header.hdu, image, tiles, rows, window) {
        Ok(loaded) => loaded,
        Err(stop) => return (Err(stop), job()),
    };
    let (decoded, done) = decode_beside(crew, window, loaded.count, job);
    match decoded {
        Ok(Some((i, fault))) => (Err(faulty(header.hdu, tiles[i as usize], fault)), done),
        Ok(None) => match loaded.refused {
            Some(fault) => (Err(Stop::Refused(fault)), done),
            None => (Ok(()), done),
        },
        Err(_) => (Err(Stop::NoMemory), done),
    }
}

/// The record of this row stands for no pixels.
pub fn faulty(hdu: u32, row: u32, fault: TileFault) -> Stop
    ensures { result ≡ Refused (refusal hdu (AtRow row) (kind_of_tile fault)) }
{
    Stop::Refused(Fault {
        hdu,
        at: Place::Row(row),
        kind: tile_kind(fault),
    })
}
