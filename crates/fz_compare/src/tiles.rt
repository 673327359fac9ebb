//! The tiles of a packed image: each is decoded, and then compared with what `pack` writes for its pixels.
ghost use Rattle.std.specs.Prelude.{ℕ, ◌≡◌, ◌*◌, ◌^◌, ◌<◌, ◌≤◌, None, Some, length as len, IfOk, IfSome, OnOk};
ghost use Rattle.fz_base.specs.Keeps.{SourceStays};
ghost use Rattle.fz_base.specs.Ranges.{LogsIn};
ghost use Rattle.fz_base.specs.Source.{LogsWithin};
ghost use Rattle.fz_base.specs.Stop.{Codes, IfRefused};
ghost use Rattle.fz_block.specs.Header.{next_start_of};
ghost use Rattle.fz_job.specs.Images.{HaveRoom, IsReadable, IsSaid};
ghost use Rattle.fz_fetch.specs.Rows.{StandsWithin};
ghost use Rattle.fz_fetch.specs.Stops.{Fetches};
ghost use Rattle.fz_files.specs.FirstFault.{IsFirstRowFault, rows_of};
ghost use Rattle.fz_image.specs.Layout.{IsLayout};
ghost use Rattle.fz_job.specs.Clauses.{IsOfSomeRow};
ghost use Rattle.fz_pool.specs.Window.{WindowStays};
ghost use Rattle.fz_compare.specs.Compared.{AreReady, ComparesNext, ComparesTable, IsSoFar, begun};
ghost use Rattle.fz_compare.specs.Reads.{table_ranges};

use crate::coded::{Coming, compare_round};
use fz_base::{Gate, Source, Stop, log_law, ranges_law};
use fz_block::{Header, next_start};
use fz_checks::PackedImage;
use fz_fetch::{ImageIn, Round, decode_round};
use fz_grid::Grid;
use fz_image::{Layout, Progress};
use fz_pool::{Crew, Window};
use fz_sum::sum_law;
use fz_tile::one_record_law;
use std::thread::Threads;

/// Decodes all tiles of a packed image, and compares the table with that of a layout, if there is one. Answers what
/// `pack` has written of the table when all its tiles are written; none if the tables differ.
///
/// Refused: the lowest faulty row, as `fetch_tiles` refuses it.
pub fn compare_tiles<R: Threads + Sync, S: Source, G: Gate>(
    crew: &Crew<'_, R, G>,
    source: &mut S,
    window: &mut Window,
    header: &Header,
    image: &PackedImage,
    layout: &Option<Layout>,
    copy: &mut [u8],
) -> Result<Option<Progress>, Stop>
    requires image { IsReadable image.now }
    requires within { StandsWithin (S.attached source.old) image.now.table }
    requires inside { (n : ℕ) × (S.attached source.old ≡ Some n) × (next_start_of header.now ≤ n) }
    requires end { next_start_of header.now ≤ 2 ^ 62 }
    requires said { IfSome (S.held source.old) (λ g. IsSaid g header.now image.now) }
    requires window { HaveRoom image.now window.old }
    requires layout { IfSome layout.now (λ l. IsLayout l × (l.plan ≡ image.now.plan)) }
    requires copy { 4096 < len copy.old }
    ensures compared { IfOk result (λ c. IfSome layout.now (λ l. IfSome (S.held source.old) (λ g. ComparesTable g header.now l c))) }
    ensures progress { IfOk result (λ c. IfSome c (λ w. IfSome layout.now (λ l. IsSoFar l w × (w.tiles ≡ l.tiles)))) }
    ensures none { layout.now ≡ None → IfOk result (λ c. c ≡ None) }
    ensures sound { OnOk result (IfSome (S.held source.old) (λ g. IsFirstRowFault g (rows_of g header.now) None)) }
    ensures fault { IfRefused result (λ x. IfSome (S.held source.old) (λ g. IsFirstRowFault g (rows_of g header.now) (Some x))) }
    ensures row { IfRefused result IsOfSomeRow }
    ensures stays { SourceStays S.held S.attached S.ranges source.old source.new × WindowStays window.old window.new
        × (len copy.new ≡ len copy.old) }
    ensures read { IfSome (S.held source.old) (λ g. LogsIn (table_ranges g header.now) (S.ranges source.old) (S.ranges source.new)) }
    ensures cause { Fetches (S.tally source.old) (S.tally source.new) result }
{
    ranges_law();
    one_record_law();
    sum_law();
    let tiles = Grid::new(image.plan.shape, image.plan.tile).tile_count();
    let end = next_start(header);
    let mut progress = begin(layout);
    let mut first = 0;
    while first < tiles {
        let count = (2 * window.workers()).min(tiles - first);
        let packed = ImageIn { header, image };
        let round = Round { first, count };
        decode_round(crew, source, window, packed, round, copy)?;
        let coming = Coming { count, end };
        progress = compare_next(crew, source, window, coming, layout, progress, copy)?;
        first += count;
    }
    Ok(progress)
}

// Nothing was compared of the table of a layout, if there is one.
fn begin(layout: &Option<Layout>) -> Option<Progress>
    ensures { result ≡ begun layout.now }
{
    match layout {
        Some(_) => Some(Progress::new()),
        None => None,
    }
}

// Compares the next tiles, whose pixels are in the first slots, unless there was a difference before.
fn compare_next<R: Threads + Sync, S: Source, G: Gate>(
    crew: &Crew<'_, R, G>,
    source: &mut S,
    window: &mut Window,
    coming: Coming,
    layout: &Option<Layout>,
    progress: Option<Progress>,
    copy: &mut [u8],
) -> Result<Option<Progress>, Stop>
    requires within { (n : ℕ) × (S.attached source.old ≡ Some n) × (coming.end ≤ n) }
    requires ready { IfSome layout.now (λ l. IfSome progress (λ w. AreReady l w coming.count window.old)) }
    requires some { 0 < coming.count }
    requires few { coming.count ≤ 128 }
    requires near { coming.count ≤ 2 * window.old.workers }
    requires copy { 4096 < len copy.old }
    ensures compared { IfOk result (ComparesNext (S.held source.old) coming.end layout.now progress coming.count window.old.slots) }
    ensures stays { SourceStays S.held S.attached S.ranges source.old source.new × WindowStays window.old window.new
        × (len copy.new ≡ len copy.old) }
    ensures read { LogsWithin 0 coming.end (S.ranges source.old) (S.ranges source.new) }
    ensures cause { Codes (S.tally source.old) (S.tally source.new) result }
{
    log_law();
    match layout {
        Some(layout) => match progress {
            Some(progress) => compare_round(crew, source, window, coming, layout, progress, copy),
            None => Ok(None),
        },
        None => Ok(None),
    }
}
