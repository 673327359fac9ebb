//! The picks of the tiles that hold one.
ghost use Rattle.std.specs.Prelude.{ℕ, ◌≡◌, ◌*◌, ◌<◌, ◌≤◌, IsTrue, Some, length as len, map, slice_index, IfSome, OnOk};
ghost use Rattle.fz_base.specs.Keeps.{SinkStays, SourceStays};
ghost use Rattle.fz_base.specs.Ranges.{LogsIn};
ghost use Rattle.fz_base.specs.Stop.{IfRefused};
ghost use Rattle.fz_files.specs.FirstFault.{IsFirstRowFault, image_row};
ghost use Rattle.fz_files.specs.Packed.{tiles_in};
ghost use Rattle.fz_job.specs.Images.{fetched_ranges, HaveRoom, IsSaid};
ghost use Rattle.fz_fetch.specs.Rows.{StandsWithin};
ghost use Rattle.fz_grid.specs.Overlap.{has_pixel};
ghost use Rattle.fz_grid.specs.Region.{lengths_of};
ghost use Rattle.fz_grid.specs.Cutout.{part_lengths};
ghost use Rattle.fz_job.specs.Clauses.{IsOfSomeRow};
ghost use Rattle.fz_job.specs.Keeps.{Rewrites};
ghost use Rattle.fz_cut.specs.Part.{IsPickFault};
ghost use Rattle.fz_cut.specs.Picks.{AreWrittenParts, HoldsPicks, IsPickable, picked_ranges};
ghost use Rattle.fz_pool.specs.Window.{WindowStays};

use fz_base::{Gate, Sink, Source, Stop, ranges_law};
use fz_block::Header;
use fz_checks::PackedImage;
use fz_fetch::{MOST_TILES, fetch_tiles};
use fz_grid::{Grid, Sieve, cutout_axes, shape_law, tiles_law};
use fz_pixels::{scatter_picks, scattered_law};
use fz_pool::{Crew, Window};
use std::thread::Threads;

/// What is picked, and where it goes.
#[derive(Clone, Copy, Debug)]
pub(crate) struct Picking {
    /// The header of the HDU that is cut from.
    pub(crate) header: Header,
    /// Its image.
    pub(crate) image: PackedImage,
    /// The picks.
    pub(crate) sieve: Sieve,
    /// The byte of the sink at which the data of the part begin.
    pub(crate) data_at: u64,
}

/// Writes the picks of all tiles that hold one, round by round, to their places in the part.
pub(crate) fn write_picks<R: Threads + Sync, S: Source, K: Sink, G: Gate>(
    crew: &Crew<'_, R, G>,
    source: &mut S,
    sink: &mut K,
    window: &mut Window,
    picking: &Picking,
    rows: &mut [u8],
) -> Result<(), Stop>
    requires picking { IsPickable picking.now }
    requires within { StandsWithin (S.attached source.old) picking.now.image.table }
    requires said { IfSome (S.held source.old) (λ g. IsSaid g picking.now.header picking.now.image) }
    requires created { IsTrue (K.created sink.old) }
    requires window { HaveRoom picking.now.image window.old }
    requires rows { 4096 ≤ len rows.old }
    ensures pixels { OnOk result (IfSome (S.held source.old)
        (λ g. HoldsPicks g picking.now.header picking.now.image.plan picking.now.sieve picking.now.data_at
        (K.contents sink.old) (K.contents sink.new))) }
    ensures fault { IfRefused result (λ x. IfSome (S.held source.old) (λ g. IsPickFault g picking.now.header picking.now.sieve x)) }
    ensures touched { IfSome (S.held source.old) (λ g. LogsIn (picked_ranges g picking.now.header picking.now.sieve)
        (S.ranges source.old) (S.ranges source.new)) }
    ensures stays { SourceStays S.held S.attached S.ranges source.old source.new
        × SinkStays K.created K.contents sink.old sink.new × WindowStays window.old window.new
        × (len rows.new ≡ len rows.old) }
    ensures row { IfRefused result IsOfSomeRow }
    ensures cause { Rewrites (S.tally source.old) (S.tally source.new) (K.tally sink.old) (K.tally sink.new) result }
{
    ranges_law();
    scattered_law();
    shape_law();
    tiles_law();
    let image = &picking.image;
    let sieve = &picking.sieve;
    // This call shows that the sieve is one of the image.
    let _part = cutout_axes(&image.plan.shape, sieve);
    let most = 2 * window.workers() as usize;
    let mut tiles = [0; MOST_TILES];
    let mut count = 0;
    let grid = Grid::new(image.plan.shape, image.plan.tile);
    for tile in grid.sieve_tiles(sieve) {
        if count == most {
            let round = &tiles[..count];
            write_round(crew, source, sink, window, picking, round, rows)?;
            count = 0;
        }
        tiles[count] = tile;
        count += 1;
    }
    let round = &tiles[..count];
    write_round(crew, source, sink, window, picking, round, rows)
}

// Writes the picks of these tiles.
fn write_round<R: Threads + Sync, S: Source, K: Sink, G: Gate>(
    crew: &Crew<'_, R, G>,
    source: &mut S,
    sink: &mut K,
    window: &mut Window,
    picking: &Picking,
    tiles: &[u32],
    rows: &mut [u8],
) -> Result<(), Stop>
    requires picking { IsPickable picking.now }
    requires within { StandsWithin (S.attached source.old) picking.now.image.table }
    requires said { IfSome (S.held source.old) (λ g. IsSaid g picking.now.header picking.now.image) }
    requires tiles { (i : ℕ) → i < len tiles.now → slice_index tiles.now i < tiles_in picking.now.image.plan }
    requires picked { (i : ℕ) → i < len tiles.now → IsTrue
        (has_pixel (part_lengths (lengths_of picking.now.image.plan.shape) (lengths_of picking.now.image.plan.tile) picking.now.sieve
        (slice_index tiles.now i))) }
    requires few { len tiles.now ≤ 2 * window.old.workers }
    requires created { IsTrue (K.created sink.old) }
    requires window { HaveRoom picking.now.image window.old }
    requires rows { 4096 ≤ len rows.old }
    ensures pixels { OnOk result (AreWrittenParts (S.held source.old) picking.now.header picking.now.image.plan picking.now.sieve
        picking.now.data_at tiles.now (K.contents sink.old) (K.contents sink.new)) }
    ensures fault { IfRefused result (λ x. IfSome (S.held source.old)
        (λ g. IsFirstRowFault g (map (image_row picking.now.header) tiles.now) (Some x))) }
    ensures touched { IfSome (S.held source.old)
        (λ g. LogsIn (fetched_ranges g picking.now.header tiles.now) (S.ranges source.old) (S.ranges source.new)) }
    ensures stays { SourceStays S.held S.attached S.ranges source.old source.new
        × SinkStays K.created K.contents sink.old sink.new × WindowStays window.old window.new
        × (len rows.new ≡ len rows.old) }
    ensures row { IfRefused result IsOfSomeRow }
    ensures cause { Rewrites (S.tally source.old) (S.tally source.new) (K.tally sink.old) (K.tally sink.new) result }
{
    shape_law();
    let header = &picking.header;
    let image = &picking.image;
    let sieve = &picking.sieve;
    // This call shows that the part has no more than 2^40 pixels.
    let _part = cutout_axes(&image.plan.shape, sieve);
    fetch_tiles(crew, source, header, image, tiles, rows, window)?;
    scatter_picks(sink, picking.data_at, &image.plan, sieve, tiles, window)
}
