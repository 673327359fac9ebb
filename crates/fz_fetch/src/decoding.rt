//! The tiles of a packed image, decoded round by round.
ghost use Rattle.std.specs.Prelude.{◌≡◌, ◌+◌, ◌*◌, ◌≤◌, Some, None, map, length as len, IfSome, OnOk};
ghost use Rattle.std.specs.List.{range_with_len};
ghost use Rattle.fz_base.specs.Keeps.{SourceStays};
ghost use Rattle.fz_base.specs.Ranges.{LogsIn};
ghost use Rattle.fz_base.specs.Stop.{IfRefused};
ghost use Rattle.fz_files.specs.FirstFault.{IsFirstRowFault, image_row, rows_of};
ghost use Rattle.fz_files.specs.Packed.{tiles_in};
ghost use Rattle.fz_fetch.specs.Ahead.{IsAhead};
ghost use Rattle.fz_fetch.specs.Fetched.{AreFetched};
ghost use Rattle.fz_job.specs.Images.{HaveRoom, IsReadable, IsSaid};
ghost use Rattle.fz_fetch.specs.Rows.{StandsWithin};
ghost use Rattle.fz_fetch.specs.Stops.{Fetches};
ghost use Rattle.fz_job.specs.Clauses.{IsOfSomeRow};
ghost use Rattle.fz_files.specs.Touched.{image_ranges};
ghost use Rattle.fz_pool.specs.Window.{WindowStays};
ghost use Rattle.fz_fetch.specs.Decoding.{CanDecode, JudgesRound};

use crate::ahead::Ahead;
use crate::fetching::{fetch_ahead, fetch_tiles};
use crate::tiles::{MOST_TILES, number_tiles};
use fz_base::{Gate, Source, Stop, ranges_law};
use fz_block::Header;
use fz_checks::PackedImage;
use fz_grid::Grid;
use fz_job::hdus_law;
use fz_pool::{Crew, Window};
use std::thread::Threads;

/// An image in the file, and the header of its table.
#[derive(Clone, Copy)]
pub struct ImageIn<'h> {
    /// The facts of the header.
    pub header: &'h Header,
    /// The image that the header says.
    pub image: &'h PackedImage,
}

/// The tiles of a round, which are one after another.
#[derive(Clone, Copy)]
pub struct Round {
    /// The number of the first.
    pub first: u32,
    /// How many there are.
    pub count: u32,
}

/// Decodes all tiles of a packed image, round by round, and keeps no pixels. `rows` has room for the rows of a round; in
/// what is longer of it records are read that are wanted later.
///
/// Refused: the lowest faulty row, as `fetch_tiles` refuses it.
pub fn decode_tiles<R: Threads + Sync, S: Source, G: Gate>(
    crew: &Crew<'_, R, G>,
    source: &mut S,
    window: &mut Window,
    header: &Header,
    image: &PackedImage,
    rows: &mut [u8],
) -> Result<(), Stop>
    requires image { IsReadable image.now }
    requires within { StandsWithin (S.attached source.old) image.now.table }
    requires said { IfSome (S.held source.old) (λ g. IsSaid g header.now image.now) }
    requires window { HaveRoom image.now window.old }
    requires rows { 4096 ≤ len rows.old }
    ensures sound { OnOk result (IfSome (S.held source.old) (λ g. IsFirstRowFault g (rows_of g header.now) None)) }
    ensures fault { IfRefused result (λ x. IfSome (S.held source.old) (λ g. IsFirstRowFault g (rows_of g header.now) (Some x))) }
    ensures row { IfRefused result IsOfSomeRow }
    ensures stays { SourceStays S.held S.attached S.ranges source.old source.new × WindowStays window.old window.new
        × (len rows.new ≡ len rows.old) }
    ensures read { IfSome (S.held source.old) (λ g. LogsIn (image_ranges g header.now) (S.ranges source.old) (S.ranges source.new)) }
    ensures cause { Fetches (S.tally source.old) (S.tally source.new) result }
{
    ranges_law();
    let tiles = Grid::new(image.plan.shape, image.plan.tile).tile_count();
    let mut ahead = Ahead::none();
    let mut first = 0;
    while first < tiles {
        let count = (2 * window.workers()).min(tiles - first);
        let packed = ImageIn { header, image };
        let round = Round { first, count };
        decode_ahead(crew, source, window, packed, round, rows, &mut ahead)?;
        first += count;
    }
    Ok(())
}

// Decodes the tiles of a round into the first slots of the window. Rows and records that are wanted later are read together
// with theirs, into `rows`.
fn decode_ahead<R: Threads + Sync, S: Source, G: Gate>(
    crew: &Crew<'_, R, G>,
    source: &mut S,
    window: &mut Window,
    packed: ImageIn<'_>,
    round: Round,
    rows: &mut [u8],
    ahead: &mut Ahead,
) -> Result<(), Stop>
    requires round { CanDecode (S.held source.old) (S.attached source.old) packed.header.now packed.image.now round.first round.count window.old }
    requires ahead { IsAhead (S.held source.old) packed.image.now.table rows.old ahead.old }
    ensures judged { JudgesRound (S.held source.old) packed.entry.header.now round.first round.count (S.ranges source.old) (S.ranges source.new) result }
    ensures ahead { IsAhead (S.held source.new) packed.entry.image.now.table rows.new ahead.new }
    ensures stays { SourceStays S.held S.attached S.ranges source.old source.new × WindowStays window.old window.new
        × (len rows.new ≡ len rows.old) }
    ensures cause { Fetches (S.tally source.old) (S.tally source.new) result }
{
    hdus_law();
    let mut numbers = [0; MOST_TILES];
    let tiles = &mut numbers[..round.count as usize];
    number_tiles(round.first, tiles);
    let (header, image) = (packed.header, packed.image);
    fetch_ahead(crew, source, header, image, tiles, rows, ahead, window)
}

/// Decodes the tiles of a round into the first slots of the window. `rows` has room for their rows, and no other rows are
/// read.
///
/// Refused: the lowest faulty row of the round, as `fetch_tiles` refuses it.
pub fn decode_round<R: Threads + Sync, S: Source, G: Gate>(
    crew: &Crew<'_, R, G>,
    source: &mut S,
    window: &mut Window,
    packed: ImageIn<'_>,
    round: Round,
    rows: &mut [u8],
) -> Result<(), Stop>
    requires image { IsReadable packed.image.now }
    requires within { StandsWithin (S.attached source.old) packed.image.now.table }
    requires said { IfSome (S.held source.old) (λ g. IsSaid g packed.header.now packed.image.now) }
    requires tiles { round.first + round.count ≤ tiles_in packed.image.now.plan }
    requires near { round.count ≤ 2 * window.old.workers }
    requires few { round.count ≤ 128 }
    requires window { HaveRoom packed.image.now window.old }
    requires rows { 4096 ≤ len rows.old }
    ensures fetched { OnOk result (AreFetched (S.held source.old) packed.entry.header.now packed.entry.image.now.plan
        (range_with_len round.first round.count) window.new.slots) }
    ensures sound { OnOk result (IfSome (S.held source.old)
        (λ g. IsFirstRowFault g (map (image_row packed.entry.header.now) (range_with_len round.first round.count)) None)) }
    ensures fault { IfRefused result (λ x. IfSome (S.held source.old)
        (λ g. IsFirstRowFault g (map (image_row packed.entry.header.now) (range_with_len round.first round.count)) (Some x))) }
    ensures row { IfRefused result IsOfSomeRow }
    ensures stays { SourceStays S.held S.attached S.ranges source.old source.new × WindowStays window.old window.new
        × (len rows.new ≡ len rows.old) }
    ensures read { IfSome (S.held source.old) (λ g. LogsIn (image_ranges g packed.entry.header.now) (S.ranges source.old) (S.ranges source.new)) }
    ensures cause { Fetches (S.tally source.old) (S.tally source.new) result }
{
    hdus_law();
    let mut numbers = [0; MOST_TILES];
    let tiles = &mut numbers[..round.count as usize];
    number_tiles(round.first, tiles);
    let (header, image) = (packed.header, packed.image);
    fetch_tiles(crew, source, header, image, tiles, rows, window)
}
