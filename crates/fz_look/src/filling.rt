//! The pixels of a box, decoded into the band.
ghost use Rattle.std.specs.Prelude.{◌≡◌, ◌+◌, ◌*◌, ◌<◌, ◌≤◌, IfOk, IfSome, OnOk, length as len};
ghost use Rattle.fz_base.specs.Keeps.{SourceStays};
ghost use Rattle.fz_base.specs.Ranges.{LogsIn};
ghost use Rattle.fz_base.specs.Stop.{IfRefused, ReadsOnly};
ghost use Rattle.fz_grid.specs.Region.{IsDivided};
ghost use Rattle.fz_files.specs.Packed.{tiles_in};
ghost use Rattle.fz_files.specs.Restored.{pixels_of};
ghost use Rattle.fz_files.specs.Touched.{touched_by};
ghost use Rattle.fz_files.specs.declared.job.Job.TheVariants.{Unpack};
ghost use Rattle.fz_job.specs.Images.{IsReadable};
ghost use Rattle.fz_pixels.specs.Marks.{IsPartFetched};
ghost use Rattle.fz_fetch.specs.Rows.{StandsWithin};
ghost use Rattle.fz_job.specs.Clauses.{IsOfSomeRow};
ghost use Rattle.fz_look.specs.Boxes.{HasBox, HasPart, LiesInImage, sieve_in};
ghost use Rattle.fz_look.specs.Laws.{IsKnownImage};
ghost use Rattle.fz_look.specs.Marked.{AreMarks, table_in};
ghost use Rattle.fz_look.specs.Placing.{CanPlace, HoldLargest, StaysReading};
ghost use Rattle.fz_look.specs.Scratch.{ScratchStays};

use crate::boxes::sieve_of;
use crate::looked::Space;
use crate::marked::{keep_mark, mark_before, table_at};
use fz_base::{Source, Stop, ranges_law};
use fz_block::Header;
use fz_checks::PackedImage;
use fz_grid::{Grid, Region, Sieve, shape_law, tile_pixels_law, tiles_law};
use fz_head::Plan;
use fz_pixels::{
    fetch_part, fetch_tile, part_span, part_start, place_between, place_part, scattered_law,
};

/// Puts the pixels of a box into the band: the part of each tile that has some of them.
///
/// Refused: the row of a tile is faulty. Of a source that shows its bytes the look found that none is.
pub fn fill_band<S: Source>(
    source: &mut S,
    header: &Header,
    image: &PackedImage,
    region: &Region,
    space: &mut Space,
) -> Result<(), Stop>
    requires image { IsReadable image.now }
    requires within { StandsWithin (S.attached source.old) image.now.table }
    requires known { IfSome (S.held source.old) (λ g. IsKnownImage g header.now image.now) }
    requires region { LiesInImage image.now.plan region.now (len space.old.band) }
    requires numbers { 2 * pixels_of image.now.plan 0 ≤ len space.old.numbers }
    requires code { 8 * pixels_of image.now.plan 0 + 64 ≤ len space.old.code }
    requires marks { IfSome (S.held source.old) (λ g. AreMarks g header.now (table_in image.now.plan.codec space.old.numbers)) }
    ensures filled { OnOk result (IfSome (S.held source.old) (λ g. HasBox g header.now (sieve_in region.now) space.new.band)) }
    ensures marks { IfSome (S.held source.old) (λ g. AreMarks g header.now (table_in image.now.plan.codec space.new.numbers)) }
    ensures row { IfRefused result IsOfSomeRow }
    ensures never { IfSome (S.held source.old) (λ g. IfRefused result (λ x. ⊥)) }
    ensures read { IfSome (S.held source.old) (λ g. LogsIn (touched_by Unpack g) (S.ranges source.old) (S.ranges source.new)) }
    ensures stays { SourceStays S.held S.attached S.ranges source.old source.new × ScratchStays space.old space.new }
    ensures cause { ReadsOnly (S.tally source.old) (S.tally source.new) result }
{
    ranges_law();
    scattered_law();
    tiles_law();
    let sieve = sieve_of(&image.plan.shape, region);
    let grid = Grid::new(image.plan.shape, image.plan.tile);
    for tile in grid.sieve_tiles(&sieve) {
        put_tile(source, header, image, &sieve, tile, space)?;
    }
    Ok(())
}

// Decodes what is wanted of a tile, and puts it into the band. The numbers after those of a tile are the table of marks.
fn put_tile<S: Source>(
    source: &mut S,
    header: &Header,
    image: &PackedImage,
    sieve: &Sieve,
    tile: u32,
    space: &mut Space,
) -> Result<(), Stop>
    requires tile { CanPlace (S.held source.old) (S.attached source.old) header.now image.now tile sieve.now (len space.old.band) }
    requires numbers { 2 * pixels_of image.now.plan 0 ≤ len space.old.numbers }
    requires code { 8 * pixels_of image.now.plan 0 + 64 ≤ len space.old.code }
    requires marks { IfSome (S.held source.old) (λ g. AreMarks g header.now (table_in image.now.plan.codec space.old.numbers)) }
    ensures placed { OnOk result (IfSome (S.held source.old)
        (λ g. HasPart g header.now image.now.plan sieve.now tile space.old.band space.new.band)) }
    ensures marks { IfSome (S.held source.old) (λ g. AreMarks g header.now (table_in image.now.plan.codec space.new.numbers)) }
    ensures stays { StaysReading S.held S.attached S.ranges S.tally source.old source.new result
        × ScratchStays space.old space.new }
{
    let numbers = space.numbers.as_mut_slice();
    let code = space.code.as_mut_slice();
    let band = space.band.as_mut_slice();
    let one = PackedTile {
        header,
        image,
        number: tile,
    };
    put_beside(source, &one, sieve, numbers, code, band)
}

/// A tile of a packed image: the header of its HDU, the image, and its number.
#[derive(Drop)]
pub(crate) struct PackedTile<'a> {
    /// The header of the HDU.
    pub(crate) header: &'a Header,
    /// The image that is in it.
    pub(crate) image: &'a PackedImage,
    /// The number of the tile, from 0.
    pub(crate) number: u32,
}

// The same with the buffers one by one.
fn put_beside<S: Source>(
    source: &mut S,
    tile: &PackedTile<'_>,
    sieve: &Sieve,
    numbers: &mut [i32],
    code: &mut [u8],
    band: &mut [u8],
) -> Result<(), Stop>
    requires tile { CanPlace (S.held source.old) (S.attached source.old) tile.now.header.now tile.now.image.now tile.now.number sieve.now (len band.old) }
    requires numbers { 2 * pixels_of tile.now.image.now.plan 0 ≤ len numbers.old }
    requires code { 8 * pixels_of tile.now.image.now.plan 0 + 64 ≤ len code.old }
    requires marks { IfSome (S.held source.old) (λ g. AreMarks g tile.now.header.now (table_in tile.now.image.now.plan.codec numbers.old)) }
    ensures placed { OnOk result (IfSome (S.held source.old)
        (λ g. HasPart g tile.now.header.now tile.now.image.now.plan sieve.now tile.now.number band.old band.new)) }
    ensures marks { IfSome (S.held source.old) (λ g. AreMarks g tile.now.header.now (table_in tile.now.image.now.plan.codec numbers.new)) }
    ensures stays { StaysReading S.held S.attached S.ranges S.tally source.old source.new result
        × (len numbers.new ≡ len numbers.old) × (len code.new ≡ len code.old) × (len band.new ≡ len band.old) }
{
    let image = tile.image;
    let at = table_at(image.plan.codec, numbers.len());
    let (front, table) = numbers.split_at_mut(at);
    put_part(source, tile, sieve, front, table, code, band)
}

// The same with the table apart from the numbers: a stretch of the tile, or the whole tile.
fn put_part<S: Source>(
    source: &mut S,
    tile: &PackedTile<'_>,
    sieve: &Sieve,
    numbers: &mut [i32],
    table: &mut [i32],
    code: &mut [u8],
    band: &mut [u8],
) -> Result<(), Stop>
    requires tile { CanPlace (S.held source.old) (S.attached source.old) tile.now.header.now tile.now.image.now tile.now.number sieve.now (len band.old) }
    requires rooms { HoldLargest tile.now.image.now.plan (len numbers.old) (len code.old) }
    requires marks { IfSome (S.held source.old) (λ g. AreMarks g tile.now.header.now table.old) }
    ensures placed { OnOk result (IfSome (S.held source.old)
        (λ g. HasPart g tile.now.header.now tile.now.image.now.plan sieve.now tile.now.number band.old band.new)) }
    ensures marks { IfSome (S.held source.old) (λ g. AreMarks g tile.now.header.now table.new) }
    ensures stays { StaysReading S.held S.attached S.ranges S.tally source.old source.new result
        × (len numbers.new ≡ len numbers.old) × (len table.new ≡ len table.old) × (len code.new ≡ len code.old)
        × (len band.new ≡ len band.old) }
{
    ranges_law();
    shape_law();
    tile_pixels_law();
    let image = tile.image;
    let (first, end) = part_span(&image.plan, sieve, tile.number);
    let wanted = Stretch { first, end };
    let read = read_stretch(source, tile, wanted, numbers, table, code)?;
    match read {
        Some(part) => {
            place_between(
                &image.plan,
                sieve,
                tile.number,
                part.first,
                part.end,
                numbers,
                band,
            );
            Ok(())
        }
        None => put_whole(source, tile, sieve, numbers, code, band),
    }
}

/// Pixels of a tile that follow each other: the first of them, and the one after the last.
#[derive(Clone, Copy, Debug)]
pub(crate) struct Stretch {
    pub(crate) first: u32,
    pub(crate) end: u32,
}

// Reads a stretch of a tile, if the tile is read in parts and has more pixels, and keeps the mark after it. It is read from the
// mark on that was kept before, if that is not after its first pixel. Answers what was read, which can be more.
fn read_stretch<S: Source>(
    source: &mut S,
    tile: &PackedTile<'_>,
    wanted: Stretch,
    numbers: &mut [i32],
    table: &mut [i32],
    code: &mut [u8],
) -> Result<Option<Stretch>, Stop>
    requires image { IsReadable tile.now.image.now }
    requires within { StandsWithin (S.attached source.old) tile.now.image.now.table }
    requires known { IfSome (S.held source.old) (λ g. IsKnownImage g tile.now.header.now tile.now.image.now) }
    requires tile { tile.now.number < tiles_in tile.now.image.now.plan }
    requires some { wanted.first < wanted.end }
    requires end { wanted.end ≤ pixels_of tile.now.image.now.plan tile.now.number }
    requires numbers { pixels_of tile.now.image.now.plan 0 ≤ len numbers.old }
    requires code { 8 * pixels_of tile.now.image.now.plan 0 + 64 ≤ len code.old }
    requires marks { IfSome (S.held source.old) (λ g. AreMarks g tile.now.header.now table.old) }
    ensures fetched { IfOk result (λ read. IfSome read
        (λ part. IsPartFetched (S.held source.old) tile.now.header.now tile.now.image.now.plan tile.now.number part.first part.end numbers.new)) }
    ensures wanted { IfOk result (λ read. IfSome read
        (λ part. (part.first ≤ wanted.first) × (wanted.end ≤ part.end) × (part.end ≤ pixels_of tile.now.image.now.plan tile.now.number))) }
    ensures marks { IfSome (S.held source.old) (λ g. AreMarks g tile.now.header.now table.new) }
    ensures stays { StaysReading S.held S.attached S.ranges S.tally source.old source.new result
        × (len numbers.new ≡ len numbers.old) × (len table.new ≡ len table.old) × (len code.new ≡ len code.old) }
{
    let image = tile.image;
    if is_whole(&image.plan, wanted) {
        return Ok(None);
    }
    let from = mark_before(table, tile.number, wanted.first);
    let part = fetch_part(
        source,
        tile.header,
        image,
        tile.number,
        from,
        wanted.end,
        numbers,
        code,
    )?;
    let Some(next) = part else {
        return Ok(None);
    };
    keep_mark(table, tile.number, next);
    Ok(Some(Stretch {
        first: part_start(from),
        end: next.pixel,
    }))
}

// Whether as many pixels are wanted as the largest tile has: then none is left to be read on.
fn is_whole(plan: &Plan, wanted: Stretch) -> bool
    requires divided { IsDivided plan.now.shape plan.now.tile }
    requires some { wanted.first < wanted.end }
{
    wanted.end - wanted.first == Grid::new(plan.shape, plan.tile).largest()
}

// Decodes a whole tile, and puts its part into the band.
fn put_whole<S: Source>(
    source: &mut S,
    tile: &PackedTile<'_>,
    sieve: &Sieve,
    numbers: &mut [i32],
    code: &mut [u8],
    band: &mut [u8],
) -> Result<(), Stop>
    requires tile { CanPlace (S.held source.old) (S.attached source.old) tile.now.header.now tile.now.image.now tile.now.number sieve.now (len band.old) }
    requires rooms { HoldLargest tile.now.image.now.plan (len numbers.old) (len code.old) }
    ensures placed { OnOk result (IfSome (S.held source.old)
        (λ g. HasPart g tile.now.header.now tile.now.image.now.plan sieve.now tile.now.number band.old band.new)) }
    ensures stays { StaysReading S.held S.attached S.ranges S.tally source.old source.new result
        × (len numbers.new ≡ len numbers.old) × (len code.new ≡ len code.old) × (len band.new ≡ len band.old) }
{
    shape_law();
    tile_pixels_law();
    let image = tile.image;
    fetch_tile(source, tile.header, image, tile.number, numbers, code)?;
    place_part(&image.plan, sieve, tile.number, numbers, band);
    Ok(())
}
