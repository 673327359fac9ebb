//! One tile, read and decoded without a window.
ghost use Rattle.std.specs.Prelude.{◌≡◌, ◌+◌, ◌*◌, ◌<◌, ◌≤◌, [], ◌∷◌, OnOk, IfOk, IfSome, take, length as len};
ghost use Rattle.fz_base.specs.Keeps.{SourceStays};
ghost use Rattle.fz_base.specs.Ranges.{LogsIn};
ghost use Rattle.fz_base.specs.Stop.{IfRefused, ReadsOnly};
ghost use Rattle.fz_table.specs.Reads.{row_ranges, tile_ranges};
ghost use Rattle.fz_table.specs.Records.{IsOfRow, StandsInHeap, record_bytes};
ghost use Rattle.fz_grid.specs.Region.{IsDivided};
ghost use Rattle.fz_tile.specs.Codecs.{CanRead};
ghost use Rattle.fz_tile.specs.Pixels.{HoldTile, IsBitpix, pixel_count, place_count as place_count_of};
ghost use Rattle.fz_tile.specs.Record.{read_len};
ghost use Rattle.fz_files.specs.FirstFault.{IsRowFault, image_row};
ghost use Rattle.fz_files.specs.Packed.{pixel_bits, tiles_in};
ghost use Rattle.fz_files.specs.Restored.{pixels_of, place_in as place_in_column, tile_of};
ghost use Rattle.fz_pixels.specs.Decoded.{Decodes};
ghost use Rattle.fz_fetch.specs.Fetched.{IsFetched};
ghost use Rattle.fz_job.specs.Images.{fetched_ranges, IsReadable, IsSaid};
ghost use Rattle.fz_fetch.specs.Loaded.{IsRecordIn, IsRefusedIn};
ghost use Rattle.fz_fetch.specs.Rows.{StandsWithin};

use crate::bytes::place_count;
use fz_base::{Source, Stop, log_law, ranges_law};
use fz_block::Header;
use fz_checks::PackedImage;
use fz_fetch::{faulty, known_tile, place_in, row_of};
use fz_head::Plan;
use fz_table::{Record, read_record, record_of};
use fz_tile::{TileFault, decode_tile};

/// Reads a tile of the packed image in the HDU with this header, and decodes it into the first numbers. `code` has room
/// for what is read of a record of the image.
///
/// Refused: the row is faulty, as `fetch_tiles` refuses it.
pub fn fetch_tile<S: Source>(
    source: &mut S,
    header: &Header,
    image: &PackedImage,
    tile: u32,
    numbers: &mut [i32],
    code: &mut [u8],
) -> Result<(), Stop>
    requires image { IsReadable image.now }
    requires within { StandsWithin (S.attached source.old) image.now.table }
    requires said { IfSome (S.held source.old) (λ g. IsSaid g header.now image.now) }
    requires tile { tile < tiles_in image.now.plan }
    requires numbers { place_count_of (pixel_bits image.now.plan) (pixels_of image.now.plan 0) ≤ len numbers.old }
    requires code { 8 * pixels_of image.now.plan 0 + 64 ≤ len code.old }
    ensures fetched { OnOk result (IsFetched (S.held source.old) header.now image.now.plan tile numbers.new) }
    ensures row { IfRefused result (IsOfRow header.now.hdu tile) }
    ensures fault { IfRefused result (λ x. IfSome (S.held source.old) (λ g. IsRowFault g (image_row header.now tile) x)) }
    ensures read { IfSome (S.held source.old) (λ g. LogsIn (fetched_ranges g header.now (tile ∷ [])) (S.ranges source.old) (S.ranges source.new)) }
    ensures stays { SourceStays S.held S.attached S.ranges source.old source.new × (len numbers.new ≡ len numbers.old)
        × (len code.new ≡ len code.old) }
    ensures cause { ReadsOnly (S.tally source.old) (S.tally source.new) result }
{
    let found = read_tile(source, header.hdu, image, tile, code)?;
    let code = &code[..found.read as usize];
    match decode_record(&image.plan, tile, &found, code, numbers) {
        Ok(()) => Ok(()),
        Err(fault) => Err(faulty(header.hdu, tile, fault)),
    }
}

// Finds the record of a tile, and reads it into the front of the code.
fn read_tile<S: Source>(
    source: &mut S,
    hdu: u32,
    image: &PackedImage,
    tile: u32,
    code: &mut [u8],
) -> Result<Record, Stop>
    requires image { IsReadable image.now }
    requires within { StandsWithin (S.attached source.old) image.now.table }
    requires tile { tile < tiles_in image.now.plan }
    requires code { 8 * pixels_of image.now.plan 0 + 64 ≤ len code.old }
    ensures found { IfOk result (λ found. IfSome (S.held source.old) (λ g. IsRecordIn g hdu image.now tile found)) }
    ensures bytes { IfOk result (λ found. IfSome (S.held source.old) (λ g. take found.read code.new ≡ record_bytes g found)) }
    ensures read_len { IfOk result (λ found. found.read ≡ read_len (pixels_of image.now.plan tile) found.total) }
    ensures room { IfOk result (λ found. found.read ≤ len code.new) }
    ensures row { IfRefused result (IsOfRow hdu tile) }
    ensures refused { IfRefused result (λ x. IfSome (S.held source.old) (λ g. IsRefusedIn g hdu image.now tile x)) }
    ensures read { IfSome (S.held source.old) (λ g. LogsIn (tile_ranges g hdu image.now.table tile (tile_of image.now.plan tile))
        (S.ranges source.old) (S.ranges source.new)) }
    ensures stays { SourceStays S.held S.attached S.ranges source.old source.new × (len code.new ≡ len code.old) }
    ensures cause { ReadsOnly (S.tally source.old) (S.tally source.new) result }
{
    ranges_law();
    log_law();
    let found = find_tile(source, hdu, image, tile)?;
    read_record(source, &found, code)?;
    Ok(found)
}

/// Finds the record of a tile.
pub(crate) fn find_tile<S: Source>(
    source: &mut S,
    hdu: u32,
    image: &PackedImage,
    tile: u32,
) -> Result<Record, Stop>
    requires image { IsReadable image.now }
    requires within { StandsWithin (S.attached source.old) image.now.table }
    requires tile { tile < tiles_in image.now.plan }
    ensures found { IfOk result (λ found. IfSome (S.held source.old) (λ g. IsRecordIn g hdu image.now tile found)) }
    ensures within { IfOk result (StandsInHeap image.now.table (tile_of image.now.plan tile)) }
    ensures most { IfOk result (λ found. found.read ≤ 8 * pixels_of image.now.plan 0 + 64) }
    ensures row { IfRefused result (IsOfRow hdu tile) }
    ensures refused { IfRefused result (λ x. IfSome (S.held source.old) (λ g. IsRefusedIn g hdu image.now tile x)) }
    ensures read { LogsIn (row_ranges image.now.table tile) (S.ranges source.old) (S.ranges source.new) }
    ensures source { SourceStays S.held S.attached S.ranges source.old source.new }
    ensures cause { ReadsOnly (S.tally source.old) (S.tally source.new) result }
{
    log_law();
    let says = row_of(source, &image.table, None, 0, tile)?;
    let known = known_tile(&image.plan, tile);
    let found = record_of(hdu, tile, &image.table, &says, &known).map_err(Stop::Refused)?;
    Ok(found)
}

// Decodes a record into the first numbers.
fn decode_record(
    plan: &Plan,
    tile: u32,
    found: &Record,
    code: &[u8],
    numbers: &mut [i32],
) -> Result<(), TileFault>
    requires divided { IsDivided plan.now.shape plan.now.tile }
    requires codec { CanRead plan.now.codec plan.now.bitpix }
    requires tile { tile < tiles_in plan.now }
    requires read { len code.now ≡ read_len (pixels_of plan.now tile) found.now.total }
    requires numbers { place_count_of (pixel_bits plan.now) (pixels_of plan.now 0) ≤ len numbers.old }
    ensures decodes { Decodes plan.now.codec (pixel_bits plan.now) (place_in_column found.now.column) found.now.total
        (pixels_of plan.now tile) code.now (take (place_count_of (pixel_bits plan.now) (pixels_of plan.now tile)) numbers.new) result }
    ensures len { len numbers.new ≡ len numbers.old }
{
    let places = places_of(plan, tile);
    let (front, _others) = numbers.split_at_mut(places);
    decode_numbers(plan, found, code, front)
}

// How many places the pixels of a tile take.
fn places_of(plan: &Plan, tile: u32) -> usize
    requires divided { IsDivided plan.now.shape plan.now.tile }
    requires size { IsBitpix plan.now.bitpix }
    requires tile { tile < tiles_in plan.now }
    ensures places { result ≡ place_count_of (pixel_bits plan.now) (pixels_of plan.now tile) }
    ensures whole { HoldTile (pixel_bits plan.now) result }
    ensures pixels { pixel_count (pixel_bits plan.now) result ≡ pixels_of plan.now tile }
    ensures most { result ≤ place_count_of (pixel_bits plan.now) (pixels_of plan.now 0) }
{
    place_count(plan.bitpix, u64::from(known_tile(plan, tile).pixels)) as usize
}

// Decodes a record into as many numbers as its pixels take.
fn decode_numbers(
    plan: &Plan,
    found: &Record,
    code: &[u8],
    numbers: &mut [i32],
) -> Result<(), TileFault>
    requires codec { CanRead plan.now.codec plan.now.bitpix }
    requires tile { HoldTile (pixel_bits plan.now) (len numbers.old) }
    requires read { len code.now ≡ read_len (pixel_count (pixel_bits plan.now) (len numbers.old)) found.now.total }
    ensures { Decodes plan.now.codec (pixel_bits plan.now) (place_in_column found.now.column) found.now.total
        (pixel_count (pixel_bits plan.now) (len numbers.old)) code.now numbers.new result }
{
    decode_tile(
        plan.codec,
        plan.bitpix,
        place_in(found.column),
        code,
        found.total,
        numbers,
    )
}
