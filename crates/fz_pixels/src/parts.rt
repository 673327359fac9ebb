//! One tile, of whose code a part is read and decoded.
ghost use Rattle.std.specs.Prelude.{ℕ, ◌≡◌, ◌+◌, ◌-◌, ◌*◌, ◌%◌, ◌^◌, ◌<◌, ◌≤◌, [], ◌∷◌, All, IfNone, IfOk, IfSome, OnOk, Some, drop, take, length as len};
ghost use Rattle.fz_base.specs.Keeps.{SourceStays};
ghost use Rattle.fz_base.specs.Ranges.{LogsIn};
ghost use Rattle.fz_base.specs.Stop.{IfRefused, IsRefused, ReadsOnly};
ghost use Rattle.fz_bits.specs.Numbers.{IsNumber};
ghost use Rattle.fz_table.specs.Reads.{tile_ranges};
ghost use Rattle.fz_table.specs.Records.{IsOfRow, record_bytes};
ghost use Rattle.fz_tile.specs.Codecs.{CanRead, IsBlock};
ghost use Rattle.fz_tile.specs.declared.codec.Codec.TheVariants.{Rice};
ghost use Rattle.fz_files.specs.FirstFault.{IsRowFault, image_row};
ghost use Rattle.fz_files.specs.Packed.{pixel_bits, tiles_in};
ghost use Rattle.fz_files.specs.Restored.{pixels_of, tile_of};
ghost use Rattle.fz_job.specs.Images.{fetched_ranges, IsReadable, IsSaid};
ghost use Rattle.fz_fetch.specs.Loaded.{IsRefusedIn};
ghost use Rattle.fz_pixels.specs.Marks.{AreOthersKept, IsMarkIn, IsPartFetched, IsReadInParts, part_start};
ghost use Rattle.fz_pixels.specs.Parts.{AreBefore, IsMarkOf, IsRestRead, IsStoredIn, ReadsBetween, blocksize_of};
ghost use Rattle.fz_fetch.specs.Rows.{StandsWithin};

use crate::marks::{TileMark, bytes_before, part_start};
use crate::one::find_tile;
use fz_base::{Source, Stop, log_law, ranges_law};
use fz_block::Header;
use fz_checks::PackedImage;
use fz_fetch::known_tile;
use fz_head::Plan;
use fz_table::{Record, TileColumn, read_rest};
use fz_tile::{Codec, Mark, decode_part, first_part_mark};

/// Reads a part of a tile of the packed image in the HDU with this header, from the mark or else from its first pixel on, and
/// decodes it into the places of its pixels among the numbers. The part ends before pixel `end` or, if that is within a
/// block, after the block. `code` has room for what is read of a record of the image.
///
/// Answers the mark after the part, or None if the tile is not read in parts: it is no Rice code, or the
/// code has no such part. Then the numbers are some values.
///
/// Refused: the row is faulty before its record is read, as `fetch_tiles` refuses it.
pub fn fetch_part<S: Source>(
    source: &mut S,
    header: &Header,
    image: &PackedImage,
    tile: u32,
    from: Option<TileMark>,
    end: u32,
    numbers: &mut [i32],
    code: &mut [u8],
) -> Result<Option<TileMark>, Stop>
    requires image { IsReadable image.now }
    requires within { StandsWithin (S.attached source.old) image.now.table }
    requires said { IfSome (S.held source.old) (λ g. IsSaid g header.now image.now) }
    requires tile { tile < tiles_in image.now.plan }
    requires marked { IfSome (S.held source.old) (λ g. IfSome from (IsMarkIn g header.now tile)) }
    requires some { part_start from < end }
    requires end { end ≤ pixels_of image.now.plan tile }
    requires numbers { pixels_of image.now.plan 0 ≤ len numbers.old }
    requires code { 8 * pixels_of image.now.plan 0 + 64 ≤ len code.old }
    ensures fetched { IfOk result (λ part. IfSome part (λ next.
        IsPartFetched (S.held source.old) header.now image.now.plan tile (part_start from) next.pixel numbers.new)) }
    ensures next { IfOk result (λ part. IfSome part (λ next. IfSome (S.held source.old) (λ g. IsMarkIn g header.now tile next))) }
    ensures reach { IfOk result (λ part. IfSome part (λ next. (end ≤ next.pixel) × (next.pixel ≤ pixels_of image.now.plan tile))) }
    ensures near { IfOk result (λ part. IfSome part (λ next. (block bytepix : ℕ) → image.now.plan.codec ≡ Rice block bytepix
        → next.pixel < end + block)) }
    ensures places { IfOk result (λ part. IfSome part (λ next. AreOthersKept (part_start from) next.pixel numbers.old numbers.new)) }
    ensures none { IfOk result (λ part. IfNone part (IfSome (S.held source.old) (λ g. IsReadInParts g header.now tile → ⊥))) }
    ensures row { IfRefused result (IsOfRow header.now.hdu tile) }
    ensures fault { IfRefused result (λ x. IfSome (S.held source.old) (λ g. IsRowFault g (image_row header.now tile) x)) }
    ensures read { IfSome (S.held source.old) (λ g. LogsIn (fetched_ranges g header.now (tile ∷ [])) (S.ranges source.old) (S.ranges source.new)) }
    ensures stays { SourceStays S.held S.attached S.ranges source.old source.new × (len numbers.new ≡ len numbers.old)
        × (len code.new ≡ len code.old) }
    ensures cause { ReadsOnly (S.tally source.old) (S.tally source.new) result }
{
    ranges_law();
    let Some(block) = block_of(image.plan.codec) else {
        return Ok(None);
    };
    let part = read_code(source, header.hdu, image, tile, from, code)?;
    let Some(found) = part else {
        return Ok(None);
    };
    let skipped = bytes_before(from, found.read);
    let code = &code[..(found.read - skipped) as usize];
    let last = block_end(block, end, known_tile(&image.plan, tile).pixels);
    Ok(decode_between(&image.plan, code, from, skipped, last, numbers))
}

// Finds the record of a tile. If it is a code, reads it without the whole bytes before the mark into the front of the buffer.
fn read_code<S: Source>(
    source: &mut S,
    hdu: u32,
    image: &PackedImage,
    tile: u32,
    from: Option<TileMark>,
    code: &mut [u8],
) -> Result<Option<Record>, Stop>
    requires image { IsReadable image.now }
    requires within { StandsWithin (S.attached source.old) image.now.table }
    requires tile { tile < tiles_in image.now.plan }
    requires code { 8 * pixels_of image.now.plan 0 + 64 ≤ len code.old }
    ensures rest { IfOk result (λ part. IfSome part (λ found. IsRestRead (S.held source.old) hdu image.now tile from found code.new)) }
    ensures room { IfOk result (λ part. IfSome part (λ found. found.read ≤ len code.new)) }
    ensures stored { IfOk result (λ part. IfNone part (IfSome (S.held source.old) (λ g. IsStoredIn g hdu image.now tile))) }
    ensures row { IfRefused result (IsOfRow hdu tile) }
    ensures refused { IfRefused result (λ x. IfSome (S.held source.old) (λ g. IsRefusedIn g hdu image.now tile x)) }
    ensures read { IfSome (S.held source.old) (λ g. LogsIn (tile_ranges g hdu image.now.table tile (tile_of image.now.plan tile))
        (S.ranges source.old) (S.ranges source.new)) }
    ensures stays { SourceStays S.held S.attached S.ranges source.old source.new × (len code.new ≡ len code.old) }
    ensures cause { ReadsOnly (S.tally source.old) (S.tally source.new) result }
{
    ranges_law();
    log_law();
    let found = find_tile(source, hdu, image, tile)?;
    match found.column {
        TileColumn::Coded => {
            read_left(source, &found, bytes_before(from, found.read), code)?;
            Ok(Some(found))
        }
        TileColumn::Stored => Ok(None),
    }
}

// Reads a record without so many first bytes, if it has more, into the front of the buffer.
fn read_left<S: Source>(
    source: &mut S,
    found: &Record,
    skipped: u64,
    code: &mut [u8],
) -> Result<(), Stop>
    requires within { (n : ℕ) × (S.attached source.old ≡ Some n) × (found.now.start + found.now.total ≤ n) }
    requires skipped { skipped ≤ found.now.read }
    requires first { found.now.read ≤ found.now.total }
    requires room { found.now.read ≤ len code.old }
    ensures bytes { OnOk result (IfSome (S.held source.old)
        (λ g. take (found.now.read - skipped) code.new ≡ drop skipped (record_bytes g found.now))) }
    ensures read { LogsIn ((found.now.start, found.now.read) ∷ []) (S.ranges source.old) (S.ranges source.new) }
    ensures source { SourceStays S.held S.attached S.ranges source.old source.new }
    ensures cause { ReadsOnly (S.tally source.old) (S.tally source.new) result }
    ensures unrefused { ¬ (IsRefused result) }
{
    ranges_law();
    if skipped == found.read {
        return Ok(());
    }
    read_rest(source, found, skipped, code)
}

// BLOCKSIZE of the codes that are read in parts.
fn block_of(codec: Codec) -> Option<u32>
    ensures { result ≡ blocksize_of codec }
{
    match codec {
        Codec::Rice { block, bytepix: _ } => Some(block),
        Codec::Plio | Codec::Plain => None,
    }
}

// The end of the block that pixel `end - 1` is in, of a tile of so many pixels.
fn block_end(block: u32, end: u32, pixels: u32) -> u32
    requires block { IsBlock block }
    requires end { end ≤ pixels }
    requires pixels { pixels ≤ 2 ^ 26 }
    ensures reach { end ≤ result }
    ensures near { result < end + block }
    ensures most { result ≤ pixels }
    ensures whole { result < pixels → result % block ≡ 0 }
{
    let whole = (end + (block - 1)) / block * block;
    whole.min(pixels)
}

// Decodes the pixels from the mark on and before pixel `end` into their places. The bytes are a code without so many first ones.
fn decode_between(
    plan: &Plan,
    code: &[u8],
    from: Option<TileMark>,
    skipped: u64,
    end: u32,
    numbers: &mut [i32],
) -> Option<TileMark>
    requires codec { CanRead plan.now.codec plan.now.bitpix }
    requires before { AreBefore from skipped }
    requires small { (len code.now ≤ 2 ^ 40) × (skipped ≤ 2 ^ 40) }
    requires some { part_start from ≤ end }
    requires numbers { end ≤ len numbers.old }
    ensures part { ReadsBetween plan.now.codec (pixel_bits plan.now) code.now from skipped end numbers.new result }
    ensures range { IfSome result (λ _. All (IsNumber (pixel_bits plan.now)) (take (end - part_start from) (drop (part_start from) numbers.new))) }
    ensures end { IfSome result (λ next. next.pixel ≡ end) }
    ensures others { IfSome result (λ _. AreOthersKept (part_start from) end numbers.old numbers.new) }
    ensures len { len numbers.new ≡ len numbers.old }
{
    let mark = mark_of(plan, code, from, skipped)?;
    let first = part_start(from);
    let next = decode_part(
        plan.codec,
        plan.bitpix,
        code,
        mark,
        &mut numbers[first as usize..end as usize],
    )?;
    let bit = 8 * skipped + next.bit;
    Some(TileMark {
        pixel: end,
        mark: Mark {
            bit,
            last: next.last,
        },
    })
}

// The mark, counted from these bytes on, or that before the first pixel.
fn mark_of(plan: &Plan, code: &[u8], from: Option<TileMark>, skipped: u64) -> Option<Mark>
    requires codec { CanRead plan.now.codec plan.now.bitpix }
    requires code { len code.now ≤ 2 ^ 60 }
    requires before { AreBefore from skipped }
    requires small { skipped ≤ 2 ^ 40 }
    ensures { IsMarkOf plan.now.codec (pixel_bits plan.now) code.now skipped from result }
{
    match from {
        Some(before) => {
            let bits = 8 * skipped;
            let bit = before.mark.bit - bits;
            Some(Mark {
                bit,
                last: before.mark.last,
            })
        }
        None => first_part_mark(plan.codec, plan.bitpix, code),
    }
}
