//! The look at all HDUs of a packed file: every tile is decoded, and the bytes that the HDUs stand for are counted.
ghost use Rattle.std.specs.Prelude.{ℕ, ◌≡◌, ◌⊎◌, ◌+◌, ◌*◌, ◌/◌, ◌^◌, ◌<◌, ◌≤◌, [], ◌∷◌, Some, length as len, replicate, IfOk, IfSome, take};
ghost use Rattle.fz_base.specs.Ranges.{LogsIn};
ghost use Rattle.fz_base.specs.Stop.{IfRefused};
ghost use Rattle.fz_job.specs.Again.{IsAgain, was_primary_image};
ghost use Rattle.fz_job.specs.Hdus.{ReadsHdus};
ghost use Rattle.fz_files.specs.Touched.{data_touched};
ghost use Rattle.fz_files.specs.declared.job.Job.TheVariants.{Unpack};
ghost use Rattle.fz_fetch.specs.Stops.{Fetches};
ghost use Rattle.fz_files.specs.Packed.{pixel_bits};
ghost use Rattle.fz_files.specs.Restored.{pixels_of};
ghost use Rattle.fz_grid.specs.Arrays.{product};
ghost use Rattle.fz_grid.specs.Region.{lengths_of};
ghost use Rattle.fz_pool.specs.Window.{HasSlotsFor, slot_sizes, WindowStays};
ghost use Rattle.fz_job.specs.Workspace.{SpaceStays};
ghost use Rattle.fz_base.specs.Refusal.{refusal};
ghost use Rattle.fz_base.specs.declared.failure.Stop.TheVariants.{Refused};
ghost use Rattle.fz_base.specs.declared.fault.Place.TheVariants.{Byte as AtByte};
ghost use Rattle.fz_base.specs.declared.kind.Kind.TheVariants.{Limit};
ghost use Rattle.fz_base.specs.Keeps.{SourceStays};
ghost use Rattle.fz_files.specs.FirstFault.{IsFirstRowFault, all_rows};
ghost use Rattle.fz_head.specs.Conditions.{IsPackedPlan};
ghost use Rattle.fz_block.specs.Facts.{IsHeaderOf};
ghost use Rattle.fz_block.specs.Header.{next_start_of};
ghost use Rattle.fz_job.specs.Images.{IsReadable};
ghost use Rattle.fz_look.specs.Looked.{IsFaultAmong, IsHduLooked, IsImageCounted, IsSeen, with_counted};

use crate::looked::First;
use fz_base::{Fault, Gate, Kind, Place, Source, Stop, ranges_law};
use fz_block::{BLOCK_LEN, Header, next_start};
use fz_checks::{PackedImage, packed_primary_law};
use fz_fetch::decode_tiles;
use fz_grid::{tiles_law, volume};
use fz_head::to_plain;
use fz_job::{Begun, ReadHdu, Survey, Workspace, changed, hdus_law, read_again};
use fz_pool::{Crew, Window};
use fz_tile::{plain_law, plain_len};
use std::thread::Threads;

/// The most bytes of a file.
const MOST: u64 = 1 << 62;

/// What is learnt of the HDUs of a packed file: the bytes that they stand for, the bytes of the pixels of the largest
/// image among them, and the first HDU that stands for something.
#[derive(Clone, Copy, Debug)]
pub(crate) struct Seen {
    pub(crate) plain_len: u64,
    pub(crate) data_len: u64,
    pub(crate) first: First,
}

/// What one HDU stands for: so many bytes, of which so many are pixels of an image.
#[derive(Clone, Copy, Debug)]
struct Counted {
    all: u64,
    pixels: u64,
}

/// Goes over all HDUs, decodes every tile, and counts the bytes that the HDUs stand for.
///
/// Refused: the lowest faulty row of the first packed image that has one; then a file that stands for more than 2^62
/// bytes (Limit, with the number of its HDUs, at its end). Of a source that gives other bytes than at the first look also
/// an HDU that is no longer the one that was looked at.
pub(crate) fn look_at_hdus<R: Threads + Sync, S: Source, G: Gate>(
    crew: &Crew<'_, R, G>,
    source: &mut S,
    length: u64,
    window: &mut Window,
    survey: &Survey,
    space: &mut Workspace,
) -> Result<Seen, Stop>
    requires attached { S.attached source.old ≡ Some length }
    requires some { 0 < survey.now.hdus }
    requires few { survey.now.hdus ≤ 65536 }
    requires window { slot_sizes window.old.slots ≡ replicate (2 * window.old.workers) (2 * survey.now.tile, 8 * survey.now.tile + 64) }
    requires header { len space.old.header ≡ survey.now.header_len }
    requires translated { len space.old.header + 2880 ≤ len space.old.translated }
    requires copy { 4096 ≤ len space.old.copy }
    requires long { 2880 ≤ survey.now.header_len }
    ensures seen { IfOk result (λ seen. IfSome (S.held source.old) (λ g. IsSeen g survey.now seen)) }
    ensures fault { IfRefused result (λ x. IfSome (S.held source.old) (λ g. IsFaultAmong g survey.now x)) }
    ensures short { IfOk result (λ seen. seen.plain_len ≤ 2 ^ 62) }
    ensures first { IfOk result (λ seen. (seen.first.hdu ≡ 0 → seen.first.start ≡ 0) × (0 < seen.first.hdu → seen.first.start < length)
        × (seen.first.hdu < 2)) }
    ensures stays { SourceStays S.held S.attached S.ranges source.old source.new × SpaceStays space.old space.new
        × WindowStays window.old window.new }
    ensures read { IfSome (S.held source.old) (λ g. ReadsHdus Unpack g survey.now (S.ranges source.old) (S.ranges source.new)) }
    ensures cause { Fetches (S.tally source.old) (S.tally source.new) result }
{
    // What is read of one HDU is read of all; and a packed primary is after an empty one.
    hdus_law();
    packed_primary_law();
    ranges_law();
    let mut seen = Seen {
        plain_len: 0,
        data_len: 0,
        first: First {
            hdu: 0,
            start: 0,
            after_empty: false,
        },
    };
    let mut start = 0;
    let mut after_empty = false;
    for hdu in 0..survey.hdus {
        let buf = space.header.as_mut_slice();
        let begun = Begun {
            hdu,
            start,
            after_empty,
        };
        let again = read_again(source, length, begun, survey.tile, buf)?;
        let counted = look_at_hdu(crew, source, window, &again, space)?;
        seen = with_hdu(&seen, &again, after_empty, &counted);
        start = next_start(&again.header);
        if (start == length) != (hdu + 1 == survey.hdus) {
            return Err(changed(hdu));
        }
        after_empty = again.is_empty_primary();
    }
    if seen.plain_len > MOST {
        return Err(too_long(survey.hdus, length));
    }
    Ok(seen)
}

// What is learnt of the HDUs before and of one more: a primary before a packed primary stands for nothing.
fn with_hdu(seen: &Seen, again: &ReadHdu, after_empty: bool, counted: &Counted) -> Seen
    requires near { seen.now.plain_len + counted.now.all < 2 ^ 64 }
    ensures { result ≡ with_counted seen.now again.now after_empty counted.now }
{
    let alone = after_empty && again.was_primary();
    Seen {
        plain_len: if alone {
            counted.all
        } else {
            seen.plain_len + counted.all
        },
        data_len: seen.data_len.max(counted.pixels),
        first: if alone {
            First {
                hdu: again.header.hdu,
                start: again.header.start,
                after_empty,
            }
        } else {
            seen.first
        },
    }
}

// Decodes the tiles of an HDU, if it is packed, and counts the bytes that it stands for.
fn look_at_hdu<R: Threads + Sync, S: Source, G: Gate>(
    crew: &Crew<'_, R, G>,
    source: &mut S,
    window: &mut Window,
    again: &ReadHdu,
    space: &mut Workspace,
) -> Result<Counted, Stop>
    requires again { (n : ℕ) × (n < 2 ^ 64) × (S.attached source.old ≡ Some n) × IsAgain (S.held source.old) n space.old.header again.now }
    requires window { IfSome again.now.image (λ i. HasSlotsFor (pixels_of i.plan 0) window.old) }
    requires translated { len space.old.header + 2880 ≤ len space.old.translated }
    requires copy { 4096 ≤ len space.old.copy }
    ensures counted { IfOk result (λ c. IfSome (S.held source.old) (λ g. IsHduLooked g again.now.header c)) }
    ensures fault { IfRefused result (λ x. IfSome (S.held source.old) (λ g. IsFirstRowFault g (all_rows g (again.now.header ∷ [])) (Some x))) }
    ensures few { IfOk result (λ c. again.now.header.start + c.all ≤ next_start_of again.now.header + 2 ^ 45) }
    ensures stays { SourceStays S.held S.attached S.ranges source.old source.new × SpaceStays space.old space.new
        × WindowStays window.old window.new }
    ensures read { IfSome (S.held source.old) (λ g. LogsIn (data_touched Unpack g again.now.header) (S.ranges source.old) (S.ranges source.new)) }
    ensures cause { Fetches (S.tally source.old) (S.tally source.new) result }
{
    // How many bytes an image has, whose rows stand for pixels.
    hdus_law();
    plain_law();
    tiles_law();
    match &again.image {
        Some(image) => {
            let rows = space.copy.as_mut_slice();
            decode_tiles(crew, source, window, &again.header, image, rows)?;
            let buf = space.header.as_slice();
            Ok(count_image(buf, &again.header, image, space.translated.as_mut_slice()))
        }
        None => Ok(Counted {
            all: next_start(&again.header) - again.header.start,
            pixels: 0,
        }),
    }
}

// The bytes of an image: its header, which is made for that, its pixels and their fill.
fn count_image(buf: &[u8], header: &Header, image: &PackedImage, made: &mut [u8]) -> Counted
    requires room { 2880 * header.now.blocks ≤ len buf.now }
    requires header { IsHeaderOf (take (2880 * header.now.blocks) buf.now) header.now }
    requires plan { IsPackedPlan (take (2880 * header.now.blocks) buf.now) header.now image.now.plan }
    requires image { IsReadable image.now }
    requires made { 2880 * header.now.blocks + 2880 ≤ len made.old }
    ensures counted { IsImageCounted (take (2880 * header.now.blocks) buf.now) image.now.plan result }
    ensures few { result.all ≤ 2 ^ 45 }
    ensures len { len made.new ≡ len made.old }
{
    let buf = &buf[..BLOCK_LEN * header.blocks as usize];
    let len = to_plain(buf, header, &image.plan, made) as u64;
    let pixels = pixels_len(image);
    Counted {
        all: len + pixels.div_ceil(BLOCK_LEN as u64) * BLOCK_LEN as u64,
        pixels,
    }
}

/// The bytes of the pixels of an image.
pub fn pixels_len(image: &PackedImage) -> u64
    requires image { IsReadable image.now }
    ensures len { result ≡ pixel_bits image.now.plan / 8 * product (lengths_of image.now.plan.shape) }
    ensures most { result ≤ 2 ^ 43 }
{
    plain_len(image.plan.bitpix, volume(&image.plan.shape))
}

// The file that the packed file stands for has more than 2^62 bytes.
fn too_long(hdus: u32, length: u64) -> Stop
    ensures { result ≡ Refused (refusal hdus (AtByte length) Limit) }
{
    Stop::Refused(Fault {
        hdu: hdus,
        at: Place::Byte(length),
        kind: Kind::Limit,
    })
}
